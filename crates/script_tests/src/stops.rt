//! Plays the scripts of several users by a session whose memory is refused once. In a plain run no
//! allocation is refused; `tools/refusals` runs the test once for each of its allocations and refuses
//! that one. So at most one is refused in a run, and a second try never is.

use crate::judging::are_lines;
use crate::rows::{DRAWN, FOUR_CLIENTS, put_windows};
use crate::{several_users, splits, views};
use acl::UserId;
use session::{Effect, Event, Reply, Session, print_effect, print_reply, read_event};
use std::alloc::{AllocError, Global};

/// The event without this many of its first keys.
fn rest_of(event: Event<'_>, part: usize) -> Event<'_> {
    match event {
        Event::Keys { client, bytes } if part <= bytes.len() => {
            let (_, bytes) = bytes.split_at(part);
            Event::Keys { client, bytes }
        }
        _ => event,
    }
}

/// Takes an event to its end, and after a refusal continues at the place where the run stopped. Returns
/// whether the whole event is taken.
fn is_taken(
    session: &mut Session,
    event: Event<'_>,
    effects: &mut Vec<Effect>,
    replies: &mut Vec<Reply>,
) -> bool {
    let ran = session.run(&[event], effects, replies);
    if !ran.stopped {
        return ran.taken == 1;
    }
    let ran = session.run(&[rest_of(event, ran.part)], effects, replies);
    ran.taken == 1 && !ran.stopped
}

/// The lines of an event's effects, followed by the line of its reply.
fn lines_of(
    alloc: Global,
    event: &Event<'_>,
    effects: &[Effect],
    replies: &[Reply],
) -> Result<String, AllocError> {
    let mut printed = String::new(alloc);
    for effect in effects {
        print_effect(effect, &mut printed)?;
    }
    for reply in replies {
        print_reply(event, reply, &mut printed)?;
    }
    Ok(printed)
}

/// Whether an event's output is the one that its line wants.
fn prints(alloc: Global, session: &mut Session, event: Event<'_>, line: &str) -> bool {
    let mut effects = Vec::new(alloc);
    let mut replies = Vec::new(alloc);
    if !is_taken(session, event, &mut effects, &mut replies) {
        return false;
    }
    let printed = match lines_of(alloc, &event, &effects, &replies) {
        Ok(printed) => Ok(printed),
        Err(_) => lines_of(alloc, &event, &effects, &replies),
    };
    match printed {
        Ok(printed) => are_lines(line, &printed),
        Err(_) => false,
    }
}

/// Whether the output of each event of a text is the one that its line wants.
fn are_so(alloc: Global, session: &mut Session, text: &str) -> bool {
    for line in text.lines() {
        let words = line.split(" => ").next().unwrap_or(line);
        let mut bytes = Vec::new(alloc);
        if bytes.reserve(words.len()).is_err() && bytes.reserve(words.len()).is_err() {
            return false;
        }
        let Ok(Some(event)) = read_event(words.as_bytes(), &mut bytes) else {
            return false;
        };
        if !prints(alloc, session, event, line) {
            return false;
        }
    }
    true
}

/// Whether a beginning and then a row have the wanted output in one session.
fn is_row_so(alloc: Global, beginning: &str, row: &str) -> bool {
    let (_, events) = row.split_once('\n').unwrap_or(("", ""));
    let Some(owner) = UserId::of(b"own") else {
        return false;
    };
    match Session::new(alloc, owner).or(Session::new(alloc, owner)) {
        Ok(mut session) => {
            are_so(alloc, &mut session, beginning) && are_so(alloc, &mut session, events)
        }
        Err(_) => false,
    }
}

/// The first row with a wrong output.
fn first_wrong(alloc: Global, beginning: &str, rows: &'static str) -> Option<&'static str> {
    for row in rows.split("\n= ") {
        if !row.is_empty() && !is_row_so(alloc, beginning, row) {
            return Some(row);
        }
    }
    None
}

/// Whether 40 windows open, and one more after one of them closes.
fn are_forty_open(alloc: Global) -> bool {
    let mut text = String::new(alloc);
    if put_windows(&mut text).is_err() {
        text.clear();
        let _second = put_windows(&mut text);
    }
    is_row_so(alloc, &text, "")
}

#[test]
fn rows_are_printed_though_refused_once(rt: HostRuntime) {
    let alloc = rt.alloc();
    let wrong = first_wrong(alloc, FOUR_CLIENTS, several_users::CASES)
        .or(first_wrong(alloc, FOUR_CLIENTS, several_users::SECOND))
        .or(first_wrong(alloc, FOUR_CLIENTS, views::CASES))
        .or(first_wrong(alloc, "", splits::CASES))
        .or(first_wrong(alloc, DRAWN, views::DRAWS))
        .or(first_wrong(alloc, FOUR_CLIENTS, views::REVOKED));
    assert_eq!(rt; wrong, None);
    assert!(rt; are_forty_open(alloc));
}
