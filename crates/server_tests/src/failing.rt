//! Streams that are slow, and calls that would wait, are interrupted or fail at each place in turn.

use crate::rows::{play, typed};
use server_stage::{
    ACLADD, ATTACH, ATTACH_BOB, Habit, MULTIUSER, Received, Seen, StageAct, StreamLog, System,
    WINDOW, shows,
};
use std::alloc::Global;
use std::io::ErrorKind;

// The numbers of the connections of the window, of bob and of the client.
const WINDOW_AT: usize = 2;

const BOB: usize = 3;

const CLIENT: usize = 4;

// A client of the owner, which types `xy` and whose stream has the habit. Beside it the window's
// program writes, and bob types `z` after this many turns.
fn beside(habit: Habit, turns: usize) -> [StageAct<'static>; 18] {
    [
        StageAct::Connect(Habit::Whole, MULTIUSER),
        StageAct::Turns(2),
        StageAct::Connect(Habit::Whole, ACLADD),
        StageAct::Turns(2),
        StageAct::Connect(Habit::Whole, WINDOW),
        StageAct::Send(WINDOW_AT, b"O\0\x02hi"),
        StageAct::Connect(Habit::Whole, ATTACH_BOB),
        StageAct::Turns(4),
        StageAct::SetHabit(WINDOW_AT, Habit::Slow),
        StageAct::SetHabit(BOB, Habit::Slow),
        StageAct::Connect(habit, ATTACH),
        StageAct::Send(CLIENT, b"K\0\x02xy"),
        StageAct::Send(WINDOW_AT, b"O\0\x05there"),
        StageAct::Turns(turns),
        StageAct::Note(0),
        StageAct::Send(BOB, b"K\0\x01z"),
        StageAct::Turns(20),
        StageAct::Note(0),
    ]
}

// The trail's entries if this many bytes of the client's stream were read. The first are those of two
// commands, the window and bob; then come the client's; the last K is of what bob types.
fn entries_by(read: usize, is_lost: bool) -> &'static [u8] {
    match (read < 74, read < 79, is_lost) {
        (true, _, _) => b"CCOAK",
        (false, true, true) => b"CCOAADK",
        (false, true, false) => b"CCOAAK",
        (false, false, true) => b"CCOAAKDK",
        (false, false, false) => b"CCOAAKK",
    }
}

fn typed_by(read: usize) -> &'static [u8] {
    if read < 79 { b"z" } else { b"xyz" }
}

// Whether what was read was done, and a client that is lost was detached.
fn is_done(alloc: Global, seen: &Seen, client: &StreamLog, is_lost: bool) -> bool {
    let Some(typed) = typed(alloc, seen.bytes(1, WINDOW_AT)) else {
        return false;
    };
    let entries = seen.entries.as_slice();
    entries == entries_by(client.read, is_lost) && typed.as_slice() == typed_by(client.read)
}

// Whether a client's terminal shows all that the window's program wrote.
fn shows_all(alloc: Global, bytes: &[u8]) -> Option<bool> {
    let drawn = Received::of(alloc, bytes).ok()?.drawn(alloc).ok()?;
    shows(alloc, (4, 20), &drawn, "hithere", "").ok()
}

// Whether a client whose calls don't fail got its WELCOME, and it and bob were drawn all.
fn is_passed(alloc: Global, seen: &Seen) -> Option<bool> {
    let client = seen.sent(1, CLIENT)?;
    let bytes = client.bytes.as_slice();
    let is_whole = client.read == 79 && bytes.starts_with(b"y\0\x01\0d");
    let is_shown = shows_all(alloc, bytes)? && shows_all(alloc, seen.bytes(1, BOB))?;
    Some(is_whole && is_shown && is_done(alloc, seen, client, false))
}

fn passes_all(rt: &impl System, habit: Habit) -> bool {
    match play(rt, &beside(habit, 400)) {
        Some(seen) => is_passed(rt.alloc(), &seen) == Some(true),
        None => false,
    }
}

fn slow_streams_pass(rt: &impl System) -> bool {
    for habit in [Habit::Whole, Habit::Steady, Habit::Slow] {
        if !passes_all(rt, habit) {
            return false;
        }
    }
    true
}

// A way for a call to fail, and whether the client is lost by it.
#[derive(Clone, Copy)]
struct Failing {
    kind: ErrorKind,
    is_lost: bool,
}

static FAILING: [Failing; 4] = [
    Failing {
        kind: ErrorKind::WouldBlock,
        is_lost: false,
    },
    Failing {
        kind: ErrorKind::Interrupted,
        is_lost: false,
    },
    Failing {
        kind: ErrorKind::ConnectionReset,
        is_lost: true,
    },
    Failing {
        kind: ErrorKind::BrokenPipe,
        is_lost: true,
    },
];

// Whether the call was made again, or its fault closed that connection alone: it wasn't called again,
// and was sent a beginning of what it is sent without the fault. Bob was sent the same as without it.
fn is_served(alloc: Global, calm: &Seen, seen: &Seen, failing: Failing, at: usize) -> Option<bool> {
    let client = seen.sent(1, CLIENT)?;
    let bytes = client.bytes.as_slice();
    let is_served = if failing.is_lost {
        client.calls == at.saturating_add(1) && calm.bytes(1, CLIENT).starts_with(bytes)
    } else {
        client.read == 79 && shows_all(alloc, bytes)?
    };
    let is_alone = seen.bytes(1, BOB) == calm.bytes(1, BOB);
    Some(is_served && is_alone && is_done(alloc, seen, client, failing.is_lost))
}

fn is_as_due(rt: &impl System, calm: &Seen, failing: Failing, at: usize) -> bool {
    match play(rt, &beside(Habit::Once(at, failing.kind), 60)) {
        Some(seen) => is_served(rt.alloc(), calm, &seen, failing, at) == Some(true),
        None => false,
    }
}

// The number of calls of the client's stream before bob types, if it is read whole.
fn places(calm: &Seen) -> Option<usize> {
    match calm.sent(0, CLIENT) {
        Some(client) if client.read == 79 => Some(client.calls),
        _ => None,
    }
}

// The first way to fail, by its number, and call at which the loop does something else.
fn first_wrong(rt: &impl System, calm: &Seen) -> Option<(usize, usize)> {
    let Some(places) = places(calm) else {
        return Some((usize::MAX, 0));
    };
    for (number, failing) in FAILING.iter().enumerate() {
        for at in 0..places {
            if !is_as_due(rt, calm, *failing, at) {
                return Some((number, at));
            }
        }
    }
    None
}

#[test]
fn slow_streams_pass_all(rt: HostRuntime) {
    assert!(rt; slow_streams_pass(&rt));
}

#[test]
fn each_call_waits_or_fails(rt: HostRuntime) {
    let Some(calm) = play(&rt, &beside(Habit::Steady, 60)) else {
        panic!(rt; "nothing is played")
    };
    assert_eq!(rt; first_wrong(&rt, &calm), None);
}
