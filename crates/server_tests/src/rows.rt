//! Plays, and rows that say what is to be seen of them.

use server_stage::{LoopState, Received, Seen, ServerEnd, StageAct, System, Why, perform, shows};
use std::alloc::Global;

/// What is to be seen at a note. Connections count from 0, in the order in which they came.
#[derive(Clone, Copy)]
pub enum Expected {
    /// A connection was sent these bytes.
    Sent(usize, &'static [u8]),
    /// A window's program has these bytes.
    Typed(usize, &'static [u8]),
    /// A window's program has this many bytes.
    TypedLen(usize, usize),
    /// A window's program has this byte, or hasn't.
    HasTyped(usize, u8, bool),
    /// A connection is let go for this cause, or stays.
    Gone(usize, Option<Why>),
    /// A client's terminal of 4 lines by 20 columns shows this text.
    Shows(usize, &'static str),
    /// This many connections are there.
    Len(usize),
    /// Whether the loop has something to do, though nothing comes.
    IsDue(bool),
    /// Whether the loop is to try something again soon.
    HasWaiting(bool),
    /// How the server is to end, if it is.
    End(Option<ServerEnd>),
    /// The trail's entries at last, a letter for each.
    Entries(&'static [u8]),
    /// The trail's last entries, a letter for each.
    LastEntries(&'static [u8]),
}

/// A note's number, and what is to be seen at it.
pub type NoteRow = (usize, Expected);

/// The bytes for a window's program, of these frames.
pub fn typed(alloc: Global, bytes: &[u8]) -> Option<Vec<u8>> {
    Received::of(alloc, bytes).ok()?.input(alloc).ok()
}

// Whether a client that was sent these bytes shows this text.
fn is_shown(alloc: Global, bytes: &[u8], text: &str) -> Option<bool> {
    let drawn = Received::of(alloc, bytes).ok()?.drawn(alloc).ok()?;
    shows(alloc, (4, 20), &drawn, text, "").ok()
}

// Whether a window's program that was sent these frames has the wanted bytes.
fn has_typed(alloc: Global, bytes: &[u8], wanted: Expected) -> bool {
    let Some(typed) = typed(alloc, bytes) else {
        return false;
    };
    match wanted {
        Expected::Typed(_, bytes) => typed.as_slice() == bytes,
        Expected::TypedLen(_, len) => typed.len() == len,
        Expected::HasTyped(_, byte, has) => typed.contains(&byte) == has,
        _ => false,
    }
}

// Whether a connection that was sent these frames is let go for this cause, or stays.
fn is_gone(alloc: Global, bytes: &[u8], why: Option<Why>) -> bool {
    match Received::of(alloc, bytes) {
        Ok(received) => received.gone() == why,
        Err(_) => false,
    }
}

// Whether the loop stands as wanted.
fn stands(standing: LoopState, wanted: Expected) -> bool {
    match wanted {
        Expected::Len(len) => standing.len == len,
        Expected::IsDue(is_due) => standing.is_due == is_due,
        Expected::HasWaiting(has_waiting) => standing.has_waiting == has_waiting,
        Expected::End(end) => standing.end == end,
        _ => false,
    }
}

// Whether what a row says is seen.
fn is_so(alloc: Global, seen: &Seen, (note, wanted): NoteRow) -> bool {
    match wanted {
        Expected::Sent(place, bytes) => seen.bytes(note, place) == bytes,
        Expected::Typed(place, _)
        | Expected::TypedLen(place, _)
        | Expected::HasTyped(place, _, _) => { has_typed(alloc, seen.bytes(note, place), wanted) }
        Expected::Gone(place, why) => is_gone(alloc, seen.bytes(note, place), why),
        Expected::Shows(place, text) => {
            is_shown(alloc, seen.bytes(note, place), text) == Some(true)
        }
        Expected::Entries(entries) => seen.entries.as_slice() == entries,
        Expected::LastEntries(entries) => seen.entries.ends_with(entries),
        _ => match seen.standing(note) {
            Some(standing) => stands(standing, wanted),
            None => false,
        },
    }
}

/// The first of the rows that says something else than what is seen.
pub fn first_wrong(alloc: Global, seen: &Seen, rows: &[NoteRow]) -> Option<usize> {
    for (place, row) in rows.iter().enumerate() {
        if !is_so(alloc, seen, *row) {
            return Some(place);
        }
    }
    None
}

/// What is seen when a loop over a new session performs the acts.
pub fn play(rt: &impl System, acts: &[StageAct]) -> Option<Seen> {
    perform(rt, 1, acts).ok()
}

/// Whether all that the rows say is seen when a loop performs the acts.
pub fn is_played(rt: &impl System, acts: &[StageAct], rows: &[NoteRow]) -> bool {
    match play(rt, acts) {
        Some(seen) => first_wrong(rt.alloc(), &seen, rows).is_none(),
        None => false,
    }
}
