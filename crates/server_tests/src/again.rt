//! A client whose writes stop inside its first draw, and the same user's next one.

use crate::rows::play;
use server_stage::{
    Habit, Message, Received, Seen, StageAct, Stop, System, WINDOW, are_alike, shows,
};
use std::alloc::Global;

/// The size of the clients' terminals.
const SIZE: (usize, usize) = (24, 80);

// A client of the owner, of that size.
const ATTACH: &[u8] =
    b"A\0G\0\x18\0P0000000000000000000000000000000000000000000000000000000000000000own";

// Two clients of the owner, of which the first takes this many bytes.
fn broken(most: usize) -> [StageAct<'static>; 8] {
    [
        StageAct::Connect(Habit::Whole, WINDOW),
        StageAct::Send(0, b"O\0\x02hi"),
        StageAct::Turns(3),
        StageAct::Connect(Habit::Takes(most), ATTACH),
        StageAct::Turns(3),
        StageAct::Connect(Habit::Whole, ATTACH),
        StageAct::Turns(3),
        StageAct::Note(0),
    ]
}

// The bytes that draw the page, of all that a client was sent: a WELCOME and one draw.
fn draw_of(alloc: Global, whole: &[u8]) -> Result<Vec<u8>, Stop> {
    let received = Received::of(alloc, whole)?;
    match received.messages.as_slice() {
        [Message::Welcome(0), Message::Draw(_)] => received.drawn(alloc),
        _ => Err(Stop::Other("it isn't drawn once")),
    }
}

// Whether the first client took this many bytes of the whole, and the second was sent all of it. A
// terminal that read the first client's bytes shows the same after the second's.
fn is_same(alloc: Global, seen: &Seen, whole: &[u8], draw: &[u8], most: usize) -> bool {
    // A WELCOME has four bytes, and the head of a draw three.
    let read = draw.get(..most.saturating_sub(7)).unwrap_or(draw);
    let Some(first) = whole.get(..most) else {
        return false;
    };
    let is_taken = seen.bytes(0, 1) == first && seen.bytes(0, 2) == whole;
    is_taken && matches!(are_alike(alloc, SIZE, &[draw], &[read, draw]), Ok(true))
}

fn is_anew(rt: &impl System, whole: &[u8], draw: &[u8], most: usize) -> bool {
    match play(rt, &broken(most)) {
        Some(seen) => is_same(rt.alloc(), &seen, whole, draw, most),
        None => false,
    }
}

// The first number of bytes after which the next client isn't drawn anew.
fn first_wrong(rt: &impl System, whole: &[u8], draw: &[u8]) -> Option<usize> {
    for most in 0..whole.len() {
        if !is_anew(rt, whole, draw, most) {
            return Some(most);
        }
    }
    None
}

// Whether a client that takes all is drawn the page, and each next one is drawn anew.
fn are_anew(rt: &impl System, whole: &[u8]) -> bool {
    let Ok(draw) = draw_of(rt.alloc(), whole) else {
        return false;
    };
    let is_page = shows(rt.alloc(), SIZE, &draw, "hi", "");
    matches!(is_page, Ok(true)) && first_wrong(rt, whole, &draw).is_none()
}

fn is_drawn_anew(rt: &impl System) -> bool {
    match play(rt, &broken(usize::MAX)) {
        Some(seen) => are_anew(rt, seen.bytes(0, 1)),
        None => false,
    }
}

#[test]
fn a_second_attachment_is_drawn_anew(rt: HostRuntime) {
    assert!(rt; is_drawn_anew(&rt));
}
