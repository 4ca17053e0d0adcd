//! What a user tries in vain, and what becomes of keys that wait.

use crate::rows::{play, typed};
use server_stage::{
    ACLADD, ATTACH_BOB, Habit, MULTIUSER, Message, Received, Seen, StageAct, System, WINDOW,
};
use std::alloc::{AllocError, Global};

// Commands of the owner, `aclchg bob -w #` and `aclchg bob +w #`.
const TAKE: &[u8] = b"C\0\x54\xff0000000000000000000000000000000000000000000000000000000000000000\
    \x03ownaclchg bob -w #";

const GIVE: &[u8] = b"C\0\x54\xff0000000000000000000000000000000000000000000000000000000000000000\
    \x03ownaclchg bob +w #";

// The connection of bob's client.
const BOB: usize = 4;

// Bob attaches and is denied this many letters, each in a turn of its own: the attach cost two units.
const DENIED: usize = 998;

const LETTER: &[u8] = b"K\0\x01x";

// Bob may not type, and spends all his units on this letter. Then come the rest of the acts.
fn spend<'a>(
    alloc: Global,
    letter: &'a [u8],
    rest: &[StageAct<'a>],
) -> Result<Vec<StageAct<'a>>, AllocError> {
    let first = [
        StageAct::SetTime(0, 0),
        StageAct::Connect(Habit::Whole, WINDOW),
        StageAct::Turns(2),
        StageAct::Connect(Habit::Whole, MULTIUSER),
        StageAct::Turns(2),
        StageAct::Connect(Habit::Whole, ACLADD),
        StageAct::Turns(2),
        StageAct::Connect(Habit::Whole, TAKE),
        StageAct::Turns(2),
        StageAct::Connect(Habit::Whole, ATTACH_BOB),
        StageAct::Turns(2),
    ];
    let mut acts = Vec::from_slice(alloc, &first)?;
    for _ in 0..DENIED {
        acts.extend_from_slice(&[StageAct::Send(BOB, letter), StageAct::Turns(1)])?;
    }
    acts.extend_from_slice(rest)?;
    Ok(acts)
}

// How many texts a connection was sent up to a note.
fn told(alloc: Global, seen: &Seen, note: usize, connection: usize) -> Option<usize> {
    let received = Received::of(alloc, seen.bytes(note, connection)).ok()?;
    let mut count = 0usize;
    for message in &received.messages {
        if matches!(message, Message::Say(_)) {
            count = count.saturating_add(1);
        }
    }
    Some(count)
}

// Letters that wait for a unit for a second are dropped, and bob is told so. They don't reach the window
// once bob may type; what bob types then does.
fn are_dropped(rt: &impl System) -> Option<bool> {
    let alloc = rt.alloc();
    let rest = [
        StageAct::Send(BOB, LETTER),
        StageAct::Turns(1),
        StageAct::Send(BOB, LETTER),
        StageAct::Turns(1),
        StageAct::Note(0),
        StageAct::SetTime(1, 0),
        StageAct::Turns(1),
        StageAct::Note(0),
        StageAct::Connect(Habit::Whole, GIVE),
        StageAct::Turns(2),
        StageAct::Send(BOB, b"K\0\x01z"),
        StageAct::Turns(1),
        StageAct::Note(0),
    ];
    let acts = spend(alloc, LETTER, &rest).ok()?;
    let seen = play(rt, &acts)?;
    let first = told(alloc, &seen, 0, BOB)?;
    let second = told(alloc, &seen, 1, BOB)?;
    let typed = typed(alloc, seen.bytes(2, 0))?;
    Some(first == DENIED && second == DENIED + 1 && typed.as_slice() == b"z".as_slice())
}

// Letters that wait for a unit are judged by one step, by the rights of then. A unit is there after a
// millisecond, and the next one a second after that.
fn are_joined(rt: &impl System) -> Option<bool> {
    let alloc = rt.alloc();
    let rest = [
        StageAct::SetTime(0, 1),
        StageAct::Send(BOB, LETTER),
        StageAct::Turns(1),
        StageAct::Note(0),
        StageAct::Send(BOB, LETTER),
        StageAct::Turns(1),
        StageAct::Send(BOB, b"K\0\x02yz"),
        StageAct::Turns(1),
        StageAct::Connect(Habit::Whole, GIVE),
        StageAct::Turns(990),
        StageAct::Note(0),
        StageAct::Turns(20),
        StageAct::Note(0),
    ];
    let acts = spend(alloc, LETTER, &rest).ok()?;
    let seen = play(rt, &acts)?;
    let first = told(alloc, &seen, 0, BOB)?;
    let second = typed(alloc, seen.bytes(1, 0))?;
    let third = typed(alloc, seen.bytes(2, 0))?;
    Some(first == DENIED + 1 && second.is_empty() && third.as_slice() == b"xyz".as_slice())
}

#[test]
fn keys_that_wait_are_dropped(rt: HostRuntime) {
    assert!(rt; are_dropped(&rt) == Some(true));
}

#[test]
fn keys_that_wait_are_joined(rt: HostRuntime) {
    assert!(rt; are_joined(&rt) == Some(true));
}
