//! Pastes of many clients at once into a window that takes nothing.

use crate::rows::{Expected, NoteRow, is_played};
use server_stage::{ATTACH, Habit, StageAct, System, WINDOW};
use std::alloc::{AllocError, Global};

// So many clients paste.
const CLIENTS: usize = 60;

// A frame of 8,192 keys.
const FRAME: usize = 8_192;

// A client pastes four frames. One read takes three of them, and most of the fourth.
const FRAMES: usize = 4;

// In one turn 60 clients could type 1,474,560 bytes, and a window for which more than 1,048,576 bytes wait
// is let go. It stays, and its program gets all once it reads.
static HELD: [NoteRow; 2] = [
    (0, Expected::Gone(0, None)),
    (1, Expected::TypedLen(0, CLIENTS * FRAMES * FRAME)),
];

fn paste(alloc: Global, frames: usize) -> Result<Vec<u8>, AllocError> {
    let mut bytes = Vec::new(alloc);
    for _ in 0..frames {
        bytes.extend_from_slice(b"K\x20\0")?;
        for _ in 0..FRAME {
            bytes.push(b'x')?;
        }
    }
    Ok(bytes)
}

// The window's program takes its WELCOME alone, and the rest once all have pasted.
fn crowd<'a>(alloc: Global, paste: &'a [u8]) -> Result<Vec<StageAct<'a>>, AllocError> {
    let first = [
        StageAct::SetTime(0, 0),
        StageAct::Connect(Habit::Takes(4), WINDOW),
        StageAct::Turns(2),
    ];
    let mut acts = Vec::from_slice(alloc, &first)?;
    for _ in 0..CLIENTS {
        acts.push(StageAct::Connect(Habit::Whole, ATTACH))?;
    }
    acts.push(StageAct::Turns(2))?;
    for client in 1..=CLIENTS {
        acts.push(StageAct::Send(client, paste))?;
    }
    acts.extend_from_slice(&[
        StageAct::Turns(2),
        StageAct::Note(0),
        StageAct::SetHabit(0, Habit::Whole),
        StageAct::Turns(20),
        StageAct::Note(0),
    ])?;
    Ok(acts)
}

fn is_held(rt: &impl System) -> Result<bool, AllocError> {
    let alloc = rt.alloc();
    let bytes = paste(alloc, FRAMES)?;
    let acts = crowd(alloc, &bytes)?;
    Ok(is_played(rt, &acts, &HELD))
}

// More frames than a window holds that takes nothing. Then their client goes without a word: the session learns it,
// though the window still takes nothing. What was held isn't typed any more.
static GOES: [NoteRow; 4] = [
    (0, Expected::Len(2)),
    (1, Expected::Len(1)),
    (1, Expected::LastEntries(b"D")),
    (2, Expected::HasTyped(0, b'y', false)),
];

fn goes(rt: &impl System) -> Result<bool, AllocError> {
    let mut bytes = paste(rt.alloc(), 2 * CLIENTS)?;
    bytes.extend_from_slice(b"K\0\x01y")?;
    let acts = [
        StageAct::SetTime(0, 0),
        StageAct::Connect(Habit::Takes(4), WINDOW),
        StageAct::Turns(2),
        StageAct::Connect(Habit::Whole, ATTACH),
        StageAct::Turns(2),
        StageAct::Send(1, bytes.as_slice()),
        StageAct::SetTime(1, 20),
        StageAct::Turns(200),
        StageAct::Note(0),
        StageAct::End(1),
        StageAct::Turns(200),
        StageAct::Note(0),
        StageAct::SetHabit(0, Habit::Whole),
        StageAct::Turns(20),
        StageAct::Note(0),
    ];
    Ok(is_played(rt, &acts, &GOES))
}

#[test]
fn who_pastes_too_much_may_go(rt: HostRuntime) {
    assert!(rt; matches!(goes(&rt), Ok(true)));
}

#[test]
fn a_crowd_pastes(rt: HostRuntime) {
    assert!(rt; matches!(is_held(&rt), Ok(true)));
}
