//! Much at once: a peer that reads too slowly, whose turn it is, and a crowd.

use crate::rows::{Expected, NoteRow, first_wrong, is_played, play};
use server_stage::{ATTACH, Habit, Seen, StageAct, System, WELCOME, WINDOW, Why};
use std::alloc::{AllocError, Global};

// A beginning, and then this piece as many times.
fn often(
    alloc: Global,
    beginning: &[u8],
    piece: &[u8],
    times: usize,
) -> Result<Vec<u8>, AllocError> {
    let mut bytes = Vec::from_slice(alloc, beginning)?;
    for _ in 0..times {
        bytes.extend_from_slice(piece)?;
    }
    Ok(bytes)
}

// A frame of output that asks 2,048 times for the terminal's state, each time with four bytes. Each answer
// has four bytes, too.
fn full_frame(alloc: Global) -> Result<Vec<u8>, AllocError> {
    often(alloc, b"O\x20\0", b"\x1b[5n", 2_048)
}

// A window whose program takes nothing but its WELCOME asks in 127 frames; then the rest happens.
fn flood<'a>(
    alloc: Global,
    frame: &'a [u8],
    rest: &[StageAct<'a>],
) -> Result<Vec<StageAct<'a>>, AllocError> {
    let first = [
        StageAct::Connect(Habit::Takes(4), WINDOW),
        StageAct::Turns(2),
        StageAct::Connect(Habit::Whole, ATTACH),
        StageAct::Turns(2),
    ];
    let mut acts = Vec::from_slice(alloc, &first)?;
    for _ in 0..127 {
        acts.extend_from_slice(&[StageAct::Send(0, frame), StageAct::Turns(1)])?;
    }
    acts.extend_from_slice(rest)?;
    Ok(acts)
}

// A frame of 8,192 bytes of input has 8,195 bytes: 127 of them have 1,040,765 bytes, and 128 have 1,048,960. Up
// to 1,048,576 bytes may wait. With more, the peer is sent all and let go, and its window is closed.
static TOO_FAR: [NoteRow; 4] = [
    (0, Expected::Sent(0, WELCOME)),
    (1, Expected::TypedLen(0, 128 * 8_192)),
    (1, Expected::Gone(0, Some(Why::TooFarBehind))),
    (1, Expected::LastEntries(b"AX")),
];

// In the last frame's turn nothing is taken before the second write.
fn goes_too_far(rt: &impl System) -> Result<bool, AllocError> {
    let frame = full_frame(rt.alloc())?;
    let rest = [
        StageAct::Note(0),
        StageAct::SetHabit(0, Habit::Later(1)),
        StageAct::Send(0, &frame),
        StageAct::Turns(1),
        StageAct::Note(0),
    ];
    let acts = flood(rt.alloc(), &frame, &rest)?;
    Ok(is_played(rt, &acts, &TOO_FAR))
}

// After the turn in which the window is given up the loop has something to do, though nothing comes;
// before that turn and after the next one it hasn't.
static GIVEN_UP: [NoteRow; 4] = [
    (0, Expected::IsDue(false)),
    (1, Expected::IsDue(true)),
    (2, Expected::IsDue(false)),
    (2, Expected::LastEntries(b"AX")),
];

// Whether the client is drawn between the last two notes.
fn is_drawn(seen: &Seen) -> bool {
    seen.bytes(1, 1).len() < seen.bytes(2, 1).len()
}

// The window's program reads no more. The window is closed when all else of the turn is done, and no
// event tells the loop of it; in the next turn its client is drawn.
fn sees_its_last_step(rt: &impl System) -> Result<bool, AllocError> {
    let alloc = rt.alloc();
    let frame = full_frame(alloc)?;
    let rest = [
        StageAct::Note(0),
        StageAct::Send(0, &frame),
        StageAct::Turns(1),
        StageAct::Note(0),
        StageAct::QuietTurns(1),
        StageAct::Note(0),
    ];
    let acts = flood(alloc, &frame, &rest)?;
    Ok(match play(rt, &acts) {
        Some(seen) => is_drawn(&seen) && first_wrong(alloc, &seen, &GIVEN_UP).is_none(),
        None => false,
    })
}

// A window asks for its state, as output.
const ASK: &[u8] = b"O\0\x04\x1b[5n";

// Keys are done before output, and of output what one read takes: the second question, behind 32,768
// bytes, is read in the second turn. Eight steps of a client are done in a turn, so the first client's
// letter, which comes after its commands, is done in turn 126. No more is sent after the first turn.
static SHARES: [NoteRow; 4] = [
    (0, Expected::Typed(0, b"b\x1b[0n")),
    (1, Expected::Typed(0, b"b\x1b[0n\x1b[0n")),
    (2, Expected::HasTyped(0, b'a', false)),
    (3, Expected::HasTyped(0, b'a', true)),
];

// A window prints this between two questions for its state, and a client types these commands in
// one frame and then a letter; another client types a letter.
fn busy<'a>(output: &'a [u8], commands: &'a [u8]) -> [StageAct<'a>; 20] {
    [
        StageAct::SetTime(0, 0),
        StageAct::Connect(Habit::Whole, WINDOW),
        StageAct::Turns(2),
        StageAct::Connect(Habit::Whole, ATTACH),
        StageAct::Connect(Habit::Whole, ATTACH),
        StageAct::Turns(2),
        StageAct::Send(0, ASK),
        StageAct::Send(0, output),
        StageAct::Send(0, ASK),
        StageAct::Send(1, commands),
        StageAct::Send(1, b"K\0\x01a"),
        StageAct::Send(2, b"K\0\x01b"),
        StageAct::Turns(1),
        StageAct::Note(0),
        StageAct::QuietTurns(1),
        StageAct::Note(0),
        StageAct::QuietTurns(123),
        StageAct::Note(0),
        StageAct::QuietTurns(1),
        StageAct::Note(0),
    ]
}

// 32,768 bytes, and 1,000 commands.
fn nobody_waits(rt: &impl System) -> Result<bool, AllocError> {
    let alloc = rt.alloc();
    let frame = often(alloc, b"O\x20\0", b"y", 8_192)?;
    let output = often(alloc, b"", &frame, 4)?;
    let commands = often(alloc, b"K\x07\xD0", b"\x01n", 1_000)?;
    Ok(is_played(rt, &busy(&output, &commands), &SHARES))
}

// Each frame asks for the window's state and has 8,192 bytes of output, so the answers, of 4 bytes each,
// count the frames that are done. The first turn does 32,768 bytes of all windows' output: three frames
// of the first window, since one read takes no fourth, and the second window's frame. The third window
// waits. The next turn does the client's keys, and then begins with the third window, though the first
// window has four more frames.
static SHARED: [NoteRow; 3] = [
    (0, Expected::TypedLen(0, 3 * 4)),
    (0, Expected::Typed(1, b"\x1b[0n")),
    (1, Expected::Typed(2, b"k\x1b[0n")),
];

// Three windows print at once. After a turn a client selects the third one and types a letter.
fn shared<'a>(output: &'a [u8], frame: &'a [u8]) -> [StageAct<'a>; 14] {
    [
        StageAct::Connect(Habit::Whole, WINDOW),
        StageAct::Connect(Habit::Whole, WINDOW),
        StageAct::Connect(Habit::Whole, WINDOW),
        StageAct::Turns(2),
        StageAct::Connect(Habit::Whole, ATTACH),
        StageAct::Turns(2),
        StageAct::Send(0, output),
        StageAct::Send(1, frame),
        StageAct::Send(2, ASK),
        StageAct::Turns(1),
        StageAct::Note(0),
        StageAct::Send(3, b"K\0\x03\x012k"),
        StageAct::Turns(1),
        StageAct::Note(0),
    ]
}

// Seven frames of a window, and one of another.
fn shares_a_turn(rt: &impl System) -> Result<bool, AllocError> {
    let alloc = rt.alloc();
    let frame = often(alloc, b"O\x20\0\x1b[5n", b"y", 8_188)?;
    let output = often(alloc, b"", &frame, 7)?;
    Ok(is_played(rt, &shared(&output, &frame), &SHARED))
}

// 8,192 entries at once, and one more each millisecond. A second before, the attach and the window took
// entries, which have come back. Between, the loop waits.
static RATE: [NoteRow; 4] = [
    (0, Expected::TypedLen(0, 8_193)),
    (0, Expected::IsDue(false)),
    (0, Expected::HasWaiting(true)),
    (1, Expected::TypedLen(0, 8_243)),
];

// A client types 10,000 letters, each with a command, within a second, and time goes on later.
fn has_a_rate(rt: &impl System) -> Result<bool, AllocError> {
    let letters = often(rt.alloc(), b"", b"K\0\x03x\x01n", 10_000)?;
    let acts = [
        StageAct::SetTime(0, 0),
        StageAct::Connect(Habit::Whole, WINDOW),
        StageAct::Turns(2),
        StageAct::Connect(Habit::Whole, ATTACH),
        StageAct::Turns(2),
        StageAct::Send(1, &letters),
        StageAct::SetTime(1, 0),
        StageAct::Turns(1_400),
        StageAct::Note(0),
        StageAct::SetTime(1, 1),
        StageAct::Turns(50),
        StageAct::Note(0),
    ];
    Ok(is_played(rt, &acts, &RATE))
}

// Whether twenty clients show all that the window printed.
fn are_drawn(alloc: Global, seen: &Seen) -> bool {
    for client in 1..=20 {
        if first_wrong(alloc, seen, &[(0, Expected::Shows(client, "ab"))]).is_some() {
            return false;
        }
    }
    true
}

// Twenty clients of a window that prints again while the first sixteen of them are drawn: all of
// them show it once the loop has nothing to do.
fn is_drawn_to_its_end(rt: &impl System) -> Result<bool, AllocError> {
    let alloc = rt.alloc();
    let mut acts = Vec::from_slice(
        alloc,
        &[StageAct::Connect(Habit::Whole, WINDOW), StageAct::Turns(2)],
    )?;
    for _ in 0..20 {
        acts.push(StageAct::Connect(Habit::Whole, ATTACH))?;
    }
    acts.extend_from_slice(&[
        StageAct::Turns(4),
        StageAct::Send(0, b"O\0\x01a"),
        StageAct::Turns(1),
        StageAct::Send(0, b"O\0\x01b"),
        StageAct::Turns(1),
        StageAct::QuietTurns(10),
        StageAct::Note(0),
    ])?;
    Ok(match play(rt, &acts) {
        Some(seen) => are_drawn(alloc, &seen),
        None => false,
    })
}

#[test]
fn too_far_behind(rt: HostRuntime) {
    assert!(rt; matches!(goes_too_far(&rt), Ok(true)));
}

#[test]
fn a_loop_sees_its_own_last_steps(rt: HostRuntime) {
    assert!(rt; matches!(sees_its_last_step(&rt), Ok(true)));
}

#[test]
fn nobody_waits_for_anothers_commands(rt: HostRuntime) {
    assert!(rt; matches!(nobody_waits(&rt), Ok(true)));
}

#[test]
fn nobody_waits_for_anothers_output(rt: HostRuntime) {
    assert!(rt; matches!(shares_a_turn(&rt), Ok(true)));
}

#[test]
fn entries_have_a_rate(rt: HostRuntime) {
    assert!(rt; matches!(has_a_rate(&rt), Ok(true)));
}

#[test]
fn a_crowd_is_drawn_to_its_end(rt: HostRuntime) {
    assert!(rt; matches!(is_drawn_to_its_end(&rt), Ok(true)));
}
