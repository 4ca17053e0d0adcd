//! Connections that stop or end at each byte.

use crate::rows::{play, typed};
use server_stage::{ATTACH, DETACH, Habit, Received, Seen, StageAct, System, WALL, WINDOW, Why};
use std::alloc::{AllocError, Global};

/// The frames that a connection sends, and the trail's entries for each number of frames that came
/// whole: while the connection stays, and after it ended.
struct Case {
    frames: &'static [&'static [u8]],
    stays: &'static [&'static [u8]],
    ends: &'static [&'static [u8]],
}

static CASES: [Case; 3] = [
    Case {
        frames: &[ATTACH, b"K\0\x02xy", DETACH],
        stays: &[b"", b"A", b"AK", b"AKD"],
        ends: &[b"", b"AD", b"AKD", b"AKD"],
    },
    Case {
        frames: &[WINDOW, b"O\0\x02ho", DETACH],
        stays: &[b"", b"O", b"O", b"OX"],
        ends: &[b"", b"OX", b"OX", b"OX"],
    },
    Case {
        frames: &[WALL],
        stays: &[b"", b"C"],
        ends: &[b"", b"C"],
    },
];

/// The bytes of a case's frames that a connection sends.
#[derive(Drop)]
struct Cut {
    bytes: Vec<u8>,
    /// How many frames are whole.
    wholes: usize,
    /// All frames are whole.
    is_all: bool,
    /// The connection ends after these bytes.
    ends: bool,
}

// The first `count` bytes of the frames.
fn beginning(alloc: Global, frames: &[&[u8]], count: usize, ends: bool) -> Result<Cut, AllocError> {
    let mut bytes = Vec::new(alloc);
    let mut wholes = 0usize;
    for frame in frames {
        bytes.extend_from_slice(frame)?;
        if bytes.len() <= count {
            wholes = wholes.saturating_add(1);
        }
    }
    let is_all = bytes.len() <= count;
    bytes.truncate(count);
    Ok(Cut {
        bytes,
        wholes,
        is_all,
        ends,
    })
}

// A connection that sends the bytes, beside a window and a client of the owner. The client types `k`
// at last.
fn seen_of(rt: &impl System, cut: &Cut) -> Option<Seen> {
    let acts = [
        StageAct::Connect(Habit::Whole, WINDOW),
        StageAct::Turns(2),
        StageAct::Connect(Habit::Whole, ATTACH),
        StageAct::Turns(2),
        StageAct::Connect(Habit::Whole, &cut.bytes),
        if cut.ends {
            StageAct::End(2)
        } else {
            StageAct::Turns(0)
        },
        StageAct::Turns(3),
        StageAct::Note(0),
        StageAct::Send(1, b"K\0\x01k"),
        StageAct::Turns(3),
        StageAct::Note(0),
    ];
    play(rt, &acts)
}

// Whether the trail has these entries between those of the window and the client, and the window's
// program has all that was typed.
fn is_done(alloc: Global, seen: &Seen, wanted: &[u8]) -> bool {
    let typed_wanted = if wanted.contains(&b'K') {
        b"xyk".as_slice()
    } else {
        b"k".as_slice()
    };
    let rest = seen.entries.strip_prefix(b"OA".as_slice()).unwrap_or(b"?");
    let own = rest.strip_suffix(b"K".as_slice()).unwrap_or(b"?");
    let Some(typed) = typed(alloc, seen.bytes(1, 0)) else {
        return false;
    };
    own == wanted && typed.as_slice() == typed_wanted
}

// Whether the connection is let go if all its frames came, and else stays unless it ends; and is
// sent nothing if no frame is whole.
fn is_answered(alloc: Global, seen: &Seen, cut: &Cut) -> bool {
    let bytes = seen.bytes(1, 2);
    let (Ok(received), Some(standing)) = (Received::of(alloc, bytes), seen.standing(0)) else {
        return false;
    };
    let why = if cut.is_all {
        Some(Why::Detached)
    } else {
        None
    };
    let len = if cut.is_all || cut.ends { 2 } else { 3 };
    let may_be_told = cut.wholes > 0 || bytes.is_empty();
    let is_told = cut.ends || received.gone() == why;
    standing.len == len && may_be_told && is_told
}

// Whether the frames that are whole in this many bytes are done, and the beginning of a frame asks
// for nothing, also if the connection ends after it.
fn is_as_due(rt: &impl System, case: &Case, count: usize, ends: bool) -> bool {
    let Ok(cut) = beginning(rt.alloc(), case.frames, count, ends) else {
        return false;
    };
    let entries = if ends { case.ends } else { case.stays };
    let (Some(wanted), Some(seen)) = (entries.get(cut.wholes), seen_of(rt, &cut)) else {
        return false;
    };
    is_done(rt.alloc(), &seen, wanted) && is_answered(rt.alloc(), &seen, &cut)
}

fn len_of(frames: &[&[u8]]) -> usize {
    let mut len = 0usize;
    for frame in frames {
        len = len.saturating_add(frame.len());
    }
    len
}

// The first case and number of bytes with which a connection isn't served as it should be.
fn first_wrong(rt: &impl System, ends: bool) -> Option<(usize, usize)> {
    for (place, case) in CASES.iter().enumerate() {
        for count in 0..=len_of(case.frames) {
            if !is_as_due(rt, case, count, ends) {
                return Some((place, count));
            }
        }
    }
    None
}

#[test]
fn what_is_whole_is_done(rt: HostRuntime) {
    assert_eq!(rt; first_wrong(&rt, false), None);
}

#[test]
fn an_end_inside_a_frame(rt: HostRuntime) {
    assert_eq!(rt; first_wrong(&rt, true), None);
}
