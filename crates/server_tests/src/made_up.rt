//! Connections that send made-up bytes.

use crate::rows::{play, typed};
use rand::seq::IndexedRandom;
use rand::{RngExt, SeedableRng};
use rand_pcg::Pcg32;
use server_stage::{ATTACH, Habit, Received, Seen, StageAct, System, WINDOW, Why};
use std::alloc::{AllocError, Global};

const LISTS: usize = 3_000;

// The kinds of frames that the server reads.
const KINDS: &[u8] = b"AWCKROD";

// Kinds that the server sends, and codes of no kind.
const OTHERS: &[u8] = b"ydiszg\0\xFF";

// Appends something like a frame: its kind and its length may be wrong, and some bytes may be missing.
// No byte is C-a, after which a client's keys would be commands.
fn push_frame(rng: &mut Pcg32, out: &mut Vec<u8>) -> Result<(), AllocError> {
    let kinds = if rng.random_ratio(1, 6) {
        OTHERS
    } else {
        KINDS
    };
    out.push(*kinds.choose(rng).unwrap())?;
    out.push(if rng.random_ratio(1, 12) { 0x20 } else { 0 })?;
    let len = if rng.random_ratio(1, 3) {
        4
    } else {
        rng.random_range(0..9u8)
    };
    out.push(len)?;
    let lacking = if rng.random_ratio(1, 4) {
        rng.random_range(0..3)
    } else {
        0
    };
    for _ in 0..len.saturating_sub(lacking) {
        let byte = rng.random();
        out.push(if byte == 1 { 0 } else { byte })?;
    }
    Ok(())
}

fn list(alloc: Global, rng: &mut Pcg32, begin: &[u8]) -> Result<Vec<u8>, AllocError> {
    let mut list = Vec::from_slice(alloc, begin)?;
    for _ in 0..rng.random_range(0..4) {
        push_frame(rng, &mut list)?;
    }
    Ok(list)
}

// What the frame at the front of these bytes leads to: its length in bytes if the connection goes on
// after it; or else why the connection is let go, if it is.
fn due_at(is_client: bool, bytes: &[u8]) -> Result<usize, Option<Why>> {
    match bytes {
        [kind, ..] if !KINDS.contains(kind) => Err(Some(Why::Fault)),
        [kind, high, low, rest @ ..] => {
            let len = *high as usize * 256 + *low as usize;
            match (is_client, *kind, len) {
                (_, _, 8193..) => Err(Some(Why::Fault)),
                _ if rest.len() < len => Err(None),
                (true, b'K', 1..) | (true, b'R', 4) => Ok(len + 3),
                (true, b'D', 0) => Err(Some(Why::Detached)),
                _ => Err(Some(Why::Fault)),
            }
        }
        _ => Err(None),
    }
}

// Why a connection that sent these bytes is let go, if it is.
fn due(is_client: bool, bytes: &[u8]) -> Option<Why> {
    let mut rest = bytes;
    for _ in 0..bytes.len() {
        match due_at(is_client, rest) {
            Ok(taken) => rest = rest.get(taken..).unwrap_or(b""),
            Err(why) => return why,
        }
    }
    None
}

// Whether a connection that sent these bytes was sent what it should be.
fn is_due(alloc: Global, is_client: bool, bytes: &[u8], sent: &[u8]) -> bool {
    let Ok(received) = Received::of(alloc, sent) else {
        return false;
    };
    let wanted = due(is_client, bytes);
    let count = if wanted.is_some() { 1 } else { 0 };
    received.gone() == wanted && (is_client || received.messages.len() == count)
}

// The beginning of a list: clients send those of even numbers, strangers the others.
fn beginning(number: usize) -> &'static [u8] {
    if number % 2 == 0 { ATTACH } else { b"" }
}

fn lists(alloc: Global) -> Result<Vec<Vec<u8>>, AllocError> {
    let mut rng = Pcg32::seed_from_u64(1);
    let mut lists = Vec::new(alloc);
    for number in 0..LISTS {
        lists.push(list(alloc, &mut rng, beginning(number))?)?;
    }
    Ok(lists)
}

// A window and its client, which types at last. Meanwhile connections send the lists, each list cut
// at two places. A turn takes 200 milliseconds, so that no size has to wait for long.
fn acts(alloc: Global, lists: &[Vec<u8>]) -> Result<Vec<StageAct<'_>>, AllocError> {
    let mut acts = Vec::with_capacity(alloc, lists.len().saturating_mul(11).saturating_add(8))?;
    acts.extend_from_slice(&[
        StageAct::SetTime(0, 200),
        StageAct::Connect(Habit::Whole, WINDOW),
        StageAct::Turns(2),
        StageAct::Connect(Habit::Whole, ATTACH),
        StageAct::Turns(2),
    ])?;
    for list in lists {
        acts.extend_from_slice(&[
            StageAct::Connect(Habit::Whole, list),
            StageAct::Turns(2),
            StageAct::Note(2),
            StageAct::Leave,
            StageAct::Turns(1),
            StageAct::Connect(Habit::Steady, list),
            StageAct::Turns(12),
            StageAct::Note(2),
            StageAct::Leave,
            StageAct::Turns(1),
            StageAct::Note(2),
        ])?;
    }
    acts.extend_from_slice(&[
        StageAct::Send(1, b"K\0\x05still"),
        StageAct::Turns(2),
        StageAct::Note(0),
    ])?;
    Ok(acts)
}

// Whether a list is answered as it should be with both cuts, beside two peers that stay.
fn is_answered(alloc: Global, seen: &Seen, number: usize, list: &[u8]) -> bool {
    let begin = beginning(number);
    let bytes = list.strip_prefix(begin).unwrap_or(b"?");
    let is_client = !begin.is_empty();
    let note = number.saturating_mul(3);
    let whole = seen.bytes(note, 2);
    let steady = seen.bytes(note.saturating_add(1), 2);
    let stay = match seen.standing(note.saturating_add(2)) {
        Some(standing) => standing.len == 2,
        None => false,
    };
    stay && is_due(alloc, is_client, bytes, whole) && is_due(alloc, is_client, bytes, steady)
}

// Whether the client's keys are typed into its window, and it stays.
fn go_on(alloc: Global, seen: &Seen) -> bool {
    let last = LISTS * 3;
    let (Some(typed), Ok(client)) = (
        typed(alloc, seen.bytes(last, 0)),
        Received::of(alloc, seen.bytes(last, 1)),
    ) else {
        return false;
    };
    typed.ends_with(b"still") && client.gone().is_none()
}

// The first list that isn't answered as it should be.
fn first_wrong(alloc: Global, seen: &Seen, lists: &[Vec<u8>]) -> Option<usize> {
    for (number, list) in lists.iter().enumerate() {
        if !is_answered(alloc, seen, number, list) {
            return Some(number);
        }
    }
    None
}

fn are_answered(rt: &impl System) -> Result<bool, AllocError> {
    let alloc = rt.alloc();
    let lists = lists(alloc)?;
    let acts = acts(alloc, &lists)?;
    Ok(match play(rt, &acts) {
        Some(seen) => first_wrong(alloc, &seen, &lists).is_none() && go_on(alloc, &seen),
        None => false,
    })
}

#[test]
fn made_up_lists_stop_nothing(rt: HostRuntime) {
    assert!(rt; matches!(are_answered(&rt), Ok(true)));
}
