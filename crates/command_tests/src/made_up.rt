//! Made-up bytes give the same messages and the same fault, no matter how they are cut.

use attach_proto::{ProtoFault, Reader, Side, write_message};
use rand::{RngExt, SeedableRng};
use rand_pcg::Pcg32;
use std::alloc::{AllocError, Global};

/// Frames and beginnings of frames, of which lists of bytes are made.
static PIECES: [&[u8]; 7] = [
    b"\x44\x00\x00",
    b"\x52\x00\x04\x00\x18\x00\x50",
    b"\x4B\x00\x02ab",
    b"\x4F\x00\x01\xFF",
    b"\x41\x00\x47\x00\x18\x00\x500123456789abcdef0123456789abcdef0123456789abcdef0123456789abcdefbob",
    b"\x4B\x00\x00",
    b"K",
];

/// Bytes as a careless or a hostile peer could send them.
fn made_up(alloc: Global, rng: &mut Pcg32) -> Result<Vec<u8>, AllocError> {
    let mut bytes = Vec::new(alloc);
    for _ in 0..rng.random_range(0..6) {
        match PIECES.get(rng.random_range(0..8usize)) {
            Some(piece) => bytes.extend_from_slice(piece)?,
            None => bytes.push(rng.random())?,
        }
    }
    Ok(bytes)
}

/// Reads pieces, and appends the frames of the messages that they give. Returns the last answer.
fn read(alloc: Global, pieces: &[&[u8]], frames: &mut Vec<u8>) -> Result<(), ProtoFault> {
    let mut reader = Reader::new(alloc, Side::Server);
    let mut messages = Vec::new(alloc);
    let mut last = Ok(());
    for piece in pieces {
        last = reader.feed(piece, &mut messages);
    }
    for message in &messages {
        if write_message(alloc, message, frames).is_err() {
            return Err(ProtoFault::NoMemory);
        }
    }
    last
}

/// Whether bytes that are cut in two somewhere give these frames and this answer.
fn is_cut_alike(
    alloc: Global,
    rng: &mut Pcg32,
    bytes: &[u8],
    frames: &[u8],
    last: Result<(), ProtoFault>,
) -> bool {
    let (first, second) = bytes.split_at(rng.random_range(0..=bytes.len()));
    let mut others = Vec::new(alloc);
    read(alloc, &[first, second], &mut others) == last && others.as_slice() == frames
}

/// How many lists gave messages, and how many a fault.
#[derive(Clone, Copy)]
struct Counts {
    read: u32,
    faulty: u32,
}

/// Whether a made-up list gives the frames that it begins with, also if it is cut twice.
fn is_so(alloc: Global, rng: &mut Pcg32, counts: &mut Counts) -> bool {
    let Ok(bytes) = made_up(alloc, rng) else {
        return false;
    };
    let mut frames = Vec::new(alloc);
    let last = read(alloc, &[bytes.as_slice()], &mut frames);
    counts.read = counts.read.saturating_add(!frames.is_empty() as u32);
    counts.faulty = counts.faulty.saturating_add(last.is_err() as u32);
    bytes.as_slice().starts_with(&frames)
        && is_cut_alike(alloc, rng, &bytes, &frames, last)
        && is_cut_alike(alloc, rng, &bytes, &frames, last)
}

/// Whether 10,000 made-up lists give their frames, many of them with messages and many with a fault.
fn are_so(alloc: Global) -> bool {
    let mut rng = Pcg32::seed_from_u64(2026);
    let mut counts = Counts { read: 0, faulty: 0 };
    for _ in 0..10_000u32 {
        if !is_so(alloc, &mut rng, &mut counts) {
            return false;
        }
    }
    1000 < counts.read && 1000 < counts.faulty
}

#[test]
fn made_up_bytes_in_two_cuts(rt: HostRuntime) {
    assert!(rt; are_so(rt.alloc()));
}
