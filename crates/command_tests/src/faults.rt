//! Faults of a stream, and the texts of faults.

use attach_proto::{ProtoFault, Reader, Side, WriteFault};
use std::alloc::{AllocError, Global};

/// The side that reads some bytes, the bytes, how many messages come before their fault, and the fault.
type FaultRow = (Side, &'static [u8], usize, ProtoFault);

// A token has no digit in upper case.
const UPPER_CASE: &[u8] =
    b"\x41\x00\x47\x00\x18\x00\x500123456789abcdef0123456789Abcdef0123456789abcdef0123456789abcdefbob";

// A name is UTF-8.
const LATIN: &[u8] =
    b"\x41\x00\x47\x00\x18\x00\x500123456789abcdef0123456789abcdef0123456789abcdef0123456789abcdefbo\xE9";

static FAULTS: [FaultRow; 12] = [
    (Side::Server, b"\x79", 0, ProtoFault::WrongSide),
    (Side::Server, b"\x00", 0, ProtoFault::BadKind),
    (Side::Server, b"\x4B\x00\x00", 0, ProtoFault::BadPayload),
    (Side::Server, b"\x4B\x20\x01", 0, ProtoFault::TooLong),
    (Side::Server, b"\x44\x00\x01x", 0, ProtoFault::BadPayload),
    (
        Side::Server,
        b"\x52\x00\x03\x00\x18\x00",
        0,
        ProtoFault::BadPayload,
    ),
    (Side::Server, UPPER_CASE, 0, ProtoFault::BadPayload),
    (Side::Server, LATIN, 0, ProtoFault::BadPayload),
    (
        Side::Server,
        b"\x44\x00\x00\x4B\x20\x01",
        1,
        ProtoFault::TooLong,
    ),
    (Side::Peer, b"\x4B", 0, ProtoFault::WrongSide),
    (Side::Peer, b"\x67\x00\x01\x08", 0, ProtoFault::BadPayload),
    (Side::Peer, b"\x73\x00\x01\xFF", 0, ProtoFault::BadPayload),
];

/// Whether the last byte of a row shows the fault, and later bytes get the same answer. The bytes before
/// the last one come in two pieces.
fn is_faulty(alloc: Global, row: &FaultRow, cut: usize) -> bool {
    let (side, bytes, count, fault) = *row;
    let (before, last) = bytes.split_at(bytes.len().saturating_sub(1));
    let (first, second) = before.split_at(cut.min(before.len()));
    let mut reader = Reader::new(alloc, side);
    let mut messages = Vec::new(alloc);
    reader.feed(first, &mut messages).is_ok()
        && reader.feed(second, &mut messages).is_ok()
        && reader.feed(last, &mut messages) == Err(fault)
        && reader.feed(b"\x44\x00\x00", &mut messages) == Err(fault)
        && messages.len() == count
}

/// Whether a row's last byte shows its fault, wherever the bytes before it are cut in two.
fn is_faulty_at_each_cut(alloc: Global, row: &FaultRow) -> bool {
    (0..row.1.len()).all(|cut| is_faulty(alloc, row, cut))
}

fn first_wrong(alloc: Global) -> Option<usize> {
    FAULTS
        .iter()
        .position(|row| !is_faulty_at_each_cut(alloc, row))
}

#[test]
fn faults_stay_however_they_are_cut(rt: HostRuntime) {
    assert_eq!(rt; first_wrong(rt.alloc()), None);
}

static TEXTS: [(ProtoFault, &str); 5] = [
    (ProtoFault::BadKind, "no frame begins with this byte"),
    (ProtoFault::TooLong, "the frame is too long"),
    (
        ProtoFault::BadPayload,
        "the frame's contents don't fit its kind",
    ),
    (
        ProtoFault::WrongSide,
        "this side doesn't read frames of this kind",
    ),
    (ProtoFault::NoMemory, "out of memory"),
];

static TEXTS_IN_WRITING: [(WriteFault, &str); 2] = [
    (WriteFault::Unspellable, "no frame spells the message"),
    (WriteFault::NoMemory, "out of memory"),
];

fn is_shown(shown: Result<String, AllocError>, text: &str) -> bool {
    match shown {
        Ok(shown) => shown.as_str() == text,
        Err(_) => false,
    }
}

fn are_shown(alloc: Global) -> bool {
    for (fault, text) in &TEXTS {
        if !is_shown(fault.to_string(alloc), text) {
            return false;
        }
    }
    TEXTS_IN_WRITING
        .iter()
        .all(|(fault, text)| is_shown(fault.to_string(alloc), text))
}

#[test]
fn texts_of_faults(rt: HostRuntime) {
    assert!(rt; are_shown(rt.alloc()));
}
