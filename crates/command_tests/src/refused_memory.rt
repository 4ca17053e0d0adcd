//! Refused memory: a refused call has read or written nothing, and succeeds when it is repeated. By
//! itself the test here meets no refusal; `tools/refusals` runs it once for each of its allocations,
//! and refuses that one.

use attach_proto::{Message, Reader, Side, write_message};
use std::alloc::Global;

static PIECES: [&[u8]; 9] = [
    b"\x4B\x00\x02ab\x44",
    b"\x00\x00\x4F\x00\x01",
    b"x",
    b"\x4B\x00\x02ab\x44",
    b"\x00\x00\x4F\x00\x01",
    b"x",
    b"\x4B\x00\x02ab\x44",
    b"\x00\x00\x4F\x00\x01",
    b"x",
];

/// The frames of the pieces.
const FRAMES: &[u8] =
    b"\x4B\x00\x02ab\x44\x00\x00\x4F\x00\x01x\x4B\x00\x02ab\x44\x00\x00\x4F\x00\x01x\
      \x4B\x00\x02ab\x44\x00\x00\x4F\x00\x01x";

/// Feeds a piece, and repeats it if memory is refused. Whether the refusal gave nothing.
fn feed_twice(reader: &mut Reader, piece: &[u8], messages: &mut Vec<Message>) -> bool {
    let before = messages.len();
    reader.feed(piece, messages).is_ok()
        || (messages.len() == before && reader.feed(piece, messages).is_ok())
}

/// Writes a message, and repeats it if memory is refused. Whether the refusal wrote nothing.
fn write_twice(alloc: Global, message: &Message, out: &mut Vec<u8>) -> bool {
    let before = out.len();
    write_message(alloc, message, out).is_ok()
        || (out.len() == before && write_message(alloc, message, out).is_ok())
}

/// Whether the pieces are read and their messages written, and a refusal gave and wrote nothing.
fn is_nothing_lost(alloc: Global) -> bool {
    let mut reader = Reader::new(alloc, Side::Server);
    let mut messages = Vec::new(alloc);
    for piece in &PIECES {
        if !feed_twice(&mut reader, piece, &mut messages) {
            return false;
        }
    }
    let mut out = Vec::new(alloc);
    for message in &messages {
        if !write_twice(alloc, message, &mut out) {
            return false;
        }
    }
    out.as_slice() == FRAMES
}

#[test]
fn nothing_is_lost_though_refused_once(rt: HostRuntime) {
    assert!(rt; is_nothing_lost(rt.alloc()));
}
