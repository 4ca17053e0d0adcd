//! The table of frames: each is read as its message, and the message is written as the frame.

use attach_proto::{Message, Reader, Side, write_message};
use std::alloc::Global;

/// A frame, and the list of its message.
type FrameRow = (&'static [u8], &'static str);

/// The third and the fourth are a `kill` without a window, and an empty line on window 254.
static TO_SERVER: [FrameRow; 8] = [
    (
        b"\x41\x00\x47\x00\x18\x00\x500123456789abcdef0123456789abcdef0123456789abcdef0123456789abcdefbob",
        "[Attach { rows: 24, columns: 80, token: Token, name: Text { text: \"bob\" } }]",
    ),
    (
        b"\x57\x00\x4E\x00\x18\x00\x50\x00\x640123456789abcdef0123456789abcdef\
          0123456789abcdef0123456789abcdef\x03bobzero",
        "[Window { rows: 24, columns: 80, keep: 100, token: Token, name: Text { text: \"bob\" }, \
         title: Text { text: \"zero\" } }]",
    ),
    (
        b"\x43\x00\x49\xFF0123456789abcdef0123456789abcdef0123456789abcdef0123456789abcdef\x03bobkill",
        "[Command { window: None, token: Token, name: Text { text: \"bob\" }, \
         line: Bytes { items: [107, 105, 108, 108] } }]",
    ),
    (
        b"\x43\x00\x45\xFE0123456789abcdef0123456789abcdef0123456789abcdef0123456789abcdef\x03bob",
        "[Command { window: Some(254), token: Token, name: Text { text: \"bob\" }, line: Bytes { items: [] } }]",
    ),
    (
        b"\x4B\x00\x04a\x01nb",
        "[Keys(Bytes { items: [97, 1, 110, 98] })]",
    ),
    (
        b"\x52\x00\x04\x01\x2C\x00\x04",
        "[Resize { rows: 300, columns: 4 }]",
    ),
    (b"\x4F\x00\x01x", "[Output(Bytes { items: [120] })]"),
    (b"\x44\x00\x00", "[Detach]"),
];

static TO_PEER: [FrameRow; 8] = [
    (b"\x79\x00\x01\x00", "[Welcome(0)]"),
    (b"\x64\x00\x01y", "[Draw(Bytes { items: [121] })]"),
    (b"\x69\x00\x01z", "[Input(Bytes { items: [122] })]"),
    (
        b"\x73\x00\x1Bunknown user or wrong token",
        "[Say(Text { text: \"unknown user or wrong token\" })]",
    ),
    (
        b"\x7A\x00\x04\x00\x16\x01\x00",
        "[Size { rows: 22, columns: 256 }]",
    ),
    (b"\x67\x00\x01\x00", "[Gone(Detached)]"),
    (b"\x67\x00\x01\x06", "[Gone(Fault)]"),
    (b"\x67\x00\x01\x07", "[Gone(TrailFull)]"),
];

fn are_shown(alloc: Global, messages: &[Message], wanted: &str) -> bool {
    match format!(in alloc; "{messages:?}") {
        Ok(shown) => shown.as_str() == wanted,
        Err(_) => false,
    }
}

fn are_written(alloc: Global, messages: &[Message], frame: &[u8]) -> bool {
    let mut out = Vec::new(alloc);
    for message in messages {
        if write_message(alloc, message, &mut out).is_err() {
            return false;
        }
    }
    out.as_slice() == frame
}

/// Whether a frame that comes in two pieces is read as its message, and the message is written as the
/// frame. The first piece is only a beginning, and gives no message and no fault.
fn is_so(alloc: Global, side: Side, row: &FrameRow, cut: usize) -> bool {
    let (frame, message) = *row;
    let (first, second) = frame.split_at(cut.min(frame.len()));
    let mut reader = Reader::new(alloc, side);
    let mut messages = Vec::new(alloc);
    reader.feed(first, &mut messages).is_ok()
        && messages.is_empty()
        && reader.feed(second, &mut messages).is_ok()
        && are_shown(alloc, &messages, message)
        && are_written(alloc, &messages, frame)
}

/// Whether a frame is read and written so, wherever it is cut in two, and in one piece.
fn is_so_at_each_cut(alloc: Global, side: Side, row: &FrameRow) -> bool {
    (0..row.0.len()).all(|cut| is_so(alloc, side, row, cut))
}

fn first_wrong(alloc: Global, side: Side, rows: &[FrameRow]) -> Option<usize> {
    rows.iter()
        .position(|row| !is_so_at_each_cut(alloc, side, row))
}

#[test]
fn frames_are_read_however_they_are_cut(rt: HostRuntime) {
    assert_eq!(rt; first_wrong(rt.alloc(), Side::Server, &TO_SERVER), None);
    assert_eq!(rt; first_wrong(rt.alloc(), Side::Peer, &TO_PEER), None);
}
