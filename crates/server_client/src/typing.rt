//! Reads standard input and the sizes' file, and sends what they say.

use crate::shared::{InputPiece, SharedPeer};
use crate::writing::send;
use crate::{PeerHost, Source};
use attach_proto::LONGEST;
use client_words::{InputStage, PeerFault, RefusedPart, SizeLines};
use std::alloc::AllocError;
use std::fs::File;
use std::io::{ErrorKind, Read};
use std::sync::Wait;

// The errno of a terminal whose other end has gone: it counts as the end of the input.
const EIO: i32 = 5;

// Sends what was read. Returns whether to go on; None at the input's end.
fn take<R: Wait>(
    rt: &R,
    shared: &SharedPeer,
    piece: InputPiece<'_>,
) -> Result<Option<bool>, PeerFault> {
    let mut seat = shared.seat.lock(rt);
    if !seat.type_in(piece)? {
        return Ok(None);
    }
    let goes_on = !matches!(seat.peer.typing.stage(), InputStage::Left);
    let is_stuck = seat.peer.is_stuck;
    drop(seat);
    // The input may have put something on the terminal.
    shared.tell();
    if !is_stuck {
        send(rt, shared);
    }
    let seat = shared.seat.lock(rt);
    let seat = shared.work.wait_while(rt, seat, |seat| seat.peer.is_full());
    Ok(Some(goes_on && !seat.peer.is_final))
}

// Reads the input once, and sends what was read. Returns whether to go on; None at its end.
fn read_once<R: Wait, I: Source>(
    rt: &R,
    shared: &SharedPeer,
    input: &mut I,
    buffer: &mut [u8],
) -> Result<Option<bool>, PeerFault> {
    match InputPiece::read(input, buffer) {
        Ok(piece) => take(rt, shared, piece),
        Err(error) if error.raw_os_error() == Some(EIO) => Ok(None),
        Err(error) if error.kind() == ErrorKind::Interrupted => Ok(Some(true)),
        Err(error) => Err(PeerFault::Refused(RefusedPart::Input, error)),
    }
}

// Reads and sends the input. Returns whether it came to its end, or why it can't be read any more.
fn take_all<R: Wait, I: Source>(
    rt: &R,
    shared: &SharedPeer,
    input: &mut I,
) -> Result<bool, PeerFault> {
    let mut buffer = vec![in shared.alloc; 0; LONGEST]?;
    for _ in 0..u64::MAX {
        match read_once(rt, shared, input, buffer.as_mut_slice())? {
            Some(true) => {}
            Some(false) => return Ok(false),
            None => return Ok(true),
        }
    }
    Ok(true)
}

// Sends DETACH at the input's end. A peer that has no memory for it ends: nobody could end it.
fn end_input<R: Wait>(rt: &R, shared: &SharedPeer, fault: Option<PeerFault>) {
    let mut seat = shared.seat.lock(rt);
    if seat.peer.end_input(fault).is_err() {
        seat.peer.end_by(Err(PeerFault::NoMemory));
    }
    drop(seat);
    send(rt, shared);
}

/// Reads and sends the input, and DETACH at its end.
pub fn type_out<R: PeerHost + Wait, I: Source>(rt: &R, shared: &SharedPeer, input: &mut I) {
    match take_all(rt, shared, input) {
        Ok(true) => end_input(rt, shared, None),
        Ok(false) => shared.tell(),
        Err(fault) => end_input(rt, shared, Some(fault)),
    }
}

// Sends the last of the sizes whose lines these bytes complete. Returns whether to go on.
fn take_sizes<R: Wait>(rt: &R, shared: &SharedPeer, lines: &mut SizeLines, bytes: &[u8]) -> bool {
    let Ok(size) = lines.feed(bytes) else {
        return false;
    };
    let mut seat = shared.seat.lock(rt);
    seat.peer.has_dropped |= lines.has_dropped();
    let is_kept = match size {
        Some(size) => seat.peer.resize(size).is_ok(),
        None => true,
    };
    drop(seat);
    send(rt, shared);
    is_kept
}

/// Sends sizes until the file ends; of several that came at once only the last.
pub fn resize<R: PeerHost + Wait>(
    rt: &R,
    shared: &SharedPeer,
    file: &mut File,
) -> Result<(), AllocError> {
    let mut lines = SizeLines::new(shared.alloc);
    let mut buffer = vec![in shared.alloc; 0; LONGEST]?;
    for _ in 0..u64::MAX {
        let goes_on = match file.read(buffer.as_mut_slice()) {
            Ok(0) | Err(_) => false,
            Ok(count) => take_sizes(rt, shared, &mut lines, &buffer[..count]),
        };
        if !goes_on {
            break;
        }
    }
    Ok(())
}
