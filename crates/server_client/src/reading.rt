//! Connects, and reads what the server sends.

use crate::PeerHost;
use crate::opening::Door;
use crate::shared::{ServerPiece, SharedPeer};
use attach_proto::LONGEST;
use client_words::{PeerFault, RefusedPart};
use std::io::ErrorKind;
use std::os::unix::net::UnixStream;
use std::sync::{Arc, Wait};
use std::time::Duration;

// How long nothing is read before it is looked whether the server has hung up, in milliseconds.
const LOOK: u64 = 250;

// Hears what was read. Returns whether the connection goes on.
fn take<R: Wait>(rt: &R, shared: &SharedPeer, piece: ServerPiece<'_>) -> bool {
    let mut seat = shared.seat.lock(rt);
    let was_welcome = seat.peer.is_welcome;
    let goes_on = seat.hear(piece);
    // Without memory the text comes with the next draw.
    let _ = seat.peer.keep_notice();
    let is_news = seat.peer.is_welcome != was_welcome || seat.peer.has_notice();
    drop(seat);
    shared.work.notify_all();
    if is_news {
        shared.news.notify_all();
    }
    goes_on
}

// Waits while too much waits for standard output. Returns whether the server has hung up: then the rest is read, so
// that the cause is known although nobody takes the output.
fn wait_for_room<R: PeerHost + Wait>(rt: &R, shared: &SharedPeer, stream: &UnixStream) -> bool {
    for _ in rt.forever() {
        let seat = shared.seat.lock(rt);
        let (seat, waited) = shared.work.wait_timeout_while(
            rt,
            seat,
            Duration::from_millis(LOOK),
            |seat| seat.peer.is_behind() && seat.peer.end.is_none(),
        );
        drop(seat);
        if !waited.timed_out() {
            return false;
        }
        if !rt.is_open(stream) {
            return true;
        }
    }
    false
}

// Connects, lends the connection to the other threads, and reads until it ends.
fn read_all<R: PeerHost + Wait>(rt: &R, shared: &SharedPeer, door: &Door) -> Result<(), PeerFault> {
    let stream = Arc::new(shared.alloc, door.open(rt)?)?;
    let theirs = Arc::try_clone(&stream)?;
    shared.seat.lock(rt).stream = Some(theirs);
    let mut buffer = vec![in shared.alloc; 0; LONGEST]?;
    let mut has_hung_up = false;
    for _ in rt.forever() {
        has_hung_up = has_hung_up || wait_for_room(rt, shared, &stream);
        let goes_on = match ServerPiece::read(&stream, buffer.as_mut_slice()) {
            Ok(piece) => take(rt, shared, piece),
            Err(error) if error.kind() == ErrorKind::Interrupted => true,
            Err(error) => return Err(PeerFault::Refused(RefusedPart::Stream, error)),
        };
        if !goes_on {
            return Ok(());
        }
    }
    unreachable!()
}

/// Serves one connection, until it ends.
pub fn serve<R: PeerHost + Wait>(rt: &R, shared: &SharedPeer, door: &Door) {
    if let Err(fault) = read_all(rt, shared, door) {
        shared.seat.lock(rt).peer.end_by(Err(fault));
    }
    shared.tell();
}
