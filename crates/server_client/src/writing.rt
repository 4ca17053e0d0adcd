//! Writes to standard output and the sizes' file, and sends frames to the server.

use crate::shared::{SharedPeer, Written};
use crate::{PeerHost, Sink};
use client_peer::Batch;
use std::alloc::Global;
use std::fs::File;
use std::os::unix::net::UnixStream;
use std::sync::{Arc, Wait};

/// Writes what waits for standard output and for the sizes' file, again and again.
pub fn write_out<R: PeerHost + Wait, O: Sink>(
    rt: &R,
    shared: &SharedPeer,
    output: &mut O,
    sizes: &mut Option<File>,
) {
    for _ in rt.forever() {
        let seat = shared.seat.lock(rt);
        let mut seat = shared
            .work
            .wait_while(rt, seat, |seat| !seat.peer.has_output());
        let waiting = seat.peer.begin_writing();
        drop(seat);
        let written = Written::write(output, sizes, waiting);
        let mut seat = shared.seat.lock(rt);
        seat.end_writing(written);
        let has_ended = seat.peer.end.is_some();
        drop(seat);
        shared.work.notify_all();
        if has_ended {
            shared.news.notify_all();
        }
    }
}

// Takes the frames that wait, with their connection.
fn begin<R: Wait>(rt: &R, shared: &SharedPeer) -> Option<(Batch, Arc<UnixStream, Global>)> {
    let mut seat = shared.seat.lock(rt);
    let stream = Arc::try_clone(seat.stream.as_ref()?).ok()?;
    Some((seat.peer.begin_sending()?, stream))
}

/// Sends the frames that wait, unless another thread does. Some may be left if the socket has a time limit.
pub fn send<R: Wait>(rt: &R, shared: &SharedPeer) {
    for _ in rt.forever() {
        let Some((mut batch, stream)) = begin(rt, shared) else {
            break;
        };
        let mut socket: &UnixStream = &stream;
        batch.send(&mut socket);
        let mut seat = shared.seat.lock(rt);
        let kept = seat.peer.end_sending(batch);
        let goes_on = kept.is_ok() && !seat.peer.is_stuck;
        drop(seat);
        shared.work.notify_all();
        if !goes_on {
            break;
        }
    }
    shared.news.notify_all();
}
