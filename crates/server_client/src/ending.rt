//! The end of a peer, and the messages about it.

ghost use Rattle.std.specs.Prelude.{◌≡◌, is_some};
ghost use Rattle.client_peer.specs.Ending.{ending_of};
ghost use Rattle.client_words.specs.Ending.{status_after};
ghost use Rattle.server_client.specs.Telling.{message_of};

use attach_proto::Why;
use client_peer::Peer;
use client_words::{Arguments, PeerFault, ToldFault, explain, gone, put_visible, status_after};
use std::alloc::Global;
use std::io::Write;

/// Which message tells how a peer ended.
#[derive(Clone, Copy)]
pub enum EndMessage {
    Nothing,
    /// The server let the peer go.
    Gone(Why),
    /// The user left without the server's answer.
    Unanswered,
    /// The session's last text before it let the peer in.
    Said,
    Fault(PeerFault),
}

// Which message tells how a peer ended, whether its good end is asked for or not.
fn message(peer: &Peer, why: bool) -> EndMessage
    ensures { result ≡ message_of (is_some peer.now.times.left_at) why (is_some peer.now.said)
        (ending_of peer.now.end peer.now.fault) }
{
    match (peer.times.left_at.is_some(), peer.ending()) {
        (_, Ok(gone)) if why => EndMessage::Gone(gone),
        (_, Ok(_)) => EndMessage::Nothing,
        (true, Err(_)) if why => EndMessage::Unanswered,
        (true, Err(_)) => EndMessage::Nothing,
        (false, Err(PeerFault::Gone(Why::Fault))) if peer.said.is_some() => EndMessage::Said,
        (false, Err(fault)) => EndMessage::Fault(fault),
    }
}

// Prints the session's text, and what a number in it means.
fn tell_said<E: Write>(alloc: Global, peer: &Peer, arguments: &Arguments<'_>, errors: &mut E) {
    let said = peer.said.as_ref().map_or("", String::as_str);
    let mut visible = Vec::new(alloc);
    let _ = put_visible(said.as_bytes(), &mut visible);
    let _ = errors.write_all(b"mux: ");
    let _ = errors.write_all(&visible);
    let _ = explain(alloc, said, arguments, errors);
    let _ = writeln!(errors);
}

/// Prints a fault.
pub fn tell_fault<E: Write>(fault: PeerFault, arguments: &Arguments<'_>, errors: &mut E) {
    let _ = writeln!(errors, "mux: {}", ToldFault { fault, arguments });
}

/// Prints the messages about a peer's end. Returns the exit status.
pub fn tell_end<E: Write>(
    alloc: Global,
    peer: &Peer,
    arguments: &Arguments<'_>,
    errors: &mut E,
) -> u8
    ensures { result ≡ status_after (is_some peer.now.times.left_at) (ending_of peer.now.end peer.now.fault) }
{
    if peer.has_dropped {
        let _ = writeln!(
            errors,
            "mux: lines of {} were ignored: each is ROWS COLS, 4 to 200 by 20 to 300",
            arguments.sizes.unwrap_or("--sizes")
        );
    }
    tell_cause(alloc, peer, arguments, errors);
    if peer.is_unsure {
        let _ = writeln!(
            errors,
            "mux: the window isn't opened again, in case the session is another one: \
             {}.session is missing or older than the socket (see muxd-run --again)",
            arguments.socket
        );
    }
    if !peer.was_welcome {
        tell_unseen(arguments, errors);
    }
    status_after(peer.times.left_at.is_some(), peer.ending())
}

/// Prints, with `--why`, that a client drew nothing.
pub fn tell_unseen<E: Write>(arguments: &Arguments<'_>, errors: &mut E) {
    if arguments.why {
        let _ = errors.write_all(b"mux: nothing was shown\n");
    }
}

// Prints why a peer ended.
fn tell_cause<E: Write>(alloc: Global, peer: &Peer, arguments: &Arguments<'_>, errors: &mut E) {
    match message(peer, arguments.why) {
        EndMessage::Nothing => {}
        EndMessage::Gone(why) => {
            let _ = writeln!(errors, "mux: {}", gone(why));
        }
        EndMessage::Unanswered => {
            let _ = writeln!(
                errors,
                "mux: left without an answer of the server at {}",
                arguments.socket
            );
        }
        EndMessage::Said => tell_said(alloc, peer, arguments, errors),
        EndMessage::Fault(fault) => tell_fault(fault, arguments, errors),
    }
}
