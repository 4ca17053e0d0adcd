//! The turns that peers take.

use crate::frames::{
    ADD_BOB, ALL_INPUT, ALL_INPUT_1, ATTACH, ATTACH_BOB, BOTH, DENIED, DONE, FREE, GONE_QUIT, HIDE,
    LOCK, MULTIUSER, QUIT, WALL, WELCOME, WELCOME_1, WINDOW, WINDOW_1,
};
use crate::gate::{GateCalls, wait};
use crate::peer::{PeerStream, has, quit};
use std::io;
use std::net::Net;
use std::time::Clock;

/// The event that a turn waits for.
#[derive(Clone, Copy)]
enum Until {
    /// A loop holds the first call.
    Held,
    /// This peer got these bytes.
    Sent(usize, &'static [u8]),
    /// The page of this client is blank.
    Blank(usize),
}

/// A turn: a peer, by the number of its connection, the bytes that it sends, and the event to wait
/// for then. A peer connects in its first turn.
type PeerTurn = (usize, &'static [u8], Until);

// The numbers of the connections of a window and two clients; the others are commands.
const SHELL: usize = 6;

const OWN: usize = 7;

const BOB: usize = 8;

const EDITOR: usize = 12;

// The second loop's call is the one that is held: if it were the first loop's, no loop would accept
// the third connection.
static TURNS: [PeerTurn; 25] = [
    (0, b"", Until::Sent(0, b"")),
    (1, ADD_BOB, Until::Held),
    (0, MULTIUSER, Until::Sent(0, DONE)),
    (1, b"", Until::Sent(1, DONE)),
    (2, WALL, Until::Sent(2, DONE)),
    (3, WALL, Until::Sent(3, DONE)),
    (4, WALL, Until::Sent(4, DONE)),
    (5, WALL, Until::Sent(5, DONE)),
    (SHELL, WINDOW, Until::Sent(SHELL, WELCOME)),
    (OWN, ATTACH, Until::Sent(OWN, WELCOME)),
    (BOB, ATTACH_BOB, Until::Sent(BOB, WELCOME)),
    (OWN, b"K\0\x01o", Until::Sent(SHELL, b"i\0\x01o")),
    (BOB, b"K\0\x01x", Until::Sent(SHELL, b"i\0\x01x")),
    (SHELL, b"O\0\x06public", Until::Sent(OWN, b"public")),
    (BOB, b"", Until::Sent(BOB, b"public")),
    (9, HIDE, Until::Sent(9, DONE)),
    (BOB, b"", Until::Blank(BOB)),
    (SHELL, b"O\0\x08\r\nsecret", Until::Sent(OWN, b"secret")),
    (10, LOCK, Until::Sent(10, DONE)),
    (BOB, b"K\0\x01y", Until::Sent(BOB, DENIED)),
    (11, FREE, Until::Sent(11, DONE)),
    (BOB, b"K\0\x01z", Until::Sent(SHELL, b"i\0\x01z")),
    (EDITOR, WINDOW_1, Until::Sent(EDITOR, WELCOME_1)),
    (OWN, BOTH, Until::Sent(EDITOR, b"i\0\x01q")),
    (13, QUIT, Until::Sent(13, DONE)),
];

// Whether a peer gets these bytes.
fn is_sent(peers: &mut [PeerStream], place: usize, bytes: &[u8]) -> io::Result<bool> {
    match peers.get_mut(place) {
        Some(peer) => peer.is_sent(bytes),
        None => Ok(false),
    }
}

// Whether the event that a turn waits for comes.
fn take<R: Net + Clock + AllocGlobal>(
    rt: &R,
    socket: &str,
    calls: &GateCalls,
    peers: &mut Vec<PeerStream>,
    (place, bytes, until): PeerTurn,
) -> io::Result<bool> {
    if place == peers.len() {
        peers.push(PeerStream::new(rt, socket)?)?;
    }
    if let Some(peer) = peers.get_mut(place) {
        peer.send(bytes)?;
    }
    match until {
        Until::Held => Ok(wait(rt, &calls.begun, 0)),
        Until::Sent(receiver, bytes) => is_sent(peers, receiver, bytes),
        Until::Blank(client) => match peers.get_mut(client) {
            Some(peer) => peer.turns_blank(),
            None => Ok(false),
        },
    }
}

// The first turn whose event doesn't come.
fn wrong_turn<R: Net + Clock + AllocGlobal>(
    rt: &R,
    socket: &str,
    calls: &GateCalls,
    peers: &mut Vec<PeerStream>,
) -> Option<usize> {
    for (place, turn) in TURNS.iter().enumerate() {
        match take(rt, socket, calls, peers, *turn) {
            Ok(true) => {}
            _ => return Some(place),
        }
    }
    None
}

// Whether after `quit` a peer got all bytes that it must get. Without r bob must get nothing that the
// window prints.
fn is_right(place: usize, peer: &mut PeerStream) -> io::Result<bool> {
    let is_over = peer.is_over()?;
    let came = peer.came.as_slice();
    let is_client = came.starts_with(WELCOME) && came.ends_with(GONE_QUIT);
    let is_right = match place {
        SHELL => came == ALL_INPUT,
        EDITOR => came == ALL_INPUT_1,
        OWN => is_client,
        BOB => is_client && !has(came, b"secret"),
        _ => came == DONE,
    };
    Ok(is_over && is_right)
}

// The first peer that didn't get all bytes that it must get.
fn wrong_peer(peers: &mut [PeerStream]) -> Option<usize> {
    for (place, peer) in peers.iter_mut().enumerate() {
        match is_right(place, peer) {
            Ok(true) => {}
            _ => return Some(place),
        }
    }
    None
}

/// Takes all turns, and ends the server in any case. Returns the number of the first turn that goes
/// wrong; otherwise that of the first peer that didn't get its bytes, counted on from the turns.
pub fn first_wrong<R: Net + Clock + AllocGlobal>(
    rt: &R,
    socket: &str,
    calls: &GateCalls,
) -> Option<usize> {
    let mut peers = Vec::new(rt.alloc());
    if let Some(turn) = wrong_turn(rt, socket, calls, &mut peers) {
        let _ = quit(rt, socket);
        return Some(turn);
    }
    match wrong_peer(&mut peers) {
        Some(place) => Some(place.saturating_add(TURNS.len())),
        None => None,
    }
}
