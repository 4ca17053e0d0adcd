//! What is written to one connection, and what goes out of what waits for it.

ghost use Rattle.std.specs.Prelude.{◌≡◌, ◌↔◌, IfSome, IsSomeAnd, IsTrue, None};
ghost use Rattle.slab.specs.Slab.{get};
ghost use Rattle.server_connections.specs.Changing.{changed};
ghost use Rattle.server_sending.specs.Typists.{HasNoTypist, IsNextTypist};
ghost use Rattle.server_steps.specs.Sending.{IsLaggard, WritesAt, cut, frames_at, wanting, without_user};

use acl::UserId;
use server_connections::{Connections, PeerStream, Stage};

/// Writes what waits for a connection, until it takes no more for now. Returns whether it was closed.
pub fn write<S: PeerStream + Drop>(connections: &mut Connections<S>, key: usize) -> bool
    ensures { WritesAt S.PeerStream key connections.old result connections.new }
{
    let Some(peer) = connections.touch(key) else {
        return false;
    };
    peer.write();
    peer.stage.is_closed()
}

/// Of the users who typed what waits for a connection, the one whose name follows this one's.
pub fn typist_after<S: Drop>(
    connections: &Connections<S>,
    key: usize,
    last: Option<UserId>,
) -> Option<UserId>
    ensures some { IfSome result (IsNextTypist last (frames_at (get connections.now.peers key))) }
    ensures none { result ≡ None → HasNoTypist last (frames_at (get connections.now.peers key)) }
{
    match connections.get(key) {
        Some(peer) => peer.turn.typist_after(last),
        None => None,
    }
}

/// Takes out of what waits for a connection the frames that a user typed and of which nothing was written.
pub fn drop_typed<S: Drop>(connections: &mut Connections<S>, key: usize, user: UserId)
    ensures { connections.new ≡ changed (without_user user) key connections.old }
{
    if let Some(peer) = connections.touch(key) {
        peer.turn.drop_typed(user);
    }
}

/// Whether too many bytes wait for a connection.
pub fn is_laggard<S: Drop>(connections: &Connections<S>, key: usize) -> bool
    ensures { IsTrue result ↔ IsSomeAnd (get connections.now.peers key) IsLaggard }
{
    match connections.get(key) {
        Some(peer) => peer.is_laggard(),
        None => false,
    }
}

/// A connection is to be closed once it takes no more.
pub fn cut_off<S: Drop>(connections: &mut Connections<S>, key: usize)
    ensures { connections.new ≡ changed cut key connections.old }
{
    if let Some(peer) = connections.touch(key) {
        peer.stage = Stage::Cut;
    }
}

/// The client of a key whose draw is to be asked for.
pub fn wanting<S: Drop>(connections: &Connections<S>, key: usize) -> Option<u32>
    ensures { result ≡ wanting (get connections.now.peers key) }
{
    match connections.get(key) {
        Some(peer) => peer.wants_draw(),
        None => None,
    }
}
