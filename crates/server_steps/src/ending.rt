//! How connections end, and the server.

ghost use Rattle.std.specs.Prelude.{◌≡◌, ◌+◌, ◌<◌, ◌≤◌, ◌^◌, ℕ, IfSome, None, Some, if◌then◌else◌, is_some};
ghost use Rattle.slab.specs.Slab.{get};
ghost use Rattle.server_connections.specs.Changing.{changed};
ghost use Rattle.server_connections.specs.Life.{without_guest};
ghost use Rattle.server_steps.specs.Ending.{EachKey, FinishesAt, IsOldest, end_after, end_by, expired, fullness_at};
ghost use Rattle.server_steps.specs.Ending.{full_if, gone_at, looks_at, new_below, new_number, older, parted, seen_at};
ghost use Rattle.server_steps.specs.Ending.{told_full};

use attach_proto::Why;
use server_connections::{
    Awaits, Connections, Guest, Peer, PeerStream, Role, SeatAnswer, SeatFault, ServerEnd,
};
use session::Reason;
use std::time::Duration;

/// Why the server is to end, once the session ended a client or a window for this reason.
pub fn end_after(reason: Reason, end: Option<ServerEnd>) -> Option<ServerEnd>
    ensures { result ≡ end_after reason end }
{
    match reason {
        Reason::Quit => Some(ServerEnd::Quit),
        _ => end,
    }
}

/// Why the server is to end, after the answer to a step.
pub fn end_by(answer: &Result<SeatAnswer, SeatFault>, end: Option<ServerEnd>) -> Option<ServerEnd>
    ensures { result ≡ end_by answer.now end }
{
    match answer {
        Err(SeatFault::Over(end)) => Some(*end),
        _ => end,
    }
}

/// Why the server is to end, after a command that may be `quit`.
pub fn quit_if(is_quit: bool, end: Option<ServerEnd>) -> Option<ServerEnd>
    ensures { result ≡ (if is_quit then Some ServerEnd.Quit else end) }
{
    if is_quit { Some(ServerEnd::Quit) } else { end }
}

/// Why the server is to end, if nothing is written to the trail's file any more: as at a full trail.
pub fn full_if(has_stopped: bool) -> Option<ServerEnd>
    ensures { result ≡ full_if has_stopped }
{
    if has_stopped {
        Some(ServerEnd::TrailFull)
    } else {
        None
    }
}

/// Takes what the loops are to be told of a window: its serial, and whether what is typed into it has to wait.
pub fn take_fullness<S: Drop>(connections: &mut Connections<S>, key: usize) -> Option<(u32, bool)>
    ensures news { result ≡ fullness_at (get connections.old.peers key) }
    ensures told { connections.new ≡ changed told_full key connections.old }
{
    let Some(peer) = connections.touch(key) else {
        return None;
    };
    peer.take_fullness()
}

/// Takes the guest of a connection that goes, and why it was told to go.
pub fn take_guest<S: Drop>(
    connections: &mut Connections<S>,
    key: usize,
) -> Option<(Guest, Option<Why>)>
    ensures guest { result ≡ gone_at (get connections.old.peers key) }
    ensures once { connections.new ≡ changed without_guest key connections.old }
{
    let Some(peer) = connections.touch(key) else {
        return None;
    };
    peer.farewell()
}

/// A connection that was waited for as long as it may be is told to go, or closed if it was told so before.
pub fn expire<S: Drop>(connections: &mut Connections<S>, key: usize, now: Duration)
    ensures { connections.new ≡ changed (expired now) key connections.old }
{
    let Some(peer) = connections.touch(key) else {
        return;
    };
    peer.expire(now);
}

// Whether a first message waits for a look that nobody asked for yet.
fn awaits_look<S: Drop>(connections: &Connections<S>, key: usize) -> bool
    ensures { result ≡ looks_at (get connections.now.peers key) }
{
    match connections.get(key) {
        Some(peer) => peer.awaits(Awaits::Look),
        None => false,
    }
}

fn set_look_at<S: Drop>(connections: &mut Connections<S>, key: usize, look: u64)
    ensures { connections.new ≡ seen_at look key connections.old }
{
    if !awaits_look(connections, key) {
        return;
    }
    if let Some(peer) = connections.touch(key) {
        peer.look = Some(look);
    }
}

/// The first messages that wait for a look at the users' file wait for the look of this number.
pub fn set_look<S: Drop>(connections: &mut Connections<S>, look: u64)
    ensures { EachKey (λ key old new. new ≡ seen_at look key old) connections.old.peers.capacity 0
        connections.old connections.new }
{
    'keys: for key in 0..connections.end() {
        set_look_at(connections, key, look);
    }
}

// The number of a connection whose first message isn't done.
fn new_number<S: Drop>(connections: &Connections<S>, key: usize) -> Option<u64>
    ensures { result ≡ new_number (get connections.now.peers key) }
{
    match connections.get(key) {
        Some(peer) if peer.is_new() => Some(peer.number),
        _ => None,
    }
}

fn one_more(count: usize, number: Option<u64>) -> usize
    requires { count + 1 < 2 ^ 64 }
    ensures count { result ≡ count + (if is_some number then 1 else 0) }
    ensures most { result ≤ count + 1 }
{
    match number {
        Some(_) => count + 1,
        None => count,
    }
}

/// Of how many connections the first message isn't done.
pub fn count_new<S: Drop>(connections: &Connections<S>) -> usize
    ensures { result ≡ new_below connections.now.peers connections.now.peers.capacity }
{
    let mut count = 0;
    'keys: for key in 0..connections.end() {
        count = one_more(count, new_number(connections, key));
    }
    count
}

// The one with the lower number.
fn older(number: Option<u64>, oldest: Option<(u64, usize)>, key: usize) -> Option<(u64, usize)>
    ensures { result ≡ older number oldest key }
{
    let Some(number) = number else {
        return oldest;
    };
    let Some((first, at)) = oldest else {
        return Some((number, key));
    };
    if first <= number {
        Some((first, at))
    } else {
        Some((number, key))
    }
}

/// Of the connections whose first message isn't done, the one that came first.
pub fn oldest_new<S: Drop>(connections: &Connections<S>) -> Option<usize>
    ensures some { IfSome result (IsOldest connections.now.peers connections.now.peers.capacity) }
    ensures none { result ≡ None → (key : ℕ) → key < connections.now.peers.capacity
        → new_number (get connections.now.peers key) ≡ None }
{
    let mut oldest: Option<(u64, usize)> = None;
    'keys: for key in 0..connections.end() {
        oldest = older(new_number(connections, key), oldest, key);
    }
    let Some(found) = oldest else {
        return None;
    };
    Some(found.1)
}

// It is told why the server ends, or closed if it is nothing to the session.
fn part<S: Drop>(peer: &mut Peer<S>, why: Why)
    ensures { peer.new ≡ parted why peer.old }
{
    match peer.role {
        Role::Client(_) => peer.end(why),
        Role::Window(_) => peer.end(why),
        Role::Stranger => {
            if peer.stage.is_open() {
                peer.close();
            }
        }
    }
}

fn finish_at<S: PeerStream + Drop>(connections: &mut Connections<S>, key: usize, why: Why)
    ensures { FinishesAt S.PeerStream why key connections.old connections.new }
{
    let Some(peer) = connections.touch(key) else {
        return;
    };
    part(peer, why);
    peer.role = Role::Stranger;
    peer.leaves = Role::Stranger;
    peer.mark_room();
    peer.write();
}

/// All connections are told why the server ends, and written to.
pub fn finish<S: PeerStream + Drop>(connections: &mut Connections<S>, why: Why)
    ensures { EachKey (FinishesAt S.PeerStream why) connections.old.peers.capacity 0
        connections.old connections.new }
{
    'keys: for key in 0..connections.end() {
        finish_at(connections, key, why);
    }
}
