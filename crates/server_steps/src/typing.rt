//! The keys and the size of one connection, before and after a step of them. Times are in milliseconds.

ghost use Rattle.std.specs.Prelude.{◌≡◌, ◌||◌, not};
ghost use Rattle.std.specs.Result.{result_ok};
ghost use Rattle.slab.specs.Slab.{get};
ghost use Rattle.server_connections.specs.Changing.{changed};
ghost use Rattle.server_typing.specs.Typed.{is_idle, untyped};
ghost use Rattle.server_steps.specs.Settling.{progress_of, settled};
ghost use Rattle.server_steps.specs.Typing.{GathersAt, answered, freed_keys, held_keys, idle_at, is_news_at};
ghost use Rattle.server_steps.specs.Typing.{is_open_at, size_at, sized, target_at, put_keys, told_news, typed_at};
ghost use Rattle.server_steps.specs.Typing.{unless_more, user_at, wants_size, with_typed};

use crate::progress::{Progress, settle, window_after};
use server_connections::{Connections, SeatAnswer, SeatFault, Size, Typeahead};
use server_users::Shown;
use std::alloc::{AllocError, Global};

/// Where the keys go that wait for a connection, as far as that is known.
#[derive(Clone, Copy)]
pub struct Target {
    pub window: u32,
    pub user: Shown,
    /// The first of them begins a command.
    pub begins_command: bool,
    pub is_held: bool,
}

impl Target {
    /// Whether it is asked if the user may still type: keys are held, or their window takes no more for now.
    pub fn is_asked(self, is_full: bool) -> bool
        ensures { result ≡ (is_full || self.is_held) }
    {
        is_full || self.is_held
    }
}

impl Progress {
    /// While more is to be taken in, nothing is held.
    pub fn unless_more(self, is_through: bool) -> Progress
        ensures { result ≡ unless_more is_through self }
    {
        match self {
            Progress::Held if !is_through => Progress::Part,
            progress => progress,
        }
    }
}

/// Whether a connection is there, and is read.
pub fn is_open_at<S: Drop>(connections: &Connections<S>, key: usize) -> bool
    ensures { result ≡ is_open_at (get connections.now.peers key) }
{
    match connections.get(key) {
        Some(peer) => peer.stage.is_open(),
        None => false,
    }
}

/// Takes in keys and sizes of a connection that come next. Returns whether no more are there; None if the
/// connection isn't read.
pub fn gather<S: Drop>(
    connections: &mut Connections<S>,
    key: usize,
    now: u64,
) -> Result<Option<bool>, AllocError>
    ensures { GathersAt now key connections.old (result_ok result) connections.new }
{
    if !is_open_at(connections, key) {
        return Ok(None);
    }
    let Some(peer) = connections.touch(key) else {
        return Ok(None);
    };
    match peer.gather(now) {
        Ok(is_through) => Ok(Some(is_through)),
        Err(error) => Err(error),
    }
}

/// Takes out the size that is to be told now.
pub fn next_size<S: Drop>(connections: &mut Connections<S>, key: usize, now: u64) -> Option<Size>
    ensures size { result ≡ size_at now (get connections.old.peers key) }
    ensures after { connections.new ≡ changed (sized now) key connections.old }
{
    let Some(peer) = connections.touch(key) else {
        return None;
    };
    peer.inbox.sizing.next(now)
}

/// Whether a size waits that was told: it changes before the keys that came after it.
pub fn wants_size<S: Drop>(connections: &Connections<S>, key: usize) -> bool
    ensures { result ≡ wants_size (get connections.now.peers key) }
{
    match connections.get(key) {
        Some(peer) => peer.inbox.sizing.wanted.is_some(),
        None => false,
    }
}

/// Whether a user is to be told now that keys were dropped, which is noted as told.
pub fn take_news<S: Drop>(connections: &mut Connections<S>, key: usize, now: u64) -> bool
    ensures news { result ≡ is_news_at now (get connections.old.peers key) }
    ensures told { connections.new ≡ changed (told_news now) key connections.old }
{
    let Some(peer) = connections.touch(key) else {
        return false;
    };
    peer.inbox.typed.take_news(now)
}

/// Whether keys of a connection wait.
pub fn has_keys<S: Drop>(connections: &Connections<S>, key: usize) -> bool
    ensures { result ≡ not (is_idle (typed_at (get connections.now.peers key))) }
{
    match connections.get(key) {
        Some(peer) => !peer.inbox.typed.is_empty(),
        None => false,
    }
}

/// What is to be done for a connection of which no keys wait.
pub fn idle_at<S: Drop>(
    connections: &Connections<S>,
    key: usize,
    is_through: bool,
) -> Option<Progress>
    ensures { result ≡ idle_at is_through (get connections.now.peers key) }
{
    let Some(peer) = connections.get(key) else {
        return None;
    };
    let waits = peer.inbox.sizing.wanted.is_some() || peer.inbox.typed.drains();
    if waits && !peer.inbox.has_messages() {
        Some(Progress::Held.unless_more(is_through))
    } else if is_through {
        None
    } else {
        Some(Progress::Part)
    }
}

/// Where the keys of a connection go, as far as that is known.
pub fn target_at<S: Drop>(connections: &Connections<S>, key: usize) -> Option<Target>
    ensures { result ≡ target_at (get connections.now.peers key) }
{
    let Some(peer) = connections.get(key) else {
        return None;
    };
    match (peer.types_into, peer.user) {
        (Some(window), Some(user)) => Some(Target {
            window,
            user,
            begins_command: peer.inbox.typed.begins_command(),
            is_held: peer.inbox.typed.is_held(),
        }),
        _ => None,
    }
}

/// The keys of a connection wait as long as it takes. Those of one whose other end is gone are as old as they are.
pub fn hold_keys<S: Drop>(connections: &mut Connections<S>, key: usize)
    ensures { connections.new ≡ changed held_keys key connections.old }
{
    if let Some(peer) = connections.touch(key) {
        if peer.has_hung_up {
            peer.inbox.typed.let_go();
        } else {
            peer.inbox.typed.hold();
        }
    }
}

/// The user of a connection may not type any more: keys that were held are as old as they are.
pub fn free_keys<S: Drop>(connections: &mut Connections<S>, key: usize)
    ensures { connections.new ≡ changed freed_keys key connections.old }
{
    if let Some(peer) = connections.touch(key) {
        peer.inbox.typed.let_go();
    }
}

/// The user of a connection who showed their token.
pub fn user_at<S: Drop>(connections: &Connections<S>, key: usize) -> Option<Shown>
    ensures { result ≡ user_at (get connections.now.peers key) }
{
    match connections.get(key) {
        Some(peer) => peer.user,
        None => None,
    }
}

/// Takes out the keys of a connection that wait.
pub fn take_keys<S: Drop>(alloc: Global, connections: &mut Connections<S>, key: usize) -> Typeahead
    ensures keys { result ≡ typed_at (get connections.old.peers key) }
    ensures rest { connections.new ≡ changed (with_typed untyped) key connections.old }
{
    match connections.touch(key) {
        Some(peer) => peer.take_keys(alloc),
        None => Typeahead::new(alloc),
    }
}

// Puts keys back, and notes where the next ones go. Those that wait on are as old as they are if that isn't known.
fn put_keys<S: Drop>(
    connections: &mut Connections<S>,
    key: usize,
    typed: Typeahead,
    window: Option<u32>,
    progress: Progress,
)
    ensures { connections.new ≡ changed (put_keys typed window progress) key connections.old }
{
    if let Some(peer) = connections.touch(key) {
        peer.inbox.typed = typed;
        if progress != Progress::Held {
            peer.types_into = window;
        } else if peer.types_into.is_none() {
            peer.inbox.typed.let_go();
        }
    }
}

/// Puts keys back that were taken out, after the answer to a step of them.
pub fn answer_keys<S: Drop>(
    connections: &mut Connections<S>,
    key: usize,
    typed: Typeahead,
    answer: &Result<Option<SeatAnswer>, SeatFault>,
) -> Progress
    ensures keys { connections.new ≡ changed (answered answer.now typed) key connections.old }
    ensures progress { result ≡ progress_of answer.now (settled answer.now typed) }
{
    let mut typed = typed;
    let window = window_after(typed.keys(), answer);
    let progress = settle(&mut typed, answer);
    put_keys(connections, key, typed, window, progress);
    progress
}
