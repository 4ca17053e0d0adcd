//! The connections of one loop, by their keys, and how those that are awake have their turn.

ghost use Rattle.std.specs.Prelude.{◌≡◌, ◌≢◌, ◌↔◌, ◌+◌, ◌<◌, ◌≤◌, ℕ, [], None, false, true, length, min, IfSome};
ghost use Rattle.std.specs.Prelude.{IsSomeAnd, IsTrue, IfErr, OnOk, OnErr, if◌then◌else◌, option_copied};
ghost use Rattle.std.specs.Option.{option_copied_mut};
ghost use Rattle.slab.specs.Slab.{Updates, get, slab_len};
ghost use Rattle.server_sending.specs.Frames.{Sends, SendsFront};
ghost use Rattle.server_connections.specs.Marked.{IsMarked, IsNext, NoneFrom, without_mark};
ghost use Rattle.server_connections.specs.Peers.{AwaitsAt, IsAt, IsFirstFrom, IsNewcomer, goes, rests};
ghost use Rattle.server_connections.specs.Putting.{IsPutAt, PutsFor};
ghost use Rattle.server_connections.specs.Telling.{told_at, told_if_any};
ghost use Rattle.server_connections.specs.Walking.{Walks};

use crate::marked::MarkedKeys;
use crate::peer::{Awaits, Peer, Role};
use server_sending::{Sending, put};
use slab::Slab;
use std::alloc::{AllocError, Global};

/// Connections by their keys. One with which nothing is to be done rests until something comes from
/// it or is to be put into it; the others are awake.
#[derive(Drop)]
pub struct Connections<S> {
    pub(crate) alloc: Global,
    peers: Slab<Peer<S>>,
    awake: MarkedKeys,
    // How many were taken in.
    number: u64,
    // The key from which a role is looked for: the one after the key that was found last.
    next: usize,
}

impl<S: Drop> Connections<S> {
    ghost use Rattle.std.specs.Borrow.{sem};
    ghost use Rattle.server_connections.specs.Lending.{LendsTouched};

    pub fn new(alloc: Global) -> Connections<S>
        ensures nobody { result.peers.slots ≡ [] }
        ensures asleep { (key : ℕ) → ¬ (IsMarked result.awake key) }
        ensures number { result.number ≡ 0 }
    {
        Connections {
            alloc,
            peers: Slab::new(alloc),
            awake: MarkedKeys::new(alloc),
            number: 0,
            next: 0,
        }
    }

    /// The key that the next connection gets.
    pub fn vacant_key(&self) -> usize
        ensures { result ≡ self.now.peers.vacant_key }
    {
        self.peers.vacant_key()
    }

    /// Takes a connection in, under `vacant_key`. It is awake. Without memory it is closed. One that
    /// is taken in though no more are to stay is extra.
    pub fn admit(&mut self, stream: S, is_extra: bool) -> Result<(), AllocError>
        ensures admitted { OnOk result (IsSomeAnd (get self.new.peers self.old.peers.vacant_key)
            (IsNewcomer stream self.old.number is_extra)) }
        ensures awake { OnOk result (IsMarked self.new.awake self.old.peers.vacant_key) }
        ensures number { OnOk result (self.new.number
            ≡ min (self.old.number + 1) 18446744073709551615) }
        ensures fails { OnErr result (get self.new.peers self.old.peers.vacant_key
            ≡ get self.old.peers self.old.peers.vacant_key) }
        ensures others { (key : ℕ) → key ≢ self.old.peers.vacant_key
            → (get self.new.peers key ≡ get self.old.peers key)
            × (IsMarked self.new.awake key ↔ IsMarked self.old.awake key) }
    {
        let next = self.vacant_key();
        self.awake.reserve(next)?;
        let peer = Peer::new(self.alloc, stream, self.number, is_extra)?;
        self.peers.insert(peer)?;
        self.awake.mark(next);
        self.number = self.number.saturating_add(1);
        Ok(())
    }

    pub fn len(&self) -> usize
        ensures { result ≡ slab_len self.now.peers }
    {
        self.peers.len()
    }

    /// All keys are below it.
    pub fn end(&self) -> usize
        ensures end { result ≡ self.now.peers.capacity }
        ensures above { length self.now.peers.slots ≤ result }
    {
        self.peers.capacity()
    }

    /// The connection of a key.
    pub fn get(&self, key: usize) -> Option<&Peer<S>>
        ensures { option_copied result ≡ get self.now.peers key }
    {
        self.peers.get(key)
    }

    /// The first key from this one on that is awake.
    pub fn next_awake(&self, from: usize) -> Option<usize>
        ensures some { IfSome result (IsNext self.now.awake from) }
        ensures none { result ≡ None → NoneFrom self.now.awake from }
    {
        self.awake.next(from)
    }

    /// The connection of a key, which is awake from now on.
    pub fn touch(&mut self, key: usize) -> Option<&mut Peer<S>>
        ensures* writes_back { sem 𝓛 (LendsTouched S.row self.entry key result) }
        ensures value { option_copied_mut result ≡ get self.old.peers key }
    {
        self.awake.mark(key);
        self.peers.get_mut(key)
    }

    // Whether the connection of a key is this to the session, and is sent what that says.
    fn is_at(&self, key: usize, role: Role) -> bool
        ensures { IsTrue result ↔ IsAt self.now.peers role key }
    {
        match self.get(key) {
            Some(peer) => peer.role == role && peer.listens(),
            None => false,
        }
    }

    // The first of these keys whose connection is this to the session, and is sent what that says.
    fn key_among(&self, from: usize, end: usize, role: Role) -> Option<usize>
        ensures within { IfSome result (λ key. (from ≤ key) × (key < end)) }
        ensures is { IfSome result (IsAt self.now.peers role) }
        ensures first { IfSome result (λ key.
            (k : ℕ) → from ≤ k → k < key → ¬ (IsAt self.now.peers role k)) }
        ensures none { result ≡ None
            → (k : ℕ) → from ≤ k → k < end → ¬ (IsAt self.now.peers role k) }
    {
        'keys: for key in from..end {
            if self.is_at(key, role) {
                return Some(key);
            }
        }
        None
    }

    /// The key of the connection that is this to the session, and is sent what that says. Effects
    /// mostly come in the order of the keys, so it is looked for after the key that was found last.
    pub fn key_of(&mut self, role: Role) -> Option<usize>
        ensures some { IfSome result (IsFirstFrom self.old.peers role self.old.next) }
        ensures none { result ≡ None → (key : ℕ) → ¬ (IsAt self.old.peers role key) }
        ensures next { IfSome result (λ key. self.new ≡ record self.old { next = key + 1 }) }
        ensures same { result ≡ None → self.new ≡ self.old }
    {
        let end = self.end();
        let next = self.next.min(end);
        let key = match self.key_among(next, end, role) {
            Some(key) => key,
            None => self.key_among(0, next, role)?,
        };
        self.next = key + 1;
        Some(key)
    }

    /// Puts something after what waits for the connection that is this to the session, and into no
    /// other. The answer is the key of a connection into which it couldn't be put.
    pub fn put_for(&mut self, role: Role, sending: Sending<'_>) -> Result<(), usize>
        ensures put { OnOk result (PutsFor self.old role (Sends sending.entry) self.new) }
        // Of bytes the first ones may have been put.
        ensures fault { IfErr result (IsPutAt self.old role (SendsFront sending.entry) self.new) }
    {
        let alloc = self.alloc;
        let Some(key) = self.key_of(role) else {
            return Ok(());
        };
        let Some(peer) = self.touch(key) else {
            return Ok(());
        };
        match put(alloc, &mut peer.turn, sending) {
            Ok(()) => Ok(()),
            Err(_) => Err(key),
        }
    }

    /// Whether a connection that is awake waits for this.
    pub fn any_awaits(&self, what: Awaits) -> bool
        ensures some { result ≡ true → (key : ℕ) × IsMarked self.now.awake key
            × AwaitsAt self.now.peers what key }
        ensures none { result ≡ false → (key : ℕ) → IsMarked self.now.awake key
            → ¬ (AwaitsAt self.now.peers what key) }
    {
        let mut from = 0;
        let end = self.end();
        'keys: for _ in 0..end {
            match self.next_awake(from) {
                Some(key) if key < end => {
                    if self.awaits_at(key, what) {
                        return true;
                    }
                    from = key + 1;
                }
                _ => return false,
            }
        }
        false
    }

    fn awaits_at(&self, key: usize, what: Awaits) -> bool
        ensures { IsTrue result ↔ AwaitsAt self.now.peers what key }
    {
        match self.get(key) {
            Some(peer) => peer.awaits(what),
            None => false,
        }
    }

    fn tell_at(&mut self, key: usize)
        ensures { self.new ≡ record self.old { peers = told_at self.old.peers key } }
    {
        if let Some(peer) = self.peers.get_mut(key) {
            peer.turn.told();
        }
    }

    /// Tells all connections that a step other than a draw was made. Those that rest go on resting:
    /// a client that only waits to be drawn doesn't need a turn.
    pub fn tell(&mut self)
        ensures told { (key : ℕ) → get self.new.peers key ≡ told_if_any (get self.old.peers key) }
        ensures same { self.new ≡ record self.old {
          peers = record self.old.peers { slots = self.new.peers.slots };
        } }
    {
        'keys: for key in 0..self.end() {
            self.tell_at(key);
        }
    }

    /// Lets a connection go with which all is done, and lets one rest with which nothing is to be
    /// done.
    pub fn settle(&mut self, key: usize)
        ensures awake { self.new.awake ≡ (if rests (get self.old.peers key)
            then without_mark self.old.awake key else self.old.awake) }
        ensures gone { goes (get self.old.peers key) ≡ true
            → Updates self.old.peers self.new.peers key None }
        ensures stays { goes (get self.old.peers key) ≡ false → self.new.peers ≡ self.old.peers }
        ensures same { self.new ≡ record self.old {
          peers = self.new.peers;
          awake = self.new.awake;
        } }
    {
        let Some(peer) = self.peers.get(key) else {
            self.awake.unmark(key);
            return;
        };
        if peer.is_done() {
            self.awake.unmark(key);
            let _ = self.peers.try_remove(key);
        } else if peer.is_at_rest() {
            self.awake.unmark(key);
        }
    }
}

/// What holds the connections of a loop.
pub trait HasConnections<S> {
    ghost use Rattle.server_connections.specs.declared.connections.Connections.{Connections as Held};

    ghost held: { Self → Held S };

    fn connections(&self) -> &Connections<S>
        ensures { result.now ≡ held self.now };
}

/// Visits each connection that is awake once, in the order of the keys. One that a visit wakes is
/// visited too if its key comes later.
pub fn each_awake<S: Drop, T: HasConnections<S>, F: Fn(&mut T, usize)>(holder: &mut T, visit: F)
    requires { F.IsAlwaysCallable visit }
    ensures { Walks (λ holder. (T.held holder).awake) (F.post visit)
        (T.held holder.old).peers.capacity 0 (T.held holder.old).peers.capacity
        holder.old holder.new }
{
    let mut from = 0;
    let end = holder.connections().end();
    'visits: for _ in 0..end {
        match holder.connections().next_awake(from) {
            Some(key) if key < end => {
                visit(holder, key);
                from = key + 1;
            }
            _ => return,
        }
    }
}
