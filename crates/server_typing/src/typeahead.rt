//! Keys of a client that wait until a step judges them.

ghost use Rattle.std.specs.Prelude.{◌≡◌, OnOk, OnErr, length};
ghost use Rattle.server_typing.specs.Typed.{IsYoung, after_news, after_read, drains, expired, has_room};
ghost use Rattle.server_typing.specs.Typed.{begins_command, holding, is_idle, is_news, judged, let_go, may_read};
ghost use Rattle.server_typing.specs.Typed.{takes, typed_at, untyped, waits};

use std::alloc::{AllocError, Global};
use std::marker::Model;

// At most this many keys are judged by one step.
const STEP: usize = 8_192;

// Keys that wait for this many milliseconds are dropped.
const LONGEST: u64 = 1_000;

// While keys wait for this many milliseconds or longer, the socket is read all the same, so that nothing
// gets old there.
const LATE: u64 = 100;

// It is read so once in this many milliseconds.
const PAUSE: u64 = 20;

// The key with which a command begins.
const COMMAND: u8 = 1;

/// Keys of a client that wait until a step judges them. At most one step's keys wait, for less than a
/// second unless they are held. Times are in milliseconds.
pub struct Typeahead {
    bytes: Vec<u8>,
    since: u64,
    lost: bool,
    told: u64,
    denied: bool,
    drained: bool,
    read: u64,
    earliest: u64,
    held: bool,
}

impl Drop for Typeahead {
    fn drop(self) {
        let Typeahead {
            bytes: _,
            since: _,
            lost: _,
            told: _,
            denied: _,
            drained: _,
            read: _,
            earliest: _,
            held: _,
        } = self;
    }
}

impl Model for Typeahead {
    ghost use Rattle.std.specs.Prelude.{◌≤◌, vec_len};
    ghost use Rattle.server_typing.specs.Typed.{Typed};

    ghost Value = { Typed };

    ghost view = { λ t. record {
      keys = t.bytes.items;
      since = t.since;
      lost = t.lost;
      told = t.told;
      denied = t.denied;
      drained = t.drained;
      read = t.read;
      earliest = t.earliest;
      held = t.held;
    } };

    ghost invariant = { λ t. vec_len t.bytes ≤ 8192 };
}

impl Typeahead {
    /// No keys.
    pub fn new(alloc: Global) -> Typeahead
        ensures { result ≡ untyped }
    {
        Typeahead {
            bytes: Vec::new(alloc),
            since: 0,
            lost: false,
            told: 0,
            denied: false,
            drained: true,
            read: 0,
            earliest: 0,
            held: false,
        }
    }

    pub fn is_empty(&self) -> bool
        ensures { result ≡ is_idle self.now }
    {
        self.bytes.is_empty()
    }

    /// The keys that wait.
    pub fn keys(&self) -> &[u8]
        ensures { result.now ≡ self.now.keys }
    {
        self.bytes.as_slice()
    }

    // Whether the keys wait for this long or longer, and aren't held.
    fn waits(&self, now: u64, time: u64) -> bool
        ensures { result ≡ waits now time self.now }
    {
        !self.is_empty() && !self.held && now.saturating_sub(self.since) >= time
    }

    fn has_room(&self, count: usize) -> bool
        ensures { result ≡ has_room count self.now }
    {
        count <= STEP && self.bytes.len() + count <= STEP
    }

    /// Whether this many more are taken in now, or dropped. If not, they stay where they are.
    pub fn takes(&self, now: u64, count: usize) -> bool
        ensures { result ≡ takes now count self.now }
    {
        self.has_room(count) || self.waits(now, LATE)
    }

    /// Takes in keys after those that wait. They are dropped if they are too many for one step.
    pub fn put(&mut self, now: u64, keys: &[u8]) -> Result<(), AllocError>
        ensures ok { OnOk result (self.new ≡ typed_at now keys.now self.old) }
        ensures err { OnErr result (self.new ≡ self.old) }
    {
        if !self.has_room(keys.len()) {
            self.lost = true;
            return Ok(());
        }
        let is_first = self.is_empty();
        self.bytes.extend_from_slice(keys)?;
        if is_first {
            self.since = if self.denied { self.earliest } else { now };
        }
        Ok(())
    }

    /// Drops all keys if they wait for a second and aren't held.
    pub fn expire(&mut self, now: u64)
        ensures expired { self.new ≡ expired now self.old }
        ensures young { IsYoung now self.new }
    {
        if self.waits(now, LONGEST) {
            self.bytes.clear();
            self.lost = true;
        }
    }

    /// The first of the keys were judged.
    pub fn judge(&mut self, count: usize)
        ensures { self.new ≡ judged count self.old }
    {
        if count >= self.bytes.len() {
            self.bytes.clear();
            self.held = false;
        } else {
            let left = self.bytes.len() - count;
            self.bytes.copy_within(count.., 0);
            self.bytes.truncate(left);
        }
    }

    /// Whether the first of the keys begins a command.
    pub fn begins_command(&self) -> bool
        ensures { result ≡ begins_command self.now }
    {
        self.bytes.first() == Some(&COMMAND)
    }

    /// Whether the keys are held.
    pub fn is_held(&self) -> bool
        ensures { result ≡ self.now.held }
    {
        self.held
    }

    /// The keys wait as long as it takes, and so does what comes after them: their user may type, but
    /// the window that they are for takes no more for now.
    pub fn hold(&mut self)
        ensures { self.new ≡ holding self.old }
    {
        self.held = true;
        self.drained = false;
    }

    /// If keys are held, their user may not type any more. They and what comes after them are as old as
    /// if they had never been held.
    pub fn let_go(&mut self)
        ensures { self.new ≡ let_go self.old }
    {
        if self.held {
            self.held = false;
            self.denied = true;
        }
    }

    /// Whether the last step was denied, or had to wait for its user's ration.
    pub fn set_denied(&mut self, denied: bool)
        ensures { self.new ≡ record self.old { denied = denied } }
    {
        self.denied = denied;
    }

    /// Whether more is there to be read than one read finds, and what comes is denied.
    pub fn drains(&self) -> bool
        ensures { result ≡ drains self.now }
    {
        self.denied && !self.drained
    }

    /// Whether the socket is to be read, beside a size that waits or without one.
    pub fn may_read(&self, now: u64, sizes: bool) -> bool
        ensures { result ≡ may_read now sizes self.now }
    {
        if sizes || self.drains() || self.waits(now, LATE) {
            now.saturating_sub(self.read) >= PAUSE
        } else {
            self.is_empty()
        }
    }

    /// The socket was read, and may hold much more.
    pub fn note_read(&mut self, now: u64, is_much: bool)
        ensures { self.new ≡ after_read now is_much self.old }
    {
        if self.drained {
            self.earliest = now;
        }
        self.drained = !is_much;
        self.read = now;
    }

    /// Whether its user is to be told now that keys were dropped, which is noted as told.
    pub fn take_news(&mut self, now: u64) -> bool
        ensures news { result ≡ is_news now self.old }
        ensures told { self.new ≡ after_news now self.old }
    {
        if !self.lost || now.saturating_sub(self.told) < LONGEST {
            return false;
        }
        self.lost = false;
        self.told = now;
        true
    }
}
