//! What a user may still try in vain, and which commands they may still have done.

ghost use Rattle.std.specs.Prelude.{◌≡◌, ◌↔◌, ◌<◌, ◌≤◌, ◌+◌, ◌*◌, ◌/◌, IsTrue, min, true, false};
ghost use Rattle.server_users.specs.Allowances.{MayPay, fresh, given_back, paid, settled, stands_at};

use std::marker::Model;

/// What came of a step that a user tried.
#[derive(Clone, Copy, Debug, PartialEq, Eq)]
pub enum Outcome {
    /// It was done, and the rights or locks that were checked for it allowed it.
    Granted,
    /// It was granted, and only typed into a window.
    Typed,
    /// It was done, and nothing was checked for it.
    Unchecked,
    /// It was refused, or a right or a lock didn't allow it.
    Denied,
    /// The session took no step.
    Untaken,
}

/// How many milliseconds it takes until a unit comes back.
pub const UNIT: u32 = 1_000;

// A user may spend at most 1,000 units, which come back in this number of milliseconds.
const MOST: u64 = 1_000_000;

// Units that commands use come back this many times faster.
const FASTER: u64 = 5;

// Commands may use at most 1,000 units, which come back in this number of milliseconds.
const MOST_USED: u64 = MOST / FASTER;

// How many of the bytes that the trail keeps cost one unit.
const BYTES: u32 = 128;

// The most bytes of a frame of a peer.
const LONGEST: u32 = 65_535;

/// What a step costs, in milliseconds: 1,000 (a unit) for each entry that it makes in the trail, and
/// 1,000 more for each 128 bytes that the trail keeps of it.
pub fn price(entries: u16, bytes: usize) -> u32
    ensures { result ≡ 1000 * (entries + min bytes 65535 / 128) }
{
    let bytes = bytes.min(LONGEST as usize) as u32;
    UNIT * (u32::from(entries) + bytes / BYTES)
}

/// What a user may still try. Steps in vain spend units: 1,000 at once, then one a second. Each step is
/// paid for before it is tried. A step that is granted gives back its cost and the costs of the unchecked
/// steps before it. Unless it only typed, these costs use a second ration: 1,000 units at once, then five
/// a second.
#[derive(Debug)]
pub struct Allowance {
    spent: u64,
    lent: u64,
    used: u64,
    seen: u64,
}

impl Drop for Allowance {
    fn drop(self) {
        let Allowance {
            spent: _,
            lent: _,
            used: _,
            seen: _,
        } = self;
    }
}

impl Model for Allowance {
    ghost use Rattle.std.specs.Prelude.{◌≡◌, ◌≤◌, ◌<◌};
    ghost use Rattle.server_users.specs.Allowances.{Purse};

    ghost Value = { Purse };

    ghost view = { λ a. record { spent = a.spent; lent = a.lent; used = a.used; seen = a.seen } };

    ghost invariant = { λ a. (a.lent ≤ a.spent) × (a.spent < 8589934592) × (a.used ≤ 1000000) };
}

impl Allowance {
    /// An allowance of which nothing is spent.
    pub fn new() -> Allowance
        ensures { result ≡ fresh }
    {
        Allowance {
            spent: 0,
            lent: 0,
            used: 0,
            seen: 0,
        }
    }

    // Gives back what comes back by this time, in milliseconds.
    fn pass(&mut self, now: u64)
        ensures { self.new ≡ stands_at now self.old }
    {
        let passed = now.saturating_sub(self.seen);
        self.spent = self.spent.saturating_sub(passed);
        self.lent = self.lent.min(self.spent);
        self.used = self.used.saturating_sub(passed);
        self.seen = self.seen.max(now);
    }

    /// Pays for a step at this time, in milliseconds, unless all is spent or used. The answer is whether
    /// it did.
    pub fn pay(&mut self, now: u64, cost: u32) -> bool
        ensures answer { IsTrue result ↔ MayPay (stands_at now self.old) }
        ensures paid { result ≡ true → self.new ≡ paid cost (stands_at now self.old) }
        ensures unpaid { result ≡ false → self.new ≡ stands_at now self.old }
    {
        self.pass(now);
        if self.spent >= MOST || self.used >= MOST_USED {
            return false;
        }
        self.spent += u64::from(cost);
        true
    }

    // Gives back a cost and those of the unchecked steps before it. So much of them is used.
    fn give_back(&mut self, cost: u64, used: u64)
        requires cost { cost < 4294967296 }
        requires used { used ≤ cost + self.now.lent }
        ensures { self.new ≡ given_back cost used self.old }
    {
        self.spent = self.spent.saturating_sub(cost + self.lent);
        self.lent = 0;
        self.used = (self.used + used / FASTER).min(MOST);
    }

    /// Settles what came of a step that was paid for at this cost.
    pub fn settle(&mut self, cost: u32, outcome: Outcome)
        ensures { self.new ≡ settled outcome cost self.old }
    {
        let cost = u64::from(cost);
        match outcome {
            Outcome::Granted => self.give_back(cost, cost + self.lent),
            Outcome::Typed => self.give_back(cost, self.lent),
            Outcome::Unchecked => self.lent = (self.lent + cost).min(self.spent),
            Outcome::Denied => {}
            Outcome::Untaken => {
                self.spent = self.spent.saturating_sub(cost);
                self.lent = self.lent.min(self.spent);
            }
        }
    }
}
