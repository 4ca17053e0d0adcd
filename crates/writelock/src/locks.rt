use crate::lock::{
    Lock, LockDenial, after_act, entered_by, left_by, lock_by, opened_by, without_holder,
};
use acl::{Act, Follower, Lists, LockMode, Slots, UserId, WINDOWS};

/// A lock in mode off, which nobody holds.
const FREE: Lock = Lock {
    mode: LockMode::Off,
    holder: None,
};

/// The locks of the open windows, and the mode of windows that open later. Windows are named by
/// their serial numbers.
#[derive(Clone, Copy, PartialEq, Eq, Debug)]
pub struct Locks {
    windows: Slots,
    locks: [Lock; WINDOWS],
    default: LockMode,
}

impl Locks {
    ghost use Rattle.std.specs.Prelude.{◌≡◌, ◌<◌, ◌∷◌, [], ℕ, true, false, Some, None, nat_eq};
    ghost use Rattle.std.specs.Prelude.{is_ok, length, IfErr, if◌then◌else◌};
    ghost use Rattle.std.specs.Option.{option_map, option_map_or};
    ghost use Rattle.acl.specs.Same.{same_user};
    ghost use Rattle.acl.specs.History.{History, is_open, open_count, may};
    ghost use Rattle.acl.specs.Deeds.{Follows};
    ghost use Rattle.acl.specs.Lists.{table_of};
    ghost use Rattle.acl.specs.slots.TheConstants.{WINDOWS};
    ghost use Rattle.acl.specs.declared.leaders.Edition.{Edition};
    ghost use Rattle.acl.specs.declared.act.Act.TheVariants.{Opened, Closed, Parted, Entered, Left};
    ghost use Rattle.acl.specs.declared.act.Act.TheVariants.{Mode, Default};
    ghost use Rattle.acl.specs.declared.bits.Bit.TheVariants.{Write};
    ghost use Rattle.acl.specs.declared.act.Object.TheVariants.{Window};
    ghost use Rattle.writelock.specs.Holding.{is_off, mode_of, holder, loses_last};
    ghost use Rattle.writelock.specs.LockTable.{LocksStandFor, lock_in, stops_nobody_but};

    /// The locks of a session without windows; the default mode is off.
    pub fn new() -> Locks
        ensures { (edition : Edition) (owner : UserId) → LocksStandFor result edition owner [] }
    {
        Locks {
            windows: Slots::new(),
            locks: [FREE; WINDOWS],
            default: LockMode::Off,
        }
    }

    /// The lock of a window; `None` if it isn't open.
    fn lock_of(&self, window: u32) -> Option<Lock>
        ensures { result ≡ lock_in self.now window }
    {
        match self.windows.slot_of(window) {
            Some(slot) => Some(self.locks[slot]),
            None => None,
        }
    }

    /// Changes the lock of an open window.
    fn put(&mut self, window: u32, lock: Lock)
        ensures locks { (q : ℕ) → lock_in self.new q ≡ (if nat_eq window q
            then option_map (λ _. lock) (lock_in self.old q) else lock_in self.old q) }
        ensures windows { self.new.windows ≡ self.old.windows }
        ensures default { self.new.default ≡ self.old.default }
        ensures all { length self.new.locks ≡ length self.old.locks }
    {
        if let Some(slot) = self.windows.slot_of(window) {
            self.locks[slot] = lock;
        }
    }

    /// The user who holds the lock of a window; `None` if nobody does, or if the window isn't open.
    pub fn holder(&self, window: u32) -> Option<UserId>
        ensures { (edition : Edition) (owner : UserId) (h : History) →
            LocksStandFor self.now edition owner h →
            result ≡ holder edition owner h window }
    {
        match self.lock_of(window) {
            Some(lock) => lock.holder,
            None => None,
        }
    }

    /// The mode of a window; `None` if it isn't open.
    pub fn mode(&self, window: u32) -> Option<LockMode>
        ensures { (edition : Edition) (owner : UserId) (h : History) →
            LocksStandFor self.now edition owner h →
            result ≡ (if is_open h window then Some (mode_of h window) else None) }
    {
        match self.lock_of(window) {
            Some(lock) => Some(lock.mode),
            None => None,
        }
    }

    /// Whether the user may type into the window, as far as its lock goes. The error names the user
    /// who holds the lock.
    pub fn may_type(&self, user: UserId, window: u32) -> Result<(), LockDenial>
        ensures free { (edition : Edition) (owner : UserId) (h : History) →
            LocksStandFor self.now edition owner h →
            is_ok result ≡ stops_nobody_but user (holder edition owner h window) }
        ensures denial { IfErr result (λ d. (d.window ≡ window) ×
            ((edition : Edition) (owner : UserId) (h : History) →
            LocksStandFor self.now edition owner h →
            holder edition owner h window ≡ Some d.holder)) }
    {
        match self.holder(window) {
            Some(holder) => if holder == user {
                Ok(())
            } else {
                Err(LockDenial { window, holder })
            },
            None => Ok(()),
        }
    }

    /// `defwritelock`: sets the mode of windows that are opened later.
    pub fn set_default(&mut self, mode: LockMode)
        ensures { (edition : Edition) (owner : UserId) (h : History) →
            LocksStandFor self.old edition owner h →
            LocksStandFor self.new edition owner (Default mode ∷ h) }
    {
        self.default = mode;
    }

    /// Records that a user opened a window, whose serial number is new. At most 39 others are open.
    pub fn opened(&mut self, by: UserId, window: u32)
        ensures { (edition : Edition) (owner : UserId) (h : History) →
            LocksStandFor self.old edition owner h →
            is_open h window ≡ false → open_count h < WINDOWS →
            LocksStandFor self.new edition owner (Opened by window ∷ h) }
    {
        if let Some(slot) = self.windows.free_slot() {
            self.locks[slot] = opened_by(by, self.default);
            self.windows.put(slot, window);
        }
    }

    /// Records that a window was closed.
    pub fn closed(&mut self, window: u32)
        ensures { (edition : Edition) (owner : UserId) (h : History) →
            LocksStandFor self.old edition owner h →
            LocksStandFor self.new edition owner (Closed window ∷ h) }
    {
        self.windows.close(window);
    }

    /// Records that a user entered an open window. `may_write` must tell truly whether they may
    /// write there.
    pub fn entered(&mut self, user: UserId, window: u32, may_write: bool)
        ensures { (edition : Edition) (owner : UserId) (h : History) →
            LocksStandFor self.old edition owner h →
            is_open h window ≡ true → may_write ≡ may edition owner h user Write (Window window) →
            LocksStandFor self.new edition owner (Entered user window ∷ h) }
    {
        if let Some(lock) = self.lock_of(window) {
            self.put(window, entered_by(lock, user, may_write));
        }
    }

    /// Records that a user left a window: no focused region of theirs shows it any more.
    pub fn left(&mut self, user: UserId, window: u32)
        ensures { (edition : Edition) (owner : UserId) (h : History) →
            LocksStandFor self.old edition owner h →
            LocksStandFor self.new edition owner (Left user window ∷ h) }
    {
        if let Some(lock) = self.lock_of(window) {
            self.put(window, left_by(lock, user));
        }
    }

    /// Records that a client went; `last` is its user, if it was their last client.
    pub fn parted(&mut self, last: Option<UserId>)
        ensures { (edition : Edition) (owner : UserId) (h : History) (client : ℕ) →
            LocksStandFor self.old edition owner h →
            ((u : UserId) → loses_last h client u ≡ option_map_or (same_user u) last false) →
            LocksStandFor self.new edition owner (Parted client ∷ h) }
    {
        for i in 0..self.locks.len() {
            self.locks[i] = without_holder(self.locks[i], last);
        }
    }

    /// `writelock`: sets the mode of an open window. The user, who may write there, then holds the
    /// lock; in mode off nobody does.
    pub fn set_mode(&mut self, by: UserId, window: u32, mode: LockMode)
        ensures { (edition : Edition) (owner : UserId) (h : History) →
            LocksStandFor self.old edition owner h →
            is_open h window ≡ true →
            (is_off mode ≡ false → may edition owner h by Write (Window window) ≡ true) →
            LocksStandFor self.new edition owner (Mode by window mode ∷ h) }
    {
        self.put(window, lock_by(by, mode));
    }

    /// Frees the locks that an act of a list command releases; `lists` are the lists after the act.
    pub fn withdraw(&mut self, lists: &Lists, act: Act)
        ensures { Follows (LocksStandFor self.old) (LocksStandFor self.new)
            (table_of lists.now) act }
    {
        for i in 0..self.locks.len() {
            self.locks[i] = after_act(lists, act, self.windows.serial_at(i), self.locks[i]);
        }
    }
}

/// The locks are told of each act of a list command.
impl Follower for Locks {
    ghost use Rattle.writelock.specs.LockTable.{LocksStandFor};

    ghost follows = { λ locks edition owner h. LocksStandFor locks edition owner h };

    fn follow(&mut self, lists: &Lists, act: Act) {
        self.withdraw(lists, act);
    }
}
