//! The rights of a session's users, act by act, and who is told of each act.

use crate::rows::{
    Masks, Row, Rows, bits_on, forget_leader, forget_masks, give_window, mask_bits, regroup,
    set_right,
};
use acl_words::{Act, Bit, Bits, Edition, EntryDenial, Leaders, Object, PresetKind, Slots, UserId};
use indexmap::IndexMap;
use std::alloc::{AllocError, Global};

/// The rights of a session's users at one moment.
#[derive(Drop)]
pub struct Lists {
    edition: Edition,
    owner: UserId,
    pub(crate) rows: Rows,
    pub(crate) masks: Masks,
    windows: Slots,
    window_preset: Bits,
    command_preset: Bits,
}

impl Lists {
    ghost use Rattle.acl_words.specs.declared.slots.TheConstants.{WINDOWS};
    ghost use Rattle.std.specs.Prelude.{◌≡◌, ◌+◌, ◌≤◌, ◌<◌, ◌∷◌, [], true, false, is_ok, IfOk};
    ghost use Rattle.std.specs.Prelude.{IfErr, length, slice_get, nat_le, Some, if◌then◌else◌};
    ghost use Rattle.std.specs.List.{list_any};
    ghost use Rattle.indexmap.specs.IndexMap.{spare};
    ghost use Rattle.acl.specs.History.{History, among, is_known, is_open, open_count, there};
    ghost use Rattle.acl.specs.History.{leaders_with, may};
    ghost use Rattle.acl.specs.Commands.{makes_known, sets_mask};
    ghost use Rattle.acl.specs.Deeds.{Takes};
    ghost use Rattle.acl.specs.Table.{StandsFor, IsDenial, knows, granted, led_by, lets, users_in};
    ghost use Rattle.acl.specs.Lists.{table_of};
    ghost use Rattle.acl_words.specs.declared.leaders.Edition.{Edition};
    ghost use Rattle.acl_words.specs.declared.act.Act.TheVariants.{Known, Gone, Set, Grouped};
    ghost use Rattle.acl_words.specs.declared.act.Act.TheVariants.{Masked, Preset, Opened, Closed};

    /// The lists of a session that only its owner has entered.
    pub(crate) fn new(alloc: Global, owner: UserId, edition: Edition) -> Result<Self, AllocError>
        ensures { IfOk result (λ lists. StandsFor (table_of lists) edition owner []) }
    {
        let mut rows = IndexMap::new(alloc);
        rows.insert(owner, Row::new(Bits::NONE, Bits::NONE))?;
        Ok(Lists {
            edition,
            owner,
            rows,
            masks: IndexMap::new(alloc),
            windows: Slots::new(),
            window_preset: Bits::ALL,
            command_preset: Bits::ALL,
        })
    }

    /// How many groups a user may be in. It never changes.
    pub fn edition(&self) -> Edition
        ensures { result ≡ (table_of self.now).edition }
    {
        self.edition
    }

    /// The session's owner.
    pub fn owner(&self) -> UserId
        ensures { result ≡ (table_of self.now).owner }
    {
        self.owner
    }

    /// Whether the name is known.
    pub fn knows(&self, user: UserId) -> bool
        ensures known { result ≡ knows (table_of self.now) user }
        ensures listed { result ≡ among (users_in (table_of self.now)) user }
    {
        self.rows.contains_key(&user)
    }

    /// The number of known users, the owner included.
    pub fn user_count(&self) -> usize
        ensures { result ≡ length (users_in (table_of self.now)) }
    {
        self.rows.len()
    }

    /// The known user at this place, from 0, in the order in which they became known; the owner is
    /// first. `None` beyond the last.
    pub fn user_at(&self, place: usize) -> Option<UserId>
        ensures { result ≡ slice_get (users_in (table_of self.now)) place }
    {
        match self.rows.get_index(place) {
            Some((user, _)) => Some(*user),
            None => None,
        }
    }

    /// The user's leaders, in the order in which they were named.
    pub fn leaders_of(&self, user: UserId) -> Leaders
        ensures { result ≡ led_by (table_of self.now) user }
    {
        match self.rows.get(&user) {
            Some(row) => row.leaders,
            None => Leaders::none(),
        }
    }

    /// Whether the user may be given this leader too: then at most eight lead them.
    pub(crate) fn has_place(&self, user: UserId, leader: UserId) -> bool
        ensures { result ≡ nat_le (length (leaders_with (table_of self.now).edition
            (Some leader) (led_by (table_of self.now) user))) 8 }
    {
        self.leaders_of(user)
            .with(self.edition, Some(leader))
            .is_some()
    }

    /// Whether the user's own entry has the bit.
    fn is_granted(&self, user: UserId, bit: Bit, object: Object) -> bool
        ensures { result ≡ granted (table_of self.now) user bit object }
    {
        match self.rows.get(&user) {
            Some(row) => bits_on(&self.windows, object, row).allows(bit),
            None => false,
        }
    }

    /// Whether one of these users' entries has the bit.
    fn is_granted_to_any(&self, users: &[UserId], bit: Bit, object: Object) -> bool
        ensures { result
            ≡ list_any (λ user. granted (table_of self.now) user bit object) users.now }
    {
        users.iter().any(|user| self.is_granted(*user, bit, object))
    }

    /// Whether the user has the bit on an object that is there, by their own entry or by a
    /// leader's. If not, the error says who was asked.
    pub fn may(&self, user: UserId, bit: Bit, object: Object) -> Result<(), EntryDenial>
        ensures answer { (edition : Edition) (owner : UserId) (h : History) →
            StandsFor (table_of self.now) edition owner h → there h object ≡ true →
            is_ok result ≡ may edition owner h user bit object }
        ensures table { is_ok result ≡ lets (table_of self.now) user bit object }
        ensures denial { IfErr result (λ d. (edition : Edition) (owner : UserId) (h : History) →
            StandsFor (table_of self.now) edition owner h → there h object ≡ true →
            IsDenial edition owner h user bit object d) }
    {
        if self.owner == user || self.is_granted(user, bit, object) {
            return Ok(());
        }
        let leaders = self.leaders_of(user);
        if self.is_granted_to_any(leaders.as_slice(), bit, object) {
            return Ok(());
        }
        Err(EntryDenial {
            user,
            bit,
            object,
            leaders,
        })
    }

    /// Makes a user known, after room was made for them.
    fn make_known(&mut self, user: UserId)
        requires { 0 < spare self.old.rows }
        ensures stands { Takes (table_of self.old) (table_of self.new) (Known user) }
        ensures rows_room { spare self.old.rows ≤ spare self.new.rows + 1 }
        ensures masks_room { spare self.old.masks ≤ spare self.new.masks }
    {
        forget_masks(&mut self.masks, user);
        let row = Row::new(self.command_preset, self.window_preset);
        let _ = self.rows.insert(user, row).unwrap();
    }

    /// Removes a user who isn't the owner.
    fn make_gone(&mut self, user: UserId)
        ensures stands { Takes (table_of self.old) (table_of self.new) (Gone user) }
        ensures rows_room { spare self.old.rows ≤ spare self.new.rows }
        ensures masks_room { spare self.old.masks ≤ spare self.new.masks }
    {
        let _ = self.rows.shift_remove(&user);
        forget_leader(&mut self.rows, user);
        forget_masks(&mut self.masks, user);
    }

    /// Sets a known user's bit on an object that is there.
    fn set(&mut self, user: UserId, bit: Bit, object: Object, value: bool)
        ensures stands { Takes (table_of self.old) (table_of self.new) (Set user bit object value) }
        ensures rows_room { spare self.old.rows ≤ spare self.new.rows }
        ensures masks { self.new.masks ≡ self.old.masks }
    {
        if let Some(row) = self.rows.get_mut(&user) {
            set_right(&self.windows, row, object, bit, value);
        }
    }

    /// Gives a known user a leader, or none; then at most eight lead them.
    fn set_leader(&mut self, user: UserId, leader: Option<UserId>)
        ensures stands { Takes (table_of self.old) (table_of self.new) (Grouped user leader) }
        ensures rows_room { spare self.old.rows ≤ spare self.new.rows }
        ensures masks { self.new.masks ≡ self.old.masks }
    {
        if let Some(row) = self.rows.get_mut(&user) {
            regroup(row, self.edition, leader);
        }
    }

    /// Sets what `by` gives a user on windows that `by` opens later, after room was made.
    fn set_mask(&mut self, by: UserId, user: UserId, bit: Bit, value: bool)
        requires { 0 < spare self.old.masks }
        ensures stands { Takes (table_of self.old) (table_of self.new) (Masked by user bit value) }
        ensures rows { self.new.rows ≡ self.old.rows }
        ensures masks_room { spare self.old.masks ≤ spare self.new.masks + 1 }
    {
        let bits = mask_bits(&self.masks, by, user).with_bit(bit, value);
        let _ = self.masks.insert((by, user), bits).unwrap();
    }

    /// Sets what names that become known later get.
    fn set_preset(&mut self, kind: PresetKind, bit: Bit, value: bool)
        ensures stands { Takes (table_of self.old) (table_of self.new) (Preset kind bit value) }
        ensures rows { self.new.rows ≡ self.old.rows }
        ensures masks { self.new.masks ≡ self.old.masks }
    {
        match kind {
            PresetKind::Windows => self.window_preset = self.window_preset.with_bit(bit, value),
            PresetKind::Commands => self.command_preset = self.command_preset.with_bit(bit, value),
        }
    }

    /// Records that a known user opened a window, whose serial number is new. At most 39 others are
    /// open.
    pub(crate) fn open(&mut self, by: UserId, window: u32)
        ensures { (edition : Edition) (owner : UserId) (h : History) →
            StandsFor (table_of self.old) edition owner h →
            is_known owner h by ≡ true → is_open h window ≡ false → open_count h < WINDOWS →
            StandsFor (table_of self.new) edition owner (Opened by window ∷ h) }
    {
        if let Some(slot) = self.windows.free_slot() {
            give_window(&mut self.rows, &self.masks, by, slot);
            self.windows.put(slot, window);
        }
    }

    /// Records that a window was closed.
    pub(crate) fn close(&mut self, window: u32)
        ensures { (edition : Edition) (owner : UserId) (h : History) →
            StandsFor (table_of self.old) edition owner h →
            StandsFor (table_of self.new) edition owner (Closed window ∷ h) }
    {
        self.windows.close(window);
    }

    /// Does one act of a list command, after room was made for it.
    pub(crate) fn apply(&mut self, act: Act)
        requires rows_room { makes_known act ≡ true → 0 < spare self.old.rows }
        requires masks_room { sets_mask act ≡ true → 0 < spare self.old.masks }
        ensures stands { Takes (table_of self.old) (table_of self.new) act }
        ensures rows_left { spare self.old.rows
            ≤ spare self.new.rows + (if makes_known act then 1 else 0) }
        ensures masks_left { spare self.old.masks
            ≤ spare self.new.masks + (if sets_mask act then 1 else 0) }
    {
        match act {
            Act::Known { user } => self.make_known(user),
            Act::Gone { user } => self.make_gone(user),
            Act::Set {
                user,
                bit,
                object,
                value,
            } => self.set(user, bit, object, value),
            Act::Grouped { user, leader } => self.set_leader(user, leader),
            Act::Masked {
                by,
                user,
                bit,
                value,
            } => self.set_mask(by, user, bit, value),
            Act::Preset { kind, bit, value } => self.set_preset(kind, bit, value),
            _ => {}
        }
    }
}

/// What is told of the acts of list commands, one by one: a session's write locks, or nothing.
pub trait Follower {
    ghost use Rattle.acl.specs.History.{History};
    ghost use Rattle.acl.specs.Deeds.{Follows};
    ghost use Rattle.acl.specs.Lists.{table_of};
    ghost use Rattle.acl_words.specs.declared.leaders.Edition.{Edition};
    ghost use Rattle.acl_words.specs.declared.user_id.UserId.{UserId};

    /// The value follows the history of a session of this edition, with this owner.
    ghost follows: { Self → Edition → UserId → History → Type 0 };

    /// Takes in one act that was done; `lists` are the lists after it.
    fn follow(&mut self, lists: &Lists, act: Act)
        ensures { Follows (follows self.old) (follows self.new) (table_of lists.now) act };
}

/// Nothing follows the acts.
impl Follower for () {
    ghost follows = { λ _ _ _ _. Unit {0} };

    fn follow(&mut self, _lists: &Lists, _act: Act) {}
}
