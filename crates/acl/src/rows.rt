//! The users' rows and the masks.

ghost use Rattle.std.specs.Prelude.{◌≡◌, ◌<◌, ◌≤◌, ◌||◌, not, map, filter, Some, length};
ghost use Rattle.acl.specs.History.{leaders_with};
ghost use Rattle.std.specs.Map.{lookup};
ghost use Rattle.indexmap.specs.IndexMap.{spare};
ghost use Rattle.acl_words.specs.Same.{same_user};
ghost use Rattle.acl_words.specs.declared.command_name.TheConstants.CommandName.{COUNT};
ghost use Rattle.acl_words.specs.declared.slots.TheConstants.{WINDOWS};
ghost use Rattle.acl.specs.Table.{mask_bits, opening_bits, with_window, without_leader, bits_on, with_right};

use acl_words::{Bit, Bits, CommandName, Edition, Leaders, Object, Slots, UserId, WINDOWS};
use indexmap::IndexMap;

/// A known user's bits on commands and on windows, and their leaders.
#[derive(Drop)]
pub struct Row {
    pub commands: [Bits; CommandName::COUNT],
    pub windows: [Bits; WINDOWS],
    pub leaders: Leaders,
}

/// The known users' rows, in the order in which they became known.
pub type Rows = IndexMap<UserId, Row>;

/// What users get on windows that others open; the keys are opener and user.
pub type Masks = IndexMap<(UserId, UserId), Bits>;

impl Row {
    ghost use Rattle.std.specs.Prelude.{◌≡◌};
    ghost use Rattle.acl.specs.Table.{new_row};

    /// The row of a name that becomes known.
    pub fn new(command_preset: Bits, window_preset: Bits) -> Row
        ensures { result ≡ new_row command_preset window_preset }
    {
        Row {
            commands: [command_preset; CommandName::COUNT],
            windows: [window_preset; WINDOWS],
            leaders: Leaders::none(),
        }
    }
}

/// The bits that a row has on an object.
pub fn bits_on(slots: &Slots, object: Object, row: &Row) -> Bits
    ensures { result ≡ bits_on slots.now.serials object row.now }
{
    match object {
        Object::Window(window) => match slots.slot_of(window) {
            Some(slot) => row.windows[slot],
            None => Bits::NONE,
        },
        Object::Command(command) => row.commands[command as usize],
    }
}

/// Sets the bit on an object that is there.
pub fn set_right(slots: &Slots, row: &mut Row, object: Object, bit: Bit, value: bool)
    ensures set { row.new ≡ with_right slots.now.serials object bit value row.old }
    ensures commands { length row.old.commands ≡ COUNT }
    ensures windows { length row.old.windows ≡ WINDOWS }
{
    match object {
        Object::Window(window) => if let Some(slot) = slots.slot_of(window) {
            row.windows[slot] = row.windows[slot].with_bit(bit, value);
        },
        Object::Command(command) => {
            let place = command as usize;
            row.commands[place] = row.commands[place].with_bit(bit, value);
        }
    }
}

/// What `by` gives a user on the windows that `by` opens.
pub fn mask_bits(masks: &Masks, by: UserId, user: UserId) -> Bits
    ensures { result ≡ mask_bits masks.now.entries by user }
{
    match masks.get(&(by, user)) {
        Some(bits) => *bits,
        None => Bits::ALL,
    }
}

/// What a user gets on a window that `by` opens.
pub fn opening_bits(masks: &Masks, by: UserId, user: UserId) -> Bits
    ensures { result ≡ opening_bits masks.now.entries by user }
{
    if by == user {
        Bits::ALL
    } else {
        mask_bits(masks, by, user)
    }
}

/// Gives each user what they get on the window that `by` opens in the slot.
pub fn give_window(rows: &mut Rows, masks: &Masks, by: UserId, slot: usize)
    requires { slot < WINDOWS }
    ensures given { rows.new.entries ≡ map
        (λ e. (e.0, with_window slot (opening_bits masks.now.entries by e.0) e.1))
        rows.old.entries }
    ensures wide { (user : UserId) (row : Row) →
        lookup (same_user user) rows.old.entries ≡ Some row → length row.windows ≡ WINDOWS }
{
    for i in 0..rows.len() {
        let (user, row) = rows.pair_mut(i);
        row.windows[slot] = opening_bits(masks, by, *user);
    }
}

/// Gives the user whose row it is a leader, or none, if that leaves them no more than eight.
pub fn regroup(row: &mut Row, edition: Edition, leader: Option<UserId>)
    ensures { length (leaders_with edition leader row.old.leaders) ≤ 8 →
        row.new ≡ record row.old { leaders = leaders_with edition leader row.old.leaders } }
{
    if let Some(leaders) = row.leaders.with(edition, leader) {
        row.leaders = leaders;
    }
}

/// Takes a leader away from all their followers.
pub fn forget_leader(rows: &mut Rows, gone: UserId)
    ensures forgotten { rows.new.entries
        ≡ map (λ e. (e.0, without_leader gone e.1)) rows.old.entries }
    ensures room { spare rows.new ≡ spare rows.old }
{
    for i in 0..rows.len() {
        let (_, row) = rows.pair_mut(i);
        row.leaders = row.leaders.without(gone);
    }
}

/// Removes the masks that a user gave or got.
pub fn forget_masks(masks: &mut Masks, user: UserId)
    ensures forgotten { masks.new.entries
        ≡ filter (λ e. not (same_user user e.0.0 || same_user user e.0.1)) masks.old.entries }
    ensures room { spare masks.old ≤ spare masks.new }
{
    masks.retain(
        |pair: &(UserId, UserId), bits: &mut Bits| -> bool
            ensures { (result ≡ not (same_user user pair.now.0 || same_user user pair.now.1))
                × (bits.new ≡ bits.old) }
        { !(user == pair.0 || user == pair.1) },
    );
}
