//! What a setup needs of a trail's entries, besides what a watch of them has.

ghost use Rattle.std.specs.Prelude.{◌≡◌, ◌↔◌, ◌&&◌, [], true, IfOk, IsTrue, OnOk};
ghost use Rattle.acl.specs.Same.{same_user};
ghost use Rattle.trail_setup.specs.Alone.{HasEntries};
ghost use Rattle.trail_setup.specs.Keeping.{FollowsAct, FollowsEach, FollowsEntry, IsQuit, forgotten, masked_in};
ghost use Rattle.trail_setup.specs.Keeping.{preset_after, windows_after, with_bit};
ghost use Rattle.trail_setup.specs.Masks.{all_bits, mask_in, preset_in};

use crate::entries::Entries;
use crate::lines::Given;
use crate::mode::{ModeSeen, is_granted, mode_said};
use acl::{Act, Bit, CommandName, Edition, LockMode, PresetKind, UserId};
use hub::TrailEntry;
use std::alloc::{AllocError, Global};

/// A mask that was set: the opener, the user, and what it leaves to them.
#[derive(Clone, Copy)]
pub struct SetMask {
    by: UserId,
    user: UserId,
    left: Given,
}

/// Users' entries, open windows with their openers, masks, presets, the default lock and the mode, after the
/// entries that were taken. A `quit` leaves them as they were before it.
#[derive(Drop)]
pub struct SetupState {
    alloc: Global,
    owner: UserId,
    pub(crate) entries: Entries,
    /// The serials of open windows, with the users who opened them.
    pub(crate) windows: Vec<(u32, UserId)>,
    /// One for each opener and user of whom a mask was set since both are known.
    masks: Vec<SetMask>,
    /// What the presets for windows and for commands give.
    on_windows: Given,
    on_commands: Given,
    pub(crate) default: LockMode,
    pub(crate) mode: ModeSeen,
}

/// Whether the entry is of a `quit` that was done.
fn is_quit(entry: &TrailEntry) -> bool
    ensures { IsTrue result ↔ IsQuit entry.now }
{
    entry.ending().is_ok() && is_granted(entry.verdicts(), CommandName::Quit)
}

/// Sets a bit.
fn set(given: &mut Given, bit: Bit, value: bool)
    ensures { given.new ≡ with_bit bit value given.old }
{
    match bit {
        Bit::Read => given[0] = value,
        Bit::Write => given[1] = value,
        Bit::Execute => given[2] = value,
    }
}

/// Whether it is what this opener masks for the user.
fn is_for(mask: SetMask, by: UserId, user: UserId) -> bool
    ensures { result ≡ (same_user mask.by by && same_user mask.user user) }
{
    mask.by == by && mask.user == user
}

/// Sets what an opener's mask leaves to a user.
fn set_mask(
    masks: &mut Vec<SetMask>,
    by: UserId,
    user: UserId,
    bit: Bit,
    value: bool,
) -> Result<(), AllocError>
    ensures { OnOk result (masks.new.items ≡ masked_in by user bit value masks.old.items) }
{
    for place in 0..masks.len() {
        let mut mask = masks[place];
        if is_for(mask, by, user) {
            set(&mut mask.left, bit, value);
            masks[place] = mask;
            return Ok(());
        }
    }
    let mut left = [true, true, true];
    set(&mut left, bit, value);
    masks.push(SetMask { by, user, left })?;
    Ok(())
}

/// A user becomes known or is gone: their masks, and those for them, begin anew.
fn forget(masks: &mut Vec<SetMask>, user: UserId)
    ensures { masks.new.items ≡ forgotten user masks.old.items }
{
    masks.retain(|mask| mask.by != user && mask.user != user);
}

/// Windows that are open but this one.
fn close(windows: &mut Vec<(u32, UserId)>, window: u32)
    ensures { windows.new.items ≡ windows_after (Act.Closed window) windows.old.items }
{
    windows.retain(|row| row.0 != window);
}

impl SetupState {
    /// Before the first entry.
    pub fn new(alloc: Global, edition: Edition, owner: UserId) -> Result<SetupState, AllocError>
        ensures entries { IfOk result (λ state. HasEntries state.entries edition owner []) }
        ensures lists { IfOk result (λ state. (state.windows.items ≡ []) × (state.masks.items ≡ [])) }
        ensures presets { IfOk result (λ state. (state.on_windows ≡ all_bits) × (state.on_commands ≡ all_bits)) }
        ensures modes { IfOk result (λ state. (state.default ≡ LockMode.Off) × (state.mode ≡ ModeSeen.Single)
            × (state.owner ≡ owner)) }
    {
        Ok(SetupState {
            alloc,
            owner,
            entries: Entries::new(alloc, edition, owner)?,
            windows: Vec::new(alloc),
            masks: Vec::new(alloc),
            on_windows: [true, true, true],
            on_commands: [true, true, true],
            default: LockMode::Off,
            mode: ModeSeen::Single,
        })
    }

    /// What an opener's mask leaves to a user.
    pub(crate) fn mask_of(&self, by: UserId, user: UserId) -> Given
        ensures { result ≡ mask_in self.now.masks.items by user }
    {
        for mask in &self.masks {
            if mask.by == by && mask.user == user {
                return mask.left;
            }
        }
        [true, true, true]
    }

    /// What a preset gives.
    pub(crate) fn preset(&self, kind: PresetKind) -> Given
        ensures { result ≡ preset_in self.now kind }
    {
        match kind {
            PresetKind::Windows => self.on_windows,
            PresetKind::Commands => self.on_commands,
        }
    }

    /// Sets a preset.
    fn set_preset(&mut self, kind: PresetKind, bit: Bit, value: bool)
        ensures { self.new ≡ record self.old {
          on_windows = preset_after PresetKind.Windows (Act.Preset kind bit value) self.old.on_windows;
          on_commands = preset_after PresetKind.Commands (Act.Preset kind bit value) self.old.on_commands;
        } }
    {
        match kind {
            PresetKind::Windows => set(&mut self.on_windows, bit, value),
            PresetKind::Commands => set(&mut self.on_commands, bit, value),
        }
    }

    /// Follows one act.
    fn follow(&mut self, act: Act) -> Result<(), AllocError>
        ensures { OnOk result (FollowsAct act self.old self.new) }
    {
        self.entries.follow(act)?;
        match act {
            Act::Opened { by, window } => self.windows.push((window, by))?,
            Act::Closed { window } => close(&mut self.windows, window),
            Act::Known { user } | Act::Gone { user } => forget(&mut self.masks, user),
            Act::Masked {
                by,
                user,
                bit,
                value,
            } => set_mask(&mut self.masks, by, user, bit, value)?,
            Act::Preset { kind, bit, value } => self.set_preset(kind, bit, value),
            Act::Default { mode } => self.default = mode,
            _ => {}
        }
        Ok(())
    }

    /// Follows acts in order.
    fn follow_all(&mut self, acts: &[Act]) -> Result<(), AllocError>
        ensures { OnOk result (FollowsEach acts.now self.old self.new) }
    {
        for act in acts {
            self.follow(*act)?;
        }
        Ok(())
    }

    /// Takes the next entry of a legal trail.
    pub fn take(&mut self, entry: &TrailEntry) -> Result<(), AllocError>
        ensures { OnOk result (FollowsEntry entry.now self.old self.new) }
    {
        if is_quit(entry) {
            return Ok(());
        }
        self.mode = mode_said(self.alloc, self.owner, entry)?.unwrap_or(self.mode);
        self.follow_all(entry.acts())
    }
}
