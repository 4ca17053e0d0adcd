//! The lines of a setup.

ghost use Rattle.std.specs.Prelude.{◌≡◌, ◌++◌, [], List, OnOk, map};
ghost use Rattle.acl.specs.declared.leaders.Edition.{Edition};
ghost use Rattle.acl.specs.declared.user_id.UserId.{UserId};
ghost use Rattle.acl.specs.History.{History};
ghost use Rattle.acl.specs.Names.{name_of};
ghost use Rattle.trail_lines.specs.Entries.{Said};
ghost use Rattle.trail_rights.specs.Marks.{acts_in, marked_after};
ghost use Rattle.trail_rights.specs.Watching.{HasWatched};
ghost use Rattle.trail_setup.specs.Giving.{PutsAll, default_line, first_text, preset_line, users_kind};
ghost use Rattle.trail_setup.specs.Lines.{PutsLines};
ghost use Rattle.trail_setup.specs.Masks.{Stands, known_in, preset_in};
ghost use Rattle.trail_setup.specs.Setup.{later_parts, mode_text, others_of, setup_parts, state_parts};

use crate::commands::{push_commands, push_leaders};
use crate::lines::{LineForm, Lines, push_bits};
use crate::masks::SetupMasks;
use crate::mode::ModeSeen;
use crate::state::SetupState;
use acl::{LockMode, PresetKind, UserId};
use line_fields::parts::push_preset;
use std::alloc::{AllocError, Global};
use trail_rights::{Watch, users_of};

/// Stands before the lines that are for later.
const LATER: &[u8] = b"# later: ";

/// Appends the lines that make users known with nothing, in their order.
fn push_users(alloc: Global, users: &[UserId], out: &mut Vec<u8>) -> Result<(), AllocError>
    ensures { OnOk result (PutsLines users_kind (out.old.items ++ first_text) (map name_of users.now) out.new.items) }
{
    out.extend_from_slice(b"multiuser on\naclumask ?-rwx ??-rwx\n")?;
    let form = LineForm {
        head: b"aclchg",
        between: b',',
        tail: b" -rwx ?",
    };
    let mut lines = Lines::new(alloc, form);
    for user in users {
        lines.put(user.as_bytes(), out)?;
    }
    lines.end(out)
}

/// Appends the line that sets a preset.
fn push_preset_line(
    state: &SetupState,
    kind: PresetKind,
    out: &mut Vec<u8>,
) -> Result<(), AllocError>
    ensures { OnOk result (out.new.items ≡ out.old.items ++ preset_line kind (preset_in state.now kind)) }
{
    out.extend_from_slice(b"aclumask ")?;
    push_preset(kind, out)?;
    push_bits(state.preset(kind), out)?;
    out.extend_from_slice(b"\n")
}

/// Appends the line that sets the mode of the locks of windows to come, if it isn't off.
fn push_default(mode: LockMode, out: &mut Vec<u8>) -> Result<(), AllocError>
    ensures { OnOk result (out.new.items ≡ out.old.items ++ default_line mode) }
{
    match mode {
        LockMode::Off => Ok(()),
        LockMode::Auto => out.extend_from_slice(b"defwritelock auto\n"),
        LockMode::On => out.extend_from_slice(b"defwritelock on\n"),
    }
}

/// Appends the lines for later: what masks are once all windows are back, and the mode.
fn push_later(masks: SetupMasks<'_>, out: &mut Vec<u8>) -> Result<(), AllocError>
    ensures { (edition : Edition) (owner : UserId) (h : History) → Stands masks.entry.state.now edition owner h
        → OnOk result (PutsAll (later_parts owner h (known_in masks.entry)) out.old.items out.new.items) }
{
    masks.push(true, LATER, out)?;
    push_mode(masks.state.mode, out)
}

/// Appends what is for later of the mode.
fn push_mode(mode: ModeSeen, out: &mut Vec<u8>) -> Result<(), AllocError>
    ensures { OnOk result (out.new.items ≡ out.old.items ++ mode_text mode) }
{
    match mode {
        ModeSeen::Multiuser => Ok(()),
        ModeSeen::Single => out.extend_from_slice(b"# later: multiuser off\n"),
        ModeSeen::Unsaid => out.extend_from_slice(
            b"# later: multiuser off\n# (somebody typed multiuser on or off, which the trail doesn't have)\n",
        ),
    }
}

/// Appends the lines that set the presets and the default lock.
fn push_state(state: &SetupState, out: &mut Vec<u8>) -> Result<(), AllocError>
    ensures { OnOk result (PutsAll (state_parts state.now) out.old.items out.new.items) }
{
    push_preset_line(state, PresetKind::Windows, out)?;
    push_preset_line(state, PresetKind::Commands, out)?;
    push_default(state.default, out)
}

/// Appends the lines of a setup: they make the users known, mask what windows give that come back, and give
/// leaders, commands, presets and the default lock. Lines that are for later begin with `# later: `.
pub fn push_setup(
    alloc: Global,
    watch: &Watch,
    state: &SetupState,
    out: &mut Vec<u8>,
) -> Result<(), AllocError>
    ensures { (edition : Edition) (owner : UserId) (said : List Said) (h : History)
        → HasWatched watch.now edition owner said → Stands state.now edition owner h
        → OnOk result (PutsAll (setup_parts edition owner (acts_in (marked_after [] said)) h state.now) out.old.items
        out.new.items) }
{
    let replay = watch.replay();
    let users = users_of(alloc, replay)?;
    let masks = SetupMasks {
        alloc,
        state,
        users: users.as_slice(),
    };
    let others = others_of(users.as_slice());
    push_users(alloc, others, out)?;
    masks.push(false, b"", out)?;
    push_leaders(replay, others, out)?;
    push_commands(alloc, &state.entries, others, out)?;
    push_state(state, out)?;
    push_later(masks, out)
}

/// The users but the owner, who is the first.
fn others_of(users: &[UserId]) -> &[UserId]
    ensures { result.now ≡ others_of users.now }
{
    match users {
        [_, others @ ..] => others,
        [] => &[],
    }
}
