//! How it is told who may do what after a file's entries.

ghost use Rattle.std.specs.Prelude.{◌≡◌, ◌++◌, [], List, OnOk};
ghost use Rattle.std.specs.List.{flat_map};
ghost use Rattle.acl.specs.command_name.TheConstants.CommandName.{ALL};
ghost use Rattle.acl.specs.declared.leaders.Edition.{Edition};
ghost use Rattle.acl.specs.declared.user_id.UserId.{UserId};
ghost use Rattle.acl.specs.History.{History};
ghost use Rattle.hub.specs.Following.{StandsAfter};
ghost use Rattle.trail_lines.specs.Entries.{Said};
ghost use Rattle.trail_rights.specs.Marks.{acts_in, marked_after};
ghost use Rattle.trail_rights.specs.Seeing.{HasSeen};
ghost use Rattle.trail_rights.specs.Watching.{HasWatched};
ghost use Rattle.trail_confined.specs.Standing.{bits_on, command_text, commands_text, count_text, has_bit, holder_text};
ghost use Rattle.trail_confined.specs.Standing.{leader_text, letter_on, rights_text, user_text, window_text};

use acl::{Bit, CommandName, Object, UserId};
use command_lang::name_text;
use hub::Rights;
use session::push_decimal;
use std::alloc::AllocError;
use trail_rights::{Sight, Watch, letter, push_mask_lines, users_of};

/// Appends who leads a user.
fn push_leader(leader: UserId, out: &mut Vec<u8>) -> Result<(), AllocError>
    ensures { OnOk result (out.new.items ≡ out.old.items ++ leader_text leader) }
{
    out.extend_from_slice(b" led by ")?;
    out.extend_from_slice(leader.as_bytes())
}

/// Appends these leaders.
fn push_leaders(leaders: &[UserId], out: &mut Vec<u8>) -> Result<(), AllocError>
    ensures { OnOk result (out.new.items ≡ out.old.items ++ flat_map leader_text leaders.now) }
{
    for leader in leaders {
        push_leader(*leader, out)?;
    }
    Ok(())
}

/// Appends a user and their leaders.
fn push_user(replay: &Rights, user: UserId, out: &mut Vec<u8>) -> Result<(), AllocError>
    ensures { (edition : Edition) (owner : UserId) (h : History) → StandsAfter replay.now edition owner h →
        OnOk result (out.new.items ≡ out.old.items ++ user_text edition h user) }
{
    out.extend_from_slice(b"user ")?;
    out.extend_from_slice(user.as_bytes())?;
    push_leaders(replay.leaders_of(user).as_slice(), out)?;
    out.extend_from_slice(b"\n")
}

/// Appends users with their leaders.
fn push_users(replay: &Rights, users: &[UserId], out: &mut Vec<u8>) -> Result<(), AllocError>
    ensures { (edition : Edition) (owner : UserId) (h : History) → StandsAfter replay.now edition owner h →
        OnOk result (out.new.items ≡ out.old.items ++ flat_map (user_text edition h) users.now) }
{
    for user in users {
        push_user(replay, *user, out)?;
    }
    Ok(())
}

/// Whether a user has a bit on an object that is there.
fn has_bit(replay: &Rights, object: Object, user: UserId, bit: Bit) -> bool
    ensures { (edition : Edition) (owner : UserId) (h : History) → StandsAfter replay.now edition owner h →
        result ≡ has_bit edition owner h object user bit }
{
    replay.is_there(object) && replay.may(user, bit, object)
}

/// Appends the letter of a bit if a user has it, else a hyphen.
fn push_bit(
    replay: &Rights,
    object: Object,
    user: UserId,
    bit: Bit,
    out: &mut Vec<u8>,
) -> Result<(), AllocError>
    ensures { (edition : Edition) (owner : UserId) (h : History) → StandsAfter replay.now edition owner h →
        OnOk result (out.new.items ≡ out.old.items ++ letter_on edition owner h object user bit) }
{
    if has_bit(replay, object, user, bit) {
        out.extend_from_slice(letter(bit))
    } else {
        out.extend_from_slice(b"-")
    }
}

/// Appends a user's bits on an object.
fn push_bits(
    replay: &Rights,
    object: Object,
    user: UserId,
    out: &mut Vec<u8>,
) -> Result<(), AllocError>
    ensures { (edition : Edition) (owner : UserId) (h : History) → StandsAfter replay.now edition owner h →
        OnOk result (out.new.items ≡ out.old.items ++ bits_on edition owner h object user) }
{
    out.extend_from_slice(b" ")?;
    out.extend_from_slice(user.as_bytes())?;
    out.extend_from_slice(b":")?;
    push_bit(replay, object, user, Bit::Read, out)?;
    push_bit(replay, object, user, Bit::Write, out)?;
    push_bit(replay, object, user, Bit::Execute, out)
}

/// Appends the bits of each of these users on an object.
fn push_all_bits(
    replay: &Rights,
    users: &[UserId],
    object: Object,
    out: &mut Vec<u8>,
) -> Result<(), AllocError>
    ensures { (edition : Edition) (owner : UserId) (h : History) → StandsAfter replay.now edition owner h →
        OnOk result (out.new.items ≡ out.old.items ++ flat_map (bits_on edition owner h object) users.now) }
{
    for user in users {
        push_bits(replay, object, *user, out)?;
    }
    Ok(())
}

/// Appends who holds the lock of a window, if somebody does.
fn push_holder(holder: Option<UserId>, out: &mut Vec<u8>) -> Result<(), AllocError>
    ensures { OnOk result (out.new.items ≡ out.old.items ++ holder_text holder) }
{
    match holder {
        Some(user) => {
            out.extend_from_slice(b" held by ")?;
            out.extend_from_slice(user.as_bytes())
        }
        None => Ok(()),
    }
}

/// Appends a window: who holds its lock, and each user's bits.
fn push_window(
    replay: &Rights,
    users: &[UserId],
    window: u32,
    out: &mut Vec<u8>,
) -> Result<(), AllocError>
    ensures { (edition : Edition) (owner : UserId) (h : History) → StandsAfter replay.now edition owner h →
        OnOk result (out.new.items ≡ out.old.items ++ window_text edition owner h users.now window) }
{
    out.extend_from_slice(b"window ")?;
    push_decimal(u64::from(window), out)?;
    push_holder(replay.holder(window), out)?;
    push_all_bits(replay, users, Object::Window(window), out)?;
    out.extend_from_slice(b"\n")
}

/// Appends windows with their holders and the users' bits.
fn push_windows(
    replay: &Rights,
    users: &[UserId],
    windows: &[u32],
    out: &mut Vec<u8>,
) -> Result<(), AllocError>
    ensures { (edition : Edition) (owner : UserId) (h : History) → StandsAfter replay.now edition owner h →
        OnOk result (out.new.items ≡ out.old.items ++ flat_map (window_text edition owner h users.now) windows.now) }
{
    for window in windows {
        push_window(replay, users, *window, out)?;
    }
    Ok(())
}

/// Appends a command on which a user has x.
fn push_command(
    replay: &Rights,
    user: UserId,
    command: CommandName,
    out: &mut Vec<u8>,
) -> Result<(), AllocError>
    ensures { (edition : Edition) (owner : UserId) (h : History) → StandsAfter replay.now edition owner h →
        OnOk result (out.new.items ≡ out.old.items ++ command_text edition owner h user command) }
{
    if !has_bit(replay, Object::Command(command), user, Bit::Execute) {
        return Ok(());
    }
    out.extend_from_slice(b" ")?;
    out.extend_from_slice(name_text(command).as_bytes())
}

/// Appends each command on which a user has x.
fn push_each_command(replay: &Rights, user: UserId, out: &mut Vec<u8>) -> Result<(), AllocError>
    ensures { (edition : Edition) (owner : UserId) (h : History) → StandsAfter replay.now edition owner h →
        OnOk result (out.new.items ≡ out.old.items ++ flat_map (command_text edition owner h user) ALL) }
{
    for command in &CommandName::ALL {
        push_command(replay, user, *command, out)?;
    }
    Ok(())
}

/// Appends a user, and the commands on which they have x.
fn push_commands(replay: &Rights, user: UserId, out: &mut Vec<u8>) -> Result<(), AllocError>
    ensures { (edition : Edition) (owner : UserId) (h : History) → StandsAfter replay.now edition owner h →
        OnOk result (out.new.items ≡ out.old.items ++ commands_text edition owner h user) }
{
    out.extend_from_slice(b"commands ")?;
    out.extend_from_slice(user.as_bytes())?;
    push_each_command(replay, user, out)?;
    out.extend_from_slice(b"\n")
}

/// Appends the commands on which each of these users has x.
fn push_all_commands(replay: &Rights, users: &[UserId], out: &mut Vec<u8>) -> Result<(), AllocError>
    ensures { (edition : Edition) (owner : UserId) (h : History) → StandsAfter replay.now edition owner h →
        OnOk result (out.new.items ≡ out.old.items ++ flat_map (commands_text edition owner h) users.now) }
{
    for user in users {
        push_commands(replay, *user, out)?;
    }
    Ok(())
}

/// Appends how many entries there are.
fn push_count(count: u64, out: &mut Vec<u8>) -> Result<(), AllocError>
    ensures { OnOk result (out.new.items ≡ out.old.items ++ count_text count) }
{
    out.extend_from_slice(b"entries ")?;
    push_decimal(count, out)?;
    out.extend_from_slice(b"\n")
}

/// Appends how many entries there are, users with their leaders, windows with their holders and rights,
/// commands, masks, and what a user gets who becomes known now. The sight has looked for `settings_of`
/// the known users.
pub fn push_rights(watch: &Watch, sight: &Sight, out: &mut Vec<u8>) -> Result<(), AllocError>
    ensures { (edition : Edition) (owner : UserId) (said : List Said) → HasWatched watch.now edition owner said →
        HasSeen sight.now owner (marked_after [] said) → OnOk result (out.new.items ≡ out.old.items
        ++ rights_text edition owner (acts_in (marked_after [] said)) watch.now.audit.next sight.now.settlers.items) }
{
    let replay = watch.replay();
    let users = users_of(*out.allocator(), replay)?;
    push_count(watch.count(), out)?;
    push_users(replay, users.as_slice(), out)?;
    push_windows(replay, users.as_slice(), sight.windows(), out)?;
    push_all_commands(replay, users.as_slice(), out)?;
    push_mask_lines(sight.settlers(), users.as_slice(), out)
}
