//! How it is told whether users are confined on windows to come, and why they aren't.

ghost use Rattle.std.specs.Prelude.{◌≡◌, ◌++◌, IfOk, OnOk, false};
ghost use Rattle.std.specs.List.{flat_map, list_any};
ghost use Rattle.acl.specs.declared.leaders.Edition.{Edition};
ghost use Rattle.acl.specs.declared.user_id.UserId.{UserId};
ghost use Rattle.acl.specs.History.{History};
ghost use Rattle.hub.specs.Following.{StandsAfter};
ghost use Rattle.trail_confined.specs.Confining.{circle};
ghost use Rattle.trail_confined.specs.Telling.{act_giver_text, any_gives, bit_text, bits_text, causes_text};
ghost use Rattle.trail_confined.specs.Telling.{concerned_text, confinement_text, contrary_text};
ghost use Rattle.trail_confined.specs.Telling.{deciders_of_one, failing_text, found_of, givers_text, gives};
ghost use Rattle.trail_confined.specs.Telling.{indented_owner_text, letter_if, may_give, power_decider, power_text};
ghost use Rattle.trail_confined.specs.Telling.{setting_text, settled_by};

use crate::confined::is_confined;
use crate::premises::{Premise, push_circle};
use crate::why::{push_found, push_is_owner, yes_text};
use acl::{Act, Bit, CommandName, Object, UserId};
use command_lang::name_text;
use hub::Rights;
use std::alloc::{AllocError, Global};
use trail_rights::{Decider, Mark, RightsSetting, Settler, Sight, found_in, letter, settler_in};

/// What decides whether a user has x on a command, before the first act.
fn power_decider(owner: UserId, user: UserId, command: CommandName) -> Decider
    ensures { result ≡ power_decider owner user command }
{
    Decider::new(owner, user, Bit::Execute, Object::Command(command))
}

/// Appends what decides whether a user may open windows, or change rights, before the first act.
fn push_power_deciders(
    owner: UserId,
    user: UserId,
    deciders: &mut Vec<Decider>,
) -> Result<(), AllocError>
    ensures { OnOk result
        (deciders.new.items ≡ deciders.old.items ++ deciders_of_one owner user) }
{
    deciders.extend_from_slice(&[
        power_decider(owner, user, CommandName::Screen),
        power_decider(owner, user, CommandName::Acladd),
        power_decider(owner, user, CommandName::Aclchg),
        power_decider(owner, user, CommandName::Acldel),
        power_decider(owner, user, CommandName::Aclgrp),
        power_decider(owner, user, CommandName::Aclumask),
    ])
}

/// What decides which of these users may open windows, or change rights, before the first act.
pub fn power_deciders(
    alloc: Global,
    owner: UserId,
    users: &[UserId],
) -> Result<Vec<Decider>, AllocError>
    ensures { IfOk result (λ deciders. deciders.items ≡ flat_map (deciders_of_one owner) users.now) }
{
    let mut deciders = Vec::new(alloc);
    for user in users {
        push_power_deciders(owner, *user, &mut deciders)?;
    }
    Ok(deciders)
}

/// Appends a bit, and whether users are confined for it, if these premises fail.
fn push_bit(failing: &[Premise], bit: Bit, out: &mut Vec<u8>) -> Result<(), AllocError>
    ensures { OnOk result (out.new.items ≡ out.old.items ++ bit_text failing.now bit) }
{
    out.extend_from_slice(b"confined ")?;
    out.extend_from_slice(letter(bit))?;
    out.extend_from_slice(b" ")?;
    out.extend_from_slice(yes_text(is_confined(failing, bit)))?;
    out.extend_from_slice(b"\n")
}

/// Appends each bit, and whether users are confined for it, if these premises fail.
fn push_bits(failing: &[Premise], out: &mut Vec<u8>) -> Result<(), AllocError>
    ensures { OnOk result (out.new.items ≡ out.old.items ++ bits_text failing.now) }
{
    push_bit(failing, Bit::Read, out)?;
    push_bit(failing, Bit::Write, out)?;
    push_bit(failing, Bit::Execute, out)
}

/// Appends the letter of a bit, if a premise concerns it.
fn push_letter_if(premise: Premise, bit: Bit, out: &mut Vec<u8>) -> Result<(), AllocError>
    ensures { OnOk result (out.new.items ≡ out.old.items ++ letter_if premise bit) }
{
    if premise.concerns(bit) {
        out.extend_from_slice(letter(bit))
    } else {
        Ok(())
    }
}

/// Appends the letters of the bits that a premise concerns.
fn push_concerned(premise: Premise, out: &mut Vec<u8>) -> Result<(), AllocError>
    ensures { OnOk result (out.new.items ≡ out.old.items ++ concerned_text premise) }
{
    push_letter_if(premise, Bit::Read, out)?;
    push_letter_if(premise, Bit::Write, out)?;
    push_letter_if(premise, Bit::Execute, out)
}

/// Appends what is so in place of a premise.
fn push_contrary(premise: Premise, out: &mut Vec<u8>) -> Result<(), AllocError>
    ensures { OnOk result (out.new.items ≡ out.old.items ++ contrary_text premise) }
{
    match premise {
        Premise::NoPower { user, command } => {
            out.extend_from_slice(user.as_bytes())?;
            out.extend_from_slice(b" has x on ")?;
            out.extend_from_slice(name_text(command).as_bytes())?;
            out.extend_from_slice(b"\n")
        }
        Premise::IsKnown { user } => {
            out.extend_from_slice(user.as_bytes())?;
            out.extend_from_slice(b" isn't known\n")
        }
        Premise::OpensNone { user } => {
            out.extend_from_slice(user.as_bytes())?;
            out.extend_from_slice(b" may open windows\n")
        }
        Premise::Masks { opener, user, bit } => {
            out.extend_from_slice(opener.as_bytes())?;
            out.extend_from_slice(b" gives ")?;
            out.extend_from_slice(letter(bit))?;
            out.extend_from_slice(b" to ")?;
            out.extend_from_slice(user.as_bytes())?;
            out.extend_from_slice(b"\n")
        }
    }
}

/// Whether an act may be why a user has x: it gives it; or it makes a user known, who may get x by a
/// preset.
fn may_give(act: &Act, by_preset: bool) -> bool
    ensures { result ≡ may_give act.now by_preset }
{
    match *act {
        Act::Set { value, .. } => value && !by_preset,
        Act::Known { .. } => by_preset,
        _ => false,
    }
}

/// Whether the act that was found may be why a user has x.
fn gives(found: Option<(Mark, Act)>, by_preset: bool) -> bool
    ensures { result ≡ gives found by_preset }
{
    match found {
        Some((_, act)) => may_give(&act, by_preset),
        None => false,
    }
}

/// The act that was found to decide a user's x on a command.
fn found_of(deciders: &[Decider], command: CommandName, user: UserId) -> Option<(Mark, Act)>
    ensures { result ≡ found_of deciders.now command user }
{
    found_in(deciders, user, Bit::Execute, Object::Command(command))
}

/// Appends the act by which a user has x on a command, if it may be why.
fn push_act_giver(
    deciders: &[Decider],
    command: CommandName,
    by_preset: bool,
    user: UserId,
    out: &mut Vec<u8>,
) -> Result<(), AllocError>
    ensures { OnOk result
        (out.new.items ≡ out.old.items ++ act_giver_text deciders.now command by_preset user) }
{
    let found = found_of(deciders, command, user);
    if gives(found, by_preset) {
        out.extend_from_slice(b"  ")?;
        push_found(user, found, out)
    } else {
        Ok(())
    }
}

/// Whether an act gives x on a command to one of these users.
fn any_gives(deciders: &[Decider], command: CommandName, users: &[UserId]) -> bool
    ensures { result ≡ any_gives deciders.now command users.now }
{
    for user in users {
        if gives(found_of(deciders, command, *user), false) {
            return true;
        }
    }
    false
}

/// Appends the acts by which these users have x on a command, those that may be why.
fn push_each_giver(
    deciders: &[Decider],
    command: CommandName,
    by_preset: bool,
    users: &[UserId],
    out: &mut Vec<u8>,
) -> Result<(), AllocError>
    ensures { OnOk result (out.new.items
        ≡ out.old.items ++ flat_map (act_giver_text deciders.now command by_preset) users.now) }
{
    for user in users {
        push_act_giver(deciders, command, by_preset, *user, out)?;
    }
    Ok(())
}

/// Appends the acts that give x on a command to one of these users; if there are none, the acts that
/// made them known.
fn push_givers(
    deciders: &[Decider],
    command: CommandName,
    users: &[UserId],
    out: &mut Vec<u8>,
) -> Result<(), AllocError>
    ensures { OnOk result
        (out.new.items ≡ out.old.items ++ givers_text deciders.now command users.now) }
{
    let by_preset = !any_gives(deciders, command, users);
    push_each_giver(deciders, command, by_preset, users, out)
}

/// Appends that the owner has each right.
fn push_indented_owner(owner: UserId, out: &mut Vec<u8>) -> Result<(), AllocError>
    ensures { OnOk result (out.new.items ≡ out.old.items ++ indented_owner_text owner) }
{
    out.extend_from_slice(b"  ")?;
    push_is_owner(owner, out)
}

/// Appends by which acts a user has x on a command: the user's own, and their leaders'.
fn push_circle_givers(
    replay: &Rights,
    deciders: &[Decider],
    user: UserId,
    command: CommandName,
    out: &mut Vec<u8>,
) -> Result<(), AllocError>
    ensures { (edition : Edition) (owner : UserId) (h : History) →
        StandsAfter replay.now edition owner h → OnOk result (out.new.items
        ≡ out.old.items ++ givers_text deciders.now command (circle edition h user)) }
{
    let mut users = Vec::new(*out.allocator());
    push_circle(replay, user, &mut users)?;
    push_givers(deciders, command, users.as_slice(), out)
}

/// Appends why a user has x on a command: they are the owner, or by which acts.
fn push_power(
    owner: UserId,
    replay: &Rights,
    sight: &Sight,
    power: (UserId, CommandName),
    out: &mut Vec<u8>,
) -> Result<(), AllocError>
    ensures { (edition : Edition) (h : History) → StandsAfter replay.now edition owner h →
        OnOk result (out.new.items ≡ out.old.items
        ++ power_text edition owner h sight.now.deciders.items power.0 power.1) }
{
    let (user, command) = power;
    if user == owner {
        push_indented_owner(owner, out)
    } else {
        push_circle_givers(replay, sight.deciders(), user, command, out)
    }
}

/// The act that gave a setting its value, if the setting was looked for and an act did.
fn settled_by(settler: Option<Settler>) -> Option<(Mark, Act)>
    ensures { result ≡ settled_by settler }
{
    match settler {
        Some(settler) => settler.found(),
        None => None,
    }
}

/// Appends which act gave a setting of a user its value.
fn push_setting(
    settlers: &[Settler],
    user: UserId,
    setting: RightsSetting,
    out: &mut Vec<u8>,
) -> Result<(), AllocError>
    ensures { OnOk result
        (out.new.items ≡ out.old.items ++ setting_text settlers.now user setting) }
{
    out.extend_from_slice(b"  ")?;
    push_found(user, settled_by(settler_in(settlers, setting)), out)
}

/// Appends the acts by which a premise fails.
fn push_causes(
    owner: UserId,
    replay: &Rights,
    sight: &Sight,
    premise: Premise,
    out: &mut Vec<u8>,
) -> Result<(), AllocError>
    ensures { (edition : Edition) (h : History) → StandsAfter replay.now edition owner h →
        OnOk result
        (out.new.items ≡ out.old.items ++ causes_text edition owner h sight.now premise) }
{
    match premise {
        Premise::NoPower { user, command } => {
            push_power(owner, replay, sight, (user, command), out)
        }
        Premise::IsKnown { user } => {
            push_setting(sight.settlers(), user, RightsSetting::Listed { user }, out)
        }
        Premise::OpensNone { user } => {
            push_power(owner, replay, sight, (user, CommandName::Screen), out)
        }
        Premise::Masks { opener, user, bit } => {
            let setting = RightsSetting::Mask {
                by: opener,
                user,
                bit,
            };
            push_setting(sight.settlers(), user, setting, out)
        }
    }
}

/// Appends a premise that fails, and the acts by which it does.
fn push_failing(
    owner: UserId,
    replay: &Rights,
    sight: &Sight,
    premise: Premise,
    out: &mut Vec<u8>,
) -> Result<(), AllocError>
    ensures { (edition : Edition) (h : History) → StandsAfter replay.now edition owner h →
        OnOk result
        (out.new.items ≡ out.old.items ++ failing_text edition owner h sight.now premise) }
{
    out.extend_from_slice(b"fails ")?;
    push_concerned(premise, out)?;
    out.extend_from_slice(b" ")?;
    push_contrary(premise, out)?;
    push_causes(owner, replay, sight, premise, out)
}

/// Appends each premise that fails, and the acts by which it does.
fn push_each_failing(
    owner: UserId,
    replay: &Rights,
    sight: &Sight,
    failing: &[Premise],
    out: &mut Vec<u8>,
) -> Result<(), AllocError>
    ensures { (edition : Edition) (h : History) → StandsAfter replay.now edition owner h →
        OnOk result (out.new.items ≡ out.old.items
        ++ flat_map (failing_text edition owner h sight.now) failing.now) }
{
    for premise in failing {
        push_failing(owner, replay, sight, *premise, out)?;
    }
    Ok(())
}

/// Appends for each bit whether users are confined, and then each premise that fails, and the acts by
/// which it does. The sight has looked for `power_deciders` and `settings_of` the users and their leaders.
pub fn push_confinement(
    owner: UserId,
    replay: &Rights,
    sight: &Sight,
    failing: &[Premise],
    out: &mut Vec<u8>,
) -> Result<(), AllocError>
    ensures { (edition : Edition) (h : History) → StandsAfter replay.now edition owner h →
        OnOk result (out.new.items ≡ out.old.items
        ++ confinement_text edition owner h sight.now failing.now) }
{
    push_bits(failing, out)?;
    push_each_failing(owner, replay, sight, failing, out)
}
