//! Whether a session is multiuser, as far as its trail says so.

ghost use Rattle.std.specs.Prelude.{◌≡◌, IfOk};
ghost use Rattle.trail_setup.specs.Modes.{done_mode, is_granted, is_list_granted, is_of, is_parting, line_mode};
ghost use Rattle.trail_setup.specs.Modes.{mode_for, mode_said, sends_away, typed_mode};

use acl::{Act, CommandName, Object, UserId};
use command_lang::{Command, FaultKind, ParseFault, parse};
use hub::{Kept, TrailEntry, all_pass, from_command};
use session::{Refusal, Verdict};
use std::alloc::{AllocError, Global};

/// What an entry says of the mode.
#[derive(Clone, Copy, PartialEq, Eq)]
pub enum ModeSeen {
    Multiuser,
    Single,
    /// The command `multiuser` was given by keys, which the trail doesn't have.
    Unsaid,
}

/// Whether the verdict is of a right on this command.
fn is_of(verdict: Verdict, name: CommandName) -> bool
    ensures { result ≡ is_of name verdict }
{
    match verdict {
        Verdict::Right {
            object: Object::Command(command),
            ..
        } => command == name,
        _ => false,
    }
}

/// Whether a command of this name was asked for, and all its checks passed.
pub fn is_granted(verdicts: &[Verdict], name: CommandName) -> bool
    ensures { result ≡ is_granted name verdicts.now }
{
    let asked = from_command(verdicts);
    match asked.split_first() {
        Some((first, _)) => is_of(*first, name) && all_pass(asked),
        None => false,
    }
}

/// Whether a list command was granted, which is done in multiuser mode alone.
fn is_list_granted(verdicts: &[Verdict]) -> bool
    ensures { result ≡ is_list_granted verdicts.now }
{
    let lists = [
        CommandName::Acladd,
        CommandName::Aclchg,
        CommandName::Acldel,
        CommandName::Aclgrp,
        CommandName::Aclumask,
    ];
    lists.iter().any(|name| is_granted(verdicts, *name))
}

/// What it says of the mode that this user attached or opened a window.
fn mode_for(owner: UserId, user: UserId) -> Option<ModeSeen>
    ensures { result ≡ mode_for owner user }
{
    if owner == user {
        None
    } else {
        Some(ModeSeen::Multiuser)
    }
}

/// What a line says of the mode, if it is the command `multiuser`.
fn line_mode(alloc: Global, line: &[u8]) -> Result<Option<ModeSeen>, AllocError>
    ensures { IfOk result (λ mode. mode ≡ line_mode line.now) }
{
    command_lang::each_line_is_a_command_or_faulty();
    match parse(alloc, line) {
        Ok(Command::Multiuser(on)) => Ok(Some(if on {
            ModeSeen::Multiuser
        } else {
            ModeSeen::Single
        })),
        Ok(_) => Ok(None),
        Err(
            ParseFault {
                kind: FaultKind::NoMemory,
                ..
            },
        ) => Err(AllocError),
        Err(_) => Ok(None),
    }
}

/// Whether a client goes.
fn is_parting(act: Act) -> bool
    ensures { result ≡ is_parting act }
{
    matches!(act, Act::Parted { .. })
}

/// Whether the acts send a client away.
fn sends_away(acts: &[Act]) -> bool
    ensures { result ≡ sends_away acts.now }
{
    acts.iter().any(|act| is_parting(*act))
}

/// What keys say of the mode. Their reply is ok even if the command was denied.
fn typed_mode(verdicts: &[Verdict], acts: &[Act]) -> Option<ModeSeen>
    ensures { result ≡ typed_mode verdicts.now acts.now }
{
    if is_granted(verdicts, CommandName::Multiuser) {
        return Some(if sends_away(acts) {
            ModeSeen::Single
        } else {
            ModeSeen::Unsaid
        });
    }
    match acts {
        [_, ..] if is_list_granted(verdicts) => Some(ModeSeen::Multiuser),
        _ => None,
    }
}

/// What an entry that was done says of the mode.
fn done_mode(
    alloc: Global,
    owner: UserId,
    entry: &TrailEntry,
) -> Result<Option<ModeSeen>, AllocError>
    ensures { IfOk result (λ mode. mode ≡ done_mode owner entry.now.event entry.now.verdicts entry.now.acts) }
{
    match entry.event() {
        Kept::Attach { user, .. } | Kept::Open { user, .. } => Ok(mode_for(owner, *user)),
        Kept::Command { .. } if is_list_granted(entry.verdicts()) => Ok(Some(ModeSeen::Multiuser)),
        Kept::Command { line, .. } => line_mode(alloc, line.as_slice()),
        Kept::Keys { .. } => Ok(typed_mode(entry.verdicts(), entry.acts())),
        Kept::Detach { .. } | Kept::Closed { .. } => Ok(None),
    }
}

/// What an entry says of the mode, if it says something.
pub fn mode_said(
    alloc: Global,
    owner: UserId,
    entry: &TrailEntry,
) -> Result<Option<ModeSeen>, AllocError>
    ensures { IfOk result (λ mode. mode ≡ mode_said owner entry.now) }
{
    match entry.ending() {
        Ok(_) => done_mode(alloc, owner, entry),
        Err(Refusal::NotMultiuser) => Ok(Some(ModeSeen::Single)),
        Err(_) => Ok(None),
    }
}
