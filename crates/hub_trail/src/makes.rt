//! Which acts a command can do.

ghost use Rattle.std.specs.Prelude.{◌≡◌};
ghost use Rattle.std.specs.List.{list_all};
ghost use Rattle.acl.specs.Same.{same_command};
ghost use Rattle.hub_trail.specs.Fitting.{is_one_of, turns_page, sends_away, enters, is_client, makes, made_by};

use acl::{Act, Bit, CommandName, Object, UserId};
use session::Verdict;

/// Whether both are the same command.
pub fn is_same(command: CommandName, other: CommandName) -> bool
    ensures { result ≡ same_command command other }
{
    command == other
}

/// Whether the command is one of these.
fn is_one_of(names: &[CommandName], command: CommandName) -> bool
    ensures { result ≡ is_one_of names.now command }
{
    names.iter().any(|name| is_same(command, *name))
}

/// Whether the command can change a client's page.
fn turns_page(command: CommandName) -> bool
    ensures { result ≡ turns_page command }
{
    is_one_of(
        &[
            CommandName::Select,
            CommandName::Next,
            CommandName::Prev,
            CommandName::Other,
            CommandName::Split,
            CommandName::Focus,
            CommandName::Remove,
            CommandName::Only,
            CommandName::Scrollview,
            CommandName::Detach,
        ],
        command,
    )
}

/// Whether the command closes windows, or ends other users' clients.
fn sends_away(command: CommandName) -> bool
    ensures { result ≡ sends_away command }
{
    is_one_of(
        &[
            CommandName::Acldel,
            CommandName::Multiuser,
            CommandName::Kill,
            CommandName::Quit,
        ],
        command,
    )
}

/// Whether the command's user can enter a window by it.
fn enters(command: CommandName) -> bool
    ensures { result ≡ enters command }
{
    is_one_of(
        &[
            CommandName::Select,
            CommandName::Next,
            CommandName::Prev,
            CommandName::Other,
            CommandName::Focus,
            CommandName::Remove,
        ],
        command,
    )
}

/// Whether the command came by keys of this client.
fn is_client(client: Option<u32>, other: u32) -> bool
    ensures { result ≡ is_client client other }
{
    match client {
        Some(client) => client == other,
        None => false,
    }
}

/// Whether a user's command of this name can do the act; the client is given if the command came by
/// keys.
fn makes(client: Option<u32>, user: UserId, command: CommandName, act: Act) -> bool
    ensures { result ≡ makes client user command act }
{
    match act {
        Act::Known { .. } | Act::Set { .. } => {
            is_one_of(&[CommandName::Acladd, CommandName::Aclchg], command)
        }
        Act::Gone { .. } => is_same(command, CommandName::Acldel),
        Act::Grouped { .. } => is_same(command, CommandName::Aclgrp),
        Act::Masked { by, .. } => is_same(command, CommandName::Aclumask) && by == user,
        Act::Preset { .. } => is_same(command, CommandName::Aclumask),
        Act::Opened { .. } | Act::Attached { .. } => false,
        Act::Closed { .. } => is_one_of(&[CommandName::Kill, CommandName::Quit], command),
        Act::Parted { client: parted } => {
            is_one_of(
                &[
                    CommandName::Acldel,
                    CommandName::Multiuser,
                    CommandName::Quit,
                ],
                command,
            ) || (is_same(command, CommandName::Detach) && is_client(client, parted))
        }
        Act::Entered { user: entered, .. } => enters(command) && entered == user,
        Act::Left { user: left, .. } => {
            sends_away(command) || (turns_page(command) && left == user)
        }
        Act::Mode { by, .. } => is_same(command, CommandName::Writelock) && by == user,
        Act::Default { .. } => is_same(command, CommandName::Defwritelock),
    }
}

/// Whether the command can do all the acts.
fn all_made(client: Option<u32>, user: UserId, command: CommandName, acts: &[Act]) -> bool
    ensures { result ≡ list_all (makes client user command) acts.now }
{
    acts.iter().all(|act| makes(client, user, command, *act))
}

/// Whether the command that the first verdict asks for can do all the acts. Without such a verdict
/// there must be no act.
pub fn made_by(client: Option<u32>, verdicts: &[Verdict], acts: &[Act]) -> bool
    ensures { result ≡ made_by client verdicts.now acts.now }
{
    match verdicts {
        [
            Verdict::Right {
                user,
                bit: Bit::Execute,
                object: Object::Command(command),
                ..
            },
            ..
        ] => all_made(client, *user, *command, acts),
        _ => acts.is_empty(),
    }
}
