//! What a command's line says of users and rights, and which verdicts ask for the command.

ghost use Rattle.std.specs.Prelude.{◌≡◌, false};
ghost use Rattle.std.specs.List.{list_any};
ghost use Rattle.std.specs.Option.{option_map_or};
ghost use Rattle.acl.specs.Commands.{names_user, chosen_leader};
ghost use Rattle.acl.specs.Names.{named_by};
ghost use Rattle.acl.specs.Same.{same_command};
ghost use Rattle.command_lang.specs.Names.{command_named};
ghost use Rattle.session.specs.Naming.{new_leader_of};
ghost use Rattle.hub_trail.specs.Saying.{same_value, changes, item_says, items_say, same_leader, gives, removes, leads};
ghost use Rattle.hub_trail.specs.Legal.{asks_for_command, from_command};

use crate::makes::is_same;
use acl::{Bit, BitChange, CommandName, Object, UserId};
use command_lang::{Command, Leader, Text, command_named, has_byte, is_wide};
use session::Verdict;

/// Whether the word names the user.
fn is_named_by(user: UserId, word: &Text) -> bool
    ensures { result ≡ names_user user (named_by word.now) }
{
    match UserId::of(word.as_str().as_bytes()) {
        Some(named) => user == named,
        None => false,
    }
}

/// Whether one of the words names the user.
pub fn is_listed(user: UserId, words: &[Text]) -> bool
    ensures { result ≡ list_any (λ w. names_user user (named_by w)) words.now }
{
    words.iter().any(|word| is_named_by(user, word))
}

/// Whether both values are equal.
fn same_value(value: bool, other: bool) -> bool
    ensures { result ≡ same_value value other }
{
    if value { other } else { !other }
}

/// Whether one of the changes gives the bit this value.
fn changes(bits: &[BitChange], bit: Bit, value: bool) -> bool
    ensures { result ≡ changes bits.now bit value }
{
    bits.iter().any(|change| change.bit == bit && same_value(change.value, value))
}

/// Whether the item is this command's name or alias.
fn is_called(item: &str, command: CommandName) -> bool
    ensures { result ≡ option_map_or (λ c. same_command c command) (command_named item.now) false }
{
    match command_named(item) {
        Some(named) => is_same(named, command),
        None => false,
    }
}

/// Whether an item of a list names the command.
fn item_says(command: CommandName, item: &Text) -> bool
    ensures { result ≡ item_says command item.now }
{
    let item = item.as_str();
    if is_wide(item) {
        has_byte(item, b'?')
    } else {
        is_called(item, command)
    }
}

/// Whether an item of the list names the command.
fn command_said(items: &[Text], command: CommandName) -> bool
    ensures { result ≡ list_any (item_says command) items.now }
{
    items.iter().any(|item| item_says(command, item))
}

/// Whether an item of the list names the object, if that is a command.
fn items_say(items: &[Text], object: Object) -> bool
    ensures { result ≡ items_say items.now object }
{
    match object {
        Object::Window(_) => true,
        Object::Command(command) => command_said(items, command),
    }
}

/// Whether an acladd or an aclchg gives the bit on the object this value.
pub fn gives(given: &Command, bit: Bit, object: Object, value: bool) -> bool
    ensures { result ≡ gives given.now bit object value }
{
    match given {
        Command::Acladd(_) => value,
        Command::Aclchg { bits, list, .. } => {
            changes(bits.as_slice(), bit, value) && items_say(list.as_slice(), object)
        }
        _ => false,
    }
}

/// Whether an acldel names the user.
pub fn removes(given: &Command, user: UserId) -> bool
    ensures { result ≡ removes given.now user }
{
    match given {
        Command::Acldel(word) => is_named_by(user, word),
        _ => false,
    }
}

/// Whether both are the same leader, or neither is a leader.
fn same_leader(leader: Option<UserId>, other: Option<UserId>) -> bool
    ensures { result ≡ same_leader leader other }
{
    match (leader, other) {
        (None, None) => true,
        (Some(leader), Some(other)) => leader == other,
        _ => false,
    }
}

/// The leader that the line of an aclgrp chooses; `None` for `none`, or if the word is no name.
fn chosen(leader: &Leader) -> Option<UserId>
    ensures { result ≡ chosen_leader (new_leader_of leader.now) }
{
    match leader {
        Leader::Nobody => None,
        Leader::Named(word) => UserId::of(word.as_str().as_bytes()),
    }
}

/// Whether an aclgrp gives the user this leader.
pub fn leads(given: &Command, user: UserId, leader: Option<UserId>) -> bool
    ensures { result ≡ leads given.now user leader }
{
    match given {
        Command::Aclgrp {
            user: word,
            leader: Some(named),
        } => is_named_by(user, word) && same_leader(chosen(named), leader),
        _ => false,
    }
}

/// Whether the verdict asks for x on a command.
pub fn asks_for_command(verdict: Verdict) -> bool
    ensures { result ≡ asks_for_command verdict }
{
    matches!(
        verdict,
        Verdict::Right {
            bit: Bit::Execute,
            object: Object::Command(_),
            ..
        }
    )
}

/// The verdicts, from the first one on that asks for x on a command.
pub fn from_command(verdicts: &[Verdict]) -> &[Verdict]
    ensures { result.now ≡ from_command verdicts.now }
{
    for i in 0..verdicts.len() {
        if asks_for_command(verdicts[i]) {
            return &verdicts[i..];
        }
    }
    &[]
}
