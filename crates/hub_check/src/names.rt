//! Users whom the lines of list commands name, and their acts.

ghost use Rattle.std.specs.Prelude.{◌≡◌, ◌↔◌, ◌||◌, true, Some, slice_get};
ghost use Rattle.std.specs.List.{list_all};
ghost use Rattle.std.specs.Option.{option_map_or};
ghost use Rattle.acl.specs.declared.leaders.Edition.{Edition};
ghost use Rattle.acl.specs.declared.user_id.UserId.{UserId};
ghost use Rattle.acl.specs.History.{History, users_of};
ghost use Rattle.acl.specs.Names.{named_by};
ghost use Rattle.acl.specs.Same.{same_user};
ghost use Rattle.hub_trail.specs.Legal.{has_act_of};
ghost use Rattle.rights.specs.Following.{StandsAfter};
ghost use Rattle.command_lang.specs.declared.command.Command.TheVariants as command;
ghost use Rattle.hub_check.specs.Parts.{HaveActs};

use acl::{Act, UserId};
use command_lang::{Command, Text, Users};
use hub_trail::has_act_of;
use rights::Rights;

/// Whether the user whom the word names has one of the acts.
fn has_named(acts: &[Act], word: &Text) -> bool
    ensures { result ≡ has_act_of acts.now (named_by word.now) }
{
    has_act_of(acts, UserId::of(word.as_str().as_bytes()))
}

/// Whether each user whom a word names has one of the acts.
fn have_named(acts: &[Act], words: &[Text]) -> bool
    ensures { result ≡ list_all (λ word. has_act_of acts.now (named_by word)) words.now }
{
    for word in words {
        if !has_named(acts, word) {
            return false;
        }
    }
    true
}

/// Whether a user is the owner, or has one of the acts.
fn is_owner_or_has(owner: UserId, acts: &[Act], user: UserId) -> bool
    ensures { result ≡ (same_user owner user || has_act_of acts.now (Some user)) }
{
    owner == user || has_act_of(acts, Some(user))
}

/// Whether the known user at this place, if there is one, is the owner or has one of the acts.
fn has_at(owner: UserId, rights: &Rights, acts: &[Act], place: usize) -> bool
    ensures { (edition : Edition) (h : History) → StandsAfter rights.now edition owner h →
        result ≡ option_map_or (λ u. same_user owner u || has_act_of acts.now (Some u))
        (slice_get (users_of owner h) place) true }
{
    match rights.user_at(place) {
        Some(user) => is_owner_or_has(owner, acts, user),
        None => true,
    }
}

/// Whether each known user but the owner has one of the acts.
fn have_all(owner: UserId, rights: &Rights, acts: &[Act]) -> bool
    ensures { (edition : Edition) (h : History) → StandsAfter rights.now edition owner h →
        result ≡ list_all (λ u. same_user owner u || has_act_of acts.now (Some u))
        (users_of owner h) }
{
    for place in 0..rights.user_count() {
        if !has_at(owner, rights, acts, place) {
            return false;
        }
    }
    true
}

/// Whether each user whom an acladd names has one of the acts.
fn have_added(owner: UserId, rights: &Rights, users: &Users, acts: &[Act]) -> bool
    ensures { (edition : Edition) (h : History) → StandsAfter rights.now edition owner h →
        (result ≡ true) ↔ HaveActs owner h (command.Acladd users.now) acts.now }
{
    match users {
        Users::All => have_all(owner, rights, acts),
        Users::Listed(words) => have_named(acts, words.as_slice()),
    }
}

/// Whether each user whom the first word of a list command names has one of the acts.
pub fn have_acts(owner: UserId, rights: &Rights, given: &Command, acts: &[Act]) -> bool
    ensures { (edition : Edition) (h : History) → StandsAfter rights.now edition owner h →
        (result ≡ true) ↔ HaveActs owner h given.now acts.now }
{
    match given {
        Command::Acladd(users) => have_added(owner, rights, users, acts),
        Command::Acldel(word) => has_named(acts, word),
        Command::Aclgrp {
            user,
            leader: Some(_),
        } => has_named(acts, user),
        _ => true,
    }
}
