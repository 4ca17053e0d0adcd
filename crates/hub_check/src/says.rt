//! Whether a Command does to users and rights only what its line says.

ghost use Rattle.std.specs.Prelude.{◌≡◌, ◌↔◌, ◌&&◌, IfSome, not, true};
ghost use Rattle.acl.specs.declared.leaders.Edition.{Edition};
ghost use Rattle.acl.specs.declared.user_id.UserId.{UserId};
ghost use Rattle.acl.specs.History.{History, among, users_of};
ghost use Rattle.acl.specs.Same.{same_user};
ghost use Rattle.command_lang.specs.declared.command.Command.{Command};
ghost use Rattle.hub_trail.specs.Saying.{is_named, concerns, says};
ghost use Rattle.rights.specs.Following.{StandsAfter};
ghost use Rattle.hub_check.specs.Parts.{AreSaid};

use acl::{Act, UserId};
use command_lang::{Command, Users};
use hub_trail::{gives, is_listed, leads, removes};
use rights::Rights;

/// Whether the user is known, and isn't the owner.
fn is_other(owner: UserId, rights: &Rights, user: UserId) -> bool
    ensures { (edition : Edition) (h : History) → StandsAfter rights.now edition owner h →
        result ≡ (not (same_user owner user) && among (users_of owner h) user) }
{
    if owner == user {
        return false;
    }
    rights.knows(user)
}

/// Whether the user is named; `*` names all known users but the owner.
fn is_named(owner: UserId, rights: &Rights, users: &Users, user: UserId) -> bool
    ensures { (edition : Edition) (h : History) → StandsAfter rights.now edition owner h →
        result ≡ is_named owner h users.now user }
{
    match users {
        Users::All => is_other(owner, rights, user),
        Users::Listed(words) => is_listed(user, words.as_slice()),
    }
}

/// Whether an acladd or an aclchg names the user.
fn concerns(owner: UserId, rights: &Rights, given: &Command, user: UserId) -> bool
    ensures { (edition : Edition) (h : History) → StandsAfter rights.now edition owner h →
        result ≡ concerns owner h given.now user }
{
    match given {
        Command::Acladd(users) => is_named(owner, rights, users, user),
        Command::Aclchg { users, .. } => is_named(owner, rights, users, user),
        _ => false,
    }
}

/// Whether an acladd or an aclchg names the user, if `named` is a user whom it names. The acts on one
/// user follow one another, so this is mostly the same user.
fn concerns_too(
    owner: UserId,
    rights: &Rights,
    given: &Command,
    named: Option<UserId>,
    user: UserId,
) -> bool
    ensures { (edition : Edition) (h : History) → StandsAfter rights.now edition owner h →
        IfSome named (λ u. concerns owner h given.now u ≡ true) →
        result ≡ concerns owner h given.now user }
{
    if let Some(known) = named {
        if known == user {
            return true;
        }
    }
    concerns(owner, rights, given, user)
}

/// Whether the command says the act, or the act isn't on users and rights. `named` is a user whom an
/// acladd or an aclchg names, if one is known.
fn says(owner: UserId, rights: &Rights, given: &Command, named: Option<UserId>, act: Act) -> bool
    ensures { (edition : Edition) (h : History) → StandsAfter rights.now edition owner h →
        IfSome named (λ u. concerns owner h given.now u ≡ true) →
        result ≡ says owner h given.now act }
{
    match act {
        Act::Known { user } => concerns_too(owner, rights, given, named, user),
        Act::Set {
            user,
            bit,
            object,
            value,
        } => concerns_too(owner, rights, given, named, user) && gives(given, bit, object, value),
        Act::Gone { user } => removes(given, user),
        Act::Grouped { user, leader } => leads(given, user, leader),
        _ => true,
    }
}

/// A user whom a command names that says the act, if it named this one before.
fn named_after(act: Act, named: Option<UserId>) -> Option<UserId>
    ensures { (owner : UserId) (h : History) (given : Command) → says owner h given act ≡ true →
        IfSome named (λ u. concerns owner h given u ≡ true) →
        IfSome result (λ u. concerns owner h given u ≡ true) }
{
    match act {
        Act::Known { user } => Some(user),
        Act::Set { user, .. } => Some(user),
        _ => named,
    }
}

/// Whether the command says each act on users and rights.
pub fn all_said(owner: UserId, rights: &Rights, given: &Command, acts: &[Act]) -> bool
    ensures { (edition : Edition) (h : History) → StandsAfter rights.now edition owner h →
        (result ≡ true) ↔ AreSaid owner h given.now acts.now }
{
    let mut named = None;
    for act in acts {
        if !says(owner, rights, given, named, *act) {
            return false;
        }
        named = named_after(*act, named);
    }
    true
}
