//! What verdicts say, whether they pass, and whether they let acts be done.

ghost use Rattle.std.specs.Prelude.{◌≡◌, ◌↔◌, true};
ghost use Rattle.std.specs.List.{list_all};
ghost use Rattle.acl.specs.declared.leaders.Edition.{Edition};
ghost use Rattle.acl.specs.declared.user_id.UserId.{UserId};
ghost use Rattle.acl.specs.History.{History};
ghost use Rattle.hub_trail.specs.Legal.{passes, failed, user_of, AsksFirst, is_let, AreLet};
ghost use Rattle.hub_trail.specs.Legal.{IsTrue, is_client_of, is_granted, is_of_user};
ghost use Rattle.hub_trail.specs.Judging.{is_on_there};
ghost use Rattle.rights.specs.Following.{StandsAfter};
ghost use Rattle.hub_check.specs.Parts.{AreTrue, AsksFor};

use acl::{Act, Bit, CommandName, Object, UserId};
use hub_trail::{Kept, asks_for_command, from_command};
use rights::Rights;
use session::Verdict;

/// Whether the verdict lets its user go on.
fn passes(verdict: Verdict) -> bool
    ensures { result ≡ passes verdict }
{
    match verdict {
        Verdict::Right { answer, .. } => answer,
        Verdict::Lock {
            user,
            holder: Some(holder),
            ..
        } => holder == user,
        Verdict::Lock { holder: None, .. } => true,
    }
}

/// Whether all verdicts pass.
pub fn all_pass(verdicts: &[Verdict]) -> bool
    ensures { result ≡ list_all passes verdicts.now }
{
    verdicts.iter().all(|verdict| passes(*verdict))
}

/// The first verdict that doesn't pass.
pub fn failed(verdicts: &[Verdict]) -> Option<Verdict>
    ensures { result ≡ failed verdicts.now }
{
    verdicts.iter().copied().find(|verdict| !passes(*verdict))
}

/// The user whom the verdict is about.
fn user_of(verdict: Verdict) -> UserId
    ensures { result ≡ user_of verdict }
{
    match verdict {
        Verdict::Right { user, .. } | Verdict::Lock { user, .. } => user,
    }
}

/// Whether all verdicts are about this user.
pub fn are_of(user: UserId, verdicts: &[Verdict]) -> bool
    ensures { result ≡ list_all (is_of_user user) verdicts.now }
{
    verdicts.iter().all(|verdict| user_of(*verdict) == user)
}

/// Whether a verdict is on an object that is there, and tells the truth.
fn is_true(rights: &Rights, verdict: Verdict) -> bool
    ensures { (edition : Edition) (owner : UserId) (h : History) →
        StandsAfter rights.now edition owner h → (result ≡ true)
        ↔ ((is_on_there h verdict ≡ true) × IsTrue edition owner h verdict) }
{
    match verdict {
        Verdict::Right {
            user,
            bit,
            object,
            answer,
        } => rights.is_there(object) && answer == rights.may(user, bit, object),
        Verdict::Lock { window, holder, .. } => holder == rights.holder(window),
    }
}

/// Whether each verdict is on an object that is there, and is true.
pub fn are_true(rights: &Rights, verdicts: &[Verdict]) -> bool
    ensures { (edition : Edition) (owner : UserId) (h : History) →
        StandsAfter rights.now edition owner h →
        (result ≡ true) ↔ AreTrue edition owner h verdicts.now }
{
    for verdict in verdicts {
        if !is_true(rights, *verdict) {
            return false;
        }
    }
    true
}

/// Whether all verdicts are about the user of this client, which is attached.
pub fn are_of_client(rights: &Rights, client: u32, verdicts: &[Verdict]) -> bool
    ensures { (edition : Edition) (owner : UserId) (h : History) →
        StandsAfter rights.now edition owner h →
        result ≡ list_all (λ v. is_client_of h client (user_of v)) verdicts.now }
{
    for verdict in verdicts {
        if !rights.is_client_of(client, user_of(*verdict)) {
            return false;
        }
    }
    true
}

/// Whether the verdict asks whether the user has x on this command.
fn asks_for(verdict: Verdict, user: UserId, name: CommandName) -> bool
    ensures { (result ≡ true) ↔ AsksFor user name verdict }
{
    match verdict {
        Verdict::Right {
            user: named,
            bit: Bit::Execute,
            object: Object::Command(command),
            ..
        } => named == user && command == name,
        _ => false,
    }
}

/// Whether the first verdict asks whether the user has x on this command.
pub fn asks_first(user: UserId, name: CommandName, verdicts: &[Verdict]) -> bool
    ensures { (result ≡ true) ↔ AsksFirst user name verdicts.now }
{
    match verdicts {
        [first, ..] => asks_for(*first, user, name),
        [] => false,
    }
}

/// Whether the first verdict asks for x on a command, and all verdicts pass.
pub fn is_granted(verdicts: &[Verdict]) -> bool
    ensures { result ≡ is_granted verdicts.now }
{
    match verdicts {
        [first, ..] => asks_for_command(*first) && all_pass(verdicts),
        [] => false,
    }
}

/// Whether the verdicts let the event change anything.
fn is_let(event: &Kept, verdicts: &[Verdict]) -> bool
    ensures { result ≡ is_let event.now verdicts.now }
{
    match event {
        Kept::Command { .. } => is_granted(verdicts),
        Kept::Keys { .. } => is_granted(from_command(verdicts)),
        Kept::Attach { .. } | Kept::Detach { .. } | Kept::Open { .. } | Kept::Closed { .. } =>
            all_pass(verdicts),
    }
}

/// Whether there are no acts, or the verdicts let them be done.
pub fn are_let(event: &Kept, verdicts: &[Verdict], acts: &[Act]) -> bool
    ensures { (result ≡ true) ↔ AreLet event.now verdicts.now acts.now }
{
    acts.is_empty() || is_let(event, verdicts)
}
