//! Whether users are confined on windows to come.

ghost use Rattle.std.specs.Prelude.{◌≡◌, IfOk, IfSome, filter, is_some, not, true};
ghost use Rattle.std.specs.List.{AllByRecursion, list_all, list_any};
ghost use Rattle.acl.specs.declared.leaders.Edition.{Edition};
ghost use Rattle.acl.specs.declared.user_id.UserId.{UserId};
ghost use Rattle.acl.specs.History.{History};
ghost use Rattle.hub.specs.Following.{StandsAfter};
ghost use Rattle.trail_confined.specs.Confining.{concerns, failing_of, holds, is_asked, premises_of};
ghost use Rattle.trail_rights.specs.Marks.{Marked, acts_in};
ghost use Rattle.trail_rights.specs.Settling.{HasSettled};
ghost use Rattle.trail_rights.specs.Seeing.{HasSeen};

use crate::premises::{Premise, may_open, premises_of};
use acl::{Bit, Object, UserId};
use hub::Rights;
use std::alloc::{AllocError, Global};
use trail_rights::{RightsSetting, Settler, Sight, may, settler_in};

/// Whether a premise holds. None if it is about a mask that wasn't looked for.
fn holds(replay: &Rights, settlers: &[Settler], premise: Premise) -> Option<bool>
    ensures holds { (edition : Edition) (owner : UserId) (marked : Marked) →
        StandsAfter replay.now edition owner (acts_in marked) →
        AllByRecursion (HasSettled marked) settlers.now →
        IfSome result (λ b. b ≡ holds edition owner (acts_in marked) premise) }
    ensures asked { is_some result ≡ is_asked settlers.now premise }
{
    match premise {
        Premise::NoPower { user, command } => {
            Some(!may(replay, user, Bit::Execute, Object::Command(command)))
        }
        Premise::IsKnown { user } => Some(replay.knows(user)),
        Premise::OpensNone { user } => Some(!may_open(replay, user)),
        Premise::Masks { opener, user, bit } => {
            let setting = RightsSetting::Mask {
                by: opener,
                user,
                bit,
            };
            match settler_in(settlers, setting) {
                Some(settler) => Some(!settler.value()),
                None => None,
            }
        }
    }
}

/// The premises that don't hold. None if one is about a mask that wasn't looked for.
fn failing_among(
    alloc: Global,
    replay: &Rights,
    settlers: &[Settler],
    premises: &[Premise],
) -> Result<Option<Vec<Premise>>, AllocError>
    ensures failing { (edition : Edition) (owner : UserId) (marked : Marked) →
        StandsAfter replay.now edition owner (acts_in marked) →
        AllByRecursion (HasSettled marked) settlers.now →
        IfOk result (λ o. IfSome o (λ failing. failing.items
        ≡ filter (λ p. not (holds edition owner (acts_in marked) p)) premises.now)) }
    ensures asked { IfOk result (λ o. is_some o ≡ list_all (is_asked settlers.now) premises.now) }
{
    let mut failing = Vec::new(alloc);
    for premise in premises {
        match holds(replay, settlers, *premise) {
            Some(true) => {}
            Some(false) => failing.push(*premise)?,
            None => return Ok(None),
        }
    }
    Ok(Some(failing))
}

/// The premises of the law on windows to come that don't hold for these users, after the acts that the
/// replay and the sight have followed. None if the sight didn't look for a mask that they are about.
pub fn failing_of(
    alloc: Global,
    replay: &Rights,
    sight: &Sight,
    users: &[UserId],
) -> Result<Option<Vec<Premise>>, AllocError>
    ensures failing { (edition : Edition) (owner : UserId) (marked : Marked) →
        StandsAfter replay.now edition owner (acts_in marked) → HasSeen sight.now owner marked →
        IfOk result (λ o. IfSome o (λ failing. failing.items
        ≡ failing_of edition owner (acts_in marked) users.now)) }
    ensures told { (edition : Edition) (owner : UserId) (h : History) →
        StandsAfter replay.now edition owner h →
        list_all (is_asked sight.now.settlers.items) (premises_of edition owner h users.now) ≡ true →
        IfOk result (λ o. is_some o ≡ true) }
{
    let premises = premises_of(alloc, replay, users)?;
    failing_among(alloc, replay, sight.settlers(), premises.as_slice())
}

/// Whether the law applies for a bit, if these are the premises that don't hold.
pub fn is_confined(failing: &[Premise], bit: Bit) -> bool
    ensures { result ≡ not (list_any (concerns bit) failing.now) }
{
    for premise in failing {
        if premise.concerns(bit) {
            return false;
        }
    }
    true
}
