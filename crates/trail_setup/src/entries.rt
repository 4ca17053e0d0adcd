//! What users have by their own entries, without what their leaders have.

ghost use Rattle.std.specs.Prelude.{◌≡◌, ◌||◌, [], true, IfOk, OnOk};
ghost use Rattle.acl.specs.declared.leaders.Edition.{Edition};
ghost use Rattle.acl.specs.declared.user_id.UserId.{UserId};
ghost use Rattle.acl.specs.History.{History, has, there};
ghost use Rattle.acl.specs.Same.{same_user};
ghost use Rattle.trail_setup.specs.Alone.{is_of_entries, FollowsAlone, HasEntries};

use acl::{Act, Bit, Edition, Object, UserId};
use hub::Rights;
use std::alloc::{AllocError, Global};
use trail_rights::may;

/// Users' own entries, after the acts that were followed.
#[derive(Drop)]
pub struct Entries {
    /// Follows all acts but those on leaders and locks: so nobody has a right by a leader.
    replay: Rights,
}

/// Whether entries follow from the act.
fn is_of_entries(act: Act) -> bool
    ensures { result ≡ is_of_entries act }
{
    matches!(
        act,
        Act::Known { .. }
            | Act::Gone { .. }
            | Act::Set { .. }
            | Act::Masked { .. }
            | Act::Preset { .. }
            | Act::Opened { .. }
            | Act::Closed { .. }
    )
}

impl Entries {
    /// Before the first act.
    pub fn new(alloc: Global, edition: Edition, owner: UserId) -> Result<Entries, AllocError>
        ensures { IfOk result (λ entries. HasEntries entries edition owner []) }
    {
        Ok(Entries {
            replay: Rights::new(alloc, edition, owner)?,
        })
    }

    /// Follows one act of a legal trail.
    pub fn follow(&mut self, act: Act) -> Result<(), AllocError>
        ensures { OnOk result (FollowsAlone self.old self.new act) }
    {
        if !is_of_entries(act) {
            return Ok(());
        }
        let _can_follow = self.replay.follow(act)?;
        Ok(())
    }

    /// Whether the user's own entry has the bit on an object that is there. The owner's has every bit.
    pub fn has(&self, user: UserId, bit: Bit, object: Object) -> bool
        ensures { (edition : Edition) (owner : UserId) (h : History) → HasEntries self.now edition owner h →
            there h object ≡ true → result ≡ (same_user owner user || has owner h user bit object) }
    {
        may(&self.replay, user, bit, object)
    }
}
