//! How the acts of a list command are carried out.

ghost use Rattle.std.specs.Prelude.{◌≡◌, ◌+◌, ◌≤◌, ◌<◌, count_by, take, drop, vec_len, OnOk, OnErr};
ghost use Rattle.std.specs.Prelude.{IfErr, Ok, Err, Option};
ghost use Rattle.indexmap.specs.IndexMap.{spare};
ghost use Rattle.std.specs.Vec.{vec_capacity};
ghost use Rattle.acl.specs.Commands.{Answers, makes_known, sets_mask};
ghost use Rattle.acl.specs.Deeds.{TakesAll, FollowsAll};
ghost use Rattle.acl.specs.Lists.{table_of};

use crate::lists::{Follower, Lists};
use acl_words::{AclFault, Act};

/// The acts of a list command: whether planning them succeeded, the index in the list of acts at
/// which they begin, and for how many further acts there is to be room.
#[derive(Drop)]
pub struct Plan {
    pub planned: Result<(), AclFault>,
    pub start: usize,
    pub room: usize,
}

/// The number of acts by which a name becomes known.
fn count_known(acts: &[Act]) -> usize
    ensures { result ≡ count_by makes_known acts.now }
{
    acts.iter()
        .filter(|act| matches!(act, Act::Known { .. }))
        .count()
}

/// The number of acts that set a mask.
fn count_masked(acts: &[Act]) -> usize
    ensures { result ≡ count_by sets_mask acts.now }
{
    acts.iter()
        .filter(|act| matches!(act, Act::Masked { .. }))
        .count()
}

/// Makes room in the lists for the acts from `start` on, and in the list of acts for `room` more.
fn make_room(
    lists: &mut Lists,
    room: usize,
    start: usize,
    acts: &mut Vec<Act>,
) -> Result<(), AclFault>
    requires { start ≤ vec_len acts.old }
    ensures rows { OnOk result
        (count_by makes_known (drop start acts.old.items) ≤ spare lists.new.rows) }
    ensures masks { OnOk result
        (count_by sets_mask (drop start acts.old.items) ≤ spare lists.new.masks) }
    ensures room { OnOk result (vec_len acts.new + room ≤ vec_capacity acts.new) }
    ensures acts { acts.new.items ≡ acts.old.items }
    ensures len { vec_len acts.new ≡ vec_len acts.old }
    ensures same { table_of lists.new ≡ table_of lists.old }
    ensures memory { IfErr result (λ fault. fault ≡ AclFault.NoMemory) }
{
    if acts.reserve(room).is_err() {
        return Err(AclFault::NoMemory);
    }
    let planned = &acts.as_slice()[start..];
    if lists.rows.reserve(count_known(planned)).is_err() {
        return Err(AclFault::NoMemory);
    }
    if lists.masks.reserve(count_masked(planned)).is_err() {
        return Err(AclFault::NoMemory);
    }
    Ok(())
}

/// Does these acts in order, after room was made for them, and tells the follower of each.
fn apply_all<F: Follower>(lists: &mut Lists, acts: &[Act], follower: &mut F)
    requires rows { count_by makes_known acts.now ≤ spare lists.old.rows }
    requires masks { count_by sets_mask acts.now ≤ spare lists.old.masks }
    ensures stands { TakesAll (table_of lists.old) (table_of lists.new) acts.now }
    ensures follower { FollowsAll (F.follows follower.old) (F.follows follower.new)
        (table_of lists.old) acts.now }
{
    for act in acts {
        lists.apply(*act);
        follower.follow(lists, *act);
    }
}

/// If the acts were planned without a fault, does them, with room for `plan.room` more. Else takes
/// them back and answers the fault.
pub fn conclude<F: Follower>(
    lists: &mut Lists,
    plan: Plan,
    acts: &mut Vec<Act>,
    follower: &mut F,
) -> Result<(), AclFault>
    requires { plan.start ≤ vec_len acts.old }
    ensures answer { (fault : Option AclFault) → Answers plan.planned fault
        → Answers result fault }
    ensures acts { OnOk result (acts.new.items ≡ acts.old.items) }
    ensures stands { OnOk result
        (TakesAll (table_of lists.old) (table_of lists.new) (drop plan.start acts.old.items)) }
    ensures follower { OnOk result (FollowsAll (F.follows follower.old) (F.follows follower.new)
        (table_of lists.old) (drop plan.start acts.old.items)) }
    ensures room { OnOk result (vec_len acts.new + plan.room ≤ vec_capacity acts.new) }
    ensures ok { OnOk result (plan.planned ≡ Ok tt) }
    ensures err { OnErr result ((table_of lists.new ≡ table_of lists.old)
        × (acts.new.items ≡ take plan.start acts.old.items) × (follower.new ≡ follower.old)) }
{
    let Plan {
        planned,
        start,
        room,
    } = plan;
    let ready = match planned {
        Ok(()) => make_room(lists, room, start, acts),
        Err(fault) => Err(fault),
    };
    if let Err(fault) = ready {
        acts.truncate(start);
        return Err(fault);
    }
    apply_all(lists, &acts.as_slice()[start..], follower);
    Ok(())
}
