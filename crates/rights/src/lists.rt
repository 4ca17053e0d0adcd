//! Acts of list commands. Each act is done again by the list command that does this act alone.

ghost use Rattle.std.specs.Prelude.{◌≡◌, ◌<◌, true, IfNone, IfOk, IfSome, length};
ghost use Rattle.acl.specs.declared.act.Act.TheVariants.{Known, Gone, Set, Grouped, Masked, Preset};
ghost use Rattle.acl.specs.declared.leaders.Edition.{Edition};
ghost use Rattle.acl.specs.declared.user_id.UserId.{UserId};
ghost use Rattle.acl.specs.History.{History};
ghost use Rattle.rights.specs.Following.{Redoes, Tells, StandsAfter, is_nameable, FollowsFront, SetsAll};
ghost use Rattle.rights.specs.Acts.{leader_in};

use crate::rights::Rights;
use crate::runs::BitRun;
use acl::{
    AclFault, Act, Bit, BitChange, LeaderChange, MaskChange, MaskEntry, MaskScope, NewLeader,
    Object, PresetKind, RightsChange, UserId,
};
use std::alloc::AllocError;

/// Whether a list command was done; an error if memory was refused.
fn redone(done: Result<(), AclFault>) -> Result<bool, AllocError>
    ensures { Tells done result }
{
    match done {
        Ok(()) => Ok(true),
        Err(AclFault::NoMemory) => Err(AllocError),
        Err(_) => Ok(false),
    }
}

/// Whether a list command may name the user: the user is known, and isn't the owner.
fn is_nameable(rights: &Rights, user: UserId) -> bool
    ensures { (edition : Edition) (owner : UserId) (h : History) →
        StandsAfter rights.now edition owner h → result ≡ is_nameable owner h user }
{
    if rights.acl.owner() == user {
        return false;
    }
    rights.acl.lists().knows(user)
}

/// A user becomes known.
pub fn know(rights: &mut Rights, user: UserId) -> Result<bool, AllocError>
    ensures { Redoes rights.old rights.new result (Known user) }
{
    if rights.acl.lists().knows(user) {
        return Ok(false);
    }
    rights.scratch.clear();
    redone(
        rights.acl.change(
            RightsChange {
                names: &[Some(user)],
                changes: &[],
                objects: &[],
            },
            &mut rights.scratch,
            0,
            &mut rights.locks,
        ),
    )
}

/// A user is known no more.
pub fn forget(rights: &mut Rights, user: UserId) -> Result<bool, AllocError>
    ensures { Redoes rights.old rights.new result (Gone user) }
{
    rights.scratch.clear();
    redone(
        rights
            .acl
            .remove(Some(user), &mut rights.scratch, 0, &mut rights.locks),
    )
}

/// A user's bit on an object is set.
pub fn set(
    rights: &mut Rights,
    user: UserId,
    bit: Bit,
    object: Object,
    value: bool,
) -> Result<bool, AllocError>
    ensures { Redoes rights.old rights.new result (Set user bit object value) }
{
    if !is_nameable(rights, user) {
        return Ok(false);
    }
    if !rights.is_there(object) {
        return Ok(false);
    }
    rights.scratch.clear();
    redone(
        rights.acl.change(
            RightsChange {
                names: &[Some(user)],
                changes: &[BitChange { bit, value }],
                objects: &[object],
            },
            &mut rights.scratch,
            0,
            &mut rights.locks,
        ),
    )
}

/// A user's bits on objects are set by one list command. The locks aren't told.
fn set_all(
    rights: &mut Rights,
    user: UserId,
    changes: &[BitChange],
    objects: &[Object],
) -> Result<bool, AllocError>
    ensures { IfOk result (λ done. done ≡ true
        → SetsAll rights.old rights.new user changes.now objects.now) }
{
    rights.scratch.clear();
    let change = RightsChange {
        names: &[Some(user)],
        changes,
        objects,
    };
    redone(rights.acl.change(change, &mut rights.scratch, 0, &mut ()))
}

/// Does at once the acts at the front that set bits of one user, as far as nobody holds the lock of an object,
/// and returns the acts after them; `None` if the first act isn't one of them.
pub fn follow_run<'a>(
    rights: &mut Rights,
    run: &mut BitRun,
    acts: &'a [Act],
) -> Result<Option<&'a [Act]>, AllocError>
    ensures some { IfOk result (λ r. IfSome r
        (λ rest. FollowsFront rights.old rights.new acts.now rest.now)) }
    ensures none { IfOk result (λ r. IfNone r (rights.new ≡ rights.old)) }
    ensures shorter { IfOk result (λ r. IfSome r (λ rest. length rest.now < length acts.now)) }
{
    let [Act::Set { user, .. }, ..] = acts else {
        return Ok(None);
    };
    if !is_nameable(rights, *user) {
        return Ok(None);
    }
    let rest = run.read(&rights.locks, *user, acts)?;
    if rest.len() >= acts.len() {
        return Ok(None);
    }
    // A user who may be named is refused only for want of memory.
    if !set_all(
        rights,
        *user,
        run.changes.as_slice(),
        run.objects.as_slice(),
    )? {
        return Err(AllocError);
    }
    Ok(Some(rest))
}

/// The leader that an act gives a user, as the list command takes it.
fn leader_in(leader: Option<UserId>) -> NewLeader
    ensures { result ≡ leader_in leader }
{
    match leader {
        Some(_) => NewLeader::Named(leader),
        None => NewLeader::Nobody,
    }
}

/// A user is given a leader, or loses all leaders.
pub fn group(rights: &mut Rights, user: UserId, leader: Option<UserId>) -> Result<bool, AllocError>
    ensures { Redoes rights.old rights.new result (Grouped user leader) }
{
    rights.scratch.clear();
    redone(
        rights.acl.group(
            LeaderChange {
                name: Some(user),
                leader: leader_in(leader),
            },
            &mut rights.scratch,
            0,
            &mut rights.locks,
        ),
    )
}

/// A bit of a user's mask is set.
pub fn mask(
    rights: &mut Rights,
    by: UserId,
    user: UserId,
    bit: Bit,
    value: bool,
) -> Result<bool, AllocError>
    ensures { Redoes rights.old rights.new result (Masked by user bit value) }
{
    rights.scratch.clear();
    redone(
        rights.acl.mask(
            MaskChange {
                by,
                entries: &[MaskEntry {
                    scope: MaskScope::User(Some(user)),
                    bit,
                    value,
                }],
            },
            &mut rights.scratch,
            0,
            &mut rights.locks,
        ),
    )
}

/// A bit of a preset is set.
pub fn preset(
    rights: &mut Rights,
    kind: PresetKind,
    bit: Bit,
    value: bool,
) -> Result<bool, AllocError>
    ensures { Redoes rights.old rights.new result (Preset kind bit value) }
{
    let by = rights.acl.owner();
    rights.scratch.clear();
    redone(
        rights.acl.mask(
            MaskChange {
                by,
                entries: &[MaskEntry {
                    scope: MaskScope::Preset(kind),
                    bit,
                    value,
                }],
            },
            &mut rights.scratch,
            0,
            &mut rights.locks,
        ),
    )
}
