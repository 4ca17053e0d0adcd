//! Acts that are followed at once: a user's bits set on one object after another.

ghost use Rattle.std.specs.Prelude.{◌≡◌, ◌++◌, ◌<◌, true, IfOk, IfSome, OnOk, length};
ghost use Rattle.std.specs.List.{AllByRecursion};
ghost use Rattle.acl.specs.Commands.{sets, sets_on};
ghost use Rattle.acl.specs.declared.act.Act.TheVariants.{Set};
ghost use Rattle.rights.specs.Runs.{IsUnlocked};

use acl::{Act, Bit, BitChange, Object, UserId};
use std::alloc::{AllocError, Global};
use writelock::Locks;

/// The most changes of bits that are looked for on one object: one of each bit.
const MOST: usize = 3;

/// Changes of a user's bits, and the objects on which they are made, one after another.
#[derive(Drop)]
pub struct BitRun {
    pub changes: Vec<BitChange>,
    pub objects: Vec<Object>,
}

/// Whether the object is there, and nobody holds its lock.
fn is_unlocked(locks: &Locks, object: Object) -> bool
    ensures { result ≡ true → IsUnlocked locks.now object }
{
    match object {
        Object::Window(window) => locks.mode(window).is_some() && locks.holder(window).is_none(),
        Object::Command(_) => true,
    }
}

/// Whether both name the same user, bit and object.
fn is_same_question(asked: (UserId, Bit, Object), other: (UserId, Bit, Object)) -> bool
    ensures { result ≡ true → asked ≡ other }
{
    asked.0 == other.0 && asked.1 == other.1 && asked.2 == other.2
}

/// Whether the act makes this change of the user's bits on the object.
fn is_set(act: Act, user: UserId, change: BitChange, object: Object) -> bool
    ensures { result ≡ true → act ≡ Set user change.bit object change.value }
{
    match act {
        Act::Set {
            user: named,
            bit,
            object: on,
            value,
        } => {
            is_same_question((named, bit, on), (user, change.bit, object)) && value == change.value
        }
        _ => false,
    }
}

/// Whether the acts make these changes of the user's bits on the object.
fn are_sets(acts: &[Act], user: UserId, changes: &[BitChange], object: Object) -> bool
    ensures { result ≡ true → acts.now ≡ sets_on user changes.now object }
{
    if acts.len() != changes.len() {
        return false;
    }
    'places: for i in 0..acts.len() {
        if !is_set(acts[i], user, changes[i], object) {
            return false;
        }
    }
    true
}

/// The object of the first act, if the acts begin with these changes of the user's bits on it, nobody holds
/// its lock, and there are changes; and the acts after those.
fn next_object<'a>(
    locks: &Locks,
    user: UserId,
    changes: &[BitChange],
    acts: &'a [Act],
) -> Option<(Object, &'a [Act])>
    ensures acts { IfSome result (λ r. acts.now ≡ sets_on user changes.now r.0 ++ r.1.now) }
    ensures unlocked { IfSome result (λ r. IsUnlocked locks.now r.0) }
    ensures shorter { IfSome result (λ r. length r.1.now < length acts.now) }
{
    let [Act::Set { object, .. }, ..] = acts else {
        return None;
    };
    if changes.is_empty() || changes.len() > acts.len() {
        return None;
    }
    let front = &acts[..changes.len()];
    if !are_sets(front, user, changes, *object) || !is_unlocked(locks, *object) {
        return None;
    }
    Some((*object, &acts[changes.len()..]))
}

/// The change of a bit that an act makes, if it is on the object of this other act.
fn change_beside(act: Act, first: Act) -> Option<BitChange> {
    match (act, first) {
        (
            Act::Set {
                bit,
                object,
                value,
                ..
            },
            Act::Set { object: on, .. },
        ) if object == on => Some(BitChange { bit, value }),
        _ => None,
    }
}

impl BitRun {
    /// No change, and no object.
    pub fn new(alloc: Global) -> BitRun {
        BitRun {
            changes: Vec::new(alloc),
            objects: Vec::new(alloc),
        }
    }

    /// Reads the changes that the first acts make on the object of the first one.
    fn read_changes(&mut self, acts: &[Act]) -> Result<(), AllocError> {
        self.changes.clear();
        for act in acts.iter().take(MOST) {
            match change_beside(*act, acts[0]) {
                Some(change) => self.changes.push(change)?,
                None => return Ok(()),
            }
        }
        Ok(())
    }

    /// Reads acts that make the same changes of the user's bits on one object after another, as long as
    /// nobody holds the lock of an object. Returns the acts after them.
    pub fn read<'a>(
        &mut self,
        locks: &Locks,
        user: UserId,
        acts: &'a [Act],
    ) -> Result<&'a [Act], AllocError>
        ensures acts { IfOk result (λ rest.
            acts.now ≡ sets user self.new.changes.items self.new.objects.items ++ rest.now) }
        ensures unlocked { OnOk result (AllByRecursion (IsUnlocked locks.now) self.new.objects.items) }
    {
        self.read_changes(acts)?;
        self.objects.clear();
        let mut rest = acts;
        'objects: while let Some((object, behind)) = next_object(
            locks,
            user,
            self.changes.as_slice(),
            rest,
        ) {
            self.objects.push(object)?;
            rest = behind;
        }
        Ok(rest)
    }
}
