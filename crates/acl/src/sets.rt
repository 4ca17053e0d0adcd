//! Acts that are planned, and the sets of a user's bits.

ghost use Rattle.std.specs.Prelude.{◌≡◌, ◌++◌, ◌∷◌, [], IfErr, OnOk, OnErr};
ghost use Rattle.acl.specs.Commands.{Keeps, sets_on, sets};

use acl_words::{AclFault, Act, BitChange, Object, UserId};

/// One step has at most this number of acts of list commands. A command that makes more is refused
/// as if memory were refused.
const MOST_ACTS: usize = 65_536;

/// Puts an act at the end. `NoMemory` if memory is refused, or if the command makes more acts than
/// one step may have.
pub fn push_act(acts: &mut Vec<Act>, act: Act) -> Result<(), AclFault>
    ensures ok { OnOk result (acts.new.items ≡ acts.old.items ++ act ∷ []) }
    ensures err { OnErr result (acts.new.items ≡ acts.old.items) }
    ensures memory { IfErr result (λ fault. fault ≡ AclFault.NoMemory) }
{
    if acts.len() >= MOST_ACTS || acts.push(act).is_err() {
        return Err(AclFault::NoMemory);
    }
    Ok(())
}

/// Plans the acts that set a user's bits on one object.
fn plan_sets_on(
    user: UserId,
    changes: &[BitChange],
    object: Object,
    acts: &mut Vec<Act>,
) -> Result<(), AclFault>
    ensures ok { OnOk result (acts.new.items ≡ acts.old.items ++ sets_on user changes.now object) }
    ensures err { OnErr result (Keeps acts.old.items acts.new.items) }
    ensures memory { IfErr result (λ fault. fault ≡ AclFault.NoMemory) }
{
    for change in changes {
        push_act(
            acts,
            Act::Set {
                user,
                bit: change.bit,
                object,
                value: change.value,
            },
        )?;
    }
    Ok(())
}

/// Plans the acts that set a user's bits, object by object.
pub fn plan_sets(
    user: UserId,
    changes: &[BitChange],
    objects: &[Object],
    acts: &mut Vec<Act>,
) -> Result<(), AclFault>
    ensures ok { OnOk result
        (acts.new.items ≡ acts.old.items ++ sets user changes.now objects.now) }
    ensures err { OnErr result (Keeps acts.old.items acts.new.items) }
    ensures memory { IfErr result (λ fault. fault ≡ AclFault.NoMemory) }
{
    for object in objects {
        plan_sets_on(user, changes, *object, acts)?;
    }
    Ok(())
}
