//! Commands on the access lists: which users are known, what they may do, and whom they follow; and on write locks.

ghost use Rattle.std.specs.Prelude.{◌≡◌, None, Some};
ghost use Rattle.command_lang.specs.declared.command.Command.TheVariants as command;
ghost use Rattle.session_model.specs.Tables.{Tables};
ghost use Rattle.session_state.specs.declared.state.StepOutput.{StepOutput};
ghost use Rattle.session_state.specs.Doing as doing;
ghost use Rattle.session_state.specs.Stands.{Stands};
ghost use Rattle.session_commands.specs.Asked.{answered, refusal_of};
ghost use Rattle.session_commands.specs.Contexts.{Does, DoesForAll, DoesIf, HasRoomToAct};
ghost use Rattle.session_state.specs.Leaders.{IsKnownUser};

use crate::giver::{CommandReply, Context};
use crate::going::{Going, attached, gone_clients, note_parted};
use crate::masks::entries_of;
use crate::names::{named, names_of, new_leader};
use crate::objects::{every_object, objects_of};
use acl::{AclFault, Act, LeaderChange, LockMode, MaskChange, NewUsers, RightsChange, UserId};
use command_lang::{BitList, Leader, Masks, Text, Texts, Users};
use session_model::{Reason, Refusal};
use session_state::{Caller, State, leaders_text};

/// The most acts that may follow those of a command in its step: one for each client that leaves a
/// window.
const ROOM: usize = 64;

/// The refusal for a fault of the access lists.
fn refusal_of(fault: AclFault) -> Refusal
    ensures { result ≡ refusal_of fault }
{
    match fault {
        AclFault::NoMemory => Refusal::NoMemory,
        _ => Refusal::Acl(fault),
    }
}

/// The answer of a command on the lists, which was done or refused.
fn answered(done: Result<(), AclFault>) -> CommandReply
    ensures { result ≡ answered done }
{
    match done {
        Ok(()) => Ok(None),
        Err(fault) => Err(refusal_of(fault)),
    }
}

/// `acladd`: makes users known, and gives them each bit on each window and command.
pub fn acladd(context: &mut Context, users: &Users) -> CommandReply
    ensures { DoesForAll (command.Acladd users.now) context.old result context.new }
{
    let (state, made) = (&mut *context.state, &mut *context.made);
    let names = names_of(state.alloc, &state.acl, users)?;
    let objects = every_object(state.alloc, &state.windows)?;
    let users = NewUsers {
        names: &names,
        objects: &objects,
    };
    let (acts, locks) = (&mut made.acts, &mut state.locks);
    answered(state.acl.add(users, acts, ROOM, locks))
}

/// `acldel`: removes a user's clients, and then the user.
pub fn acldel(context: &mut Context, word: &str) -> CommandReply
    ensures { DoesForAll (command.Acldel word.now) context.old result context.new }
{
    let Some(user) = UserId::of(word.as_bytes()) else {
        return Err(Refusal::Acl(AclFault::ReservedName));
    };
    let (state, made) = (&mut *context.state, &mut *context.made);
    let going = Going::Of(user);
    let clients = state.clients.as_slice();
    let mut rows = attached(state.alloc, clients)?;
    let mut gone = gone_clients(state.alloc, clients, going, Reason::Removed)?;
    made.acts.reserve(clients.len() + 65)?;
    made.effects.reserve(gone.len())?;
    let start = made.acts.len();
    let mut locks = state.locks;
    note_parted(clients, going, &mut rows, &mut locks, &mut made.acts);
    if let Err(fault) = state.acl.remove(Some(user), &mut made.acts, 64, &mut locks) {
        made.acts.truncate(start);
        return Err(refusal_of(fault));
    }
    made.effects.append(&mut gone).unwrap();
    state.locks = locks;
    state.clients.remove_of(user);
    Ok(None)
}

/// `aclchg`: gives users bits on the objects of a list, or takes them. If a name is wrong and an item
/// names nothing, the name's fault is the answer.
pub fn aclchg(context: &mut Context, users: &Users, bits: &BitList, list: &Texts) -> CommandReply
    ensures { DoesForAll (command.Aclchg users.now bits.now list.now)
        context.old result context.new }
{
    let (state, made) = (&mut *context.state, &mut *context.made);
    let names = names_of(state.alloc, &state.acl, users)?;
    if let Some(fault) = state.acl.change_fault(&names) {
        return Err(Refusal::Acl(fault));
    }
    let objects = objects_of(state.alloc, &state.windows, list.as_slice())?;
    let change = RightsChange {
        names: &names,
        changes: bits.as_slice(),
        objects: &objects,
    };
    let (acts, locks) = (&mut made.acts, &mut state.locks);
    answered(state.acl.change(change, acts, ROOM, locks))
}

/// `aclgrp` with a leader: the user follows that leader, or nobody if it is `none`.
pub fn aclgrp(context: &mut Context, name: &Text, leader: &Leader) -> CommandReply
    ensures { DoesForAll (command.Aclgrp name.now (Some leader.now))
        context.old result context.new }
{
    let (state, made) = (&mut *context.state, &mut *context.made);
    let change = LeaderChange {
        name: named(name),
        leader: new_leader(leader),
    };
    let (acts, locks) = (&mut made.acts, &mut state.locks);
    answered(state.acl.group(change, acts, ROOM, locks))
}

/// The known user, other than the owner, that a word names, or why a command on the lists is refused.
fn known_user(state: &State, word: &str) -> Result<UserId, AclFault>
    ensures { (t : Tables) → Stands t state.now → IsKnownUser t word.now result }
{
    let Some(user) = UserId::of(word.as_bytes()) else {
        return Err(AclFault::ReservedName);
    };
    if state.acl.owner() == user {
        return Err(AclFault::OwnerKept);
    }
    if !state.acl.knows(user) {
        return Err(AclFault::UnknownUser);
    }
    Ok(user)
}

/// `aclgrp` without a leader: lists a user's leaders.
pub fn aclgrp_of(state: &State, caller: Caller, name: &str) -> CommandReply
    ensures { (made : StepOutput)
        → doing.Does caller (command.Aclgrp name.now None) state.now result state.now made made }
{
    match known_user(state, name) {
        Ok(user) => Ok(Some(leaders_text(state, user)?)),
        Err(fault) => Err(Refusal::Acl(fault)),
    }
}

/// `aclumask`: sets what users get on windows that the caller opens later, and the presets.
pub fn aclumask(context: &mut Context, caller: Caller, masks: &Masks) -> CommandReply
    ensures { Does caller (command.Aclumask masks.now) context.old result context.new }
{
    let (state, made) = (&mut *context.state, &mut *context.made);
    let entries = entries_of(state.alloc, &state.acl, masks.as_slice())?;
    let change = MaskChange {
        by: caller.user,
        entries: &entries,
    };
    let (acts, locks) = (&mut made.acts, &mut state.locks);
    answered(state.acl.mask(change, acts, ROOM, locks))
}

/// `writelock`: sets the lock mode of the caller's window. Then the caller holds the lock, or nobody in
/// mode off.
pub fn writelock(context: &mut Context, caller: Caller, window: u32, mode: LockMode) -> CommandReply
    requires { HasRoomToAct context.old }
    ensures { DoesIf (caller.window ≡ Some window) caller (command.Writelock mode)
        context.old result context.new }
{
    let by = caller.user;
    context
        .made
        .acts
        .push(Act::Mode { by, window, mode })
        .unwrap();
    context.state.locks.set_mode(by, window, mode);
    Ok(None)
}

/// `defwritelock`: sets the lock mode of windows that are opened later.
pub fn defwritelock(context: &mut Context, mode: LockMode) -> CommandReply
    requires { HasRoomToAct context.old }
    ensures { DoesForAll (command.Defwritelock mode) context.old result context.new }
{
    context.made.acts.push(Act::Default { mode }).unwrap();
    context.state.locks.set_default(mode);
    Ok(None)
}
