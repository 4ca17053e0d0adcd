//! A step of keys.

ghost use Rattle.std.specs.Prelude.{◌≡◌, Some, None, IfOk, IfErr, OnOk, OnErr};
ghost use Rattle.session_model.specs.declared.refusal.Refusal.TheVariants.{NoMemory};
ghost use Rattle.session_state.specs.Doing.{HasRoomToLeave, IsAsBefore};
ghost use Rattle.session_input.specs.Reads.{Reads};
ghost use Rattle.session_input.specs.KeyStepping.{caller_now, IsHere, ReadsOf, ObeysRead, Gives, Ends};
ghost use Rattle.session_model.specs.Trace.{Keys};
ghost use Rattle.session_input.specs.Stepping.{Steps};

use crate::given::command_given;
use crate::obeying::obey;
use crate::typing::type_bytes;
use command_lang::{Command, ParseFault};
use keys::KeyReader;
use session_events::{Focuses, drop_said, leave};
use session_model::{Bytes, Done, Refusal, Reply, StatusMessage};
use session_state::{Caller, Client, KeyCaller, KeyOrder, State, Step, read_keys};
use std::alloc::{AllocError, Global};

/// What a step reads of a client's keys.
#[derive(Drop)]
struct KeysRead {
    /// How many there are.
    taken: usize,
    /// What they type.
    typed: Bytes,
    /// The command that the last of them gives, or the fault of its line.
    order: Option<Result<Command, ParseFault>>,
}

/// The caller of a command that this client's keys give.
fn caller_of(row: &Client) -> Caller
    ensures { result ≡ caller_now row.now }
{
    Caller {
        user: row.user,
        client: Some(row.serial),
        window: row.layout.focused().window,
    }
}

/// Reads keys of a client up to the first one that completes a command or a line. After an `Err` the
/// reader has read some of them.
fn read(alloc: Global, reader: &mut KeyReader, bytes: &[u8]) -> Result<KeysRead, AllocError>
    ensures { IfOk result (ReadsOf reader.old bytes.now reader.new) }
{
    let reading = read_keys(alloc, reader, bytes)?;
    let order = command_given(alloc, reading.order, reader.line())?;
    Ok(KeysRead {
        taken: reading.taken,
        typed: reading.typed,
        order,
    })
}

/// A client whose row has this reader and message gives the command that its keys complete.
fn obey_read(
    state: &mut State,
    given: &KeyOrder,
    reader: &mut KeyReader,
    mut message: StatusMessage,
    step: &mut Step,
) -> Result<(), Refusal>
    ensures ok { OnOk result (ObeysRead given.now.by.caller given.now.by.client reader.old message
        given.now.order state.old state.new step.old step.new) }
    ensures err { IsHere given.now.by.client state.old
        → OnErr result (IsAsBefore state.old state.new step.old.made step.new.made) }
    ensures memory { IfErr result (λ refusal. refusal ≡ NoMemory) }
    ensures room { OnOk result (HasRoomToLeave step.new.made) }
{
    let client = given.by.client;
    state.clients.exchange(client, reader, &mut message);
    match obey(state, given.by, &given.order, step) {
        Ok(()) => Ok(()),
        Err(refusal) => {
            state.clients.exchange(client, reader, &mut message);
            Err(refusal)
        }
    }
}

/// A client gives keys that complete a command: they are typed, and then the command is obeyed.
fn give(
    state: &mut State,
    given: &KeyOrder,
    reader: &mut KeyReader,
    typed: Bytes,
    step: &mut Step,
) -> Result<(), Refusal>
    ensures ok { OnOk result (Gives given.now.by.caller given.now.by.client reader.old typed
        (Some given.now.order) state.old state.new step.old step.new) }
    ensures err { IsHere given.now.by.client state.old
        → OnErr result (IsAsBefore state.old state.new step.old.made step.new.made) }
    ensures memory { IfErr result (λ refusal. refusal ≡ NoMemory) }
    ensures room { OnOk result (HasRoomToLeave step.new.made) }
{
    let start = step.made.effects.len();
    let message = type_bytes(state, given.by, typed, step)?;
    let end = step.made.effects.len();
    match obey_read(state, given, reader, message, step) {
        Ok(()) => {
            drop_said(&mut step.made.effects, start, end);
            Ok(())
        }
        Err(refusal) => {
            step.made.effects.truncate(start);
            Err(refusal)
        }
    }
}

/// Takes keys that complete a command. Users may leave windows by it.
fn give_order(
    state: &mut State,
    given: &KeyOrder,
    reader: &mut KeyReader,
    typed: Bytes,
    step: &mut Step,
) -> Result<(), Refusal>
    ensures ok { OnOk result (Ends given.now.by.caller given.now.by.client reader.old typed
        (Some given.now.order) state.old state.new step.old step.new) }
    ensures err { IsHere given.now.by.client state.old
        → OnErr result (IsAsBefore state.old state.new step.old.made step.new.made) }
    ensures memory { IfErr result (λ refusal. refusal ≡ NoMemory) }
{
    let focuses = Focuses::of(state);
    give(state, given, reader, typed, step)?;
    leave(state, &focuses, &mut step.made);
    Ok(())
}

/// Takes keys that complete no command: they are typed. Each client shows what it showed before, so
/// nobody leaves a window.
fn give_typed(
    state: &mut State,
    by: KeyCaller,
    reader: &mut KeyReader,
    typed: Bytes,
    step: &mut Step,
) -> Result<(), Refusal>
    ensures ok { OnOk result (Ends by.caller by.client reader.old typed None
        state.old state.new step.old step.new) }
    ensures err { OnErr result (IsAsBefore state.old state.new step.old.made step.new.made) }
    ensures memory { IfErr result (λ refusal. refusal ≡ NoMemory) }
{
    let mut message = type_bytes(state, by, typed, step)?;
    state.clients.exchange(by.client, reader, &mut message);
    Ok(())
}

/// Takes a step of a client's keys: they are read up to the first one that completes a command or a
/// line of the prompt. What they type goes to the window in focus, the command is obeyed, the client is
/// told once of each refusal, and then users leave windows. Returns how many keys were read.
pub fn keys(state: &mut State, client: u32, bytes: &[u8], step: &mut Step) -> Result<usize, Refusal>
    ensures answer { Reads client bytes.now state.old result state.new step.old step.new }
    ensures err { OnErr result (IsAsBefore state.old state.new step.old.made step.new.made) }
{
    let Some(row) = state.clients.get(client) else {
        return Err(Refusal::NoWindow);
    };
    let caller = caller_of(row);
    let by = KeyCaller { caller, client };
    let mut reader = row.keys.copied();
    let KeysRead {
        taken,
        typed,
        order,
    } = read(state.alloc, &mut reader, bytes)?;
    match order {
        Some(order) => give_order(state, &KeyOrder { by, order }, &mut reader, typed, step)?,
        None => give_typed(state, by, &mut reader, typed, step)?,
    }
    Ok(taken)
}

/// Takes the keys of a client, up to the first that completes a command or a line. Users leave windows
/// only if there is one.
pub fn give_keys(state: &mut State, client: u32, bytes: &[u8], step: &mut Step) -> Reply
    ensures step { Steps (Keys client bytes.now) state.old result state.new step.old step.new }
    ensures err { OnErr result (IsAsBefore state.old state.new step.old.made step.new.made) }
{
    let taken = keys(state, client, bytes, step)?;
    Ok(Done {
        taken,
        made: 0,
        number: 0,
        text: None,
    })
}
