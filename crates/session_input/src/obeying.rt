//! How a client's commands by keys are obeyed, and what the client is told of them.

ghost use Rattle.std.specs.Prelude.{◌≡◌, Ok, Some, IfOk, IfErr, OnOk};
ghost use Rattle.session_model.specs.Answering.{message_of};
ghost use Rattle.session_model.specs.declared.refusal.Refusal.TheVariants.{NoMemory};
ghost use Rattle.session_state.specs.Doing.{IsWhole};
ghost use Rattle.session_input.specs.Obeying.{Obeys};

use crate::orders::order;
use crate::saying::{say, say_why, wants_memory};
use command_lang::{Command, ParseFault};
use session_model::{Bytes, Refusal, StatusMessage};
use session_state::{KeyCaller, State, Step};
use std::alloc::{AllocError, Global};

/// The message for what a command lists. Each draw makes the lists of windows and of clients
/// again.
fn message_of(alloc: Global, command: &Command, text: &Bytes) -> Result<StatusMessage, AllocError>
    ensures { IfOk result (λ message. message ≡ message_of command.now text.now) }
{
    match command {
        Command::Windows => Ok(StatusMessage::AllWindows),
        Command::Displays => Ok(StatusMessage::AllClients),
        _ => Ok(StatusMessage::Text(Bytes::of(alloc, text.as_slice())?)),
    }
}

/// Obeys a command of a client, and tells the client what it lists, or why it is refused.
fn obey_command(
    state: &mut State,
    by: KeyCaller,
    command: &Command,
    step: &mut Step,
) -> Result<(), Refusal>
    ensures ok { OnOk result (Obeys by.caller by.client (Some (Ok command.now)) state.old state.new
        step.old step.new) }
    ensures memory { IfErr result (λ refusal. refusal ≡ NoMemory) }
    ensures whole { IsWhole result state.old state.new step.old.made step.new.made }
{
    match order(state, by.caller, command, step) {
        Ok(None) => Ok(()),
        Ok(Some(text)) => {
            let message = message_of(state.alloc, command, &text)?;
            say(state, by.client, message, text, &mut step.made)
        }
        Err(refusal) => {
            if wants_memory(&refusal) {
                return Err(refusal);
            }
            step.made.acts.reserve(64)?;
            say_why(state, by.client, refusal, &mut step.made)
        }
    }
}

/// Obeys a command that a client gives by keys, or tells the client the fault of its line.
pub fn obey(
    state: &mut State,
    by: KeyCaller,
    order: &Result<Command, ParseFault>,
    step: &mut Step,
) -> Result<(), Refusal>
    ensures ok { OnOk result (Obeys by.caller by.client (Some order.now) state.old state.new
        step.old step.new) }
    ensures memory { IfErr result (λ refusal. refusal ≡ NoMemory) }
    ensures whole { IsWhole result state.old state.new step.old.made step.new.made }
{
    match order {
        Ok(command) => obey_command(state, by, command, step),
        Err(fault) => {
            step.made.acts.reserve(64)?;
            say_why(state, by.client, Refusal::Line(*fault), &mut step.made)
        }
    }
}
