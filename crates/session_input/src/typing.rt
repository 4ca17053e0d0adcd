//! The bytes that keys type.

ghost use Rattle.std.specs.Prelude.{◌≡◌, ◌++◌, ◌∷◌, [], IfOk, IfErr, OnOk, OnErr};
ghost use Rattle.session_model.specs.Texts.{text_of};
ghost use Rattle.session_model.specs.declared.event.Effect.TheVariants.{Say};
ghost use Rattle.session_model.specs.declared.event.StatusMessage.TheVariants.{Text};
ghost use Rattle.session_model.specs.declared.refusal.Refusal.TheVariants.{NoMemory};
ghost use Rattle.session_input.specs.Typing.{Types, Grows, input_to};

use crate::saying::{wants_memory, why};
use session_checks::check_typing;
use session_model::{Bytes, Effect, Refusal, StatusMessage};
use session_state::{KeyCaller, State, Step};
use std::alloc::{AllocError, Global};

/// Sends bytes to a window's program.
fn put_typed(window: Option<u32>, typed: Bytes, effects: &mut Vec<Effect>) -> Result<(), AllocError>
    ensures ok { OnOk result (effects.new.items ≡ effects.old.items ++ input_to window typed) }
    ensures err { OnErr result (effects.new.items ≡ effects.old.items) }
{
    let Some(window) = window else {
        return Ok(());
    };
    effects.push(Effect::Input(window, typed))?;
    Ok(())
}

/// Tells a client why it may not type. Returns the message for its status line.
fn deny(
    alloc: Global,
    client: u32,
    refusal: &Refusal,
    effects: &mut Vec<Effect>,
) -> Result<StatusMessage, AllocError>
    ensures ok { IfOk result (λ message. (message ≡ Text (text_of refusal.now))
        × (effects.new.items ≡ effects.old.items ++ Say client (text_of refusal.now) ∷ [])) }
    ensures err { OnErr result (effects.new.items ≡ effects.old.items) }
{
    let text = why(alloc, refusal)?;
    let message = StatusMessage::Text(Bytes::of(alloc, text.as_slice())?);
    effects.push(Effect::Say(client, text))?;
    Ok(message)
}

/// Sends the bytes that a client's keys type to the window in focus, or tells the client why not.
/// Returns the message for its status line.
pub fn type_bytes(
    state: &State,
    by: KeyCaller,
    typed: Bytes,
    step: &mut Step,
) -> Result<StatusMessage, Refusal>
    ensures ok { IfOk result (λ message. Types by.caller by.client typed state.now message
        step.old step.new) }
    ensures grows { OnOk result (Grows step.old.made.effects.items step.new.made.effects.items) }
    ensures err { OnErr result (step.new.made.effects.items ≡ step.old.made.effects.items) }
    ensures memory { IfErr result (λ refusal. refusal ≡ NoMemory) }
    ensures acts { step.new.made.acts ≡ step.old.made.acts }
{
    if typed.is_empty() {
        return Ok(StatusMessage::Silence);
    }
    match check_typing(state, by.caller, &mut step.verdicts) {
        Ok(()) => {
            put_typed(by.caller.window, typed, &mut step.made.effects)?;
            Ok(StatusMessage::Silence)
        }
        Err(refusal) => {
            if wants_memory(&refusal) {
                return Err(refusal);
            }
            Ok(deny(state.alloc, by.client, &refusal, &mut step.made.effects)?)
        }
    }
}
