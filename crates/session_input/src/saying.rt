//! How a client is told something.

ghost use Rattle.std.specs.Prelude.{◌≡◌, IfOk, IfErr, OnOk, OnErr};
ghost use Rattle.session_model.specs.Texts.{text_of};
ghost use Rattle.session_model.specs.declared.refusal.Refusal.TheVariants.{NoMemory};
ghost use Rattle.session_model.specs.declared.event.StatusMessage.TheVariants as message;
ghost use Rattle.session_state.specs.Doing.{IsAsBefore};
ghost use Rattle.session_input.specs.Said.{Says, wants_memory};

use session_model::{Bytes, Effect, Refusal, StatusMessage};
use session_state::{State, StepOutput};
use std::alloc::{AllocError, Global};

/// Whether a refusal is one for want of memory.
pub(crate) fn wants_memory(refusal: &Refusal) -> bool
    ensures { result ≡ wants_memory refusal.now }
{
    matches!(refusal, Refusal::NoMemory)
}

/// The text that tells of a refusal.
pub(crate) fn why(alloc: Global, refusal: &Refusal) -> Result<Bytes, AllocError>
    ensures { IfOk result (λ text. text ≡ text_of refusal.now) }
{
    let mut text = Vec::new(alloc);
    refusal.text(&mut text)?;
    Ok(Bytes::from_vec(text))
}

/// Tells a client a text, and puts a message on its status line.
pub(crate) fn say(
    state: &mut State,
    client: u32,
    message: StatusMessage,
    text: Bytes,
    made: &mut StepOutput,
) -> Result<(), Refusal>
    ensures ok { OnOk result (Says client message text state.old state.new made.old made.new) }
    ensures err { OnErr result (IsAsBefore state.old state.new made.old made.new) }
    ensures memory { IfErr result (λ refusal. refusal ≡ NoMemory) }
    ensures acts { made.new.acts ≡ made.old.acts }
{
    made.effects.push(Effect::Say(client, text))?;
    state.clients.hear(client, message);
    Ok(())
}

/// Tells a client why something was refused.
pub(crate) fn say_why(
    state: &mut State,
    client: u32,
    refusal: Refusal,
    made: &mut StepOutput,
) -> Result<(), Refusal>
    ensures ok { OnOk result (Says client (message.Text (text_of refusal)) (text_of refusal)
        state.old state.new made.old made.new) }
    ensures err { OnErr result (IsAsBefore state.old state.new made.old made.new) }
    ensures memory { IfErr result (λ refusal. refusal ≡ NoMemory) }
    ensures acts { made.new.acts ≡ made.old.acts }
{
    let text = why(state.alloc, &refusal)?;
    let message = StatusMessage::Text(Bytes::of(state.alloc, text.as_slice())?);
    say(state, client, message, text, made)
}
