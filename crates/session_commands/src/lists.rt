//! Commands that only list. They change and make nothing, so what they answer doesn't depend on what
//! a step has made before.

ghost use Rattle.std.specs.Prelude.{◌≡◌};
ghost use Rattle.command_lang.specs.declared.command.Command.TheVariants as command;
ghost use Rattle.session_model.specs.Commands.{focus_of as model_focus};
ghost use Rattle.session_model.specs.Tables.{Tables};
ghost use Rattle.session_state.specs.declared.state.StepOutput.{StepOutput};
ghost use Rattle.session_state.specs.Doing.{Does, caller_in};
ghost use Rattle.session_state.specs.Stands.{Stands};

use crate::giver::CommandReply;
use session_model::Bytes;
use session_state::{Caller, State, clients_text, windows_text};

/// The window in focus of a client that asks.
fn focus_of(state: &State, caller: Caller) -> Option<u32>
    ensures { (t : Tables) → Stands t state.now → result ≡ model_focus (caller_in t caller) }
{
    let _client = caller.client?;
    let serial = caller.window?;
    state.windows.get(serial).map(|window| window.serial)
}

/// `windows`: lists the windows. A title that the caller may not read is `?`.
pub fn windows(state: &State, caller: Caller) -> CommandReply
    ensures { (made : StepOutput) → Does caller command.Windows state.now result state.now made made }
{
    let text = windows_text(state, caller.user, focus_of(state, caller))?;
    Ok(Some(text))
}

/// `displays`: lists the clients.
pub fn displays(state: &State, caller: Caller) -> CommandReply
    ensures { (made : StepOutput) → Does caller command.Displays state.now result state.now made made }
{
    Ok(Some(clients_text(state)?))
}

/// `screen`: says how windows are opened.
pub fn screen(state: &State, caller: Caller) -> CommandReply
    ensures { (made : StepOutput) → Does caller command.Screen state.now result state.now made made }
{
    let text = Bytes::of(state.alloc, b"windows are opened by mux window")?;
    Ok(Some(text))
}
