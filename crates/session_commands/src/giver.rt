//! What a command works on: the session's state, the client that gives it, and the window that it is for.

ghost use Rattle.std.specs.Prelude.{◌≡◌, IfOk, IfErr};
ghost use Rattle.session_model.specs.declared.refusal.Refusal.TheVariants.{NoWindow};
ghost use Rattle.session_state.specs.Doing.{GivesBy};
ghost use Rattle.session_commands.specs.Giving.{NobodyGives, FindsWindow, HasNumber, refusal_of};

use regions::RegionFault;
use session_model::{Bytes, Refusal};
use session_state::{Caller, State, StepOutput};

/// The session's state while a step lasts, and what the step has made so far.
#[derive(Drop)]
pub struct Context<'s> {
    pub state: &'s mut State,
    pub made: &'s mut StepOutput,
}

/// What a command lists, if it lists anything, or why it is refused.
pub type CommandReply = Result<Option<Bytes>, Refusal>;

/// The serial of the client that gives a command. It is attached.
pub fn client_of(state: &State, caller: Caller) -> Result<u32, Refusal>
    ensures ok { IfOk result (λ client. GivesBy client state.now caller) }
    ensures err { IfErr result (λ refusal. (refusal ≡ NoWindow) × NobodyGives caller state.now) }
{
    let Some(client) = caller.client else {
        return Err(Refusal::NoWindow);
    };
    match state.clients.get(client) {
        Some(_) => Ok(client),
        None => Err(Refusal::NoWindow),
    }
}

/// The number of the window that a command would act on, if that window is open.
pub(crate) fn number_of(state: &State, caller: Caller) -> Option<u8>
    ensures { HasNumber caller state.now result }
{
    let window = state.windows.get(caller.window?)?;
    Some(window.number)
}

/// The serial of the window that a command acts on, if that window is open.
pub(crate) fn window_of(state: &State, caller: Caller) -> Option<u32>
    ensures { FindsWindow caller state.now result }
{
    let window = state.windows.get(caller.window?)?;
    Some(window.serial)
}

/// The refusal of a command, by a fault of a layout.
pub(crate) fn refusal_of(fault: RegionFault) -> Refusal
    ensures { result ≡ refusal_of fault }
{
    match fault {
        RegionFault::NoMemory => Refusal::NoMemory,
        fault => Refusal::Regions(fault),
    }
}
