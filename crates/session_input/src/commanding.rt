//! Commands that users give by lines.

ghost use Rattle.std.specs.Prelude.{◌≡◌, OnErr};
ghost use Rattle.session_model.specs.Trace.{Command as Given};
ghost use Rattle.session_state.specs.Doing.{IsAsBefore};
ghost use Rattle.session_input.specs.Lines.{line_refusal, Parses, IsNumbered};
ghost use Rattle.session_input.specs.Stepping.{Steps};

use crate::orders::order;
use acl::UserId;
use command_lang::{Command, FaultKind, ParseFault, parse};
use session_checks::is_known;
use session_events::{Focuses, leave};
use session_model::{Done, Refusal, Reply};
use session_state::{Caller, State, Step};
use std::alloc::Global;

/// The refusal for a line with this fault.
fn line_refusal(fault: ParseFault) -> Refusal
    ensures { result ≡ line_refusal fault }
{
    match fault.kind {
        FaultKind::NoMemory => Refusal::NoMemory,
        _ => Refusal::Line(fault),
    }
}

/// The command that a line says.
fn command_of(alloc: Global, line: &[u8]) -> Result<Command, Refusal>
    ensures { Parses line.now result }
{
    match parse(alloc, line) {
        Ok(command) => Ok(command),
        Err(fault) => Err(line_refusal(fault)),
    }
}

/// The serial of the window with this number.
fn window_numbered(state: &State, number: Option<u8>) -> Option<u32>
    ensures { IsNumbered state.now number result }
{
    let number = number?;
    let window = state.windows.by_number(u16::from(number))?;
    Some(window.serial)
}

/// Takes a known user's command by a line, for the window with a number.
pub fn give_line(
    state: &mut State,
    user: UserId,
    window: Option<u8>,
    line: &[u8],
    step: &mut Step,
) -> Reply
    ensures step { Steps (Given user window line.now) state.old result state.new step.old step.new }
    ensures err { OnErr result (IsAsBefore state.old state.new step.old.made step.new.made) }
{
    if !is_known(state, user) {
        return Err(Refusal::UnknownUser);
    }
    let focuses = Focuses::of(state);
    let command = command_of(state.alloc, line)?;
    let caller = Caller {
        user,
        client: None,
        window: window_numbered(state, window),
    };
    let text = order(state, caller, &command, step)?;
    leave(state, &focuses, &mut step.made);
    Ok(Done {
        taken: 0,
        made: 0,
        number: 0,
        text,
    })
}
