//! The checks of a command.

ghost use Rattle.std.specs.Prelude.{◌≡◌};
ghost use Rattle.session_model.specs.Tables.{Tables};
ghost use Rattle.session_model.specs.Checks.{checks};
ghost use Rattle.session_state.specs.Stands.{Stands};
ghost use Rattle.session_model.specs.Sound.{AreFit};
ghost use Rattle.session_state.specs.Doing.{caller_in};
ghost use Rattle.session_checks.specs.Checked.{Checked, row_of_caller, access, writing_on, lock_on, only_if};

use crate::checks::check_all;
use acl::{Bit, Object, UserId};
use command_lang::{Command, needs_of};
use session_model::{Check, Refusal, Verdict};
use session_state::{Caller, State};

/// The serial of the window that a caller's command acts on, if that window is open.
pub(crate) fn open_window(state: &State, caller: Caller) -> Option<u32>
    ensures { (t : Tables) → Stands t state.now → result ≡ row_of_caller t caller }
{
    match caller.window {
        Some(window) => match state.windows.get(window) {
            Some(_) => Some(window),
            None => None,
        },
        None => None,
    }
}

/// The check of x on a window, or the refusal if there is no window.
fn access(user: UserId, window: Option<u32>) -> Check
    ensures { result ≡ access user window }
{
    match window {
        Some(window) => Check::Right(user, Bit::Execute, Object::Window(window)),
        None => Check::Must(false, Refusal::NoWindow),
    }
}

/// The check of w on a window, if there is a window.
fn writing_on(user: UserId, window: Option<u32>) -> Option<Check>
    ensures { result ≡ writing_on user window }
{
    match window {
        Some(window) => Some(Check::Right(user, Bit::Write, Object::Window(window))),
        None => None,
    }
}

/// The check of a window's lock, if there is a window.
pub(crate) fn lock_on(user: UserId, window: Option<u32>) -> Option<Check>
    ensures { result ≡ lock_on user window }
{
    match window {
        Some(window) => Some(Check::Unlocked(user, window)),
        None => None,
    }
}

/// A check, if it is needed.
fn only_if(needed: bool, check: Option<Check>) -> Option<Check>
    ensures { result ≡ only_if needed check }
{
    if needed { check } else { None }
}

/// Makes the checks of a command: x on it, and then what it needs, up to the first that fails.
pub fn check_command(
    state: &State,
    caller: Caller,
    command: &Command,
    verdicts: &mut Vec<Verdict>,
) -> Result<(), Refusal>
    ensures { (t : Tables) → Stands t state.now → AreFit t
        → Checked t (checks t (caller_in t caller) command.now) result verdicts.old.items
        verdicts.new.items }
{
    let user = caller.user;
    let needs = needs_of(command);
    let window = open_window(state, caller);
    let execute = Check::Right(user, Bit::Execute, Object::Command(command.name()));
    let is_multiuser = Check::Must(state.is_multiuser, Refusal::NotMultiuser);
    let has_client = Check::Must(caller.client.is_some(), Refusal::NoWindow);
    let checks = [
        Some(execute),
        only_if(needs.multiuser, Some(is_multiuser)),
        only_if(needs.client, Some(has_client)),
        only_if(needs.window, Some(access(user, window))),
        only_if(needs.window, only_if(needs.write, writing_on(user, window))),
        only_if(needs.window, only_if(needs.lock, lock_on(user, window))),
    ];
    check_all(state, &checks, verdicts)
}
