//! The checks of events.

ghost use Rattle.std.specs.Prelude.{◌≡◌, ◌∷◌, []};
ghost use Rattle.session_model.specs.Tables.{Tables, is_known};
ghost use Rattle.session_model.specs.Checks.{typing_checks};
ghost use Rattle.session_model.specs.Comings.{is_client_size, is_let_in, has_place, attach_checks, open_checks};
ghost use Rattle.session_model.specs.declared.refusal.Check.TheVariants.{Must as must};
ghost use Rattle.session_model.specs.declared.refusal.Refusal.TheVariants.{BadSize};
ghost use Rattle.session_state.specs.Stands.{Stands};
ghost use Rattle.session_model.specs.Sound.{AreFit};
ghost use Rattle.session_state.specs.Doing.{caller_in};
ghost use Rattle.session_checks.specs.Checked.{Checked, writing, has_seat};

use crate::checks::check_all;
use crate::commands::{lock_on, open_window};
use acl::{Bit, CommandName, Object, UserId, WINDOWS};
use session_model::{CLIENTS, Check, Refusal, SERIALS, Verdict, WindowsFault};
use session_state::{Caller, State, WindowSize, is_client_size};
use windows::{is_title, is_window_size};

/// Whether a user is known.
pub fn is_known(state: &State, user: UserId) -> bool
    ensures { (t : Tables) → Stands t state.now → result ≡ is_known t user }
{
    state.acl.knows(user)
}

/// Whether the session's mode lets a user in. Single-user mode only lets the owner in.
fn is_let_in(state: &State, user: UserId) -> bool
    ensures { (t : Tables) → Stands t state.now → result ≡ is_let_in t user }
{
    state.acl.owner() == user || state.is_multiuser
}

/// Whether there is a place and a number for one more window.
fn has_place(state: &State) -> bool
    ensures { (t : Tables) → Stands t state.now → result ≡ has_place t.windows }
{
    state.windows.len() < WINDOWS && state.windows.free_number().is_some()
}

/// Whether there is a place and a serial for one more client.
fn has_seat(state: &State) -> bool
    ensures { (t : Tables) → Stands t state.now → result ≡ has_seat t }
{
    state.clients.len() < CLIENTS && state.next_client < SERIALS
}

/// Makes the checks of typed bytes: a window, w on it, and its lock.
pub fn check_typing(
    state: &State,
    caller: Caller,
    verdicts: &mut Vec<Verdict>,
) -> Result<(), Refusal>
    ensures { (t : Tables) → Stands t state.now → AreFit t
        → Checked t (typing_checks caller.user (caller_in t caller).window) result
        verdicts.old.items verdicts.new.items }
{
    let user = caller.user;
    let window = open_window(state, caller);
    let checks = [Some(writing(user, window)), lock_on(user, window)];
    check_all(state, &checks, verdicts)
}

/// The check of w on a window, or the refusal if there is no window.
fn writing(user: UserId, window: Option<u32>) -> Check
    ensures { result ≡ writing user window }
{
    match window {
        Some(window) => Check::Right(user, Bit::Write, Object::Window(window)),
        None => Check::Must(false, Refusal::NoWindow),
    }
}

/// Makes the checks of a client that attaches.
pub fn check_attach(
    state: &State,
    user: UserId,
    rows: u16,
    columns: u16,
    verdicts: &mut Vec<Verdict>,
) -> Result<(), Refusal>
    ensures { (t : Tables) → Stands t state.now
        → Checked t (attach_checks t user rows columns) result
        verdicts.old.items verdicts.new.items }
{
    let checks = [
        Some(Check::Must(is_known(state, user), Refusal::UnknownUser)),
        Some(Check::Must(is_let_in(state, user), Refusal::NotMultiuser)),
        Some(Check::Must(is_client_size(rows, columns), Refusal::BadSize)),
        Some(Check::Must(has_seat(state), Refusal::TooManyClients)),
    ];
    check_all(state, &checks, verdicts)
}

/// Makes the check of a client's new size.
pub fn check_resize(
    state: &State,
    rows: u16,
    columns: u16,
    verdicts: &mut Vec<Verdict>,
) -> Result<(), Refusal>
    ensures { (t : Tables) → Stands t state.now
        → Checked t (must (is_client_size rows columns) BadSize ∷ []) result
        verdicts.old.items verdicts.new.items }
{
    let checks = [Some(Check::Must(is_client_size(rows, columns), Refusal::BadSize))];
    check_all(state, &checks, verdicts)
}

/// Makes the checks of a window that opens.
pub fn check_open(
    state: &State,
    user: UserId,
    size: WindowSize,
    title: &str,
    verdicts: &mut Vec<Verdict>,
) -> Result<(), Refusal>
    ensures { (t : Tables) → Stands t state.now
        → Checked t (open_checks t user size.rows size.columns size.keep title.now) result
        verdicts.old.items verdicts.new.items }
{
    let full = Refusal::Windows(WindowsFault::Full);
    let bad_title = Refusal::Windows(WindowsFault::BadTitle);
    let has_place = has_place(state) && state.next_window < SERIALS;
    let screen = Check::Right(user, Bit::Execute, Object::Command(CommandName::Screen));
    let checks = [
        Some(Check::Must(is_known(state, user), Refusal::UnknownUser)),
        Some(screen),
        Some(Check::Must(is_let_in(state, user), Refusal::NotMultiuser)),
        Some(Check::Must(
            is_window_size(size.rows, size.columns, size.keep),
            Refusal::BadSize,
        )),
        Some(Check::Must(has_place, full)),
        Some(Check::Must(is_title(title), bad_title)),
    ];
    check_all(state, &checks, verdicts)
}
