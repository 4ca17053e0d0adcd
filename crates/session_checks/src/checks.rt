//! How checks are made, one after another, and what a failed one denies.

ghost use Rattle.std.specs.Prelude.{◌≡◌, ◌∷◌, [], true, option_to_list};
ghost use Rattle.acl.specs.History.{there};
ghost use Rattle.session_model.specs.Tables.{Tables};
ghost use Rattle.session_model.specs.declared.refusal.Check.TheVariants.{Right as right, Unlocked as unlocked};
ghost use Rattle.session_state.specs.Stands.{Stands};
ghost use Rattle.session_checks.specs.Checked.{Checked, AllMade, listed};
ghost use Rattle.session_model.specs.Denials.{number_of, denied_on};

use acl::{Bit, Object, UserId};
use session_model::{Check, Denied, EntryDenied, LockDenied, Refusal, Verdict};
use session_state::State;

/// The number of the window with this serial.
fn number_of(state: &State, window: u32) -> u8
    ensures { (t : Tables) → Stands t state.now → result ≡ number_of t window }
{
    match state.windows.get(window) {
        Some(window) => window.number,
        None => 0,
    }
}

/// What a denial names: a window with its number, or a command.
fn denied_on(state: &State, object: Object) -> Denied
    ensures { (t : Tables) → Stands t state.now → result ≡ denied_on t object }
{
    match object {
        Object::Window(serial) => Denied::Window {
            serial,
            number: number_of(state, serial),
        },
        Object::Command(name) => Denied::Command(name),
    }
}

/// Checks a user's right on a command, or on an open window.
fn check_right(
    state: &State,
    user: UserId,
    bit: Bit,
    object: Object,
    verdicts: &mut Vec<Verdict>,
) -> Result<(), Refusal>
    ensures { (t : Tables) → Stands t state.now → there t.acts object ≡ true
        → Checked t (right user bit object ∷ []) result verdicts.old.items verdicts.new.items }
{
    let found = state.acl.may(user, bit, object);
    verdicts.push(Verdict::Right {
        user,
        bit,
        object,
        answer: found.is_ok(),
    })?;
    match found {
        Ok(()) => Ok(()),
        Err(denial) => Err(Refusal::EntryDenied(EntryDenied {
            user,
            bit,
            on: denied_on(state, object),
            leaders: denial.leaders,
        })),
    }
}

/// Checks that no other user holds a window's lock.
fn check_lock(
    state: &State,
    user: UserId,
    window: u32,
    verdicts: &mut Vec<Verdict>,
) -> Result<(), Refusal>
    ensures { (t : Tables) → Stands t state.now
        → Checked t (unlocked user window ∷ []) result verdicts.old.items verdicts.new.items }
{
    verdicts.push(Verdict::Lock {
        user,
        window,
        holder: state.locks.holder(window),
    })?;
    match state.locks.may_type(user, window) {
        Ok(()) => Ok(()),
        Err(denial) => Err(Refusal::LockDenied(LockDenied {
            serial: window,
            number: number_of(state, window),
            holder: denial.holder,
        })),
    }
}

/// Makes a check, if there is one.
fn check_one(
    state: &State,
    check: Option<Check>,
    verdicts: &mut Vec<Verdict>,
) -> Result<(), Refusal>
    ensures { (t : Tables) → Stands t state.now → AllMade t (option_to_list check)
        → Checked t (option_to_list check) result verdicts.old.items verdicts.new.items }
{
    match check {
        Some(Check::Right(user, bit, object)) => check_right(state, user, bit, object, verdicts),
        Some(Check::Unlocked(user, window)) => check_lock(state, user, window, verdicts),
        Some(Check::Must(true, _)) | None => Ok(()),
        Some(Check::Must(false, refusal)) => Err(refusal),
    }
}

/// Makes checks in their order, up to the first that fails.
pub(crate) fn check_all(
    state: &State,
    checks: &[Option<Check>],
    verdicts: &mut Vec<Verdict>,
) -> Result<(), Refusal>
    ensures { (t : Tables) → Stands t state.now → AllMade t (listed checks.now)
        → Checked t (listed checks.now) result verdicts.old.items verdicts.new.items }
{
    for check in checks {
        check_one(state, *check, verdicts)?;
    }
    Ok(())
}
