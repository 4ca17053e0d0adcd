//! Who types, and whether a user may type into a window.

ghost use Rattle.std.specs.Prelude.{◌≡◌, true};
ghost use Rattle.acl.specs.History.{is_open};
ghost use Rattle.acl.specs.declared.act.Object.TheVariants.{Window};
ghost use Rattle.acl.specs.declared.bits.Bit.TheVariants.{Write};
ghost use Rattle.session_model.specs.Checks.{passes};
ghost use Rattle.session_model.specs.declared.refusal.Check.TheVariants.{Right, Unlocked};
ghost use Rattle.session_model.specs.Sound.{AreFit};
ghost use Rattle.session_model.specs.Tables.{Tables};
ghost use Rattle.session_state.specs.Stands.{Stands};
ghost use Rattle.session_core.specs.MayType.{client_user, may_type};

use acl::{Bit, Object, UserId};
use session_state::State;

/// Whether a user has w on an open window.
fn may_write(state: &State, user: UserId, window: u32) -> bool
    ensures { (t : Tables) → Stands t state.now → is_open t.acts window ≡ true
        → result ≡ passes t (Right user Write (Window window)) }
{
    state
        .acl
        .may(user, Bit::Write, Object::Window(window))
        .is_ok()
}

/// Whether no other user holds a window's lock.
fn is_free(state: &State, user: UserId, window: u32) -> bool
    ensures { (t : Tables) → Stands t state.now
        → result ≡ passes t (Unlocked user window) }
{
    state.locks.may_type(user, window).is_ok()
}

/// Whether a user may type into a window: the checks of typed bytes, without verdicts.
pub fn may_type(state: &State, user: UserId, window: u32) -> bool
    ensures { (t : Tables) → Stands t state.now → AreFit t → result ≡ may_type t user window }
{
    if state.windows.get(window).is_none() {
        return false;
    }
    may_write(state, user, window) && is_free(state, user, window)
}

/// The user of an attached client.
pub fn user_of(state: &State, client: u32) -> Option<UserId>
    ensures { (t : Tables) → Stands t state.now → result ≡ client_user t client }
{
    match state.clients.get(client) {
        Some(row) => Some(row.user),
        None => None,
    }
}
