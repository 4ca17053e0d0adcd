//! Whether two clients are granted to see the same.

ghost use Rattle.std.specs.Prelude.{◌≡◌, ◌↔◌, true};
ghost use Rattle.session_model.specs.Granted.{part_shown};
ghost use Rattle.session_view.specs.Sameness.{HaveSameSize, SayTheSame, HaveSameStatus};
ghost use Rattle.session_view.specs.Sameness.{ShowBoth, AreBothAlike, SeeTheSame, Tells, TellsOf};

use acl::{Bit, Object, UserId};
use regions::Shown;
use session_model::StatusMessage;
use session_state::{Client, State};

/// Whether the terminals of two clients have the same size.
fn have_same_size(a: &Client, b: &Client) -> bool
    ensures { (result ≡ true) ↔ HaveSameSize a.now b.now }
{
    a.shadow.rows() == b.shadow.rows() && a.shadow.columns() == b.shadow.columns()
}

/// Whether two messages say the same text, on every client's status line.
fn say_the_same(message: &StatusMessage, other: &StatusMessage) -> bool
    ensures { (result ≡ true) ↔ SayTheSame message.now other.now }
{
    match (message, other) {
        (StatusMessage::Silence, StatusMessage::Silence) => true,
        (StatusMessage::Text(text), StatusMessage::Text(said)) => text.as_slice()
            == said.as_slice(),
        (StatusMessage::AllClients, StatusMessage::AllClients) => true,
        _ => false,
    }
}

/// Whether the status lines of two clients say the same text: no prompt is open, and their messages
/// say the same.
fn have_same_status(a: &Client, b: &Client) -> bool
    ensures { (result ≡ true) ↔ HaveSameStatus a.now b.now }
{
    a.keys.prompt().is_none() && b.keys.prompt().is_none() && say_the_same(&a.message, &b.message)
}

/// Whether a region shows two users the same: it shows no window, or one that both may read or that
/// neither may read.
fn shows_both(state: &State, user: UserId, other: UserId, shown: Shown) -> bool
    ensures { Tells state.now result (λ t. part_shown t user shown ≡ part_shown t other shown) }
{
    let Some(serial) = shown.window else {
        return true;
    };
    let Some(_window) = state.windows.get(serial) else {
        return true;
    };
    let object = Object::Window(serial);
    let may = state.acl.may(user, Bit::Read, object).is_ok();
    may == state.acl.may(other, Bit::Read, object).is_ok()
}

/// Whether each of these regions shows two users the same.
fn show_both(state: &State, user: UserId, other: UserId, shown: &[Shown]) -> bool
    ensures { Tells state.now result (λ t. ShowBoth t user other shown.now) }
{
    if user == other {
        return true;
    }
    for region in shown {
        if !shows_both(state, user, other, *region) {
            return false;
        }
    }
    true
}

/// Whether two clients are known to see the same. The cheap tests come first.
fn are_alike(state: &State, a: &Client, b: &Client) -> bool
    ensures { TellsOf state.now a.now b.now result }
{
    have_same_size(a, b)
        && a.layout.is_same(&b.layout)
        && have_same_status(a, b)
        && show_both(state, a.user, b.user, a.layout.shown())
}

/// Whether the clients with two serials are there and known to see the same.
pub fn see_the_same(state: &State, client: u32, other: u32) -> bool
    ensures exact { Tells state.now result (AreBothAlike client other) }
    ensures granted { result ≡ true → SeeTheSame client other state.now }
{
    let Some(a) = state.clients.get(client) else {
        return false;
    };
    let Some(b) = state.clients.get(other) else {
        return false;
    };
    are_alike(state, a, b)
}
