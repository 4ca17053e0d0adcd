//! The lists of windows and of clients.

ghost use Rattle.std.specs.Prelude.{◌≡◌, IfOk, OnOk};
ghost use Rattle.session_state.specs.declared.client.Client.{Client};
ghost use Rattle.session_state.specs.Listing.{SaysWindows, SaysClients, IsItem, number_shown};

use crate::client::Client;
use crate::items::{push_client, push_separator, push_window};
use crate::state::State;
use acl::{Bit, Object, UserId};
use session_model::Bytes;
use std::alloc::AllocError;
use windows::{Window, Windows};

/// The numbers of windows are below this.
const NUMBERS: u16 = 40;

/// Appends a window's item, as this user may read it.
fn push_item(
    state: &State,
    user: UserId,
    focus: Option<u32>,
    window: &Window,
    out: &mut Vec<u8>,
) -> Result<(), AllocError>
    ensures { OnOk result
        (IsItem state.now user focus window.now out.old.items out.new.items) }
{
    let object = Object::Window(window.serial);
    let is_readable = state.acl.may(user, Bit::Read, object).is_ok();
    let is_in_focus = focus == Some(window.serial);
    push_window(
        window.number,
        is_in_focus,
        is_readable,
        window.title.as_bytes(),
        out,
    )
}

/// The list of the windows by their numbers, as a user may read it: number, `*` at the window with the
/// serial `focus`, and title, or `?` if the user may not read the title.
pub fn windows_text(state: &State, user: UserId, focus: Option<u32>) -> Result<Bytes, AllocError>
    ensures { IfOk result (SaysWindows state.now user focus) }
{
    let mut text = Vec::new(state.alloc);
    let mut is_first = true;
    for number in 0..NUMBERS {
        if let Some(window) = state.windows.by_number(number) {
            push_separator(is_first, &mut text)?;
            push_item(state, user, focus, window, &mut text)?;
            is_first = false;
        }
    }
    Ok(Bytes::from_vec(text))
}

/// The number of the window in a client's focused region.
fn number_shown(windows: &Windows, client: &Client) -> Option<u8>
    ensures { result ≡ number_shown windows.now client.now }
{
    match client.layout.focused().window {
        Some(serial) => windows.get(serial).map(|window| window.number),
        None => None,
    }
}

/// The list of the clients by their serials: serial, user, and the number of the window in focus, or
/// `-`.
pub fn clients_text(state: &State) -> Result<Bytes, AllocError>
    ensures { IfOk result (SaysClients state.now) }
{
    let mut text = Vec::new(state.alloc);
    let mut is_first = true;
    for client in state.clients.as_slice() {
        push_separator(is_first, &mut text)?;
        let focus = number_shown(&state.windows, client);
        push_client(client.serial, client.user, focus, &mut text)?;
        is_first = false;
    }
    Ok(Bytes::from_vec(text))
}
