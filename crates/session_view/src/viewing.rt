//! What a client is granted to see: the contents of its regions, and its status line.

ghost use Rattle.std.specs.Prelude.{IfOk, ◌≡◌, ◌∷◌};
ghost use Rattle.view.specs.View.{HasSize};
ghost use Rattle.session_view.specs.Viewed.{IsViewFor, IsViewOf};
ghost use Rattle.session_view.specs.Parts.{ShowsWindow};
ghost use Rattle.session_view.specs.Status.{SaysStatus, SaysMessage};

use crate::parts::{panes, parts};
use cells::Cell;
use session_model::{Bytes, Refusal, StatusMessage};
use session_state::{Client, State, clients_text, is_client_size, windows_text};
use std::alloc::{AllocError, Global};
use view::{Contents, KeyModes, View, compose_over};
use windows::Window;

/// The text of a prompt: `:` and its line.
fn prompt_text(alloc: Global, line: &[u8]) -> Result<Bytes, AllocError>
    ensures { IfOk result (λ text. text ≡ 0x3A ∷ line.now) }
{
    let mut text = Vec::new(alloc);
    text.push(b':')?;
    text.extend_from_slice(line)?;
    Ok(Bytes::from_vec(text))
}

/// The text of a client's message. The lists of windows and of clients are made again.
fn message_text(state: &State, client: &Client) -> Result<Bytes, AllocError>
    ensures { IfOk result (SaysMessage state.now client.now) }
{
    match &client.message {
        StatusMessage::Silence => Ok(Bytes::new(state.alloc)),
        StatusMessage::Text(bytes) => Bytes::of(state.alloc, bytes.as_slice()),
        StatusMessage::AllWindows => {
            windows_text(state, client.user, client.layout.focused().window)
        }
        StatusMessage::AllClients => clients_text(state),
    }
}

/// What a client's status line says: the line of its prompt while that is open, else its message.
fn status_text(state: &State, client: &Client) -> Result<Bytes, AllocError>
    ensures { IfOk result (SaysStatus state.now client.now) }
{
    match client.keys.prompt() {
        Some(line) => prompt_text(state.alloc, line),
        None => message_text(state, client),
    }
}

/// What a region shows of a window with these lines, scrolled back by `back` lines.
pub(crate) fn contents<'a>(window: &'a Window, back: usize, lines: &'a [&'a [Cell]]) -> Contents<'a>
    ensures { ShowsWindow back window.now lines.now result }
{
    let modes = window.emulator.modes();
    Contents {
        number: window.number,
        title: window.title.as_str(),
        lines,
        cursor: if back == 0 {
            Some(window.emulator.cursor())
        } else {
            None
        },
        shows_cursor: modes.shows_cursor,
        is_inverted: modes.is_inverted,
        modes: KeyModes {
            has_application_arrows: modes.has_application_arrows,
            has_application_keypad: modes.has_application_keypad,
        },
    }
}

/// What a client is granted to see, in the memory of a spare view if that has room for it. A client's
/// terminal has one of the allowed sizes, and each region of its page has room, so want of memory is
/// the only reason not to have the view.
pub(crate) fn view_for(
    state: &State,
    client: &Client,
    spare: Option<View>,
) -> Result<View, AllocError>
    ensures size { IfOk result (HasSize client.now.shadow.rows client.now.shadow.columns) }
    ensures granted { IfOk result (IsViewFor state.now client.now) }
{
    let rows = client.shadow.rows();
    let columns = client.shadow.columns();
    if !is_client_size(rows, columns) {
        return Err(AllocError);
    }
    let Ok(rects) = client.layout.rects(state.alloc, rows, columns) else {
        return Err(AllocError);
    };
    let parts = parts(state, client.user, client.layout.shown())?;
    let panes = panes(state.alloc, &parts)?;
    let status = status_text(state, client)?;
    compose_over(state.alloc, spare, &rects, &panes, status.as_slice())
}

/// What a client is granted to see: all its regions, each window as far as its user may read it, and
/// its status line. It is `NoWindow` if no client has this serial.
pub fn view_of(state: &State, client: u32) -> Result<View, Refusal>
    ensures { IsViewOf state.now client result }
{
    let Some(client) = state.clients.get(client) else {
        return Err(Refusal::NoWindow);
    };
    Ok(view_for(state, client, None)?)
}
