//! DECSC and DECRC (VT220 Programmer Reference Manual, cursor positioning).

ghost use Rattle.std.specs.Prelude.{◌≡◌, ◌-◌, ◌<◌, option_map};
ghost use Rattle.cells.specs.Page.{IsGridSize};
ghost use Rattle.terminal_model.specs.Saving.{restored, restored_line, saved_of, saved_or_none};
ghost use Rattle.terminal_model.specs.Sizing.{saved_resized};

use crate::modes::starting_state;
use charsets::Coding;
use terminal_model::{Saved, State};

/// What DECSC saves: the cursor, and the settings for new characters.
pub fn saved_of(state: &State) -> Saved
    ensures { result ≡ saved_of state.now }
{
    Saved {
        line: state.line,
        column: state.column,
        is_wrap_pending: state.is_wrap_pending,
        rendition: state.rendition,
        is_protecting: state.is_protecting,
        shifts: state.shifts,
        counts_from_margin: state.modes.counts_from_margin,
    }
}

/// DECRC: restores what was saved, or the starting values if nothing was. The cursor goes to the nearest place of the
/// page, and with ?6 set of the margins.
pub fn restore(state: &mut State, saved: Option<Saved>)
    requires line_inside { state.old.line < state.old.rows }
    requires column_inside { state.old.column < state.old.columns }
    ensures { state.new ≡ restored state.old (saved_or_none saved) }
{
    let saved = saved_or_none(saved);
    let last = state.columns - 1;
    state.line = restored_line(state, &saved);
    state.column = saved.column.min(last);
    state.is_wrap_pending = saved.is_wrap_pending && state.modes.wraps && state.column == last;
    state.rendition = saved.rendition;
    state.is_protecting = saved.is_protecting;
    state.shifts = saved.shifts;
    state.modes.counts_from_margin = saved.counts_from_margin;
    state.joining = None;
}

/// What DECRC restores: the starting values if nothing was saved.
fn saved_or_none(saved: Option<Saved>) -> Saved
    ensures { result ≡ saved_or_none saved }
{
    match saved {
        Some(saved) => saved,
        None => saved_of(&starting_state(1, 1, Coding::Utf8)),
    }
}

/// The saved line: on the page, and within the margins if ?6 was saved as set.
fn restored_line(state: &State, saved: &Saved) -> usize
    requires { state.now.line < state.now.rows }
    ensures { result ≡ restored_line state.now saved.now }
{
    if saved.counts_from_margin {
        saved.line.min(state.bottom).max(state.top)
    } else {
        saved.line.min(state.rows - 1)
    }
}

/// Fits what was saved to a page of another size: its place becomes the nearest one.
pub fn fit_saved(saved: Option<Saved>, rows: usize, columns: usize) -> Option<Saved>
    requires { IsGridSize rows columns }
    ensures { result ≡ option_map (saved_resized rows columns) saved }
{
    let saved = saved?;
    Some(Saved {
        line: saved.line.min(rows - 1),
        column: saved.column.min(columns - 1),
        ..saved
    })
}
