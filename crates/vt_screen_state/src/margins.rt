//! The margins, the size of the page, and the lines and columns between which an erasure acts.

ghost use Rattle.std.specs.Prelude.{◌≡◌, ◌-◌, ◌<◌, min, nat_lt, ◌+◌, ◌≤◌};
ghost use Rattle.cells.specs.Page.{IsGridSize};
ghost use Rattle.terminal_model.specs.Motion.{bottom_of, margins_or_none, whole_margins};
ghost use Rattle.terminal_model.specs.Erasing.{is_in_margins, first_column, end_column, first_line, end_line};
ghost use Rattle.vt_screen_state.specs.Fitted.{fitted};

use crate::cursor::{go_home, settle};
use terminal_model::{Part, State};

/// DECSTBM (VT220 Programmer Reference Manual): makes the lines from `top` to `bottom` the margins and moves the cursor
/// home. Without `bottom` the last line is the page's. If the margins have fewer than two lines, nothing changes.
pub fn set_margins(state: &mut State, top: usize, bottom: Option<usize>)
    requires { state.old.line < state.old.rows }
    ensures { state.new ≡ margins_or_none (nat_lt top (bottom_of state.old.rows bottom)) top
        (bottom_of state.old.rows bottom) state.old }
{
    let last = state.rows - 1;
    let bottom = bottom.unwrap_or(last).min(last);
    if top < bottom {
        state.top = top;
        state.bottom = bottom;
        go_home(state);
    }
}

/// Makes the whole page the margins.
pub fn use_whole_page(state: &mut State)
    requires { state.old.line < state.old.rows }
    ensures { state.new ≡ whole_margins state.old }
{
    state.top = 0;
    state.bottom = state.rows - 1;
}

/// Whether the cursor is within the margins.
pub fn is_in_margins(state: &State) -> bool
    ensures { result ≡ is_in_margins state.now }
{
    state.top <= state.line && state.line <= state.bottom
}

/// Fits the state to a page of another size: the cursor goes to the nearest place, no wrap is pending, the joining of
/// marks ends, and the whole page is the margins.
pub fn fit(state: &mut State, rows: usize, columns: usize)
    requires { IsGridSize rows columns }
    ensures { state.new ≡ fitted rows columns state.old }
{
    state.rows = rows;
    state.columns = columns;
    state.line = state.line.min(rows - 1);
    state.column = state.column.min(columns - 1);
    use_whole_page(state);
    settle(state);
}

/// The first column of a part of the cursor's line.
pub fn first_column(part: Part, state: &State) -> usize
    ensures { result ≡ first_column part state.now }
{
    match part {
        Part::ToEnd => state.column,
        Part::ToStart | Part::All => 0,
    }
}

/// The end of a part of the cursor's line: the column after its last one.
pub fn end_column(part: Part, state: &State) -> usize
    requires { state.now.column < state.now.columns }
    ensures { result ≡ end_column part state.now }
{
    let (column, columns) = (state.column, state.columns);
    match part {
        Part::ToStart => column + 1,
        Part::ToEnd | Part::All => columns,
    }
}

/// The first line of a part of the page without the cursor's line; with `Part::All`, of all lines.
pub fn first_line(part: Part, state: &State) -> usize
    requires inside { state.now.line < state.now.rows }
    requires few { state.now.rows ≤ 200 }
    ensures { result ≡ first_line part state.now }
{
    match part {
        Part::ToEnd => state.line + 1,
        Part::ToStart | Part::All => 0,
    }
}

/// The end of a part of the page without the cursor's line: the line after its last one.
pub fn end_line(part: Part, state: &State) -> usize
    ensures { result ≡ end_line part state.now }
{
    match part {
        Part::ToStart => state.line,
        Part::ToEnd | Part::All => state.rows,
    }
}

/// The end of `count` columns from the cursor on: the column after them, but at most the width.
pub fn end_after(state: &State, count: usize) -> usize
    ensures { result ≡ min (state.now.column + count) state.now.columns }
{
    state.column.saturating_add(count).min(state.columns)
}
