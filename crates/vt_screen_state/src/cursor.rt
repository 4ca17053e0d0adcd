//! The cursor.

ghost use Rattle.std.specs.Prelude.{◌≡◌, ◌+◌, ◌-◌, ◌<◌, ◌≤◌, ◌&&◌, min};
ghost use Rattle.terminal_model.specs.Motion.{unjoined, home, line_down, line_named, line_up, moved_to, unpending};
ghost use Rattle.terminal_model.specs.Printing.{advanced, following, lacks_room};

use terminal_model::{Position, State};

/// Ends the joining of marks: no mark joins the character that was printed last. Every function but print does this.
pub fn separate(state: &mut State)
    ensures { state.new ≡ unjoined state.old }
{
    state.joining = None;
}

/// Ends the joining of marks and the pending wrap. Every function but print, SGR, the shifts and the designations does
/// this.
pub fn settle(state: &mut State)
    ensures { state.new ≡ unpending state.old }
{
    state.is_wrap_pending = false;
    state.joining = None;
}

/// Moves the cursor to a place of the page.
pub fn move_to(state: &mut State, line: usize, column: usize)
    ensures { state.new ≡ moved_to state.old line column }
{
    state.line = line;
    state.column = column;
    settle(state);
}

/// CR (ECMA-48, 8.3.15): moves the cursor to the first column.
pub fn go_to_first_column(state: &mut State)
    ensures { state.new ≡ moved_to state.old state.old.line 0 }
{
    state.column = 0;
    settle(state);
}

/// Moves the cursor home: to the first place of the page, or with ?6 set of the margins (VT220 Programmer Reference
/// Manual, DECOM).
pub fn go_home(state: &mut State)
    ensures { state.new ≡ home state.old }
{
    let line = if state.modes.counts_from_margin {
        state.top
    } else {
        0
    };
    move_to(state, line, 0);
}

/// CUU (ECMA-48, 8.3.22): moves the cursor up; from within or below the margins at most to their first line, else at
/// most to the page's.
pub fn go_up(state: &mut State, count: usize)
    ensures { state.new ≡ moved_to state.old (line_up state.old count) state.old.column }
{
    let first = if state.top <= state.line {
        state.top
    } else {
        0
    };
    state.line = state.line.saturating_sub(count).max(first);
    settle(state);
}

/// CUD (ECMA-48, 8.3.19): moves the cursor down; from within or above the margins at most to their last line, else at
/// most to the page's.
pub fn go_down(state: &mut State, count: usize)
    requires line_inside { state.old.line < state.old.rows }
    requires bottom_inside { state.old.bottom < state.old.rows }
    ensures { state.new ≡ moved_to state.old (line_down state.old count) state.old.column }
{
    let last = if state.line <= state.bottom {
        state.bottom
    } else {
        state.rows - 1
    };
    state.line = state.line.saturating_add(count).min(last);
    settle(state);
}

/// CUF (ECMA-48, 8.3.20): moves the cursor right, at most to the last column.
pub fn go_right(state: &mut State, count: usize)
    requires { state.old.column < state.old.columns }
    ensures { state.new ≡ moved_to state.old state.old.line (min (state.old.column + count) (state.old.columns - 1)) }
{
    state.column = state.column.saturating_add(count).min(state.columns - 1);
    settle(state);
}

/// CUB (ECMA-48, 8.3.18), and BS (8.3.5) with a count of 1: moves the cursor left, at most to the first column.
pub fn go_left(state: &mut State, count: usize)
    ensures { state.new ≡ moved_to state.old state.old.line (state.old.column - count) }
{
    state.column = state.column.saturating_sub(count);
    settle(state);
}

/// CUP (ECMA-48, 8.3.21) and HVP (8.3.63): moves the cursor to a place of the page. With ?6 set the line counts from
/// the top margin, and the last line is that of the margins.
pub fn go_to(state: &mut State, line: usize, column: usize)
    requires line_inside { state.old.line < state.old.rows }
    requires column_inside { state.old.column < state.old.columns }
    requires bottom_inside { state.old.bottom < state.old.rows }
    ensures { state.new ≡ moved_to state.old (line_named state.old line) (min column (state.old.columns - 1)) }
{
    let line = if state.modes.counts_from_margin {
        state.top.saturating_add(line).min(state.bottom)
    } else {
        line.min(state.rows - 1)
    };
    let column = column.min(state.columns - 1);
    move_to(state, line, column);
}

/// Whether a wide character doesn't fit in at the cursor: it is in the last column.
pub fn lacks_room(state: &State) -> bool
    requires { state.now.column < state.now.columns }
    ensures { result ≡ lacks_room state.now }
{
    let (column, columns) = (state.column, state.columns);
    column + 1 == columns
}

/// Whether a wide character goes to the next line first: ?7 is set, and it doesn't fit in at the cursor.
pub fn needs_line(state: &State) -> bool
    requires { state.now.column < state.now.columns }
    ensures { result ≡ (lacks_room state.now && state.now.modes.wraps) }
{
    lacks_room(state) && state.modes.wraps
}

/// The column whose old cell follows `width` new cells at the cursor: the cursor's with IRM set (ECMA-48, 7.2.10), else
/// the column after the new cells.
pub fn following(state: &State, width: usize) -> usize
    requires inside { state.now.column + width ≤ state.now.columns }
    requires few { state.now.columns ≤ 300 }
    ensures { result ≡ following state.now width }
{
    if state.modes.inserts {
        state.column
    } else {
        state.column + width
    }
}

/// Moves the cursor right after `width` printed columns, whose character marks join. After the last column the wrap is
/// pending if ?7 is set.
pub fn advance(state: &mut State, width: usize)
    requires some { 0 < width }
    requires inside { state.old.column + width ≤ state.old.columns }
    ensures { state.new ≡ advanced state.old width }
{
    state.joining = Some(Position {
        line: state.line,
        column: state.column,
    });
    let column = state.column + width;
    if column < state.columns {
        state.column = column;
        state.is_wrap_pending = false;
    } else {
        state.column = state.columns - 1;
        state.is_wrap_pending = state.modes.wraps;
    }
}
