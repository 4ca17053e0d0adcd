//! Bytes from one page to another.

ghost use Rattle.std.specs.Prelude.{◌≡◌, ◌+◌, ◌<◌, ◌≤◌, ℕ, ◌++◌, OnOk, IfOk, IfSome, IfNone, length};
ghost use Rattle.cells.specs.Line.{blank, cell_at};
ghost use Rattle.cells.specs.Unlike.{IsNextUnlike, IsEndOfUnlike, AreAlikeFrom};
ghost use Rattle.view.specs.View.{KeepsSize, place_of};
ghost use Rattle.redraw.specs.Commands.{IsPlaced};
ghost use Rattle.redraw.specs.Shadow.{AreAlikeAbove};
ghost use Rattle.redraw.specs.Drawing.{changed};
ghost use Rattle.redraw.specs.Steps.{PutsPiece, PutsLine, PutsPage, PutsView, SetsModes, PutsCursor};

use crate::command::Command;
use crate::pen::{Pen, PenPosition, columns_of};
use cells::{Cell, next_unlike};
use std::alloc::AllocError;
use view::{Cursor, KeyModes, View};

/// What a terminal shows: a view's page and modes, and whether the cursor is shown.
#[derive(Clone, Copy)]
pub struct Shown<'a> {
    pub view: &'a View,
    pub has_cursor: bool,
}

/// From this number of blanks on, blanks are erased instead of printed: the erasure takes fewer
/// bytes.
const FEWEST_ERASED: usize = 5;

/// From this number of blanks on, blanks are erased if more is drawn after them: the erasure and
/// the move over it take fewer bytes.
const FEWEST_ERASED_WITHIN: usize = 11;

/// The number of blanks in the line from a column on.
fn blank_run(cells: &[Cell], from: usize) -> usize
    requires { from ≤ length cells.now }
    ensures inside { from + result ≤ length cells.now }
    ensures blanks { (c : ℕ) → from ≤ c → c < from + result → cell_at cells.now c ≡ blank }
{
    let mut end = from;
    while end < cells.len() && cells[end].is_blank() {
        end += 1;
    }
    end - from
}

/// Draws a piece of a line in which lines differ; `run` is from the first column that differs to
/// the one after the last. Returns the column up to which the line is drawn.
fn draw_piece(
    pen: &mut Pen,
    line: u16,
    after: &[Cell],
    run: (usize, usize),
    out: &mut Vec<u8>,
) -> Result<usize, AllocError>
    requires line { line < 9999 }
    requires inside { run.0 < run.1 }
    requires end { run.1 ≤ length after.now }
    requires few { length after.now ≤ 300 }
    ensures forth { IfOk result (λ next. (run.0 < next) × (next ≤ length after.now + 1)) }
    ensures draws { IfOk result (λ next.
        PutsPiece line after.now run.0 next pen.old pen.new out.old out.new) }
{
    let (column, end) = run;
    let at = PenPosition {
        line,
        column: column as u16,
    };
    let blanks = blank_run(after, column);
    if blanks >= FEWEST_ERASED && column + blanks == after.len() {
        pen.erase_to_end(at, out)?;
        return Ok(after.len());
    }
    let erased = blanks.min(end - column);
    let fewest = if column + erased == end {
        FEWEST_ERASED
    } else {
        FEWEST_ERASED_WITHIN
    };
    if erased >= fewest {
        pen.erase_cells(at, erased as u16, out)?;
        return Ok(column + erased);
    }
    let cell = &after[column];
    pen.put_cell(at, after.len() as u16, cell, out)?;
    Ok(column + columns_of(cell) as usize)
}

/// The next run of columns, from `column` on, in which the lines differ. If `column` is below
/// `known`, the run ends at `known`. `None` if the lines look alike from there on.
fn next_run(before: &[Cell], after: &[Cell], column: usize, known: usize) -> Option<(usize, usize)>
    requires same_width { length before.now ≡ length after.now }
    requires known { column < known → IsEndOfUnlike before.now after.now column known }
    ensures found { IfSome result (λ run. IsNextUnlike before.now after.now column run.0 run.1) }
    ensures none { IfNone result (AreAlikeFrom before.now after.now column) }
{
    if column < known {
        Some((column, known))
    } else {
        next_unlike(before, after, column)
    }
}

/// Draws the columns of a line that differ, from left to right.
fn draw_line(
    pen: &mut Pen,
    line: u16,
    before: &[Cell],
    after: &[Cell],
    out: &mut Vec<u8>,
) -> Result<(), AllocError>
    requires line { line < 9999 }
    requires same_width { length before.now ≡ length after.now }
    requires few { length after.now ≤ 300 }
    ensures { OnOk result (PutsLine line before.now after.now pen.old pen.new out.old out.new) }
{
    let (mut column, mut known) = (0, 0);
    while let Some((start, end)) = next_run(before, after, column, known) {
        column = draw_piece(pen, line, after, (start, end), out)?;
        known = end;
    }
    Ok(())
}

/// Draws the lines of a page that differ, from the line `from` on.
fn draw_page(
    pen: &mut Pen,
    old: &View,
    new: &View,
    from: usize,
    out: &mut Vec<u8>,
) -> Result<(), AllocError>
    requires size { KeepsSize old.now new.now }
    requires inside { from ≤ length new.now.page }
    requires above { AreAlikeAbove from old.now.page new.now.page }
    ensures { OnOk result (PutsPage old.now new.now pen.old pen.new out.old out.new) }
{
    for line in from..new.rows() {
        draw_line(pen, line as u16, old.row(line), new.row(line), out)?;
    }
    Ok(())
}

/// Appends a command, unless the mode is already as it has to be.
fn change(was: bool, is: bool, command: Command, out: &mut Vec<u8>) -> Result<(), AllocError>
    requires { IsPlaced command }
    ensures { OnOk result (out.new.items ≡ out.old.items ++ changed was is command) }
{
    if was != is {
        command.put(out)?;
    }
    Ok(())
}

/// Sets the modes of the keyboard that differ.
fn draw_modes(old: KeyModes, new: KeyModes, out: &mut Vec<u8>) -> Result<(), AllocError>
    ensures { OnOk result (SetsModes old new out.old out.new) }
{
    let (arrows, keypad) = (new.has_application_arrows, new.has_application_keypad);
    change(
        old.has_application_arrows,
        arrows,
        Command::Arrows(arrows),
        out,
    )?;
    change(
        old.has_application_keypad,
        keypad,
        Command::Keypad(keypad),
        out,
    )?;
    Ok(())
}

/// Shows the cursor at its place, or hides it.
fn draw_cursor(
    pen: &mut Pen,
    was_shown: bool,
    new: Cursor,
    out: &mut Vec<u8>,
) -> Result<(), AllocError>
    requires { IfSome (place_of new) (λ p. (p.line < 9999) × (p.column < 9999)) }
    ensures { OnOk result (PutsCursor was_shown new pen.old pen.new out.old out.new) }
{
    match new {
        Cursor::Hidden => change(was_shown, false, Command::ShowCursor(false), out)?,
        Cursor::At { line, column } => {
            pen.move_to(line, column, out)?;
            change(was_shown, true, Command::ShowCursor(true), out)?;
        }
    }
    Ok(())
}

/// Draws what differs between what is shown and a view of the same size. Both pages look the same
/// above the line `from`.
pub fn paint(
    pen: &mut Pen,
    shown: Shown,
    new: &View,
    from: usize,
    out: &mut Vec<u8>,
) -> Result<(), AllocError>
    requires size { KeepsSize shown.view.now new.now }
    requires inside { from ≤ length new.now.page }
    requires above { AreAlikeAbove from shown.view.now.page new.now.page }
    ensures { OnOk result (PutsView shown.entry.view.now shown.entry.has_cursor
        new.now pen.old pen.new out.old out.new) }
{
    let old = shown.view;
    draw_page(pen, old, new, from, out)?;
    draw_modes(old.modes(), new.modes(), out)?;
    draw_cursor(pen, shown.has_cursor, new.cursor(), out)?;
    Ok(())
}
