//! Rows of a region: the lines of its window, and its caption.

ghost use Rattle.std.specs.Prelude.{◌≡◌, ◌<◌, ◌+◌, ℕ, IfOk, OnOk, length, chars, string_bytes};
ghost use Rattle.std.specs.Prelude.{false, Bool, IsTrue, IfSome};
ghost use Rattle.view.specs.Rows.{IsRow, whole_cell, cut_cell, IsWindowRow, IsPartRow, IsCaptionRow, IsBoxRow};
ghost use Rattle.cells.specs.Line.{cell_at};
ghost use Rattle.view.specs.Granted.{part_of, window_of, line_cell, reverse, shown_cell as shown_cell_of};
ghost use Rattle.view.specs.Granted.{first_shown as first_shown_of, caption_text as caption_of};
ghost use Rattle.view.specs.Composing.{HasScalarCaption};

use crate::text::text_row;
use crate::view::{Contents, Pane};
use cells::{Attribute, Cell, Rendition};
use regions::Rect;
use std::alloc::{AllocError, Global};

/// The rendition of captions and separators.
pub(crate) fn reverse() -> Rendition
    ensures { result ≡ reverse }
{
    Rendition::PLAIN.with(Attribute::Reversed(true))
}

/// A row of a region's box, and whether the region has the focus.
#[derive(Clone, Copy)]
pub(crate) struct BoxRow {
    pub rect: Rect,
    pub row: u16,
    pub is_focused: bool,
}

/// A window's cell as a view shows it: without protection, and reversed if the screen is.
fn shown_cell(cell: Cell, is_inverted: bool) -> Cell
    ensures { result ≡ shown_cell_of is_inverted cell }
{
    let is_reversed = cell.rendition.is_reversed();
    let shown = Attribute::Reversed(if is_inverted {
        !is_reversed
    } else {
        is_reversed
    });
    Cell {
        rendition: cell.rendition.with(shown),
        is_protected: false,
        ..cell
    }
}

/// Turns cells of a window into those that a view shows.
fn show_cells(cells: &mut [Cell], is_inverted: bool)
    ensures width { length cells.new ≡ length cells.old }
    ensures shown { (column : ℕ) → column < length cells.old
        → cell_at cells.new column ≡ shown_cell_of is_inverted (cell_at cells.old column) }
{
    if is_inverted {
        for column in 0..cells.len() {
            cells[column] = shown_cell(cells[column], true);
        }
    } else {
        unprotect(cells);
    }
}

/// Removes the protection of cells.
fn unprotect(cells: &mut [Cell])
    ensures width { length cells.new ≡ length cells.old }
    ensures shown { (column : ℕ) → column < length cells.old
        → cell_at cells.new column ≡ shown_cell_of false (cell_at cells.old column) }
{
    for column in 0..cells.len() {
        cells[column].is_protected = false;
    }
}

/// The index of the first line to be shown in `rows` rows, such that the cursor's line is among
/// them.
pub(crate) fn first_shown(contents: &Contents, rows: usize) -> usize
    ensures { result ≡ first_shown_of rows (window_of contents.now).cursor }
{
    match contents.cursor {
        Some((line, _)) => line.saturating_sub(rows.saturating_sub(1)),
        None => 0,
    }
}

/// The cells of a line in this number of columns, with blanks after the line. A wide character may
/// be cut in two at the end.
fn whole_row(
    line: &[Cell],
    columns: usize,
    is_inverted: bool,
    row: &mut Vec<Cell>,
) -> Result<(), AllocError>
    ensures { OnOk result (IsRow (whole_cell is_inverted line.now) columns row.new.items) }
{
    let kept = line.len().min(columns);
    row.clear();
    row.extend_from_slice(&line[..kept])?;
    show_cells(row.as_mut_slice(), is_inverted);
    row.resize(columns, Cell::BLANK)?;
    Ok(())
}

/// Puts a blank in place of the left half of a wide character in the last column.
fn cut_end(row: &mut [Cell])
    ensures { IsRow (cut_cell row.old) (length row.old) row.new }
{
    let columns = row.len();
    if 0 < columns && row[columns - 1].is_left() {
        row[columns - 1] = Cell::BLANK;
    }
}

/// The cells of a line in this number of columns; a blank stands for half of a wide character at
/// the end.
fn line_row(
    line: &[Cell],
    columns: usize,
    is_inverted: bool,
    row: &mut Vec<Cell>,
) -> Result<(), AllocError>
    ensures { OnOk result (IsRow (line_cell is_inverted line.now columns) columns row.new.items) }
{
    whole_row(line, columns, is_inverted, row)?;
    cut_end(row.as_mut_slice());
    Ok(())
}

/// The cells that one of the rows of a window shows.
fn window_row(
    contents: &Contents,
    rows: usize,
    columns: usize,
    row: usize,
    cells: &mut Vec<Cell>,
) -> Result<(), AllocError>
    ensures { OnOk result
        (IsWindowRow (window_of contents.now) rows columns row cells.new.items) }
{
    let place = first_shown(contents, rows).saturating_add(row);
    match contents.lines.get(place) {
        Some(line) => line_row(line, columns, contents.is_inverted, cells),
        None => line_row(&[], columns, contents.is_inverted, cells),
    }
}

/// The cells of a row of a region, above its caption.
fn part_row(
    pane: &Pane,
    rows: usize,
    columns: usize,
    row: usize,
    cells: &mut Vec<Cell>,
) -> Result<(), AllocError>
    ensures { OnOk result (IsPartRow (part_of pane.now) rows columns row cells.new.items) }
{
    match pane {
        Pane::Readable(contents) => window_row(contents, rows, columns, row, cells),
        _ => line_row(&[], columns, false, cells),
    }
}

/// Whether none of these cells is protected.
fn are_unprotected(cells: &[Cell]) -> bool
    ensures { IsTrue result → (column : ℕ) → column < length cells.now
        → (cell_at cells.now column).is_protected ≡ false }
{
    let mut is_any = false;
    for cell in cells {
        // With `||`, this would be a branch for each cell.
        is_any |= cell.is_protected;
    }
    !is_any
}

/// Whether the line can be shown unchanged: it has this number of columns, no protected cell, and
/// no wide character cut at its end.
fn is_shown_whole(line: &[Cell], columns: usize) -> bool
    ensures { IsTrue result → IsRow (line_cell false line.now columns) columns line.now }
{
    0 < columns && line.len() == columns && !line[columns - 1].is_left() && are_unprotected(line)
}

/// The line of a window that a row of a region's box shows unchanged, so that it needn't be copied;
/// `None` if the row shows no such line.
pub(crate) fn line_shown_whole<'a>(rect: Rect, pane: &Pane<'a>, row: u16) -> Option<&'a [Cell]>
    requires { row < rect.rows }
    ensures row { (is_focused : Bool)
        → IfSome result (λ line. IsBoxRow rect is_focused (part_of pane.now) row line.now) }
    ensures above { IfSome result (λ line. row + 1 < rect.rows) }
{
    let Pane::Readable(contents) = pane else {
        return None;
    };
    if row + 1 == rect.rows || contents.is_inverted {
        return None;
    }
    let rows = rect.rows as usize - 1;
    let place = first_shown(contents, rows).saturating_add(row as usize);
    match contents.lines.get(place) {
        Some(line) if is_shown_whole(line, rect.columns as usize) => Some(line),
        _ => None,
    }
}

/// The text of a region's caption. `AllocError` if memory is refused.
fn caption_text(alloc: Global, pane: &Pane) -> Result<String, AllocError>
    ensures { IfOk result (λ text. chars (string_bytes text) ≡ caption_of (part_of pane.now)) }
{
    match pane {
        Pane::Empty => String::from_str(alloc, "--"),
        Pane::Hidden { number } => {
            let number = *number;
            format!(in alloc; "{number} ?")
        }
        Pane::Readable(contents) => {
            let number = contents.number;
            let title = contents.title;
            format!(in alloc; "{number} {title}")
        }
    }
}

/// The cells of a region's caption, which is bold if the region has the focus.
fn caption_row(
    alloc: Global,
    pane: &Pane,
    columns: usize,
    is_focused: bool,
) -> Result<Vec<Cell>, AllocError>
    ensures row { IfOk result (λ r. IsCaptionRow is_focused (part_of pane.now) columns r.items) }
    ensures characters { OnOk result (HasScalarCaption (part_of pane.now)) }
{
    let text = caption_text(alloc, pane)?;
    let rendition = reverse().with(Attribute::Bold(is_focused));
    text_row(alloc, text.as_str(), columns, rendition)
}

/// The cells of a row of a region's box: a line of its window, or its caption. They are made in the
/// memory of the given cells, so that rows that are made one after another don't allocate each
/// time.
pub(crate) fn box_row(place: BoxRow, pane: &Pane, cells: &mut Vec<Cell>) -> Result<(), AllocError>
    requires { place.row < place.rect.rows }
    ensures row { OnOk result
        (IsBoxRow place.rect place.is_focused (part_of pane.now) place.row cells.new.items) }
    ensures characters { OnOk result
        (place.row + 1 ≡ place.rect.rows → HasScalarCaption (part_of pane.now)) }
{
    let BoxRow {
        rect,
        row,
        is_focused,
    } = place;
    let columns = rect.columns as usize;
    if row + 1 == rect.rows {
        let alloc = *cells.allocator();
        *cells = caption_row(alloc, pane, columns, is_focused)?;
        return Ok(());
    }
    part_row(pane, rect.rows as usize - 1, columns, row as usize, cells)
}
