//! Edits of the cells of a line.

ghost use Rattle.std.specs.Prelude.{◌≡◌, ◌+◌, ◌*◌, ◌-◌, ◌<◌, ◌≤◌, max, length, replicate, [], ◌∷◌, false, IsTrue};
ghost use Rattle.std.specs.List.{copy_within};
ghost use Rattle.cells.specs.Line.{cells_from, cells_spliced, IsPaired, cut_of, blank, unprotected_erased, fresh_at};
ghost use Rattle.cells.specs.Line.{narrow_cells, ArePlainFrom, IsBlankFrom, plain};
ghost use Rattle.cells.specs.Put.{AreNarrow, IsPut};

use crate::cell::{Cell, Shape};

/// The number of cells that are blanked one by one.
const FIRST: usize = 8;

/// Blanks every cell: the first ones, and then by copies of all that are blank, which is faster than a loop over cells.
pub fn blank_all(cells: &mut [Cell])
    ensures { cells.new ≡ replicate (length cells.old) blank }
{
    let mut done = cells.len().min(FIRST);
    cells[..done].fill(Cell::BLANK);
    while done < cells.len() {
        let more = done.min(cells.len() - done);
        cells.copy_within(..more, done);
        done += more;
    }
}

/// Blanks both halves of a wide character that the boundary before column `at` would cut.
pub fn cut(cells: &mut [Cell], at: usize)
    requires paired { IsPaired cells.old }
    ensures { cells.new ≡ cut_of at cells.old }
{
    if at > 0 && at < cells.len() && cells[at].is_right() {
        cells[at - 1] = Cell::BLANK;
        cells[at] = Cell::BLANK;
    }
}

/// Keeps the cells before `at` and puts `count` blanks there. The old cells from `rest` on follow
/// the blanks, as far as the line has room; columns after them become blank.
pub fn splice(cells: &mut [Cell], at: usize, count: usize, rest: usize)
    requires paired { IsPaired cells.old }
    requires order { at ≤ rest }
    requires inside { rest ≤ length cells.old }
    requires room { at + count ≤ length cells.old }
    requires changes { at < rest + count }
    ensures { cells.new ≡ cells_spliced at (replicate count blank) rest cells.old }
{
    let width = cells.len();
    let start = at + count;
    let moved = (width - rest).min(width - start);
    cut(cells, at);
    cut(cells, rest);
    cut(cells, rest + moved);
    copy_to(cells, rest, rest + moved, start);
    cells[at..start].fill(Cell::BLANK);
    cells[start + moved..].fill(Cell::BLANK);
}

/// Copies the cells from `from` up to but not including `end` to `to`. Does nothing if `to` is
/// `from`.
#[inline(always)]
fn copy_to(cells: &mut [Cell], from: usize, end: usize, to: usize)
    requires order { from ≤ end }
    requires inside { end ≤ length cells.old }
    requires room { to + (end - from) ≤ length cells.old }
    ensures { cells.new ≡ copy_within cells.old from end to }
{
    if from != to {
        cells.copy_within(from..end, to);
    }
}

/// Puts a cell of width 1 at `at`; the old cells from `rest` on follow it.
pub fn put_narrow(cells: &mut [Cell], at: usize, cell: Cell, rest: usize)
    requires paired { IsPaired cells.old }
    requires order { at ≤ rest }
    requires inside { rest ≤ length cells.old }
    requires room { at + 1 ≤ length cells.old }
    requires narrow { cell.shape ≡ Shape.Narrow }
    ensures { cells.new ≡ cells_spliced at (cell ∷ []) rest cells.old }
{
    if rest != at + 1 || !cells[at].is_narrow() {
        splice(cells, at, 1, rest);
    }
    cells[at] = cell;
}

/// Puts both halves of a wide character at `at`; the old cells from `rest` on follow them.
pub fn put_wide(cells: &mut [Cell], at: usize, left: Cell, right: Cell, rest: usize)
    requires paired { IsPaired cells.old }
    requires order { at ≤ rest }
    requires inside { rest ≤ length cells.old }
    requires room { at + 2 ≤ length cells.old }
    requires left { left.shape ≡ Shape.Left }
    requires right { right.shape ≡ Shape.Right }
    ensures { cells.new ≡ cells_spliced at (left ∷ right ∷ []) rest cells.old }
{
    if rest != at + 2 || cells[at].is_right() || cells[at + 1].is_left() {
        splice(cells, at, 2, rest);
    }
    cells[at] = left;
    cells[at + 1] = right;
}

/// The new cell of a column. A half without its other half beside it becomes a blank.
fn settled_fresh(fresh: &[Cell], column: usize) -> Cell
    requires { column < length fresh.now }
    ensures { result ≡ fresh_at fresh.now column }
{
    let cell = fresh[column];
    let is_whole = match cell.shape {
        Shape::Narrow => true,
        Shape::Left => column + 1 < fresh.len() && fresh[column + 1].is_right(),
        Shape::Right => column > 0 && fresh[column - 1].is_left(),
    };
    if is_whole { cell } else { Cell::BLANK }
}

/// Puts new cells over as many old ones, from `at` on.
pub fn put(cells: &mut [Cell], at: usize, fresh: &[Cell])
    requires paired { IsPaired cells.old }
    requires room { at + length fresh.now ≤ length cells.old }
    ensures { cells.new ≡ cells_spliced at fresh.now (at + length fresh.now) cells.old }
{
    if fresh.is_empty() {
        return;
    }
    cut(cells, at);
    cut(cells, at + fresh.len());
    if are_narrow(fresh) {
        copy_over(cells, at, fresh);
        return;
    }
    for column in 0..fresh.len() {
        cells[at + column] = settled_fresh(fresh, column);
    }
}

/// Whether all cells are of width 1.
fn are_narrow(cells: &[Cell]) -> bool
    ensures { IsTrue result → AreNarrow cells.now }
{
    for column in 0..cells.len() {
        if !cells[column].is_narrow() {
            return false;
        }
    }
    true
}

/// Copies cells of width 1 over as many old ones, from `at` on.
fn copy_over(cells: &mut [Cell], at: usize, fresh: &[Cell])
    requires room { at + length fresh.now ≤ length cells.old }
    requires narrow { AreNarrow fresh.now }
    ensures { IsPut at fresh.now cells.old cells.new }
{
    cells[at..at + fresh.len()].copy_from_slice(fresh);
}

/// Puts characters of width 1 without rendition or protection over as many cells, from `at` on.
/// `codes` has their code points. All old cells from `at` on differ from blanks in their characters
/// only, so only characters are written: eight at a time, which makes the loop itself cheap.
pub fn put_run_over_plain(cells: &mut [Cell], at: usize, codes: &[u8])
    requires plain { ArePlainFrom at cells.old }
    requires room { at + length codes.now ≤ length cells.old }
    ensures { IsPut at (narrow_cells codes.now plain false) cells.old cells.new }
{
    let eights = codes.len() / 8;
    for eight in 0..eights {
        for place in 0..8 {
            let column = 8 * eight + place;
            cells[at + column].character = codes[column] as char;
        }
    }
    for column in 8 * eights..codes.len() {
        cells[at + column].character = codes[column] as char;
    }
}

/// Blanks the cells from `from` up to but not including `end`. They differ from blanks in their
/// characters only, so only characters are written. The cells from `end` on are blank already, so
/// the last group of eight may reach past `end`, which saves a loop over the rest.
pub fn blank_plain(cells: &mut [Cell], from: usize, end: usize)
    requires plain { ArePlainFrom from cells.old }
    requires inside { end ≤ length cells.old }
    requires blank { IsBlankFrom (max from end) cells.old }
    ensures { IsPut from (replicate (end - from) blank) cells.old cells.new }
{
    let count = end.saturating_sub(from);
    let eights = (count + 7) / 8;
    if from + 8 * eights <= cells.len() {
        blank_eights(cells, from, eights);
        return;
    }
    for column in 0..count {
        cells[from + column].character = ' ';
    }
}

/// Blanks `eights` groups of eight cells, from `from` on. They differ from blanks in their
/// characters only.
#[inline(always)]
fn blank_eights(cells: &mut [Cell], from: usize, eights: usize)
    requires plain { ArePlainFrom from cells.old }
    requires room { from + 8 * eights ≤ length cells.old }
    ensures { IsPut from (replicate (8 * eights) blank) cells.old cells.new }
{
    for eight in 0..eights {
        for place in 0..8 {
            cells[from + (8 * eight + place)].character = ' ';
        }
    }
}

/// Erases the unprotected cells from `from` up to but not including `end`.
pub fn erase_unprotected(cells: &mut [Cell], from: usize, end: usize)
    requires paired { IsPaired cells.old }
    requires order { from ≤ end }
    requires inside { end ≤ length cells.old }
    ensures { cells.new ≡ cells_from (unprotected_erased cells.old from end) cells.old }
{
    for column in from..end {
        if !cells[column].is_protected {
            splice(cells, column, 1, column + 1);
        }
    }
}
