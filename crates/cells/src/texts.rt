//! Text in UTF-8 that is put into cells as it is decoded.

ghost use Rattle.std.specs.Prelude.{◌≡◌, ◌+◌, ◌-◌, ◌<◌, ◌≤◌, false, true, length, take, IsTrue, slice_set};
ghost use Rattle.std.specs.List.{list_all};
ghost use Rattle.charsets.specs.Text.{text};
ghost use Rattle.charsets.specs.Units.{is_plain};
ghost use Rattle.cells.specs.Line.{blank, cell_at, cells_spliced, is_right, marked, narrow_cell, narrow_cells, plain};
ghost use Rattle.cells.specs.Line.{ArePlainFrom, IsPaired};
ghost use Rattle.cells.specs.Put.{mended, IsPut};
ghost use Rattle.cells.specs.Texts.{text_cells, PutsText};

use crate::cell::{Cell, Shape};
use crate::letters::{is_known_wide, is_letter, is_mark, is_plain};
use charsets::first_character;

/// Text that was put.
#[derive(Clone, Copy)]
pub struct Put {
    /// The columns that it takes.
    pub count: usize,
    /// The columns of its last character.
    pub last: usize,
    /// The bytes that it took.
    pub read: usize,
}

/// Puts the characters 20 to 7E with which some bytes begin over as many old cells, from `at` on, as
/// far as there is room, if they are put without rendition or protection over such cells. The old
/// cells from `plain_from` on differ from blanks in their characters only, so only characters are
/// written. Returns how many there are.
#[inline(always)]
pub fn put_plain(
    cells: &mut [Cell],
    plain_from: usize,
    at: usize,
    bytes: &[u8],
    space: &Cell,
) -> usize
    requires plain { ArePlainFrom plain_from cells.old }
    requires inside { at ≤ length cells.old }
    ensures few { result ≤ length bytes.now }
    ensures room { at + result ≤ length cells.old }
    ensures codes { list_all is_plain (take result bytes.now) ≡ true }
    ensures old { 0 < result → ArePlainFrom at cells.old }
    ensures new { 0 < result → space.now ≡ blank }
    ensures cells { IsPut at (narrow_cells (take result bytes.now) plain false)
        cells.old cells.new }
{
    if at < plain_from || !space.is_blank() {
        return 0;
    }
    let room = bytes.len().min(cells.len() - at);
    for count in 0..room {
        if !is_plain(bytes[count]) {
            return count;
        }
        cells[at + count].character = bytes[count] as char;
    }
    room
}

/// Puts the text with which some bytes begin over as many old cells as it takes columns, from `at`
/// on, as far as there is room, each in a copy of a space. The first `begun` bytes are characters
/// 20 to 7E that stand there already.
/// It isn't inlined, so that its loop stays tight.
#[inline(never)]
pub fn put_text(cells: &mut [Cell], at: usize, begun: usize, bytes: &[u8], space: &Cell) -> Put
    requires paired { IsPaired cells.old }
    requires space { space.now ≡ narrow_cell 0x20 space.now.rendition space.now.is_protected }
    requires few { begun ≤ length bytes.now }
    requires room { at + begun ≤ length cells.old }
    requires codes { list_all is_plain (take begun bytes.now) ≡ true }
    requires begun { IsPut at (narrow_cells (take begun bytes.now)
        space.now.rendition space.now.is_protected) cells.old cells.old }
    ensures more { begun ≤ result.count }
    ensures put { PutsText bytes.now space.now.rendition space.now.is_protected
        (length cells.old - at) result }
    ensures cells { cells.new ≡ cells_spliced at
        (text_cells (text (take result.read bytes.now)) space.now.rendition
        space.now.is_protected) (at + result.count) cells.old }
{
    let is_cut = cuts_wide(cells, at);
    let mut column = at + begun;
    let mut last = 1;
    let mut read = begun;
    while column < cells.len() && read < bytes.len() {
        let Some((character, size)) = first_character(&bytes[read..]) else {
            break;
        };
        if is_letter(character) {
            let mut cell = *space;
            cell.character = character;
            cells[column] = cell;
            column += 1;
            last = 1;
        } else if at < column && is_mark(character) {
            join_mark(cells, column - last, character);
        } else if column + 1 < cells.len() && is_known_wide(character) {
            write_halves(cells, column, space, character);
            column += 2;
            last = 2;
        } else {
            break;
        }
        read += size;
    }
    let count = column - at;
    if count > 0 {
        mend(cells, at, at + count, is_cut);
    }
    Put { count, last, read }
}

/// Whether the boundary before column `at` cuts a wide character.
#[inline(always)]
fn cuts_wide(cells: &[Cell], at: usize) -> bool
    ensures { result ≡ is_right (cell_at cells.now at).shape }
{
    at < cells.len() && cells[at].is_right()
}

/// Blanks the halves that have lost their other half to new cells, which stand from `at` up to but
/// not including `end`. `is_cut` says whether there is one before them.
#[inline(always)]
fn mend(cells: &mut [Cell], at: usize, end: usize, is_cut: bool)
    requires front { IsTrue is_cut → 0 < at }
    requires inside { at ≤ length cells.old }
    ensures { cells.new ≡ mended at end is_cut cells.old }
{
    if is_cut {
        cells[at - 1] = Cell::BLANK;
    }
    if cuts_wide(cells, end) {
        cells[end] = Cell::BLANK;
    }
}

/// Adds a mark to a cell. A cell with two marks drops it.
#[inline(always)]
fn join_mark(cells: &mut [Cell], column: usize, mark: char)
    requires { column < length cells.old }
    ensures { cells.new ≡ slice_set cells.old column (marked (cell_at cells.old column) mark) }
{
    let marks = cells[column].marks;
    cells[column].marks = marks.joined(mark);
}

/// Writes both halves of a wide character, each in a copy of a space.
#[inline(always)]
fn write_halves(cells: &mut [Cell], column: usize, space: &Cell, character: char)
    requires { column + 1 < length cells.old }
    ensures { cells.new ≡ slice_set
        (slice_set cells.old column (record space.now { character = character; shape = Shape.Left }))
        (column + 1) (record space.now { character = character; shape = Shape.Right }) }
{
    cells[column] = Cell {
        character,
        shape: Shape::Left,
        ..*space
    };
    cells[column + 1] = Cell {
        character,
        shape: Shape::Right,
        ..*space
    };
}
