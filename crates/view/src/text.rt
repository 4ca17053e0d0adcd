//! Texts of captions and of the status line.

ghost use Rattle.std.specs.Prelude.{◌≡◌, ◌<◌, ◌++◌, IfOk, OnOk, chars, false, length};
ghost use Rattle.cells.specs.Line.{cell_at, narrow_cell};
ghost use Rattle.view.specs.Texts.{visible as visible_of, uncut as uncut_of, char_cells};
ghost use Rattle.view.specs.Texts.{text_cells as text_cells_of, text_at};
ghost use Rattle.view.specs.Rows.{IsRow};

use cells::{Cell, Rendition, glyph_width};
use std::alloc::{AllocError, Global};
use unicode_width::UnicodeWidthChar;

/// The character that is shown for a character: U+FFFD for one without a width, and for the one of
/// width 3, which a terminal shows so too (UAX #11).
fn visible(character: char) -> char
    ensures { result ≡ visible_of character }
{
    let width = character.width().unwrap_or(0);
    if 0 < width && width <= 2 {
        character
    } else {
        '\u{FFFD}'
    }
}

/// The cell in one of the columns, or `other` for half of a wide character at the edge.
fn uncut(cell: Cell, column: usize, columns: usize, other: Cell) -> Cell
    requires { column < columns }
    ensures { result ≡ uncut_of columns column cell other }
{
    if column + 1 == columns && cell.is_left() {
        other
    } else {
        cell
    }
}

/// Appends the cells of a character.
fn push_character(
    cells: &mut Vec<Cell>,
    character: char,
    rendition: Rendition,
) -> Result<(), AllocError>
    ensures { OnOk result (cells.new.items ≡ cells.old.items ++ char_cells rendition character) }
{
    if glyph_width(character) == 2 {
        cells.push(Cell::left(character, rendition, false))?;
        cells.push(Cell::right(character, rendition, false))?;
    } else {
        cells.push(Cell::narrow(visible(character), rendition, false))?;
    }
    Ok(())
}

/// The cells of a whole text. Memory is first taken for this number of columns, in which most texts
/// have room.
fn text_cells(
    alloc: Global,
    text: &str,
    columns: usize,
    rendition: Rendition,
) -> Result<Vec<Cell>, AllocError>
    ensures { IfOk result (λ cells. cells.items ≡ text_cells_of rendition (chars text.now)) }
{
    let mut cells = Vec::with_capacity(alloc, columns)?;
    for character in text.chars() {
        push_character(&mut cells, character, rendition)?;
    }
    Ok(cells)
}

/// Puts a space of this rendition in place of the left half of a wide character in the last column.
fn cut_end(row: &mut [Cell], rendition: Rendition)
    ensures { IsRow (λ column. uncut_of (length row.old) column (cell_at row.old column)
        (narrow_cell 32 rendition false)) (length row.old) row.new }
{
    let columns = row.len();
    if 0 < columns {
        let space = Cell::narrow(' ', rendition, false);
        row[columns - 1] = uncut(row[columns - 1], columns - 1, columns, space);
    }
}

/// The cells of a row of `columns` columns that shows this text, cut at the edge and filled up with
/// blanks of its rendition.
pub(crate) fn text_row(
    alloc: Global,
    text: &str,
    columns: usize,
    rendition: Rendition,
) -> Result<Vec<Cell>, AllocError>
    ensures { IfOk result
        (λ row. IsRow (text_at rendition (chars text.now) columns) columns row.items) }
{
    let mut row = text_cells(alloc, text, columns, rendition)?;
    row.resize(columns, Cell::narrow(' ', rendition, false))?;
    cut_end(row.as_mut_slice(), rendition);
    Ok(row)
}
