//! A line of cells.

ghost use Rattle.std.specs.Prelude.{◌≡◌, ◌+◌, ◌-◌, ◌<◌, ◌≤◌, min, [], ◌∷◌, length, replicate, IfOk};
ghost use Rattle.std.specs.Prelude.{IsTrue, false, take, slice_set};
ghost use Rattle.charsets.specs.Text.{text};
ghost use Rattle.cells.specs.Line.{cells_from, cells_spliced, cell_at, marked, IsPaired, IsBlankFrom, blank};
ghost use Rattle.cells.specs.Line.{unprotected_erased, narrow_cells, ArePlainFrom, plain};
ghost use Rattle.cells.specs.Texts.{text_cells, PutsText};
ghost use Rattle.cells.specs.Resizing.{line_resized};

use crate::cell::{Cell, Shape};
use crate::edits::blank_all;
use crate::rendition::Rendition;
use crate::shifting::splice_used;
use crate::texts::Put;
use crate::{edits, texts};
use std::alloc::{AllocError, Global};
use std::marker::Model;

/// Blanks every cell; those from `used` on are blank already. If `is_plain`, all cells differ from
/// blanks in their characters only, and only characters are written.
fn clear_used(cells: &mut [Cell], used: usize, is_plain: bool)
    requires inside { used ≤ length cells.old }
    requires blank { IsBlankFrom used cells.old }
    requires plain { IsTrue is_plain → ArePlainFrom 0 cells.old }
    ensures { cells.new ≡ replicate (length cells.old) blank }
{
    if is_plain {
        edits::blank_plain(cells, 0, used);
        return;
    }
    blank_all(&mut cells[..used]);
}

/// Blanks every cell but the first ones, one for each of `codes`, which a run of characters of
/// width 1 takes. The cells from `used` on are blank already. If `is_plain`, only characters are
/// written.
#[inline(always)]
fn clear_behind_run(cells: &mut [Cell], used: usize, is_plain: bool, codes: &[u8])
    requires inside { used ≤ length cells.old }
    requires blank { IsBlankFrom used cells.old }
    requires plain { IsTrue is_plain → ArePlainFrom 0 cells.old }
    requires room { length codes.now ≤ length cells.old }
    ensures { cells.new ≡ cells_spliced 0 (narrow_cells codes.now plain false)
        (length codes.now) (replicate (length cells.old) blank) }
{
    if is_plain {
        edits::put_run_over_plain(cells, 0, codes);
        edits::blank_plain(cells, codes.len(), used);
    } else {
        clear_used(cells, used, false);
        edits::put_run_over_plain(cells, 0, codes);
    }
}

/// The column from which on a line is blank, after its cells from `rest` on were moved to `start`.
fn used_after(used: usize, start: usize, rest: usize, width: usize) -> usize
    requires used { used ≤ width }
    requires room { start ≤ width }
    ensures { result ≡ min (used - rest + start) width }
{
    if start == rest {
        return used.max(start);
    }
    used.saturating_sub(rest).saturating_add(start).min(width)
}

/// A line of cells, in which the halves of wide characters are paired. Its width never changes.
pub struct Line {
    cells: Vec<Cell>,
    /// The cells from this column on are blank, so `clear` can leave them alone.
    used: usize,
    /// If true, all cells are of width 1 without rendition, marks or protection, so only their
    /// characters have to be written.
    is_plain: bool,
}

impl Drop for Line {
    fn drop(self) {
        let Line {
            cells: _,
            used: _,
            is_plain: _,
        } = self;
    }
}

impl Model for Line {
    ghost use Rattle.std.specs.Prelude.{List};
    ghost use Rattle.cells.specs.declared.cell.Cell.{Cell};
    ghost use Rattle.cells.specs.Line.{IsNoted};

    ghost Value = { List Cell };

    ghost view = { λ line. line.cells.items };

    ghost invariant = { λ line. IsNoted line.used line.is_plain line.cells.items };
}

impl Line {
    /// Makes a line of blanks.
    pub fn blank(alloc: Global, width: usize) -> Result<Line, AllocError>
        ensures { IfOk result (λ line. line ≡ replicate width blank) }
    {
        let cells = vec![in alloc; Cell::BLANK; width]?;
        Ok(Line {
            cells,
            used: 0,
            is_plain: true,
        })
    }

    /// Copies the line.
    pub fn copied(&self, alloc: Global) -> Result<Line, AllocError>
        ensures { IfOk result (λ line. line ≡ self.now) }
    {
        let mut cells = Vec::with_capacity(alloc, self.cells.len())?;
        cells.extend_from_slice(self.cells.as_slice())?;
        Ok(Line {
            cells,
            used: self.used,
            is_plain: self.is_plain,
        })
    }

    /// The number of cells.
    pub fn width(&self) -> usize
        ensures { result ≡ length self.now }
    {
        self.cells.len()
    }

    /// The cells, from left to right.
    pub fn cells(&self) -> &[Cell]
        ensures value { result.now ≡ self.now }
        ensures paired { IsPaired self.now }
    {
        self.cells.as_slice()
    }

    /// Blanks every cell.
    pub fn clear(&mut self)
        ensures { self.new ≡ replicate (length self.old) blank }
    {
        clear_used(self.cells.as_mut_slice(), self.used, self.is_plain);
        self.used = 0;
        self.is_plain = true;
    }

    /// Blanks every cell, and then puts characters of width 1 in the first columns. `codes` has
    /// their code points.
    #[inline(always)]
    pub fn clear_behind_run(&mut self, codes: &[u8])
        requires some { 0 < length codes.now }
        requires room { length codes.now ≤ length self.old }
        ensures { self.new ≡ cells_spliced 0 (narrow_cells codes.now plain false)
            (length codes.now) (replicate (length self.old) blank) }
    {
        clear_behind_run(self.cells.as_mut_slice(), self.used, self.is_plain, codes);
        self.used = codes.len();
        self.is_plain = true;
    }

    /// Puts a copy of one cell, of width 1, in every column.
    pub fn fill(&mut self, cell: Cell)
        requires narrow { cell.shape ≡ Shape.Narrow }
        ensures { self.new ≡ replicate (length self.old) cell }
    {
        self.cells.as_mut_slice().fill(cell);
        self.used = self.cells.len();
        self.is_plain = false;
    }

    /// Keeps the cells before `at` and puts `count` blanks there. The old cells from `rest` on
    /// follow the blanks, as far as the line has room; columns after them become blank.
    pub fn splice(&mut self, at: usize, count: usize, rest: usize)
        requires order { at ≤ rest }
        requires inside { rest ≤ length self.old }
        requires room { at + count ≤ length self.old }
        requires changes { at < rest + count }
        ensures { self.new ≡ cells_spliced at (replicate count blank) rest self.old }
    {
        self.used = splice_used(self.cells.as_mut_slice(), self.used, at, count, rest);
    }

    /// Puts a cell of width 1 at `at`; the old cells from `rest` on follow it.
    pub fn put_narrow(&mut self, at: usize, cell: Cell, rest: usize)
        requires order { at ≤ rest }
        requires inside { rest ≤ length self.old }
        requires room { at + 1 ≤ length self.old }
        requires narrow { cell.shape ≡ Shape.Narrow }
        ensures { self.new ≡ cells_spliced at (cell ∷ []) rest self.old }
    {
        edits::put_narrow(self.cells.as_mut_slice(), at, cell, rest);
        self.used = used_after(self.used, at + 1, rest, self.cells.len());
        self.is_plain = self.is_plain && cell.is_plain();
    }

    /// Puts both halves of a wide character at `at`; the old cells from `rest` on follow them.
    pub fn put_wide(&mut self, at: usize, left: Cell, right: Cell, rest: usize)
        requires order { at ≤ rest }
        requires inside { rest ≤ length self.old }
        requires room { at + 2 ≤ length self.old }
        requires left { left.shape ≡ Shape.Left }
        requires right { right.shape ≡ Shape.Right }
        ensures { self.new ≡ cells_spliced at (left ∷ right ∷ []) rest self.old }
    {
        edits::put_wide(self.cells.as_mut_slice(), at, left, right, rest);
        self.used = used_after(self.used, at + 2, rest, self.cells.len());
        self.is_plain = false;
    }

    /// Puts new cells over as many old ones, from `at` on. An old half that loses its other half
    /// becomes blank, and so does a new half without its other half beside it.
    pub fn put(&mut self, at: usize, fresh: &[Cell])
        requires room { at + length fresh.now ≤ length self.old }
        ensures { self.new ≡ cells_spliced at fresh.now (at + length fresh.now) self.old }
    {
        edits::put(self.cells.as_mut_slice(), at, fresh);
        self.used = self.used.max(at + fresh.len());
        self.is_plain = false;
    }

    /// A column from which on all cells are of width 1 without rendition, marks or protection.
    fn plain_from(&self) -> usize
        ensures { ArePlainFrom result self.now }
    {
        if self.is_plain { 0 } else { self.used }
    }

    /// Puts the text with which some bytes of UTF-8 begin over as many old cells as it takes columns,
    /// from `at` on, as far as there is room. An old half that loses its other half becomes blank.
    pub fn put_text(
        &mut self,
        at: usize,
        bytes: &[u8],
        rendition: Rendition,
        is_protected: bool,
    ) -> Put
        requires inside { at ≤ length self.old }
        ensures put { PutsText bytes.now rendition is_protected (length self.old - at) result }
        ensures cells { self.new ≡ cells_spliced at
            (text_cells (text (take result.read bytes.now)) rendition is_protected)
            (at + result.count) self.old }
    {
        let space = Cell::narrow(' ', rendition, is_protected);
        let plain_from = self.plain_from();
        let cells = self.cells.as_mut_slice();
        let begun = texts::put_plain(cells, plain_from, at, bytes, &space);
        let is_all = begun == bytes.len() || bytes[begun] < 0x80 || at + begun == cells.len();
        if begun > 0 && is_all {
            self.used = self.used.max(at + begun);
            return Put {
                count: begun,
                last: 1,
                read: begun,
            };
        }
        let put = texts::put_text(cells, at, begun, bytes, &space);
        self.used = self.used.max(at + put.count);
        self.is_plain = false;
        put
    }

    /// Erases the unprotected cells from `from` up to but not including `end`.
    pub fn erase_unprotected(&mut self, from: usize, end: usize)
        requires order { from ≤ end }
        requires inside { end ≤ length self.old }
        ensures { self.new ≡ cells_from (unprotected_erased self.old from end) self.old }
    {
        edits::erase_unprotected(self.cells.as_mut_slice(), from, end);
    }

    /// Adds a mark to the cell of a column. A cell with two marks drops it.
    pub fn mark(&mut self, column: usize, mark: char)
        requires inside { column < length self.old }
        ensures { self.new ≡ slice_set self.old column (marked (cell_at self.old column) mark) }
    {
        let marks = self.cells[column].marks;
        self.cells[column].marks = marks.joined(mark);
        self.used = self.used.max(column + 1);
        self.is_plain = false;
    }

    /// Makes a line of another width with the same cells. New columns are blank, and so is a half
    /// that is cut off from its other half.
    pub fn resized(&self, alloc: Global, width: usize) -> Result<Line, AllocError>
        ensures { IfOk result (λ line. line ≡ line_resized width self.now) }
    {
        let mut line = Line::blank(alloc, width)?;
        let kept = width.min(self.width());
        line.put(0, &self.cells[..kept]);
        Ok(line)
    }
}
