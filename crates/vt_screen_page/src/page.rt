//! The page of a screen.

ghost use Rattle.std.specs.Prelude.{◌≡◌, ℕ, ◌+◌, ◌-◌, ◌<◌, ◌≤◌, ◌↔◌, [], ◌∷◌, length, replicate, IfOk, Err, false};
ghost use Rattle.std.specs.Prelude.{slice_index, take};
ghost use Rattle.charsets.specs.Text.{text};
ghost use Rattle.cells.specs.Line.{blank, unprotected_erased, narrow_cells, plain};
ghost use Rattle.cells.specs.Texts.{text_cells, PutsText};
ghost use Rattle.cells.specs.Page.{IsGrid, IsGridSize, line_at, page_from, page_marked, page_spliced, edited};
ghost use Rattle.cells.specs.Moves.{scrolled_up, scrolled_down, erased_lines, filled};
ghost use Rattle.cells.specs.Resizing.{page_resized};
ghost use Rattle.scrollback.specs.Kept.{with_line, Continues};
ghost use Rattle.vt_screen_page.specs.Store.{placed_in_order, turned, turned_lines};

use crate::store;
use cells::{Cell, GridFault, Line, Put, Rendition, Shape, blank_lines, is_grid_size};
use scrollback::Ring;
use std::alloc::{AllocError, Global};
use std::marker::Model;

/// Where a cell stands on a page. Lines and columns count from 0.
#[derive(Clone, Copy)]
pub struct CellPosition {
    pub line: usize,
    pub column: usize,
}

/// A page of 2 to 200 lines of 2 to 300 cells, in which the halves of wide characters are paired.
/// Lines and columns count from 0. A scroll moves no cells. Only `new` and changes of size need
/// memory.
#[derive(Drop)]
pub struct Page {
    alloc: Global,
    stored: Vec<Line>,
    places: Vec<u8>, // the stored line of each line of the page
}

impl Model for Page {
    ghost use Rattle.vt_screen_page.specs.Store.{Placed, lines_in_order, IsStore};

    ghost Value = { Placed };

    ghost view = { λ page. record {
      lines = lines_in_order page.stored.items page.places.items;
      places = page.places.items;
    } };

    ghost invariant = { λ page. IsStore page.stored.items page.places.items };
}

impl Page {
    /// Makes a page of blanks. `BadSize` if the size isn't 2 to 200 lines by 2 to 300 columns,
    /// `NoMemory` if memory is refused.
    pub fn new(alloc: Global, rows: usize, columns: usize) -> Result<Page, GridFault>
        ensures ok { IfOk result
            (λ page. page ≡ placed_in_order rows (replicate rows (replicate columns blank))) }
        ensures size { IfOk result (λ _. IsGridSize rows columns) }
        ensures bad_size { (result ≡ Err GridFault.BadSize) ↔ (¬ IsGridSize rows columns) }
    {
        if !is_grid_size(rows, columns) {
            return Err(GridFault::BadSize);
        }
        Page::blank(alloc, rows, columns).map_err(|_| GridFault::NoMemory)
    }

    fn blank(alloc: Global, rows: usize, columns: usize) -> Result<Page, AllocError>
        requires { IsGridSize rows columns }
        ensures { IfOk result
            (λ page. page ≡ placed_in_order rows (replicate rows (replicate columns blank))) }
    {
        let stored = blank_lines(alloc, rows, columns)?;
        let places = store::places_in_order(alloc, rows)?;
        Ok(Page {
            alloc,
            stored,
            places,
        })
    }

    /// The number of lines.
    pub fn rows(&self) -> usize
        ensures value { result ≡ length self.now.lines }
        ensures grid { IsGrid self.now.lines }
    {
        self.places.len()
    }

    /// The number of columns.
    pub fn columns(&self) -> usize
        ensures { result ≡ length (line_at self.now.lines 0) }
    {
        self.stored[self.places[0] as usize].width()
    }

    /// The cells of a line, from left to right.
    pub fn row(&self, line: usize) -> &[Cell]
        requires { line < length self.now.lines }
        ensures { result.now ≡ line_at self.now.lines line }
    {
        self.stored[self.places[line] as usize].cells()
    }

    /// The number of the stored line that holds a line of the page. It needs no memory.
    pub fn place(&self, line: usize) -> usize
        requires { line < length self.now.lines }
        ensures value { result ≡ slice_index self.now.places line }
        ensures alone { (other : ℕ) → other < length self.now.lines
            → slice_index self.now.places other ≡ result → other ≡ line }
    {
        self.places[line] as usize
    }

    /// Puts `count` blanks into a line at `at`; its old cells from `rest` on follow them.
    pub fn splice(&mut self, line: usize, at: usize, count: usize, rest: usize)
        requires line_inside { line < length self.old.lines }
        requires order { at ≤ rest }
        requires inside { rest ≤ length (line_at self.old.lines line) }
        requires room { at + count ≤ length (line_at self.old.lines line) }
        requires changes { at < rest + count }
        ensures lines { self.new.lines
            ≡ page_spliced line at (replicate count blank) rest self.old.lines }
        ensures places { self.new.places ≡ self.old.places }
    {
        let place = self.places[line];
        self.stored[place as usize].splice(at, count, rest);
    }

    /// Puts a cell of width 1 into a line at `at`; its old cells from `rest` on follow it.
    pub fn put_narrow(&mut self, line: usize, at: usize, cell: Cell, rest: usize)
        requires line_inside { line < length self.old.lines }
        requires order { at ≤ rest }
        requires inside { rest ≤ length (line_at self.old.lines line) }
        requires room { at + 1 ≤ length (line_at self.old.lines line) }
        requires narrow { cell.shape ≡ Shape.Narrow }
        ensures lines { self.new.lines ≡ page_spliced line at (cell ∷ []) rest self.old.lines }
        ensures places { self.new.places ≡ self.old.places }
    {
        let place = self.places[line];
        self.stored[place as usize].put_narrow(at, cell, rest);
    }

    /// Puts both halves of a wide character at a place. The line's old cells from `rest` on follow
    /// them.
    pub fn put_wide(&mut self, at: CellPosition, left: Cell, right: Cell, rest: usize)
        requires line_inside { at.line < length self.old.lines }
        requires order { at.column ≤ rest }
        requires inside { rest ≤ length (line_at self.old.lines at.line) }
        requires room { at.column + 2 ≤ length (line_at self.old.lines at.line) }
        requires left { left.shape ≡ Shape.Left }
        requires right { right.shape ≡ Shape.Right }
        ensures lines { self.new.lines
            ≡ page_spliced at.line at.column (left ∷ right ∷ []) rest self.old.lines }
        ensures places { self.new.places ≡ self.old.places }
    {
        let place = self.places[at.line];
        self.stored[place as usize].put_wide(at.column, left, right, rest);
    }

    /// Puts the text with which some bytes of UTF-8 begin over as many old cells as it takes columns,
    /// from `at` on, as far as there is room. An old half that loses its other half becomes blank.
    pub fn put_text(
        &mut self,
        at: CellPosition,
        bytes: &[u8],
        rendition: Rendition,
        is_protected: bool,
    ) -> Put
        requires line_inside { at.line < length self.old.lines }
        requires inside { at.column ≤ length (line_at self.old.lines at.line) }
        ensures put { PutsText bytes.now rendition is_protected
            (length (line_at self.old.lines at.line) - at.column) result }
        ensures lines { self.new.lines ≡ page_spliced at.line at.column
            (text_cells (text (take result.read bytes.now)) rendition is_protected)
            (at.column + result.count) self.old.lines }
        ensures places { self.new.places ≡ self.old.places }
    {
        let place = self.places[at.line];
        self.stored[place as usize].put_text(at.column, bytes, rendition, is_protected)
    }

    /// Erases the unprotected cells of a line from `from` up to but not including `end`.
    pub fn erase_unprotected(&mut self, line: usize, from: usize, end: usize)
        requires line_inside { line < length self.old.lines }
        requires order { from ≤ end }
        requires inside { end ≤ length (line_at self.old.lines line) }
        ensures lines { self.new.lines ≡ page_from (edited line
            (unprotected_erased (line_at self.old.lines line) from end)) self.old.lines }
        ensures places { self.new.places ≡ self.old.places }
    {
        let place = self.places[line];
        self.stored[place as usize].erase_unprotected(from, end);
    }

    /// Adds a mark to the cell at a place. A cell with two marks drops it.
    pub fn mark(&mut self, line: usize, column: usize, mark: char)
        requires line_inside { line < length self.old.lines }
        requires inside { column < length (line_at self.old.lines line) }
        ensures lines { self.new.lines ≡ page_marked line column mark self.old.lines }
        ensures places { self.new.places ≡ self.old.places }
    {
        let place = self.places[line];
        self.stored[place as usize].mark(column, mark);
    }

    /// Blanks the lines from `first` up to but not including `end`.
    pub fn erase_lines(&mut self, first: usize, end: usize)
        requires order { first ≤ end }
        requires inside { end ≤ length self.old.lines }
        ensures lines { self.new.lines ≡ page_from (erased_lines first end) self.old.lines }
        ensures places { self.new.places ≡ self.old.places }
    {
        for line in first..end {
            let place = self.places[line];
            self.stored[place as usize].clear();
        }
    }

    /// Blanks the whole page.
    pub fn clear(&mut self)
        ensures lines { self.new.lines ≡ replicate (length self.old.lines)
            (replicate (length (line_at self.old.lines 0)) blank) }
        ensures places { self.new.places ≡ self.old.places }
    {
        store::fill_all(self.stored.as_mut_slice(), &Cell::BLANK);
    }

    /// Puts a copy of one cell, of width 1, at every place.
    pub fn fill(&mut self, cell: Cell)
        requires narrow { cell.shape ≡ Shape.Narrow }
        ensures lines { self.new.lines ≡ page_from (filled cell) self.old.lines }
        ensures places { self.new.places ≡ self.old.places }
    {
        store::fill_all(self.stored.as_mut_slice(), &cell);
    }

    /// Rotates the lines from `top` to `bottom`, so that the first `count` of them come last.
    #[inline(always)]
    fn turn(&mut self, top: usize, bottom: usize, count: usize)
        requires order { top ≤ bottom }
        requires inside { bottom < length self.old.lines }
        requires room { count ≤ bottom + 1 - top }
        ensures lines { self.new.lines ≡ page_from (turned_lines top bottom count) self.old.lines }
        ensures places { self.new.places ≡ turned top bottom count self.old.places }
    {
        store::turn(self.places.as_mut_slice(), top, bottom, count);
    }

    /// Moves the lines from `top` to `bottom` up by `count`. Lines that leave are lost, and blank
    /// ones come in at the bottom.
    pub fn scroll_up(&mut self, top: usize, bottom: usize, count: usize)
        requires order { top ≤ bottom }
        requires inside { bottom < length self.old.lines }
        requires room { count ≤ bottom + 1 - top }
        ensures lines { self.new.lines ≡ page_from (scrolled_up top bottom count) self.old.lines }
        ensures places { self.new.places ≡ turned top bottom count self.old.places }
    {
        prove!(bottom < self.places.len()); // at most 200, so the sums below fit
        self.erase_lines(top, top + count);
        self.turn(top, bottom, count);
    }

    /// Moves the lines from `top` to `bottom` down by `count`. Lines that leave are lost, and blank
    /// ones come in at the top.
    pub fn scroll_down(&mut self, top: usize, bottom: usize, count: usize)
        requires order { top ≤ bottom }
        requires inside { bottom < length self.old.lines }
        requires room { count ≤ bottom + 1 - top }
        ensures lines { self.new.lines ≡ page_from (scrolled_down top bottom count) self.old.lines }
        ensures places { self.new.places
            ≡ turned top bottom (bottom + 1 - top - count) self.old.places }
    {
        prove!(bottom < self.places.len()); // at most 200, so the sums below fit
        let kept = bottom + 1 - top - count;
        self.erase_lines(top + kept, bottom + 1);
        self.turn(top, bottom, kept);
    }

    /// Moves the lines from the first one to `bottom` up by one. The first line goes into the
    /// scrollback, which returns a line for reuse as the blank one at the bottom.
    pub fn scroll_into(&mut self, ring: &mut Ring, bottom: usize)
        requires inside { bottom < length self.old.lines }
        requires width { ring.old.columns ≡ length (line_at self.old.lines 0) }
        ensures lines { self.new.lines ≡ page_from (scrolled_up 0 bottom 1) self.old.lines }
        ensures places { self.new.places ≡ turned 0 bottom 1 self.old.places }
        ensures kept { ring.new ≡ with_line ring.old (line_at self.old.lines 0) }
        ensures stands { Continues ring.old ring.new (line_at self.old.lines 0) }
    {
        let place = self.places[0];
        let line = &mut self.stored[place as usize];
        ring.exchange(line);
        line.clear();
        self.turn(0, bottom, 1);
    }

    /// Moves the lines from the first one to `bottom` up by one. The first line goes into the
    /// scrollback, and the new line at the bottom begins with characters of width 1: `codes` has
    /// their code points.
    #[inline(always)]
    pub fn scroll_in_run(&mut self, ring: &mut Ring, bottom: usize, codes: &[u8])
        requires inside { bottom < length self.old.lines }
        requires width { ring.old.columns ≡ length (line_at self.old.lines 0) }
        requires some { 0 < length codes.now }
        requires room { length codes.now ≤ ring.old.columns }
        ensures lines { self.new.lines
            ≡ page_spliced bottom 0 (narrow_cells codes.now plain false) (length codes.now)
            (page_from (scrolled_up 0 bottom 1) self.old.lines) }
        ensures places { self.new.places ≡ turned 0 bottom 1 self.old.places }
        ensures kept { ring.new ≡ with_line ring.old (line_at self.old.lines 0) }
        ensures stands { Continues ring.old ring.new (line_at self.old.lines 0) }
    {
        let place = self.places[0];
        let line = &mut self.stored[place as usize];
        ring.exchange(line);
        line.clear_behind_run(codes);
        self.turn(0, bottom, 1);
    }

    /// Copies the page in another size. It keeps the upper left part; new places are blank, and so
    /// is a half that is cut off from its other half. `BadSize` if the size isn't 2 to 200 lines by
    /// 2 to 300 columns, `NoMemory` if memory is refused.
    pub fn with_size(&self, rows: usize, columns: usize) -> Result<Page, GridFault>
        ensures ok { IfOk result
            (λ page. page ≡ placed_in_order rows (page_resized rows columns self.now.lines)) }
        ensures size { IfOk result (λ _. IsGridSize rows columns) }
        ensures bad_size { (result ≡ Err GridFault.BadSize) ↔ (¬ IsGridSize rows columns) }
    {
        if !is_grid_size(rows, columns) {
            return Err(GridFault::BadSize);
        }
        self.in_size(rows, columns).map_err(|_| GridFault::NoMemory)
    }

    fn in_size(&self, rows: usize, columns: usize) -> Result<Page, AllocError>
        requires { IsGridSize rows columns }
        ensures { IfOk result
            (λ page. page ≡ placed_in_order rows (page_resized rows columns self.now.lines)) }
    {
        let stored = store::resized_lines(
            self.alloc,
            self.stored.as_slice(),
            self.places.as_slice(),
            rows,
            columns,
        )?;
        let places = store::places_in_order(self.alloc, rows)?;
        Ok(Page {
            alloc: self.alloc,
            stored,
            places,
        })
    }
}
