//! A client's page as it is to be shown, and the panes that it is made of.

ghost use Rattle.std.specs.Prelude.{◌≡◌, ◌<◌, ◌≤◌, ◌↔◌, Err, length, IfOk, IfSome};
ghost use Rattle.cells.specs.Line.{IsPaired};
ghost use Rattle.cells.specs.Page.{IsGrid, IsGridSize, line_at};

use cells::{Cell, Grid, GridFault};
use std::alloc::{AllocError, Global};
use std::marker::Model;

/// What a region shows.
#[derive(Clone, Copy)]
pub enum Pane<'a> {
    /// No window.
    Empty,
    /// The window of this number, which the client's user may not read.
    Hidden { number: u8 },
    /// A window that the user may read.
    Readable(Contents<'a>),
}

/// What is shown of a readable window.
#[derive(Clone, Copy)]
pub struct Contents<'a> {
    pub number: u8,
    pub title: &'a str,
    /// Its lines: those of its page, or of its page moved back.
    pub lines: &'a [&'a [Cell]],
    /// The line and column of its cursor, from 0; `None` if the page is moved back.
    pub cursor: Option<(usize, usize)>,
    /// Text cursor enabled (DECTCEM).
    pub shows_cursor: bool,
    /// Reverse screen (DECSCNM).
    pub is_inverted: bool,
    pub modes: KeyModes,
}

/// Whether and at which place the cursor is shown. Lines and columns count from 0.
#[derive(Clone, Copy, Debug, PartialEq, Eq)]
pub enum Cursor {
    Hidden,
    At { line: u16, column: u16 },
}

/// What the keyboard sends: whether the cursor keys (DECCKM) and the keypad (DECKPAM) are in
/// application mode.
#[derive(Clone, Copy, Debug, PartialEq, Eq)]
pub struct KeyModes {
    pub has_application_arrows: bool,
    pub has_application_keypad: bool,
}

impl KeyModes {
    /// The modes with which a terminal starts.
    pub const NORMAL: KeyModes = KeyModes {
        has_application_arrows: false,
        has_application_keypad: false,
    };
}

/// A client's page as it is to be shown, with its cursor and the two modes of the keyboard.
#[derive(Drop)]
pub struct View {
    pub(crate) grid: Grid,
    pub(crate) cursor: Cursor,
    pub(crate) modes: KeyModes,
}

impl Model for View {
    ghost use Rattle.terminal_model.specs.Shows.{View as Shown};
    ghost use Rattle.view.specs.View.{place_of, view_with};

    ghost Value = { Shown };

    ghost view = { λ v. view_with v.grid (place_of v.cursor) v.modes };

    ghost use Rattle.view.specs.View.{IsView};

    ghost invariant = { λ v. IsView v.grid (place_of v.cursor) };
}

impl View {
    ghost use Rattle.view.specs.View.{HasSize, KeepsSize, LiesOn, blank_without_cursor, key_modes, place_of};
    ghost use Rattle.view.specs.View.{PutsCursor, PutsCells};

    /// A blank page of this size, with its cursor hidden. `BadSize` outside of 2 to 200 lines by 2
    /// to 300 columns; `NoMemory` if memory is refused.
    pub fn blank(alloc: Global, rows: usize, columns: usize) -> Result<View, GridFault>
        ensures ok { IfOk result (λ v. v ≡ blank_without_cursor rows columns) }
        ensures size { IfOk result (HasSize rows columns) }
        ensures bad_size { (result ≡ Err GridFault.BadSize) ↔ (¬ IsGridSize rows columns) }
    {
        Ok(View {
            grid: Grid::new(alloc, rows, columns)?,
            cursor: Cursor::Hidden,
            modes: KeyModes::NORMAL,
        })
    }

    /// A copy of the view. `AllocError` if memory is refused.
    pub fn copied(&self, alloc: Global) -> Result<View, AllocError>
        ensures { IfOk result (λ v. v ≡ self.now) }
    {
        Ok(View {
            grid: self.grid.copied(alloc)?,
            cursor: self.cursor,
            modes: self.modes,
        })
    }

    /// The view's page.
    pub fn grid(&self) -> &Grid
        ensures { result.now ≡ self.now.page }
    {
        &self.grid
    }

    /// The number of rows of its page.
    pub fn rows(&self) -> usize
        ensures value { result ≡ length self.now.page }
        ensures grid { IsGrid self.now.page }
        ensures few { length self.now.page ≤ 200 }
    {
        self.grid.rows()
    }

    /// The number of columns of its page.
    pub fn columns(&self) -> usize
        ensures value { result ≡ length (line_at self.now.page 0) }
        ensures few { result ≤ 300 }
    {
        self.grid.columns()
    }

    /// The cells of a row of its page, counted from 0.
    pub fn row(&self, line: usize) -> &[Cell]
        requires { line < length self.now.page }
        ensures cells { result.now ≡ line_at self.now.page line }
        ensures width { length result.now ≡ length (line_at self.now.page 0) }
        ensures few { length result.now ≤ 300 }
        ensures paired { IsPaired result.now }
    {
        self.grid.row(line)
    }

    /// The place of the cursor, or that it is hidden.
    pub fn cursor(&self) -> Cursor
        ensures cursor { place_of result ≡ self.now.cursor }
        ensures grid { IsGrid self.now.page }
        ensures inside { IfSome self.now.cursor (λ p. LiesOn self.now.page p) }
    {
        self.cursor
    }

    /// The modes of the keyboard.
    pub fn modes(&self) -> KeyModes
        ensures { result ≡ key_modes self.now }
    {
        self.modes
    }

    /// Shows the cursor at a place, or hides it. If the page has no such place, hides it.
    pub(crate) fn set_cursor(&mut self, cursor: Cursor)
        ensures size { KeepsSize self.old self.new }
        ensures value { PutsCursor cursor self.old self.new }
    {
        self.cursor = match cursor {
            Cursor::At { line, column }
                if (line as usize) < self.grid.rows() && (column as usize) < self.grid.columns() =>
                { cursor }
            _ => Cursor::Hidden,
        };
    }

    /// Puts cells at a place, counted from 0; does nothing if the page has no such place.
    pub(crate) fn put(&mut self, line: usize, column: usize, cells: &[Cell])
        ensures grid { IsGrid self.old.page }
        ensures size { KeepsSize self.old self.new }
        ensures value { PutsCells line column cells.now self.old self.new }
    {
        let columns = self.grid.columns();
        if line < self.grid.rows() && column <= columns && cells.len() <= columns - column {
            self.grid.write(line, column, cells);
        }
    }
}
