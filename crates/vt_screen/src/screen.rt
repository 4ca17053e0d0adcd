//! The screen of a VT220.

ghost use Rattle.std.specs.Prelude.{◌≡◌, ℕ, ◌<◌, ◌≤◌, ◌↔◌, true, IsTrue, Err, IfOk, OnOk, OnErr, ◌∷◌, [], length};
ghost use Rattle.std.specs.Prelude.{option_copied, slice_get, slice_index, take};
ghost use Rattle.std.specs.List.{list_all, range_with_len};
ghost use Rattle.charsets.specs.Text.{IsText, text};
ghost use Rattle.charsets.specs.Units.{is_plain};
ghost use Rattle.cells.specs.Page.{IsGridSize, line_at};
ghost use Rattle.cells.specs.Line.{cell_at};
ghost use Rattle.terminal_model.specs.Screen.{IsSound, starting};
ghost use Rattle.terminal_model.specs.Sizing.{resized};
ghost use Rattle.terminal_model.specs.declared.action.Action.TheVariants.{CarriageReturn, LineFeed};
ghost use Rattle.vt_screen.specs.Runs.{PrintsAscii, prints};
ghost use Rattle.vt_screen.specs.Stored.{Performs};
ghost use Rattle.vt_screen.specs.Sizes.{IsScreenSize};

use crate::runs::prints_ascii;
use cells::{Cell, GridFault};
use charsets::Coding;
use scrollback::Ring;
use std::alloc::Global;
use std::marker::Model;
use terminal_model::{MAX_KEEP, Modes, Saved, State};
use vt_screen_page::Page;
use vt_screen_state::Tabs;

/// A page with its state, its tab stops, its saved place and its scrollback.
#[derive(Drop)]
pub struct Display {
    pub state: State,
    pub tabs: Tabs,
    pub saved: Option<Saved>,
    pub page: Page,
    pub ring: Ring,
}

// Wraps `Display`, which has no invariant: it would have to be shown after each field that a row
// sets.
/// The screen of a VT220: its page with everything that control functions change, and its
/// scrollback. Lines and columns count from 0. Only `new` and changes of size need memory.
#[derive(Drop)]
pub struct Screen {
    pub(crate) display: Display,
}

impl Model for Screen {
    ghost use Rattle.vt_screen.specs.Displays.{IsFit, screen_of};
    ghost use Rattle.vt_screen.specs.Stored.{Stored};

    ghost Value = { Stored };

    ghost view = { λ s. record { screen = screen_of s.display; places = s.display.page.places } };

    ghost invariant = { λ s. IsFit s.display };
}

impl Screen {
    /// A new screen, which keeps at most `keep` of the lines that scroll off its page. `BadSize` if
    /// the size isn't 2 to 200 lines by 2 to 300 columns or `keep` is above 2,000, `NoMemory` if
    /// memory is refused.
    pub fn new(alloc: Global, rows: usize, columns: usize, keep: usize) -> Result<Screen, GridFault>
        ensures ok { IfOk result (λ screen. screen.screen ≡ starting rows columns keep) }
        ensures places { IfOk result (λ screen. screen.places ≡ range_with_len 0 rows) }
        ensures size { IfOk result (λ _. IsScreenSize rows columns keep) }
        ensures bad_size { (result ≡ Err GridFault.BadSize) ↔ (¬ IsScreenSize rows columns keep) }
    {
        if keep > MAX_KEEP {
            return Err(GridFault::BadSize);
        }
        let display = Display::new(alloc, rows, columns, keep)?;
        Ok(Screen { display })
    }

    /// Whether characters 20 to 7E are printed as themselves: GL is ASCII, and no single shift is pending.
    pub fn prints_ascii(&self) -> bool
        ensures { IsTrue result ↔ PrintsAscii self.now.screen.state }
    {
        prints_ascii(&self.display.state)
    }

    /// Prints characters 20 to 7E, one after another, as `apply` does. It needs no memory.
    pub fn print_run(&mut self, codes: &[u8])
        requires { list_all is_plain codes.now ≡ true }
        ensures { Performs self.old (prints codes.now) self.new }
    {
        for code in codes {
            self.print_one(*code);
        }
    }

    /// Prints one character 20 to 7E. It needs no memory.
    #[inline(always)]
    pub fn print_one(&mut self, code: u8)
        requires { is_plain code ≡ true }
        ensures { Performs self.old (prints (code ∷ [])) self.new }
    {
        self.display.print_one(code);
    }

    /// Performs CR and LF, and prints characters 20 to 7E with which some bytes begin: as many as
    /// there is room for in a line, or none. Returns how many. It needs no memory.
    #[tactic(auto, using(crate::proofs::Turns::answers_prints))]
    pub fn print_line(&mut self, bytes: &[u8]) -> usize
        ensures plain { list_all is_plain (take result bytes.now) ≡ true }
        ensures few { result ≤ length bytes.now }
        ensures performed { Performs self.old
            (CarriageReturn ∷ LineFeed ∷ prints (take result bytes.now)) self.new }
    {
        self.display.print_line(bytes)
    }

    /// Prints graphic characters with which some bytes of UTF-8 begin, and returns their number of
    /// bytes. It may stop early, and returns 0 if the bytes begin with none. It needs no memory.
    #[tactic(auto, using(crate::proofs::Turns::answers_prints))]
    pub fn print_text(&mut self, bytes: &[u8]) -> usize
        ensures text { IsText (take result bytes.now) }
        ensures few { result ≤ length bytes.now }
        ensures performed { Performs self.old (prints (text (take result bytes.now))) self.new }
    {
        self.display.print_text(bytes)
    }

    /// Changes the size. The upper left part stays, of the kept lines too; the cursor and the saved
    /// place go to the nearest place, no wrap is pending, and margins and tab stops start anew.
    /// `BadSize` if the size isn't 2 to 200 lines by 2 to 300 columns, `NoMemory` if memory is
    /// refused; everything then stays as it was.
    pub fn resized(&mut self, rows: usize, columns: usize) -> Result<(), GridFault>
        ensures ok { OnOk result (self.new.screen ≡ resized rows columns self.old.screen) }
        ensures places { OnOk result (self.new.places ≡ range_with_len 0 rows) }
        ensures size { OnOk result (IsGridSize rows columns) }
        ensures err { OnErr result (self.new ≡ self.old) }
        ensures bad_size { (result ≡ Err GridFault.BadSize) ↔ (¬ IsGridSize rows columns) }
    {
        self.display.resized(rows, columns)?;
        Ok(())
    }

    /// The number of lines of the page.
    pub fn rows(&self) -> usize
        ensures value { result ≡ self.now.screen.state.rows }
        ensures sound { IsSound self.now.screen }
    {
        self.display.state.rows
    }

    /// The number of columns.
    pub fn columns(&self) -> usize
        ensures { result ≡ self.now.screen.state.columns }
    {
        self.display.state.columns
    }

    /// The cells of a line of the page, from left to right.
    pub fn row(&self, line: usize) -> &[Cell]
        requires { line < self.now.screen.state.rows }
        ensures cells { result.now ≡ line_at self.now.screen.page line }
        ensures width { length result.now ≡ self.now.screen.state.columns }
    {
        self.display.page.row(line)
    }

    /// The number of the stored line that holds a line of the page; no two lines share one. Under
    /// index, RI, IL and DL each line that stays keeps its stored line.
    pub fn place(&self, line: usize) -> usize
        requires { line < self.now.screen.state.rows }
        ensures value { result ≡ slice_index self.now.places line }
        ensures alone { (other : ℕ) → other < self.now.screen.state.rows
            → slice_index self.now.places other ≡ result → other ≡ line }
    {
        self.display.page.place(line)
    }

    /// The number of lines in the scrollback.
    pub fn kept_count(&self) -> usize
        ensures value { result ≡ length self.now.screen.kept }
        ensures sound { IsSound self.now.screen }
    {
        self.display.ring.len()
    }

    /// The cells of a line of the scrollback; line 0 is the newest. None if it keeps no such line.
    pub fn kept(&self, n: usize) -> Option<&[Cell]>
        ensures { option_copied result ≡ slice_get self.now.screen.kept n }
    {
        self.display.ring.line(n)
    }

    /// The cell at a place of the page.
    pub fn cell(&self, line: usize, column: usize) -> Cell
        requires line_inside { line < self.now.screen.state.rows }
        requires column_inside { column < self.now.screen.state.columns }
        ensures { result ≡ cell_at (line_at self.now.screen.page line) column }
    {
        self.row(line)[column]
    }

    /// The most lines that the scrollback keeps.
    pub fn keep(&self) -> usize
        ensures { result ≡ self.now.screen.keep }
    {
        self.display.ring.keep()
    }

    /// What it holds beside its page, tab stops, saved place and scrollback.
    pub fn state(&self) -> State
        ensures { result ≡ self.now.screen.state }
    {
        self.display.state
    }

    /// For each column whether it has a tab stop.
    pub fn stops(&self) -> &[bool]
        ensures { result.now ≡ self.now.screen.tabs }
    {
        self.display.tabs.stops()
    }

    /// What DECSC saved, if it saved anything.
    pub fn saved(&self) -> Option<Saved>
        ensures { result ≡ self.now.screen.saved }
    {
        self.display.saved
    }

    /// The cursor's line and column, counted from 0.
    pub fn cursor(&self) -> (usize, usize)
        ensures { result ≡ (self.now.screen.state.line, self.now.screen.state.column) }
    {
        (self.display.state.line, self.display.state.column)
    }

    /// The current modes.
    pub fn modes(&self) -> Modes
        ensures { result ≡ self.now.screen.state.modes }
    {
        self.display.state.modes
    }

    /// The coding in which the window writes.
    pub fn coding(&self) -> Coding
        ensures { result ≡ self.now.screen.state.coding }
    {
        self.display.state.coding
    }
}
