//! One window, and its title.

ghost use Rattle.std.specs.Prelude.{◌≡◌, true, IfOk, IfErr, OnOk, OnErr, length};
ghost use Rattle.emulator.specs.Commanded.{writing_in};
ghost use Rattle.windows_model.specs.Table.{is_window_size};
ghost use Rattle.std.specs.List.{list_all};
ghost use Rattle.std.specs.Str.{chars};
ghost use Rattle.windows_model.specs.Naming.{is_title, has_columns};

use cells::Cell;
use emulator::{Emulator, Writing};
use std::alloc::{AllocError, Global};
use terminal_model::REPORT_BYTES;
use unicode_width::UnicodeWidthChar;
use windows_model::{Serial, WindowsFault};

/// The greatest length of a title, in characters.
const LONGEST_TITLE: usize = 40;

/// Whether the character has width 1 or 2 (UAX #11).
fn is_one_or_two(c: char) -> bool
    ensures { result ≡ has_columns c }
{
    matches!(c.width(), Some(1 | 2))
}

/// Whether each character of the text has width 1 or 2 (UAX #11).
fn has_columns(text: &str) -> bool
    ensures { result ≡ list_all has_columns (chars text.now) }
{
    text.chars().all(is_one_or_two)
}

/// The number of a text's characters.
fn char_count(text: &str) -> usize
    ensures { result ≡ length (chars text.now) }
{
    text.chars().count()
}

/// Whether the text is a title: 1 to 40 characters, each of width 1 or 2 (UAX #11).
pub fn is_title(title: &str) -> bool
    ensures { result ≡ is_title title.now }
{
    let count = char_count(title);
    0 < count && count <= LONGEST_TITLE && has_columns(title)
}

/// The screen of a program, with its serial, its number and its title.
#[derive(Drop)]
pub struct Window {
    pub serial: u32,
    pub number: u8,
    pub title: String,
    pub emulator: Emulator,
}

impl Serial for Window {
    ghost serial_of = { λ w. w.serial };

    fn serial(&self) -> u32 {
        self.serial
    }
}

/// The size of a window: its lines, its columns, and how many lines it keeps of those that left its
/// page at the top.
#[derive(Clone, Copy)]
pub struct WindowSize {
    pub rows: u16,
    pub columns: u16,
    pub keep: u16,
}

/// Whether a window may have this size: 2 to 200 lines by 2 to 300 columns, and at most 2,000 lines
/// above its page.
pub fn is_window_size(rows: u16, columns: u16, keep: u16) -> bool
    ensures { result ≡ is_window_size rows columns keep }
{
    2 <= rows && rows <= 200 && 2 <= columns && columns <= 300 && keep <= 2000
}

impl Window {
    ghost use Rattle.windows_model.specs.declared.rows.WindowsFault.TheVariants.{NoMemory};
    ghost use Rattle.windows.specs.Standing.{WindowStands, new_row};
    ghost use Rattle.windows.specs.Rows.{KeepsName};
    ghost use Rattle.windows.specs.Showing.{AreLines};
    ghost use Rattle.windows.specs.Writing.{Writes, Retitles, Resizes, HasFed};

    /// A window that opens, with a blank screen. `NoMemory` if memory is refused.
    pub(crate) fn new(
        alloc: Global,
        serial: u32,
        number: u8,
        size: WindowSize,
        title: &str,
    ) -> Result<Window, WindowsFault>
        requires { is_window_size size.rows size.columns size.keep ≡ true }
        ensures ok { IfOk result (WindowStands
            (new_row serial number size.rows size.columns size.keep title.now)) }
        ensures err { IfErr result (λ fault. fault ≡ NoMemory) }
    {
        let (rows, columns, keep) = (
            size.rows as usize,
            size.columns as usize,
            size.keep as usize,
        );
        let emulator = match Emulator::new(alloc, rows, columns, keep) {
            Ok(emulator) => emulator,
            Err(_) => return Err(WindowsFault::NoMemory),
        };
        let title = String::from_str(alloc, title)?;
        Ok(Window {
            serial,
            number,
            title,
            emulator,
        })
    }

    /// Reads output of the window's program, and appends what its terminal answers. If it is
    /// refused, nothing has changed.
    pub(crate) fn feed_all(&mut self, bytes: &[u8], out: &mut Vec<u8>) -> Result<(), WindowsFault>
        ensures ok { OnOk result (HasFed self.old bytes.now out.old.items out.new.items self.new) }
        ensures err { IfErr result (λ fault. fault ≡ NoMemory) }
        ensures name { KeepsName self.old self.new }
        ensures window { OnErr result (self.new ≡ self.old) }
        ensures reports { OnErr result (out.new.items ≡ out.old.items) }
    {
        let Some(room) = bytes.len().checked_mul(REPORT_BYTES) else {
            return Err(WindowsFault::NoMemory);
        };
        out.reserve(room)?;
        match self.emulator.feed_all(bytes, out) {
            Ok(()) => Ok(()),
            Err(_) => Err(WindowsFault::NoMemory),
        }
    }

    /// Gives the window another size. If it is refused, nothing has changed.
    pub(crate) fn resize(&mut self, rows: u16, columns: u16) -> Result<(), WindowsFault>
        requires { is_window_size rows columns 0 ≡ true }
        ensures answer { Resizes rows columns self.old result self.new }
        ensures name { KeepsName self.old self.new }
        ensures err { OnErr result (self.new ≡ self.old) }
    {
        match self.emulator.resized(rows as usize, columns as usize) {
            Ok(()) => Ok(()),
            Err(_) => Err(WindowsFault::NoMemory),
        }
    }

    /// Gives the window another title. If it is refused, nothing has changed.
    pub(crate) fn retitle(&mut self, alloc: Global, title: &str) -> Result<(), WindowsFault>
        ensures answer { Retitles title.now self.old result self.new }
        ensures name { KeepsName self.old self.new }
        ensures err { OnErr result (self.new ≡ self.old) }
    {
        if !is_title(title) {
            return Err(WindowsFault::BadTitle);
        }
        self.title = String::from_str(alloc, title)?;
        Ok(())
    }

    /// Writes what a command writes to the window's terminal.
    pub(crate) fn write(&mut self, what: Writing)
        ensures writes { Writes (writing_in what) self.old self.new }
        ensures name { KeepsName self.old self.new }
    {
        self.emulator.write(what);
    }

    /// The lines of the page, moved back by `back` kept lines, or by all if there are fewer.
    /// `AllocError` if memory is refused.
    pub fn lines(&self, alloc: Global, back: usize) -> Result<Vec<&[Cell]>, AllocError>
        ensures { IfOk result (λ lines. AreLines back self.now lines.items) }
    {
        let page = self.emulator.page(back);
        let mut lines = Vec::with_capacity(alloc, page.rows())?;
        for line in 0..page.rows() {
            lines.push(page.line(line))?;
        }
        Ok(lines)
    }
}
