//! The open windows.

ghost use Rattle.std.specs.Prelude.{◌≡◌, List, [], true, Some, length, option_copied, IfOk, IfSome, OnOk, OnErr};
ghost use Rattle.emulator.specs.Commanded.{writing_in};

use crate::among::{Among, End, nearest};
use crate::numbers::{first_free, is_above, is_taken, numbered, numbered_by};
use crate::window::{Window, WindowSize, is_title};
use emulator::Writing;
use std::alloc::Global;
use std::marker::Model;
use windows_model::{Rows, WindowsFault};

/// The open windows, in the order of rising serials. No two of them have the same number.
pub struct Windows {
    rows: Rows<Window>,
}

impl Drop for Windows {
    fn drop(self) {
        let Windows { rows: _ } = self;
    }
}

impl Model for Windows {
    ghost use Rattle.std.specs.Prelude.{List};
    ghost use Rattle.windows.specs.declared.window.Window.{Window};

    ghost Value = { List Window };

    ghost view = { λ w. w.rows };

    ghost use Rattle.windows.specs.Rows.{AreRows};

    ghost invariant = { λ w. AreRows w.rows };
}

impl Windows {
    ghost use Rattle.windows_model.specs.Table as model;
    ghost use Rattle.windows_model.specs.Finding.{row_of};
    ghost use Rattle.windows_model.specs.Naming.{with_number, window_named, lowest, free_number};
    ghost use Rattle.windows.specs.declared.window.Window.{Window};
    ghost use Rattle.windows.specs.Standing.{StandFor, Finds, Answers, AnswersIfRoom, at_serial};
    ghost use Rattle.windows.specs.Standing.{written_in, fed_in, resized_in, retitled_in};
    ghost use Rattle.windows.specs.Standing.{renumbered, closed};
    ghost use Rattle.windows.specs.Asking.{FindsAfter, FindsBefore, Opens, IsFree, IsOneMore};
    ghost use Rattle.windows.specs.Asking.{IsNumberFor, Reports};
    ghost use Rattle.windows.specs.Among.{first_free, is_above};
    ghost use Rattle.windows.specs.Rows.{AreRows, ChangesRow, WritesRow, LosesRow, AddsRow};
    ghost use Rattle.windows_model.specs.Table.{is_window_size};

    /// A table without windows.
    pub fn new(alloc: Global) -> Windows
        ensures { result ≡ [] }
    {
        Windows {
            rows: Rows::new(alloc),
        }
    }

    /// The number of windows.
    pub fn len(&self) -> usize
        ensures { result ≡ length self.now }
    {
        self.rows.len()
    }

    /// The windows, beginning with the one that was opened first.
    pub fn as_slice(&self) -> &[Window]
        ensures { result.now ≡ self.now }
    {
        self.rows.as_slice()
    }

    /// The window with this serial; `None` if there is none.
    pub fn get(&self, serial: u32) -> Option<&Window>
        ensures row { option_copied result ≡ row_of (λ (w : Window). w.serial) self.now serial }
        ensures finds { Finds (at_serial serial) self.now (option_copied result) }
        ensures rows { AreRows self.now }
    {
        self.rows.get(serial)
    }

    /// The window with this number; `None` if there is none.
    pub fn by_number(&self, number: u16) -> Option<&Window>
        ensures { Finds (λ rows. with_number rows number) self.now (option_copied result) }
    {
        numbered(self.rows.as_slice(), number)
    }

    /// The window that a word names: by its number, else by its title; among equal titles, the one
    /// with the lowest number. `None` if there is none.
    pub fn by_name(&self, word: &str) -> Option<&Window>
        ensures { Finds (λ rows. window_named rows word.now) self.now (option_copied result) }
    {
        let rows = self.rows.as_slice();
        let titled = nearest(rows, End::Lowest, Among::Titled(word));
        numbered_by(rows, word).or(titled)
    }

    /// The window with the lowest number; `None` if there are no windows.
    pub fn lowest(&self) -> Option<&Window>
        ensures { Finds lowest self.now (option_copied result) }
    {
        nearest(self.rows.as_slice(), End::Lowest, Among::All)
    }

    /// The window with the next higher number; after the highest, or without a number, the lowest.
    /// `None` if there are no windows.
    pub fn after(&self, number: Option<u8>) -> Option<&Window>
        ensures { FindsAfter number self.now (option_copied result) }
    {
        let rows = self.rows.as_slice();
        let lowest = nearest(rows, End::Lowest, Among::All);
        nearest(rows, End::Lowest, Among::Above(number)).or(lowest)
    }

    /// The window with the next lower number; after the lowest, or without a number, the highest.
    /// `None` if there are no windows.
    pub fn before(&self, number: Option<u8>) -> Option<&Window>
        ensures { FindsBefore number self.now (option_copied result) }
    {
        let rows = self.rows.as_slice();
        let highest = nearest(rows, End::Highest, Among::All);
        nearest(rows, End::Highest, Among::Below(number)).or(highest)
    }

    /// The lowest number from 0 to 39 that no window has; `None` if there is none.
    pub fn free_number(&self) -> Option<u8>
        ensures { (rows : List model.Window) → StandFor rows self.now → result ≡ free_number rows }
    {
        first_free(self.rows.as_slice())
    }

    /// The number of a window that opens with this serial: the lowest free one. `None` if there are
    /// 40 windows, or the serial isn't above those of all windows.
    fn number_for(&self, serial: u32) -> Option<u8>
        ensures number { IsNumberFor serial self.now result }
        ensures free { IfSome result (IsFree self.now) }
        ensures first { IfSome result (λ number. first_free self.now ≡ Some number) }
        ensures above { IfSome result (λ number. is_above serial self.now ≡ true) }
    {
        let rows = self.rows.as_slice();
        if is_above(rows, serial) {
            first_free(rows)
        } else {
            None
        }
    }

    /// Opens a window with the lowest free number, and returns that number. Errors: `Full` if there
    /// are 40 windows or the serial isn't above those of all windows; then `BadTitle`; and
    /// `NoMemory`. If it is refused, nothing has changed.
    pub fn open(
        &mut self,
        alloc: Global,
        serial: u32,
        size: WindowSize,
        title: &str,
    ) -> Result<u8, WindowsFault>
        requires { is_window_size size.rows size.columns size.keep ≡ true }
        ensures answer { Opens serial size.rows size.columns size.keep title.now
            self.old result self.new }
        ensures number { IfOk result (IsFree self.old) }
        ensures row { IfOk result (λ number. AddsRow serial number self.old self.new) }
        ensures last { OnOk result (IsOneMore self.old self.new) }
        ensures err { OnErr result (self.new ≡ self.old) }
    {
        let Some(number) = self.number_for(serial) else {
            return Err(WindowsFault::Full);
        };
        if !is_title(title) {
            return Err(WindowsFault::BadTitle);
        }
        let window = Window::new(alloc, serial, number, size, title)?;
        self.rows.push(window)?;
        Ok(number)
    }

    /// Closes the window with this serial. Error: `NoSuchWindow`.
    pub fn close(&mut self, serial: u32) -> Result<(), WindowsFault>
        ensures answer { Answers (closed serial) self.old result self.new }
        ensures alone { LosesRow serial self.old self.new }
        ensures err { OnErr result (self.new ≡ self.old) }
    {
        let Some(_window) = self.rows.get(serial) else {
            return Err(WindowsFault::NoSuchWindow);
        };
        self.rows.remove(serial);
        Ok(())
    }

    /// Closes all windows.
    pub fn close_all(&mut self)
        ensures { self.new ≡ [] }
    {
        self.rows.clear();
    }

    /// Gives the window with this serial another number. Errors: `NoSuchWindow`; `NumberTaken` if
    /// another window has the number.
    pub fn renumber(&mut self, serial: u32, number: u8) -> Result<(), WindowsFault>
        ensures answer { Answers (renumbered serial number) self.old result self.new }
        ensures alone { ChangesRow serial self.old self.new }
        ensures err { OnErr result (self.new ≡ self.old) }
    {
        let is_taken = is_taken(self.rows.as_slice(), serial, number);
        let Some(window) = self.rows.get_mut(serial) else {
            return Err(WindowsFault::NoSuchWindow);
        };
        if is_taken {
            return Err(WindowsFault::NumberTaken);
        }
        window.number = number;
        Ok(())
    }

    /// Gives the window with this serial another title. Errors: `NoSuchWindow`, `BadTitle`,
    /// `NoMemory`; nothing has changed then.
    pub fn retitle(&mut self, alloc: Global, serial: u32, title: &str) -> Result<(), WindowsFault>
        ensures answer { AnswersIfRoom (retitled_in serial title.now) self.old result self.new }
        ensures alone { WritesRow serial self.old self.new }
        ensures err { OnErr result (self.new ≡ self.old) }
    {
        let Some(window) = self.rows.get_mut(serial) else {
            return Err(WindowsFault::NoSuchWindow);
        };
        window.retitle(alloc, title)
    }

    /// Feeds output to the window with this serial, and appends what its terminal answers. Errors:
    /// `NoSuchWindow`, `NoMemory`; nothing has changed then.
    pub fn feed_all(
        &mut self,
        serial: u32,
        bytes: &[u8],
        out: &mut Vec<u8>,
    ) -> Result<(), WindowsFault>
        ensures answer { AnswersIfRoom (fed_in serial bytes.now) self.old result self.new }
        ensures alone { WritesRow serial self.old self.new }
        ensures reports { Reports serial bytes.now self.old result out.old.items out.new.items }
        ensures err { OnErr result ((self.new ≡ self.old) × (out.new.items ≡ out.old.items)) }
    {
        let Some(window) = self.rows.get_mut(serial) else {
            return Err(WindowsFault::NoSuchWindow);
        };
        window.feed_all(bytes, out)
    }

    /// Gives the window with this serial another size. Errors: `NoSuchWindow`, `NoMemory`; nothing
    /// has changed then.
    pub fn resize(&mut self, serial: u32, rows: u16, columns: u16) -> Result<(), WindowsFault>
        requires { is_window_size rows columns 0 ≡ true }
        ensures answer { AnswersIfRoom (resized_in serial rows columns) self.old result self.new }
        ensures alone { WritesRow serial self.old self.new }
        ensures err { OnErr result (self.new ≡ self.old) }
    {
        let Some(window) = self.rows.get_mut(serial) else {
            return Err(WindowsFault::NoSuchWindow);
        };
        window.resize(rows, columns)
    }

    /// Writes what a command writes to the window with this serial. Error: `NoSuchWindow`.
    pub fn write(&mut self, serial: u32, what: Writing) -> Result<(), WindowsFault>
        ensures answer { Answers (written_in serial (writing_in what)) self.old result self.new }
        ensures alone { WritesRow serial self.old self.new }
        ensures err { OnErr result (self.new ≡ self.old) }
    {
        let Some(window) = self.rows.get_mut(serial) else {
            return Err(WindowsFault::NoSuchWindow);
        };
        window.write(what);
        Ok(())
    }
}
