//! A VT220 that turns bytes into a page.

ghost use Rattle.std.specs.Prelude.{◌≡◌, ◌≤◌, ◌<◌, ◌+◌, ◌*◌, ◌↔◌, ◌++◌, Err, IfOk, IfErr, OnOk, OnErr, IsOk, IsTrue};
ghost use Rattle.std.specs.Prelude.{length, vec_len, vec_capacity};
ghost use Rattle.cells.specs.Page.{IsPage, IsGridSize};
ghost use Rattle.charsets.specs.Units.{unit_list};
ghost use Rattle.terminal_model.specs.Screen.{starting};
ghost use Rattle.terminal_model.specs.Reading.{Terminal, ready, read_unit, read_units, read_byte, reads};
ghost use Rattle.terminal_model.specs.Writing.{Size, reads_anew};
ghost use Rattle.vt_screen.specs.Sizes.{IsScreenSize};
ghost use Rattle.emulator.specs.Standing.{StandsFor, StandsWithin, HasRead, HasReadWithin, HasReadByte, HasTaken};
ghost use Rattle.emulator.specs.Standing.{TakesWriting, in_screen_coding, IsBetween};
ghost use Rattle.emulator.specs.Commanded.{writing_in, bytes_in};
ghost use Rattle.terminal_model.specs.Scrollback.{moved_back};

use crate::moved_page::MovedPage;
use cells::GridFault;
use charsets::{Coding, Decoder, Unit, Units};
use control_parser::Parser;
use std::alloc::{AllocError, Global};
use std::marker::Model;
use terminal_model::{Modes, REPORT_BYTES, Report};
use thiserror::Error;
use vt_screen::Screen;

/// What a command writes to a terminal, as if its window had written it.
#[derive(Clone, Copy)]
pub enum Writing {
    /// ED 2 and CUP: erases the page and moves the cursor home.
    Clear,
    /// RIS: sets all starting values.
    Reset,
    /// The terminal reads in this coding from here on.
    Encoding(Coding),
}

impl Writing {
    /// The escape sequences that do this.
    pub(crate) fn bytes(self) -> &'static [u8]
        ensures { result.now ≡ bytes_in self }
    {
        match self {
            Writing::Clear => b"\x1B[2J\x1B[H",
            Writing::Reset => b"\x1Bc",
            Writing::Encoding(Coding::Utf8) => b"\x1B%G",
            Writing::Encoding(Coding::Ecma35) => b"\x1B%@",
        }
    }
}

/// Memory for a report was refused. The first `read` bytes were read, and their reports appended.
#[derive(Clone, Copy, Debug, PartialEq, Eq, Error)]
#[error("out of memory after {read} bytes")]
pub struct Stopped {
    pub read: usize,
}

/// A VT220 that reads bytes, no matter how they are cut into pieces.
pub struct Emulator {
    pub(crate) decoder: Decoder,
    pub(crate) parser: Parser,
    pub(crate) screen: Screen,
}

impl Drop for Emulator {
    fn drop(self) {
        let Emulator {
            decoder: _,
            parser: _,
            screen: _,
        } = self;
    }
}

impl Model for Emulator {
    ghost use Rattle.emulator.specs.Standing.{Parts};

    ghost Value = { Parts };

    ghost view = { λ e.
        record { screen = e.screen.screen; decoding = e.decoder; parsing = e.parser } };
}

impl Emulator {
    /// A terminal that has read nothing, and keeps at most `keep` of the lines that scroll off its
    /// page. `BadSize` if the size isn't 2 to 200 lines by 2 to 300 columns or `keep` is above
    /// 2,000, `NoMemory` if memory is refused.
    pub fn new(
        alloc: Global,
        rows: usize,
        columns: usize,
        keep: usize,
    ) -> Result<Emulator, GridFault>
        ensures ok { IfOk result (λ e. StandsFor e (ready (starting rows columns keep))) }
        ensures size { IfOk result (λ _. IsScreenSize rows columns keep) }
        ensures bad_size { (result ≡ Err GridFault.BadSize) ↔ (¬ IsScreenSize rows columns keep) }
    {
        let screen = Screen::new(alloc, rows, columns, keep)?;
        Ok(Emulator {
            decoder: Decoder::new(),
            parser: Parser::new(),
            screen,
        })
    }

    /// Reads one byte and returns the answer, at most 24 bytes.
    pub fn feed(&mut self, byte: u8) -> Report
        ensures read { (t : Terminal) → StandsFor self.old t
            → HasReadByte (read_byte t byte) self.new result }
        ensures few { length result ≤ 24 }
    {
        let units = self.decoder.push(byte);
        let report = self.push_units(units);
        self.follow_coding();
        report
    }

    /// Reads bytes and appends the answers. If memory for them is refused, the error says how many
    /// bytes were read before. That can't happen if `out` has room for 24 more bytes for each byte.
    pub fn feed_all(&mut self, bytes: &[u8], out: &mut Vec<u8>) -> Result<(), Stopped>
        ensures ok { OnOk result ((t : Terminal) → StandsFor self.old t
            → HasRead t bytes.now out.old.items self.new out.new.items) }
        ensures err { IfErr result (λ stopped.
            HasTaken self.old bytes.now stopped.read out.old.items self.new out.new.items) }
        ensures read { IfErr result (λ stopped. stopped.read < length bytes.now) }
        ensures room { vec_len out.old + 24 * length bytes.now ≤ vec_capacity out.old
            → IsOk result }
    {
        let mut read = 0;
        'bytes: while read < bytes.len() {
            match self.feed_some(&bytes[read..], out) {
                Ok(count) => read += count,
                Err(_) => return Err(Stopped { read }),
            }
        }
        Ok(())
    }

    /// Reads all complete functions at the beginning of some bytes, or else the first byte, and
    /// appends the answers. Returns how many bytes it has read. If memory is refused, it has read
    /// none.
    fn feed_some(&mut self, bytes: &[u8], out: &mut Vec<u8>) -> Result<usize, AllocError>
        requires { 0 < length bytes.now }
        ensures ok { IfOk result (λ count.
            HasTaken self.old bytes.now count out.old.items self.new out.new.items) }
        ensures some { IfOk result (λ count. 0 < count) }
        ensures few { IfOk result (λ count. count ≤ length bytes.now) }
        ensures answers { IfOk result (λ count. vec_len out.new ≤ vec_len out.old + 24 * count) }
        ensures err { OnErr result (self.new ≡ self.old) }
        ensures none { OnErr result (out.new.items ≡ out.old.items) }
        ensures capacity { vec_capacity out.old ≤ vec_capacity out.new }
        ensures room { vec_len out.old + 24 ≤ vec_capacity out.old → IsOk result }
    {
        out.reserve(REPORT_BYTES)?;
        let count = self.read_pieces(bytes);
        if count > 0 {
            return Ok(count);
        }
        let report = self.feed(bytes[0]);
        append(&report, out);
        Ok(1)
    }

    /// Reads the units that one byte completes, and returns the answer.
    fn push_units(&mut self, units: Units) -> Report
        ensures read { (t : Terminal) → StandsWithin self.old t
            → HasReadWithin (read_units t (unit_list units)) self.new result }
        ensures decoding { self.new.decoding ≡ self.old.decoding }
        ensures few { length result ≤ 24 }
    {
        match units {
            Units::Nothing => Report::none(),
            Units::One(unit) => self.push_unit(unit),
            Units::Two(first, second) => {
                let mut report = self.push_unit(first);
                let next = self.push_unit(second);
                report.extend(next.as_slice());
                report
            }
        }
    }

    /// Reads one unit and returns the answer.
    fn push_unit(&mut self, unit: Unit) -> Report
        ensures read { (t : Terminal) → StandsWithin self.old t
            → HasReadWithin (read_unit t unit) self.new result }
        ensures decoding { self.new.decoding ≡ self.old.decoding }
        ensures few { length result ≤ 12 }
    {
        match self.parser.push(unit) {
            Some(func) => self.screen.apply(&func),
            None => Report::none(),
        }
    }

    /// From here on the decoder reads in the coding that the window asked for.
    fn follow_coding(&mut self)
        ensures decoding { self.new.decoding ≡ in_screen_coding self.old }
        ensures screen { self.new.screen ≡ self.old.screen }
        ensures parsing { self.new.parsing ≡ self.old.parsing }
    {
        let coding = self.screen.coding();
        if self.decoder.coding() != coding {
            self.decoder.set_coding(coding);
        }
    }

    /// Changes the size. An incomplete character, sequence or string stays. `BadSize` if the size
    /// isn't 2 to 200 lines by 2 to 300 columns, `NoMemory` if memory is refused; everything then
    /// stays as it was.
    pub fn resized(&mut self, rows: usize, columns: usize) -> Result<(), GridFault>
        ensures ok { OnOk result (TakesWriting self.old (Size rows columns) self.new) }
        ensures size { OnOk result (IsGridSize rows columns) }
        ensures err { OnErr result (self.new ≡ self.old) }
        ensures bad_size { (result ≡ Err GridFault.BadSize) ↔ (¬ IsGridSize rows columns) }
    {
        self.screen.resized(rows, columns)?;
        Ok(())
    }

    /// Lends the lines of the page, moved back by `offset` lines of the scrollback, or by all of
    /// them if they are fewer.
    pub fn page(&self, offset: usize) -> MovedPage<'_>
        ensures lines { result ≡ moved_back offset self.now.screen }
        ensures sized { IsPage self.now.screen.state.rows self.now.screen.state.columns result }
        ensures page { offset ≡ 0 → result ≡ self.now.screen.page }
    {
        MovedPage::of(&self.screen, offset)
    }

    /// Lends its screen.
    pub fn screen(&self) -> &Screen
        ensures { result.now.screen ≡ self.now.screen }
    {
        &self.screen
    }

    /// Whether no character, sequence or string is incomplete, and it reads in the coding that the window asked for.
    pub fn is_between(&self) -> bool
        ensures { IsTrue result ↔ IsBetween self.now.screen.state.coding self.now }
    {
        self.decoder.is_idle()
            && self.parser.is_idle()
            && self.decoder.coding() == self.screen.coding()
    }

    /// The cursor's line and column, counted from 0.
    pub fn cursor(&self) -> (usize, usize)
        ensures { result ≡ (self.now.screen.state.line, self.now.screen.state.column) }
    {
        self.screen.cursor()
    }

    /// The current modes.
    pub fn modes(&self) -> Modes
        ensures { result ≡ self.now.screen.state.modes }
    {
        self.screen.modes()
    }

    /// The number of lines of the page.
    pub fn rows(&self) -> usize
        ensures { result ≡ self.now.screen.state.rows }
    {
        self.screen.rows()
    }

    /// The number of columns.
    pub fn columns(&self) -> usize
        ensures { result ≡ self.now.screen.state.columns }
    {
        self.screen.columns()
    }

    /// Writes what a command writes. An incomplete character, sequence or string is dropped first.
    pub fn write(&mut self, what: Writing)
        ensures { TakesWriting self.old (writing_in what) self.new }
    {
        self.write_anew(what.bytes());
    }

    /// Drops an incomplete character, sequence or string, and reads bytes that aren't answered.
    fn write_anew(&mut self, bytes: &[u8])
        ensures { (t : Terminal) → StandsFor self.old t
            → StandsFor self.new (reads_anew t bytes.now).terminal }
    {
        self.decoder.set_coding(self.screen.coding());
        self.parser = Parser::new();
        'bytes: for byte in bytes {
            self.feed(*byte);
        }
    }
}

/// Appends a report to a list that has room for it.
fn append(report: &Report, out: &mut Vec<u8>)
    requires room { vec_len out.old + length report.now ≤ vec_capacity out.old }
    ensures items { out.new.items ≡ out.old.items ++ report.now }
    ensures len { vec_len out.new ≡ vec_len out.old + length report.now }
    ensures capacity { vec_capacity out.old ≤ vec_capacity out.new }
{
    if !report.is_empty() {
        let _ = out.extend_from_slice(report.as_slice());
    }
}
