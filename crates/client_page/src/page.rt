//! The page of a window that stays, which the session's next server is told, and what the window's program prints while
//! no server has it.

ghost use Rattle.std.specs.Prelude.{◌≡◌, ◌≤◌, ◌++◌, false, [], length, IfOk, IfSome, OnOk, OnErr, Err, None};
ghost use Rattle.cells.specs.Page.{IsGridSize};
ghost use Rattle.terminal_model.specs.Reading.{ready};
ghost use Rattle.terminal_model.specs.Screen.{starting};
ghost use Rattle.emulator.specs.Standing.{StandsFor};
ghost use Rattle.client_page.specs.Kept.{TellsPage, Settles, TakesAll, ReadsAll, ReadsToEnd, TakesSize, Begins, Blanks};
ghost use Rattle.client_page.specs.Held.{Holds, HoldsLast, TellsAgain};

use cells::GridFault;
use client_words::Arguments;
use emulator::Emulator;
use rebuild::rebuild;
use std::alloc::{AllocError, Global};
use std::mem;

// So many bytes of what is printed while no server is there are kept: the newest ones.
const MOST_HELD: usize = 262_144;

/// A terminal that reads what a window's program prints.
#[derive(Drop)]
pub struct KeptPage {
    alloc: Global,
    /// None if nothing is kept: the window doesn't stay, or memory was refused.
    pub emulator: Option<Emulator>,
    /// The next server isn't told the page.
    pub is_hidden: bool,
    /// What the window's program printed while no server was there.
    pub held: Vec<u8>,
}

// A blank terminal.
fn blank(alloc: Global, rows: usize, columns: usize, keep: usize) -> Option<Emulator>
    ensures { IfSome result (λ e. StandsFor e (ready (starting rows columns keep))) }
{
    Emulator::new(alloc, rows, columns, keep).ok()
}

// A blank terminal for a window that stays.
fn begun(alloc: Global, arguments: &Arguments<'_>) -> Option<Emulator>
    ensures { Begins arguments.now result }
{
    if !arguments.subcommand.is_window() || arguments.again == 0 {
        return None;
    }
    let (rows, columns) = (usize::from(arguments.rows), usize::from(arguments.columns));
    blank(alloc, rows, columns, usize::from(arguments.keep))
}

// Reads until nothing is incomplete, or all bytes. Returns how many.
fn read_to_end(emulator: &mut Emulator, bytes: &[u8]) -> usize
    ensures few { result ≤ length bytes.now }
    ensures read { ReadsToEnd emulator.old bytes.now result emulator.new }
{
    let mut read = 0;
    'bytes: while read < bytes.len() && !emulator.is_between() {
        emulator.feed(bytes[read]);
        read += 1;
    }
    read
}

// Reads bytes one by one, which takes no memory.
fn read_each(emulator: &mut Emulator, bytes: &[u8])
    ensures { TakesAll emulator.old bytes.now emulator.new }
{
    let mut read = 0;
    'bytes: while read < bytes.len() {
        emulator.feed(bytes[read]);
        read += 1;
    }
}

// Reads all bytes. If memory for answers is refused, the rest is read one by one: nobody reads the answers.
fn read_all(alloc: Global, emulator: &mut Emulator, bytes: &[u8])
    ensures { TakesAll emulator.old bytes.now emulator.new }
{
    let mut answers = Vec::new(alloc);
    if let Err(stopped) = emulator.feed_all(bytes, &mut answers) {
        read_each(emulator, &bytes[stopped.read..]);
    }
}

impl KeptPage {
    /// A window that stays has a blank page of its size. There is none if memory is refused.
    pub fn new(alloc: Global, arguments: &Arguments<'_>) -> KeptPage
        ensures blank { Begins arguments.now result.emulator }
        ensures shown { result.is_hidden ≡ false }
        ensures none { result.held.items ≡ [] }
    {
        KeptPage {
            alloc,
            emulator: begun(alloc, arguments),
            is_hidden: false,
            held: Vec::new(alloc),
        }
    }

    /// Reads what the server reads. What is asked there, the server answers.
    pub fn read(&mut self, bytes: &[u8])
        ensures read { ReadsAll self.old.emulator bytes.now self.new.emulator }
        ensures same { self.new ≡ record self.old { emulator = self.new.emulator } }
    {
        let alloc = self.alloc;
        if let Some(emulator) = &mut self.emulator {
            read_all(alloc, emulator, bytes);
        }
    }

    /// Takes the window's new size. If it is none, or memory is refused, no page is kept from then on.
    pub fn resize(&mut self, rows: u16, columns: u16) -> Result<(), GridFault>
        ensures ok { OnOk result (TakesSize self.old.emulator rows columns self.new.emulator) }
        ensures err { OnErr result (self.new.emulator ≡ None) }
        ensures bad_size { result ≡ Err GridFault.BadSize → ¬ IsGridSize rows columns }
        ensures same { self.new ≡ record self.old { emulator = self.new.emulator } }
    {
        let Some(emulator) = &mut self.emulator else {
            return Ok(());
        };
        let taken = emulator.resized(usize::from(rows), usize::from(columns));
        if taken.is_err() {
            self.emulator = None;
        }
        taken
    }

    /// Reads the bytes that end an incomplete character, sequence or string, and returns how many these are.
    pub fn settle(&mut self, bytes: &[u8]) -> usize
        ensures few { result ≤ length bytes.now }
        ensures same { self.new ≡ record self.old { emulator = self.new.emulator } }
        ensures read { Settles self.old.emulator bytes.now result self.new.emulator }
    {
        match &mut self.emulator {
            Some(emulator) => read_to_end(emulator, bytes),
            None => 0,
        }
    }

    /// The bytes that bring the page back. None if there is no page, if it is hidden, or if no bytes do so; then the
    /// next page begins blank.
    pub fn told(&mut self) -> Option<Vec<u8>>
        ensures told { IfSome result (λ bytes. TellsPage self.old.emulator self.old.is_hidden bytes.items) }
        ensures stays { IfSome result (λ _. self.new ≡ self.old) }
        ensures blank { result ≡ None → Blanks self.old.emulator self.new.emulator }
        ensures same { self.new ≡ record self.old { emulator = self.new.emulator; is_hidden = false } }
    {
        let is_hidden = self.is_hidden;
        self.is_hidden = false;
        let Some(emulator) = &self.emulator else {
            return None;
        };
        if !is_hidden && let Ok(bytes) = rebuild(self.alloc, emulator) {
            return Some(bytes);
        }
        let keep = emulator.screen().keep();
        self.emulator = blank(self.alloc, emulator.rows(), emulator.columns(), keep);
        None
    }

    /// Holds what a window's program printed.
    pub fn hold(&mut self, bytes: &[u8]) -> Result<(), AllocError>
        ensures holds { OnOk result (Holds self.old bytes.now self.new) }
        ensures same { self.new ≡ record self.old { emulator = self.new.emulator; held = self.new.held } }
    {
        self.held.extend_from_slice(bytes)?;
        if self.held.len() > MOST_HELD.saturating_mul(2) {
            self.trim()?;
        }
        Ok(())
    }

    // Keeps the newest of the bytes that are held. The page reads the others.
    fn trim(&mut self) -> Result<(), AllocError>
        ensures last { OnOk result (HoldsLast self.old self.old.held.items self.new) }
        ensures same { self.new ≡ record self.old { emulator = self.new.emulator; held = self.new.held } }
    {
        let held = mem::replace(&mut self.held, Vec::new(self.alloc));
        let (old, new) = held.split_at(held.len().saturating_sub(MOST_HELD));
        self.read(old);
        self.held.extend_from_slice(new)
    }

    /// What the next server is told: the page, and what was held. Returns whether the page is a part of it.
    pub fn tell_again(&mut self) -> Result<(Vec<u8>, bool), AllocError>
        ensures ok { IfOk result (λ told. TellsAgain self.old told.0.items told.1 self.new) }
    {
        let held = mem::replace(&mut self.held, Vec::new(self.alloc));
        let read = self.settle(&held);
        let (_, later) = held.split_at(read);
        match self.told() {
            Some(bytes) => Ok((self.read_on(bytes, later)?, true)),
            None => Ok((self.read_on(Vec::new(self.alloc), later)?, false)),
        }
    }

    // Appends what the server is to read after what it is told, as the page does.
    fn read_on(&mut self, told: Vec<u8>, later: &[u8]) -> Result<Vec<u8>, AllocError>
        ensures ok { IfOk result (λ bytes. bytes.items ≡ told.items ++ later.now) }
        ensures read { ReadsAll self.old.emulator later.now self.new.emulator }
        ensures same { self.new ≡ record self.old { emulator = self.new.emulator } }
    {
        self.read(later);
        let mut bytes = told;
        bytes.extend_from_slice(later)?;
        Ok(bytes)
    }
}
