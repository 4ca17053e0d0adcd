//! The page of a terminal, for browsers that were sent more or less of it.

ghost use Rattle.std.specs.Prelude.{◌≡◌, ◌≢◌, ◌⊎◌, ◌<◌, ◌≤◌, ℕ, OnOk, OnErr, ◌↔◌};
ghost use Rattle.std.specs.Prelude.{IsTrue, IfOk, IfErr, IfSome, MatchOption, length, Err, false};
ghost use Rattle.std.specs.List.{list_all};
ghost use Rattle.std.specs.String.{string_bytes};
ghost use Rattle.cells.specs.Page.{IsGridSize};
ghost use Rattle.terminal_model.specs.Reading.{Terminal, reads};
ghost use Rattle.terminal_model.specs.Writing.{Size};
ghost use Rattle.emulator.specs.Standing.{StandsFor, TakesWriting};
ghost use Rattle.web_page.specs.Updates.{Update, head_of, numbers_of, spelled};
ghost use Rattle.web_page.specs.Laying.{Shown, laid, page_of};
ghost use Rattle.web_page.specs.Vacant.{is_blank, is_caption, IsVacant};
ghost use Rattle.web_page.specs.Showing.{IsBlank, IsShown, AreAsFar, IsLooked, HasLooked, Looks, newer};
ghost use Rattle.web_page.specs.Failing.{FailsAt, IsNext};
ghost use Rattle.web_page.specs.declared.sheet.SheetFault.TheVariants as sheet;

use crate::line::{put_number, put_numbers};
use crate::row::{StampedRow, look_at, put_rows};
use cells::{Cell, GridFault};
use emulator::{Emulator, Stopped};
use std::alloc::{AllocError, Global};
use std::marker::Model;
use thiserror::Error;

/// Why no update was made. The sheet must not be used again.
#[derive(Clone, Copy, Debug, PartialEq, Eq, Error)]
pub enum SheetFault {
    #[error("out of memory")]
    NoMemory,
    /// The page has changed 2^64 - 2 times.
    #[error("too many changes")]
    TooOld,
}

impl From<AllocError> for SheetFault {
    ghost from_gives = { λ _ e. e ≡ sheet.NoMemory };

    fn from(_error: AllocError) -> SheetFault {
        SheetFault::NoMemory
    }
}

/// The size of a page, its cursor, and the modes that a browser heeds.
#[derive(Clone, Copy, PartialEq, Eq)]
pub struct Head {
    pub rows: usize,
    pub columns: usize,
    pub line: usize,
    pub column: usize,
    pub shows_cursor: bool,
    pub is_inverted: bool,
    pub has_application_arrows: bool,
}

impl Head {
    /// The head of an emulator's page.
    pub fn of(emulator: &Emulator) -> Head
        ensures { result ≡ head_of emulator.now.screen }
    {
        let (line, column) = emulator.cursor();
        let modes = emulator.modes();
        Head {
            rows: emulator.rows(),
            columns: emulator.columns(),
            line,
            column,
            shows_cursor: modes.shows_cursor,
            is_inverted: modes.is_inverted,
            has_application_arrows: modes.has_application_arrows,
        }
    }

    /// The numbers of a head after the first one.
    pub fn numbers(&self) -> [u64; 6]
        ensures { result ≡ numbers_of self.now }
    {
        [
            self.columns as u64,
            self.line as u64,
            self.column as u64,
            u64::from(self.shows_cursor),
            u64::from(self.is_inverted),
            u64::from(self.has_application_arrows),
        ]
    }
}

/// A terminal that reads draws, and its page for browsers. A browser that was sent all changes before
/// a moment only needs the later ones. Moments are counted, from 0 on, by changes of the page.
pub struct Sheet {
    alloc: Global,
    emulator: Emulator,
    // Reports are dropped: a browser gives none.
    reports: Vec<u8>,
    // The head and the rows as they were last looked at.
    head: Head,
    rows: Vec<StampedRow>,
    // The moment of the next change, at least 1.
    moment: u64,
    // The terminal may have changed since the last look.
    is_stale: bool,
}

impl Drop for Sheet {
    fn drop(self) {
        let Sheet {
            alloc: _,
            emulator: _,
            reports: _,
            head: _,
            rows: _,
            moment: _,
            is_stale: _,
        } = self;
    }
}

impl Model for Sheet {
    ghost use Rattle.std.specs.Prelude.{◌≡◌, ◌<◌, false};
    ghost use Rattle.web_page.specs.Showing.{Sheet as Showing, IsLooked};

    ghost Value = { Showing };

    ghost view = { λ s. record {
      terminal = s.emulator;
      head = s.head;
      rows = s.rows.items;
      moment = s.moment;
    } };

    ghost invariant = { λ s. (0 < s.moment)
        × (s.is_stale ≡ false → IsLooked s.emulator s.head s.rows.items) };
}

fn is_blank(cell: &Cell) -> bool
    ensures { result ≡ is_blank cell.now }
{
    cell.character == ' '
}

fn are_blank(cells: &[Cell]) -> bool
    ensures { result ≡ list_all is_blank cells.now }
{
    cells.iter().all(|cell| is_blank(cell))
}

/// Whether a row is the caption of a region without a window.
fn is_caption(cells: &[Cell]) -> bool
    ensures { result ≡ is_caption cells.now }
{
    match cells {
        [a, b, rest @ ..] => a.character == '-' && b.character == '-' && are_blank(rest),
        _ => false,
    }
}

/// Whether an emulator's page is that of a client that sees no window. Its last row is for messages.
fn is_vacant(emulator: &Emulator) -> bool
    ensures { IsTrue result ↔ IsVacant emulator.now.screen.page }
{
    let page = emulator.page(0);
    let count = page.rows();
    if count < 2 {
        return false;
    }
    for number in 0..count - 2 {
        if !are_blank(page.line(number)) {
            return false;
        }
    }
    is_caption(page.line(count - 2))
}

/// Looks at the rows of a page, all of whose changes have this moment. Returns whether any changed.
fn look_at_rows(
    alloc: Global,
    emulator: &Emulator,
    rows: &mut Vec<StampedRow>,
    moment: u64,
) -> Result<bool, AllocError>
    ensures { IfOk result (λ is_new. HasLooked (length emulator.now.screen.page)
        emulator.now.screen.page moment rows.old.items rows.new.items is_new) }
{
    let page = emulator.page(0);
    let count = page.rows();
    let mut is_new = rows.len() > count;
    rows.truncate(count);
    for number in 0..count {
        is_new |= look_at(alloc, rows, number, page.line(number), moment)?;
    }
    Ok(is_new)
}

/// How many changes there are: one if a row or the head is new, and else none.
fn count_of(is_new: bool, head: Head, old: Head) -> u64
    ensures some { ((result ≡ 1) × (is_new ≡ false → head ≢ old))
        ⊎ ((result ≡ 0) × (is_new ≡ false) × (head ≡ old)) }
    ensures few { result ≤ 1 }
{
    if is_new || head != old { 1 } else { 0 }
}

impl Sheet {
    /// A terminal of this size that has read nothing.
    pub fn new(alloc: Global, rows: u16, columns: u16) -> Result<Sheet, GridFault>
        ensures ok { IfOk result (IsBlank rows columns) }
        ensures bad_size { (result ≡ Err GridFault.BadSize) ↔ (¬ IsGridSize rows columns) }
    {
        let emulator = Emulator::new(alloc, usize::from(rows), usize::from(columns), 0)?;
        let head = Head::of(&emulator);
        Ok(Sheet {
            alloc,
            emulator,
            reports: Vec::new(alloc),
            head,
            rows: Vec::new(alloc),
            moment: 1,
            is_stale: true,
        })
    }

    /// Changes the size of the terminal.
    pub fn resize(&mut self, rows: u16, columns: u16) -> Result<(), GridFault>
        ensures ok { OnOk result (TakesWriting self.old.terminal (Size rows columns)
            self.new.terminal) }
        ensures err { OnErr result (self.new ≡ self.old) }
        ensures bad_size { (result ≡ Err GridFault.BadSize) ↔ (¬ IsGridSize rows columns) }
        ensures moment { self.new.moment ≡ self.old.moment }
        ensures browsers { AreAsFar self.old self.new }
    {
        self.is_stale = true;
        self.emulator
            .resized(usize::from(rows), usize::from(columns))
    }

    /// Reads the bytes of a draw. If memory is refused, the sheet must not be used again.
    pub fn read(&mut self, draw: &[u8]) -> Result<(), Stopped>
        ensures ok { OnOk result ((t : Terminal) → StandsFor self.old.terminal t
            → StandsFor self.new.terminal (reads t draw.now).terminal) }
        ensures moment { self.new.moment ≡ self.old.moment }
        ensures browsers { AreAsFar self.old self.new }
    {
        self.is_stale = true;
        let read = self.emulator.feed_all(draw, &mut self.reports);
        self.reports.clear();
        read
    }

    /// The moment of the next change.
    pub fn moment(&self) -> u64
        ensures { result ≡ self.now.moment }
    {
        self.moment
    }

    /// Whether its page is that of a client that sees no window.
    pub fn is_vacant(&self) -> bool
        ensures { IsTrue result ↔ IsVacant self.now.terminal.screen.page }
    {
        is_vacant(&self.emulator)
    }

    // Looks at what changed since the last look.
    fn look(&mut self) -> Result<(), SheetFault>
        ensures looks { OnOk result (Looks self.old self.new) }
        ensures fault { IfErr result (FailsAt self.old.moment) }
        ensures moment { IsNext self.old.moment self.new.moment }
    {
        if !self.is_stale {
            return Ok(());
        }
        if self.moment == u64::MAX {
            return Err(SheetFault::TooOld);
        }
        let is_new = look_at_rows(self.alloc, &self.emulator, &mut self.rows, self.moment)?;
        let head = Head::of(&self.emulator);
        self.moment += count_of(is_new, head, self.head);
        self.head = head;
        self.is_stale = false;
        Ok(())
    }

    // Spells the update that has what changed at this moment or later.
    fn spell(&self, since: u64) -> Result<String, AllocError>
        ensures { IfOk result (λ text. string_bytes text ≡ spelled (record {
          head = self.now.head;
          rows = newer since 0 self.now.rows;
        })) }
    {
        let mut out = String::new(self.alloc);
        out.push_str("[")?;
        put_number(&mut out, self.head.rows as u64)?;
        put_numbers(&mut out, &self.head.numbers())?;
        put_rows(&mut out, &self.rows, since)?;
        out.push_str("]")?;
        Ok(out)
    }

    /// The update for a browser that was sent all changes before the moment `since`, or nothing if
    /// that is 0; None if it needs none.
    pub fn update(&mut self, since: u64) -> Result<Option<String>, SheetFault>
        // Laid over what the browser shows, it is the page of the terminal.
        ensures shows { (t : Terminal) (b : Shown) → StandsFor self.old.terminal t
            → (since ≡ 0) ⊎ IsShown since self.old b
            → IfOk result (λ made. MatchOption made (b ≡ page_of t.screen)
            (λ text. (u : Update) × (string_bytes text ≡ spelled u)
            × (laid u b ≡ page_of t.screen))) }
        // It has the rows that are new, and no others.
        ensures rows { IfOk result (λ made. IfSome made (λ text. string_bytes text ≡ spelled (record {
          head = self.new.head;
          rows = newer since 0 self.new.rows;
        }))) }
        ensures then { (t : Terminal) → StandsFor self.old.terminal t
            → OnOk result (StandsFor self.new.terminal t
            × IsShown self.new.moment self.new (page_of t.screen)) }
        // A page that is as it was last looked at is nothing new.
        ensures looks { OnOk result (Looks self.old self.new) }
        // It fails for memory, or after 2^64 - 2 updates.
        ensures fault { IfErr result (FailsAt self.old.moment) }
        ensures moment { IsNext self.old.moment self.new.moment }
        ensures needed { IfOk result (λ made. IfSome made (λ _. since < self.new.moment)) }
    {
        self.look()?;
        if since >= self.moment {
            return Ok(None);
        }
        Ok(Some(self.spell(since)?))
    }
}
