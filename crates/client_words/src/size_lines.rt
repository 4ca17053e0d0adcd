//! Lines that say the size of a terminal: `ROWS COLS`.

ghost use Rattle.std.specs.Prelude.{◌≡◌, ◌<◌, ◌≤◌, ◌++◌, ◌∷◌, [], ℕ, List, None, IfOk, OnErr, OnOk};
ghost use Rattle.std.specs.Prelude.{IfSome, if◌then◌else◌, length, vec_capacity};
ghost use Rattle.std.specs.List.{list_all, position};
ghost use Rattle.std.specs.Char.{is_ascii_digit};
ghost use Rattle.client_words.specs.Lines.{is_blank, is_feed, is_number, number_of, is_size};
ghost use Rattle.client_words.specs.Lines.{size_of, ended, unended, last_size, has_other};
ghost use Rattle.client_words.specs.Stands.{StandsFor};

use std::alloc::{AllocError, Global};
use std::str;

/// The place of the first blank.
fn first_blank(line: &[u8]) -> Option<usize>
    ensures place { result ≡ position is_blank line.now }
    ensures within { IfSome result (λ place. place < length line.now) }
{
    line.iter().position(|byte| *byte == b' ')
}

/// Whether all bytes of a word are decimal digits.
fn has_digits(word: &[u8]) -> bool
    ensures { result ≡ list_all is_ascii_digit word.now }
{
    word.iter().all(|byte| byte.is_ascii_digit())
}

/// Whether a word is a number of one to four digits.
#[tactic(auto, unfolding(crate::specs::Lines::is_number))]
fn is_number(word: &[u8]) -> bool
    ensures { result ≡ is_number word.now }
{
    !word.is_empty() && word.len() <= 4 && has_digits(word)
}

/// A number of one to four digits.
fn read_number(word: &[u8]) -> Option<u16>
    ensures { result ≡ number_of word.now }
{
    if !is_number(word) {
        return None;
    }
    let Ok(digits) = str::from_utf8(word) else {
        return None;
    };
    digits.parse().ok()
}

/// Whether a client's terminal may have these lines and columns.
fn is_size(rows: u16, columns: u16) -> bool
    ensures { result ≡ is_size rows columns }
{
    (4..=200).contains(&rows) && (20..=300).contains(&columns)
}

/// The lines and columns of a client's terminal: 4 to 200 by 20 to 300.
#[derive(Clone, Copy)]
pub struct TerminalSize {
    pub rows: u16,
    pub columns: u16,
}

impl TerminalSize {
    /// The size that a line without its line feed says. None if the line isn't two numbers of one to
    /// four digits with a blank between them, or if no client's terminal may have the size.
    pub fn read(line: &[u8]) -> Option<TerminalSize>
        ensures { result ≡ size_of line.now }
    {
        let at = first_blank(line)?;
        let rows = read_number(&line[..at])?;
        let columns = read_number(&line[at + 1..])?;
        is_size(rows, columns).then_some(TerminalSize { rows, columns })
    }
}

// A line this long says no size.
const TOO_LONG: usize = 64;

/// Reads lines that come in pieces.
#[derive(Drop)]
pub struct SizeLines {
    // The beginning of the line that hasn't ended: at most TOO_LONG bytes.
    line: Vec<u8>,
    has_dropped: bool,
}

impl SizeLines {
    /// No byte has come.
    pub fn new(alloc: Global) -> SizeLines
        ensures { StandsFor result [] }
    {
        SizeLines {
            line: Vec::new(alloc),
            has_dropped: false,
        }
    }

    /// Whether a line said no size.
    pub fn has_dropped(&self) -> bool
        ensures { (bytes : List ℕ) → StandsFor self.now bytes
            → result ≡ has_other (ended bytes) }
    {
        self.has_dropped
    }

    /// Takes a byte. If it ends a line, returns the size that the line says, if it says one.
    fn take(&mut self, byte: u8) -> Option<TerminalSize>
        requires room { 64 ≤ vec_capacity self.old.line }
        ensures size { result ≡ (if is_feed byte then size_of self.old.line.items else None) }
        ensures stands { (bytes : List ℕ) → StandsFor self.old bytes
            → StandsFor self.new (bytes ++ byte ∷ []) }
        ensures room { vec_capacity self.new.line ≡ vec_capacity self.old.line }
    {
        if byte != b'\n' {
            if self.line.len() < TOO_LONG {
                self.line.push_reserved(byte);
            }
            return None;
        }
        let size = TerminalSize::read(self.line.as_slice());
        self.has_dropped |= size.is_none();
        self.line.clear();
        size
    }

    /// Takes bytes. Returns the last size that the lines that end in them say. After an `Err` no byte
    /// was taken; once a call was `Ok`, no later call is an `Err`.
    pub fn feed(&mut self, bytes: &[u8]) -> Result<Option<TerminalSize>, AllocError>
        ensures size { (before : List ℕ) → StandsFor self.old before
            → IfOk result (λ size. size ≡ last_size (ended (unended before ++ bytes.now))) }
        ensures stands { (before : List ℕ) → StandsFor self.old before
            → OnOk result (StandsFor self.new (before ++ bytes.now)) }
        ensures same { (before : List ℕ) → StandsFor self.old before
            → OnErr result (StandsFor self.new before) }
        ensures full { OnErr result (vec_capacity self.old.line < 64) }
        ensures room { OnOk result (64 ≤ vec_capacity self.new.line) }
    {
        self.line.reserve(TOO_LONG.saturating_sub(self.line.len()))?;
        let mut last = None;
        for byte in bytes {
            last = self.take(*byte).or(last);
        }
        Ok(last)
    }
}
