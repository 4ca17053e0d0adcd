//! The state of a terminal: what it holds beside its page, tab stops, saved place and scrollback; and its limits.

use cells::Rendition;
use charsets::{Coding, Shifts};

/// The least and the greatest number of lines of a window's page.
pub const MIN_ROWS: usize = 2;

pub const MAX_ROWS: usize = 200;

/// The least and the greatest number of columns of a window's page.
pub const MIN_COLUMNS: usize = 2;

pub const MAX_COLUMNS: usize = 300;

/// The greatest number of lines that a window's scrollback keeps.
pub const MAX_KEEP: usize = 2000;

/// The greatest number of bytes of a report.
pub const REPORT_BYTES: usize = 24;

/// A place of the page. Lines and columns count from 0.
#[derive(Clone, Copy, Debug, PartialEq, Eq)]
pub struct Position {
    pub line: usize,
    pub column: usize,
}

/// The modes that SM, RM, DECSM, DECRM, DECKPAM and DECKPNM set and reset (VT220 manual, chapter 4,
/// "Modes").
#[derive(Clone, Copy, Debug, PartialEq, Eq)]
pub struct Modes {
    /// IRM: printing moves the cells after the new ones.
    pub inserts: bool,
    /// LNM: a line feed also goes to the first column.
    pub starts_lines: bool,
    /// DECCKM (?1): the arrow keys send application sequences.
    pub has_application_arrows: bool,
    /// DECSCNM (?5): the whole page is shown in reverse.
    pub is_inverted: bool,
    /// DECOM (?6): lines count from the top margin.
    pub counts_from_margin: bool,
    /// DECAWM (?7): after the last column, printing goes on in the next line.
    pub wraps: bool,
    /// DECTCEM (?25): the cursor is shown.
    pub shows_cursor: bool,
    /// DECKPAM: the keypad sends application sequences.
    pub has_application_keypad: bool,
}

/// The state of a terminal. Lines and columns count from 0.
#[derive(Clone, Copy, Debug, PartialEq, Eq)]
pub struct State {
    pub rows: usize,
    pub columns: usize,
    /// The cursor's line and column.
    pub line: usize,
    pub column: usize,
    /// A character was printed in the last column, so the next one goes to the next line.
    pub is_wrap_pending: bool,
    /// The first and the last line of the margins.
    pub top: usize,
    pub bottom: usize,
    /// The rendition of new characters.
    pub rendition: Rendition,
    /// New characters are protected from selective erasing (DECSCA).
    pub is_protecting: bool,
    pub modes: Modes,
    pub shifts: Shifts,
    pub coding: Coding,
    /// Reports begin with the C1 control CSI (S8C1T).
    pub has_eight_bit_reports: bool,
    /// The cell that the next mark joins: the one that was printed last, if nothing came in
    /// between.
    pub joining: Option<Position>,
}

/// What DECSC saves (VT220 manual, 4.17).
#[derive(Clone, Copy, Debug, PartialEq, Eq)]
pub struct Saved {
    pub line: usize,
    pub column: usize,
    pub is_wrap_pending: bool,
    pub rendition: Rendition,
    pub is_protecting: bool,
    pub shifts: Shifts,
    pub counts_from_margin: bool,
}
