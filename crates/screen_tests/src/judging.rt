//! An emulator for a test, and checks of its page.

use cells::{Cell, Marks, Shape};
use emulator::{Emulator, MovedPage};
use std::alloc::Global;
use std::str::Chars;

/// Lines, columns, and kept lines.
pub type Size = (usize, usize, usize);

/// An emulator of this size that has read these pieces. Appends its answers.
pub fn read(
    alloc: Global,
    size: Size,
    pieces: &[&[u8]],
    answers: &mut Vec<u8>,
) -> Option<Emulator> {
    let (rows, columns, keep) = size;
    let mut emulator = Emulator::new(alloc, rows, columns, keep).ok()?;
    for piece in pieces {
        emulator.feed_all(piece, answers).ok()?;
    }
    Some(emulator)
}

/// Some bytes and their result.
#[derive(Clone, Copy)]
pub struct Row {
    pub size: Size,
    pub bytes: &'static [u8],
    /// The number of kept lines by which the page is moved back.
    pub back: usize,
    /// The page's lines, each ended by `|`; a blank is `_`.
    pub page: &'static str,
    /// The cursor's line and column, from 0.
    pub cursor: (usize, usize),
    /// The letters of the modes that are set.
    pub modes: &'static [u8],
    pub answer: &'static [u8],
}

impl Row {
    /// A page of 3 lines by 5 columns that has read nothing.
    pub const UNREAD: Row = Row {
        size: (3, 5, 0),
        bytes: b"",
        back: 0,
        page: "",
        cursor: (0, 0),
        modes: NEW,
        answer: b"",
    };
}

/// Whether a row's bytes, split into two pieces at `cut`, give its result.
fn is_so(alloc: Global, row: &Row, cut: usize) -> bool {
    let (first, second) = row.bytes.split_at(cut.min(row.bytes.len()));
    let mut answers = Vec::new(alloc);
    let Some(emulator) = read(alloc, row.size, &[first, second], &mut answers) else {
        return false;
    };
    shows(&emulator.page(row.back), row.page)
        && emulator.cursor() == row.cursor
        && has_modes(&emulator, row.modes)
        && answers.as_slice() == row.answer
}

/// Whether a row's bytes give its result, no matter where they are split into two pieces.
pub fn is_so_at_each_cut(alloc: Global, row: &Row) -> bool {
    (0..=row.bytes.len()).all(|cut| is_so(alloc, row, cut))
}

/// Whether a text continues with a cell: `_` is a blank, and a right half has no character.
fn goes_on(text: &mut Chars<'_>, cell: &Cell) -> bool {
    if cell.shape == Shape::Right {
        return true;
    }
    let shown = if *cell == Cell::BLANK {
        '_'
    } else {
        cell.character
    };
    if text.next() != Some(shown) {
        return false;
    }
    match cell.marks() {
        Marks::Bare => true,
        Marks::One(mark) => text.next() == Some(mark),
        Marks::Two(first, second) => text.next() == Some(first) && text.next() == Some(second),
    }
}

/// Whether a text continues with a line, followed by `|`.
fn goes_on_with_line(text: &mut Chars<'_>, line: &[Cell]) -> bool {
    for cell in line {
        if !goes_on(text, cell) {
            return false;
        }
    }
    text.next() == Some('|')
}

/// Whether the page is this text: its lines, each ended by `|`.
pub fn shows(page: &MovedPage<'_>, text: &str) -> bool {
    let mut text = text.chars();
    for line in 0..page.rows() {
        if !goes_on_with_line(&mut text, page.line(line)) {
            return false;
        }
    }
    text.next().is_none()
}

/// The letters of the modes: IRM, LNM, ?1, ?5, ?6, ?7, ?25, and an application keypad.
const LETTERS: [u8; 8] = *b"ilavowck";

/// The modes of a new screen.
pub const NEW: &[u8] = b"wc";

/// Whether each mode is set, in the order of the letters.
pub fn modes_of(emulator: &Emulator) -> [bool; 8] {
    let modes = emulator.modes();
    [
        modes.inserts,
        modes.starts_lines,
        modes.has_application_arrows,
        modes.is_inverted,
        modes.counts_from_margin,
        modes.wraps,
        modes.shows_cursor,
        modes.has_application_keypad,
    ]
}

/// Whether exactly the modes with these letters are set.
fn has_modes(emulator: &Emulator, letters: &[u8]) -> bool {
    let modes = modes_of(emulator);
    LETTERS
        .iter()
        .zip(modes.iter())
        .all(|(letter, is_set)| letters.contains(letter) == *is_set)
}
