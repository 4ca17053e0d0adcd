//! Tells a screen as bytes.

use crate::pen::{CellPrinter, put_character, put_marks, put_rendition};
use crate::settings::{
    put_place, put_saved, put_set, put_settings, put_shifts, put_stops, single_shift,
};
use cells::Cell;
use charsets::{CharacterSet, Coding, Place, Shifts};
use std::io;
use terminal_model::{Position, Saved, State};
use vt_screen::Screen;

// Drawn for what can't be read.
const REPLACEMENT: char = '\u{FFFD}';

// The sets, the commonest first.
const SETS: [CharacterSet; 4] = [
    CharacterSet::Ascii,
    CharacterSet::SpecialGraphics,
    CharacterSet::Supplemental,
    CharacterSet::UnitedKingdom,
];

// The kept lines and those of the page, one below the other: the kept ones leave the page at its top.
fn put_lines(screen: &Screen, out: &mut Vec<u8>) -> io::Result<()> {
    let mut pen = CellPrinter::new();
    for n in (0..screen.kept_count()).rev() {
        if let Some(line) = screen.kept(n) {
            pen.put_line(line, out)?;
        }
        out.extend_from_slice(b"\x1bE")?;
    }
    for line in 0..screen.rows() {
        if line > 0 {
            out.extend_from_slice(b"\x1bE")?;
        }
        pen.put_line(screen.row(line), out)?;
    }
    Ok(())
}

// The position of a character in a set.
fn position_in(set: CharacterSet, character: char) -> Option<u8> {
    for position in 0x21..0x7F {
        if set.character(position) == character {
            return Some(position);
        }
    }
    None
}

fn set_at(shifts: &Shifts, place: Place) -> CharacterSet {
    match place {
        Place::G0 => shifts.g0,
        Place::G1 => shifts.g1,
        Place::G2 => shifts.g2,
        Place::G3 => shifts.g3,
    }
}

// Prints a character that needs no set, in this coding. In ECMA-35 a sequence that is broken off prints U+FFFD. Returns
// whether there is a way.
fn put_as_it_is(coding: Coding, character: char, out: &mut Vec<u8>) -> io::Result<bool> {
    if character == ' ' || coding == Coding::Utf8 && !character.is_ascii() {
        put_character(character, out)?;
        return Ok(true);
    }
    if character == REPLACEMENT {
        out.extend_from_slice(b"\x1b\x1a")?;
        return Ok(true);
    }
    Ok(false)
}

// Prints a character through the sets as they are.
fn put_through(state: &State, character: char, out: &mut Vec<u8>) -> io::Result<()> {
    if put_as_it_is(state.coding, character, out)? {
        return Ok(());
    }
    let shifts = &state.shifts;
    if let Some(position) = position_in(set_at(shifts, shifts.gl), character) {
        out.push(position)?;
        return Ok(());
    }
    let right = position_in(set_at(shifts, shifts.gr), character);
    if state.coding == Coding::Ecma35
        && let Some(position) = right
    {
        out.push(position | 0x80)?;
        return Ok(());
    }
    for place in [Place::G2, Place::G3] {
        if let Some(position) = position_in(set_at(shifts, place), character) {
            out.extend_from_slice(single_shift(place))?;
            out.push(position)?;
            return Ok(());
        }
    }
    Ok(())
}

// Prints a character through a set that has it, in this coding.
fn put_by_a_set(coding: Coding, character: char, out: &mut Vec<u8>) -> io::Result<()> {
    if put_as_it_is(coding, character, out)? {
        return Ok(());
    }
    for set in SETS {
        if let Some(position) = position_in(set, character) {
            put_set(b'(', set, out)?;
            out.push(position)?;
            return Ok(());
        }
    }
    Ok(())
}

// The cell at a place, if it is on the page.
fn cell_at(screen: &Screen, line: usize, column: usize) -> Option<Cell> {
    if line < screen.rows() {
        screen.row(line).get(column).copied()
    } else {
        None
    }
}

// Moves the cursor to a cell that is to be printed once more. If printing moves cells, the cell goes out first.
fn go_to_cell(state: &State, at: Position, cell: &Cell, out: &mut Vec<u8>) -> io::Result<()> {
    put_cursor(state, at.line, at.column, out)?;
    if state.modes.inserts {
        out.extend_from_slice(if cell.is_left() {
            b"\x1b[2P"
        } else {
            b"\x1b[1P"
        })?;
    }
    Ok(())
}

// Moves the cursor to a place, counted from the margin if ?6 is set.
fn put_cursor(state: &State, line: usize, column: usize, out: &mut Vec<u8>) -> io::Result<()> {
    let above = if state.modes.counts_from_margin {
        state.top
    } else {
        0
    };
    put_place(line.saturating_sub(above), column, out)
}

// Prints the cell that marks may join once more, as the last thing. A place off the page has no cell to print.
fn put_joined(screen: &Screen, at: Position, out: &mut Vec<u8>) -> io::Result<()> {
    let state = screen.state();
    let Some(cell) = cell_at(screen, at.line, at.column) else {
        return Ok(());
    };
    go_to_cell(&state, at, &cell, out)?;
    put_rendition(state.rendition, out)?;
    put_shifts(&state.shifts, out)?;
    put_through(&state, cell.character, out)?;
    put_marks(cell.marks(), out)
}

// Prints the last character of the cursor's line once more, so that a wrap is pending.
fn put_last(screen: &Screen, out: &mut Vec<u8>) -> io::Result<()> {
    let state = screen.state();
    let mut at = Position {
        line: state.line,
        column: state.column,
    };
    let Some(last) = cell_at(screen, at.line, at.column) else {
        return Ok(());
    };
    if last.is_right() {
        at.column = at.column.saturating_sub(1);
    }
    let Some(cell) = cell_at(screen, at.line, at.column) else {
        return Ok(());
    };
    go_to_cell(&state, at, &cell, out)?;
    put_rendition(cell.rendition, out)?;
    put_by_a_set(state.coding, cell.character, out)?;
    put_marks(cell.marks(), out)
}

// Whether DECRC leads to the cursor's place with the wrap pending.
fn is_restored(state: &State, saved: &Saved) -> bool {
    let line = if saved.counts_from_margin {
        saved.line.min(state.bottom).max(state.top)
    } else {
        saved.line
    };
    saved.is_wrap_pending
        && line == state.line
        && saved.column == state.column
        && saved.is_protecting == state.is_protecting
        && saved.counts_from_margin == state.modes.counts_from_margin
}

// Makes a wrap pending at the cursor. One that DECRC made pending may stand at a cell that was never printed there.
fn put_pending(screen: &Screen, out: &mut Vec<u8>) -> io::Result<()> {
    let state = screen.state();
    match screen.saved() {
        Some(saved) if is_restored(&state, &saved) => out.extend_from_slice(b"\x1b8")?,
        _ => put_last(screen, out)?,
    }
    Ok(())
}

// The cursor, with a pending wrap or a cell that marks may join; rendition and sets.
fn put_end(screen: &Screen, out: &mut Vec<u8>) -> io::Result<()> {
    let state = screen.state();
    if let Some(at) = state.joining {
        return put_joined(screen, at, out);
    }
    if state.is_wrap_pending {
        put_pending(screen, out)?;
    } else {
        put_cursor(&state, state.line, state.column, out)?;
    }
    put_rendition(state.rendition, out)?;
    put_shifts(&state.shifts, out)
}

/// Appends bytes that lead a new terminal of this size to this screen. The saved place comes first, since it is made by
/// printing; the cursor comes last, since all else moves it.
pub fn put_screen(screen: &Screen, out: &mut Vec<u8>) -> io::Result<()> {
    if let Some(saved) = screen.saved() {
        put_saved(&saved, out)?;
    }
    put_lines(screen, out)?;
    put_stops(screen.stops(), out)?;
    put_settings(&screen.state(), out)?;
    put_end(screen, out)
}
