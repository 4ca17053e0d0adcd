//! Sets, tab stops, margins, modes, and the saved place.

use crate::pen::{put_protection, put_rendition};
use charsets::{CharacterSet, Coding, Place, Shifts};
use std::io::{self, Write};
use terminal_model::{Modes, Saved, State};

/// CUP to a line and a column, from 0.
pub fn put_place(line: usize, column: usize, out: &mut Vec<u8>) -> io::Result<()> {
    let (line, column) = (line.saturating_add(1), column.saturating_add(1));
    write!(out, "\x1b[{line};{column}H")?;
    Ok(())
}

/// Designates a set to the place of an intermediate byte.
pub fn put_set(place: u8, set: CharacterSet, out: &mut Vec<u8>) -> io::Result<()> {
    let last = match set {
        CharacterSet::Ascii => b'B',
        CharacterSet::UnitedKingdom => b'A',
        CharacterSet::SpecialGraphics => b'0',
        CharacterSet::Supplemental => b'<',
    };
    out.extend_from_slice(&[0x1B, place, last])?;
    Ok(())
}

// The locking shift of 21 to 7E, and that of A1 to FE, which no function sets to G0.
fn left_shift(place: Place) -> &'static [u8] {
    match place {
        Place::G0 => b"\x0f",
        Place::G1 => b"\x0e",
        Place::G2 => b"\x1bn",
        Place::G3 => b"\x1bo",
    }
}

fn right_shift(place: Place) -> &'static [u8] {
    match place {
        Place::G0 => b"",
        Place::G1 => b"\x1b~",
        Place::G2 => b"\x1b}",
        Place::G3 => b"\x1b|",
    }
}

/// The single shift of a place, if there is one.
pub fn single_shift(place: Place) -> &'static [u8] {
    match place {
        Place::G0 | Place::G1 => b"",
        Place::G2 => b"\x1bN",
        Place::G3 => b"\x1bO",
    }
}

/// Designates sets and shifts to them. Neither ends a pending wrap.
pub fn put_shifts(shifts: &Shifts, out: &mut Vec<u8>) -> io::Result<()> {
    put_set(b'(', shifts.g0, out)?;
    put_set(b')', shifts.g1, out)?;
    put_set(b'*', shifts.g2, out)?;
    put_set(b'+', shifts.g3, out)?;
    out.extend_from_slice(left_shift(shifts.gl))?;
    out.extend_from_slice(right_shift(shifts.gr))?;
    if let Some(place) = shifts.single {
        out.extend_from_slice(single_shift(place))?;
    }
    Ok(())
}

/// Saves a place, by DECSC, on a page without margins. The page is blank and the cursor home afterwards. A pending wrap
/// takes a character in the last column, and one more ends a pending single shift.
pub fn put_saved(saved: &Saved, out: &mut Vec<u8>) -> io::Result<()> {
    put_private(6, saved.counts_from_margin, out)?;
    put_protection(saved.is_protecting, out)?;
    put_place(saved.line, saved.column, out)?;
    if saved.is_wrap_pending {
        out.push(b'x')?;
    }
    put_rendition(saved.rendition, out)?;
    put_shifts(&saved.shifts, out)?;
    out.extend_from_slice(b"\x1b7x\x1b[0m\x1b[0\"q\x1b[2J")?;
    put_shifts(&Shifts::new(), out)?;
    put_private(6, false, out)
}

/// Sets the tab stops. The cursor is in the first line afterwards.
pub fn put_stops(stops: &[bool], out: &mut Vec<u8>) -> io::Result<()> {
    out.extend_from_slice(b"\x1b[3g")?;
    for (column, is_stop) in stops.iter().enumerate() {
        if *is_stop {
            put_place(0, column, out)?;
            out.extend_from_slice(b"\x1bH")?;
        }
    }
    Ok(())
}

fn letter(is_set: bool) -> char {
    if is_set { 'h' } else { 'l' }
}

// SM or RM of one mode, and DECSM or DECRM.
fn put_mode(mode: u16, is_set: bool, out: &mut Vec<u8>) -> io::Result<()> {
    write!(out, "\x1b[{mode}{}", letter(is_set))?;
    Ok(())
}

fn put_private(mode: u16, is_set: bool, out: &mut Vec<u8>) -> io::Result<()> {
    write!(out, "\x1b[?{mode}{}", letter(is_set))?;
    Ok(())
}

fn put_modes(modes: &Modes, out: &mut Vec<u8>) -> io::Result<()> {
    put_mode(4, modes.inserts, out)?;
    put_mode(20, modes.starts_lines, out)?;
    put_private(1, modes.has_application_arrows, out)?;
    put_private(5, modes.is_inverted, out)?;
    put_private(6, modes.counts_from_margin, out)?;
    put_private(7, modes.wraps, out)?;
    put_private(25, modes.shows_cursor, out)?;
    out.extend_from_slice(if modes.has_application_keypad {
        b"\x1b="
    } else {
        b"\x1b>"
    })?;
    Ok(())
}

/// Sets margins, modes, protection, the form of reports and the coding.
pub fn put_settings(state: &State, out: &mut Vec<u8>) -> io::Result<()> {
    let (top, bottom) = (state.top.saturating_add(1), state.bottom.saturating_add(1));
    write!(out, "\x1b[{top};{bottom}r")?;
    put_modes(&state.modes, out)?;
    put_protection(state.is_protecting, out)?;
    out.extend_from_slice(if state.has_eight_bit_reports {
        b"\x1b G"
    } else {
        b"\x1b F"
    })?;
    out.extend_from_slice(match state.coding {
        Coding::Utf8 => b"\x1b%G",
        Coding::Ecma35 => b"\x1b%@",
    })?;
    Ok(())
}
