//! What a client's terminal shows.

use crate::Stop;
use cells::Cell;
use emulator::Emulator;
use std::alloc::Global;

/// A terminal of this size that has read these bytes.
fn terminal(alloc: Global, size: (usize, usize), bytes: &[&[u8]]) -> Result<Emulator, Stop> {
    let Ok(mut emulator) = Emulator::new(alloc, size.0, size.1, 0) else {
        return Err(Stop::Memory);
    };
    let mut answers = Vec::new(alloc);
    for piece in bytes {
        if emulator.feed_all(piece, &mut answers).is_err() {
            return Err(Stop::Memory);
        }
    }
    Ok(emulator)
}

fn is_line(cells: &[Cell], text: &str) -> bool {
    let mut characters = text.chars();
    for cell in cells {
        if cell.character != characters.next().unwrap_or(' ') {
            return false;
        }
    }
    true
}

// Whether a terminal shows just these, as `shows` says.
fn has(emulator: &Emulator, text: &str, message: &str) -> bool {
    let page = emulator.page(0);
    let rows = page.rows();
    for line in 0..rows {
        let wanted = match rows - line {
            1 => message,
            2 => "0 w",
            _ if line == 0 => text,
            _ => "",
        };
        if !is_line(page.line(line), wanted) {
            return false;
        }
    }
    emulator.cursor() == (0, text.len()) && emulator.modes().shows_cursor
}

/// Whether a terminal of this size that has read these bytes has this text in its first line and
/// the cursor after it, the caption of the window 0 named `w` in the last line but one, this
/// message in the last, and nothing else.
pub fn shows(
    alloc: Global,
    size: (usize, usize),
    bytes: &[u8],
    text: &str,
    message: &str,
) -> Result<bool, Stop> {
    let emulator = terminal(alloc, size, &[bytes])?;
    Ok(has(&emulator, text, message))
}

// Whether two terminals show the same.
fn is_same(one: &Emulator, other: &Emulator) -> bool {
    let (page, beside) = (one.page(0), other.page(0));
    if page.rows() != beside.rows() {
        return false;
    }
    for line in 0..page.rows() {
        if page.line(line) != beside.line(line) {
            return false;
        }
    }
    one.cursor() == other.cursor() && one.modes().shows_cursor == other.modes().shows_cursor
}

/// Whether two terminals of this size show the same, each after what it has read.
pub fn are_alike(
    alloc: Global,
    size: (usize, usize),
    one: &[&[u8]],
    other: &[&[u8]],
) -> Result<bool, Stop> {
    let one = terminal(alloc, size, one)?;
    let other = terminal(alloc, size, other)?;
    Ok(is_same(&one, &other))
}
