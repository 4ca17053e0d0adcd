//! Terminals that read the delivered bytes.

use cells::{Cell, Marks, glyph_width};
use emulator::Emulator;
use std::alloc::{AllocError, Global};

/// Bytes that a terminal reads before its first draw: a page of wide characters with strange modes, and
/// then an unfinished string.
const STRANGE: &[u8] =
    b"x\xE6\xBC\xA2y\x1b[2;3r\x1b[?1;5;6h\x1b[4;20h\x1b[1;4;7m\x1b7\x1b[?25l\x1b=\x1b)0\x0e\x1b%@\
      \x1bPtext";

/// Whether terminals that read the bytes delivered to each client show the view of the client that is
/// printed at the end.
pub fn are_shown(alloc: Global, printed: &str) -> bool {
    let mut views = printed.split("\nclient ");
    let _events = views.next();
    for view in views {
        match view.split_once('\n') {
            Some((client, view)) if is_shown(alloc, printed, client, view) => {}
            _ => return false,
        }
    }
    true
}

/// Whether a plain terminal and one in a strange state show a client's view after they read the bytes
/// delivered to it. It is true if no bytes were.
fn is_shown(alloc: Global, printed: &str, client: &str, view: &str) -> bool {
    let mut bytes = Vec::new(alloc);
    put_delivered(printed, client, &mut bytes)
        && (bytes.is_empty()
            || (is_shown_after(alloc, view, b"", &bytes)
                && is_shown_after(alloc, view, STRANGE, &bytes)))
}

/// The text of a line of bytes delivered to the client.
fn delivered<'a>(line: &'a str, client: &str) -> Option<&'a str> {
    line.strip_prefix("deliver ")?
        .strip_prefix(client)?
        .strip_prefix(' ')
}

/// Appends all bytes delivered to a client.
fn put_delivered(printed: &str, client: &str, out: &mut Vec<u8>) -> bool {
    for line in printed.lines() {
        if let Some(text) = delivered(line, client) {
            if !put_unescaped(text, out) {
                return false;
            }
        }
    }
    true
}

/// Appends the bytes that a printed text stands for.
fn put_unescaped(text: &str, out: &mut Vec<u8>) -> bool {
    let mut is_first = true;
    for piece in text.split('\\') {
        let is_put = if is_first {
            out.extend_from_slice(piece.as_bytes()).is_ok()
        } else {
            put_escaped(piece, out)
        };
        if !is_put {
            return false;
        }
        is_first = false;
    }
    true
}

/// Appends the byte of two digits, and the text after them.
fn put_escaped(piece: &str, out: &mut Vec<u8>) -> bool {
    let (Some(digits), Some(rest)) = (piece.get(..2), piece.get(2..)) else {
        return false;
    };
    match u8::from_str_radix(digits, 16) {
        Ok(byte) => out.push(byte).is_ok() && out.extend_from_slice(rest.as_bytes()).is_ok(),
        Err(_) => false,
    }
}

/// The number of columns between the bars of a view's line.
fn columns_of(line: &str) -> usize {
    let mut columns = 0usize;
    for character in line.chars() {
        columns = columns.saturating_add(glyph_width(character) as usize);
    }
    columns.saturating_sub(2)
}

/// Whether a terminal of the view's size that has read `state` shows the view after these bytes.
fn is_shown_after(alloc: Global, view: &str, state: &[u8], bytes: &[u8]) -> bool {
    let rows = view.lines().count().saturating_sub(1);
    let columns = columns_of(view.lines().next().unwrap_or(""));
    let Ok(mut terminal) = Emulator::new(alloc, rows, columns, 0) else {
        return false;
    };
    let mut reports = Vec::new(alloc);
    let mut text = String::new(alloc);
    terminal.feed_all(state, &mut reports).is_ok()
        && terminal.feed_all(bytes, &mut reports).is_ok()
        && put_page(&terminal, &mut text).is_ok()
        && put_cursor(&terminal, &mut text).is_ok()
        && text.as_str() == view.trim_end_matches('\n')
}

/// Appends the lines that a terminal shows, as `--show` prints them.
fn put_page(terminal: &Emulator, text: &mut String) -> Result<(), AllocError> {
    let page = terminal.page(0);
    for line in 0..page.rows() {
        text.push('|')?;
        for cell in page.line(line) {
            put_cell(cell, text)?;
        }
        text.push_str("|\n")?;
    }
    Ok(())
}

fn put_cell(cell: &Cell, text: &mut String) -> Result<(), AllocError> {
    if cell.is_right() {
        return Ok(());
    }
    text.push(cell.character)?;
    match cell.marks() {
        Marks::Bare => Ok(()),
        Marks::One(mark) => text.push(mark),
        Marks::Two(first, second) => {
            text.push(first)?;
            text.push(second)
        }
    }
}

/// Appends where the cursor is, as `--show` prints it.
fn put_cursor(terminal: &Emulator, text: &mut String) -> Result<(), AllocError> {
    if !terminal.modes().shows_cursor {
        return text.push_str("cursor hidden");
    }
    let (line, column) = terminal.cursor();
    let (line, column) = (line.saturating_add(1), column.saturating_add(1));
    write!(text, "cursor {line} {column}")
}
