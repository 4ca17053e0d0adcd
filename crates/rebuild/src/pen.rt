//! Prints lines of cells, from left to right.

use cells::{Cell, Marks, Rendition};
use control_parser::{Func, spell};
use std::io::{self, Write};

/// How the new terminal prints by now.
#[derive(Clone, Copy)]
pub struct CellPrinter {
    rendition: Rendition,
    is_protecting: bool,
}

/// SGR to a rendition, whatever the present one is.
pub fn put_rendition(rendition: Rendition, out: &mut Vec<u8>) -> io::Result<()> {
    out.extend_from_slice(b"\x1b[0")?;
    for (is_on, value) in [
        (rendition.is_bold(), b";1"),
        (rendition.is_underlined(), b";4"),
        (rendition.is_blinking(), b";5"),
        (rendition.is_reversed(), b";7"),
    ] {
        if is_on {
            out.extend_from_slice(value)?;
        }
    }
    if let Some(number) = rendition.fore().number() {
        write!(out, ";3{number}")?;
    }
    if let Some(number) = rendition.back().number() {
        write!(out, ";4{number}")?;
    }
    out.push(b'm')?;
    Ok(())
}

/// DECSCA: what is printed later is protected, or isn't.
pub fn put_protection(is_protecting: bool, out: &mut Vec<u8>) -> io::Result<()> {
    out.extend_from_slice(if is_protecting {
        b"\x1b[1\"q"
    } else {
        b"\x1b[0\"q"
    })?;
    Ok(())
}

/// A character in UTF-8.
pub fn put_character(character: char, out: &mut Vec<u8>) -> io::Result<()> {
    spell(&Func::Print(character), out)?;
    Ok(())
}

/// The marks of a cell.
pub fn put_marks(marks: Marks, out: &mut Vec<u8>) -> io::Result<()> {
    match marks {
        Marks::Bare => {}
        Marks::One(mark) => put_character(mark, out)?,
        Marks::Two(first, second) => {
            put_character(first, out)?;
            put_character(second, out)?;
        }
    }
    Ok(())
}

impl CellPrinter {
    /// The pen of a new terminal.
    pub fn new() -> CellPrinter {
        CellPrinter {
            rendition: Rendition::PLAIN,
            is_protecting: false,
        }
    }

    // Takes up what a cell was printed with.
    fn take_up(&mut self, cell: &Cell, out: &mut Vec<u8>) -> io::Result<()> {
        if self.is_protecting != cell.is_protected {
            self.is_protecting = cell.is_protected;
            put_protection(cell.is_protected, out)?;
        }
        if self.rendition != cell.rendition {
            self.rendition = cell.rendition;
            put_rendition(cell.rendition, out)?;
        }
        Ok(())
    }

    /// Prints a line of a blank line's width, from the first column on.
    pub fn put_line(&mut self, cells: &[Cell], out: &mut Vec<u8>) -> io::Result<()> {
        let mut blanks = 0usize;
        for cell in cells {
            if cell.is_blank() {
                blanks = blanks.saturating_add(1);
            } else if !cell.is_right() {
                if blanks > 0 {
                    write!(out, "\x1b[{blanks}C")?;
                    blanks = 0;
                }
                self.take_up(cell, out)?;
                put_character(cell.character, out)?;
                put_marks(cell.marks(), out)?;
            }
        }
        Ok(())
    }
}
