//! What is known of a terminal's cursor and rendition while a frame is made.

ghost use Rattle.std.specs.Prelude.{◌≡◌, ◌↔◌, ◌<◌, ◌≤◌, ◌++◌, Some, OnOk, IsTrue};
ghost use Rattle.redraw.specs.Drawing.{IsWay, width_of, glyph_bytes};
ghost use Rattle.redraw.specs.Steps.{MovesTo, Renders, PutsCell, Erases, ErasesToEnd, aimed_at};

use crate::command::Command;
use cells::{Cell, Marks, Rendition, Shape};
use std::alloc::AllocError;

/// A place of a page to which the pen is moved. Lines and columns count from 0.
#[derive(Clone, Copy)]
pub struct PenPosition {
    pub line: u16,
    pub column: u16,
}

/// Where the next character goes, and how it looks.
#[derive(Clone, Copy, Debug, PartialEq, Eq)]
pub struct Pen {
    /// The cursor's line; `None` if it isn't known.
    pub line: Option<u16>,
    /// The cursor's column; `None` if it isn't known.
    pub column: Option<u16>,
    /// The rendition; `None` if it isn't known.
    pub rendition: Option<Rendition>,
}

impl Pen {
    /// The shortest command that moves the pen to a place; `None` if the pen is there.
    fn way_to(&self, line: u16, column: u16) -> Option<Command>
        ensures { IsWay self.now line column result }
    {
        let is_in_line = self.line == Some(line);
        match self.column {
            Some(known) if is_in_line && known == column => None,
            Some(known) if is_in_line && known < column => Some(Command::Forward(column - known)),
            _ if column == 0 && line > 0 && self.line == Some(line - 1) => Some(Command::NextLine),
            _ => Some(Command::MoveTo { line, column }),
        }
    }

    /// Moves the cursor, if it isn't there.
    pub fn move_to(&mut self, line: u16, column: u16, out: &mut Vec<u8>) -> Result<(), AllocError>
        requires { (line < 9999) × (column < 9999) }
        ensures place { OnOk result
            (self.new ≡ record self.old { line = Some line; column = Some column }) }
        ensures takes { OnOk result (MovesTo line column self.old self.new out.old out.new) }
    {
        let Some(way) = self.way_to(line, column) else {
            return Ok(());
        };
        way.put(out)?;
        self.line = Some(line);
        self.column = Some(column);
        Ok(())
    }

    /// Whether this is known to be the present rendition. Two renditions are compared by a blank in
    /// each.
    fn has(&self, rendition: Rendition) -> bool
        ensures { IsTrue result ↔ (self.now.rendition ≡ Some rendition) }
    {
        match self.rendition {
            Some(known) => {
                let present = Cell::narrow(' ', known, false);
                present.is_like(&Cell::narrow(' ', rendition, false))
            }
            None => false,
        }
    }

    /// Takes up a rendition, if it isn't the present one.
    pub fn render(&mut self, rendition: Rendition, out: &mut Vec<u8>) -> Result<(), AllocError>
        ensures place { OnOk result (self.new ≡ record self.old { rendition = Some rendition }) }
        ensures takes { OnOk result (Renders self.old self.new out.old out.new) }
    {
        if self.has(rendition) {
            return Ok(());
        }
        let known = self.rendition;
        Command::Render { known, rendition }.put(out)?;
        self.rendition = Some(rendition);
        Ok(())
    }

    /// Puts the pen at a place, with a rendition.
    fn aim(
        &mut self,
        at: PenPosition,
        rendition: Rendition,
        out: &mut Vec<u8>,
    ) -> Result<(), AllocError>
        requires { (at.line < 9999) × (at.column < 9999) }
        ensures place { OnOk result (self.new ≡ aimed_at at.line at.column rendition) }
        ensures takes { OnOk result (MovesTo at.line at.column self.old self.new out.old out.new) }
    {
        self.move_to(at.line, at.column, out)?;
        self.render(rendition, out)?;
        Ok(())
    }

    /// Prints a cell's character and marks at a place of a line with `columns` columns. If this
    /// fills the last column, the cursor's place is no longer known.
    pub fn put_cell(
        &mut self,
        at: PenPosition,
        columns: u16,
        cell: &Cell,
        out: &mut Vec<u8>,
    ) -> Result<(), AllocError>
        requires { (at.line < 9999) × (at.column < 9999) }
        ensures takes { OnOk result
            (PutsCell at.line at.column columns cell.now self.old self.new out.old out.new) }
    {
        self.aim(at, cell.rendition, out)?;
        put_glyphs(cell, out)?;
        let next = at.column + columns_of(cell);
        self.column = (next < columns).then_some(next);
        Ok(())
    }

    /// Erases cells from a place on. The cursor stays at that place.
    pub fn erase_cells(
        &mut self,
        at: PenPosition,
        count: u16,
        out: &mut Vec<u8>,
    ) -> Result<(), AllocError>
        requires { (at.line < 9999) × (at.column < 9999) }
        ensures takes { OnOk result
            (Erases at.line at.column count self.old self.new out.old out.new) }
    {
        self.move_to(at.line, at.column, out)?;
        Command::EraseCells(count).put(out)?;
        Ok(())
    }

    /// Erases the cells from a place to the end of its line. The cursor stays at that place.
    pub fn erase_to_end(&mut self, at: PenPosition, out: &mut Vec<u8>) -> Result<(), AllocError>
        requires { (at.line < 9999) × (at.column < 9999) }
        ensures takes { OnOk result
            (ErasesToEnd at.line at.column self.old self.new out.old out.new) }
    {
        self.move_to(at.line, at.column, out)?;
        Command::EraseToEnd.put(out)?;
        Ok(())
    }
}

/// The number of columns that a cell's character takes.
pub fn columns_of(cell: &Cell) -> u16
    ensures value { result ≡ width_of cell.now.shape }
    ensures few { (0 < result) × (result ≤ 2) }
{
    match cell.shape {
        Shape::Left => 2,
        Shape::Narrow | Shape::Right => 1,
    }
}

/// Appends a cell's character and its marks.
fn put_glyphs(cell: &Cell, out: &mut Vec<u8>) -> Result<(), AllocError>
    ensures { OnOk result (out.new.items ≡ out.old.items ++ glyph_bytes cell.now) }
{
    Command::Glyph(cell.character).put(out)?;
    match cell.marks() {
        Marks::Bare => {}
        Marks::One(mark) => Command::Glyph(mark).put(out)?,
        Marks::Two(first, second) => {
            Command::Glyph(first).put(out)?;
            Command::Glyph(second).put(out)?;
        }
    }
    Ok(())
}
