//! A grid of cells.

ghost use Rattle.std.specs.Prelude.{◌≡◌, ◌+◌, ◌<◌, ◌≤◌, ◌↔◌, Err, length, replicate, IfOk, IsTrue};
ghost use Rattle.cells.specs.Line.{blank};
ghost use Rattle.cells.specs.Page.{IsGrid, IsGridSize, line_at, page_spliced};

use crate::cell::Cell;
use crate::line::Line;
use std::alloc::{AllocError, Global};
use std::fmt;
use std::marker::Model;
use thiserror::Error;

/// The least and the greatest number of lines of a grid, and then of columns.
const LEAST: usize = 2;

const MOST_ROWS: usize = 200;

const MOST_COLUMNS: usize = 300;

/// Why there is no grid.
#[derive(Clone, Copy, Debug, PartialEq, Eq, Error)]
pub enum GridFault {
    /// An allocation was refused.
    #[error("out of memory")]
    NoMemory = 1,
    /// The size isn't 2 to 200 lines by 2 to 300 columns.
    #[error("bad size")]
    BadSize = 2,
}

/// A page of 2 to 200 lines by 2 to 300 columns, in which the halves of wide characters are paired.
/// Lines and columns count from 0.
#[derive(Drop)]
pub struct Grid {
    lines: Vec<Line>,
}

impl Model for Grid {
    ghost use Rattle.std.specs.Prelude.{List};
    ghost use Rattle.cells.specs.declared.cell.Cell.{Cell};
    ghost use Rattle.cells.specs.Page.{IsGrid};

    ghost Value = { List (List Cell) };

    ghost view = { λ grid. grid.lines.items };

    ghost invariant = { λ grid. IsGrid grid.lines.items };
}

/// Makes `rows` blank lines of `columns` cells.
pub fn blank_lines(alloc: Global, rows: usize, columns: usize) -> Result<Vec<Line>, AllocError>
    ensures { IfOk result (λ lines. lines.items ≡ replicate rows (replicate columns blank)) }
{
    let mut lines = Vec::with_capacity(alloc, rows)?;
    for row in 0..rows {
        lines.push(Line::blank(alloc, columns)?)?;
    }
    Ok(lines)
}

/// Copies lines.
fn copied_lines(alloc: Global, lines: &[Line]) -> Result<Vec<Line>, AllocError>
    ensures { IfOk result (λ copies. copies.items ≡ lines.now) }
{
    let mut copies = Vec::with_capacity(alloc, lines.len())?;
    for line in lines {
        copies.push(line.copied(alloc)?)?;
    }
    Ok(copies)
}

/// Whether a grid can have this size: 2 to 200 lines by 2 to 300 columns.
pub fn is_grid_size(rows: usize, columns: usize) -> bool
    ensures { IsTrue result ↔ IsGridSize rows columns }
{
    (LEAST..=MOST_ROWS).contains(&rows) && (LEAST..=MOST_COLUMNS).contains(&columns)
}

impl Grid {
    /// Makes a grid of blanks. `BadSize` if the size isn't 2 to 200 lines by 2 to 300 columns,
    /// `NoMemory` if memory is refused.
    pub fn new(alloc: Global, rows: usize, columns: usize) -> Result<Grid, GridFault>
        ensures ok { IfOk result (λ grid. grid ≡ replicate rows (replicate columns blank)) }
        ensures size { IfOk result (λ _. IsGridSize rows columns) }
        ensures bad_size { (result ≡ Err GridFault.BadSize) ↔ (¬ IsGridSize rows columns) }
    {
        if !is_grid_size(rows, columns) {
            return Err(GridFault::BadSize);
        }
        match blank_lines(alloc, rows, columns) {
            Ok(lines) => Ok(Grid { lines }),
            Err(_) => Err(GridFault::NoMemory),
        }
    }

    /// Copies the grid.
    pub fn copied(&self, alloc: Global) -> Result<Grid, AllocError>
        ensures { IfOk result (λ grid. grid ≡ self.now) }
    {
        Ok(Grid {
            lines: copied_lines(alloc, self.lines.as_slice())?,
        })
    }

    /// The number of lines.
    pub fn rows(&self) -> usize
        ensures value { result ≡ length self.now }
        ensures grid { IsGrid self.now }
    {
        self.lines.len()
    }

    /// The number of columns.
    pub fn columns(&self) -> usize
        ensures { result ≡ length (line_at self.now 0) }
    {
        self.lines[0].width()
    }

    /// The cells of a line, from left to right.
    pub fn row(&self, line: usize) -> &[Cell]
        requires { line < length self.now }
        ensures { result.now ≡ line_at self.now line }
    {
        self.lines[line].cells()
    }

    /// Puts cells over as many old ones, from a column of a line on. An old half that loses its
    /// other half becomes blank, and so does a new half without its other half beside it.
    pub fn write(&mut self, line: usize, column: usize, cells: &[Cell])
        requires line_inside { line < length self.old }
        requires room { column + length cells.now ≤ length (line_at self.old line) }
        ensures { self.new
            ≡ page_spliced line column cells.now (column + length cells.now) self.old }
    {
        self.lines[line].put(column, cells);
    }
}
