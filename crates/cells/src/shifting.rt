//! Blanks that come into a line that ends in blanks.

ghost use Rattle.std.specs.Prelude.{◌≡◌, ◌+◌, ◌-◌, ◌<◌, ◌≤◌, min, length, replicate};
ghost use Rattle.cells.specs.Line.{cells_spliced, IsPaired, IsUsed, blank};
ghost use Rattle.cells.specs.Put.{IsPut};

use crate::cell::Cell;
use crate::edits::{blank_all, cut, splice};

/// Does what `edits::splice` does, in a line whose cells from `used` on are blank and stay
/// untouched. Returns the column from which on the line is blank afterwards.
pub fn splice_used(cells: &mut [Cell], used: usize, at: usize, count: usize, rest: usize) -> usize
    requires used { IsUsed used cells.old }
    requires order { at ≤ rest }
    requires inside { rest ≤ length cells.old }
    requires room { at + count ≤ length cells.old }
    requires changes { at < rest + count }
    ensures value { cells.new ≡ cells_spliced at (replicate count blank) rest cells.old }
    ensures all_out { used ≤ rest → result ≡ min used at }
    ensures moved { rest < used → result ≡ min (used - rest + (at + count)) (length cells.old) }
{
    if used <= rest {
        if used <= at {
            return used;
        }
        erase(cells, at, used);
        return at;
    }
    let start = at + count;
    if start == rest {
        erase(cells, at, rest);
        return used;
    }
    let behind = start + (used - rest).min(cells.len() - start);
    splice(&mut cells[..behind.max(used)], at, count, rest);
    behind
}

/// Blanks the cells from `at` up to but not including `end`, and any half beside them that loses
/// its other half.
fn erase(cells: &mut [Cell], at: usize, end: usize)
    requires paired { IsPaired cells.old }
    requires some { at < end }
    requires inside { end ≤ length cells.old }
    ensures { cells.new ≡ cells_spliced at (replicate (end - at) blank) end cells.old }
{
    cut(cells, at);
    cut(cells, end);
    blank_out(cells, at, end);
}

/// Puts a blank in each column from `at` up to but not including `end`.
fn blank_out(cells: &mut [Cell], at: usize, end: usize)
    requires order { at ≤ end }
    requires inside { end ≤ length cells.old }
    ensures { IsPut at (replicate (end - at) blank) cells.old cells.new }
{
    blank_all(&mut cells[at..end]);
}
