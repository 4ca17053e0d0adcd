//! The stored lines of a page and their places.

ghost use Rattle.std.specs.Prelude.{◌≡◌, ℕ, ◌+◌, ◌-◌, ◌<◌, ◌≤◌, ◌++◌, length, map, replicate};
ghost use Rattle.std.specs.Prelude.{IfOk, drop, slice_index, take};
ghost use Rattle.std.specs.List.{range_with_len};
ghost use Rattle.cells.specs.Page.{line_at};
ghost use Rattle.cells.specs.Resizing.{line_resized, page_resized};
ghost use Rattle.vt_screen_page.specs.Store.{IsTurned, lines_in_order};

use cells::{Cell, Line, Shape};
use std::alloc::{AllocError, Global};

/// Rotates the places from `top` to `bottom`, so that the first `count` of them come last.
pub fn turn(places: &mut [u8], top: usize, bottom: usize, count: usize)
    requires order { top ≤ bottom }
    requires inside { bottom < length places.old }
    requires room { count ≤ bottom + 1 - top }
    requires few { count ≤ 200 }
    ensures { IsTurned top bottom count places.old places.new }
{
    if count == 1 {
        let first = places[top];
        places.copy_within(top + 1..bottom + 1, top);
        places[bottom] = first;
        return;
    }
    rotate(&mut places[top..bottom + 1], count);
}

// The library's `rotate_left` clears 4 KB of memory at each call, and three reversals mispredict
// several branches.
/// Rotates places so that the first `count` of them come last: it copies these out, moves the
/// others to the front, and copies these to the end.
#[inline(never)]
fn rotate(places: &mut [u8], count: usize)
    requires inside { count ≤ length places.old }
    requires few { count ≤ 200 }
    ensures { places.new ≡ drop count places.old ++ take count places.old }
{
    let mut room = [0; 200]; // a page has at most 200 lines
    let first = &mut room[..count];
    first.copy_from_slice(&places[..count]);
    places.copy_within(count.., 0);
    let rest = places.len() - count;
    places[rest..].copy_from_slice(first);
}

/// Puts a copy of one cell, of width 1, in every column of every line.
pub fn fill_all(stored: &mut [Line], cell: &Cell)
    requires narrow { cell.now.shape ≡ Shape.Narrow }
    ensures { stored.new ≡ map (λ line. replicate (length line) cell.now) stored.old }
{
    for line in stored.iter_mut() {
        line.fill(*cell);
    }
}

/// The places of `rows` lines that are stored in their order. `NoMemory` if memory is refused.
pub fn places_in_order(alloc: Global, rows: usize) -> Result<Vec<u8>, AllocError>
    requires { rows ≤ 256 }
    ensures { IfOk result (λ places. places.items ≡ range_with_len 0 rows) }
{
    let mut places = Vec::with_capacity(alloc, rows)?;
    for row in 0..rows {
        places.push(row as u8)?;
    }
    Ok(places)
}

/// A line of a page in another width, or a blank line below the last one.
fn resized_line(
    alloc: Global,
    stored: &[Line],
    places: &[u8],
    row: usize,
    columns: usize,
) -> Result<Line, AllocError>
    requires { (k : ℕ) → k < length places.now → slice_index places.now k < length stored.now }
    ensures { IfOk result
        (λ line. line ≡ line_resized columns (line_at (lines_in_order stored.now places.now) row)) }
{
    if row < places.len() {
        stored[places[row] as usize].resized(alloc, columns)
    } else {
        Line::blank(alloc, columns)
    }
}

/// The lines of a page in another size, in their order.
pub fn resized_lines(
    alloc: Global,
    stored: &[Line],
    places: &[u8],
    rows: usize,
    columns: usize,
) -> Result<Vec<Line>, AllocError>
    requires { (k : ℕ) → k < length places.now → slice_index places.now k < length stored.now }
    ensures { IfOk result
        (λ lines. lines.items ≡ page_resized rows columns (lines_in_order stored.now places.now)) }
{
    let mut lines = Vec::with_capacity(alloc, rows)?;
    for row in 0..rows {
        lines.push(resized_line(alloc, stored, places, row, columns)?)?;
    }
    Ok(lines)
}
