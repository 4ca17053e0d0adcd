//! The rows of a page as they were when it was last looked at.

ghost use Rattle.std.specs.Prelude.{◌≡◌, ◌++◌, ◌∷◌, ◌≤◌, ◌↔◌, List, suc, length, IsTrue, OnOk, OnErr, IfOk};
ghost use Rattle.std.specs.List.{flat_map};
ghost use Rattle.std.specs.String.{string_bytes};
ghost use Rattle.web_page.specs.Runs.{runs};
ghost use Rattle.web_page.specs.Updates.{spelled_row};
ghost use Rattle.web_page.specs.Showing.{Kept, LooksAt, newer};

use crate::line::{put_number, put_runs};
use cells::Cell;
use std::alloc::{AllocError, Global};
use std::marker::Model;

/// A row, and the moment of its last change.
#[derive(Drop)]
pub struct StampedRow {
    cells: Vec<Cell>,
    stamp: u64,
}

impl Model for StampedRow {
    ghost use Rattle.web_page.specs.Showing.{Kept};

    ghost Value = { Kept };

    ghost view = { λ r. record { cells = r.cells.items; stamp = r.stamp } };
}

/// Whether two cells are equal.
#[tactic(auto, using(crate::proofs::Looking::same_from))]
fn is_same(a: &Cell, b: &Cell) -> bool
    ensures { IsTrue result ↔ (a.now ≡ b.now) }
{
    if !a.is_like(b) {
        return false;
    }
    if a.is_protected() {
        b.is_protected()
    } else {
        !b.is_protected()
    }
}

/// Whether two rows are equal.
fn are_same(a: &[Cell], b: &[Cell]) -> bool
    ensures { IsTrue result ↔ (a.now ≡ b.now) }
{
    if a.len() != b.len() {
        return false;
    }
    for i in 0..a.len() {
        if !is_same(&a[i], &b[i]) {
            return false;
        }
    }
    true
}

impl StampedRow {
    ghost use Rattle.std.specs.Prelude.{◌≡◌, ◌↔◌, IsTrue};

    // Whether it has these cells.
    fn has(&self, cells: &[Cell]) -> bool
        ensures { IsTrue result ↔ (self.now.cells ≡ cells.now) }
    {
        are_same(&self.cells, cells)
    }
}

/// Takes the cells of the row with this number, if they are new. Returns whether they are.
pub fn look_at(
    alloc: Global,
    rows: &mut Vec<StampedRow>,
    number: usize,
    cells: &[Cell],
    stamp: u64,
) -> Result<bool, AllocError>
    requires { number ≤ length rows.old.items }
    ensures ok { IfOk result (λ is_new.
        LooksAt number cells.now stamp rows.old.items rows.new.items is_new) }
    ensures err { OnErr result (rows.new.items ≡ rows.old.items) }
{
    if number == rows.len() {
        let cells = cells.to_vec(alloc)?;
        rows.push(StampedRow { cells, stamp })?;
        return Ok(true);
    }
    if rows[number].has(cells) {
        return Ok(false);
    }
    let cells = cells.to_vec(alloc)?;
    rows[number] = StampedRow { cells, stamp };
    Ok(true)
}

/// Appends a row with its number.
fn put_row(out: &mut String, number: u64, row: &StampedRow) -> Result<(), AllocError>
    ensures { OnOk result (string_bytes out.new
        ≡ string_bytes out.old ++ spelled_row (number, runs row.now.cells)) }
{
    out.push_str(",[")?;
    put_number(out, number)?;
    put_runs(out, &row.cells)?;
    out.push_str("]")
}

/// Appends a row with its number if it changed at this moment or later.
fn put_newer(out: &mut String, number: u64, row: &StampedRow, since: u64) -> Result<(), AllocError>
    ensures { OnOk result ((rs : List Kept) →
        string_bytes out.new ++ flat_map spelled_row (newer since (suc number) rs)
        ≡ string_bytes out.old ++ flat_map spelled_row (newer since number (row.now ∷ rs))) }
{
    if row.stamp < since {
        return Ok(());
    }
    put_row(out, number, row)?;
    Ok(())
}

/// Appends the rows that changed at this moment or later.
pub fn put_rows(out: &mut String, rows: &[StampedRow], since: u64) -> Result<(), AllocError>
    ensures { OnOk result (string_bytes out.new
        ≡ string_bytes out.old ++ flat_map spelled_row (newer since 0 rows.now)) }
{
    for (number, row) in rows.iter().enumerate() {
        put_newer(out, number as u64, row, since)?;
    }
    Ok(())
}
