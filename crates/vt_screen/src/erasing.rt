//! Rows that erase (ECMA-48, 8.3.38, 8.3.39 and 8.3.41; VT220 Programmer Reference Manual,
//! erasing).

ghost use Rattle.std.specs.Prelude.{◌≡◌, ◌<◌, ◌≤◌};
ghost use Rattle.cells.specs.Page.{IsPage, page_from};
ghost use Rattle.terminal_model.specs.declared.action.Action.TheVariants.{EraseCells, EraseInLine, EraseInPage};
ghost use Rattle.terminal_model.specs.declared.action.Action.TheVariants.{EraseUnprotectedInLine};
ghost use Rattle.terminal_model.specs.declared.action.Action.TheVariants.{EraseUnprotectedInPage};
ghost use Rattle.terminal_model.specs.Erasing.{line_erased, part_erased, part_unprotected, unprotected_lines};
ghost use Rattle.terminal_model.specs.Table.{acted};
ghost use Rattle.vt_screen.specs.Acting.{KeepsLines};
ghost use Rattle.vt_screen.specs.Displays.{IsFit, screen_of};

use crate::screen::Display;
use terminal_model::{Part, State};
use vt_screen_page::Page;
use vt_screen_state::{end_after, end_column, end_line, first_column, first_line, settle};

impl Display {
    /// EL: erases a part of the cursor's line.
    pub fn erase_in_line(&mut self, part: Part)
        requires { IsFit self.old }
        ensures screen { screen_of self.new ≡ acted (screen_of self.old) (EraseInLine part) }
        ensures lines { KeepsLines self.old self.new }
    {
        erase_part(&mut self.page, &self.state, part);
        settle(&mut self.state);
    }

    /// ED: erases a part of the page, in the cursor's line as EL does.
    pub fn erase_in_page(&mut self, part: Part)
        requires { IsFit self.old }
        ensures screen { screen_of self.new ≡ acted (screen_of self.old) (EraseInPage part) }
        ensures lines { KeepsLines self.old self.new }
    {
        erase_part(&mut self.page, &self.state, part);
        let first = first_line(part, &self.state);
        let end = end_line(part, &self.state);
        self.page.erase_lines(first, end);
        settle(&mut self.state);
    }

    /// ECH: erases `count` cells of the cursor's line from the cursor on, or all that there are.
    pub fn erase_cells(&mut self, count: usize)
        requires fit { IsFit self.old }
        requires some { 0 < count }
        ensures screen { screen_of self.new ≡ acted (screen_of self.old) (EraseCells count) }
        ensures lines { KeepsLines self.old self.new }
    {
        let from = self.state.column;
        let end = end_after(&self.state, count);
        erase_columns(&mut self.page, &self.state, from, end);
        settle(&mut self.state);
    }

    /// DECSEL: erases the unprotected cells of a part of the cursor's line.
    pub fn erase_unprotected_in_line(&mut self, part: Part)
        requires { IsFit self.old }
        ensures screen { screen_of self.new
            ≡ acted (screen_of self.old) (EraseUnprotectedInLine part) }
        ensures lines { KeepsLines self.old self.new }
    {
        erase_unprotected_part(&mut self.page, &self.state, part);
        settle(&mut self.state);
    }

    /// DECSED: erases the unprotected cells of a part of the page, in the cursor's line as DECSEL
    /// does.
    pub fn erase_unprotected_in_page(&mut self, part: Part)
        requires { IsFit self.old }
        ensures screen { screen_of self.new
            ≡ acted (screen_of self.old) (EraseUnprotectedInPage part) }
        ensures lines { KeepsLines self.old self.new }
    {
        erase_unprotected_part(&mut self.page, &self.state, part);
        let first = first_line(part, &self.state);
        let end = end_line(part, &self.state);
        erase_unprotected_lines(&mut self.page, &self.state, first, end);
        settle(&mut self.state);
    }
}

/// Blanks the columns of the cursor's line from `from` up to but not including `end`.
fn erase_columns(page: &mut Page, state: &State, from: usize, end: usize)
    requires page { IsPage state.now.rows state.now.columns page.old.lines }
    requires line_inside { state.now.line < state.now.rows }
    requires order { from < end }
    requires inside { end ≤ state.now.columns }
    ensures value { page.new.lines ≡ line_erased state.now from end page.old.lines }
    ensures places { page.new.places ≡ page.old.places }
{
    page.splice(state.line, from, end - from, end);
}

/// Blanks a part of the cursor's line.
fn erase_part(page: &mut Page, state: &State, part: Part)
    requires page { IsPage state.now.rows state.now.columns page.old.lines }
    requires line_inside { state.now.line < state.now.rows }
    requires column_inside { state.now.column < state.now.columns }
    ensures value { page.new.lines ≡ part_erased state.now part page.old.lines }
    ensures page { IsPage state.now.rows state.now.columns page.new.lines }
    ensures places { page.new.places ≡ page.old.places }
{
    let from = first_column(part, state);
    let end = end_column(part, state);
    erase_columns(page, state, from, end);
}

/// Blanks the unprotected cells of a part of the cursor's line.
fn erase_unprotected_part(page: &mut Page, state: &State, part: Part)
    requires page { IsPage state.now.rows state.now.columns page.old.lines }
    requires line_inside { state.now.line < state.now.rows }
    requires column_inside { state.now.column < state.now.columns }
    ensures value { page.new.lines ≡ part_unprotected state.now part page.old.lines }
    ensures page { IsPage state.now.rows state.now.columns page.new.lines }
    ensures places { page.new.places ≡ page.old.places }
{
    let from = first_column(part, state);
    let end = end_column(part, state);
    page.erase_unprotected(state.line, from, end);
}

/// Blanks the unprotected cells of the lines from `first` up to but not including `end`.
fn erase_unprotected_lines(page: &mut Page, state: &State, first: usize, end: usize)
    requires page { IsPage state.now.rows state.now.columns page.old.lines }
    requires order { first ≤ end }
    requires inside { end ≤ state.now.rows }
    ensures value { page.new.lines
        ≡ page_from (unprotected_lines page.old.lines state.now.columns first end) page.old.lines }
    ensures places { page.new.places ≡ page.old.places }
{
    let columns = state.columns;
    for line in first..end {
        page.erase_unprotected(line, 0, columns);
    }
}
