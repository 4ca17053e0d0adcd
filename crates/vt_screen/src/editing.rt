//! Rows that shift cells and lines.

ghost use Rattle.std.specs.Prelude.{◌≡◌, ◌<◌};
ghost use Rattle.terminal_model.specs.Table.{acted};
ghost use Rattle.terminal_model.specs.declared.action.Action.TheVariants.{DeleteCells, DeleteLines};
ghost use Rattle.terminal_model.specs.declared.action.Action.TheVariants.{InsertCells, InsertLines};
ghost use Rattle.vt_screen.specs.Acting.{KeepsLines, MovesLines};
ghost use Rattle.vt_screen.specs.Displays.{IsFit, screen_of};
ghost use Rattle.vt_screen.specs.Places.{inserted_places, deleted_places};

use crate::screen::Display;
use vt_screen_state::{end_after, go_to_first_column, is_in_margins, settle};

impl Display {
    /// ICH (ECMA-48, 8.3.64): inserts as many blanks at the cursor as there is room for.
    pub fn insert_cells(&mut self, count: usize)
        requires fit { IsFit self.old }
        requires some { 0 < count }
        ensures screen { screen_of self.new ≡ acted (screen_of self.old) (InsertCells count) }
        ensures lines { KeepsLines self.old self.new }
    {
        let column = self.state.column;
        let count = count.min(self.state.columns - column);
        self.page.splice(self.state.line, column, count, column);
        settle(&mut self.state);
    }

    /// DCH (ECMA-48, 8.3.26): deletes as many cells at the cursor as there are.
    pub fn delete_cells(&mut self, count: usize)
        requires fit { IsFit self.old }
        requires some { 0 < count }
        ensures screen { screen_of self.new ≡ acted (screen_of self.old) (DeleteCells count) }
        ensures lines { KeepsLines self.old self.new }
    {
        let rest = end_after(&self.state, count);
        self.page
            .splice(self.state.line, self.state.column, 0, rest);
        settle(&mut self.state);
    }

    /// IL (ECMA-48, 8.3.67): within the margins, blank lines come in at the cursor, which goes to
    /// the first column. Outside of them no line and no cursor moves.
    pub fn insert_lines(&mut self, count: usize)
        requires { IsFit self.old }
        ensures screen { screen_of self.new ≡ acted (screen_of self.old) (InsertLines count) }
        ensures lines { MovesLines self.old (inserted_places count) self.new }
    {
        if is_in_margins(&self.state) {
            let line = self.state.line;
            let bottom = self.state.bottom;
            self.page
                .scroll_down(line, bottom, count.min(bottom + 1 - line));
            go_to_first_column(&mut self.state);
        } else {
            settle(&mut self.state);
        }
    }

    /// DL (ECMA-48, 8.3.32): within the margins, lines go out at the cursor, which goes to the
    /// first column. Outside of them no line and no cursor moves.
    pub fn delete_lines(&mut self, count: usize)
        requires { IsFit self.old }
        ensures screen { screen_of self.new ≡ acted (screen_of self.old) (DeleteLines count) }
        ensures lines { MovesLines self.old (deleted_places count) self.new }
    {
        if is_in_margins(&self.state) {
            let line = self.state.line;
            let bottom = self.state.bottom;
            self.page
                .scroll_up(line, bottom, count.min(bottom + 1 - line));
            go_to_first_column(&mut self.state);
        } else {
            settle(&mut self.state);
        }
    }
}
