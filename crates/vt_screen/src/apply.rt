//! The screen table: one method for each action.

ghost use Rattle.std.specs.Prelude.{◌≡◌, ◌≤◌, length};
ghost use Rattle.terminal_model.specs.Table.{acted};
ghost use Rattle.terminal_model.specs.Reports.{answer};
ghost use Rattle.vt_screen.specs.Acting.{MovesLines, MovesLinesBy};
ghost use Rattle.vt_screen.specs.Displays.{IsFit, screen_of};
ghost use Rattle.vt_screen.specs.Places.{places_after};
ghost use Rattle.vt_screen_state.specs.Counted.{IsCounted};

use crate::screen::Display;
use terminal_model::{Action, Report};
use vt_screen_state::{
    designate, go_down, go_left, go_right, go_to, go_to_first_column, go_up, protect, render,
    report_of, set_application_keypad, set_coding, set_eight_bit_reports, set_margins, set_mode,
    settle, shift,
};

impl Display {
    /// Performs one action and returns the answer.
    #[inline(always)]
    pub fn apply(&mut self, action: Action) -> Report
        requires fit { IsFit self.old }
        requires counted { IsCounted action }
        ensures screen { screen_of self.new ≡ acted (screen_of self.old) action }
        ensures fit { IsFit self.new }
        ensures places { MovesLinesBy self.old action self.new }
        ensures report { result ≡ answer self.old.state action }
        ensures few { length result ≤ 12 }
    {
        let report = report_of(&self.state, action);
        self.apply_row(action);
        report
    }

    /// Performs one action, which is one row of the screen table.
    #[inline(always)]
    pub fn apply_row(&mut self, action: Action)
        requires fit { IsFit self.old }
        requires counted { IsCounted action }
        ensures screen { screen_of self.new ≡ acted (screen_of self.old) action }
        ensures fit { IsFit self.new }
        ensures places { MovesLinesBy self.old action self.new }
    {
        self.dispatch(action);
    }

    #[inline(always)]
    fn dispatch(&mut self, action: Action)
        requires fit { IsFit self.old }
        requires counted { IsCounted action }
        ensures screen { screen_of self.new ≡ acted (screen_of self.old) action }
        ensures lines { MovesLines self.old (places_after action) self.new }
    {
        match action {
            Action::Print(unit) => self.print(unit),
            Action::Tab => self.tab(),
            Action::LineFeed => self.feed_line(),
            Action::Index => self.index(),
            Action::NextLine => self.go_to_next_line(),
            Action::ReverseIndex => self.index_back(),
            Action::SetTab => self.set_tab(),
            Action::ClearTab => self.clear_tab(),
            Action::ClearTabs => self.clear_tabs(),
            Action::Save => self.save(),
            Action::Restore => self.restore(),
            Action::Reset => self.reset(),
            Action::SoftReset => self.soft_reset(),
            Action::Align => self.align(),
            Action::BlankPage => self.blank_page(),
            Action::EraseInPage(part) => self.erase_in_page(part),
            Action::EraseInLine(part) => self.erase_in_line(part),
            Action::EraseCells(count) => self.erase_cells(count),
            Action::EraseUnprotectedInPage(part) => self.erase_unprotected_in_page(part),
            Action::EraseUnprotectedInLine(part) => self.erase_unprotected_in_line(part),
            Action::InsertCells(count) => self.insert_cells(count),
            Action::DeleteCells(count) => self.delete_cells(count),
            Action::InsertLines(count) => self.insert_lines(count),
            Action::DeleteLines(count) => self.delete_lines(count),
            Action::Backspace => go_left(&mut self.state, 1),
            Action::CarriageReturn => go_to_first_column(&mut self.state),
            Action::Up(count) => go_up(&mut self.state, count),
            Action::Down(count) => go_down(&mut self.state, count),
            Action::Right(count) => go_right(&mut self.state, count),
            Action::Left(count) => go_left(&mut self.state, count),
            Action::MoveTo(line, column) => go_to(&mut self.state, line, column),
            Action::SetMargins(top, bottom) => set_margins(&mut self.state, top, bottom),
            Action::SetMode(mode, is_set) => set_mode(&mut self.state, mode, is_set),
            Action::Render(attribute) => render(&mut self.state, attribute),
            Action::Shift(chosen) => shift(&mut self.state, chosen),
            Action::Designate(place, set) => designate(&mut self.state, place, set),
            Action::SetCoding(coding) => set_coding(&mut self.state, coding),
            Action::SetEightBitReports(is_set) => set_eight_bit_reports(&mut self.state, is_set),
            Action::SetApplicationKeypad(is_set) => set_application_keypad(&mut self.state, is_set),
            Action::Protect(is_set) => protect(&mut self.state, is_set),
            _ => settle(&mut self.state),
        }
    }
}
