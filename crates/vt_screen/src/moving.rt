//! Rows that go to another line and may scroll.

ghost use Rattle.std.specs.Prelude.{◌≡◌};
ghost use Rattle.terminal_model.specs.Screen.{with_state};
ghost use Rattle.terminal_model.specs.Motion.{indexed, moved_to, reverse_indexed};
ghost use Rattle.terminal_model.specs.Table.{acted};
ghost use Rattle.terminal_model.specs.declared.action.Action.TheVariants.{LineFeed};
ghost use Rattle.vt_screen.specs.Acting.{MovesLines};
ghost use Rattle.vt_screen.specs.Displays.{IsFit, screen_of, scrolled};
ghost use Rattle.vt_screen.specs.Places.{indexed_places, lowered_places, raised_places};

use crate::screen::Display;
use vt_screen_state::{go_to_first_column, settle};

impl Display {
    /// IND (VT220 Programmer Reference Manual, cursor positioning): in the last line of the
    /// margins, the lines of the margins go up by one; elsewhere the cursor goes down, within the
    /// page.
    #[inline(always)]
    pub fn index(&mut self)
        requires { IsFit self.old }
        ensures screen { screen_of self.new ≡ indexed (screen_of self.old) }
        ensures lines { MovesLines self.old indexed_places self.new }
    {
        if self.state.line == self.state.bottom {
            self.scroll();
        } else if self.state.line + 1 < self.state.rows {
            self.state.line += 1;
        }
        settle(&mut self.state);
    }

    /// Moves the lines of the margins up by one. A line that leaves at the first line of the page
    /// enters the scrollback.
    #[inline(never)]
    fn scroll(&mut self)
        requires { IsFit self.old }
        ensures screen { screen_of self.new ≡ scrolled (screen_of self.old) }
        ensures lines { MovesLines self.old raised_places self.new }
    {
        if self.state.top == 0 {
            self.page.scroll_into(&mut self.ring, self.state.bottom);
        } else {
            self.page.scroll_up(self.state.top, self.state.bottom, 1);
        }
    }

    /// NEL (ECMA-48, 8.3.86): goes to the first column and performs an index.
    pub fn go_to_next_line(&mut self)
        requires { IsFit self.old }
        ensures screen { screen_of self.new
            ≡ indexed
            (with_state (screen_of self.old) (moved_to self.old.state self.old.state.line 0)) }
        ensures lines { MovesLines self.old indexed_places self.new }
    {
        go_to_first_column(&mut self.state);
        self.index();
    }

    /// LF, VT and FF (ECMA-48, 8.3.74): performs an index, and with LNM set goes to the first
    /// column too.
    pub fn feed_line(&mut self)
        requires { IsFit self.old }
        ensures screen { screen_of self.new ≡ acted (screen_of self.old) LineFeed }
        ensures lines { MovesLines self.old indexed_places self.new }
    {
        if self.state.modes.starts_lines {
            self.go_to_next_line();
        } else {
            self.index();
        }
    }

    /// RI (ECMA-48, 8.3.104): in the first line of the margins, the lines of the margins go down by
    /// one; elsewhere the cursor goes up, within the page.
    pub fn index_back(&mut self)
        requires { IsFit self.old }
        ensures screen { screen_of self.new ≡ reverse_indexed (screen_of self.old) }
        ensures lines { MovesLines self.old lowered_places self.new }
    {
        if self.state.line == self.state.top {
            self.page.scroll_down(self.state.top, self.state.bottom, 1);
        } else {
            self.state.line = self.state.line.saturating_sub(1);
        }
        settle(&mut self.state);
    }
}
