//! Tab stops, saved places, and rows that reset the page.

ghost use Rattle.std.specs.Prelude.{◌≡◌};
ghost use Rattle.terminal_model.specs.Table.{acted};
ghost use Rattle.terminal_model.specs.declared.action.Action.TheVariants.{Align, BlankPage, ClearTab, ClearTabs, Reset};
ghost use Rattle.terminal_model.specs.declared.action.Action.TheVariants.{Restore, Save, SetTab, SoftReset, Tab};
ghost use Rattle.vt_screen.specs.Acting.{KeepsLines};
ghost use Rattle.vt_screen.specs.Displays.{IsFit, screen_of};

use crate::screen::Display;
use cells::{Cell, Rendition};
use vt_screen_state::{
    go_home, move_to, restore, saved_of, settle, soft_reset, starting_state, use_whole_page,
};

impl Display {
    /// HT (ECMA-48, 8.3.60): moves the cursor to the next tab stop, or to the last column if there
    /// is none.
    pub fn tab(&mut self)
        requires { IsFit self.old }
        ensures screen { screen_of self.new ≡ acted (screen_of self.old) Tab }
        ensures lines { KeepsLines self.old self.new }
    {
        let line = self.state.line;
        let column = self.tabs.next(self.state.column);
        move_to(&mut self.state, line, column);
    }

    /// HTS (ECMA-48, 8.3.62): sets a stop at the cursor's column.
    pub fn set_tab(&mut self)
        requires { IsFit self.old }
        ensures screen { screen_of self.new ≡ acted (screen_of self.old) SetTab }
        ensures lines { KeepsLines self.old self.new }
    {
        self.tabs.set(self.state.column);
        settle(&mut self.state);
    }

    /// TBC 0 (ECMA-48, 8.3.154): removes the stop at the cursor's column.
    pub fn clear_tab(&mut self)
        requires { IsFit self.old }
        ensures screen { screen_of self.new ≡ acted (screen_of self.old) ClearTab }
        ensures lines { KeepsLines self.old self.new }
    {
        self.tabs.clear(self.state.column);
        settle(&mut self.state);
    }

    /// TBC 3 (ECMA-48, 8.3.154): removes all stops.
    pub fn clear_tabs(&mut self)
        requires { IsFit self.old }
        ensures screen { screen_of self.new ≡ acted (screen_of self.old) ClearTabs }
        ensures lines { KeepsLines self.old self.new }
    {
        self.tabs.clear_all();
        settle(&mut self.state);
    }

    /// DECSC (VT220 Programmer Reference Manual, cursor positioning): saves the cursor and its
    /// settings with the pending wrap, which is then cleared.
    pub fn save(&mut self)
        ensures screen { screen_of self.new ≡ acted (screen_of self.old) Save }
        ensures lines { KeepsLines self.old self.new }
    {
        self.saved = Some(saved_of(&self.state));
        settle(&mut self.state);
    }

    /// DECRC (VT220 Programmer Reference Manual, cursor positioning): restores what was saved.
    pub fn restore(&mut self)
        requires { IsFit self.old }
        ensures screen { screen_of self.new ≡ acted (screen_of self.old) Restore }
        ensures lines { KeepsLines self.old self.new }
    {
        restore(&mut self.state, self.saved);
    }

    /// RIS (ECMA-48, 8.3.105): sets all starting values and blanks the page; coding and scrollback
    /// stay.
    pub fn reset(&mut self)
        requires { IsFit self.old }
        ensures screen { screen_of self.new ≡ acted (screen_of self.old) Reset }
        ensures lines { KeepsLines self.old self.new }
    {
        self.state = starting_state(self.state.rows, self.state.columns, self.state.coding);
        self.tabs.start();
        self.saved = None;
        self.page.clear();
    }

    /// DECSTR (VT220 Programmer Reference Manual, terminal reset): resets modes and settings; the
    /// page and the cursor stay.
    pub fn soft_reset(&mut self)
        requires { IsFit self.old }
        ensures screen { screen_of self.new ≡ acted (screen_of self.old) SoftReset }
        ensures lines { KeepsLines self.old self.new }
    {
        soft_reset(&mut self.state);
        self.saved = None;
    }

    /// DECALN (VT220 Programmer Reference Manual, tests): puts an `E` at every place.
    pub fn align(&mut self)
        requires { IsFit self.old }
        ensures screen { screen_of self.new ≡ acted (screen_of self.old) Align }
        ensures lines { KeepsLines self.old self.new }
    {
        self.page.fill(Cell::narrow('E', Rendition::PLAIN, false));
        use_whole_page(&mut self.state);
        go_home(&mut self.state);
    }

    /// The value ?3 of DECSM and DECRM (VT220 Programmer Reference Manual, DECCOLM): blanks the
    /// page, whose width stays.
    pub fn blank_page(&mut self)
        requires { IsFit self.old }
        ensures screen { screen_of self.new ≡ acted (screen_of self.old) BlankPage }
        ensures lines { KeepsLines self.old self.new }
    {
        self.page.clear();
        use_whole_page(&mut self.state);
        go_home(&mut self.state);
    }
}
