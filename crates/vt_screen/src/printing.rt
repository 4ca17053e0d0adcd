//! Printing of single characters.

ghost use Rattle.std.specs.Prelude.{◌≡◌, ◌<◌, ◌+◌, ◌&&◌, Some};
ghost use Rattle.charsets.specs.declared.decoder.Unit.TheVariants.{Code};
ghost use Rattle.terminal_model.specs.Printing.{lacks_room, marked_at, placed_narrow, placed_wide, printed, printed_as};
ghost use Rattle.terminal_model.specs.Printing.{wide_printed, wrapped};
ghost use Rattle.terminal_model.specs.Table.{acted};
ghost use Rattle.terminal_model.specs.declared.action.Action.TheVariants.{Print};
ghost use Rattle.vt_screen.specs.Acting.{KeepsLines, MovesLines};
ghost use Rattle.vt_screen.specs.Displays.{IsFit, screen_of};
ghost use Rattle.vt_screen.specs.Places.{places_after, printed_places, wrapped_places};
ghost use Rattle.terminal_model.specs.Scrollback.{is_wrapped};

use crate::screen::Display;
use cells::{Cell, Shape, drawn_as, glyph_columns, is_letter, is_mark};
use charsets::Unit;
use unicode_width::UnicodeWidthChar;
use vt_screen_page::CellPosition;
use vt_screen_state::{advance, following, lacks_room, needs_line, separate};

impl Display {
    /// Prints a graphic unit, through the sets; it ends a pending single shift.
    #[inline(always)]
    pub fn print(&mut self, unit: Unit)
        requires { IsFit self.old }
        ensures screen { screen_of self.new ≡ acted (screen_of self.old) (Print unit) }
        ensures lines { MovesLines self.old (places_after (Print unit)) self.new }
    {
        if let Some(character) = self.state.shifts.map(unit) {
            self.print_character(character);
        }
    }

    /// Prints a character: does what `print` does with it as a unit.
    #[inline(always)]
    pub fn print_code(&mut self, character: char)
        requires { IsFit self.old }
        ensures screen { screen_of self.new ≡ acted (screen_of self.old) (Print (Code character)) }
        ensures fit { IsFit self.new }
        ensures lines { MovesLines self.old (places_after (Print (Code character))) self.new }
    {
        if character < '\u{A0}' {
            self.print(Unit::Code(character));
        } else {
            self.state.shifts.single = None;
            self.print_beyond(character);
        }
    }

    /// Prints a character that is in no set. Most have width 1, which is known without looking it
    /// up.
    #[inline(always)]
    fn print_beyond(&mut self, character: char)
        requires { IsFit self.old }
        ensures screen { screen_of self.new ≡ printed (Some character) (screen_of self.old) }
        ensures lines { MovesLines self.old (printed_places (Some character)) self.new }
    {
        if is_letter(character) {
            self.print_narrow(character);
        } else if is_mark(character) {
            self.join(character);
        } else {
            self.print_character(character);
        }
    }

    /// Prints a character by its width.
    #[inline(always)]
    #[tactic(auto, // its columns, and what is drawn
    unfolding(terminal_model::specs::Printing::columns_of, terminal_model::specs::Printing::drawn))]
    fn print_character(&mut self, character: char)
        requires { IsFit self.old }
        ensures screen { screen_of self.new ≡ printed (Some character) (screen_of self.old) }
        ensures lines { MovesLines self.old (printed_places (Some character)) self.new }
    {
        match character.width() {
            Some(2) => self.print_broad(character),
            width => self.print_as(glyph_columns(width), drawn_as(width, character)),
        }
    }

    /// Prints a wide character, in two columns.
    #[inline(always)]
    fn print_broad(&mut self, character: char)
        requires { IsFit self.old }
        ensures screen { screen_of self.new ≡ printed_as 2 character (screen_of self.old) }
        ensures lines { MovesLines self.old
            (wrapped_places (is_wrapped 2 self.old.state)) self.new }
    {
        self.wrap(self.state.is_wrap_pending);
        self.print_wide(character);
    }

    /// Prints a character in one column.
    #[inline(always)]
    fn print_narrow(&mut self, character: char)
        requires { IsFit self.old }
        ensures screen { screen_of self.new ≡ printed_as 1 character (screen_of self.old) }
        ensures lines { MovesLines self.old
            (wrapped_places (is_wrapped 1 self.old.state)) self.new }
    {
        self.wrap(self.state.is_wrap_pending);
        self.place_narrow(character);
    }

    /// Prints a character in `columns` columns; 0 means that it is a mark.
    #[inline(never)]
    fn print_as(&mut self, columns: u8, character: char)
        requires { IsFit self.old }
        ensures screen { screen_of self.new ≡ printed_as columns character (screen_of self.old) }
        ensures lines { MovesLines self.old
            (wrapped_places (is_wrapped columns self.old.state)) self.new }
    {
        if columns == 0 {
            self.join(character);
        } else {
            self.wrap(self.state.is_wrap_pending);
            if columns == 1 {
                self.place_narrow(character);
            } else {
                self.print_wide(character);
            }
        }
    }

    /// Lets a mark join the cell that was printed last. If anything came in between, the mark is
    /// dropped.
    fn join(&mut self, mark: char)
        requires { IsFit self.old }
        ensures screen { screen_of self.new
            ≡ marked_at self.old.state.joining mark (screen_of self.old) }
        ensures lines { KeepsLines self.old self.new }
    {
        if let Some(place) = self.state.joining {
            self.page.mark(place.line, place.column, mark);
        }
    }

    /// Performs a wrap that is due: goes to the first column and performs an index.
    pub fn wrap(&mut self, is_due: bool)
        requires { IsFit self.old }
        ensures screen { screen_of self.new ≡ wrapped is_due (screen_of self.old) }
        ensures fit { IsFit self.new }
        ensures lines { MovesLines self.old (wrapped_places is_due) self.new }
    {
        if is_due {
            self.go_to_next_line();
        }
    }

    #[inline(always)]
    pub fn place_narrow(&mut self, character: char)
        requires { IsFit self.old }
        ensures screen { screen_of self.new ≡ placed_narrow character (screen_of self.old) }
        ensures lines { KeepsLines self.old self.new }
    {
        let state = &self.state;
        let cell = Cell::narrow(character, state.rendition, state.is_protecting);
        let rest = following(state, 1);
        self.page
            .put_narrow(self.state.line, self.state.column, cell, rest);
        advance(&mut self.state, 1);
    }

    /// Prints a wide character. In the last column it goes to the next line first with ?7 set, and
    /// isn't printed with ?7 reset.
    #[inline(always)]
    fn print_wide(&mut self, character: char)
        requires { IsFit self.old }
        ensures screen { screen_of self.new ≡ wide_printed character (screen_of self.old) }
        ensures lines { MovesLines self.old
            (wrapped_places (lacks_room self.old.state && self.old.state.modes.wraps)) self.new }
    {
        let is_due = needs_line(&self.state);
        self.wrap(is_due);
        if lacks_room(&self.state) {
            separate(&mut self.state);
        } else {
            self.place_wide(character);
        }
    }

    #[inline(always)]
    fn place_wide(&mut self, character: char)
        requires fit { IsFit self.old }
        requires room { self.old.state.column + 1 < self.old.state.columns }
        ensures screen { screen_of self.new ≡ placed_wide character (screen_of self.old) }
        ensures lines { KeepsLines self.old self.new }
    {
        let state = &self.state;
        let left = Cell::left(character, state.rendition, state.is_protecting);
        let right = Cell {
            shape: Shape::Right,
            ..left
        };
        let rest = following(state, 2);
        let at = CellPosition {
            line: state.line,
            column: state.column,
        };
        self.page.put_wide(at, left, right, rest);
        advance(&mut self.state, 2);
    }
}
