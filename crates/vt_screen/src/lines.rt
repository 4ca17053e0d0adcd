//! Runs of characters at the start of a line.

ghost use Rattle.std.specs.Prelude.{◌≡◌, ◌≤◌, ◌∷◌, true, length, take, IsTrue};
ghost use Rattle.std.specs.List.{list_all};
ghost use Rattle.charsets.specs.Units.{is_plain};
ghost use Rattle.terminal_model.specs.declared.action.Action.TheVariants.{CarriageReturn, LineFeed};
ghost use Rattle.vt_screen.specs.Acting.{ActsByAll, MovesLinesByAll};
ghost use Rattle.vt_screen.specs.Displays.{IsFit};
ghost use Rattle.vt_screen.specs.Runs.{ScrollsPlain, prints};

use crate::runs::takes_runs;
use crate::screen::Display;
use control_parser::plain_run;
use terminal_model::State;
use vt_screen_state::{advance, go_to_first_column};

impl Display {
    /// Performs CR and LF, and prints characters 20 to 7E with which some bytes begin: as many as
    /// there is room for in a line that scrolls in, or none. Returns how many.
    pub fn print_line(&mut self, bytes: &[u8]) -> usize
        requires { IsFit self.old }
        ensures plain { list_all is_plain (take result bytes.now) ≡ true }
        ensures few { result ≤ length bytes.now }
        ensures screen { ActsByAll self.old
            (CarriageReturn ∷ LineFeed ∷ prints (take result bytes.now)) self.new }
        ensures fit { IsFit self.new }
        ensures places { MovesLinesByAll self.old
            (CarriageReturn ∷ LineFeed ∷ prints (take result bytes.now)) self.new }
    {
        if takes_runs(&self.state) && scrolls_plain(&self.state) {
            let count = plain_front(bytes, self.state.columns);
            if count > 0 {
                self.page
                    .scroll_in_run(&mut self.ring, self.state.bottom, &bytes[..count]);
                self.state.column = count - 1;
                advance(&mut self.state, 1);
                return count;
            }
        }
        go_to_first_column(&mut self.state);
        self.feed_line();
        0
    }
}

/// Whether an index scrolls the page from its first line on, and new characters have neither
/// rendition nor protection.
fn scrolls_plain(state: &State) -> bool
    ensures { IsTrue result → ScrollsPlain state.now }
{
    state.line == state.bottom
        && state.top == 0
        && state.rendition.is_plain()
        && !state.is_protecting
}

/// The number of characters 20 to 7E with which some bytes begin, but at most `most`.
fn plain_front(bytes: &[u8], most: usize) -> usize
    ensures plain { list_all is_plain (take result bytes.now) ≡ true }
    ensures few { result ≤ length bytes.now }
    ensures room { result ≤ most }
{
    plain_run(&bytes[..bytes.len().min(most)])
}
