//! Text in UTF-8.

ghost use Rattle.std.specs.Prelude.{◌≡◌, ◌<◌, ◌≤◌, false, length, take};
ghost use Rattle.charsets.specs.Text.{text, IsText};
ghost use Rattle.vt_screen.specs.Acting.{ActsByAll, MovesLinesByAll};
ghost use Rattle.vt_screen.specs.Displays.{IsFit};
ghost use Rattle.vt_screen.specs.Runs.{TakesRuns, prints};
ghost use Rattle.vt_screen.specs.Texts.{PrintsText};

use crate::runs::takes_runs;
use crate::screen::Display;
use charsets::first_character;
use vt_screen_page::CellPosition;
use vt_screen_state::advance;

impl Display {
    /// Prints graphic characters with which some bytes of UTF-8 begin, one after another, and returns
    /// their number of bytes. It may stop before the last of them; 0 if there is none.
    #[inline(always)]
    pub fn print_text(&mut self, bytes: &[u8]) -> usize
        requires fit { IsFit self.old }
        ensures text { IsText (take result bytes.now) }
        ensures few { result ≤ length bytes.now }
        ensures screen { ActsByAll self.old (prints (text (take result bytes.now))) self.new }
        ensures fit { IsFit self.new }
        ensures places { MovesLinesByAll self.old (prints (text (take result bytes.now))) self.new }
    {
        if takes_runs(&self.state) && !self.state.is_wrap_pending {
            let read = self.place_text(bytes);
            if read > 0 {
                return read;
            }
        }
        self.print_first(bytes)
    }

    /// Prints the character with which some bytes begin, and returns its number of bytes; 0 if there
    /// is none.
    #[inline(never)]
    fn print_first(&mut self, bytes: &[u8]) -> usize
        requires fit { IsFit self.old }
        ensures prints { PrintsText self.old (take result bytes.now) self.new }
        ensures few { result ≤ length bytes.now }
    {
        if bytes.is_empty() {
            return 0;
        }
        let Some((character, size)) = first_character(bytes) else {
            return 0;
        };
        self.print_code(character);
        size
    }

    /// Puts the characters of known width with which some bytes begin in the cursor's line, over
    /// the old cells, as far as there is room. Returns their number of bytes.
    #[inline(always)]
    fn place_text(&mut self, bytes: &[u8]) -> usize
        requires fit { IsFit self.old }
        requires takes { TakesRuns self.old.state }
        requires settled { self.old.state.is_wrap_pending ≡ false }
        ensures prints { PrintsText self.old (take result bytes.now) self.new }
        ensures few { result ≤ length bytes.now }
    {
        let at = CellPosition {
            line: self.state.line,
            column: self.state.column,
        };
        let (rendition, is_protecting) = (self.state.rendition, self.state.is_protecting);
        let put = self.page.put_text(at, bytes, rendition, is_protecting);
        if put.count > 0 {
            self.state.column += put.count - put.last;
            advance(&mut self.state, put.last);
        }
        put.read
    }
}
