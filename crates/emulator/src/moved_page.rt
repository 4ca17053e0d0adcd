//! The page of an emulator, perhaps moved back into its scrollback.

ghost use Rattle.std.specs.Prelude.{◌≡◌, ◌<◌, length};
ghost use Rattle.cells.specs.Page.{IsPage, line_at};
ghost use Rattle.terminal_model.specs.Scrollback.{moved_back};

use cells::Cell;
use std::marker::Model;
use vt_screen::Screen;

/// The lines of a page that is moved back by lines of the scrollback.
#[derive(Drop)]
pub struct MovedPage<'a> {
    screen: &'a Screen,
    /// The number of lines of the scrollback, which stand above the page's lines.
    back: usize,
}

impl<'a> Model for MovedPage<'a> {
    ghost use Rattle.terminal_model.specs.Screen.{Page};
    ghost use Rattle.terminal_model.specs.Scrollback.{moved_back};
    ghost use Rattle.emulator.specs.Pages.{IsMovedBack};

    ghost Value = { Page };

    ghost view = { λ s. moved_back s.back s.screen.now.screen };

    ghost invariant = { λ s. IsMovedBack s.screen.now.screen s.back };
}

impl<'a> MovedPage<'a> {
    /// The page moved back by `offset` lines of the scrollback, or by all of them if they are
    /// fewer.
    pub(crate) fn of(screen: &'a Screen, offset: usize) -> MovedPage<'a>
        ensures lines { result ≡ moved_back offset screen.now.screen }
        ensures sized { IsPage screen.now.screen.state.rows screen.now.screen.state.columns result }
        ensures page { offset ≡ 0 → result ≡ screen.now.screen.page }
    {
        MovedPage {
            screen,
            back: offset.min(screen.kept_count()),
        }
    }

    /// The number of lines, which is that of the page.
    pub fn rows(&self) -> usize
        ensures { result ≡ length self.now }
    {
        self.screen.rows()
    }

    /// The cells of a line; line 0 is the top one.
    pub fn line(&self, line: usize) -> &'a [Cell]
        requires { line < length self.now }
        ensures { result.now ≡ line_at self.now line }
    {
        if line < self.back {
            self.screen.kept(self.back - 1 - line).unwrap_or(&[])
        } else {
            self.screen.row(line - self.back)
        }
    }
}
