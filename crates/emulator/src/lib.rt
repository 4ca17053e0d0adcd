//! A VT220 that turns bytes into a page.
#![tactic(auto)]

mod emulator;
mod moved_page;
mod sequence;
mod whole;

ghost use Rattle.std.specs.Prelude.{◌≡◌, ℕ, List, [], ◌++◌, length, take, reverse};
ghost use Rattle.std.specs.List.{AllByRecursion};
ghost use Rattle.cells.specs.Page.{IsGridSize};
ghost use Rattle.charsets.specs.declared.decoder.Coding.{Coding};
ghost use Rattle.terminal_model.specs.Reading.{Terminal, ready, reads};
ghost use Rattle.terminal_model.specs.Screen.{Screen, starting};
ghost use Rattle.terminal_model.specs.Scrollback.{all_left, moved_back};
ghost use Rattle.terminal_model.specs.Writing.{Writing as Written, Clear, Reset, Encoding, IsWriting, writes, writes_all};
ghost use Rattle.emulator.specs.Standing.{Parts, StandsFor, HasRead};

pub use emulator::{Emulator, Stopped, Writing};
pub use moved_page::MovedPage;
pub use terminal_model::Report;

/// Bytes read in two pieces give the same as all of them at once.
pub fn pieces_are_whole()
    ensures { (t : Terminal) (a b before answered next : List ℕ) (e e' : Parts)
        → HasRead t a before e answered → HasRead (reads t a).terminal b answered e' next
        → HasRead t (a ++ b) before e' next }
{}

/// A terminal doesn't answer the commands clear, reset and encoding.
pub fn commands_answer_nothing()
    ensures clear { (t : Terminal) → (writes t Clear).reports ≡ [] }
    ensures reset { (t : Terminal) → (writes t Reset).reports ≡ [] }
    ensures encoding { (t : Terminal) (coding : Coding)
        → (writes t (Encoding coding)).reports ≡ [] }
{}

/// The page moved back by 0 lines is the page.
pub fn unmoved_page_is_the_page()
    ensures { (x : Screen) → moved_back 0 x ≡ x.page }
{}

/// Of all lines that left a window's page while it wrote, a page that is moved back shows the last
/// ones, above its own lines.
pub fn moved_page_shows_the_last_lines()
    ensures { (e : Parts) (rows columns keep offset : ℕ) (writings : List Written)
        → IsGridSize rows columns → AllByRecursion IsWriting writings
        → let t : Terminal = ready (starting rows columns keep) in
        StandsFor e (writes_all t writings).terminal
        → moved_back offset e.screen
        ≡ take (length e.screen.page)
        (reverse (take offset (take keep (reverse (all_left [] t writings)))) ++ e.screen.page) }
{}
