//! Whether two emulators are in the same state.

ghost use Rattle.std.specs.Prelude.{◌≡◌, ◌<◌, ℕ, IsTrue};
ghost use Rattle.cells.specs.Page.{line_at};

use cells::Cell;
use emulator::Emulator;
use vt_screen::Screen;

fn is_same_line(a: &[Cell], b: &[Cell]) -> bool
    ensures { IsTrue result → a.now ≡ b.now }
{
    a == b
}

// Whether two screens have the same page. They have the same number of lines.
fn has_same_page(a: &Screen, b: &Screen) -> bool
    requires { a.now.screen.state.rows ≡ b.now.screen.state.rows }
    ensures { IsTrue result → a.now.screen.page ≡ b.now.screen.page }
{
    let rows = a.rows();
    if rows != b.rows() {
        return false;
    }
    for line in 0..rows {
        if !is_same_line(a.row(line), b.row(line)) {
            return false;
        }
    }
    true
}

// Whether two screens have the same kept line of this number.
fn has_same_kept_line(a: &Screen, b: &Screen, n: usize) -> bool
    ensures { IsTrue result → line_at a.now.screen.kept n ≡ line_at b.now.screen.kept n }
{
    match (a.kept(n), b.kept(n)) {
        (Some(ours), Some(theirs)) => is_same_line(ours, theirs),
        _ => false,
    }
}

fn has_same_kept(a: &Screen, b: &Screen) -> bool
    ensures { IsTrue result → a.now.screen.kept ≡ b.now.screen.kept }
{
    let count = a.kept_count();
    if count != b.kept_count() {
        return false;
    }
    for n in 0..count {
        if !has_same_kept_line(a, b, n) {
            return false;
        }
    }
    true
}

// Whether two screens are the same.
fn is_same_screen(a: &Screen, b: &Screen) -> bool
    ensures { IsTrue result → a.now.screen ≡ b.now.screen }
{
    if a.state() != b.state() || a.keep() != b.keep() {
        return false;
    }
    if a.saved() != b.saved() || a.stops() != b.stops() {
        return false;
    }
    if !has_same_page(a, b) {
        return false;
    }
    has_same_kept(a, b)
}

/// Whether two emulators are the same, and nothing is incomplete in them.
pub fn is_same(a: &Emulator, b: &Emulator) -> bool
    ensures { IsTrue result → a.now ≡ b.now }
{
    if !a.is_between() || !b.is_between() {
        return false;
    }
    is_same_screen(a.screen(), b.screen())
}
