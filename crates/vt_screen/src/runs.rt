//! Single characters 20 to 7E, and whether they stand for themselves.

ghost use Rattle.std.specs.Prelude.{◌≡◌, ◌↔◌, [], ◌∷◌, true, IsTrue};
ghost use Rattle.charsets.specs.Shifts.{set_at};
ghost use Rattle.charsets.specs.Units.{is_plain};
ghost use Rattle.vt_screen.specs.Acting.{ActsByAll, MovesLinesByAll};
ghost use Rattle.vt_screen.specs.Displays.{IsFit};
ghost use Rattle.vt_screen.specs.Runs.{PrintsAscii, TakesRuns, prints};

use crate::screen::Display;
use charsets::{CharacterSet, Place, Shifts};
use terminal_model::State;

impl Display {
    /// Prints one of the characters 20 to 7E by its code point. Between two control functions there
    /// is mostly one, which is put in its cell at once.
    #[inline(always)]
    pub fn print_one(&mut self, code: u8)
        requires fit { IsFit self.old }
        requires plain { is_plain code ≡ true }
        ensures screen { ActsByAll self.old (prints (code ∷ [])) self.new }
        ensures fit { IsFit self.new }
        ensures places { MovesLinesByAll self.old (prints (code ∷ [])) self.new }
    {
        if takes_runs(&self.state) && !self.state.is_wrap_pending {
            self.place_narrow(code as char);
        } else {
            self.print_code(code as char);
        }
    }
}

/// Whether characters 20 to 7E stand for themselves, and each is put over an old cell: GL is ASCII,
/// no single shift is pending, and IRM is reset.
pub fn takes_runs(state: &State) -> bool
    ensures { IsTrue result ↔ TakesRuns state.now }
{
    prints_ascii(state) && !state.modes.inserts
}

/// Whether characters 20 to 7E stand for themselves: GL is ASCII, and no single shift is pending.
#[inline(always)]
pub fn prints_ascii(state: &State) -> bool
    ensures { IsTrue result ↔ PrintsAscii state.now }
{
    matches!(set_in_use(&state.shifts), CharacterSet::Ascii) && state.shifts.single.is_none()
}

/// The set that 21 to 7E go through if no single shift is pending: mostly that of G0.
fn set_in_use(shifts: &Shifts) -> CharacterSet
    ensures { result ≡ set_at shifts.now shifts.now.gl }
{
    match shifts.gl {
        Place::G0 => shifts.g0,
        _ => other_set(shifts),
    }
}

/// The set that 21 to 7E go through if no single shift is pending, in any of the four places.
#[inline(never)]
fn other_set(shifts: &Shifts) -> CharacterSet
    ensures { result ≡ set_at shifts.now shifts.now.gl }
{
    match shifts.gl {
        Place::G0 => shifts.g0,
        Place::G1 => shifts.g1,
        Place::G2 => shifts.g2,
        Place::G3 => shifts.g3,
    }
}
