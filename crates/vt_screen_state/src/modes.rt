//! Modes, attributes, sets and starting values.

ghost use Rattle.std.specs.Prelude.{◌≡◌, ◌-◌, ◌<◌};
ghost use Rattle.charsets.specs.Shifts.{designated, shifted};
ghost use Rattle.terminal_model.specs.Screen.{starting_modes, starting_state};
ghost use Rattle.terminal_model.specs.Motion.{unjoined, unpending};
ghost use Rattle.cells.specs.Rendition.{rendition_with};
ghost use Rattle.terminal_model.specs.Settings.{homed, modes_with};
ghost use Rattle.terminal_model.specs.Resets.{softly_reset};

use crate::cursor::{go_home, separate, settle};
use crate::margins::use_whole_page;
use cells::{Attribute, Rendition};
use charsets::{CharacterSet, Coding, Place, Shift, Shifts};
use terminal_model::{Mode, Modes, State};

/// The starting values of the modes (VT220 Programmer Reference Manual, chapter 4).
fn starting_modes() -> Modes
    ensures { result ≡ starting_modes }
{
    Modes {
        inserts: false,
        starts_lines: false,
        has_application_arrows: false,
        is_inverted: false,
        counts_from_margin: false,
        wraps: true,
        shows_cursor: true,
        has_application_keypad: false,
    }
}

/// The starting values of the state, in a coding.
pub fn starting_state(rows: usize, columns: usize, coding: Coding) -> State
    requires { 0 < rows }
    ensures { result ≡ record (starting_state rows columns) { coding = coding } }
{
    State {
        rows,
        columns,
        line: 0,
        column: 0,
        is_wrap_pending: false,
        top: 0,
        bottom: rows - 1,
        rendition: Rendition::PLAIN,
        is_protecting: false,
        modes: starting_modes(),
        shifts: Shifts::new(),
        coding,
        has_eight_bit_reports: false,
        joining: None,
    }
}

/// SM, RM, DECSM or DECRM of a mode (ECMA-48, 7.2; VT220 Programmer Reference Manual, chapter 4). ?6 also moves the
/// cursor home.
pub fn set_mode(state: &mut State, mode: Mode, is_set: bool)
    ensures { state.new ≡ homed mode (record state.old { modes = modes_with state.old.modes mode is_set }) }
{
    match mode {
        Mode::Insert => state.modes.inserts = is_set,
        Mode::NewLine => state.modes.starts_lines = is_set,
        Mode::Arrows => state.modes.has_application_arrows = is_set,
        Mode::Inverted => state.modes.is_inverted = is_set,
        Mode::Origin => {
            state.modes.counts_from_margin = is_set;
            return go_home(state);
        }
        Mode::Wrap => state.modes.wraps = is_set,
        Mode::Cursor => state.modes.shows_cursor = is_set,
    }
    settle(state);
}

/// Changes the rendition of new characters by one value of SGR (ECMA-48, 8.3.117).
pub fn render(state: &mut State, attribute: Attribute)
    ensures { state.new ≡ unjoined (record state.old { rendition = rendition_with state.old.rendition attribute }) }
{
    state.rendition = state.rendition.with(attribute);
    separate(state);
}

/// Performs a shift function (ECMA-48, 8.3.75 to 8.3.81, 8.3.141 and 8.3.142).
pub fn shift(state: &mut State, shift: Shift)
    ensures { state.new ≡ unjoined (record state.old { shifts = shifted state.old.shifts shift }) }
{
    state.shifts.shift(shift);
    separate(state);
}

/// Designates a set to a place (ECMA-35; VT220 Programmer Reference Manual, SCS).
pub fn designate(state: &mut State, place: Place, set: CharacterSet)
    ensures { state.new ≡ unjoined (record state.old { shifts = designated state.old.shifts place set }) }
{
    state.shifts.designate(place, set);
    separate(state);
}

/// Sets the coding in which the window writes from here on (ECMA-35, other coding systems).
pub fn set_coding(state: &mut State, coding: Coding)
    ensures { state.new ≡ unpending (record state.old { coding = coding }) }
{
    state.coding = coding;
    settle(state);
}

/// S8C1T if `is_set`, S7C1T if not (VT220 Programmer Reference Manual, C1 control transmission).
pub fn set_eight_bit_reports(state: &mut State, is_set: bool)
    ensures { state.new ≡ unpending (record state.old { has_eight_bit_reports = is_set }) }
{
    state.has_eight_bit_reports = is_set;
    settle(state);
}

/// DECKPAM if `is_set`, DECKPNM if not (VT220 Programmer Reference Manual, modes).
pub fn set_application_keypad(state: &mut State, is_set: bool)
    ensures { state.new ≡ unpending
        (record state.old { modes = record state.old.modes { has_application_keypad = is_set } }) }
{
    state.modes.has_application_keypad = is_set;
    settle(state);
}

/// DECSCA (VT220 Programmer Reference Manual, character attributes): whether new characters are protected from
/// selective erasing.
pub fn protect(state: &mut State, is_set: bool)
    ensures { state.new ≡ unpending (record state.old { is_protecting = is_set }) }
{
    state.is_protecting = is_set;
    settle(state);
}

/// DECSTR without its effect on the saved place (VT220 Programmer Reference Manual, terminal reset): the cursor, LNM,
/// ?5, the coding and the form of reports stay.
pub fn soft_reset(state: &mut State)
    requires { state.old.line < state.old.rows }
    ensures { state.new ≡ softly_reset state.old }
{
    state.modes = Modes {
        starts_lines: state.modes.starts_lines,
        is_inverted: state.modes.is_inverted,
        ..starting_modes()
    };
    state.rendition = Rendition::PLAIN;
    state.is_protecting = false;
    state.shifts = Shifts::new();
    settle(state);
    use_whole_page(state);
}
