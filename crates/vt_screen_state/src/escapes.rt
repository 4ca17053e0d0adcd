//! C0 controls and escape sequences.

ghost use Rattle.std.specs.Prelude.{◌≡◌, IfSome};
ghost use Rattle.terminal_model.specs.Functions.{alone, control_action, designated_set, designation, escape_action};
ghost use Rattle.terminal_model.specs.Functions.{escape_actions, intermediate_action};
ghost use Rattle.vt_screen_state.specs.Counted.{IsCounted};
ghost use Rattle.vt_screen_state.specs.Silent.{IsSilent};

use charsets::{CharacterSet, Coding, Place, Shift};
use terminal_model::Action;

/// The action of a C0 control (ECMA-48, 8.3; VT220 Programmer Reference Manual, chapter 2). None if it is ignored.
#[inline(always)]
pub fn control_action(control: u8) -> Option<Action>
    ensures value { result ≡ control_action control }
    ensures counted { IfSome result IsCounted }
    ensures silent { IfSome result IsSilent }
{
    match control {
        0x08 => Some(Action::Backspace),
        0x09 => Some(Action::Tab),
        0x0A..=0x0C => Some(Action::LineFeed),
        0x0D => Some(Action::CarriageReturn),
        0x0E => Some(Action::Shift(Shift::So)),
        0x0F => Some(Action::Shift(Shift::Si)),
        _ => None,
    }
}

/// The action of an escape sequence. None if it is ignored.
pub fn escape_action(intermediates: &[u8], last: u8) -> Option<Action>
    ensures value { alone result ≡ escape_actions intermediates.now last }
    ensures counted { IfSome result IsCounted }
    ensures silent { IfSome result IsSilent }
{
    match intermediates {
        [] => plain_escape_action(last),
        [intermediate] => intermediate_action(*intermediate, last),
        _ => None,
    }
}

/// The action of ESC and a final byte (ECMA-48, 8.3; VT220 Programmer Reference Manual, chapter 4). None if it is
/// ignored.
#[inline(always)]
fn plain_escape_action(last: u8) -> Option<Action>
    ensures value { result ≡ escape_action last }
    ensures counted { IfSome result IsCounted }
    ensures silent { IfSome result IsSilent }
{
    match last {
        b'7' => Some(Action::Save),
        b'8' => Some(Action::Restore),
        b'=' => Some(Action::SetApplicationKeypad(true)),
        b'>' => Some(Action::SetApplicationKeypad(false)),
        b'D' => Some(Action::Index),
        b'E' => Some(Action::NextLine),
        b'H' => Some(Action::SetTab),
        b'M' => Some(Action::ReverseIndex),
        b'N' => Some(Action::Shift(Shift::Ss2)),
        b'O' => Some(Action::Shift(Shift::Ss3)),
        b'c' => Some(Action::Reset),
        b'n' => Some(Action::Shift(Shift::Ls2)),
        b'o' => Some(Action::Shift(Shift::Ls3)),
        b'|' => Some(Action::Shift(Shift::Ls3r)),
        b'}' => Some(Action::Shift(Shift::Ls2r)),
        b'~' => Some(Action::Shift(Shift::Ls1r)),
        _ => None,
    }
}

/// The action of ESC, one intermediate and a final byte. None if it is ignored.
fn intermediate_action(intermediate: u8, last: u8) -> Option<Action>
    ensures value { result ≡ intermediate_action intermediate last }
{
    match (intermediate, last) {
        (b' ', b'F') => Some(Action::SetEightBitReports(false)),
        (b' ', b'G') => Some(Action::SetEightBitReports(true)),
        (b'#', b'8') => Some(Action::Align),
        (b'%', b'G') => Some(Action::SetCoding(Coding::Utf8)),
        (b'%', b'@') => Some(Action::SetCoding(Coding::Ecma35)),
        (b'(', _) => designation(Place::G0, last),
        (b')', _) => designation(Place::G1, last),
        (b'*', _) => designation(Place::G2, last),
        (b'+', _) => designation(Place::G3, last),
        _ => None,
    }
}

/// The designation of a set to a place, by its final byte (ECMA-35; VT220 Programmer Reference Manual, SCS). None if no
/// set has this byte.
fn designation(place: Place, last: u8) -> Option<Action>
    ensures value { result ≡ designation (Some place) (designated_set last) }
{
    match last {
        b'B' => Some(Action::Designate(place, CharacterSet::Ascii)),
        b'A' => Some(Action::Designate(place, CharacterSet::UnitedKingdom)),
        b'0' => Some(Action::Designate(place, CharacterSet::SpecialGraphics)),
        b'<' => Some(Action::Designate(place, CharacterSet::Supplemental)),
        _ => None,
    }
}
