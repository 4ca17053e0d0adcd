//! Control sequences.

ghost use Rattle.std.specs.Prelude.{◌≡◌, ℕ, ◌-◌, List, [], None, Some, IfSome, slice_index_or};
ghost use Rattle.terminal_model.specs.Functions.{alone, between_sequence, count, each, part_of, plain_sequence};
ghost use Rattle.terminal_model.specs.Functions.{private_sequence, sequence_actions};
ghost use Rattle.vt_screen_state.specs.Counted.{IsCounted};
ghost use Rattle.vt_screen_state.specs.Meanings.{meaning, setting_of};

use crate::values::Setting;
use terminal_model::{Action, Part};

/// What a control sequence sets by each of its parameters. Only SGR, SM, RM, DECSM and DECRM have such a setting; None
/// for any other sequence.
#[inline(always)]
#[tactic(auto, // the rows of both tables
unfolding(terminal_model::specs::Functions::plain_sequence, terminal_model::specs::Functions::private_sequence))]
pub fn setting_of(mark: Option<u8>, intermediates: &[u8], last: u8) -> Option<Setting>
    ensures value { result ≡ setting_of mark intermediates.now last }
    ensures each { IfSome result (λ setting. (params : List ℕ)
        → sequence_actions mark params intermediates.now last ≡ each (meaning setting) params) }
{
    match (mark, intermediates, last) {
        (None, [], b'm') => Some(Setting::Rendition),
        (None, [], b'h') => Some(Setting::Mode(true)),
        (None, [], b'l') => Some(Setting::Mode(false)),
        (Some(b'?'), [], b'h') => Some(Setting::PrivateMode(true)),
        (Some(b'?'), [], b'l') => Some(Setting::PrivateMode(false)),
        _ => None,
    }
}

/// The action of a control sequence without a setting. None if it is ignored, or if it has a setting.
#[inline(always)]
pub fn sequence_action(
    mark: Option<u8>,
    params: &[u16],
    intermediates: &[u8],
    last: u8,
) -> Option<Action>
    ensures value { setting_of mark intermediates.now last ≡ None
        → alone result ≡ sequence_actions mark params.now intermediates.now last }
    ensures none { IfSome (setting_of mark intermediates.now last) (λ setting. result ≡ None) }
    ensures counted { IfSome result IsCounted }
{
    match (mark, intermediates) {
        (None, []) => plain_action(params, last),
        (Some(b'?'), []) => private_action(params, last),
        (Some(b'>'), []) if last == b'c' && value(params, 0) == 0 => {
            Some(Action::ReportSecondaryAttributes)
        }
        (None, [intermediate]) => intermediate_action(params, *intermediate, last),
        _ => None,
    }
}

/// The action of CSI, parameters, one intermediate and a final byte. None if it is ignored.
fn intermediate_action(params: &[u16], intermediate: u8, last: u8) -> Option<Action>
    ensures value { alone result ≡ between_sequence params.now intermediate last }
    ensures counted { IfSome result IsCounted }
{
    match (intermediate, last, value(params, 0)) {
        (b'!', b'p', _) => Some(Action::SoftReset),
        (b'"', b'q', 0 | 2) => Some(Action::Protect(false)),
        (b'"', b'q', 1) => Some(Action::Protect(true)),
        _ => None,
    }
}

/// The action of CSI, parameters and a final byte (ECMA-48, 8.3; VT220 Programmer Reference Manual, chapter 4), if they
/// have no setting. None if they are ignored, or if they have a setting. DECSTBM takes the last line of the page if its
/// second parameter is absent or 0.
#[inline(always)]
#[tactic(auto, unfolding(terminal_model::specs::Functions::plain_sequence))]
fn plain_action(params: &[u16], last: u8) -> Option<Action>
    ensures value { setting_of None [] last ≡ None → alone result ≡ plain_sequence params.now last }
    ensures none { IfSome (setting_of None [] last) (λ setting. result ≡ None) }
    ensures counted { IfSome result IsCounted }
{
    match last {
        b'@' => Some(Action::InsertCells(count(params))),
        b'A' => Some(Action::Up(count(params))),
        b'B' => Some(Action::Down(count(params))),
        b'C' => Some(Action::Right(count(params))),
        b'D' => Some(Action::Left(count(params))),
        b'H' | b'f' => Some(Action::MoveTo(place(params, 0), place(params, 1))),
        b'J' => part(params).map(Action::EraseInPage),
        b'K' => part(params).map(Action::EraseInLine),
        b'L' => Some(Action::InsertLines(count(params))),
        b'M' => Some(Action::DeleteLines(count(params))),
        b'P' => Some(Action::DeleteCells(count(params))),
        b'X' => Some(Action::EraseCells(count(params))),
        b'c' if value(params, 0) == 0 => Some(Action::ReportAttributes),
        b'g' if value(params, 0) == 0 => Some(Action::ClearTab),
        b'g' if value(params, 0) == 3 => Some(Action::ClearTabs),
        b'n' if value(params, 0) == 5 => Some(Action::ReportStatus),
        b'n' if value(params, 0) == 6 => Some(Action::ReportPlace),
        b'r' => {
            let bottom = usize::from(value(params, 1)).checked_sub(1);
            Some(Action::SetMargins(place(params, 0), bottom))
        }
        _ => None,
    }
}

/// The action of CSI ?, parameters and a final byte (VT220 Programmer Reference Manual, chapter 4), if they have no
/// setting. None if they are ignored, or if they have a setting.
#[inline(always)]
#[tactic(auto, unfolding(terminal_model::specs::Functions::private_sequence))]
fn private_action(params: &[u16], last: u8) -> Option<Action>
    ensures value { setting_of (Some 0x3F) [] last ≡ None → alone result ≡ private_sequence params.now last }
    ensures none { IfSome (setting_of (Some 0x3F) [] last) (λ setting. result ≡ None) }
    ensures counted { IfSome result IsCounted }
{
    match last {
        b'J' => part(params).map(Action::EraseUnprotectedInPage),
        b'K' => part(params).map(Action::EraseUnprotectedInLine),
        b'n' if value(params, 0) == 15 => Some(Action::ReportPrinter),
        _ => None,
    }
}

/// The parameter at a place; 0 if it is absent.
#[inline(always)]
fn value(params: &[u16], index: usize) -> u16
    ensures { result ≡ slice_index_or params.now index 0 }
{
    params.get(index).copied().unwrap_or(0)
}

/// The first parameter as a count: 1 if it is absent or 0.
#[inline(always)]
fn count(params: &[u16]) -> usize
    ensures { result ≡ count params.now }
{
    usize::from(value(params, 0)).max(1)
}

/// The parameter at a place as a line or column, counted from 0: absent, 0 and 1 are the first.
#[inline(always)]
fn place(params: &[u16], index: usize) -> usize
    ensures { result ≡ slice_index_or params.now index 0 - 1 }
{
    usize::from(value(params, index)).saturating_sub(1)
}

/// The part that an erasure takes, by its first parameter. None if the value is ignored.
fn part(params: &[u16]) -> Option<Part>
    ensures { result ≡ part_of (slice_index_or params.now 0 0) }
{
    match value(params, 0) {
        0 => Some(Part::ToEnd),
        1 => Some(Part::ToStart),
        2 => Some(Part::All),
        _ => None,
    }
}
