//! Window numbers, as words spell them.

ghost use Rattle.std.specs.Prelude.{◌≡◌, option_copied};
ghost use Rattle.std.specs.List.{list_any};
ghost use Rattle.std.specs.Option.{option_and_then};
ghost use Rattle.windows_model.specs.Naming.{is_digit, spelled};
ghost use Rattle.windows.specs.Among.{has_number, is_above, numbered, taken_by_other, first_free};

use crate::window::Window;
use windows_model::WINDOWS;

/// Whether the byte is a decimal digit.
fn is_digit(c: u8) -> bool
    ensures { result ≡ is_digit c }
{
    b'0' <= c && c <= b'9'
}

/// The number that 1 to 4 digits spell; `None` for another word.
fn number_of(word: &[u8]) -> Option<u16>
    ensures { result ≡ spelled word.now }
{
    if word.is_empty() || word.len() > 4 {
        return None;
    }
    let mut n: u16 = 0;
    for c in word {
        if !is_digit(*c) {
            return None;
        }
        n = n * 10 + (*c - b'0') as u16;
    }
    Some(n)
}

/// The window with this number; `None` if there is none.
pub(crate) fn numbered(rows: &[Window], number: u16) -> Option<&Window>
    ensures { option_copied result ≡ numbered rows.now number }
{
    rows.iter().find(|window| window.number as u16 == number)
}

/// The window whose number the word spells; `None` if there is none.
pub(crate) fn numbered_by<'a>(rows: &'a [Window], word: &str) -> Option<&'a Window>
    ensures { option_copied result ≡ option_and_then (numbered rows.now) (spelled word.now) }
{
    match number_of(word.as_bytes()) {
        Some(number) => numbered(rows, number),
        None => None,
    }
}

/// Whether a window with another serial has the number.
pub(crate) fn is_taken(rows: &[Window], serial: u32, number: u8) -> bool
    ensures { result ≡ taken_by_other rows.now serial number }
{
    match numbered(rows, number as u16) {
        Some(other) => other.serial != serial,
        None => false,
    }
}

/// Whether a serial is above those of all windows.
pub(crate) fn is_above(rows: &[Window], serial: u32) -> bool
    ensures { result ≡ is_above serial rows.now }
{
    rows.iter().all(|window| window.serial < serial)
}

/// Whether a window has the number.
fn has_number(rows: &[Window], number: u8) -> bool
    ensures { result ≡ list_any (has_number number) rows.now }
{
    rows.iter().any(|window| window.number == number)
}

/// The lowest number below the limit of windows that no window has; `None` if there is none.
pub(crate) fn first_free(rows: &[Window]) -> Option<u8>
    ensures { result ≡ first_free rows.now }
{
    (0..WINDOWS as u8).find(|number| !has_number(rows, *number))
}
