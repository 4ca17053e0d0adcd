//! The fields of a line: words, numbers and texts.

ghost use Rattle.std.specs.Prelude.{◌≡◌, IfOk, option_copied, option_map};
ghost use Rattle.line_fields.specs.Events.{Number, Serial};
ghost use Rattle.line_fields.specs.Parts.{blank};
ghost use Rattle.line_fields.specs.Rows.{value_at};
ghost use Rattle.session.specs.Fields.{number_of, window_of, text_of, title_of, value_of};

use line_fields::{cut, read_u16, unescape};
use std::alloc::AllocError;
use std::str;

/// The most bytes of a text.
const LONGEST_TEXT: usize = 8192;

/// A number of one to four digits.
pub fn read_number(word: &[u8]) -> Option<u16>
    ensures { result ≡ number_of word.now }
{
    if word.len() > 4 {
        return None;
    }
    read_u16(word)
}

/// The serial of a window or a client.
pub fn read_serial(word: &[u8]) -> Option<u32>
    ensures { result ≡ number_of word.now }
{
    read_number(word).map(u32::from)
}

/// A number that a blank ends, and the bytes after the blank.
pub fn number_at(bytes: &[u8]) -> Option<(u16, &[u8])>
    ensures { option_map (λ p. (p.0, p.1.now)) result ≡ value_at blank value_of Number bytes.now }
{
    let (word, rest) = cut(bytes, b' ')?;
    Some((read_number(word)?, rest))
}

/// A serial that a blank ends, and the bytes after the blank.
pub fn serial_at(bytes: &[u8]) -> Option<(u32, &[u8])>
    ensures { option_map (λ p. (p.0, p.1.now)) result ≡ value_at blank value_of Serial bytes.now }
{
    let (word, rest) = cut(bytes, b' ')?;
    Some((read_serial(word)?, rest))
}

/// The number of a command's window, or `-` for none. A number above 255 is read as 255, which is no
/// window's either.
pub fn read_window(word: &[u8]) -> Option<Option<u8>>
    ensures { result ≡ window_of word.now }
{
    if word == b"-".as_slice() {
        return Some(None);
    }
    let number = read_number(word)?;
    Some(Some(number.min(255) as u8))
}

/// The bytes of an escaped text, of which there are at most 8,192.
pub fn read_text<'a>(escaped: &[u8], text: &'a mut Vec<u8>) -> Result<Option<&'a [u8]>, AllocError>
    ensures { IfOk result (λ bytes. option_copied bytes ≡ text_of escaped.now) }
{
    if !unescape(escaped, text)? {
        return Ok(None);
    }
    if text.len() > LONGEST_TEXT {
        return Ok(None);
    }
    Ok(Some(text.as_slice()))
}

/// The title that an escaped text spells.
pub fn read_title<'a>(escaped: &[u8], text: &'a mut Vec<u8>) -> Result<Option<&'a str>, AllocError>
    ensures { IfOk result (λ title. option_copied title ≡ title_of escaped.now) }
{
    let Some(bytes) = read_text(escaped, text)? else {
        return Ok(None);
    };
    Ok(str::from_utf8(bytes).ok())
}
