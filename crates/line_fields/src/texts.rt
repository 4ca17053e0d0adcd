//! Fields that are cut at a byte, and texts of any bytes, spelled with plain ones.

ghost use Rattle.std.specs.Prelude.{◌≡◌, ◌<◌, ◌++◌, OnOk, IfOk, IfSome, None, Some, length, if◌then◌else◌, false, ◌∷◌};
ghost use Rattle.std.specs.Prelude.{option_copied, option_map};
ghost use Rattle.std.specs.Fmt.{digit_glyph};
ghost use Rattle.line_fields.specs.Texts.{is_plain, coded, escape, escaped, byte_of, put_before, spelled};
ghost use Rattle.std.specs.List.{position};
ghost use Rattle.line_fields.specs.Cutting.{is_byte, cut, words, words_behind};

use std::alloc::AllocError;

/// The place of the first separator.
fn place_of(bytes: &[u8], separator: u8) -> Option<usize>
    ensures place { result ≡ position (is_byte separator) bytes.now }
    ensures within { IfSome result (λ place. place < length bytes.now) }
{
    bytes.iter().position(|byte| *byte == separator)
}

/// The bytes before the first separator, and those after it.
#[tactic(auto, unfolding(crate::specs::Cutting::cut))]
pub fn cut(bytes: &[u8], separator: u8) -> Option<(&[u8], &[u8])>
    ensures { option_map (λ parts. (parts.0.now, parts.1.now)) result
        ≡ cut separator bytes.now }
{
    let at = place_of(bytes, separator)?;
    Some((&bytes[..at], &bytes[at + 1..]))
}

/// The first word, and the bytes after the separator that ends it, if one does.
pub fn next_word(bytes: &[u8], separator: u8) -> (&[u8], Option<&[u8]>)
    ensures { words separator bytes.now
        ≡ result.0.now ∷ words_behind separator (option_copied result.1) }
{
    match cut(bytes, separator) {
        Some((word, rest)) => (word, Some(rest)),
        None => (bytes, None),
    }
}

/// Whether a byte stands for itself.
fn is_plain(first: u8, byte: u8) -> bool
    ensures { result ≡ is_plain first byte }
{
    byte >= first && byte <= 0x7E && byte != b'\\'
}

/// A hexadecimal digit, in lower case.
fn digit(value: u8) -> u8
    requires { value < 16 }
    ensures { result ≡ digit_glyph false value }
{
    if value < 10 {
        b'0' + value
    } else {
        b'a' + (value - 10)
    }
}

/// Appends a byte as a backslash and two hexadecimal digits.
fn push_coded(byte: u8, out: &mut Vec<u8>) -> Result<(), AllocError>
    ensures { OnOk result (out.new.items ≡ out.old.items ++ coded byte) }
{
    out.extend_from_slice(&[b'\\', digit(byte / 16), digit(byte % 16)])
}

/// Appends a byte as itself or as its code.
fn push_byte(first: u8, byte: u8, out: &mut Vec<u8>) -> Result<(), AllocError>
    ensures { OnOk result (out.new.items ≡ out.old.items ++ escape first byte) }
{
    if is_plain(first, byte) {
        out.extend_from_slice(&[byte])
    } else {
        push_coded(byte, out)
    }
}

/// Appends a text. The bytes from `first` to 7E, except the backslash, stand for themselves.
pub fn push_escaped(first: u8, bytes: &[u8], out: &mut Vec<u8>) -> Result<(), AllocError>
    ensures { OnOk result (out.new.items ≡ out.old.items ++ escaped first bytes.now) }
{
    for byte in bytes {
        push_byte(first, *byte, out)?;
    }
    Ok(())
}

/// The byte that two hexadecimal digits stand for.
fn read_byte(high: u8, low: u8) -> Option<u8>
    ensures { result ≡ byte_of high low }
{
    let high = (high as char).to_digit(16)?;
    let low = (low as char).to_digit(16)?;
    Some((high * 16 + low) as u8)
}

/// The first byte that an escaped text spells, and the text after it. The text isn't empty.
fn cut_byte(escaped: &[u8]) -> Option<(u8, &[u8])>
    ensures none { result ≡ None → 0 < length escaped.now → spelled escaped.now ≡ None }
    ensures some { IfSome result
        (λ parts. spelled escaped.now ≡ put_before (Some parts.0) (spelled parts.1.now)) }
    ensures shorter { IfSome result (λ parts. length parts.1.now < length escaped.now) }
{
    let (byte, rest) = escaped.split_first()?;
    if *byte != b'\\' {
        return Some((*byte, rest));
    }
    let (high, rest) = rest.split_first()?;
    let (low, rest) = rest.split_first()?;
    Some((read_byte(*high, *low)?, rest))
}

/// Replaces the contents of `out` by the bytes that an escaped text spells. False if it spells none.
pub fn unescape(escaped: &[u8], out: &mut Vec<u8>) -> Result<bool, AllocError>
    ensures { IfOk result
        (λ is_text. spelled escaped.now ≡ (if is_text then Some out.new.items else None)) }
{
    out.clear();
    let mut rest = escaped;
    'bytes: while !rest.is_empty() {
        let Some((byte, behind)) = cut_byte(rest) else {
            return Ok(false);
        };
        out.push(byte)?;
        rest = behind;
    }
    Ok(true)
}
