//! Numbers in decimal digits.

ghost use Rattle.std.specs.Prelude.{◌≡◌, ◌^◌, false, true, MatchOption, option_map};
ghost use Rattle.std.specs.List.{list_all};
ghost use Rattle.std.specs.Char.{is_ascii_digit};
ghost use Rattle.line_fields.specs.Numbers.{is_number, number_below, number_at};

use crate::texts::cut;
use std::str;

/// Whether all bytes of a word are decimal digits.
fn has_digits(word: &[u8]) -> bool
    ensures { result ≡ list_all is_ascii_digit word.now }
{
    word.iter().all(|byte| byte.is_ascii_digit())
}

/// Whether a word is decimal digits, one or more.
#[tactic(auto, unfolding(crate::specs::Numbers::is_number))]
fn is_number(word: &[u8]) -> bool
    ensures { result ≡ is_number word.now }
{
    !word.is_empty() && has_digits(word)
}

/// The word as text, if it is decimal digits.
fn digits_of(word: &[u8]) -> Option<&str>
    ensures { MatchOption result (is_number word.now ≡ false)
        (λ digits. (digits.now ≡ word.now) × (is_number word.now ≡ true)) }
{
    if !is_number(word) {
        return None;
    }
    str::from_utf8(word).ok()
}

/// A number of 64 bits.
pub fn read_u64(word: &[u8]) -> Option<u64>
    ensures { result ≡ number_below (2 ^ 64) word.now }
{
    digits_of(word)?.parse().ok()
}

/// A number of 32 bits.
pub fn read_u32(word: &[u8]) -> Option<u32>
    ensures { result ≡ number_below (2 ^ 32) word.now }
{
    digits_of(word)?.parse().ok()
}

/// A number of 16 bits.
pub fn read_u16(word: &[u8]) -> Option<u16>
    ensures { result ≡ number_below (2 ^ 16) word.now }
{
    digits_of(word)?.parse().ok()
}

/// A number of 8 bits.
pub fn read_u8(word: &[u8]) -> Option<u8>
    ensures { result ≡ number_below (2 ^ 8) word.now }
{
    digits_of(word)?.parse().ok()
}

/// A number of 64 bits that a separator ends, and the bytes after the separator.
pub fn u64_at(bytes: &[u8], separator: u8) -> Option<(u64, &[u8])>
    ensures { option_map (λ p. (p.0, p.1.now)) result
        ≡ number_at (2 ^ 64) separator bytes.now }
{
    let (word, rest) = cut(bytes, separator)?;
    Some((read_u64(word)?, rest))
}

/// A number of 32 bits that a separator ends, and the bytes after the separator.
pub fn u32_at(bytes: &[u8], separator: u8) -> Option<(u32, &[u8])>
    ensures { option_map (λ p. (p.0, p.1.now)) result
        ≡ number_at (2 ^ 32) separator bytes.now }
{
    let (word, rest) = cut(bytes, separator)?;
    Some((read_u32(word)?, rest))
}

/// A number of 16 bits that a separator ends, and the bytes after the separator.
pub fn u16_at(bytes: &[u8], separator: u8) -> Option<(u16, &[u8])>
    ensures { option_map (λ p. (p.0, p.1.now)) result
        ≡ number_at (2 ^ 16) separator bytes.now }
{
    let (word, rest) = cut(bytes, separator)?;
    Some((read_u16(word)?, rest))
}

/// A number of 8 bits that a separator ends, and the bytes after the separator.
pub fn u8_at(bytes: &[u8], separator: u8) -> Option<(u8, &[u8])>
    ensures { option_map (λ p. (p.0, p.1.now)) result
        ≡ number_at (2 ^ 8) separator bytes.now }
{
    let (word, rest) = cut(bytes, separator)?;
    Some((read_u8(word)?, rest))
}
