//! The columns that a character takes, also for characters whose width is known without looking it up.

ghost use Rattle.std.specs.Prelude.{◌≡◌, ◌≤◌, false};
ghost use Rattle.charsets.specs.Units.{is_plain};
ghost use Rattle.cells.specs.Texts.{is_known_wide, is_letter, is_mark};
ghost use Rattle.cells.specs.Glyph.{drawn_as, glyph_columns};
ghost use Rattle.unicode_width.specs.Width.{char_width};

use unicode_width::UnicodeWidthChar;

/// Drawn in place of a character of width 3.
const REPLACEMENT: char = '\u{FFFD}';

/// The number of columns of a character: 0 for a mark or a control, else 1 or 2 (UAX #11, with
/// ambiguous characters narrow). U+17D8, the one of width 3, takes 1, since a screen draws it as
/// U+FFFD.
pub fn glyph_width(character: char) -> u8
    ensures width { result ≡ glyph_columns (char_width false character) }
    ensures bound { result ≤ 2 }
{
    glyph_columns(character.width())
}

/// The number of columns for a character of this width. None is the width of a control.
pub fn glyph_columns(width: Option<usize>) -> u8
    ensures width { result ≡ glyph_columns width }
    ensures bound { result ≤ 2 }
{
    match width {
        Some(2) => 2,
        Some(0) | None => 0,
        Some(_) => 1,
    }
}

/// The character that a screen draws: U+FFFD in place of a character of width 3.
pub fn drawn_as(width: Option<usize>, character: char) -> char
    ensures { result ≡ drawn_as width character }
{
    match width {
        Some(width) if width == 3 => REPLACEMENT,
        _ => character,
    }
}

/// A character of width 0 among the letters.
const SOFT_HYPHEN: char = '\u{AD}';

/// A mark that isn't among the known ones.
const OVERLAY: char = '\u{338}';

/// Whether a byte is one of the characters 20 to 7E.
#[inline(always)]
pub fn is_plain(byte: u8) -> bool
    ensures { result ≡ is_plain byte }
{
    0x1F < byte && byte < 0x7F
}

/// Whether a character is a letter of one column: one of 20 to 7E, of U+00A0 to U+02FF without the
/// soft hyphen, a Greek, Cyrillic or Armenian one up to U+058F, or a Hebrew one.
#[inline(always)]
pub fn is_letter(character: char) -> bool
    ensures { result ≡ is_letter character }
{
    if character < '\u{7F}' {
        ' ' <= character
    } else if character < '\u{300}' {
        '\u{A0}' <= character && character != SOFT_HYPHEN
    } else {
        character < '\u{5EB}'
            && (('\u{370}' <= character && character < '\u{483}')
                || ('\u{48A}' <= character && character < '\u{590}')
                || '\u{5D0}' <= character)
    }
}

/// Whether a character is a combining diacritical mark or a Hebrew point: one of U+0300 to U+036F
/// without U+0338, or of U+0591 to U+05BD. They take no column.
#[inline(always)]
pub fn is_mark(character: char) -> bool
    ensures { result ≡ is_mark character }
{
    character < '\u{5BE}'
        && (('\u{300}' <= character && character < '\u{370}' && character != OVERLAY)
            || '\u{591}' <= character)
}

/// Whether a character is an ideograph, a kana, a Hangul syllable or an emoticon, which take two
/// columns each.
#[inline(always)]
pub fn is_known_wide(character: char) -> bool
    ensures { result ≡ is_known_wide character }
{
    ('\u{3400}' <= character && character < '\u{A000}')
        || ('\u{3041}' <= character && character < '\u{3097}')
        || ('\u{30A0}' <= character && character < '\u{3100}')
        || ('\u{AC00}' <= character && character < '\u{D7A4}')
        || ('\u{1F600}' <= character && character < '\u{1F650}')
}
