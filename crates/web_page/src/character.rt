//! Characters of JSON texts, none of which is markup.

ghost use Rattle.std.specs.Prelude.{◌≡◌, ◌++◌, ◌%◌, ◌<◌, ◌∷◌, [], OnOk};
ghost use Rattle.std.specs.Char.{digit_char};
ghost use Rattle.std.specs.String.{string_bytes};
ghost use Rattle.std.specs.Str.{chars};
ghost use Rattle.web_page.specs.Json.{is_escaped, escape, spelled_character, spelled_text};

use std::alloc::AllocError;

/// Whether a character is written as an escape: a control, markup, a quote, a backslash, or one of the
/// two line separators.
fn is_escaped(code: u32) -> bool
    ensures { result ≡ is_escaped code }
{
    code < 0x20
        || code == 0x22
        || code == 0x26
        || code == 0x27
        || code == 0x3C
        || code == 0x3E
        || code == 0x5C
        || (0x7E < code && code < 0xA0)
        || code == 0x2028
        || code == 0x2029
}

/// The digit of base 16 for a number below 16.
fn digit(number: u8) -> char
    requires { number < 16 }
    ensures value { result ≡ digit_char number }
    ensures ascii { result < 128 }
{
    if number < 10 {
        char::from(48 + number)
    } else {
        char::from(87 + number)
    }
}

/// Appends the last digit of a number in base 16.
fn put_digit(out: &mut String, number: u32) -> Result<(), AllocError>
    ensures { OnOk result (string_bytes out.new
        ≡ string_bytes out.old ++ digit_char (number % 16) ∷ []) }
{
    out.push(digit((number % 16) as u8))
}

/// Appends the escape of a character.
fn put_escape(out: &mut String, code: u32) -> Result<(), AllocError>
    ensures { OnOk result (string_bytes out.new ≡ string_bytes out.old ++ escape code) }
{
    out.push_str("\\u")?;
    put_digit(out, code / 4096)?;
    put_digit(out, code / 256)?;
    put_digit(out, code / 16)?;
    put_digit(out, code)
}

/// Appends a character as it stands in a text of JSON.
#[tactic(auto, unfolding(crate::specs::Json::spelled_character))]
pub fn put_character(out: &mut String, character: char) -> Result<(), AllocError>
    ensures { OnOk result (string_bytes out.new
        ≡ string_bytes out.old ++ spelled_character character) }
{
    let code = u32::from(character);
    if is_escaped(code) {
        put_escape(out, code)
    } else {
        out.push(character)
    }
}

/// Appends the characters of a text as they stand in a text of JSON.
pub fn put_text(out: &mut String, text: &str) -> Result<(), AllocError>
    ensures { OnOk result (string_bytes out.new
        ≡ string_bytes out.old ++ spelled_text (chars text.now)) }
{
    for character in text.chars() {
        put_character(out, character)?;
    }
    Ok(())
}
