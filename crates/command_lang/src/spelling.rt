//! A command is printed as a line.

ghost use Rattle.std.specs.Prelude.{◌≡◌, ◌++◌, ◌∷◌, ◌<◌, ◌+◌, IfOk, OnOk, ℕ, List};
ghost use Rattle.std.specs.String.{string_bytes};
ghost use Rattle.std.specs.Str.{chars, encode_utf8_all};
ghost use Rattle.command_lang.specs.Printing.{is_plain, octal, escaped, quoted, needs_no_quotes, printed_word, printed};
ghost use Rattle.command_lang.specs.Relation.{Relates};
ghost use Rattle.command_lang.specs.ReadsBack.{ReadsBack};

use crate::command::Command;
use crate::command_words::command_words;
use crate::rows::name_text;
use std::alloc::{AllocError, Global};

/// Whether the character needs no quotes.
fn is_plain(c: char) -> bool
    ensures { result ≡ is_plain c }
{
    c.is_ascii_alphanumeric()
        || c == '_'
        || c == '-'
        || c == '+'
        || c == ','
        || c == '#'
        || c == '?'
        || c == '*'
}

/// The octal digit of a value below 8.
fn octal_digit(value: u32) -> char
    requires { value < 8 }
    ensures { result ≡ 0x30 + value }
{
    (b'0' + value as u8) as char
}

/// Appends an escape: a backslash and three octal digits.
fn put_octal(c: char, out: &mut String) -> Result<(), AllocError>
    ensures { OnOk result (string_bytes out.new ≡ string_bytes out.old
        ++ encode_utf8_all (0x5C ∷ octal c)) }
{
    let code = c as u32;
    out.push('\\')?;
    out.push(octal_digit(code / 64 % 8))?;
    out.push(octal_digit(code / 8 % 8))?;
    out.push(octal_digit(code % 8))
}

/// Appends a character, as it is written between `"`.
fn put_escaped(c: char, out: &mut String) -> Result<(), AllocError>
    ensures { OnOk result (string_bytes out.new ≡ string_bytes out.old
        ++ encode_utf8_all (escaped c)) }
{
    if c == '"' || c == '\\' {
        out.push('\\')?;
        out.push(c)
    } else if c < ' ' || c == '\x7F' {
        put_octal(c, out)
    } else {
        out.push(c)
    }
}

/// Whether a word is printed without quotes.
fn needs_no_quotes(text: &str) -> bool
    ensures { result ≡ needs_no_quotes text.now }
{
    !text.is_empty() && text.chars().all(|c| is_plain(c))
}

/// Appends the characters of a word, as they are written between `"`.
fn put_quoted(text: &str, out: &mut String) -> Result<(), AllocError>
    ensures { OnOk result (string_bytes out.new ≡ string_bytes out.old
        ++ encode_utf8_all (quoted (chars text.now))) }
{
    for c in text.chars() {
        put_escaped(c, out)?;
    }
    Ok(())
}

/// Appends a word, between `"` if it needs quotes.
fn put_word(text: &str, out: &mut String) -> Result<(), AllocError>
    ensures { OnOk result (string_bytes out.new ≡ string_bytes out.old
        ++ encode_utf8_all (printed_word text.now)) }
{
    if needs_no_quotes(text) {
        out.push_str(text)
    } else {
        out.push('"')?;
        put_quoted(text, out)?;
        out.push('"')
    }
}

/// The line of a command: its name and its words, with one blank between them. `AllocError` if
/// memory is refused.
fn command_line(alloc: Global, command: &Command) -> Result<String, AllocError>
    ensures { IfOk result (λ t. string_bytes t ≡ printed command.now) }
{
    let words = command_words(alloc, command)?;
    let mut out = String::from_str(alloc, name_text(command.name()))?;
    for word in words.as_slice() {
        out.push(' ')?;
        put_word(word.as_str(), &mut out)?;
    }
    Ok(out)
}

/// The line of a command: its name and its words with one blank between them. `AllocError` if
/// memory is refused.
///
/// A word stands between `"` if it is empty or holds a character other than ASCII letters, ASCII
/// digits and `_ - + , # ? *`. Numbers and bits are written in one form: `number 007` is printed as
/// `number 7`.
pub fn print(alloc: Global, command: &Command) -> Result<String, AllocError>
    ensures text { IfOk result (λ t. string_bytes t ≡ printed command.now) }
    // This line gives what any line of the command gives, unless it is too long.
    ensures reads_back { IfOk result (λ t. (line : List ℕ) → Relates line command.now
        → ReadsBack (string_bytes t) command.now) }
{
    command_line(alloc, command)
}
