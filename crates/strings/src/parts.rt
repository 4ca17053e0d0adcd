//! The parts of a word, from its front.

ghost use Rattle.std.specs.Prelude.{◌≡◌, ◌∷◌};
ghost use Rattle.std.specs.String.{string_bytes};
ghost use Rattle.strings.specs.Grammar.{is_octal, octal_front, Escaped, Character, Single, Double, Part, Parts};
ghost use Rattle.strings.specs.Reading.{Puts};

use std::alloc::AllocError;

/// Whether the character is an octal digit.
fn is_octal_digit(c: char) -> bool
    ensures { result ≡ is_octal c }
{
    '0' <= c && c <= '7'
}

/// The character whose octal digits (000 to 177) the characters begin with, if they do.
fn octal_front(cs: &[char]) -> Option<char>
    ensures { result ≡ octal_front cs.now }
{
    match cs {
        [a, b, c, ..]
            if is_octal_digit(*a) && *a < '2' && is_octal_digit(*b) && is_octal_digit(*c) => {
            let code = ((*a as u32 - 48) * 8 + (*b as u32 - 48)) * 8 + (*c as u32 - 48);
            Some(code as u8 as char)
        }
        _ => None,
    }
}

/// Appends the character that follows a backslash: that of three octal digits, or another.
fn put_escaped<'a>(after: &'a [char], out: &mut String) -> Result<Option<&'a [char]>, AllocError>
    ensures { Puts Escaped after.now (string_bytes out.old) (string_bytes out.new) result }
{
    if let Some(c) = octal_front(after) {
        out.push(c)?;
        return Ok(Some(&after[3..]));
    }
    match after {
        [] => Ok(None),
        [c, rest @ ..] => {
            out.push(*c)?;
            Ok(Some(rest))
        }
    }
}

/// Appends a character; for a backslash, appends what follows it.
fn put_character<'a>(
    c: char,
    after: &'a [char],
    out: &mut String,
) -> Result<Option<&'a [char]>, AllocError>
    ensures { Puts Character (c ∷ after.now) (string_bytes out.old) (string_bytes out.new) result }
{
    if c == '\\' {
        put_escaped(after, out)
    } else {
        out.push(c)?;
        Ok(Some(after))
    }
}

/// Appends the text that follows `'`, up to the next one.
fn put_single<'a>(mut left: &'a [char], out: &mut String) -> Result<Option<&'a [char]>, AllocError>
    ensures { Puts Single left.entry.now (string_bytes out.old) (string_bytes out.new) result }
{
    while let [c, rest @ ..] = left {
        if *c == '\'' {
            return Ok(Some(rest));
        }
        out.push(*c)?;
        left = rest;
    }
    Ok(None)
}

/// Appends the text that follows `"`, up to the next one.
fn put_double<'a>(mut left: &'a [char], out: &mut String) -> Result<Option<&'a [char]>, AllocError>
    ensures { Puts Double left.entry.now (string_bytes out.old) (string_bytes out.new) result }
{
    while let [c, rest @ ..] = left {
        if *c == '"' {
            return Ok(Some(rest));
        }
        let Some(behind) = put_character(*c, rest, out)? else {
            return Ok(None);
        };
        left = behind;
    }
    Ok(None)
}

/// Appends the part of a word that begins with this character.
fn put_part<'a>(
    c: char,
    after: &'a [char],
    out: &mut String,
) -> Result<Option<&'a [char]>, AllocError>
    ensures { Puts Part (c ∷ after.now) (string_bytes out.old) (string_bytes out.new) result }
{
    if c == '\'' {
        put_single(after, out)
    } else if c == '"' {
        put_double(after, out)
    } else {
        put_character(c, after, out)
    }
}

/// Appends the parts that the characters begin with, up to a blank or the end of the line.
pub fn put_parts<'a>(
    mut left: &'a [char],
    out: &mut String,
) -> Result<Option<&'a [char]>, AllocError>
    ensures { Puts Parts left.entry.now (string_bytes out.old) (string_bytes out.new) result }
{
    while let [c, rest @ ..] = left {
        if *c == ' ' {
            break;
        }
        let Some(behind) = put_part(*c, rest, out)? else {
            return Ok(None);
        };
        left = behind;
    }
    Ok(Some(left))
}
