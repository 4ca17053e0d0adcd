//! A line is cut into words, in one way.

ghost use Rattle.std.specs.Prelude.{◌≡◌, ◌≤◌, length, IfOk, ℕ, List};
ghost use Rattle.std.specs.Str.{chars};
ghost use Rattle.strings.specs.Grammar.{size, IsCut};
ghost use Rattle.strings.specs.declared.text.Word.{Word};
ghost use Rattle.strings.specs.Lines.{words};

use crate::parts::put_parts;
use crate::text::{Text, Word};
use std::alloc::{AllocError, Global};

/// The number of bytes of the characters in UTF-8.
fn byte_count(cs: &[char]) -> usize
    requires { length cs.now ≤ 1024 }
    ensures { result ≡ size cs.now }
{
    let mut count = 0;
    for c in cs {
        count += c.len_utf8();
    }
    count
}

/// The words of the characters of a line. `AllocError` if memory is refused.
fn words_of(alloc: Global, cs: &[char]) -> Result<Vec<Word>, AllocError>
    requires { length cs.now ≤ 1024 }
    ensures { IfOk result (λ ws. IsCut cs.now ws.items) }
{
    let mut words = Vec::new(alloc);
    let end = byte_count(cs);
    let mut left = cs;
    while let [c, rest @ ..] = left {
        if *c == ' ' {
            left = rest;
        } else {
            let place = end - byte_count(left);
            let mut text = String::new(alloc);
            let behind = put_parts(left, &mut text)?;
            words.push(Word {
                place,
                text: Text::new(text),
                is_closed: behind.is_some(),
            })?;
            let Some(rest) = behind else {
                return Ok(words);
            };
            left = rest;
        }
    }
    Ok(words)
}

/// The words of a line of at most 1,024 bytes. `AllocError` if memory is refused.
pub fn words(alloc: Global, line: &str) -> Result<Vec<Word>, AllocError>
    requires { length line.now ≤ 1024 }
    ensures { IfOk result (λ ws. IsCut (chars line.now) ws.items) }
{
    let cs: Vec<char> = line.chars().collect(alloc)?;
    words_of(alloc, cs.as_slice())
}

/// Each line is cut into words, and in one way: no line has two readings.
pub fn each_line_is_cut_once()
    ensures cut { (cs : List ℕ) → IsCut cs (words cs) }
    ensures once { (cs : List ℕ) (ws vs : List Word) → IsCut cs ws → IsCut cs vs → ws ≡ vs }
{}
