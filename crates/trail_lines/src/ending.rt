//! The last line of a trail's file.

ghost use Rattle.std.specs.Prelude.{◌≡◌, ◌++◌, OnOk};
ghost use Rattle.trail_lines.specs.Unreadable.{Gives};
ghost use Rattle.trail_lines.specs.Heading.{cause_text, cause_in, end_text, end_fields, read_end};

use crate::UnreadLine;
use line_fields::{cut, u64_at};
use session::push_decimal;
use std::alloc::{AllocError, Global};

/// Why a trail ends.
#[derive(Clone, Copy)]
pub enum Cause {
    /// The session was quit.
    Quit,
    /// The trail has as many entries as one may have.
    Full,
    /// The file could take no more.
    Disk,
    /// Memory was refused.
    Memory,
    /// The script that was played ended.
    Script,
}

/// What the last line says.
#[derive(Clone, Copy)]
pub struct Ended {
    /// How many entries the trail has.
    pub entries: u64,
    /// When the trail ended, in milliseconds since 1970.
    pub ms: u64,
    pub cause: Cause,
}

impl Cause {
    /// The word for the cause in a last line.
    pub fn word(self) -> &'static [u8]
        ensures { result.now ≡ cause_text self }
    {
        match self {
            Cause::Quit => b"quit",
            Cause::Full => b"full",
            Cause::Disk => b"disk",
            Cause::Memory => b"memory",
            Cause::Script => b"script",
        }
    }
}

/// The cause that a word means, if it means one.
fn cause_in(word: &[u8]) -> Option<Cause>
    ensures { result ≡ cause_in word.now }
{
    if word == b"quit".as_slice() {
        Some(Cause::Quit)
    } else if word == b"full".as_slice() {
        Some(Cause::Full)
    } else if word == b"disk".as_slice() {
        Some(Cause::Disk)
    } else if word == b"memory".as_slice() {
        Some(Cause::Memory)
    } else if word == b"script".as_slice() {
        Some(Cause::Script)
    } else {
        None
    }
}

/// Appends the last line, without a line feed.
pub fn print_end(ended: &Ended, out: &mut Vec<u8>) -> Result<(), AllocError>
    ensures { OnOk result (out.new.items ≡ out.old.items ++ end_text ended.now) }
{
    out.extend_from_slice(b"end ")?;
    push_decimal(ended.entries, out)?;
    out.extend_from_slice(b" ")?;
    push_decimal(ended.ms, out)?;
    out.extend_from_slice(b" ")?;
    out.extend_from_slice(ended.cause.word())
}

/// The fields of a last line, in any spelling.
#[tactic(auto, unfolding(crate::specs::Heading::end_fields))]
fn end_fields(line: &[u8]) -> Option<Ended>
    ensures { result ≡ end_fields line.now }
{
    let (_, rest) = cut(line, b' ')?;
    let (entries, rest) = u64_at(rest, b' ')?;
    let (ms, cause) = u64_at(rest, b' ')?;
    let cause = cause_in(cause)?;
    Some(Ended { entries, ms, cause })
}

/// What a last line says, given without its line feed. `Malformed` if no last line is printed so.
#[tactic(auto, unfolding(crate::specs::Heading::read_end))]
pub fn read_end(alloc: Global, line: &[u8]) -> Result<Ended, UnreadLine>
    ensures { Gives (λ ended. ended) result (read_end line.now) }
{
    let ended = end_fields(line).ok_or(UnreadLine::Malformed)?;
    let mut printed = Vec::new(alloc);
    print_end(&ended, &mut printed)?;
    if printed.as_slice() != line {
        return Err(UnreadLine::Malformed);
    }
    Ok(ended)
}
