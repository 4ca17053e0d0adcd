//! Reads a file's entries in one pass, with memory for the tables and one line.

ghost use Rattle.std.specs.Prelude.{[], IfOk, IfSome};
ghost use Rattle.acl.specs.declared.leaders.Edition.{Edition};
ghost use Rattle.acl.specs.declared.user_id.UserId.{UserId};
ghost use Rattle.trail_lines.specs.Reading.{HasRead};
ghost use Rattle.trail_lines.specs.Halting.{IsEnd, IsRead, NextIs};
ghost use Rattle.trail_lines.specs.Lines.{OfKnown, ComesAs};

use crate::audit::{Audit, Wrong};
use std::alloc::AllocError;
use std::io::{self, BufRead};

/// How a line was read.
#[derive(Clone, Copy)]
pub enum NextLine {
    /// With its line feed.
    Whole,
    /// Without its line feed: the file ends in the line.
    Torn,
    /// Not at all: the file has ended.
    Nothing,
}

/// Reads a line into `line`, without its line feed, in place of what `line` had.
pub fn next_line<R: BufRead>(reader: &mut R, line: &mut Vec<u8>) -> io::Result<NextLine>
    ensures { IfOk result (λ came. OfKnown (R.remaining reader.old) (R.remaining reader.new)
        (ComesAs came line.new.items)) }
{
    line.clear();
    reader.read_until(b'\n', line)?;
    match line.pop() {
        Some(b'\n') => Ok(NextLine::Whole),
        Some(byte) => {
            line.push(byte)?;
            Ok(NextLine::Torn)
        }
        None => Ok(NextLine::Nothing),
    }
}

/// Why the reading of a file's entries halts.
#[derive(Clone, Copy)]
pub enum Halt {
    /// The file ends after a whole line.
    Nothing,
    /// The file ends in bytes without a line feed.
    Torn,
    /// This line begins as a last line does.
    Last { line: u64 },
    /// Something is wrong in this line.
    Stopped { line: u64, wrong: Wrong },
}

/// Reads the line of the next entry into `line`, without its line feed. It is the line of this number
/// in the file. If there is no such line, the answer is why the reading halts.
pub fn next_entry<R: BufRead>(
    reader: &mut R,
    line: &mut Vec<u8>,
    number: u64,
) -> io::Result<Option<Halt>>
    ensures end { IfOk result (λ halt. IfSome halt (λ h. IsEnd h)) }
    ensures next { IfOk result (λ halt. OfKnown (R.remaining reader.old) (R.remaining reader.new)
        (NextIs halt number line.new.items)) }
{
    let halt = match next_line(reader, line)? {
        NextLine::Nothing => Halt::Nothing,
        NextLine::Torn => Halt::Torn,
        NextLine::Whole if line.starts_with(b"end ") => Halt::Last { line: number },
        NextLine::Whole => return Ok(None),
    };
    Ok(Some(halt))
}

/// Reads a reader's entries, from the file's line 2 on. The line that halts the reading stays in `line`.
pub fn read_entries<R: BufRead>(
    audit: &mut Audit,
    reader: &mut R,
    line: &mut Vec<u8>,
) -> io::Result<Halt>
    ensures { (edition : Edition) (owner : UserId) → HasRead audit.old edition owner [] →
        IfOk result (λ halt. IsRead halt audit.old.times audit.new line.new.items edition owner
        (R.remaining reader.old) (R.remaining reader.new)) }
{
    for number in 2..u64::MAX {
        if let Some(halt) = next_entry(reader, line, number)? {
            return Ok(halt);
        }
        if let Err(wrong) = audit.take(line.as_slice()) {
            return Ok(Halt::Stopped {
                line: number,
                wrong,
            });
        }
    }
    // No file has 2^64 lines.
    Err(io::Error::from(AllocError))
}
