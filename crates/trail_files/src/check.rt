//! How a trail's file ends.

ghost use Rattle.std.specs.Prelude.{◌≡◌, [], IfOk, None};
ghost use Rattle.acl.specs.declared.leaders.Edition.{Edition};
ghost use Rattle.acl.specs.declared.user_id.UserId.{UserId};
ghost use Rattle.trail_lines.specs.Reading.{HasRead};
ghost use Rattle.trail_files.specs.Finishing.{is_bad, EndsAt, Finishes, IfEndOf, IsChecked};

use std::alloc::{AllocError, Global};
use std::io::{self, BufRead};
use trail_lines::{
    Audit, Ended, Halt, NextLine, UnreadLine, Wrong, next_line, read_end, read_entries,
};

/// How a file ends.
#[derive(Clone, Copy)]
pub enum Finish {
    /// With a last line that counts the entries.
    Ended { ended: Ended },
    /// Without a last line: the session still runs, or its server was killed.
    Open,
    /// In bytes without a line feed.
    Torn,
    /// In a line that begins as a last line, but isn't one, or counts other entries.
    Miscounted { line: u64 },
    /// With more after the last line.
    Continued { line: u64 },
    /// In a line in which something is wrong.
    Stopped { line: u64, wrong: Wrong },
}

impl Finish {
    /// Whether something is wrong in the file.
    pub fn is_bad(self) -> bool
        ensures { result ≡ is_bad self }
    {
        match self {
            Finish::Ended { .. } | Finish::Open | Finish::Torn => false,
            Finish::Miscounted { .. } | Finish::Continued { .. } | Finish::Stopped { .. } => true,
        }
    }
}

/// What a line says that begins as a last line does, if it is the last line of this many entries.
fn end_in(alloc: Global, count: u64, line: &[u8]) -> Result<Option<Ended>, AllocError>
    ensures { IfOk result (λ ended. IfEndOf ended count line.now) }
{
    match read_end(alloc, line) {
        Ok(ended) if ended.entries == count => Ok(Some(ended)),
        Ok(_) | Err(UnreadLine::Malformed) => Ok(None),
        Err(UnreadLine::NoMemory) => Err(AllocError),
    }
}

/// How a file ends at a line that begins as a last line does, if nothing comes after it.
pub fn finish_at(alloc: Global, count: u64, number: u64, line: &[u8]) -> Result<Finish, AllocError>
    ensures { IfOk result (λ finish. EndsAt finish count number line.now None) }
{
    match end_in(alloc, count, line)? {
        Some(ended) => Ok(Finish::Ended { ended }),
        None => Ok(Finish::Miscounted { line: number }),
    }
}

/// How a file ends at a line that begins as a last line does.
#[tactic(auto, using(crate::proofs::Coming::whole_came))]
fn finish_in<R: BufRead>(
    alloc: Global,
    count: u64,
    number: u64,
    reader: &mut R,
    line: &mut Vec<u8>,
) -> io::Result<Finish>
    ensures { IfOk result (λ finish. EndsAt finish count number line.old.items (R.remaining reader.old)) }
{
    let Some(ended) = end_in(alloc, count, line.as_slice())? else {
        return Ok(Finish::Miscounted { line: number });
    };
    match next_line(reader, line)? {
        NextLine::Nothing => Ok(Finish::Ended { ended }),
        NextLine::Whole | NextLine::Torn => Ok(Finish::Continued { line: number }),
    }
}

/// How a file ends, of which this many entries were read, if this halted the reading. The line that
/// halted it is in `line`.
pub fn finish_of<R: BufRead>(
    alloc: Global,
    count: u64,
    halt: Halt,
    reader: &mut R,
    line: &mut Vec<u8>,
) -> io::Result<Finish>
    ensures { IfOk result (λ finish. Finishes finish halt count line.old.items (R.remaining reader.old)) }
{
    match halt {
        Halt::Nothing => Ok(Finish::Open),
        Halt::Torn => Ok(Finish::Torn),
        Halt::Last { line: number } => finish_in(alloc, count, number, reader, line),
        Halt::Stopped { line, wrong } => Ok(Finish::Stopped { line, wrong }),
    }
}

/// Judges the entries of a reader, from the file's line 2 on, and says how the file ends.
pub fn check_lines<R: BufRead>(
    alloc: Global,
    audit: &mut Audit,
    reader: &mut R,
) -> io::Result<Finish>
    ensures { (edition : Edition) (owner : UserId) → HasRead audit.old edition owner [] →
        IfOk result (λ finish. IsChecked finish audit.old.times audit.new edition owner (R.remaining reader.old)) }
{
    let mut line = Vec::new(alloc);
    let halt = read_entries(audit, reader, &mut line)?;
    finish_of(alloc, audit.count(), halt, reader, &mut line)
}
