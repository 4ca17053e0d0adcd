//! The first line of a file, and its last entry at a time.

ghost use Rattle.std.specs.Prelude.{◌≡◌, IfErr, IfOk, IfSome, MatchResult, None, Some};
ghost use Rattle.trail_files.specs.Beginning.{BeginsAs, ComesBy, IsNoHeading, IsUnheaded, IsUnplaced, LastBy, LastOf};
ghost use Rattle.trail_files.specs.Beginning.{heading_in, moment_of, place_by};
ghost use Rattle.trail_files.specs.declared.fault.TrailFault.TheVariants.{NoEntryYet};
ghost use Rattle.trail_lines.specs.Lines.{OfKnown};

use crate::fault::TrailFault;
use acl::{Edition, UserId};
use line_fields::u64_at;
use std::alloc::{AllocError, Global};
use std::io::{self, BufRead};
use trail_lines::{NextLine, UnreadLine, next_line, read_header};

/// What the first line of a file says of its trail.
#[derive(Clone, Copy)]
pub struct Heading {
    pub edition: Edition,
    pub owner: UserId,
    /// When it began, in milliseconds since 1970.
    pub ms: u64,
}

/// What a first line says. `NoHeader` if no first line is printed so.
fn heading_in(alloc: Global, line: &[u8]) -> Result<Heading, TrailFault>
    ensures ok { IfOk result (λ heading. heading_in line.now ≡ Some heading) }
    ensures err { IfErr result (λ fault. IsNoHeading fault line.now) }
{
    match read_header(alloc, line) {
        Ok(header) => Ok(Heading {
            edition: header.edition,
            owner: header.owner,
            ms: header.ms,
        }),
        Err(UnreadLine::Malformed) => Err(TrailFault::NoHeader(1)),
        Err(UnreadLine::NoMemory) => Err(TrailFault::Io(io::Error::from(AllocError))),
    }
}

/// What the first line of a reader says. `NoHeader` if there is no line, if it has no line feed, or if no first line is
/// printed so; `Io` if reading fails, or if memory is refused.
pub fn heading_of<R: BufRead>(alloc: Global, reader: &mut R) -> Result<Heading, TrailFault>
    ensures { MatchResult result
        (λ heading. OfKnown (R.remaining reader.old) (R.remaining reader.new) (BeginsAs heading))
        (λ fault. IsUnheaded fault (R.remaining reader.old) (R.remaining reader.new)) }
{
    let mut line = Vec::new(alloc);
    match next_line(reader, &mut line)? {
        NextLine::Whole => heading_in(alloc, line.as_slice()),
        NextLine::Torn | NextLine::Nothing => Err(TrailFault::NoHeader(1)),
    }
}

/// The place and the time of an entry's line.
fn moment_of(line: &[u8]) -> Option<(u64, u64)>
    ensures { result ≡ moment_of line.now }
{
    let (place, rest) = u64_at(line, b' ')?;
    let (ms, _) = u64_at(rest, b' ')?;
    Some((place, ms))
}

/// The place of an entry's line that isn't later than the time.
fn place_by(time: u64, line: &[u8]) -> Option<u64>
    ensures { result ≡ place_by time line.now }
{
    match moment_of(line) {
        Some((place, ms)) if ms <= time => Some(place),
        _ => None,
    }
}

/// The place of the entry that comes next, if it isn't later than the time.
fn next_by<R: BufRead>(time: u64, reader: &mut R, line: &mut Vec<u8>) -> io::Result<Option<u64>>
    ensures { IfOk result (λ place. OfKnown (R.remaining reader.old) (R.remaining reader.new) (ComesBy time place)) }
{
    match next_line(reader, line)? {
        NextLine::Whole => Ok(place_by(time, line.as_slice())),
        NextLine::Torn | NextLine::Nothing => Ok(None),
    }
}

/// The place of the last entry before the first one that is later than the time.
fn last_by<R: BufRead>(time: u64, reader: &mut R, line: &mut Vec<u8>) -> io::Result<Option<u64>>
    ensures { IfOk result (λ last. IfSome (R.remaining reader.old) (LastBy time last)) }
{
    let mut last = None;
    'entries: for _ in 0..u64::MAX {
        let Some(place) = next_by(time, reader, line)? else {
            return Ok(last);
        };
        last = Some(place);
    }
    // No file has 2^64 lines.
    Err(io::Error::from(AllocError))
}

// The place of the last entry of a reader, if it has one, before the first one that is later than the time.
fn last_of<R: BufRead>(alloc: Global, time: u64, reader: &mut R) -> io::Result<Option<u64>>
    ensures { IfOk result (λ last. IfSome (R.remaining reader.old) (LastOf time last)) }
{
    let mut line = Vec::new(alloc);
    let _first = next_line(reader, &mut line)?;
    last_by(time, reader, &mut line)
}

/// The place of the last entry of a reader before the first one that is later than the time. `NoEntryYet` if the first
/// one is; `Io` if reading fails, or if memory is refused.
pub fn place_at<R: BufRead>(alloc: Global, time: u64, reader: &mut R) -> Result<u64, TrailFault>
    ensures ok { IfOk result (λ place. IfSome (R.remaining reader.old) (LastOf time (Some place))) }
    ensures err { IfErr result (λ fault. fault ≡ NoEntryYet → IfSome (R.remaining reader.old) (LastOf time None)) }
    ensures others { IfErr result (λ fault. IsUnplaced fault) }
{
    match last_of(alloc, time, reader) {
        Ok(Some(place)) => Ok(place),
        Ok(None) => Err(TrailFault::NoEntryYet),
        Err(error) => Err(TrailFault::Io(error)),
    }
}
