//! A trail's file that is read back.

ghost use Rattle.std.specs.Prelude.{◌≡◌, ◌∷◌, ◌++◌, [], ℕ, List, Some, true, IfOk, IsSome, take};
ghost use Rattle.trail_lines.specs.Entries.{line_of};
ghost use Rattle.trail_lines.specs.Heading.{header_text};
ghost use Rattle.server_trail.specs.Files.{Reads, Cuts, ReadsLines, IsTrailOf, IsLastOf};

use hub::{EntryList, TrailEntry};
use line_fields::u64_at;
use std::alloc::{AllocError, Global};
use std::io::{self, BufRead};
use trail_lines::{Header, NextLine, UnreadLine, next_line, print_header, print_line, read_end};

// Reads the next line into `line`, without its line feed. The answer is whether there was a whole line.
fn has_line<R: BufRead>(reader: &mut R, line: &mut Vec<u8>) -> io::Result<bool>
    ensures { IfOk result (λ is. is ≡ true
        → Cuts (R.remaining reader.old) line.new.items (R.remaining reader.new)) }
{
    match next_line(reader, line)? {
        NextLine::Whole => Ok(true),
        NextLine::Torn | NextLine::Nothing => Ok(false),
    }
}

// Whether nothing is left to read.
fn is_over<R: BufRead>(reader: &mut R, line: &mut Vec<u8>) -> io::Result<bool>
    ensures { IfOk result (λ is. is ≡ true → Reads (R.remaining reader.old) (λ bytes. bytes ≡ [])) }
{
    match next_line(reader, line)? {
        NextLine::Nothing => Ok(true),
        NextLine::Whole | NextLine::Torn => Ok(false),
    }
}

// Whether the line is the one of the entry at this place, with any time.
fn is_line_of(
    alloc: Global,
    line: &[u8],
    place: u64,
    entry: &TrailEntry,
) -> Result<bool, AllocError>
    ensures { IfOk result (λ is. is ≡ true
        → (ms : ℕ) × (line.now ≡ line_of (place, ms, entry.now))) }
{
    let Some((_, rest)) = u64_at(line, b' ') else {
        return Ok(false);
    };
    let Some((ms, _)) = u64_at(rest, b' ') else {
        return Ok(false);
    };
    let mut printed = Vec::new(alloc);
    print_line(place, ms, entry, &mut printed)?;
    Ok(printed.as_slice() == line)
}

// Whether the line is the first line that this header makes.
fn is_first(alloc: Global, line: &[u8], header: &Header) -> Result<bool, AllocError>
    ensures { IfOk result (λ is. is ≡ true → line.now ≡ header_text header.now) }
{
    let mut printed = Vec::new(alloc);
    print_header(header, &mut printed)?;
    Ok(printed.as_slice() == line)
}

// Whether the line is a last line that counts this number of entries.
fn is_last(alloc: Global, line: &[u8], count: u64) -> Result<bool, AllocError>
    ensures { IfOk result (λ is. is ≡ true → IsLastOf line.now count) }
{
    match read_end(alloc, line) {
        Ok(ended) => Ok(ended.entries == count),
        Err(UnreadLine::Malformed) => Ok(false),
        Err(UnreadLine::NoMemory) => Err(AllocError),
    }
}

// Whether the next lines are the lines of the entries.
fn are_lines<R: BufRead>(
    reader: &mut R,
    line: &mut Vec<u8>,
    entries: &EntryList,
) -> io::Result<bool>
    ensures { IfOk result (λ is. is ≡ true → ReadsLines entries.now.entries
        (R.remaining reader.old) (R.remaining reader.new)) }
{
    let alloc = *line.allocator();
    for place in 0..entries.len() {
        let entry = entries.at(place);
        if !has_line(reader, line)? || !is_line_of(alloc, line.as_slice(), place as u64, entry)? {
            return Ok(false);
        }
    }
    Ok(true)
}

/// Shows that a file was read back, and is the trail of its session.
#[derive(Debug, Drop)]
pub struct ReadBack(());

/// Reads back a file that is to have exactly this trail: the header's first line, a line for each entry in its
/// place, a last line that counts them, and nothing after it. `Err` if the file can't be read or memory is refused.
pub fn read_back<R: BufRead>(
    alloc: Global,
    reader: &mut R,
    header: &Header,
    entries: &EntryList,
) -> io::Result<Option<ReadBack>>
    ensures { IfOk result (λ back. IsSome back
        → Reads (R.remaining reader.old) (IsTrailOf header.now entries.now.entries)) }
{
    let mut line = Vec::new(alloc);
    if !has_line(reader, &mut line)? || !is_first(alloc, line.as_slice(), header)? {
        return Ok(None);
    }
    if !are_lines(reader, &mut line, entries)? || !has_line(reader, &mut line)? {
        return Ok(None);
    }
    if !is_last(alloc, line.as_slice(), entries.len() as u64)? || !is_over(reader, &mut line)? {
        return Ok(None);
    }
    Ok(Some(ReadBack(())))
}
