//! The line of a log that is held until it is known whether the next line is joined to it.

ghost use Rattle.std.specs.Prelude.{◌≡◌, ◌++◌, IfErr, IfOk, OnOk, option_map};
ghost use Rattle.trail_lines.specs.Entries.{said};
ghost use Rattle.trail_log.specs.Joining.{chosen_line, goes_on, grown, held_ms, held_text, held_with};
ghost use Rattle.trail_log.specs.Joining.{joined, ms_before, sum_in, sum_of, text_before};

use crate::choice::Choice;
use crate::log_line::{LogLine, line_of, push_line};
use crate::names::Names;
use std::alloc::{AllocError, Global};
use std::mem;
use trail_lines::EntryLine;

/// Typed bytes are joined if they come less than this many milliseconds after those before.
const GAP: u64 = 10_000;

/// Numbers of bytes are added below this one.
const MANY: u64 = 4_294_967_296;

/// Whether the next line names the same user and the same place, less than ten seconds later.
fn goes_on(line: &LogLine, next: &LogLine) -> bool
    ensures { result ≡ goes_on line.now next.now }
{
    if next.ms.saturating_sub(line.last) >= GAP {
        return false;
    }
    line.head.as_slice() == next.head.as_slice() && line.tail.as_slice() == next.tail.as_slice()
}

/// The sum of two numbers of bytes, if both are there.
fn sum_of(count: Option<u64>, more: Option<u64>) -> Option<u64>
    ensures { result ≡ sum_of count more }
{
    let count = count?;
    let more = more?;
    if count >= MANY {
        return None;
    }
    if more >= MANY {
        return None;
    }
    Some(count + more)
}

/// The number of bytes of both lines, if they are joined.
fn joined(line: &LogLine, next: &LogLine) -> Option<u64>
    ensures { result ≡ joined line.now next.now }
{
    if goes_on(line, next) {
        sum_of(line.bytes, next.bytes)
    } else {
        None
    }
}

/// The number of bytes of the line that is held and of the next one, if they are joined.
fn sum_in(held: &Option<LogLine>, next: &LogLine) -> Option<u64>
    ensures { result ≡ sum_in held.now next.now }
{
    match held {
        Some(line) => joined(line, next),
        None => None,
    }
}

/// Appends the line that is held, if there is one, and returns its time.
pub fn push_held(held: &Option<LogLine>, out: &mut Vec<u8>) -> Result<Option<u64>, AllocError>
    ensures text { OnOk result (out.new.items ≡ out.old.items ++ held_text held.now) }
    ensures ms { IfOk result (λ ms. ms ≡ held_ms held.now) }
{
    match held {
        Some(line) => {
            push_line(line, out)?;
            Ok(Some(line.ms))
        }
        None => Ok(None),
    }
}

/// A line that grows to this many bytes, by an entry of this time.
fn grown(held: Option<LogLine>, last: u64, bytes: u64) -> Option<LogLine>
    ensures { result ≡ option_map (grown last bytes) held }
{
    match held {
        Some(LogLine { ms, head, tail, .. }) => Some(LogLine {
            ms,
            last,
            head,
            bytes: Some(bytes),
            tail,
        }),
        None => None,
    }
}

/// The line of an entry, if the entry is asked for.
pub fn chosen_line(
    alloc: Global,
    choice: &Choice,
    names: &Names,
    line: &EntryLine,
) -> Result<Option<LogLine>, AllocError>
    ensures { IfOk result (λ next. next ≡ chosen_line choice.now names.now (said line.now)) }
{
    if !choice.is_chosen(names, line) {
        return Ok(None);
    }
    let next = line_of(alloc, names, line)?;
    Ok(Some(next))
}

/// Joins the next line to the one that is held; or appends the line that was held, returns its time,
/// and holds the next one. Does nothing if there is no next line.
pub fn hold(
    held: &mut Option<LogLine>,
    next: Option<LogLine>,
    out: &mut Vec<u8>,
) -> Result<Option<u64>, AllocError>
    ensures text { OnOk result (out.new.items ≡ out.old.items ++ text_before held.old next) }
    ensures ms { IfOk result (λ ms. ms ≡ ms_before held.old next) }
    ensures held { OnOk result (held.new ≡ held_with held.old next) }
    ensures stays { IfErr result (λ refused. held.new ≡ held.old) }
{
    let Some(next) = next else {
        return Ok(None);
    };
    match sum_in(held, &next) {
        Some(bytes) => {
            let before = mem::replace(held, None);
            *held = grown(before, next.last, bytes);
            Ok(None)
        }
        None => {
            let ms = push_held(held, out)?;
            *held = Some(next);
            Ok(ms)
        }
    }
}
