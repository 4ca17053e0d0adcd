//! A line of a log, before it is printed, and the line of a trail's end.

ghost use Rattle.std.specs.Prelude.{◌≡◌, ◌++◌, ◌∷◌, [], IfOk, OnOk};
ghost use Rattle.trail_lines.specs.Entries.{said};
ghost use Rattle.trail_log.specs.Joining.{bytes_text, deed_line, line_of, line_text, plain_text, typed_head};
ghost use Rattle.trail_log.specs.Joining.{typed_in, typed_line};
ghost use Rattle.trail_log.specs.Lines.{end_line, end_text};

use crate::checks::window_in;
use crate::deeds::{push_client, push_deed};
use crate::names::Names;
use crate::pressed::{push_count, push_typed_rest, typed_verb};
use client_words::put_visible;
use hub::{Ending, Kept, failed, from_command};
use line_fields::push_clock;
use session::{Bytes, Verdict};
use std::alloc::{AllocError, Global};
use trail_lines::{Ended, EntryLine};

/// A line of the log. If it is about typed bytes, their number is between the head and the tail.
#[derive(Drop)]
pub struct LogLine {
    /// The time of its first entry, in milliseconds since 1970.
    pub ms: u64,
    /// The time of its last entry, in milliseconds since 1970.
    pub last: u64,
    pub head: Bytes,
    pub bytes: Option<u64>,
    pub tail: Bytes,
}

/// The client that typed bytes, and their number, if an entry is about nothing else.
fn typed_in(event: &Kept, verdicts: &[Verdict], ending: Ending) -> Option<(u32, usize)>
    ensures { result ≡ typed_in event.now verdicts.now ending }
{
    let Ok(finished) = ending else {
        return None;
    };
    match event {
        Kept::Keys { client } => match from_command(verdicts) {
            [] => Some((*client, finished.taken)),
            [_, ..] => None,
        },
        _ => None,
    }
}

/// Appends who typed, and whether the bytes were denied.
fn push_typed_head(
    names: &Names,
    client: u32,
    verdicts: &[Verdict],
    out: &mut Vec<u8>,
) -> Result<(), AllocError>
    ensures { OnOk result (out.new.items ≡ out.old.items ++ typed_head names.now client verdicts.now) }
{
    push_client(names.user_of(client), client, out)?;
    out.extend_from_slice(typed_verb(failed(verdicts)))?;
    Ok(())
}

/// The line of an entry that is about typed bytes alone.
fn typed_line(
    alloc: Global,
    names: &Names,
    line: &EntryLine,
    client: u32,
    taken: usize,
) -> Result<LogLine, AllocError>
    ensures { IfOk result (λ l. l ≡ typed_line names.now (said line.now) client taken) }
{
    let verdicts = line.entry.verdicts();
    let mut head = Vec::new(alloc);
    push_typed_head(names, client, verdicts, &mut head)?;
    let mut tail = Vec::new(alloc);
    push_typed_rest(
        names.titles(),
        window_in(verdicts),
        failed(verdicts),
        &mut tail,
    )?;
    Ok(LogLine {
        ms: line.ms,
        last: line.ms,
        head: Bytes::from_vec(head),
        bytes: Some(taken as u64),
        tail: Bytes::from_vec(tail),
    })
}

/// The line of an entry that isn't about typed bytes alone.
fn deed_line(alloc: Global, names: &Names, line: &EntryLine) -> Result<LogLine, AllocError>
    ensures { IfOk result (λ l. l ≡ deed_line names.now (said line.now)) }
{
    let entry = &line.entry;
    let event = entry.event();
    let mut head = Vec::new(alloc);
    push_deed(names, event, entry.verdicts(), entry.ending(), &mut head)?;
    Ok(LogLine {
        ms: line.ms,
        last: line.ms,
        head: Bytes::from_vec(head),
        bytes: None,
        tail: Bytes::new(alloc),
    })
}

/// The line of an entry, before which clients and windows had these names.
pub fn line_of(alloc: Global, names: &Names, line: &EntryLine) -> Result<LogLine, AllocError>
    ensures { IfOk result (λ l. l ≡ line_of names.now (said line.now)) }
{
    let entry = &line.entry;
    match typed_in(entry.event(), entry.verdicts(), entry.ending()) {
        Some((client, taken)) => typed_line(alloc, names, line, client, taken),
        None => deed_line(alloc, names, line),
    }
}

/// Appends how many bytes were typed, if the line is about typed bytes.
fn push_bytes(bytes: Option<u64>, out: &mut Vec<u8>) -> Result<(), AllocError>
    ensures { OnOk result (out.new.items ≡ out.old.items ++ bytes_text bytes) }
{
    match bytes {
        Some(count) => push_count(count, out),
        None => Ok(()),
    }
}

/// Appends the line with the control characters of titles and commands.
fn push_plain(line: &LogLine, out: &mut Vec<u8>) -> Result<(), AllocError>
    ensures { OnOk result (out.new.items ≡ out.old.items ++ plain_text line.now) }
{
    push_clock(line.ms, out)?;
    out.extend_from_slice(b" ")?;
    push_text(line.head.as_slice(), out)?;
    push_bytes(line.bytes, out)?;
    push_text(line.tail.as_slice(), out)
}

/// Appends the line. Control characters are written as `\xNN`.
pub fn push_line(line: &LogLine, out: &mut Vec<u8>) -> Result<(), AllocError>
    ensures { OnOk result (out.new.items ≡ out.old.items ++ line_text line.now) }
{
    let mut plain = Vec::new(*out.allocator());
    push_plain(line, &mut plain)?;
    put_visible(plain.as_slice(), out)?;
    out.extend_from_slice(b"\n")
}

/// Appends bytes.
pub fn push_text(text: &[u8], out: &mut Vec<u8>) -> Result<(), AllocError>
    ensures { OnOk result (out.new.items ≡ out.old.items ++ text.now) }
{
    out.extend_from_slice(text)
}

/// Appends why a trail ended.
fn push_why(ended: &Ended, out: &mut Vec<u8>) -> Result<(), AllocError>
    ensures { OnOk result (out.new.items ≡ out.old.items ++ end_text ended.now) }
{
    out.extend_from_slice(b" the session ended: ")?;
    out.extend_from_slice(ended.cause.word())
}

/// Appends the line of a trail's end: when it ended, and why.
pub fn push_end(ended: &Ended, out: &mut Vec<u8>) -> Result<(), AllocError>
    ensures { OnOk result (out.new.items ≡ out.old.items ++ end_line ended.now) }
{
    push_clock(ended.ms, out)?;
    push_why(ended, out)?;
    out.extend_from_slice(b"\n")
}
