//! What the program prints of a file that it has read, and the status to exit with.

ghost use Rattle.std.specs.Prelude.{◌≡◌, ◌++◌, Some, IfOk, OnOk};
ghost use Rattle.std.specs.Io.KnownBytes.{Appends};
ghost use Rattle.trail_files.specs.Finishing.{IsJudged, status_of};
ghost use Rattle.trail_files.specs.Telling.{IsTold, audit_text, back_text, ended_text, finish_text, heading_text};
ghost use Rattle.trail_files.specs.Telling.{note_text, owner_text, stopped_text, wrong_text};

use crate::check::{Finish, check_lines};
use crate::heading::Heading;
use acl::{Edition, UserId};
use line_fields::push_when;
use std::alloc::{AllocError, Global};
use std::io::{self, BufRead, Write};
use trail_lines::{Audit, Ended, Wrong};

/// The file is legal and whole.
pub const LEGAL: u8 = 0;

/// The file isn't legal, or isn't a trail's file.
pub const ILLEGAL: u8 = 1;

/// The arguments are invalid, or the file can't be read.
pub const TROUBLE: u8 = 2;

/// The entries are legal, and the file has no last line.
const UNENDED: u8 = 3;

/// The users aren't confined for at least one bit on windows to come.
pub const UNCONFINED: u8 = 4;

/// What is wrong with an entry's line.
fn wrong_text(wrong: Wrong) -> &'static [u8]
    ensures { result.now ≡ wrong_text wrong }
{
    match wrong {
        Wrong::NoEntry => b"no entry is spelled so",
        Wrong::OtherPlace => b"another entry's place stands there",
        Wrong::Illegal => b"the entry isn't legal",
        Wrong::NoMemory => b"out of memory",
    }
}

/// Appends that no session of the owner has this trail, if an entry isn't legal.
fn push_owner(wrong: Wrong, owner: UserId, out: &mut Vec<u8>) -> Result<(), AllocError>
    ensures { OnOk result (out.new.items ≡ out.old.items ++ owner_text wrong owner) }
{
    match wrong {
        Wrong::Illegal => {
            out.extend_from_slice(b"; no session of ")?;
            out.extend_from_slice(owner.as_bytes())?;
            out.extend_from_slice(b" has this trail")
        }
        _ => Ok(()),
    }
}

/// Appends what is wrong with an entry's line.
fn push_stopped(line: u64, wrong: Wrong, owner: UserId, out: &mut Vec<u8>) -> io::Result<()>
    ensures { OnOk result (out.new.items ≡ out.old.items ++ stopped_text line wrong owner) }
{
    // The first line isn't an entry's, and places begin with 0.
    let place = line.saturating_sub(2);
    write!(out, "bad: line {line}, entry {place}: ")?;
    out.extend_from_slice(wrong_text(wrong))?;
    push_owner(wrong, owner, out)?;
    Ok(out.extend_from_slice(b"\n")?)
}

/// Appends when a trail ended, and why.
fn push_ended(ended: Ended, out: &mut Vec<u8>) -> Result<(), AllocError>
    ensures { OnOk result (out.new.items ≡ out.old.items ++ ended_text ended) }
{
    out.extend_from_slice(b"whole: it ended (")?;
    out.extend_from_slice(ended.cause.word())?;
    out.extend_from_slice(b")")?;
    push_when(b" at ", ended.ms, out)
}

/// The status that says how a file ends; None if memory was refused.
fn status_of(finish: Finish) -> Option<u8>
    ensures { result ≡ status_of finish }
{
    match finish {
        Finish::Ended { .. } => Some(LEGAL),
        Finish::Open => Some(UNENDED),
        Finish::Torn => Some(UNENDED),
        Finish::Miscounted { .. } => Some(ILLEGAL),
        Finish::Continued { .. } => Some(ILLEGAL),
        Finish::Stopped { wrong, .. } => match wrong {
            Wrong::NoEntry => Some(ILLEGAL),
            Wrong::OtherPlace => Some(ILLEGAL),
            Wrong::Illegal => Some(ILLEGAL),
            Wrong::NoMemory => None,
        },
    }
}

/// Appends how a file ends.
fn push_finish(finish: Finish, count: u64, owner: UserId, out: &mut Vec<u8>) -> io::Result<()>
    ensures { OnOk result (out.new.items ≡ out.old.items ++ finish_text finish count owner) }
{
    match finish {
        Finish::Stopped { line, wrong } => push_stopped(line, wrong, owner, out),
        Finish::Ended { ended } => {
            write!(out, "legal: {count} entries\n")?;
            push_ended(ended, out)?;
            Ok(out.extend_from_slice(b"\n")?)
        }
        Finish::Miscounted { line } => write!(
            out,
            "bad: line {line}: the last line doesn't end {count} entries\n"
        ),
        Finish::Continued { line } => write!(
            out,
            "bad: after line {line}: there is more after the last line\n"
        ),
        Finish::Torn => write!(
            out,
            "legal: {count} entries\ntorn: its last line isn't whole\n"
        ),
        Finish::Open => write!(
            out,
            "legal: {count} entries\nnot ended: it has no last line\n"
        ),
    }
}

/// Writes how a file ends, and gives the status to exit with.
pub fn tell_finish<W: Write>(
    alloc: Global,
    finish: Finish,
    count: u64,
    owner: UserId,
    output: &mut W,
) -> io::Result<u8>
    ensures status { IfOk result (λ status. status_of finish ≡ Some status) }
    ensures text { OnOk result (Appends (W.contents output.old) (W.contents output.new)
        (finish_text finish count owner)) }
{
    let Some(status) = status_of(finish) else {
        return Err(io::Error::from(AllocError));
    };
    let mut text = Vec::new(alloc);
    push_finish(finish, count, owner, &mut text)?;
    output.write_all(text.as_slice())?;
    Ok(status)
}

/// Appends that the time of an entry runs backwards, if one does. Nothing is wrong with that: the clock may
/// have been set back.
fn push_back(back: Option<u64>, out: &mut Vec<u8>) -> io::Result<()>
    ensures { OnOk result (out.new.items ≡ out.old.items ++ back_text back) }
{
    match back {
        Some(place) => writeln!(
            out,
            "note: line {}, entry {place}: its time is more than a second before the entry above",
            place.saturating_add(2)
        ),
        None => Ok(()),
    }
}

/// Appends that the time of an entry runs backwards, if one does, and if nothing is wrong in the file.
fn push_note(finish: Finish, back: Option<u64>, out: &mut Vec<u8>) -> io::Result<()>
    ensures { OnOk result (out.new.items ≡ out.old.items ++ note_text finish back) }
{
    if finish.is_bad() {
        return Ok(());
    }
    push_back(back, out)
}

/// Appends what the first line says.
fn push_heading(heading: Heading, out: &mut Vec<u8>) -> Result<(), AllocError>
    ensures { OnOk result (out.new.items ≡ out.old.items ++ heading_text heading) }
{
    out.extend_from_slice(b"owner ")?;
    out.extend_from_slice(heading.owner.as_bytes())?;
    push_when(b", begun at ", heading.ms, out)?;
    out.extend_from_slice(b"\n")
}

/// Writes what the first line says.
pub fn tell_heading<W: Write>(alloc: Global, heading: Heading, output: &mut W) -> io::Result<()>
    ensures { OnOk result (Appends (W.contents output.old) (W.contents output.new) (heading_text heading)) }
{
    let mut text = Vec::new(alloc);
    push_heading(heading, &mut text)?;
    output.write_all(text.as_slice())
}

/// How a file ends whose entries this audit has read, and that a time runs backwards.
fn audit_text(alloc: Global, finish: Finish, audit: &Audit, owner: UserId) -> io::Result<Vec<u8>>
    ensures { IfOk result (λ text. text.items ≡ audit_text finish audit.now owner) }
{
    let mut text = Vec::new(alloc);
    push_finish(finish, audit.count(), owner, &mut text)?;
    push_note(finish, audit.times().back(), &mut text)?;
    Ok(text)
}

/// Judges the entries of a reader, from the file's line 2 on, writes how the file ends, and gives the status to exit
/// with.
pub fn judge<R: BufRead, W: Write>(
    alloc: Global,
    edition: Edition,
    owner: UserId,
    reader: &mut R,
    output: &mut W,
) -> io::Result<u8>
    ensures judged { IfOk result (λ status. IsJudged status edition owner (R.remaining reader.old)) }
    ensures told { IfOk result (λ status. IsTold status edition owner (R.remaining reader.old)
        (W.contents output.old) (W.contents output.new)) }
{
    let mut audit = Audit::new(alloc, edition, owner)?;
    let finish = check_lines(alloc, &mut audit, reader)?;
    let Some(judged) = status_of(finish) else {
        return Err(io::Error::from(AllocError));
    };
    let text = audit_text(alloc, finish, &audit, owner)?;
    output.write_all(text.as_slice())?;
    Ok(judged)
}
