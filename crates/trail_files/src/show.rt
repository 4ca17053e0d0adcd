//! A trail's lines, with times that are read.

ghost use Rattle.std.specs.Prelude.{◌≡◌, ◌++◌, IfOk, IfSome, OnOk};
ghost use Rattle.std.specs.Io.KnownBytes.{Appends};
ghost use Rattle.line_fields.specs.Meaning.{in_parentheses};
ghost use Rattle.trail_files.specs.Showing.{Shows, ShowsFrom, json_text, kind_in, kind_of, plain_entry, plain_text};
ghost use Rattle.trail_files.specs.Showing.{shown_of, shown_text, shown_time, text_of, told_text};
ghost use Rattle.trail_lines.specs.Lines.{OfKnown};

use crate::json::{push_end, push_entry};
use crate::words::{behind_words, means_of};
use line_fields::push_when;
use std::alloc::{AllocError, Global};
use std::io::{self, BufRead, Write};
use trail_lines::{Ended, EntryLine, NextLine, UnreadLine, next_line, read_end, read_line};

/// A line after the first one.
#[derive(Drop)]
enum ShownLine {
    Entry(EntryLine),
    End(Ended),
    /// A line that isn't a line of a trail.
    Nothing,
}

/// What a line after the first one is.
#[derive(Clone, Copy)]
enum LineKind {
    Entry,
    /// The last line.
    Last,
    /// No line of a trail.
    Stray,
}

impl ShownLine {
    fn kind(&self) -> LineKind
        ensures { result ≡ kind_in self.now }
    {
        match self {
            ShownLine::Entry(_) => LineKind::Entry,
            ShownLine::End(_) => LineKind::Last,
            ShownLine::Nothing => LineKind::Stray,
        }
    }
}

/// What a line is.
fn read_told(alloc: Global, text: &[u8]) -> Result<ShownLine, AllocError>
    ensures { IfOk result (λ told. told ≡ shown_of text.now) }
{
    match read_line(alloc, text) {
        Ok(line) => return Ok(ShownLine::Entry(line)),
        Err(UnreadLine::NoMemory) => return Err(AllocError),
        Err(UnreadLine::Malformed) => {}
    }
    match read_end(alloc, text) {
        Ok(ended) => Ok(ShownLine::End(ended)),
        Err(UnreadLine::NoMemory) => Err(AllocError),
        Err(UnreadLine::Malformed) => Ok(ShownLine::Nothing),
    }
}

/// How lines are shown.
#[derive(Clone, Copy)]
pub enum LineFormat {
    /// As the file has them, but with times in the form of RFC 3339.
    Plain,
    /// As objects of JSON.
    Json,
}

/// Appends a time in the form of RFC 3339, or its milliseconds since 1970 if its year has more than four digits.
fn push_time(ms: u64, out: &mut Vec<u8>) -> io::Result<()>
    ensures { OnOk result (out.new.items ≡ out.old.items ++ shown_time ms) }
{
    let mut time = Vec::new(*out.allocator());
    push_when(&[], ms, &mut time)?;
    match time.as_slice() {
        [] => write!(out, "{ms}"),
        text => Ok(out.extend_from_slice(text)?),
    }
}

/// Appends what the number of a refusal means in parentheses after a blank, if it has one.
fn push_means(means: &[u8], out: &mut Vec<u8>) -> Result<(), AllocError>
    ensures { OnOk result (out.new.items ≡ out.old.items ++ in_parentheses means.now) }
{
    match means {
        [] => Ok(()),
        [_, ..] => {
            out.extend_from_slice(b" (")?;
            out.extend_from_slice(means)?;
            out.extend_from_slice(b")")
        }
    }
}

/// Appends an entry as its line has it, but with its time in the form of RFC 3339. What the number of its
/// refusal means is at the end.
fn push_plain_entry(line: &EntryLine, text: &[u8], out: &mut Vec<u8>) -> io::Result<()>
    ensures { OnOk result (out.new.items ≡ out.old.items ++ plain_entry line.now text.now) }
{
    let means = means_of(*out.allocator(), &line.entry)?;
    write!(out, "{} ", line.place)?;
    push_time(line.ms, out)?;
    out.extend_from_slice(b" ")?;
    out.extend_from_slice(behind_words(text, 2))?;
    push_means(means.as_slice(), out)?;
    Ok(out.extend_from_slice(b"\n")?)
}

/// Appends a line, by what it is, as the file has it.
fn push_plain(told: &ShownLine, text: &[u8], out: &mut Vec<u8>) -> io::Result<()>
    ensures { OnOk result (out.new.items ≡ out.old.items ++ plain_text told.now text.now) }
{
    match told {
        ShownLine::Entry(line) => push_plain_entry(line, text, out),
        ShownLine::End(_) => {
            out.extend_from_slice(text)?;
            Ok(out.extend_from_slice(b"\n")?)
        }
        ShownLine::Nothing => Ok(()),
    }
}

/// Appends a line, by what it is, as an object of JSON.
fn push_json(told: &ShownLine, text: &[u8], out: &mut Vec<u8>) -> io::Result<()>
    ensures { OnOk result (out.new.items ≡ out.old.items ++ json_text told.now text.now) }
{
    match told {
        ShownLine::Entry(line) => push_entry(line, text, out),
        ShownLine::End(ended) => push_end(*ended, out),
        ShownLine::Nothing => Ok(()),
    }
}

/// Appends a line, by what it is. Appends nothing if it isn't a line of a trail.
fn push_told(form: LineFormat, told: &ShownLine, text: &[u8], out: &mut Vec<u8>) -> io::Result<()>
    ensures { OnOk result (out.new.items ≡ out.old.items ++ told_text form told.now text.now) }
{
    match form {
        LineFormat::Plain => push_plain(told, text, out),
        LineFormat::Json => push_json(told, text, out),
    }
}

/// Writes a line at once, and says what it is.
fn show_text<W: Write>(
    alloc: Global,
    form: LineFormat,
    text: &[u8],
    output: &mut W,
) -> io::Result<LineKind>
    ensures { IfOk result (λ kind. (kind ≡ kind_of text.now)
        × Appends (W.contents output.old) (W.contents output.new) (text_of form text.now)) }
{
    let told = read_told(alloc, text)?;
    let mut shown = Vec::new(alloc);
    push_told(form, &told, text, &mut shown)?;
    output.write_all(shown.as_slice())?;
    output.flush()?;
    Ok(told.kind())
}

/// Writes the line that comes next, and says what it is. The lines also end at bytes that are no whole line.
fn show_next<R: BufRead, W: Write>(
    alloc: Global,
    form: LineFormat,
    reader: &mut R,
    text: &mut Vec<u8>,
    output: &mut W,
) -> io::Result<LineKind>
    ensures { IfOk result (λ kind. OfKnown (R.remaining reader.old) (R.remaining reader.new)
        (Shows form (W.contents output.old) (W.contents output.new) kind)) }
{
    match next_line(reader, text)? {
        NextLine::Whole => show_text(alloc, form, text.as_slice(), output),
        NextLine::Torn | NextLine::Nothing => Ok(LineKind::Last),
    }
}

/// Writes the lines of a reader after the first one, each as soon as it is read, up to the last one. The
/// answer is the number of the first line that isn't a line of a trail, if there is one.
pub fn show_lines<R: BufRead, W: Write>(
    alloc: Global,
    form: LineFormat,
    reader: &mut R,
    output: &mut W,
) -> io::Result<Option<u64>>
    ensures stops { IfOk result (λ stopped. IfSome (R.remaining reader.old) (ShowsFrom 2 stopped)) }
    ensures text { OnOk result (IfSome (R.remaining reader.old)
        (λ bytes. Appends (W.contents output.old) (W.contents output.new) (shown_text form bytes))) }
{
    let mut text = Vec::new(alloc);
    'lines: for number in 2..u64::MAX {
        match show_next(alloc, form, reader, &mut text, output)? {
            LineKind::Entry => {}
            LineKind::Last => return Ok(None),
            LineKind::Stray => return Ok(Some(number)),
        }
    }
    // No file has 2^64 lines.
    Err(io::Error::from(AllocError))
}
