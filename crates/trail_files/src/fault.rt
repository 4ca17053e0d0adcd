//! Why a file isn't read to its end, as the program tells it.

ghost use Rattle.std.specs.Prelude.{◌≡◌, IfSome, OnOk};
ghost use Rattle.std.specs.Io.KnownBytes.{Appends};
ghost use Rattle.trail_files.specs.Telling.{IsFaultTold, fault_text, place_text};
ghost use Rattle.trail_files.specs.declared.fault.TrailFault.TheVariants.{Io};

use client_words::put_visible;
use program_words::SystemError;
use std::alloc::Global;
use std::io::{self, ErrorKind, Write};
use std::str;

/// Why a file isn't read to its end.
#[derive(Clone, Copy)]
pub enum TrailFault {
    /// The file can't be opened.
    NotOpened(io::Error),
    /// Reading failed, or memory was refused.
    Io(io::Error),
    /// Standard output took no more.
    NotWritten(io::Error),
    /// This line isn't the first line of a trail.
    NoHeader(u64),
    /// This line isn't a line of a trail.
    NoLine(u64),
    /// `--at` names this place, and there are only this many entries.
    NoPlace(u64, u64),
    /// `--at` gives a time before the first entry.
    NoEntryYet,
    /// What the answer tells wasn't looked for.
    NotSought,
}

/// Writes why a file can't be opened. The text has no number if the error has a plain name.
fn write_unopened<W: Write>(error: io::Error, path: &str, output: &mut W) -> io::Result<()> {
    write!(output, "mux-trail: can't open the file: {path}: ")?;
    match error.kind() {
        ErrorKind::NotFound => writeln!(output, "no such file: give the path of a trail"),
        _ => writeln!(output, "{}", SystemError(error)),
    }
}

/// Writes that a place names no entry of this many.
fn write_no_place<W: Write>(place: u64, count: u64, path: &str, output: &mut W) -> io::Result<()>
    ensures { OnOk result (Appends (W.contents output.old) (W.contents output.new) (place_text place count path.now)) }
{
    match count {
        0 => writeln!(
            output,
            "mux-trail: --at names no entry: {place}: {path} has none yet: leave --at out"
        ),
        count => writeln!(
            output,
            "mux-trail: --at names no entry: {place}: {path} has {count}: give a place below {count}"
        ),
    }
}

impl TrailFault {
    /// Writes what happened, the path, and what to do. Control characters of the path are escaped.
    pub fn write<W: Write>(self, alloc: Global, path: &str, output: &mut W) -> io::Result<()>
        ensures { OnOk result (IsFaultTold self path.now (W.contents output.old) (W.contents output.new)) }
    {
        let mut visible = Vec::new(alloc);
        put_visible(path.as_bytes(), &mut visible)?;
        self.write_visible(str::from_utf8(visible.as_slice()).unwrap_or("?"), output)
    }

    /// Writes what happened, the path as it is, and what to do.
    fn write_visible<W: Write>(self, path: &str, output: &mut W) -> io::Result<()>
        ensures { OnOk result (IfSome (fault_text self path.now)
            (Appends (W.contents output.old) (W.contents output.new))) }
    {
        match self {
            TrailFault::NotOpened(error) => write_unopened(error, path, output),
            TrailFault::Io(error) => writeln!(
                output,
                "mux-trail: can't go on: {path}: {}",
                SystemError(error)
            ),
            TrailFault::NotWritten(error) => writeln!(
                output,
                "mux-trail: can't write to standard output: {}",
                SystemError(error)
            ),
            TrailFault::NoHeader(line) => writeln!(
                output,
                "mux-trail: line {line} isn't the first line of a trail: {path}: give a file that muxd --trail wrote"
            ),
            TrailFault::NoLine(line) => writeln!(
                output,
                "mux-trail: line {line} isn't a line of a trail: {path}: mux-trail check says more"
            ),
            TrailFault::NoPlace(place, count) => write_no_place(place, count, path, output),
            TrailFault::NoEntryYet => writeln!(
                output,
                "mux-trail: --at is before the first entry: {path}: give a later time"
            ),
            TrailFault::NotSought => writeln!(
                output,
                "mux-trail: what the answer tells wasn't looked for: {path}: this is a fault of mux-trail"
            ),
        }
    }
}

impl From<io::Error> for TrailFault {
    ghost from_gives = { λ error fault. fault ≡ Io error };

    fn from(error: io::Error) -> TrailFault {
        Self::Io(error)
    }
}
