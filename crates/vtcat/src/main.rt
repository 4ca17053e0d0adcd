//! `vtcat --rows N --cols N [--keep N]`: prints the page of a VT220 that has read standard input.
#![tactic(auto)]

use cells::{Cell, GridFault, Marks, Shape};
use clap::ArgMatches;
use emulator::{Emulator, MovedPage};
use program_words::{given, not_given, of_cat};
use std::alloc::{AllocError, AllocFailed, Global};
use std::io::{self, BufWriter, Read, Write};
use std::process::ExitCode;

/// The number of bytes that are read at once.
const CHUNK: usize = 65_536;

/// Why no page was printed.
#[derive(Clone, Copy)]
enum CatFault {
    /// The lines, the columns and the kept lines that were asked for.
    BadSize(usize, usize, usize),
    NoMemory,
    /// Standard input can't be read.
    Input(io::Error),
    /// Standard output can't be written.
    Output(io::Error),
}

impl From<AllocError> for CatFault {
    fn from(_e: AllocError) -> CatFault {
        CatFault::NoMemory
    }
}

impl<T: Drop> From<AllocFailed<T>> for CatFault {
    fn from(_e: AllocFailed<T>) -> CatFault {
        CatFault::NoMemory
    }
}

// What happened, to what, and what to do about it.
fn write_fault<E: Write>(fault: CatFault, errors: &mut E) -> io::Result<()> {
    match fault {
        CatFault::BadSize(rows, columns, keep) => writeln!(
            errors,
            "vtcat: bad size: --rows {rows} --cols {columns} --keep {keep} (set 2 to 200, 2 to 300, 0 to 2000)",
        ),
        CatFault::NoMemory => writeln!(
            errors,
            "vtcat: out of memory: the page (set fewer rows, columns or kept lines)",
        ),
        CatFault::Input(error) => writeln!(errors, "vtcat: can't read standard input: {error}"),
        CatFault::Output(error) => writeln!(
            errors,
            "vtcat: can't write to standard output: {error}"
        ),
    }
}

fn number(found: &ArgMatches, name: &str) -> usize {
    found.get_one::<u16>(name).map_or(0, usize::from)
}

/// Feeds all bytes to the emulator; its reports are dropped.
fn read_all<R: Read + Drop>(
    alloc: Global,
    mut reader: R,
    emulator: &mut Emulator,
) -> Result<(), CatFault> {
    let mut buffer = vec![in alloc; 0; CHUNK]?;
    let mut reports = Vec::new(alloc);
    for _ in 0..u64::MAX {
        let count = match reader.read(buffer.as_mut_slice()) {
            Ok(count) => count,
            Err(error) => return Err(CatFault::Input(error)),
        };
        if count == 0 {
            return Ok(());
        }
        if emulator.feed_all(&buffer[..count], &mut reports).is_err() {
            return Err(CatFault::NoMemory);
        }
        reports.clear();
    }
    Ok(())
}

fn write_cell<W: Write>(cell: &Cell, writer: &mut W) -> io::Result<()> {
    if let Shape::Right = cell.shape {
        return Ok(());
    }
    write!(writer, "{}", cell.character)?;
    match cell.marks() {
        Marks::Bare => Ok(()),
        Marks::One(mark) => write!(writer, "{mark}"),
        Marks::Two(first, second) => write!(writer, "{first}{second}"),
    }
}

fn write_page<W: Write>(page: MovedPage<'_>, writer: &mut W) -> io::Result<()> {
    for line in 0..page.rows() {
        writer.write_all(b"|")?;
        for cell in page.line(line) {
            write_cell(cell, writer)?;
        }
        writer.write_all(b"|\n")?;
    }
    Ok(())
}

// The page, a line each, and the cursor, counted from 1.
fn write_screen<W: Write>(alloc: Global, emulator: &Emulator, writer: &mut W) -> io::Result<()> {
    let mut writer = BufWriter::new(alloc, writer)?;
    write_page(emulator.page(0), &mut writer)?;
    let (line, column) = emulator.cursor();
    let line = line.saturating_add(1);
    let column = column.saturating_add(1);
    writeln!(writer, "cursor {line} {column}")?;
    writer.flush()
}

fn show<R: Read + Drop, W: Write>(
    alloc: Global,
    found: &ArgMatches,
    reader: R,
    writer: &mut W,
) -> Result<(), CatFault> {
    let rows = number(found, "rows");
    let columns = number(found, "cols");
    let keep = number(found, "keep");
    let mut emulator = match Emulator::new(alloc, rows, columns, keep) {
        Ok(emulator) => emulator,
        Err(GridFault::BadSize) => return Err(CatFault::BadSize(rows, columns, keep)),
        Err(GridFault::NoMemory) => return Err(CatFault::NoMemory),
    };
    read_all(alloc, reader, &mut emulator)?;
    match write_screen(alloc, &emulator, writer) {
        Ok(()) => Ok(()),
        Err(error) => Err(CatFault::Output(error)),
    }
}

/// Parses `words`, of which the first is the program's name, feeds all bytes of `reader` to a VT220
/// of the size that they set, and prints its page, each line between two `|`, and then `cursor L C`,
/// counted from 1. Returns the exit status: 0; 1 for a bad size, a failed read or write, or no
/// memory, with a message in `errors`; 2 for invalid arguments.
fn cat<R: Read + Drop, W: Write, E: Write>(
    alloc: Global,
    words: &[String],
    reader: R,
    writer: &mut W,
    errors: &mut E,
) -> u8 {
    let found = match of_cat(alloc, words) {
        Ok(found) => found,
        Err(error) if error.use_stderr() => {
            let _ = write!(errors, "{error}");
            return 2;
        }
        Err(error) => {
            let _ = write!(writer, "{error}");
            return 0;
        }
    };
    match show(alloc, &found, reader, writer) {
        Ok(()) => 0,
        Err(fault) => {
            let _ = write_fault(fault, errors);
            1
        }
    }
}

fn main(rt: HostRuntime) -> ExitCode {
    let words = match given(&rt, "vtcat") {
        Ok(words) => words,
        Err(error) => return ExitCode::from(not_given("vtcat", &error, &mut rt.stderr())),
    };
    let status = cat(
        rt.alloc(),
        words.as_slice(),
        rt.reader(),
        &mut io::writer(&rt),
        &mut rt.stderr(),
    );
    ExitCode::from(status)
}
