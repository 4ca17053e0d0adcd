//! The simulator: plays a script of events over a session.

ghost use Rattle.std.specs.Prelude.{◌≡◌, ℕ, Bool, List, map};
ghost use Rattle.std.specs.String.{string_bytes};
ghost use Rattle.acl.specs.declared.leaders.Edition.{Edition as Groups};
ghost use Rattle.acl.specs.declared.user_id.UserId.{UserId as Owner};
ghost use Rattle.clap.specs.Words.{kind_of};
ghost use Rattle.session.specs.Words.{Asks, MayHave, Simulates};

use crate::player::{Fault, play};
use crate::setup_file::{Beginning, SetupUnread, Unbegun, setup_of};
use crate::words::{edition_of, owner_of, read_words};
use clap::error::ErrorKind;
use clap::{ArgMatches, Error};
use program_words::{RefusedLine, SetupFault, SetupLine, read_setup};
use std::alloc::Global;
use std::fs::Files;
use std::io::{Read, Write};
use std::str;

/// What the simulator is asked for.
#[derive(Clone, Copy, Debug)]
pub struct SimulatorArgs<'a> {
    /// The program's name and its arguments.
    pub words: &'a [String],
    /// The contents of the file that they name after `--setup`. Empty if they name none.
    pub setup: &'a [u8],
}

/// Plays the script of the reader, one event a line, and writes its effects and answers. First the
/// owner gives the commands of the file that the arguments name after `--setup`. Returns the exit
/// status: 0; 1 for a line that is no event, a setup that can't be read or has a refused line, or
/// another fault; 2 for invalid arguments, or if the owner isn't a valid name.
pub fn simulate<H, R, W, E>(
    rt: &H,
    words: &[String],
    reader: R,
    writer: &mut W,
    errors: &mut E,
) -> u8
where
    H: Files + AllocGlobal,
    R: Read + Drop,
    W: Write,
    E: Write,
    // If the arguments are valid, the whole script was played after the commands of the setup, or the
    // status is that of a fault.
    ensures { (groups : Groups) (name : Owner) (shows : Bool)
        → Asks (map string_bytes words.entry.now) groups name shows
        → (setup : List ℕ) × MayHave (map string_bytes words.entry.now) setup
        × Simulates groups name shows setup (R.remaining reader) result
        (W.contents writer.old) (W.contents writer.new) }
{
    match setup_of(rt, words) {
        Ok(setup) => {
            let asked = SimulatorArgs {
                words,
                setup: setup.as_slice(),
            };
            simulate_behind(rt.alloc(), asked, reader, writer, errors)
        }
        Err(fault) => report_unread(&fault, errors),
    }
}

/// Plays a script after the commands of a setup that has been read. Returns the exit status.
pub fn simulate_behind<R: Read + Drop, W: Write, E: Write>(
    alloc: Global,
    asked: SimulatorArgs,
    reader: R,
    writer: &mut W,
    errors: &mut E,
) -> u8
    // If the arguments are valid, the whole script was played, or the status is that of a fault.
    ensures { (groups : Groups) (name : Owner) (shows : Bool)
        → Asks (map string_bytes asked.entry.words.now) groups name shows
        → Simulates groups name shows asked.entry.setup.now (R.remaining reader) result
        (W.contents writer.old) (W.contents writer.new) }
{
    let matches = match read_words(alloc, asked.words) {
        Ok(matches) => matches,
        Err(error) => return tell(&error, writer, errors),
    };
    let Some(owner) = owner_of(&matches) else {
        return report_owner(&matches, errors);
    };
    let file = matches.get_str("setup").unwrap_or("");
    let setup = match read_setup(alloc, asked.setup) {
        Ok(setup) => setup,
        Err(fault) => return report_setup(file, &fault, errors),
    };
    let beginning = Beginning {
        edition: edition_of(&matches),
        owner,
        setup: &setup,
    };
    let session = match beginning.session(alloc) {
        Ok(session) => session,
        Err(fault) => return report_unbegun(file, &setup, &fault, errors),
    };
    let shows = matches.get_flag("show");
    match play(alloc, session, shows, reader, writer) {
        Ok(()) => 0,
        Err(fault) => report(&fault, errors),
    }
}

/// Writes that the owner isn't a valid name, and returns the exit status.
fn report_owner<E: Write>(matches: &ArgMatches, errors: &mut E) -> u8
    ensures { result ≡ 2 }
{
    let owner = matches.get_str("owner").unwrap_or("");
    let _ = writeln!(
        errors,
        "muxsim: invalid owner: {owner}: a name has 1 to 20 of a-z, 0-9 and _, and begins with a letter"
    );
    2
}

/// The text of the line of a setup that has this number.
fn line_of<'a>(setup: &[SetupLine<'a>], number: usize) -> &'a str {
    match setup.iter().find(|line| line.number == number) {
        Some(line) => line.text,
        None => "",
    }
}

/// Writes why a session doesn't begin, and returns the exit status.
fn report_unbegun<E: Write>(file: &str, setup: &[SetupLine], fault: &Unbegun, errors: &mut E) -> u8
    ensures { result ≡ 1 }
{
    let Unbegun::Refused(number, said) = fault else {
        return report(&Fault::NoMemory, errors);
    };
    let line = RefusedLine {
        number: *number,
        line: line_of(setup, *number),
        said: str::from_utf8(said).unwrap_or(""),
    };
    let _ = writeln!(errors, "muxsim: setup {file}: {line}");
    1
}

/// Writes why a setup can't be read, and returns the exit status.
fn report_unread<E: Write>(fault: &SetupUnread, errors: &mut E) -> u8
    ensures { result ≡ 1 }
{
    let _ = writeln!(errors, "muxsim: {fault}");
    1
}

/// Writes why a file is no setup, and returns the exit status.
fn report_setup<E: Write>(file: &str, fault: &SetupFault, errors: &mut E) -> u8
    ensures { result ≡ 1 }
{
    let _ = writeln!(errors, "muxsim: setup {file}: {fault}");
    1
}

/// Writes why a script ended early, and returns the exit status.
fn report<E: Write>(fault: &Fault, errors: &mut E) -> u8
    ensures { result ≡ 1 }
{
    let _ = writeln!(errors, "muxsim: {fault}");
    1
}

/// Writes the help, and returns 0; or writes what is wrong with the arguments, and returns 2, or 1 if
/// memory ran out.
fn tell<W: Write, E: Write>(error: &Error, writer: &mut W, errors: &mut E) -> u8
    ensures { kind_of error.now ≡ ErrorKind.OutOfMemory → result ≡ 1 }
{
    if let ErrorKind::OutOfMemory = error.kind() {
        return report(&Fault::NoMemory, errors);
    }
    if error.use_stderr() {
        let _ = write!(errors, "{error}");
        return 2;
    }
    match write!(writer, "{error}") {
        Ok(()) => 0,
        Err(_) => 1,
    }
}
