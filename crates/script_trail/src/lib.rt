//! Plays a script, and writes the trail of its session to a file.
#![tactic(auto)]

ghost use Rattle.std.specs.Prelude.{◌≡◌};

mod recorder;

use crate::recorder::recorded;
use session::{SetupUnread, SimulatorArgs, path_of, setup_of, simulate, simulate_behind};
use std::alloc::{AllocError, Global};
use std::fs::{File, Files, OpenOptions};
use std::io::{self, Read, Write};
use std::os::unix::fs::OpenOptionsExt;
use thiserror::Error;

/// Why a script isn't played, or its trail isn't written.
#[derive(Debug, Drop, Error)]
enum ScriptFault<'a> {
    #[error("{0}")]
    Io(io::Error),
    #[error("{0}")]
    Setup(SetupUnread<'a>),
    #[error("trail {0}: {1} (set --trail to a new file)")]
    Trail(&'a str, io::Error),
}

impl From<AllocError> for ScriptFault<'_> {
    fn from(error: AllocError) -> Self {
        ScriptFault::Io(io::Error::from(error))
    }
}

impl From<io::Error> for ScriptFault<'_> {
    fn from(error: io::Error) -> Self {
        ScriptFault::Io(error)
    }
}

impl<'a> From<SetupUnread<'a>> for ScriptFault<'a> {
    fn from(error: SetupUnread<'a>) -> Self {
        ScriptFault::Setup(error)
    }
}

/// The arguments and the setup of a script, and the new file for its trail.
#[derive(Drop)]
struct Recording<'a> {
    alloc: Global,
    words: &'a [String],
    setup: Vec<u8>,
    file: File,
}

/// Reads the setup, and makes the file for the trail, which only its owner can read and write.
fn begin<'a, H: Files<File = File> + AllocGlobal>(
    rt: &H,
    words: &'a [String],
    path: &'a str,
) -> Result<Recording<'a>, ScriptFault<'a>> {
    let setup = setup_of(rt, words)?;
    let mut options = OpenOptions::new();
    match options
        .write(true)
        .create_new(true)
        .mode(0o600)
        .open(rt, path)
    {
        Ok(file) => Ok(Recording {
            alloc: rt.alloc(),
            words,
            setup,
            file,
        }),
        Err(error) => Err(ScriptFault::Trail(path, error)),
    }
}

impl Recording<'_> {
    /// Plays the script of the reader, and writes its trail. Returns the exit status.
    fn play<R: Read + Drop, W: Write, E: Write>(
        self,
        reader: R,
        writer: &mut W,
        errors: &mut E,
    ) -> io::Result<u8> {
        let Recording {
            alloc,
            words,
            setup,
            mut file,
        } = self;
        let mut reader = reader;
        let mut script = Vec::new(alloc);
        reader.read_to_end(&mut script)?;
        let asked = SimulatorArgs {
            words,
            setup: setup.as_slice(),
        };
        let status = simulate_behind(alloc, asked, script.as_slice(), writer, errors);
        if let Some(text) = recorded(alloc, words, &setup, &script)? {
            file.write_all(&text)?;
        }
        Ok(status)
    }
}

/// Writes what went wrong, and returns the exit status.
fn report<E: Write>(fault: &ScriptFault, errors: &mut E) -> u8
    ensures { result ≡ 1 }
{
    let _ = writeln!(errors, "muxsim: {fault}");
    1
}

/// Plays the script of the reader as `simulate` does. If the arguments name a file after `--trail`,
/// writes the trail of the session to that file, which must be new. Returns the exit status.
pub fn simulate_with_trail<H, R, W, E>(
    rt: &H,
    words: &[String],
    reader: R,
    writer: &mut W,
    errors: &mut E,
) -> u8
where
    H: Files<File = File> + AllocGlobal,
    R: Read + Drop,
    W: Write,
    E: Write,
{
    let path = match path_of(rt.alloc(), words, "trail") {
        Ok(Some(path)) => path,
        Ok(None) => return simulate(rt, words, reader, writer, errors),
        Err(error) => return report(&ScriptFault::from(error), errors),
    };
    let recording = match begin(rt, words, path) {
        Ok(recording) => recording,
        Err(fault) => return report(&fault, errors),
    };
    match recording.play(reader, writer, errors) {
        Ok(status) => status,
        Err(error) => report(&ScriptFault::from(error), errors),
    }
}
