//! Whether a server got ready, and how it ends. Only the line makes what shows that it has said that it is ready.

ghost use Rattle.std.specs.Prelude.{◌≡◌, IfOk, Ok, OnOk, codes, true};
ghost use Rattle.std.specs.Io.KnownBytes.{Appends};
ghost use Rattle.server_outcome.specs.Ending.{cause_of, outcome_of, served, why_unready};

use crate::fault::ServeFault;
use program_words::SystemError;
use server_seat::ServerEnd;
use server_system::{Host, PIECE, has_room};
use server_trail::Cause;
use std::fs::{File, OpenOptions};
use std::io::{self, ErrorKind, Write};
use std::os::fd::AsRawFd;
use std::rt::Stderr;

/// Shows that a server has said that it is ready.
#[derive(Clone, Copy)]
pub struct ReadySaid(());

impl ReadySaid {
    /// Writes that the server is ready.
    pub(crate) fn write<O: Write>(output: &mut O) -> io::Result<ReadySaid>
        ensures { OnOk result (Appends (O.contents output.old) (O.contents output.new) (codes "muxd: ready\n")) }
    {
        output.write_all(b"muxd: ready\n")?;
        output.flush()?;
        Ok(ReadySaid(()))
    }
}

/// Why a loop can't be started.
#[derive(Clone, Copy, Debug, PartialEq, Eq)]
pub enum Unready {
    NoThread,
    NoMemory,
}

/// The cause that the last line of the trail's file names; None if a fault leaves the file without one.
pub fn cause_of(end: Option<ServerEnd>) -> Option<Cause>
    ensures { result ≡ cause_of end }
{
    match end {
        Some(ServerEnd::Quit) => Some(Cause::Quit),
        Some(ServerEnd::TrailFull) => Some(Cause::Full),
        Some(ServerEnd::Fault) | None => None,
    }
}

/// How a server ended that served, from what came of its trail's file. `agrees` says whether every answer
/// stands in the trail.
pub fn outcome_of<T: Drop>(
    end: Option<ServerEnd>,
    trail: Result<T, ServeFault>,
    agrees: bool,
) -> Result<T, ServeFault>
    ensures outcome { result ≡ outcome_of end trail agrees }
    ensures well { IfOk result (λ kept. (agrees ≡ true) × (trail ≡ Ok kept)) }
{
    match (end, trail) {
        (Some(ServerEnd::Quit), trail) => {
            if agrees {
                trail
            } else {
                Err(ServeFault::Trail)
            }
        }
        (Some(ServerEnd::TrailFull), Err(wrong)) => Err(wrong),
        (Some(ServerEnd::TrailFull), Ok(_)) => Err(ServeFault::TrailFull),
        (Some(ServerEnd::Fault) | None, _) => Err(ServeFault::Loop),
    }
}

fn why_unready(missing: Option<Unready>) -> ServeFault
    ensures { result ≡ why_unready missing }
{
    match missing {
        Some(Unready::NoThread) => ServeFault::NoThread,
        Some(Unready::NoMemory) | None => ServeFault::NoMemory,
    }
}

/// What a server kept that served: it said before that it is ready.
pub fn served<T: Drop>(
    kept: Result<T, ServeFault>,
    said: Option<io::Result<()>>,
    missing: Option<Unready>,
) -> Result<T, ServeFault>
    ensures { result ≡ served kept said missing }
{
    match (kept, said) {
        (Err(fault), _) => Err(fault),
        (Ok(kept), Some(Ok(()))) => Ok(kept),
        (Ok(_), Some(Err(error))) => Err(ServeFault::Untold(SystemError(error))),
        (Ok(_), None) => Err(why_unready(missing)),
    }
}

// How many milliseconds a program's last line waits for its reader.
const PATIENCE: i32 = 5_000;

/// Standard error for a program's last line, which is given up if nobody reads it for five seconds.
#[derive(Clone, Copy)]
pub struct LastLine(pub Stderr);

impl Write for LastLine {
    fn write(&mut self, buf: &[u8]) -> io::Result<usize> {
        if !has_room(&self.0, PATIENCE) {
            return Err(io::Error::from(ErrorKind::TimedOut));
        }
        self.0.write(&buf[..buf.len().min(PIECE)])
    }

    fn flush(&mut self) -> io::Result<()> {
        self.0.flush()
    }
}

/// Opens /dev/null for each standard stream that is closed, so that no other file becomes one. It stays
/// one as long as the list is kept.
pub fn fill_closed<R: Host>(rt: &R) -> io::Result<Vec<File>> {
    let mut filled = Vec::new(rt.alloc());
    for _ in 0..3 {
        let file = OpenOptions::new()
            .read(true)
            .write(true)
            .open(rt, "/dev/null")?;
        if file.as_raw_fd() > 2 {
            break;
        }
        filled.push(file)?;
    }
    Ok(filled)
}
