//! Why a server doesn't serve, and what to do about it.

ghost use Rattle.server_outcome.specs.Faults.{IsOfSetup, IsOfTrail};

use program_words::{RefusedLine, SetupFault, SystemError};
use server_system::{SocketFault, UsersFileFault};
use server_trail::JournalFault;
use std::alloc::{AllocError, AllocFailed, Global};
use std::fmt::{Display, Formatter};
use std::io::{self, ErrorKind};
use std::{fmt, str};
use thiserror::Error;

/// A line of a setup that the session refused, by its number, and the text of the refusal.
#[derive(Debug, Drop)]
pub struct RefusedCommand {
    pub number: usize,
    pub line: Vec<u8>,
    pub said: Vec<u8>,
}

impl Display for RefusedCommand {
    fn fmt<W: fmt::Write>(&self, f: &mut Formatter<W>) -> fmt::Result {
        let refused = RefusedLine {
            number: self.number,
            line: str::from_utf8(&self.line).unwrap_or("?"),
            said: str::from_utf8(&self.said).unwrap_or("?"),
        };
        write!(f, "{refused}")
    }
}

/// What is wrong with a setup.
#[derive(Debug, Drop, Error)]
pub enum SetupCause {
    #[error("{0} (set --setup)")]
    NotRead(SystemError),
    /// A line of it can be no command.
    #[error("{0}")]
    Wrong(SetupFault),
    #[error("{0}")]
    Refused(RefusedCommand),
}

/// Why `muxd` doesn't serve, or ended.
#[derive(Debug, Drop, Error)]
pub enum ServeFault {
    #[error("{0}")]
    Users(#[from] UsersFileFault),
    #[error("{0}")]
    Socket(#[from] SocketFault),
    /// The setup at this path.
    #[error("setup {0}: {1}")]
    Setup(String, SetupCause),
    #[error("out of memory")]
    NoMemory,
    #[error("can't write to standard output: {0}")]
    Untold(SystemError),
    #[error("the system refused a loop: {0}")]
    Other(SystemError),
    #[error("the system refused a thread: raise TasksMax of the unit, or ulimit -u")]
    NoThread,
    #[error("the session's trail is full: start another session")]
    TrailFull,
    #[error("a loop failed: the session has ended")]
    Loop,
    #[error("the trail differs from what was answered: this is a fault of muxd")]
    Trail,
    /// The trail's file at this path.
    #[error("trail {0}: {1}")]
    Journal(String, JournalFault),
}

impl ServeFault {
    /// The setup at this path can't be given.
    pub fn of_setup(alloc: Global, path: &str, cause: SetupCause) -> ServeFault
        ensures { IsOfSetup path.now cause result }
    {
        match String::from_str(alloc, path) {
            Ok(path) => ServeFault::Setup(path, cause),
            Err(_) => ServeFault::NoMemory,
        }
    }

    /// The trail's file at this path has a fault.
    pub fn of_trail(alloc: Global, path: &str, fault: JournalFault) -> ServeFault
        ensures { IsOfTrail path.now fault result }
    {
        match String::from_str(alloc, path) {
            Ok(path) => ServeFault::Journal(path, fault),
            Err(_) => ServeFault::NoMemory,
        }
    }
}

impl From<io::Error> for ServeFault {
    fn from(error: io::Error) -> ServeFault {
        match error.kind() {
            ErrorKind::OutOfMemory => ServeFault::NoMemory,
            _ => ServeFault::Other(SystemError(error)),
        }
    }
}

impl From<AllocError> for ServeFault {
    fn from(_error: AllocError) -> ServeFault {
        ServeFault::NoMemory
    }
}

impl<T: Drop> From<AllocFailed<T>> for ServeFault {
    fn from(_error: AllocFailed<T>) -> ServeFault {
        ServeFault::NoMemory
    }
}
