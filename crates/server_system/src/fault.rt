//! What can be wrong with a socket or with a users' file, and what to do about it.

ghost use Rattle.std.specs.Prelude.{◌≡◌};
ghost use Rattle.server_system.specs.declared.fault.SocketCause.TheVariants as cause;
ghost use Rattle.server_system.specs.declared.fault.UsersFileFault.TheVariants as fault;

use crate::folders::OpenFolder;
use program_words::SystemError;
use server_users::UsersFault;
use std::alloc::AllocError;
use std::io;
use thiserror::Error;

/// What is wrong with a socket on which a server is to listen.
#[derive(Debug, Drop, Error)]
pub enum SocketCause {
    #[error("a server listens there: end it with the command quit, or choose another path")]
    Taken,
    #[error("a file that is no socket is there: choose another path")]
    NoSocket,
    /// What stands at this path, beside the socket.
    #[error("{0} is no plain file: remove it, or choose another path")]
    NoLock(String),
    #[error("the path is empty")]
    NoPath,
    #[error("the path is too long: choose one of at most 107 bytes")]
    LongPath,
    #[error("{0}")]
    Folder(OpenFolder),
    #[error("can't make it: {0} (make its folder, see the folder's modes, or choose another path)")]
    NotMade(SystemError),
    #[error("out of memory")]
    NoMemory,
}

impl From<io::Error> for SocketCause {
    ghost from_gives = { λ error why. why ≡ cause.NotMade (record { 0 = error }) };

    fn from(error: io::Error) -> SocketCause {
        SocketCause::NotMade(SystemError(error))
    }
}

/// Why a server can't listen on the socket at a path.
#[derive(Debug, Drop, Error)]
pub enum SocketFault {
    #[error("socket {0}: {1}")]
    At(String, SocketCause),
    #[error("out of memory")]
    NoMemory,
}

/// Why the users' file at a path isn't read.
#[derive(Debug, Drop, Error)]
pub enum UsersFileFault {
    #[error("can't read users' file {0}: {1} (set --users)")]
    NoFile(String, SystemError),
    #[error("others may write the users' file: chmod go-w {0}")]
    Writable(String),
    /// It belongs to another account than this one, which runs the server.
    #[error("users' file {0} belongs to another account: chown {1} {0}")]
    Foreign(String, u32),
    #[error("users' file {0}: {1}")]
    Folder(String, OpenFolder),
    #[error("users' file {0} is no plain file: set --users")]
    NotPlain(String),
    #[error("users' file {0} has more than 1,048,576 bytes: remove lines, or set --users")]
    TooLarge(String),
    #[error("users' file {0}, {1}")]
    Users(String, UsersFault),
    #[error("out of memory")]
    NoMemory,
}

impl From<AllocError> for UsersFileFault {
    ghost from_gives = { λ _ why. why ≡ fault.NoMemory };

    fn from(_error: AllocError) -> UsersFileFault {
        UsersFileFault::NoMemory
    }
}
