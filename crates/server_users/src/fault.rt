//! Why a user isn't let in, and why a users' file isn't read.

ghost use Rattle.std.specs.Prelude.{◌≡◌};
ghost use Rattle.server_users.specs.Stands.{number_of_auth, number_of_users};
ghost use Rattle.server_users.specs.declared.fault.UsersFault.TheVariants as users;

use std::alloc::AllocFailed;
use thiserror::Error;

/// Why a user isn't let in.
#[derive(Clone, Copy, Debug, PartialEq, Eq, Error)]
pub enum AuthFault {
    #[error("no user has this name")]
    BadUser,
    #[error("the token isn't this user's")]
    BadToken,
}

impl AuthFault {
    /// The fault's number: 1 BadUser, 2 BadToken.
    pub fn number(self) -> u8
        ensures { result ≡ number_of_auth self }
    {
        match self {
            AuthFault::BadUser => 1,
            AuthFault::BadToken => 2,
        }
    }
}

/// Why a users' file can't be used.
#[derive(Clone, Copy, Debug, PartialEq, Eq, Error)]
pub enum UsersFault {
    /// The number of the first line, counted from 1, that isn't a name, one blank and a token, or whose
    /// name is on an earlier line.
    #[error("line {0}: it must be a new name, one blank and 64 digits (0 to 9, a to f)")]
    BadLine(usize),
    #[error("out of memory")]
    NoMemory,
}

impl UsersFault {
    /// The fault's number: 1 BadLine, 2 NoMemory.
    pub fn number(self) -> u8
        ensures { result ≡ number_of_users self }
    {
        match self {
            UsersFault::BadLine(_) => 1,
            UsersFault::NoMemory => 2,
        }
    }
}

impl<T: Drop> From<AllocFailed<T>> for UsersFault {
    ghost from_gives = { λ _ e. e ≡ users.NoMemory };

    fn from(_error: AllocFailed<T>) -> UsersFault {
        UsersFault::NoMemory
    }
}
