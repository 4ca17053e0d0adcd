//! Why `mux-web` doesn't serve.

ghost use Rattle.std.specs.Prelude.{◌≡◌};
ghost use Rattle.web_options.specs.Asking.{status_of};
ghost use Rattle.web_options.specs.declared.fault.WebFault.TheVariants as fault;

use program_words::SystemError;
use std::alloc::{AllocError, AllocFailed};
use std::io;
use std::net::SocketAddr;
use thiserror::Error;

/// Why `mux-web` doesn't serve, or ended.
#[derive(Debug, Drop, Error)]
pub enum WebFault {
    /// The file at this path.
    #[error("can't read the page's file {0}: {1} (set --page)")]
    NoPage(String, SystemError),
    /// The file at this path.
    #[error("can't read token file {0}: {1} (set --watch-token)")]
    NoFile(String, SystemError),
    /// The file at this path.
    #[error("no token in {0}: it needs 64 digits, 0 to 9 and a to f")]
    NoToken(String),
    #[error("--watch and --watch-token go together")]
    Alone,
    #[error("--window needs --watch: it is the window that watchers see")]
    NobodyWatches,
    /// The value of `--watch`.
    #[error("invalid user name: {0}: --watch takes 1 to 20 of a-z, 0-9 and _, first a letter")]
    NoName(String),
    /// The value of `--socket`.
    #[error("no socket: {0}: give the --socket of muxd")]
    NoSocket(String),
    /// The value of `--listen`.
    #[error("can't listen on {0}: give 127.0.0.1 or [::1] with a port, such as 127.0.0.1:8090, or a path")]
    NotLocal(String),
    /// A value of `--origin`.
    #[error("invalid --origin: {0}: give the page's address without a path, such as https://mux.example.org")]
    NotOrigin(String),
    #[error("--listen with a path needs --origin: the address of the page, such as https://mux.example.org")]
    NoOrigin,
    /// The value of `--listen`.
    #[error("can't listen on {0}: {1}: choose another port")]
    NotMade(String, SystemError),
    /// The address of this machine at which browsers look for `localhost`, too.
    #[error("can't listen on {0}: {1}: browsers may look there for localhost, so choose another port")]
    Shared(SocketAddr, SystemError),
    /// Why the socket can't be listened on, in words.
    #[error("{0}")]
    Socket(String),
    #[error("the system refused to wait: {0}")]
    Other(SystemError),
    #[error("out of memory")]
    NoMemory,
}

impl WebFault {
    /// The status to exit with.
    pub fn status(&self) -> u8
        ensures { result ≡ status_of self.now }
    {
        match self {
            WebFault::Alone
            | WebFault::NobodyWatches
            | WebFault::NoName(_)
            | WebFault::NotLocal(_)
            | WebFault::NotOrigin(_)
            | WebFault::NoOrigin => 2,
            _ => 1,
        }
    }
}

impl From<AllocError> for WebFault {
    ghost from_gives = { λ _ e. e ≡ fault.NoMemory };

    fn from(_error: AllocError) -> WebFault {
        WebFault::NoMemory
    }
}

impl<T: Drop> From<AllocFailed<T>> for WebFault {
    ghost from_gives = { λ _ e. e ≡ fault.NoMemory };

    fn from(_error: AllocFailed<T>) -> WebFault {
        WebFault::NoMemory
    }
}

impl From<io::Error> for WebFault {
    fn from(error: io::Error) -> WebFault {
        WebFault::Other(SystemError(error))
    }
}
