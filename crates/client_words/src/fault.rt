//! What can go wrong for a peer, and how to say it.

ghost use Rattle.std.specs.Prelude.{◌≡◌};
ghost use Rattle.client_words.specs.Ending.{fault_of, status_of, status_after};
ghost use Rattle.client_words.specs.declared.fault.PeerFault.TheVariants as fault;
ghost use Rattle.client_words.specs.declared.fault.RefusedPart.TheVariants as part;

use crate::arguments::Arguments;
use attach_proto::{Why, WriteFault};
use program_words::SystemError;
use std::alloc::{AllocError, AllocFailed};
use std::{fmt, io};

/// Why `mux` failed.
#[derive(Clone, Copy)]
pub enum PeerFault {
    /// No frame is long enough for the arguments.
    TooLong,
    NoToken,
    /// Other users can write the token's file.
    Writable,
    NoServer,
    NoServerOfOurs,
    /// The server sent bytes for the terminal that no draw has.
    NoDraw,
    /// The server didn't answer in time.
    NoAnswer,
    /// Another session is at the socket now.
    OtherSession,
    Ended,
    Gone(Why),
    NoMemory,
    Refused(RefusedPart, io::Error),
}

/// What the system refused.
#[derive(Clone, Copy)]
pub enum RefusedPart {
    /// To read the token's file.
    Token,
    /// To open the sizes' file.
    Sizes,
    /// To connect to the server.
    Socket,
    /// To read standard input.
    Input,
    /// To write standard output.
    Output,
    /// To read from the server, or to write to it.
    Stream,
    Other,
}

impl RefusedPart {
    // What could not be done, with the path that it was done to.
    fn write<W: fmt::Write>(
        self,
        arguments: &Arguments<'_>,
        f: &mut fmt::Formatter<W>,
    ) -> fmt::Result {
        match self {
            RefusedPart::Token => write!(f, "can't read token file {}: ", arguments.token),
            RefusedPart::Sizes => write!(
                f,
                "can't open sizes file {}: ",
                arguments.sizes.unwrap_or("")
            ),
            RefusedPart::Socket => write!(f, "can't connect to {}: ", arguments.socket),
            RefusedPart::Input => f.write_str("can't read standard input: "),
            RefusedPart::Output => f.write_str("can't write to standard output: "),
            RefusedPart::Stream => write!(f, "lost the server at {}: ", arguments.socket),
            RefusedPart::Other => write!(f, "{}: ", arguments.place()),
        }
    }

    // What to do about it.
    fn advice(self) -> &'static str {
        match self {
            RefusedPart::Token => " (set --token or MUX_TOKEN)",
            RefusedPart::Sizes => " (set --sizes)",
            RefusedPart::Socket => " (see the modes of the socket and its folder)",
            RefusedPart::Input | RefusedPart::Output | RefusedPart::Stream | RefusedPart::Other =>
                "",
        }
    }
}

/// Why the server let a peer go.
pub fn gone(why: Why) -> &'static str {
    match why {
        Why::Detached => "detached",
        Why::Removed => "this user was removed from the session (acldel)",
        Why::SingleUser => "the session is single-user now (multiuser off)",
        Why::Killed => "the window was killed",
        Why::Quit => "the session has ended",
        Why::TooFarBehind => "too far behind: the server's output wasn't read in time",
        Why::Fault => "the server found a fault or ran out of memory",
        Why::TrailFull => "the session's trail is full",
    }
}

impl PeerFault {
    /// The exit status: 2 if the arguments are at fault, otherwise 1.
    pub fn status(self) -> u8
        ensures { result ≡ status_of self }
    {
        match self {
            PeerFault::TooLong => 2,
            _ => 1,
        }
    }
}

/// The exit status of a peer that ended so: 0 if its user left or after a good end.
pub fn status_after(has_left: bool, end: Result<Why, PeerFault>) -> u8
    ensures { result ≡ status_after has_left end }
{
    match end {
        Err(fault) if !has_left => fault.status(),
        _ => 0,
    }
}

/// A fault of a peer with these arguments, as a message.
#[derive(Clone, Copy)]
pub struct ToldFault<'a> {
    pub fault: PeerFault,
    pub arguments: &'a Arguments<'a>,
}

impl ToldFault<'_> {
    // A fault of the server at the socket.
    fn server<W: fmt::Write>(&self, f: &mut fmt::Formatter<W>) -> fmt::Result {
        let socket = self.arguments.socket;
        match self.fault {
            PeerFault::NoServer => write!(
                f,
                "no server at {socket}: start it with 'muxd --socket {socket} --users PATH'"
            ),
            PeerFault::NoServerOfOurs => write!(
                f,
                "the server at {socket} doesn't speak this protocol: is it another program or version?"
            ),
            PeerFault::NoDraw => write!(
                f,
                "the server sent what no draw has: {socket}: nothing of it was shown (ask who runs it)"
            ),
            PeerFault::OtherSession => write!(
                f,
                "another session is at {socket} now: the one before has ended"
            ),
            PeerFault::NoAnswer => {
                let wait = self.arguments.wait;
                write!(
                    f,
                    "no answer from {socket} within {wait} s: it may come later (--wait)"
                )
            }
            _ => write!(
                f,
                "the connection ended: the server at {socket} was stopped or can't be reached"
            ),
        }
    }

    // Why the server let the peer go, which peer it was, and what to do.
    fn gone<W: fmt::Write>(&self, why: Why, f: &mut fmt::Formatter<W>) -> fmt::Result {
        write!(f, "{}: {}", gone(why), self.arguments.place())?;
        f.write_str(match why {
            Why::Fault => ": see the server's log",
            Why::TrailFull => ": start another session",
            _ => "",
        })
    }

    // A fault of the token's file.
    fn token<W: fmt::Write>(&self, f: &mut fmt::Formatter<W>) -> fmt::Result {
        let token = self.arguments.token;
        match self.fault {
            PeerFault::Writable => write!(
                f,
                "others may write the token's file: chmod go-w {token}"
            ),
            _ => write!(
                f,
                "no token in {token}: the file must have 64 digits of 0 to 9 and a to f, and nothing else"
            ),
        }
    }
}

impl fmt::Display for ToldFault<'_> {
    fn fmt<W: fmt::Write>(&self, f: &mut fmt::Formatter<W>) -> fmt::Result {
        match self.fault {
            PeerFault::TooLong => write!(
                f,
                "the arguments are too long: {}: a name has at most 255 bytes, a command about 8,000",
                self.arguments.place()
            ),
            PeerFault::Writable | PeerFault::NoToken => self.token(f),
            PeerFault::NoServer
            | PeerFault::NoServerOfOurs
            | PeerFault::NoDraw
            | PeerFault::NoAnswer
            | PeerFault::OtherSession
            | PeerFault::Ended => self.server(f),
            PeerFault::Gone(why) => self.gone(why, f),
            PeerFault::NoMemory => write!(f, "out of memory: {}", self.arguments.place()),
            PeerFault::Refused(part, error) => {
                part.write(self.arguments, f)?;
                write!(f, "{}{}", SystemError(error), part.advice())
            }
        }
    }
}

impl From<WriteFault> for PeerFault {
    ghost from_gives = { λ f e. e ≡ fault_of f };

    fn from(fault: WriteFault) -> PeerFault {
        match fault {
            WriteFault::Unspellable => PeerFault::TooLong,
            WriteFault::NoMemory => PeerFault::NoMemory,
        }
    }
}

impl From<io::Error> for PeerFault {
    ghost from_gives = { λ error e. e ≡ fault.Refused part.Other error };

    fn from(error: io::Error) -> PeerFault {
        PeerFault::Refused(RefusedPart::Other, error)
    }
}

impl From<AllocError> for PeerFault {
    ghost from_gives = { λ _ e. e ≡ fault.NoMemory };

    fn from(_error: AllocError) -> PeerFault {
        PeerFault::NoMemory
    }
}

impl<T: Drop> From<AllocFailed<T>> for PeerFault {
    ghost from_gives = { λ _ e. e ≡ fault.NoMemory };

    fn from(_error: AllocFailed<T>) -> PeerFault {
        PeerFault::NoMemory
    }
}
