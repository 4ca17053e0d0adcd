//! A connection that a loop waits for.

ghost use Rattle.std.specs.Prelude.{◌≡◌, IfErr, IfOk, IsTrue, Ok, OnOk, true};
ghost use Rattle.std.specs.Io.{WritesAtMost};
ghost use Rattle.std.specs.Io.KnownBytes.{WriteAppends};
ghost use Rattle.std.specs.IoError.{error_kind};
ghost use Rattle.std.specs.declared.io.ErrorKind.TheVariants.{WouldBlock};
ghost use Rattle.server_system.specs.Waiting.{awaits_after};

use libc::net as c;
use mio::net::UnixStream;
use mio::{Interest, Registry, Token};
use std::io::{self, ErrorKind, Read, Write};
use std::os::fd::AsRawFd;

// Of more bytes that wait, as a page of 200 by 300 can have, the system keeps what it can: a connection for which more
// than 1 MiB waits in the server is told to go.
const LARGE: usize = 1_048_576;
// The system takes the least that it allows, which is some 4.5 KB on Linux.
const LEAST: i32 = 1;
// The system takes the most that it allows, which is some 400 KB on Linux.
const MOST: i32 = 1_048_576;

// Lets the system keep at most this much of what isn't read yet, so that a slow reader isn't far behind, if it can.
fn set_unread<S: AsRawFd>(stream: &S, bytes: i32) {
    let mut value = [0u8; 16];
    value[..4].copy_from_slice(&bytes.to_ne_bytes());
    let _ = unsafe { c::setsockopt(stream.as_raw_fd(), c::SOL_SOCKET, c::SO_SNDBUF, &value, 4) };
}

/// A stream that a loop waits for.
pub trait PolledStream: Read + Write {
    ghost use Rattle.std.specs.Prelude.{◌≡◌, Bool, OnOk};

    // The stream, whether its loop is woken when it takes bytes again, and the stream after that was asked for. Only a
    // call of `wake_for` shows it.
    ghost wakes: { Self → Bool → Self → Type 0 };

    /// The loop is woken when there is something to read and, if that is asked for, when the stream takes bytes again.
    fn wake_for(&mut self, room: bool) -> io::Result<()>
        ensures wakes { OnOk result (wakes self.old room self.new) }
        ensures written { Self.contents self.new ≡ Self.contents self.old }
        ensures unread { Self.remaining self.new ≡ Self.remaining self.old };

    /// The system keeps as much as it can of what is written and not yet read, or as little as it can.
    fn widen(&mut self, is_large: bool)
        ensures written { Self.contents self.new ≡ Self.contents self.old }
        ensures unread { Self.remaining self.new ≡ Self.remaining self.old };
}

/// A socket of a peer, as the loop's poll knows it.
#[derive(Drop)]
pub struct PeerSocket<'a, S = UnixStream> {
    stream: S,
    registry: &'a Registry,
    token: Token,
}

impl<S: Read> Read for PeerSocket<'_, S> {
    ghost remaining = { λ socket. S.remaining socket.stream };

    fn read(&mut self, buf: &mut [u8]) -> io::Result<usize> {
        self.stream.read(buf)
    }
}

impl<S: Write> Write for PeerSocket<'_, S> {
    ghost contents = { λ socket. S.contents socket.stream };

    fn write(&mut self, buf: &[u8]) -> io::Result<usize> {
        self.stream.write(buf)
    }

    fn flush(&mut self) -> io::Result<()> {
        self.stream.flush()
    }
}

impl PolledStream for PeerSocket<'_> {
    // What the poll waits for, no clause can say.
    ghost wakes = { λ socket room left. Unit {0} };

    fn wake_for(&mut self, room: bool) -> io::Result<()> {
        let mut interest = Interest::READABLE;
        if room {
            interest = interest | Interest::WRITABLE;
        }
        self.registry
            .reregister(&mut self.stream, self.token, interest)
    }

    fn widen(&mut self, is_large: bool) {
        set_unread(&self.stream, if is_large { MOST } else { LEAST });
    }
}

/// A connection whose loop is woken when there is something to read and, while bytes wait, when it takes some again.
#[derive(Drop)]
pub struct Wired<S: PolledStream + Drop> {
    stream: S,
    awaits_room: bool,
    is_widened: bool,
    // The poll was asked for that.
    ghost woken: { awaits_room ≡ true → ∥ ((was : S) × (then : S) × S.wakes was true then) ∥₁ },
}

// Whether a connection that was given this many bytes has to take some again, by what came of it. None: as it was.
fn awaits_after(written: io::Result<usize>, len: usize) -> Option<bool>
    ensures { result ≡ awaits_after written len }
{
    match written {
        Ok(count) if count == len => Some(false),
        Err(error) if error.kind() == ErrorKind::WouldBlock => Some(true),
        _ => None,
    }
}

impl<'a> Wired<PeerSocket<'a>> {
    pub fn new(
        registry: &'a Registry,
        token: Token,
        mut stream: UnixStream,
    ) -> io::Result<Wired<PeerSocket<'a>>>
        ensures { IfOk result (λ wired. wired.stream.token ≡ token) }
    {
        set_unread(&stream, LEAST);
        registry.register(&mut stream, token, Interest::READABLE)?;
        Ok(Wired {
            stream: PeerSocket {
                stream,
                registry,
                token,
            },
            awaits_room: false,
            is_widened: false,
        })
    }
}

impl<S: PolledStream + Drop> Wired<S> {
    // Lets the system keep much of a large page, and little of all else.
    fn suit(&mut self, is_large: bool)
        ensures { S.contents self.new.stream ≡ S.contents self.old.stream }
    {
        if self.is_widened != is_large {
            self.is_widened = is_large;
            self.stream.widen(is_large);
        }
    }

    // Waits until the connection takes bytes again, or doesn't. Returns whether that is so.
    fn await_room(&mut self, awaits_room: bool) -> bool
        ensures awaits { IsTrue result → self.new.awaits_room ≡ awaits_room }
        ensures written { S.contents self.new.stream ≡ S.contents self.old.stream }
    {
        if self.awaits_room == awaits_room {
            return true;
        }
        match self.stream.wake_for(awaits_room) {
            Ok(()) => {
                self.awaits_room = awaits_room;
                true
            }
            Err(_) => false,
        }
    }
}

impl<S: PolledStream + Drop> Read for Wired<S> {
    ghost remaining = { λ wired. S.remaining wired.stream };

    fn read(&mut self, buf: &mut [u8]) -> io::Result<usize> {
        self.stream.read(buf)
    }
}

impl<S: PolledStream + Drop> Write for Wired<S> {
    ghost contents = { λ wired. S.contents wired.stream };

    // What the stream took counts as written, even if the poll refuses to wake the loop for less.
    fn write(&mut self, buf: &[u8]) -> io::Result<usize>
        ensures bound { WritesAtMost result buf.now }
        ensures bytes { WriteAppends (S.contents self.old.stream) (S.contents self.new.stream) result buf.now }
        // If it takes no bytes for now, its loop is woken when it does.
        ensures blocked { IfErr result (λ error. error_kind error ≡ WouldBlock → self.new.awaits_room ≡ true) }
    {
        self.suit(buf.len() > LARGE);
        let written = self.stream.write(buf);
        match awaits_after(written, buf.len()) {
            Some(awaits_room) if !self.await_room(awaits_room) && written.is_err() => {
                Err(io::Error::from(ErrorKind::NotConnected))
            }
            _ => written,
        }
    }

    fn flush(&mut self) -> io::Result<()> {
        self.stream.flush()
    }
}
