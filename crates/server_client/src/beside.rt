//! The files beside a socket, and the mark that one of them makes.

ghost use Rattle.std.specs.Prelude.{◌↔◌, IfOk, IsTrue, MatchOption, OnOk};
ghost use Rattle.server_client.specs.Marks.{Compares, Disk, IsMarkOf, IsNoEarlier, anything};

use client_peer::SessionMark;
use client_words::Arguments;
use std::alloc::{AllocError, Global};
use std::fs::{self, File};
use std::io::{self, Write};
use std::net::Shutdown;
use std::os::unix::fs::MetadataExt;
use std::os::unix::net::UnixStream;

// The most bytes of a file beside the socket that is read.
const MOST_BESIDE: u64 = 65_536;

/// Something that connects to a server's socket, and looks at what stands beside it. (A thread can't be handed `Net` or
/// `Files`, which have types of their own.)
pub trait Connects {
    /// What the files say, and what was done with connections.
    ghost disk: { Self → Disk };

    fn reach(&self, socket: &str) -> io::Result<UnixStream>
        ensures { IfOk result ((disk self.now).reached socket.now) };

    /// Sends bytes on a connection.
    fn send_all(&self, stream: &UnixStream, bytes: &[u8]) -> io::Result<()>
        ensures { OnOk result ((disk self.now).took stream.now bytes.now) };

    /// Ends the sending side of a connection.
    fn shut(&self, stream: &UnixStream) -> io::Result<()>
        ensures { OnOk result ((disk self.now).ended stream.now) };

    /// Whether the server hasn't hung up.
    fn is_open(&self, stream: &UnixStream) -> bool
        ensures { (disk self.now).is_open stream.now result };

    /// Whether there is a file.
    fn is_there(&self, path: &str) -> bool
        ensures { (disk self.now).stands path.now result };

    /// Reads a short plain file. None if there is none, or if it can't be read.
    fn read_beside(&self, path: &str) -> Option<Vec<u8>>
        ensures { MatchOption result ((disk self.now).lacks path.now)
            (λ bytes. (disk self.now).has path.now bytes.items) };

    /// When a file was written.
    fn written(&self, path: &str) -> Option<(i64, i64)>
        ensures { (disk self.now).is_of path.now result };

    /// Whether a file's mode has one of these bits. A terminal or a pipe isn't a file here.
    fn has_mode(&self, path: &str, mode: u32) -> bool
        ensures { (disk self.now).has_mode path.now mode result };

    /// Reads a file to its end.
    fn read_file(&self, path: &str) -> io::Result<Vec<u8>>
        ensures { IfOk result (λ bytes. (disk self.now).has path.now bytes.items) };
}

impl Connects for HostRuntime {
    ghost disk = { λ _. anything };

    fn reach(&self, socket: &str) -> io::Result<UnixStream> {
        UnixStream::connect(self, socket)
    }

    fn send_all(&self, stream: &UnixStream, bytes: &[u8]) -> io::Result<()> {
        let mut writer = stream;
        writer.write_all(bytes)
    }

    fn shut(&self, stream: &UnixStream) -> io::Result<()> {
        stream.shutdown(Shutdown::Write)
    }

    // A write of no bytes tells.
    fn is_open(&self, stream: &UnixStream) -> bool {
        let mut writer = stream;
        writer.write(b"").is_ok()
    }

    fn is_there(&self, path: &str) -> bool {
        fs::metadata(self, path).is_ok()
    }

    fn read_beside(&self, path: &str) -> Option<Vec<u8>> {
        if is_unreadable(self, path) {
            return None;
        }
        fs::read(self, path).ok()
    }

    fn written(&self, path: &str) -> Option<(i64, i64)> {
        let found = fs::metadata(self, path).ok()?;
        Some((found.mtime(), found.mtime_nsec()))
    }

    fn has_mode(&self, path: &str, mode: u32) -> bool {
        match fs::metadata(self, path) {
            Ok(found) => found.is_file() && found.mode() & mode != 0,
            Err(_) => false,
        }
    }

    fn read_file(&self, path: &str) -> io::Result<Vec<u8>> {
        fs::read(self, path)
    }
}

// Whether a path names something that isn't read: a FIFO would wait for a writer, and a device may have no end.
fn is_unreadable<R: fs::Files<File = File>>(rt: &R, path: &str) -> bool {
    match fs::metadata(rt, path) {
        Ok(found) => !found.is_file() || found.len() > MOST_BESIDE,
        Err(_) => false,
    }
}

/// Warns on standard error, if the peer is to come back, of a session's mark that isn't read.
pub fn warn_of_mark<R: fs::Files<File = File> + AllocGlobal, E: Write>(
    rt: &R,
    arguments: &Arguments<'_>,
    errors: &mut E,
) {
    if arguments.again > 0
        && let Ok(path) = format!(in rt.alloc(); "{}.session", arguments.socket)
        && is_unreadable(rt, path.as_str())
    {
        let _ = writeln!(
            errors,
            "mux: the session's name isn't read: {path} isn't a short plain file: remove it"
        );
    }
}

/// What stands beside the socket about the session that is served there. A mark is made anew for each server, so one
/// that is older than the socket isn't this server's.
pub fn mark_of<F: Connects + AllocGlobal>(
    files: &F,
    socket: &str,
) -> Result<SessionMark, AllocError>
    ensures { IfOk result (IsMarkOf (F.disk files.now) socket.now) }
{
    let path = format!(in files.alloc(); "{socket}.session")?;
    Ok(match files.read_beside(path.as_str()) {
        Some(name) => SessionMark {
            name,
            is_current: is_as_new(files, path.as_str(), socket),
        },
        None => SessionMark {
            name: Vec::new(files.alloc()),
            is_current: false,
        },
    })
}

// Whether a time isn't before another one: seconds, and nanoseconds.
fn is_no_earlier(it: (i64, i64), other: (i64, i64)) -> bool
    ensures { IsTrue result ↔ IsNoEarlier it other }
{
    it.0 > other.0 || (it.0 == other.0 && it.1 >= other.1)
}

// Whether a file was written no earlier than another one.
fn is_as_new<F: Connects>(files: &F, path: &str, other: &str) -> bool
    ensures { Compares (F.disk files.now) path.now other.now result }
{
    match (files.written(path), files.written(other)) {
        (Some(it), Some(other)) => is_no_earlier(it, other),
        _ => false,
    }
}
