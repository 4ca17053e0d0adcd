//! The connection with its first frame, and the files that the arguments name.

ghost use Rattle.std.specs.Prelude.{◌≡◌, true, IfOk, OnOk};
ghost use Rattle.attach_proto.specs.Texts.{token_of};
ghost use Rattle.client_words.specs.Asking.{IsAsked};
ghost use Rattle.server_client.specs.Opening.{Begins, BeginsWith, IsAtSession, IsOpened, IsTokenOf, LeadsAtOnce};
ghost use Rattle.server_client.specs.Opening.{LeadsBack, line_of};

use crate::PeerHost;
use crate::beside::{Connects, mark_of};
use attach_proto::Token;
use client_words::{Arguments, PeerFault, RefusedPart, Subcommand};
use std::fs::{File, OpenOptions};
use std::io::{ErrorKind, Write};
use std::os::fd::AsRawFd;
use std::os::unix::net::UnixStream;
use std::time::Duration;
use std::{fs, io, thread};

// How long a socket that has a limit may take nothing, in milliseconds, before a frame waits.
const PATIENCE: u64 = 20;

// How long a client that comes back lets windows go first, in milliseconds: one that comes before them shows none.
const GRACE: u64 = 300;

// Modes of a file: those of its group and of all others.
const OTHERS_READ: u32 = 0o044;

const OTHERS_WRITE: u32 = 0o022;

/// Warns on standard error of a token's file that others may read.
pub fn warn_of_token<R: Connects, E: Write>(rt: &R, path: &str, errors: &mut E) {
    if rt.has_mode(path, OTHERS_READ) {
        let _ = writeln!(
            errors,
            "mux: others may read the token's file: chmod go-r {path}"
        );
    }
}

// The token that a file has: its digits, and maybe a line feed.
fn token_of(file: &[u8]) -> Option<Token>
    ensures { result ≡ token_of (line_of file.now) }
{
    match file {
        [digits @ .., b'\n'] => Token::read(digits),
        _ => Token::read(file),
    }
}

// Reads the token of a file; a file that others may write is refused.
fn read_token<R: Connects>(rt: &R, path: &str) -> Result<Token, PeerFault>
    ensures { IfOk result (IsTokenOf (R.disk rt.now) path.now) }
{
    if rt.has_mode(path, OTHERS_WRITE) {
        return Err(PeerFault::Writable);
    }
    match rt.read_file(path) {
        Ok(file) => token_of(file.as_slice()).ok_or(PeerFault::NoToken),
        Err(error) => Err(PeerFault::Refused(RefusedPart::Token, error)),
    }
}

// Opens a FIFO for reading and writing: that waits for no writer, and the last writer's end isn't the end of the file.
fn open_sizes<R: fs::Files<File = File>>(
    rt: &R,
    subcommand: Subcommand,
    path: &str,
) -> io::Result<File> {
    let mut options = OpenOptions::new();
    match subcommand {
        Subcommand::Attach => options.read(true).write(true),
        _ => options.append(true),
    };
    options.open(rt, path)
}

// The sizes' file, if the arguments name one.
fn sizes_of<R: fs::Files<File = File>>(
    rt: &R,
    arguments: &Arguments<'_>,
) -> Result<Option<File>, PeerFault> {
    let Some(path) = arguments.sizes else {
        return Ok(None);
    };
    match open_sizes(rt, arguments.subcommand, path) {
        Ok(file) => Ok(Some(file)),
        Err(error) => Err(PeerFault::Refused(RefusedPart::Sizes, error)),
    }
}

/// The socket to connect to, and the first frame to send.
#[derive(Drop)]
pub struct Door {
    socket: String,
    /// Empty for `mux ping`, which sends nothing.
    frame: Vec<u8>,
    can_leave: bool,
    /// How long to wait between the connection and the first frame, in milliseconds.
    grace: u64,
    /// The session that a window comes back to; empty for all others.
    session: Vec<u8>,
}

impl Door {
    // Sends the first frame; if there is none, ends the sending side.
    fn begin<R: PeerHost>(&self, rt: &R, stream: &UnixStream) -> io::Result<()>
        requires { IsAtSession (R.disk rt.now) self.now }
        ensures { OnOk result (Begins (R.disk rt.now) self.now.frame.items stream.now) }
    {
        if self.frame.is_empty() {
            return rt.shut(stream);
        }
        rt.send_all(stream, &self.frame)?;
        if self.can_leave {
            stream.set_write_timeout(Some(Duration::from_millis(PATIENCE)))?;
        }
        Ok(())
    }

    /// Makes the connection. A window that comes back shows itself to no other session.
    pub fn open<R: PeerHost>(&self, rt: &R) -> Result<UnixStream, PeerFault>
        ensures { IfOk result (IsOpened (R.disk rt.now) self.now) }
    {
        match rt.reach(self.socket.as_str()) {
            Ok(stream) => {
                // (the socket may have changed hands since its mark was read)
                if !self.is_at_session(rt) {
                    return Err(PeerFault::NoServer);
                }
                thread::sleep(rt, Duration::from_millis(self.grace));
                match self.begin(rt, &stream) {
                    Ok(()) => Ok(stream),
                    Err(error) => Err(PeerFault::Refused(RefusedPart::Stream, error)),
                }
            }
            Err(error) => Err(match error.kind() {
                ErrorKind::NotFound | ErrorKind::ConnectionRefused => PeerFault::NoServer,
                _ => PeerFault::Refused(RefusedPart::Socket, error),
            }),
        }
    }

    // Whether the mark beside the socket is that of the server which made it, and names the session to come back to.
    fn is_at_session<R: PeerHost>(&self, rt: &R) -> bool
        ensures { result ≡ true → IsAtSession (R.disk rt.now) self.now }
    {
        if self.session.is_empty() {
            return true;
        }
        match mark_of(rt, self.socket.as_str()) {
            Ok(mark) => mark.is_current && mark.name.as_slice() == self.session.as_slice(),
            Err(_) => false,
        }
    }
}

// The first frame, with the token of the file that the arguments name.
fn frame_for<R: PeerHost>(rt: &R, arguments: &Arguments<'_>) -> Result<Vec<u8>, PeerFault>
    ensures { IfOk result (λ frame. BeginsWith (R.disk rt.now) arguments.now frame.items) }
{
    if arguments.subcommand.is_ping() {
        return Ok(Vec::new(rt.alloc()));
    }
    // A fault of the arguments comes before one of the file, whatever its token is.
    let zeros = Token::read(&[b'0'; 64]).ok_or(PeerFault::NoToken)?;
    arguments.first_frame(rt.alloc(), zeros)?;
    let token = read_token(rt, arguments.token)?;
    Ok(arguments.first_frame(rt.alloc(), token)?)
}

fn door_for<R: PeerHost>(rt: &R, arguments: &Arguments<'_>) -> Result<Door, PeerFault>
    ensures { IfOk result (LeadsAtOnce (R.disk rt.now) arguments.now) }
{
    Ok(Door {
        frame: frame_for(rt, arguments)?,
        socket: String::from_str(rt.alloc(), arguments.socket)?,
        can_leave: arguments.leave.is_some(),
        grace: 0,
        session: Vec::new(rt.alloc()),
    })
}

/// A door to come back to this session by, with the token as it is now, and this size.
pub fn another_door<R: PeerHost>(
    rt: &R,
    arguments: &Arguments<'_>,
    size: (u16, u16),
    session: Vec<u8>,
) -> Result<Door, PeerFault>
    ensures { IfOk result
        (LeadsBack (R.disk rt.now) (record arguments.now { rows = size.0; columns = size.1 }) session.items) }
{
    let mut arguments = *arguments;
    (arguments.rows, arguments.columns) = size;
    let mut door = door_for(rt, &arguments)?;
    if arguments.subcommand.is_attach() {
        door.grace = GRACE;
    }
    if arguments.subcommand.is_window() {
        door.session = session;
    }
    Ok(door)
}

// Opens /dev/null for each closed standard stream, so that no other file becomes one.
fn fill_closed<R: fs::Files<File = File>>(rt: &R, kept: &mut Vec<File>) -> io::Result<()> {
    for _ in 0..3 {
        let file = fs::open(rt, "/dev/null")?;
        if file.as_raw_fd() > 2 {
            break;
        }
        kept.push(file)?;
    }
    Ok(())
}

/// Reads and opens the files that the arguments name. A fault of the arguments comes before one of files. The files
/// that replace closed standard streams are put into `kept`, and stay open as long as that list.
pub fn prepare<R: PeerHost + fs::Files<File = File>>(
    rt: &R,
    arguments: &Arguments<'_>,
    kept: &mut Vec<File>,
) -> Result<(Door, Option<File>), PeerFault>
    requires { IsAsked (R.means rt.now) arguments.now }
    ensures { IfOk result (λ made. LeadsAtOnce (R.disk rt.now) arguments.now made.0) }
{
    fill_closed(rt, kept)?;
    let door = door_for(rt, arguments)?;
    Ok((door, sizes_of(rt, arguments)?))
}
