//! What a server starts with: what its arguments ask for, its users, its setup and its socket.

ghost use Rattle.std.specs.Prelude.{◌≡◌, IfErr, IfOk};
ghost use Rattle.clap.specs.Words.{found_of};
ghost use Rattle.server_system.specs.Looking.{IsReadOf};
ghost use Rattle.server_system.specs.Paths.{ListensAt, socket_path};
ghost use Rattle.server.specs.Starting.{IsAskedFor, IsSetupAt, IsStartFault, IsUnread, text_of};

use clap::{ArgMatches, Error};
use mio::net::UnixListener;
use program_words::{SetupFault, SystemError, of_server};
use server_outcome::{RefusedCommand, ServeFault, SetupCause};
use server_session::{Limits, LoopsFault};
use server_system::{Host, SocketPath, Stamp, UsersFile};
use server_users::Users;
use std::alloc::Global;
use std::io::Write;
use std::{fs, io};

/// A runtime with all that a server asks for.
pub trait SetupHost: Host + Send + Sync + 'static {
    ghost use Rattle.std.specs.Prelude.{ℕ, IfOk, List, Result, map};
    ghost use Rattle.std.specs.String.{string_bytes};
    ghost use Rattle.std.specs.declared.alloc.Global.{Global};
    ghost use Rattle.std.specs.declared.io.Error.{Error};
    ghost use Rattle.std.specs.declared.vec.Vec.{Vec as Vector};
    ghost use Rattle.clap.specs.Words.{found_of};
    ghost use Rattle.clap.specs.declared.parser.matches.Found.{Found};

    // A path, and the bytes of its file, or why they can't be read. Only a call of `read_file` shows them.
    ghost reads: { Self → List ℕ → Result (Vector ℕ Global) Error → Type 0 };

    // The arguments, and what is found in them. Only a call of `matches_of` shows it.
    ghost means: { Self → List (List ℕ) → Found → Type 0 };

    /// The arguments as they were understood; the first is the program's name.
    fn matches_of<'a>(&self, words: &'a [String]) -> Result<ArgMatches<'a>, Error>
        ensures { IfOk result (λ matches. means self.now (map string_bytes words.entry.now) (found_of matches)) };

    /// Reads a whole file.
    fn read_file(&self, path: &str) -> io::Result<Vec<u8>>
        ensures { reads self.now path.now result };
}

impl<R: Host + Send + Sync + 'static> SetupHost for R {
    // What is on a disk, and which arguments are understood, no clause can say.
    ghost reads = { λ host path read. Unit {0} };

    ghost means = { λ host words found. Unit {0} };

    fn matches_of<'a>(&self, words: &'a [String]) -> Result<ArgMatches<'a>, Error> {
        of_server(self.alloc(), words)
    }

    fn read_file(&self, path: &str) -> io::Result<Vec<u8>> {
        fs::read(self, path)
    }
}

/// What the arguments of `muxd` ask for.
#[derive(Clone, Copy)]
pub struct Options<'a> {
    pub socket: &'a str,
    pub users: &'a str,
    pub setup: Option<&'a str>,
    pub trail: Option<&'a str>,
    /// How many loops serve.
    pub loops: u8,
    /// How many clients and windows one user may have.
    pub limits: Limits,
    /// Whether it logs who comes and goes.
    pub tells: bool,
}

impl<'a> Options<'a> {
    /// (Arguments that must be there are: without them there are no matches.)
    pub fn of(matches: &ArgMatches<'a>) -> Options<'a>
        ensures { IsAskedFor (found_of matches.now) result }
    {
        Options {
            socket: matches.get_str("socket").unwrap_or(""),
            users: matches.get_str("users").unwrap_or(""),
            setup: matches.get_str("setup"),
            trail: matches.get_str("trail"),
            loops: matches.get_one::<u8>("loops").unwrap_or(1),
            limits: Limits {
                clients: matches.get_one::<u8>("user-clients"),
                windows: matches.get_one::<u8>("user-windows"),
            },
            tells: matches.get_flag("log"),
        }
    }
}

/// Reads the setup at a path, each line of which can be a command. Without a path it has no lines.
pub fn read_setup<R: SetupHost>(rt: &R, path: Option<&str>) -> Result<Vec<u8>, ServeFault>
    ensures ok { IfOk result (IsSetupAt (R.SetupHost.reads rt.now) (text_of path.entry)) }
    ensures fault { IfErr result (IsUnread (R.SetupHost.reads rt.now) (text_of path.entry)) }
{
    let alloc = rt.alloc();
    let Some(path) = path else {
        return Ok(Vec::new(alloc));
    };
    match rt.read_file(path) {
        Ok(setup) => match program_words::read_setup(alloc, &setup).err() {
            None => Ok(setup),
            Some(fault) => Err(start_fault(alloc, path, LoopsFault::Setup(fault))),
        },
        Err(error) => {
            let cause = SetupCause::NotRead(SystemError(error));
            Err(ServeFault::of_setup(alloc, path, cause))
        }
    }
}

/// Why a session with the setup at this path didn't begin.
pub fn start_fault(alloc: Global, path: &str, fault: LoopsFault) -> ServeFault
    ensures { IsStartFault path.now fault result }
{
    match fault {
        LoopsFault::NoMemory | LoopsFault::Setup(SetupFault::NoMemory) => ServeFault::NoMemory,
        LoopsFault::Setup(fault) => ServeFault::of_setup(alloc, path, SetupCause::Wrong(fault)),
        LoopsFault::Refused { number, line, said } => {
            let refused = RefusedCommand { number, line, said };
            ServeFault::of_setup(alloc, path, SetupCause::Refused(refused))
        }
    }
}

/// What a server begins with: its users, with the stamp of their file as it was read; the setup; and the socket.
#[derive(Drop)]
pub struct ServerStart<'a> {
    pub users: Users,
    pub seen: Stamp,
    pub setup: Vec<u8>,
    pub place: &'a SocketPath<'a>,
    pub listener: UnixListener,
}

/// Reads the users, and says who could become one of them without a token of their own.
pub fn read_users<R: Host, E: Write>(
    rt: &R,
    path: &str,
    errors: &mut E,
) -> Result<(Users, Stamp), ServeFault>
    ensures { IfOk result (λ read. IsReadOf R.Host rt.now path.now read.0 read.1) }
{
    let file = UsersFile::new(*rt, path)?;
    let (users, seen) = file.read()?;
    if seen.access().is_open() {
        let _ = writeln!(
            errors,
            "muxd: others may read the users' file: chmod go-r {path}"
        );
    }
    if let Ok(Some(folder)) = file.open_folder() {
        let _ = writeln!(errors, "muxd: users' file {path}: {folder}");
    }
    Ok((users, seen))
}

/// Listens on the socket, and says who could connect or listen there without a right of their own.
pub fn listen<'a, R: Host, E: Write>(
    rt: &R,
    path: &'a str,
    errors: &mut E,
) -> Result<(SocketPath<'a>, UnixListener), ServeFault>
    ensures path { IfOk result (λ made. socket_path made.0 ≡ path.entry.now) }
    ensures listens { IfOk result (λ made. ListensAt R.Host rt.now path.entry.now made.1) }
{
    let (place, listener) = SocketPath::listen(rt, rt.alloc(), path)?;
    if place.is_open(rt) {
        let _ = writeln!(
            errors,
            "muxd: anybody on this machine may connect to the socket: chmod o-w {path}"
        );
    }
    if let Some(folder) = place.open_folder(rt) {
        let _ = writeln!(errors, "muxd: socket {path}: {folder}");
    }
    Ok((place, listener))
}
