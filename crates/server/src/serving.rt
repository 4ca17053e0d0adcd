//! `muxd`: the session, its listener and its loops.

ghost use Rattle.std.specs.Prelude.{◌≡◌, IfOk, is_some, map, option_map};
ghost use Rattle.std.specs.Arc.{arc_value};
ghost use Rattle.std.specs.String.{string_bytes};
ghost use Rattle.server_trail.specs.Journals.{journal_path};
ghost use Rattle.server.specs.Starting.{AreOptionsOf, IsKeptFor, IsStartOf, text_of};

use crate::latch::{Latch, ReadyLine};
use crate::loop_handle::{LoopHandle, Shared, places, start_watching};
use crate::loops::{KeptSession, Server};
use crate::starting::{Options, ServerStart, SetupHost, listen, read_setup, read_users};
use acl::UserId;
use clap::Error;
use program_words::{SystemError, tell};
use server_loop::{Gate, Open};
use server_outcome::{LastLine, ServeFault, fill_closed};
use server_session::{Accounts, Books, Start};
use server_system::{LastLook, Log, Stamp, UsersFile, WatchedUsers};
use server_trail::Journal;
use std::alloc::Global;
use std::io::Write;
use std::rt::HostRuntime;
use std::sync::atomic::AtomicU64;
use std::sync::{Arc, OnceLock, Wait};
use std::thread::Threads;

// The concrete runtime reads the users' file, since a bound with associated types (`Files`) of a generic
// one isn't known in other threads.
/// The handles of a server besides its runtime.
#[derive(Drop)]
pub struct Handles<G> {
    /// Reads the users' file; its standard error has the log.
    pub files: HostRuntime,
    /// Is called around each event that a loop submits.
    pub gate: G,
}

// Tells what is wrong with the arguments, or what `--help` and `--version` ask for. Returns the status to exit with.
fn refuse<O: Write, E: Write>(error: &Error, output: &mut O, errors: &mut E) -> u8 {
    let is_asked = !error.use_stderr();
    if !is_asked {
        let _ = write!(errors, "muxd: ");
    }
    let status = tell(error, output, errors);
    if is_asked && status != 0 {
        let _ = writeln!(errors, "muxd: can't write to standard output");
    }
    status
}

// What the arguments ask for, or the status to exit with if they are invalid.
fn options_of<'a, R: SetupHost, O: Write, E: Write>(
    rt: &R,
    words: &'a [String],
    output: &mut O,
    errors: &mut E,
) -> Result<Options<'a>, u8>
    ensures { IfOk result (AreOptionsOf (R.means rt.now) (map string_bytes words.entry.now)) }
{
    match rt.matches_of(words) {
        Ok(matches) => Ok(Options::of(&matches)),
        Err(error) => Err(refuse(&error, output, errors)),
    }
}

// A new file for the trail, if the arguments name one.
fn journal<'a>(
    files: HostRuntime,
    alloc: Global,
    path: Option<&'a str>,
    owner: UserId,
) -> Result<Option<Journal<'a>>, ServeFault>
    ensures path { IfOk result (λ made. option_map journal_path made ≡ text_of path.entry) }
    ensures there { IfOk result (λ made. is_some made ≡ is_some path.entry) }
{
    let Some(path) = path else {
        return Ok(None);
    };
    match Journal::create(files, alloc, path, owner) {
        Ok(journal) => Ok(Some(journal)),
        Err(fault) => Err(ServeFault::of_trail(alloc, path, fault)),
    }
}

// What the loops share. It starts the thread that looks at the users' file.
fn shared<R: SetupHost + Threads + Wait>(
    rt: &R,
    tells: bool,
    watched: WatchedUsers<UsersFile>,
    seen: Stamp,
    loop_handles: Vec<LoopHandle>,
) -> Result<Shared, ServeFault>
    ensures { IfOk result (λ shared. (shared.tells ≡ tells) × (arc_value shared.watched ≡ watched)) }
{
    let alloc = rt.alloc();
    let watched = Arc::new(alloc, watched)?;
    let loop_handles = Arc::new(alloc, loop_handles)?;
    let shared = Shared {
        alloc,
        log: Log::new(alloc, loop_handles.len()),
        latch: Latch::new(loop_handles.len()),
        loop_handles,
        over: OnceLock::new(),
        busy: AtomicU64::new(0),
        watched,
        wrong_tokens: AtomicU64::new(0),
        wrong_tokens_told: AtomicU64::new(0),
        misfits: AtomicU64::new(0),
        misfits_told: AtomicU64::new(0),
        tells,
    };
    start_watching(rt, &shared, LastLook::read(seen))?;
    Ok(shared)
}

// Serves these users on a listener, after the commands of the setup.
fn begin<R, G, O>(
    rt: &R,
    options: &Options,
    handles: Handles<G>,
    beginning: ServerStart,
    output: &mut O,
) -> Result<KeptSession, ServeFault>
where
    R: SetupHost + Threads + Wait,
    G: Gate + Copy + Sync + Drop,
    O: Write + Send,
    requires { IsStartOf R.Host (R.SetupHost.reads rt.now) rt.now options.now beginning }
    ensures { IfOk result (IsKeptFor R.Host (R.SetupHost.reads rt.now) rt.now options.now) }
{
    let ServerStart {
        users,
        seen,
        setup,
        place,
        listener,
    } = beginning;
    let alloc = rt.alloc();
    let owner = users.owner();
    let loops = usize::from(options.loops.clamp(1, 8));
    let (places, loop_handles) = places(rt, loops, listener)?;
    let file = UsersFile::new(handles.files, options.users)?;
    let watched = WatchedUsers::new(alloc, file, owner);
    let shared = shared(rt, options.tells, watched, seen, loop_handles)?;
    let journal = journal(handles.files, alloc, options.trail, owner)?;
    let server = Server {
        shared,
        ready: ReadyLine::new(output),
        gate: handles.gate,
        files: handles.files,
        place,
        accounts: Accounts::new(Books::new(alloc, owner, options.limits)),
        options: *options,
        log: handles.files.stderr(),
        journal,
    };
    let start = Start {
        alloc,
        users,
        setup,
        places,
    };
    server.serve(rt, start)
}

fn run<R, G, O, E>(
    rt: &R,
    options: &Options,
    handles: Handles<G>,
    output: &mut O,
    errors: &mut E,
) -> Result<KeptSession, ServeFault>
where
    R: SetupHost + Threads + Wait,
    G: Gate + Copy + Sync + Drop,
    O: Write + Send,
    E: Write,
    ensures { IfOk result (IsKeptFor R.Host (R.SetupHost.reads rt.now) rt.now options.now) }
{
    let files = handles.files;
    let (users, seen) = read_users(rt, options.users, errors)?;
    let setup = read_setup(rt, options.setup)?;
    let (place, listener) = listen(rt, options.socket, errors)?;
    let beginning = ServerStart {
        users,
        seen,
        setup,
        place: &place,
        listener,
    };
    let served = begin(rt, options, handles, beginning, output);
    place.end(rt, &files);
    served
}

/// `muxd`: serves a session until `quit`. The first argument is the program's name. The answer is the
/// status to exit with: 0, 1 for a fault, or 2 for invalid arguments.
pub fn serve<R, O>(rt: &R, runtime: HostRuntime, words: &[String], output: &mut O) -> u8
where
    R: SetupHost + Threads + Wait,
    O: Write + Send,
{
    let mut errors = LastLine(runtime.stderr());
    let filled = match fill_closed(&runtime) {
        Ok(filled) => filled,
        Err(error) => {
            let error = SystemError(error);
            let _ = writeln!(
                errors,
                "muxd: /dev/null: {error}: a standard stream is closed"
            );
            return 1;
        }
    };
    let handles = Handles {
        files: runtime,
        gate: Open,
    };
    let status = serve_through(rt, handles, words, output, &mut errors);
    drop(filled);
    status
}

/// As `serve`, with a gate that each call of a loop passes, and with its errors written to `errors`.
pub fn serve_through<R, G, O, E>(
    rt: &R,
    handles: Handles<G>,
    words: &[String],
    output: &mut O,
    errors: &mut E,
) -> u8
where
    R: SetupHost + Threads + Wait,
    G: Gate + Copy + Sync + Drop,
    O: Write + Send,
    E: Write,
{
    let options = match options_of(rt, words, output, errors) {
        Ok(options) => options,
        Err(status) => return status,
    };
    match run(rt, &options, handles, output, errors) {
        Ok(_) => 0,
        Err(fault) => {
            let _ = writeln!(errors, "muxd: {fault}");
            1
        }
    }
}
