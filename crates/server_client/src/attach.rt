//! Runs `mux`: a client, a window, a command, or a question whether the server answers.

ghost use Rattle.std.specs.Prelude.{◌≡◌, ◌⊎◌, map};
ghost use Rattle.std.specs.Io.KnownBytes.{Appends};
ghost use Rattle.std.specs.String.{string_bytes};
ghost use Rattle.client_words.specs.Asking.{IsAsked};
ghost use Rattle.server_client.specs.Asking.{ExitsBy};

use crate::beside::warn_of_mark;
use crate::ending::{tell_end, tell_fault, tell_unseen};
use crate::opening::{prepare, warn_of_token};
use crate::shared::{SharedPeer, start_thread};
use crate::typing::{resize, type_out};
use crate::waiting::{start, wait};
use crate::writing::write_out;
use crate::{PeerHost, Sink, Source};
use client_words::{Arguments, PeerFault, Subcommand, arguments_of};
use program_words::SystemError;
use std::alloc::{AllocError, Global};
use std::fs::{File, Files};
use std::io::Write;
use std::sync::{Arc, Wait};
use std::thread::Threads;

/// The files to read once the server has let the peer in, or has taken long to do so.
#[derive(Drop)]
pub struct Sources<I> {
    pub input: Option<I>,
    /// The file from which a client's sizes are read.
    pub asked: Option<File>,
}

impl<I: Source> Sources<I> {
    /// Starts the threads that read them.
    pub fn start<R: PeerHost + Threads + Wait>(
        &mut self,
        rt: &R,
        shared: &Arc<SharedPeer, Global>,
    ) -> Result<(), AllocError> {
        if let Some(mut file) = self.asked.take() {
            start_thread(rt, shared, move |rt, shared| {
                let _ = resize(rt, shared, &mut file);
            })?;
        }
        if let Some(mut input) = self.input.take() {
            start_thread(
                rt,
                shared,
                move |rt, shared| type_out(rt, shared, &mut input),
            )?;
        }
        Ok(())
    }
}

// Runs a peer to its end. A thread writes, one reads each connection, and one reads standard input.
fn run<R: PeerHost + Threads + Wait + Files<File = File>, I: Source, O: Sink>(
    rt: &R,
    arguments: &Arguments<'_>,
    input: I,
    output: O,
) -> Result<Arc<SharedPeer, Global>, PeerFault>
    requires { IsAsked (R.means rt.now) arguments.now }
{
    let (mut output, alloc) = (output, rt.alloc());
    let mut kept = Vec::new(alloc);
    let (door, sizes) = prepare(rt, arguments, &mut kept)?;
    let (asked, mut told) = match arguments.subcommand {
        Subcommand::Attach => (sizes, None),
        _ => (None, sizes),
    };
    let shared = Arc::new(alloc, SharedPeer::new(rt, arguments))?;
    start_thread(
        rt,
        &shared,
        move |rt, shared| write_out(rt, shared, &mut output, &mut told),
    )?;
    start(rt, &shared, door)?;
    let sources = Sources {
        input: Some(input),
        asked,
    };
    wait(rt, &shared, arguments, sources);
    Ok(shared)
}

// Prints what the arguments ask for in place of a session, as the help. Returns the exit status: 1 if that fails.
fn print<O: Write, E: Write>(asked: &[u8], status: u8, output: &mut O, errors: &mut E) -> u8
    ensures prints { result ≡ 0 → Appends (O.contents output.old) (O.contents output.new) asked.now }
    ensures status { (result ≡ status) ⊎ (result ≡ 1) }
{
    if status != 0 {
        return status;
    }
    let Err(error) = output.write_all(asked) else {
        return 0;
    };
    let _ = writeln!(
        errors,
        "mux: can't write to standard output: {}",
        SystemError(error)
    );
    1
}

/// Runs `mux`. The first word is the program's name. The exit status is 0, 1 for a fault, or 2 for invalid arguments.
pub fn client<R: PeerHost + Threads + Wait + Files<File = File>, I: Source, O: Sink, E: Write>(
    rt: &R,
    words: &[String],
    input: I,
    output: O,
    errors: &mut E,
) -> u8
    ensures { ExitsBy (R.means rt.now) (R.refuses rt.now) (map string_bytes words.now) result }
{
    let mut output = output;
    let mut asked = Vec::new(rt.alloc());
    let arguments = match arguments_of(rt, words, &mut asked, errors) {
        Ok(arguments) => arguments,
        Err(status) => return print(&asked, status, &mut output, errors),
    };
    warn_of_token(rt, arguments.token, errors);
    warn_of_mark(rt, &arguments, errors);
    match run(rt, &arguments, input, output) {
        Ok(shared) => {
            let seat = shared.seat.lock(rt);
            tell_end(rt.alloc(), &seat.peer, &arguments, errors)
        }
        Err(fault) => {
            tell_fault(fault, &arguments, errors);
            tell_unseen(&arguments, errors);
            fault.status()
        }
    }
}
