//! The line that says that a server serves.

use crate::frames::{DONE, WALL};
use crate::gate::wait;
use crate::peer::{PeerStream, quit};
use crate::served::{Paths, serve};
use server::{Gate, Handles, SetupHost};
use std::io::Write;
use std::net::Net;
use std::sync::Wait;
use std::sync::atomic::{AtomicU64, Ordering};
use std::thread::Threads;
use std::time::Clock;
use std::{io, thread};

const PATHS: Paths = Paths {
    folder: "muxd_ready",
    socket: "muxd_ready/socket",
    lock: "muxd_ready/socket.lock",
    users: "muxd_ready/users",
    trail: "muxd_ready/trail",
};

/// What is known of a server.
#[derive(Drop)]
struct Signs {
    /// How many of its loops run.
    loops: AtomicU64,
    /// How many loops ran when it had said its first line, and one more. 0 if it has said nothing yet.
    said: AtomicU64,
}

/// Counts the loops that run.
#[derive(Clone, Copy)]
struct Counter<'a> {
    signs: &'a Signs,
}

impl Gate for Counter<'_> {
    fn stand_at(&mut self, _number: usize) {
        self.signs.loops.fetch_add(1, Ordering::SeqCst);
    }

    fn before(&mut self) {}

    fn after(&mut self) {}
}

/// What a server printed.
#[derive(Drop)]
struct ServerOutput<'a> {
    text: Vec<u8>,
    signs: &'a Signs,
}

impl Write for ServerOutput<'_> {
    fn write(&mut self, buf: &[u8]) -> io::Result<usize> {
        let loops = self.signs.loops.load(Ordering::SeqCst);
        self.text.extend_from_slice(buf)?;
        if self.text.ends_with(b"\n") && self.signs.said.load(Ordering::SeqCst) == 0 {
            self.signs
                .said
                .store(loops.saturating_add(1), Ordering::SeqCst);
        }
        Ok(buf.len())
    }

    fn flush(&mut self) -> io::Result<()> {
        Ok(())
    }
}

// Serves until a peer gives `quit`. Returns the status, and what was printed.
fn serve_counted<'a, R: SetupHost + Threads + Wait>(
    rt: &R,
    runtime: HostRuntime,
    words: &[String],
    signs: &'a Signs,
) -> (u8, ServerOutput<'a>) {
    let mut output = ServerOutput {
        text: Vec::new(rt.alloc()),
        signs,
    };
    let handles = Handles {
        files: runtime,
        gate: Counter { signs },
    };
    let status = serve(rt, handles, words, &mut output);
    (status, output)
}

// Connects once the server has said a line, and gives a command. Returns whether it was done.
fn is_answered<R: Net + Clock + AllocGlobal>(rt: &R, signs: &Signs) -> io::Result<bool> {
    let has_said = wait(rt, &signs.said, 0);
    let mut peer = PeerStream::new(rt, PATHS.socket)?;
    peer.send(WALL)?;
    Ok(has_said && peer.is_sent(DONE)?)
}

/// The server says one line, once its three loops run, and a peer that connects then is answered.
#[test]
fn a_server_says_that_its_loops_run(rt: HostRuntime) {
    let (Ok(words), Ok(())) = (PATHS.words(rt.alloc()), PATHS.write_users(&rt)) else {
        panic!(rt; "the server can't begin")
    };
    let signs = Signs {
        loops: AtomicU64::new(0),
        said: AtomicU64::new(0),
    };
    let (shared, given, seen) = (&rt, words.as_slice(), &signs);
    let ((status, output), (answered, ended)) = thread::join(
        shared,
        || serve_counted(shared, rt, given, seen),
        || (is_answered(shared, seen), quit(shared, PATHS.socket)),
    );
    let trail = PATHS.take_trail(&rt);
    assert_eq!(rt; signs.said.load(Ordering::SeqCst), 4);
    assert!(rt; output.text.as_slice() == b"muxd: ready\n".as_slice());
    assert!(rt; matches!(answered, Ok(true)));
    assert!(rt; matches!(ended, Ok(true)));
    assert_eq!(rt; status, 0);
    assert!(rt; trail.is_ok());
}
