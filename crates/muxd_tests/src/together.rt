//! A server of three loops, an owner, a second user and a window.

use crate::gate::{FirstCallGate, GateCalls};
use crate::peer::has;
use crate::served::{Paths, serve};
use crate::turns::first_wrong;
use server::{Handles, SetupHost};
use std::sync::Wait;
use std::thread;
use std::thread::Threads;

const PATHS: Paths = Paths {
    folder: "muxd_tests",
    socket: "muxd_tests/socket",
    lock: "muxd_tests/socket.lock",
    users: "muxd_tests/users",
    trail: "muxd_tests/trail",
};

// Serves until a peer gives `quit`. The server's output is dropped.
fn serve_calls<R: SetupHost + Threads + Wait>(
    rt: &R,
    runtime: HostRuntime,
    words: &[String],
    calls: &GateCalls,
) -> u8 {
    let mut output: Vec<u8> = Vec::new(rt.alloc());
    let gate = FirstCallGate {
        runtime,
        calls,
        digit: 9,
    };
    let handles = Handles {
        files: runtime,
        gate,
    };
    serve(rt, handles, words, &mut output)
}

// Whether these are the lines of a trail of 20 entries: ten commands, two windows, two clients, and six times
// that they typed. Keys that wait are one time, up to those that give a command.
fn is_whole(trail: &[u8]) -> bool {
    trail.starts_with(b"mux-trail 1 2 own ")
        && has(trail, b"\nend 20 ")
        && trail.ends_with(b" quit\n")
}

/// Besides a server that doesn't do its peers' requests, this finds a server that hands all
/// connections to one loop, and loops that hold a lock over a whole turn: the call that is held then
/// waits for another one that can't come, and is answered before it.
#[test]
fn a_server_and_its_peers(rt: HostRuntime) {
    let alloc = rt.alloc();
    let (Ok(words), Ok(())) = (PATHS.words(alloc), PATHS.write_users(&rt)) else {
        panic!(rt; "the server can't begin")
    };
    let calls = GateCalls::new();
    let (shared, given, seen) = (&rt, words.as_slice(), &calls);
    let (status, wrong) = thread::join(
        shared,
        || serve_calls(shared, rt, given, seen),
        || first_wrong(shared, PATHS.socket, seen),
    );
    let has_whole_trail = match PATHS.take_trail(&rt) {
        Ok(trail) => is_whole(&trail),
        Err(_) => false,
    };
    assert_eq!(rt; wrong, None);
    assert_eq!(rt; status, 0);
    assert!(rt; has_whole_trail);
    assert_eq!(rt; calls.loops(), 1_012_012);
}
