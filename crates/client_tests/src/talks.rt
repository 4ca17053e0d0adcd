//! Plays the talks of `mux` with a server.

use crate::calling::{Stage, answer, write_file};
use crate::line::has;
use crate::table::{
    AGAIN, ASSISTED, ATTACH, COMMAND, MISTAKES, Peer, RESTORING, SESSION, SOCKET, STAYING, TALKS,
    TOKEN, TOKEN_TEXT, Talk, UNMARKED, WINDOW,
};
use std::io::{Read, Write};
use std::net::Shutdown;
use std::os::unix::net::{UnixListener, UnixStream};
use std::sync::Wait;
use std::thread::Threads;
use std::time::Duration;
use std::{fs, io, thread};

// Reads until these bytes came. Returns whether they came.
fn awaits(stream: &mut UnixStream, came: &mut Vec<u8>, bytes: &[u8]) -> io::Result<bool> {
    let mut buffer = [0; 1024];
    for _ in 0..1000 {
        if has(came, bytes) {
            return Ok(true);
        }
        let count = stream.read(&mut buffer)?;
        if count == 0 {
            break;
        }
        came.extend_from_slice(&buffer[..count])?;
    }
    Ok(false)
}

// Says no more, and reads until the peer has gone: what nobody reads would be a fault of its connection, and no end.
fn leave(stream: &mut UnixStream) -> io::Result<()> {
    let mut buffer = [0; 1024];
    stream.set_read_timeout(Some(Duration::from_secs(1)))?;
    stream.shutdown(Shutdown::Write)?;
    for _ in 0..1000 {
        if stream.read(&mut buffer)? == 0 {
            break;
        }
    }
    Ok(())
}

// Serves the first connection of a peer that comes back, and goes.
fn serve_first<R: Stage>(rt: &R, listener: &UnixListener, talk: Talk) -> io::Result<()> {
    let (mut stream, _) = listener.accept()?;
    let mut came = Vec::new(rt.alloc());
    stream.write_all(talk.first)?;
    let awaited = match talk.peer {
        Peer::Telling => b"O\0\x07printed",
        _ => talk.awaited,
    };
    awaits(&mut stream, &mut came, awaited)?;
    if matches!(talk.peer, Peer::Again) {
        stream.write_all(b"d\0\x03\x1b[?")?;
    }
    // The peer may have gone.
    let _ = leave(&mut stream);
    Ok(())
}

// Serves one talk. Returns whether what it waits for came.
fn serve<R: Stage>(rt: &R, listener: &UnixListener, talk: Talk) -> io::Result<bool> {
    if matches!(talk.peer, Peer::Again | Peer::Telling) {
        serve_first(rt, listener, talk)?;
    }
    let (mut stream, _) = listener.accept()?;
    let mut came = Vec::new(rt.alloc());
    stream.write_all(talk.first)?;
    let has_come = awaits(&mut stream, &mut came, talk.awaited)?;
    // The client may have gone.
    let _ = stream.write_all(talk.last);
    Ok(has_come)
}

// Whether `mux` ends with the status, and has written what it must write.
fn call<R: Stage + Threads + Wait>(rt: &R, talk: Talk) -> io::Result<bool> {
    let mut came = match talk.peer {
        Peer::Client => answer(rt, &ATTACH, talk.typed)?,
        Peer::Assisted => answer(rt, &ASSISTED, talk.typed)?,
        Peer::Again => answer(rt, &AGAIN, talk.typed)?,
        Peer::Staying | Peer::Telling => answer(rt, &STAYING, talk.typed)?,
        Peer::Window => answer(rt, &WINDOW, talk.typed)?,
        Peer::Command => answer(rt, &COMMAND, talk.typed)?,
    };
    let has_written = came.output.is_sent(talk.written)?;
    let keeps_back = talk.kept_back.is_empty() || !came.output.has_sent(talk.kept_back)?;
    let has_told = has(&came.errors, talk.told);
    Ok(came.status == talk.status && has_written && keeps_back && has_told)
}

// Whether `mux` refuses these arguments, and says so.
fn is_refused<R: Stage + Threads + Wait>(rt: &R, words: &[&str], told: &[u8]) -> bool {
    match answer(rt, words, b"") {
        Ok(came) => came.status == 2 && came.errors.starts_with(told),
        Err(_) => false,
    }
}

// Whether both sides of a talk went as they must.
fn is_right(served: io::Result<bool>, called: io::Result<bool>) -> bool {
    matches!((served, called), (Ok(true), Ok(true)))
}

/// What is typed is sent, what is drawn or said is written, and the status is that of the end.
#[test]
fn talks_go_as_they_must(rt: HostRuntime) {
    let Ok(listener) = UnixListener::bind(&rt, SOCKET) else {
        panic!(rt; "no socket")
    };
    let Ok(()) = write_file(&rt, TOKEN, TOKEN_TEXT) else {
        panic!(rt; "a file can't be written")
    };
    let (shared, door) = (&rt, &listener);
    // Without a mark a window doesn't come back.
    let unmarked = thread::join(
        shared,
        || serve_first(shared, door, UNMARKED),
        || call(shared, UNMARKED),
    );
    // The mark of this socket's server is as new as the socket.
    for (path, text) in [(SESSION, b"1".as_slice()), (RESTORING, b"")] {
        let Ok(()) = write_file(&rt, path, text) else {
            panic!(rt; "a file can't be written")
        };
    }
    let mut wrong = None;
    for (place, talk) in TALKS.iter().enumerate() {
        let talk = *talk;
        let (served, called) = thread::join(
            shared,
            || serve(shared, door, talk),
            || call(shared, talk),
        );
        if !is_right(served, called) {
            wrong = Some(place);
        }
    }
    let mistakes = MISTAKES
        .iter()
        .all(|(words, told)| is_refused(&rt, words, told));
    for path in [TOKEN, SESSION, RESTORING, SOCKET] {
        let _ = fs::remove_file(&rt, path);
    }
    assert!(rt; matches!(unmarked, (Ok(()), Ok(true))));
    assert_eq!(rt; wrong, None);
    assert!(rt; mistakes);
}
