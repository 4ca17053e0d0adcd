//! Calls of `mux`.

use crate::line::Line;
use server_client::{Connects, client};
use std::alloc::{AllocError, Global};
use std::fs::{File, Files, OpenOptions};
use std::io;
use std::io::Write;
use std::net::Net;
use std::os::unix::fs::OpenOptionsExt;
use std::os::unix::net::UnixStream;
use std::sync::Wait;
use std::thread::Threads;
use std::time::Clock;

/// A runtime with what a server and its peers ask for, except to wait and to start threads.
pub trait Stage: Net
    + Connects
    + Files<File = File>
    + Clock
    + AllocGlobal
    + Copy
    + Send
    + Sync
    + 'static {}

impl<R> Stage for R
where
    R: Net + Connects + Files<File = File> + Clock + AllocGlobal + Copy + Send + Sync + 'static,
{}

/// Makes a file that only its owner may read and write.
pub fn write_file(rt: &impl Files, path: &str, text: &[u8]) -> io::Result<()> {
    let mut file = OpenOptions::new()
        .write(true)
        .create(true)
        .truncate(true)
        .mode(0o600)
        .open(rt, path)?;
    file.write_all(text)
}

fn owned(alloc: Global, words: &[&str]) -> Result<Vec<String>, AllocError> {
    let mut all = Vec::new(alloc);
    for word in words {
        all.push(String::from_str(alloc, *word)?)?;
    }
    Ok(all)
}

/// A call of `mux`, after its end.
#[derive(Drop)]
pub struct Call {
    pub status: u8,
    /// Its standard output.
    pub output: Line,
    /// Its standard error.
    pub errors: Vec<u8>,
}

/// Runs `mux` with these arguments and with this input.
pub fn answer<R: Stage + Threads + Wait>(rt: &R, words: &[&str], typed: &[u8]) -> io::Result<Call> {
    let (mut keys, input) = Line::new(rt)?;
    let (line, output) = Line::new(rt)?;
    keys.send(typed)?;
    let words = owned(rt.alloc(), words)?;
    let mut errors = Vec::new(rt.alloc());
    let status = client(rt, words.as_slice(), input, output, &mut errors);
    Ok(Call {
        status,
        output: line,
        errors,
    })
}
