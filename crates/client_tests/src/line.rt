//! Our end of a peer's standard input or output.

use std::io;
use std::io::{ErrorKind, Read, Write};
use std::net::Net;
use std::os::unix::net::UnixStream;
use std::time::Duration;

const TRIES: usize = 1000;

/// One end of a pair of sockets, and all bytes that came from the other one.
#[derive(Drop)]
pub struct Line {
    stream: UnixStream,
    came: Vec<u8>,
}

/// Whether a text has these bytes.
pub fn has(text: &[u8], bytes: &[u8]) -> bool {
    for (start, _) in text.iter().enumerate() {
        let (_, rest) = text.split_at(start);
        if rest.starts_with(bytes) {
            return true;
        }
    }
    bytes.is_empty()
}

impl Line {
    /// A line, and the end that a peer gets.
    pub fn new<R: Net + AllocGlobal>(rt: &R) -> io::Result<(Line, UnixStream)> {
        let (stream, theirs) = UnixStream::pair(rt)?;
        stream.set_read_timeout(Some(Duration::from_secs(10)))?;
        let came = Vec::new(rt.alloc());
        Ok((Line { stream, came }, theirs))
    }

    pub fn send(&mut self, bytes: &[u8]) -> io::Result<()> {
        self.stream.write_all(bytes)
    }

    /// Whether these bytes are among those that came by now.
    pub fn has_sent(&mut self, bytes: &[u8]) -> io::Result<bool> {
        self.stream
            .set_read_timeout(Some(Duration::from_millis(1)))?;
        match self.is_sent(bytes) {
            Err(error) if error.kind() == ErrorKind::WouldBlock => Ok(false),
            found => found,
        }
    }

    /// Reads until these bytes came, at most ten seconds long for each read. Returns whether they
    /// came.
    pub fn is_sent(&mut self, bytes: &[u8]) -> io::Result<bool> {
        let mut buffer = [0; 1024];
        for _ in 0..TRIES {
            if has(&self.came, bytes) {
                return Ok(true);
            }
            let count = self.stream.read(&mut buffer)?;
            if count == 0 {
                break;
            }
            self.came.extend_from_slice(&buffer[..count])?;
        }
        Ok(false)
    }
}
