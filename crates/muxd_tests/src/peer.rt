//! One peer's connection, and what its terminal shows.

use crate::frames::QUIT;
use cells::Cell;
use emulator::Emulator;
use std::alloc::{AllocError, Global};
use std::io::{ErrorKind, Read, Write};
use std::net::Net;
use std::os::unix::net::UnixStream;
use std::time::{Clock, Duration};
use std::{io, thread};

const TRIES: usize = 1000;

/// A peer's connection, and all bytes that it got.
#[derive(Drop)]
pub struct PeerStream {
    stream: UnixStream,
    pub came: Vec<u8>,
}

/// Whether a text has these bytes.
pub fn has(text: &[u8], bytes: &[u8]) -> bool {
    for (start, _) in text.iter().enumerate() {
        let (_, rest) = text.split_at(start);
        if rest.starts_with(bytes) {
            return true;
        }
    }
    bytes.is_empty()
}

// The first frame of these bytes: its kind, what it carries, and what comes after it; None if it isn't whole.
fn first_frame(bytes: &[u8]) -> Option<(u8, &[u8], &[u8])> {
    if bytes.len() < 3 {
        return None;
    }
    let (head, rest) = bytes.split_at(3);
    let len = usize::from(u16::from_be_bytes([head[1], head[2]]));
    if rest.len() < len {
        return None;
    }
    let (carried, more) = rest.split_at(len);
    Some((head[0], carried, more))
}

// The bytes of all draws in these frames.
fn drawn(alloc: Global, frames: &[u8]) -> Result<Vec<u8>, AllocError> {
    let mut drawn = Vec::new(alloc);
    let mut rest = frames;
    for _ in 0..frames.len() {
        let Some((kind, carried, more)) = first_frame(rest) else {
            break;
        };
        if kind == b'd' {
            drawn.extend_from_slice(carried)?;
        }
        rest = more;
    }
    Ok(drawn)
}

fn is_blank(line: &[Cell]) -> bool {
    line.iter().all(|cell| cell.character == ' ')
}

// Whether a terminal of 24 by 80 that got these frames shows nothing above its last two lines.
fn shows_nothing(alloc: Global, frames: &[u8]) -> Result<bool, AllocError> {
    let drawn = drawn(alloc, frames)?;
    let Ok(mut emulator) = Emulator::new(alloc, 24, 80, 0) else {
        return Err(AllocError);
    };
    let mut answers = Vec::new(alloc);
    if emulator.feed_all(&drawn, &mut answers).is_err() {
        return Err(AllocError);
    }
    let page = emulator.page(0);
    for line in 0..page.rows().saturating_sub(2) {
        if !is_blank(page.line(line)) {
            return Ok(false);
        }
    }
    Ok(true)
}

impl PeerStream {
    /// Connects to a server at this socket, which may not listen yet.
    pub fn new<R: Net + Clock + AllocGlobal>(rt: &R, socket: &str) -> io::Result<PeerStream> {
        for _ in 0..TRIES {
            if let Ok(stream) = UnixStream::connect(rt, socket) {
                stream.set_read_timeout(Some(Duration::from_secs(10)))?;
                let came = Vec::new(rt.alloc());
                return Ok(PeerStream { stream, came });
            }
            thread::sleep(rt, Duration::from_millis(10));
        }
        Err(io::Error::from(ErrorKind::NotFound))
    }

    pub fn send(&mut self, bytes: &[u8]) -> io::Result<()> {
        self.stream.write_all(bytes)
    }

    // Reads once, and returns how many bytes came.
    fn read(&mut self) -> io::Result<usize> {
        let mut buffer = [0; 1024];
        let count = self.stream.read(&mut buffer)?;
        self.came.extend_from_slice(&buffer[..count])?;
        Ok(count)
    }

    /// Reads until these bytes came, or to the connection's end. Returns whether they came.
    pub fn is_sent(&mut self, bytes: &[u8]) -> io::Result<bool> {
        for _ in 0..TRIES {
            if has(&self.came, bytes) {
                return Ok(true);
            }
            if self.read()? == 0 {
                break;
            }
        }
        Ok(false)
    }

    /// Reads until a terminal that shows what the client drew is blank. Returns whether it is.
    pub fn turns_blank(&mut self) -> io::Result<bool> {
        let alloc = *self.came.allocator();
        for _ in 0..TRIES {
            if shows_nothing(alloc, &self.came)? {
                return Ok(true);
            }
            if self.read()? == 0 {
                break;
            }
        }
        Ok(false)
    }

    /// Reads to the connection's end. Returns whether it came.
    pub fn is_over(&mut self) -> io::Result<bool> {
        for _ in 0..TRIES {
            if self.read()? == 0 {
                return Ok(true);
            }
        }
        Ok(false)
    }
}

/// Ends the server at this socket. Returns whether it did.
pub fn quit<R: Net + Clock + AllocGlobal>(rt: &R, socket: &str) -> io::Result<bool> {
    let mut peer = PeerStream::new(rt, socket)?;
    peer.send(QUIT)?;
    peer.is_over()
}
