//! A file in memory that is slow, or refuses.

use server_trail::TrailFile;
use std::alloc::Global;
use std::io::{self, ErrorKind, Write};
use std::thread;
use std::time::{Clock, Duration};

/// A file in memory.
#[derive(Drop)]
pub struct MemoryFile<'r, R: Clock> {
    rt: &'r R,
    pub text: Vec<u8>,
    /// How many bytes a write takes at most.
    pub most: usize,
    /// How long each write takes, in milliseconds.
    pub pause: u64,
    /// How many writes are refused from now on, each after one that took some.
    pub refused: u32,
    /// The last write took some.
    has_taken: bool,
    pub syncs: u32,
}

impl<'r, R: Clock> MemoryFile<'r, R> {
    pub fn new(rt: &'r R, alloc: Global) -> MemoryFile<'r, R> {
        MemoryFile {
            rt,
            text: Vec::new(alloc),
            most: usize::MAX,
            pause: 0,
            refused: 0,
            has_taken: false,
            syncs: 0,
        }
    }
}

impl<'r, R: Clock> Write for MemoryFile<'r, R> {
    fn write(&mut self, buf: &[u8]) -> io::Result<usize> {
        thread::sleep(self.rt, Duration::from_millis(self.pause));
        if self.refused > 0 && self.has_taken {
            self.refused -= 1;
            self.has_taken = false;
            return Err(io::Error::from(ErrorKind::Other));
        }
        let count = buf.len().min(self.most);
        self.text.extend_from_slice(&buf[..count])?;
        self.has_taken = true;
        Ok(count)
    }

    fn flush(&mut self) -> io::Result<()> {
        Ok(())
    }
}

impl<'r, R: Clock> TrailFile for MemoryFile<'r, R> {
    fn sync(&mut self) -> io::Result<()> {
        self.syncs = self.syncs.saturating_add(1);
        Ok(())
    }
}
