//! Streams of memory.

ghost use Rattle.std.specs.Io.{ReadsAtMost, WritesAtMost};

use crate::Stop;
use std::alloc::{AllocError, Global};
use std::cell::RefCell;
use std::io;
use std::io::{ErrorKind, Read, Write};
use std::rc::Rc;

// Room that each end has from the beginning.
const ROOM: usize = 16_384;

/// How a stream behaves.
#[derive(Clone, Copy)]
pub enum Habit {
    /// All bytes at each call.
    Whole,
    /// One byte a call.
    Steady,
    /// One byte at every other read, and at every other write. The other calls would wait.
    Slow,
    /// One byte a call. The call of this number fails with this error.
    Once(usize, ErrorKind),
    /// All bytes at each read. Writes take this many bytes in all, and none after them.
    Takes(usize),
    /// All bytes at each read. The first writes, this many, take nothing, and the later ones all.
    Later(usize),
}

/// What became of a stream.
#[derive(Drop)]
pub struct StreamLog {
    /// What the loop wrote, as far as it was taken.
    pub bytes: Vec<u8>,
    /// How many calls the loop made.
    pub calls: usize,
    /// How many bytes the loop read.
    pub read: usize,
}

#[derive(Drop)]
struct Passing {
    habit: Habit,
    // What the loop reads, and how much of it was read.
    input: Vec<u8>,
    read: usize,
    ends: bool,
    // What the loop wrote.
    taken: Vec<u8>,
    reads: usize,
    writes: usize,
}

/// The end of a stream that a loop has.
#[derive(Drop)]
pub struct Near {
    passing: Rc<RefCell<Passing>>,
}

/// The end of a stream that the peer has.
#[derive(Drop)]
pub struct Far {
    passing: Rc<RefCell<Passing>>,
}

/// Both ends of a stream.
pub fn ends(alloc: Global, habit: Habit) -> Result<(Near, Far), AllocError> {
    let mut input = Vec::new(alloc);
    input.reserve(ROOM)?;
    let mut taken = Vec::new(alloc);
    taken.reserve(ROOM)?;
    let passing = Passing {
        habit,
        input,
        read: 0,
        ends: false,
        taken,
        reads: 0,
        writes: 0,
    };
    let near = Rc::new(alloc, RefCell::new(passing))?;
    let far = near.clone()?;
    Ok((Near { passing: near }, Far { passing: far }))
}

impl Far {
    /// Sends bytes to the loop.
    pub fn send(&self, bytes: &[u8]) -> Result<(), AllocError> {
        match self.passing.try_borrow_mut() {
            Ok(mut passing) => passing.input.extend_from_slice(bytes),
            Err(_) => Ok(()),
        }
    }

    /// Ends the connection after what was sent.
    pub fn end(&self) {
        if let Ok(mut passing) = self.passing.try_borrow_mut() {
            passing.ends = true;
        }
    }

    pub fn set_habit(&self, habit: Habit) {
        if let Ok(mut passing) = self.passing.try_borrow_mut() {
            passing.habit = habit;
        }
    }

    /// What became of it.
    pub fn sent(&self, alloc: Global) -> Result<StreamLog, Stop> {
        match self.passing.try_borrow() {
            Ok(passing) => Ok(passing.sent(alloc)?),
            Err(_) => Err(Stop::Other("a stream is in use")),
        }
    }
}

fn would_wait() -> io::Error {
    io::Error::from(ErrorKind::WouldBlock)
}

impl Passing {
    fn calls(&self) -> usize {
        self.reads.saturating_add(self.writes)
    }

    fn sent(&self, alloc: Global) -> Result<StreamLog, AllocError> {
        Ok(StreamLog {
            bytes: Vec::from_slice(alloc, self.taken.as_slice())?,
            calls: self.calls(),
            read: self.read,
        })
    }

    // How many bytes may pass at the call of this number, before which there were `count` reads or
    // writes like it.
    fn allows(&self, call: usize, count: usize) -> io::Result<usize> {
        match self.habit {
            Habit::Whole | Habit::Takes(_) | Habit::Later(_) => Ok(usize::MAX),
            Habit::Slow if count % 2 == 0 => Err(would_wait()),
            Habit::Once(at, kind) if call == at => Err(io::Error::from(kind)),
            _ => Ok(1),
        }
    }

    fn begin_read(&mut self) -> io::Result<usize> {
        let (call, count) = (self.calls(), self.reads);
        self.reads = count.saturating_add(1);
        self.allows(call, count)
    }

    fn begin_write(&mut self) -> io::Result<usize> {
        let (call, count) = (self.calls(), self.writes);
        self.writes = count.saturating_add(1);
        self.allows(call, count)
    }

    fn read_some(&mut self, buf: &mut [u8]) -> io::Result<usize>
        ensures { ReadsAtMost result buf.new }
    {
        let most = self.begin_read()?;
        let Some(rest) = self.input.get(self.read..) else {
            return Err(would_wait());
        };
        if rest.is_empty() {
            return if self.ends { Ok(0) } else { Err(would_wait()) };
        }
        let mut piece = match rest.get(..most) {
            Some(piece) => piece,
            None => rest,
        };
        let count = piece.read(buf)?;
        self.read = self.read.saturating_add(count);
        Ok(count)
    }

    fn write_some(&mut self, buf: &[u8]) -> io::Result<usize>
        ensures { WritesAtMost result buf.now }
    {
        let mut most = self.begin_write()?;
        match self.habit {
            Habit::Takes(all) => most = all.saturating_sub(self.taken.len()),
            Habit::Later(0) => most = usize::MAX,
            Habit::Later(times) => {
                self.habit = Habit::Later(times.saturating_sub(1));
                most = 0;
            }
            _ => {}
        }
        if most == 0 {
            return Err(would_wait());
        }
        let piece = match buf.get(..most) {
            Some(piece) => piece,
            None => buf,
        };
        self.taken.extend_from_slice(piece)?;
        Ok(piece.len())
    }
}

impl Read for Near {
    fn read(&mut self, buf: &mut [u8]) -> io::Result<usize> {
        match self.passing.try_borrow_mut() {
            Ok(mut passing) => passing.read_some(buf),
            Err(_) => Err(would_wait()),
        }
    }
}

impl Write for Near {
    fn write(&mut self, buf: &[u8]) -> io::Result<usize> {
        match self.passing.try_borrow_mut() {
            Ok(mut passing) => passing.write_some(buf),
            Err(_) => Err(would_wait()),
        }
    }

    fn flush(&mut self) -> io::Result<()> {
        Ok(())
    }
}
