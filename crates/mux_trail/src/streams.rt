//! A file that grows while it is read, and standard output, which may take no more.

ghost use Rattle.std.specs.Prelude.{◌≡◌, is_err};
ghost use Rattle.std.specs.Io.{ReadsAtMost, WritesAtMost};
ghost use Rattle.std.specs.Io.KnownBytes.{WriteAppends};
ghost use Rattle.mux_trail.specs.Statuses.{fault_with};

use std::io::{self, Read, Write};
use std::thread;
use std::time::{Clock, Duration};
use trail_files::TrailFault;

/// The pause between looks at the end of the file, in milliseconds; after `QUIET` looks without news it is longer.
const PAUSE: u64 = 100;

const QUIET: u64 = 100;

const LONG_PAUSE: u64 = 1000;

/// A file without an end: at the end of the file, reading waits for more.
#[derive(Drop)]
pub struct Following<'a, R, F> {
    pub rt: &'a R,
    pub file: F,
}

impl<R: Clock, F: Read + Drop> Following<'_, R, F> {
    /// Reads what the file has next, and waits until it has more.
    fn read_next(&mut self, buf: &mut [u8]) -> io::Result<usize>
        ensures { ReadsAtMost result buf.new }
    {
        for looks in 0..u64::MAX {
            let count = self.file.read(buf)?;
            if count > 0 || buf.is_empty() {
                return Ok(count);
            }
            let pause = if looks < QUIET { PAUSE } else { LONG_PAUSE };
            thread::sleep(self.rt, Duration::from_millis(pause));
        }
        Ok(0)
    }
}

impl<R: Clock, F: Read + Drop> Read for Following<'_, R, F> {
    fn read(&mut self, buf: &mut [u8]) -> io::Result<usize> {
        self.read_next(buf)
    }
}

/// Standard output, and whether a write to it failed.
#[derive(Drop)]
pub struct Outlet<'a, W> {
    output: &'a mut W,
    has_failed: bool,
}

impl<'a, W: Write> Outlet<'a, W> {
    pub fn new(output: &'a mut W) -> Outlet<'a, W> {
        Outlet {
            output,
            has_failed: false,
        }
    }

    /// The fault that stopped the program, which is one of standard output if that failed.
    pub fn fault_of(&self, fault: TrailFault) -> TrailFault
        ensures { result ≡ fault_with self.now.has_failed fault }
    {
        match fault {
            TrailFault::Io(error) if self.has_failed => TrailFault::NotWritten(error),
            fault => fault,
        }
    }

    /// Writes once, and notes whether that failed.
    fn write_some(&mut self, buf: &[u8]) -> io::Result<usize>
        ensures bound { WritesAtMost result buf.now }
        ensures bytes { WriteAppends (W.contents self.old.output.now) (W.contents self.new.output.now) result buf.now }
        ensures failed { self.new.has_failed ≡ is_err result }
    {
        let written = self.output.write(buf);
        self.has_failed = written.is_err();
        written
    }
}

impl<W: Write> Write for Outlet<'_, W> {
    ghost contents = { λ o. W.contents o.output.now };

    fn write(&mut self, buf: &[u8]) -> io::Result<usize> {
        self.write_some(buf)
    }

    fn flush(&mut self) -> io::Result<()> {
        let flushed = self.output.flush();
        self.has_failed = flushed.is_err();
        flushed
    }
}
