//! Lines on their way to standard error: several threads put them down, and one thread writes them.

ghost use Rattle.std.specs.Prelude.{◌≡◌, ◌⊎◌, ◌+◌, ◌-◌, ◌≤◌, ◌==◌, [], length, vec_len, vec_capacity};
ghost use Rattle.server_system.specs.Logging.{IsKept, IsLeftOut};

use jiff::Timestamp;
use libc::net as c;
use libc::types::pollfd;
use std::alloc::Global;
use std::fmt::Display;
use std::io::Write;
use std::os::fd::AsRawFd;
use std::sync::{Condvar, Mutex, Wait};
use std::time::{Clock, Duration};

// The most bytes that wait for the reader of standard error.
const MOST: usize = 65_536;
// How many seconds the writer sleeps at most if nothing comes.
const LOOK: u64 = 3_600;
// How many seconds the reader of standard error has for the last lines.
const PATIENCE: u32 = 5;

// Lines that weren't written yet.
#[derive(Drop)]
struct UnwrittenLines {
    text: Vec<u8>,
    left_out: u64,
    // How many loops run.
    loops: usize,
}

impl UnwrittenLines {
    // Puts a line down. One for which there is no room is left out, and counted.
    fn put(&mut self, line: &[u8])
        ensures put { IsKept line.now self.old self.new ⊎ IsLeftOut self.old self.new }
        ensures room { vec_len self.old.text + length line.now ≤ 65536
            → vec_len self.old.text + length line.now ≤ vec_capacity self.old.text
            → IsKept line.now self.old self.new }
        ensures loops { self.new.loops ≡ self.old.loops }
    {
        let has_room = self.text.len().saturating_add(line.len()) <= MOST;
        if !has_room || self.text.extend_from_slice(line).is_err() {
            self.leave_out();
        }
    }

    // A line is left out.
    fn leave_out(&mut self)
        ensures left_out { IsLeftOut self.old self.new }
        ensures loops { self.new.loops ≡ self.old.loops }
    {
        self.left_out = self.left_out.saturating_add(1);
    }

    // Takes the bytes that wait, and how many lines were left out.
    fn take(&mut self) -> (Vec<u8>, u64)
        ensures text { result.0.items ≡ self.old.text.items }
        ensures left_out { result.1 ≡ self.old.left_out }
        ensures none { (self.new.text.items ≡ []) × (self.new.left_out ≡ 0) }
        ensures loops { self.new.loops ≡ self.old.loops }
    {
        let none = Vec::new(*self.text.allocator());
        let text = std::mem::replace(&mut self.text, none);
        (text, std::mem::replace(&mut self.left_out, 0))
    }

    // A loop has ended. Returns whether it was the last one.
    fn leave(&mut self) -> bool
        ensures loops { self.new ≡ record self.old { loops = self.old.loops - 1 } }
        ensures last { result ≡ (self.new.loops == 0) }
    {
        self.loops = self.loops.saturating_sub(1);
        self.loops == 0
    }
}

/// Shows that all loops have ended.
#[derive(Drop)]
pub struct LastLoop(());

/// Lines on their way to standard error. Loops put them down and one thread writes them: no loop waits for a reader.
#[derive(Drop)]
pub struct Log {
    alloc: Global,
    waiting: Mutex<UnwrittenLines>,
    news: Condvar,
}

impl Log {
    /// No line yet, for this number of loops.
    pub fn new(alloc: Global, loops: usize) -> Log {
        Log {
            alloc,
            waiting: Mutex::new(UnwrittenLines {
                text: Vec::new(alloc),
                left_out: 0,
                loops,
            }),
            news: Condvar::new(),
        }
    }

    /// Puts a line down, with the time. A line for which there is no room is dropped and counted.
    pub fn put<R: Clock + Wait, T: Display>(&self, rt: &R, what: &T) {
        let mut line = Vec::new(self.alloc);
        let is_made = match time(rt) {
            Some(time) => writeln!(line, "muxd: {time} {what}"),
            None => writeln!(line, "muxd: {what}"),
        };
        match is_made {
            Ok(()) => self.waiting.lock(rt).put(&line),
            Err(_) => self.waiting.lock(rt).leave_out(),
        }
        self.news.notify_one();
    }

    /// A loop has ended, and puts nothing more down. Returns what shows that it was the last one, if it was.
    pub fn leave(&self, rt: &impl Wait) -> Option<LastLoop> {
        let was_last = self.waiting.lock(rt).leave();
        self.news.notify_one();
        was_last.then_some(LastLoop(()))
    }

    fn is_over(&self, rt: &impl Wait) -> bool {
        self.waiting.lock(rt).loops == 0
    }

    // Takes the bytes that wait, with a line that counts those that were left out.
    fn take(&self, rt: &impl Wait) -> Vec<u8> {
        let (mut text, left_out) = self.waiting.lock(rt).take();
        if left_out > 0 {
            let _ = writeln!(
                text,
                "muxd: {left_out} lines were left out here: standard error was read too slowly"
            );
        }
        text
    }

    // Waits until standard error has room; after all loops have ended, for some seconds.
    fn await_room<E: AsRawFd>(&self, rt: &impl Wait, errors: &E) -> bool {
        let mut tries = 1..PATIENCE;
        'looks: for _ in rt.forever() {
            if has_room(errors, 1_000) {
                return true;
            }
            if self.is_over(rt) && tries.next().is_none() {
                return false;
            }
        }
        unreachable!()
    }

    // Writes lines, up to a piece that is refused. Returns whether standard error is still waited for.
    fn write<E: Write + AsRawFd>(&self, rt: &impl Wait, errors: &mut E, text: &[u8]) -> bool {
        for piece in text.chunks(PIECE) {
            if !self.await_room(rt, errors) {
                return false;
            }
            if errors.write_all(piece).is_err() {
                return true;
            }
        }
        true
    }

    /// Writes the lines as they come, until all loops have ended. A line that can't be written is
    /// dropped, and so are the last ones if nobody reads them for five seconds.
    pub fn write_all<R: Clock + Wait, E: Write + AsRawFd>(&self, rt: &R, errors: &mut E) {
        for _ in rt.forever() {
            let seen = self.news.notifications();
            let is_over = self.is_over(rt);
            let text = self.take(rt);
            if !self.write(rt, errors, &text) || is_over {
                return;
            }
            self.news.sleep(rt, seen, Duration::from_secs(LOOK));
        }
    }
}

// The time of day, in seconds.
fn time<R: Clock>(rt: &R) -> Option<Timestamp> {
    Timestamp::from_second(i64::try_from(rt.since_1970().ok()?.as_secs()).ok()?).ok()
}

/// A pipe, a terminal or a socket that has room takes this many bytes without waiting.
pub const PIECE: usize = 512;

/// Waits at most this many milliseconds until a file has room, and returns whether it has, or is broken.
pub fn has_room<F: AsRawFd>(file: &F, longest: i32) -> bool {
    let mut asked = [pollfd {
        fd: file.as_raw_fd(),
        events: c::POLLOUT,
        revents: 0,
    }];
    c::poll(&mut asked, longest) != 0
}
