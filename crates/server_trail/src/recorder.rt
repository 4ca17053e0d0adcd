//! Lines on their way to a trail's file: several threads put them down, and one thread writes them.

ghost use Rattle.std.specs.Prelude.{◌≡◌, IfOk};
ghost use Rattle.std.specs.Option.{option_copied};
ghost use Rattle.server_trail.specs.Runs.{IsLine};
ghost use Rattle.server_trail.specs.Stopping.{stop_cause};
ghost use Rattle.server_trail.specs.Waiting.{IsEntrys};

use crate::file::{StopCause, time};
use crate::waiting::{EntryLine, Left, PutLine, Stopped, WaitingLines};
use hub::TrailEntry;
use std::alloc::Global;
use std::sync::atomic::{AtomicU64, Ordering};
use std::sync::{Condvar, Mutex, OnceLock, Wait};
use std::time::Clock;

/// The lines of a session's trail on their way to a file. Loops put them down and one thread
/// writes them, so that no loop waits for the disk.
#[derive(Drop)]
pub struct Recorder {
    pub(crate) alloc: Global,
    pub(crate) waiting: Mutex<WaitingLines>,
    pub(crate) news: Condvar,
    // The stamp of lines, in milliseconds since 1970.
    pub(crate) ms: AtomicU64,
    stopped: OnceLock<Stopped>,
}

/// Shows that a file hadn't stopped.
#[derive(Clone, Copy)]
pub struct Open(());

/// Why a file stopped, if it did.
pub fn cause_of(stop: Result<Open, Stopped>) -> Option<StopCause>
    ensures { result ≡ stop_cause stop }
{
    match stop {
        Ok(_) => None,
        Err(stopped) => Some(stopped.cause()),
    }
}

impl Recorder {
    /// No line yet, for this number of loops.
    pub fn new(alloc: Global, loops: usize) -> Recorder {
        Recorder {
            alloc,
            waiting: Mutex::new(WaitingLines::new(alloc, loops)),
            news: Condvar::new(),
            ms: AtomicU64::new(0),
            stopped: OnceLock::new(),
        }
    }

    /// Takes the time of day, which lines have from now on. If the clock fails, the time stays.
    pub fn set_time<R: Clock>(&self, rt: &R) {
        if let Some(ms) = time(rt) {
            self.ms.store(ms, Ordering::SeqCst);
        }
    }

    /// Puts down the line of an entry, which stands at this place in the trail; None if memory was
    /// refused for a copy of the entry. Once the file has stopped, nothing is put down.
    pub fn put<'e>(
        &self,
        rt: &impl Wait,
        place: usize,
        entry: Option<&'e TrailEntry>,
    ) -> Result<PutLine<'e>, Stopped>
        ensures { IfOk result (IsEntrys place (option_copied entry.entry)) }
    {
        self.look()?;
        let ms = self.ms.load(Ordering::SeqCst);
        let Some(line) = EntryLine::of(self.alloc, place, ms, entry) else {
            return Err(self.lose(rt));
        };
        let put = self.put_line(rt, line)?;
        if put.is_news() {
            self.news.notify_one();
        }
        Ok(put)
    }

    // Puts a line down, unless the file has stopped meanwhile.
    fn put_line<'e>(&self, rt: &impl Wait, line: EntryLine<'e>) -> Result<PutLine<'e>, Stopped>
        requires { IsLine (line.place, line.text.items) }
        ensures { IfOk result (λ put. (put.place ≡ line.entry.place) × (put.source.now ≡ line.entry.source.now)) }
    {
        let mut waiting = self.waiting.lock(rt);
        self.look()?;
        let put = waiting.take_in(line);
        if let Err(stopped) = &put {
            let _ = self.stopped.set(rt, *stopped);
        }
        put
    }

    // There was no memory for a line: the file stops before the next one.
    fn lose(&self, rt: &impl Wait) -> Stopped {
        let waiting = self.waiting.lock(rt);
        if let Err(stopped) = self.look() {
            return stopped;
        }
        let stopped = waiting.lose();
        let _ = self.stopped.set(rt, stopped);
        stopped
    }

    /// How many bytes wait for the writer.
    pub fn waiting(&self, rt: &impl Wait) -> usize {
        self.waiting.lock(rt).bytes()
    }

    /// What shows that the file hasn't stopped yet, or that it can't go on.
    pub fn look(&self) -> Result<Open, Stopped> {
        match self.stopped.get() {
            Some(stopped) => Err(*stopped),
            None => Ok(Open(())),
        }
    }

    /// What shows that the file can't go on; None as long as it can.
    pub fn stop(&self) -> Option<Stopped> {
        self.look().err()
    }

    /// A loop has ended, and puts nothing more down. What shows that it is counted so.
    pub fn leave(&self, rt: &impl Wait) -> Left {
        let left = self.waiting.lock(rt).leave();
        self.news.notify_one();
        left
    }
}
