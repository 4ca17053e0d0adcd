//! What a server says while it serves: that it is ready, and what becomes of its trail's file.

use crate::ending::ReadySaid;
use program_words::SystemError;
use server_system::Log;
use server_trail::{DiskNews, DiskWatch, MOST, NeverReady, Recorder};
use std::fmt::{self, Display, Formatter};
use std::io::{self, Write};
use std::sync::Wait;
use std::time::Clock;

/// Where a server says that it is ready, which it hasn't said yet.
#[derive(Drop)]
pub struct Unsaid<'a, O>(&'a mut O);

impl<O> NeverReady for Unsaid<'_, O> {}

impl<'a, O: Write> Unsaid<'a, O> {
    /// It is to be said at this output.
    pub fn new(output: &'a mut O) -> Unsaid<'a, O> {
        Unsaid(output)
    }

    /// Says it. If that fails, it isn't said.
    pub fn say(self) -> Result<ReadySaid, (io::Error, Unsaid<'a, O>)> {
        let Unsaid(output) = self;
        match ReadySaid::write(output) {
            Ok(said) => Ok(said),
            Err(error) => Err((error, Unsaid(output))),
        }
    }
}

// What becomes of the trail's file at this path, and how many bytes wait for it.
#[derive(Clone, Copy)]
struct DiskLine<'a> {
    path: &'a str,
    news: DiskNews,
    waiting: usize,
}

impl Display for DiskLine<'_> {
    fn fmt<W: fmt::Write>(&self, f: &mut Formatter<W>) -> fmt::Result {
        let (path, waiting) = (self.path, self.waiting);
        match self.news {
            DiskNews::Refuses(error, _) => write!(
                f,
                "trail {path}: can't write it: {}: {waiting} bytes wait: make room before {MOST} do",
                SystemError(error)
            ),
            DiskNews::Resumes => write!(f, "trail {path}: it is written again"),
            DiskNews::Unsynced(error) => write!(
                f,
                "trail {path}: it may not be whole on the disk: a sync failed: {}: check its disk",
                SystemError(error)
            ),
        }
    }
}

/// Writes to the log what becomes of the trail's file.
#[derive(Clone, Copy)]
pub struct DiskLog<'a, R: Clock + Wait> {
    pub rt: &'a R,
    pub log: &'a Log,
    pub recorder: &'a Recorder,
    pub path: &'a str,
}

impl<R: Clock + Wait> DiskWatch for DiskLog<'_, R> {
    fn tell(&self, news: DiskNews) {
        let waiting = match news {
            DiskNews::Refuses(_, left) => self.recorder.waiting(self.rt).saturating_add(left),
            _ => 0,
        };
        let line = DiskLine {
            path: self.path,
            news,
            waiting,
        };
        self.log.put(self.rt, &line);
    }
}
