//! Judges the lines of a trail's entries, one after another.

ghost use Rattle.std.specs.Prelude.{◌≡◌, List, [], IfOk};
ghost use Rattle.acl.specs.declared.leaders.Edition.{Edition};
ghost use Rattle.acl.specs.declared.user_id.UserId.{UserId};
ghost use Rattle.hub.specs.Trails.{Entry};
ghost use Rattle.hub.specs.Legal.{acts_after};
ghost use Rattle.hub.specs.Following.{StandsAfter};
ghost use Rattle.trail_lines.specs.Reading.{HasRead, Tells};
ghost use Rattle.trail_lines.specs.Times.{no_times, time_after};
ghost use Rattle.trail_lines.specs.declared.audit.Wrong.TheVariants.{NoMemory};

use crate::UnreadLine;
use crate::entries::{EntryLine, read_line};
use acl::{Edition, UserId};
use hub::{Judge, Rights};
use std::alloc::{AllocError, Global};
use thiserror::Error;

/// What is wrong with the line of the next entry.
#[derive(Clone, Copy, PartialEq, Eq, Debug, Error)]
pub enum Wrong {
    #[error("no entry is spelled so")]
    NoEntry,
    #[error("another entry's place stands there")]
    OtherPlace,
    /// The entry isn't legal, or tables can't judge it. They can judge each entry of a run.
    #[error("the entry isn't legal")]
    Illegal,
    #[error("out of memory")]
    NoMemory,
}

impl From<AllocError> for Wrong {
    ghost from_gives = { λ _ e. e ≡ NoMemory };

    fn from(_e: AllocError) -> Wrong {
        Wrong::NoMemory
    }
}

/// Reads and judges entries, line by line. It keeps tables of rights, locks and clients, and no entry.
pub struct Audit {
    alloc: Global,
    judge: Judge,
    /// How many entries were read.
    next: u64,
    times: Times,
}

impl Drop for Audit {
    fn drop(self) {
        let Audit {
            alloc: _,
            judge: _,
            next: _,
            times: _,
        } = self;
    }
}

impl Audit {
    /// Before the first line.
    pub fn new(alloc: Global, edition: Edition, owner: UserId) -> Result<Audit, AllocError>
        ensures begun { IfOk result (λ audit. HasRead audit edition owner []) }
        ensures times { IfOk result (λ audit. audit.times ≡ no_times) }
    {
        let judge = Judge::new(alloc, edition, owner)?;
        Ok(Audit {
            alloc,
            judge,
            next: 0,
            times: Times::new(),
        })
    }

    /// How many entries were read.
    pub fn count(&self) -> u64
        ensures { result ≡ self.now.next }
    {
        self.next
    }

    /// The time of the last entry, and the first entry whose time runs backwards.
    pub fn times(&self) -> Times
        ensures { result ≡ self.now.times }
    {
        self.times
    }

    /// Takes the line of the next entry, without its line feed, and returns what it says. After an
    /// `Err` the audit must not be used again.
    pub fn take(&mut self, line: &[u8]) -> Result<EntryLine, Wrong>
        ensures tells { (edition : Edition) (owner : UserId) (entries : List Entry) →
            HasRead self.old edition owner entries →
            Tells result self.new line.now edition owner entries }
        ensures times { IfOk result (λ l. self.new.times ≡ time_after self.old.times l.place l.ms) }
    {
        let said = match read_line(self.alloc, line) {
            Ok(said) => said,
            Err(UnreadLine::Malformed) => return Err(Wrong::NoEntry),
            Err(UnreadLine::NoMemory) => return Err(Wrong::NoMemory),
        };
        if said.place != self.next {
            return Err(Wrong::OtherPlace);
        }
        let Some(next) = self.next.checked_add(1) else {
            return Err(Wrong::NoMemory);
        };
        if !self.judge.take(&said.entry)? {
            return Err(Wrong::Illegal);
        }
        self.next = next;
        self.times = self.times.after(said.place, said.ms);
        Ok(said)
    }

    /// Rights, locks and clients after the entries that were read.
    pub fn replay(&self) -> &Rights
        ensures { (edition : Edition) (owner : UserId) (entries : List Entry) →
            HasRead self.now edition owner entries →
            StandsAfter result.now edition owner (acts_after [] entries) }
    {
        self.judge.rights()
    }
}

/// A time may be up to this many milliseconds before the time of the entry above: the loops of a server
/// share the stamp of their lines, and one loop may overtake another.
const SLACK: u64 = 1_000;

/// The time of the last entry, and the first entry whose time runs backwards.
#[derive(Clone, Copy)]
pub struct Times {
    /// The time of the last entry, in milliseconds since 1970.
    last: u64,
    /// The place of the first entry whose time is more than a second before that of the entry above.
    back: Option<u64>,
}

impl Times {
    /// Before the first entry.
    pub fn new() -> Times
        ensures { result ≡ no_times }
    {
        Times {
            last: 0,
            back: None,
        }
    }

    /// After the time of the next entry, which has this place.
    pub fn after(self, place: u64, ms: u64) -> Times
        ensures { result ≡ time_after self place ms }
    {
        let back = match self.back {
            Some(first) => Some(first),
            None if self.last.saturating_sub(ms) > SLACK => Some(place),
            None => None,
        };
        Times { last: ms, back }
    }

    /// The place of the first entry whose time is more than a second before that of the entry above.
    pub fn back(&self) -> Option<u64>
        ensures { result ≡ self.now.back }
    {
        self.back
    }
}
