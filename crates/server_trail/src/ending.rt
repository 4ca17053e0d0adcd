//! What becomes of a trail's file after its last line. Only what stands here says that it may be read back.

ghost use Rattle.std.specs.Prelude.{◌≡◌, Err, false, if◌then◌else◌, is_none};
ghost use Rattle.server_trail.specs.Faults.{fault_in, fault_of, noted_as, read_as};
ghost use Rattle.server_trail.specs.declared.journal.JournalFault.TheVariants.{Unended};

use crate::file::StopCause;
use crate::journal::JournalFault;
use crate::reading::ReadBack;
use crate::recorder::{Open, cause_of};
use crate::waiting::Stopped;
use crate::writing::NoEnd;
use program_words::SystemError;
use std::io;
use trail_disk::{Disk, TrailFile};

// The fault of a file, from why it stopped, whether its last line was written, and the errors of its last write
// and of a sync.
fn fault_of(
    stopped: Option<StopCause>,
    is_ended: bool,
    refused: Option<io::Error>,
    unsynced: Option<io::Error>,
) -> Option<JournalFault>
    ensures { result ≡ fault_of stopped is_ended refused unsynced }
{
    match stopped {
        Some(StopCause::Memory) => return Some(JournalFault::Memory),
        Some(StopCause::Disk) => match refused {
            Some(error) => return Some(JournalFault::Refused(SystemError(error))),
            None => return Some(JournalFault::TooSlow),
        },
        None => {}
    }
    if !is_ended {
        if let Some(error) = refused {
            return Some(JournalFault::Cut(SystemError(error)));
        }
    }
    match unsynced {
        Some(error) => Some(JournalFault::Unsynced(SystemError(error))),
        None if is_ended => None,
        None => Some(JournalFault::Unended),
    }
}

// What came of reading a file back.
fn read_as(back: io::Result<Option<ReadBack>>) -> Result<ReadBack, JournalFault>
    ensures { result ≡ read_as back }
{
    match back {
        Ok(Some(back)) => Ok(back),
        Ok(None) => Err(JournalFault::Differs),
        Err(error) => Err(JournalFault::NotRead(SystemError(error))),
    }
}

/// Whether nothing is written to a file any more, and what came of it.
#[derive(Drop)]
pub struct JournalEnd {
    is_over: bool,
    // It has no fault, and is to be read back.
    is_sound: bool,
    outcome: Result<ReadBack, JournalFault>,
}

/// Shows that a file's end was noted: why the file had stopped, if it had, what came of its last line, and whether it
/// has no fault.
#[derive(Clone, Copy)]
pub struct Noted {
    stop: Result<Open, Stopped>,
    ended: Result<(), NoEnd>,
    is_sound: bool,
}

impl JournalEnd {
    /// The file is written to.
    pub fn new() -> JournalEnd
        ensures { result ≡ record { is_over = false; is_sound = false; outcome = Err Unended } }
    {
        JournalEnd {
            is_over: false,
            is_sound: false,
            outcome: Err(JournalFault::Unended),
        }
    }

    pub fn is_over(&self) -> bool
        ensures { result ≡ self.now.is_over }
    {
        self.is_over
    }

    /// Whether the file is to be read back.
    pub fn is_sound(&self) -> bool
        ensures { result ≡ self.now.is_sound }
    {
        self.is_sound
    }

    /// Nothing is written any more. Notes the file's fault, from why it stopped, what came of its last line, and
    /// what its disk refused.
    pub fn note<F: TrailFile + Drop>(
        &mut self,
        stop: Result<Open, Stopped>,
        ended: Result<(), NoEnd>,
        disk: &Disk<F>,
    ) -> Noted
        ensures end { self.new ≡ noted_as (fault_in stop ended disk.now) self.old }
        ensures noted { result ≡
            record { stop = stop; ended = ended; is_sound = is_none (fault_in stop ended disk.now) } }
    {
        self.is_over = true;
        let (refused, unsynced) = (disk.refused(), disk.unsynced());
        match fault_of(cause_of(stop), ended.is_ok(), refused, unsynced) {
            Some(fault) => {
                self.is_sound = false;
                self.outcome = Err(fault);
            }
            None => self.is_sound = true,
        }
        Noted {
            stop,
            ended,
            is_sound: self.is_sound,
        }
    }

    /// Takes what came of reading the file back, if that is to be.
    pub fn put_back(&mut self, back: io::Result<Option<ReadBack>>)
        ensures { self.new ≡ (if self.old.is_sound then record self.old { outcome = read_as back } else self.old) }
    {
        if self.is_sound {
            self.outcome = read_as(back);
        }
    }

    /// What came of the file; after the first call, that it has no end.
    pub fn take(&mut self) -> Result<ReadBack, JournalFault>
        ensures outcome { result ≡ self.old.outcome }
        ensures once { self.new ≡ record self.old { outcome = Err Unended } }
    {
        std::mem::replace(&mut self.outcome, Err(JournalFault::Unended))
    }
}
