//! The file to which a server writes its session's trail.

ghost use Rattle.std.specs.Prelude.{◌≡◌, IfOk};
ghost use Rattle.server_trail.specs.Journals.{HasEnded, journal_path};

use crate::ending::{JournalEnd, Noted};
use crate::file::{BegunFile, header_of, last_cause};
use crate::reading::{ReadBack, read_back};
use crate::recorder::{Recorder, cause_of};
use crate::waiting::Written;
use acl::{Edition, UserId};
use hub::EntryList;
use program_words::SystemError;
use session::Bytes;
use std::alloc::Global;
use std::fs::File;
use std::io::{self, BufReader, ErrorKind};
use std::sync::{Condvar, Mutex, Wait};
use std::time::{Clock, Duration};
use thiserror::Error;
use trail_disk::{Disk, DiskWatch, FileMaker, NeverReady, TrailFile, WatchedDisk};
use trail_lines::{Cause, Header};

// The version that the file's first line names.
const VERSION: &[u8] = b"0.1.0";

/// What is wrong with a trail's file.
#[derive(Debug, Drop, Error)]
pub enum JournalFault {
    #[error("can't make it: no such folder: make its folder, or set another --trail")]
    NoFolder,
    #[error("can't make it: it is there already: set another --trail")]
    Exists,
    #[error("can't make it: {0}: set another --trail")]
    NotMade(SystemError),
    /// Its disk is full.
    #[error("can't make it: {0}: make room on its disk, or set another --trail")]
    NoRoom(SystemError),
    /// The disk refused it, until too many bytes waited.
    #[error("can't write it: {0}: make room on its disk: the session ended for that")]
    Refused(SystemError),
    #[error("its disk is too slow: the session ended for that")]
    TooSlow,
    #[error("out of memory: the session ended for that")]
    Memory,
    #[error("it isn't written to its end: {0}: mux-trail check says how far it goes")]
    Cut(SystemError),
    #[error("it isn't written to its end: mux-trail check says how far it goes")]
    Unended,
    /// The disk refused a sync.
    #[error("it may not be whole on the disk: a sync failed: {0}: copy it, and check its disk")]
    Unsynced(SystemError),
    #[error("can't read it back: {0}")]
    NotRead(SystemError),
    #[error("it differs from the session's trail")]
    Differs,
}

impl JournalFault {
    // The fault of a file that can't be made.
    fn of_making(error: io::Error) -> JournalFault {
        match error.kind() {
            ErrorKind::NotFound => Self::NoFolder,
            ErrorKind::AlreadyExists => Self::Exists,
            ErrorKind::StorageFull | ErrorKind::QuotaExceeded => Self::NoRoom(SystemError(error)),
            _ => Self::NotMade(SystemError(error)),
        }
    }
}

/// A new file for the trail of a session.
#[derive(Drop)]
pub struct Journal<'a, F: TrailFile + Drop = File> {
    alloc: Global,
    begun: BegunFile<'a>,
    file: Mutex<Disk<F>>,
    end: Mutex<JournalEnd>,
    ended: Condvar,
}

impl<'a> Journal<'a> {
    /// Makes a new file, with its first line, for the trail of a session of this owner. A file that is there stays.
    pub fn create<R: FileMaker + Clock + Copy>(
        files: R,
        alloc: Global,
        path: &'a str,
        owner: UserId,
    ) -> Result<Journal<'a>, JournalFault>
        ensures { IfOk result (λ journal. journal_path journal ≡ path.entry.now) }
    {
        let Ok(header) = header_of(&files, alloc, owner, VERSION) else {
            return Err(JournalFault::Memory);
        };
        let (mut file, made) = match Disk::create(&files, path) {
            Ok(made) => made,
            Err(error) => return Err(JournalFault::of_making(error)),
        };
        let begun = match BegunFile::of(alloc, made, &mut file, &header) {
            Ok(begun) => begun,
            Err(error) => return Err(JournalFault::of_making(error)),
        };
        Ok(Journal {
            alloc,
            begun,
            file: Mutex::new(file),
            end: Mutex::new(JournalEnd::new()),
            ended: Condvar::new(),
        })
    }
}

impl<'a, F: TrailFile + Drop> Journal<'a, F> {
    /// The file's path.
    pub fn path(&self) -> &'a str {
        self.begun.made().path()
    }

    /// Removes the file of a server that was never ready.
    pub fn remove(&self, server: &impl NeverReady) {
        self.begun.made().remove(server);
    }

    /// Writes the lines of entries as they come, until all loops have ended, and tells what becomes of the file.
    pub fn write<R: Clock + Wait, W: DiskWatch>(
        &self,
        rt: &R,
        recorder: &Recorder,
        watch: &W,
    ) -> Written {
        let mut disk = self.file.lock(rt);
        let mut watched = WatchedDisk {
            disk: &mut *disk,
            watch,
        };
        recorder.write_all(rt, &mut watched)
    }

    /// Writes the last line, syncs the file, and notes its fault. If no cause is known, it has no last line.
    pub fn end<R: Clock + Wait>(
        &self,
        rt: &R,
        recorder: &Recorder,
        written: Written,
        cause: Option<Cause>,
    ) -> Noted
        ensures { HasEnded F.contents F.syncs written cause result }
    {
        let stop = recorder.look();
        let mut guard = self.file.lock(rt);
        let disk = &mut *guard;
        let ended = recorder.end(rt, disk, written, last_cause(cause_of(stop), cause));
        let mut end = self.end.lock(rt);
        let noted = end.note(stop, ended, disk);
        drop(end);
        self.ended.notify_all();
        noted
    }

    /// Waits at most this long until nothing is written to the file any more. Returns whether that is so.
    pub fn await_end<R: Clock + Wait>(&self, rt: &R, longest: Duration) -> bool {
        let end = self.end.lock(rt);
        let (end, _) = self
            .ended
            .wait_timeout_while(rt, end, longest, |end| !end.is_over());
        end.is_over()
    }

    // Reads the file back, which is to be the trail of a session of this edition and owner.
    fn read_back(
        &self,
        edition: Edition,
        owner: UserId,
        entries: &EntryList,
    ) -> io::Result<Option<ReadBack>> {
        let header = Header {
            edition,
            owner,
            version: Bytes::of(self.alloc, VERSION)?,
            ms: self.begun.ms(),
        };
        let mut reader = BufReader::new(self.alloc, self.begun.made().open()?)?;
        read_back(self.alloc, &mut reader, &header, entries)
    }

    /// Reads the file back, if it was written to its end, and compares it with the session's trail:
    /// its edition, its owner and its entries.
    pub fn compare(&self, rt: &impl Wait, edition: Edition, owner: UserId, entries: &EntryList) {
        let mut end = self.end.lock(rt);
        if end.is_sound() {
            end.put_back(self.read_back(edition, owner, entries));
        }
    }

    /// What shows that the file was read back, or its fault; after the first call, that it has no end.
    pub fn outcome(&self, rt: &impl Wait) -> Result<ReadBack, JournalFault> {
        self.end.lock(rt).take()
    }
}
