//! A trail's file on its disk, and what the disk refuses.

ghost use Rattle.std.specs.Prelude.{◌≡◌, IfOk, IfSome, Some, None, length, true};
ghost use Rattle.std.specs.Fs.{new_options, with_create_new, with_write};
ghost use Rattle.std.specs.Io.{WritesAtMost};
ghost use Rattle.std.specs.Io.KnownBytes.{WriteAppends};
ghost use Rattle.trail_disk.specs.Disks.{IsSynced, IsTold, after_write, news_after, news_of, no_refusal, one_more, told_of};

use crate::file::{FileMaker, MadeFile, TrailFile};
use std::fs::{File, OpenOptions};
use std::io::{self, Write};

// Refusals that go on are news again after this many, of which there is one a second.
const AGAIN: u32 = 60;

/// What becomes of a trail's file while lines are written to it.
#[derive(Clone, Copy)]
pub enum DiskNews {
    /// The disk refuses lines, of which this many bytes are left to write.
    Refuses(io::Error, usize),
    /// It takes lines again.
    Resumes,
    /// It refused to sync lines that it had taken.
    Unsynced(io::Error),
}

/// Is told what becomes of a trail's file. Only a call of `tell` shows that it was.
pub trait DiskWatch {
    ghost use Rattle.trail_disk.specs.declared.disk.DiskNews.{DiskNews as News};

    ghost tells: { Self → News → Type 0 } = { λ _ _. Unit {0} };

    fn tell(&self, news: DiskNews)
        ensures { tells self.now news };
}

/// The refusals in a row, and the error of the last.
#[derive(Clone, Copy)]
struct Refusals {
    count: u32,
    error: Option<io::Error>,
}

impl Refusals {
    fn none() -> Refusals
        ensures { result ≡ no_refusal }
    {
        Refusals {
            count: 0,
            error: None,
        }
    }

    // One more refusal.
    fn add(&mut self, error: io::Error)
        ensures { self.new ≡ one_more error self.old }
    {
        self.count = self.count.saturating_add(1);
        self.error = Some(error);
    }

    // A write ends a row, or is refused too.
    fn note(&mut self, written: io::Result<usize>)
        ensures { self.new ≡ after_write written self.old }
    {
        match written {
            Ok(_) => *self = Refusals::none(),
            Err(error) => self.add(error),
        }
    }

    // The error, if the last refusal is news.
    fn news(&self) -> Option<io::Error>
        ensures { result ≡ told_of self.now }
    {
        if self.count % AGAIN == 1 {
            self.error
        } else {
            None
        }
    }
}

/// A trail's file, and what its disk refused.
#[derive(Drop)]
pub struct Disk<F: TrailFile + Drop> {
    file: F,
    // The writes that were refused since the last one that wasn't.
    writes: Refusals,
    // The syncs that were refused. What they were to bring to the disk may be lost for good, though
    // later syncs succeed.
    syncs: Refusals,
}

impl Disk<File> {
    /// Makes a new file, which only its owner may read and write. Nothing was refused yet.
    pub fn create<'a, R: FileMaker>(
        files: &R,
        path: &'a str,
    ) -> io::Result<(Disk<File>, MadeFile<'a>)>
        ensures made { IfOk result (λ made. R.makes files.now path.entry.now
            (with_create_new (with_write new_options true) true) 0o600 made.0.file) }
        ensures none { IfOk result (λ made. (made.0.writes ≡ no_refusal) × (made.0.syncs ≡ no_refusal)) }
        ensures path { IfOk result (λ made. made.1.path.now ≡ path.entry.now) }
    {
        let mut options = OpenOptions::new();
        options.write(true).create_new(true);
        let (file, made) = match files.make(path, options, 0o600) {
            Ok(made) => made,
            Err(error) => return Err(error),
        };
        let disk = Disk {
            file,
            writes: Refusals::none(),
            syncs: Refusals::none(),
        };
        Ok((disk, made))
    }
}

impl<F: TrailFile + Drop> Disk<F> {
    /// The error of the last write, if it was refused.
    pub fn refused(&self) -> Option<io::Error>
        ensures { result ≡ self.now.writes.error }
    {
        self.writes.error
    }

    /// The error of the last sync that was refused.
    pub fn unsynced(&self) -> Option<io::Error>
        ensures { result ≡ self.now.syncs.error }
    {
        self.syncs.error
    }

    // What is news after a write of this many bytes, before which writes were refused or not.
    fn news(&self, was_refused: bool, bytes: usize) -> Option<DiskNews>
        ensures { result ≡ news_of was_refused bytes self.now.writes (told_of self.now.writes) }
    {
        match self.writes.news() {
            Some(error) => Some(DiskNews::Refuses(error, bytes)),
            None if was_refused && self.writes.count == 0 => Some(DiskNews::Resumes),
            None => None,
        }
    }
}

impl<F: TrailFile + Drop> Write for Disk<F> {
    ghost contents = { λ disk. F.contents disk.file };

    fn write(&mut self, buf: &[u8]) -> io::Result<usize>
        ensures bound { WritesAtMost result buf.now }
        ensures bytes { WriteAppends (F.contents self.old.file) (F.contents self.new.file) result buf.now }
        ensures noted { self.new.writes ≡ after_write result self.old.writes }
        ensures syncs { self.new.syncs ≡ self.old.syncs }
    {
        let written = self.file.write(buf);
        self.writes.note(written);
        written
    }

    fn flush(&mut self) -> io::Result<()> {
        self.file.flush()
    }
}

impl<F: TrailFile + Drop> TrailFile for Disk<F> {
    ghost syncs = { λ old came new. IsSynced F.syncs old came new };

    fn sync(&mut self) -> io::Result<()> {
        match self.file.sync() {
            Ok(()) => Ok(()),
            Err(error) => {
                self.syncs.add(error);
                Err(error)
            }
        }
    }
}

/// A trail's file while its lines are written, and who is told of it.
#[derive(Drop)]
pub struct WatchedDisk<'a, F: TrailFile + Drop, W: DiskWatch> {
    pub disk: &'a mut Disk<F>,
    pub watch: &'a W,
}

impl<F: TrailFile + Drop, W: DiskWatch> Write for WatchedDisk<'_, F, W> {
    ghost contents = { λ watched. F.contents watched.disk.now.file };

    fn write(&mut self, buf: &[u8]) -> io::Result<usize>
        ensures bound { WritesAtMost result buf.now }
        ensures bytes { WriteAppends (F.contents self.old.disk.now.file) (F.contents self.new.disk.now.file)
            result buf.now }
        ensures noted { self.new.disk.now.writes ≡ after_write result self.old.disk.now.writes }
        ensures told { IfSome (news_after (length buf.now) self.old.disk.now.writes self.new.disk.now.writes)
            (W.tells self.old.watch.now) }
    {
        let was_refused = self.disk.writes.count > 0;
        let written = self.disk.write(buf);
        if let Some(news) = self.disk.news(was_refused, buf.len()) {
            self.watch.tell(news);
        }
        written
    }

    fn flush(&mut self) -> io::Result<()> {
        self.disk.flush()
    }
}

impl<F: TrailFile + Drop, W: DiskWatch> TrailFile for WatchedDisk<'_, F, W> {
    ghost syncs = { λ old came new. IsSynced F.syncs old.disk.now came new.disk.now
        × IsTold (W.tells old.watch.now) came new.disk.now.syncs };

    fn sync(&mut self) -> io::Result<()> {
        let synced = self.disk.sync();
        if synced.is_err() {
            if let Some(error) = self.disk.syncs.news() {
                self.watch.tell(DiskNews::Unsynced(error));
            }
        }
        synced
    }
}
