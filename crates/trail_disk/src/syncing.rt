//! When a trail's file is synced to its disk.

ghost use Rattle.std.specs.Prelude.{◌≡◌, false, true};
ghost use Rattle.std.specs.Io.KnownBytes.{Keeps};
ghost use Rattle.trail_disk.specs.Disks.{HasSynced, HasTried, sync_is_due};

use crate::file::TrailFile;
use std::thread;
use std::time::{Clock, Duration};

/// How often what the disk refuses is tried again after all loops have ended, once a second.
pub const LAST_TRIES: u32 = 5;

// How many seconds the writer sleeps at most if nothing comes.
const LOOK: u64 = 3_600;

/// When a file must be synced to the disk.
#[derive(Drop)]
pub struct Syncing {
    // Something was written since the last sync.
    is_behind: bool,
    last: Duration,
}

impl Syncing {
    /// Nothing was written yet.
    pub fn new() -> Syncing
        ensures { result.is_behind ≡ false }
    {
        Syncing {
            is_behind: false,
            last: Duration::ZERO,
        }
    }

    /// Something is written.
    pub fn note_write(&mut self)
        ensures { self.new ≡ record self.old { is_behind = true } }
    {
        self.is_behind = true;
    }

    /// How long the writer sleeps if nothing is ready.
    pub fn pause(&self) -> Duration {
        Duration::from_secs(if self.is_behind { 1 } else { LOOK })
    }

    // Whether a sync is due at this time, if that is known.
    fn is_due(&self, now: Option<Duration>) -> bool
        ensures { result ≡ sync_is_due now self.now }
    {
        match now {
            Some(now) => self.is_behind && now.saturating_sub(self.last).as_secs() >= 1,
            None => self.is_behind,
        }
    }

    /// Syncs the file if that is due. If the disk refuses, it is due again in a second.
    pub fn sync<F: TrailFile>(&mut self, now: Option<Duration>, file: &mut F)
        ensures bytes { Keeps (F.contents file.old) (F.contents file.new) }
        ensures due { sync_is_due now self.old ≡ true → HasTried F.syncs now self.old file.old self.new file.new }
        ensures rests { sync_is_due now self.old ≡ false → (self.new ≡ self.old) × (file.new ≡ file.old) }
    {
        if self.is_due(now) {
            self.last = now.unwrap_or(self.last);
            self.is_behind = file.sync().is_err();
        }
    }
}

/// Syncs the file, and tries again each second for some seconds. The answer is whether a sync succeeded.
pub fn sync_last<R: Clock, F: TrailFile>(rt: &R, file: &mut F) -> bool
    ensures bytes { Keeps (F.contents file.old) (F.contents file.new) }
    ensures synced { result ≡ true → HasSynced F.syncs file.new }
{
    'tries: for _ in 0..LAST_TRIES {
        if file.sync().is_ok() {
            return true;
        }
        thread::sleep(rt, Duration::from_secs(1));
    }
    false
}
