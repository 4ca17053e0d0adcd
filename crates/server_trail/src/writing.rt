//! The thread that writes a trail's file.

ghost use Rattle.std.specs.Prelude.{◌≡◌, Some, None, is_none, is_ok};
ghost use Rattle.std.specs.Io.KnownBytes.{Keeps};
ghost use Rattle.trail_disk.specs.Disks.{SyncsOnce};
ghost use Rattle.server_trail.specs.Files.{EndsAs, EndsSynced, HasWritten};
ghost use Rattle.server_trail.specs.Runs.{HasSent, IsWritten};

use crate::file::{NoLine, last_line};
use crate::recorder::Recorder;
use crate::tries::{GaveUp, Tries};
use crate::waiting::{Ready, Torn, WaitingLines, Written};
use std::io::Write;
use std::sync::atomic::Ordering;
use std::sync::{Mutex, Wait};
use std::thread;
use std::time::{Clock, Duration};
use trail_disk::{Syncing, TrailFile, sync_last, write_some};
use trail_lines::Cause;

// How many milliseconds the writer waits for more if few bytes are ready.
const PAUSE: u64 = 100;

/// Why a file isn't whole on the disk, with its last line.
#[derive(Clone, Copy, Debug)]
pub enum NoEnd {
    /// Nobody knows a cause, so it has no last line.
    NoCause,
    NoLine(NoLine),
    /// The disk refused the last line.
    Torn(GaveUp),
    /// The disk refused to sync it.
    Unsynced,
}

/// Writes bytes. A refused write is tried again each second; after all loops have ended, only for some
/// seconds. `Err` if not all bytes were written.
pub fn write_bytes<R: Clock + Wait, F: Write>(
    rt: &R,
    waiting: &Mutex<WaitingLines>,
    file: &mut F,
    bytes: &[u8],
) -> Result<(), GaveUp>
    ensures { HasWritten (F.contents file.old) (F.contents file.new) bytes.now (is_ok result) }
{
    let mut sent = 0;
    let mut tries = Tries::new();
    'writes: for _ in rt.forever() {
        if sent == bytes.len() {
            return Ok(());
        }
        match write_some(file, &bytes[sent..]) {
            Ok(count) => sent += count,
            Err(refused) => {
                let ready = waiting.lock(rt).look();
                if let Some(gave_up) = tries.count(refused, ready) {
                    return Err(gave_up);
                }
                thread::sleep(rt, Duration::from_secs(1));
            }
        }
    }
    unreachable!()
}

// Syncs a file at its end. The answer is whether its last sync succeeded.
fn sync_end<R: Clock, F: TrailFile>(rt: &R, file: &mut F) -> bool
    ensures bytes { Keeps (F.contents file.old) (F.contents file.new) }
    ensures synced { EndsSynced F.syncs result file.new }
{
    sync_last(rt, file) || file.sync().is_ok()
}

impl Recorder {
    // Writes the text that is ready, if there is some, after this many lines, which grow unless it is torn.
    fn write_ready<R: Clock + Wait, F: Write>(
        &self,
        rt: &R,
        ready: Ready,
        file: &mut F,
        sent: &mut usize,
    ) -> Option<Torn>
        ensures { ∥ HasSent sent.old sent.new (F.contents file.old) (F.contents file.new) (is_none result) ∥₁ }
    {
        if ready.bytes() == 0 {
            return None;
        }
        let text = self.waiting.lock(rt).take(*sent)?;
        match text.write(rt, &self.waiting, file) {
            Ok(next) => {
                *sent = next;
                None
            }
            Err(torn) => Some(torn),
        }
    }

    /// Writes the lines as they come, until all loops have ended. It sleeps as long as no line is ready, and waits a
    /// tenth of a second for more if few are and none tells of a change. A refused write is tried again each second,
    /// and for five seconds at the end. The file is synced in each second in which something was written.
    pub fn write_all<R: Clock + Wait, F: TrailFile>(&self, rt: &R, file: &mut F) -> Written
        ensures { ∥ IsWritten result (F.contents file.old) (F.contents file.new) ∥₁ }
    {
        let mut syncing = Syncing::new();
        let mut sent = 0;
        'writes: for _ in rt.forever() {
            let seen = self.news.notifications();
            let ready = self.waiting.lock(rt).look();
            if !ready.is_due() {
                let pause = match ready.bytes() {
                    0 => syncing.pause(),
                    _ => Duration::from_millis(PAUSE),
                };
                self.news.sleep(rt, seen, pause);
            }
            if ready.bytes() > 0 {
                syncing.note_write();
            }
            let torn = self.write_ready(rt, ready, file, &mut sent);
            let stopped = self.stop();
            if let Some(written) = self.waiting.lock(rt).written(torn, stopped, sent) {
                return written;
            }
            syncing.sync(rt.monotonic().ok(), file);
        }
        unreachable!()
    }

    // Writes the last line, if all lines before it were written.
    fn write_end<R: Clock + Wait, F: TrailFile>(
        &self,
        rt: &R,
        file: &mut F,
        written: &Written,
        cause: Cause,
    ) -> Result<(), NoEnd>
        ensures { EndsAs written.now (Some cause) (F.contents file.old) (F.contents file.new) result }
    {
        self.set_time(rt);
        let ms = self.ms.load(Ordering::SeqCst);
        let line = match last_line(self.alloc, written, ms, cause) {
            Ok(line) => line,
            Err(none) => return Err(NoEnd::NoLine(none)),
        };
        match write_bytes(rt, &self.waiting, file, &line) {
            Ok(()) => Ok(()),
            Err(gave_up) => Err(NoEnd::Torn(gave_up)),
        }
    }

    /// Ends a file for this cause: writes the last line, if all lines before it were written, and syncs the file.
    /// If no cause is known, it has no last line. `Err` unless the whole file is on the disk, with its last line.
    pub fn end<R: Clock + Wait, F: TrailFile>(
        &self,
        rt: &R,
        file: &mut F,
        written: Written,
        cause: Option<Cause>,
    ) -> Result<(), NoEnd>
        ensures ends { EndsAs written cause (F.contents file.old) (F.contents file.new) result }
        ensures synced { EndsSynced F.syncs (is_ok result) file.new }
        ensures alone { cause ≡ None → SyncsOnce F.syncs file.old file.new }
    {
        let Some(cause) = cause else {
            let _ = file.sync();
            return Err(NoEnd::NoCause);
        };
        let ended = self.write_end(rt, file, &written, cause);
        match (ended, sync_end(rt, file)) {
            (Ok(()), false) => Err(NoEnd::Unsynced),
            (ended, _) => ended,
        }
    }
}
