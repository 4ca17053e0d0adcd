//! Lines that wait for the writer of a trail's file. Only what stands here says that a line was put down, that
//! the file can't go on, that text was written, and that a loop has ended.

ghost use Rattle.std.specs.Prelude.{◌≡◌, ◌==◌, ◌+◌, ◌-◌, ◌<◌, ◌&&◌, ◌||◌, ◌++◌, ◌∷◌, [], true, ℕ, List, Err, IfOk};
ghost use Rattle.std.specs.Prelude.{IfSome, OnErr, OnOk, is_none, is_ok, is_some, nat_le, nat_lt, vec_len};
ghost use Rattle.std.specs.List.{list_any};
ghost use Rattle.std.specs.Option.{option_copied};
ghost use Rattle.hub.specs.Legal.{asks_for_command};
ghost use Rattle.server_trail.specs.Files.{HasWritten};
ghost use Rattle.server_trail.specs.Merging.{HasMerged, Placed, early_bytes};
ghost use Rattle.server_trail.specs.Runs.{AreRun, HasPut, IsLine};
ghost use Rattle.server_trail.specs.Stopping.{wakes};
ghost use Rattle.server_trail.specs.Waiting.{IsOfEntry};
ghost use Rattle.server_trail.specs.declared.file.StopCause.TheVariants.{Disk, Memory};
ghost use Rattle.trail_lines.specs.Entries.{line_of};

use crate::file::StopCause;
use crate::merge::Merge;
use crate::tries::GaveUp;
use crate::writing::write_bytes;
use hub::{TrailEntry, asks_for_command};
use session::Verdict;
use std::alloc::{AllocError, Global};
use std::io::Write;
use std::sync::{Mutex, Wait};
use std::time::Clock;
use trail_lines::print_line;

/// A line is taken as long as at most this number of bytes wait.
pub const MOST: usize = 16_777_216;
// With this number of bytes ready, the writer waits for no more.
const BLOCK: usize = 65_536;

/// The line of an entry, with its line feed.
#[derive(Drop)]
pub struct EntryLine<'e> {
    place: usize,
    source: &'e TrailEntry,
    text: Vec<u8>,
    // It tells of more than typed keys: of a change, or of a command.
    is_urgent: bool,
}

/// Shows that the line of this entry was put down for this place.
#[derive(Clone, Copy)]
pub struct PutLine<'e> {
    place: usize,
    source: &'e TrailEntry,
    // The writer must be woken.
    is_news: bool,
}

/// Shows that a file can't go on.
#[derive(Clone, Copy, Debug)]
pub struct Stopped {
    cause: StopCause,
}

/// Shows that a loop was counted as one that has ended.
#[derive(Drop)]
pub struct Left(());

/// Text that was taken to be written. It isn't dropped.
pub struct ReadyText {
    bytes: Vec<u8>,
    // It has the lines of the places below this one.
    next: usize,
}

/// Shows that text wasn't written to its end. Whoever says how much was written takes it.
pub struct Torn(GaveUp);

/// How much was written of a trail whose loops have ended.
#[derive(Debug, Drop)]
pub struct Written {
    entries: u64,
    is_whole: bool,
}

/// What the loops and the writer share.
#[derive(Drop)]
pub struct WaitingLines {
    merge: Merge,
    // The lines of the places below this one were taken.
    taken: usize,
    // How many loops haven't ended.
    loops: usize,
    // A line that waits tells of a change: it is written as soon as all before it are there.
    is_urgent: bool,
    // Each line that was put down is that of an entry at its place.
    ghost lines: { ∥ HasPut taken merge ∥₁ },
}

/// What is there for the writer. Only a look at the lines that wait gives it.
#[derive(Clone, Copy)]
pub struct Ready {
    bytes: usize,
    // A line among them, or one that waits for an earlier line, tells of a change.
    is_urgent: bool,
    // All loops have ended.
    is_over: bool,
}

impl Ready {
    /// How many bytes are ready.
    pub fn bytes(self) -> usize
        ensures { result ≡ self.bytes }
    {
        self.bytes
    }

    /// Whether all loops have ended.
    pub fn is_over(self) -> bool
        ensures { result ≡ self.is_over }
    {
        self.is_over
    }

    /// Whether the writer waits for no more.
    pub fn is_due(self) -> bool
        ensures { result ≡ (self.is_over || nat_le 65536 self.bytes || self.is_urgent && nat_lt 0 self.bytes) }
    {
        self.is_over || self.bytes >= BLOCK || (self.is_urgent && self.bytes > 0)
    }
}

fn line_of(alloc: Global, place: usize, ms: u64, entry: &TrailEntry) -> Result<Vec<u8>, AllocError>
    ensures { IfOk result (λ line.
        line.items ≡ line_of (place, ms, entry.now) ++ 0x0A ∷ []) }
{
    let mut line = Vec::new(alloc);
    print_line(place as u64, ms, entry, &mut line)?;
    line.push(b'\n')?;
    Ok(line)
}

// Whether x on a command was checked.
fn asks_command(verdicts: &[Verdict]) -> bool
    ensures { result ≡ list_any asks_for_command verdicts.now }
{
    verdicts.iter().any(|verdict| asks_for_command(*verdict))
}

// Whether an entry tells of more than typed keys: of a change, or of a command.
fn is_urgent(entry: &TrailEntry) -> bool
    ensures changes { ¬ (entry.now.acts ≡ []) → result ≡ true }
    ensures others { entry.now.acts ≡ [] → result ≡ list_any asks_for_command entry.now.verdicts }
{
    match entry.acts() {
        [] => asks_command(entry.verdicts()),
        _ => true,
    }
}

impl<'e> EntryLine<'e> {
    /// The line of an entry, which stands at this place, with this time in milliseconds. None if there is no
    /// entry, or no memory for its line.
    pub fn of(
        alloc: Global,
        place: usize,
        ms: u64,
        entry: Option<&'e TrailEntry>,
    ) -> Option<EntryLine<'e>>
        ensures { IfSome result (IsOfEntry place ms (option_copied entry.entry)) }
    {
        let source = entry?;
        let text = line_of(alloc, place, ms, source).ok()?;
        Some(EntryLine {
            place,
            source,
            text,
            is_urgent: is_urgent(source),
        })
    }
}

impl PutLine<'_> {
    /// Whether the writer must be woken.
    pub fn is_news(&self) -> bool
        ensures { result ≡ self.now.is_news }
    {
        self.is_news
    }
}

impl Stopped {
    pub fn cause(self) -> StopCause
        ensures { result ≡ self.cause }
    {
        self.cause
    }
}

impl Written {
    /// How many lines of entries there were to write.
    pub fn entries(&self) -> u64
        ensures { result ≡ self.now.entries }
    {
        self.entries
    }

    /// Whether every line that was put down was written, up to the one at which the file stopped.
    pub fn is_whole(&self) -> bool
        ensures { result ≡ self.now.is_whole }
    {
        self.is_whole
    }
}

// Whether the writer must be woken after a line, before which this many bytes were ready: the first
// bytes are ready, or as many as it waits for.
fn is_news(before: usize, ready: usize) -> bool
    ensures { result ≡ wakes before ready }
{
    (before == 0 && ready > 0) || (before < BLOCK && ready >= BLOCK)
}

impl WaitingLines {
    /// No line yet, for this number of loops.
    pub fn new(alloc: Global, loops: usize) -> WaitingLines
        ensures none { HasMerged [] [] result.merge }
        ensures loops { result.loops ≡ loops }
    {
        WaitingLines {
            merge: Merge::new(alloc),
            taken: 0,
            loops,
            is_urgent: false,
        }
    }

    // Puts a line down. Returns whether the writer must be woken. Bytes that the writer has taken don't wait.
    fn put(&mut self, place: usize, line: Vec<u8>) -> Result<bool, StopCause>
        requires { IsLine (place, line.items) }
        ensures ok { (put : List Placed) (taken : List ℕ) → HasMerged put taken self.old.merge
            → OnOk result (HasMerged (put ++ (place, line.items) ∷ []) taken self.new.merge) }
        ensures err { (put : List Placed) (taken : List ℕ) → HasMerged put taken self.old.merge
            → OnErr result (HasMerged put taken self.new.merge) }
        // The disk is too slow only if too many bytes wait for it.
        ensures slow { (put : List Placed) (taken : List ℕ) → HasMerged put taken self.old.merge
            → result ≡ Err Disk → 16777216 < vec_len self.old.merge.ready + early_bytes self.old.merge }
        ensures wakes { IfOk result (λ is_news.
            is_news ≡ wakes (vec_len self.old.merge.ready) (vec_len self.new.merge.ready)) }
        ensures others { (lines : _) × (self.new ≡ record self.old { merge = self.new.merge; lines = lines }) }
    {
        if self.merge.waiting() > MOST {
            return Err(StopCause::Disk);
        }
        let before = self.merge.ready();
        match self.merge.put(place, line) {
            Ok(()) => Ok(is_news(before, self.merge.ready())),
            Err(_) => Err(StopCause::Memory),
        }
    }

    /// Puts the line of an entry down.
    pub fn take_in<'e>(&mut self, line: EntryLine<'e>) -> Result<PutLine<'e>, Stopped>
        requires { IsLine (line.place, line.text.items) }
        ensures put { (put : List Placed) (taken : List ℕ) → HasMerged put taken self.old.merge
            → OnOk result (HasMerged (put ++ (line.entry.place, line.entry.text.items) ∷ []) taken self.new.merge) }
        ensures line { IfOk result (λ put.
            (put.place ≡ line.entry.place) × (put.source.now ≡ line.entry.source.now)) }
        ensures err { (put : List Placed) (taken : List ℕ) → HasMerged put taken self.old.merge
            → OnErr result (HasMerged put taken self.new.merge) }
        ensures slow { (put : List Placed) (taken : List ℕ) → HasMerged put taken self.old.merge
            → result ≡ Err (record { cause = Disk })
            → 16777216 < vec_len self.old.merge.ready + early_bytes self.old.merge }
        ensures wakes { IfOk result (λ put. put.is_news ≡ (line.entry.is_urgent
            || wakes (vec_len self.old.merge.ready) (vec_len self.new.merge.ready))) }
        ensures urgent { self.new.is_urgent ≡ (self.old.is_urgent || line.entry.is_urgent) }
        ensures loops { self.new.loops ≡ self.old.loops }
    {
        let EntryLine {
            place,
            source,
            text,
            is_urgent,
        } = line;
        self.is_urgent = self.is_urgent || is_urgent;
        match self.put(place, text) {
            Ok(is_news) => Ok(PutLine {
                place,
                source,
                is_news: is_urgent || is_news,
            }),
            Err(cause) => Err(Stopped { cause }),
        }
    }

    /// There was no memory for a line, so none can be put down any more.
    pub fn lose(&self) -> Stopped
        ensures { result.cause ≡ Memory }
    {
        let cause = StopCause::Memory;
        Stopped { cause }
    }

    /// What is there for the writer.
    pub fn look(&self) -> Ready
        ensures bytes { result.bytes ≡ vec_len self.now.merge.ready }
        ensures urgent { result.is_urgent ≡ self.now.is_urgent }
        ensures over { result.is_over ≡ (self.now.loops == 0) }
    {
        Ready {
            bytes: self.merge.ready(),
            is_urgent: self.is_urgent,
            is_over: self.loops == 0,
        }
    }

    /// How many bytes wait for the writer.
    pub fn bytes(&self) -> usize {
        self.merge.waiting()
    }

    /// Takes the text that is ready, if it follows this many lines. Lines that wait for earlier ones stay urgent.
    pub fn take(&mut self, sent: usize) -> Option<ReadyText>
        ensures some { is_some result ≡ (sent == self.old.taken) }
        ensures all { IfSome result (λ text. self.new.merge.ready.items ≡ []) }
        ensures text { IfSome result (λ text. text.bytes.items ≡ self.old.merge.ready.items) }
        ensures lines { IfSome result (λ text. ∥ AreRun sent text.next text.bytes.items ∥₁) }
        ensures taken { (put : List Placed) (taken : List ℕ) → HasMerged put taken self.old.merge
            → IfSome result (λ text. HasMerged put (taken ++ text.bytes.items) self.new.merge) }
        ensures loops { self.new.loops ≡ self.old.loops }
    {
        if sent != self.taken {
            return None;
        }
        let bytes = self.merge.take();
        let next = self.merge.next();
        self.taken = next;
        self.is_urgent = self.is_urgent && self.merge.waiting() > 0;
        Some(ReadyText { bytes, next })
    }

    /// A loop has ended.
    pub fn leave(&mut self) -> Left
        ensures { self.new ≡ record self.old { loops = self.old.loops - 1 } }
    {
        self.loops = self.loops.saturating_sub(1);
        Left(())
    }

    /// How much was written, from what was torn and what shows that the file stopped. If nothing was torn, it is
    /// None until all loops have ended, no text is ready, and this many lines were sent. It isn't whole if text was
    /// torn or, unless the file stopped, if a line still waits for an earlier one that never came.
    pub fn written(
        &self,
        torn: Option<Torn>,
        stopped: Option<Stopped>,
        sent: usize,
    ) -> Option<Written>
        ensures over { is_some result ≡ (is_some torn
            || (self.now.loops == 0) && (vec_len self.now.merge.ready == 0) && (sent == self.now.merge.next)) }
        ensures entries { IfSome result (λ written. written.entries ≡ self.now.merge.next) }
        ensures sent { IfSome result (λ w. w.is_whole ≡ true → (is_none torn ≡ true) × (sent ≡ w.entries)) }
        ensures whole { (put : List Placed) (taken : List ℕ) → HasMerged put taken self.now.merge →
            IfSome result (λ written. written.is_whole ≡ (is_none torn && (is_some stopped
            || (vec_len self.now.merge.ready + early_bytes self.now.merge == 0)))) }
    {
        let is_written = match torn {
            Some(Torn(_)) => false,
            None => true,
        };
        let next = self.merge.next();
        if is_written && (self.loops > 0 || self.merge.ready() > 0 || sent != next) {
            return None;
        }
        Some(Written {
            entries: next as u64,
            is_whole: is_written && (stopped.is_some() || self.merge.waiting() == 0),
        })
    }
}

impl ReadyText {
    /// Writes the text, as `write_bytes` does. The answer is how many lines were sent with it in all.
    pub fn write<R: Clock + Wait, F: Write>(
        self,
        rt: &R,
        waiting: &Mutex<WaitingLines>,
        file: &mut F,
    ) -> Result<usize, Torn>
        ensures writes { HasWritten (F.contents file.old) (F.contents file.new) self.bytes.items (is_ok result) }
        ensures next { IfOk result (λ next. next ≡ self.next) }
    {
        let ReadyText { bytes, next } = self;
        match write_bytes(rt, waiting, file, &bytes) {
            Ok(()) => Ok(next),
            Err(gave_up) => Err(Torn(gave_up)),
        }
    }
}
