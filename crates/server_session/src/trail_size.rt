//! How large a session's trail is.

ghost use Rattle.std.specs.Prelude.{◌≡◌, ◌≤◌, ℕ, nat_lt};
ghost use Rattle.std.specs.Option.{option_copied};
ghost use Rattle.server_session.specs.Counting.{once_more};
ghost use Rattle.server_session.specs.Gauging.{Gauges, entry_size, if_passed, mark_between, text_size};

use crate::books::Calls;
use acl::Act;
use hub::{FULL, Kept, TrailEntry};
use session::Verdict;
use std::mem::size_of;
use std::sync::atomic::{AtomicU64, Ordering};

// The most bytes of memory for a trail's entries: 2 GiB.
const MOST: u64 = 2_147_483_648;

// What an entry takes, and each check and each act of it.
const ENTRY: usize = size_of::<TrailEntry>();

const CHECK: usize = size_of::<Verdict>();

const ACT: usize = size_of::<Act>();

// This percentage of `most`, if it is passed between two numbers.
fn if_passed(before: u64, after: u64, most: u64, mark: u8) -> Option<u8>
    requires { mark ≤ 100 }
    ensures { result ≡ if_passed before after most mark }
{
    let reached = most / 100 * u64::from(mark);
    if before <= reached && reached < after {
        Some(mark)
    } else {
        None
    }
}

// The percentage of `most` that is passed between two numbers, if that is news.
fn mark_between(before: u64, after: u64, most: u64) -> Option<u8>
    ensures { result ≡ mark_between before after most }
{
    let low = if_passed(before, after, most, 50).or(if_passed(before, after, most, 75));
    let high = if_passed(before, after, most, 90).or(if_passed(before, after, most, 99));
    low.or(high)
}

// How many bytes an event's line or title takes.
fn text_size(event: &Kept) -> usize
    ensures { result ≡ text_size event.now }
{
    match event {
        Kept::Command { line, .. } => line.as_slice().len(),
        Kept::Open { title, .. } => title.as_slice().len(),
        _ => 0,
    }
}

// At most how many bytes an entry takes. (Equal entries share them.)
fn entry_size(entry: &TrailEntry) -> u64
    ensures { result ≡ entry_size entry.now }
{
    let checked = entry.verdicts().len().saturating_mul(CHECK);
    let done = entry.acts().len().saturating_mul(ACT);
    let size = ENTRY
        .saturating_add(text_size(entry.event()))
        .saturating_add(checked)
        .saturating_add(done);
    size as u64
}

/// A number to which threads add. Each relation is shown by a call of its function alone.
pub trait SharedSum {
    ghost use Rattle.std.specs.Prelude.{◌≡◌, ℕ};
    ghost use Rattle.server_session.specs.Counting.{once_more};

    // What it begins with.
    ghost begins: { Self → ℕ → Type 0 };

    // What was added, and the sum before that.
    ghost adds: { Self → ℕ → ℕ → Type 0 };

    ghost sums: { Self → ℕ → Type 0 };

    fn begin(sum: u64) -> Self
        ensures { begins result sum };

    /// Adds to the sum. Returns what it was before.
    fn add(&self, calls: &mut Calls, more: u64) -> u64
        ensures added { adds self.now more result }
        ensures once { calls.new ≡ once_more calls.old };

    fn sum(&self) -> u64
        ensures { sums self.now result };
}

impl SharedSum for AtomicU64 {
    // What an atomic number is, no clause can say.
    ghost begins = { λ sum now. Unit {0} };

    ghost adds = { λ sum more before. Unit {0} };

    ghost sums = { λ sum now. Unit {0} };

    fn begin(sum: u64) -> AtomicU64 {
        AtomicU64::new(sum)
    }

    fn add(&self, calls: &mut Calls, more: u64) -> u64 {
        calls.note();
        self.fetch_add(more, Ordering::SeqCst)
    }

    fn sum(&self) -> u64 {
        self.load(Ordering::SeqCst)
    }
}

/// At most how many bytes of memory a session's trail takes.
#[derive(Drop)]
pub struct TrailSize<T = AtomicU64> {
    bytes: T,
}

impl<T: SharedSum> TrailSize<T> {
    pub fn new() -> TrailSize<T>
        ensures { T.begins result.bytes 0 }
    {
        TrailSize { bytes: T::begin(0) }
    }

    /// Counts the entry at this place. Returns the percentage of the most entries or bytes that the
    /// trail passes by it, if that is news.
    pub fn add(&self, calls: &mut Calls, place: usize, entry: Option<&TrailEntry>) -> Option<u8>
        ensures gauges { Gauges (T.adds self.now.bytes) place (option_copied entry.entry) result }
        ensures once { calls.new ≡ once_more calls.old }
    {
        let place = place as u64;
        let by_entries = mark_between(place, place.saturating_add(1), FULL as u64);
        let size = entry.map_or(0, |entry| entry_size(entry));
        let before = self.bytes.add(calls, size);
        by_entries.or(mark_between(before, before.saturating_add(size), MOST))
    }

    /// Whether the trail takes more than 2 GiB, as much as it may.
    pub fn is_full(&self) -> bool
        ensures { (bytes : ℕ) × T.sums self.now.bytes bytes × (result ≡ nat_lt 2147483648 bytes) }
    {
        self.bytes.sum() > MOST
    }
}
