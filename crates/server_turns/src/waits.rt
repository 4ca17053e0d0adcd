//! How long a loop waits, and for how many strangers.

ghost use Rattle.std.specs.Prelude.{◌≡◌, option_map};
ghost use Rattle.std.specs.Duration.{as_nanos};
ghost use Rattle.server_turns.specs.Waits.{is_late, most_new, sleep_for, wants};

use server_steps::Pending;
use std::time::Duration;

// The peers have this many milliseconds to read that the server ends.
const TIME: u64 = 2_000;

// Without a clock they are looked at this many times.
const PAUSES: u64 = 100;

// What was refused for want of memory is tried again after this many milliseconds.
const PAUSE: u64 = 20;

// Connections with a time limit are looked at after this many milliseconds.
const LOOK: u64 = 1_000;

// At most this many connections wait for their first message, by all loops together.
const MOST_NEW: usize = 256;

/// Whether the peers have had their time to read that the server ends, after this many looks.
pub(crate) fn is_late(began: Option<Duration>, now: Option<Duration>, pauses: u64) -> bool
    ensures { result ≡ is_late (option_map as_nanos began) (option_map as_nanos now) pauses }
{
    match (began, now) {
        (Some(began), Some(now)) => now.saturating_sub(began) >= Duration::from_millis(TIME),
        _ => pauses >= PAUSES,
    }
}

/// Whether a loop has something to do, to try again, or to wait for within a time limit.
pub(crate) fn wants(pending: Pending) -> (bool, bool, bool)
    ensures { result ≡ wants pending }
{
    match pending {
        Pending::Work => (true, false, false),
        Pending::Retry => (false, true, false),
        Pending::Patience => (false, false, true),
        Pending::Nothing => (false, false, false),
    }
}

/// How long a loop sleeps at most: it may have work, try again what was refused, or have connections with a
/// time limit. Draws and other loops want a look after the longest time.
pub(crate) fn sleep_for(
    works: bool,
    retries: bool,
    waits: bool,
    longest: Option<Duration>,
) -> Option<Duration>
    ensures { option_map as_nanos result ≡ sleep_for works retries waits (option_map as_nanos longest) }
{
    if works {
        return Some(Duration::ZERO);
    }
    match longest {
        Some(longest) => Some(longest),
        None if retries => Some(Duration::from_millis(PAUSE)),
        None if waits => Some(Duration::from_millis(LOOK)),
        None => None,
    }
}

/// How many connections of one of this many loops may wait for their first message. Of extra ones, which
/// aren't to stay, one may.
pub(crate) fn most_new(loops: usize, is_extra: bool) -> usize
    ensures { result ≡ most_new loops is_extra }
{
    if is_extra {
        1
    } else {
        MOST_NEW / loops.clamp(1, MOST_NEW)
    }
}
