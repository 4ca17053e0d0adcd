//! When a loop's draws wait, and how long it sleeps.

ghost use Rattle.std.specs.Prelude.{◌≡◌, ◌*◌, ◌↔◌, None, false, is_some, option_map};
ghost use Rattle.std.specs.Duration.{as_nanos};
ghost use Rattle.server_pace.specs.Pacing.{drawn_by, longest_sleep, much_by, paced, since_by, within};

use std::time::Duration;

// While more may come at once, draws wait for at most this many milliseconds. So a client is shown
// how a flood stands, and not each of its steps.
const MOST: u64 = 20;

// A flood is over when nothing much came for this many milliseconds. After a crowd's draws the next
// ones wait as long.
const LULL: u64 = 1;

// This many clients that are drawn in one turn, or more, are a crowd.
const CROWD: usize = 8;

/// What a loop knows of whether draws are to wait.
#[derive(Clone, Copy, Debug)]
pub struct Pace {
    // When much came last, if that isn't over.
    much: Option<Duration>,
    // Keys were typed in this turn, whose echo may come at once.
    awaits_echo: bool,
    // When a crowd was drawn last, if that was just now.
    drawn: Option<Duration>,
    // Since when draws wait.
    since: Option<Duration>,
}

// This time, if it is less than this many milliseconds ago. Without a clock it is over.
fn within(most: u64, last: Option<Duration>, now: Option<Duration>) -> Option<Duration>
    ensures { result ≡ within (most * 1000000) last now }
{
    match (last, now) {
        (Some(last), Some(now)) if now.saturating_sub(last) < Duration::from_millis(most) => {
            Some(last)
        }
        _ => None,
    }
}

// Since when draws wait.
fn since_by(is_more: bool, now: Option<Duration>, was: Option<Duration>) -> Option<Duration>
    ensures { result ≡ since_by is_more now was }
{
    if !is_more {
        return None;
    }
    match was {
        None => now,
        Some(was) => within(MOST, Some(was), now),
    }
}

impl Pace {
    pub fn new() -> Pace
        ensures { result ≡ record { much = None; awaits_echo = false; drawn = None; since = None } }
    {
        Pace {
            much: None,
            awaits_echo: false,
            drawn: None,
            since: None,
        }
    }

    /// Whether much comes to this loop.
    pub fn is_busy(&self) -> bool
        ensures { result ≡ is_some self.now.much }
    {
        self.much.is_some()
    }

    /// How long the loop sleeps at most if no event comes, after a turn at this time. Draws that wait are asked
    /// for in time. A loop to which much comes doesn't wake the others for output, so these look by themselves.
    pub fn longest_sleep(&self, is_flooded: bool, now: Duration) -> Option<Duration>
        ensures { option_map as_nanos result ≡ longest_sleep is_flooded (as_nanos now) self.now }
    {
        if self.is_busy() || self.awaits_echo || self.drawn.is_some() {
            return Some(Duration::from_millis(LULL));
        }
        match self.since {
            Some(since) => {
                Some(Duration::from_millis(MOST).saturating_sub(now.saturating_sub(since)))
            }
            None if is_flooded => Some(Duration::from_millis(LULL)),
            None => None,
        }
    }

    /// Notes how many clients were drawn in this turn.
    pub fn draw(&mut self, now: Option<Duration>, clients: usize)
        ensures { self.new ≡ drawn_by now clients self.old }
    {
        if clients >= CROWD {
            self.drawn = now;
        }
    }

    /// Notes whether much comes to this loop. Returns whether that changed. Without a clock nothing is much.
    pub fn note(&mut self, now: Option<Duration>, is_much: bool) -> bool
        ensures much { self.new ≡ record self.old { much = much_by now is_much self.old.much } }
        ensures changed { (result ≡ false)
            ↔ (is_some (much_by now is_much self.old.much) ≡ is_some self.old.much) }
    {
        let was_busy = self.is_busy();
        self.much = if is_much {
            now
        } else {
            within(LULL, self.much, now)
        };
        self.is_busy() != was_busy
    }

    /// Whether the draws of this turn are to wait: while much comes to a loop, after keys were typed,
    /// whose echo may come at once, and after a crowd was drawn, during which more may have come.
    /// Without a clock they don't wait.
    pub fn holds(&mut self, is_flooded: bool, now: Option<Duration>, awaits_echo: bool) -> bool
        ensures paced { self.new ≡ paced is_flooded now awaits_echo self.old }
        ensures held { result ≡ is_some self.new.since }
    {
        self.awaits_echo = awaits_echo;
        self.drawn = within(LULL, self.drawn, now);
        let is_more = awaits_echo || self.drawn.is_some() || is_flooded;
        self.since = since_by(is_more, now, self.since);
        self.since.is_some()
    }
}
