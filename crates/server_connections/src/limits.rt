//! How much may wait for a window, and how long a connection is waited for.

ghost use Rattle.std.specs.Prelude.{◌≡◌, false, true};
ghost use Rattle.std.specs.Duration.{as_nanos};
ghost use Rattle.server_connections.specs.Fullness.{fullness_news, full_window, is_stuffed, own_window};
ghost use Rattle.server_connections.specs.Overdue.{awaited_from, is_overdue, sent_off};

use crate::peer::{Peer, Role, Stage};
use attach_proto::Why;
use std::time::Duration;

// If more bytes wait for a window, what is typed into it has to wait until fewer than half of them do.
const FULL: usize = 262_144;

// More frames than these that were typed do the same, however short they are.
const MOST_FRAMES: usize = 4_096;

// A connection has this many seconds for its first message, and again to read its last frame.
const PATIENCE: u64 = 10;

impl<S: Drop> Peer<S> {
    // Whether what is typed into it has to wait, if it is a window: much waits for it, or it did and
    // not little does now.
    fn is_stuffed(&self) -> bool
        ensures { result ≡ is_stuffed self.now }
    {
        let (bytes, frames) = (self.turn.unsent(), self.turn.typed_frames());
        if self.full.is_some() {
            bytes >= FULL / 2 || frames >= MOST_FRAMES / 2
        } else {
            bytes > FULL || frames > MOST_FRAMES
        }
    }

    // The window that it is, while it is sent what the session says.
    fn own_window(&self) -> Option<u32>
        ensures { result ≡ own_window self.now }
    {
        match self.role {
            Role::Window(window) if self.listens() => Some(window),
            _ => None,
        }
    }

    /// What all loops are to be told of a window: its serial, and whether what is typed into it has to
    /// wait. Of one that was full they are told once more when it goes.
    pub fn take_fullness(&mut self) -> Option<(u32, bool)>
        ensures news { result ≡ fullness_news self.old.full (full_window self.old) (own_window self.old) }
        ensures full { self.new ≡ record self.old { full = full_window self.old } }
    {
        let own = self.own_window();
        let full = if self.is_stuffed() { own } else { None };
        let was = std::mem::replace(&mut self.full, full);
        match (full, was.or(own)) {
            (Some(window), _) => Some((window, true)),
            (None, Some(window)) => Some((window, false)),
            (None, None) => None,
        }
    }

    // Whether it was waited for as long as it may be. The time counts from the first call on.
    fn is_overdue(&mut self, now: Duration) -> bool
        ensures overdue { result ≡ is_overdue (as_nanos now) self.old }
        ensures since { self.new ≡ awaited_from now self.old }
    {
        if !self.is_awaited() {
            return false;
        }
        match self.awaited {
            Some(since) => now.saturating_sub(since).as_secs() >= PATIENCE,
            None => {
                self.awaited = Some(now);
                false
            }
        }
    }

    /// Once it was waited for as long as it may be: closes it if it was told to go, and else tells it
    /// so.
    pub fn expire(&mut self, now: Duration)
        ensures overdue { is_overdue (as_nanos now) self.old ≡ true → self.new ≡ sent_off self.old }
        ensures waits { is_overdue (as_nanos now) self.old ≡ false
            → self.new ≡ awaited_from now self.old }
    {
        if self.is_overdue(now) {
            match self.stage {
                Stage::Ending => self.close(),
                _ => self.end(Why::Fault),
            }
        }
    }
}
