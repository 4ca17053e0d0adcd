//! A page that several watchers share, and its client of the server.

ghost use Rattle.std.specs.Prelude.{◌≡◌, ◌↔◌, IsTrue};
ghost use Rattle.web_relay.specs.Halls.{Chooses, HallHears, IsOver, IsStuck, IsToChoose, IsHallToHear, HallTurns};
ghost use Rattle.web_relay.specs.Halls.{noted};
ghost use Rattle.web_relay.specs.Walking.{Repeats};

use std::time::Duration;
use web_client::SharedClient;
use web_streams::{ReadBuffer, ReadOutcome, WebStream};

/// How often a connection is read in one turn.
pub const READS: usize = 16;

/// A client that sees no window attaches again after this number of seconds, and one is sent to the chosen window.
const PAUSE: u64 = 10;

/// A page that nobody watches is closed after this number of seconds: who comes and goes doesn't use up
/// what its user may still try at the server.
const STAY: u64 = 30;

/// A page that watchers share.
#[derive(Drop)]
pub struct Hall<S> {
    pub(crate) serial: u64,
    pub(crate) size: (u16, u16),
    pub(crate) client: SharedClient,
    pub(crate) stream: S,
    pub(crate) is_ready: bool,
    // How many watch it.
    pub(crate) audience: usize,
    // Whether its connection ended.
    pub(crate) is_lost: bool,
    pub(crate) opened: Duration,
    pub(crate) watched: Duration,
    // When it was sent to the chosen window.
    pub(crate) chosen: Option<Duration>,
}

impl<S: WebStream + Drop> Hall<S> {
    // Reads the server once.
    fn hear(&mut self, buffer: &mut ReadBuffer)
        ensures { HallHears S.WebStream self.old self.new }
    {
        match self.client.receive(&mut self.stream, buffer) {
            ReadOutcome::Nothing => self.is_ready = false,
            ReadOutcome::End => self.is_lost = true,
            ReadOutcome::More => {}
        }
    }

    // Reads what the server has sent.
    fn hear_all(&mut self, buffer: &mut ReadBuffer)
        ensures { Repeats IsHallToHear (HallHears S.WebStream) READS self.old self.new }
    {
        'reads: for _ in 0..READS {
            if !self.is_to_hear() {
                return;
            }
            self.hear(buffer);
        }
    }

    // Reads what the server has sent, and writes what waits for it. Nobody counts as its audience yet.
    pub(crate) fn turn(&mut self, buffer: &mut ReadBuffer)
        ensures { HallTurns S.WebStream self.old self.new }
    {
        self.audience = 0;
        self.hear_all(buffer);
        let is_whole = self.client.send_all(&mut self.stream);
        self.is_lost |= !is_whole;
    }
}

impl<S: Drop> Hall<S> {
    // Whether the server may have sent something.
    pub(crate) fn is_to_hear(&self) -> bool
        ensures { IsTrue result ↔ IsHallToHear self.now }
    {
        self.is_ready && !self.is_lost
    }

    // Notes whether somebody watches it.
    pub(crate) fn note_audience(&mut self, now: Duration)
        ensures { self.new ≡ noted now self.old }
    {
        if self.audience > 0 {
            self.watched = now;
        }
    }

    // Whether it ended, or nobody has watched it for a while.
    pub(crate) fn is_over(&self, now: Duration) -> bool
        ensures { IsTrue result ↔ IsOver now self.now }
    {
        let alone = now.saturating_sub(self.watched);
        self.is_lost || self.client.display().gone().is_some() || alone >= Duration::from_secs(STAY)
    }

    // Whether its client is to be sent to the chosen window: when it is let in, and again now and then.
    fn is_to_choose(&self, now: Duration) -> bool
        ensures { IsTrue result ↔ IsToChoose now self.now }
    {
        let is_due = match self.chosen {
            Some(chosen) => now.saturating_sub(chosen) >= Duration::from_secs(PAUSE),
            None => true,
        };
        is_due && self.client.display().is_welcome()
    }

    // Sends its client to the chosen window: at first, and again now and then, since the window may open later.
    pub(crate) fn choose(&mut self, choice: &str, now: Duration)
        ensures { Chooses choice.now now self.old self.new }
    {
        if self.is_to_choose(now) {
            self.chosen = Some(now);
            self.is_lost |= self.client.choose(choice.as_bytes()).is_err();
        }
    }

    // Whether its client is to attach again: it sees no window.
    pub(crate) fn is_stuck(&self, now: Duration) -> bool
        ensures { IsTrue result ↔ IsStuck now self.now }
    {
        now.saturating_sub(self.opened) >= Duration::from_secs(PAUSE)
            && self.client.display().is_vacant()
    }
}
