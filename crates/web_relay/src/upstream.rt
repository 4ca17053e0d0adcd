//! What a relay does with the server's connection, and when its browser is shown something or ends.

ghost use Rattle.std.specs.Prelude.{◌≡◌, ◌↔◌, IsTrue, MatchBool};
ghost use Rattle.web_relay.specs.Relaying.{AsksWhetherThere, HasTakenAll, HearsAs, HearsOnce, IsBusy, IsLate};
ghost use Rattle.web_relay.specs.Relaying.{IsToAsk, IsToHear, Looks, LosesServer, WritesAll, WritesServer};
ghost use Rattle.web_relay.specs.Seeing.{ShowsOwn};
ghost use Rattle.web_relay.specs.Walking.{Repeats};

use crate::hall::READS;
use crate::relay::{Relay, Upstream};
use std::time::Duration;
use web_client::Identity;
use web_streams::{ReadBuffer, ReadOutcome, WebStream};

/// A browser has this number of seconds for its request and its first message.
const PATIENCE: u64 = 20;

/// After this number of seconds a page that has taken all is told that the bridge is there, and asked whether it is.
const ASK: u64 = 4;

/// A page that has taken all and then answers nothing for this number of seconds ends.
const DEAD: u64 = 10;

/// A page that takes nothing, and of which nothing is taken, ends after this number of seconds.
const STUCK: u64 = 60;

/// What a page is told when its client's connection has ended.
pub const ENDED: &str = "The connection to the session ended";

impl<S: Drop> Relay<S> {
    // Its own client's connection ended. If the server said why, the page is still to be told that.
    fn lose_server(&mut self)
        ensures { LosesServer self.old self.new }
    {
        if !self.has_gone() {
            self.lose(ENDED);
        }
        self.server = Upstream::Lost;
        self.server_ready = false;
    }

    // Notes what a read of the server came to.
    fn note_heard(&mut self, came: ReadOutcome)
        ensures { HearsAs came self.old self.new }
    {
        match came {
            ReadOutcome::Nothing => self.server_ready = false,
            ReadOutcome::End => self.lose_server(),
            ReadOutcome::More => {}
        }
    }

    // Notes whether the server's connection is broken.
    fn note_asked(&mut self, is_whole: bool)
        ensures { MatchBool is_whole (self.new ≡ self.old) (LosesServer self.old self.new) }
    {
        if !is_whole {
            self.lose_server();
        }
    }

    /// Shows the page of its own client.
    pub fn show_own(&mut self)
        ensures { ShowsOwn self.old self.new }
    {
        match self.visitor.show_own() {
            Ok(()) => {}
            Err(_) => self.is_over = true,
        }
    }

    /// Whether something is left to do without an event.
    pub fn is_busy(&self) -> bool
        ensures { IsTrue result ↔ IsBusy self.now }
    {
        let has_server = matches!(&self.server, Upstream::Connected(_));
        !self.is_over
            && (((self.has_more || self.browser_ready) && self.visitor.can_read())
                || (self.server_ready && has_server))
    }

    // Whether it can be read, and has taken all that it was sent.
    fn has_taken_all(&self) -> bool
        ensures { IsTrue result ↔ HasTakenAll self.now.visitor }
    {
        self.visitor.can_read() && self.visitor.is_idle()
    }

    // Whether it was silent for too long.
    fn is_late(&self, now: Duration) -> bool
        ensures { IsTrue result ↔ IsLate now self.now }
    {
        let silent = now.saturating_sub(self.heard);
        match self.visitor.identity() {
            Identity::Nobody => now.saturating_sub(self.began) > Duration::from_secs(PATIENCE),
            _ if self.has_taken_all() => silent > Duration::from_secs(DEAD),
            _ => silent > Duration::from_secs(STUCK),
        }
    }

    // Whether it is to be asked whether it is there.
    fn is_to_ask(&self, now: Duration) -> bool
        ensures { IsTrue result ↔ IsToAsk now self.now }
    {
        self.has_begun && now.saturating_sub(self.asked) >= Duration::from_secs(ASK)
    }
}

impl<S: WebStream + Drop> Relay<S> {
    // Reads the server once.
    fn hear(&mut self, buffer: &mut ReadBuffer)
        ensures { HearsOnce S.WebStream self.old self.new }
    {
        let Upstream::Connected(server) = &mut self.server else {
            self.server_ready = false;
            return;
        };
        let came = self.visitor.hear(server, buffer);
        self.note_heard(came);
    }

    /// Reads what the server has sent to its own client. Nobody else hears it.
    pub fn read_server(&mut self, buffer: &mut ReadBuffer)
        ensures { Repeats IsToHear (HearsOnce S.WebStream) READS self.old self.new }
    {
        'reads: for _ in 0..READS {
            if !self.server_ready {
                return;
            }
            self.hear(buffer);
        }
    }

    // Writes what its own client has for the server.
    fn write_server(&mut self)
        ensures { WritesServer S.WebStream self.old self.new }
    {
        let Upstream::Connected(server) = &mut self.server else {
            return;
        };
        let is_whole = self.visitor.ask(server);
        self.note_asked(is_whole);
    }

    /// Writes what waits for either side.
    pub fn write_all(&mut self)
        ensures { WritesAll S.WebStream self.old self.new }
    {
        self.write_server();
        let is_whole = self.visitor.send_all(&mut self.browser);
        self.is_over |= !is_whole;
    }

    // Asks it whether it is there.
    fn ask(&mut self, now: Duration)
        ensures { AsksWhetherThere S.WebStream now self.old self.new }
    {
        self.asked = now;
        self.is_over |= self.visitor.ping().is_err();
        self.write_all();
    }

    /// Ends it if it is done or was silent for too long, and asks it now and then whether it is there.
    pub fn look(&mut self, now: Duration)
        ensures { Looks S.WebStream now self.old self.new }
    {
        if self.is_late(now) || (self.visitor.is_last() && self.visitor.is_idle()) {
            self.is_over = true;
        } else if self.has_taken_all() && self.is_to_ask(now) {
            self.ask(now);
        }
    }
}
