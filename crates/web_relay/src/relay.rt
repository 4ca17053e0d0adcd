//! A browser, and the connection to the server of its own client.

ghost use Rattle.std.specs.Prelude.{◌≡◌, ◌↔◌, ℕ, List, None, IsTrue, IsSome, IfSome, true, false};
ghost use Rattle.web_client.specs.Asking.{Asks, IsOwn};
ghost use Rattle.web_client.specs.Rows.{TellsLast, Refuses, handed};
ghost use Rattle.web_relay.specs.Places.{has_page, shares, IsNew};
ghost use Rattle.web_relay.specs.Relaying.{Connects, EndsBy, HasClient, HasGone, HasPage, IsOpen, IsRefused, LosesPage};
ghost use Rattle.web_relay.specs.Relaying.{IsToRead, ReadsBrowser, ReadsOnce, TakesNow, TakesRest, TurnsAway};
ghost use Rattle.web_relay.specs.Relaying.{WantsServer};
ghost use Rattle.web_relay.specs.Walking.{Repeats};

use crate::hall::READS;
use crate::halls::HallNumber;
use attach_proto::Token;
use std::alloc::Global;
use std::net::Net;
use std::time::Duration;
use web_client::{Identity, Visitor};
use web_streams::{BridgeContext, BridgeStream, ReadBuffer, ReadOutcome, WebStream, server_token};

/// What a page is told if its client can't be connected.
pub const NO_SERVER: &str = "The session hasn't begun, or it has ended";

/// The own client's connection to the server.
#[derive(Drop)]
pub(crate) enum Upstream<S> {
    /// There was none yet.
    Unasked,
    Connected(S),
    /// It ended.
    Lost,
}

/// A browser, and its own client's connection.
#[derive(Drop)]
pub struct Relay<S> {
    pub(crate) visitor: Visitor,
    pub(crate) browser: S,
    pub(crate) server: Upstream<S>,
    /// The hall whose page it watches.
    pub(crate) hall: Option<HallNumber>,
    pub(crate) browser_ready: bool,
    pub(crate) server_ready: bool,
    // Frames of it may be left that weren't taken yet.
    pub(crate) has_more: bool,
    pub(crate) has_begun: bool,
    // It was logged that it is there.
    pub(crate) is_told: bool,
    pub(crate) began: Duration,
    pub(crate) heard: Duration,
    pub(crate) asked: Duration,
    pub(crate) is_over: bool,
}

impl<S: Drop> Relay<S> {
    /// A browser that has just come.
    pub fn new(alloc: Global, browser: S, now: Duration) -> Relay<S>
        ensures { IsNew browser now result }
    {
        Relay {
            visitor: Visitor::new(alloc),
            browser,
            server: Upstream::Unasked,
            hall: None,
            browser_ready: true,
            server_ready: false,
            has_more: false,
            has_begun: false,
            is_told: false,
            began: now,
            heard: now,
            asked: now,
            is_over: false,
        }
    }

    /// Who the browser is, and what it was sent.
    pub fn visitor(&self) -> &Visitor
        ensures { result.now ≡ self.now.visitor }
    {
        &self.visitor
    }

    /// Whether its place is to be left free.
    pub fn is_over(&self) -> bool
        ensures { result ≡ self.now.is_over }
    {
        self.is_over
    }

    // Takes what came of the browser.
    fn take(&mut self, around: BridgeContext<'_>)
        ensures asks { Asks self.old.visitor.identity self.new.visitor.identity }
        ensures takes { TakesNow around.entry.site.now around.entry.now self.old self.new }
    {
        self.heard = around.now;
        match self.visitor.take(around.site) {
            Ok(has_more) => self.has_more = has_more,
            Err(_) => self.is_over = true,
        }
    }

    /// Whether its page says now who it is: a user, or one who watches.
    pub fn begins(&mut self) -> bool
        ensures begins { IsTrue result ↔ (HasPage self.old.visitor.identity × (self.old.has_begun ≡ false)
            × IsOpen self.old.visitor) }
        ensures begun { result ≡ true → self.new ≡ record self.old { has_begun = true } }
        ensures same { result ≡ false → self.new ≡ self.old }
    {
        let has_page = matches!(
            self.visitor.identity(),
            Identity::Own(_) | Identity::Watching(_, _)
        );
        if has_page && !self.has_begun && self.visitor.is_open() {
            self.has_begun = true;
            return true;
        }
        false
    }

    /// There is no place for its page, which opens now or is open.
    pub fn turn_away(&mut self, opens: bool, reason: &str)
        ensures { TurnsAway opens reason.now self.old self.new }
    {
        if !opens {
            self.lose(reason);
            return;
        }
        match self.visitor.turn_away() {
            Ok(()) => {}
            Err(_) => self.is_over = true,
        }
    }

    /// Whether it has said who it is.
    pub fn has_begun(&self) -> bool
        ensures { result ≡ self.now.has_begun }
    {
        self.has_begun
    }

    // Whether its page has said who it is, and is open.
    pub(crate) fn has_page(&self) -> bool
        ensures { result ≡ has_page self.now }
    {
        self.has_begun && self.visitor.is_open()
    }

    // Whether its page has said who it is, is open, and came from this address.
    pub(crate) fn shares(&self, address: &[u8]) -> bool
        ensures { result ≡ shares address.now self.now }
    {
        self.has_page() && self.visitor.address.as_slice() == address
    }

    /// When it came.
    pub fn began(&self) -> Duration
        ensures { result ≡ self.now.began }
    {
        self.began
    }

    // Whether it has a client of its own.
    fn has_client(&self) -> bool
        ensures { IsTrue result ↔ HasClient self.now.visitor.identity }
    {
        matches!(self.visitor.identity(), Identity::Own(_))
    }

    /// Whether its own client is to be connected: once, when its page has said who it is.
    pub fn wants_server(&self) -> bool
        ensures { IsTrue result ↔ WantsServer self.now }
    {
        let is_unasked = matches!(&self.server, Upstream::Unasked);
        self.has_client() && self.visitor.is_open() && self.has_begun && is_unasked
    }

    /// The name of its user, if the server has let it in and this wasn't logged.
    pub fn is_let_in(&self) -> Option<&str>
        ensures some { IfSome result (λ name. (self.now.is_told ≡ false) × IsOwn self.now.visitor.identity (λ c.
            (c.display.told.is_welcome ≡ true) × (name.now ≡ c.display.name))) }
        ensures none { result ≡ None → self.now.is_told ≡ false
            → IsOwn self.now.visitor.identity (λ c. c.display.told.is_welcome ≡ true) → ⊥ }
    {
        match self.visitor.identity() {
            Identity::Own(client) if client.display().is_welcome() && !self.is_told => {
                Some(client.display().name())
            }
            _ => None,
        }
    }

    /// It was logged that it is there.
    pub fn note_told(&mut self)
        ensures { self.new ≡ record self.old { is_told = true } }
    {
        self.is_told = true;
    }

    /// Whether it was logged that it is there.
    pub fn is_told(&self) -> bool
        ensures { result ≡ self.now.is_told }
    {
        self.is_told
    }

    // Whether the server has said why it lets its own client go.
    pub(crate) fn has_gone(&self) -> bool
        ensures { IsTrue result ↔ HasGone self.now.visitor.identity }
    {
        match self.visitor.identity() {
            Identity::Own(client) => client.display().gone().is_some(),
            _ => false,
        }
    }

    /// Whether it gave a name and a token with which nobody is let in.
    pub fn is_refused(&self) -> bool
        ensures { IsTrue result ↔ IsRefused self.now }
    {
        match self.visitor.identity() {
            Identity::Own(_) => !self.is_told && self.has_gone(),
            Identity::Unknown => true,
            _ => false,
        }
    }

    /// The secret of the link that its open page shows.
    pub fn secret(&self) -> Option<Token>
        ensures some { IfSome result (λ secret. IsOpen self.now.visitor
            × (self.now.visitor.identity ≡ Identity.Link secret)) }
        ensures none { (secret : List ℕ) → self.now.visitor.identity ≡ Identity.Link secret
            → IsOpen self.now.visitor → IsSome result }
    {
        match self.visitor.identity() {
            Identity::Link(secret) if self.visitor.is_open() => Some(secret.copied()),
            _ => None,
        }
    }

    /// Tells its page which user and token its link stands for, and ends.
    pub fn hand(&mut self, name: &str, token: &str)
        ensures { EndsBy (TellsLast (handed name.now token.now)) self.old self.new }
    {
        match self.visitor.hand(name, token) {
            Ok(()) => {}
            Err(_) => self.is_over = true,
        }
    }

    /// Tells its page why it isn't let in, and ends.
    pub fn refuse(&mut self, reason: &str)
        ensures { EndsBy (Refuses reason.now) self.old self.new }
    {
        match self.visitor.refuse(reason) {
            Ok(()) => {}
            Err(_) => self.is_over = true,
        }
    }

    /// Tells its page why it ends.
    pub fn lose(&mut self, reason: &str)
        ensures { LosesPage reason.now self.old self.new }
    {
        match self.visitor.lose(reason) {
            Ok(()) => {}
            Err(_) => self.is_over = true,
        }
    }
}

impl<S: WebStream + Drop> Relay<S> {
    /// Reads what the browser has sent, up to 64 frames in a turn if they are short. Returns whether its page opened.
    /// Its own client is asked for what these frames say, and for nothing else.
    pub fn read_browser(&mut self, around: BridgeContext<'_>, buffer: &mut ReadBuffer) -> bool
        ensures asks { Asks self.old.visitor.identity self.new.visitor.identity }
        ensures opens { IsTrue result ↔ ((IsOpen self.old.visitor → ⊥) × IsOpen self.new.visitor) }
        ensures reads { ReadsBrowser S.WebStream around.entry.site.now around.entry.now self.old self.new }
    {
        let was_open = self.visitor.is_open();
        self.take_rest(around);
        self.read_some(around, buffer);
        !was_open && self.visitor.is_open()
    }

    // Takes what was left of frames that came.
    fn take_rest(&mut self, around: BridgeContext<'_>)
        ensures asks { Asks self.old.visitor.identity self.new.visitor.identity }
        ensures takes { TakesRest around.entry.site.now around.entry.now self.old self.new }
    {
        if self.has_more && self.visitor.can_read() {
            self.take(around);
        }
    }

    // Whether all that came of the browser is taken, and more may have come.
    fn is_to_read(&self) -> bool
        ensures { IsTrue result ↔ IsToRead self.now }
    {
        !self.has_more && self.browser_ready && self.visitor.can_read()
    }

    // Reads the browser while it has sent something.
    fn read_some(&mut self, around: BridgeContext<'_>, buffer: &mut ReadBuffer)
        ensures asks { Asks self.old.visitor.identity self.new.visitor.identity }
        ensures reads { Repeats IsToRead (ReadsOnce S.WebStream around.entry.site.now around.entry.now) READS self.old
            self.new }
    {
        'reads: for _ in 0..READS {
            if !self.is_to_read() {
                return;
            }
            self.read_once(around, buffer);
        }
    }

    // Reads the browser once.
    fn read_once(&mut self, around: BridgeContext<'_>, buffer: &mut ReadBuffer)
        ensures asks { Asks self.old.visitor.identity self.new.visitor.identity }
        ensures reads { ReadsOnce S.WebStream around.entry.site.now around.entry.now self.old self.new }
    {
        match self.visitor.receive(&mut self.browser, buffer) {
            ReadOutcome::Nothing => self.browser_ready = false,
            ReadOutcome::End => {
                self.is_over = true;
                self.browser_ready = false;
            }
            ReadOutcome::More => self.take(around),
        }
    }
}

impl<S: BridgeStream + Drop> Relay<S> {
    /// Connects its own client, for its place.
    pub fn connect<R: Net>(&mut self, rt: &R, around: BridgeContext<'_>, place: usize)
        ensures { Connects S.reaches place around.entry.socket.now self.old self.new }
    {
        match S::reach(rt, around, server_token(place)) {
            Some(stream) => self.server = Upstream::Connected(stream),
            None => self.lose(NO_SERVER),
        }
    }
}
