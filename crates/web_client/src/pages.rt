//! A browser's own client, and which page a browser is shown.

ghost use Rattle.std.specs.Prelude.{◌≡◌, ◌↔◌, ◌≤◌, OnOk, IsOk, IsTrue, false};
ghost use Rattle.web_client.specs.Asking.{AsksFor, HearsFor, ShowsFor, OnlyShows, IsOwn, IfOwn, IsWatcher};
ghost use Rattle.web_client.specs.Rows.{Adds, IsDue, Shows, SendsAll};
ghost use Rattle.web_client.specs.Frames.{IsWithin};

use crate::client::SharedClient;
use crate::identity::Identity;
use crate::visitor::Visitor;
use crate::wire::{Phase, SentPage, WireFault};
use web_streams::{ReadBuffer, ReadOutcome, WebStream};

impl Visitor {
    /// Reads the server once for the browser's own client, which hears what came. If it has none the connection ends.
    pub fn hear<S: WebStream>(&mut self, server: &mut S, buffer: &mut ReadBuffer) -> ReadOutcome
        ensures hears { HearsFor S.reads server.old self.old.identity result server.new self.new.identity }
        ensures same { self.new ≡ record self.old { identity = self.new.identity } }
    {
        match &mut self.identity {
            Identity::Own(client) => client.receive(server, buffer),
            _ => ReadOutcome::End,
        }
    }

    /// Writes what its own client has for the server, as far as the server takes it. Returns false if the connection
    /// is broken.
    pub fn ask<S: WebStream>(&mut self, server: &mut S) -> bool
        ensures asks { AsksFor S.writes server.old self.old.identity result server.new self.new.identity }
        ensures same { self.new ≡ record self.old { identity = self.new.identity } }
    {
        match &mut self.identity {
            Identity::Own(client) => client.send_all(server),
            _ => true,
        }
    }

    /// Another page is shown from now on, of which nothing was sent.
    pub fn change_page(&mut self)
        ensures { self.new ≡ record self.old { view = record { is_welcomed = false; since = 0 } } }
    {
        self.view = SentPage::NOTHING;
    }

    /// Whether it watches a page that others watch too. It is shown that page, and every other browser its own.
    pub fn is_watcher(&self) -> bool
        ensures { IsTrue result ↔ IsWatcher self.now.identity }
    {
        matches!(&self.identity, Identity::Watching(_, _))
    }

    /// Shows the page of a shared client to a browser that watches. No other one is sent it.
    pub fn show_shared(&mut self, shared: &mut SharedClient) -> Result<(), WireFault>
        ensures apart { (IsWatcher self.old.identity → ⊥) → (self.new ≡ self.old) × (shared.new ≡ shared.old) }
        ensures closed { (self.old.wire.phase ≡ Phase.Socket → ⊥) → (self.new ≡ self.old)
            × (shared.new ≡ shared.old) }
        // What a page was told last is still sent.
        ensures stays { (self.old.wire.phase ≡ Phase.Socket → ⊥) → IsOk result }
        ensures shows { self.old.wire.phase ≡ Phase.Socket → IsWatcher self.old.identity
            → IsDue shared.old.client.display self.old.wire
            → OnOk result (Shows shared.old.client.display self.old.view.since self.old.wire
            shared.new.client.display self.new.view.since self.new.wire) }
        // Rows that aren't due stay to be sent.
        ensures later { (IsDue shared.old.client.display self.old.wire → ⊥)
            → (self.new.view.since ≡ self.old.view.since) × (shared.new ≡ shared.old) }
        ensures sends { self.old.wire.phase ≡ Phase.Socket → IsWatcher self.old.identity
            → OnOk result (SendsAll shared.old.client.display.told self.old.view self.new.view self.old.wire
            self.new.wire) }
        ensures needed { shared.new.client.display.sheet.moment ≤ self.old.view.since
            → OnOk result (self.new.wire.sent ≡ self.old.wire.sent) }
        ensures adds { OnOk result (Adds self.old.wire self.new.wire) }
        ensures bound { self.old.wire.phase ≡ Phase.Socket → IsWatcher self.old.identity
            → OnOk result (IsWithin self.new.wire) }
        ensures same { self.new ≡ record self.old { wire = self.new.wire; view = self.new.view } }
        ensures keeps { OnlyShows shared.old.client shared.new.client }
    {
        if !self.is_open() || !self.is_watcher() {
            return Ok(());
        }
        self.wire.show(&mut self.view, &mut shared.client.display)?;
        self.wire.check_bound()
    }

    /// Shows the page of its own client: what the browser is sent is made from the display alone.
    pub fn show_own(&mut self) -> Result<(), WireFault>
        ensures apart { (IsOwn self.old.identity (λ _. Unit {0}) → ⊥) → self.new ≡ self.old }
        ensures closed { (self.old.wire.phase ≡ Phase.Socket → ⊥) → self.new ≡ self.old }
        // What a page was told last is still sent. One without a client is given up only if too much waits for it.
        ensures stays { (self.old.wire.phase ≡ Phase.Socket → ⊥) → IsOk result }
        ensures within { (IsOwn self.old.identity (λ _. Unit {0}) → ⊥) → IsWithin self.old.wire → IsOk result }
        ensures shows { self.old.wire.phase ≡ Phase.Socket
            → IfOwn self.old.identity (λ old. IsDue old.display self.old.wire
            → OnOk result (IsOwn self.new.identity (λ new. Shows old.display self.old.view.since self.old.wire
            new.display self.new.view.since self.new.wire))) }
        // Rows that aren't due stay to be sent.
        ensures later { IfOwn self.old.identity (λ old. (IsDue old.display self.old.wire → ⊥)
            → (self.new.view.since ≡ self.old.view.since) × IsOwn self.new.identity (λ new. new ≡ old)) }
        ensures sends { self.old.wire.phase ≡ Phase.Socket
            → IfOwn self.old.identity (λ old. OnOk result (SendsAll old.display.told self.old.view self.new.view
            self.old.wire self.new.wire)) }
        ensures needed { IfOwn self.new.identity (λ new. new.display.sheet.moment ≤ self.old.view.since
            → OnOk result (self.new.wire.sent ≡ self.old.wire.sent)) }
        ensures adds { OnOk result (Adds self.old.wire self.new.wire) }
        ensures bound { self.old.wire.phase ≡ Phase.Socket → OnOk result (IsWithin self.new.wire) }
        ensures keeps { ShowsFor self.old.identity self.new.identity }
        ensures same { self.new
            ≡ record self.old { wire = self.new.wire; view = self.new.view; identity = self.new.identity } }
    {
        if !self.is_open() {
            return Ok(());
        }
        match &mut self.identity {
            Identity::Own(client) => {
                self.wire.show(&mut self.view, &mut client.display)?;
                self.wire.check_bound()
            }
            _ => self.wire.check_bound(),
        }
    }
}
