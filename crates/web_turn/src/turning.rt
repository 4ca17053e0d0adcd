//! A turn of the bridge, browser by browser.

ghost use Rattle.std.specs.Prelude.{◌≡◌, ◌≤◌, ◌↔◌, ℕ, Some, None, IfSome, IsTrue, length};
ghost use Rattle.slab.specs.Slab.{get};
ghost use Rattle.web_relay.specs.Places.{IsTooMany};
ghost use Rattle.web_turn.specs.Turning.{Admits, BeginsHalls, ChangesAt, HasWork, Hears, IsBusyRelay, IsComing};
ghost use Rattle.web_turn.specs.Turning.{IsShown, LetsGo, MayConnect, Reads, ReadsAt, TellsRefused, Turns, TurnsAt};
ghost use Rattle.web_turn.specs.Turning.{Visits, VisitsAll, opening_of};

use crate::bridge::{Bridge, WebHost};
use crate::links::redeem;
use crate::log::{tell, tell_end, tell_watching};
use mio::Registry;
use slab::Slab;
use std::net::Net;
use std::sync::Wait;
use std::time::Duration;
use web_relay::{Halls, Relay, is_full, let_go};
use web_streams::{BridgeContext, BridgeStream, ReadBuffer, WebStream};

/// What a page is told that has said who it is when all places are taken.
pub const FULL: &str = "All places are taken";

// What a browser's bytes came to: whether its page opened, and whether it says now who it is.
#[derive(Clone, Copy)]
struct PageArrival {
    opens: bool,
    begins: bool,
}

impl PageArrival {
    fn is_coming(self) -> bool
        ensures { IsTrue result ↔ IsComing self }
    {
        self.opens || self.begins
    }
}

// Takes what a browser sent.
fn hear<S: WebStream + Drop>(
    relay: &mut Relay<S>,
    around: BridgeContext<'_>,
    buffer: &mut ReadBuffer,
) -> PageArrival
    ensures { Hears S.WebStream around.entry.site.now around.entry.now relay.old result relay.new }
{
    let opens = relay.read_browser(around, buffer);
    let begins = relay.begins();
    PageArrival { opens, begins }
}

// Whether a page comes that is one too many.
fn is_too_many<S: Drop>(
    relays: &Slab<Relay<S>>,
    place: usize,
    most: usize,
    arrival: PageArrival,
) -> bool
    ensures { (relay : Relay S) → get relays.now place ≡ Some relay
        → IsTrue result ↔ (IsComing arrival × IsTooMany relays.now place relay most) }
{
    arrival.is_coming() && is_full(relays, place, most)
}

// Turns away the page at this place if it comes and is one too many.
fn admit<S: Drop>(relays: &mut Slab<Relay<S>>, place: usize, most: usize, arrival: PageArrival)
    ensures { ChangesAt place (Admits relays.old place most arrival) relays.old relays.new }
{
    if !is_too_many(relays, place, most, arrival) {
        return;
    }
    if let Some(relay) = relays.get_mut(place) {
        relay.turn_away(arrival.opens, FULL);
    }
}

// Reads the browser at this place. A page that is one too many is turned away when it opens, or says who it is.
fn read_at<S: WebStream + Drop>(
    relays: &mut Slab<Relay<S>>,
    place: usize,
    most: usize,
    around: BridgeContext<'_>,
    buffer: &mut ReadBuffer,
)
    ensures { ChangesAt place (Reads S.WebStream around.entry.site.now around.entry.now most relays.old place)
        relays.old
        relays.new }
{
    let Some(relay) = relays.get_mut(place) else {
        return;
    };
    let arrival = hear(relay, around, buffer);
    admit(relays, place, most, arrival);
}

// Connects a relay's own client, if its page has said who it is.
fn connect<R: Net, S: BridgeStream + Drop>(
    rt: &R,
    around: BridgeContext<'_>,
    place: usize,
    relay: &mut Relay<S>,
)
    ensures { MayConnect S.BridgeStream place around.entry.socket.now relay.old relay.new }
{
    if relay.wants_server() {
        relay.connect(rt, around, place);
    }
}

// Shows a browser its page, and writes what it was sent.
fn show<S: WebStream + Drop>(halls: &mut Halls<S>, relay: &mut Relay<S>)
    ensures { IsShown S.WebStream halls.old relay.old halls.new relay.new }
{
    halls.show(relay);
    relay.write_all();
}

// The place of a browser for which something is left to do without an event.
fn busy_place<S: Drop>(relays: &Slab<Relay<S>>) -> Option<usize>
    ensures some { IfSome result (λ place. IsBusyRelay (get relays.now place)) }
    ensures none { result ≡ None → (place : ℕ) → IsBusyRelay (get relays.now place) → ⊥ }
{
    'places: for place in 0..relays.capacity() {
        if let Some(relay) = relays.get(place) {
            if relay.is_busy() {
                return Some(place);
            }
        }
    }
    None
}

impl<S: BridgeStream + WebStream + Drop> Bridge<'_, S> {
    // Reads the browser at this place.
    fn read(&mut self, registry: &Registry, place: usize, now: Duration)
        ensures { ReadsAt S.WebStream now place self.old self.new }
    {
        let around = BridgeContext {
            registry,
            site: &self.site,
            socket: self.socket,
            now,
        };
        read_at(&mut self.relays, place, self.most, around, &mut self.buffer);
    }

    // One turn of the browser at this place.
    fn turn_of<R: WebHost + Wait>(
        &mut self,
        rt: &R,
        registry: &Registry,
        place: usize,
        now: Duration,
    )
        ensures { TurnsAt S.WebStream S.BridgeStream (R.takes rt.now) now place self.old self.new }
    {
        let Some(relay) = self.relays.get_mut(place) else {
            return;
        };
        let around = BridgeContext {
            registry,
            site: &self.site,
            socket: self.socket,
            now,
        };
        connect(rt, around, place, relay);
        redeem(rt, self.links, relay);
        let begins = self.halls.seat(rt, around, relay);
        tell_watching(rt, &self.log, place, relay, begins);
        relay.read_server(&mut self.buffer);
        tell(rt, &self.log, place, relay);
        relay.write_all();
        show(&mut self.halls, relay);
        relay.look(now);
    }

    // Lets the browser at this place go if it is over, with its own client.
    fn let_go<R: Wait>(&mut self, rt: &R, place: usize)
        ensures { LetsGo place self.old self.new }
    {
        let Some(said) = let_go(&mut self.relays, place) else {
            return;
        };
        let (is_told, is_refused) = said;
        self.refused = self.refused.saturating_add(u64::from(is_refused));
        tell_end(rt, &self.log, place, is_told);
    }

    // Reads the browser at this place, gives it its turn, and lets it go if it is over.
    fn visit<R: WebHost + Wait>(&mut self, rt: &R, registry: &Registry, place: usize, now: Duration)
        ensures { Visits S.WebStream S.BridgeStream (R.takes rt.now) now place self.old self.new }
    {
        self.read(registry, place, now);
        self.turn_of(rt, registry, place, now);
        self.let_go(rt, place);
    }

    // Visits all places, one after another.
    fn visit_all<R: WebHost + Wait>(&mut self, rt: &R, registry: &Registry, now: Duration)
        ensures { (places : ℕ) × (length self.old.relays.slots ≤ places) × VisitsAll S.WebStream S.BridgeStream
            (R.takes rt.now) now places self.old self.new }
    {
        'places: for place in 0..self.relays.capacity() {
            self.visit(rt, registry, place, now);
        }
    }

    // Reads and writes for the halls, and sees to their windows.
    fn begin_halls<R: WebHost>(&mut self, rt: &R, registry: &Registry, now: Duration)
        ensures begins { BeginsHalls S.WebStream S.BridgeStream (opening_of self.old now) self.old.halls
            self.new.halls }
        ensures same { self.new ≡ record self.old { halls = self.new.halls; buffer = self.new.buffer } }
    {
        self.halls.turn(&mut self.buffer);
        let around = BridgeContext {
            registry,
            site: &self.site,
            socket: self.socket,
            now,
        };
        self.halls.renew(rt, around);
        self.halls.choose(now);
    }

    // Logs how many logins were refused, once a second at most.
    fn tell_refused<R: Wait>(&mut self, rt: &R, now: Duration)
        ensures { TellsRefused now self.old self.new }
    {
        let Some(log) = &self.log else {
            self.refused = 0;
            return;
        };
        if self.refused > 0 && now.saturating_sub(self.told_refused) >= Duration::from_secs(1) {
            let count = self.refused;
            log.put(rt, &format_args!("logins refused: {count}"));
            self.refused = 0;
            self.told_refused = now;
        }
    }

    // One turn of all.
    pub(crate) fn turn<R: WebHost + Wait>(&mut self, rt: &R, registry: &Registry, now: Duration)
        ensures { Turns S.WebStream S.BridgeStream (R.takes rt.now) now self.old self.new }
    {
        self.begin_halls(rt, registry, now);
        self.visit_all(rt, registry, now);
        self.halls.close(now);
        self.tell_refused(rt, now);
    }

    // Whether something is left to do at once.
    pub(crate) fn has_work(&self) -> bool
        ensures { IsTrue result ↔ HasWork self.now }
    {
        let has_relay = busy_place(&self.relays).is_some();
        let has_hall = self.halls.busy().is_some();
        has_relay || has_hall
    }
}
