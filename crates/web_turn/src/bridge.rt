//! The loop of a bridge: one thread, and all connections.

ghost use Rattle.std.specs.Prelude.{◌≡◌, [], true, false, IfOk, OnErr, OnOk};
ghost use Rattle.std.specs.Duration.{as_nanos};
ghost use Rattle.std.specs.declared.time.Duration.{Duration};
ghost use Rattle.mio.specs.Events.{items};
ghost use Rattle.web_relay.specs.Places.{IsClosed, LetsIn};
ghost use Rattle.web_turn.specs.Accepting.{AcceptsAll, AcceptsAt, AcceptsIf, AcceptsOne, room_for};
ghost use Rattle.web_turn.specs.Waking.{GoesOn, GoesRound, Rounds, RoundsAfter, Serves, longest_rest, wakes, wakes_all};

use crate::links::TakesLinks;
use crate::log::WebLog;
use crate::waiting::{Waits, watch_all};
use mio::{Events, Registry};
use slab::Slab;
use std::alloc::{AllocError, AllocGlobal, Global};
use std::io;
use std::net::Net;
use std::sync::{Arc, Wait};
use std::time::{Clock, Duration};
use web_relay::{Halls, Relay, make_room, mark};
use web_requests::Site;
use web_streams::{
    Accepted, Asked, BridgeStream, ReadBuffer, WebListener, WebStream, Woken, browser_token,
    woken_by,
};

/// How many connections may be there besides those of pages that have said who they are.
const SPARE: usize = 256;

/// How many connections are taken in one turn.
const COMERS: usize = 64;

/// How many seconds pass at most between two looks at all connections.
const LOOK: u64 = 2;

/// How many milliseconds pass at most between them if something waits that no event tells of.
const SOON: u64 = 100;

/// What a bridge asks of the system, except to wait: a function says that itself, as it may then never return.
pub trait WebHost: Net + TakesLinks + Clock + AllocGlobal {}

impl<R: Net + TakesLinks + Clock + AllocGlobal> WebHost for R {}

/// What a bridge is to do.
#[derive(Drop)]
pub struct BridgeOptions<'a> {
    /// The server's socket.
    pub socket: &'a str,
    /// The folder of the links, if there are such.
    pub links: Option<&'a str>,
    /// How many pages may be there that have said who they are.
    pub most: usize,
    /// The keys that choose the window for watchers, if one is chosen.
    pub choice: Option<String>,
    /// None if it logs nothing.
    pub log: Option<Arc<WebLog>>,
}

/// The browsers that are there, and all that they use together.
#[derive(Drop)]
pub struct Bridge<'a, S> {
    alloc: Global,
    pub(crate) site: Site,
    pub(crate) socket: &'a str,
    pub(crate) links: Option<&'a str>,
    pub(crate) most: usize,
    pub(crate) log: Option<Arc<WebLog>>,
    pub(crate) relays: Slab<Relay<S>>,
    pub(crate) halls: Halls<S>,
    pub(crate) buffer: ReadBuffer,
    // How often listeners were asked.
    asked: Asked,
    // Browsers may wait at a listener. It tells of those that come, and not again of those that wait.
    has_comers: bool,
    // Something is left to do at once.
    is_busy: bool,
    // How many logins were refused since a line told of such.
    pub(crate) refused: u64,
    pub(crate) told_refused: Duration,
}

impl<'a, S: Drop> Bridge<'a, S> {
    /// A bridge that nobody has come to.
    pub fn new(
        alloc: Global,
        site: Site,
        options: BridgeOptions<'a>,
    ) -> Result<Bridge<'a, S>, AllocError>
        ensures nobody { IfOk result (λ bridge. (bridge.relays.slots ≡ []) × (bridge.halls.list.slots ≡ [])
            × (bridge.refused ≡ 0)) }
        ensures comers { IfOk result (λ bridge. (bridge.has_comers ≡ true) × (bridge.is_busy ≡ false)) }
        ensures given { IfOk result (λ bridge. (bridge.site ≡ site) × (bridge.socket ≡ options.entry.socket)
            × (bridge.links ≡ options.entry.links) × (bridge.most ≡ options.entry.most)
            × (bridge.halls.choice ≡ options.entry.choice) × (bridge.log ≡ options.entry.log)) }
    {
        let BridgeOptions {
            socket,
            links,
            most,
            choice,
            log,
        } = options;
        Ok(Bridge {
            alloc,
            site,
            socket,
            links,
            most,
            log,
            relays: Slab::new(alloc),
            halls: Halls::new(alloc, choice),
            buffer: ReadBuffer::new(alloc)?,
            asked: Asked::new(),
            has_comers: true,
            is_busy: false,
            refused: 0,
            told_refused: Duration::ZERO,
        })
    }

    // How many browsers may be there.
    fn places(&self) -> usize
        ensures { result ≡ room_for self.now.most }
    {
        self.most.saturating_add(SPARE)
    }

    // How long it may sleep without an event.
    fn longest(&self) -> Duration
        ensures { as_nanos result ≡ longest_rest self.now }
    {
        if self.is_busy {
            Duration::ZERO
        } else if self.has_comers || self.refused > 0 {
            Duration::from_millis(SOON)
        } else {
            Duration::from_secs(LOOK)
        }
    }

    // Notes what an event is for.
    fn wake(&mut self, woken: Woken)
        ensures { self.new ≡ wakes woken self.old }
    {
        match woken {
            Woken::Listener(_) => self.has_comers = true,
            _ => mark(woken, &mut self.relays, &mut self.halls),
        }
    }

    // Notes what events are for.
    fn wake_all(&mut self, events: &Events)
        ensures { self.new ≡ wakes_all (items events.now) self.old }
    {
        for event in events {
            self.wake(woken_by(event.token()));
        }
    }
}

impl<S: BridgeStream + WebStream + Drop> Bridge<'_, S> {
    // Lets a browser in, if there is memory and the system watches its connection. If there are too many, the oldest
    // one goes that hasn't said who it is.
    fn let_in(&mut self, browser: S, registry: &Registry, now: Duration) -> io::Result<()>
        ensures ok { OnOk result (LetsIn S.wakes (room_for self.old.most) browser now self.old.relays self.new.relays) }
        ensures err { OnErr result (IsClosed S.wakes (room_for self.old.most) browser self.old.relays self.new.relays) }
        ensures same { self.new ≡ record self.old { relays = self.new.relays } }
    {
        let mut browser = browser;
        let most = self.places();
        make_room(&mut self.relays, most);
        let place = self.relays.vacant_key();
        browser.register(registry, browser_token(place))?;
        match self.relays.insert(Relay::new(self.alloc, browser, now)) {
            Ok(_) => Ok(()),
            Err(error) => Err(io::Error::from(AllocError::from(error))),
        }
    }

    // Asks a listener once: one who waits is let in or closed. Returns whether there was one. If the system refuses to
    // hand it over, the listener is asked again soon.
    fn accept_one(&mut self, listener: &WebListener, registry: &Registry, now: Duration) -> bool
        ensures { AcceptsOne S.BridgeStream listener.now now self.old result self.new }
    {
        match S::come(listener, &mut self.asked) {
            Accepted::Came(browser) => {
                // (one that can't be let in is closed)
                let _ = self.let_in(browser, registry, now);
                true
            }
            Accepted::Nothing => false,
            Accepted::Refused => {
                self.has_comers = true;
                false
            }
        }
    }

    // Takes browsers that wait at a listener. Returns whether more may be taken at once: then as many as may be were.
    fn accept(&mut self, listener: &WebListener, registry: &Registry, now: Duration) -> bool
        ensures { AcceptsAt S.BridgeStream listener.now now self.old result self.new }
    {
        'comers: for _ in 0..COMERS {
            if !self.accept_one(listener, registry, now) {
                return false;
            }
        }
        self.has_comers = true;
        true
    }

    // Takes browsers that wait at the listeners. Returns whether more may be taken at once.
    fn accept_each(&mut self, listeners: &[WebListener], registry: &Registry, now: Duration) -> bool
        ensures { AcceptsAll S.BridgeStream listeners.now now self.old result self.new }
    {
        let mut has_more = false;
        for listener in listeners {
            let has_first = self.accept(listener, registry, now);
            has_more |= has_first;
        }
        has_more
    }

    // Takes browsers if some may wait at the listeners. Returns whether more may be taken at once.
    fn accept_all(&mut self, listeners: &[WebListener], registry: &Registry, now: Duration) -> bool
        ensures { AcceptsIf S.BridgeStream listeners.now now self.old result self.new }
    {
        if !self.has_comers {
            return false;
        }
        self.has_comers = false;
        self.accept_each(listeners, registry, now)
    }

    // One round of the loop: notes what events are for, accepts browsers, and gives each its turn.
    fn round<R: WebHost + Wait>(
        &mut self,
        rt: &R,
        registry: &Registry,
        events: &Events,
        listeners: &[WebListener],
        now: Duration,
    )
        ensures { Rounds S.WebStream S.BridgeStream (R.takes rt.now) now (items events.now) listeners.now self.old
            self.new }
    {
        self.wake_all(events);
        let has_more = self.accept_all(listeners, registry, now);
        self.turn(rt, registry, now);
        let has_work = self.has_work();
        self.is_busy = has_more;
        self.is_busy |= has_work;
    }

    // A round after a wait that ended at this time; none after one that was interrupted or refused.
    fn round_after<R: WebHost + Wait>(
        &mut self,
        rt: &R,
        registry: &Registry,
        events: &Events,
        listeners: &[WebListener],
        ended: io::Result<Option<Duration>>,
    ) -> io::Result<()>
        ensures { RoundsAfter S.WebStream S.BridgeStream (R.takes rt.now) ended
            (items events.now) listeners.now self.old
            result self.new }
    {
        match ended {
            Ok(Some(now)) => {
                self.round(rt, registry, events, listeners, now);
                Ok(())
            }
            Ok(None) => Ok(()),
            Err(error) => Err(error),
        }
    }

    // Waits until something comes, and at most for as long as it may rest, and has a round.
    fn go_round<R: WebHost + Wait, P: Waits>(
        &mut self,
        rt: &R,
        poll: &mut P,
        events: &mut Events,
        listeners: &[WebListener],
    ) -> io::Result<()>
        ensures { GoesRound S.WebStream S.BridgeStream (R.takes rt.now) P.waits listeners.now poll.old self.old result
            poll.new self.new }
    {
        let longest = self.longest();
        let ended = poll.wait(rt, events, longest);
        self.round_after(rt, poll.registry(), events, listeners, ended)
    }

    // Goes round until the system refuses to wait.
    fn go_on<R: WebHost + Wait, P: Waits>(
        &mut self,
        rt: &R,
        poll: &mut P,
        events: &mut Events,
        listeners: &[WebListener],
    ) -> io::Error
        ensures { GoesOn S.WebStream S.BridgeStream (R.takes rt.now) P.waits listeners.now poll.old self.old result }
    {
        'rounds: for _ in rt.forever() {
            match self.go_round(rt, poll, events, listeners) {
                Ok(()) => {}
                Err(error) => return error,
            }
        }
        unreachable!()
    }
}

/// Serves until the system refuses to wait. Returns why.
pub fn serve<R: WebHost + Wait, S: BridgeStream + WebStream + Drop, P: Waits + Drop>(
    rt: &R,
    mut bridge: Bridge<'_, S>,
    mut poll: P,
    mut events: Events,
    listeners: &mut [WebListener],
) -> io::Error
    ensures { Serves S.WebStream S.BridgeStream (R.takes rt.now) P.wakes P.waits listeners.old poll bridge.entry
        result }
{
    match watch_all(&poll, listeners) {
        Ok(()) => bridge.go_on(rt, &mut poll, &mut events, listeners),
        Err(error) => error,
    }
}
