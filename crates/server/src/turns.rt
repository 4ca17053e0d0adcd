//! What each loop has around it.

ghost use Rattle.std.specs.Prelude.{◌≡◌, IfSome, None};
ghost use Rattle.server.specs.Events.{Shows, came_by, polled, token_of};

use crate::acceptor::{Acceptor, NONE};
use crate::loop_handle::{EndCause, HandCalls, HandedStream, LoopHandle, LoopStart, Shared};
use attach_proto::Why;
use mio::event::Event;
use mio::{Events, Poll, Registry, Token};
use server_loop::{Gate, Loop, Name, News, ServerEnd, SessionSeat};
use server_system::{KnownUsers, Looks, PeerSocket, SharedLooks, Wired};
use server_turns::{Around, Backlog, Came, Learned, Turner};
use std::fmt::{self, Display, Formatter};
use std::io::{self, ErrorKind};
use std::sync::atomic::{AtomicU64, Ordering};
use std::sync::{OnceLock, Wait};
use std::time::{Clock, Duration};

/// The token of a loop's waker.
pub const WAKE: Token = Token(0);
/// The token of the listener.
pub const LISTEN: Token = Token(1);
// The connection under key k has the token k + FIRST.
const FIRST: usize = 2;

// Peers that read how the server ends are looked at after this many milliseconds, or when something comes.
const PAUSE: u64 = 20;

// What comes to a loop: events of its connections, news, and connections to be taken in.
#[derive(Drop)]
struct Inlet<'a, L = Looks, E = OnceLock<ServerEnd>> {
    shared: &'a Shared<L, E>,
    me: usize,
    loop_handle: &'a LoopHandle,
    poll: Poll,
    events: Events,
    // How many of the events were looked at.
    seen: usize,
    registry: &'a Registry,
    acceptor: Option<Acceptor>,
    // The connection that was handed to the loop last.
    handed: Option<HandedStream>,
    calls: HandCalls,
}

// What came by an event.
fn came_by(event: &Event) -> Came
    ensures { result ≡ came_by event.now }
{
    let Token(token) = event.token();
    if token == WAKE.0 {
        return Came::Wake;
    }
    if token == LISTEN.0 {
        return Came::Listener;
    }
    Came::Peer {
        key: token.saturating_sub(FIRST),
        is_readable: event.is_readable(),
        is_writable: event.is_writable(),
        has_hung_up: event.is_read_closed() || event.is_error(),
    }
}

impl<L, E> Inlet<'_, L, E> {
    // Waits for events, at most this long. An interrupted wait has none.
    fn poll(&mut self, timeout: Option<Duration>) -> io::Result<()>
        ensures { self.new ≡ polled self.old self.new }
    {
        self.seen = 0;
        match self.poll.poll(&mut self.events, timeout) {
            Err(error) if error.kind() == ErrorKind::Interrupted => {
                self.events.clear();
                Ok(())
            }
            waited => waited,
        }
    }
}

impl<'a, L: SharedLooks, E: EndCause> Around<Wired<PeerSocket<'a>>> for Inlet<'a, L, E> {
    ghost does = { Shows L.asks L.tells E.sets E.holds };

    // Events of the stream that was handed come to this key.
    ghost wires = { λ inlet key stream left. (left ≡ record inlet { handed = None })
        × IfSome stream (λ wired. wired.stream.token ≡ token_of key) };

    fn arrive<R: Wait>(&mut self, rt: &R) -> bool {
        self.shared.latch.arrive(rt).is_some()
    }

    fn is_flooded(&self) -> bool {
        0 < self.shared.busy.load(Ordering::SeqCst)
    }

    fn note_flood(&mut self, is_much: bool) {
        if is_much {
            self.shared.busy.fetch_add(1, Ordering::SeqCst);
        } else {
            self.shared.busy.fetch_sub(1, Ordering::SeqCst);
        }
    }

    fn now<R: Clock>(&self, rt: &R) -> Option<Duration> {
        rt.monotonic().ok()
    }

    fn backlog(&self) -> Backlog {
        self.acceptor.as_ref().map_or(NONE, |it| it.backlog)
    }

    fn wait(&mut self, longest: Option<Duration>) -> io::Result<()> {
        let is_short = longest == Some(Duration::ZERO) || !self.loop_handle.may_sleep();
        let waited = self.poll(if is_short {
            Some(Duration::ZERO)
        } else {
            longest
        });
        self.loop_handle.is_awake();
        waited
    }

    fn next_event(&mut self) -> Option<Came> {
        let came = self.events.iter().as_slice().get(self.seen).map(came_by);
        self.seen = self.seen.saturating_add(1);
        came
    }

    fn accept<R: Wait>(&mut self, rt: &R) -> io::Result<()> {
        match &mut self.acceptor {
            Some(acceptor) => acceptor.accept(rt, &self.shared.loop_handles),
            None => Ok(()),
        }
    }

    fn take_news(&mut self) {
        self.loop_handle.take_news();
    }

    fn next_handed<R: Wait>(&mut self, rt: &R) -> Option<bool> {
        let handed = self.loop_handle.next_handed(rt, &mut self.calls)?;
        let is_extra = handed.is_extra;
        self.handed = Some(handed);
        Some(is_extra)
    }

    fn wire(&mut self, key: usize) -> Option<Wired<PeerSocket<'a>>> {
        let token = Token(key.saturating_add(FIRST));
        Wired::new(self.registry, token, self.handed.take()?.stream).ok()
    }

    fn note_peers(&mut self, count: usize) {
        self.loop_handle.note_peers(count);
    }

    fn await_look(&mut self) {
        self.loop_handle.await_look();
    }

    fn ask<R: Wait>(&mut self, rt: &R) -> u64 {
        self.shared.watched.ask(rt)
    }

    fn newest<R: Clock + Wait>(&mut self, rt: &R, count: &mut u64) -> Option<Learned> {
        let watched = &self.shared.watched;
        let KnownUsers { look, users, .. } = watched.newest(rt, &self.shared.log, count)?;
        Some(Learned { look, users })
    }

    fn wake_others(&mut self) -> io::Result<()> {
        self.shared.wake_others(self.me)
    }

    // Strangers are counted, and have at most one line a second of each kind.
    fn tell<R: Clock + Wait>(&mut self, rt: &R, news: &[News]) {
        if self.shared.tells {
            for one in news {
                self.shared.tell(rt, *one);
            }
        }
    }

    fn end(&mut self, end: ServerEnd) -> io::Result<()> {
        self.shared.end(end)
    }

    fn over(&self) -> Option<ServerEnd> {
        self.shared.over.get()
    }

    fn close(&mut self) {
        self.acceptor = None;
    }

    fn pause(&mut self) -> io::Result<()> {
        self.poll(Some(Duration::from_millis(PAUSE)))
    }
}

fn cause(why: Option<Why>) -> &'static str {
    match why {
        None => "its connection ended",
        Some(Why::Detached) => "detached",
        Some(Why::Removed) => "its user was removed",
        Some(Why::SingleUser) => "the session is single-user",
        Some(Why::Killed) => "killed",
        Some(Why::Quit) => "quit",
        Some(Why::TooFarBehind) => "too far behind",
        Some(Why::Fault) => "a fault",
        Some(Why::TrailFull) => "the trail is full",
    }
}

// News, and how many strangers of its kind there were by now.
#[derive(Clone, Copy)]
struct NewsLine(News, u64);

impl Display for NewsLine {
    fn fmt<W: fmt::Write>(&self, f: &mut Formatter<W>) -> fmt::Result {
        match self.0 {
            News::Came(guest) => write!(f, "{guest} came"),
            News::Went(guest, why) => write!(f, "{guest} went: {}", cause(why)),
            News::Done(user) => write!(f, "a command of {}", Name(user)),
            News::Refused(user) => write!(f, "a command of {} was refused", Name(user)),
            News::WrongToken => write!(f, "unknown user or wrong token: {} by now", self.1),
            News::Misfit => write!(f, "no first message: {} by now", self.1),
            News::Filled(percent) => write!(f, "the trail is full to {percent} percent"),
        }
    }
}

// Counts one more stranger. Returns how many there were, unless that was told in this second.
fn count<R: Clock>(rt: &R, strangers: &AtomicU64, told: &AtomicU64) -> Option<u64> {
    let number = strangers.fetch_add(1, Ordering::SeqCst).saturating_add(1);
    let Ok(now) = rt.monotonic() else {
        return Some(number);
    };
    // (0 says that nothing was told yet.)
    let second = now.as_secs().saturating_add(1);
    if told.swap(second, Ordering::SeqCst) == second {
        None
    } else {
        Some(number)
    }
}

impl<L, E> Shared<L, E> {
    // Writes news to the log.
    fn tell<R: Clock + Wait>(&self, rt: &R, news: News) {
        let number = match news {
            News::WrongToken => count(rt, &self.wrong_tokens, &self.wrong_tokens_told),
            News::Misfit => count(rt, &self.misfits, &self.misfits_told),
            _ => Some(0),
        };
        if let Some(number) = number {
            self.log.put(rt, &NewsLine(news, number));
        }
    }
}

/// Runs one loop until the server ends, and returns its seat.
pub fn run_loop<J: SessionSeat + Drop, G: Gate + Copy + Drop, R: Clock + Wait, E: EndCause>(
    rt: &R,
    shared: &Shared<Looks, E>,
    mut gate: G,
    seat: J,
    start: LoopStart,
) -> io::Result<J> {
    let LoopStart {
        me,
        poll,
        registry,
        acceptor,
        calls,
    } = start;
    let Some(loop_handle) = shared.loop_handles.get(me) else {
        return Ok(seat);
    };
    let inlet = Inlet {
        shared,
        me,
        loop_handle,
        poll,
        events: Events::with_capacity(shared.alloc, 64)?,
        seen: 0,
        registry: &registry,
        acceptor,
        handed: None,
        calls,
    };
    gate.stand_at(me);
    let loops = shared.loop_handles.len();
    let own: Loop<Wired<PeerSocket>, G, J> = Loop::new(shared.alloc, seat, gate, loops)?;
    Turner::new(own, inlet, loops).serve(rt)
}
