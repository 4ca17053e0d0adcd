//! What a loop begins with, and how connections and news come to it.

ghost use Rattle.std.specs.Prelude.{◌≡◌, IfOk, is_some, length};
ghost use Rattle.server.specs.Events.{once_more};
ghost use Rattle.server.specs.Starting.{AreStarts, IsStart};

use crate::acceptor::Acceptor;
use crate::latch::Latch;
use crate::turns::{LISTEN, WAKE};
use mio::net::{UnixListener, UnixStream};
use mio::{Interest, Poll, Registry, Waker};
use server_loop::ServerEnd;
use server_outcome::ServeFault;
use server_system::{Host, LastLook, Log, Looks, UsersFile, WatchedUsers};
use std::alloc::Global;
use std::collections::VecDeque;
use std::sync::atomic::{AtomicBool, AtomicU64, Ordering};
use std::sync::{Arc, Mutex, OnceLock, Wait};
use std::thread::Threads;
use std::time::Clock;
use std::{io, thread};

/// A connection on its way to its loop.
#[derive(Drop)]
pub struct HandedStream {
    pub stream: UnixStream,
    /// It was taken in though no more are to stay.
    pub is_extra: bool,
}

/// How often a loop asked for what was handed to it, counted round at 2 ^ 64: a second time shows.
#[derive(Drop)]
pub struct HandCalls {
    count: u64,
}

/// How others reach a loop.
#[derive(Drop)]
pub struct LoopHandle {
    waker: Waker,
    handed: Mutex<VecDeque<HandedStream>>,
    is_asleep: AtomicBool,
    has_news: AtomicBool,
    // It has connections.
    has_peers: AtomicBool,
    // It waits for a look at the users' file.
    awaits_look: AtomicBool,
}

impl LoopHandle {
    pub fn new(waker: Waker, handed: VecDeque<HandedStream>) -> LoopHandle {
        LoopHandle {
            waker,
            handed: Mutex::new(handed),
            is_asleep: AtomicBool::new(false),
            has_news: AtomicBool::new(false),
            has_peers: AtomicBool::new(false),
            awaits_look: AtomicBool::new(false),
        }
    }

    /// Hands a connection to the loop. Returns whether there was memory for it.
    pub fn hand(&self, rt: &impl Wait, handed: HandedStream) -> bool {
        self.handed.lock(rt).push_back(handed).is_ok()
    }

    /// The next connection that was handed to the loop.
    pub fn next_handed(&self, rt: &impl Wait, calls: &mut HandCalls) -> Option<HandedStream>
        ensures { calls.new ≡ once_more calls.old }
    {
        calls.count = calls.count.wrapping_add(1);
        self.handed.lock(rt).pop_front()
    }

    /// The loop is to be woken after the next look at the users' file.
    pub fn await_look(&self) {
        self.awaits_look.store(true, Ordering::SeqCst);
    }

    // Such a look is done: wakes the loop if it waits for one.
    fn tell_look(&self) -> io::Result<()> {
        if self.awaits_look.swap(false, Ordering::SeqCst) {
            self.wake()?;
        }
        Ok(())
    }

    /// Tells the loop that there is news. One that is awake finds it before it sleeps.
    pub fn wake(&self) -> io::Result<()> {
        self.has_news.store(true, Ordering::SeqCst);
        if self.is_asleep.swap(false, Ordering::SeqCst) {
            self.waker.wake()?;
        }
        Ok(())
    }

    /// The loop is about to sleep, and is woken by news from now on. It may sleep if no news came before.
    pub fn may_sleep(&self) -> bool {
        self.is_asleep.store(true, Ordering::SeqCst);
        !self.has_news.load(Ordering::SeqCst)
    }

    pub fn is_awake(&self) {
        self.is_asleep.store(false, Ordering::SeqCst);
    }

    /// The loop has this many connections. While it has none it isn't woken for the others' steps.
    pub fn note_peers(&self, count: usize) {
        self.has_peers.store(count > 0, Ordering::SeqCst);
    }

    /// Takes the news that came before this; what it tells of is looked at after this.
    pub fn take_news(&self) {
        self.has_news.store(false, Ordering::SeqCst);
    }
}

/// Why a server ends: the first cause holds. Each relation is shown by a call of its function alone.
pub trait EndCause {
    ghost use Rattle.std.specs.Prelude.{Option};
    ghost use Rattle.server_seat.specs.declared.seat.ServerEnd.{ServerEnd as End};

    ghost sets: { Self → End → Type 0 };

    ghost holds: { Self → Option End → Type 0 };

    fn set(&self, end: ServerEnd)
        ensures { sets self.now end };

    fn get(&self) -> Option<ServerEnd>
        ensures { holds self.now result };
}

impl EndCause for OnceLock<ServerEnd> {
    ghost sets = { λ cell end. Unit {0} };

    ghost holds = { λ cell end. Unit {0} };

    fn set(&self, end: ServerEnd) {
        let _ = self.try_set(end);
    }

    fn get(&self) -> Option<ServerEnd> {
        OnceLock::get(self).copied()
    }
}

/// What the loops share beside their session.
#[derive(Drop)]
pub struct Shared<L = Looks, E = OnceLock<ServerEnd>> {
    pub alloc: Global,
    pub loop_handles: Arc<Vec<LoopHandle>, Global>,
    /// Where the loops wait until all are ready.
    pub latch: Latch,
    pub over: E,
    /// How many loops much comes to.
    pub busy: AtomicU64,
    pub watched: Arc<WatchedUsers<UsersFile, L>, Global>,
    /// How many connections had a wrong token, and the second in which that was told last.
    pub wrong_tokens: AtomicU64,
    pub wrong_tokens_told: AtomicU64,
    /// How many connections sent no first message, and the second in which that was told last.
    pub misfits: AtomicU64,
    pub misfits_told: AtomicU64,
    pub log: Log,
    /// Whether news are written to the log.
    pub tells: bool,
}

/// What a loop begins with.
#[derive(Drop)]
pub struct LoopStart {
    pub me: usize,
    pub poll: Poll,
    /// The registry of the poll, whose descriptor is there before anybody connects.
    pub registry: Registry,
    pub acceptor: Option<Acceptor>,
    pub calls: HandCalls,
}

// The acceptor of a loop that waits at this poll.
fn acceptor(alloc: Global, mut listener: UnixListener, poll: &Poll) -> io::Result<Acceptor> {
    let registry = poll.registry();
    registry.register(&mut listener, LISTEN, Interest::READABLE)?;
    Ok(Acceptor::new(alloc, listener, registry.try_clone()?)?)
}

// A loop of this number, which may have the listener, and how others reach it.
fn place(
    rt: &impl Host,
    me: usize,
    listener: Option<UnixListener>,
) -> io::Result<(LoopStart, LoopHandle)>
    ensures { IfOk result (λ made. IsStart me (is_some listener) made.0) }
{
    let poll = Poll::new(rt)?;
    let waker = Waker::new(poll.registry(), WAKE)?;
    let registry = poll.registry().try_clone()?;
    let acceptor = match listener {
        Some(listener) => Some(acceptor(rt.alloc(), listener, &poll)?),
        None => None,
    };
    let start = LoopStart {
        me,
        poll,
        registry,
        acceptor,
        calls: HandCalls { count: 0 },
    };
    Ok((start, LoopHandle::new(waker, VecDeque::new(rt.alloc()))))
}

/// What this many loops begin with, of which the first has the listener, and how others reach them.
pub fn places(
    rt: &impl Host,
    loops: usize,
    listener: UnixListener,
) -> io::Result<(Vec<LoopStart>, Vec<LoopHandle>)>
    ensures { IfOk result (λ made. AreStarts loops made.0.items × (length made.1.items ≡ loops)) }
{
    let alloc = rt.alloc();
    let mut listener = Some(listener);
    let mut starts = Vec::new(alloc);
    let mut loop_handles = Vec::new(alloc);
    for me in 0..loops {
        let (start, loop_handle) = place(rt, me, listener.take())?;
        starts.push(start)?;
        loop_handles.push(loop_handle)?;
    }
    Ok((starts, loop_handles))
}

impl<L, E: EndCause> Shared<L, E> {
    /// Wakes the other loops that have connections.
    pub fn wake_others(&self, me: usize) -> io::Result<()> {
        for (place, loop_handle) in self.loop_handles.iter().enumerate() {
            if place != me && loop_handle.has_peers.load(Ordering::SeqCst) {
                loop_handle.wake()?;
            }
        }
        Ok(())
    }

    /// The server ends: the first cause holds. All loops are woken.
    pub fn end(&self, end: ServerEnd) -> io::Result<()>
        ensures { E.sets self.now.over end }
    {
        self.over.set(end);
        for loop_handle in self.loop_handles.iter() {
            loop_handle.wake()?;
        }
        Ok(())
    }
}

// Looks at the users' file whenever that is asked for, until nobody can ask any more.
fn watch<R: Clock + Wait>(
    rt: &R,
    watched: &WatchedUsers<UsersFile>,
    seen: LastLook,
    loop_handles: &[LoopHandle],
) {
    let mut seen = seen;
    for _ in rt.forever() {
        if !watched.look(rt, &mut seen) {
            return;
        }
        for loop_handle in loop_handles {
            let _ = loop_handle.tell_look();
        }
    }
}

/// Starts the thread that looks at the users' file. Nobody waits for its end, as the file's disk may hang.
pub fn start_watching<R: Threads + Clock + Wait + Copy + Send + 'static>(
    rt: &R,
    shared: &Shared,
    seen: LastLook,
) -> Result<(), ServeFault> {
    let watched = Arc::try_clone(&shared.watched)?;
    let loop_handles = Arc::try_clone(&shared.loop_handles)?;
    let rt_there = *rt;
    let started = thread::spawn(rt, move || {
        let rt = rt_there;
        watch(&rt, &watched, seen, &loop_handles);
    });
    match started {
        Ok(_) => Ok(()),
        Err(_) => Err(ServeFault::NoThread),
    }
}
