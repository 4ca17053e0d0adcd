//! Waits for a peer's end, and does in time what it does by itself.

ghost use Rattle.std.specs.Prelude.{◌≡◌, ◌++◌, Bool, IfOk, OnErr};
ghost use Rattle.client_peer.specs.Meeting.{Meets};
ghost use Rattle.client_peer.specs.declared.meeting.Meeting.TheVariants.{Older, Same};
ghost use Rattle.client_words.specs.Asking.{IsAsked};
ghost use Rattle.client_words.specs.declared.fault.PeerFault.TheVariants.{NoMemory};
ghost use Rattle.server_client.specs.Asking.{LeadsAsAsked};
ghost use Rattle.server_client.specs.Comebacks.{HasPlace, IsSeen, Judges, LetsPass, OpensAgain, Returns, WaitsForMark};
ghost use Rattle.server_client.specs.Handing.{EndsFor};
ghost use Rattle.server_client.specs.Lines.{IsHidden, has_line};
ghost use Rattle.server_client.specs.Marks.{IsMarkOf};

use crate::attach::Sources;
use crate::beside::mark_of;
use crate::opening::{Door, another_door};
use crate::reading::serve;
use crate::shared::{PeerSeat, SharedPeer, start_thread};
use crate::writing::send;
use crate::{PeerHost, Source};
use client_peer::{Meeting, Peer, PeerTask, SessionMark};
use client_words::{Arguments, PeerFault};
use std::alloc::{AllocError, Global};
use std::sync::{Arc, Wait};
use std::thread::{self, Threads};
use std::time::{Duration, Instant};

// How long to wait before the next look at the time, and before the next try to connect, in milliseconds.
const SHORTLY: u64 = 10;

const PAUSE: u64 = 50;

// How often a window looks for the mark of its first server.
const LEARNING: u32 = 20;

// How many tries a peer lets pass before it comes back: some three seconds.
const MOST_TRIES: u32 = 60;

/// How many tries a peer that comes back has let pass.
#[derive(Clone, Copy)]
pub struct Comeback {
    // While windows come back.
    held: u32,
    // While the mark beside the socket may be that of an earlier server.
    older: u32,
}

impl Comeback {
    pub fn new() -> Comeback
        ensures { (result.held ≡ 0) × (result.older ≡ 0) }
    {
        Comeback { held: 0, older: 0 }
    }

    /// Whether a client lets windows go first, which are pending: one that comes before them shows none.
    pub fn lets_pass(&mut self, is_pending: bool) -> bool
        ensures { LetsPass self.old is_pending result self.new }
    {
        let passes = is_pending && self.held < MOST_TRIES;
        self.held = if passes { self.held + 1 } else { 0 };
        passes
    }

    /// Whether the peer waits for a mark of the server that made the socket, after what it met. `is_here`: the socket
    /// is there.
    pub fn waits(&mut self, met: Meeting, is_here: bool) -> bool
        ensures { WaitsForMark self.old met is_here result self.new }
    {
        let waits = met == Meeting::Older && self.older < MOST_TRIES;
        self.older = if waits && is_here { self.older + 1 } else { 0 };
        waits
    }

    // What comes of what the peer met (`met.0`), if the socket is there or isn't (`met.1`, which counts for an older
    // mark alone). A window waits for a mark of the server that made the socket, but not for long.
    fn judge<R: PeerHost>(&mut self, _rt: &R, socket: &str, peer: &mut Peer, met: (Meeting, bool))
        requires { met.0 ≡ Older → (R.disk _rt.now).stands socket.now met.1 }
        ensures counts { (waits : Bool) × WaitsForMark self.old met.0 met.1 waits self.new
            × Judges met.0 waits peer.old peer.new }
    {
        let (met, is_here) = met;
        if !self.waits(met, is_here) && met != Meeting::Same {
            peer.stay_away(met);
        }
    }

    // Judges what the peer met at a socket. No lock is held while the disk is asked, which may take long.
    fn weigh<R: PeerHost + Wait>(&mut self, rt: &R, shared: &SharedPeer, path: &str, met: Meeting) {
        let is_here = met == Meeting::Older && rt.is_there(path);
        self.judge(rt, path, &mut shared.seat.lock(rt).peer, (met, is_here));
    }

    // Tries to open the window again by the mark as it is now. While it may be an earlier server's, it rests a moment.
    fn open<R: PeerHost + Wait>(&mut self, rt: &R, shared: &SharedPeer, arguments: &Arguments<'_>)
        requires { IsAsked (R.means rt.now) arguments.now }
    {
        let Ok(mark) = mark_of(rt, arguments.socket) else {
            return thread::sleep(rt, Duration::from_millis(PAUSE));
        };
        let number = shared.seat.lock(rt).peer.page_number;
        let Ok(is_hidden) = is_hidden(rt, arguments, number) else {
            return thread::sleep(rt, Duration::from_millis(PAUSE));
        };
        let page = (number, is_hidden);
        let opened = open_again(rt, &mut shared.seat.lock(rt), arguments, &mark, page);
        if let Ok(met) = opened {
            self.weigh(rt, shared, arguments.socket, met);
        }
        shared.work.notify_all();
        if matches!(opened, Ok(Meeting::Older)) {
            thread::sleep(rt, Duration::from_millis(PAUSE));
        }
    }
}

// Milliseconds since the peer began. A clock that can't be read stands still.
fn now<R: PeerHost>(rt: &R, began: Option<Instant>) -> u64 {
    match began.map(|began| began.elapsed(rt)) {
        Some(Ok(time)) => u64::try_from(time.as_millis()).unwrap_or(u64::MAX),
        _ => 0,
    }
}

// Looks at the time. Waits if there is nothing to do.
fn look<R: PeerHost + Wait>(rt: &R, shared: &SharedPeer, began: Option<Instant>) -> PeerTask {
    let shortly = Duration::from_millis(SHORTLY);
    let mut seat = shared.seat.lock(rt);
    // Without memory it looks again.
    let task = seat
        .peer
        .look(now(rt, began))
        .unwrap_or(PeerTask::WaitShortly);
    if seat.peer.has_output() {
        shared.work.notify_all();
    }
    match task {
        PeerTask::Wait => drop(shared.news.wait(rt, seat)),
        PeerTask::WaitShortly => drop(shared.news.wait_timeout(rt, seat, shortly)),
        _ => drop(seat),
    }
    task
}

// Whether there is a file beside the socket: .again after a planned end of a server that starts again,
// .pending while windows of the session before come back.
fn is_beside<R: PeerHost>(rt: &R, socket: &str, name: &str) -> Result<bool, AllocError>
    ensures { IfOk result ((R.disk rt.now).stands (socket.now ++ name.now)) }
{
    let path = format!(in rt.alloc(); "{socket}{name}")?;
    Ok(rt.is_there(path.as_str()))
}

// Whether the socket's folder is there. Without it no server comes back.
fn has_place<R: PeerHost>(rt: &R, arguments: &Arguments<'_>) -> bool
    ensures { HasPlace (R.disk rt.now) arguments.now.socket.now result }
{
    match arguments.socket.rsplit_once('/') {
        Some((folder, _)) if !folder.is_empty() => rt.is_there(folder),
        _ => true,
    }
}

/// Connects in a thread of its own, since that may take long.
pub fn start<R: PeerHost + Threads + Wait>(
    rt: &R,
    shared: &Arc<SharedPeer, Global>,
    door: Door,
) -> Result<(), PeerFault>
    requires { LeadsAsAsked (R.means rt.now) (R.disk rt.now) door }
{
    start_thread(rt, shared, move |rt, shared| serve(rt, shared, &door))?;
    Ok(())
}

// Whether the next server must not be told a window's page, since a command has cleared it, or this isn't known.
// SOCKET.restoring has a line for each such window, with its user and the number that it had.
fn is_hidden<R: PeerHost>(rt: &R, arguments: &Arguments<'_>, number: u8) -> Result<bool, AllocError>
    ensures { IfOk result (IsHidden (R.disk rt.now) arguments.now number) }
{
    let (socket, user) = (arguments.socket, arguments.user);
    let path = format!(in rt.alloc(); "{socket}.restoring")?;
    let line = format!(in rt.alloc(); "{user} {number}")?;
    Ok(match rt.read_beside(path.as_str()) {
        Some(lines) => has_line(&lines, line.as_bytes()),
        None => true,
    })
}

fn has_line(lines: &[u8], wanted: &[u8]) -> bool
    ensures { result ≡ has_line lines.now wanted.now }
{
    lines
        .split(|byte| *byte == b'\n')
        .any(|line| line == wanted)
}

// Opens a window again in a server that has let it in, if the mark is that server's. `page` is the number that the
// window had when its page was looked for, and whether the page is hidden. Without memory the peer ends.
fn open_again<R: PeerHost>(
    rt: &R,
    seat: &mut PeerSeat,
    arguments: &Arguments<'_>,
    mark: &SessionMark,
    page: (u8, bool),
) -> Result<Meeting, AllocError>
    requires mark { IsMarkOf (R.disk rt.now) arguments.now.socket.now mark.now }
    requires page { IsHidden (R.disk rt.now) arguments.now page.0 page.1 }
    ensures opens { IfOk result (λ met.
        OpensAgain (R.disk rt.now) arguments.now mark.now page.0 seat.old met seat.new) }
    ensures fault { OnErr result (Meets seat.old.peer mark.now Same × EndsFor NoMemory seat.new.peer) }
{
    let is_here = seat.is_here(rt) && seat.peer.page_number == page.0;
    let met = seat.peer.reopen(mark, is_here, page.1);
    if met.is_err() {
        seat.peer.end_by(Err(PeerFault::NoMemory));
    }
    met
}

// Takes the session's name for the peer. The server's mark may come a moment after its socket. Returns whether no more
// tries are needed.
fn learn<R: PeerHost + Wait>(
    rt: &R,
    shared: &SharedPeer,
    arguments: &Arguments<'_>,
    tries: u32,
) -> bool
    requires { IsAsked (R.means rt.now) arguments.now }
{
    for _ in 0..tries {
        if let Ok(mark) = mark_of(rt, arguments.socket)
            && (arguments.subcommand.is_attach() || mark.is_current || mark.name.is_empty())
        {
            shared.seat.lock(rt).learn(rt, arguments, mark);
            return true;
        }
        thread::sleep(rt, Duration::from_millis(PAUSE));
    }
    false
}

// Comes back to a server of the same session.
fn come_back<R: PeerHost + Threads + Wait>(
    rt: &R,
    shared: &Arc<SharedPeer, Global>,
    arguments: &Arguments<'_>,
    comeback: &mut Comeback,
) -> Result<(), PeerFault>
    requires { IsAsked (R.means rt.now) arguments.now }
{
    thread::sleep(rt, Duration::from_millis(PAUSE));
    let is_pending = arguments.subcommand.is_attach()
        && is_beside(rt, arguments.socket, ".pending")?;
    if comeback.lets_pass(is_pending) {
        return Ok(());
    }
    let mark = mark_of(rt, arguments.socket)?;
    let mut seat = shared.seat.lock(rt);
    let met = seat.begin(rt, arguments, &mark);
    let size = (seat.peer.rows, seat.peer.columns);
    drop(seat);
    comeback.weigh(rt, shared, arguments.socket, met);
    if met != Meeting::Same {
        return Ok(());
    }
    start(rt, shared, another_door(rt, arguments, size, mark.name)?)
}

// Whether the server ended as planned, to start again, and whether the socket's folder is there.
fn look_around<R: PeerHost>(rt: &R, arguments: &Arguments<'_>) -> Result<(bool, bool), AllocError>
    ensures { IfOk result (λ seen. IsSeen (R.disk rt.now) arguments.now seen.0 seen.1) }
{
    let is_planned = is_beside(rt, arguments.socket, ".again")?;
    Ok((is_planned, has_place(rt, arguments)))
}

// Decides whether the peer comes back after its connection has ended, by what was seen beside the socket.
fn returns<R: PeerHost>(
    _rt: &R,
    peer: &mut Peer,
    arguments: &Arguments<'_>,
    time: u64,
    seen: (bool, bool),
) -> Result<bool, AllocError>
    requires { IsSeen (R.disk _rt.now) arguments.now seen.0 seen.1 }
    ensures { IfOk result (λ comes. Returns (R.disk _rt.now) arguments.now time comes peer.old peer.new) }
{
    peer.comes_back(time, seen.0, seen.1)
}

// Asks whether the peer comes back after its connection has ended, and lets it.
fn ask<R: PeerHost + Threads + Wait>(
    rt: &R,
    shared: &Arc<SharedPeer, Global>,
    arguments: &Arguments<'_>,
    time: u64,
    comeback: &mut Comeback,
)
    requires { IsAsked (R.means rt.now) arguments.now }
{
    let Ok(seen) = look_around(rt, arguments) else {
        return thread::sleep(rt, Duration::from_millis(PAUSE));
    };
    let comes_back = returns(rt, &mut shared.seat.lock(rt).peer, arguments, time, seen);
    let Ok(comes_back) = comes_back else {
        return thread::sleep(rt, Duration::from_millis(PAUSE));
    };
    if !comes_back {
        return;
    }
    shared.work.notify_all();
    if let Err(fault) = come_back(rt, shared, arguments, comeback) {
        shared.seat.lock(rt).peer.end_by(Err(fault));
    }
}

/// Waits for the peer's end.
pub fn wait<R: PeerHost + Threads + Wait, I: Source>(
    rt: &R,
    shared: &Arc<SharedPeer, Global>,
    arguments: &Arguments<'_>,
    sources: Sources<I>,
)
    requires { IsAsked (R.means rt.now) arguments.now }
{
    let began = Instant::now(rt).ok();
    let mut sources = sources;
    let mut comeback = Comeback::new();
    for _ in rt.forever() {
        match look(rt, shared, began) {
            PeerTask::Wait | PeerTask::WaitShortly => {}
            PeerTask::Send => send(rt, shared),
            PeerTask::Reopen => comeback.open(rt, shared, arguments),
            PeerTask::Begin => {
                // Input that is sent may end the server, so the first try comes before it.
                let is_known = arguments.again == 0 || learn(rt, shared, arguments, 1);
                if sources.start(rt, shared).is_err() {
                    shared.seat.lock(rt).peer.end_by(Err(PeerFault::NoMemory));
                }
                if !is_known {
                    learn(rt, shared, arguments, LEARNING);
                }
            }
            PeerTask::Ask => ask(rt, shared, arguments, now(rt, began), &mut comeback),
            PeerTask::End => break,
        }
    }
}
