//! Loops over a new session, on which acts are played.

use crate::Stop;
use crate::acts::{LoopState, Note, Seen, StageAct};
use crate::frames::USERS;
use crate::latch::{Calls, LatchGate};
use crate::outside::Outside;
use crate::streams::{Habit, Near};
use hub::{Kept, TrailEntry};
use server_loop::{Gate, Loop, SessionSeat};
use server_session::{
    Accounts, Begun, Books, Limits, LoopBody, LoopsFault, Recorder, Seat, Seated, SharedSession,
    Start, Trail, keep,
};
use server_users::{Users, UsersFault};
use std::alloc::Global;
use std::sync::{Mutex, Wait};
use std::thread::Threads;
use std::time::{Clock, Duration};

// The users own and bob.
fn users(alloc: Global) -> Result<Users, Stop> {
    match Users::read(alloc, USERS) {
        Ok(users) => Ok(users),
        Err(UsersFault::NoMemory) => Err(Stop::Memory),
        Err(_) => Err(Stop::Other("the users' file")),
    }
}

// At most this many turns.
#[derive(Clone, Copy)]
struct Turns {
    most: usize,
    // Nothing comes, and the turns end when nothing is to be done.
    are_quiet: bool,
}

impl Turns {
    fn ready(most: usize) -> Turns {
        Turns {
            most,
            are_quiet: false,
        }
    }

    fn quiet(most: usize) -> Turns {
        Turns {
            most,
            are_quiet: true,
        }
    }
}

fn take<G: Gate + Drop, J: SessionSeat + Drop>(
    rt: &impl Wait,
    own: &mut Loop<Near, G, J>,
    tick: Duration,
    turns: Turns,
) {
    for _ in 0..turns.most {
        if turns.are_quiet && !own.is_due() {
            return;
        }
        let ready = if turns.are_quiet {
            0
        } else {
            own.connections.end()
        };
        for key in 0..ready {
            if let Some(peer) = own.connections.touch(key) {
                peer.mark_ready(true);
                peer.mark_room();
            }
        }
        own.now = own.now.saturating_add(tick);
        own.read_all(rt);
        own.end_turn(rt, false);
    }
}

fn standing<G: Gate + Drop, J: SessionSeat + Drop>(own: &Loop<Near, G, J>) -> LoopState {
    LoopState {
        len: own.connections.len(),
        is_due: own.is_due(),
        has_waiting: own.has_waiting(),
        end: own.end(),
    }
}

fn perform_one<G: Gate + Drop, J: SessionSeat + Drop>(
    rt: &impl Wait,
    own: &mut Loop<Near, G, J>,
    outside: &mut Outside,
    act: StageAct,
) -> Result<(), Stop> {
    match act {
        StageAct::Connect(habit, bytes) => {
            let near = outside.connect(habit, bytes)?;
            let _ = own.connections.admit(near, false);
        }
        StageAct::ConnectExtra(bytes) => {
            let near = outside.connect(Habit::Whole, bytes)?;
            let _ = own.connections.admit(near, true);
        }
        StageAct::Turns(most) => take(rt, own, outside.tick, Turns::ready(most)),
        StageAct::QuietTurns(most) => take(rt, own, outside.tick, Turns::quiet(most)),
        StageAct::SetTime(second, millis) => {
            outside.tick = Duration::from_millis(millis);
            own.now = Duration::from_secs(second);
            own.expire();
        }
        StageAct::LetOldestGo(most) => own.let_oldest_go(rt, most),
        StageAct::Finish(end) => own.finish(rt, end),
        StageAct::Note(first) => outside.note(standing(own), first)?,
        _ => outside.perform(act)?,
    }
    Ok(())
}

fn perform_all<G: Gate + Drop, J: SessionSeat + Drop>(
    rt: &impl Wait,
    own: &mut Loop<Near, G, J>,
    outside: &mut Outside,
    acts: &[StageAct],
) -> Result<(), Stop> {
    for act in acts {
        perform_one(rt, own, outside, *act)?;
    }
    Ok(())
}

fn letter(entry: &TrailEntry) -> u8 {
    match entry.event() {
        Kept::Attach { .. } => b'A',
        Kept::Detach { .. } => b'D',
        Kept::Keys { .. } => b'K',
        Kept::Command { .. } => b'C',
        Kept::Open { .. } => b'O',
        Kept::Closed { .. } => b'X',
    }
}

// What the loops left, and why one of them stopped short.
#[derive(Drop)]
struct LoopsLeft {
    seen: Seen,
    // How many loops came to their end.
    ended: usize,
    stop: Option<Stop>,
}

impl LoopsLeft {
    fn new(alloc: Global) -> LoopsLeft {
        let seen = Seen {
            notes: Vec::new(alloc),
            entries: Vec::new(alloc),
        };
        LoopsLeft {
            seen,
            ended: 0,
            stop: None,
        }
    }

    // A loop has ended.
    fn put(&mut self, notes: Vec<Note>, played: Result<(), Stop>) -> Result<(), Stop> {
        played?;
        for note in notes {
            self.seen.notes.push(note)?;
        }
        self.ended = self.ended.saturating_add(1);
        Ok(())
    }

    fn put_entries(&mut self, trail: &Trail) -> Result<(), Stop> {
        for place in 0..trail.len() {
            self.seen.entries.push(letter(trail.at(place)))?;
        }
        Ok(())
    }
}

// Each loop performs the acts.
#[derive(Drop)]
struct Playing<'a> {
    alloc: Global,
    acts: &'a [StageAct<'a>],
    loops: usize,
    calls: Calls,
    accounts: Accounts<Books>,
    left: Mutex<LoopsLeft>,
}

impl<R: Clock + Wait> LoopBody<usize, R> for Playing<'_> {
    fn run<L: Begun>(
        &self,
        rt: &R,
        shared: &SharedSession<L, Recorder>,
        seat: Seat<L>,
        place: usize,
    ) -> Option<Seat<L>> {
        let latch = self.calls.latch(rt, place == 0);
        let seated = Seated::new(shared, &self.accounts, seat);
        let mut own: Loop<Near, LatchGate<R>, Seated<L, SharedSession<L, Recorder>, Books>> =
            Loop::new(self.alloc, seated, latch, self.loops).ok()?;
        let mut outside = Outside::new(self.alloc);
        let played = perform_all(rt, &mut own, &mut outside, self.acts);
        let mut left = self.left.lock(rt);
        if let Err(stop) = left.put(outside.into_notes(), played) {
            left.stop = Some(stop);
        }
        drop(left);
        Some(own.into_seat().into_inner())
    }

    fn fail(&self, _rt: &R, _is_loop: bool) {}

    fn stand_by(&self, _rt: &R) {}

    fn recorder(&self, _alloc: Global, _loops: usize) -> Option<Recorder> {
        None
    }

    fn compare(&self, rt: &R, trail: &Trail) {
        let mut left = self.left.lock(rt);
        if let Err(stop) = left.put_entries(trail) {
            left.stop = Some(stop);
        }
    }
}

// What was seen of the loops. `agrees` says whether the trail has all their answers.
fn seen_of(playing: Playing, agrees: bool) -> Result<Seen, Stop> {
    let Playing {
        loops,
        calls,
        left,
        ..
    } = playing;
    let LoopsLeft { seen, ended, stop } = left.into_inner();
    if let Some(stop) = stop {
        return Err(stop);
    }
    // A loop takes memory before it begins.
    if ended != loops {
        return Err(Stop::Memory);
    }
    if calls.has_missed() {
        return Err(Stop::Other("a loop waited for the other"));
    }
    if !agrees {
        return Err(Stop::Other("an answer isn't in the trail"));
    }
    Ok(seen)
}

/// What a stage uses of the system.
pub trait System: AllocGlobal + Clock + Threads + Wait + Sync {}

impl<R: AllocGlobal + Clock + Threads + Wait + Sync> System for R {}

/// Performs the acts on a loop over a new session, or on each of two that run at once; then the call
/// that comes first is held until one of the other loop was answered. Returns what is seen of the
/// loop, or of both, one after the other.
pub fn perform(rt: &impl System, loops: usize, acts: &[StageAct]) -> Result<Seen, Stop> {
    let alloc = rt.alloc();
    let mut places = Vec::new(alloc);
    for place in 0..loops {
        places.push(place)?;
    }
    let users = users(alloc)?;
    let accounts = Accounts::new(Books::new(alloc, users.owner(), Limits::none()));
    let start = Start {
        alloc,
        users,
        setup: Vec::new(alloc),
        places,
    };
    let playing = Playing {
        alloc,
        acts,
        loops,
        calls: Calls::new(loops),
        accounts,
        left: Mutex::new(LoopsLeft::new(alloc)),
    };
    match keep(rt, start, &playing) {
        Ok(agreement) => seen_of(playing, agreement.holds()),
        Err(LoopsFault::NoMemory) => Err(Stop::Memory),
        Err(_) => Err(Stop::Other("begun")),
    }
}
