//! The loops that share a session, each in a thread of its own.

ghost use Rattle.std.specs.Prelude.{◌≡◌, ◌<◌, ◌≤◌, IfErr, IfOk, length};
ghost use Rattle.acl.specs.declared.leaders.Edition.TheVariants.{Second};
ghost use Rattle.session.specs.Trace.{begun as run_begun};
ghost use Rattle.hub.specs.Seats.{StandsFor};
ghost use Rattle.server_session.specs.SettingUp.{HasBegun, IsOwnerOf, IsUnbegun, IsUnkept, setup_of, users_of};

use crate::setting_up::{Agreement, Giver, SetUp, close, set_up};
use crate::shared_session::{LoopSession, SharedSession};
use acl::UserId;
use hub::{Begun, Hub, Seat, Session, Trail};
use program_words::SetupFault;
use server_trail::Recorder;
use server_users::Users;
use session::Refusal;
use std::alloc::Global;
use std::marker::Brand;
use std::sync::ledger::Blank;
use std::sync::{Mutex, Wait};
use std::thread::{self, Threads};
use std::time::Clock;

/// The most loops that share a session.
const MOST: usize = 8;

/// Why no loops were run.
#[derive(Debug, Drop)]
pub enum LoopsFault {
    NoMemory,
    /// A line of the setup can be no command.
    Setup(SetupFault),
    /// The setup's line of this number was refused with this text.
    Refused {
        number: usize,
        line: Vec<u8>,
        said: Vec<u8>,
    },
}

/// Shows that a loop is gone: it has ended, or the system refused its thread. It is made once for each loop.
#[derive(Drop)]
pub struct LoopGone(());

/// Runs the loops. Each is given a place of type `P` to begin with.
pub trait LoopBody<P: Drop, R> {
    ghost use Rattle.std.specs.Prelude.{Option};
    ghost use Rattle.server_trail.specs.declared.recorder.Recorder.{Recorder as Lines};

    // Only a call of `recorder` shows what it answered.
    ghost records: { Self → Option Lines → Type 0 } = { λ _ _. Unit {0} };

    // Only a call of `fail` shows it.
    ghost fails: { Self → Type 0 } = { λ _. Unit {0} };

    /// Runs one loop to its end, and gives its seat back if it ended well.
    fn run<L: Begun>(
        &self,
        rt: &R,
        shared: &SharedSession<L, Recorder>,
        seat: Seat<L>,
        place: P,
    ) -> Option<Seat<L>>;

    /// The system refused a thread: that of a loop, or that in which the trail is written.
    fn fail(&self, rt: &R, is_loop: bool)
        ensures { fails self.now };

    /// A loop is gone.
    fn leave(&self, _rt: &R, _gone: LoopGone) {}

    /// Runs in the thread that began the loops, until they have ended.
    fn stand_by(&self, _rt: &R) {}

    /// What takes the trail's lines from this number of loops; None if no file is written.
    fn recorder(&self, alloc: Global, loops: usize) -> Option<Recorder>
        ensures { records self.now result };

    /// Writes the trail's lines, in a thread of its own, until the loops have ended.
    fn write_trail(&self, _rt: &R, _recorder: &Recorder) {}

    /// Takes the trail of the session, which is over.
    fn compare(&self, _rt: &R, _trail: &Trail) {}
}

/// What a session begins with: who may connect, the file with the commands that are given before anybody
/// does, and a place for each loop.
#[derive(Drop)]
pub struct Start<P: Drop> {
    pub alloc: Global,
    pub users: Users,
    pub setup: Vec<u8>,
    pub places: Vec<P>,
}

// A session while its loops run, and the seats of the loops that ended well.
#[derive(Drop)]
struct RunningSession<L: Begun> {
    shared: SharedSession<L, Recorder>,
    left: Mutex<Vec<Seat<L>>>,
}

impl<L: Begun> RunningSession<L> {
    // Takes note that a loop is gone. One that ended well gives its seat back.
    fn leave<P: Drop, R: Wait>(&self, rt: &R, to: &impl LoopBody<P, R>, seat: Option<Seat<L>>) {
        to.leave(rt, LoopGone(()));
        if let Some(seat) = seat {
            let _ = self.left.lock(rt).push(seat);
        }
        if let Some(recorder) = &self.shared.recorder {
            recorder.leave(rt);
        }
    }
}

// Runs every loop to its end, each in a thread of its own, with one of these seats and places.
fn run_all<L, P, K, R>(
    rt: &R,
    running: &RunningSession<L>,
    mut seats: Vec<Seat<L>>,
    places: Vec<P>,
    loop_body: &K,
)
where
    L: Begun + Send + Sync,
    P: Send + Drop,
    K: LoopBody<P, R> + Sync,
    R: Clock + Threads + Wait + Sync,
{
    thread::scope(thread::scope_env(), rt, |scope| {
        for place in places {
            let Some(seat) = seats.pop() else {
                return;
            };
            let started = scope.spawn(move || {
                let left = loop_body.run(rt, &running.shared, seat, place);
                running.leave(rt, loop_body, left);
            });
            if started.is_err() {
                loop_body.fail(rt, true);
                running.leave(rt, loop_body, None);
            }
        }
        if let Some(recorder) = &running.shared.recorder {
            let writing = scope.spawn(move || loop_body.write_trail(rt, recorder));
            if writing.is_err() {
                loop_body.fail(rt, false);
            }
        }
        loop_body.stand_by(rt);
    });
}

// A new session of this owner.
fn new_session<L: Begun>(alloc: Global, owner: UserId) -> Result<Session, Refusal>
    requires { (L.edition ≡ Second) × (L.owner ≡ owner) }
    ensures { IfOk result (StandsFor (run_begun L.edition L.owner)) }
{
    Session::new(alloc, owner)
}

// The owner and the number of loops of a new session, and a blank of as many parts.
#[derive(Drop)]
struct Parts {
    alloc: Global,
    blank: Blank,
    owner: UserId,
    loops: usize,
}

// A new session with these users, after the commands of the setup, and a seat for each loop.
fn begin<L, P, K, R>(
    rt: &R,
    parts: Parts,
    users: Users,
    setup: Vec<u8>,
    loop_body: &K,
) -> Result<(RunningSession<L>, Vec<Seat<L>>, SetUp), LoopsFault>
where
    L: Begun,
    P: Drop,
    K: LoopBody<P, R>,
    R: Clock + Wait,
    requires blank { (parts.blank.name ≡ L.name) × (parts.blank.parts ≡ L.parts)
        × (parts.loops ≡ L.parts) × (0 < parts.loops) × (parts.loops ≤ 8) }
    requires session { (L.edition ≡ Second) × (L.owner ≡ parts.owner) × IsOwnerOf users parts.owner }
    ensures seats { IfOk result (λ made. length made.1.items ≡ L.parts) }
    ensures users { IfOk result (λ made. made.0.shared.users ≡ users) }
    ensures recorder { IfOk result (λ made. K.records loop_body.now made.0.shared.recorder) }
    ensures setup { IfOk result (λ made. made.2.file ≡ setup) }
    ensures set_up { IfOk result (λ made. HasBegun parts.owner setup.items made.1.items) }
    ensures fault { IfErr result (IsUnbegun parts.owner setup.items) }
{
    let Parts {
        alloc,
        blank,
        owner,
        loops,
    } = parts;
    let Ok(left) = Vec::with_capacity(alloc, loops) else {
        return Err(LoopsFault::NoMemory);
    };
    let left = Mutex::new(left);
    // A new session and a new hub are refused only if there is no memory.
    let Ok(session) = new_session::<L>(alloc, owner) else {
        return Err(LoopsFault::NoMemory);
    };
    let Ok((hub, mut seats)) = Hub::<L>::new(alloc, blank, session, loops) else {
        return Err(LoopsFault::NoMemory);
    };
    let shared = SharedSession {
        hub,
        users,
        recorder: loop_body.recorder(alloc, loops),
    };
    shared.set_time(rt);
    let first = &mut seats[0];
    first.ask_for_entries();
    let set_up = set_up(rt, Giver { alloc, owner }, &shared, first, setup)?;
    Ok((RunningSession { shared, left }, seats, set_up))
}

fn keep_as<L, P, K, R>(
    rt: &R,
    parts: Parts,
    start: Start<P>,
    loop_body: &K,
) -> Result<Agreement, LoopsFault>
where
    L: Begun + Send + Sync,
    P: Send + Drop,
    K: LoopBody<P, R> + Sync,
    R: Clock + Threads + Wait + Sync,
    requires blank { (parts.blank.name ≡ L.name) × (parts.blank.parts ≡ L.parts)
        × (parts.loops ≡ L.parts) × (0 < parts.loops) × (parts.loops ≤ 8) }
    requires session { (L.edition ≡ Second) × (L.owner ≡ parts.owner) × IsOwnerOf start.users parts.owner }
    ensures setup { IfOk result (λ agreement. setup_of agreement ≡ start.setup.items) }
    ensures users { IfOk result (λ agreement. users_of agreement ≡ start.users) }
    ensures fault { IfErr result (IsUnbegun parts.owner start.setup.items) }
{
    let Start {
        users,
        setup,
        places,
        ..
    } = start;
    let (running, seats, set_up) = begin::<L, P, K, R>(rt, parts, users, setup, loop_body)?;
    run_all(rt, &running, seats, places, loop_body);
    let RunningSession { shared, left } = running;
    let (trail, agreement) = close(shared, set_up, left.into_inner());
    loop_body.compare(rt, &trail);
    Ok(agreement)
}

/// Keeps a new session: runs a loop for each of 1 to 8 places, each in a thread of its own, until all
/// have ended. The answer is whether every answer that a loop was given stands in the session's trail.
pub fn keep<P, K, R>(rt: &R, start: Start<P>, loop_body: &K) -> Result<Agreement, LoopsFault>
where
    P: Send + Drop,
    K: LoopBody<P, R> + Sync,
    R: Clock + Threads + Wait + Sync,
    ensures setup { IfOk result (λ agreement. setup_of agreement ≡ start.setup.items) }
    ensures users { IfOk result (λ agreement. users_of agreement ≡ start.users) }
    ensures fault { IfErr result (IsUnkept start.users start.setup.items) }
{
    let loops = start.places.len().clamp(1, MOST);
    let parts = Parts {
        alloc: start.alloc,
        blank: Blank::new(loops as u64),
        owner: start.users.owner(),
        loops,
    };
    keep_as::<Brand, P, K, R>(rt, parts, start, loop_body)
}
