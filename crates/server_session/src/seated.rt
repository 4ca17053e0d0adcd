//! A loop's seat in the session that it shares.

ghost use Rattle.std.specs.Prelude.{◌≡◌, ◌||◌, IfSome, Option, is_some, nat_lt, true, ℕ};
ghost use Rattle.session.specs.Trace.{happening};
ghost use Rattle.hub.specs.Seats.{Ruled};
ghost use Rattle.server_session.specs.Loading.{closed_by, opened_by, size_of};
ghost use Rattle.server_session.specs.Counting.{limits_of, millis_of, once_more};
ghost use Rattle.server_session.specs.Gauging.{IsGauged};
ghost use Rattle.server_session.specs.Outcomes.{outcome_of};
ghost use Rattle.server_trail.specs.declared.waiting.Stopped.{Stopped as Stop};
ghost use Rattle.server_session.specs.Seating.{AreClosed, IsClosed, IsCounted, Steps};
ghost use Rattle.server_session.specs.Seating.{after_closings, calls_to_count, fault_of, if_called};

use crate::books::{Books, Calls, Counting, Limits};
use crate::shared_session::LoopSession;
use crate::trail_size::{SharedSum, TrailSize};
use acl::UserId;
use hub::{Answer, Begun, HubFault, Seat};
use server_seat::{GuestKind, SeatAnswer, SeatFault, ServerEnd, SessionSeat};
use server_users::{Outcome, Users};
use session::{Effect, Event, Peer, Refusal, Reply};
use std::sync::atomic::AtomicU64;
use std::sync::{Mutex, Wait};
use std::time::{Clock, Duration};

// What came of a step, from its reply, from whether all its checks passed, and whether one was for a command.
fn outcome_of(reply: &Reply, checks: Option<bool>, execute: bool) -> Outcome
    ensures { result ≡ outcome_of reply.now checks execute }
{
    match (reply, checks) {
        (Err(Refusal::NoMemory), _) => Outcome::Untaken,
        (Err(_), _) | (Ok(_), Some(false)) => Outcome::Denied,
        (Ok(_), None) => Outcome::Unchecked,
        (Ok(_), Some(true)) if execute => Outcome::Granted,
        (Ok(_), Some(true)) => Outcome::Typed,
    }
}

// Why an event has no answer, from why the session made no step.
fn fault_of(fault: HubFault) -> SeatFault
    ensures { result ≡ fault_of fault }
{
    match fault {
        HubFault::NoMemory => SeatFault::NoMemory,
        HubFault::TrailFull(_) => SeatFault::Over(ServerEnd::TrailFull),
        HubFault::Strange(_) => SeatFault::Over(ServerEnd::Fault),
    }
}

// The most bytes that an event's step types.
fn size_of(event: Event) -> usize
    ensures { result ≡ size_of (happening event.entry) }
{
    match event {
        Event::Keys { bytes, .. } => bytes.len(),
        Event::Command { line, .. } => line.len(),
        _ => 0,
    }
}

// The window that an event opened.
fn opened_by(event: Event, reply: &Reply) -> Option<u32>
    ensures { result ≡ opened_by (happening event.entry) reply.now }
{
    match (event, reply) {
        (Event::Open { .. }, Ok(done)) => Some(done.made),
        _ => None,
    }
}

// The window that is gone by an effect.
fn closed_by(effect: &Effect) -> Option<u32>
    ensures { result ≡ closed_by effect.now }
{
    match effect {
        Effect::Gone(Peer::Window(window), _) => Some(*window),
        _ => None,
    }
}

// The time in whole milliseconds.
fn millis(now: Duration) -> u64
    ensures { result ≡ millis_of now }
{
    u64::try_from(now.as_millis()).unwrap_or(u64::MAX)
}

/// What the loops count of users and windows, under a lock, by which limits, and how large the trail is. What
/// lies under a lock before and after a call isn't known to its caller, but that the call counts it, once.
#[derive(Drop)]
pub struct Accounts<B, T = AtomicU64> {
    limits: Limits,
    books: Mutex<B>,
    trail: TrailSize<T>,
}

impl Accounts<Books> {
    /// What is counted so by now, by the limits of these books, and a trail that takes nothing.
    pub fn new(books: Books) -> Accounts<Books>
        ensures { limits_of result ≡ books.limits }
    {
        Accounts {
            limits: books.limits,
            books: Mutex::new(books),
            trail: TrailSize::new(),
        }
    }
}

/// A seat in a session, with the session and its users' accounts, and the calls by which it counted.
#[derive(Drop)]
pub struct Seated<'a, L: Begun, S, B, T = AtomicU64> {
    shared: &'a S,
    accounts: &'a Accounts<B, T>,
    seat: Seat<L>,
    calls: Calls,
}

impl<'a, L: Begun, S, B, T> Seated<'a, L, S, B, T> {
    /// A seat in this session, which asks for entries: an entry tells what came of a step.
    pub fn new(
        shared: &'a S,
        accounts: &'a Accounts<B, T>,
        mut seat: Seat<L>,
    ) -> Seated<'a, L, S, B, T>
        ensures seat { result.seat ≡ record seat { asks = true } }
        ensures shared { (result.shared ≡ shared.entry) × (result.accounts ≡ accounts.entry) }
    {
        seat.ask_for_entries();
        let (seat, calls) = Calls::of(seat);
        Seated {
            shared,
            accounts,
            seat,
            calls,
        }
    }

    /// The seat, once its loop is over.
    pub fn into_inner(self) -> Seat<L>
        ensures { result ≡ self.entry.seat }
    {
        self.seat
    }
}

impl<L: Begun, S, B: Counting, T: SharedSum> Seated<'_, L, S, B, T> {
    // Counts the entry of an answer. Returns how full the trail is by it, if that is news.
    fn gauge(&mut self, answer: &Answer) -> Option<u8>
        ensures gauged { IsGauged (T.adds self.old.accounts.now.trail.bytes) answer.now result }
        ensures once { self.new ≡ record self.old { calls = if_called answer.now.place self.old.calls } }
    {
        let place = answer.place()?;
        let trail = &self.accounts.trail;
        trail.add(&mut self.calls, place, answer.entry())
    }

    // A window that is gone by an effect isn't counted any more.
    fn close_by(&mut self, rt: &impl Wait, effect: &Effect)
        ensures closed { IsClosed B.closes effect.now }
        ensures once { self.new ≡ record self.old { calls = if_called (closed_by effect.now) self.old.calls } }
    {
        if let Some(window) = closed_by(effect) {
            self.accounts.books.lock(rt).close(&mut self.calls, window);
        }
    }

    // Nor are the windows that are gone by these effects.
    fn close_all(&mut self, rt: &impl Wait, effects: &[(Effect, Option<UserId>)])
        ensures closed { AreClosed B.closes effects.now }
        ensures once { self.new ≡ record self.old { calls = after_closings effects.now self.old.calls } }
    {
        'effects: for sent in effects {
            self.close_by(rt, &sent.0);
        }
    }

    fn count_typed(&mut self, rt: &impl Wait, answer: &Answer)
        ensures counted { IfSome answer.now.typed
            (λ window. (was : B) × (then : B) × B.types_in was window (size_of answer.now.event) then) }
        ensures once { self.new ≡ record self.old { calls = if_called answer.now.typed self.old.calls } }
    {
        if let Some(window) = answer.typed() {
            let mut books = self.accounts.books.lock(rt);
            books.type_in(&mut self.calls, window, size_of(answer.event()));
        }
    }

    // Counts what an answered event typed. A window that it opened is counted from now on.
    fn count(&mut self, rt: &impl Wait, answer: &Answer)
        ensures counted { IsCounted B.types_in B.opens answer.now }
        ensures once { self.new ≡ record self.old { calls = calls_to_count answer.now self.old.calls } }
    {
        self.count_typed(rt, answer);
        if let Some(window) = opened_by(answer.event(), answer.reply()) {
            let _ = self.accounts.books.lock(rt).open(&mut self.calls, window);
        }
    }
}

impl<L: Begun, S: LoopSession<L>, B: Counting, T: SharedSum> SessionSeat
    for Seated<'_, L, S, B, T> {
    ghost known = { λ s. S.known s.shared.now };

    // The session answered by one step for this seat, or refused. What the answer says is counted once.
    ghost submits = { λ s event result left.
        Steps B.types_in B.opens (T.adds s.accounts.now.trail.bytes) (S.answers s.shared.now)
        (S.refuses s.shared.now) s.seat s.calls event result left.seat left.calls
        × (left ≡ record s { seat = left.seat; calls = left.calls }) };

    // The session handed these effects to this seat. Windows that are gone by them aren't counted any more.
    ghost takes = { λ s effects told left. S.hands s.shared.now s.seat effects told left.seat
        × AreClosed B.closes effects
        × (left ≡ record s { seat = left.seat; calls = after_closings effects s.calls }) };

    // The session ruled so.
    ghost lets_type = { λ s user window may.
        (ruled : Ruled) × S.rules s.shared.now user window ruled × (may ≡ ruled.may_type) };

    ghost finds_full = { λ s window is_full. (books : B) × B.finds_full books window is_full };

    // The trail's file has stopped, or the trail takes as much memory as it may.
    ghost stops = { λ s has_stopped. (stop : Option Stop) × S.stops s.shared.now stop
        × (bytes : ℕ) × T.sums s.accounts.now.trail.bytes bytes
        × (has_stopped ≡ (is_some stop || nat_lt 2147483648 bytes)) };

    // Each of these is one call of what is counted.
    ghost pays = { λ s user now cost is_paid left. (left ≡ record s { calls = once_more s.calls })
        × (was : B) × (then : B) × B.pays was user (millis_of now) cost is_paid then };

    ghost settles = { λ s user cost outcome left. (left ≡ record s { calls = once_more s.calls })
        × (was : B) × (then : B) × B.settles was user cost outcome then };

    ghost counts = { λ s user kind most left. (left ≡ record s { calls = once_more s.calls })
        × (was : B) × (then : B) × B.adds was user kind s.accounts.now.limits most then };

    ghost uncounts = { λ s user kind left. (left ≡ record s { calls = once_more s.calls })
        × (was : B) × (then : B) × B.removes was user kind then };

    ghost sets_full = { λ s window is_full left. (left ≡ record s { calls = once_more s.calls })
        × (was : B) × (then : B) × B.sets_full was window is_full then };

    ghost sets_time = { λ s left. (left ≡ s) × S.times s.shared.now };

    fn users(&self) -> &Users {
        self.shared.users()
    }

    fn submit<R: Wait>(&mut self, rt: &R, event: Event<'_>) -> Result<SeatAnswer, SeatFault> {
        match self.shared.submit(rt, &mut self.seat, event) {
            Ok(answer) => {
                let filled = self.gauge(&answer);
                let (checks, execute) = (answer.checks(), answer.checks_execute());
                let outcome = outcome_of(answer.reply(), checks, execute);
                let typed = answer.typed();
                self.count(rt, &answer);
                Ok(SeatAnswer {
                    reply: answer.into_reply(),
                    filled,
                    outcome,
                    typed,
                })
            }
            Err(fault) => Err(fault_of(fault)),
        }
    }

    fn pay<R: Wait>(&mut self, rt: &R, user: UserId, now: Duration, cost: u32) -> bool {
        let mut books = self.accounts.books.lock(rt);
        books.pay(&mut self.calls, user, millis(now), cost)
    }

    fn settle<R: Wait>(&mut self, rt: &R, user: UserId, cost: u32, outcome: Outcome) {
        let mut books = self.accounts.books.lock(rt);
        books.settle(&mut self.calls, user, cost, outcome);
    }

    fn add<R: Wait>(&mut self, rt: &R, user: UserId, kind: GuestKind) -> Option<u8> {
        let mut books = self.accounts.books.lock(rt);
        books.add(&mut self.calls, user, kind, self.accounts.limits)
    }

    fn remove<R: Wait>(&mut self, rt: &R, user: UserId, kind: GuestKind) {
        let mut books = self.accounts.books.lock(rt);
        books.remove(&mut self.calls, user, kind);
    }

    fn set_time<R: Clock>(&mut self, rt: &R) {
        self.shared.set_time(rt);
    }

    fn has_stopped(&self) -> bool {
        let stopped = self.shared.stopped();
        let is_full = self.accounts.trail.is_full();
        stopped.is_some() || is_full
    }

    fn take<R: Wait>(&mut self, rt: &R) -> (Vec<(Effect, Option<UserId>)>, bool) {
        let (handed, is_told) = self.shared.take(rt, &mut self.seat);
        self.close_all(rt, handed.as_slice());
        (handed.into_items(), is_told)
    }

    fn may_type<R: Wait>(&self, rt: &R, user: UserId, window: u32) -> bool {
        self.shared.may_type(rt, user, window).may_type()
    }

    fn set_full<R: Wait>(&mut self, rt: &R, window: u32, is_full: bool) {
        let mut books = self.accounts.books.lock(rt);
        books.set_full(&mut self.calls, window, is_full);
    }

    fn is_full<R: Wait>(&self, rt: &R, window: u32) -> bool {
        self.accounts.books.lock(rt).is_full(window)
    }
}
