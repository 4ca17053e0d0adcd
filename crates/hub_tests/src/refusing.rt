//! Steps of a ledger whose memory is refused once. `tools/refusals` runs the test once for each of
//! its allocations, which is refused then: a refused step has changed nothing, a second try is done,
//! and the effects of both ledgers are the same.

ghost use Rattle.std.specs.Prelude.{◌≡◌};
ghost use Rattle.session.specs.Trace.{begun};
ghost use Rattle.hub.specs.Seats.{StandsFor};

use crate::compare::{are_same, parts_of};
use crate::turns::{STEPS, StepTurn, seat_of};
use acl::UserId;
use hub::{Begun, HubFault, Ledger, Seat, Sent, Session};
use session::Event;
use std::alloc::Global;
use std::marker::Brand;
use std::sync::ledger::Blank;

/// How often an event is submitted at most: once for each of its keys, and again after a refusal.
const TRIES: u32 = 40;

/// How many times effects are taken: of both seats after each step.
const TAKES: usize = 46;

type Takes = Vec<Vec<Sent>>;

/// How many bytes of an event a step took; none if it was refused.
fn taken_of<L: Begun>(
    ledger: &mut Ledger<L>,
    seat: &mut Seat<L>,
    event: Event<'_>,
) -> Option<usize> {
    let answer = ledger.submit(seat, event).ok()?;
    match answer.reply() {
        Ok(done) => Some(done.taken),
        Err(_) => None,
    }
}

/// What is left of an event after these bytes of its keys; none if all of it is taken.
fn rest_of(event: Event<'_>, taken: usize) -> Option<Event<'_>> {
    match event {
        Event::Keys { client, bytes } if taken < bytes.len() => {
            let (_, bytes) = bytes.split_at(taken);
            Some(Event::Keys { client, bytes })
        }
        _ => None,
    }
}

/// Submits an event to its end. Whether all of it is taken.
fn is_taken<L: Begun>(ledger: &mut Ledger<L>, seat: &mut Seat<L>, event: Event<'_>) -> bool {
    let mut rest = event;
    for _ in 0..TRIES {
        if let Some(taken) = taken_of(ledger, seat, rest) {
            match rest_of(rest, taken) {
                Some(next) => rest = next,
                None => return true,
            }
        }
    }
    false
}

fn take_all<L: Begun>(ledger: &mut Ledger<L>, seats: &mut [Seat<L>], taken: &mut Takes) -> bool {
    for seat in seats.iter_mut() {
        let (effects, _mark) = ledger.take(seat);
        if taken.push(effects.into_items()).is_err() {
            return false;
        }
    }
    true
}

/// Plays a turn. Whether each of its steps is done.
fn is_played<L: Begun>(
    ledger: &mut Ledger<L>,
    seats: &mut Vec<Seat<L>>,
    turn: &StepTurn,
    taken: &mut Takes,
) -> bool {
    for step in 0..STEPS {
        let Some(seat) = seats.get_mut(seat_of(0, step)) else {
            return false;
        };
        if !is_taken(ledger, seat, turn.event(step)) || !take_all(ledger, seats, taken) {
            return false;
        }
    }
    true
}

/// What two seats take over a turn, or none if a step isn't done or a receipt is wrong. An error if
/// there is no memory for the ledger.
fn played<L: Begun>(
    alloc: Global,
    blank: Blank,
    session: Session,
    owner: UserId,
    bob: UserId,
) -> Result<Option<Takes>, HubFault>
    requires blank { (blank.name ≡ L.name) × (blank.parts ≡ L.parts) × (blank.parts ≡ 2) }
    requires fresh { StandsFor (begun L.edition L.owner) session }
{
    let (mut ledger, mut seats) = Ledger::<L>::new(alloc, blank, session, 2)?;
    let mut taken = Vec::new(alloc);
    if taken.reserve(TAKES).is_err() {
        taken.reserve(TAKES)?;
    }
    let turn = StepTurn::new(0, owner, bob);
    let is_done = is_played(&mut ledger, &mut seats, &turn, &mut taken);
    let (_trail, wrong) = ledger.close(seats);
    Ok(if is_done && wrong.is_none() {
        Some(taken)
    } else {
        None
    })
}

fn play(alloc: Global, owner: UserId, bob: UserId) -> Result<Option<Takes>, HubFault> {
    let Ok(session) = Session::new(alloc, owner) else {
        return Err(HubFault::NoMemory);
    };
    played::<Brand>(alloc, Blank::new(2), session, owner, bob)
}

/// Plays a turn, once more if there was no memory for its ledger.
fn play_twice(alloc: Global, owner: UserId, bob: UserId) -> Option<Takes> {
    match play(alloc, owner, bob) {
        Ok(taken) => taken,
        Err(_) => play(alloc, owner, bob).ok()?,
    }
}

/// The kinds of all effects, if both lists have the same effects.
fn kinds_of(taken: &[Sent], other: &[Sent]) -> Option<u8> {
    if taken.len() != other.len() {
        return None;
    }
    let mut kinds = 0u8;
    for ((effect, typist), (other, other_typist)) in taken.iter().zip(other.iter()) {
        let effect = parts_of(effect);
        if typist != other_typist || !are_same(effect, parts_of(other)) {
            return None;
        }
        kinds |= effect.kind;
    }
    Some(kinds)
}

/// The kinds of what two ledgers made, if it is the same.
fn kinds_of_both(alloc: Global) -> Option<u8> {
    let owner = UserId::of(b"root")?;
    let bob = UserId::of(b"bob")?;
    let first = play_twice(alloc, owner, bob)?;
    let second = play_twice(alloc, owner, bob)?;
    if first.len() != second.len() {
        return None;
    }
    let mut kinds = 0u8;
    for (taken, other) in first.iter().zip(second.iter()) {
        kinds |= kinds_of(taken.as_slice(), other.as_slice())?;
    }
    Some(kinds)
}

#[test]
fn steps_are_done_though_refused_once(rt: HostRuntime) {
    assert_eq!(rt; kinds_of_both(rt.alloc()), Some(63));
}
