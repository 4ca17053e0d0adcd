//! Four threads that submit commands by one hub.

ghost use Rattle.std.specs.Prelude.{◌≡◌};
ghost use Rattle.session.specs.Trace.{begun};
ghost use Rattle.hub.specs.Seats.{StandsFor};

use acl::UserId;
use hub::{Begun, Hub, Seat, Session};
use session::Event;
use std::alloc::Global;
use std::marker::Brand;
use std::sync::Wait;
use std::sync::ledger::Blank;
use std::thread::{Threads, join};

/// How many commands each thread submits.
const EACH: usize = 500;

/// Submits `EACH` commands, and takes what waits. Whether each was answered as it should.
fn work<L: Begun, R: Wait>(rt: &R, hub: &Hub<L>, seat: &mut Seat<L>, user: UserId) -> bool {
    for i in 0..EACH {
        let event = Event::Command {
            user,
            window: None,
            line: b"wall hi",
        };
        let Ok(answer) = hub.submit(rt, seat, event) else {
            return false;
        };
        if answer.place().is_none() || answer.reply().is_err() {
            return false;
        }
        if i % 16 == 0 {
            let (effects, _marked) = hub.take(rt, seat);
            if !effects.as_slice().is_empty() {
                return false;
            }
        }
    }
    true
}

/// Whether two threads, each with a seat of its own, are answered as they should.
fn are_answered<L: Begun + Send + Sync, R: Threads + Wait + Sync>(
    rt: &R,
    hub: &Hub<L>,
    first: &mut Seat<L>,
    second: &mut Seat<L>,
    user: UserId,
) -> bool {
    let (is_first, is_second) = join(
        rt,
        || work(rt, hub, first, user),
        || work(rt, hub, second, user),
    );
    is_first && is_second
}

/// How many entries the trail of four threads has, if each has its receipt and all were answered.
fn four<L: Begun + Send + Sync, R: Threads + Wait + Sync>(
    rt: &R,
    alloc: Global,
    blank: Blank,
    session: Session,
    owner: UserId,
) -> Option<usize>
    requires blank { (blank.name ≡ L.name) × (blank.parts ≡ L.parts) × (blank.parts ≡ 4) }
    requires fresh { StandsFor (begun L.edition L.owner) session }
{
    let Ok((hub, mut seats)) = Hub::<L>::new(alloc, blank, session, 4) else {
        return None;
    };
    let (Some(mut a), Some(mut b)) = (seats.pop(), seats.pop()) else {
        return None;
    };
    let (Some(mut c), Some(mut d)) = (seats.pop(), seats.pop()) else {
        return None;
    };
    let shared = &hub;
    let (is_first, is_second) = join(
        rt,
        || are_answered(rt, shared, &mut a, &mut b, owner),
        || are_answered(rt, shared, &mut c, &mut d, owner),
    );
    for seat in [a, b, c, d] {
        seats.push(seat).ok()?;
    }
    let (trail, wrong) = hub.close(seats);
    if !is_first || !is_second || wrong.is_some() {
        return None;
    }
    Some(trail.len())
}

/// No hub gives up for no reason: each command is answered, and each entry has its receipt.
#[test]
fn gives_up_for_memory(rt: HostRuntime) {
    let Some(owner) = UserId::of(b"root") else {
        panic!(rt; "a name")
    };
    let Ok(session) = Session::new(rt.alloc(), owner) else {
        panic!(rt; "a session")
    };
    let entries = four::<Brand, _>(&rt, rt.alloc(), Blank::new(4), session, owner);
    assert_eq!(rt; entries, Some(4 * EACH));
}
