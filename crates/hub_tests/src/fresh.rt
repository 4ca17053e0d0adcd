//! A seat is told what its own steps brought about.

ghost use Rattle.std.specs.Prelude.{◌≡◌};
ghost use Rattle.session.specs.Trace.{begun};
ghost use Rattle.hub.specs.Seats.{StandsFor};

use acl::UserId;
use hub::{Begun, Hub, Seat, Sent, Session};
use session::{Effect, Event};
use std::alloc::Global;
use std::marker::Brand;
use std::sync::Wait;
use std::sync::ledger::Blank;

/// A line of a user.
pub fn line_of(user: UserId, line: &'static [u8]) -> Event<'static> {
    Event::Command {
        user,
        window: None,
        line,
    }
}

/// Whether a seat submits all of these, and none is refused.
pub fn are_done<L: Begun, R: Wait>(
    rt: &R,
    hub: &Hub<L>,
    seat: &mut Seat<L>,
    events: &[Event<'_>],
) -> bool {
    for event in events {
        match hub.submit(rt, seat, *event) {
            Ok(answer) if answer.reply().is_ok() => {}
            _ => return false,
        }
    }
    true
}

/// Three windows of the owner, and bob, who shows the third.
fn beginning(owner: UserId, bob: UserId) -> [Event<'static>; 7] {
    let open = Event::Open {
        user: owner,
        rows: 24,
        columns: 80,
        keep: 0,
        title: "sh",
    };
    let attach = Event::Attach {
        user: bob,
        rows: 24,
        columns: 80,
    };
    let select = Event::Keys {
        client: 0,
        bytes: b"\x012",
    };
    let on = line_of(owner, b"multiuser on");
    let add = line_of(owner, b"acladd bob");
    [open, open, open, on, add, attach, select]
}

/// Whether this alone is said to bob's client.
fn is_denied(effects: &[Sent]) -> bool {
    match effects {
        [(Effect::Say(0, text), _)] => {
            text.as_slice() == b"denied: w on window 2: entry bob -w".as_slice()
        }
        _ => false,
    }
}

/// Whether the seat that takes a right from bob, and types as bob, takes the denial, once.
fn is_told<L: Begun, R: Wait>(
    rt: &R,
    hub: &Hub<L>,
    seat: &mut Seat<L>,
    owner: UserId,
    bob: UserId,
) -> bool {
    let is_begun = are_done(rt, hub, seat, &beginning(owner, bob));
    let _before = hub.take(rt, seat);
    let takes = line_of(owner, b"aclchg bob -w 2");
    let types = Event::Keys {
        client: 0,
        bytes: b"x",
    };
    let is_typed = are_done(rt, hub, seat, &[takes, types]);
    let (effects, is_marked) = hub.take(rt, seat);
    let (none, is_marked_again) = hub.take(rt, seat);
    let is_denied = is_denied(effects.as_slice()) && is_marked;
    let is_once = none.as_slice().is_empty() && !is_marked_again;
    // Each entry of the trail is in a receipt of the one seat.
    let is_counted = seat.receipts().len() == 9;
    is_begun && is_typed && is_denied && is_once && is_counted
}

/// Whether a seat of a new hub is told so.
fn is_fresh<L: Begun, R: Wait>(
    rt: &R,
    alloc: Global,
    blank: Blank,
    session: Session,
    owner: UserId,
) -> Option<bool>
    requires blank { (blank.name ≡ L.name) × (blank.parts ≡ L.parts) × (blank.parts ≡ 1) }
    requires fresh { StandsFor (begun L.edition L.owner) session }
{
    let bob = UserId::of(b"bob")?;
    let Ok((hub, mut seats)) = Hub::<L>::new(alloc, blank, session, 1) else {
        return None;
    };
    let is_told = match seats.first_mut() {
        Some(seat) => is_told(rt, &hub, seat, owner, bob),
        None => false,
    };
    let (trail, wrong) = hub.close(seats);
    Some(is_told && wrong.is_none() && trail.len() == 9)
}

#[test]
fn a_seat_is_told_of_its_own_step(rt: HostRuntime) {
    let Some(owner) = UserId::of(b"root") else {
        panic!(rt; "a name")
    };
    let Ok(session) = Session::new(rt.alloc(), owner) else {
        panic!(rt; "a session")
    };
    let told = is_fresh::<Brand, _>(&rt, rt.alloc(), Blank::new(1), session, owner);
    assert_eq!(rt; told, Some(true));
}
