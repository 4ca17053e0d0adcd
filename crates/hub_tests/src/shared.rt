//! Equal entries share one stored form.

ghost use Rattle.std.specs.Prelude.{◌≡◌};
ghost use Rattle.session.specs.Trace.{begun};
ghost use Rattle.hub.specs.Seats.{StandsFor};

use crate::fresh::line_of;
use acl::UserId;
use hub::{Begun, Hub, Seat, Session};
use session::Event;
use std::alloc::Global;
use std::marker::Brand;
use std::sync::Wait;
use std::sync::ledger::Blank;

/// How many users there are besides the owner: as many as may be known.
const USERS: u8 = 63;

/// How often each user gives the line, and the owner the masks.
const TIMES: usize = 5;

/// The user of a number: two digits after a letter.
fn user(number: u8) -> Option<UserId> {
    let name = [b'u', b'0' + number / 10 % 10, b'0' + number % 10];
    UserId::of(&name)
}

/// Each user is made known by a line of the owner. Then, several times, all users give one line in
/// turn, and the owner masks all rights of all.
fn submit_all<L: Begun, R: Wait>(
    rt: &R,
    alloc: Global,
    hub: &Hub<L>,
    seat: &mut Seat<L>,
    owner: UserId,
) -> Option<()> {
    hub.submit(rt, seat, line_of(owner, b"multiuser on")).ok()?;
    for number in 0..USERS {
        let mut line = Vec::from_slice(alloc, b"acladd ").ok()?;
        line.extend_from_slice(user(number)?.as_bytes()).ok()?;
        let event = Event::Command {
            user: owner,
            window: None,
            line: &line,
        };
        hub.submit(rt, seat, event).ok()?;
    }
    for _time in 0..TIMES {
        for number in 0..USERS {
            hub.submit(rt, seat, line_of(user(number)?, b"windows"))
                .ok()?;
        }
        hub.submit(rt, seat, line_of(owner, b"aclumask -rwx")).ok()?;
    }
    Some(())
}

/// How many entries the trail has, and how many forms are stored for them.
fn counted<L: Begun, R: Wait>(
    rt: &R,
    alloc: Global,
    blank: Blank,
    session: Session,
    owner: UserId,
) -> Option<(usize, usize)>
    requires blank { (blank.name ≡ L.name) × (blank.parts ≡ L.parts) × (blank.parts ≡ 1) }
    requires fresh { StandsFor (begun L.edition L.owner) session }
{
    let Ok((hub, mut seats)) = Hub::<L>::new(alloc, blank, session, 1) else {
        return None;
    };
    let submitted = match seats.first_mut() {
        Some(seat) => submit_all(rt, alloc, &hub, seat, owner),
        None => None,
    };
    let (trail, _wrong) = hub.close(seats);
    submitted?;
    Some((trail.len(), trail.entries().forms()))
}

// One entry and one form are for `multiuser on`, and as many of each as users for `acladd`.
#[test]
fn equal_entries_share_a_form(rt: HostRuntime) {
    let Some(owner) = UserId::of(b"root") else {
        panic!(rt; "a name")
    };
    let Ok(session) = Session::new(rt.alloc(), owner) else {
        panic!(rt; "a session")
    };
    let counted = counted::<Brand, _>(&rt, rt.alloc(), Blank::new(1), session, owner);
    assert_eq!(rt; counted, Some((1 + 63 + 5 * (63 + 1), 1 + 63 + 63 + 1)));
}
