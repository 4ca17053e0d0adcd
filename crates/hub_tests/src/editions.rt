//! A trail of each edition, as a hub filed it: it is legal for its owner alone. If the first verdict of
//! its last entry is turned round, the check names that entry.

ghost use Rattle.std.specs.Prelude.{◌≡◌, IfOk};
ghost use Rattle.session.specs.Trace.{begun};
ghost use Rattle.hub.specs.Seats.{StandsFor};

use crate::entries::copy_of;
use crate::fresh::{are_done, line_of};
use acl::{Bit, Edition, Object, UserId};
use hub::{Begun, CheckFault, EntryList, Hub, Session, Trail, check_entries, check_trail};
use session::{Event, Refusal, Verdict};
use std::alloc::Global;
use std::marker::Brand;
use std::sync::Wait;
use std::sync::ledger::Blank;

/// The place of the entry of bob's keys.
const KEYS: usize = 8;

const TYPED: Event<'static> = Event::Keys {
    client: 0,
    bytes: b"x",
};

/// On window 0 bob and ann lose w and eve keeps it. Bob's leader is ann, then eve, then ann again: in
/// the first edition ann alone, in the second both. Then bob types.
fn events(owner: UserId, bob: UserId) -> [Event<'static>; 9] {
    let open = Event::Open {
        user: owner,
        rows: 24,
        columns: 80,
        keep: 0,
        title: "sh",
    };
    let attach = Event::Attach {
        user: bob,
        rows: 24,
        columns: 80,
    };
    [
        open,
        line_of(owner, b"multiuser on"),
        line_of(owner, b"acladd bob,ann,eve"),
        line_of(owner, b"aclchg bob,ann -w 0"),
        line_of(owner, b"aclgrp bob ann"),
        line_of(owner, b"aclgrp bob eve"),
        line_of(owner, b"aclgrp bob ann"),
        attach,
        TYPED,
    ]
}

/// The owner of a session, its edition, and the users who type in it.
#[derive(Clone, Copy)]
struct SessionStart {
    edition: Edition,
    owner: UserId,
    bob: UserId,
}

/// A session that begins so.
fn session_of(alloc: Global, whose: SessionStart) -> Result<Session, Refusal>
    ensures { IfOk result (λ session. StandsFor (begun whose.edition whose.owner) session) }
{
    match whose.edition {
        Edition::First => Session::first_edition(alloc, whose.owner),
        Edition::Second => Session::new(alloc, whose.owner),
    }
}

/// The trail of these events.
fn trail_of<L: Begun, R: Wait>(
    rt: &R,
    alloc: Global,
    blank: Blank,
    session: Session,
    whose: SessionStart,
) -> Option<Trail>
    requires blank { (blank.name ≡ L.name) × (blank.parts ≡ L.parts) × (blank.parts ≡ 1) }
    requires fresh { StandsFor (begun L.edition L.owner) session }
{
    let Ok((hub, mut seats)) = Hub::<L>::new(alloc, blank, session, 1) else {
        return None;
    };
    let is_done = match seats.first_mut() {
        Some(seat) => are_done(rt, &hub, seat, &events(whose.owner, whose.bob)),
        None => false,
    };
    let (trail, wrong) = hub.close(seats);
    if is_done && wrong.is_none() {
        Some(trail)
    } else {
        None
    }
}

/// The verdict on bob's right to type into window 0.
fn asked(bob: UserId, answer: bool) -> Verdict {
    Verdict::Right {
        user: bob,
        bit: Bit::Write,
        object: Object::Window(0),
        answer,
    }
}

/// The place of the bad entry that a check names, if there is one; no answer for want of memory.
fn bad_place(answer: Result<(), CheckFault>) -> Option<Option<usize>> {
    match answer {
        Ok(()) => Some(None),
        Err(CheckFault::BadEntry { place }) => Some(Some(place)),
        Err(CheckFault::NoMemory) => None,
    }
}

/// The trail's entries, the first verdict of the last one in this form.
fn with_last(alloc: Global, trail: &Trail, first: Verdict) -> Option<EntryList> {
    let mut entries = EntryList::new(alloc).ok()?;
    for place in 0..trail.len().min(KEYS + 1) {
        let mut entry = copy_of(alloc, trail.at(place))?;
        if place == KEYS {
            *entry.verdicts.first_mut()? = first;
        }
        entries.reserve().ok()?;
        entries.push(entry);
    }
    Some(entries)
}

/// What `check_trail` answers for a trail of these entries.
fn judged(alloc: Global, trail: &Trail, first: Verdict) -> Option<Option<usize>> {
    let entries = with_last(alloc, trail, first)?;
    bad_place(check_entries(alloc, trail.acl_edition(), trail.owner(), &entries))
}

/// Whether the trail of an edition, which has this number, is legal for its owner alone, and bob's
/// keys were judged so.
fn is_right(alloc: Global, trail: &Trail, bob: UserId, number: u8, may_type: bool) -> bool {
    let owned = bad_place(check_trail(alloc, trail, trail.owner()));
    let taken = bad_place(check_trail(alloc, trail, bob));
    let told = judged(alloc, trail, asked(bob, may_type));
    let turned = judged(alloc, trail, asked(bob, !may_type));
    trail.edition() == number
        && trail.len() == KEYS + 1
        && owned == Some(None)
        && taken == Some(Some(0))
        && told == Some(None)
        && turned == Some(Some(KEYS))
}

fn judge<R: Wait>(rt: &R, alloc: Global, edition: Edition) -> Option<bool> {
    let (owner, bob) = (UserId::of(b"root")?, UserId::of(b"bob")?);
    let whose = SessionStart {
        edition,
        owner,
        bob,
    };
    let Ok(session) = session_of(alloc, whose) else {
        return None;
    };
    let trail = trail_of::<Brand, R>(rt, alloc, Blank::new(1), session, whose)?;
    let (number, may_type) = match edition {
        Edition::First => (1, false),
        Edition::Second => (2, true),
    };
    Some(is_right(alloc, &trail, bob, number, may_type))
}

#[test]
fn a_trail_is_legal_in_its_edition(rt: HostRuntime) {
    for edition in [Edition::First, Edition::Second] {
        assert_eq!(rt; judge(&rt, rt.alloc(), edition), Some(true));
    }
}
