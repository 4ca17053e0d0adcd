//! A thousand steps of all kinds over two seats, beside a session that runs the same events: each
//! seat takes what the session made for its own clients and windows, with the user who typed it,
//! each answer has the session's reply, and each step but a Draw marks both seats.

ghost use Rattle.std.specs.Prelude.{◌≡◌};
ghost use Rattle.session.specs.Trace.{begun};
ghost use Rattle.hub.specs.Seats.{StandsFor};

use crate::compare::{are_same, is_same_reply, parts_of};
use crate::turns::{STEPS, StepTurn, seat_of};
use acl::UserId;
use hub::{Begun, Hub, Seat, Sent, Session};
use session::{Effect, Event, Reply};
use std::alloc::Global;
use std::marker::Brand;
use std::sync::Wait;
use std::sync::ledger::Blank;

/// How many turns there are.
const TURNS: u32 = 50;

/// What the session made of an event, and who typed it.
#[derive(Clone, Copy)]
struct Made<'a> {
    event: Event<'a>,
    typist: Option<UserId>,
    effects: &'a [Effect],
}

/// The user whose keys or whose command an event is.
fn typist_of(twin: &Session, event: Event<'_>) -> Option<UserId> {
    match event {
        Event::Keys { client, .. } => twin.user_of(client),
        Event::Command { user, .. } => Some(user),
        _ => None,
    }
}

/// The kinds of effects that a seat took, if they are those that the session made of an event for its
/// peers, in their order, with the user who typed them: the second seat's have odd serials.
fn kinds_of(taken: &[Sent], made: Made<'_>, is_second: bool) -> Option<u8> {
    let mut kinds = 0u8;
    let mut next = 0;
    for effect in made.effects {
        let effect = parts_of(effect);
        if (effect.peer % 2 == 1) == is_second {
            let (sent, by) = taken.get(next)?;
            if *by != made.typist || !are_same(effect, parts_of(sent)) {
                return None;
            }
            kinds |= effect.kind;
            next += 1;
        }
    }
    if next == taken.len() {
        Some(kinds)
    } else {
        None
    }
}

/// The kinds of effects that both seats take, if these are what the session made for each, and both
/// are marked or neither is.
fn taken<L: Begun, R: Wait>(
    rt: &R,
    hub: &Hub<L>,
    seats: &mut [Seat<L>],
    made: Made<'_>,
) -> Option<u8> {
    let mut kinds = 0u8;
    for seat in seats.iter_mut() {
        let is_second = seat.number() == 1;
        let (effects, is_marked) = hub.take(rt, seat);
        if is_marked == matches!(made.event, Event::Draw { .. }) {
            return None;
        }
        kinds |= kinds_of(effects.as_slice(), made, is_second)?;
    }
    Some(kinds)
}

/// How many entries an event writes, none or one, if it is answered by this reply. If the seat
/// asks for its entry, the answer has it.
fn entries_of<L: Begun, R: Wait>(
    rt: &R,
    hub: &Hub<L>,
    seat: &mut Seat<L>,
    event: Event<'_>,
    reply: &Reply,
) -> Option<usize> {
    let answer = hub.submit(rt, seat, event).ok()?;
    let wrote = answer.place().is_some();
    let asks = seat.number() == 1;
    if answer.entry().is_some() != (wrote && asks) || !is_same_reply(answer.reply(), reply) {
        return None;
    }
    Some(if wrote { 1 } else { 0 })
}

/// A hub with two seats, and a session that runs what they submit.
#[derive(Drop)]
struct Pair<L: Begun> {
    hub: Hub<L>,
    seats: Vec<Seat<L>>,
    twin: Session,
}

/// The second seat asks for its entries.
fn begin<L: Begun>(alloc: Global, blank: Blank, session: Session, owner: UserId) -> Option<Pair<L>>
    requires blank { (blank.name ≡ L.name) × (blank.parts ≡ L.parts) × (blank.parts ≡ 2) }
    requires fresh { StandsFor (begun L.edition L.owner) session }
{
    let Ok((hub, mut seats)) = Hub::<L>::new(alloc, blank, session, 2) else {
        return None;
    };
    seats.get_mut(1)?.ask_for_entries();
    let twin = Session::new(alloc, owner).ok()?;
    Some(Pair { hub, seats, twin })
}

/// What was counted: entries, and the kinds of effects.
#[derive(Clone, Copy)]
struct Counted {
    entries: usize,
    kinds: u8,
}

/// A step by one of the seats, which the session does beside it.
fn step<L: Begun, R: Wait>(
    rt: &R,
    alloc: Global,
    pair: &mut Pair<L>,
    event: Event<'_>,
    number: usize,
) -> Option<Counted> {
    let mut effects = Vec::new(alloc);
    let mut replies = Vec::new(alloc);
    let typist = typist_of(&pair.twin, event);
    let _ = pair.twin.run(&[event], &mut effects, &mut replies);
    let reply = replies.as_slice().last()?;
    let seat = pair.seats.get_mut(number)?;
    let entries = entries_of(rt, &pair.hub, seat, event, reply)?;
    let made = Made {
        event,
        typist,
        effects: effects.as_slice(),
    };
    let kinds = taken(rt, &pair.hub, &mut pair.seats, made)?;
    Some(Counted { entries, kinds })
}

/// All steps.
fn all_steps<L: Begun, R: Wait>(
    rt: &R,
    alloc: Global,
    pair: &mut Pair<L>,
    owner: UserId,
    bob: UserId,
) -> Option<Counted> {
    let mut counted = Counted {
        entries: 0,
        kinds: 0,
    };
    for turn in 0..TURNS {
        for place in 0..STEPS {
            let event = StepTurn::new(turn, owner, bob).event(place);
            let more = step(rt, alloc, pair, event, seat_of(turn, place))?;
            counted.entries = counted.entries.checked_add(more.entries)?;
            counted.kinds |= more.kinds;
        }
    }
    Some(counted)
}

/// Whether the seats take what the session made over all steps, effects of all kinds, and the trail
/// has the entries that were written.
fn is_thousand_right<L: Begun, R: Wait>(
    rt: &R,
    alloc: Global,
    blank: Blank,
    session: Session,
    owner: UserId,
) -> Option<bool>
    requires blank { (blank.name ≡ L.name) × (blank.parts ≡ L.parts) × (blank.parts ≡ 2) }
    requires fresh { StandsFor (begun L.edition L.owner) session }
{
    let bob = UserId::of(b"bob")?;
    let mut pair = begin::<L>(alloc, blank, session, owner)?;
    let counted = all_steps(rt, alloc, &mut pair, owner, bob)?;
    let Pair {
        hub,
        seats,
        twin: _,
    } = pair;
    let (trail, wrong) = hub.close(seats);
    Some(wrong.is_none() && trail.len() == counted.entries && counted.kinds == 63)
}

#[test]
fn seats_take_what_the_session_made(rt: HostRuntime) {
    let Some(owner) = UserId::of(b"root") else {
        panic!(rt; "a name")
    };
    let Ok(session) = Session::new(rt.alloc(), owner) else {
        panic!(rt; "a session")
    };
    let is_right = is_thousand_right::<Brand, _>(&rt, rt.alloc(), Blank::new(2), session, owner);
    assert!(rt; is_right == Some(true));
}
