//! A verdict that is turned round in a trail is found by the check of the trail.

ghost use Rattle.std.specs.Prelude.{◌≡◌, IfSome, true};
ghost use Rattle.std.specs.List.{AllByRecursion};
ghost use Rattle.acl.specs.declared.leaders.Edition.TheVariants.{Second};
ghost use Rattle.acl.specs.History.{History};
ghost use Rattle.hub_trail.specs.Judging.{is_on_there};

use crate::Begun;
use crate::ledger::{Ledger, Trail, check_trail};
use crate::waiting::SeatEffects;
use acl::UserId;
use hub_check::CheckFault;
use hub_record::{EntryList, GrowingTrail, KeptReply, NewEntry, TrailEntry};
use session::{Done, Refusal, Session, Verdict, read_event};
use std::alloc::Global;
use std::marker::Brand;
use std::sync::ledger::Blank;

/// Events, each with the number of its verdicts. Bob types before w is taken from him and afterwards.
static EVENTS: [(&[u8], usize); 7] = [
    (b"open own 24 80 0 sh", 1),
    (b"command own - multiuser on", 1),
    (b"command own - acladd bob", 1),
    (b"attach bob 24 80", 0),
    (b"keys 0 x", 2),
    (b"command own - aclchg bob -w 0", 1),
    (b"keys 0 x", 1),
];

/// The trail of these events.
fn filed<L: Begun>(alloc: Global, blank: Blank, owner: UserId) -> Option<Trail>
    requires blank { (blank.name ≡ L.name) × (blank.parts ≡ L.parts) × (blank.parts ≡ 1) }
    requires begun { (L.edition ≡ Second) × (L.owner ≡ owner) }
{
    let session = Session::new(alloc, owner).ok()?;
    let (mut ledger, mut seats) = Ledger::<L>::new(alloc, blank, session, 1).ok()?;
    let mut text = Vec::new(alloc);
    for (line, _count) in &EVENTS {
        let event = read_event(line, &mut text).ok()??;
        ledger.submit(seats.first_mut()?, event).ok()?;
    }
    Some(ledger.close(seats).0)
}

/// Gives the verdict the other answer, or another holder.
fn turn(verdict: &mut Verdict)
    ensures { (h : History) → is_on_there h verdict.new ≡ is_on_there h verdict.old }
{
    match verdict {
        Verdict::Right { answer, .. } => *answer = !*answer,
        Verdict::Lock { user, holder, .. } => *holder = holder.xor(Some(*user)),
    }
}

/// A copy of an entry, in which the verdict at this place is turned round, if there is one.
fn copy_of(alloc: Global, entry: &TrailEntry, which: usize) -> Option<NewEntry>
    ensures acts { IfSome result (λ copy. copy.acts.items ≡ entry.now.acts) }
    ensures there { IfSome result (λ copy. (h : History)
        → AllByRecursion (λ v. is_on_there h v ≡ true) entry.now.verdicts
        → AllByRecursion (λ v. is_on_there h v ≡ true) copy.verdicts.items) }
{
    let reply = entry.ending().map(|finished| Done {
        taken: finished.taken,
        made: finished.made,
        number: finished.number,
        text: None,
    });
    let mut verdicts = entry.verdicts().to_vec(alloc).ok()?;
    if which < verdicts.len() {
        turn(&mut verdicts[which]);
    }
    Some(NewEntry {
        event: entry.event().copy(alloc).ok()?,
        verdicts,
        acts: entry.acts().to_vec(alloc).ok()?,
        reply: KeptReply::of(&reply, Box::new(alloc, Refusal::NoMemory).ok()?),
    })
}

/// The trail, in which the verdict `which` of the entry at a place is turned round, if it is there.
fn turned(alloc: Global, trail: &Trail, place: usize, which: usize) -> Option<Trail> {
    let mut list = EntryList::new(alloc).ok()?;
    'places: for next in 0..trail.len() {
        let which = if next == place { which } else { usize::MAX };
        let copy = copy_of(alloc, trail.at(next), which)?;
        list.reserve().ok()?;
        if list.len() >= EVENTS.len() {
            return None;
        }
        list.push(copy);
    }
    trail.is_judgeable();
    Some(Trail::of(GrowingTrail {
        edition: trail.acl_edition(),
        owner: trail.owner(),
        list,
    }))
}

/// The place that the check names, if a verdict is turned round; no answer for want of memory.
fn bad_place(alloc: Global, trail: &Trail, place: usize, which: usize) -> Option<Option<usize>> {
    let turned = turned(alloc, trail, place, which)?;
    match check_trail(alloc, &turned, trail.owner()) {
        Ok(()) => Some(None),
        Err(CheckFault::BadEntry { place }) => Some(Some(place)),
        Err(CheckFault::NoMemory) => None,
    }
}

/// The first place where the check misses a verdict that is turned round, or finds one that isn't; no
/// answer for want of memory.
fn first_wrong(alloc: Global) -> Option<Option<usize>> {
    let owner = UserId::of(b"own")?;
    let trail = filed::<Brand>(alloc, Blank::new(1), owner)?;
    for (place, (_line, count)) in EVENTS.iter().enumerate() {
        for which in 0..=*count {
            let wanted = (which < *count).then_some(place);
            if bad_place(alloc, &trail, place, which)? != wanted {
                return Some(Some(place));
            }
        }
    }
    Some(None)
}

/// What may go to another thread: `proofs/Crossing` names this proof, which tests make only if asked.
fn crosses<T: Send>() {}

#[test]
fn a_verdict_turned_round_is_found(rt: HostRuntime) {
    crosses::<SeatEffects>();
    assert_eq!(rt; first_wrong(rt.alloc()), Some(None));
}
