//! What lies under the hub's lock.

ghost use Rattle.std.specs.Prelude.{◌≡◌, ◌↔◌, ◌<◌, ◌≤◌, length, IfOk, OnErr, Err, IsSome, None, Some, IfErr, [], false};
ghost use Rattle.std.specs.Prelude.{is_some, slice_get, slice_set, true};
ghost use Rattle.session.specs.Trace.{Trace, begun, happening};
ghost use Rattle.session.specs.Run.{tables_of};
ghost use Rattle.session.specs.MayType.{may_type};
ghost use Rattle.hub_trail.specs.Filing.{kept_of};
ghost use Rattle.hub_trail.specs.Legal.{IsLegal};
ghost use Rattle.hub_ledger.specs.States.{Balances, IsKept, StandsFor, Takes, begun_with, state_of};
ghost use Rattle.hub_ledger.specs.Closing.{AreThere, IsFirstWrong, handed_of, receipts_of};
ghost use Rattle.hub_ledger.specs.Seats.{AllBelow, Answers, AreNumbered, HasChecks, NoneAsks};
ghost use Rattle.hub_ledger.specs.Seats.{StandsLast, fresh_seat, placed, with_handed};
ghost use Rattle.hub_ledger.specs.Faults.{foreign, full};
ghost use Rattle.hub_ledger.specs.Laws.{KeptTrailsAreLegal, KeptTrailsHaveTheActs};
ghost use Rattle.hub_ledger.specs.declared.ledger.TheConstants.{FULL};
ghost use Rattle.hub_ledger.specs.declared.ledger.answer.HubFault.TheVariants.{TrailFull, NoMemory, Strange};

mod answer;
mod trail;
#[cfg(test)]
mod turned;

use crate::Begun;
use crate::closing::{count, first_wrong, have_few};
use crate::filed_session::FiledSession;
use crate::seat::Seat;
use crate::waiting::Handed;
use acl::UserId;
pub use answer::{Answer, Foreign, Full, HubFault, Ruling};
use hub_record::Receipts;
use hub_trail::writes_entry;
use session::{Event, Session};
use std::alloc::{AllocError, Global};
use std::marker::Model;
use std::sync::ledger::{Blank, Book, Ledger as ShareLedger, Share};
pub use trail::{Trail, check_entries, check_trail};

/// The most entries that a trail may have.
pub const FULL: usize = 4_194_304;

/// What lies under the hub's lock: a session that stands for a run, its trail, and the effects that
/// wait for each seat. Its shares count the receipts of all seats, as many as the trail has entries,
/// and what they were handed: this and what waits is what was routed.
#[derive(Drop)]
pub struct Ledger<L: Begun> {
    filed: FiledSession,
    book: Book<L>,
}

impl<L: Begun> Model for Ledger<L> {
    ghost use Rattle.std.specs.Prelude.{◌≡◌, ◌<◌, ◌≤◌, length};
    ghost use Rattle.hub_ledger.specs.Seats.{handed_in, receipts_in};
    ghost use Rattle.hub_ledger.specs.States.{Balances, State, IsKept, state_of};
    ghost use Rattle.hub_ledger.specs.declared.ledger.TheConstants.{FULL};

    ghost Value = { State };

    ghost use Rattle.std.specs.Coded.{codes};
    ghost use Rattle.regions.specs.Layouts.{arrangement_code};

    ghost coded = { Prim.hlevel (codes, arrangement_code) };

    ghost view = { λ l. state_of l.filed };

    ghost invariant = { λ l. IsKept (state_of l.filed)
        × (receipts_in l.book.total ≡ length l.filed.entries.list.entries)
        × (length l.filed.entries.list.entries ≤ FULL)
        × (length l.filed.waiting.lists.items ≡ L.parts)
        × (length l.filed.waiting.marks.items ≡ L.parts) × (0 < L.parts)
        × (l.filed.entries.edition ≡ L.edition) × (l.filed.entries.owner ≡ L.owner)
        × (L.parts ≤ 8) × Balances (handed_in l.book.total) (state_of l.filed) };
}

/// A seat with this number and without receipts.
fn make_seat<L: ShareLedger>(alloc: Global, number: usize, share: Share<L>) -> Seat<L>
    requires number { number < L.parts }
    requires share { (share.parts ≡ 1) × (share.amount ≡ 0) }
    ensures { result ≡ fresh_seat number }
{
    Seat {
        number,
        asks: false,
        told: Receipts::new(alloc),
        share,
        steps: 0,
        takes: 0,
        is_told: false,
    }
}

/// One seat for each part of the share; each seat has one part and no receipts.
fn make_seats<L: ShareLedger>(
    alloc: Global,
    share: Share<L>,
    seats: usize,
) -> Result<Vec<Seat<L>>, AllocError>
    requires parts { (share.parts ≡ L.parts) × (seats ≡ L.parts) }
    requires amount { share.amount ≡ 0 }
    ensures seats { IfOk result (λ made. (length made.items ≡ L.parts)
        × (receipts_of made.items ≡ [])) }
    ensures numbers { IfOk result (λ made. AreNumbered made.items) }
    ensures asks { IfOk result (λ made. NoneAsks made.items) }
{
    let mut all = share;
    let mut made = Vec::new(alloc);
    'seats: for number in 0..seats {
        let share = all.split_off(1, 0);
        made.push(make_seat(alloc, number, share))?;
    }
    Ok(made)
}

impl<L: Begun> Ledger<L> {
    /// A ledger of a session that has taken no event, and its 1 to 8 seats. If memory is refused,
    /// which is the only error, the session is dropped.
    pub fn new(
        alloc: Global,
        blank: Blank,
        session: Session,
        seats: usize,
    ) -> Result<(Ledger<L>, Vec<Seat<L>>), HubFault>
        requires name { blank.name ≡ L.name }
        requires parts { (blank.parts ≡ L.parts) × (seats ≡ L.parts) }
        requires seats { (0 < seats) × (seats ≤ 8) }
        requires fresh { StandsFor (begun L.edition L.owner) session }
        ensures state { IfOk result (λ made. made.0
            ≡ begun_with session L.edition L.owner seats) }
        ensures seats { IfOk result (λ made. (length made.1.items ≡ L.parts)
            × (receipts_of made.1.items ≡ [])) }
        ensures numbers { IfOk result (λ made. AreNumbered made.1.items) }
        ensures asks { IfOk result (λ made. NoneAsks made.1.items) }
        ensures err { IfErr result (λ fault. fault ≡ NoMemory) }
    {
        let (book, share) = blank.open::<L>();
        let edition = session.edition();
        let owner = session.owner();
        let filed = FiledSession::new(alloc, edition, owner, session, seats)?;
        let made = make_seats(alloc, share, seats)?;
        Ok((Ledger { filed, book }, made))
    }

    /// Takes one event for a seat: it makes one step of the session, writes the step's entry into
    /// the trail, and puts the receipt into the seat. If it is refused (see `HubFault`), nothing has
    /// changed.
    pub fn submit<'a>(
        &mut self,
        seat: &mut Seat<L>,
        event: Event<'a>,
    ) -> Result<Answer<'a>, HubFault>
        // The session makes a step of this event with this reply, which typed into this window; the
        // step's entry is the last one of the trail, and its effects wait for the seats of their
        // peers.
        ensures step { IfOk result (λ told. Takes seat.old.number (happening event.entry)
            told.reply told.typed self.old self.new) }
        // The answer is to this event, and the seat has its receipt, which names the entry's place.
        ensures answer { IfOk result (λ told. Answers (happening event.entry) told seat.old
            seat.new) }
        ensures place { IfOk result (λ told. told.place
            ≡ placed (kept_of (happening event.entry)) (length self.old.trail.entries)) }
        // The answer says whether the checks of the entry passed that was written.
        ensures checks { IfOk result (λ told. HasChecks told self.new.trail.entries) }
        // If the answer has an entry, it is the one that was written into the trail.
        ensures entry { IfOk result (λ told. StandsLast told.entry self.old.trail.entries
            self.new.trail.entries) }
        ensures full { (result ≡ Err (TrailFull full))
            ↔ (IsSome (kept_of (happening event.entry))
            × (length self.old.trail.entries ≡ FULL)) }
        ensures strange { (result ≡ Err (Strange foreign))
            ↔ (IsSome (kept_of (happening event.entry))
            × (length self.old.trail.entries < FULL)
            × (AllBelow seat.old.receipts (length self.old.trail.entries) → ⊥)) }
        ensures same { OnErr result ((self.new ≡ self.old) × (seat.new ≡ seat.old)) }
    {
        if writes_entry(event) {
            self.file(seat, event)
        } else {
            let made = self.filed.take_step(seat.number, event, None)?;
            let (reply, typed) = made;
            seat.count_step();
            Ok(Answer {
                event,
                reply,
                typed,
                place: None,
                checks: (None, false),
                entry: None,
            })
        }
    }

    /// Takes one event that writes an entry.
    fn file<'a>(&mut self, seat: &mut Seat<L>, event: Event<'a>) -> Result<Answer<'a>, HubFault>
        requires { is_some (kept_of (happening event)) ≡ true }
        ensures step { IfOk result (λ told. Takes seat.old.number (happening event.entry)
            told.reply told.typed self.old self.new) }
        ensures answer { IfOk result (λ told. Answers (happening event.entry) told seat.old
            seat.new) }
        ensures place { IfOk result (λ told. told.place
            ≡ Some (length self.old.trail.entries)) }
        ensures checks { IfOk result (λ told. HasChecks told self.new.trail.entries) }
        ensures entry { IfOk result (λ told. StandsLast told.entry self.old.trail.entries
            self.new.trail.entries) }
        ensures full { (result ≡ Err (TrailFull full)) ↔ (length self.old.trail.entries ≡ FULL) }
        ensures strange { (result ≡ Err (Strange foreign))
            ↔ ((length self.old.trail.entries < FULL)
            × (AllBelow seat.old.receipts (length self.old.trail.entries) → ⊥)) }
        ensures same { OnErr result ((self.new ≡ self.old) × (seat.new ≡ seat.old)) }
    {
        let place = self.filed.entries.list.len();
        let made = self.filed.file(seat.number, &mut seat.told, event)?;
        let (reply, typed) = made;
        self.book.add(&mut seat.share, 1);
        seat.steps = seat.steps.wrapping_add(1);
        let checks = self.filed.checks(place);
        let entry = self.filed.copied(seat.asks, place);
        Ok(Answer {
            event,
            reply,
            typed,
            place: Some(place),
            checks,
            entry,
        })
    }

    /// Hands out the effects that wait for a seat, and tells whether a step other than a Draw came
    /// since the last take. It takes no memory.
    pub fn take(&mut self, seat: &mut Seat<L>) -> (Handed, bool)
        ensures effects { slice_get self.old.waiting seat.old.number ≡ Some result.0 }
        ensures mark { slice_get self.old.marks seat.old.number ≡ Some result.1 }
        ensures rest { self.new ≡ record self.old {
          waiting = slice_set self.old.waiting seat.old.number [];
          marks = slice_set self.old.marks seat.old.number false;
        } }
        ensures handed { seat.new ≡ with_handed result.0 result.1 seat.old }
    {
        let (effects, is_told) = self.filed.waiting.take(self.filed.alloc, seat.number);
        seat.hand(&mut self.book, &effects, is_told);
        (effects, is_told)
    }

    /// Whether a user may type into a window at this moment: it is open, the user has w on it, and no
    /// other user holds its lock. It takes no memory.
    pub fn may_type(&self, user: UserId, window: u32) -> Ruling
        ensures asked { (result.user ≡ user) × (result.window ≡ window) }
        ensures rules { (h : Trace) → StandsFor h self.now.session
            → result.may_type ≡ may_type (tables_of h) user window }
    {
        Ruling {
            user,
            window,
            may_type: self.filed.session.may_type(user, window),
        }
    }

    /// The state is that of a run, and its trail is legal.
    pub fn is_kept(&self)
        ensures kept { IsKept self.now }
        ensures legal { IsLegal self.now.trail }
    {
        let _ = &self.filed;
    }

    /// The trail; and the lowest place for which the receipts of these seats aren't exactly one,
    /// with the event and the reply of the trail's entry there. It takes no memory.
    pub fn close(self, seats: Vec<Seat<L>>) -> (Trail, Option<usize>)
        ensures trail { result.0 ≡ self.trail }
        // The trail is that of the session with which the ledger was made.
        ensures begun { (result.0.edition ≡ L.edition) × (result.0.owner ≡ L.owner) }
        ensures legal { IsLegal result.0 }
        // If all seats are handed back, they hold as many receipts as the trail has entries.
        ensures counted { length seats.items ≡ L.parts
            → length result.0.entries ≡ length (receipts_of seats.items) }
        // Then, for some run with this trail, what they were handed and what still waits is what was
        // routed.
        ensures sum { length seats.items ≡ L.parts → Balances (handed_of seats.items) self }
        ensures wrong { IsFirstWrong result.0.entries (receipts_of seats.items) result.1 }
        // If all seats are handed back, there is no such place exactly if no two receipts name the
        // same place, and each receipt has the event and the reply of the trail's entry at its
        // place.
        ensures none { length seats.items ≡ L.parts
            → ((result.1 ≡ None) ↔ AreThere result.0.entries (receipts_of seats.items)) }
    {
        let Ledger { filed, mut book } = self;
        let entries = filed.into_entries();
        let mut seats = seats;
        have_few(seats.as_slice());
        let wrong = first_wrong(&mut book, seats.as_mut_slice(), &entries.list);
        count(&mut book, seats);
        (Trail::of(entries), wrong)
    }
}

/// What is kept under the lock says that the trail is legal, and that the session's lists, masks,
/// groups, locks and users of clients are those of the trail's acts.
pub fn kept_trails_are_legal()
    ensures legal { KeptTrailsAreLegal }
    ensures acts { KeptTrailsHaveTheActs }
{}
