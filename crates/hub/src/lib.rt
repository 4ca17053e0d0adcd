//! A session that threads share under one lock. Each call of `Hub` is one call of the `Ledger`
//! under the lock; only the ledger makes answers and trails.
//!
//! A program names the hub's ledger once, where it calls a function that is generic in it:
//! `serve::<Brand, _>(rt, alloc, Blank::new(seats), owner, ..)` with `fn serve<L: Begun + Send +
//! Sync, R: ..>` that requires `(blank.name ≡ L.name) × (blank.parts ≡ L.parts)` and `(L.edition ≡
//! Second) × (L.owner ≡ owner)`; its `Invariants.antt` says `ghosts-serve-L-Ledger g a = record {
//! name = a.blank.name; parts = a.blank.parts }` and `ghosts-serve-L-Begun g a = record { edition =
//! Second; owner = a.owner }`.
#![tactic(auto)]

ghost use Rattle.std.specs.Prelude.{◌≡◌, ◌↔◌, ◌<◌, ◌≤◌, length, IfOk, IfErr, OnErr, IsSome, None, []};
ghost use Rattle.session.specs.Trace.{begun, happening};
ghost use Rattle.hub_trail.specs.Legal.{IsLegal};
ghost use Rattle.hub_ledger.specs.Closing.{AreThere, IsFirstWrong, handed_of, receipts_of};
ghost use Rattle.hub_ledger.specs.Faults.{foreign, full};
ghost use Rattle.hub_ledger.specs.Seats.{Answers, AreNumbered, NoneAsks, StandsFor, with_handed};
ghost use Rattle.hub_ledger.specs.States.{Balances, State};
ghost use Rattle.hub_ledger.specs.declared.ledger.answer.HubFault.TheVariants.{NoMemory, Strange, TrailFull};
ghost use Rattle.hub_trail.specs.Filing.{kept_of};

use acl::UserId;
pub use hub_check::{Judge, all_pass, failed};
pub use hub_ledger::{
    Answer, Begun, CheckFault, FULL, Foreign, Full, Handed, HubFault, Kept, Ledger, Receipt,
    Receipts, Ruling, Seat, Sent, Session, Trail, TrailEntry, check_entries, check_trail,
    kept_trails_are_legal,
};
pub use hub_record::{EntryList, KeptReply, NewEntry};
pub use hub_trail::{Ending, Finished, asks_for_command, from_command};
pub use rights::{Rights, follow_clients, user_of_client};
use session::Event;
use std::alloc::Global;
use std::sync::ledger::Blank;
use std::sync::{Mutex, Wait};

/// A session that threads share.
pub struct Hub<L: Begun> {
    ledger: Mutex<Ledger<L>>,
}

impl<L: Begun> Drop for Hub<L> {
    fn drop(self) {
        let Hub { ledger: _ } = self;
    }
}

impl<L: Begun> Hub<L> {
    /// A hub of a session that has taken no event, and its 1 to 8 seats. If memory is refused,
    /// which is the only error, the session is dropped.
    pub fn new(
        alloc: Global,
        blank: Blank,
        session: Session,
        seats: usize,
    ) -> Result<(Hub<L>, Vec<Seat<L>>), HubFault>
        requires name { blank.name ≡ L.name }
        requires parts { (blank.parts ≡ L.parts) × (seats ≡ L.parts) }
        requires seats { (0 < seats) × (seats ≤ 8) }
        requires fresh { StandsFor (begun L.edition L.owner) session }
        ensures seats { IfOk result (λ made. (length made.1.items ≡ L.parts)
            × (receipts_of made.1.items ≡ [])) }
        // No two seats have one number.
        ensures numbers { IfOk result (λ made. AreNumbered made.1.items) }
        // A seat asks for entries only if it is told to.
        ensures asks { IfOk result (λ made. NoneAsks made.1.items) }
        ensures err { IfErr result (λ fault. fault ≡ NoMemory) }
    {
        let (ledger, seats) = Ledger::new(alloc, blank, session, seats)?;
        Ok((
            Hub {
                ledger: Mutex::new(ledger),
            },
            seats,
        ))
    }

    /// Submits one event. The answer is the one to this event, and the seat holds its receipt. If it is
    /// refused (see `HubFault`), the seat is unchanged.
    pub fn submit<'a, R: Wait>(
        &self,
        rt: &R,
        seat: &mut Seat<L>,
        event: Event<'a>,
    ) -> Result<Answer<'a>, HubFault>
        ensures answer { IfOk result (λ told. Answers (happening event.entry) told seat.old
            seat.new) }
        ensures same { OnErr result (seat.new ≡ seat.old) }
        // A trail is full, and a seat of another hub, only for an event that writes an entry.
        ensures full { IfErr result (λ fault. fault ≡ TrailFull full
            → IsSome (kept_of (happening event.entry))) }
        ensures strange { IfErr result (λ fault. fault ≡ Strange foreign
            → IsSome (kept_of (happening event.entry))) }
    {
        self.ledger.lock(rt).submit(seat, event)
    }

    /// The effects that wait for a seat, and whether a step other than a Draw came since they were
    /// last taken. The seat counts them.
    pub fn take<R: Wait>(&self, rt: &R, seat: &mut Seat<L>) -> (Handed, bool)
        ensures { seat.new ≡ with_handed result.0 result.1 seat.old }
    {
        self.ledger.lock(rt).take(seat)
    }

    /// Whether a user may type into a window at this moment: it is open, the user has w on it, and no
    /// other user holds its lock.
    pub fn may_type<R: Wait>(&self, rt: &R, user: UserId, window: u32) -> Ruling
        ensures { (result.user ≡ user) × (result.window ≡ window) }
    {
        self.ledger.lock(rt).may_type(user, window)
    }

    /// The trail; and the lowest place for which the receipts of these seats aren't exactly one,
    /// with the event and the reply of the trail's entry there. It takes no memory.
    pub fn close(self, seats: Vec<Seat<L>>) -> (Trail, Option<usize>)
        // It is the trail of the session that the hub began with.
        ensures begun { (result.0.edition ≡ L.edition) × (result.0.owner ≡ L.owner) }
        // The trail is a legal history of one thread.
        ensures legal { IsLegal result.0 }
        // If all seats are handed back, they hold as many receipts as the trail has entries.
        ensures counted { length seats.items ≡ L.parts
            → length result.0.entries ≡ length (receipts_of seats.items) }
        // Then, for some run with this trail, what they were handed and what still waits under the
        // lock is what was routed.
        ensures sum { length seats.items ≡ L.parts → (last : State) × (last.trail ≡ result.0)
            × Balances (handed_of seats.items) last }
        ensures wrong { IsFirstWrong result.0.entries (receipts_of seats.items) result.1 }
        // If all seats are handed back, there is no such place exactly if no two receipts name the
        // same place, and each receipt has the event and the reply of the trail's entry at its
        // place.
        ensures none { length seats.items ≡ L.parts
            → ((result.1 ≡ None) ↔ AreThere result.0.entries (receipts_of seats.items)) }
    {
        let Hub { ledger } = self;
        ledger.into_inner().close(seats)
    }
}
