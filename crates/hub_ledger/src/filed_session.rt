//! A session with its trail, and the effects that wait for each seat.

ghost use Rattle.std.specs.Prelude.{◌≡◌, ◌↔◌, ◌<◌, ◌≤◌, length, IfOk, OnOk, OnErr, Err};
ghost use Rattle.std.specs.Prelude.{IfSome, Some, is_some, slice_get, true};
ghost use Rattle.session.specs.Trace.{begun, happening};
ghost use Rattle.session.specs.Stands.{StandsFor, wants_memory};
ghost use Rattle.hub_trail.specs.Filing.{kept_of};
ghost use Rattle.hub_trail.specs.Trails.{Entry};
ghost use Rattle.hub_ledger.specs.Seats.{AllBelow, AreChecks, IsReceived, Rise, checks_of};
ghost use Rattle.hub_trail.specs.Legal.{asks_for_command};
ghost use Rattle.std.specs.List.{list_any};
ghost use Rattle.hub_ledger.specs.Faults.{foreign, full};
ghost use Rattle.hub_record.specs.Growing.{kept_by};
ghost use Rattle.hub_ledger.specs.States.{IsKept, Takes, begun_with, state_of};
ghost use Rattle.hub_ledger.specs.declared.ledger.answer.HubFault.TheVariants.{TrailFull, Strange};
ghost use Rattle.hub_ledger.specs.declared.ledger.TheConstants.{FULL};

use crate::ledger::{FULL, Foreign, Full, HubFault};
use crate::seat::are_below;
use crate::waiting::{SeatEffects, typed_in, typist_of};
use acl::{Edition, UserId};
use hub_check::all_pass;
use hub_peers::Peers;
use hub_record::{EntryList, GrowingTrail, KeptReply, Prepared, Receipts, TrailEntry};
use hub_trail::asks_for_command;
use session::{Event, Notes, Refusal, Reply, Session, Verdict};
use std::alloc::{AllocError, Global};

/// A session with its trail, the seats of its peers, and the effects that wait for each seat.
#[derive(Drop)]
pub struct FiledSession {
    pub alloc: Global,
    pub session: Session,
    pub entries: GrowingTrail,
    pub peers: Peers,
    pub waiting: SeatEffects,
}

/// Whether a step was refused because memory was refused.
fn wants_memory(reply: &Reply) -> bool
    ensures { result ≡ wants_memory reply.now }
{
    matches!(reply, Err(Refusal::NoMemory))
}

/// Whether all checks passed; `None` if nothing was checked.
fn checks_of(verdicts: &[Verdict]) -> Option<bool>
    ensures { result ≡ checks_of verdicts.now }
{
    match verdicts {
        [] => None,
        verdicts => Some(all_pass(verdicts)),
    }
}

/// Whether x on a command was checked.
fn asks_command(verdicts: &[Verdict]) -> bool
    ensures { result ≡ list_any asks_for_command verdicts.now }
{
    verdicts.iter().any(|verdict| asks_for_command(*verdict))
}

impl FiledSession {
    /// A session that has taken no event, with an empty trail, and without effects that wait.
    /// `AllocError` if memory is refused.
    pub fn new(
        alloc: Global,
        edition: Edition,
        owner: UserId,
        session: Session,
        seats: usize,
    ) -> Result<FiledSession, AllocError>
        requires { StandsFor (begun edition owner) session }
        ensures state { IfOk result (λ filed. state_of filed
            ≡ begun_with session edition owner seats) }
        ensures kept { IfOk result (λ filed. IsKept (state_of filed)) }
    {
        let waiting = SeatEffects::new(alloc, seats)?;
        let entries = GrowingTrail {
            edition,
            owner,
            list: EntryList::new(alloc)?,
        };
        Ok(FiledSession {
            alloc,
            session,
            entries,
            peers: Peers::new(alloc),
            waiting,
        })
    }

    /// One step of the session, for a seat: its reply, and the window into which it typed. If memory is
    /// refused, nothing has changed.
    pub fn take_step(
        &mut self,
        seat: usize,
        event: Event<'_>,
        prepared: Option<Prepared>,
    ) -> Result<(Reply, Option<u32>), AllocError>
        requires kept { IsKept (state_of self.old) }
        requires seat { seat < length self.old.waiting.lists.items }
        requires few { length self.old.entries.list.entries < 4294967296 }
        requires prepared { kept_by prepared ≡ kept_of (happening event) }
        ensures step { IfOk result (λ made. Takes seat (happening event.entry) made.0 made.1
            (state_of self.old) (state_of self.new)) }
        ensures kept { IsKept (state_of self.new) }
        ensures same { OnErr result (state_of self.new ≡ state_of self.old) }
    {
        self.entries.make_room()?;
        self.peers.make_room()?;
        self.waiting.make_room()?;
        let typist = typist_of(&self.session, event);
        let mut effects = Vec::new(self.alloc);
        let mut notes = Notes::new(self.alloc);
        let reply = self.session.step(event, &mut effects, &mut notes);
        if wants_memory(&reply) {
            return Err(AllocError);
        }
        let typed = typed_in(event, effects.as_slice());
        self.waiting.route(&self.peers, typist, effects);
        self.peers.add(event, &reply, seat);
        self.waiting.mark(event);
        self.entries.write(prepared, notes, &reply);
        Ok((reply, typed))
    }

    /// One step that writes an entry, for a seat with these receipts, which get one more. If it is
    /// refused, nothing has changed.
    pub fn file(
        &mut self,
        seat: usize,
        told: &mut Receipts,
        event: Event<'_>,
    ) -> Result<(Reply, Option<u32>), HubFault>
        requires kept { IsKept (state_of self.old) }
        requires seat { seat < length self.old.waiting.lists.items }
        requires most { length self.old.entries.list.entries ≤ FULL }
        requires rise { Rise told.old.receipts }
        requires writes { is_some (kept_of (happening event)) ≡ true }
        ensures step { IfOk result (λ made. Takes seat (happening event.entry) made.0 made.1
            (state_of self.old) (state_of self.new)) }
        ensures kept { IsKept (state_of self.new) }
        ensures told { IfOk result (λ made. IsReceived (kept_of (happening event.entry)) made.0
            (length self.old.entries.list.entries) told.old.receipts told.new.receipts) }
        ensures room { OnOk result (length self.old.entries.list.entries < FULL) }
        ensures full { (result ≡ Err (TrailFull full))
            ↔ (length self.old.entries.list.entries ≡ FULL) }
        ensures strange { (result ≡ Err (Strange foreign))
            ↔ ((length self.old.entries.list.entries < FULL)
            × (AllBelow told.old.receipts (length self.old.entries.list.entries) → ⊥)) }
        ensures same { OnErr result ((state_of self.new ≡ state_of self.old)
            × (told.new.receipts ≡ told.old.receipts)) }
    {
        let place = self.entries.list.len();
        if place >= FULL {
            return Err(HubFault::TrailFull(Full { _made: () }));
        }
        if !are_below(told, place) {
            return Err(HubFault::Strange(Foreign { _made: () }));
        }
        told.reserve()?;
        let Some(copy) = Prepared::of(self.alloc, event)? else {
            unreachable!()
        };
        let prepared = Prepared::of(self.alloc, event)?;
        let made = self.take_step(seat, event, prepared)?;
        let (reply, typed) = made;
        let ending = KeptReply::of(&reply, copy.spare);
        told.push(place, copy.event, ending);
        Ok((reply, typed))
    }

    /// Whether all checks of the entry at a place passed, if something was checked; and whether x was.
    pub fn checks(&self, place: usize) -> (Option<bool>, bool)
        requires { place < length self.now.entries.list.entries }
        ensures { (e : Entry) → slice_get self.now.entries.list.entries place ≡ Some e
            → AreChecks result.0 result.1 e }
    {
        let verdicts = self.entries.list.at(place).verdicts();
        (checks_of(verdicts), asks_command(verdicts))
    }

    /// A copy of the entry at a place, for a seat that asks for entries; `None` if it doesn't, or
    /// if memory is refused.
    pub fn copied(&self, asks: bool, place: usize) -> Option<TrailEntry>
        requires { place < length self.now.entries.list.entries }
        ensures { IfSome result (λ e. (asks ≡ true)
            × (slice_get self.now.entries.list.entries place ≡ Some e)) }
    {
        if asks {
            self.entries.list.at(place).copy(self.alloc).ok()
        } else {
            None
        }
    }

    /// The entries, without the session and the effects.
    pub fn into_entries(self) -> GrowingTrail
        ensures { result ≡ self.entries }
    {
        let FiledSession { entries, .. } = self;
        entries
    }
}
