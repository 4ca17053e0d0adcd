//! The entries of a trail that grows, and what is made before a step so that its entry takes no memory.

ghost use Rattle.std.specs.Prelude.{◌≡◌, ◌<◌, IfOk, OnOk, length, true};
ghost use Rattle.session.specs.Trace.{happening};
ghost use Rattle.hub_trail.specs.Filing.{kept_of};
ghost use Rattle.hub_record.specs.EntryLists.{HasRoom, entry_in};
ghost use Rattle.hub_record.specs.Growing.{kept_by, trail_in, with_entries, written};

use crate::entry_list::EntryList;
use crate::equal::are_same;
use crate::reply::KeptReply;
use crate::trail_entry::TrailEntry;
use acl::{Act, Edition, UserId};
use hub_trail::Kept;
use session::{Event, Notes, Refusal, Reply, Verdict};
use std::alloc::{AllocError, Global};

/// What is kept of an event, and a block of memory for a refusal.
#[derive(Drop)]
pub struct Prepared {
    pub event: Kept,
    pub spare: Box<Refusal>,
}

impl Prepared {
    /// What has to be made for the event, if it writes an entry. `AllocError` if memory is refused.
    pub fn of(alloc: Global, event: Event<'_>) -> Result<Option<Prepared>, AllocError>
        ensures { IfOk result (λ prepared. kept_by prepared ≡ kept_of (happening event.entry)) }
    {
        match Kept::of(alloc, event)? {
            Some(event) => {
                let spare = Box::new(alloc, Refusal::NoMemory)?;
                Ok(Some(Prepared { event, spare }))
            }
            None => Ok(None),
        }
    }
}

/// The entries of all steps of a session, with its edition and its owner.
#[derive(Drop)]
pub struct GrowingTrail {
    pub edition: Edition,
    pub owner: UserId,
    pub list: EntryList,
}

impl GrowingTrail {
    /// Makes room for one more entry. `AllocError` if memory is refused.
    pub fn make_room(&mut self) -> Result<(), AllocError>
        ensures same { trail_in self.new ≡ trail_in self.old }
        ensures room { OnOk result (HasRoom self.new.list) }
    {
        self.list.reserve()
    }

    /// Writes the entry of a step, if it has one. The memory that the step had taken is given back:
    /// an entry keeps only the memory that it needs, and only 4 bytes if an equal one is found.
    pub fn write(&mut self, prepared: Option<Prepared>, notes: Notes, reply: &Reply)
        requires room { HasRoom self.old.list }
        requires few { length self.old.list.entries < 4294967296 }
        ensures { trail_in self.new ≡ with_entries (trail_in self.old)
            (written (kept_by prepared) notes reply.now) }
    {
        if let Some(Prepared { event, spare }) = prepared {
            let (acts, verdicts) = notes.into_parts();
            let reply = KeptReply::of(reply, spare);
            self.list.push(NewEntry {
                event,
                verdicts,
                acts,
                reply,
            });
        }
    }
}

/// The parts of an entry that is still to be stored.
#[derive(Drop)]
pub struct NewEntry {
    pub event: Kept,
    pub verdicts: Vec<Verdict>,
    pub acts: Vec<Act>,
    pub reply: KeptReply,
}

impl NewEntry {
    /// Whether this is equal to the entry.
    pub fn is_of(&self, entry: &TrailEntry) -> bool
        ensures { result ≡ true → entry.now ≡ entry_in self.now }
    {
        entry.is_told(&self.event, &self.reply)
            && are_same(entry.verdicts(), self.verdicts.as_slice())
            && are_same(entry.acts(), self.acts.as_slice())
    }

    /// The entry, which takes only the memory that it needs.
    pub fn into_entry(self) -> TrailEntry
        ensures { result ≡ entry_in self }
    {
        let NewEntry {
            event,
            mut verdicts,
            mut acts,
            reply,
        } = self;
        verdicts.shrink_to_fit();
        acts.shrink_to_fit();
        TrailEntry::new(event, verdicts, acts, reply)
    }
}
