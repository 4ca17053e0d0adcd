//! Entries as they are stored.

ghost use Rattle.std.specs.Prelude.{◌≡◌, ◌↔◌, IfOk, true};

use crate::reply::KeptReply;
use acl::Act;
use hub_trail::{Ending, Kept};
use session::Verdict;
use std::alloc::{AllocError, Global};
use std::marker::Model;
use std::mem::size_of;

/// One entry of a trail: an event, what was checked, what was done, and what was answered.
/// Contracts see it as the `Entry` of hub_trail.
pub struct TrailEntry {
    event: Kept,
    verdicts: Vec<Verdict>,
    acts: Vec<Act>,
    reply: KeptReply,
}

impl Drop for TrailEntry {
    fn drop(self) {
        let TrailEntry {
            event: _,
            verdicts: _,
            acts: _,
            reply: _,
        } = self;
    }
}

// So an entry of Keys with two verdicts takes at most 240 bytes.
const _: () = prove!(size_of::<TrailEntry>() <= 128);

const _: () = prove!(2 * size_of::<Verdict>() <= 112);

impl Model for TrailEntry {
    ghost use Rattle.hub_trail.specs.Trails.{Entry};

    ghost Value = { Entry };

    ghost view = { λ f. record {
      event = f.event;
      verdicts = f.verdicts.items;
      acts = f.acts.items;
      reply = f.reply;
    } };
}

impl TrailEntry {
    /// The entry with these parts.
    pub fn new(event: Kept, verdicts: Vec<Verdict>, acts: Vec<Act>, reply: KeptReply) -> TrailEntry
        ensures { result ≡ record {
          event = event;
          verdicts = verdicts.items;
          acts = acts.items;
          reply = reply;
        } }
    {
        TrailEntry {
            event,
            verdicts,
            acts,
            reply,
        }
    }

    /// A copy of the entry, which takes only the memory that it needs. `AllocError` if memory is
    /// refused.
    pub fn copy(&self, alloc: Global) -> Result<TrailEntry, AllocError>
        ensures { IfOk result (λ copy. copy ≡ self.now) }
    {
        let event = self.event.copy(alloc)?;
        let verdicts = Vec::from_slice(alloc, self.verdicts.as_slice())?;
        let acts = Vec::from_slice(alloc, self.acts.as_slice())?;
        let reply = self.reply.copy(alloc)?;
        Ok(TrailEntry {
            event,
            verdicts,
            acts,
            reply,
        })
    }

    /// The event of the entry.
    pub fn event(&self) -> &Kept
        ensures { result.now ≡ self.now.event }
    {
        &self.event
    }

    /// The verdicts of what was checked, in order.
    pub fn verdicts(&self) -> &[Verdict]
        ensures { result.now ≡ self.now.verdicts }
    {
        self.verdicts.as_slice()
    }

    /// The acts that were done, in order.
    pub fn acts(&self) -> &[Act]
        ensures { result.now ≡ self.now.acts }
    {
        self.acts.as_slice()
    }

    /// The reply, without its text.
    pub fn ending(&self) -> Ending
        ensures { result ≡ self.now.reply }
    {
        self.reply.ending()
    }

    /// Whether the entry has this event and this reply.
    pub fn is_told(&self, event: &Kept, reply: &KeptReply) -> bool
        ensures { (result ≡ true)
            ↔ ((self.now.event ≡ event.now) × (self.now.reply ≡ reply.now)) }
    {
        self.event.is_same(event) && self.reply.is_same(reply)
    }
}
