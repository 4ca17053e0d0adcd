//! Entries, and a trail of them.

use hub::{EntryList, Kept, KeptReply, NewEntry, TrailEntry};
use session::{Done, Event, Refusal, Reply};
use std::alloc::{AllocError, Global};

fn new_entry(alloc: Global, event: Event<'_>) -> Result<NewEntry, AllocError> {
    let reply: Reply = Ok(Done {
        taken: 1,
        made: 0,
        number: 0,
        text: None,
    });
    let spare = Box::new(alloc, Refusal::NoMemory)?;
    Ok(NewEntry {
        event: Kept::of(alloc, event)?.ok_or(AllocError)?,
        verdicts: Vec::new(alloc),
        acts: Vec::new(alloc),
        reply: KeptReply::of(&reply, spare),
    })
}

/// The event of a place: keys of a client with the place's number.
pub fn keys(place: usize) -> Event<'static> {
    Event::Keys {
        client: (place % 1000) as u32,
        bytes: b"a",
    }
}

/// The entry of an event.
pub fn entry(alloc: Global, event: Event<'_>) -> Result<TrailEntry, AllocError> {
    Ok(new_entry(alloc, event)?.into_entry())
}

/// A copy of an entry whose event was done, if there is memory.
pub fn copy_of(alloc: Global, entry: &TrailEntry) -> Option<NewEntry> {
    let finished = entry.ending().ok()?;
    let reply: Reply = Ok(Done {
        taken: finished.taken,
        made: finished.made,
        number: finished.number,
        text: None,
    });
    let spare = Box::new(alloc, Refusal::NoMemory).ok()?;
    Some(NewEntry {
        event: entry.event().copy(alloc).ok()?,
        verdicts: entry.verdicts().to_vec(alloc).ok()?,
        acts: entry.acts().to_vec(alloc).ok()?,
        reply: KeptReply::of(&reply, spare),
    })
}

/// A trail of `count` keys.
pub fn trail(alloc: Global, count: usize) -> Result<EntryList, AllocError> {
    let mut list = EntryList::new(alloc)?;
    for place in 0..count.min(10_000) {
        let next = new_entry(alloc, keys(place))?;
        list.reserve()?;
        list.push(next);
    }
    Ok(list)
}
