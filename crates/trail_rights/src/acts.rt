//! The bits that are asked about, and the acts of entries that tell something of them, with their marks.

ghost use Rattle.std.specs.Prelude.{◌≡◌, ◌∷◌, ◌++◌, if◌then◌else◌, OnOk, []};
ghost use Rattle.trail_lines.specs.Entries.{said};
ghost use Rattle.trail_rights.specs.Marks.{marked_by, marked_with, giver_among, mark_among};
ghost use Rattle.trail_rights.specs.Keeping.{HasKept, Keeps, tells, asks};

use crate::decider::is_same;
use acl::{Act, Bit, Object, UserId};
use hub::{Kept, follow_clients, user_of_client};
use std::alloc::{AllocError, Global};
use trail_lines::EntryLine;

/// The place of an entry, its time in milliseconds since 1970, and the user who gave its event: nobody
/// if a window's program ended.
#[derive(Clone, Copy)]
pub struct Mark {
    pub place: u64,
    pub ms: u64,
    pub giver: Option<UserId>,
}

/// The user who gives an event, when these clients are attached.
fn giver_among(clients: &[(u32, UserId)], event: &Kept) -> Option<UserId>
    ensures { result ≡ giver_among clients.now event.now }
{
    match event {
        Kept::Attach { user, .. } => Some(*user),
        Kept::Command { user, .. } => Some(*user),
        Kept::Open { user, .. } => Some(*user),
        Kept::Detach { client } => user_of_client(clients, *client),
        Kept::Keys { client } => user_of_client(clients, *client),
        Kept::Closed { .. } => None,
    }
}

/// The mark of an entry's acts, when these clients are attached.
pub fn mark_among(clients: &[(u32, UserId)], line: &EntryLine) -> Mark
    ensures { result ≡ mark_among clients.now (said line.now) }
{
    Mark {
        place: line.place,
        ms: line.ms,
        giver: giver_among(clients, line.entry.event()),
    }
}

/// The bits that are asked about after the last entry, by what decides them.
#[derive(Clone, Copy)]
pub enum AskedBits {
    /// None: only settings are asked about, and what the tables of rights say.
    Nothing,
    /// A bit on an object.
    On { bit: Bit, object: Object },
    /// A bit on every window.
    Windows { bit: Bit },
    /// A bit on every command.
    Commands { bit: Bit },
}

impl AskedBits {
    /// Whether the bit on the object is asked about.
    pub fn asks(self, bit: Bit, object: Object) -> bool
        ensures { result ≡ asks self bit object }
    {
        match (self, object) {
            (AskedBits::Nothing, _) => false,
            (
                AskedBits::On {
                    bit: asked,
                    object: place,
                },
                _,
            ) => bit == asked && is_same(object, place),
            (AskedBits::Windows { bit: asked }, Object::Window(_)) => bit == asked,
            (AskedBits::Windows { .. }, Object::Command(_)) => false,
            (AskedBits::Commands { bit: asked }, Object::Command(_)) => bit == asked,
            (AskedBits::Commands { .. }, Object::Window(_)) => false,
        }
    }

    /// Whether an act may open or close a window, give a setting its value, or decide an asked bit.
    pub fn tells(self, act: &Act) -> bool
        ensures { result ≡ tells self act.now }
    {
        match *act {
            Act::Set { bit, object, .. } => self.asks(bit, object),
            Act::Known { .. } => true,
            Act::Gone { .. } => true,
            Act::Masked { .. } => true,
            Act::Preset { .. } => true,
            Act::Opened { .. } => true,
            Act::Closed { .. } => true,
            _ => false,
        }
    }
}

/// The acts of entries that tell something, in their order, with their marks, and the clients after all acts.
#[derive(Drop)]
pub struct MarkedActs {
    asked: AskedBits,
    clients: Vec<(u32, UserId)>,
    marked: Vec<(Mark, Act)>,
}

/// Appends an act with its mark, if it tells something.
fn push_told(
    asked: AskedBits,
    mark: Mark,
    act: &Act,
    marked: &mut Vec<(Mark, Act)>,
) -> Result<(), AllocError>
    ensures { OnOk result (marked.new.items
        ≡ marked.old.items ++ (if tells asked act.now then (mark, act.now) ∷ [] else [])) }
{
    if asked.tells(act) {
        marked.push((mark, *act))?;
    }
    Ok(())
}

impl MarkedActs {
    /// Before the first act.
    pub fn new(alloc: Global, asked: AskedBits) -> MarkedActs
        ensures kept { HasKept result [] }
        ensures asked { result.asked ≡ asked }
    {
        MarkedActs {
            asked,
            clients: Vec::new(alloc),
            marked: Vec::new(alloc),
        }
    }

    /// Follows one act.
    fn add(&mut self, mark: Mark, act: &Act) -> Result<(), AllocError>
        ensures keeps { OnOk result (Keeps self.old self.new (λ marked. (mark, act.now) ∷ marked)) }
        ensures asked { self.new.asked ≡ self.old.asked }
    {
        follow_clients(&mut self.clients, act)?;
        push_told(self.asked, mark, act, &mut self.marked)?;
        Ok(())
    }

    /// Follows acts in order.
    fn add_all(&mut self, mark: Mark, acts: &[Act]) -> Result<(), AllocError>
        ensures keeps { OnOk result (Keeps self.old self.new (λ marked. marked_by mark marked acts.now)) }
        ensures asked { self.new.asked ≡ self.old.asked }
    {
        for act in acts {
            self.add(mark, act)?;
        }
        Ok(())
    }

    /// Follows the acts of the next entry.
    pub fn take(&mut self, line: &EntryLine) -> Result<(), AllocError>
        ensures keeps { OnOk result (Keeps self.old self.new (λ marked. marked_with marked (said line.now))) }
        ensures asked { self.new.asked ≡ self.old.asked }
    {
        let mark = mark_among(&self.clients, line);
        self.add_all(mark, line.entry.acts())?;
        Ok(())
    }

    /// What is asked about.
    pub fn asked(&self) -> AskedBits
        ensures { result ≡ self.now.asked }
    {
        self.asked
    }

    /// The acts that are kept, in their order, with their marks.
    pub fn marked(&self) -> &[(Mark, Act)]
        ensures { result.now ≡ self.now.marked.items }
    {
        self.marked.as_slice()
    }
}
