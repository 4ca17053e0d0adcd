//! The answer to a submitted event.

ghost use Rattle.std.specs.Prelude.{◌≡◌};
ghost use Rattle.std.specs.Option.{option_copied};
ghost use Rattle.session.specs.Trace.{happening};
ghost use Rattle.hub_ledger.specs.declared.ledger.answer.HubFault.TheVariants.{NoMemory as OfMemory};

use acl::UserId;
use hub_record::TrailEntry;
use session::{Event, Reply};
use std::alloc::{AllocError, AllocFailed};
use std::marker::Model;
use thiserror::Error;

/// Shows that a trail was full. Only a ledger makes it.
#[derive(Clone, Copy, PartialEq, Eq, Debug)]
pub struct Full {
    pub(crate) _made: (),
}

/// Shows that a seat was of another hub. Only a ledger makes it.
#[derive(Clone, Copy, PartialEq, Eq, Debug)]
pub struct Foreign {
    pub(crate) _made: (),
}

/// Why a submitted event wasn't taken.
#[derive(Clone, Copy, PartialEq, Eq, Debug, Error)]
pub enum HubFault {
    /// The event would write an entry, and the trail has 4,194,304 entries already.
    #[error("the trail is full")]
    TrailFull(Full),
    #[error("out of memory")]
    NoMemory,
    /// The event would write an entry, and the seat has a receipt whose place isn't below the
    /// trail's length.
    #[error("the seat is of another hub")]
    Strange(Foreign),
}

impl HubFault {
    ghost use Rattle.std.specs.Prelude.{◌≡◌};
    ghost use Rattle.hub_ledger.specs.Faults.{number_of_fault};

    /// The fault's number, 1 to 3.
    pub fn number(self) -> u8
        ensures { result ≡ number_of_fault self }
    {
        match self {
            HubFault::TrailFull(_) => 1,
            HubFault::NoMemory => 2,
            HubFault::Strange(_) => 3,
        }
    }
}

impl From<AllocError> for HubFault {
    ghost from_gives = { λ _ fault. fault ≡ OfMemory };

    fn from(_e: AllocError) -> HubFault {
        HubFault::NoMemory
    }
}

impl<T: Drop> From<AllocFailed<T>> for HubFault {
    ghost from_gives = { λ _ fault. fault ≡ OfMemory };

    fn from(_e: AllocFailed<T>) -> HubFault {
        HubFault::NoMemory
    }
}

/// The answer to one submitted event. Only a submit makes one, and nothing copies it.
#[derive(Drop)]
pub struct Answer<'a> {
    pub(super) event: Event<'a>,
    pub(super) reply: Reply,
    pub(super) typed: Option<u32>,
    pub(super) place: Option<usize>,
    pub(super) checks: (Option<bool>, bool),
    pub(super) entry: Option<TrailEntry>,
}

impl<'a> Model for Answer<'a> {
    ghost use Rattle.hub_ledger.specs.Seats.{Told};
    ghost use Rattle.session.specs.Trace.{happening};

    ghost Value = { Told };

    ghost view = { λ a. record {
      event = happening a.event;
      reply = a.reply;
      typed = a.typed;
      place = a.place;
      checks = a.checks.0;
      checks_execute = a.checks.1;
      entry = a.entry;
    } };
}

impl<'a> Answer<'a> {
    /// The event that was submitted.
    pub fn event(&self) -> Event<'a>
        ensures { happening result ≡ self.now.event }
    {
        self.event
    }

    /// The session's reply.
    pub fn reply(&self) -> &Reply
        ensures { result.now ≡ self.now.reply }
    {
        &self.reply
    }

    /// The session's reply, when nothing else of the answer is needed any more.
    pub fn into_reply(self) -> Reply
        ensures { result ≡ self.entry.reply }
    {
        let Answer { reply, .. } = self;
        reply
    }

    /// The window into which the step typed last: by keys, or by a command. `None` if it typed nothing.
    pub fn typed(&self) -> Option<u32>
        ensures { result ≡ self.now.typed }
    {
        self.typed
    }

    /// The place of the entry in the trail, from 0; `None` if the event writes no entry.
    pub fn place(&self) -> Option<usize>
        ensures { result ≡ self.now.place }
    {
        self.place
    }

    /// Whether all checks of the entry passed; `None` if nothing was checked, or if there is no
    /// entry.
    pub fn checks(&self) -> Option<bool>
        ensures { result ≡ self.now.checks }
    {
        self.checks.0
    }

    /// Whether x on a command was among the checks of the entry.
    pub fn checks_execute(&self) -> bool
        ensures { result ≡ self.now.checks_execute }
    {
        self.checks.1
    }

    /// The entry, if the event writes one and the seat asks for entries. Such a seat still gets
    /// `None` if memory for a copy was refused; the step is done nevertheless.
    pub fn entry(&self) -> Option<&TrailEntry>
        ensures { option_copied result ≡ self.now.entry }
    {
        self.entry.as_ref()
    }
}

/// Whether a user may type into a window at a moment. Only a ledger makes it, and nothing copies it.
#[derive(Drop)]
pub struct Ruling {
    pub(super) user: UserId,
    pub(super) window: u32,
    pub(super) may_type: bool,
}

impl Model for Ruling {
    ghost use Rattle.hub_ledger.specs.Seats.{Ruled};

    ghost Value = { Ruled };

    ghost view = { λ r. record { user = r.user; window = r.window; may_type = r.may_type } };
}

impl Ruling {
    /// Whether the user may type.
    pub fn may_type(self) -> bool
        ensures { result ≡ self.may_type }
    {
        let Ruling { may_type, .. } = self;
        may_type
    }
}
