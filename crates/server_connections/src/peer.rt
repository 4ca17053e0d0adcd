//! One connection.

ghost use Rattle.std.specs.Prelude.{◌≡◌, ◌↔◌, ◌<◌, ◌&&◌, ◌||◌, IfOk, IsTrue, Some, false, true, length, not};
ghost use Rattle.std.specs.Prelude.{option_map};
ghost use Rattle.std.specs.Result.{result_ok};
ghost use Rattle.server_connections.specs.Peers.{IsNewcomer, awaits, has_more, is_at_rest, is_awaited, is_closed};
ghost use Rattle.server_connections.specs.Peers.{is_done, is_due, is_new, is_open, is_stranger, listens};
ghost use Rattle.server_connections.specs.Life.{dismissed, given_up, gone_guest, left, parting};
ghost use Rattle.server_connections.specs.Life.{wanted_draw, without_guest};
ghost use Rattle.server_connections.specs.Streaming.{Gathers};
ghost use Rattle.server_inbox.specs.Asking.{is_empty};
ghost use Rattle.server_typing.specs.Typed.{untyped};
ghost use Rattle.session.specs.Trace.{happening};

use attach_proto::{Reader, Side, Why};
use server_inbox::{Inbox, Typeahead};
use server_seat::Guest;
use server_sending::{Turn, gone_frame};
use server_users::Shown;
use session::Event;
use std::alloc::{AllocError, Global};
use std::time::Duration;

// A connection for which more bytes wait is told to go.
const MOST_UNSENT: usize = 1_048_576;

/// What a connection is to the session. Clients and windows are named by their serials.
#[derive(Clone, Copy, Debug, PartialEq, Eq)]
pub enum Role {
    Stranger,
    Client(u32),
    Window(u32),
}

impl Role {
    pub fn is_stranger(self) -> bool
        ensures { result ≡ is_stranger self }
    {
        matches!(self, Role::Stranger)
    }

    /// The event by which it leaves the session. A stranger isn't part of it.
    pub fn parting<'a>(self) -> Option<Event<'a>>
        ensures { option_map happening result ≡ parting self }
    {
        match self {
            Role::Stranger => None,
            Role::Client(client) => Some(Event::Detach { client }),
            Role::Window(window) => Some(Event::Closed { window }),
        }
    }
}

/// How far a connection is on its way.
#[derive(Clone, Copy, Debug, PartialEq, Eq)]
pub enum Stage {
    Open,
    /// It asked to go, and isn't read any more.
    Leaving,
    /// Its last frame was put: it is closed once it has read all.
    Ending,
    /// Its last frame was put: it is closed once it takes no more for now.
    Cut,
    /// Nothing is read or written any more.
    Closed,
}

impl Stage {
    /// Whether it is read, and sent what the session says.
    pub fn is_open(self) -> bool
        ensures { result ≡ is_open self }
    {
        matches!(self, Stage::Open)
    }

    /// Whether it is sent what the session says.
    pub fn listens(self) -> bool
        ensures { result ≡ listens self }
    {
        matches!(self, Stage::Open | Stage::Leaving)
    }

    pub fn is_closed(self) -> bool
        ensures { result ≡ is_closed self }
    {
        matches!(self, Stage::Closed)
    }
}

/// What a connection can wait for.
#[derive(Clone, Copy)]
pub enum Awaits {
    /// Its turn: it has something to read or to do, and no event will tell of it.
    Work,
    /// Leave for what it asked (`Peer::is_held`).
    Ration,
    /// A look at the users' file, which nobody asked for yet.
    Look,
    /// Its first message, or that it reads its last frame, for at most 10 seconds.
    End,
}

/// One connection.
#[derive(Drop)]
pub struct Peer<S> {
    pub stream: Option<S>,
    pub reader: Reader,
    pub turn: Turn,
    pub role: Role,
    /// The client or window that left, and of which the session isn't told yet.
    pub leaves: Role,
    pub stage: Stage,
    /// How many connections of its loop came before it.
    pub number: u64,
    /// Its user, once it was let in.
    pub user: Option<Shown>,
    /// It was taken in though no more are to stay.
    pub is_extra: bool,
    /// There may be something to read.
    pub has_more: bool,
    /// Its other end was closed.
    pub has_hung_up: bool,
    /// It took no more bytes, and no event told of room since.
    pub is_full: bool,
    pub inbox: Inbox,
    /// The window into which its next keys go, if they do and that is known.
    pub types_into: Option<u32>,
    /// The window of which all loops were told that it is full.
    pub(crate) full: Option<u32>,
    /// What it asked for waits until its user may cause more entries, until the users' file was looked
    /// at, or until its size may change again.
    pub is_held: bool,
    /// The number of the look at the users' file that its first message waits for.
    pub look: Option<u64>,
    /// The guest that it is, until the guest's end was told.
    pub guest: Option<Guest>,
    // Why it was told to go.
    why: Option<Why>,
    // Since when its first message, or the end of its reading, is waited for.
    pub(crate) awaited: Option<Duration>,
}

impl<S: Drop> Peer<S> {
    /// A new connection, which may have sent something already. The room for its last frame is
    /// reserved.
    #[tactic(auto, using(crate::proofs::Standing::newly))]
    pub fn new(alloc: Global, stream: S, number: u64, is_extra: bool) -> Result<Peer<S>, AllocError>
        ensures { IfOk result (IsNewcomer stream number is_extra) }
    {
        Ok(Peer {
            stream: Some(stream),
            reader: Reader::new(alloc, Side::Server),
            turn: Turn::new(alloc)?,
            role: Role::Stranger,
            leaves: Role::Stranger,
            stage: Stage::Open,
            number,
            user: None,
            is_extra,
            has_more: true,
            has_hung_up: false,
            is_full: false,
            inbox: Inbox::new(alloc),
            types_into: None,
            full: None,
            is_held: false,
            look: None,
            guest: None,
            why: None,
            awaited: None,
        })
    }

    /// Puts its last frame, GONE, which takes no memory.
    pub fn end(&mut self, why: Why)
        ensures { self.new ≡ dismissed why self.old }
    {
        self.turn.end(gone_frame(why));
        self.why = Some(why);
        self.stage = Stage::Ending;
        self.awaited = None;
    }

    /// Ends its role: the session is to be told.
    pub fn leave(&mut self)
        ensures { self.new ≡ left self.old }
    {
        if !self.role.is_stranger() {
            self.leaves = self.role;
            self.role = Role::Stranger;
        }
    }

    /// Gives it up, with all that still waits for it.
    pub fn close(&mut self)
        ensures { self.new ≡ given_up self.old }
    {
        self.stream = None;
        self.stage = Stage::Closed;
        self.leave();
    }

    /// Whether there may be something to read. After bytes that are no frame there is nothing.
    pub fn has_more(&self) -> bool
        ensures { result ≡ has_more self.now }
    {
        self.has_more && !self.inbox.is_broken()
    }

    /// There is something to read, and perhaps its other end was closed.
    pub fn mark_ready(&mut self, has_hung_up: bool)
        ensures { self.new ≡ record self.old {
          has_more = true;
          has_hung_up = self.old.has_hung_up || has_hung_up;
        } }
    {
        self.has_more = true;
        self.has_hung_up |= has_hung_up;
    }

    /// It may take bytes again.
    pub fn mark_room(&mut self)
        ensures { self.new ≡ record self.old { is_full = false } }
    {
        self.is_full = false;
    }

    /// Whether messages of it aren't done yet.
    pub fn has_asked(&self) -> bool
        ensures { result ≡ not (is_empty self.now.inbox) }
    {
        !self.inbox.is_empty()
    }

    /// Takes in keys and sizes that come next, at this time in milliseconds. Returns whether no more are
    /// there.
    pub fn gather(&mut self, now: u64) -> Result<bool, AllocError>
        ensures { Gathers now self.old (result_ok result) self.new }
    {
        self.inbox.gather(&mut self.reader, now)
    }

    /// Takes out the keys that wait, to be put back when some of them were judged.
    pub fn take_keys(&mut self, alloc: Global) -> Typeahead
        ensures keys { result ≡ self.old.inbox.typed }
        ensures rest { self.new ≡ record self.old {
          inbox = record self.old.inbox { typed = untyped };
        } }
    {
        std::mem::replace(&mut self.inbox.typed, Typeahead::new(alloc))
    }

    /// Whether it is open and sent bytes that are no frame, and all messages before them are done.
    pub fn is_faulty(&self) -> bool
        ensures { result ≡ (is_open self.now.stage
            && (self.now.inbox.is_broken && is_empty self.now.inbox)) }
    {
        self.stage.is_open() && self.inbox.is_faulty()
    }

    /// It becomes a guest, and this to the session.
    pub fn join(&mut self, role: Role, guest: Guest)
        ensures { self.new ≡ record self.old { role = role; guest = Some guest } }
    {
        self.role = role;
        self.guest = Some(guest);
    }

    /// Whether it is sent what the session says.
    pub fn listens(&self) -> bool
        ensures { result ≡ listens self.now.stage }
    {
        self.stage.listens()
    }

    /// Takes its guest, and why it was told to go, once it goes.
    pub fn farewell(&mut self) -> Option<(Guest, Option<Why>)>
        ensures guest { result ≡ gone_guest self.old }
        ensures once { self.new ≡ without_guest self.old }
    {
        if self.listens() {
            return None;
        }
        let guest = self.guest.take()?;
        Some((guest, self.why))
    }

    /// Whether its first message didn't come, or isn't done yet.
    pub fn is_new(&self) -> bool
        ensures { result ≡ is_new self.now }
    {
        self.role.is_stranger() && self.stage.is_open()
    }

    /// Whether it has something to read or to do, though no event will tell of it.
    pub fn is_due(&self) -> bool
        ensures { result ≡ is_due self.now }
    {
        let has_work = self.has_more() || !self.inbox.is_empty();
        has_work && self.stage.is_open() && !self.is_held
    }

    /// Whether it has something to read or to do. What was held is tried again.
    pub fn is_due_again(&mut self) -> bool
        ensures again { self.new ≡ record self.old { is_held = false } }
        ensures due { result ≡ is_due self.new }
    {
        self.is_held = false;
        self.is_due()
    }

    /// The client whose draw is to be asked for, if it is one.
    pub fn wants_draw(&self) -> Option<u32>
        ensures { result ≡ wanted_draw self.now }
    {
        match self.role {
            Role::Client(client) if self.stage.is_open() && self.turn.wants_draw() => Some(client),
            _ => None,
        }
    }

    /// Whether too many bytes wait for it.
    pub fn is_laggard(&self) -> bool
        ensures { IsTrue result
            ↔ ((listens self.now.stage ≡ true) × (1048576 < length self.now.turn.unsent)) }
    {
        self.listens() && self.turn.unsent() > MOST_UNSENT
    }

    /// Whether it waits for this.
    pub fn awaits(&self, what: Awaits) -> bool
        ensures { result ≡ awaits what self.now }
    {
        match what {
            Awaits::Work => self.is_due(),
            Awaits::Ration => self.is_held,
            Awaits::Look => self.is_new() && self.is_held && self.look.is_none(),
            Awaits::End => self.is_awaited(),
        }
    }

    /// Whether its first message is waited for, or that it reads its last frame.
    pub fn is_awaited(&self) -> bool
        ensures { result ≡ is_awaited self.now }
    {
        match self.stage {
            Stage::Open => self.role.is_stranger() && self.inbox.is_empty(),
            Stage::Ending => true,
            Stage::Leaving | Stage::Cut | Stage::Closed => false,
        }
    }

    /// Whether nothing is to be done with it until something comes from it or is put into it.
    pub fn is_at_rest(&self) -> bool
        ensures { result ≡ is_at_rest self.now }
    {
        let has_work = self.has_more() || self.is_held || !self.inbox.is_empty();
        let is_guest = !self.role.is_stranger() && self.leaves.is_stranger();
        is_guest && self.stage.is_open() && !has_work && self.turn.unsent() == 0
    }

    /// Whether nothing is left to do with it: it is closed, and the session knows.
    pub fn is_done(&self) -> bool
        ensures { result ≡ is_done self.now }
    {
        self.stage.is_closed() && self.leaves.is_stranger()
    }
}
