//! One loop: its connections, its seat in the session, and what it still has to do.

ghost use Rattle.std.specs.Prelude.{◌≡◌, [], IfOk};
ghost use Rattle.server_loop.specs.Awaiting.{EndsBy, HasWaiting, IsDue, IsFresh, Pends};
ghost use Rattle.server_loop.specs.Submitting.{state_of};
ghost use Rattle.server_steps.specs.Telling.{with_news};

use crate::turn::OUTPUT;
use server_connections::{Awaits, Connections, HasConnections, News, ServerEnd, SessionSeat};
use server_steps::{Gate, NewsList, Pending, Submitted, full_if};
use server_users::{Rations, Users};
use std::alloc::{AllocError, Global};
use std::time::Duration;

// A read takes at most four of the longest frames. Half as much costs a flood a tenth more time, twice as much a fifth.
const READ_SIZE: usize = 32_768;

// The reads of a turn.
#[derive(Drop)]
pub(crate) struct ReadState {
    pub(crate) buffer: Vec<u8>,
    pub(crate) has_typed: bool,
    pub(crate) has_much: bool,
    // How many bytes of output may still be done in this turn.
    pub(crate) output_left: usize,
    // The key from which windows have their turn.
    pub(crate) next: usize,
}

// The draws that a loop asks for.
#[derive(Clone, Copy)]
pub(crate) struct Drawn {
    // A step other than a draw was made, by any loop, since draws were last asked for.
    pub(crate) is_told: bool,
    // While draws are asked for: the first key that wasn't looked at yet.
    pub(crate) from: Option<usize>,
    // How many were made in this turn.
    pub(crate) made: usize,
}

/// One loop and its connections. It never waits for a peer.
#[derive(Drop)]
pub struct Loop<S, G, J> {
    pub(crate) alloc: Global,
    pub seat: J,
    pub(crate) gate: G,
    pub connections: Connections<S>,
    /// The users who may connect, if the users' file changed since the server started.
    pub users: Option<Users>,
    /// The number of the look at the users' file by which these are known; None if nobody looks.
    pub looked: Option<u64>,
    pub(crate) rations: Rations,
    /// The time of this turn.
    pub now: Duration,
    pub(crate) reading: ReadState,
    pub(crate) submitted: Submitted,
    // A step was submitted since the effects that wait were last taken.
    pub(crate) is_behind: bool,
    // Something was refused for want of memory, and is tried again in the next turn.
    pub(crate) has_refused: bool,
    pub(crate) draws: Drawn,
    // A step other than a draw was made since it was looked who may still type.
    pub(crate) may_have_lost: bool,
    pub(crate) end: Option<ServerEnd>,
    // What is to be told to the log.
    pub(crate) news: NewsList,
}

impl<S, G, J> HasConnections<S> for Loop<S, G, J> {
    ghost held = { λ own. own.connections };

    fn connections(&self) -> &Connections<S> {
        &self.connections
    }
}

impl<S: Drop, G: Gate + Drop, J: SessionSeat + Drop> Loop<S, G, J> {
    /// One of this many loops.
    pub fn new(alloc: Global, seat: J, gate: G, loops: usize) -> Result<Loop<S, G, J>, AllocError>
        ensures { IfOk result (λ own. IsFresh loops seat (state_of own)) }
    {
        Ok(Loop {
            alloc,
            seat,
            gate,
            connections: Connections::new(alloc),
            users: None,
            looked: None,
            rations: Rations::new(alloc, loops),
            now: Duration::ZERO,
            reading: ReadState {
                buffer: vec![in alloc; 0; READ_SIZE]?,
                has_typed: false,
                has_much: false,
                output_left: OUTPUT,
                next: 0,
            },
            submitted: Submitted::NOTHING,
            is_behind: false,
            has_refused: false,
            draws: Drawn {
                is_told: false,
                from: None,
                made: 0,
            },
            may_have_lost: false,
            end: None,
            news: NewsList::new(alloc)?,
        })
    }

    /// The seat, once the loop is over.
    pub fn into_seat(self) -> J
        ensures { result ≡ self.seat }
    {
        self.seat
    }

    /// Whether something is to be done at once, though no event will tell of it.
    pub fn is_due(&self) -> bool
        ensures { IsDue (state_of self.entry.now) result }
    {
        if self.is_behind {
            return true;
        }
        if self.draws.from.is_some() {
            return true;
        }
        self.connections.any_awaits(Awaits::Work)
    }

    /// Whether something is to be tried again soon: there was no memory, or a message has to wait.
    pub fn has_waiting(&self) -> bool
        ensures { HasWaiting (state_of self.entry.now) result }
    {
        if self.has_refused {
            return true;
        }
        self.connections.any_awaits(Awaits::Ration)
    }

    /// What the loop is to do next, if no event comes.
    pub fn pending(&self) -> Pending
        ensures { Pends (state_of self.entry.now) result }
    {
        if self.is_due() {
            Pending::Work
        } else if self.has_waiting() {
            Pending::Retry
        } else if self.connections.any_awaits(Awaits::End) {
            Pending::Patience
        } else {
            Pending::Nothing
        }
    }

    /// Why the server is to end, if it is. It ends as at a full trail once nothing is written to the trail's file.
    pub fn end(&self) -> Option<ServerEnd>
        ensures { EndsBy J.SessionSeat (state_of self.entry.now) result }
    {
        self.end.or(full_if(self.seat.has_stopped()))
    }

    // Puts down what happened, to be told to the log. It is left out if many news wait.
    pub(crate) fn tell(&mut self, news: News)
        ensures { self.new ≡ record self.old { news = with_news news self.old.news } }
    {
        self.news.put(news);
    }

    /// What happened since it was last told, in order.
    pub fn news(&self) -> &[News]
        ensures { result.now ≡ self.entry.now.news }
    {
        self.news.as_slice()
    }

    /// What happened by now was told.
    pub fn note_told(&mut self)
        ensures { self.new ≡ record self.old { news = [] } }
    {
        self.news.clear();
    }
}
