//! How a turn begins: what came is looked at, and connections are taken in.

ghost use Rattle.std.specs.Prelude.{◌≡◌};
ghost use Rattle.server_connections.specs.Changing.{changed};
ghost use Rattle.server_turns.specs.Beginning.{AcceptsIf, AdmitsAll, AdmitsNext, Begins, Frees, Sleeps, Sorts};
ghost use Rattle.server_turns.specs.Beginning.{TakesEvent, TakesIn, TakesTime, Wires, noted};
ghost use Rattle.server_turns.specs.Course.{course_of};
ghost use Rattle.server_turns.specs.Marks.{marked, readied, roomed};

use crate::around::{Around, Came};
use crate::turner::Turner;
use crate::waits::{most_new, sleep_for, wants};
use server_connections::{Connections, Peer, PeerStream, SessionSeat};
use server_steps::Gate;
use std::io;
use std::sync::Wait;
use std::time::{Clock, Duration};

// There may be something to read.
fn mark_ready<S: Drop>(peer: &mut Peer<S>, is_ready: bool, has_hung_up: bool)
    ensures { peer.new ≡ readied is_ready has_hung_up peer.old }
{
    if is_ready {
        peer.mark_ready(has_hung_up);
    }
}

// It may take bytes again.
fn mark_room<S: Drop>(peer: &mut Peer<S>, has_room: bool)
    ensures { peer.new ≡ roomed has_room peer.old }
{
    if has_room {
        peer.mark_room();
    }
}

// Notes what came to a connection.
fn mark<S: Drop>(
    connections: &mut Connections<S>,
    key: usize,
    is_readable: bool,
    is_writable: bool,
    has_hung_up: bool,
)
    ensures { connections.new ≡ changed (marked is_readable is_writable has_hung_up) key connections.old }
{
    let Some(peer) = connections.touch(key) else {
        return;
    };
    mark_ready(peer, is_readable || has_hung_up, has_hung_up);
    mark_room(peer, is_writable || has_hung_up);
}

impl<S: PeerStream + Drop, G: Gate + Drop, J: SessionSeat + Drop, A: Around<S>> Turner<S, G, J, A> {
    // Waits until the loop has something to do.
    fn sleep(&mut self) -> io::Result<()>
        ensures { Sleeps A.does (course_of self.old) result (course_of self.new) }
    {
        let (works, retries, waits) = wants(self.own.pending());
        let queue = self.around.backlog();
        let (works, retries) = (works || queue.has_more, retries || queue.is_stuck);
        let paced = self
            .pace
            .longest_sleep(self.around.is_flooded(), self.own.now);
        let longest = sleep_for(works, retries, waits, paced);
        self.around.wait(longest)
    }

    // Takes the turn's time, if there is a clock.
    fn take_time<R: Clock>(&mut self, rt: &R) -> Option<Duration>
        ensures { TakesTime A.does (course_of self.old) result (course_of self.new) }
    {
        let now = self.around.now(rt);
        self.own.now = now.unwrap_or(self.own.now);
        now
    }

    // Notes something that came.
    fn note(&mut self, came: Came)
        ensures { course_of self.new ≡ noted came (course_of self.old) }
    {
        match came {
            Came::Wake => {}
            Came::Listener => self.is_asked = true,
            Came::Peer {
                key,
                is_readable,
                is_writable,
                has_hung_up,
            } => {
                let connections = &mut self.own.connections;
                mark(connections, key, is_readable, is_writable, has_hung_up);
            }
        }
    }

    // Notes the next thing that came. The answer is false if there is none.
    fn take_event(&mut self) -> bool
        ensures { TakesEvent A.does (course_of self.old) result (course_of self.new) }
    {
        let Some(came) = self.around.next_event() else {
            return false;
        };
        self.note(came);
        true
    }

    // Notes all that came.
    fn sort(&mut self)
        ensures { Sorts A.does (course_of self.old) (course_of self.new) }
    {
        self.is_asked = false;
        'events: for _ in 0..u64::MAX {
            if !self.take_event() {
                return;
            }
        }
    }

    // Hands out the connections that wait, if this loop does so.
    fn accept_if(&mut self, rt: &impl Wait) -> io::Result<()>
        ensures { AcceptsIf A.does (course_of self.old) result (course_of self.new) }
    {
        let queue = self.around.backlog();
        if self.is_asked || queue.has_more || queue.is_stuck {
            return self.around.accept(rt);
        }
        Ok(())
    }

    // If the system grants no more descriptors, the connection whose first message is waited for longest goes.
    fn free_if_stuck(&mut self, rt: &impl Wait)
        ensures { Frees J.SessionSeat S.PeerStream A.does (course_of self.old) (course_of self.new) }
    {
        if self.around.backlog().is_stuck {
            self.own.let_oldest_go(rt, 1);
        }
    }

    // Takes in the connection that was handed last. One that can't be taken in is closed.
    fn wire(&mut self, is_extra: bool)
        ensures { Wires A.wires is_extra (course_of self.old) (course_of self.new) }
    {
        let key = self.own.connections.vacant_key();
        if let Some(stream) = self.around.wire(key) {
            let _ = self.own.connections.admit(stream, is_extra);
        }
    }

    // Takes in the next connection that was handed to the loop. The answer is false if there is none.
    fn admit_next(&mut self, rt: &impl Wait) -> bool
        ensures { AdmitsNext J.SessionSeat S.PeerStream A.does A.wires (course_of self.old) result
            (course_of self.new) }
    {
        let Some(is_extra) = self.around.next_handed(rt) else {
            return false;
        };
        self.own.let_oldest_go(rt, most_new(self.loops, is_extra));
        self.wire(is_extra);
        true
    }

    // Takes in the connections that were handed to the loop.
    fn admit_all(&mut self, rt: &impl Wait)
        ensures { AdmitsAll J.SessionSeat S.PeerStream A.does A.wires (course_of self.old) (course_of self.new) }
    {
        'handed: for _ in 0..u64::MAX {
            if !self.admit_next(rt) {
                return;
            }
        }
    }

    // Takes in connections: hands out those that wait, and takes those that were handed to the loop. News that
    // came before that are looked at in this turn.
    fn take_in(&mut self, rt: &impl Wait) -> io::Result<()>
        ensures { TakesIn J.SessionSeat S.PeerStream A.does A.wires (course_of self.old) result
            (course_of self.new) }
    {
        if let Err(error) = self.accept_if(rt) {
            return Err(error);
        }
        self.around.take_news();
        self.free_if_stuck(rt);
        self.admit_all(rt);
        self.around.note_peers(self.own.connections.len());
        Ok(())
    }

    /// Waits until the loop has something to do, and begins a turn: marks what is to be read, and takes
    /// connections in. Returns the turn's time, if there is a clock.
    pub(crate) fn begin<R: Clock + Wait>(&mut self, rt: &R) -> io::Result<Option<Duration>>
        ensures { Begins J.SessionSeat S.PeerStream A.does A.wires (course_of self.old) result
            (course_of self.new) }
    {
        if let Err(error) = self.sleep() {
            return Err(error);
        }
        let now = self.take_time(rt);
        self.sort();
        match self.take_in(rt) {
            Ok(()) => Ok(now),
            Err(error) => Err(error),
        }
    }
}
