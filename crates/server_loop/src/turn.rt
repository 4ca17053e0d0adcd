//! How a loop's connections have their turn.

ghost use Rattle.std.specs.Prelude.{◌≡◌, nat_le, nat_lt};
ghost use Rattle.slab.specs.Slab.{get};
ghost use Rattle.server_steps.specs.Asking.{is_due_at};
ghost use Rattle.server_steps.specs.Meaning.{role_at};
ghost use Rattle.server_loop.specs.Serving.{Obeys, ObeysNext, ObeysSome, ReadsAll, Serves, ServesAfter};
ghost use Rattle.server_loop.specs.Serving.{ServesAll, ServesOnce, ServesOther, ServesWindow, Steps};
ghost use Rattle.server_loop.specs.Submitting.{state_of};
ghost use Rattle.server_loop.specs.Turning.{EndsTurn};
ghost use Rattle.server_loop.specs.Typing.{millis_of};
ghost use Rattle.server_loop.specs.Walking.{Repeats};

use crate::own::Loop;
use server_connections::{Arrival, PIECE, PeerStream, Role, SessionSeat, each_awake};
use server_steps::{
    Gate, Progress, Reads, Writes, drains, go_on, has_asked, is_due_again, is_faulty, is_much,
    is_window, may_print, next_asked, put_back, read, role_at,
};
use std::sync::Wait;

// A connection is read at most this many times before the others have their turn.
const READS: usize = 16;

// At most this many messages of a connection, or steps of one, are done before the others have their turn.
const STEPS: usize = 8;

/// At most this many bytes of windows' output are done in a turn, but the last step may go beyond.
pub(crate) const OUTPUT: usize = 4 * PIECE;

impl<S: PeerStream + Drop, G: Gate + Drop, J: SessionSeat + Drop> Loop<S, G, J> {
    // Does the message of a connection that comes next, or a step of it, if there is one.
    fn obey_next(&mut self, rt: &impl Wait, key: usize) -> Option<Progress>
        ensures { ObeysNext J.SessionSeat key (state_of self.old) result (state_of self.new) }
    {
        let Some(mut asked) = next_asked(&mut self.connections, key) else {
            return None;
        };
        let progress = self.obey(rt, key, &mut asked);
        put_back(&mut self.connections, key, asked, progress);
        Some(progress)
    }

    // Does what a connection asked for first, or a step of it: a client's keys and sizes come before its messages.
    fn obey_first(&mut self, rt: &impl Wait, key: usize) -> Option<Progress>
        ensures { Obeys J.SessionSeat (role_at (get self.old.connections.peers key)) (millis_of self.old.now) key
            (state_of self.old) result (state_of self.new) }
    {
        match role_at(&self.connections, key) {
            Role::Client(client) => match self.typed(rt, key, client) {
                Some(progress) => Some(progress),
                None => self.obey_next(rt, key),
            },
            Role::Stranger => self.obey_next(rt, key),
            Role::Window(_) => self.obey_next(rt, key),
        }
    }

    // Does something that a connection asked for, if it may be done now. Returns whether to go on.
    fn obey_step(&mut self, rt: &impl Wait, key: usize) -> bool
        ensures { Steps J.SessionSeat key (state_of self.old) result (state_of self.new) }
    {
        let waits = self.reading.output_left == 0 && is_window(&self.connections, key);
        if waits {
            return false;
        }
        let progress = self.obey_first(rt, key);
        go_on(&mut self.connections, key, progress)
    }

    // Does so much of what a connection asked for that the others have their turn.
    fn obey_steps(&mut self, rt: &impl Wait, key: usize)
        ensures { Repeats (Steps J.SessionSeat key) 8 (state_of self.old) (state_of self.new) }
    {
        'steps: for _ in 0..STEPS {
            if !self.obey_step(rt, key) {
                return;
            }
        }
    }

    // Does some of what a connection asked for. Returns whether all of it is done.
    fn obey_some(&mut self, rt: &impl Wait, key: usize) -> bool
        ensures { ObeysSome J.SessionSeat key (state_of self.old) result (state_of self.new) }
    {
        self.obey_steps(rt, key);
        let faulty = is_faulty(&self.connections, key);
        self.fault_if(rt, key, faulty);
        let is_done = !has_asked(&self.connections, key);
        let is_much = is_much(&self.connections, key, is_done, self.reading.output_left);
        self.reading.has_much |= is_much;
        is_done
    }

    // Does what a read brought. Returns whether to read on.
    fn serve_after(&mut self, rt: &impl Wait, key: usize, arrival: Arrival) -> bool
        ensures { ServesAfter J.SessionSeat arrival key (state_of self.old) result (state_of self.new) }
    {
        match arrival {
            Arrival::Some => self.obey_some(rt, key),
            Arrival::Much => {
                // It isn't a flood if it is dropped.
                self.reading.has_much |= !drains(&self.connections, key);
                let _ = self.obey_some(rt, key);
                false
            }
            Arrival::Nothing => {
                if !has_asked(&self.connections, key) {
                    return false;
                }
                self.obey_some(rt, key)
            }
            Arrival::End => {
                self.lose(rt, key);
                false
            }
        }
    }

    // Reads a connection once all that it asked for is done or is late, and does some of it. Returns whether to go on.
    fn serve_once(&mut self, rt: &impl Wait, key: usize) -> bool
        ensures { ServesOnce J.SessionSeat S.PeerStream key (state_of self.old) result (state_of self.new) }
    {
        let now = self.millis();
        let buffer = self.reading.buffer.as_mut_slice();
        let arrival = read(&mut self.connections, key, buffer, now);
        self.serve_after(rt, key, arrival)
    }

    fn serve_often(&mut self, rt: &impl Wait, key: usize)
        ensures { Repeats (ServesOnce J.SessionSeat S.PeerStream key) 16 (state_of self.old) (state_of self.new) }
    {
        'reads: for _ in 0..READS {
            if !self.serve_once(rt, key) {
                return;
            }
        }
    }

    // A connection has its turn, if it has something to read or to do. Returns whether it has.
    fn serve(&mut self, rt: &impl Wait, key: usize) -> bool
        ensures due { result ≡ is_due_at (get self.old.connections.peers key) }
        ensures serves { Serves J.SessionSeat S.PeerStream key (state_of self.old) (state_of self.new) }
    {
        if !is_due_again(&mut self.connections, key) {
            return false;
        }
        self.serve_often(rt, key);
        true
    }

    // A client or a stranger has its turn.
    fn serve_other(&mut self, rt: &impl Wait, key: usize)
        ensures { ServesOther J.SessionSeat S.PeerStream key (state_of self.old) (state_of self.new) }
    {
        if is_window(&self.connections, key) {
            return;
        }
        let _ = self.serve(rt, key);
    }

    // A window has its turn if it is its turn by now, and if output may still be done.
    fn serve_window(&mut self, rt: &impl Wait, key: usize, is_next: bool)
        ensures { ServesWindow J.SessionSeat S.PeerStream is_next key (state_of self.old) (state_of self.new) }
    {
        if !may_print(&self.connections, key, is_next, self.reading.output_left) {
            return;
        }
        if self.serve(rt, key) {
            self.reading.next = key.saturating_add(1);
        }
    }

    // All connections have their turn, keys before output. Windows take turns, and wait while a crowd is drawn.
    fn serve_all(&mut self, rt: &impl Wait)
        ensures { ServesAll J.SessionSeat S.PeerStream (state_of self.old) (state_of self.new) }
    {
        each_awake(
            self,
            |own, key|
                ensures { ServesOther J.SessionSeat S.PeerStream key (state_of own.old) (state_of own.new) }
            { own.serve_other(rt, key) },
        );
        if self.draws.from.is_some() {
            return;
        }
        self.reading.output_left = OUTPUT;
        let first = self.reading.next;
        each_awake(
            self,
            |own, key|
                ensures { ServesWindow J.SessionSeat S.PeerStream (nat_le first key) key
                    (state_of own.old) (state_of own.new) }
            { own.serve_window(rt, key, first <= key) },
        );
        each_awake(
            self,
            |own, key|
                ensures { ServesWindow J.SessionSeat S.PeerStream (nat_lt key first) key
                    (state_of own.old) (state_of own.new) }
            { own.serve_window(rt, key, key < first) },
        );
    }

    /// Reads what is there to be read and does it, so much of each connection that the others have their turn.
    pub fn read_all(&mut self, rt: &impl Wait) -> Reads
        ensures { ReadsAll J.SessionSeat S.PeerStream (state_of self.old) result (state_of self.new) }
    {
        self.reading.has_typed = false;
        self.reading.has_much = false;
        self.serve_all(rt);
        Reads {
            has_typed: self.reading.has_typed,
            is_much: self.reading.has_much,
            submitted: self.take_submitted(),
        }
    }

    /// Ends a turn: hands out what came of it, writes, asks for draws unless they are held, and lets
    /// go what is closed. It goes on with a crowd's draws that were begun, even if draws are held.
    pub fn end_turn(&mut self, rt: &impl Wait, holds_draws: bool) -> Writes
        ensures { EndsTurn J.SessionSeat S.PeerStream holds_draws (state_of self.old) result (state_of self.new) }
    {
        self.has_refused = false;
        self.draws.made = 0;
        self.tell_all_leaving(rt);
        self.hand_out(rt);
        self.drop_all_typed(rt);
        self.write_all(rt);
        self.draw_all(rt, holds_draws);
        self.drop_laggards(rt);
        self.sweep(rt);
        Writes {
            drawn: self.draws.made,
            submitted: self.take_submitted(),
            end: self.end(),
        }
    }
}
