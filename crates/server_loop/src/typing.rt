//! What clients type, and how large their terminals are.

ghost use Rattle.std.specs.Prelude.{◌≡◌};
ghost use Rattle.server_loop.specs.Submitting.{state_of};
ghost use Rattle.server_loop.specs.Typing.{FaultsIf, Judges, MustWait, Resizes, Stops, TellsDropped, Types, millis_of};

use crate::own::Loop;
use server_connections::{PeerStream, Sending, SessionSeat};
use server_steps::{
    Gate, Progress, Target, answer_keys, free_keys, gather, has_keys, hold_keys, idle_at,
    is_judged, is_refused, next_size, take_keys, take_news, target_at, user_at, wants_size,
};
use session::Event;
use std::sync::Wait;

const DROPPED: &str = "keys were dropped: they waited for a second";

impl<S: PeerStream + Drop, G: Gate + Drop, J: SessionSeat + Drop> Loop<S, G, J> {
    // The time of this turn in milliseconds.
    pub(crate) fn millis(&self) -> u64
        ensures { result ≡ millis_of self.entry.now.now }
    {
        u64::try_from(self.now.as_millis()).unwrap_or(u64::MAX)
    }

    // Does what a client's next keys and sizes ask for: a step of them, unless it has to wait. None if there are none.
    pub(crate) fn typed(&mut self, rt: &impl Wait, key: usize, client: u32) -> Option<Progress>
        ensures { Types J.SessionSeat (millis_of self.old.now) key client
            (state_of self.old) result (state_of self.new) }
    {
        let now = self.millis();
        let Ok(gathered) = gather(&mut self.connections, key, now) else {
            self.fault(rt, key);
            return Some(Progress::Done);
        };
        let Some(is_through) = gathered else {
            return None;
        };
        self.resize(rt, key, client, now);
        self.say_dropped(rt, key, now);
        if !has_keys(&self.connections, key) {
            return idle_at(&self.connections, key, is_through);
        }
        // A size that was told before them changes first.
        if wants_size(&self.connections, key) {
            return Some(Progress::Held.unless_more(is_through));
        }
        if self.must_wait(rt, key) {
            return Some(Progress::Held.unless_more(is_through));
        }
        let progress = self.judge(rt, key, client);
        Some(progress.unless_more(is_through))
    }

    // Tells the session the last size that a client told, if it may change now.
    fn resize(&mut self, rt: &impl Wait, key: usize, client: u32, now: u64)
        ensures { Resizes J.SessionSeat now key client (state_of self.old) (state_of self.new) }
    {
        if let Some((rows, columns)) = next_size(&mut self.connections, key, now) {
            let event = Event::Resize {
                client,
                rows,
                columns,
            };
            self.change(rt, key, event);
        }
    }

    // Tells a client that keys of it were dropped, at most once a second.
    fn say_dropped(&mut self, rt: &impl Wait, key: usize, now: u64)
        ensures { TellsDropped J.SessionSeat now key (state_of self.old) (state_of self.new) }
    {
        if take_news(&mut self.connections, key, now) {
            self.send(rt, key, Sending::Say(DROPPED.as_bytes()));
        }
    }

    // Whether the window that keys are for takes no more for now. Those that begin a command don't wait for that.
    fn is_stopped(&self, rt: &impl Wait, target: Target) -> bool
        ensures { Stops J.SessionSeat target self.entry.now.seat result }
    {
        if target.begins_command {
            return false;
        }
        self.seat.is_full(rt, target.window)
    }

    // Whether the keys that wait have to wait on for their window. If their user may not type any more, none wait.
    fn must_wait(&mut self, rt: &impl Wait, key: usize) -> bool
        ensures { MustWait J.SessionSeat key (state_of self.old) result (state_of self.new) }
    {
        let Some(target) = target_at(&self.connections, key) else {
            return false;
        };
        let is_full = self.is_stopped(rt, target);
        if !target.is_asked(is_full) {
            return false;
        }
        if !self.seat.may_type(rt, target.user.user(), target.window) {
            free_keys(&mut self.connections, key);
            return false;
        }
        if is_full {
            hold_keys(&mut self.connections, key);
        }
        is_full
    }

    // Submits a step of the keys that wait, up to the first command, for their user. They wait on if the user has to.
    fn judge(&mut self, rt: &impl Wait, key: usize, client: u32) -> Progress
        ensures { Judges J.SessionSeat key client (state_of self.old) result (state_of self.new) }
    {
        let Some(shown) = user_at(&self.connections, key) else {
            return Progress::Done;
        };
        let typed = take_keys(self.alloc, &mut self.connections, key);
        let bytes = typed.keys();
        let answer = self.try_for(rt, shown, Event::Keys { client, bytes });
        let progress = answer_keys(&mut self.connections, key, typed, &answer);
        self.reading.has_typed |= is_judged(progress);
        self.fault_if(rt, key, is_refused(&answer));
        progress
    }

    // If there was no memory for a step, its connection is told to go.
    pub(crate) fn fault_if(&mut self, rt: &impl Wait, key: usize, is_refused: bool)
        ensures { FaultsIf J.SessionSeat is_refused key (state_of self.old) (state_of self.new) }
    {
        if is_refused {
            self.fault(rt, key);
        }
    }
}
