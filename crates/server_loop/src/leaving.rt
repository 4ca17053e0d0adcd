//! How a connection leaves.

ghost use Rattle.std.specs.Prelude.{◌≡◌, IfSome, option_map};
ghost use Rattle.slab.specs.Slab.{get};
ghost use Rattle.session.specs.Trace.{happening};
ghost use Rattle.server_steps.specs.Meaning.{role_at};
ghost use Rattle.server_steps.specs.Telling.{misfit, with_any};
ghost use Rattle.server_connections.specs.Changing.{changed, told_to_go};
ghost use Rattle.server_loop.specs.Handing.{Faults};
ghost use Rattle.server_loop.specs.Leaving.{Detaches, Expels, Loses, TellsLeaving, TriesLeaving, leaving};
ghost use Rattle.server_loop.specs.Naming.{NamesNobody};
ghost use Rattle.server_loop.specs.Submitting.{state_of};
ghost use Rattle.server_loop.specs.Turning.{Expires, Finishes, LetsOldestGo, PartsWith, Settles, TellsFull};
ghost use Rattle.server_loop.specs.Walking.{VisitsAll};

use crate::own::Loop;
use attach_proto::Why;
use server_connections::{News, PeerStream, SeatFault, ServerEnd, SessionSeat, each_awake};
use server_steps::{
    Gate, count_new, expire, finish, is_open_at, misfit, oldest_new, role_at, take_fullness,
    take_guest, write,
};
use session::Event;
use std::sync::Wait;

impl<S: PeerStream + Drop, G: Gate + Drop, J: SessionSeat + Drop> Loop<S, G, J> {
    // The event by which a connection leaves the session, if it left and the session wasn't told.
    fn leaving<'a>(&self, key: usize) -> Option<Event<'a>>
        ensures event { option_map happening result ≡ leaving (get self.entry.now.connections.peers key) }
        ensures nobody { IfSome result (λ event. NamesNobody (happening event)) }
    {
        match self.connections.get(key) {
            Some(peer) => peer.leaves.parting(),
            None => None,
        }
    }

    // Tells the session that a connection left it, if it did. Without memory for that it answers false, for now.
    pub(crate) fn tell_leaving(&mut self, rt: &impl Wait, key: usize) -> bool
        ensures { TellsLeaving J.SessionSeat key (state_of self.old) result (state_of self.new) }
    {
        let Some(event) = self.leaving(key) else {
            return true;
        };
        match self.submit(rt, event) {
            Ok(_) => {
                self.connections.note_gone(key);
                true
            }
            Err(SeatFault::Over(_)) => {
                self.connections.note_gone(key);
                true
            }
            Err(SeatFault::NoMemory) => {
                self.has_refused = true;
                false
            }
        }
    }

    pub(crate) fn tell_all_leaving(&mut self, rt: &impl Wait)
        ensures { VisitsAll (TriesLeaving J.SessionSeat) (state_of self.old) (state_of self.new) }
    {
        each_awake(self, |own, key| {
            let _ = own.tell_leaving(rt, key);
        });
    }

    // A connection is told to go, after all that was put for it.
    pub(crate) fn expel(&mut self, rt: &impl Wait, key: usize, why: Why)
        ensures { Expels J.SessionSeat why key (state_of self.old) (state_of self.new) }
    {
        self.connections.expel(key, why);
        let _ = self.tell_leaving(rt, key);
    }

    // A connection that is no guest is told to go, unless it was told before.
    pub(crate) fn dismiss(&mut self, key: usize, why: Why)
        ensures { self.new ≡ record self.old { connections = changed (told_to_go why) key self.old.connections } }
    {
        self.connections.dismiss(key, why);
    }

    // A connection that is no guest sent something else than a first message.
    fn note_misfit(&mut self, key: usize)
        ensures { self.new ≡ record self.old {
          news = with_any (misfit (role_at (get self.old.connections.peers key))) self.old.news;
        } }
    {
        let role = role_at(&self.connections, key);
        self.news.put_any(misfit(role));
    }

    // A connection sent what it mustn't: it is told to go, after all that came of what it sent before.
    pub(crate) fn fault(&mut self, rt: &impl Wait, key: usize)
        ensures { Faults J.SessionSeat key (state_of self.old) (state_of self.new) }
    {
        self.hand_out(rt);
        if !is_open_at(&self.connections, key) {
            return;
        }
        self.note_misfit(key);
        self.expel(rt, key, Why::Fault);
    }

    // A connection asked to go. The session answers with the effect that ends it.
    pub(crate) fn detach(&mut self, rt: &impl Wait, key: usize)
        ensures { Detaches J.SessionSeat key (state_of self.old) (state_of self.new) }
    {
        self.connections.ask_to_go(key);
        if self.tell_leaving(rt, key) {
            return;
        }
        self.expel(rt, key, Why::Fault);
    }

    // A connection ended or failed: what still waits for it is given up.
    pub(crate) fn lose(&mut self, rt: &impl Wait, key: usize)
        ensures { Loses J.SessionSeat key (state_of self.old) (state_of self.new) }
    {
        self.connections.give_up(key);
        let _ = self.tell_leaving(rt, key);
    }

    /// If the first message of `most` connections or more isn't done, the one that came first is told to go and closed.
    pub fn let_oldest_go(&mut self, rt: &impl Wait, most: usize)
        ensures { LetsOldestGo J.SessionSeat S.PeerStream most (state_of self.old) (state_of self.new) }
    {
        if count_new(&self.connections) < most {
            return;
        }
        let Some(key) = oldest_new(&self.connections) else {
            return;
        };
        self.dismiss(key, Why::Fault);
        let _ = write(&mut self.connections, key);
        self.lose(rt, key);
        self.sweep(rt);
    }

    /// Connections whose first message didn't come in time are told to go, and those that were told
    /// so and didn't read it in time are closed.
    pub fn expire(&mut self)
        ensures { VisitsAll (Expires self.old.now) (state_of self.old) (state_of self.new) }
    {
        let now = self.now;
        each_awake(self, |own, key| expire(&mut own.connections, key, now));
    }

    // All loops are told whether a window is full, if that is news.
    fn tell_full(&mut self, rt: &impl Wait, key: usize)
        ensures { TellsFull J.SessionSeat key (state_of self.old) (state_of self.new) }
    {
        let Some((window, is_full)) = take_fullness(&mut self.connections, key) else {
            return;
        };
        self.seat.set_full(rt, window, is_full);
    }

    // If it was a guest, its user may have another one.
    fn part_with(&mut self, rt: &impl Wait, key: usize)
        ensures { PartsWith J.SessionSeat key (state_of self.old) (state_of self.new) }
    {
        let Some((guest, why)) = take_guest(&mut self.connections, key) else {
            return;
        };
        self.seat.remove(rt, guest.user, guest.kind);
        self.tell(News::Went(guest, why));
    }

    // What is closed goes, and what has nothing to do rests.
    fn settle(&mut self, rt: &impl Wait, key: usize)
        ensures { Settles J.SessionSeat key (state_of self.old) (state_of self.new) }
    {
        self.tell_full(rt, key);
        self.part_with(rt, key);
        self.connections.settle(key);
    }

    pub(crate) fn sweep(&mut self, rt: &impl Wait)
        ensures { VisitsAll (Settles J.SessionSeat) (state_of self.old) (state_of self.new) }
    {
        each_awake(self, |own, key| own.settle(rt, key));
    }

    /// The server ends: guests are told so, and strangers are closed.
    pub fn finish(&mut self, rt: &impl Wait, end: ServerEnd)
        ensures { Finishes J.SessionSeat S.PeerStream end (state_of self.old) (state_of self.new) }
    {
        self.hand_out(rt);
        finish(&mut self.connections, end.why());
        self.sweep(rt);
    }
}
