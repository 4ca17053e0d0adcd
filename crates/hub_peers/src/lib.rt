//! The seats of a hub's clients and windows: whose effects wait for which loop.
#![tactic(auto)]

ghost use Rattle.std.specs.Prelude.{◌≡◌, ◌<◌, [], OnOk, Some, vec_len, vec_capacity};
ghost use Rattle.session.specs.Trace.{happening};
ghost use Rattle.hub_trail.specs.Peers.{attaches, opens};
ghost use Rattle.hub_peers.specs.Peers.{HasPeer, owners_of, seat_of, with_peers};

use session::{Effect, Event, Peer, Reply};
use std::alloc::{AllocError, Global};

/// The seats of clients and of windows, by serial.
pub struct Peers {
    pub clients: Vec<usize>,
    pub windows: Vec<usize>,
}

impl Drop for Peers {
    fn drop(self) {
        let Peers {
            clients: _,
            windows: _,
        } = self;
    }
}

/// Whether a step attached a client.
fn attaches(event: Event, reply: &Reply) -> bool
    ensures { result ≡ attaches (happening event.entry) reply.now }
{
    matches!(event, Event::Attach { .. }) && reply.is_ok()
}

/// Whether a step opened a window.
fn opens(event: Event, reply: &Reply) -> bool
    ensures { result ≡ opens (happening event.entry) reply.now }
{
    matches!(event, Event::Open { .. }) && reply.is_ok()
}

impl Peers {
    /// A table of a hub to which no peer has come.
    pub fn new(alloc: Global) -> Peers
        ensures { owners_of result ≡ record { clients = []; windows = [] } }
    {
        Peers {
            clients: Vec::new(alloc),
            windows: Vec::new(alloc),
        }
    }

    /// Makes room for one more client and one more window. `AllocError` if memory is refused.
    pub fn make_room(&mut self) -> Result<(), AllocError>
        ensures same { owners_of self.new ≡ owners_of self.old }
        ensures room { OnOk result ((vec_len self.new.clients < vec_capacity self.new.clients)
            × (vec_len self.new.windows < vec_capacity self.new.windows)) }
    {
        self.clients.reserve(1)?;
        self.windows.reserve(1)
    }

    /// Gives the seat the client or the window that the step attached or opened, if it did.
    pub fn add(&mut self, event: Event, reply: &Reply, seat: usize)
        requires clients { vec_len self.old.clients < vec_capacity self.old.clients }
        requires windows { vec_len self.old.windows < vec_capacity self.old.windows }
        ensures { owners_of self.new ≡ with_peers (happening event.entry) reply.now seat
            (owners_of self.old) }
    {
        if attaches(event, reply) {
            self.clients.push_reserved(seat);
        }
        if opens(event, reply) {
            self.windows.push_reserved(seat);
        }
    }

    /// The seat of the peer that an effect is for; the peer has come before.
    pub fn seat_of(&self, effect: &Effect) -> usize
        requires { HasPeer (owners_of self.now) effect.now }
        ensures { seat_of (owners_of self.now) effect.now ≡ Some result }
    {
        match effect {
            Effect::Input(window, _) => self.windows[*window as usize],
            Effect::Deliver(client, _) => self.clients[*client as usize],
            Effect::Say(client, _) => self.clients[*client as usize],
            Effect::Size(window, _, _) => self.windows[*window as usize],
            Effect::Gone(Peer::Window(window), _) => self.windows[*window as usize],
            Effect::Gone(Peer::Client(client), _) => self.clients[*client as usize],
        }
    }
}
