//! Changes of one connection.

ghost use Rattle.std.specs.Prelude.{◌≡◌, ◌⊎◌, false, true};
ghost use Rattle.slab.specs.Slab.{get};
ghost use Rattle.server_connections.specs.Changing.{IsPutInto, LetsGo, asked_to_go, changed, drawn, expelled};
ghost use Rattle.server_connections.specs.Changing.{hears, known_gone, told_to_go};
ghost use Rattle.server_connections.specs.Life.{given_up};
ghost use Rattle.server_sending.specs.Frames.{Sends, SendsFront};

use crate::connections::Connections;
use crate::peer::{Role, Stage};
use attach_proto::Why;
use server_sending::{Sending, put};

impl<S: Drop> Connections<S> {
    /// A connection is told to go, after all that was put for it, and the session is to be told that it
    /// left.
    pub fn expel(&mut self, key: usize, why: Why)
        ensures { self.new ≡ changed (expelled why) key self.old }
    {
        if let Some(peer) = self.touch(key) {
            peer.end(why);
            peer.leave();
        }
    }

    /// A connection is told to go, unless it was told before.
    pub fn dismiss(&mut self, key: usize, why: Why)
        ensures { self.new ≡ changed (told_to_go why) key self.old }
    {
        if let Some(peer) = self.touch(key) {
            if peer.listens() {
                peer.end(why);
            }
        }
    }

    /// The session was told that a connection left it.
    pub fn note_gone(&mut self, key: usize)
        ensures { self.new ≡ changed known_gone key self.old }
    {
        if let Some(peer) = self.touch(key) {
            peer.leaves = Role::Stranger;
        }
    }

    /// A connection asked to go: it isn't read any more, and the session is to be told.
    pub fn ask_to_go(&mut self, key: usize)
        ensures { self.new ≡ changed asked_to_go key self.old }
    {
        if let Some(peer) = self.touch(key) {
            peer.stage = Stage::Leaving;
            peer.leaves = peer.role;
        }
    }

    /// A connection ended or failed: what still waits for it is given up.
    pub fn give_up(&mut self, key: usize)
        ensures { self.new ≡ changed given_up key self.old }
    {
        if let Some(peer) = self.touch(key) {
            peer.close();
        }
    }

    /// A client was drawn.
    pub fn note_drawn(&mut self, key: usize)
        ensures { self.new ≡ changed drawn key self.old }
    {
        if let Some(peer) = self.touch(key) {
            peer.turn.drawn();
        }
    }

    /// The session ended a client or a window: its connection is told to go, and no other one.
    pub fn let_go(&mut self, role: Role, why: Why)
        ensures { LetsGo self.old role why self.new }
    {
        let Some(key) = self.key_of(role) else {
            return;
        };
        let Some(peer) = self.touch(key) else {
            return;
        };
        peer.end(why);
        peer.role = Role::Stranger;
    }

    // Whether the connection of a key is sent what the session says.
    fn hears(&self, key: usize) -> bool
        ensures { result ≡ hears (get self.now.peers key) }
    {
        match self.get(key) {
            Some(peer) => peer.listens(),
            None => false,
        }
    }

    /// Puts something after what waits for a connection, if that is sent what the session says. The answer
    /// is false if it couldn't be put.
    pub fn put_into(&mut self, key: usize, sending: Sending<'_>) -> bool
        ensures put { result ≡ true → ((hears (get self.old.peers key) ≡ false) × (self.new ≡ self.old))
            ⊎ IsPutInto self.old key (Sends sending.entry) self.new }
        // Of bytes the first ones may have been put.
        ensures fault { result ≡ false → IsPutInto self.old key (SendsFront sending.entry) self.new }
    {
        let alloc = self.alloc;
        if !self.hears(key) {
            return true;
        }
        let Some(peer) = self.touch(key) else {
            return true;
        };
        match put(alloc, &mut peer.turn, sending) {
            Ok(()) => true,
            Err(_) => false,
        }
    }
}
