//! Reads and writes of one connection.

ghost use Rattle.std.specs.Prelude.{◌≡◌, ◌⊎◌, ◌∷◌, ◌||◌, ℕ, List, [], Some, None, IfSome, false, length, true};
ghost use Rattle.server_connections.specs.Peers.{is_open, is_stranger};
ghost use Rattle.server_connections.specs.Reading.{IsReadOnce, IsUnasked, after_none, is_again, is_readable};
ghost use Rattle.server_connections.specs.Streaming.{IsFull, IsWrittenTo, WritesAll, WritesOnce, after_write, goes_on};
ghost use Rattle.server_inbox.specs.Asking.{Gives, TakesIn, refilled};

use crate::peer::{Peer, Role, Stage};
use crate::peer_stream::{Arrival, PeerStream, Wrote};
use server_inbox::Asked;

impl<S: PeerStream + Drop> Peer<S> {
    // Adds the messages that these bytes complete; after them more may be there to read. A window's
    // output comes in long frames, so all of its messages are made at once.
    fn feed(&mut self, bytes: &[u8], has_more: bool)
        ensures stands { TakesIn self.old.inbox self.old.reader bytes.now
            self.new.inbox self.new.reader }
        ensures same { self.new ≡ record self.old {
          inbox = refilled self.old.inbox self.new.inbox;
          reader = self.new.reader;
          has_more = has_more;
        } }
    {
        if matches!(self.role, Role::Window(_)) {
            self.inbox.take_all(&mut self.reader, bytes);
        } else {
            self.inbox.take(&mut self.reader, bytes);
        }
        self.has_more = has_more;
    }

    /// Takes out the next message, or what is left of one. If the connection isn't open there is none.
    pub fn next_asked(&mut self) -> Option<Asked>
        ensures shut { is_open self.old.stage ≡ false → (result ≡ None) × (self.new ≡ self.old) }
        ensures again { is_open self.old.stage ≡ true → IfSome self.old.inbox.begun (λ asked.
            (result ≡ Some asked) × (self.new.reader ≡ self.old.reader)
            × (self.new.inbox ≡ record self.old.inbox { begun = None })) }
        ensures none { is_open self.old.stage ≡ true → self.old.inbox.begun ≡ None → result ≡ None
            → (self.old.inbox.messages.items ≡ []) × IsUnasked self.old self.new }
        ensures next { is_open self.old.stage ≡ true → self.old.inbox.begun ≡ None
            → IfSome result (λ asked. (asked.done ≡ 0)
            × Gives self.old.inbox self.old.reader (asked.message ∷ [])
            self.new.inbox self.new.reader) }
        ensures same { is_open self.old.stage ≡ true → self.new ≡ record self.old {
          inbox = record (refilled self.old.inbox self.new.inbox) { begun = None };
          reader = self.new.reader;
        } }
    {
        if !self.stage.is_open() {
            return None;
        }
        self.inbox.next(&mut self.reader)
    }

    // Whether more may be there after a read of this many bytes. A stranger's bytes may come in pieces,
    // however many are there.
    fn may_have_more(&self, is_much: bool) -> bool
        ensures { result ≡ ((is_much || self.now.has_hung_up) || is_stranger self.now.role) }
    {
        is_much || self.has_hung_up || self.role.is_stranger()
    }

    // A read brought no byte.
    fn note_none(&mut self, now: u64, arrival: Arrival)
        ensures { self.new ≡ record self.old {
          has_more = is_again arrival;
          inbox = record self.old.inbox { typed = after_none now arrival self.old.inbox.typed };
        } }
    {
        self.has_more = arrival == Arrival::Some;
        match arrival {
            Arrival::Nothing => self.inbox.typed.note_read(now, false),
            Arrival::Much | Arrival::Some | Arrival::End => {}
        }
    }

    /// Reads once, if the connection is open and may be read at this time in milliseconds. If fewer
    /// bytes came than the buffer takes, nothing is left for now; but if the other end was closed, the end
    /// comes after them.
    pub fn read(&mut self, buffer: &mut [u8], now: u64) -> Arrival
        // If it may not be read nothing is done.
        ensures held { is_readable now self.old ≡ false
            → (result ≡ Arrival.Nothing) × (self.new ≡ self.old) }
        // Else its stream is read once, and what that brings is taken in after all that was read before.
        ensures read { is_readable now self.old ≡ true
            → IsReadOnce S.reads now (length buffer.old) self.old result self.new }
        ensures same { self.new ≡ record self.old {
          stream = self.new.stream;
          reader = self.new.reader;
          inbox = record (refilled self.old.inbox self.new.inbox) { typed = self.new.inbox.typed };
          has_more = self.new.has_more;
        } }
    {
        if !self.stage.is_open() || !self.has_more() || !self.inbox.may_read(now) {
            return Arrival::Nothing;
        }
        let Some(stream) = &mut self.stream else {
            return Arrival::Nothing;
        };
        let (count, arrival) = stream.read_once(buffer);
        if count == 0 {
            self.note_none(now, arrival);
            return arrival;
        }
        let is_much = count == buffer.len();
        self.inbox.typed.note_read(now, is_much);
        let has_more = self.may_have_more(is_much);
        self.feed(&buffer[..count], has_more);
        if is_much {
            Arrival::Much
        } else {
            Arrival::Some
        }
    }

    // What came of a write is noted. Returns whether another one is to be made.
    fn note_write(&mut self, wrote: Wrote) -> bool
        ensures after { self.new ≡ after_write wrote self.old }
        ensures goes { result ≡ goes_on wrote }
    {
        match wrote {
            Wrote::Some(_) => true,
            Wrote::Nothing => true,
            Wrote::Full => {
                self.is_full = true;
                if self.stage == Stage::Cut {
                    self.close();
                }
                false
            }
            Wrote::Broken => {
                self.close();
                false
            }
        }
    }

    // Makes one write of what waits, or closes a connection that is to go once all is written. Returns
    // whether it may take more.
    fn write_once(&mut self) -> bool
        ensures writes { WritesOnce S.writes self.old result self.new }
        ensures written { (put : List ℕ) → IsWrittenTo S.holds put self.old
            → IsWrittenTo S.holds put self.new }
    {
        let Some(stream) = &mut self.stream else {
            return false;
        };
        if self.turn.unsent() == 0 {
            if self.stage == Stage::Ending || self.stage == Stage::Cut {
                self.close();
            }
            return false;
        }
        let wrote = stream.write_once(&mut self.turn);
        self.note_write(wrote)
    }

    /// Writes what waits, until the connection takes no more for now. Until an event tells of room it
    /// isn't tried again, but for the last time. It is given up if a write fails.
    pub fn write(&mut self)
        ensures full { IsFull self.old → self.new ≡ self.old }
        // Else write after write is made of what waits, until nothing is left to be written for now.
        ensures writes { IsFull self.old ⊎ WritesAll S.writes self.old self.new }
        // Of what was put, its stream holds what was written, and the rest waits, unless it is given up.
        ensures written { (put : List ℕ) → IsWrittenTo S.holds put self.old
            → IsWrittenTo S.holds put self.new }
    {
        if self.is_full && self.stage != Stage::Cut {
            return;
        }
        'writes: for _ in 0..u64::MAX {
            if !self.write_once() {
                return;
            }
        }
        // In practice it never comes to this many writes.
        self.close();
    }
}
