//! Messages that were read and aren't done yet.

ghost use Rattle.std.specs.Prelude.{◌≡◌, ◌==◌, ◌&&◌, ◌++◌, ◌∷◌, ◌<◌, ◌+◌, ◌-◌, ◌^◌, ℕ, List, [], Some, None};
ghost use Rattle.std.specs.Prelude.{IfSome, Ok, OnErr, OnOk, drop, false, is_some, length, min, not, true};
ghost use Rattle.std.specs.Result.{result_ok};
ghost use Rattle.attach_proto.specs.declared.message.Message.{Message as Told};
ghost use Rattle.server_inbox.specs.Asking.{Gives, IsThrough, Lies, TakesIn, is_empty, is_taken, piece_of};
ghost use Rattle.server_inbox.specs.Asking.{refilled, rest_of};
ghost use Rattle.server_inbox.specs.declared.inbox.Inbox.{Inbox as Held};
ghost use Rattle.server_inbox.specs.Joining.{IsGathered, JoinsNext, NextStays};
ghost use Rattle.server_typing.specs.Sized.{no_size};
ghost use Rattle.server_typing.specs.Typed.{expired, may_read, untyped};

use attach_proto::{Message, Reader};
use server_typing::{Sizing, Typeahead};
use std::alloc::{AllocError, Global};

/// At most this many printed bytes are done by one step.
pub const PIECE: usize = 8_192;

/// A message, and how many of its printed bytes are done.
#[derive(Drop)]
pub struct Asked {
    pub message: Message,
    pub done: usize,
}

impl Asked {
    // The printed bytes that aren't done yet.
    fn rest(&self) -> &[u8]
        ensures { result.now ≡ rest_of self.now.message self.now.done }
    {
        match &self.message {
            Message::Output(bytes) if self.done < bytes.as_slice().len() => {
                let (_, rest) = bytes.as_slice().split_at(self.done);
                rest
            }
            _ => b"",
        }
    }

    /// The printed bytes that the next step does.
    pub fn piece(&self) -> &[u8]
        ensures { result.now ≡ piece_of self.now.message self.now.done }
    {
        let rest = self.rest();
        if rest.len() <= PIECE {
            return rest;
        }
        let (piece, _) = rest.split_at(PIECE);
        piece
    }

    /// The first of the bytes that weren't done are done. Returns whether all are.
    pub fn note_done(&mut self, count: usize) -> bool
        ensures done { self.new ≡ record self.old { done = min (self.old.done + count) (2 ^ 64 - 1) } }
        ensures all { result ≡ (length (rest_of self.new.message self.new.done) == 0) }
    {
        self.done = self.done.saturating_add(count);
        self.rest().is_empty()
    }
}

// This many bytes are looked at together: a message of a short frame takes far more memory than the
// frame, so only a few are made at a time.
const LOOKED: usize = 512;

// At most this many messages are taken in at a time.
const GATHERED: usize = 64;

/// Messages that were read and aren't done yet. A client's keys and sizes are taken out of them.
#[derive(Drop)]
pub struct Inbox {
    alloc: Global,
    pub typed: Typeahead,
    pub sizing: Sizing,
    // In reverse: the next one is the last.
    messages: Vec<Message>,
    begun: Option<Asked>,
    // The bytes that were read after them, and how many of these were looked at. If no message is
    // there, all were.
    rest: Vec<u8>,
    seen: usize,
    // What came after them is no frame, or there was no memory for it.
    is_broken: bool,
}

// The next piece of the bytes that weren't looked at, and where the bytes after it begin.
fn piece_of(rest: &[u8], seen: usize) -> (&[u8], usize)
    ensures piece { drop seen rest.now ≡ result.0.now ++ drop result.1 rest.now }
    ensures on { seen < length rest.now → seen < result.1 }
{
    if seen >= rest.len() {
        return (b"", seen);
    }
    let (_, unseen) = rest.split_at(seen);
    let count = unseen.len().min(LOOKED);
    let (piece, _) = unseen.split_at(count);
    (piece, seen + count)
}

impl Inbox {
    pub fn new(alloc: Global) -> Inbox
        ensures none { (result.messages.items ≡ []) × (result.begun ≡ None) }
        ensures unread { (result.rest.items ≡ []) × (result.seen ≡ 0) }
        ensures sound { result.is_broken ≡ false }
        ensures empty { is_empty result ≡ true }
        ensures untyped { (result.typed ≡ untyped) × (result.sizing ≡ no_size) }
    {
        Inbox {
            alloc,
            typed: Typeahead::new(alloc),
            sizing: Sizing::new(),
            messages: Vec::new(alloc),
            begun: None,
            rest: Vec::new(alloc),
            seen: 0,
            is_broken: false,
        }
    }

    // Whether all that was read was taken out.
    fn is_taken(&self) -> bool
        ensures taken { result ≡ is_taken self.now }
        ensures none { result ≡ true → self.now.messages.items ≡ [] }
    {
        self.messages.is_empty() && self.begun.is_none()
    }

    /// Whether messages beside keys and sizes that were taken in aren't done yet.
    pub fn has_messages(&self) -> bool
        ensures { result ≡ not (is_taken self.now) }
    {
        !self.is_taken()
    }

    pub fn is_empty(&self) -> bool
        ensures { result ≡ is_empty self.now }
    {
        self.is_taken() && self.typed.is_empty() && self.sizing.wanted.is_none()
    }

    /// Whether more is to be read, at this time in milliseconds.
    pub fn may_read(&self, now: u64) -> bool
        ensures reads { result ≡ (is_taken self.now
            && may_read now (is_some self.now.sizing.wanted) self.now.typed) }
        ensures none { result ≡ true → self.now.messages.items ≡ [] }
    {
        self.is_taken() && self.typed.may_read(now, self.sizing.wanted.is_some())
    }

    // Looks at the next piece of the bytes that are left, and adds the messages that it completes.
    fn look(&mut self, reader: &mut Reader)
        ensures lies { (taken : List Told) (stream : List ℕ) → self.old.messages.items ≡ []
            → self.old.is_broken ≡ false → Lies self.old reader.old taken stream
            → Lies self.new reader.new taken stream }
        ensures on { self.old.seen < length self.old.rest.items → self.old.seen < self.new.seen }
        ensures same { self.new ≡ record self.old {
          messages = self.new.messages;
          seen = self.new.seen;
          is_broken = self.new.is_broken;
        } }
    {
        let (piece, end) = piece_of(&self.rest, self.seen);
        self.is_broken = reader.feed(piece, &mut self.messages).is_err();
        self.messages.reverse();
        self.seen = end;
    }

    // While no message is there, looks at the bytes that are left.
    fn refill(&mut self, reader: &mut Reader)
        ensures lies { (taken : List Told) (stream : List ℕ) → Lies self.old reader.old taken stream
            → Lies self.new reader.new taken stream }
        ensures through { IsThrough self.new }
        ensures same { self.new ≡ refilled self.old self.new }
    {
        'pieces: for _ in self.seen..self.rest.len() {
            if self.is_broken || !self.messages.is_empty() || self.seen >= self.rest.len() {
                break;
            }
            self.look(reader);
        }
        if self.seen > 0 && self.seen >= self.rest.len() {
            self.rest = Vec::new(self.alloc);
            self.seen = 0;
        }
    }

    /// Adds all messages that these bytes complete.
    pub fn take_all(&mut self, reader: &mut Reader, bytes: &[u8])
        ensures stands { TakesIn self.old reader.old bytes.now self.new reader.new }
        ensures same { self.new ≡ record self.old {
          messages = self.new.messages;
          is_broken = self.new.is_broken;
        } }
    {
        self.is_broken = reader.feed(bytes, &mut self.messages).is_err();
        self.messages.reverse();
    }

    /// Adds the first few messages that these bytes complete. The others are added once these are
    /// taken out.
    pub fn take(&mut self, reader: &mut Reader, bytes: &[u8])
        ensures stands { TakesIn self.old reader.old bytes.now self.new reader.new }
        ensures same { self.new ≡ refilled self.old self.new }
    {
        if bytes.len() <= LOOKED {
            self.take_all(reader, bytes);
            return;
        }
        match self.keep(bytes) {
            Ok(()) => self.refill(reader),
            Err(_) => self.is_broken = true,
        }
    }

    fn keep(&mut self, bytes: &[u8]) -> Result<(), AllocError>
        ensures kept { OnOk result (self.new.rest.items ≡ self.old.rest.items ++ bytes.now) }
        ensures same { self.new ≡ record self.old { rest = self.new.rest } }
    {
        self.rest.reserve_exact(bytes.len())?;
        self.rest.extend_from_slice(bytes)
    }

    /// Whether bytes came that are no frame, or for which there was no memory.
    pub fn is_broken(&self) -> bool
        ensures { result ≡ self.now.is_broken }
    {
        self.is_broken
    }

    /// Whether all messages are done, and bytes came that are no frame.
    pub fn is_faulty(&self) -> bool
        ensures { result ≡ (self.now.is_broken && is_empty self.now) }
    {
        self.is_broken && self.is_empty()
    }

    // Joins the keys or the size of the next message to those that wait, unless these keys stay where
    // they are. Returns whether it did.
    fn gather_one(&mut self, now: u64) -> Result<bool, AllocError>
        ensures joins { result ≡ Ok true → JoinsNext now self.old self.new }
        ensures stays { result ≡ Ok false → (self.new ≡ self.old) × NextStays now self.new }
        ensures err { OnErr result (self.new ≡ self.old) }
    {
        match self.messages.last() {
            Some(Message::Keys(keys)) if self.typed.takes(now, keys.as_slice().len()) => {
                self.typed.put(now, keys.as_slice())?;
            }
            Some(Message::Resize { rows, columns }) => self.sizing.want((*rows, *columns)),
            _ => return Ok(false),
        }
        let _ = self.messages.pop();
        Ok(true)
    }

    // Joins the keys and sizes that come next to those that wait. Returns whether no more are there.
    fn gather_some(&mut self, reader: &mut Reader, now: u64) -> Result<bool, AllocError>
        ensures { IsGathered now self.old reader.old self.new reader.new (result_ok result) }
    {
        'gathering: for _ in 0..GATHERED {
            match self.gather_one(now) {
                Ok(true) => self.refill(reader),
                Ok(false) => return Ok(true),
                Err(error) => return Err(error),
            }
        }
        Ok(false)
    }

    /// Takes in a client's keys and sizes that come next, at this time in milliseconds. Then drops keys
    /// that wait too long. Returns whether no more are there.
    pub fn gather(&mut self, reader: &mut Reader, now: u64) -> Result<bool, AllocError>
        // What is taken in are the next messages of the stream, in order, each once.
        ensures { (mid : Held) × IsGathered now self.old reader.old mid reader.new (result_ok result)
            × (self.new ≡ record mid { typed = expired now mid.typed }) }
    {
        let far = self.gather_some(reader, now);
        self.typed.expire(now);
        far
    }

    /// Takes out the next message, or the one that was put back.
    pub fn next(&mut self, reader: &mut Reader) -> Option<Asked>
        // What was put back comes first.
        ensures again { IfSome self.old.begun (λ asked. (result ≡ Some asked)
            × (self.new ≡ record self.old { begun = None }) × (reader.new ≡ reader.old)) }
        // Else the next message of the stream comes, of which nothing is done. If there is none, nothing changes.
        ensures none { self.old.begun ≡ None → result ≡ None → (self.old.messages.items ≡ [])
            × (self.new.messages.items ≡ []) × (reader.new ≡ reader.old)
            × (self.new ≡ record self.old { messages = self.new.messages }) }
        ensures next { self.old.begun ≡ None → IfSome result (λ asked. (asked.done ≡ 0)
            × Gives self.old reader.old (asked.message ∷ []) self.new reader.new) }
        ensures same { self.new ≡ record (refilled self.old self.new) { begun = None } }
    {
        if let Some(asked) = self.begun.take() {
            return Some(asked);
        }
        let Some(message) = self.messages.pop() else {
            return None;
        };
        self.refill(reader);
        Some(Asked { message, done: 0 })
    }

    /// Puts back the message that was taken out last.
    pub fn put_back(&mut self, asked: Asked)
        ensures { self.new ≡ record self.old { begun = Some asked } }
    {
        self.begun = Some(asked);
    }
}
