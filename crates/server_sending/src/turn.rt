//! What a connection has still to write.

ghost use Rattle.std.specs.Prelude.{◌≡◌, ◌==◌, ◌&&◌, ◌≤◌, ◌++◌, ℕ, List, [], None, true, false, length, drop, take};
ghost use Rattle.std.specs.Prelude.{vec_len, vec_capacity, IfOk, IfSome, OnOk, OnErr, ◌+◌, ◌-◌};
ghost use Rattle.std.specs.Io.KnownBytes.{WriteAppends};
ghost use Rattle.server_sending.specs.Typists.{HasNoTypist, IsNextTypist};
ghost use Rattle.server_sending.specs.Written.{IsWritten, ended, unbegun, with_frame, without_typed};

use crate::typists::{TypedFrame, drop_frames, forget_begun, typist_after};
use acl::UserId;
use std::alloc::{AllocError, Global};
use std::io;
use std::io::Write;
use std::marker::Model;

/// How many bytes the last frame has, for which room is reserved.
pub const LAST: usize = 4;

/// How many bytes a frame has before its payload.
pub const HEAD: usize = 3;

/// The bytes that a connection has still to write, and whether a step other than a draw was made
/// since its last draw.
pub struct Turn {
    bytes: Vec<u8>,
    // How many of the bytes were written.
    sent: usize,
    told: bool,
    has_ended: bool,
    // The frames that users typed, by their places after what was written.
    typed: Vec<TypedFrame>,
}

impl Drop for Turn {
    fn drop(self) {
        let Turn {
            bytes: _,
            sent: _,
            told: _,
            has_ended: _,
            typed: _,
        } = self;
    }
}

impl Model for Turn {
    ghost use Rattle.std.specs.Prelude.{◌≡◌, ◌≤◌, ◌+◌, ◌-◌, false, drop, vec_len, vec_capacity};
    ghost use Rattle.server_sending.specs.Written.{AreWithin, Waiting};

    ghost Value = { Waiting };

    ghost view = { λ t. record {
      unsent = drop t.sent t.bytes.items;
      typed = t.typed.items;
      told = t.told;
      has_ended = t.has_ended;
    } };

    // Until the end, its bytes have room. Frames that were typed are among the bytes that wait. No more bytes are kept
    // that were written than wait.
    ghost invariant = { λ t. (t.sent + t.sent ≤ vec_len t.bytes)
        × (t.has_ended ≡ false → vec_len t.bytes + 4 ≤ vec_capacity t.bytes)
        × AreWithin 0 t.typed.items (vec_len t.bytes - t.sent) };
}

// Lets go of this many bytes, which were written.
fn let_go(bytes: &mut Vec<u8>, sent: usize)
    requires { sent ≤ vec_len bytes.old }
    ensures rest { bytes.new.items ≡ drop sent bytes.old.items }
    ensures len { vec_len bytes.new ≡ vec_len bytes.old - sent }
    ensures room { vec_capacity bytes.new ≡ vec_capacity bytes.old }
{
    let left = bytes.len() - sent;
    bytes.copy_within(sent.., 0);
    bytes.truncate(left);
}

// Lets go of the bytes that were written, once they are more than those that wait. Returns how many of the bytes that
// are left were written.
fn shrink(bytes: &mut Vec<u8>, sent: usize) -> usize
    requires { sent ≤ vec_len bytes.old }
    ensures rest { drop result bytes.new.items ≡ drop sent bytes.old.items }
    ensures few { result + result ≤ vec_len bytes.new }
    ensures len { vec_len bytes.new - result ≡ vec_len bytes.old - sent }
    ensures less { vec_len bytes.new ≤ vec_len bytes.old }
    ensures room { vec_capacity bytes.new ≡ vec_capacity bytes.old }
{
    if sent <= bytes.len() - sent {
        return sent;
    }
    let_go(bytes, sent);
    0
}

impl Turn {
    /// A connection with nothing to write yet. The room for the last bytes is reserved.
    pub fn new(alloc: Global) -> Result<Turn, AllocError>
        ensures { IfOk result (λ t.
            t ≡ record { unsent = []; typed = []; told = false; has_ended = false }) }
    {
        let mut bytes = Vec::new(alloc);
        bytes.reserve(LAST)?;
        Ok(Turn {
            bytes,
            sent: 0,
            told: false,
            has_ended: false,
            typed: Vec::new(alloc),
        })
    }

    /// Puts bytes after those that wait.
    pub fn put(&mut self, bytes: &[u8]) -> Result<(), AllocError>
        ensures ok { OnOk result
            (self.new ≡ record self.old { unsent = self.old.unsent ++ bytes.now }) }
        ensures err { OnErr result (self.new ≡ self.old) }
    {
        self.bytes.reserve(bytes.len() + LAST)?;
        self.bytes.extend_from_slice(bytes)
    }

    /// Puts a frame's head and its payload after the bytes that wait: both or neither. It is noted which
    /// user typed it.
    pub fn put_frame(
        &mut self,
        head: [u8; HEAD],
        payload: &[u8],
        typist: Option<UserId>,
    ) -> Result<(), AllocError>
        ensures ok { OnOk result
            (self.new ≡ with_frame typist (head ++ payload.now) self.old) }
        ensures err { OnErr result (self.new ≡ self.old) }
    {
        let len = HEAD + payload.len();
        self.bytes.reserve(len + LAST)?;
        self.typed.reserve(1)?;
        let from = self.bytes.len() - self.sent;
        // The room is there.
        let _ = self.bytes.extend_from_slice(&head);
        self.bytes.extend_from_slice(payload)?;
        if let Some(user) = typist {
            let len = self.bytes.len() - self.sent - from;
            self.typed.push_reserved(TypedFrame { user, from, len });
        }
        Ok(())
    }

    /// Puts the last bytes after those that wait. A second call puts nothing. It takes no memory.
    pub fn end(&mut self, last: [u8; LAST])
        ensures { self.new ≡ ended last self.old }
    {
        if !self.has_ended {
            // The room is there.
            let _ = self.bytes.extend_from_slice(&last);
            self.has_ended = true;
        }
    }

    /// Makes one write of the bytes that wait. Those that were taken don't wait any more; after an
    /// error all still wait.
    pub fn send<W: Write>(&mut self, writer: &mut W) -> io::Result<usize>
        ensures count { IfOk result (λ n. n ≤ length self.old.unsent) }
        ensures ok { IfOk result (λ n.
            self.new ≡ record self.old {
              unsent = drop n self.old.unsent;
              typed = unbegun n self.old.typed;
            }) }
        ensures err { OnErr result (self.new ≡ self.old) }
        ensures writes { WriteAppends (W.contents writer.old) (W.contents writer.new) result
            self.old.unsent }
        ensures written { (put : List ℕ) → IsWritten put (W.contents writer.old) self.old
            → IsWritten put (W.contents writer.new) self.new }
    {
        let (_, waiting) = self.bytes.as_slice().split_at(self.sent);
        let taken = writer.write(waiting)?;
        forget_begun(&mut self.typed, taken);
        self.sent = shrink(&mut self.bytes, self.sent + taken);
        Ok(taken)
    }

    /// Of the users who typed frames of which nothing was written, the one whose name follows this one's.
    pub fn typist_after(&self, last: Option<UserId>) -> Option<UserId>
        ensures some { IfSome result (IsNextTypist last self.now.typed) }
        ensures none { result ≡ None → HasNoTypist last self.now.typed }
    {
        typist_after(self.typed.as_slice(), last)
    }

    /// How many frames that were typed wait.
    pub fn typed_frames(&self) -> usize
        ensures { result ≡ length self.now.typed }
    {
        self.typed.len()
    }

    /// Takes out the frames that a user typed and of which nothing was written.
    pub fn drop_typed(&mut self, user: UserId)
        ensures { self.new ≡ without_typed user self.old }
    {
        let_go(&mut self.bytes, self.sent);
        self.sent = 0;
        let left = drop_frames(self.bytes.as_mut_slice(), self.typed.as_mut_slice(), user);
        self.bytes.truncate(left.bytes);
        self.typed.truncate(left.frames);
    }

    /// How many bytes wait.
    pub fn unsent(&self) -> usize
        ensures { result ≡ length self.now.unsent }
    {
        self.bytes.len() - self.sent
    }

    /// Notes that a step other than a draw was made.
    pub fn told(&mut self)
        ensures { self.new ≡ record self.old { told = true } }
    {
        self.told = true;
    }

    /// Whether a draw is to be asked for: no bytes wait, and a step other than a draw was made since
    /// the last draw.
    pub fn wants_draw(&self) -> bool
        ensures { result ≡ (self.now.told && (length self.now.unsent == 0)) }
    {
        self.told && self.sent == self.bytes.len()
    }

    /// Notes that a draw was made.
    pub fn drawn(&mut self)
        ensures { self.new ≡ record self.old { told = false } }
    {
        self.told = false;
    }
}
