//! Frames for the server, in their order and whole.

ghost use Rattle.std.specs.Prelude.{◌≡◌, ◌≤◌, ◌<◌, ◌++◌, ◌↔◌, length, drop, [], IsTrue};
ghost use Rattle.std.specs.Prelude.{OnOk, OnErr, IfErr, IfSome, IsNone, Some, Err};
ghost use Rattle.std.specs.Option.{option_or};
ghost use Rattle.attach_proto.specs.Spelling.{frame, spelling};
ghost use Rattle.attach_proto.specs.declared.kind.Kind.TheVariants.{Detach};
ghost use Rattle.client_peer.specs.Failing.{FailsTyping};
ghost use Rattle.client_typing.specs.Framing.{Sends};
ghost use Rattle.client_peer.specs.Sending.{HandsOut, HasBack, HasServer, IsFull, LosesBack, MaySend, Prints, Puts};
ghost use Rattle.client_peer.specs.Sending.{SendsSome, unsent};

use crate::peer::Peer;
use attach_proto::{Kind, Message, head_of, write_message};
use client_typing::put_frames;
use client_words::PeerFault;
use std::alloc::AllocError;
use std::io::{ErrorKind, Write};
use std::mem;

/// While more bytes than this wait for the server, the input isn't read.
const MOST_AHEAD: usize = 16_777_216;

/// Frames on their way to the server. They can't be let go: what wasn't sent of them comes back.
pub struct Batch {
    frames: Vec<u8>,
    // How many of their bytes were sent.
    sent: usize,
    connection: u32,
    is_shut: bool,
}

impl Batch {
    // Makes one write of what wasn't sent. Returns whether the connection may take more at once.
    fn write_once<S: Write>(&mut self, stream: &mut S) -> bool
        requires { self.old.sent ≤ length self.old.frames.items }
        ensures { SendsSome (S.contents stream.old) self.old (S.contents stream.new) self.new }
    {
        match stream.write(&self.frames[self.sent..]) {
            Ok(0) => self.is_shut = true,
            Ok(count) => self.sent += count,
            Err(error) => match error.kind() {
                ErrorKind::WouldBlock => return false,
                ErrorKind::Interrupted => {}
                _ => self.is_shut = true,
            },
        }
        !self.is_shut
    }

    /// Sends all bytes, or fewer if the socket has a time limit and takes nothing for that time, or takes no more.
    pub fn send<S: Write>(&mut self, stream: &mut S)
        ensures { SendsSome (S.contents stream.old) self.old (S.contents stream.new) self.new }
    {
        'writes: for _ in 0..=self.frames.len() {
            if self.sent >= self.frames.len() || !self.write_once(stream) {
                return;
            }
        }
    }
}

impl Peer {
    /// Puts down what was typed or printed: all of it, or nothing.
    pub(crate) fn put_frames(&mut self, kind: Kind, bytes: &[u8]) -> Result<(), AllocError>
        ensures sends { OnOk result (Sends self.old.frames.items self.new.frames.items kind bytes.now) }
        ensures err { OnErr result (self.new.frames.items ≡ self.old.frames.items) }
        ensures same { self.new ≡ record self.old { frames = self.new.frames } }
    {
        let mut frames = Vec::new(self.alloc);
        put_frames(kind, bytes, &mut frames)?;
        self.frames.extend_from_slice(&frames)
    }

    /// Puts down what a window's program printed, or holds it while no server has the window.
    pub(crate) fn print(&mut self, bytes: &[u8]) -> Result<(), AllocError>
        ensures prints { OnOk result (Prints self.old self.new bytes.now) }
        ensures err { OnErr result (self.new.frames.items ≡ self.old.frames.items) }
        ensures same { self.new ≡ record self.old { frames = self.new.frames; page = self.new.page } }
    {
        if self.has_server() {
            self.page.read(bytes);
            return self.put_frames(Kind::Output, bytes);
        }
        self.page.hold(bytes)
    }

    pub(crate) fn has_server(&self) -> bool
        ensures { IsTrue result ↔ HasServer self.now }
    {
        self.is_welcome && !self.is_reopening
    }

    /// Asks for a whole draw: RESIZE, with the size that the terminal has.
    pub(crate) fn redraw(&mut self) -> Result<(), PeerFault>
        ensures ok { OnOk result (Puts self.old self.new
            (spelling (Message.Resize self.old.rows self.old.columns))) }
        ensures err { OnErr result (self.new.frames.items ≡ self.old.frames.items) }
        ensures fault { IfErr result (FailsTyping self.old self.new) }
        ensures same { self.new ≡ record self.old { frames = self.new.frames } }
    {
        let (rows, columns) = (self.rows, self.columns);
        let message = Message::Resize { rows, columns };
        write_message(self.alloc, &message, &mut self.frames)?;
        Ok(())
    }

    /// Puts down DETACH.
    pub(crate) fn detach(&mut self) -> Result<(), AllocError>
        ensures ok { OnOk result (Puts self.old self.new (frame Detach [])) }
        ensures err { OnErr result (Puts self.old self.new []) }
        ensures same { self.new ≡ record self.old { frames = self.new.frames } }
    {
        self.frames.extend_from_slice(&head_of(Kind::Detach, &[]))
    }

    /// Whether frames wait that can be sent.
    pub(crate) fn can_send(&self) -> bool
        ensures { IsTrue result ↔ MaySend self.now }
    {
        self.is_welcome && !self.is_sending && !self.is_shut && !self.frames.is_empty()
    }

    /// Whether too much waits for the server.
    pub fn is_full(&self) -> bool
        ensures { IsTrue result ↔ IsFull self.now }
    {
        self.frames.len() > MOST_AHEAD && !self.is_shut && self.end.is_none()
    }

    /// Takes the frames that wait, for a thread that sends them.
    pub fn begin_sending(&mut self) -> Option<Batch>
        ensures some { IfSome result (λ batch. MaySend self.old × HandsOut self.old batch self.new) }
        ensures none { IsNone result → (MaySend self.old → ⊥) × (self.new ≡ self.old) }
    {
        if !self.can_send() {
            return None;
        }
        self.is_sending = true;
        Some(Batch {
            frames: mem::replace(&mut self.frames, Vec::new(self.alloc)),
            sent: mem::replace(&mut self.sent, 0),
            connection: self.connection,
            is_shut: false,
        })
    }

    /// Takes back what wasn't sent. If the connection takes no more, what it has still to say tells why.
    pub fn end_sending(&mut self, batch: Batch) -> Result<(), AllocError>
        ensures back { OnOk result (HasBack self.old batch self.new) }
        ensures ends { OnErr result (LosesBack self.old batch self.new) }
    {
        let Batch {
            frames,
            sent,
            connection,
            is_shut,
        } = batch;
        self.is_sending = false;
        if self.connection != connection {
            return Ok(());
        }
        self.is_shut = is_shut;
        self.is_stuck = sent < frames.len();
        if self.is_stuck {
            return self.put_back(frames, sent);
        }
        Ok(())
    }

    // Puts what wasn't sent before what waits. Without memory for that the peer ends: a part of a frame was sent.
    fn put_back(&mut self, frames: Vec<u8>, sent: usize) -> Result<(), AllocError>
        requires { sent < length frames.items }
        ensures back { OnOk result ((self.old.sent ≡ 0
            → unsent self.new ≡ drop sent frames.items ++ unsent self.old)
            × (self.new ≡ record self.old { frames = self.new.frames; sent = self.new.sent })) }
        ensures ends { OnErr result (self.new ≡ record self.old {
          end = option_or self.old.end (Some (Err PeerFault.NoMemory));
        }) }
    {
        let mut frames = frames;
        let kept = frames.extend_from_slice(&self.frames);
        if kept.is_ok() {
            self.frames = frames;
            self.sent = sent;
        } else {
            self.end_by(Err(PeerFault::NoMemory));
        }
        kept
    }
}
