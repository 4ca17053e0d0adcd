//! What is typed or printed, on its way to the server.

ghost use Rattle.std.specs.Prelude.{◌≡◌, ◌++◌, [], true, false, OnErr, OnOk, Ok, IfOk, IfErr};
ghost use Rattle.std.specs.Io.KnownBytes.{Consumes};
ghost use Rattle.attach_proto.specs.declared.kind.Kind.TheVariants.{Detach};
ghost use Rattle.attach_proto.specs.Spelling.{frame};
ghost use Rattle.client_peer.specs.Ending.{without_input};
ghost use Rattle.client_peer.specs.Failing.{FailsTyping};
ghost use Rattle.client_peer.specs.Typing.{TypesIn, Presses, SendsAssisted, TellsScrolled, Types, typed_in};
ghost use Rattle.client_peer.specs.Typing.{assisted_in, pressed_in};
ghost use Rattle.client_typing.specs.Following.{IsSet};

use crate::peer::Peer;
use attach_proto::Kind;
use client_notice::NoticeStage;
use client_words::PeerFault;
use std::alloc::AllocError;
use std::io::{self, Read};

const ETX: u8 = 0x03;

// No key has more bytes: neither a function key's sequence nor a character.
const LONGEST_KEY: usize = 8;

/// What one read of a stream gave. It can't be copied, let go or made in another way: what was read is taken once.
pub struct ReadPiece<'b> {
    pub(crate) bytes: &'b [u8],
}

impl<'b> ReadPiece<'b> {
    /// Reads once. Nothing comes at the stream's end.
    pub fn read<S: Read>(stream: &mut S, buffer: &'b mut [u8]) -> io::Result<ReadPiece<'b>>
        ensures ok { IfOk result (λ piece.
            Consumes (S.remaining stream.old) (S.remaining stream.new) piece.bytes.now) }
        ensures err { OnErr result (Consumes (S.remaining stream.old) (S.remaining stream.new) []) }
    {
        let count = stream.read(buffer)?;
        let bytes = &buffer[..count];
        Ok(ReadPiece { bytes })
    }
}

impl Peer {
    /// Takes what was read of standard input. Returns whether that was more than its end.
    pub fn type_in(&mut self, piece: ReadPiece<'_>) -> Result<bool, PeerFault>
        ensures types { (piece.entry.bytes.now ≡ [] → ⊥)
            → OnOk result (TypesIn self.old self.new piece.entry.bytes.now) }
        ensures more { (piece.entry.bytes.now ≡ [] → ⊥) → OnOk result (result ≡ Ok true) }
        ensures end { piece.entry.bytes.now ≡ [] → (result ≡ Ok false) × (self.new ≡ self.old) }
        ensures fault { IfErr result (FailsTyping self.old self.new) }
        ensures same { self.new ≡ typed_in self.old self.new }
    {
        let ReadPiece { bytes: input } = piece;
        if input.is_empty() {
            return Ok(false);
        }
        let mut bytes = Vec::new(self.alloc);
        self.typing.read(input, &mut bytes)?;
        if self.subcommand.is_window() {
            self.print(&bytes)?;
            return Ok(true);
        }
        if bytes.is_empty() {
            return Ok(true);
        }
        self.times.has_typed = true;
        self.press(&bytes)?;
        Ok(true)
    }

    // Takes keys. They are dropped while no server is there. They take the help away; what can be no key is typed then.
    fn press(&mut self, keys: &[u8]) -> Result<(), PeerFault>
        ensures presses { OnOk result (Presses self.old self.new keys.now) }
        ensures fault { IfErr result (FailsTyping self.old self.new) }
        ensures set { IsSet self.old.typing self.new.typing }
        ensures same { self.new ≡ pressed_in self.old self.new }
    {
        if self.loss.is_some() {
            if keys.contains(&ETX) {
                self.is_final = true;
                self.end = self.loss;
            }
            return Ok(());
        }
        if self.is_helping {
            self.is_helping = false;
            self.is_covered = self.is_cut;
            self.redraw()?;
            if keys.len() <= LONGEST_KEY {
                return Ok(());
            }
        }
        self.type_keys(keys)
    }

    // Takes keys of a client that knows a server and shows no help.
    fn type_keys(&mut self, keys: &[u8]) -> Result<(), PeerFault>
        ensures types { OnOk result (Types self.old self.new keys.now) }
        ensures fault { IfErr result (FailsTyping self.old self.new) }
        ensures set { IsSet self.old.typing self.new.typing }
        ensures same { self.new ≡ assisted_in self.old self.new }
    {
        if self.typing.assists {
            return self.assist(keys);
        }
        if self.fits {
            self.typing.follow_all(keys);
        }
        self.put_frames(Kind::Keys, keys)?;
        Ok(())
    }

    // Takes keys of a client that has its own.
    fn assist(&mut self, keys: &[u8]) -> Result<(), PeerFault>
        ensures set { IsSet self.old.typing self.new.typing }
        ensures sends { OnOk result (SendsAssisted self.old self.new keys.now) }
        ensures fault { IfErr result (FailsTyping self.old self.new) }
        ensures same { self.new ≡ assisted_in self.old self.new }
    {
        let mut out = Vec::new(self.alloc);
        let before = self.typing.back;
        self.typing
            .assist(keys, self.rows.saturating_sub(3), &mut out)?;
        self.put_frames(Kind::Keys, &out)?;
        self.tell_scrolled(before)?;
        self.help()
    }

    // Says how to come back, if the view was moved.
    fn tell_scrolled(&mut self, before: u16) -> Result<(), PeerFault>
        ensures tells { OnOk result (TellsScrolled self.old self.new before self.old.frames.items) }
        ensures fault { IfErr result (FailsTyping self.old self.new) }
        ensures same { self.new ≡ record self.old { frames = self.new.frames; notice = self.new.notice } }
    {
        if self.typing.back == before {
            return Ok(());
        }
        if self.typing.back == 0 {
            self.notice.stage = NoticeStage::Nothing;
            return self.redraw();
        }
        self.notice.tell_scrolled(self.alloc, self.typing.back)?;
        Ok(())
    }

    /// Takes the end of standard input.
    pub fn end_input(&mut self, fault: Option<PeerFault>) -> Result<(), AllocError>
        ensures ends { self.new ≡ without_input self.old fault self.new }
        ensures tells { OnOk result (self.new.frames.items ≡ self.old.frames.items ++ frame Detach []) }
    {
        if fault.is_some() {
            self.fault = fault;
        }
        self.is_final |= self.loss.is_some();
        self.times.again = 0;
        self.detach()
    }
}
