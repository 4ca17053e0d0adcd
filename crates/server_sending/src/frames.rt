//! What peers are sent, as frames.

ghost use Rattle.std.specs.Prelude.{◌≡◌, ◌≤◌, ◌<◌, ◌+◌, ◌⊎◌, Err, None, OnOk, OnErr, length};
ghost use Rattle.attach_proto.specs.Spelling.{IsSpellable, spelling};
ghost use Rattle.attach_proto.specs.declared.kind.Kind.TheVariants as kind;
ghost use Rattle.attach_proto.specs.declared.message.Message.TheVariants as message;
ghost use Rattle.server_sending.specs.Frames.{EndsDraw, IsUnspellable, PutsDraw, PutsFrames, PutsFront, PutsMessage};
ghost use Rattle.server_sending.specs.Frames.{Sends, SendsFront};
ghost use Rattle.server_sending.specs.Causes.{told_of};

use crate::turn::Turn;
use acl::UserId;
use attach_proto::{Kind, LONGEST, Message, Text, Why, WriteFault, head_of, write_message};
use session::Reason;
use std::alloc::{AllocError, Global};

/// The frame GONE, which takes no memory.
#[tactic(auto, unfolding(attach_proto::specs::Spelling::spelling))]
pub fn gone_frame(why: Why) -> [u8; 4]
    ensures { result ≡ spelling (message.Gone why) }
{
    [Kind::Gone.code(), 0, 1, why.number()]
}

/// The cause that a peer is told, by the session's reason.
pub fn why_of(reason: Reason) -> Why
    ensures { result ≡ told_of reason }
{
    match reason {
        Reason::Detached => Why::Detached,
        Reason::Removed => Why::Removed,
        Reason::SingleUser => Why::SingleUser,
        Reason::Killed => Why::Killed,
        Reason::Quit => Why::Quit,
    }
}

/// What a peer is sent before its last frame.
#[derive(Clone, Copy, Debug)]
pub enum Sending<'a> {
    /// A message in one frame.
    Message(&'a Message),
    /// Bytes for a client's terminal.
    Draw(&'a [u8]),
    /// Bytes for a window's program, and the user who typed them, if one did.
    Input(&'a [u8], Option<UserId>),
    /// A text for the user.
    Say(&'a [u8]),
}

/// Puts a message after what waits.
fn put_message(alloc: Global, turn: &mut Turn, message: &Message) -> Result<(), WriteFault>
    ensures ok { OnOk result (PutsMessage message.now turn.old turn.new) }
    ensures unspellable { result ≡ Err WriteFault.Unspellable → ¬ IsSpellable message.now }
    ensures err { OnErr result (turn.new ≡ turn.old) }
{
    let mut frame = Vec::new(alloc);
    write_message(alloc, message, &mut frame)?;
    turn.put(&frame)?;
    Ok(())
}

/// Puts a text after what waits.
fn put_text(alloc: Global, turn: &mut Turn, text: &[u8]) -> Result<(), WriteFault>
    ensures ok { OnOk result (PutsMessage (message.Say text.now) turn.old turn.new) }
    ensures unspellable { result ≡ Err WriteFault.Unspellable
        → ¬ IsSpellable (message.Say text.now) }
    ensures err { OnErr result (turn.new ≡ turn.old) }
{
    match str::from_utf8(text) {
        Ok(text) => put_message(alloc, turn, &Message::Say(Text::of(alloc, text)?)),
        Err(_) => Err(WriteFault::Unspellable),
    }
}

/// Puts the bytes after what waits for a peer, in as many frames of this kind as they take.
fn put_frames(
    turn: &mut Turn,
    kind: Kind,
    bytes: &[u8],
    typist: Option<UserId>,
) -> Result<(), AllocError>
    ensures ok { OnOk result (PutsFrames kind typist bytes.now turn.old turn.new) }
    ensures err { OnErr result (PutsFront kind typist bytes.now turn.old turn.new) }
{
    for piece in bytes.chunks(LONGEST) {
        turn.put_frame(head_of(kind, piece), piece, typist)?;
    }
    Ok(())
}

/// The length of a draw's next frame, which isn't the last one. At least 2 bytes are left for that.
fn next_len(left: usize) -> usize
    requires { 8192 ≤ left }
    ensures goes_on { (result ≡ 1) ⊎ (result ≡ 8192) }
    ensures leaves { result + 2 ≤ left }
{
    if left < LONGEST + 2 { 1 } else { LONGEST }
}

/// Puts a draw after what waits for a client. After a frame of 1 or 8,192 bytes a client expects another one, so the
/// last frame has another length.
fn put_draw(turn: &mut Turn, bytes: &[u8]) -> Result<(), AllocError>
    ensures ok { OnOk result (PutsFrames kind.Draw None bytes.now turn.old turn.new) }
    ensures ends { OnOk result (1 < length bytes.now → PutsDraw bytes.now turn.old turn.new) }
    ensures err { OnErr result (PutsFront kind.Draw None bytes.now turn.old turn.new) }
{
    let mut rest = bytes;
    'pieces: while rest.len() >= LONGEST {
        let (piece, later) = rest.split_at(next_len(rest.len()));
        turn.put_frame(head_of(Kind::Draw, piece), piece, None)?;
        rest = later;
    }
    if rest.is_empty() {
        return Ok(());
    }
    turn.put_frame(head_of(Kind::Draw, rest), rest, None)
}

/// Puts something after what waits for a peer. Bytes that are too long for one frame go into several.
/// What no frame can hold is `Unspellable`. If memory is refused, the first of the bytes may
/// have been put.
pub fn put(alloc: Global, turn: &mut Turn, sending: Sending) -> Result<(), WriteFault>
    ensures ok { OnOk result (Sends sending.entry turn.old turn.new) }
    ensures ends { OnOk result (EndsDraw sending.entry turn.old turn.new) }
    ensures unspellable { result ≡ Err WriteFault.Unspellable → IsUnspellable sending.entry }
    ensures err { OnErr result (SendsFront sending.entry turn.old turn.new) }
{
    match sending {
        Sending::Message(message) => put_message(alloc, turn, message),
        Sending::Draw(bytes) => Ok(put_draw(turn, bytes)?),
        Sending::Input(bytes, typist) => Ok(put_frames(turn, Kind::Input, bytes, typist)?),
        Sending::Say(text) => put_text(alloc, turn, text),
    }
}
