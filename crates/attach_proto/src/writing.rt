//! Messages as frames: each has one spelling.

ghost use Rattle.std.specs.Prelude.{◌≡◌, ◌++◌, ◌≤◌, length, OnOk, OnErr, IfOk, MatchOption, Err, ℕ, List, [], None};
ghost use Rattle.attach_proto.specs.Spelling.{kind_of, payload, frame, spelling, HasFields, IsSpellable};
ghost use Rattle.std.specs.List.{flat_map, AllByRecursion};
ghost use Rattle.attach_proto.specs.declared.kind.Side.{Side};
ghost use Rattle.attach_proto.specs.declared.message.Message.{Message};
ghost use Rattle.attach_proto.specs.Streams.{IsRead, Splits, Reading, HasRead};

use crate::fault::WriteFault;
use crate::kind::Kind;
use crate::message::{Message, has_fields, put_payload};
use crate::reading::LONGEST;
use std::alloc::{AllocError, Global};

/// How many bytes a frame has before its payload.
const HEAD: usize = 3;

/// The bytes before the payload in a frame of this kind.
pub fn head_of(kind: Kind, payload: &[u8]) -> [u8; HEAD]
    requires { length payload.now ≤ 8192 }
    ensures { result ++ payload.now ≡ frame kind payload.now }
{
    let len = payload.len() as u16;
    [kind.code(), (len / 256) as u8, (len % 256) as u8]
}

// The frame of a message, or None if its payload is too long.
fn frame_of(alloc: Global, message: &Message) -> Result<Option<Vec<u8>>, AllocError>
    requires { HasFields message.now }
    ensures { IfOk result (λ made. MatchOption made (length (payload message.now) ≤ 8192 → ⊥)
        (λ v. (length (payload message.now) ≤ 8192)
        × (v.items ≡ frame (kind_of message.now) (payload message.now)))) }
{
    let mut payload = Vec::new(alloc);
    put_payload(&mut payload, message)?;
    if LONGEST < payload.len() {
        return Ok(None);
    }
    let mut frame = Vec::new(alloc);
    frame.extend_from_slice(&head_of(message.kind(), &payload))?;
    frame.extend_from_slice(&payload)?;
    Ok(Some(frame))
}

/// Appends the one frame that spells the message.
#[tactic(auto, unfolding(crate::specs::Spelling::spelling))]
pub fn write_message(alloc: Global, message: &Message, out: &mut Vec<u8>) -> Result<(), WriteFault>
    ensures ok { OnOk result (IsSpellable message.now
        × (out.new.items ≡ out.old.items ++ spelling message.now)) }
    ensures unspellable { result ≡ Err WriteFault.Unspellable → IsSpellable message.now → ⊥ }
    ensures err { OnErr result (out.new.items ≡ out.old.items) }
{
    if !has_fields(message) {
        return Err(WriteFault::Unspellable);
    }
    let Some(frame) = frame_of(alloc, message)? else {
        return Err(WriteFault::Unspellable);
    };
    out.extend_from_slice(&frame)?;
    Ok(())
}

/// Two frames at the front of one stream spell the same message: each message has its own spelling, and
/// no spelling begins another.
pub fn spelled_apart()
    ensures { (m n : Message) (x y : List ℕ) → IsSpellable m → IsSpellable n
        → spelling m ++ x ≡ spelling n ++ y → (m ≡ n) × (x ≡ y) }
{}

/// A reader that has read nothing reads the frames of messages as these messages.
pub fn spelled_ones_are_read()
    ensures { (side : Side) (messages : List Message) → AllByRecursion (IsRead side) messages
        → HasRead (record { side = side; rest = []; fault = None }) messages
        (flat_map spelling messages) }
{}

/// The messages that a reader gave are those of all whole frames at the front of its stream.
pub fn longest_list()
    ensures { (r : Reading) (messages others : List Message) (stream rest : List ℕ)
        → HasRead r messages stream → Splits r.side stream others rest
        → (more : List Message) × (messages ≡ others ++ more) }
{}

/// A stream has one list of messages and one fault, no matter how it was cut into pieces.
pub fn one_reading()
    ensures { (r s : Reading) (messages others : List Message) (stream : List ℕ) → r.side ≡ s.side
        → HasRead r messages stream → HasRead s others stream
        → (messages ≡ others) × (r.fault ≡ s.fault) }
{}
