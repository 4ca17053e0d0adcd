//! The front of a stream.

ghost use Rattle.std.specs.Prelude.{◌≡◌, ◌<◌, IfOk};
ghost use Rattle.attach_proto.specs.Reading.{front, sized, of_length};

use crate::fault::{ProtoFault, Unread};
use crate::kind::{Kind, Side};
use crate::message::{Message, message_of};
use std::alloc::{AllocError, Global};

/// The front of a stream: a frame, a part of one, or a fault.
#[derive(Drop)]
pub enum Front {
    /// Less than a whole frame, with no fault in it.
    Part,
    Broken(ProtoFault),
    /// The message of a frame, and how many bytes the frame takes.
    Whole(Message, usize),
}

/// The most bytes that a frame has after its kind and length.
pub const LONGEST: usize = 8192;

fn of_length(alloc: Global, kind: Kind, n: usize, bytes: &[u8]) -> Result<Front, AllocError>
    requires { n < 65536 }
    ensures { IfOk result (λ f. f ≡ of_length kind n bytes.now) }
{
    if LONGEST < n {
        return Ok(Front::Broken(ProtoFault::TooLong));
    }
    if bytes.len() < n {
        return Ok(Front::Part);
    }
    match message_of(alloc, kind, &bytes[..n]) {
        Ok(message) => Ok(Front::Whole(message, n + 3)),
        Err(Unread::Payload) => Ok(Front::Broken(ProtoFault::BadPayload)),
        Err(Unread::Memory) => Err(AllocError),
    }
}

fn sized(alloc: Global, kind: Kind, bytes: &[u8]) -> Result<Front, AllocError>
    ensures { IfOk result (λ f. f ≡ sized kind bytes.now) }
{
    match bytes {
        [high, low, rest @ ..] => of_length(
            alloc,
            kind,
            256 * *high as usize + *low as usize,
            rest,
        ),
        _ => Ok(Front::Part),
    }
}

/// Reads the front of this stream.
#[tactic(auto, unfolding(crate::specs::Reading::front))]
pub fn front_of(alloc: Global, side: Side, bytes: &[u8]) -> Result<Front, AllocError>
    ensures { IfOk result (λ f. f ≡ front side bytes.now) }
{
    match bytes {
        [] => Ok(Front::Part),
        [byte, rest @ ..] => match Kind::of_code(*byte) {
            None => Ok(Front::Broken(ProtoFault::BadKind)),
            Some(kind) => {
                if kind.reader() != side {
                    return Ok(Front::Broken(ProtoFault::WrongSide));
                }
                sized(alloc, kind, rest)
            }
        },
    }
}
