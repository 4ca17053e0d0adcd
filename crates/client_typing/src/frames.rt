//! What is typed, and what a window's program prints, in frames for the server.

ghost use Rattle.std.specs.Prelude.{◌≡◌, ◌≤◌, ◌++◌, length, OnErr, OnOk};
ghost use Rattle.attach_proto.specs.Spelling.{frame};
ghost use Rattle.client_typing.specs.Framing.{Sends};

use attach_proto::{Kind, LONGEST, head_of};
use std::alloc::AllocError;

/// Appends bytes as frames of a kind.
pub fn put_frames(kind: Kind, bytes: &[u8], frames: &mut Vec<u8>) -> Result<(), AllocError>
    ensures { OnOk result (Sends frames.old.items frames.new.items kind bytes.now) }
{
    let mut rest = bytes;
    'pieces: while !rest.is_empty() {
        let (piece, later) = rest.split_at(rest.len().min(LONGEST));
        put_frame(kind, piece, frames)?;
        rest = later;
    }
    Ok(())
}

/// Appends bytes as one frame of a kind.
pub fn put_frame(kind: Kind, piece: &[u8], frames: &mut Vec<u8>) -> Result<(), AllocError>
    requires { length piece.now ≤ 8192 }
    ensures ok { OnOk result (frames.new.items ≡ frames.old.items ++ frame kind piece.now) }
    ensures err { OnErr result (frames.new.items ≡ frames.old.items) }
{
    let head = head_of(kind, piece);
    frames.reserve(head.len().saturating_add(piece.len()))?;
    frames.extend_from_slice(&head)?;
    frames.extend_from_slice(piece)
}
