//! Whether what two sessions made is the same.

use session::{Bytes, Effect, Peer, Reason, Reply};

/// What an effect is.
#[derive(Clone, Copy)]
pub(crate) struct EffectParts<'a> {
    /// Its kind, a bit for each of the six.
    pub kind: u8,
    /// The serial of the peer that it is for.
    pub peer: u32,
    bytes: &'a [u8],
    size: (u16, u16),
    why: Option<Reason>,
}

const NONE: EffectParts<'static> = EffectParts {
    kind: 0,
    peer: 0,
    bytes: &[],
    size: (0, 0),
    why: None,
};

fn with_bytes(kind: u8, peer: u32, bytes: &Bytes) -> EffectParts<'_> {
    EffectParts {
        kind,
        peer,
        bytes: bytes.as_slice(),
        ..NONE
    }
}

fn with_why(kind: u8, peer: u32, why: Reason) -> EffectParts<'static> {
    EffectParts {
        kind,
        peer,
        why: Some(why),
        ..NONE
    }
}

pub(crate) fn parts_of(effect: &Effect) -> EffectParts<'_> {
    match effect {
        Effect::Input(window, bytes) => with_bytes(1, *window, bytes),
        Effect::Deliver(client, bytes) => with_bytes(2, *client, bytes),
        Effect::Say(client, text) => with_bytes(4, *client, text),
        Effect::Size(window, rows, columns) => EffectParts {
            kind: 8,
            peer: *window,
            size: (*rows, *columns),
            ..NONE
        },
        Effect::Gone(Peer::Window(window), why) => with_why(16, *window, *why),
        Effect::Gone(Peer::Client(client), why) => with_why(32, *client, *why),
    }
}

/// Whether two effects are the same.
pub(crate) fn are_same(effect: EffectParts<'_>, other: EffectParts<'_>) -> bool {
    effect.kind == other.kind
        && effect.peer == other.peer
        && effect.bytes == other.bytes
        && effect.size == other.size
        && effect.why == other.why
}

// Whether both have no text, or the same.
fn is_same_text(text: &Option<Bytes>, other: &Option<Bytes>) -> bool {
    match (text, other) {
        (Some(text), Some(other)) => text.as_slice() == other.as_slice(),
        (None, None) => true,
        _ => false,
    }
}

/// Whether two replies are the same.
pub(crate) fn is_same_reply(reply: &Reply, other: &Reply) -> bool {
    match (reply, other) {
        (Ok(done), Ok(other)) => {
            done.taken == other.taken
                && done.made == other.made
                && done.number == other.number
                && is_same_text(&done.text, &other.text)
        }
        (Err(refusal), Err(other)) => refusal == other,
        _ => false,
    }
}
