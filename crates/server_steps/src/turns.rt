//! What a turn of a loop brought, and what is to be done next.

ghost use Rattle.std.specs.Prelude.{◌≡◌};
ghost use Rattle.server_steps.specs.Turns.{drawn_from, next_from};

use crate::submitted::Submitted;
use server_connections::ServerEnd;

/// What a loop has to do, though no event will tell of it.
#[derive(Clone, Copy, PartialEq, Eq)]
pub enum Pending {
    /// To do something at once.
    Work,
    /// To try something again soon.
    Retry,
    /// To look whether a connection used up its time.
    Patience,
    Nothing,
}

/// What the reads of a turn brought.
#[derive(Clone, Copy)]
pub struct Reads {
    /// Keys of a client were submitted.
    pub has_typed: bool,
    /// A connection had more bytes than one read takes, or windows had more output than one step takes.
    pub is_much: bool,
    pub submitted: Submitted,
}

/// What the end of a turn brought.
#[derive(Clone, Copy)]
pub struct Writes {
    /// How many clients were drawn.
    pub drawn: usize,
    pub submitted: Submitted,
    /// Why the server is to end, if it is.
    pub end: Option<ServerEnd>,
}

/// From which key on draws are asked for in this turn, if they are. A round that was begun is gone on with,
/// even if draws are held.
pub fn drawn_from(from: Option<usize>, is_held: bool) -> Option<usize>
    ensures { result ≡ drawn_from from is_held }
{
    match from {
        None => if is_held { None } else { Some(0) },
        Some(from) => Some(from),
    }
}

/// From which key on draws are asked for in the next turn, if some clients are left: they follow, and clients
/// before the key from which this turn went on may wait for one again.
pub fn next_from(next: Option<usize>, from: usize, is_held: bool) -> Option<usize>
    ensures { result ≡ next_from next from is_held }
{
    match next {
        None => if 0 < from && !is_held { Some(0) } else { None },
        Some(next) => Some(next),
    }
}
