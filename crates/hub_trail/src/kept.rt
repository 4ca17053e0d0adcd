//! What a trail keeps of an event and of its reply.

ghost use Rattle.std.specs.Prelude.{◌≡◌, ◌↔◌, IfOk, false, is_ok, is_some, true};
ghost use Rattle.session.specs.Trace.{happening};
ghost use Rattle.hub_trail.specs.Filing.{copies, ending_of, finished_by, kept_of};
ghost use Rattle.hub_trail.specs.declared.kept.Kept.TheVariants as kept;

use acl::UserId;
use session::{Bytes, Done, Event, Refusal, Reply};
use std::alloc::{AllocError, Global};

/// An event, as a trail keeps it: Keys without their bytes, and a Command with its line.
#[derive(Debug, Drop)]
pub enum Kept {
    Attach {
        user: UserId,
        rows: u16,
        columns: u16,
    },
    Detach {
        client: u32,
    },
    Keys {
        client: u32,
    },
    Command {
        user: UserId,
        window: Option<u8>,
        line: Bytes,
    },
    Open {
        user: UserId,
        rows: u16,
        columns: u16,
        keep: u16,
        title: Bytes,
    },
    Closed {
        window: u32,
    },
}

/// What a step did that wasn't refused, without the text that it lists.
#[derive(Clone, Copy, PartialEq, Eq, Debug)]
pub struct Finished {
    /// The number of bytes of a Keys event that were read; 0 for other events.
    pub taken: usize,
    /// The serial of what was attached or opened; 0 for other events.
    pub made: u32,
    /// The number of the window that was opened; 0 for other events.
    pub number: u8,
}

/// A reply without its text.
pub type Ending = Result<Finished, Refusal>;

/// What a trail keeps of a Command.
fn kept_command(
    alloc: Global,
    user: UserId,
    window: Option<u8>,
    line: &[u8],
) -> Result<Kept, AllocError>
    ensures { IfOk result (λ made. made ≡ kept.Command user window line.now) }
{
    let line = Bytes::of(alloc, line)?;
    Ok(Kept::Command { user, window, line })
}

/// What a trail keeps of an Open.
fn kept_open(
    alloc: Global,
    user: UserId,
    size: (u16, u16),
    keep: u16,
    title: &[u8],
) -> Result<Kept, AllocError>
    ensures { IfOk result (λ made. made ≡ kept.Open user size.0 size.1 keep title.now) }
{
    let title = Bytes::of(alloc, title)?;
    Ok(Kept::Open {
        user,
        rows: size.0,
        columns: size.1,
        keep,
        title,
    })
}

/// Whether the event writes an entry.
pub fn writes_entry(event: Event) -> bool
    ensures { result ≡ is_some (kept_of (happening event.entry)) }
{
    matches!(
        event,
        Event::Attach { .. }
            | Event::Detach { .. }
            | Event::Keys { .. }
            | Event::Command { .. }
            | Event::Open { .. }
            | Event::Closed { .. }
    )
}

impl Kept {
    /// What a trail keeps of the event; `Ok(None)` if the event writes no entry. `AllocError` if
    /// memory is refused.
    pub fn of(alloc: Global, event: Event<'_>) -> Result<Option<Kept>, AllocError>
        ensures ok { IfOk result (λ kept. kept ≡ kept_of (happening event.entry)) }
        // Only the line of a Command, and the title of an Open, take memory.
        ensures plain { copies (happening event.entry) ≡ false → is_ok result ≡ true }
    {
        let kept = match event {
            Event::Attach {
                user,
                rows,
                columns,
            } => Kept::Attach {
                user,
                rows,
                columns,
            },
            Event::Detach { client } => Kept::Detach { client },
            Event::Keys { client, .. } => Kept::Keys { client },
            Event::Command { user, window, line } => kept_command(alloc, user, window, line)?,
            Event::Open {
                user,
                rows,
                columns,
                keep,
                title,
            } => kept_open(alloc, user, (rows, columns), keep, title.as_bytes())?,
            Event::Closed { window } => Kept::Closed { window },
            _ => return Ok(None),
        };
        Ok(Some(kept))
    }

    /// A copy of the event. `AllocError` if memory is refused; only a line or a title takes memory.
    pub fn copy(&self, alloc: Global) -> Result<Kept, AllocError>
        ensures { IfOk result (λ copy. copy ≡ self.now) }
    {
        let copy = match self {
            Kept::Attach {
                user,
                rows,
                columns,
            } => Kept::Attach {
                user: *user,
                rows: *rows,
                columns: *columns,
            },
            Kept::Detach { client } => Kept::Detach { client: *client },
            Kept::Keys { client } => Kept::Keys { client: *client },
            Kept::Command { user, window, line } => {
                kept_command(alloc, *user, *window, line.as_slice())?
            }
            Kept::Open {
                user,
                rows,
                columns,
                keep,
                title,
            } => kept_open(alloc, *user, (*rows, *columns), *keep, title.as_slice())?,
            Kept::Closed { window } => Kept::Closed { window: *window },
        };
        Ok(copy)
    }

    /// Whether both events are equal.
    pub fn is_same(&self, other: &Kept) -> bool
        ensures { (result ≡ true) ↔ (self.now ≡ other.now) }
    {
        match (self, other) {
            (
                Kept::Attach {
                    user,
                    rows,
                    columns,
                },
                Kept::Attach {
                    user: named,
                    rows: height,
                    columns: width,
                },
            ) => user == named && rows == height && columns == width,
            (Kept::Detach { client }, Kept::Detach { client: named }) => client == named,
            (Kept::Keys { client }, Kept::Keys { client: named }) => client == named,
            (Kept::Command { user, window, line }, _) => is_command(other, *user, *window, line),
            (
                Kept::Open {
                    user,
                    rows,
                    columns,
                    keep,
                    title,
                },
                _,
            ) => is_open(other, *user, (*rows, *columns), *keep, title),
            (Kept::Closed { window }, Kept::Closed { window: named }) => window == named,
            _ => false,
        }
    }
}

impl Finished {
    /// What a step did, without the text that it lists.
    pub fn of(done: &Done) -> Finished
        ensures { result ≡ finished_by done.now }
    {
        Finished {
            taken: done.taken,
            made: done.made,
            number: done.number,
        }
    }
}

/// The reply without its text.
pub fn ending_of(reply: &Reply) -> Ending
    ensures { result ≡ ending_of reply.now }
{
    match reply {
        Ok(done) => Ok(Finished::of(done)),
        Err(refusal) => Err(*refusal),
    }
}

/// Whether the event is this Command.
fn is_command(event: &Kept, user: UserId, window: Option<u8>, line: &Bytes) -> bool
    ensures { (result ≡ true) ↔ (event.now ≡ kept.Command user window line.now) }
{
    match event {
        Kept::Command {
            user: named,
            window: number,
            line: given,
        } => *named == user && *number == window && given.as_slice() == line.as_slice(),
        _ => false,
    }
}

/// Whether the event is this Open.
fn is_open(event: &Kept, user: UserId, size: (u16, u16), keep: u16, title: &Bytes) -> bool
    ensures { (result ≡ true) ↔ (event.now ≡ kept.Open user size.0 size.1 keep title.now) }
{
    match event {
        Kept::Open {
            user: named,
            rows,
            columns,
            keep: kept,
            title: given,
        } => {
            let is_size = *rows == size.0 && *columns == size.1;
            *named == user && is_size && *kept == keep && given.as_slice() == title.as_slice()
        }
        _ => false,
    }
}
