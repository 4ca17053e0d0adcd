//! What happens on a stage, and what is seen of it.

use crate::streams::{Habit, StreamLog};
use server_loop::ServerEnd;

/// What happens. Connections count from 0, in the order in which they came.
#[derive(Clone, Copy)]
pub enum StageAct<'a> {
    /// A connection comes, and sends these bytes. Without memory the loop closes it.
    Connect(Habit, &'a [u8]),
    /// One that is taken in though no more are to stay.
    ConnectExtra(&'a [u8]),
    Send(usize, &'a [u8]),
    /// A connection ends after what it sent.
    End(usize),
    /// The one that came last ends, and its number is free.
    Leave,
    SetHabit(usize, Habit),
    /// This many turns, in each of which all connections may be read and written.
    Turns(usize),
    /// At most this many turns in which nothing comes, while the loop has something to do.
    QuietTurns(usize),
    /// It is this second, and this many milliseconds pass before each turn. Connections that were
    /// waited for long enough go.
    SetTime(u64, u64),
    /// If the first message of this many connections or more isn't done, the oldest of them goes.
    LetOldestGo(usize),
    /// The server ends for this cause.
    Finish(ServerEnd),
    /// How the loop stands is noted, and what is seen of the connections from this one on.
    Note(usize),
}

/// How a loop stands.
#[derive(Clone, Copy)]
pub struct LoopState {
    /// How many connections it has.
    pub len: usize,
    /// Whether it has something to do, though nothing comes.
    pub is_due: bool,
    /// Whether it is to try something again soon.
    pub has_waiting: bool,
    pub end: Option<ServerEnd>,
}

/// What is seen at a moment.
#[derive(Drop)]
pub struct Note {
    pub standing: LoopState,
    /// The first connection of which something was noted.
    pub first: usize,
    pub sent: Vec<StreamLog>,
}

/// What is seen of a play.
#[derive(Drop)]
pub struct Seen {
    pub notes: Vec<Note>,
    /// The trail's entries, a letter for each.
    pub entries: Vec<u8>,
}

impl Seen {
    /// How the loop stood at a note.
    pub fn standing(&self, note: usize) -> Option<LoopState> {
        match self.notes.get(note) {
            Some(note) => Some(note.standing),
            None => None,
        }
    }

    /// What became of a connection's stream up to a note.
    pub fn sent(&self, note: usize, connection: usize) -> Option<&StreamLog> {
        let note = self.notes.get(note)?;
        note.sent.get(connection.checked_sub(note.first)?)
    }

    /// The bytes that a connection was sent up to a note; `?` if there is no such note or connection.
    pub fn bytes(&self, note: usize, connection: usize) -> &[u8] {
        match self.sent(note, connection) {
            Some(sent) => sent.bytes.as_slice(),
            None => b"?",
        }
    }
}
