//! The events of a session, what comes of them, and how many clients and serials there may be.

use crate::refusal::Refusal;
use acl::UserId;
use strings::Bytes;

/// The most clients that may be attached at once.
pub const CLIENTS: usize = 64;

/// The number of serials that there are for windows, and as many for clients. Each serial is given
/// once.
pub const SERIALS: u64 = 1 << 32;

/// An event. It lends its bytes and its texts. Windows and clients are named by their serial
/// numbers, which count from 0 in the order in which they came; only a command names its window by
/// the window's number. Sizes are given in lines and columns.
#[derive(Clone, Copy, Debug)]
pub enum Event<'a> {
    /// A client of a user attaches; its terminal has 4 to 200 lines by 20 to 300 columns.
    Attach {
        user: UserId,
        rows: u16,
        columns: u16,
    },
    /// A client goes.
    Detach {
        client: u32,
    },
    /// Keys of a client: at most 8,192 bytes.
    Keys {
        client: u32,
        bytes: &'a [u8],
    },
    /// A command line of a user outside of any client, perhaps for a window.
    Command {
        user: UserId,
        window: Option<u8>,
        line: &'a [u8],
    },
    /// The terminal of a client has another size now.
    Resize {
        client: u32,
        rows: u16,
        columns: u16,
    },
    /// A user opens a window of 2 to 200 lines by 2 to 300 columns, which keeps up to 2,000 lines
    /// above its page.
    Open {
        user: UserId,
        rows: u16,
        columns: u16,
        keep: u16,
        title: &'a str,
    },
    /// Output of a window's program: at most 8,192 bytes.
    Output {
        window: u32,
        bytes: &'a [u8],
    },
    /// A window's program ended.
    Closed {
        window: u32,
    },
    /// Asks for the bytes that make a client's terminal show the client's view.
    Draw {
        client: u32,
    },
}

/// Why a window or a client goes.
#[derive(Clone, Copy, PartialEq, Eq, Debug)]
pub enum Reason {
    /// It ended, or was detached.
    Detached,
    /// `acldel` removed its user.
    Removed,
    /// The session became single-user.
    SingleUser,
    /// `kill` closed it.
    Killed,
    /// `quit` ended the session.
    Quit,
}

/// A window or a client, by its serial.
#[derive(Clone, Copy, PartialEq, Eq, Debug)]
pub enum Peer {
    Window(u32),
    Client(u32),
}

/// What a step does outside of the session.
#[derive(Debug, Drop)]
pub enum Effect {
    /// Bytes for the program of a window: what was typed into it, or reports of the window's
    /// terminal.
    Input(u32, Bytes),
    /// Bytes for a client's terminal.
    Deliver(u32, Bytes),
    /// A message to a client.
    Say(u32, Bytes),
    /// From now on, a window's program has this many lines and columns.
    Size(u32, u16, u16),
    /// A window is closed, or a client goes.
    Gone(Peer, Reason),
}

/// What a step did that wasn't refused.
#[derive(Debug)]
pub struct Done {
    /// The number of bytes of a Keys event that were read; 0 for other events.
    pub taken: usize,
    /// The serial of what was attached or opened; 0 for other events.
    pub made: u32,
    /// The number of the window that was opened; 0 for other events.
    pub number: u8,
    /// What the command lists, if it lists something.
    pub text: Option<Bytes>,
}

impl Drop for Done {
    fn drop(self) {
        let Done {
            taken: _,
            made: _,
            number: _,
            text: _,
        } = self;
    }
}

/// The answer to an event.
pub type Reply = Result<Done, Refusal>;

/// How far a run of events came.
#[derive(Clone, Copy, PartialEq, Eq, Debug)]
pub struct Ran {
    /// The number of events that were taken completely.
    pub taken: usize,
    /// The number of bytes of the next event that were taken.
    pub part: usize,
    /// Whether the run stopped because memory was refused, for a step or for its reply.
    pub stopped: bool,
}

/// What a client's status line says: nothing, a text, or a list that each draw makes again.
#[derive(Debug, Drop)]
pub enum StatusMessage {
    Silence,
    Text(Bytes),
    AllWindows,
    AllClients,
}
