//! Frames that peers send, byte by byte, and what they are sent.

use crate::Stop;
use attach_proto::{Message, ProtoFault, Reader, Side, Why};
use std::alloc::Global;

/// The users' file.
pub(crate) const USERS: &[u8] =
    b"own 0000000000000000000000000000000000000000000000000000000000000000
bob 000000000000000000000000000000000000000000000000000000000000000b
";

/// A client of the owner, of 4 lines by 20 columns: 74 bytes.
pub const ATTACH: &[u8] =
    b"A\0G\0\x04\0\x140000000000000000000000000000000000000000000000000000000000000000own";

/// A client of bob.
pub const ATTACH_BOB: &[u8] =
    b"A\0G\0\x04\0\x14000000000000000000000000000000000000000000000000000000000000000bbob";

/// A window of the owner, of 2 lines by 20 columns, with the title `w`: 78 bytes.
pub const WINDOW: &[u8] =
    b"W\0K\0\x02\0\x14\0\00000000000000000000000000000000000000000000000000000000000000000\x03ownw";

/// A command of the owner, `wall hi`: 79 bytes.
pub const WALL: &[u8] =
    b"C\0L\xff0000000000000000000000000000000000000000000000000000000000000000\x03ownwall hi";

/// A command of the owner, `multiuser on`.
pub const MULTIUSER: &[u8] =
    b"C\0\x51\xff0000000000000000000000000000000000000000000000000000000000000000\
    \x03ownmultiuser on";

/// A command of the owner, `acladd bob`.
pub const ACLADD: &[u8] =
    b"C\0\x4F\xff0000000000000000000000000000000000000000000000000000000000000000\
    \x03ownacladd bob";

/// A command of the owner, `quit`.
pub const QUIT: &[u8] =
    b"C\0\x49\xff0000000000000000000000000000000000000000000000000000000000000000\x03ownquit";

/// The frame by which a client or a window leaves.
pub const DETACH: &[u8] = b"D\0\0";

/// The frame that a client or a command is sent first.
pub const WELCOME: &[u8] = b"y\0\x01\0";

/// The frame that a peer is sent last if it, or the server, failed.
pub const GONE_FAULT: &[u8] = b"g\0\x01\x06";

/// The messages that a peer was sent.
#[derive(Drop)]
pub struct Received {
    pub messages: Vec<Message>,
}

impl Received {
    /// The messages of these bytes.
    pub fn of(alloc: Global, bytes: &[u8]) -> Result<Received, Stop> {
        let mut messages = Vec::new(alloc);
        let read = Reader::new(alloc, Side::Peer).feed(bytes, &mut messages);
        match read {
            Ok(()) => Ok(Received { messages }),
            Err(ProtoFault::NoMemory) => Err(Stop::Memory),
            Err(_) => Err(Stop::Other("what was sent is no frames")),
        }
    }

    /// The bytes for a window's program.
    pub fn input(&self, alloc: Global) -> Result<Vec<u8>, Stop> {
        let mut all = Vec::new(alloc);
        for message in &self.messages {
            if let Message::Input(bytes) = message {
                all.extend_from_slice(bytes.as_slice())?;
            }
        }
        Ok(all)
    }

    /// The bytes for a client's terminal.
    pub fn drawn(&self, alloc: Global) -> Result<Vec<u8>, Stop> {
        let mut all = Vec::new(alloc);
        for message in &self.messages {
            if let Message::Draw(bytes) = message {
                all.extend_from_slice(bytes.as_slice())?;
            }
        }
        Ok(all)
    }

    pub fn says(&self, wanted: &str) -> bool {
        self.messages.iter().any(|message| match message {
            Message::Say(text) => text.as_str() == wanted,
            _ => false,
        })
    }

    /// Why the peer is let go, if its last frame says so.
    pub fn gone(&self) -> Option<Why> {
        match self.messages.last() {
            Some(Message::Gone(why)) => Some(*why),
            _ => None,
        }
    }
}
