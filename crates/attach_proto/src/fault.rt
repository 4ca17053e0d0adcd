//! The faults of reading and of writing.

ghost use Rattle.std.specs.Prelude.{◌≡◌};
ghost use Rattle.attach_proto.specs.Faults.{proto_number, write_number};
ghost use Rattle.attach_proto.specs.declared.fault.Unread.TheVariants as unread;
ghost use Rattle.attach_proto.specs.declared.fault.WriteFault.TheVariants as write;

use std::alloc::{AllocError, AllocFailed};
use thiserror::Error;

/// Why a stream can't be read further.
#[derive(Clone, Copy, Debug, PartialEq, Eq, Error)]
pub enum ProtoFault {
    #[error("no frame begins with this byte")]
    BadKind,
    #[error("the frame is too long")]
    TooLong,
    #[error("the frame's contents don't fit its kind")]
    BadPayload,
    #[error("this side doesn't read frames of this kind")]
    WrongSide,
    #[error("out of memory")]
    NoMemory,
}

impl ProtoFault {
    /// 1 BadKind, 2 TooLong, 3 BadPayload, 4 WrongSide, 5 NoMemory.
    pub fn number(self) -> u8
        ensures { result ≡ proto_number self }
    {
        match self {
            ProtoFault::BadKind => 1,
            ProtoFault::TooLong => 2,
            ProtoFault::BadPayload => 3,
            ProtoFault::WrongSide => 4,
            ProtoFault::NoMemory => 5,
        }
    }
}

/// Why a message can't be written.
#[derive(Clone, Copy, Debug, PartialEq, Eq, Error)]
pub enum WriteFault {
    #[error("no frame spells the message")]
    Unspellable,
    #[error("out of memory")]
    NoMemory,
}

impl WriteFault {
    /// 1 Unspellable, 2 NoMemory.
    pub fn number(self) -> u8
        ensures { result ≡ write_number self }
    {
        match self {
            WriteFault::Unspellable => 1,
            WriteFault::NoMemory => 2,
        }
    }
}

impl From<AllocError> for WriteFault {
    ghost from_gives = { λ _ e. e ≡ write.NoMemory };

    fn from(_error: AllocError) -> WriteFault {
        WriteFault::NoMemory
    }
}

// Why no message was read from a payload: memory ran out, or the payload is wrong.
#[derive(Clone, Copy, PartialEq, Eq)]
pub enum Unread {
    Memory,
    Payload,
}

impl From<AllocError> for Unread {
    ghost from_gives = { λ _ e. e ≡ unread.Memory };

    fn from(_error: AllocError) -> Unread {
        Unread::Memory
    }
}

impl<T: Drop> From<AllocFailed<T>> for Unread {
    ghost from_gives = { λ _ e. e ≡ unread.Memory };

    fn from(_error: AllocFailed<T>) -> Unread {
        Unread::Memory
    }
}
