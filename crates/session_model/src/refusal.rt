//! What is checked, and why a step was refused.

ghost use Rattle.std.specs.Prelude.{◌≡◌};
ghost use Rattle.session_model.specs.declared.refusal.Refusal.TheVariants.{NoMemory};
ghost use Rattle.session_model.specs.Faults.{refusal_of};

use acl::{AclFault, Bit, CommandName, Leaders, Object, UserId};
use command_lang::ParseFault;
use regions::RegionFault;
use std::alloc::{AllocError, AllocFailed};
use windows_model::WindowsFault;

/// A check: a right that a user needs, a lock that no other user may hold, or a fact with the
/// refusal if it doesn't hold.
#[derive(Clone, Copy, PartialEq, Eq, Debug)]
pub enum Check {
    Right(UserId, Bit, Object),
    Unlocked(UserId, u32),
    Must(bool, Refusal),
}

/// The object on which a bit is missing: a window, by its serial and its number, or a command.
#[derive(Clone, Copy, PartialEq, Eq, Debug)]
pub enum Denied {
    Window { serial: u32, number: u8 },
    Command(CommandName),
}

/// The entry that denies a bit, and the user's leaders, whose entries deny it too.
#[derive(Clone, Copy, PartialEq, Eq, Debug)]
pub struct EntryDenied {
    pub user: UserId,
    pub bit: Bit,
    pub on: Denied,
    pub leaders: Leaders,
}

/// A lock that another user holds on the window with this serial and number.
#[derive(Clone, Copy, PartialEq, Eq, Debug)]
pub struct LockDenied {
    pub serial: u32,
    pub number: u8,
    pub holder: UserId,
}

/// Why a step was refused. Its text names the cause.
#[derive(Clone, Copy, PartialEq, Eq, Debug)]
pub enum Refusal {
    EntryDenied(EntryDenied),
    LockDenied(LockDenied),
    /// The session isn't in multiuser mode: only the owner may attach and open windows, and access
    /// lists can't be changed.
    NotMultiuser,
    /// The user isn't known.
    UnknownUser,
    /// There is no such window or client, or no window is in focus.
    NoWindow,
    TooManyClients,
    NoMemory,
    BadSize,
    Acl(AclFault),
    Windows(WindowsFault),
    Line(ParseFault),
    Regions(RegionFault),
}

impl From<WindowsFault> for Refusal {
    ghost from_gives = { λ fault e. e ≡ refusal_of fault };

    fn from(fault: WindowsFault) -> Refusal {
        match fault {
            WindowsFault::NoSuchWindow => Refusal::NoWindow,
            WindowsFault::NoMemory => Refusal::NoMemory,
            _ => Refusal::Windows(fault),
        }
    }
}

impl From<AllocError> for Refusal {
    ghost from_gives = { λ _ e. e ≡ NoMemory };

    fn from(_e: AllocError) -> Refusal {
        Refusal::NoMemory
    }
}

impl<T: Drop> From<AllocFailed<T>> for Refusal {
    ghost from_gives = { λ _ e. e ≡ NoMemory };

    fn from(_e: AllocFailed<T>) -> Refusal {
        Refusal::NoMemory
    }
}

/// The verdict of a check: of a bit, with its answer, or of a lock, with its holder.
#[derive(Clone, Copy, PartialEq, Eq, Debug)]
pub enum Verdict {
    Right {
        user: UserId,
        bit: Bit,
        object: Object,
        answer: bool,
    },
    Lock {
        user: UserId,
        window: u32,
        holder: Option<UserId>,
    },
}
