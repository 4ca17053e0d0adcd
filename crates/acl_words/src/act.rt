use crate::bits::Bit;
use crate::command_name::CommandName;
use crate::user_id::UserId;

/// What a right applies to: a window, by its serial number, or a command.
#[derive(Clone, Copy, PartialEq, Eq, Hash, Debug)]
pub enum Object {
    Window(u32),
    Command(CommandName),
}

/// The two presets for a name that becomes known: `?` for each open window, `??` for each command.
#[derive(Clone, Copy, PartialEq, Eq, Hash, Debug)]
pub enum PresetKind {
    Windows,
    Commands,
}

/// How a window's write lock is taken and freed.
#[derive(Clone, Copy, PartialEq, Eq, Hash, Debug)]
pub enum LockMode {
    Off,
    Auto,
    On,
}

/// An event in the history of a session's rights and locks. Windows and clients are named by their
/// serial numbers.
#[derive(Clone, Copy, PartialEq, Eq, Debug)]
pub enum Act {
    Known {
        user: UserId,
    },
    Gone {
        user: UserId,
    },
    Set {
        user: UserId,
        bit: Bit,
        object: Object,
        value: bool,
    },
    Grouped {
        user: UserId,
        leader: Option<UserId>,
    },
    Masked {
        by: UserId,
        user: UserId,
        bit: Bit,
        value: bool,
    },
    Preset {
        kind: PresetKind,
        bit: Bit,
        value: bool,
    },
    Opened {
        by: UserId,
        window: u32,
    },
    Closed {
        window: u32,
    },
    Attached {
        client: u32,
        user: UserId,
    },
    Parted {
        client: u32,
    },
    Entered {
        user: UserId,
        window: u32,
    },
    Left {
        user: UserId,
        window: u32,
    },
    Mode {
        by: UserId,
        window: u32,
        mode: LockMode,
    },
    Default {
        mode: LockMode,
    },
}
