//! What commands need before they are done.

ghost use Rattle.std.specs.Prelude.{◌≡◌};
ghost use Rattle.command_lang.specs.Needs.{needs, of_lock};

use crate::command::Command;
use crate::rows::row;
use acl::LockMode;

/// What a command needs besides x on itself: multiuser mode, a client, a window with x on it, then
/// w on that window, then its lock.
#[derive(Clone, Copy, PartialEq, Eq, Debug)]
pub struct Needs {
    pub multiuser: bool,
    pub client: bool,
    pub window: bool,
    pub write: bool,
    pub lock: bool,
}

/// Nothing besides x on the command.
pub const NOTHING: Needs = Needs {
    multiuser: false,
    client: false,
    window: false,
    write: false,
    lock: false,
};

/// Multiuser mode: only then can the lists change.
pub const MULTIUSER: Needs = Needs {
    multiuser: true,
    ..NOTHING
};

/// The page of a client.
pub const CLIENT: Needs = Needs {
    client: true,
    ..NOTHING
};

/// A window, and x on it.
pub const WINDOW: Needs = Needs {
    window: true,
    ..NOTHING
};

/// The page of a client, and a window with x on it.
pub const PAGE_AND_WINDOW: Needs = Needs {
    client: true,
    ..WINDOW
};

/// A window with x and w on it, and its lock: for commands that type.
pub const TYPING: Needs = Needs {
    write: true,
    lock: true,
    ..WINDOW
};

/// `writelock off` gives nothing that w guards, so it doesn't need w.
fn of_lock(mode: LockMode) -> Needs
    ensures { result ≡ of_lock mode }
{
    match mode {
        LockMode::Off => Needs {
            lock: true,
            ..WINDOW
        },
        LockMode::Auto | LockMode::On => TYPING,
    }
}

/// What a command needs besides x on itself: what its row says, except for `writelock off`.
pub fn needs_of(command: &Command) -> Needs
    ensures { result ≡ needs command.now }
{
    match command {
        Command::Writelock(mode) => of_lock(*mode),
        _ => row(command.name()).needs,
    }
}
