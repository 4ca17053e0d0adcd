//! What the system gives to a server.

use crate::users_file::{Stamp, first_bytes};
use mio::net::{UnixListener, UnixStream};
use server_users::own_account;
use std::fs::{self, File, Files, OpenOptions, TryLockError};
use std::io::{self, ErrorKind};
use std::net::Net;
use std::os::unix::fs::OpenOptionsExt;
use std::path::PathBuf;
use std::time::Clock;

/// A runtime with all that a server asks for, except to wait and to start threads: a function says these
/// two itself, as they let it never return. Only a call shows what the system answered: no clause says what it has.
pub trait Host: Net + Files<File = File> + Clock + AllocGlobal + Copy {
    ghost use Rattle.std.specs.Prelude.{ℕ, Bool, List, Result};
    ghost use Rattle.server_system.specs.Types.{Bytes, Error, Listener, Locked, Memory, Place, Stamped, Unlocked};

    // The account that the program runs as.
    ghost runs_as: { Self → ℕ → Type 0 } = { λ _ _. Unit {0} };
    // A path, and where it leads through all links, or why the system doesn't tell.
    ghost leads: { Self → List ℕ → Result (Place Memory) Error → Type 0 } = { λ _ _ _. Unit {0} };
    // A path, and the stamp of what is there, or why the system doesn't tell.
    ghost finds: { Self → List ℕ → Result Stamped Error → Type 0 } = { λ _ _ _. Unit {0} };
    // A path, and the stamp of what is there itself, which may be a link, or why the system doesn't tell.
    ghost stands: { Self → List ℕ → Result Stamped Error → Type 0 } = { λ _ _ _. Unit {0} };
    // A path, the most bytes that are read, and the first bytes of its file, or why they can't be read.
    ghost reads: { Self → List ℕ → ℕ → Result (Bytes ℕ Memory) Error → Type 0 } = { λ _ _ _ _. Unit {0} };
    // The path of a socket, and whether somebody listens there, or why the system doesn't tell.
    ghost serves: { Self → List ℕ → Result Bool Error → Type 0 } = { λ _ _ _. Unit {0} };
    // The name of a lock's file, and the new file, made through no link, or why it can't be made.
    ghost makes: { Self → List ℕ → Result Locked Error → Type 0 } = { λ _ _ _. Unit {0} };
    // The name of a lock's file, and the file that is there, open now, with its stamp, or why it can't be opened.
    ghost opens: { Self → List ℕ → Result (Locked × Stamped) Error → Type 0 } = { λ _ _ _. Unit {0} };
    // An open file, which is locked until it is closed, or why it isn't.
    ghost locks: { Self → Locked → Result (Unit {0}) Unlocked → Type 0 } = { λ _ _ _. Unit {0} };
    // A path whose lock is held, and what came of the removal of its socket.
    ghost removes: { Self → List ℕ → Locked → Result (Unit {0}) Error → Type 0 } = { λ _ _ _ _. Unit {0} };
    // A path whose lock is held, and what listens on a new socket there, or why it can't be made.
    ghost binds: { Self → List ℕ → Locked → Result Listener Error → Type 0 } = { λ _ _ _ _. Unit {0} };

    fn account(&self) -> u32
        ensures { runs_as self.now result };

    fn place_of(&self, path: &str) -> io::Result<PathBuf>
        ensures { leads self.now path.now result };

    fn stamp(&self, path: &str) -> io::Result<Stamp>
        ensures { finds self.now path.now result };

    fn own_stamp(&self, path: &str) -> io::Result<Stamp>
        ensures { stands self.now path.now result };

    fn first_bytes(&self, path: &str, most: u64) -> io::Result<Vec<u8>>
        ensures { reads self.now path.now most result };

    fn is_served(&self, path: &str) -> io::Result<bool>
        ensures { serves self.now path.now result };

    fn make_lock(&self, name: &str) -> io::Result<File>
        ensures { makes self.now name.now result };

    fn open_lock(&self, name: &str) -> io::Result<(File, Stamp)>
        ensures { opens self.now name.now result };

    fn try_lock(&self, file: &File) -> Result<(), TryLockError>
        ensures { locks self.now file.now result };

    fn remove(&self, path: &str, lock: &File) -> io::Result<()>
        ensures { removes self.now path.now lock.now result };

    fn listen(&self, path: &str, lock: &File) -> io::Result<UnixListener>
        ensures { binds self.now path.now lock.now result };
}

impl<R: Net + Files<File = File> + Clock + AllocGlobal + Copy> Host for R {
    fn account(&self) -> u32 {
        own_account()
    }

    fn place_of(&self, path: &str) -> io::Result<PathBuf> {
        fs::canonicalize(self, path)
    }

    fn stamp(&self, path: &str) -> io::Result<Stamp> {
        Ok(Stamp::of(&fs::metadata(self, path)?))
    }

    fn own_stamp(&self, path: &str) -> io::Result<Stamp> {
        Ok(Stamp::of(&fs::symlink_metadata(self, path)?))
    }

    fn first_bytes(&self, path: &str, most: u64) -> io::Result<Vec<u8>> {
        first_bytes(self.alloc(), fs::open(self, path)?, most)
    }

    fn is_served(&self, path: &str) -> io::Result<bool> {
        match UnixStream::connect(self, path) {
            Ok(_) => Ok(true),
            // A server listens that lets nobody in at the moment.
            Err(error) if error.kind() == ErrorKind::WouldBlock => Ok(true),
            Err(error) if error.kind() == ErrorKind::ConnectionRefused => Ok(false),
            Err(error) => Err(error),
        }
    }

    fn make_lock(&self, name: &str) -> io::Result<File> {
        let mut new = OpenOptions::new();
        new.write(true)
            .create_new(true)
            .mode(0o600)
            .open(self, name)
    }

    fn open_lock(&self, name: &str) -> io::Result<(File, Stamp)> {
        let file = OpenOptions::new().write(true).open(self, name)?;
        let stamp = Stamp::of(&file.metadata()?);
        Ok((file, stamp))
    }

    fn try_lock(&self, file: &File) -> Result<(), TryLockError> {
        file.try_lock()
    }

    fn remove(&self, path: &str, _lock: &File) -> io::Result<()> {
        fs::remove_file(self, path)
    }

    fn listen(&self, path: &str, _lock: &File) -> io::Result<UnixListener> {
        UnixListener::bind(self, path)
    }
}
