//! The socket that a server listens on.

ghost use Rattle.std.specs.Prelude.{◌≡◌, IfErr, IfOk, IfSome};
ghost use Rattle.std.specs.String.{string_bytes};
ghost use Rattle.server_system.specs.Folders.{IsSeen};
ghost use Rattle.server_system.specs.Locks.{IsLeft, IsLocked, IsOpen, IsOpened, IsUnlocked};
ghost use Rattle.server_system.specs.Paths.{IsNew, IsSocketFault, IsThere, IsUnheard, LetsIn, ListensAt, socket_path};

use crate::fault::{SocketCause, SocketFault};
use crate::folders::{OpenFolder, open_folder};
use crate::host::Host;
use crate::log::LastLoop;
use crate::users_file::{KIND, PLAIN};
use mio::net::UnixListener;
use std::alloc::Global;
use std::fs::{File, TryLockError};
use std::io::ErrorKind;
use std::sync::Wait;

// The longest path of a socket, in bytes.
const LONGEST: usize = 107;
// The kind of a socket, among the bits of a mode.
const SOCKET: u32 = 0o140000;

/// The path of a server's socket. Only the server that holds the lock beside it makes, replaces and removes the socket.
#[derive(Drop)]
pub struct SocketPath<'a> {
    path: &'a str,
    // The system keeps it locked as long as it is open.
    lock: File,
}

// Whether there is a socket. Another file is a fault.
fn is_there<R: Host>(rt: &R, path: &str) -> Result<bool, SocketCause>
    ensures there { IfOk result (IsThere R.Host rt.now path.now) }
    ensures fault { IfErr result (IsUnheard R.Host rt.now path.now) }
{
    match rt.own_stamp(path) {
        Ok(found) if found.access().mode & KIND == SOCKET => Ok(true),
        Ok(_) => Err(SocketCause::NoSocket),
        Err(error) if error.kind() == ErrorKind::NotFound => Ok(false),
        Err(error) => Err(SocketCause::from(error)),
    }
}

// Opens the lock's file that is there, if it is a plain one. Whatever takes its place before that isn't written to.
fn open_there<R: Host>(rt: &R, name: String) -> Result<File, SocketCause>
    ensures ok { IfOk result (IsOpen R.Host rt.now (string_bytes name)) }
    ensures err { IfErr result (IsUnlocked R.Host rt.now (string_bytes name)) }
{
    if rt.own_stamp(name.as_str())?.access().mode & KIND != PLAIN {
        return Err(SocketCause::NoLock(name));
    }
    let (file, opened) = rt.open_lock(name.as_str())?;
    let named = rt.own_stamp(name.as_str())?;
    let is_same = named.device == opened.device && named.inode == opened.inode;
    if is_same && named.access().mode & KIND == PLAIN {
        Ok(file)
    } else {
        Err(SocketCause::NoLock(name))
    }
}

// Makes the lock's file, or opens the one that is there.
fn open_lock<R: Host>(rt: &R, name: String) -> Result<File, SocketCause>
    ensures ok { IfOk result (IsOpened R.Host rt.now (string_bytes name)) }
    ensures err { IfErr result (IsUnlocked R.Host rt.now (string_bytes name)) }
{
    match rt.make_lock(name.as_str()) {
        Ok(file) => Ok(file),
        Err(error) if error.kind() == ErrorKind::AlreadyExists => open_there(rt, name),
        Err(error) => Err(SocketCause::from(error)),
    }
}

// Locks the lock's file of this name, which is made if it isn't there.
fn lock<R: Host>(rt: &R, name: String) -> Result<File, SocketCause>
    ensures ok { IfOk result (IsLocked R.Host rt.now (string_bytes name)) }
    ensures err { IfErr result (IsUnlocked R.Host rt.now (string_bytes name)) }
{
    let file = open_lock(rt, name)?;
    match rt.try_lock(&file) {
        Ok(()) => Ok(file),
        Err(TryLockError::WouldBlock) => Err(SocketCause::Taken),
        Err(TryLockError::Error(error)) => Err(SocketCause::from(error)),
    }
}

// Takes the lock beside the path, and makes a new socket there. One that nobody listens on is removed.
fn listen<R: Host>(rt: &R, alloc: Global, path: &str) -> Result<(File, UnixListener), SocketCause>
    ensures listens { IfOk result (λ made. IsNew R.Host rt.now path.now made.0 made.1) }
    ensures fault { IfErr result (IsUnheard R.Host rt.now path.now) }
{
    // Without a path the system would choose an abstract name, which any account can connect to.
    if path.is_empty() {
        return Err(SocketCause::NoPath);
    }
    if path.len() > LONGEST {
        return Err(SocketCause::LongPath);
    }
    match open_folder(rt, path)? {
        Some(folder) if !folder.is_above => return Err(SocketCause::Folder(folder)),
        _ => {}
    }
    is_there(rt, path)?;
    let Ok(name) = format!(in alloc; "{path}.lock") else {
        return Err(SocketCause::NoMemory);
    };
    let lock = lock(rt, name)?;
    if is_there(rt, path)? {
        if rt.is_served(path)? {
            return Err(SocketCause::Taken);
        }
        rt.remove(path, &lock)?;
    }
    let listener = rt.listen(path, &lock)?;
    Ok((lock, listener))
}

impl SocketPath<'_> {
    /// Listens on a new socket at the path while the place is held. One there that nobody listens on is removed.
    pub fn listen<'a, R: Host>(
        rt: &R,
        alloc: Global,
        path: &'a str,
    ) -> Result<(SocketPath<'a>, UnixListener), SocketFault>
        ensures path { IfOk result (λ made. socket_path made.0 ≡ path.entry.now) }
        ensures listens { IfOk result (λ made. ListensAt R.Host rt.now path.entry.now made.1) }
        ensures lock { IfOk result (λ made. IsNew R.Host rt.now path.entry.now made.0.lock made.1) }
        ensures fault { IfErr result (IsSocketFault R.Host rt.now path.entry.now) }
    {
        match listen(rt, alloc, path) {
            Ok((lock, listener)) => Ok((SocketPath { path, lock }, listener)),
            Err(cause) => match String::from_str(alloc, path) {
                Ok(path) => Err(SocketFault::At(path, cause)),
                Err(_) => Err(SocketFault::NoMemory),
            },
        }
    }

    /// The first folder above the socket's own in which others could replace what is there.
    pub fn open_folder<R: Host>(&self, rt: &R) -> Option<OpenFolder>
        ensures { IsSeen R.Host rt.now (socket_path self.now) result }
    {
        open_folder(rt, self.path).ok().flatten()
    }

    /// Whether the socket's mode lets everybody on the machine connect.
    pub fn is_open<R: Host>(&self, rt: &R) -> bool
        ensures { LetsIn R.Host rt.now (socket_path self.now) result }
    {
        matches!(rt.own_stamp(self.path), Ok(found) if found.access().mode & 0o002 != 0)
    }

    /// Removes the socket after the last loop. The lock is kept until this value goes, so no other server comes before.
    pub fn leave<F: Host>(&self, _rt: &impl Wait, files: &F, _last: LastLoop)
        ensures { IsLeft F.Host files.now (socket_path self.now) self.now.lock }
    {
        files.remove(self.path, &self.lock).ok();
    }

    /// Removes the socket, then releases the lock. A socket that can't be removed is no fault of the session.
    pub fn end<F: Host>(self, _rt: &impl Wait, files: &F)
        ensures { IsLeft F.Host files.now (socket_path self.entry) self.entry.lock }
    {
        let _ = files.remove(self.path, &self.lock);
    }
}
