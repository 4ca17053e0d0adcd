//! A server in this process: its files, its arguments and its end.

use crate::frames::USERS;
use server::{Gate, Handles, SetupHost, serve_through};
use std::alloc::{AllocError, Global};
use std::fs::{DirBuilder, Files, OpenOptions};
use std::io::Write;
use std::os::unix::fs::{DirBuilderExt, OpenOptionsExt};
use std::sync::Wait;
use std::thread::Threads;
use std::{fs, io};

/// The paths of a server's folder, socket, lock, users' file and trail.
#[derive(Clone, Copy)]
pub struct Paths {
    pub folder: &'static str,
    pub socket: &'static str,
    pub lock: &'static str,
    pub users: &'static str,
    pub trail: &'static str,
}

impl Paths {
    /// Makes the folder and the users' file in it, which only their owner may read and write.
    pub fn write_users(&self, rt: &impl Files) -> io::Result<()> {
        DirBuilder::new().mode(0o700).create(rt, self.folder)?;
        let mut file = OpenOptions::new()
            .write(true)
            .create(true)
            .truncate(true)
            .mode(0o600)
            .open(rt, self.users)?;
        file.write_all(USERS)
    }

    /// The arguments of a server of three loops.
    pub fn words(&self, alloc: Global) -> Result<Vec<String>, AllocError> {
        let words = [
            "muxd",
            "--socket",
            self.socket,
            "--users",
            self.users,
            "--trail",
            self.trail,
            "--loops",
            "3",
        ];
        let mut made = Vec::new(alloc);
        for word in words {
            made.push(String::from_str(alloc, word)?)?;
        }
        Ok(made)
    }

    /// The trail's file. Removes it, and the other files that the server leaves.
    pub fn take_trail<R: Files + AllocGlobal>(&self, rt: &R) -> io::Result<Vec<u8>> {
        let trail = fs::read(rt, self.trail)?;
        for path in [self.trail, self.users, self.lock] {
            fs::remove_file(rt, path)?;
        }
        fs::remove_dir(rt, self.folder)?;
        Ok(trail)
    }
}

/// Serves until a peer gives `quit`. The server's errors are dropped.
pub fn serve<R: SetupHost + Threads + Wait, G: Gate + Copy + Sync + Drop, O: Write + Send>(
    rt: &R,
    handles: Handles<G>,
    words: &[String],
    output: &mut O,
) -> u8 {
    let mut errors: Vec<u8> = Vec::new(rt.alloc());
    serve_through(rt, handles, words, output, &mut errors)
}
