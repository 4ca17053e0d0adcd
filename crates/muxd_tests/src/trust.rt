//! Files and folders that others can change, which a server refuses.

use crate::frames::USERS;
use crate::peer::has;
use server::{Handles, Open, SetupHost, serve_through};
use std::alloc::AllocError;
use std::fs::{DirBuilder, Files, Permissions};
use std::os::unix::fs::{DirBuilderExt, PermissionsExt};
use std::sync::Wait;
use std::thread::Threads;
use std::{fs, io};

// A folder of the test's own, and one in it whose mode changes.
const KEPT: &str = "muxd_trust";

const OPEN: &str = "muxd_trust/open";

// A setup that no session does: a server that gets as far as that ends.
const SETUP: &str = "muxd_trust/setup";

/// What has which mode, the folders of the users' file and of the socket, and what the server says.
type TrustRow = (&'static str, u32, &'static str, &'static str, &'static [u8]);

const ROWS: [TrustRow; 9] = [
    (
        "muxd_trust/users",
        0o620,
        KEPT,
        KEPT,
        b"others may write the users' file: chmod go-w",
    ),
    (
        "muxd_trust/users",
        0o602,
        KEPT,
        KEPT,
        b"others may write the users' file: chmod go-w",
    ),
    (
        "muxd_trust/users",
        0o600,
        KEPT,
        KEPT,
        b"setup muxd_trust/setup: line 1",
    ),
    (
        OPEN,
        0o777,
        OPEN,
        KEPT,
        b"users' file muxd_trust/open/users: others may write its folder, /",
    ),
    (
        OPEN,
        0o720,
        OPEN,
        KEPT,
        b"users' file muxd_trust/open/users: others may write its folder, /",
    ),
    (
        OPEN,
        0o777,
        KEPT,
        OPEN,
        b"socket muxd_trust/open/socket: others may write its folder, /",
    ),
    (
        OPEN,
        0o702,
        KEPT,
        OPEN,
        b"socket muxd_trust/open/socket: others may write its folder, /",
    ),
    // In a sticky folder nobody can replace what others have there.
    (OPEN, 0o1777, OPEN, OPEN, b"setup muxd_trust/setup: line 1"),
    (OPEN, 0o755, OPEN, OPEN, b"setup muxd_trust/setup: line 1"),
];

fn write(rt: &impl Files, path: &str, bytes: &[u8]) -> io::Result<()> {
    fs::write(rt, path, bytes)?;
    fs::set_permissions(rt, path, Permissions::from_mode(0o600))
}

fn make_folders<R: Files + AllocGlobal>(rt: &R) -> io::Result<()> {
    for folder in [KEPT, OPEN] {
        DirBuilder::new().mode(0o700).create(rt, folder)?;
        write(
            rt,
            format!(in rt.alloc(); "{folder}/users")?.as_str(),
            USERS,
        )?;
    }
    write(rt, SETUP, b"no command\n")
}

// The arguments of a server with files in these folders.
fn words<R: AllocGlobal>(rt: &R, users: &str, socket: &str) -> Result<Vec<String>, AllocError> {
    let alloc = rt.alloc();
    let mut made = Vec::new(alloc);
    for word in ["muxd", "--setup", SETUP, "--users"] {
        made.push(String::from_str(alloc, word)?)?;
    }
    made.push(format!(in alloc; "{users}/users")?)?;
    made.push(String::from_str(alloc, "--socket")?)?;
    made.push(format!(in alloc; "{socket}/socket")?)?;
    Ok(made)
}

// Whether a server that begins so ends with status 1 and says that, and nothing else.
fn is_told<R: SetupHost + Threads + Wait>(
    rt: &R,
    runtime: HostRuntime,
    row: TrustRow,
) -> io::Result<bool> {
    let (path, mode, users, socket, said) = row;
    fs::set_permissions(rt, path, Permissions::from_mode(mode))?;
    let words = words(rt, users, socket)?;
    let mut output: Vec<u8> = Vec::new(rt.alloc());
    let mut errors: Vec<u8> = Vec::new(rt.alloc());
    let handles = Handles {
        files: runtime,
        gate: Open,
    };
    let status = serve_through(rt, handles, words.as_slice(), &mut output, &mut errors);
    Ok(status == 1 && output.is_empty() && has(&errors, said))
}

/// A server begins only if nobody else can write or replace its users' file or its socket.
#[test]
fn a_server_refuses_what_others_can_change(rt: HostRuntime) {
    assert!(rt; make_folders(&rt).is_ok());
    let mut wrong = 0;
    for (number, row) in ROWS.into_iter().enumerate() {
        if !matches!(is_told(&rt, rt, row), Ok(true)) {
            wrong = number + 1;
        }
    }
    assert!(rt; fs::remove_dir_all(&rt, KEPT).is_ok());
    assert_eq!(rt; wrong, 0);
}
