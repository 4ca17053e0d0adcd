//! Files of links: each is read, and then removed by its only use.

ghost use Rattle.std.specs.Prelude.{◌≡◌, IfSome};
ghost use Rattle.std.specs.String.{string_bytes};
ghost use Rattle.web_turn.specs.Links.{FindsAt, RemovesAt, file_of};

use attach_proto::Token;
use std::alloc::{AllocGlobal, Global};
use std::fs;
use std::fs::{File, Files};
use std::time::{Clock, SystemTime};

// The file of a link has no more bytes.
const MOST: u64 = 200;

/// What is at a path, and the time. Each relation is shown by a call of its function alone.
pub trait LinkDisk {
    ghost use Rattle.std.specs.Prelude.{◌≡◌, ℕ, List, IfSome};
    ghost use Rattle.std.specs.String.{string_bytes};

    // The time, in seconds after 1970.
    ghost tells: { Self → ℕ → Type 0 };

    // A path, and the text of the file there.
    ghost reads: { Self → (path text : List ℕ) → Type 0 };

    // A path whose file was removed.
    ghost removes: { Self → (path : List ℕ) → Type 0 };

    fn seconds(&self) -> Option<u64>
        ensures { IfSome result (tells self.now) };

    /// The text of the file at a path. None if there is none, or something else than a short file.
    fn read_at(&self, path: &str) -> Option<String>
        ensures { IfSome result (λ text. reads self.now path.now (string_bytes text)) };

    /// Removes the file at a path. None if there is none.
    fn remove_at(&self, path: &str) -> Option<()>
        ensures { IfSome result (λ _. removes self.now path.now) };
}

impl<R: Files<File = File> + Clock + AllocGlobal> LinkDisk for R {
    ghost tells = { λ host seconds. Unit {0} };

    ghost reads = { λ host path text. Unit {0} };

    ghost removes = { λ host path. Unit {0} };

    fn seconds(&self) -> Option<u64> {
        let now = SystemTime::now(self)
            .ok()?
            .duration_since(SystemTime::UNIX_EPOCH)
            .ok()?;
        Some(now.as_secs())
    }

    fn read_at(&self, path: &str) -> Option<String> {
        // Opening a FIFO would wait.
        let found = fs::metadata(self, path).ok()?;
        if !found.is_file() || found.len() > MOST {
            return None;
        }
        fs::read_to_string(self, path).ok()
    }

    fn remove_at(&self, path: &str) -> Option<()> {
        fs::remove_file(self, path).ok()
    }
}

/// A link whose file was read. Only a call of `find_link` makes one, and it isn't dropped: `remove_link` takes it.
pub struct FoundLink {
    secret: Token,
    text: String,
    // When it was read, in seconds after 1970.
    seconds: u64,
}

/// Files of links. Each relation is shown by a call of its function alone.
pub trait LinkFiles {
    ghost use Rattle.std.specs.Prelude.{◌≡◌, ℕ, List, Option, IfSome, option_map};
    ghost use Rattle.std.specs.String.{string_bytes};
    ghost use Rattle.web_turn.specs.declared.link_files.FoundLink.{FoundLink as Found};

    // A folder, the secret of a link, and its file, if it could be read.
    ghost finds: { Self → (folder secret : List ℕ) → Option Found → Type 0 };

    // A folder, a link whose file was read, and what was read, if it is removed.
    ghost removes: { Self → (folder : List ℕ) → Found → Option (List ℕ × ℕ) → Type 0 };

    /// Reads the file of the link with this secret. None if there is none, or something else than a short file has its
    /// name.
    fn find_link(&self, folder: &str, secret: Token) -> Option<FoundLink>
        ensures finds { finds self.now folder.now secret result }
        ensures secret { IfSome result (λ it. it.secret ≡ secret) };

    /// Removes the file of a link, and gives what was read of it: the text, and when, in seconds after 1970. None if
    /// another use has removed it.
    fn remove_link(&self, folder: &str, found: FoundLink) -> Option<(String, u64)>
        ensures removes { removes self.now folder.now found (option_map (λ it. (string_bytes it.0, it.1)) result) }
        ensures read { IfSome result (λ it. it ≡ (found.text, found.seconds)) };
}

// The path of the link with this secret: the secret is its name in the folder.
fn path_of(alloc: Global, folder: &str, secret: &Token) -> Option<String>
    ensures { IfSome result (λ path. string_bytes path ≡ file_of folder.now secret.now) }
{
    let Ok(secret) = str::from_utf8(secret.as_slice()) else {
        return None;
    };
    match format!(in alloc; "{folder}/{secret}") {
        Ok(path) => Some(path),
        Err(_) => None,
    }
}

// Reads the file of the link with this secret.
fn read_link<R: LinkDisk + AllocGlobal>(rt: &R, folder: &str, secret: &Token) -> Option<String>
    ensures { IfSome result (λ text. R.reads rt.now (file_of folder.now secret.now) (string_bytes text)) }
{
    let path = path_of(rt.alloc(), folder, secret)?;
    rt.read_at(path.as_str())
}

// Removes the file of the link with this secret.
fn remove_file<R: LinkDisk + AllocGlobal>(rt: &R, folder: &str, secret: &Token) -> Option<()>
    ensures { IfSome result (λ _. R.removes rt.now (file_of folder.now secret.now)) }
{
    let path = path_of(rt.alloc(), folder, secret)?;
    rt.remove_at(path.as_str())
}

impl<R: LinkDisk + AllocGlobal> LinkFiles for R {
    ghost finds = { λ host folder secret found. FindsAt (R.tells host) (R.reads host) folder secret found };

    ghost removes = { λ host folder found taken. RemovesAt (R.removes host) folder found taken };

    fn find_link(&self, folder: &str, secret: Token) -> Option<FoundLink> {
        let now = self.seconds()?;
        let text = read_link(self, folder, &secret)?;
        Some(FoundLink {
            secret,
            text,
            seconds: now,
        })
    }

    fn remove_link(&self, folder: &str, found: FoundLink) -> Option<(String, u64)> {
        let FoundLink {
            secret,
            text,
            seconds,
        } = found;
        remove_file(self, folder, &secret)?;
        Some((text, seconds))
    }
}
