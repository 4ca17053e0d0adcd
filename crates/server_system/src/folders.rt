//! Who could replace what is in a folder.

ghost use Rattle.std.specs.Prelude.{◌≡◌};
ghost use Rattle.std.specs.Path.{path_bytes};
ghost use Rattle.server_system.specs.Folders.{IsClimbed, IsLooked, holder_of, may_pass};

use crate::host::Host;
use server_users::Flaw;
use std::fmt::{Display, Formatter};
use std::path::Path;
use std::{fmt, io};

/// A folder in which others than the program's account and root could replace what is there.
#[derive(Debug, Drop)]
pub struct OpenFolder {
    path: String,
    flaw: Flaw,
    account: u32,
    /// It doesn't hold the file itself, but a folder above it.
    pub is_above: bool,
}

impl Display for OpenFolder {
    fn fmt<W: fmt::Write>(&self, f: &mut Formatter<W>) -> fmt::Result {
        let (path, account) = (self.path.as_str(), self.account);
        let place = if self.is_above {
            "a folder above it"
        } else {
            "its folder"
        };
        match self.flaw {
            Flaw::Owner => write!(
                f,
                "{place}, {path}, belongs to another account: chown {account} {path}"
            ),
            Flaw::Mode => write!(f, "others may write {place}, {path}: chmod go-w {path}"),
        }
    }
}

/// Whether nobody else could replace the file itself.
pub fn may_pass(found: &Option<OpenFolder>) -> bool
    ensures { result ≡ may_pass found.now }
{
    matches!(found, None | Some(OpenFolder { is_above: true, .. }))
}

// The folder that holds what is at a path.
fn holder(path: &str) -> &str
    ensures { result.now ≡ holder_of path.now }
{
    match Path::new(path).parent() {
        Some(holder) if !holder.as_str().is_empty() => holder.as_str(),
        _ => ".",
    }
}

// The first open folder, from this one up to the root.
fn first_open<R: Host>(host: &R, account: u32, holder: Path<'_>) -> io::Result<Option<OpenFolder>>
    ensures { IsClimbed R.Host host.now account (path_bytes holder.entry) result }
{
    let mut is_above = false;
    for folder in holder.ancestors() {
        if let Some(flaw) = host.stamp(folder.as_str())?.access().folder_flaw(account) {
            return Ok(Some(OpenFolder {
                path: String::from_str(host.alloc(), folder.as_str())?,
                flaw,
                account,
                is_above,
            }));
        }
        is_above = true;
    }
    Ok(None)
}

/// The first folder, from the one that holds this path up to the root, in which others could replace what is there.
pub fn open_folder<R: Host>(host: &R, path: &str) -> io::Result<Option<OpenFolder>>
    ensures { IsLooked R.Host host.now path.now result }
{
    let there = host.place_of(holder(path))?;
    first_open(host, host.account(), there.as_path())
}
