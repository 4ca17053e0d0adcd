//! The users' file, and whether it has changed.

ghost use Rattle.std.specs.Prelude.{◌≡◌, Err, IfErr, IfOk, IfSome, None, OnOk, Some, false, take, true};
ghost use Rattle.std.specs.Fs.{metadata_len, metadata_mode};
ghost use Rattle.std.specs.Option.{option_copied};
ghost use Rattle.std.specs.String.{string_bytes};
ghost use Rattle.server_system.specs.Folders.{IsHeldFile, IsLookedFile, access_of};
ghost use Rattle.server_system.specs.Looking.{AreOf, IsFoundAs, IsReadAs, IsReadOf, IsUnfound, IsUnreadOf, IsWrong};
ghost use Rattle.server_system.specs.Looking.{IsTold, LooksAt, after_look, failed_at};
ghost use Rattle.server_system.specs.Paths.{users_path};
ghost use Rattle.server_system.specs.declared.fault.UsersFileFault.TheVariants.{NoMemory};

use crate::fault::UsersFileFault;
use crate::folders::{OpenFolder, may_pass, open_folder};
use crate::host::Host;
use program_words::SystemError;
use server_users::{Access, Flaw, Users, UsersFault};
use std::alloc::{AllocError, Global};
use std::fs::Metadata;
use std::io::{self, Read};
use std::os::unix::fs::MetadataExt;
use std::rt::HostRuntime;

// A file of more bytes isn't read.
const MOST: usize = 1_048_576;
// The bits of a mode that tell the kind of a file, and their value for a plain one.
pub(crate) const KIND: u32 = 0o170000;

pub(crate) const PLAIN: u32 = 0o100000;

/// What tells a file from the one that was read.
#[derive(Clone, Copy, Debug, PartialEq, Eq)]
pub struct Stamp {
    pub(crate) device: u64,
    pub(crate) inode: u64,
    size: u64,
    written: i64,
    written_nanos: i64,
    changed: i64,
    changed_nanos: i64,
    owner: u32,
    mode: u32,
}

impl Stamp {
    pub(crate) fn of(found: &Metadata) -> Stamp
        ensures { (result.mode ≡ metadata_mode found.now) × (result.size ≡ metadata_len found.now) }
    {
        Stamp {
            device: found.dev(),
            inode: found.ino(),
            size: found.size(),
            written: found.mtime(),
            written_nanos: found.mtime_nsec(),
            changed: found.ctime(),
            changed_nanos: found.ctime_nsec(),
            owner: found.uid(),
            mode: found.mode(),
        }
    }

    /// Whose the file is, and its mode.
    pub fn access(&self) -> Access
        ensures { result ≡ access_of self.now }
    {
        Access {
            owner: self.owner,
            mode: self.mode,
        }
    }
}

/// The first bytes of a file, at most this many.
pub fn first_bytes<R: Read + Drop>(alloc: Global, file: R, most: u64) -> io::Result<Vec<u8>>
    ensures { IfOk result (λ bytes. IfSome (R.remaining file) (λ all. bytes.items ≡ take most all)) }
{
    let mut bytes = Vec::new(alloc);
    file.take(most).read_to_end(&mut bytes)?;
    Ok(bytes)
}

// The users of a file of this path and stamp, which has these bytes, for a server of this account.
fn users_of(
    alloc: Global,
    path: String,
    account: u32,
    stamp: &Stamp,
    file: &[u8],
) -> Result<Users, UsersFileFault>
    ensures ok { IfOk result (AreOf account stamp.now file.now) }
    ensures err { IfErr result (IsWrong (string_bytes path) account stamp.now file.now) }
{
    match stamp.access().flaw(account) {
        Some(Flaw::Owner) => return Err(UsersFileFault::Foreign(path, account)),
        Some(Flaw::Mode) => return Err(UsersFileFault::Writable(path)),
        None => {}
    }
    if file.len() > MOST {
        return Err(UsersFileFault::TooLarge(path));
    }
    match Users::read(alloc, file) {
        Ok(users) => Ok(users),
        Err(UsersFault::NoMemory) => Err(UsersFileFault::NoMemory),
        Err(fault) => Err(UsersFileFault::Users(path, fault)),
    }
}

/// What gives the users who may connect. Only a call of `find` or of `read` shows what was found or read.
pub trait UsersSource {
    ghost use Rattle.std.specs.Prelude.{ℕ, List, Option, Result};
    ghost use Rattle.server_system.specs.Types.{Entry, Faulty, Stamped};

    // The path at which it is.
    ghost lies: { Self → List ℕ };
    // Its stamp; None if there is no file.
    ghost finds: { Self → Option Stamped → Type 0 };
    // Its users, or why they can't be read.
    ghost reads: { Self → Result (List Entry) Faulty → Type 0 };

    fn path(&self) -> &str
        ensures { result.now ≡ lies self.now };

    fn find(&self) -> Option<Stamp>
        ensures { finds self.now result };

    fn read(&self) -> Result<Users, UsersFileFault>
        ensures { reads self.now result };
}

/// A file of users.
#[derive(Drop)]
pub struct UsersFile<H = HostRuntime> {
    host: H,
    path: String,
}

impl<H: Host> UsersFile<H> {
    /// The users' file of this path.
    pub fn new(host: H, path: &str) -> Result<UsersFile<H>, AllocError>
        ensures path { IfOk result (λ file. users_path file ≡ path.now) }
        ensures host { IfOk result (λ file. file.host ≡ host) }
    {
        let path = String::from_str(host.alloc(), path)?;
        Ok(UsersFile { host, path })
    }

    /// The first folder in which others could replace the file: of those that hold it, and of those that hold
    /// what it is a link to. One that holds it, or that, comes before those above.
    pub fn open_folder(&self) -> io::Result<Option<OpenFolder>>
        ensures { IsLookedFile H.Host self.now.host (users_path self.now) result }
    {
        let named = open_folder(&self.host, self.path.as_str())?;
        if !may_pass(&named) {
            return Ok(named);
        }
        let there = self.host.place_of(self.path.as_str())?;
        let linked = open_folder(&self.host, there.as_str())?;
        if may_pass(&linked) {
            Ok(named.or(linked))
        } else {
            Ok(linked)
        }
    }

    // Looks at the folders of the file.
    fn look(&self) -> Result<(), UsersFileFault>
        ensures ok { OnOk result (IsHeldFile H.Host self.now.host (users_path self.now)) }
        ensures err { IfErr result (IsUnfound H.Host self.now.host (users_path self.now)) }
    {
        let path = String::from_str(self.host.alloc(), self.path.as_str())?;
        match self.open_folder() {
            Ok(None) => Ok(()),
            Ok(Some(folder)) if folder.is_above => Ok(()),
            Ok(Some(folder)) => Err(UsersFileFault::Folder(path, folder)),
            Err(error) => Err(UsersFileFault::NoFile(path, SystemError(error))),
        }
    }

    /// Reads the users and the stamp of a plain file of at most 1,048,576 bytes, which others can't write or replace.
    pub fn read(&self) -> Result<(Users, Stamp), UsersFileFault>
        ensures ok { IfOk result (λ read. IsReadOf H.Host self.now.host (users_path self.now) read.0 read.1) }
        ensures err { IfErr result (IsUnreadOf H.Host self.now.host (users_path self.now)) }
    {
        self.look()?;
        let path = String::from_str(self.host.alloc(), self.path.as_str())?;
        let stamp = match self.host.stamp(self.path.as_str()) {
            Ok(stamp) if stamp.mode & KIND == PLAIN => stamp,
            Ok(_) => return Err(UsersFileFault::NotPlain(path)),
            Err(error) => return Err(UsersFileFault::NoFile(path, SystemError(error))),
        };
        let file = match self.host.first_bytes(self.path.as_str(), MOST as u64 + 1) {
            Ok(file) => file,
            Err(error) => return Err(UsersFileFault::NoFile(path, SystemError(error))),
        };
        let account = self.host.account();
        let users = users_of(self.host.alloc(), path, account, &stamp, &file)?;
        Ok((users, stamp))
    }
}

impl<H: Host> UsersSource for UsersFile<H> {
    ghost lies = { λ file. users_path file };

    ghost finds = { λ file found. IsFoundAs H.Host file.host (users_path file) found };

    ghost reads = { λ file read. IsReadAs H.Host file.host (users_path file) read };

    fn path(&self) -> &str {
        self.path.as_str()
    }

    fn find(&self) -> Option<Stamp> {
        self.host.stamp(self.path.as_str()).ok()
    }

    fn read(&self) -> Result<Users, UsersFileFault> {
        let (users, _stamp) = UsersFile::read(self)?;
        Ok(users)
    }
}

/// What the last look at a users' file found.
#[derive(Clone, Copy, Debug)]
pub struct LastLook {
    // What need not be read again: the file as it was when it was read, or that there is none.
    known: Option<Option<Stamp>>,
    // The file as it was when it couldn't be read, if that has been told.
    failed: Option<Option<Stamp>>,
}

impl LastLook {
    /// The file was read when it had this stamp.
    pub fn read(stamp: Stamp) -> LastLook
        ensures { result ≡ record { known = Some (Some stamp); failed = None } }
    {
        LastLook {
            known: Some(Some(stamp)),
            failed: None,
        }
    }

    // The file can't be read, or others can replace it. Returns whether that is news; a file is read again.
    fn fails(&mut self, found: Option<Stamp>) -> bool
        ensures seen { self.new ≡ failed_at found }
        ensures told { result ≡ false → self.old.failed ≡ Some found }
        ensures news { result ≡ true → self.old.failed ≡ Some found → ⊥ }
    {
        let was_told = self.failed == Some(found);
        self.known = found.is_none().then_some(None);
        self.failed = Some(found);
        !was_told
    }

    // Takes what a look found: the stamp, and the fault for which it wasn't read. Returns whether that is news.
    fn is_news(&mut self, found: Option<Stamp>, fault: Option<&UsersFileFault>) -> bool
        ensures seen { self.new ≡ after_look found (option_copied fault.entry) self.old }
        ensures told { result ≡ false → IsTold found self.old (option_copied fault.entry) }
        ensures news { result ≡ true → IsTold found self.old (option_copied fault.entry) → ⊥ }
    {
        match fault {
            Some(UsersFileFault::NoMemory) => true,
            Some(UsersFileFault::NoFile(..) | UsersFileFault::Folder(..)) => self.fails(found),
            _ => {
                self.known = Some(found);
                self.failed = None;
                true
            }
        }
    }
}

/// Looks at the users' file. The answer is its users, or why they can't be read; None if the file is as it
/// was at the last look, or if the fault has been told.
pub fn look_at<F: UsersSource>(
    file: &F,
    seen: &mut LastLook,
) -> Option<Result<Users, UsersFileFault>>
    ensures looks { LooksAt F.finds F.reads file.now seen.old result seen.new }
    ensures memory { result ≡ Some (Err NoMemory) → seen.new ≡ seen.old }
{
    let found = file.find();
    if seen.known == Some(found) {
        return None;
    }
    let read = file.read();
    seen.is_news(found, read.as_ref().err()).then_some(read)
}
