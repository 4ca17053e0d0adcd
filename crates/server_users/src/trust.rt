//! Who could change a file, or replace what is in a folder.

ghost use Rattle.std.specs.Prelude.{◌≡◌, ◌↔◌, ◌==◌, IfSome, IsTrue, None, bit_and, not};
ghost use Rattle.server_users.specs.Trust.{IsClosed, IsKept, IsKeptFolder, IsOwn, Lets, LetsInto};

/// Whose a file or a folder is, and its mode, as the system gives them.
#[derive(Clone, Copy, Debug, PartialEq, Eq)]
pub struct Access {
    pub owner: u32,
    pub mode: u32,
}

/// Why others could change a file, or put another one into a folder.
#[derive(Clone, Copy, Debug, PartialEq, Eq)]
pub enum Flaw {
    /// It belongs to another account than root and the one that asks.
    Owner,
    /// Its mode lets its group or others write it.
    Mode,
}

// The modes that let the group or others read, or write.
const OTHERS_READ: u32 = 0o044;

const OTHERS_WRITE: u32 = 0o022;

// In a folder of this mode only the owner of a file may rename or remove it.
const STICKY: u32 = 0o1000;

impl Access {
    /// Whether others may read it.
    pub fn is_open(self) -> bool
        ensures { result ≡ not (bit_and self.mode 0o044 == 0) }
    {
        self.mode & OTHERS_READ != 0
    }

    // Whether it belongs to this account or to root.
    fn is_own(self, account: u32) -> bool
        ensures { IsTrue result ↔ IsOwn account self }
    {
        self.owner == 0 || self.owner == account
    }

    // Whether its group and others may not write it.
    fn is_closed(self) -> bool
        ensures { IsTrue result ↔ IsClosed self }
    {
        self.mode & OTHERS_WRITE == 0
    }

    /// Why others than this account and root could change the file.
    pub fn flaw(self, account: u32) -> Option<Flaw>
        ensures none { result ≡ None → IsKept account self }
        ensures flaw { IfSome result (Lets account self) }
    {
        if !self.is_own(account) {
            Some(Flaw::Owner)
        } else if !self.is_closed() {
            Some(Flaw::Mode)
        } else {
            None
        }
    }

    /// Why others than this account and root could replace what is in the folder.
    pub fn folder_flaw(self, account: u32) -> Option<Flaw>
        ensures none { result ≡ None → IsKeptFolder account self }
        ensures flaw { IfSome result (LetsInto account self) }
    {
        match self.flaw(account) {
            Some(Flaw::Mode) if self.mode & STICKY != 0 => None,
            flaw => flaw,
        }
    }
}

/// The account that the program runs as.
pub fn own_account() -> u32 {
    libc::geteuid()
}
