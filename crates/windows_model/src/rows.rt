//! Rows by rising serials, how many windows there may be, and why one isn't opened or changed.

ghost use Rattle.std.specs.Prelude.{◌≡◌, ◌++◌, ◌∷◌, ◌==◌, ◌<◌, [], length, filter, not, option_copied, OnOk, OnErr};
ghost use Rattle.std.specs.Prelude.{IfSome};
ghost use Rattle.std.specs.List.{position};
ghost use Rattle.std.specs.List.Retain.{IsFiltered};
ghost use Rattle.std.specs.Fn.{CalledAt};
ghost use Rattle.std.specs.Option.{option_copied_mut};
ghost use Rattle.windows_model.specs.Finding.{row_of};
ghost use Rattle.windows_model.specs.Faults.{windows_number};
ghost use Rattle.windows_model.specs.declared.rows.WindowsFault.TheVariants.{NoMemory};

use std::alloc::{AllocError, AllocFailed, Global};
use std::marker::Model;

/// The most windows that may be open at once. Window numbers are below it.
pub const WINDOWS: usize = 40;

/// A thing that has a serial number.
pub trait Serial {
    ghost use Rattle.std.specs.Prelude.{ℕ};

    ghost serial_of: { Self → ℕ };

    fn serial(&self) -> u32
        ensures { result ≡ serial_of self.now };
}

// It has no `reserve`: the room that a list has isn't part of its value.
/// Rows in the order in which they came. Contracts see them as a list.
#[derive(Drop)]
pub struct Rows<R> {
    items: Vec<R>,
}

impl<R> Model for Rows<R> {
    ghost use Rattle.std.specs.Prelude.{List};

    ghost Value = { List R };

    ghost view = { λ r. r.items.items };
}

impl<R: Serial + Drop> Rows<R> {
    ghost use Rattle.std.specs.Borrow.{sem};
    ghost use Rattle.windows_model.specs.Lending.{LendsRow, LendsAll};

    /// A table without rows.
    pub fn new(alloc: Global) -> Rows<R>
        ensures { result ≡ [] }
    {
        Rows {
            items: Vec::new(alloc),
        }
    }

    /// The number of rows.
    pub fn len(&self) -> usize
        ensures { result ≡ length self.now }
    {
        self.items.len()
    }

    /// The rows, beginning with the one that came first.
    pub fn as_slice(&self) -> &[R]
        ensures { result.now ≡ self.now }
    {
        self.items.as_slice()
    }

    /// The index of the first row with this serial; `None` if there is none.
    fn place(&self, serial: u32) -> Option<usize>
        ensures place { result ≡ position (λ row. R.serial_of row == serial) self.now }
        ensures within { IfSome result (λ place. place < length self.now) }
    {
        self.items.iter().position(|row| row.serial() == serial)
    }

    /// The first row with this serial; `None` if there is none.
    pub fn get(&self, serial: u32) -> Option<&R>
        ensures { option_copied result ≡ row_of R.serial_of self.now serial }
    {
        match self.place(serial) {
            Some(place) => Some(&self.items[place]),
            None => None,
        }
    }

    /// Lends the first row with this serial so that it can be changed; `None` if there is none.
    pub fn get_mut(&mut self, serial: u32) -> Option<&mut R>
        ensures* writes_back { sem 𝓛 (LendsRow R.row R.serial_of self.entry serial result) }
        ensures value { option_copied_mut result ≡ row_of R.serial_of self.old serial }
    {
        match self.place(serial) {
            Some(place) => self.items.get_mut(place),
            None => None,
        }
    }

    /// Lends all rows so that they can be changed.
    pub fn as_mut_slice(&mut self) -> &mut [R]
        ensures* writes_back { sem 𝓛 (LendsAll R.row self.entry result) }
        ensures value { result.now ≡ self.old }
    {
        self.items.as_mut_slice()
    }

    /// Removes the rows that don't pass the test.
    pub fn retain<F: FnMut(&R) -> bool>(&mut self, f: F)
        requires { F.IsAlwaysCallable f }
        ensures { IsFiltered (CalledAt F.FnMut) f self.old self.new }
    {
        self.items.retain(f);
    }

    /// Removes the rows with this serial.
    pub fn remove(&mut self, serial: u32)
        ensures { self.new ≡ filter (λ row. not (R.serial_of row == serial)) self.old }
    {
        self.items.retain(|row| row.serial() != serial);
    }

    /// Adds a row at the end. `AllocError` if memory is refused; nothing has changed then.
    pub fn push(&mut self, row: R) -> Result<(), AllocError>
        ensures ok { OnOk result (self.new ≡ self.old ++ row ∷ []) }
        ensures err { OnErr result (self.new ≡ self.old) }
    {
        self.items.push(row)?;
        Ok(())
    }

    /// Removes all rows.
    pub fn clear(&mut self)
        ensures { self.new ≡ [] }
    {
        self.items.clear();
    }
}

/// Why a call on the windows is refused. The windows are then unchanged.
#[derive(Clone, Copy, PartialEq, Eq, Debug)]
pub enum WindowsFault {
    /// There are 40 windows already, or the serial isn't above those of all windows.
    Full,
    NoSuchWindow,
    /// Another window has the number.
    NumberTaken,
    /// The title doesn't have 1 to 40 characters, each of width 1 or 2.
    BadTitle,
    NoMemory,
}

impl WindowsFault {
    /// The fault's number: 1 Full, 2 NoSuchWindow, 3 NumberTaken, 4 BadTitle, 5 NoMemory.
    pub fn number(self) -> u8
        ensures { result ≡ windows_number self }
    {
        match self {
            WindowsFault::Full => 1,
            WindowsFault::NoSuchWindow => 2,
            WindowsFault::NumberTaken => 3,
            WindowsFault::BadTitle => 4,
            WindowsFault::NoMemory => 5,
        }
    }
}

impl From<AllocError> for WindowsFault {
    ghost from_gives = { λ _ e. e ≡ NoMemory };

    fn from(_error: AllocError) -> WindowsFault {
        WindowsFault::NoMemory
    }
}

impl<T: Drop> From<AllocFailed<T>> for WindowsFault {
    ghost from_gives = { λ _ e. e ≡ NoMemory };

    fn from(_error: AllocFailed<T>) -> WindowsFault {
        WindowsFault::NoMemory
    }
}
