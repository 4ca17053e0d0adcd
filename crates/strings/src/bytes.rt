//! A list of bytes that can grow.

ghost use Rattle.std.specs.Prelude.{◌≡◌, ◌++◌, ◌==◌, [], length, OnOk, OnErr, IfOk, option_to_list};

use std::alloc::{AllocError, Global};
use std::marker::Model;

/// Any bytes. Contracts see them as a list.
#[derive(Debug)]
pub struct Bytes {
    items: Vec<u8>,
}

impl Drop for Bytes {
    fn drop(self) {
        let Bytes { items: _ } = self;
    }
}

impl Model for Bytes {
    ghost use Rattle.std.specs.Prelude.{List, ℕ};

    ghost Value = { List ℕ };

    ghost view = { λ b. b.items.items };
}

impl Bytes {
    pub fn new(alloc: Global) -> Bytes
        ensures { result ≡ [] }
    {
        Bytes {
            items: Vec::new(alloc),
        }
    }

    /// Copies bytes. `AllocError` if memory is refused.
    pub fn of(alloc: Global, bytes: &[u8]) -> Result<Bytes, AllocError>
        ensures { IfOk result (λ b. b ≡ bytes.now) }
    {
        let items = bytes.to_vec(alloc)?;
        Ok(Bytes { items })
    }

    /// The bytes of a vector.
    pub fn from_vec(items: Vec<u8>) -> Bytes
        ensures { result ≡ items.items }
    {
        Bytes { items }
    }

    /// The vector of these bytes.
    pub fn into_vec(self) -> Vec<u8>
        ensures { result.items ≡ self }
    {
        let Bytes { items } = self;
        items
    }

    /// Appends the byte, if there is one. `AllocError` if memory is refused.
    pub fn push_some(&mut self, byte: Option<u8>) -> Result<(), AllocError>
        ensures ok { OnOk result (self.new ≡ self.old ++ option_to_list byte) }
        ensures err { OnErr result (self.new ≡ self.old) }
    {
        if let Some(byte) = byte {
            self.items.push(byte)?;
        }
        Ok(())
    }

    pub fn is_empty(&self) -> bool
        ensures { result ≡ (length self.now == 0) }
    {
        self.items.is_empty()
    }

    pub fn as_slice(&self) -> &[u8]
        ensures { result.now ≡ self.now }
    {
        self.items.as_slice()
    }
}
