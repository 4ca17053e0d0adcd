//! Intermediate bytes.

ghost use Rattle.std.specs.Prelude.{◌≡◌, ◌<◌, ◌≤◌, ◌==◌, ◌∷◌, ◌++◌, [], length};

use std::marker::Model;

/// The intermediate bytes of a sequence: at most two. Those that a parser gives are 20 to 2F.
#[derive(Clone, Copy, Debug, PartialEq, Eq)]
pub struct Intermediates {
    bytes: [u8; 2],
    count: usize,
}

impl Model for Intermediates {
    ghost use Rattle.std.specs.Prelude.{List, ℕ, take, length};
    ghost use Rattle.control_parser.specs.Arrays.{IsFront, array_of, array_of-take, length-front};

    ghost Value = { List ℕ };

    ghost view = { λ i. take i.count i.bytes };

    ghost invariant = { λ i. IsFront 2 i.count i.bytes };

    ghost inverse = { λ xs. record { bytes = array_of 2 xs; count = length xs } };

    ghost inverse_ok = { λ a h i. record {
      bytes = array_of-take 2 a.count a.bytes h i;
      count = length-front 2 a.count a.bytes h i;
    } };
}

impl Intermediates {
    /// The intermediates with these bytes, at most two.
    pub fn from_slice(bytes: &[u8]) -> Intermediates
        requires { length bytes.now ≤ 2 }
        ensures { result ≡ bytes.now }
    {
        let mut intermediates = Intermediates::none();
        for byte in bytes {
            intermediates.push(*byte);
        }
        intermediates
    }

    /// No intermediate.
    pub fn none() -> Intermediates
        ensures { result ≡ [] }
    {
        Intermediates {
            bytes: [0; 2],
            count: 0,
        }
    }

    /// The number of intermediates, 0 to 2.
    pub fn len(&self) -> usize
        ensures value { result ≡ length self.now }
        ensures few { result ≤ 2 }
    {
        self.as_slice().len()
    }

    /// Whether there is no intermediate.
    pub fn is_empty(&self) -> bool
        ensures { result ≡ (length self.now == 0) }
    {
        self.count == 0
    }

    /// The bytes in their order.
    pub fn as_slice(&self) -> &[u8]
        ensures items { result.now ≡ self.now }
        ensures few { length result.now ≤ 2 }
    {
        &self.bytes[..self.count]
    }

    // Appends a byte.
    pub(crate) fn push(&mut self, byte: u8)
        requires { length self.old < 2 }
        ensures { self.new ≡ self.old ++ byte ∷ [] }
    {
        self.bytes[self.count] = byte;
        self.count += 1;
    }
}
