//! Parameters.

ghost use Rattle.std.specs.Prelude.{◌≡◌, ◌<◌, ◌≤◌, ◌∷◌, ◌++◌, [], length, slice_index};
ghost use Rattle.control_parser.specs.Text.{digit_added};

use std::marker::Model;

// The number of parameters that count.
const PARAMS: usize = 16;

/// The parameters of a control sequence: one to sixteen. Those that a parser gives are at most
/// 9,999, and an absent one is 0.
#[derive(Clone, Copy, Debug, PartialEq, Eq)]
pub struct Params {
    values: [u16; PARAMS],
    count: usize,
}

impl Model for Params {
    ghost use Rattle.std.specs.Prelude.{List, ℕ, ◌<◌, take, length};
    ghost use Rattle.control_parser.specs.Arrays.{IsFront, array_of, array_of-take, length-front};

    ghost Value = { List ℕ };

    ghost view = { λ p. take p.count p.values };

    ghost invariant = { λ p. (0 < p.count) × IsFront 16 p.count p.values };

    ghost inverse = { λ xs. record { values = array_of 16 xs; count = length xs } };

    ghost inverse_ok = { λ a h i. record {
      values = array_of-take 16 a.count a.values h.1 i;
      count = length-front 16 a.count a.values h.1 i;
    } };
}

impl Params {
    /// The parameters with these values, one to sixteen.
    pub fn from_slice(values: &[u16]) -> Params
        requires some { 0 < length values.now }
        requires few { length values.now ≤ 16 }
        ensures { result ≡ values.now }
    {
        let mut params = Params::absent();
        params.values[0] = values[0];
        for value in &values[1..] {
            params.push(*value);
        }
        params
    }

    /// A single parameter of this value.
    pub fn one(value: u16) -> Params
        ensures { result ≡ value ∷ [] }
    {
        let mut params = Params::absent();
        params.values[0] = value;
        params
    }

    /// A single absent parameter.
    pub fn absent() -> Params
        ensures { result ≡ 0 ∷ [] }
    {
        Params {
            values: [0; PARAMS],
            count: 1,
        }
    }

    /// The number of parameters, 1 to 16.
    pub fn len(&self) -> usize
        ensures { result ≡ length self.now }
    {
        self.as_slice().len()
    }

    /// The parameters in their order.
    pub fn as_slice(&self) -> &[u16]
        ensures items { result.now ≡ self.now }
        ensures few { length result.now ≤ 16 }
    {
        &self.values[..self.count]
    }

    /// The parameter at a place, counted from 0; 0 if there is none.
    pub fn get(&self, i: usize) -> u16
        ensures { result ≡ slice_index self.now i }
    {
        self.as_slice().get(i).copied().unwrap_or(0)
    }

    // Appends a digit to the last parameter, which is at most 9,999.
    pub(crate) fn add_digit(&mut self, digit: u8)
        requires { digit < 10 }
        ensures { self.new ≡ digit_added self.old digit }
    {
        let last = self.count - 1;
        let longer = self.values[last] as u32 * 10 + digit as u32;
        self.values[last] = longer.min(9999) as u16;
    }

    /// Appends a parameter.
    pub fn push(&mut self, value: u16)
        requires { length self.old < 16 }
        ensures { self.new ≡ self.old ++ value ∷ [] }
    {
        self.values[self.count] = value;
        self.count += 1;
    }
}
