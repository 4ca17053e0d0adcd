//! Turns bytes into units, one byte at a time.

ghost use Rattle.std.specs.Prelude.{◌≡◌, ◌↔◌, ℕ, List, [], ◌∷◌, ◌++◌, map, IsTrue};
ghost use Rattle.charsets.specs.Units.{unit_of_byte, unit_list};
ghost use Rattle.charsets.specs.Partial.{chars_of};

use crate::utf8::{Chars, Partial, step};
use std::marker::Model;

/// A coding: how bytes are read.
#[derive(Clone, Copy, Debug, PartialEq, Eq)]
pub enum Coding {
    /// UTF-8 (Unicode core specification, 3.9).
    Utf8,
    /// The 8-bit code of ECMA-35: each byte is a unit.
    Ecma35,
}

/// What a parser reads.
#[derive(Clone, Copy, Debug, PartialEq, Eq)]
pub enum Unit {
    /// A code point: a control, or a graphic character.
    Code(char),
    /// A byte of ECMA-35 from A0 on.
    High(u8),
}

/// The units that one byte completes: none, one, or two if it also breaks off a character.
#[derive(Clone, Copy, Debug, PartialEq, Eq)]
pub enum Units {
    Nothing,
    One(Unit),
    Two(Unit, Unit),
}

/// Reads bytes in one coding, and keeps the bytes of a character that isn't complete yet.
#[derive(Debug, Drop)]
pub struct Decoder {
    coding: Coding,
    partial: Partial,
}

impl Model for Decoder {
    ghost use Rattle.charsets.specs.Units.{Decoding};
    ghost use Rattle.charsets.specs.Partial.{partial_bytes, IsPartialIn};

    ghost Value = { Decoding };

    ghost view = { λ d. record { coding = d.coding; rest = partial_bytes d.partial } };

    ghost invariant = { λ d. IsPartialIn d.coding d.partial };
}

impl Decoder {
    ghost use Rattle.charsets.specs.Units.{Decoding, units, StandsFor, HasGiven};
    ghost use Rattle.charsets.specs.declared.decoder.Coding.TheVariants.{Utf8};

    #[tactic(auto, unfolding(crate::specs::Utf8::cut))]
    /// A decoder for UTF-8 that has read nothing.
    pub fn new() -> Decoder
        ensures starts { result ≡ record { coding = Utf8; rest = [] } }
        ensures nothing { HasGiven result [] [] }
    {
        Decoder {
            coding: Coding::Utf8,
            partial: Partial::Empty,
        }
    }

    #[tactic(auto, unfolding(crate::specs::Utf8::cut))]
    /// Reads in this coding from here on. The bytes of an incomplete character are dropped.
    pub fn set_coding(&mut self, coding: Coding)
        ensures starts { self.new ≡ record { coding = coding; rest = [] } }
        ensures nothing { HasGiven self.new [] [] }
    {
        self.coding = coding;
        self.partial = Partial::Empty;
    }

    /// The coding in which it reads.
    pub fn coding(&self) -> Coding
        ensures { result ≡ self.now.coding }
    {
        self.coding
    }

    /// Whether it keeps no bytes of an incomplete character.
    pub fn is_idle(&self) -> bool
        ensures { IsTrue result ↔ (self.now.rest ≡ []) }
    {
        matches!(self.partial, Partial::Empty)
    }

    #[tactic(auto, using(crate::proofs::Pushes::goes_on))]
    /// Reads one byte and returns the units that it completes, at most two.
    pub fn push(&mut self, byte: u8) -> Units
        ensures coding { self.new.coding ≡ self.old.coding }
        ensures next { units self.old.coding (self.old.rest ++ byte ∷ [])
            ≡ (unit_list result, self.new.rest) }
        // Whichever bytes it has read before, this byte is read after them.
        ensures stands { (bytes : List ℕ) → StandsFor self.old bytes →
            StandsFor self.new (bytes ++ byte ∷ []) }
        ensures gives { (bytes : List ℕ) → StandsFor self.old bytes
            → (units self.old.coding (bytes ++ byte ∷ [])).0
            ≡ (units self.old.coding bytes).0 ++ unit_list result }
    {
        match self.coding {
            Coding::Ecma35 => Units::One(unit_of_byte(byte)),
            Coding::Utf8 => {
                let (chars, partial) = step(self.partial, byte);
                self.partial = partial;
                units_of_chars(chars)
            }
        }
    }
}

fn unit_of_byte(byte: u8) -> Unit
    ensures { result ≡ unit_of_byte byte }
{
    if byte < 0xA0 {
        Unit::Code(byte as char)
    } else {
        Unit::High(byte)
    }
}

fn units_of_chars(chars: Chars) -> Units
    ensures { unit_list result ≡ map (λ c. Unit.Code c) (chars_of chars) }
{
    match chars {
        Chars::Nothing => Units::Nothing,
        Chars::One(c) => Units::One(Unit::Code(c)),
        Chars::Two(c, d) => Units::Two(Unit::Code(c), Unit::Code(d)),
    }
}
