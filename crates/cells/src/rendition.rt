//! How characters are shown.

ghost use Rattle.std.specs.Prelude.{◌≡◌, ◌↔◌, ◌+◌, IsTrue, bit_and};
ghost use Rattle.cells.specs.Rendition.{bits_of, colour_at, colour_number, plain, rendition_with};

use std::marker::Model;

/// A colour (ECMA-48, 8.3.117, SGR): the terminal's own, or one of eight in the order of their numbers.
#[derive(Clone, Copy, Debug, PartialEq, Eq)]
pub enum Colour {
    Default,
    Black,
    Red,
    Green,
    Yellow,
    Blue,
    Magenta,
    Cyan,
    White,
}

impl Colour {
    /// The number of the colour, 0 to 7; None for the terminal's own.
    pub fn number(self) -> Option<u8>
        ensures { result ≡ colour_number self }
    {
        (self as u8).checked_sub(1)
    }
}

/// A change of a rendition by one value of SGR (ECMA-48, 8.3.117).
#[derive(Clone, Copy, Debug)]
pub enum Attribute {
    Plain,
    Bold(bool),
    Underlined(bool),
    Blinking(bool),
    Reversed(bool),
    Foreground(Colour),
    Background(Colour),
}

/// How a character is shown (ECMA-48, 8.3.117, SGR). It is one word, so that a cell is small and a new one takes it in
/// one step.
#[derive(Clone, Copy, Debug, PartialEq, Eq)]
pub struct Rendition {
    /// 1 for bold, 2 for underlined, 4 for blinking, 8 for reversed, 16 times the number of the character's colour, and
    /// 256 times that of the background.
    bits: u16,
}

impl Model for Rendition {
    ghost use Rattle.std.specs.Prelude.{◌≡◌};
    ghost use Rattle.cells.specs.Rendition.{Rendition};

    ghost Value = { Rendition };

    ghost use Rattle.cells.specs.Rendition.{bits_of, rendition_of};

    ghost view = { λ r. rendition_of r.bits };

    ghost invariant = { λ r. bits_of (rendition_of r.bits) ≡ r.bits };

    ghost inverse = { λ r. record { bits = bits_of r } };

    ghost inverse_ok = { λ a h. rw h (λ i. a) };
}

/// What an attribute keeps of the bits of a rendition, and what it sets of them. A value of SGR can't be foreseen: from
/// these pairs the compiler makes a table, without a branch.
#[inline(always)]
fn parts(attribute: Attribute) -> (u16, u16)
    ensures { (r : Rendition) → bit_and (bits_of r) result.0 + result.1 ≡ bits_of (rendition_with r attribute) }
{
    match attribute {
        Attribute::Plain => (0, 0),
        Attribute::Bold(is_bold) => (0xFFE, u16::from(is_bold)),
        Attribute::Underlined(is_underlined) => (0xFFD, 2 * u16::from(is_underlined)),
        Attribute::Blinking(is_blinking) => (0xFFB, 4 * u16::from(is_blinking)),
        Attribute::Reversed(is_reversed) => (0xFF7, 8 * u16::from(is_reversed)),
        Attribute::Foreground(fore) => (0xF0F, 16 * fore as u16),
        Attribute::Background(back) => (0xFF, 256 * back as u16),
    }
}

/// The colour of a number, in the order of the colours.
fn colour_at(number: u16) -> Colour
    ensures { result ≡ colour_at number }
{
    match number {
        1 => Colour::Black,
        2 => Colour::Red,
        3 => Colour::Green,
        4 => Colour::Yellow,
        5 => Colour::Blue,
        6 => Colour::Magenta,
        7 => Colour::Cyan,
        8 => Colour::White,
        _ => Colour::Default,
    }
}

impl Rendition {
    /// No rendition (SGR 0).
    pub const PLAIN: Rendition = Rendition { bits: 0 };

    /// The rendition after one value of SGR.
    #[inline(always)]
    pub fn with(self, attribute: Attribute) -> Rendition
        ensures { result ≡ rendition_with self attribute }
    {
        let (kept, set) = parts(attribute);
        Rendition {
            bits: (self.bits & kept) + set,
        }
    }

    /// Whether this is no rendition (SGR 0).
    pub fn is_plain(self) -> bool
        ensures { IsTrue result ↔ (self ≡ plain) }
    {
        self.bits == 0
    }

    /// Whether the character is bold.
    pub fn is_bold(self) -> bool
        ensures { result ≡ self.is_bold }
    {
        self.bits % 2 == 1
    }

    /// Whether the character is underlined.
    pub fn is_underlined(self) -> bool
        ensures { result ≡ self.is_underlined }
    {
        self.bits / 2 % 2 == 1
    }

    /// Whether the character blinks.
    pub fn is_blinking(self) -> bool
        ensures { result ≡ self.is_blinking }
    {
        self.bits / 4 % 2 == 1
    }

    /// Whether the colours of the character and of the background change places.
    pub fn is_reversed(self) -> bool
        ensures { result ≡ self.is_reversed }
    {
        self.bits / 8 % 2 == 1
    }

    /// The colour of the character.
    pub fn fore(self) -> Colour
        ensures { result ≡ self.fore }
    {
        colour_at(self.bits / 16 % 16)
    }

    /// The colour of the background.
    pub fn back(self) -> Colour
        ensures { result ≡ self.back }
    {
        colour_at(self.bits / 256)
    }
}
