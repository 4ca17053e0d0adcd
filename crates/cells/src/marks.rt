//! Nonspacing marks.

ghost use Rattle.std.specs.Prelude.{◌≡◌};
ghost use Rattle.cells.specs.Line.{joined};
ghost use Rattle.cells.specs.Marks.{mark_of, IsCode};

use std::marker::Model;

/// The nonspacing marks that joined a cell, in their order: at most two (Unicode core
/// specification, section 5.13).
#[derive(Clone, Copy, Debug, PartialEq, Eq)]
pub enum Marks {
    Bare,
    One(char),
    Two(char, char),
}

/// The marks of a cell in two words: 0 for none, and else a mark's code point and one more.
#[derive(Clone, Copy, Debug, PartialEq, Eq)]
pub struct PackedMarks {
    first: u32,
    second: u32,
}

impl Model for PackedMarks {
    ghost use Rattle.cells.specs.declared.marks.Marks.{Marks};

    ghost Value = { Marks };

    ghost use Rattle.cells.specs.Marks.{codes_back, codes_of, marks_of, ArePacked};

    ghost view = { λ m. marks_of m.first m.second };

    ghost invariant = { λ m. ArePacked m.first m.second };

    ghost inverse = { λ m. record { first = (codes_of m).0; second = (codes_of m).1 } };

    ghost inverse_ok = { λ a h. rw (codes_back a.first a.second h) (λ i. a) };
}

impl PackedMarks {
    /// No marks.
    pub const BARE: PackedMarks = PackedMarks {
        first: 0,
        second: 0,
    };

    /// These marks and one more. If there are two already, the new one is dropped.
    pub fn joined(self, mark: char) -> PackedMarks
        ensures { result ≡ joined self mark }
    {
        let code = u32::from(mark) + 1;
        if self.first == 0 {
            PackedMarks {
                first: code,
                second: 0,
            }
        } else if self.second == 0 {
            PackedMarks {
                first: self.first,
                second: code,
            }
        } else {
            self
        }
    }

    /// The marks one by one.
    pub fn marks(self) -> Marks
        ensures { result ≡ self }
    {
        match (mark_of(self.first), mark_of(self.second)) {
            (None, _) => Marks::Bare,
            (Some(first), None) => Marks::One(first),
            (Some(first), Some(second)) => Marks::Two(first, second),
        }
    }
}

/// The mark of a code; None for 0.
fn mark_of(code: u32) -> Option<char>
    requires { IsCode code }
    ensures { result ≡ mark_of code }
{
    char::from_u32(code.checked_sub(1)?)
}
