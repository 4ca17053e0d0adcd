//! The content of one place of a line, and where cells differ.

ghost use Rattle.std.specs.Prelude.{◌≡◌, ◌↔◌, IsTrue, ◌≤◌, ◌+◌, length, IfSome, IfNone};
ghost use Rattle.cells.specs.Line.{blank, IsPlain, unprotected, narrow_cell, left_cell, right_cell};
ghost use Rattle.cells.specs.Rendition.{colour_number};
ghost use Rattle.cells.specs.Unlike.{IsNextUnlike, IsFirstUnlike, IsEndOfUnlike, AreAlikeFrom};

use crate::marks::{Marks, PackedMarks};
use crate::rendition::Rendition;

/// The part of a character that a cell holds (UAX #11, section 5).
#[derive(Clone, Copy, Debug, PartialEq, Eq)]
pub enum Shape {
    /// A character of width 1.
    Narrow,
    /// The left half of a character of width 2.
    Left,
    /// The right half of a character of width 2.
    Right,
}

/// A place of a line: a character of width 1, or half of one of width 2. Both halves hold the
/// character, its rendition and its protection; the left one alone holds its marks.
#[derive(Clone, Copy, Debug, PartialEq, Eq)]
pub struct Cell {
    pub character: char,
    pub marks: PackedMarks,
    pub rendition: Rendition,
    pub shape: Shape,
    /// Whether a selective erasure leaves it as it is (VT220 Programmer Reference Manual, DECSCA).
    pub is_protected: bool,
}

impl Cell {
    /// A space without rendition, marks and protection.
    pub const BLANK: Cell = Cell {
        shape: Shape::Narrow,
        character: ' ',
        marks: PackedMarks::BARE,
        rendition: Rendition::PLAIN,
        is_protected: false,
    };

    ghost use Rattle.cells.specs.Line.{is_left as is_left_shape, is_right as is_right_shape};

    /// A cell with a character of width 1, without marks.
    pub fn narrow(character: char, rendition: Rendition, is_protected: bool) -> Cell
        ensures { result ≡ narrow_cell character rendition is_protected }
    {
        Cell {
            character,
            rendition,
            is_protected,
            ..Cell::BLANK
        }
    }

    /// The left half of a character of width 2, without marks.
    pub fn left(character: char, rendition: Rendition, is_protected: bool) -> Cell
        ensures { result ≡ left_cell character rendition is_protected }
    {
        Cell {
            shape: Shape::Left,
            ..Cell::narrow(character, rendition, is_protected)
        }
    }

    /// The right half of a character of width 2.
    pub fn right(character: char, rendition: Rendition, is_protected: bool) -> Cell
        ensures { result ≡ right_cell character rendition is_protected }
    {
        Cell {
            shape: Shape::Right,
            ..Cell::narrow(character, rendition, is_protected)
        }
    }

    /// The character. Both halves of a wide character have it.
    pub fn glyph(&self) -> char
        ensures { result ≡ self.now.character }
    {
        self.character
    }

    /// The marks that joined the cell.
    pub fn marks(&self) -> Marks
        ensures { result ≡ self.now.marks }
    {
        self.marks.marks()
    }

    /// The rendition.
    pub fn rendition(&self) -> Rendition
        ensures { result ≡ self.now.rendition }
    {
        self.rendition
    }

    /// The number of the character's colour, 0 to 7; None for the terminal's own.
    pub fn fore(&self) -> Option<u8>
        ensures { result ≡ colour_number self.now.rendition.fore }
    {
        self.rendition.fore().number()
    }

    /// The number of the background's colour, 0 to 7; None for the terminal's own.
    pub fn back(&self) -> Option<u8>
        ensures { result ≡ colour_number self.now.rendition.back }
    {
        self.rendition.back().number()
    }

    /// Whether a selective erasure leaves the cell as it is.
    pub fn is_protected(&self) -> bool
        ensures { result ≡ self.now.is_protected }
    {
        self.is_protected
    }

    /// Whether the cell is a blank: a space without rendition, marks or protection.
    pub fn is_blank(&self) -> bool
        ensures { IsTrue result ↔ (self.now ≡ blank) }
    {
        self.is_like(&Cell::BLANK) && !self.is_protected
    }

    /// Whether the cell holds a character of width 1 without rendition, marks or protection.
    pub(crate) fn is_plain(&self) -> bool
        ensures { IsTrue result ↔ IsPlain self.now }
    {
        self.is_like(&Cell::narrow(self.character, Rendition::PLAIN, false)) && !self.is_protected
    }

    /// Whether the cell holds a character of width 1.
    pub fn is_narrow(&self) -> bool
        ensures { IsTrue result ↔ (self.now.shape ≡ Shape.Narrow) }
    {
        matches!(self.shape, Shape::Narrow)
    }

    /// Whether the cell holds the left half of a wide character.
    pub fn is_left(&self) -> bool
        ensures { result ≡ is_left_shape self.now.shape }
    {
        matches!(self.shape, Shape::Left)
    }

    /// Whether the cell holds the right half of a wide character.
    pub fn is_right(&self) -> bool
        ensures { result ≡ is_right_shape self.now.shape }
    {
        matches!(self.shape, Shape::Right)
    }

    /// Whether two cells look alike: they are equal, or differ in protection only.
    pub fn is_like(&self, other: &Cell) -> bool
        ensures { IsTrue result ↔ (unprotected self.now ≡ unprotected other.now) }
    {
        (self.character == other.character)
            & (self.rendition == other.rendition)
            & is_same_shape(self.shape, other.shape)
            & (self.marks == other.marks)
    }
}

fn is_same_shape(a: Shape, b: Shape) -> bool
    ensures { IsTrue result ↔ (a ≡ b) }
{
    a == b
}

/// The first run of columns, from `from` on, in which two lines look different; protection isn't
/// seen. Returns its first column, and the first column after it in which the lines look alike, or
/// else the width. None if they look alike from `from` on.
pub fn next_unlike(a: &[Cell], b: &[Cell], from: usize) -> Option<(usize, usize)>
    requires { length a.now ≡ length b.now }
    ensures found { IfSome result (λ run. IsNextUnlike a.now b.now from run.0 run.1) }
    ensures none { IfNone result (AreAlikeFrom a.now b.now from) }
{
    let start = first_unlike(a, b, from)?;
    Some((start, end_of_unlike(a, b, start)))
}

/// The first column, from `from` on, in which the lines look different. None if they look alike.
fn first_unlike(a: &[Cell], b: &[Cell], from: usize) -> Option<usize>
    requires { length a.now ≡ length b.now }
    ensures found { IfSome result (λ start. IsFirstUnlike a.now b.now from start) }
    ensures none { IfNone result (AreAlikeFrom a.now b.now from) }
{
    for column in from..a.len() {
        if !a[column].is_like(&b[column]) {
            return Some(column);
        }
    }
    None
}

/// The first column, from `start` on, in which the lines look alike, or else their width.
fn end_of_unlike(a: &[Cell], b: &[Cell], start: usize) -> usize
    requires same_width { length a.now ≡ length b.now }
    requires inside { start ≤ length a.now }
    ensures { IsEndOfUnlike a.now b.now start result }
{
    for column in start..a.len() {
        if a[column].is_like(&b[column]) {
            return column;
        }
    }
    a.len()
}
