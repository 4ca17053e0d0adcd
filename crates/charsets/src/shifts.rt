//! The character sets, and those that graphic units are read in.

ghost use Rattle.std.specs.Prelude.{◌≡◌, ◌<◌};

use crate::decoder::Unit;

/// A set of 94 graphic characters, at the positions 21 to 7E (ECMA-35, 94-character sets).
#[derive(Clone, Copy, Debug, PartialEq, Eq)]
pub enum CharacterSet {
    /// ASCII, designated by the final byte `B`.
    Ascii,
    /// ASCII with the pound sign at 23, designated by `A`.
    UnitedKingdom,
    /// DEC special graphics, designated by `0`: lines, and symbols for controls.
    SpecialGraphics,
    /// This project's supplemental set, designated by `<`: most of Latin-1's upper half.
    Supplemental,
}

// DEC special graphics from 5F on; its positions below are those of ASCII.
const SPECIAL_GRAPHICS: [char; 32] = [
    ' ', '◆', '▒', '␉', '␌', '␍', '␊', '°', '±', '␤', '␋', '┘', '┐', '┌', '└', '┼', '⎺', '⎻', '─',
    '⎼', '⎽', '├', '┤', '┴', '┬', '│', '≤', '≥', 'π', '≠', '£', '·',
];

impl CharacterSet {
    ghost use Rattle.charsets.specs.Sets.{character_at};

    #[tactic(auto, unfolding(crate::specs::Sets::character_at, crate::specs::Sets::supplement))]
    /// The character at a position of the set, 21 to 7E.
    pub fn character(self, position: u8) -> char
        requires above { 0x20 < position }
        requires below { position < 0x7F }
        ensures { result ≡ character_at self position }
    {
        match self {
            CharacterSet::UnitedKingdom if position == b'#' => '£',
            CharacterSet::SpecialGraphics if position >= b'_' => {
                SPECIAL_GRAPHICS[(position - b'_') as usize]
            }
            CharacterSet::Supplemental => match position {
                b'$' | b'&' | b','..=b'/' | b'4' | b'8' | b'>' | b'P' | b'^' | b'p' | b'~' =>
                    '\u{FFFD}',
                b'(' => '¤',
                b'W' => 'Œ',
                b']' => 'Ÿ',
                b'w' => 'œ',
                b'}' => 'ÿ',
                _ => (position + 0x80) as char,
            },
            _ => position as char,
        }
    }
}

/// One of the four places that sets are designated to (ECMA-35, the G0 to G3 elements).
#[derive(Clone, Copy, Debug, PartialEq, Eq)]
pub enum Place {
    G0,
    G1,
    G2,
    G3,
}

/// A shift function (ECMA-48, 8.3; VT220 Programmer Reference Manual, chapter 2).
#[derive(Clone, Copy, Debug, PartialEq, Eq)]
pub enum Shift {
    /// SI: GL is G0.
    Si,
    /// SO: GL is G1.
    So,
    /// LS2: GL is G2.
    Ls2,
    /// LS3: GL is G3.
    Ls3,
    /// LS1R: GR is G1.
    Ls1r,
    /// LS2R: GR is G2.
    Ls2r,
    /// LS3R: GR is G3.
    Ls3r,
    /// SS2: the next graphic unit is read in G2.
    Ss2,
    /// SS3: the next graphic unit is read in G3.
    Ss3,
}

/// The designated sets, and which of them are in use.
#[derive(Clone, Copy, Debug, PartialEq, Eq)]
pub struct Shifts {
    pub g0: CharacterSet,
    pub g1: CharacterSet,
    pub g2: CharacterSet,
    pub g3: CharacterSet,
    /// The place that the codes 21 to 7E go through.
    pub gl: Place,
    /// The place that the bytes A1 to FE go through, in ECMA-35.
    pub gr: Place,
    /// The place of a pending single shift, which holds for the next graphic unit.
    pub single: Option<Place>,
}

impl Shifts {
    ghost use Rattle.charsets.specs.Shifts.{starting, set_at, designated, shifted, mapped, spent};

    /// The starting values: ASCII at each place, GL is G0, GR is G2.
    pub fn new() -> Shifts
        ensures { result ≡ starting }
    {
        Shifts {
            g0: CharacterSet::Ascii,
            g1: CharacterSet::Ascii,
            g2: CharacterSet::Ascii,
            g3: CharacterSet::Ascii,
            gl: Place::G0,
            gr: Place::G2,
            single: None,
        }
    }

    /// Designates a set to one of the four places.
    pub fn designate(&mut self, place: Place, set: CharacterSet)
        ensures { self.new ≡ designated self.old place set }
    {
        match place {
            Place::G0 => self.g0 = set,
            Place::G1 => self.g1 = set,
            Place::G2 => self.g2 = set,
            Place::G3 => self.g3 = set,
        }
    }

    /// Performs a shift function.
    pub fn shift(&mut self, shift: Shift)
        ensures { self.new ≡ shifted self.old shift }
    {
        match shift {
            Shift::Si => self.gl = Place::G0,
            Shift::So => self.gl = Place::G1,
            Shift::Ls2 => self.gl = Place::G2,
            Shift::Ls3 => self.gl = Place::G3,
            Shift::Ls1r => self.gr = Place::G1,
            Shift::Ls2r => self.gr = Place::G2,
            Shift::Ls3r => self.gr = Place::G3,
            Shift::Ss2 => self.single = Some(Place::G2),
            Shift::Ss3 => self.single = Some(Place::G3),
        }
    }

    #[tactic(auto, unfolding(crate::specs::Shifts::mapped))]
    /// The character of a graphic unit, which ends a pending single shift. None for A0 and FF of
    /// ECMA-35, which are dropped, and for a unit that isn't graphic, which ends no shift.
    pub fn map(&mut self, unit: Unit) -> Option<char>
        ensures character { result ≡ mapped self.old unit }
        ensures spends { self.new ≡ spent self.old unit }
    {
        match unit {
            Unit::Code(c @ '!'..='~') => {
                let place = self.single.take().unwrap_or(self.gl);
                Some(self.set_at(place).character(c as u8))
            }
            Unit::Code('\0'..='\u{1F}' | '\u{7F}'..='\u{9F}') | Unit::High(0..=0x9F) => None,
            Unit::Code(c) => {
                self.single = None;
                Some(c)
            }
            Unit::High(b) => {
                let place = self.single.take().unwrap_or(self.gr);
                if b == 0xA0 || b == 0xFF {
                    None
                } else {
                    Some(self.set_at(place).character(b - 0x80))
                }
            }
        }
    }

    fn set_at(&self, place: Place) -> CharacterSet
        ensures { result ≡ set_at self.now place }
    {
        match place {
            Place::G0 => self.g0,
            Place::G1 => self.g1,
            Place::G2 => self.g2,
            Place::G3 => self.g3,
        }
    }
}
