//! Turns bytes into units: UTF-8 or ECMA-35, no matter how the bytes are cut into pieces.
#![tactic(auto)]

mod decoder;
mod laws;
mod shifts;
mod utf8;

pub use decoder::{Coding, Decoder, Unit, Units};
pub use laws::{
    ascii_stands_for_itself, beginnings_go_on, can_ends_all, characters_read_back, each_is_a_unit,
    pieces_are_whole, plain_bytes_stand, texts_join, whole_ones_join,
};
pub use shifts::{CharacterSet, Place, Shift, Shifts};
pub use utf8::first_character;
