//! Turns units into control functions, no matter how the units are cut into pieces.
#![tactic(auto)]

mod intermediates;
mod laws;
mod params;
mod parser;
mod spelling;
mod state;

pub use intermediates::Intermediates;
pub use laws::{
    can_ends_all, each_is_spelled, graphic_codes_print, pieces_are_whole, plain_bytes_print,
    readings_join, spelled_ones_read_back, unended_go_on, whole_ones_join,
};
pub use params::Params;
pub use parser::{Func, Parser, plain_run};
pub use spelling::spell;
pub use std::alloc::AllocError as NoMemory;
