//! The input of users: keys, which type or give commands, and lines, which give commands. A command is
//! checked, carried out and answered.
#![tactic(auto)]

mod commanding;
mod given;
mod key_step;
mod obeying;
mod orders;
mod saying;
mod typing;

pub use commanding::give_line;
pub use key_step::give_keys;
