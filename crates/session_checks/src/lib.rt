//! What is checked before an event and before a command acts.
#![tactic(auto)]

mod checks;
mod commands;
mod events;

pub use commands::check_command;
pub use events::{check_attach, check_open, check_resize, check_typing, is_known};
