//! The log of a trail for people: a line an entry, but one line for bytes that a user types in a row.
#![tactic(auto)]

mod causes;
mod checks;
mod choice;
mod deeds;
mod joining;
mod log_line;
mod logging;
mod names;
mod pressed;
mod titles;

pub use choice::{Choice, Wanted, giver};
pub use log_line::push_end;
pub use logging::LogWriter;
pub use names::Names;
pub use titles::{Titled, title_in};
