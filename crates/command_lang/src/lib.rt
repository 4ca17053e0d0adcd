//! The commands of a session: a line is read as a command, and a command is printed as a line.
#![tactic(auto)]

mod build;
mod command;
mod command_words;
mod fault;
mod needs;
mod reading;
mod rows;
mod spelling;
mod table;
mod values;

pub use command::{BitList, Coding, Command, Leader, Mask, Masks, Users};
pub use fault::{FaultKind, ParseFault};
pub use needs::{Needs, needs_of};
pub use reading::{LONGEST_LINE, each_line_is_a_command_or_faulty, numbers_are_below_40, parse};
pub use rows::{command_named, commands_have_their_names, name_text};
pub use spelling::print;
pub use strings::{Items, Text, Texts, each_line_is_cut_once};
pub use values::{has_byte, is_wide};
