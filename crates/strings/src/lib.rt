//! The bytes and texts that messages, commands, effects and events hold; and the words of a line: they
//! are separated by blanks, and may have quotes.
#![tactic(auto)]

mod bytes;
mod cut;
mod parts;
mod text;

pub use bytes::Bytes;
pub use cut::{each_line_is_cut_once, words};
pub use text::{Items, Text, Texts, Word};
