//! What a connection asked for that isn't done yet: the messages of its stream, in order and each once.
#![tactic(auto)]

mod inbox;

pub use inbox::{Asked, Inbox, PIECE};
pub use server_typing::{Size, Sizing, Typeahead};
