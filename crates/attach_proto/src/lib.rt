//! Frames between the server and its peers: messages written as bytes, and streams of bytes read as
//! messages.
#![tactic(auto)]

mod fault;
mod fields;
mod kind;
mod message;
mod reader;
mod reading;
mod token;
mod why;
mod writing;

pub use fault::{ProtoFault, WriteFault};
pub use kind::{Kind, Side};
pub use message::Message;
pub use reader::Reader;
pub use reading::LONGEST;
pub use strings::{Bytes, Text};
pub use token::{TOKEN_LEN, Token};
pub use why::{Told, Why};
pub use writing::{
    head_of, longest_list, one_reading, spelled_apart, spelled_ones_are_read, write_message,
};
