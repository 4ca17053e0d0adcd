//! The scrollback of a screen: the last lines that left its page at the top.
#![tactic(auto)]

mod ring;

pub use ring::Ring;
pub use std::alloc::AllocError as NoMemory;
