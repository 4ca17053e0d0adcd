//! A stage for tests of the server: one loop over a new session, or two that run at once. What
//! happens on it is a list of acts, and what is seen of it is bytes and numbers, so a test needs no
//! proof of what a loop holds. Streams are of memory, and say how they pass bytes.
#![tactic(auto)]

mod acts;
mod frames;
mod latch;
mod outside;
mod pages;
mod stage;
mod streams;

pub use acts::{LoopState, Note, Seen, StageAct};
pub use attach_proto::{Message, Why};
pub use frames::{
    ACLADD, ATTACH, ATTACH_BOB, DETACH, GONE_FAULT, MULTIUSER, QUIT, Received, WALL, WELCOME,
    WINDOW,
};
pub use pages::{are_alike, shows};
pub use server_loop::ServerEnd;
pub use stage::{System, perform};
use std::alloc::{AllocError, AllocFailed};
pub use streams::{Habit, StreamLog};

/// What couldn't be had.
#[derive(Clone, Copy, Debug, PartialEq, Eq)]
pub enum Stop {
    Memory,
    Other(&'static str),
}

impl From<AllocError> for Stop {
    fn from(_error: AllocError) -> Stop {
        Stop::Memory
    }
}

impl<T: Drop> From<AllocFailed<T>> for Stop {
    fn from(_error: AllocFailed<T>) -> Stop {
        Stop::Memory
    }
}
