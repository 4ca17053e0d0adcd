//! What a connection is still to be sent: frames, in turn, each once.
#![tactic(auto)]

mod frames;
mod turn;
mod typists;

pub use frames::{Sending, gone_frame, put, why_of};
pub use turn::Turn;
