//! A peer of a server as a state machine: it takes what the server sends, what is typed or printed and
//! the time, and has frames for the server, bytes for standard output and what is to be done next.
#![tactic(auto)]

mod looking;
mod meeting;
mod notice;
mod outgoing;
mod peer;
mod taking;
mod typing;

pub use looking::PeerTask;
pub use meeting::{Meeting, SessionMark};
pub use outgoing::Batch;
pub use peer::{Output, Peer};
pub use typing::ReadPiece;
