//! The turns of one loop, with what the loop has around it.
#![tactic(auto)]

mod around;
mod begin;
mod turner;
mod turns;
mod waits;

pub use around::{Around, Backlog, Came, Learned};
pub use turner::Turner;
