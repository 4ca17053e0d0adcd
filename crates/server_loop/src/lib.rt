//! One loop of the server: what it reads, does, sends and draws, and how its connections leave.
#![tactic(auto)]

mod leaving;
mod own;
mod requests;
mod sending;
mod submitting;
mod turn;
mod typing;

pub use own::Loop;
pub use server_connections::{Connections, Name, News, ServerEnd, SessionSeat};
pub use server_pace::Pace;
pub use server_steps::{Gate, Open, Pending, Reads, Submitted, Writes, set_look};
