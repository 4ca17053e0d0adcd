//! A loop's seat in the session that the loops share, and what a loop tells the log.
#![tactic(auto)]

mod news;
mod seat;

pub use news::{Guest, Name, News};
pub use seat::{GuestKind, SeatAnswer, SeatFault, ServerEnd, SessionSeat};
