//! Who is sent what: a browser and the connection of its own client, pages that watchers share, and the place of each.
//! What comes from the server for a client goes to its browser alone, and what a browser types to its own client.
#![tactic(auto)]

mod hall;
mod halls;
mod places;
mod relay;
mod seating;
mod upstream;

pub use halls::{HallNumber, Halls};
pub use places::{is_full, let_go, make_room, mark, oldest_silent};
pub use relay::Relay;
