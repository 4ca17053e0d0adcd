//! Rights, locks, and who is attached, by the acts of a history. One call says which acts can follow, and follows
//! them.
#![tactic(auto)]

mod clients;
mod lists;
mod moves;
mod rights;
mod runs;

pub use clients::{follow_clients, part_client, user_of_client};
pub use rights::Rights;
