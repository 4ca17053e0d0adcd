//! What a session's clients are granted to see, and its frames.
#![tactic(auto)]

mod following;
mod parts;
mod sameness;
mod viewing;

pub use following::{Lead, draw, draw_like};
pub use sameness::see_the_same;
pub use viewing::view_of;
