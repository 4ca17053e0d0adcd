//! When a loop's draws wait, and how long it sleeps.
#![tactic(auto)]

mod pace;

pub use pace::Pace;
