//! The loop of `mux-web`: which browsers it lets in, what it reads of each in a turn, passes on to its own client and
//! shows it, and when it lets one go.
#![tactic(auto)]

mod bridge;
mod link_files;
mod links;
mod log;
mod turning;
mod waiting;

pub use bridge::{Bridge, BridgeOptions, WebHost, serve};
pub use link_files::{LinkDisk, LinkFiles};
pub use links::TakesLinks;
pub use log::{WebLog, start_log};
pub use waiting::Waits;
