//! Requests of browsers for the files of a page and for its WebSocket, and what answers them.
#![tactic(auto)]

mod machine;
mod requests;
mod site;

pub use machine::Loopback;
pub use requests::{Response, Upgrade, answered, refusal};
pub use site::{Site, SiteFile, Watcher};
