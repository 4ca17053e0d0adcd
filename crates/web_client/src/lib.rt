//! What `mux-web` does with bytes: requests and messages of browsers, frames of the server, and pages
//! as rows of text. It has no handle: a loop hands it bytes, and takes bytes from it.
#![tactic(auto)]

mod client;
mod frame;
mod identity;
mod pages;
mod visitor;
mod wire;

pub use client::{SharedClient, WebClient, tokens_change_no_display};
pub use identity::{Identity, fitted};
pub use visitor::Visitor;
pub use wire::WireFault;
