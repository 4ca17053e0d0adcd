//! What the arguments of `mux-web` ask for, and why it doesn't serve.
#![tactic(auto)]

mod fault;
mod listening;
mod options;
mod page;
mod watching;

pub use fault::WebFault;
pub use listening::{Listen, origins_of};
pub use options::{WebOptions, look_for_paths};
pub use page::{ReadsFiles, site_of};
