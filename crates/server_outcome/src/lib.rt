//! How a server ends, why one doesn't serve, and what it says meanwhile.
#![tactic(auto)]

mod ending;
mod fault;
mod saying;

pub use ending::{LastLine, ReadySaid, Unready, cause_of, fill_closed, outcome_of, served};
pub use fault::{RefusedCommand, ServeFault, SetupCause};
pub use saying::{DiskLog, Unsaid};
