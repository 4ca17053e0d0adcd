//! The arguments of `mux`, the scripts beside it, its messages for faults and refusals, lines that say the
//! size of a terminal, input in which a byte leaves, and text made visible.
#![tactic(auto)]

mod arguments;
mod fault;
mod leaving;
mod refusals;
mod scripts;
mod size_lines;
mod visible;

pub use arguments::{Arguments, ClientHost, Subcommand, arguments_of, frame_of};
pub use fault::{PeerFault, RefusedPart, ToldFault, gone, status_after};
pub use leaving::{InputStage, LeaveReader};
pub use refusals::explain;
pub use size_lines::{SizeLines, TerminalSize};
pub use visible::{nothing_controls, put_visible};
