//! The session of a multiuser terminal multiplexer, and the simulator, which plays scripts of events
//! over a session, after the setup file of its owner.
#![tactic(auto)]

mod fields;
mod player;
mod printing;
mod script;
mod setup_file;
mod simulator;
mod words;

pub use printing::{print_effect, print_reply};
pub use script::{read_event, reads_printed};
pub use session_core::{NewSession, Notes, Session};
pub use session_model::{
    Bytes, Denied, Done, Effect, EntryDenied, Event, LockDenied, Peer, Ran, Reason, Refusal, Reply,
    Verdict, WindowsFault, push_decimal,
};
pub use setup_file::{Beginning, SetupUnread, setup_of, spoken};
pub use simulator::{SimulatorArgs, simulate, simulate_behind};
pub use words::{beginning_of, path_of};
