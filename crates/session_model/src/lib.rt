//! The definition of a session: its tables, what each event and each command does to them, and what
//! a run promises. The definitions are in `specs/`; this crate holds the plain types that code and
//! definitions share.
#![tactic(auto)]

mod event;
mod refusal;
mod text;

pub use event::{CLIENTS, Done, Effect, Event, Peer, Ran, Reason, Reply, SERIALS, StatusMessage};
pub use refusal::{Check, Denied, EntryDenied, LockDenied, Refusal, Verdict};
pub use strings::Bytes;
pub use text::push_decimal;
pub use windows_model::WindowsFault;
