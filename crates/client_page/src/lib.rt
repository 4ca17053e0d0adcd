//! The page of a window that stays: what is kept of it, and the bytes that bring it back in the session's next server.
#![tactic(auto)]

mod page;

pub use page::KeptPage;
