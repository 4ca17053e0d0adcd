//! What a client is to see: a view of its regions, in which only what its user may read is shown.
#![tactic(auto)]

mod composing;
mod region_rows;
mod text;
mod view;

pub use composing::{compose, compose_over};
pub use view::{Contents, Cursor, KeyModes, Pane, View};
