//! The page of a screen. A scroll moves the places of lines and no cells.
#![tactic(auto)]

mod page;
mod store;

pub use page::{CellPosition, Page};
