//! The definition of a table of windows: what a window has, how it is named, and what its terminal
//! has read. Also rows in the order of rising serial numbers, which the tables of windows and of
//! clients have in common.
#![tactic(auto)]

mod rows;

pub use rows::{Rows, Serial, WINDOWS, WindowsFault};
