//! A trail's file: its first line, its entries at a time, how it ends, why it isn't read, what is told of it, and how
//! `show` tells its lines.
#![tactic(auto)]

mod check;
mod fault;
mod heading;
mod json;
mod show;
mod tell;
mod words;

pub use check::{Finish, check_lines, finish_at, finish_of};
pub use fault::TrailFault;
pub use heading::{Heading, heading_of, place_at};
pub use show::{LineFormat, show_lines};
pub use tell::{ILLEGAL, LEGAL, TROUBLE, UNCONFINED, judge, tell_finish, tell_heading};
