//! What is stored of a trail and of a seat's receipts: entries of few bytes, whether what is stored
//! is what happened, and lists in which equal ones share one stored form.
#![tactic(auto)]

mod entry_list;
mod equal;
mod growing_trail;
mod receipts;
mod refusals;
mod reply;
mod search;
mod trail_entry;

pub use entry_list::EntryList;
pub use growing_trail::{GrowingTrail, NewEntry, Prepared};
pub use hub_trail::Kept;
pub use receipts::{Receipt, Receipts};
pub use reply::KeptReply;
pub use trail_entry::TrailEntry;
