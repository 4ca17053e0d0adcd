//! What a client writes to its terminal of its own: a text on the last line, and its help.
#![tactic(auto)]

mod notice;

pub use notice::{Notice, NoticeStage, NoticeTask, help_page};
