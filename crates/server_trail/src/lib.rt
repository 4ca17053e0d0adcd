//! Writes a session's trail to a file, and compares the file with the trail.
#![tactic(auto)]

mod ending;
mod file;
mod journal;
mod merge;
mod reading;
mod recorder;
mod tries;
mod waiting;
mod writing;

pub use ending::Noted;
pub use file::{NoLine, StopCause, begin, header_of};
pub use journal::{Journal, JournalFault};
pub use merge::Merge;
pub use reading::{ReadBack, read_back};
pub use recorder::{Open, Recorder};
pub use trail_disk::{DiskNews, DiskWatch, NeverReady, TrailFile};
pub use trail_lines::Cause;
pub use tries::GaveUp;
pub use waiting::{Left, MOST, PutLine, Stopped, Written};
pub use writing::NoEnd;
