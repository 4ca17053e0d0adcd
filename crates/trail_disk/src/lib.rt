//! A trail's file on its disk: how it is made, what the disk refuses, who is told of that, and when it is synced.
#![tactic(auto)]

mod disk;
mod file;
mod syncing;
mod writing;

pub use disk::{Disk, DiskNews, DiskWatch, WatchedDisk};
pub use file::{FileMaker, MadeFile, NeverReady, TrailFile};
pub use syncing::{LAST_TRIES, Syncing, sync_last};
pub use writing::{Refused, write_some};
