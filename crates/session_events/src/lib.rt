//! What events do: clients attach and change their sizes, windows open, and their programs write to
//! them. Then the end of a step: users leave windows, and no message is said twice.
#![tactic(auto)]

mod attaching;
mod dropping;
mod focuses;
mod leaving;

pub use attaching::{attach, open, output, resize};
pub use dropping::drop_said;
pub use focuses::{Focus, Focuses};
pub use leaving::leave;
