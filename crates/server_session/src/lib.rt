//! The session that the loops of a server share, and its users. It is made and closed here, so that no
//! crate above has to prove anything of what a session holds.
#![tactic(auto)]

mod books;
mod loads;
mod loop_body;
mod seated;
mod setting_up;
mod shared_session;
mod trail_size;

pub use books::{Books, Calls, Counting, Limits};
pub use hub::{Begun, Seat, Trail};
pub use loop_body::{LoopBody, LoopGone, LoopsFault, Start, keep};
pub use seated::{Accounts, Seated};
pub use server_trail::Recorder;
pub use setting_up::Agreement;
pub use shared_session::{LoopSession, SharedSession, TrailLines};
pub use trail_size::SharedSum;
