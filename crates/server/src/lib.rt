//! What `muxd` does: loops over one listener that share a session.
#![tactic(auto)]

mod acceptor;
mod latch;
mod loop_handle;
mod loops;
mod serving;
mod starting;
mod turns;

pub use server_connections::Turn;
pub use server_loop::{Gate, Loop, Open};
pub use server_users::{AuthFault, User, Users, UsersFault, authenticate};
pub use serving::{Handles, serve, serve_through};
pub use starting::SetupHost;
