//! What a server takes from the system: its users' file, its socket, its log, and the connections that a loop waits for.
#![tactic(auto)]

mod fault;
mod folders;
mod host;
mod log;
mod looks;
mod socket;
mod users_file;
mod watched;
mod wired;

pub use fault::{SocketFault, UsersFileFault};
pub use folders::OpenFolder;
pub use host::Host;
pub use log::{LastLoop, Log, PIECE, has_room};
pub use looks::{KnownUsers, Looks, SharedLooks};
pub use socket::SocketPath;
pub use users_file::{LastLook, Stamp, UsersFile, UsersSource, look_at};
pub use watched::WatchedUsers;
pub use wired::{PeerSocket, Wired};
