//! Connections of browsers, and of clients to the server: how they are listened for, made, read and written, and the
//! token by which an event names each.
#![tactic(auto)]

mod connections;
mod outgoing;
mod stream;

pub use connections::{
    Accepted, Asked, BridgeContext, BridgeStream, OpensListeners, Stream, WebListener, Woken,
    browser_token, hall_token, listener_token, server_token, woken_by,
};
pub use outgoing::{Outgoing, drop_front, write_all};
pub use stream::{ReadBuffer, ReadOutcome, WebStream, WriteOutcome};
