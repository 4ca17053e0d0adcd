//! The connections of one loop of the server: what each is to the session, what was read from it and
//! what it is sent, in turn.
#![tactic(auto)]

mod changing;
mod connections;
mod limits;
mod marked;
mod peer;
mod peer_stream;
mod stream;

pub use connections::{Connections, HasConnections, each_awake};
pub use peer::{Awaits, Peer, Role, Stage};
pub use peer_stream::{Arrival, PeerStream, Wrote};
pub use server_inbox::{Asked, PIECE, Size, Sizing, Typeahead};
pub use server_seat::{
    Guest, GuestKind, Name, News, SeatAnswer, SeatFault, ServerEnd, SessionSeat,
};
pub use server_sending::{Sending, Turn, put, why_of};
