//! Why the server lets a peer go, and what a peer is told.

ghost use Rattle.std.specs.Prelude.{◌≡◌};
ghost use Rattle.attach_proto.specs.Fields.{reason, why_of};
ghost use Rattle.attach_proto.specs.Table.{untold};

use strings::Text;

/// Why the server lets a peer go.
#[derive(Clone, Copy, Debug, PartialEq, Eq)]
pub enum Why {
    Detached,
    /// Its user was removed from the access lists.
    Removed,
    /// The session is single-user again.
    SingleUser,
    Killed,
    Quit,
    /// Too many bytes wait for the peer.
    TooFarBehind,
    Fault,
    TrailFull,
}

impl Why {
    /// The number in the frame, from 0.
    pub fn number(self) -> u8
        ensures { result ≡ reason self }
    {
        match self {
            Why::Detached => 0,
            Why::Removed => 1,
            Why::SingleUser => 2,
            Why::Killed => 3,
            Why::Quit => 4,
            Why::TooFarBehind => 5,
            Why::Fault => 6,
            Why::TrailFull => 7,
        }
    }

    /// The reason with this number, if there is one.
    pub fn of_number(number: u8) -> Option<Why>
        ensures { result ≡ why_of number }
    {
        match number {
            0 => Some(Why::Detached),
            1 => Some(Why::Removed),
            2 => Some(Why::SingleUser),
            3 => Some(Why::Killed),
            4 => Some(Why::Quit),
            5 => Some(Why::TooFarBehind),
            6 => Some(Why::Fault),
            7 => Some(Why::TrailFull),
            _ => None,
        }
    }
}

/// What the server has told a peer about its admission: whether it is in, why not, and why it was let go.
#[derive(Debug, Drop)]
pub struct Told {
    /// The server let the peer in.
    pub is_welcome: bool,
    /// The last text before that. It says why the peer isn't let in.
    pub refusal: Option<Text>,
    /// Why the server let the peer go.
    pub gone: Option<Why>,
}

impl Told {
    /// Nothing was told.
    pub fn new() -> Told
        ensures { result ≡ untold }
    {
        Told {
            is_welcome: false,
            refusal: None,
            gone: None,
        }
    }
}
