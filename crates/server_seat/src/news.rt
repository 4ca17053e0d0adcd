//! What a loop tells the log.

ghost use Rattle.std.specs.Prelude.{◌≡◌};
ghost use Rattle.server_seat.specs.Ending.{word_of};

use crate::seat::GuestKind;
use acl::UserId;
use attach_proto::Why;
use std::fmt;
use std::fmt::{Display, Formatter};

/// A user's name.
#[derive(Clone, Copy)]
pub struct Name(pub UserId);

impl Display for Name {
    fn fmt<W: fmt::Write>(&self, f: &mut Formatter<W>) -> fmt::Result {
        f.write_str(str::from_utf8(self.0.as_bytes()).unwrap_or("?"))
    }
}

impl GuestKind {
    /// Its word in the log and in answers.
    pub fn word(self) -> &'static str
        ensures { result.now ≡ word_of self }
    {
        match self {
            GuestKind::Client => "client",
            GuestKind::Window => "window",
        }
    }
}

/// A client or a window of a user.
#[derive(Clone, Copy, Debug, PartialEq, Eq)]
pub struct Guest {
    pub kind: GuestKind,
    pub user: UserId,
    /// A client's serial, or the number with which a window began.
    pub number: u32,
}

impl Display for Guest {
    fn fmt<W: fmt::Write>(&self, f: &mut Formatter<W>) -> fmt::Result {
        let (kind, number) = (self.kind.word(), self.number);
        write!(f, "{kind} {number} of {}", Name(self.user))
    }
}

/// What happened. Nothing that was typed or printed is told.
#[derive(Clone, Copy, Debug, PartialEq, Eq)]
pub enum News {
    Came(Guest),
    /// A guest went: for this cause, or else because its connection ended.
    Went(Guest, Option<Why>),
    /// A user gave a command.
    Done(UserId),
    /// A user gave a command, which was refused.
    Refused(UserId),
    /// A connection named an unknown user, or its token was wrong.
    WrongToken,
    /// A connection sent something else than a first message.
    Misfit,
    /// The trail is full to this percentage.
    Filled(u8),
}
