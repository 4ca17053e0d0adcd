//! The kinds of frames, and which side sends them.

ghost use Rattle.std.specs.Prelude.{◌≡◌};
ghost use Rattle.attach_proto.specs.Spelling.{code, reader_of};
ghost use Rattle.attach_proto.specs.Reading.{kind_at};

/// The kinds of frames.
#[derive(Clone, Copy, PartialEq, Eq)]
pub enum Kind {
    Attach,
    Window,
    Command,
    Keys,
    Resize,
    Output,
    Detach,
    Welcome,
    Draw,
    Input,
    Say,
    Size,
    Gone,
}

impl Kind {
    /// The first byte of its frames.
    pub fn code(self) -> u8
        ensures { result ≡ code self }
    {
        match self {
            Kind::Attach => 0x41,
            Kind::Window => 0x57,
            Kind::Command => 0x43,
            Kind::Keys => 0x4B,
            Kind::Resize => 0x52,
            Kind::Output => 0x4F,
            Kind::Detach => 0x44,
            Kind::Welcome => 0x79,
            Kind::Draw => 0x64,
            Kind::Input => 0x69,
            Kind::Say => 0x73,
            Kind::Size => 0x7A,
            Kind::Gone => 0x67,
        }
    }

    /// The kind whose frames begin with this byte, if there is one.
    pub fn of_code(byte: u8) -> Option<Kind>
        ensures { result ≡ kind_at byte }
    {
        match byte {
            0x41 => Some(Kind::Attach),
            0x57 => Some(Kind::Window),
            0x43 => Some(Kind::Command),
            0x4B => Some(Kind::Keys),
            0x52 => Some(Kind::Resize),
            0x4F => Some(Kind::Output),
            0x44 => Some(Kind::Detach),
            0x79 => Some(Kind::Welcome),
            0x64 => Some(Kind::Draw),
            0x69 => Some(Kind::Input),
            0x73 => Some(Kind::Say),
            0x7A => Some(Kind::Size),
            0x67 => Some(Kind::Gone),
            _ => None,
        }
    }

    /// The side that reads its frames.
    pub fn reader(self) -> Side
        ensures { result ≡ reader_of self }
    {
        match self {
            Kind::Attach
            | Kind::Window
            | Kind::Command
            | Kind::Keys
            | Kind::Resize
            | Kind::Output
            | Kind::Detach => Side::Server,
            Kind::Welcome | Kind::Draw | Kind::Input | Kind::Say | Kind::Size | Kind::Gone =>
                Side::Peer,
        }
    }
}

/// The side that reads.
#[derive(Clone, Copy, PartialEq, Eq)]
pub enum Side {
    /// The server, which reads what its peers send.
    Server,
    /// A client, a window's program or a command, which reads what the server sends.
    Peer,
}
