/// Why a line is no command.
#[derive(Clone, Copy, PartialEq, Eq, Debug)]
pub enum FaultKind {
    UnknownCommand,
    MissingWord,
    ExtraWord,
    BadNumber,
    BadBits,
    BadQuote,
    TooLong,
    NoMemory,
    BadWord,
}

/// Why a line is no command, and the index of the byte at which it isn't.
#[derive(Clone, Copy, PartialEq, Eq, Debug)]
pub struct ParseFault {
    pub kind: FaultKind,
    pub place: usize,
}

impl ParseFault {
    ghost use Rattle.std.specs.Prelude.{◌≡◌};
    ghost use Rattle.command_lang.specs.FaultNumbers.{number_of};
    ghost use Rattle.command_lang.specs.LineFaults.{no_memory};

    /// The fault that memory was refused; its place is 0.
    pub fn no_memory() -> ParseFault
        ensures { result ≡ no_memory }
    {
        ParseFault {
            kind: FaultKind::NoMemory,
            place: 0,
        }
    }

    /// The fault's number, 1 to 9.
    pub fn number(self) -> u8
        ensures { result ≡ number_of self.kind }
    {
        match self.kind {
            FaultKind::UnknownCommand => 1,
            FaultKind::MissingWord => 2,
            FaultKind::ExtraWord => 3,
            FaultKind::BadNumber => 4,
            FaultKind::BadBits => 5,
            FaultKind::BadQuote => 6,
            FaultKind::TooLong => 7,
            FaultKind::NoMemory => 8,
            FaultKind::BadWord => 9,
        }
    }

    /// The place of the fault: the index of its word's first byte, or the line's length if a word
    /// is missing.
    pub fn place(self) -> usize
        ensures { result ≡ self.place }
    {
        self.place
    }
}
