//! The kinds of events, and the words that their lines begin with.

ghost use Rattle.std.specs.Prelude.{◌≡◌};
ghost use Rattle.line_fields.specs.Events.{word_of, kind_in};

/// The kind of an event.
#[derive(Clone, Copy, PartialEq, Eq, Debug)]
pub enum EventKind {
    Attach,
    Detach,
    Keys,
    Command,
    Resize,
    Open,
    Output,
    Closed,
    Draw,
}

impl EventKind {
    /// All kinds.
    const ALL: [EventKind; 9] = [
        EventKind::Attach,
        EventKind::Detach,
        EventKind::Keys,
        EventKind::Command,
        EventKind::Resize,
        EventKind::Open,
        EventKind::Output,
        EventKind::Closed,
        EventKind::Draw,
    ];

    /// The word that an event of this kind begins with.
    pub fn word(self) -> &'static [u8]
        ensures { result.now ≡ word_of self }
    {
        match self {
            EventKind::Attach => b"attach",
            EventKind::Detach => b"detach",
            EventKind::Keys => b"keys",
            EventKind::Command => b"command",
            EventKind::Resize => b"resize",
            EventKind::Open => b"open",
            EventKind::Output => b"output",
            EventKind::Closed => b"closed",
            EventKind::Draw => b"draw",
        }
    }

    /// The kind whose events begin with the word.
    pub fn named(word: &[u8]) -> Option<EventKind>
        ensures { result ≡ kind_in word.now }
    {
        EventKind::ALL
            .iter()
            .find(|kind| kind.word() == word)
            .copied()
    }
}
