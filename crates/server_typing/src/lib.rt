//! What a client typed and how large its terminal is, until a step judges it.
#![tactic(auto)]

ghost use Rattle.std.specs.Prelude.{◌≡◌};
ghost use Rattle.server_typing.specs.Sized.{after_size, next_size, no_size, with_size};

mod typeahead;

pub use typeahead::Typeahead;

// A client's size changes at most once in this many milliseconds.
const PAUSE: u64 = 100;

/// The number of lines and of columns.
pub type Size = (u16, u16);

/// The last size that a client told, until it is done, and from when on it may be. Times are in
/// milliseconds.
#[derive(Clone, Copy, Debug)]
pub struct Sizing {
    pub wanted: Option<Size>,
    pub after: u64,
}

impl Sizing {
    pub fn new() -> Sizing
        ensures { result ≡ no_size }
    {
        Sizing {
            wanted: None,
            after: 0,
        }
    }

    /// A size was told. Only the last one counts.
    pub fn want(&mut self, size: Size)
        ensures { self.new ≡ with_size size self.old }
    {
        self.wanted = Some(size);
    }

    /// Takes out the size that is to be done now. The next one is done a tenth of a second later.
    pub fn next(&mut self, now: u64) -> Option<Size>
        ensures next { result ≡ next_size now self.old }
        ensures after { self.new ≡ after_size now self.old }
    {
        if now < self.after {
            return None;
        }
        let size = self.wanted.take()?;
        self.after = now.saturating_add(PAUSE);
        Some(size)
    }
}
