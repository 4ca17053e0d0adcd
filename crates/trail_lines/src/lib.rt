//! The lines of a trail's file: each entry has one spelling, which is printed, read and judged.
#![tactic(auto)]

ghost use Rattle.std.specs.Prelude.{◌≡◌};
ghost use Rattle.trail_lines.specs.Sayable.{IsSpelledSo, ReadsPrinted};
ghost use Rattle.trail_lines.specs.Heading.{ReadsEnds, ReadsHeaders};
ghost use Rattle.trail_lines.specs.Reading.{NoRunIsBad, ReadIsLegal};
ghost use Rattle.trail_lines.specs.Files.{CutFilesAreRead, ReadIsTheFile};
ghost use Rattle.trail_lines.specs.declared.UnreadLine.TheVariants.{NoMemory};

pub mod audit;
pub mod ending;
pub mod entries;
mod events;
pub mod halt;
pub mod header;
mod replies;

pub use audit::{Audit, Times, Wrong};
pub use ending::{Cause, Ended, print_end, read_end};
pub use entries::{EntryLine, print_line, read_line};
pub use halt::{Halt, NextLine, next_entry, next_line, read_entries};
pub use header::{Header, print_header, read_header};
use std::alloc::{AllocError, AllocFailed};
use thiserror::Error;

/// Why a line isn't read.
#[derive(Clone, Copy, Debug, Error)]
pub enum UnreadLine {
    /// No entry is printed so.
    #[error("no line of a trail is spelled so")]
    Malformed,
    #[error("out of memory")]
    NoMemory,
}

impl From<AllocError> for UnreadLine {
    ghost from_gives = { λ _ e. e ≡ NoMemory };

    fn from(_e: AllocError) -> UnreadLine {
        UnreadLine::NoMemory
    }
}

impl<T: Drop> From<AllocFailed<T>> for UnreadLine {
    ghost from_gives = { λ _ e. e ≡ NoMemory };

    fn from(_e: AllocFailed<T>) -> UnreadLine {
        UnreadLine::NoMemory
    }
}

/// Laws of lines: every entry that a line can say is read back as it was printed; and a line that is
/// read is the one that its entry prints, so that each entry has one line.
pub fn lines_are_read()
    ensures again { ReadsPrinted }
    ensures spelled { IsSpelledSo }
{}

/// A first or last line that was printed reads as what was printed.
pub fn headings_are_read()
    ensures headers { ReadsHeaders }
    ensures ends { ReadsEnds }
{}

/// Entries that an audit has read are legal, and no run has a trail with an entry that isn't good.
pub fn read_is_legal()
    ensures legal { ReadIsLegal }
    ensures runs { NoRunIsBad }
{}

/// A file of entries' lines, cut after any of its bytes, reads as the entries whose lines are whole, and
/// as no others. What `read_entries` has read of a file, up to its end or up to a line without its line
/// feed, is all that the file reads as.
pub fn cut_files_are_read()
    ensures cut { CutFilesAreRead }
    ensures read { ReadIsTheFile }
{}
