//! Who may do what after the entries of a trail's file, and which acts decide it.
#![tactic(auto)]

ghost use Rattle.trail_rights.specs.Deciding.{DecidingIsLatest};
ghost use Rattle.trail_rights.specs.Settling.{SettlingIsLatest};
ghost use Rattle.trail_rights.specs.Windows.{OpenAreListed};

mod acts;
mod decider;
mod masks;
mod settler;
mod sight;
mod watch;

use acl::UserId;
pub use acts::{AskedBits, Mark};
pub use decider::{Decider, found_in, may, users_of};
use line_fields::push_when;
pub use masks::{letter, push_mask_lines, settings_of};
pub use settler::{RightsSetting, Settler, settler_in};
pub use sight::Sight;
use std::alloc::Global;
use std::io::{self, Write};
use std::str;
pub use watch::{Watch, watch_entries};

/// A name as text.
pub fn text_of(user: &UserId) -> &str {
    str::from_utf8(user.as_bytes()).unwrap_or("?")
}

/// Writes words and a time in milliseconds since 1970, or nothing if its year has more than four digits.
/// The answer is whether it has.
pub fn write_when<W: Write>(
    alloc: Global,
    words: &[u8],
    ms: u64,
    output: &mut W,
) -> io::Result<bool> {
    let mut text = Vec::new(alloc);
    push_when(words, ms, &mut text)?;
    output.write_all(text.as_slice())?;
    Ok(!text.is_empty())
}

/// The act that was found to decide a bit is the latest one that does: it gives the bit its value, and no
/// later act decides.
pub fn latest_decides()
    ensures { DecidingIsLatest }
{}

/// The act that was found to give a setting its value is the latest one that does. If none was found, the
/// setting has its first value.
pub fn latest_settles()
    ensures { SettlingIsLatest }
{}

/// The listed windows are the open ones.
pub fn open_are_listed()
    ensures { OpenAreListed }
{}
