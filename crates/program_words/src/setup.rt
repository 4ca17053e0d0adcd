//! The lines of a setup file: the commands with which its owner begins a session.

ghost use Rattle.std.specs.Prelude.{◌≡◌, ◌⊎◌, ◌==◌, ◌<◌, [], map, length, IfOk, IfErr, IfSome, None, Some, option_map};
ghost use Rattle.std.specs.List.{position, slice_split};
ghost use Rattle.program_words.specs.SetupLines.{is_feed, is_skipped, numbered, fault_of, commands_in};
ghost use Rattle.program_words.specs.SetupLines.{after_blank, first_fault, is_colon, line_of, speech_in};
ghost use Rattle.program_words.specs.declared.setup.SetupFault.TheVariants.{NoMemory as OfMemory};

use std::alloc::{AllocError, AllocFailed, Global};
use std::str;
use thiserror::Error;

/// The greatest number of bytes of a command line.
const LONGEST: usize = 1024;

/// Why a setup file is refused.
#[derive(Clone, Copy, Debug, PartialEq, Eq, Error)]
pub enum SetupFault {
    /// The line with this number, counted from 1, has more than 1,024 bytes.
    #[error("line {0}: above 1,024 bytes")]
    TooLong(usize),
    /// The line with this number, counted from 1, isn't UTF-8.
    #[error("line {0}: not UTF-8")]
    NotText(usize),
    #[error("out of memory")]
    NoMemory,
}

impl From<AllocError> for SetupFault {
    ghost from_gives = { λ _ fault. fault ≡ OfMemory };

    fn from(_error: AllocError) -> SetupFault {
        SetupFault::NoMemory
    }
}

impl<T: Drop> From<AllocFailed<T>> for SetupFault {
    ghost from_gives = { λ _ fault. fault ≡ OfMemory };

    fn from(_error: AllocFailed<T>) -> SetupFault {
        SetupFault::NoMemory
    }
}

/// A command line of a setup file. It isn't parsed here: the session does that.
#[derive(Clone, Copy, Debug)]
pub struct SetupLine<'a> {
    /// The line's number in the file, counted from 1.
    pub number: usize,
    /// The text of the line, at most 1,024 bytes.
    pub text: &'a str,
}

/// Whether a line has no command: it is empty or begins with `#`.
fn is_skipped(line: &[u8]) -> bool
    ensures { result ≡ is_skipped line.now }
{
    match line.first() {
        Some(byte) => *byte == b'#',
        None => true,
    }
}

/// The text of the line with this number, or why it is refused.
fn text_of(number: usize, line: &[u8]) -> Result<&str, SetupFault>
    ensures ok { IfOk result (λ text. (text.now ≡ line.now)
        × (fault_of (numbered number line.now) ≡ None)) }
    ensures err { IfErr result (λ fault. fault_of (numbered number line.now) ≡ Some fault) }
{
    if line.len() > LONGEST {
        return Err(SetupFault::TooLong(number));
    }
    match str::from_utf8(line) {
        Ok(text) => Ok(text),
        Err(_) => Err(SetupFault::NotText(number)),
    }
}

/// Reads a setup file and returns its command lines in their order. Empty lines and lines that
/// begin with `#` are skipped. A line ends at a line feed or at the end of the file. The first line
/// that is too long or isn't UTF-8 is the error; `NoMemory` if memory is refused.
pub fn read_setup<'a>(alloc: Global, file: &'a [u8]) -> Result<Vec<SetupLine<'a>>, SetupFault>
    ensures ok { IfOk result (λ lines. (map line_of lines.items ≡ commands_in file.now)
        × (first_fault (commands_in file.now) ≡ None)) }
    // The error is a lack of memory, or the fault of the first line that has one.
    ensures err { IfErr result (λ fault. (fault ≡ OfMemory)
        ⊎ (first_fault (commands_in file.now) ≡ Some fault)) }
{
    let parts: Vec<&[u8]> = file.split(|byte| *byte == b'\n').collect(alloc)?;
    let mut lines = Vec::new(alloc);
    let mut number = 0;
    for part in &parts {
        number += 1;
        if !is_skipped(part) {
            let text = text_of(number, part)?;
            lines.push(SetupLine { number, text })?;
        }
    }
    Ok(lines)
}

/// The place of the first colon.
fn colon_in(line: &[u8]) -> Option<usize>
    ensures place { result ≡ position is_colon line.now }
    ensures within { IfSome result (λ place. place < length line.now) }
{
    line.iter().position(|byte| *byte == b':')
}

/// A name and the command after it, if the bytes after its colon begin with a blank.
fn after_blank<'a>(name: &'a [u8], rest: &'a [u8]) -> Option<(&'a [u8], &'a [u8])>
    ensures { option_map (λ p. (p.0.now, p.1.now)) result ≡ after_blank name.now rest.now }
{
    match rest {
        [b' ', command @ ..] => Some((name, command)),
        _ => None,
    }
}

/// The name and the command of a line `NAME: COMMAND`, which that user gives. None if the line has no such
/// form: then the owner gives it.
pub fn speech_in(line: &[u8]) -> Option<(&[u8], &[u8])>
    ensures { option_map (λ p. (p.0.now, p.1.now)) result ≡ speech_in line.now }
{
    let at = colon_in(line)?;
    after_blank(&line[..at], &line[at + 1..])
}
