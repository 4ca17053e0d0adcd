//! What the numbers of refusals mean, and what an error of the system is called.

use std::io::{ErrorKind, Write};
use std::{fmt, io};

// Every number that a refusal may have: of rights, of windows, of regions, and of a line.
fn words_of(kind: &str, number: u8) -> Option<&'static str> {
    Some(match (kind, number) {
        ("acl", 1) => "unknown user",
        ("acl", 2) => "the owner keeps all rights",
        ("acl", 3) => "64 users are known",
        ("acl", 4) => "no name",
        ("acl", 5) => "no such leader",
        ("acl", 6) => "out of memory",
        ("acl", 7) => "eight leaders",
        ("windows", 1) => "no place for a window",
        ("windows", 2) => "no such window",
        ("windows", 3) => "the number is taken",
        ("windows", 4) => "no title: 1 to 40 characters of width 1 or 2",
        ("windows", 5) => "out of memory",
        ("regions", 1) => "too small",
        ("regions", 2) => "there are 16",
        ("regions", 3) => "the last region",
        ("regions", 4) => "out of memory",
        ("line", 1) => "unknown command",
        ("line", 2) => "a word is missing",
        ("line", 3) => "a word too many",
        ("line", 4) => "no number, or out of range",
        ("line", 5) => "no bits",
        ("line", 6) => "an open quote",
        ("line", 7) => "above 1,024 bytes",
        ("line", 8) => "out of memory",
        ("line", 9) => "no such word",
        _ => return None,
    })
}

// The word of a command line that begins at this byte; None if no word begins there.
fn word_at(line: &str, place: usize) -> Option<&str> {
    let rest = line.get(place..)?;
    match rest.split_once(' ') {
        Some(("", _)) => None,
        Some((word, _)) => Some(word),
        None if rest.is_empty() => None,
        None => Some(rest),
    }
}

// What the number of a refusal means, and the word at fault; None if the refusal has no number.
fn explained<'a>(said: &str, line: &'a str) -> Option<(&'static str, Option<&'a str>)> {
    let (kind, rest) = said.split_once(": ")?;
    let (number, place) = match rest.split_once(" at ") {
        Some((number, place)) => (number, place.parse::<usize>().ok()),
        None => (rest, None),
    };
    let why = words_of(kind, number.parse::<u8>().ok()?)?;
    Some((why, place.and_then(|place| word_at(line, place))))
}

/// Writes what the number of a refusal means, in parentheses, for a caller that has written its text;
/// nothing if the text says it.
pub fn explain<E: Write>(said: &str, line: &str, errors: &mut E) -> io::Result<()> {
    match explained(said, line) {
        None => Ok(()),
        Some((why, None)) => write!(errors, " ({why})"),
        Some((why, Some(word))) => write!(errors, " ({why}: {word})"),
    }
}

/// A command line of a file that was refused, and why.
#[derive(Clone, Copy)]
pub struct RefusedLine<'line, 'said> {
    /// Counted from 1.
    pub number: usize,
    pub line: &'line str,
    /// The refusal's text.
    pub said: &'said str,
}

impl fmt::Display for RefusedLine<'_, '_> {
    fn fmt<W: fmt::Write>(&self, f: &mut fmt::Formatter<W>) -> fmt::Result {
        let RefusedLine { number, line, said } = *self;
        write!(f, "line {number}: {line}: {said}")?;
        match explained(said, line) {
            None => Ok(()),
            Some((why, None)) => write!(f, " ({why})"),
            Some((why, Some(word))) => write!(f, " ({why}: {word})"),
        }
    }
}

/// An error of the system. Its text has no number if the error has a plain name.
#[derive(Clone, Copy, Debug, Drop)]
pub struct SystemError(pub io::Error);

impl fmt::Display for SystemError {
    fn fmt<W: fmt::Write>(&self, f: &mut fmt::Formatter<W>) -> fmt::Result {
        let SystemError(error) = *self;
        match error.kind() {
            ErrorKind::NotFound => f.write_str("no such file"),
            ErrorKind::Other | ErrorKind::Uncategorized => write!(f, "{error}"),
            kind => write!(f, "{kind}"),
        }
    }
}
