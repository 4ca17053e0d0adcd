//! What the numbers of refusals mean, in words.

ghost use Rattle.std.specs.Prelude.{◌≡◌, ◌++◌, OnOk, option_map};
ghost use Rattle.line_fields.specs.Meaning.{acl_meaning, behind, first_by, in_parentheses, line_meaning, meaning_text};
ghost use Rattle.line_fields.specs.Meaning.{means, means_with, regions_meaning, windows_meaning, word_at, word_part};

use crate::texts::cut;
use acl::AclFault;
use command_lang::FaultKind;
use regions::RegionFault;
use session_model::{Refusal, WindowsFault};
use std::alloc::AllocError;

/// What a fault of rights means.
fn acl_meaning(fault: AclFault) -> &'static [u8]
    ensures { result.now ≡ acl_meaning fault }
{
    match fault {
        AclFault::UnknownUser => b"unknown user",
        AclFault::OwnerKept => b"the owner keeps all rights",
        AclFault::TooManyUsers => b"64 users are known",
        AclFault::ReservedName => b"no name",
        AclFault::NoSuchGroup => b"no such leader",
        AclFault::NoMemory => b"out of memory",
        AclFault::TooManyGroups => b"eight leaders",
    }
}

/// What a fault of windows means.
fn windows_meaning(fault: WindowsFault) -> &'static [u8]
    ensures { result.now ≡ windows_meaning fault }
{
    match fault {
        WindowsFault::Full => b"no place for a window",
        WindowsFault::NoSuchWindow => b"no such window",
        WindowsFault::NumberTaken => b"the number is taken",
        WindowsFault::BadTitle => b"no title: 1 to 40 characters of width 1 or 2",
        WindowsFault::NoMemory => b"out of memory",
    }
}

/// What a fault of a layout means.
fn regions_meaning(fault: RegionFault) -> &'static [u8]
    ensures { result.now ≡ regions_meaning fault }
{
    match fault {
        RegionFault::TooSmall => b"too small",
        RegionFault::TooMany => b"there are 16",
        RegionFault::LastRegion => b"the last region",
        RegionFault::NoMemory => b"out of memory",
    }
}

/// What a fault of a command's line means.
fn line_meaning(fault: FaultKind) -> &'static [u8]
    ensures { result.now ≡ line_meaning fault }
{
    match fault {
        FaultKind::UnknownCommand => b"unknown command",
        FaultKind::MissingWord => b"a word is missing",
        FaultKind::ExtraWord => b"a word too many",
        FaultKind::BadNumber => b"no number, or out of range",
        FaultKind::BadBits => b"no bits",
        FaultKind::BadQuote => b"an open quote",
        FaultKind::TooLong => b"above 1,024 bytes",
        FaultKind::NoMemory => b"out of memory",
        FaultKind::BadWord => b"no such word",
    }
}

/// The bytes before a blank, if they were cut at one; otherwise all bytes.
fn first_by<'a>(bytes: &'a [u8], parts: Option<(&'a [u8], &'a [u8])>) -> &'a [u8]
    ensures { result.now ≡ first_by bytes.now (option_map (λ p. (p.0.now, p.1.now)) parts.entry) }
{
    match parts {
        Some((word, _)) => word,
        None => bytes,
    }
}

/// The bytes of a line from a place on.
fn behind(line: &[u8], place: usize) -> &[u8]
    ensures { result.now ≡ behind line.now place }
{
    if place < line.len() {
        &line[place..]
    } else {
        &[]
    }
}

/// The word of a line that begins at this place. Empty if none does.
fn word_at(line: &[u8], place: usize) -> &[u8]
    ensures { result.now ≡ word_at line.now place }
{
    let rest = behind(line, place);
    first_by(rest, cut(rest, b' '))
}

/// Appends a colon and a word, if there is one.
fn push_word(word: &[u8], out: &mut Vec<u8>) -> Result<(), AllocError>
    ensures { OnOk result (out.new.items ≡ out.old.items ++ word_part word.now) }
{
    match word {
        [] => Ok(()),
        [_, ..] => {
            out.extend_from_slice(b": ")?;
            out.extend_from_slice(word)
        }
    }
}

/// Appends what a fault of a line means, and the word at fault.
fn push_with(why: &[u8], word: &[u8], out: &mut Vec<u8>) -> Result<(), AllocError>
    ensures { OnOk result (out.new.items ≡ out.old.items ++ means_with why.now word.now) }
{
    out.extend_from_slice(why)?;
    push_word(word, out)
}

/// Appends what the number of a refusal means, with the word at fault if a command's line is refused.
/// Appends nothing if the refusal has no number.
pub fn push_means(refusal: &Refusal, line: &[u8], out: &mut Vec<u8>) -> Result<(), AllocError>
    ensures { OnOk result (out.new.items ≡ out.old.items ++ means refusal.now line.now) }
{
    match refusal {
        Refusal::Acl(fault) => out.extend_from_slice(acl_meaning(*fault)),
        Refusal::Windows(fault) => out.extend_from_slice(windows_meaning(*fault)),
        Refusal::Line(fault) => push_with(
            line_meaning(fault.kind),
            word_at(line, fault.place),
            out,
        ),
        Refusal::Regions(fault) => out.extend_from_slice(regions_meaning(*fault)),
        _ => Ok(()),
    }
}

/// Appends a text in parentheses after a blank, if there is one.
fn push_in_parentheses(text: &[u8], out: &mut Vec<u8>) -> Result<(), AllocError>
    ensures { OnOk result (out.new.items ≡ out.old.items ++ in_parentheses text.now) }
{
    match text {
        [] => Ok(()),
        [_, ..] => {
            out.extend_from_slice(b" (")?;
            out.extend_from_slice(text)?;
            out.extend_from_slice(b")")
        }
    }
}

/// Appends what the number of a refusal means in parentheses after a blank, as `push_means` has it.
pub fn push_meaning(refusal: &Refusal, line: &[u8], out: &mut Vec<u8>) -> Result<(), AllocError>
    ensures { OnOk result (out.new.items ≡ out.old.items ++ meaning_text refusal.now line.now) }
{
    let mut text = Vec::new(*out.allocator());
    push_means(refusal, line, &mut text)?;
    push_in_parentheses(text.as_slice(), out)
}
