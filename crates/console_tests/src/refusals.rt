//! The words of refusals. Programs find them by the number in a refusal's text, the trail by the refusal.

use acl::AclFault;
use command_lang::{FaultKind, ParseFault};
use line_fields::push_meaning;
use program_words::explain;
use regions::RegionFault;
use session::{Refusal, WindowsFault};
use std::alloc::Global;

/// The line that was refused.
const LINE: &str = "select x1 extra";

/// The faults of rights, each with the text of its refusal.
static RIGHTS: [(&str, AclFault); 7] = [
    ("acl: 1", AclFault::UnknownUser),
    ("acl: 2", AclFault::OwnerKept),
    ("acl: 3", AclFault::TooManyUsers),
    ("acl: 4", AclFault::ReservedName),
    ("acl: 5", AclFault::NoSuchGroup),
    ("acl: 6", AclFault::NoMemory),
    ("acl: 7", AclFault::TooManyGroups),
];

/// The faults of windows.
static WINDOWS: [(&str, WindowsFault); 5] = [
    ("windows: 1", WindowsFault::Full),
    ("windows: 2", WindowsFault::NoSuchWindow),
    ("windows: 3", WindowsFault::NumberTaken),
    ("windows: 4", WindowsFault::BadTitle),
    ("windows: 5", WindowsFault::NoMemory),
];

/// The faults of layouts.
static LAYOUTS: [(&str, RegionFault); 4] = [
    ("regions: 1", RegionFault::TooSmall),
    ("regions: 2", RegionFault::TooMany),
    ("regions: 3", RegionFault::LastRegion),
    ("regions: 4", RegionFault::NoMemory),
];

/// The faults of lines, at the second word of `LINE`.
static LINES: [(&str, FaultKind); 9] = [
    ("line: 1 at 7", FaultKind::UnknownCommand),
    ("line: 2 at 7", FaultKind::MissingWord),
    ("line: 3 at 7", FaultKind::ExtraWord),
    ("line: 4 at 7", FaultKind::BadNumber),
    ("line: 5 at 7", FaultKind::BadBits),
    ("line: 6 at 7", FaultKind::BadQuote),
    ("line: 7 at 7", FaultKind::TooLong),
    ("line: 8 at 7", FaultKind::NoMemory),
    ("line: 9 at 7", FaultKind::BadWord),
];

/// Texts of refusals that no words follow: they have no number, or no fault has this number.
static WITHOUT: [&str; 8] = [
    "unknown user",
    "no window",
    "acl: 0",
    "acl: 8",
    "windows: 6",
    "regions: 5",
    "line: 0 at 7",
    "line: 10 at 7",
];

/// Whether a program prints these words after a refusal's text.
fn is_explained(alloc: Global, said: &str, words: &[u8]) -> bool {
    let mut printed = Vec::new(alloc);
    explain(said, LINE, &mut printed).is_ok() && printed.as_slice() == words
}

/// Whether the refusal has this text, and a program prints after it what the trail prints: words in
/// parentheses that end with the word at fault, if there is one.
fn is_same(alloc: Global, said: &str, refusal: &Refusal, end: &[u8]) -> bool {
    let mut text = Vec::new(alloc);
    let mut words = Vec::new(alloc);
    refusal.text(&mut text).is_ok()
        && text.as_slice() == said.as_bytes()
        && push_meaning(refusal, LINE.as_bytes(), &mut words).is_ok()
        && words.starts_with(b" (")
        && words.ends_with(end)
        && is_explained(alloc, said, words.as_slice())
}

/// The refusal for a fault at the second word of `LINE`.
fn at_word(kind: FaultKind) -> Refusal {
    Refusal::Line(ParseFault { kind, place: 7 })
}

/// The text of the first refusal for which that isn't so.
fn first_wrong(alloc: Global) -> Option<&'static str> {
    for (said, fault) in &RIGHTS {
        if !is_same(alloc, said, &Refusal::Acl(*fault), b")") {
            return Some(said);
        }
    }
    for (said, fault) in &WINDOWS {
        if !is_same(alloc, said, &Refusal::Windows(*fault), b")") {
            return Some(said);
        }
    }
    for (said, fault) in &LAYOUTS {
        if !is_same(alloc, said, &Refusal::Regions(*fault), b")") {
            return Some(said);
        }
    }
    for (said, kind) in &LINES {
        if !is_same(alloc, said, &at_word(*kind), b": x1)") {
            return Some(said);
        }
    }
    WITHOUT
        .iter()
        .copied()
        .find(|said| !is_explained(alloc, said, b""))
}

#[test]
fn programs_and_the_trail_have_one_word_for_a_refusal(rt: HostRuntime) {
    assert_eq!(rt; first_wrong(rt.alloc()), None);
}
