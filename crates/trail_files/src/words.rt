//! The words of an entry's line, and what the number of its refusal means.

ghost use Rattle.std.specs.Prelude.{◌≡◌, ◌++◌, IfOk, OnOk};
ghost use Rattle.trail_files.specs.Words.{behind_word, behind_words, command_line, first_word, means_by, means_of};
ghost use Rattle.trail_files.specs.Words.{word_count};

use hub::{Ending, Kept, TrailEntry};
use line_fields::{cut, push_escaped, push_means};
use std::alloc::{AllocError, Global};

/// The first word of a text, and what follows its blank.
pub fn first_word(text: &[u8]) -> (&[u8], &[u8])
    ensures word { result.0.now ≡ first_word text.now }
    ensures rest { result.1.now ≡ behind_word text.now }
{
    match cut(text, b' ') {
        Some(parts) => parts,
        None => (text, &[]),
    }
}

/// What follows the first words of a text.
pub fn behind_words(text: &[u8], count: usize) -> &[u8]
    ensures { result.now ≡ behind_words count text.now }
{
    let mut rest = text;
    'words: for _ in 0..count {
        rest = first_word(rest).1;
    }
    rest
}

/// How many words an event has.
pub fn word_count(event: &Kept) -> usize
    ensures { result ≡ word_count event.now }
{
    match event {
        Kept::Attach { .. } | Kept::Command { .. } => 4,
        Kept::Open { .. } => 6,
        Kept::Detach { .. } | Kept::Keys { .. } | Kept::Closed { .. } => 2,
    }
}

/// The line of a command. Empty for other events.
fn command_line(event: &Kept) -> &[u8]
    ensures { result.now ≡ command_line event.now }
{
    match event {
        Kept::Command { line, .. } => line.as_slice(),
        _ => &[],
    }
}

/// Appends what the number of a refusal means. Appends nothing if the event isn't refused.
fn push_means_by(event: &Kept, ending: Ending, out: &mut Vec<u8>) -> Result<(), AllocError>
    ensures { OnOk result (out.new.items ≡ out.old.items ++ means_by event.now ending) }
{
    match ending {
        Ok(_) => Ok(()),
        Err(refusal) => push_means(&refusal, command_line(event), out),
    }
}

/// What the number of an entry's refusal means, in bytes of 20 to 7E. Empty if it has none.
pub fn means_of(alloc: Global, entry: &TrailEntry) -> Result<Vec<u8>, AllocError>
    ensures { IfOk result (λ means. means.items ≡ means_of entry.now) }
{
    let mut means = Vec::new(alloc);
    push_means_by(entry.event(), entry.ending(), &mut means)?;
    let mut text = Vec::new(alloc);
    push_escaped(0x20, means.as_slice(), &mut text)?;
    Ok(text)
}
