//! Entries as objects of JSON (RFC 8259), one a line.

ghost use Rattle.std.specs.Prelude.{◌≡◌, ◌++◌, OnOk, option_map, true};
ghost use Rattle.line_fields.specs.Cutting.{words};
ghost use Rattle.line_fields.specs.Parts.{blank};
ghost use Rattle.trail_files.specs.Json.{begin_text, byte_text, entry_text, event_text, item_text, items_text};
ghost use Rattle.trail_files.specs.Json.{json_end, json_entry, lists_text, marked_text, means_text, note_in};
ghost use Rattle.trail_files.specs.Json.{notes_text, outcome_text, quoted, reply_text, string_text};
ghost use Rattle.trail_files.specs.Words.{words_in};

use crate::words::{behind_words, first_word, means_of, word_count};
use line_fields::{next_word, push_when};
use std::alloc::AllocError;
use std::io::{self, Write};
use trail_lines::{Ended, EntryLine};

/// Appends a byte of a string. The byte is 0x20 to 0x7E.
fn push_byte(byte: u8, out: &mut Vec<u8>) -> Result<(), AllocError>
    ensures { OnOk result (out.new.items ≡ out.old.items ++ byte_text byte) }
{
    if byte == b'"' || byte == b'\\' {
        out.push(b'\\')?;
    }
    out.push(byte)?;
    Ok(())
}

/// Appends bytes as a string. They are 0x20 to 0x7E.
fn push_string(bytes: &[u8], out: &mut Vec<u8>) -> Result<(), AllocError>
    ensures { OnOk result (out.new.items ≡ out.old.items ++ string_text bytes.now) }
{
    out.extend_from_slice(b"\"")?;
    for byte in bytes {
        push_byte(*byte, out)?;
    }
    out.extend_from_slice(b"\"")
}

/// Appends what ends a string that has begun, if one has.
fn push_quoted(text: &[u8], out: &mut Vec<u8>) -> Result<(), AllocError>
    ensures { OnOk result (out.new.items ≡ out.old.items ++ quoted text.now) }
{
    match text {
        [] => Ok(()),
        [_, ..] => {
            out.extend_from_slice(text)?;
            out.extend_from_slice(b"\"")
        }
    }
}

/// Appends the beginning of an object, a number and a time: its milliseconds since 1970 and, if it has
/// one, its form of RFC 3339.
fn push_begin(begin: &[u8], number: u64, ms: u64, out: &mut Vec<u8>) -> io::Result<()>
    ensures { OnOk result (out.new.items ≡ out.old.items ++ begin_text begin.now number ms) }
{
    let mut time = Vec::new(*out.allocator());
    push_when(b",\"time\":\"", ms, &mut time)?;
    out.extend_from_slice(begin)?;
    write!(out, "{number},\"ms\":{ms}")?;
    Ok(push_quoted(time.as_slice(), out)?)
}

/// Appends the next string of a list.
fn push_item(bytes: &[u8], is_first: bool, out: &mut Vec<u8>) -> Result<(), AllocError>
    ensures { OnOk result (out.new.items ≡ out.old.items ++ item_text is_first bytes.now) }
{
    match is_first {
        true => push_string(bytes, out),
        false => {
            out.extend_from_slice(b",")?;
            push_string(bytes, out)
        }
    }
}

/// Appends the first words of a text as the strings of a list.
fn push_words(text: &[u8], count: usize, out: &mut Vec<u8>) -> Result<(), AllocError>
    ensures { OnOk result (out.new.items ≡ out.old.items ++ items_text true (words_in count text.now)) }
{
    let mut rest = text;
    'words: for place in 0..count {
        let (word, behind) = first_word(rest);
        push_item(word, place == 0, out)?;
        rest = behind;
    }
    Ok(())
}

/// Appends the words of an event as a list.
fn push_event(text: &[u8], count: usize, out: &mut Vec<u8>) -> Result<(), AllocError>
    ensures { OnOk result (out.new.items ≡ out.old.items ++ event_text count text.now) }
{
    out.extend_from_slice(b",\"event\":[")?;
    push_words(text, count, out)?;
    out.extend_from_slice(b"]")
}

/// A word with this mark, without the mark.
fn note_in(mark: u8, word: &[u8]) -> Option<&[u8]>
    ensures { option_map (λ note. note.now) result ≡ note_in mark word.now }
{
    match word {
        [first, note @ ..] if *first == mark => Some(note),
        _ => None,
    }
}

/// Appends the words with this mark as the strings of a list, without the mark.
fn push_marked(text: &[u8], mark: u8, out: &mut Vec<u8>) -> Result<(), AllocError>
    ensures { OnOk result (out.new.items ≡ out.old.items ++ marked_text true mark (words blank text.now)) }
{
    let mut rest = Some(text);
    let mut is_first = true;
    'notes: while let Some(bytes) = rest {
        let (word, behind) = next_word(bytes, b' ');
        if let Some(note) = note_in(mark, word) {
            push_item(note, is_first, out)?;
            is_first = false;
        }
        rest = behind;
    }
    Ok(())
}

/// Appends the beginning of a list, and the words with this mark as its strings, without the mark.
fn push_notes(begin: &[u8], text: &[u8], mark: u8, out: &mut Vec<u8>) -> Result<(), AllocError>
    ensures { OnOk result (out.new.items ≡ out.old.items ++ notes_text begin.now mark text.now) }
{
    out.extend_from_slice(begin)?;
    push_marked(text, mark, out)?;
    out.extend_from_slice(b"]")
}

/// Appends what the number of a refusal means, if it has one.
fn push_meaning(means: &[u8], out: &mut Vec<u8>) -> Result<(), AllocError>
    ensures { OnOk result (out.new.items ≡ out.old.items ++ means_text means.now) }
{
    match means {
        [] => Ok(()),
        [_, ..] => {
            out.extend_from_slice(b",\"means\":")?;
            push_string(means, out)
        }
    }
}

/// Appends the word of a reply, and what its number means.
fn push_reply(means: &[u8], reply: &[u8], out: &mut Vec<u8>) -> Result<(), AllocError>
    ensures { OnOk result (out.new.items ≡ out.old.items ++ reply_text means.now reply.now) }
{
    out.extend_from_slice(b",\"reply\":")?;
    push_string(reply, out)?;
    push_meaning(means, out)
}

/// Appends the checks and the acts that follow a reply.
fn push_lists(notes: &[u8], out: &mut Vec<u8>) -> Result<(), AllocError>
    ensures { OnOk result (out.new.items ≡ out.old.items ++ lists_text notes.now) }
{
    push_notes(b",\"checks\":[", notes, b'?', out)?;
    push_notes(b",\"acts\":[", notes, b'!', out)
}

/// Appends what became of an event, and ends the object.
#[tactic(auto, unfolding(crate::specs::Json::outcome_text))]
fn push_outcome(means: &[u8], text: &[u8], out: &mut Vec<u8>) -> Result<(), AllocError>
    ensures { OnOk result (out.new.items ≡ out.old.items ++ outcome_text means.now text.now) }
{
    let (reply, notes) = first_word(text);
    push_reply(means, reply, out)?;
    push_lists(notes, out)?;
    out.extend_from_slice(b"}\n")
}

/// Appends an event of this many words, and what became of it, and ends the object.
fn push_rest(means: &[u8], count: usize, text: &[u8], out: &mut Vec<u8>) -> Result<(), AllocError>
    ensures { OnOk result (out.new.items ≡ out.old.items ++ entry_text means.now count text.now) }
{
    push_event(text, count, out)?;
    push_outcome(means, behind_words(text, count), out)
}

/// Appends the entry of a line.
pub fn push_entry(line: &EntryLine, text: &[u8], out: &mut Vec<u8>) -> io::Result<()>
    ensures { OnOk result (out.new.items ≡ out.old.items ++ json_entry line.now text.now) }
{
    let means = means_of(*out.allocator(), &line.entry)?;
    let count = word_count(line.entry.event());
    push_begin(b"{\"place\":", line.place, line.ms, out)?;
    Ok(push_rest(means.as_slice(), count, behind_words(text, 2), out)?)
}

/// Appends a last line.
pub fn push_end(ended: Ended, out: &mut Vec<u8>) -> io::Result<()>
    ensures { OnOk result (out.new.items ≡ out.old.items ++ json_end ended) }
{
    push_begin(b"{\"end\":", ended.entries, ended.ms, out)?;
    out.extend_from_slice(b",\"why\":")?;
    push_string(ended.cause.word(), out)?;
    Ok(out.extend_from_slice(b"}\n")?)
}
