//! The line of an entry.

ghost use Rattle.std.specs.Prelude.{◌≡◌, ◌++◌, [], OnErr, OnOk, IfOk, option_copied, option_map};
ghost use Rattle.std.specs.List.{flat_map};
ghost use Rattle.line_fields.specs.Cutting.{words_behind};
ghost use Rattle.line_fields.specs.Parts.{blank};
ghost use Rattle.trail_lines.specs.Entries.{checked_text, done_text, tail_text, line_of, note_in};
ghost use Rattle.trail_lines.specs.Entries.{noting, notes_of, tail_in, said_in, if_spelled, read_line, noted, said};
ghost use Rattle.trail_lines.specs.Unreadable.{Gives};

use crate::UnreadLine;
use crate::events::{event_at, push_count, push_event};
use crate::replies::{push_reply, read_reply};
use acl::Act;
use hub::{Ending, KeptReply, TrailEntry};
use line_fields::acts::{push_act, read_act};
use line_fields::verdicts::{push_verdict, read_verdict};
use line_fields::{next_word, u64_at};
use session::{Done, Refusal, Reply, Verdict};
use std::alloc::{AllocError, Global};

/// An entry, its place in the trail and its time, in milliseconds since 1970.
#[derive(Drop)]
pub struct EntryLine {
    pub place: u64,
    pub ms: u64,
    pub entry: TrailEntry,
}

/// What follows a reply: a check, or an act.
#[derive(Clone, Copy)]
pub enum Remark {
    Checked(Verdict),
    Done(Act),
}

/// The verdicts and the acts of an entry.
#[derive(Drop)]
pub struct Remarks {
    verdicts: Vec<Verdict>,
    acts: Vec<Act>,
}

/// Appends verdicts, each after a blank and a question mark.
fn push_verdicts(verdicts: &[Verdict], out: &mut Vec<u8>) -> Result<(), AllocError>
    ensures { OnOk result (out.new.items ≡ out.old.items ++ flat_map checked_text verdicts.now) }
{
    for verdict in verdicts {
        out.extend_from_slice(b" ?")?;
        push_verdict(verdict, out)?;
    }
    Ok(())
}

/// Appends acts, each after a blank and an exclamation mark.
fn push_acts(acts: &[Act], out: &mut Vec<u8>) -> Result<(), AllocError>
    ensures { OnOk result (out.new.items ≡ out.old.items ++ flat_map done_text acts.now) }
{
    for act in acts {
        out.extend_from_slice(b" !")?;
        push_act(act, out)?;
    }
    Ok(())
}

/// Appends what follows an event: the reply, what was checked, and what was done.
fn push_tail(entry: &TrailEntry, out: &mut Vec<u8>) -> Result<(), AllocError>
    ensures { OnOk result (out.new.items ≡ out.old.items ++ tail_text entry.now) }
{
    push_reply(&entry.ending(), out)?;
    push_verdicts(entry.verdicts(), out)?;
    push_acts(entry.acts(), out)
}

/// Appends the line of an entry, without a line feed.
fn push_line(place: u64, ms: u64, entry: &TrailEntry, out: &mut Vec<u8>) -> Result<(), AllocError>
    ensures { OnOk result (out.new.items ≡ out.old.items ++ line_of (place, ms, entry.now)) }
{
    push_count(place, out)?;
    push_count(ms, out)?;
    push_event(entry.event(), out)?;
    push_tail(entry, out)
}

/// Appends the line of an entry, without a line feed: its place in the trail, its time in
/// milliseconds since 1970, and what the trail keeps. After an `Err` nothing has changed.
pub fn print_line(
    place: u64,
    ms: u64,
    entry: &TrailEntry,
    out: &mut Vec<u8>,
) -> Result<(), AllocError>
    ensures ok { OnOk result (out.new.items ≡ out.old.items ++ line_of (place, ms, entry.now)) }
    ensures err { OnErr result (out.new.items ≡ out.old.items) }
{
    let mut made = Vec::new(*out.allocator());
    push_line(place, ms, entry, &mut made)?;
    out.extend_from_slice(&made)
}

/// The verdict or the act that a word says.
fn read_note(word: &[u8]) -> Option<Remark>
    ensures { result ≡ note_in word.now }
{
    match word {
        [b'?', rest @ ..] => Some(Remark::Checked(read_verdict(rest)?)),
        [b'!', rest @ ..] => Some(Remark::Done(read_act(rest)?)),
        _ => None,
    }
}

impl Remarks {
    /// No verdict and no act.
    fn new(alloc: Global) -> Remarks
        ensures { noted result ≡ ([], []) }
    {
        Remarks {
            verdicts: Vec::new(alloc),
            acts: Vec::new(alloc),
        }
    }

    /// Adds a verdict or an act.
    fn add(&mut self, note: Remark) -> Result<(), AllocError>
        ensures { OnOk result (noted self.new ≡ noting (noted self.old) note) }
    {
        match note {
            Remark::Checked(verdict) => self.verdicts.push(verdict)?,
            Remark::Done(act) => self.acts.push(act)?,
        }
        Ok(())
    }

    /// The verdicts and acts that the words after a reply say.
    fn read(alloc: Global, words: Option<&[u8]>) -> Result<Remarks, UnreadLine>
        ensures { Gives noted result (notes_of (words_behind blank (option_copied words.entry)) ([], [])) }
    {
        let mut notes = Remarks::new(alloc);
        let mut rest = words;
        'notes: while let Some(bytes) = rest {
            let (word, behind) = next_word(bytes, b' ');
            let Some(note) = read_note(word) else {
                return Err(UnreadLine::Malformed);
            };
            notes.add(note)?;
            rest = behind;
        }
        Ok(notes)
    }
}

/// The reply, as it is stored.
fn keep(alloc: Global, ending: Ending) -> Result<KeptReply, AllocError>
    ensures { IfOk result (λ kept. kept ≡ ending) }
{
    let spare = Box::new(alloc, Refusal::NoMemory)?;
    let reply: Reply = match ending {
        Ok(finished) => Ok(Done {
            taken: finished.taken,
            made: finished.made,
            number: finished.number,
            text: None,
        }),
        Err(refusal) => Err(refusal),
    };
    Ok(KeptReply::of(&reply, spare))
}

/// A reply, and the verdicts and acts after it.
fn read_tail(alloc: Global, bytes: &[u8]) -> Result<(Ending, Remarks), UnreadLine>
    ensures { Gives (λ p. (p.0, noted p.1)) result (tail_in bytes.now) }
{
    let (word, rest) = next_word(bytes, b' ');
    let reply = read_reply(word).ok_or(UnreadLine::Malformed)?;
    let notes = Remarks::read(alloc, rest)?;
    Ok((reply, notes))
}

/// What a line says, even if it is printed otherwise.
#[tactic(auto, unfolding(crate::specs::Entries::said_in))]
fn said_in(alloc: Global, line: &[u8]) -> Result<EntryLine, UnreadLine>
    ensures { Gives said result (said_in line.now) }
{
    let (place, rest) = u64_at(line, b' ').ok_or(UnreadLine::Malformed)?;
    let (ms, rest) = u64_at(rest, b' ').ok_or(UnreadLine::Malformed)?;
    let (event, rest) = event_at(alloc, rest)?;
    let (reply, notes) = read_tail(alloc, rest)?;
    let reply = keep(alloc, reply)?;
    let Remarks { verdicts, acts } = notes;
    let entry = TrailEntry::new(event, verdicts, acts, reply);
    Ok(EntryLine { place, ms, entry })
}

/// What a line without its line feed says. Malformed if no entry is printed so.
#[tactic(auto, unfolding(crate::specs::Entries::read_line))]
pub fn read_line(alloc: Global, line: &[u8]) -> Result<EntryLine, UnreadLine>
    ensures { Gives said result (read_line line.now) }
{
    let read = said_in(alloc, line)?;
    let mut printed = Vec::new(alloc);
    push_line(read.place, read.ms, &read.entry, &mut printed)?;
    if printed.as_slice() != line {
        return Err(UnreadLine::Malformed);
    }
    Ok(read)
}
