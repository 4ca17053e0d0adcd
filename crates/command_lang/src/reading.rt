//! A line is read as a command, or has a fault.

ghost use Rattle.std.specs.Prelude.{◌≡◌, ◌⊎◌, ◌<◌, ◌≤◌, false, length, IfOk, IfErr, Err, [], Some, ◌↔◌, ℕ, List, Ok};
ghost use Rattle.std.specs.Str.{is_utf8};
ghost use Rattle.command_lang.specs.declared.fault.FaultKind.TheVariants as faults;
ghost use Rattle.command_lang.specs.Table.{at, first_of, words_faults};
ghost use Rattle.command_lang.specs.LineFaults.{no_memory, line_faults};
ghost use Rattle.command_lang.specs.Relation.{NoneBefore, Relates, Refuses, read_line};
ghost use Rattle.command_lang.specs.Rows.{takes};
ghost use Rattle.command_lang.specs.Meaning.{line_command};
ghost use Rattle.acl.specs.slots.TheConstants.{WINDOWS};
ghost use Rattle.command_lang.specs.declared.command.Command.{Command};
ghost use Rattle.command_lang.specs.declared.command.Command.TheVariants as command;
ghost use Rattle.command_lang.specs.declared.fault.ParseFault.{ParseFault};

use crate::build::build;
use crate::command::Command;
use crate::fault::{FaultKind, ParseFault};
use crate::rows::row;
use crate::table::{first_name, words_fault};
use acl::CommandName;
use std::alloc::Global;
use std::str;
use strings::{Word, words};

/// The first fault of the words after a command's name, in a line of that length in bytes.
fn fault_of(name: CommandName, words: &[Word], end: usize) -> Option<ParseFault>
    ensures { result ≡ first_of (words_faults (takes name) 0 end words.now) }
{
    words_fault(row(name).words, words, end)
}

/// The command of a line's words, or its first fault. `end` is the line's length in bytes.
pub fn command_of(alloc: Global, line: &[Word], end: usize) -> Result<Command, ParseFault>
    ensures ok { IfOk result (λ c. (line_faults end line.now ≡ [])
        × (line_command line.now ≡ Some c)) }
    ensures err { IfErr result (λ f. (f ≡ no_memory)
        ⊎ (first_of (line_faults end line.now) ≡ Some f)) }
{
    let Some((first, rest)) = line.split_first() else {
        return Err(ParseFault {
            kind: FaultKind::MissingWord,
            place: end,
        });
    };
    let name = first_name(first)?;
    if let Some(fault) = fault_of(name, rest, end) {
        return Err(fault);
    }
    match build(alloc, name, rest) {
        Ok(Some(command)) => Ok(command),
        Ok(None) => unreachable!(),
        Err(_) => Err(ParseFault::no_memory()),
    }
}

/// The greatest length of a line, in bytes.
pub const LONGEST_LINE: usize = 1024;

/// The command of a line of at most 1,024 bytes, or its first fault.
fn command_in(alloc: Global, line: &[u8]) -> Result<Command, ParseFault>
    ensures ok { IfOk result (λ c. Relates line.now c) }
    ensures err { IfErr result (λ f. (f ≡ no_memory) ⊎ Refuses line.now f) }
    ensures long { 1024 < length line.now → result ≡ Err (at 1024 faults.TooLong) }
    ensures no_text { length line.now ≤ 1024 → is_utf8 line.now ≡ false
        → result ≡ Err (at 0 faults.BadWord) }
{
    if line.len() > LONGEST_LINE {
        return Err(ParseFault {
            kind: FaultKind::TooLong,
            place: LONGEST_LINE,
        });
    }
    let Ok(text) = str::from_utf8(line) else {
        return Err(ParseFault {
            kind: FaultKind::BadWord,
            place: 0,
        });
    };
    match words(alloc, text) {
        Ok(words) => command_of(alloc, words.as_slice(), line.len()),
        Err(_) => Err(ParseFault::no_memory()),
    }
}

/// The command of a line, or why it is none.
///
/// A line of more than 1,024 bytes is `TooLong` at 1,024, and a line that isn't UTF-8 is `BadWord`
/// at 0. Else the error is the fault at the lowest place; of faults of one word it is `BadQuote`,
/// or else the one with the lowest number. `NoMemory` is at 0.
pub fn parse(alloc: Global, line: &[u8]) -> Result<Command, ParseFault>
    ensures ok { IfOk result (λ c. Relates line.now c) }
    ensures err { IfErr result (λ f. (f ≡ no_memory) ⊎ Refuses line.now f) }
    // These two faults are found without taking memory.
    ensures long { 1024 < length line.now → result ≡ Err (at 1024 faults.TooLong) }
    ensures no_text { length line.now ≤ 1024 → is_utf8 line.now ≡ false
        → result ≡ Err (at 0 faults.BadWord) }
    // No fault of the line's words is at a lower place than the one in the result.
    ensures least { IfErr result (λ f. (f ≡ no_memory) ⊎ NoneBefore line.now f) }
{
    command_in(alloc, line)
}

/// Each line is a command or has a first fault, and not both. `parse` computes that command or that
/// fault.
pub fn each_line_is_a_command_or_faulty()
    ensures either { (line : List ℕ)
        → ((c : Command) × Relates line c) ⊎ ((f : ParseFault) × Refuses line f) }
    ensures not_both { (line : List ℕ) (c : Command) (f : ParseFault) → Relates line c
        → Refuses line f → ⊥ }
    ensures command { (line : List ℕ) (c : Command) → Relates line c ↔ (read_line line ≡ Ok c) }
    ensures fault { (line : List ℕ) (f : ParseFault) → Refuses line f ↔ (read_line line ≡ Err f) }
{}

/// A line that gives a window a number gives it a number below 40.
pub fn numbers_are_below_40()
    ensures { (line : List ℕ) (n : ℕ) → Relates line (command.Number n) → n < WINDOWS }
{}
