//! The faults of a command's words.

ghost use Rattle.std.specs.Prelude.{◌≡◌};
ghost use Rattle.command_lang.specs.Names.{command_named};
ghost use Rattle.command_lang.specs.Table.{least, kind_at, kind_fault, word_fault, words_faults, first_of};
ghost use Rattle.command_lang.specs.MaskFaults.{unless};
ghost use Rattle.command_lang.specs.FirstWord.{name_in};

use crate::fault::{FaultKind, ParseFault};
use crate::rows::{Kind, Words, command_named};
use crate::values::{
    coding, has_empty_item, is_bits, is_vertical, lock_mode, mask_fault, number, switch,
};
use acl::CommandName;
use strings::Word;

/// The least number of words.
fn least(words: Words) -> usize
    ensures { result ≡ least words }
{
    match words {
        Words::Nothing | Words::Perhaps(_) => 0,
        Words::One(_) | Words::OneOrTwo(_, _) | Words::Several(_) => 1,
        Words::Three(_, _, _) => 3,
    }
}

/// What the word with this number, from 0, has to be; `None` if there may be no such word.
fn kind_at(words: Words, i: usize) -> Option<Kind>
    ensures { result ≡ kind_at words i }
{
    match words {
        Words::Nothing => None,
        Words::One(first) | Words::Perhaps(first) => if i == 0 { Some(first) } else { None },
        Words::OneOrTwo(first, second) => match i {
            0 => Some(first),
            1 => Some(second),
            _ => None,
        },
        Words::Three(first, second, third) => match i {
            0 => Some(first),
            1 => Some(second),
            2 => Some(third),
            _ => None,
        },
        Words::Several(each) => Some(each),
    }
}

/// No fault if the test passed, else this one.
fn fault_unless(fine: bool, kind: FaultKind) -> Option<FaultKind>
    ensures { result ≡ unless fine kind }
{
    if fine { None } else { Some(kind) }
}

/// Why a text isn't of this kind; `None` if it is.
fn judge(kind: Kind, text: &str) -> Option<FaultKind>
    ensures { result ≡ kind_fault kind text.now }
{
    match kind {
        Kind::Text => None,
        Kind::Items => fault_unless(!has_empty_item(text), FaultKind::BadWord),
        Kind::Bits => fault_unless(is_bits(text.as_bytes()), FaultKind::BadBits),
        Kind::Mask => mask_fault(text),
        Kind::Number(limit) => {
            fault_unless(
                number(text.as_bytes(), limit).is_some(),
                FaultKind::BadNumber,
            )
        }
        Kind::LockMode => fault_unless(lock_mode(text).is_some(), FaultKind::BadWord),
        Kind::Switch => fault_unless(switch(text).is_some(), FaultKind::BadWord),
        Kind::Coding => fault_unless(coding(text).is_some(), FaultKind::BadWord),
        Kind::Vertical => fault_unless(is_vertical(text), FaultKind::BadWord),
    }
}

/// The fault of a word that has to be of this kind; `None` as a kind means that there may be no
/// word.
fn word_fault(kind: Option<Kind>, word: &Word) -> Option<ParseFault>
    ensures { result ≡ word_fault kind word.now }
{
    let fault = if !word.is_closed {
        Some(FaultKind::BadQuote)
    } else if let Some(kind) = kind {
        judge(kind, word.text.as_str())
    } else {
        Some(FaultKind::ExtraWord)
    };
    match fault {
        Some(kind) => Some(ParseFault {
            kind,
            place: word.place,
        }),
        None => None,
    }
}

/// The first fault of a command's words, in a line of that length in bytes; `None` if there is
/// none.
pub fn words_fault(taken: Words, words: &[Word], end: usize) -> Option<ParseFault>
    ensures { result ≡ first_of (words_faults taken 0 end words.now) }
{
    for i in 0..words.len() {
        let fault = word_fault(kind_at(taken, i), &words[i]);
        if fault.is_some() {
            return fault;
        }
    }
    if words.len() < least(taken) {
        Some(ParseFault {
            kind: FaultKind::MissingWord,
            place: end,
        })
    } else {
        None
    }
}

/// The command that a line's first word names, or why it names none.
pub fn first_name(word: &Word) -> Result<CommandName, ParseFault>
    ensures { result ≡ name_in word.now }
{
    if !word.is_closed {
        return Err(ParseFault {
            kind: FaultKind::BadQuote,
            place: word.place,
        });
    }
    match command_named(word.text.as_str()) {
        Some(name) => Ok(name),
        None => Err(ParseFault {
            kind: FaultKind::UnknownCommand,
            place: word.place,
        }),
    }
}
