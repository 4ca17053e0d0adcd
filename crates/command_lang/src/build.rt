//! A command is built from its name and words, after the words were judged.

ghost use Rattle.std.specs.Prelude.{◌≡◌, ◌∷◌, [], IfOk, map};
ghost use Rattle.command_lang.specs.Values.{number_in, mask_of};
ghost use Rattle.command_lang.specs.Meaning.{bare, with_word, with_words, command_of, texts_of};

use crate::command::{Command, Masks};
use crate::values::{
    bits, coding, is_vertical, items, leader, lock_mode, mask, number, switch, users,
};
use acl::CommandName;
use std::alloc::{AllocError, Global};
use strings::{Text, Word};

/// The command of this name, if it is one that takes no word.
fn bare(name: CommandName) -> Option<Command>
    ensures { result ≡ bare name }
{
    match name {
        CommandName::Detach => Some(Command::Detach),
        CommandName::Next => Some(Command::Next),
        CommandName::Prev => Some(Command::Prev),
        CommandName::Other => Some(Command::Other),
        CommandName::Kill => Some(Command::Kill),
        CommandName::Screen => Some(Command::Screen),
        CommandName::Split => Some(Command::Split { vertical: false }),
        CommandName::Focus => Some(Command::Focus),
        CommandName::Remove => Some(Command::Remove),
        CommandName::Only => Some(Command::Only),
        CommandName::Fit => Some(Command::Fit),
        CommandName::Clear => Some(Command::Clear),
        CommandName::Reset => Some(Command::Reset),
        CommandName::Windows => Some(Command::Windows),
        CommandName::Displays => Some(Command::Displays),
        CommandName::Quit => Some(Command::Quit),
        _ => None,
    }
}

/// A list of one mask.
fn lone_mask(alloc: Global, text: &str) -> Result<Masks, AllocError>
    ensures { IfOk result (λ m. m ≡ mask_of text.now ∷ []) }
{
    let mut masks = Masks::new(alloc);
    masks.push(mask(alloc, text)?)?;
    Ok(masks)
}

/// The window number that the text spells, if it does.
fn window_number(text: &str) -> Option<u8>
    ensures { result ≡ number_in 39 text.now }
{
    match number(text.as_bytes(), 39) {
        Some(n) => Some(n as u8),
        None => None,
    }
}

/// The command of a name and one word, if there is one.
fn with_word(alloc: Global, name: CommandName, text: &str) -> Result<Option<Command>, AllocError>
    ensures { IfOk result (λ c. c ≡ with_word name text.now) }
{
    match name {
        CommandName::Acladd => Ok(Some(Command::Acladd(users(alloc, text)?))),
        CommandName::Acldel => Ok(Some(Command::Acldel(Text::of(alloc, text)?))),
        CommandName::Aclgrp => Ok(Some(Command::Aclgrp {
            user: Text::of(alloc, text)?,
            leader: None,
        })),
        CommandName::Aclumask => Ok(Some(Command::Aclumask(lone_mask(alloc, text)?))),
        CommandName::Writelock => Ok(lock_mode(text).map(Command::Writelock)),
        CommandName::Defwritelock => Ok(lock_mode(text).map(Command::Defwritelock)),
        CommandName::Multiuser => Ok(switch(text).map(Command::Multiuser)),
        CommandName::Wall => Ok(Some(Command::Wall(Text::of(alloc, text)?))),
        CommandName::Select => Ok(Some(Command::Select(Text::of(alloc, text)?))),
        CommandName::Title => Ok(Some(Command::Title(Text::of(alloc, text)?))),
        CommandName::Number => Ok(window_number(text).map(Command::Number)),
        CommandName::Split if is_vertical(text) => Ok(Some(Command::Split { vertical: true })),
        CommandName::Scrollview => Ok(number(text.as_bytes(), 2000).map(Command::Scrollview)),
        CommandName::Encoding => Ok(coding(text).map(Command::Encoding)),
        CommandName::Stuff => Ok(Some(Command::Stuff(Text::of(alloc, text)?))),
        _ => Ok(None),
    }
}

/// The masks that the words spell.
fn masks(alloc: Global, words: &[Word]) -> Result<Masks, AllocError>
    ensures { IfOk result (λ m. m ≡ map mask_of (texts_of words.now)) }
{
    let mut masks = Masks::new(alloc);
    for word in words {
        masks.push(mask(alloc, word.text.as_str())?)?;
    }
    Ok(masks)
}

/// The command of a name and several words, if there is one.
fn with_words(
    alloc: Global,
    name: CommandName,
    words: &[Word],
) -> Result<Option<Command>, AllocError>
    ensures { IfOk result (λ c. c ≡ with_words name (texts_of words.now)) }
{
    match (name, words) {
        (CommandName::Aclchg, [first, second, third]) => Ok(Some(Command::Aclchg {
            users: users(alloc, first.text.as_str())?,
            bits: bits(alloc, second.text.as_str().as_bytes())?,
            list: items(alloc, third.text.as_str())?,
        })),
        (CommandName::Aclgrp, [first, second]) => Ok(Some(Command::Aclgrp {
            user: Text::of(alloc, first.text.as_str())?,
            leader: Some(leader(alloc, second.text.as_str())?),
        })),
        (CommandName::Aclumask, _) => Ok(Some(Command::Aclumask(masks(alloc, words)?))),
        _ => Ok(None),
    }
}

/// The command of this name and these words; `None` if they don't fit. `AllocError` if memory is
/// refused.
pub fn build(
    alloc: Global,
    name: CommandName,
    words: &[Word],
) -> Result<Option<Command>, AllocError>
    ensures { IfOk result (λ c. c ≡ command_of name (texts_of words.now)) }
{
    match words {
        [] => Ok(bare(name)),
        [word] => with_word(alloc, name, word.text.as_str()),
        _ => with_words(alloc, name, words),
    }
}
