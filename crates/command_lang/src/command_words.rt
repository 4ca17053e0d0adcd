//! The words of a command.

ghost use Rattle.std.specs.Prelude.{◌≡◌, ◌++◌, ◌∷◌, [], map, option_to_list, IfOk, OnOk};
ghost use Rattle.std.specs.String.{string_bytes};
ghost use Rattle.command_lang.specs.Printing as print;

use crate::command::{Coding, Command, Leader, Mask, Users};
use acl::{Bit, BitChange, LockMode};
use std::alloc::{AllocError, Global};
use strings::{Text, Texts};

/// Appends an item; a comma comes before each but the first.
fn put_item(i: usize, item: &str, out: &mut String) -> Result<(), AllocError>
    ensures { OnOk result (string_bytes out.new ≡ string_bytes out.old
        ++ print.item_behind i item.now) }
{
    if i > 0 {
        out.push(',')?;
    }
    out.push_str(item)
}

/// Appends items with commas between them.
fn put_items(items: &[Text], out: &mut String) -> Result<(), AllocError>
    ensures { OnOk result (string_bytes out.new ≡ string_bytes out.old
        ++ print.items_word items.now) }
{
    for i in 0..items.len() {
        put_item(i, items[i].as_str(), out)?;
    }
    Ok(())
}

/// Appends the word for users.
fn put_users(users: &Users, out: &mut String) -> Result<(), AllocError>
    ensures { OnOk result (string_bytes out.new ≡ string_bytes out.old
        ++ print.users_word users.now) }
{
    match users {
        Users::All => out.push('*'),
        Users::Listed(names) => put_items(names.as_slice(), out),
    }
}

/// The letter of a bit.
fn letter(bit: Bit) -> char
    ensures { result ≡ print.letter bit }
{
    match bit {
        Bit::Read => 'r',
        Bit::Write => 'w',
        Bit::Execute => 'x',
    }
}

/// The sign before a bit that is given or taken; `None` if the bit before it had the same sign.
/// `last` is that of the bit before, if any.
fn sign_before(last: Option<bool>, value: bool) -> Option<char>
    ensures { option_to_list result ≡ print.sign_before last value }
{
    match (last, value) {
        (Some(true), true) => None,
        (Some(true), false) => Some('-'),
        (Some(false), true) => Some('+'),
        (Some(false), false) => None,
        (None, true) => Some('+'),
        (None, false) => Some('-'),
    }
}

/// Appends a bit that is given or taken, with its sign if it needs one.
fn put_change(last: Option<bool>, change: BitChange, out: &mut String) -> Result<(), AllocError>
    ensures { OnOk result (string_bytes out.new ≡ string_bytes out.old
        ++ print.change_behind last change) }
{
    if let Some(sign) = sign_before(last, change.value) {
        out.push(sign)?;
    }
    out.push(letter(change.bit))
}

/// Appends bits; those of one sign that follow each other share it.
fn put_bits(bits: &[BitChange], out: &mut String) -> Result<(), AllocError>
    ensures { OnOk result (string_bytes out.new ≡ string_bytes out.old
        ++ print.bits_word bits.now) }
{
    let mut last = None;
    for i in 0..bits.len() {
        let change = bits[i];
        put_change(last, change, out)?;
        last = Some(change.value);
    }
    Ok(())
}

/// Appends the users of a mask, if it has any.
fn put_mask_users(users: &Option<Users>, out: &mut String) -> Result<(), AllocError>
    ensures { OnOk result (string_bytes out.new ≡ string_bytes out.old
        ++ print.mask_users_word users.now) }
{
    match users {
        Some(users) => put_users(users, out),
        None => Ok(()),
    }
}

/// The word for users.
fn users_text(alloc: Global, users: &Users) -> Result<Text, AllocError>
    ensures { IfOk result (λ t. t ≡ print.users_word users.now) }
{
    let mut word = String::new(alloc);
    put_users(users, &mut word)?;
    Ok(Text::new(word))
}

/// The word for bits.
fn bits_text(alloc: Global, bits: &[BitChange]) -> Result<Text, AllocError>
    ensures { IfOk result (λ t. t ≡ print.bits_word bits.now) }
{
    let mut word = String::new(alloc);
    put_bits(bits, &mut word)?;
    Ok(Text::new(word))
}

/// The word for a list.
fn items_text(alloc: Global, items: &[Text]) -> Result<Text, AllocError>
    ensures { IfOk result (λ t. t ≡ print.items_word items.now) }
{
    let mut word = String::new(alloc);
    put_items(items, &mut word)?;
    Ok(Text::new(word))
}

/// The word for a mask.
fn mask_text(alloc: Global, mask: &Mask) -> Result<Text, AllocError>
    ensures { IfOk result (λ t. t ≡ print.mask_word mask.now) }
{
    let mut word = String::new(alloc);
    put_mask_users(&mask.users, &mut word)?;
    put_bits(mask.bits.as_slice(), &mut word)?;
    Ok(Text::new(word))
}

/// The word for a lock's mode.
fn lock_mode_text(mode: LockMode) -> &'static str
    ensures { result.now ≡ print.lock_mode_word mode }
{
    match mode {
        LockMode::Off => "off",
        LockMode::Auto => "auto",
        LockMode::On => "on",
    }
}

/// The word for a switch.
fn switch_text(on: bool) -> &'static str
    ensures { result.now ≡ print.switch_word on }
{
    if on { "on" } else { "off" }
}

/// The word for a coding.
fn coding_text(coding: Coding) -> &'static str
    ensures { result.now ≡ print.coding_word coding }
{
    match coding {
        Coding::Utf8 => "utf8",
        Coding::Ecma35 => "ecma35",
    }
}

/// The word for a leader.
fn leader_text(leader: &Leader) -> &str
    ensures { result.now ≡ print.leader_word leader.now }
{
    match leader {
        Leader::Nobody => "none",
        Leader::Named(name) => name.as_str(),
    }
}

/// A list of one word.
fn lone(alloc: Global, word: &str) -> Result<Texts, AllocError>
    ensures { IfOk result (λ w. w ≡ word.now ∷ []) }
{
    let mut words = Texts::new(alloc);
    words.push(Text::of(alloc, word)?)?;
    Ok(words)
}

/// A list of three words.
fn three(alloc: Global, first: Text, second: Text, third: Text) -> Result<Texts, AllocError>
    ensures { IfOk result (λ w. w ≡ first ∷ second ∷ third ∷ []) }
{
    let mut words = Texts::new(alloc);
    words.push(first)?;
    words.push(second)?;
    words.push(third)?;
    Ok(words)
}

/// The words for a user and their leader.
fn group_words(alloc: Global, user: &str, leader: &Option<Leader>) -> Result<Texts, AllocError>
    ensures { IfOk result (λ w. w ≡ user.now ∷ print.leader_words leader.now) }
{
    let mut words = lone(alloc, user)?;
    if let Some(leader) = leader {
        words.push(Text::of(alloc, leader_text(leader))?)?;
    }
    Ok(words)
}

/// The words for masks.
fn mask_words(alloc: Global, masks: &[Mask]) -> Result<Texts, AllocError>
    ensures { IfOk result (λ w. w ≡ map print.mask_word masks.now) }
{
    let mut words = Texts::new(alloc);
    for mask in masks {
        words.push(mask_text(alloc, mask)?)?;
    }
    Ok(words)
}

/// The words of a command, after its name. `AllocError` if memory is refused.
pub fn command_words(alloc: Global, command: &Command) -> Result<Texts, AllocError>
    ensures { IfOk result (λ w. w ≡ print.words_of command.now) }
{
    match command {
        Command::Acladd(users) => lone(alloc, users_text(alloc, users)?.as_str()),
        Command::Aclchg { users, bits, list } => three(
            alloc,
            users_text(alloc, users)?,
            bits_text(alloc, bits.as_slice())?,
            items_text(alloc, list.as_slice())?,
        ),
        Command::Aclgrp { user, leader } => group_words(alloc, user.as_str(), leader),
        Command::Aclumask(masks) => mask_words(alloc, masks.as_slice()),
        Command::Acldel(text)
        | Command::Wall(text)
        | Command::Select(text)
        | Command::Title(text)
        | Command::Stuff(text) => lone(alloc, text.as_str()),
        Command::Writelock(mode) | Command::Defwritelock(mode) => {
            lone(alloc, lock_mode_text(*mode))
        }
        Command::Multiuser(on) => lone(alloc, switch_text(*on)),
        Command::Number(n) => lone(alloc, n.to_string(alloc)?.as_str()),
        Command::Split { vertical: true } => lone(alloc, "-v"),
        Command::Scrollview(n) => lone(alloc, n.to_string(alloc)?.as_str()),
        Command::Encoding(coding) => lone(alloc, coding_text(*coding)),
        _ => Ok(Texts::new(alloc)),
    }
}
