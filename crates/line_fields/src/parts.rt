//! The parts of a word: users, numbers, bits, objects, modes.

ghost use Rattle.std.specs.Prelude.{◌≡◌, ◌++◌, OnOk, option_map};
ghost use Rattle.acl.specs.Names.{name_of};
ghost use Rattle.acl.specs.declared.act.Object.TheVariants.{Command};
ghost use Rattle.line_fields.specs.Parts.{user_at, user_text, user_in, sign, mark, change_text, value_of, bit_of};
ghost use Rattle.line_fields.specs.Parts.{bit_in, change_in, object_text, command_in, object_in, mode_text, mode_in};
ghost use Rattle.line_fields.specs.Parts.{preset_text, preset_in};

use crate::numbers::read_u32;
use crate::texts::cut;
use acl::{Bit, BitChange, CommandName, LockMode, Object, PresetKind, UserId};
use command_lang::name_text;
use session_model::push_decimal;
use std::alloc::AllocError;

/// A user whose name a separator ends, and the bytes after the separator.
pub fn user_at(bytes: &[u8], separator: u8) -> Option<(UserId, &[u8])>
    ensures { option_map (λ p. (p.0, p.1.now)) result ≡ user_at separator bytes.now }
{
    let (word, rest) = cut(bytes, separator)?;
    Some((UserId::of(word)?, rest))
}

/// Appends a user's name.
pub fn push_name(user: UserId, out: &mut Vec<u8>) -> Result<(), AllocError>
    ensures { OnOk result (out.new.items ≡ out.old.items ++ name_of user) }
{
    out.extend_from_slice(user.as_bytes())
}

/// Appends a user's name, or `-` for nobody.
pub fn push_user(user: Option<UserId>, out: &mut Vec<u8>) -> Result<(), AllocError>
    ensures { OnOk result (out.new.items ≡ out.old.items ++ user_text user) }
{
    match user {
        Some(user) => push_name(user, out),
        None => out.extend_from_slice(b"-"),
    }
}

/// A user, or nobody.
pub fn read_user(word: &[u8]) -> Option<Option<UserId>>
    ensures { result ≡ user_in word.now }
{
    if word == b"-".as_slice() {
        return Some(None);
    }
    Some(Some(UserId::of(word)?))
}

/// `+` for a bit that is given, `-` for one that is taken.
fn sign(value: bool) -> u8
    ensures { result ≡ sign value }
{
    if value { b'+' } else { b'-' }
}

/// The letter of a bit.
pub fn mark(bit: Bit) -> u8
    ensures { result ≡ mark bit }
{
    match bit {
        Bit::Read => b'r',
        Bit::Write => b'w',
        Bit::Execute => b'x',
    }
}

/// Appends a bit that is given or taken, as `+w`.
pub fn push_change(bit: Bit, value: bool, out: &mut Vec<u8>) -> Result<(), AllocError>
    ensures { OnOk result (out.new.items ≡ out.old.items ++ change_text bit value) }
{
    out.extend_from_slice(&[sign(value), mark(bit)])
}

/// Whether a byte says that a bit is given (`+`) or taken (`-`).
fn value_of(byte: u8) -> Option<bool>
    ensures { result ≡ value_of byte }
{
    match byte {
        b'+' => Some(true),
        b'-' => Some(false),
        _ => None,
    }
}

/// The bit of a letter.
fn bit_of(byte: u8) -> Option<Bit>
    ensures { result ≡ bit_of byte }
{
    match byte {
        b'r' => Some(Bit::Read),
        b'w' => Some(Bit::Write),
        b'x' => Some(Bit::Execute),
        _ => None,
    }
}

/// A bit's letter.
pub fn read_bit(word: &[u8]) -> Option<Bit>
    ensures { result ≡ bit_in word.now }
{
    match word {
        [letter] => bit_of(*letter),
        _ => None,
    }
}

/// A bit that is given or taken.
pub fn read_change(word: &[u8]) -> Option<BitChange>
    ensures { result ≡ change_in word.now }
{
    match word {
        [first, second] => {
            let value = value_of(*first)?;
            let bit = bit_of(*second)?;
            Some(BitChange { bit, value })
        }
        _ => None,
    }
}

/// Appends an object: a window's serial, or a command's name.
pub fn push_object(object: Object, out: &mut Vec<u8>) -> Result<(), AllocError>
    ensures { OnOk result (out.new.items ≡ out.old.items ++ object_text object) }
{
    match object {
        Object::Window(window) => push_decimal(u64::from(window), out),
        Object::Command(command) => push_command(command, out),
    }
}

/// Appends a command's name.
pub fn push_command(command: CommandName, out: &mut Vec<u8>) -> Result<(), AllocError>
    ensures { OnOk result (out.new.items ≡ out.old.items ++ object_text (Command command)) }
{
    out.extend_from_slice(name_text(command).as_bytes())
}

/// The command of this name. Aliases aren't names here.
pub fn read_command(word: &[u8]) -> Option<CommandName>
    ensures { result ≡ command_in word.now }
{
    CommandName::ALL
        .iter()
        .find(|command| name_text(**command).as_bytes() == word)
        .copied()
}

/// An object.
pub fn read_object(word: &[u8]) -> Option<Object>
    ensures { result ≡ object_in word.now }
{
    match read_u32(word) {
        Some(window) => Some(Object::Window(window)),
        None => read_command(word).map(Object::Command),
    }
}

/// Appends a mode of a lock.
pub fn push_mode(mode: LockMode, out: &mut Vec<u8>) -> Result<(), AllocError>
    ensures { OnOk result (out.new.items ≡ out.old.items ++ mode_text mode) }
{
    match mode {
        LockMode::Off => out.extend_from_slice(b"off"),
        LockMode::Auto => out.extend_from_slice(b"auto"),
        LockMode::On => out.extend_from_slice(b"on"),
    }
}

/// A mode of a lock.
pub fn read_mode(word: &[u8]) -> Option<LockMode>
    ensures { result ≡ mode_in word.now }
{
    if word == b"off".as_slice() {
        Some(LockMode::Off)
    } else if word == b"auto".as_slice() {
        Some(LockMode::Auto)
    } else if word == b"on".as_slice() {
        Some(LockMode::On)
    } else {
        None
    }
}

/// Appends which preset it is: `?` of windows, `??` of commands.
pub fn push_preset(kind: PresetKind, out: &mut Vec<u8>) -> Result<(), AllocError>
    ensures { OnOk result (out.new.items ≡ out.old.items ++ preset_text kind) }
{
    match kind {
        PresetKind::Windows => out.extend_from_slice(b"?"),
        PresetKind::Commands => out.extend_from_slice(b"??"),
    }
}

/// Which preset it is.
pub fn read_preset(word: &[u8]) -> Option<PresetKind>
    ensures { result ≡ preset_in word.now }
{
    if word == b"?".as_slice() {
        Some(PresetKind::Windows)
    } else if word == b"??".as_slice() {
        Some(PresetKind::Commands)
    } else {
        None
    }
}
