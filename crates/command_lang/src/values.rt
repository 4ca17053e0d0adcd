//! What words mean.

ghost use Rattle.std.specs.Prelude.{◌≡◌, ◌==◌, ◌||◌, nat_eq, true, IfOk};
ghost use Rattle.std.specs.List.{list_all, list_any};
ghost use Rattle.command_lang.specs.Values as mean;
ghost use Rattle.command_lang.specs.MaskFaults as judging;

use crate::command::{BitList, Coding, Leader, Mask, Users};
use crate::fault::FaultKind;
use acl::{Bit, BitChange, LockMode};
use std::alloc::{AllocError, Global};
use strings::{Text, Texts};

/// Whether the byte is a decimal digit.
fn is_digit(c: u8) -> bool
    ensures { result ≡ mean.is_digit c }
{
    b'0' <= c && c <= b'9'
}

/// The number that the digits spell; `None` unless there are 1 to 4 of them and the number is at
/// most the limit.
pub fn number(text: &[u8], limit: u16) -> Option<u16>
    ensures { result ≡ mean.number_in limit text.now }
{
    if text.is_empty() || text.len() > 4 {
        return None;
    }
    let mut n: u16 = 0;
    for c in text {
        if !is_digit(*c) {
            return None;
        }
        n = n * 10 + (*c - b'0') as u16;
    }
    if n <= limit { Some(n) } else { None }
}

/// The mode that `off`, `auto` or `on` means; `None` for another text.
pub fn lock_mode(text: &str) -> Option<LockMode>
    ensures { result ≡ mean.lock_mode_in text.now }
{
    if text == "off" {
        Some(LockMode::Off)
    } else if text == "auto" {
        Some(LockMode::Auto)
    } else if text == "on" {
        Some(LockMode::On)
    } else {
        None
    }
}

/// `on` is true, `off` is false; `None` for another text.
pub fn switch(text: &str) -> Option<bool>
    ensures { result ≡ mean.switch_in text.now }
{
    if text == "on" {
        Some(true)
    } else if text == "off" {
        Some(false)
    } else {
        None
    }
}

/// The coding that `utf8` or `ecma35` means; `None` for another text.
pub fn coding(text: &str) -> Option<Coding>
    ensures { result ≡ mean.coding_in text.now }
{
    if text == "utf8" {
        Some(Coding::Utf8)
    } else if text == "ecma35" {
        Some(Coding::Ecma35)
    } else {
        None
    }
}

/// Whether the word is `-v`.
pub fn is_vertical(text: &str) -> bool
    ensures { result ≡ mean.is_vertical text.now }
{
    text == "-v"
}

/// Whether one of the items between commas is empty.
pub fn has_empty_item(text: &str) -> bool
    ensures { result ≡ mean.has_empty_item text.now }
{
    text.split(',').any(|item| item.is_empty())
}

/// The items between commas. `AllocError` if memory is refused.
pub fn items(alloc: Global, text: &str) -> Result<Texts, AllocError>
    ensures { IfOk result (λ l. l ≡ mean.items_of text.now) }
{
    let mut items = Texts::new(alloc);
    for item in text.split(',') {
        items.push(Text::of(alloc, item)?)?;
    }
    Ok(items)
}

/// Whether each byte is `#` or `?`.
fn has_wide_bytes(item: &[u8]) -> bool
    ensures { result ≡ list_all (λ b. b == 0x23 || b == 0x3F) item.now }
{
    item.iter().all(|b| *b == b'#' || *b == b'?')
}

/// Whether an item of a list is made of `#` (all windows) and `?` (all commands), and isn't empty.
pub fn is_wide(item: &str) -> bool
    ensures { result ≡ mean.is_wide item.now }
{
    !item.is_empty() && has_wide_bytes(item.as_bytes())
}

/// Whether the text has the byte.
pub fn has_byte(text: &str, byte: u8) -> bool
    ensures { result ≡ list_any (nat_eq byte) text.now }
{
    text.as_bytes().contains(&byte)
}

/// The users that `*` or a list means. `AllocError` if memory is refused.
pub fn users(alloc: Global, text: &str) -> Result<Users, AllocError>
    ensures { IfOk result (λ u. u ≡ mean.users_of text.now) }
{
    if text == "*" {
        Ok(Users::All)
    } else {
        Ok(Users::Listed(items(alloc, text)?))
    }
}

/// The leader that `none` or a name means. `AllocError` if memory is refused.
pub fn leader(alloc: Global, text: &str) -> Result<Leader, AllocError>
    ensures { IfOk result (λ l. l ≡ mean.leader_of text.now) }
{
    if text == "none" {
        Ok(Leader::Nobody)
    } else {
        Ok(Leader::Named(Text::of(alloc, text)?))
    }
}

/// Whether the byte is `+` or `-`.
fn is_sign(c: u8) -> bool
    ensures { result ≡ mean.is_sign c }
{
    c == b'+' || c == b'-'
}

/// The bit that a letter stands for; `None` for another byte.
fn bit_of(c: u8) -> Option<Bit>
    ensures { result ≡ mean.bit_of c }
{
    match c {
        b'r' => Some(Bit::Read),
        b'w' => Some(Bit::Write),
        b'x' => Some(Bit::Execute),
        _ => None,
    }
}

/// Whether the byte after a sign is a letter, and a byte after a letter belongs to groups.
fn goes_on(text: &[u8]) -> bool
    ensures { result ≡ mean.goes_on true text.now }
{
    let mut wanting = true;
    for c in text {
        if bit_of(*c).is_some() {
            wanting = false;
        } else if is_sign(*c) && !wanting {
            wanting = true;
        } else {
            return false;
        }
    }
    !wanting
}

/// Whether the text is groups, each of a sign and one or more letters.
pub fn is_bits(text: &[u8]) -> bool
    ensures { result ≡ mean.is_bits text.now }
{
    match text {
        [] => false,
        [first, rest @ ..] => is_sign(*first) && goes_on(rest),
    }
}

/// The bits that groups of a sign and letters give and take, in order. `AllocError` if memory is
/// refused.
pub fn bits(alloc: Global, text: &[u8]) -> Result<BitList, AllocError>
    ensures { IfOk result (λ l. l ≡ mean.bits_of text.now) }
{
    let mut changes = BitList::new(alloc);
    let mut value = true;
    for c in text {
        if let Some(bit) = bit_of(*c) {
            changes.push(BitChange { bit, value })?;
        } else {
            value = *c == b'+';
        }
    }
    Ok(changes)
}

/// The index of the first sign; the text's length if there is none.
fn first_sign(text: &[u8]) -> usize
    ensures { result ≡ mean.sign_place text.now }
{
    text.iter().position(|c| is_sign(*c)).unwrap_or(text.len())
}

/// Why a word isn't a mask, which is optional users followed by bits; `None` if it is one.
pub fn mask_fault(text: &str) -> Option<FaultKind>
    ensures { result ≡ judging.mask_fault text.now }
{
    let (users, bits) = text.split_at(first_sign(text.as_bytes()));
    if !is_bits(bits.as_bytes()) {
        Some(FaultKind::BadBits)
    } else if !users.is_empty() && has_empty_item(users) {
        Some(FaultKind::BadWord)
    } else {
        None
    }
}

/// The mask that a word spells: optional users, followed by bits. `AllocError` if memory is
/// refused.
pub fn mask(alloc: Global, text: &str) -> Result<Mask, AllocError>
    ensures { IfOk result (λ m. m ≡ mean.mask_of text.now) }
{
    let (front, behind) = text.split_at(first_sign(text.as_bytes()));
    let users = if front.is_empty() {
        None
    } else {
        Some(users(alloc, front)?)
    };
    let bits = bits(alloc, behind.as_bytes())?;
    Ok(Mask { users, bits })
}
