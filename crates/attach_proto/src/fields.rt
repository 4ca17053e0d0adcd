//! The fields of a payload, read and written.

ghost use Rattle.std.specs.Prelude.{◌≡◌, ◌++◌, ◌<◌, length, OnOk, IfSome, true, false};
ghost use Rattle.attach_proto.specs.Texts.{Gives, IsText, IsToken, text_of};
ghost use Rattle.attach_proto.specs.Fields.{one_at, two_at, split_at, window_at, why_at, token_at, name_at, end_of};
ghost use Rattle.attach_proto.specs.Fields.{some_of, window_of, two, named, window_byte};

use crate::fault::Unread;
use crate::token::Token;
use crate::why::Why;
use std::alloc::{AllocError, Global};
use strings::{Bytes, Text};

/// A byte, and the bytes after it.
pub fn one_at(bytes: &[u8]) -> Result<(u8, &[u8]), Unread>
    ensures { Gives (λ x. (x.0, x.1.now)) result (one_at bytes.now) }
{
    match bytes {
        [] => Err(Unread::Payload),
        [n, rest @ ..] => Ok((*n, rest)),
    }
}

/// A number of two bytes, the high one first, and the bytes after it.
pub fn two_at(bytes: &[u8]) -> Result<(u16, &[u8]), Unread>
    ensures { Gives (λ x. (x.0, x.1.now)) result (two_at bytes.now) }
{
    match bytes {
        [high, low, rest @ ..] => Ok((256 * *high as u16 + *low as u16, rest)),
        _ => Err(Unread::Payload),
    }
}

fn split_at(bytes: &[u8], n: usize) -> Result<(&[u8], &[u8]), Unread>
    ensures { Gives (λ x. (x.0.now, x.1.now)) result (split_at n bytes.now) }
{
    if bytes.len() < n {
        return Err(Unread::Payload);
    }
    Ok(bytes.split_at(n))
}

fn window_of(byte: u8) -> Option<u8>
    ensures { result ≡ window_of byte }
{
    if byte == 0xFF { None } else { Some(byte) }
}

/// The number of a window or none, and the bytes after it.
#[tactic(auto, unfolding(crate::specs::Fields::window_at))]
pub fn window_at(bytes: &[u8]) -> Result<(Option<u8>, &[u8]), Unread>
    ensures { Gives (λ x. (x.0, x.1.now)) result (window_at bytes.now) }
{
    let (byte, rest) = one_at(bytes)?;
    Ok((window_of(byte), rest))
}

/// Why a peer goes, and the bytes after it.
#[tactic(auto, unfolding(crate::specs::Fields::why_at))]
pub fn why_at(bytes: &[u8]) -> Result<(Why, &[u8]), Unread>
    ensures { Gives (λ x. (x.0, x.1.now)) result (why_at bytes.now) }
{
    let (number, rest) = one_at(bytes)?;
    match Why::of_number(number) {
        Some(why) => Ok((why, rest)),
        None => Err(Unread::Payload),
    }
}

/// A token, and the bytes after it.
#[tactic(auto, unfolding(crate::specs::Fields::token_at))]
pub fn token_at(bytes: &[u8]) -> Result<(Token, &[u8]), Unread>
    ensures { Gives (λ x. (x.0, x.1.now)) result (token_at bytes.now) }
{
    let (digits, rest) = split_at(bytes, 64)?;
    match Token::read(digits) {
        Some(token) => Ok((token, rest)),
        None => Err(Unread::Payload),
    }
}

/// The text that these bytes are, if they are UTF-8.
pub fn text_of(alloc: Global, bytes: &[u8]) -> Result<Text, Unread>
    ensures { Gives (λ t. t) result (text_of bytes.now) }
{
    match str::from_utf8(bytes) {
        Ok(text) => Ok(Text::of(alloc, text)?),
        Err(_) => Err(Unread::Payload),
    }
}

/// A text with its length before it, and the bytes after it.
#[tactic(auto, unfolding(crate::specs::Fields::name_at))]
pub fn name_at(alloc: Global, bytes: &[u8]) -> Result<(Text, &[u8]), Unread>
    ensures { Gives (λ x. (x.0, x.1.now)) result (name_at bytes.now) }
{
    let (len, rest) = one_at(bytes)?;
    let (name, rest) = split_at(rest, len as usize)?;
    let name = text_of(alloc, name)?;
    Ok((name, rest))
}

/// Whether the payload ends here.
pub fn end_of(bytes: &[u8]) -> Result<(), Unread>
    ensures { Gives (λ _. tt) result (end_of bytes.now) }
{
    if !bytes.is_empty() {
        return Err(Unread::Payload);
    }
    Ok(())
}

/// These bytes, if there is one.
pub fn some_of(alloc: Global, bytes: &[u8]) -> Result<Bytes, Unread>
    ensures { Gives (λ b. b) result (some_of bytes.now) }
{
    if bytes.is_empty() {
        return Err(Unread::Payload);
    }
    Ok(Bytes::of(alloc, bytes)?)
}

/// Always true. A caller learns by it that a token is 64 digits.
pub fn is_token(token: &Token) -> bool
    ensures { (result ≡ true) × IsToken token.now }
{
    let _digits = token.as_slice();
    true
}

/// Always true. A caller learns by it that a text is UTF-8.
pub fn is_text(text: &Text) -> bool
    ensures { (result ≡ true) × IsText text.now }
{
    let _text = text.as_str();
    true
}

/// Whether a byte can say a name's length.
pub fn is_short(name: &Text) -> bool
    ensures yes { result ≡ true → length name.now < 256 }
    ensures otherwise { result ≡ false → length name.now < 256 → ⊥ }
{
    name.as_str().len() < 256
}

/// Whether a byte can say the number of a window, or that there is none.
pub fn is_window(window: Option<u8>) -> bool
    ensures yes { result ≡ true → IfSome window (λ n. n < 255) }
    ensures otherwise { result ≡ false → IfSome window (λ n. n < 255) → ⊥ }
{
    match window {
        None => true,
        Some(n) => n < 255,
    }
}

/// Whether there is a byte.
pub fn is_some(bytes: &Bytes) -> bool
    ensures yes { result ≡ true → 0 < length bytes.now }
    ensures otherwise { result ≡ false → 0 < length bytes.now → ⊥ }
{
    !bytes.as_slice().is_empty()
}

/// Appends a number as two bytes, the high one first.
pub fn put_two(out: &mut Vec<u8>, n: u16) -> Result<(), AllocError>
    ensures { OnOk result (out.new.items ≡ out.old.items ++ two n) }
{
    out.extend_from_slice(&[(n / 256) as u8, (n % 256) as u8])
}

/// Appends a terminal's lines and columns.
pub fn put_size(out: &mut Vec<u8>, rows: u16, columns: u16) -> Result<(), AllocError>
    ensures { OnOk result (out.new.items ≡ out.old.items ++ (two rows ++ two columns)) }
{
    put_two(out, rows)?;
    put_two(out, columns)?;
    Ok(())
}

/// Appends a token's digits.
pub fn put_token(out: &mut Vec<u8>, token: &Token) -> Result<(), AllocError>
    ensures { OnOk result (out.new.items ≡ out.old.items ++ token.now) }
{
    out.extend_from_slice(token.as_slice())
}

/// Appends a text.
pub fn put_text(out: &mut Vec<u8>, text: &Text) -> Result<(), AllocError>
    ensures { OnOk result (out.new.items ≡ out.old.items ++ text.now) }
{
    out.extend_from_slice(text.as_str().as_bytes())
}

/// Appends bytes.
pub fn put_bytes(out: &mut Vec<u8>, bytes: &Bytes) -> Result<(), AllocError>
    ensures { OnOk result (out.new.items ≡ out.old.items ++ bytes.now) }
{
    out.extend_from_slice(bytes.as_slice())
}

/// Appends a text with its length before it.
pub fn put_name(out: &mut Vec<u8>, name: &Text) -> Result<(), AllocError>
    requires { length name.now < 256 }
    ensures { OnOk result (out.new.items ≡ out.old.items ++ named name.now) }
{
    out.push(name.as_str().len() as u8)?;
    put_text(out, name)?;
    Ok(())
}

/// The byte of a window's number, or of none.
pub fn window_byte(window: Option<u8>) -> u8
    ensures { result ≡ window_byte window }
{
    match window {
        None => 0xFF,
        Some(n) => n,
    }
}
