//! The fields of an event, each ended by one blank.

ghost use Rattle.std.specs.Prelude.{◌≡◌, ◌++◌, [], OnOk, decimal, option_copied, option_map};
ghost use Rattle.acl.specs.Names.{name_of};
ghost use Rattle.line_fields.specs.Events.{word_of};
ghost use Rattle.line_fields.specs.Parts.{blank, field};
ghost use Rattle.trail_lines.specs.Events.{text_field, text_in, text_at, title_in, title_of, title_at};
ghost use Rattle.trail_lines.specs.Events.{window_text, window_in, window_at, event_then, event_in, event_at};
ghost use Rattle.trail_lines.specs.Unreadable.{Gives};

use crate::UnreadLine;
use acl::UserId;
use hub::Kept;
use line_fields::parts::{push_name, user_at};
use line_fields::{EventKind, cut, push_escaped, read_u8, u16_at, u32_at, unescape};
use session::{Bytes, push_decimal};
use std::alloc::{AllocError, Global};
use std::str;

/// Appends a number and a blank.
pub fn push_count(number: u64, out: &mut Vec<u8>) -> Result<(), AllocError>
    ensures { OnOk result (out.new.items ≡ out.old.items ++ field blank (decimal number) []) }
{
    push_decimal(number, out)?;
    out.extend_from_slice(b" ")
}

/// Appends a user and a blank.
fn push_user(user: UserId, out: &mut Vec<u8>) -> Result<(), AllocError>
    ensures { OnOk result (out.new.items ≡ out.old.items ++ field blank (name_of user) []) }
{
    push_name(user, out)?;
    out.extend_from_slice(b" ")
}

/// Appends a window's number, or `-` for none, and a blank.
fn push_window(window: Option<u8>, out: &mut Vec<u8>) -> Result<(), AllocError>
    ensures { OnOk result (out.new.items ≡ out.old.items ++ field blank (window_text window) []) }
{
    match window {
        Some(number) => push_count(u64::from(number), out),
        None => out.extend_from_slice(b"- "),
    }
}

/// Appends a text and a blank.
fn push_text(bytes: &[u8], out: &mut Vec<u8>) -> Result<(), AllocError>
    ensures { OnOk result (out.new.items ≡ out.old.items ++ field blank (text_field bytes.now) []) }
{
    out.extend_from_slice(b".")?;
    push_escaped(0x21, bytes, out)?;
    out.extend_from_slice(b" ")
}

/// Appends a size: lines and columns.
fn push_size(rows: u16, columns: u16, out: &mut Vec<u8>) -> Result<(), AllocError>
    ensures { OnOk result (out.new.items
        ≡ out.old.items ++ field blank (decimal rows) (field blank (decimal columns) [])) }
{
    push_count(u64::from(rows), out)?;
    push_count(u64::from(columns), out)
}

/// Appends the word of a kind, and a blank.
fn push_word(kind: EventKind, out: &mut Vec<u8>) -> Result<(), AllocError>
    ensures { OnOk result (out.new.items ≡ out.old.items ++ field blank (word_of kind) []) }
{
    out.extend_from_slice(kind.word())?;
    out.extend_from_slice(b" ")
}

/// Appends the word of a kind, and a serial.
fn push_serial(kind: EventKind, serial: u32, out: &mut Vec<u8>) -> Result<(), AllocError>
    ensures { OnOk result (out.new.items
        ≡ out.old.items ++ field blank (word_of kind) (field blank (decimal serial) [])) }
{
    push_word(kind, out)?;
    push_count(u64::from(serial), out)
}

/// Appends an event's fields.
pub fn push_event(event: &Kept, out: &mut Vec<u8>) -> Result<(), AllocError>
    ensures { OnOk result (out.new.items ≡ out.old.items ++ event_then event.now []) }
{
    match event {
        Kept::Attach {
            user,
            rows,
            columns,
        } => {
            push_word(EventKind::Attach, out)?;
            push_user(*user, out)?;
            push_size(*rows, *columns, out)
        }
        Kept::Detach { client } => push_serial(EventKind::Detach, *client, out),
        Kept::Keys { client } => push_serial(EventKind::Keys, *client, out),
        Kept::Command { user, window, line } => {
            push_word(EventKind::Command, out)?;
            push_user(*user, out)?;
            push_window(*window, out)?;
            push_text(line.as_slice(), out)
        }
        Kept::Open {
            user,
            rows,
            columns,
            keep,
            title,
        } => {
            push_word(EventKind::Open, out)?;
            push_user(*user, out)?;
            push_size(*rows, *columns, out)?;
            push_count(u64::from(*keep), out)?;
            push_text(title.as_slice(), out)
        }
        Kept::Closed { window } => push_serial(EventKind::Closed, *window, out),
    }
}

/// The bytes of a text.
fn read_text(alloc: Global, word: &[u8]) -> Result<Bytes, UnreadLine>
    ensures { Gives (λ text. text) result (text_in word.now) }
{
    let [_, escaped @ ..] = word else {
        return Err(UnreadLine::Malformed);
    };
    let mut text = Vec::new(alloc);
    if !unescape(escaped, &mut text)? {
        return Err(UnreadLine::Malformed);
    }
    Ok(Bytes::from_vec(text))
}

/// A text that a blank ends, and the bytes after the blank.
fn text_at(alloc: Global, bytes: &[u8]) -> Result<(Bytes, &[u8]), UnreadLine>
    ensures { Gives (λ p. (p.0, p.1.now)) result (text_at bytes.now) }
{
    let (word, rest) = cut(bytes, b' ').ok_or(UnreadLine::Malformed)?;
    Ok((read_text(alloc, word)?, rest))
}

/// The title that the bytes are, if they are UTF-8.
fn title_of(bytes: &[u8]) -> Option<&str>
    ensures { option_copied result ≡ title_of bytes.now }
{
    str::from_utf8(bytes).ok()
}

/// The bytes of a title.
fn read_title(alloc: Global, word: &[u8]) -> Result<Bytes, UnreadLine>
    ensures { Gives (λ title. title) result (title_in word.now) }
{
    let text = read_text(alloc, word)?;
    let title = title_of(text.as_slice()).ok_or(UnreadLine::Malformed)?;
    Ok(Bytes::of(alloc, title.as_bytes())?)
}

/// A title that a blank ends, and the bytes after the blank.
fn title_at(alloc: Global, bytes: &[u8]) -> Result<(Bytes, &[u8]), UnreadLine>
    ensures { Gives (λ p. (p.0, p.1.now)) result (title_at bytes.now) }
{
    let (word, rest) = cut(bytes, b' ').ok_or(UnreadLine::Malformed)?;
    Ok((read_title(alloc, word)?, rest))
}

/// The number of a command's window, or `-` for none.
fn read_window(word: &[u8]) -> Option<Option<u8>>
    ensures { result ≡ window_in word.now }
{
    if word == b"-".as_slice() {
        return Some(None);
    }
    Some(Some(read_u8(word)?))
}

/// The number of a command's window that a blank ends, and the bytes after the blank.
fn window_at(bytes: &[u8]) -> Option<(Option<u8>, &[u8])>
    ensures { option_map (λ p. (p.0, p.1.now)) result ≡ window_at bytes.now }
{
    let (word, rest) = cut(bytes, b' ')?;
    Some((read_window(word)?, rest))
}

/// `USER ROWS COLS`
fn attach_at(bytes: &[u8]) -> Option<(Kept, &[u8])>
    ensures { option_map (λ p. (p.0, p.1.now)) result ≡ event_in EventKind.Attach bytes.now }
{
    let (user, rest) = user_at(bytes, b' ')?;
    let (rows, rest) = u16_at(rest, b' ')?;
    let (columns, rest) = u16_at(rest, b' ')?;
    let event = Kept::Attach {
        user,
        rows,
        columns,
    };
    Some((event, rest))
}

/// `CLIENT`
fn detach_at(bytes: &[u8]) -> Option<(Kept, &[u8])>
    ensures { option_map (λ p. (p.0, p.1.now)) result ≡ event_in EventKind.Detach bytes.now }
{
    let (client, rest) = u32_at(bytes, b' ')?;
    Some((Kept::Detach { client }, rest))
}

/// `CLIENT`
fn keys_at(bytes: &[u8]) -> Option<(Kept, &[u8])>
    ensures { option_map (λ p. (p.0, p.1.now)) result ≡ event_in EventKind.Keys bytes.now }
{
    let (client, rest) = u32_at(bytes, b' ')?;
    Some((Kept::Keys { client }, rest))
}

/// `USER WINDOW TEXT`
fn command_at(alloc: Global, bytes: &[u8]) -> Result<(Kept, &[u8]), UnreadLine>
    ensures { Gives (λ p. (p.0, p.1.now)) result (event_in EventKind.Command bytes.now) }
{
    let (user, rest) = user_at(bytes, b' ').ok_or(UnreadLine::Malformed)?;
    let (window, rest) = window_at(rest).ok_or(UnreadLine::Malformed)?;
    let (line, rest) = text_at(alloc, rest)?;
    Ok((Kept::Command { user, window, line }, rest))
}

/// `USER ROWS COLS KEEP TEXT`
fn open_at(alloc: Global, bytes: &[u8]) -> Result<(Kept, &[u8]), UnreadLine>
    ensures { Gives (λ p. (p.0, p.1.now)) result (event_in EventKind.Open bytes.now) }
{
    let (user, rest) = user_at(bytes, b' ').ok_or(UnreadLine::Malformed)?;
    let (rows, rest) = u16_at(rest, b' ').ok_or(UnreadLine::Malformed)?;
    let (columns, rest) = u16_at(rest, b' ').ok_or(UnreadLine::Malformed)?;
    let (keep, rest) = u16_at(rest, b' ').ok_or(UnreadLine::Malformed)?;
    let (title, rest) = title_at(alloc, rest)?;
    let event = Kept::Open {
        user,
        rows,
        columns,
        keep,
        title,
    };
    Ok((event, rest))
}

/// `WINDOW`
fn closed_at(bytes: &[u8]) -> Option<(Kept, &[u8])>
    ensures { option_map (λ p. (p.0, p.1.now)) result ≡ event_in EventKind.Closed bytes.now }
{
    let (window, rest) = u32_at(bytes, b' ')?;
    Some((Kept::Closed { window }, rest))
}

/// What is kept of the event of a kind whose fields follow its word, and the bytes after them.
fn event_by(alloc: Global, kind: EventKind, rest: &[u8]) -> Result<(Kept, &[u8]), UnreadLine>
    ensures { Gives (λ p. (p.0, p.1.now)) result (event_in kind rest.now) }
{
    match kind {
        EventKind::Attach => attach_at(rest).ok_or(UnreadLine::Malformed),
        EventKind::Detach => detach_at(rest).ok_or(UnreadLine::Malformed),
        EventKind::Keys => keys_at(rest).ok_or(UnreadLine::Malformed),
        EventKind::Command => command_at(alloc, rest),
        EventKind::Open => open_at(alloc, rest),
        EventKind::Closed => closed_at(rest).ok_or(UnreadLine::Malformed),
        _ => Err(UnreadLine::Malformed),
    }
}

/// What is kept of an event, and the bytes after its fields.
#[tactic(auto, unfolding(crate::specs::Events::event_at))]
pub fn event_at(alloc: Global, bytes: &[u8]) -> Result<(Kept, &[u8]), UnreadLine>
    ensures { Gives (λ p. (p.0, p.1.now)) result (event_at bytes.now) }
{
    let (word, rest) = cut(bytes, b' ').ok_or(UnreadLine::Malformed)?;
    let kind = EventKind::named(word).ok_or(UnreadLine::Malformed)?;
    event_by(alloc, kind, rest)
}
