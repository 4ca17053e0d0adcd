//! Keys and the commands and bytes that they complete, from the keys' table.

use crate::lines::is_command;
use KeyItem::{Command, Edit, Line, Typed};
use keys::{KeyItem, KeyReader, bound_to, is_bound};
use std::alloc::{AllocError, Global};

/// Keys, the items that they complete, and the lines of the prompt that they end.
type KeyRow = (&'static [u8], &'static [KeyItem], &'static [u8]);

/// Rows of keys after the command key, and of the prompt.
static ROWS: [KeyRow; 7] = [
    (b"a\x01nb", &[Typed(b'a'), Command(b'n'), Typed(b'b')], b""),
    (
        b"\x01\x01\x01 \x019",
        &[Command(1), Command(b' '), Command(b'9')],
        b"",
    ),
    (b"\x01a\x01zz", &[Typed(1), Command(b'z'), Typed(b'z')], b""),
    (
        b"\x01:wall\r\n",
        &[Edit, Edit, Edit, Edit, Edit, Line, Typed(b'\n')],
        b"wall",
    ),
    (
        b"\x01:\n\x01:x\x1Bx",
        &[Edit, Line, Edit, Edit, Edit, Typed(b'x')],
        b"",
    ),
    (
        b"\x01:a\xE6\xBC\xA2\x08\x7F\x08b\n",
        &[Edit, Edit, Edit, Edit, Edit, Edit, Edit, Edit, Edit, Line],
        b"b",
    ),
    (
        b"\x01:\x01n\x1A\x03\x01:\x07",
        &[Edit, Edit, Edit, Edit, Edit, Edit, Edit],
        b"",
    ),
];

/// Whether a row's keys complete exactly its items, with its lines.
fn are_completed(row: &KeyRow) -> bool {
    let (keys, items, line) = *row;
    let mut reader = KeyReader::new();
    let mut count = 0usize;
    for key in keys {
        if let Some(item) = reader.push(*key) {
            if items.get(count) != Some(&item) || (item == Line && reader.line() != line) {
                return false;
            }
            count = count.saturating_add(1);
        }
    }
    count == items.len()
}

fn first_wrong() -> Option<usize> {
    ROWS.iter().position(|row| !are_completed(row))
}

#[test]
fn keys_complete_their_items(rt: HostRuntime) {
    assert_eq!(rt; first_wrong(), None);
}

/// Bound keys, and their commands as they are printed, `=`, and the commands' needs.
static COMMANDS: [(u8, &str); 16] = [
    (b'n', "next= client"),
    (b' ', "next= client"),
    (b'p', "prev= client"),
    (b'd', "detach= client"),
    (b'k', "kill= window"),
    (b'S', "split= client"),
    (b'|', "split -v= client"),
    (b'\t', "focus= client"),
    (b'X', "remove= client"),
    (b'Q', "only= client"),
    (b'w', "windows="),
    (b'*', "displays="),
    (b'0', "select 0= client"),
    (b'7', "select 7= client"),
    (b'9', "select 9= client"),
    (1, "other= client"),
];

fn gives(alloc: Global, key: u8, want: &str) -> Result<bool, AllocError> {
    match bound_to(alloc, key)? {
        Some(command) => is_command(alloc, command, want),
        None => Ok(false),
    }
}

/// Whether each bound key gives its command. Asks again if memory is refused.
fn give_commands(alloc: Global) -> bool {
    for (key, want) in &COMMANDS {
        let is_so = match gives(alloc, *key, want) {
            Ok(is_so) => is_so,
            Err(_) => gives(alloc, *key, want) == Ok(true),
        };
        if !is_so || !is_bound(*key) {
            return false;
        }
    }
    true
}

#[test]
fn bound_keys_give_commands_though_refused_once(rt: HostRuntime) {
    assert!(rt; give_commands(rt.alloc()));
}

/// How many keys are bound; `None` if one of them has no command, or another key has one.
fn count_bound(alloc: Global) -> Option<usize> {
    let mut count = 0usize;
    for key in 0..=255u8 {
        if is_bound(key) == matches!(bound_to(alloc, key), Ok(None)) {
            return None;
        }
        if is_bound(key) {
            count = count.saturating_add(1);
        }
    }
    Some(count)
}

#[test]
fn no_other_key_is_bound(rt: HostRuntime) {
    assert_eq!(rt; count_bound(rt.alloc()), Some(23));
}
