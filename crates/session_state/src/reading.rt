//! What a step reads of a client's keys.

ghost use Rattle.std.specs.Prelude.{◌≡◌, ℕ, List, IfOk, option_to_list};
ghost use Rattle.std.specs.List.{list_any};
ghost use Rattle.keys.specs.Kept.{StandsFor, item_list};
ghost use Rattle.session_model.specs.Keying.{is_command, typed_bytes};
ghost use Rattle.session_state.specs.Reading.{HasRead};

use keys::{KeyItem, KeyReader, is_bound};
use session_model::Bytes;
use std::alloc::{AllocError, Global};

/// The keys of a step, up to the first one that completes a command or a line.
#[derive(Drop)]
pub struct Reading {
    /// How many keys were read.
    pub taken: usize,
    /// What they type.
    pub typed: Bytes,
    /// The bound command or the line that the last of them completes. The reader holds the line.
    pub order: Option<KeyItem>,
}

/// The byte that a key types, if it types one.
fn typed_byte(item: Option<KeyItem>) -> Option<u8>
    ensures { (line : List ℕ) → option_to_list result ≡ typed_bytes (item_list item line) }
{
    match item {
        Some(KeyItem::Typed(byte)) => Some(byte),
        _ => None,
    }
}

/// Whether a key completes a command or a line.
fn is_order(item: Option<KeyItem>) -> bool
    ensures { (line : List ℕ) → result ≡ list_any is_command (item_list item line) }
{
    match item {
        Some(KeyItem::Command(key)) => is_bound(key),
        Some(KeyItem::Line) => true,
        Some(KeyItem::Typed(_)) | Some(KeyItem::Edit) | None => false,
    }
}

/// Reads keys up to the first one that completes a command or a line. After an `Err` the reader has
/// read some of them.
pub fn read_keys(alloc: Global, reader: &mut KeyReader, keys: &[u8]) -> Result<Reading, AllocError>
    ensures { IfOk result (λ reading. (past : List ℕ) → StandsFor reader.old past
        → HasRead past keys.now reading reader.new) }
{
    let mut typed = Bytes::new(alloc);
    for (i, key) in keys.iter().enumerate() {
        let item = reader.push(*key);
        typed.push_some(typed_byte(item))?;
        if is_order(item) {
            return Ok(Reading {
                taken: i + 1,
                typed,
                order: item,
            });
        }
    }
    Ok(Reading {
        taken: keys.len(),
        typed,
        order: None,
    })
}
