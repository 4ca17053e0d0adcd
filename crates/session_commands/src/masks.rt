//! The entries that the masks of `aclumask` make.

ghost use Rattle.std.specs.Prelude.{◌≡◌, ◌++◌, OnOk, IfOk, map, option_copied};
ghost use Rattle.acl.specs.Table.{StandsFor};
ghost use Rattle.acl.specs.declared.entries.MaskScope.TheVariants.{User};
ghost use Rattle.session_model.specs.Tables.{Tables};
ghost use Rattle.session_model.specs.Naming.{word_scope, scopes_of};
ghost use Rattle.session_model.specs.Commands.{mask_entries};
ghost use Rattle.session_commands.specs.Asked.{lone_word, names_in, mask_entry, entries_on};

use crate::names::{named, names_of, others};
use acl::{Acl, BitChange, MaskEntry, MaskScope, PresetKind, UserId};
use command_lang::{Mask, Text, Users};
use std::alloc::{AllocError, Global};

/// What the only word before a mask's bits concerns: `?` is the preset for windows, `??` that for
/// commands.
fn word_scope(word: &Text) -> MaskScope
    ensures { result ≡ word_scope word.now }
{
    match word.as_str() {
        "?" => MaskScope::Preset(PresetKind::Windows),
        "??" => MaskScope::Preset(PresetKind::Commands),
        _ => MaskScope::User(named(word)),
    }
}

/// The one word that a mask has for its users, if it has exactly one.
fn lone_word(users: &Option<Users>) -> Option<&Text>
    ensures { option_copied result ≡ lone_word users.now }
{
    match users {
        Some(Users::Listed(words)) => match words.as_slice() {
            [word] => Some(word),
            _ => None,
        },
        _ => None,
    }
}

/// The users of a mask. If it names none, these are all known users but the owner.
fn names_in(
    alloc: Global,
    acl: &Acl,
    users: &Option<Users>,
) -> Result<Vec<Option<UserId>>, AllocError>
    ensures { IfOk result (λ names. (t : Tables) → StandsFor acl.now t.edition t.owner t.acts
        → names.items ≡ names_in t users.now) }
{
    match users {
        Some(users) => names_of(alloc, acl, users),
        None => others(alloc, acl),
    }
}

/// These users, as those that a mask concerns.
fn each_scope(alloc: Global, names: &[Option<UserId>]) -> Result<Vec<MaskScope>, AllocError>
    ensures { IfOk result (λ scopes. scopes.items ≡ map User names.now) }
{
    names
        .iter()
        .map(|name| MaskScope::User(*name))
        .collect(alloc)
}

/// Those that a mask concerns: a preset, or users.
fn scopes_of(alloc: Global, acl: &Acl, users: &Option<Users>) -> Result<Vec<MaskScope>, AllocError>
    ensures { IfOk result (λ scopes. (t : Tables) → StandsFor acl.now t.edition t.owner t.acts
        → scopes.items ≡ scopes_of t users.now) }
{
    if let Some(word) = lone_word(users) {
        return Ok(Vec::from_array(alloc, [word_scope(word)])?);
    }
    let names = names_in(alloc, acl, users)?;
    each_scope(alloc, &names)
}

/// Appends a mask's bits for one of those that it concerns.
fn push_bits(
    scope: MaskScope,
    bits: &[BitChange],
    entries: &mut Vec<MaskEntry>,
) -> Result<(), AllocError>
    ensures { OnOk result (entries.new.items
        ≡ entries.old.items ++ map (mask_entry scope) bits.now) }
{
    for change in bits {
        entries.push(MaskEntry {
            scope,
            bit: change.bit,
            value: change.value,
        })?;
    }
    Ok(())
}

/// Appends a mask's entries, user by user and bit by bit.
fn push_mask(
    scopes: &[MaskScope],
    bits: &[BitChange],
    entries: &mut Vec<MaskEntry>,
) -> Result<(), AllocError>
    ensures { OnOk result (entries.new.items
        ≡ entries.old.items ++ entries_on bits.now scopes.now) }
{
    for scope in scopes {
        push_bits(*scope, bits, entries)?;
    }
    Ok(())
}

/// The entries of all masks.
pub fn entries_of(alloc: Global, acl: &Acl, masks: &[Mask]) -> Result<Vec<MaskEntry>, AllocError>
    ensures { IfOk result (λ entries. (t : Tables) → StandsFor acl.now t.edition t.owner t.acts
        → entries.items ≡ mask_entries t masks.now) }
{
    let mut entries = Vec::new(alloc);
    for mask in masks {
        let scopes = scopes_of(alloc, acl, &mask.users)?;
        push_mask(&scopes, mask.bits.as_slice(), &mut entries)?;
    }
    Ok(entries)
}
