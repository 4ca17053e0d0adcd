//! Entries in few bytes.

ghost use Rattle.std.specs.Prelude.{◌≡◌, ◌∷◌, ◌++◌, ◌<◌, [], length, slice_get, vec_len, vec_capacity};
ghost use Rattle.std.specs.Prelude.{IfOk, OnOk, Some};
ghost use Rattle.hub_record.specs.EntryLists.{HasOneMore, HasRoom, entry_in};

use crate::growing_trail::NewEntry;
use crate::search::{KEPT, find, first_of, slot_of};
use crate::trail_entry::TrailEntry;
use std::alloc::{AllocError, Global};
use std::marker::Model;

/// A list of entries, the oldest first. It has a code of 4 bytes for each entry, and a stored form
/// for each code. Equal entries share one form, if a search among a few codes finds it.
pub struct EntryList {
    codes: Vec<u32>,
    forms: Vec<TrailEntry>,
    kept: Vec<u32>,
}

impl Drop for EntryList {
    fn drop(self) {
        let EntryList {
            codes: _,
            forms: _,
            kept: _,
        } = self;
    }
}

impl Model for EntryList {
    ghost use Rattle.std.specs.Prelude.{◌<◌, ◌≤◌, length, vec_len, vec_capacity};
    ghost use Rattle.std.specs.List.{AllByRecursion};
    ghost use Rattle.hub_record.specs.EntryLists.{StoredEntries, listed};

    ghost Value = { StoredEntries };

    ghost view = { λ r. record {
      entries = listed r.forms.items r.codes.items;
      most = vec_capacity r.codes;
      forms = vec_len r.forms;
      most_forms = vec_capacity r.forms;
    } };

    ghost invariant = { λ r. AllByRecursion (λ c. c < length r.forms.items) r.codes.items
        × (length r.forms.items ≤ length r.codes.items) };
}

/// The code of the entry's form: that of an equal form, if one is found, or of a new form after the
/// others.
fn store(forms: &mut Vec<TrailEntry>, kept: &mut [u32], entry: NewEntry) -> u32
    requires room { vec_len forms.old < vec_capacity forms.old }
    requires few { vec_len forms.old < 4294967296 }
    ensures code { slice_get forms.new.items result ≡ Some (entry_in entry) }
    ensures more { HasOneMore forms.old.items forms.new.items }
{
    let first = first_of(&entry);
    if let Some(code) = find(forms.as_slice(), kept, first, &entry) {
        return code;
    }
    let code = forms.len() as u32;
    forms.push_reserved(entry.into_entry());
    if let Some(slot) = kept.get_mut(slot_of(first, code)) {
        *slot = code;
    }
    code
}

impl EntryList {
    /// A list without entries. `AllocError` if memory is refused.
    pub fn new(alloc: Global) -> Result<EntryList, AllocError>
        ensures { IfOk result (λ list. list.entries ≡ []) }
    {
        let mut kept = Vec::new(alloc);
        for _slot in 0..KEPT {
            kept.push(0)?;
        }
        Ok(EntryList {
            codes: Vec::new(alloc),
            forms: Vec::new(alloc),
            kept,
        })
    }

    /// The number of entries.
    pub fn len(&self) -> usize
        ensures { result ≡ length self.now.entries }
    {
        self.codes.len()
    }

    /// The number of stored forms.
    pub fn forms(&self) -> usize
        ensures { result ≡ self.now.forms }
    {
        self.forms.len()
    }

    /// Makes room for one more entry. `AllocError` if memory is refused.
    pub fn reserve(&mut self) -> Result<(), AllocError>
        ensures same { self.new.entries ≡ self.old.entries }
        ensures room { OnOk result (HasRoom self.new) }
    {
        self.codes.reserve(1)?;
        self.forms.reserve(1)?;
        Ok(())
    }

    /// Puts an entry after the others, for which there is room.
    pub fn push(&mut self, entry: NewEntry)
        requires room { HasRoom self.old }
        requires few { length self.old.entries < 4294967296 }
        ensures { self.new.entries ≡ self.old.entries ++ entry_in entry ∷ [] }
    {
        let code = store(&mut self.forms, self.kept.as_mut_slice(), entry);
        self.codes.push_reserved(code);
    }

    /// The entry at a place, counted from 0.
    pub fn at(&self, place: usize) -> &TrailEntry
        requires { place < length self.now.entries }
        ensures { slice_get self.now.entries place ≡ Some result.now }
    {
        &self.forms[self.codes[place] as usize]
    }
}
