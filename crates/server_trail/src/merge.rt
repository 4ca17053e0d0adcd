//! Lines in the order of their places.

ghost use Rattle.std.specs.Prelude.{◌≡◌, ◌+◌, ◌-◌, ◌^◌, ◌++◌, ◌∷◌, [], ℕ, List, OnOk, OnErr, min, vec_len};
ghost use Rattle.server_trail.specs.Merging.{Placed, HasMerged, IsMerging, early_bytes};

use std::alloc::{AllocError, Global};
use std::collections::BTreeMap;

/// Lines that come in any order, each with its place, and the text that they make in the order of
/// their places, from 0 on.
#[derive(Drop)]
pub struct Merge {
    // The lines of the places below this one have been made ready.
    next: usize,
    // The bytes that are ready and haven't been taken.
    ready: Vec<u8>,
    // The lines of later places.
    early: BTreeMap<usize, Vec<u8>>,
    // How many bytes the early lines have.
    held: usize,
}

impl Merge {
    /// No line has been put down yet.
    pub fn new(alloc: Global) -> Merge
        ensures { HasMerged [] [] result }
    {
        Merge {
            next: 0,
            ready: Vec::new(alloc),
            early: BTreeMap::new(alloc),
            held: 0,
        }
    }

    // Makes ready each early line whose turn has come. There is room for them.
    fn advance(&mut self)
        ensures { (put : List Placed) (taken : List ℕ) → IsMerging put taken self.old
            → HasMerged put taken self.new }
    {
        'early: while let Some(line) = self.early.remove(&self.next) {
            let _ = self.ready.extend_from_slice(&line);
            self.held = self.held.saturating_sub(line.len());
            self.next = self.next.saturating_add(1);
        }
    }

    /// Puts a line down, with its line feed. A second line for a place is dropped. `Err` if memory is
    /// refused or the place is `usize::MAX`; then nothing has changed.
    pub fn put(&mut self, place: usize, line: Vec<u8>) -> Result<(), AllocError>
        ensures ok { (put : List Placed) (taken : List ℕ) → HasMerged put taken self.old
            → OnOk result (HasMerged (put ++ (place, line.items) ∷ []) taken self.new) }
        ensures err { (put : List Placed) (taken : List ℕ) → HasMerged put taken self.old
            → OnErr result (HasMerged put taken self.new) }
    {
        if place == usize::MAX {
            return Err(AllocError);
        }
        if place < self.next || self.early.contains_key(&place) {
            return Ok(());
        }
        let Some(held) = self.held.checked_add(line.len()) else {
            return Err(AllocError);
        };
        self.ready.reserve(held)?;
        self.early.insert(place, line)?;
        self.held = held;
        self.advance();
        Ok(())
    }

    /// Takes the text that is ready. It needs no memory.
    pub fn take(&mut self) -> Vec<u8>
        ensures all { self.new.ready.items ≡ [] }
        ensures text { result.items ≡ self.old.ready.items }
        ensures taken { (put : List Placed) (taken : List ℕ) → HasMerged put taken self.old
            → HasMerged put (taken ++ result.items) self.new }
        ensures next { self.new.next ≡ self.old.next }
    {
        let none = Vec::new(*self.ready.allocator());
        std::mem::replace(&mut self.ready, none)
    }

    /// How many bytes are ready.
    pub fn ready(&self) -> usize
        ensures { result ≡ vec_len self.now.ready }
    {
        self.ready.len()
    }

    /// How many bytes wait, at most `usize::MAX`: the bytes that are ready, and those of the early lines.
    pub fn waiting(&self) -> usize
        ensures { (put : List Placed) (taken : List ℕ) → HasMerged put taken self.now
            → result ≡ min (vec_len self.now.ready + early_bytes self.now) (2 ^ 64 - 1) }
    {
        self.ready.len().saturating_add(self.held)
    }

    /// How many lines have been made ready in all: the lines of the places below this number.
    pub fn next(&self) -> usize
        ensures { result ≡ self.now.next }
    {
        self.next
    }
}
