//! Keys that are marked.

ghost use Rattle.std.specs.Prelude.{◌≡◌, ◌↔◌, ◌<◌, ◌≤◌, ℕ, None, IfSome, OnOk, length, max, vec_len};
ghost use Rattle.server_connections.specs.Marked.{HasRoom, IsMarked, IsNext, IsSameBut, NoneFrom, IsFirstBit, HasNoBit};
ghost use Rattle.server_connections.specs.Marked.{HaveSameMarks, with_mark, without_mark};

use std::alloc::{AllocError, Global};
use std::marker::Model;

const BITS: usize = 64;

/// Keys, of which some are marked: a bit for each.
pub struct MarkedKeys {
    words: Vec<u64>,
}

impl Drop for MarkedKeys {
    fn drop(self) {
        let MarkedKeys { words: _ } = self;
    }
}

impl Model for MarkedKeys {
    ghost use Rattle.std.specs.Prelude.{◌≤◌, ◌*◌, ◌^◌, ℕ, List, vec_len};

    ghost Value = { List ℕ };

    ghost view = { λ m. m.words.items };

    // Each bit has a key.
    ghost invariant = { λ m. 64 * vec_len m.words ≤ 2 ^ 64 };
}

// The lowest bit of a word that is set, from this one on.
fn bit_from(word: u64, from: usize) -> Option<usize>
    requires { from < 64 }
    ensures some { IfSome result (IsFirstBit word from) }
    ensures none { result ≡ None → HasNoBit word from }
{
    let rest = word & (u64::MAX << from);
    if rest == 0 {
        return None;
    }
    Some(rest.trailing_zeros() as usize)
}

// Adds words without a mark, until there are this many.
#[tactic(auto, using(crate::proofs::Marking::same_marks, crate::proofs::Marking::one_word_more))]
fn grow(words: &mut Vec<u64>, count: usize) -> Result<(), AllocError>
    ensures room { OnOk result (count ≤ vec_len words.new) }
    ensures longer { vec_len words.old ≤ vec_len words.new }
    ensures short { vec_len words.new ≤ max (vec_len words.old) count }
    ensures same { HaveSameMarks words.old.items words.new.items }
{
    'words: for _ in words.len()..count {
        words.push(0)?;
    }
    Ok(())
}

impl MarkedKeys {
    /// No key is marked, and none has room.
    pub fn new(alloc: Global) -> MarkedKeys
        ensures { (key : ℕ) → ¬ (IsMarked result key) }
    {
        MarkedKeys {
            words: Vec::new(alloc),
        }
    }

    /// Makes room for the mark of a key and of those below it.
    pub fn reserve(&mut self, key: usize) -> Result<(), AllocError>
        ensures room { OnOk result (HasRoom self.new key) }
        ensures longer { length self.old ≤ length self.new }
        ensures same { HaveSameMarks self.old self.new }
    {
        grow(&mut self.words, key / BITS + 1)
    }

    /// Marks a key, if it has room.
    pub fn mark(&mut self, key: usize)
        ensures marked { HasRoom self.old key → IsMarked self.new key }
        ensures others { IsSameBut key self.old self.new }
        ensures words { self.new ≡ with_mark self.old key }
    {
        let place = key / BITS;
        if place >= self.words.len() {
            return;
        }
        self.words[place] |= 1u64 << (key % BITS);
    }

    /// Takes a key's mark away.
    pub fn unmark(&mut self, key: usize)
        ensures unmarked { ¬ (IsMarked self.new key) }
        ensures others { IsSameBut key self.old self.new }
        ensures words { self.new ≡ without_mark self.old key }
    {
        let place = key / BITS;
        if place >= self.words.len() {
            return;
        }
        self.words[place] &= !(1u64 << (key % BITS));
    }

    /// The first marked key from this one on.
    pub fn next(&self, from: usize) -> Option<usize>
        ensures some { IfSome result (IsNext self.now from) }
        ensures none { result ≡ None → NoneFrom self.now from }
    {
        let mut low = from % BITS;
        'words: for place in from / BITS..self.words.len() {
            if let Some(bit) = bit_from(self.words[place], low) {
                return Some(place * BITS + bit);
            }
            low = 0;
        }
        None
    }
}
