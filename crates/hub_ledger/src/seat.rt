//! Seats, and the receipts that they hold.

ghost use Rattle.std.specs.Prelude.{◌≡◌, ◌↔◌, ◌+◌, ◌≤◌, ◌<◌, true, length};
ghost use Rattle.hub_ledger.specs.declared.ledger.TheConstants.{FULL};
ghost use Rattle.hub_ledger.specs.Rising.{AllBelow, AreOf, Rise, before, times};
ghost use Rattle.hub_ledger.specs.Seats.{handed_in, receipts_in, stepped, with_handed};

use crate::waiting::Handed;
use hub_record::{Receipts, TrailEntry};
use std::marker::Model;
use std::sync::ledger::{Book, Ledger as ShareLedger, Share};

/// Whether the places of all receipts are below this one.
pub fn are_below(receipts: &Receipts, place: usize) -> bool
    requires { Rise receipts.now.receipts }
    ensures { (result ≡ true) ↔ AllBelow receipts.now.receipts place }
{
    let count = receipts.len();
    count == 0 || receipts.at(count - 1).place() < place
}

/// Removes the receipts with this place or a higher one.
fn cut(receipts: &mut Receipts, place: usize)
    requires { Rise receipts.old.receipts }
    ensures rise { Rise receipts.new.receipts }
    ensures below { AllBelow receipts.new.receipts place }
    ensures rest { receipts.new.receipts ≡ before place receipts.old.receipts }
{
    'above: while !are_below(receipts, place) {
        receipts.pop();
    }
}

/// Removes the receipts with this place or a higher one. Returns how many of them name the place, 0
/// or 1, and whether these have the event and the reply of the entry.
fn strip(receipts: &mut Receipts, place: usize, entry: &TrailEntry) -> (usize, bool)
    requires rise { Rise receipts.old.receipts }
    requires place { place < 4294967296 }
    ensures rise { Rise receipts.new.receipts }
    ensures rest { receipts.new.receipts ≡ before place receipts.old.receipts }
    ensures times { result.0 ≡ times place receipts.old.receipts }
    ensures once { result.0 ≤ 1 }
    ensures right { (result.1 ≡ true) ↔ AreOf place entry.now receipts.old.receipts }
{
    cut(receipts, place + 1);
    if are_below(receipts, place) {
        return (0, true);
    }
    let is_right = receipts.at(receipts.len() - 1).is_of(entry);
    receipts.pop();
    (1, is_right)
}

/// What an effect that is handed out adds to the amount of a seat's share: more than all receipts.
const HANDED: u64 = 4_294_967_296;

/// Counts effects that are handed out.
fn count_handed<L: ShareLedger>(book: &mut Book<L>, share: &mut Share<L>, effects: usize)
    requires { 0 < share.old.parts }
    ensures parts { share.new.parts ≡ share.old.parts }
    ensures seat { handed_in share.new.amount ≡ handed_in share.old.amount + effects }
    ensures told { receipts_in share.new.amount ≡ receipts_in share.old.amount }
    ensures all { handed_in book.new.total ≡ handed_in book.old.total + effects }
    ensures entries { receipts_in book.new.total ≡ receipts_in book.old.total }
{
    'effects: for _effect in 0..effects {
        book.add(share, HANDED);
    }
}

/// A seat submits events, and holds a receipt of each entry that they wrote.
#[derive(Drop)]
pub struct Seat<L: ShareLedger> {
    pub(crate) number: usize,
    pub(crate) asks: bool,
    pub(crate) told: Receipts,
    pub(crate) share: Share<L>,
    /// How many steps were made for it, modulo 2 ^ 64.
    pub(crate) steps: u64,
    /// How often it took effects, modulo 2 ^ 64.
    pub(crate) takes: u64,
    /// What it was told when it took effects last.
    pub(crate) is_told: bool,
}

impl<L: ShareLedger> Model for Seat<L> {
    ghost use Rattle.std.specs.Prelude.{◌≡◌, ◌<◌, ◌≤◌, length};
    ghost use Rattle.hub_ledger.specs.Seats.{Sitting, Rise, handed_in, receipts_in};
    ghost use Rattle.hub_ledger.specs.declared.ledger.TheConstants.{FULL};

    ghost Value = { Sitting };

    ghost view = { λ s. record {
      number = s.number;
      asks = s.asks;
      receipts = s.told.receipts;
      steps = s.steps;
      takes = s.takes;
      handed = handed_in s.share.amount;
      is_told = s.is_told;
    } };

    ghost invariant = { λ s. (s.number < L.parts) × (s.share.parts ≡ 1)
        × (receipts_in s.share.amount ≡ length s.told.receipts) × Rise s.told.receipts
        × (length s.told.receipts ≤ FULL) };
}

impl<L: ShareLedger> Seat<L> {
    /// The seat's number, counted from 0.
    pub fn number(&self) -> usize
        ensures { result ≡ self.now.number }
    {
        self.number
    }

    /// Counts one more step.
    pub(crate) fn count_step(&mut self)
        ensures { self.new ≡ stepped self.old }
    {
        self.steps = self.steps.wrapping_add(1);
    }

    /// Counts one more take and the effects that it hands out, and notes what is told with them.
    pub(crate) fn hand(&mut self, book: &mut Book<L>, effects: &Handed, is_told: bool)
        ensures seat { self.new ≡ with_handed effects.now is_told self.old }
        ensures all { handed_in book.new.total ≡ handed_in book.old.total + length effects.now }
        ensures entries { receipts_in book.new.total ≡ receipts_in book.old.total }
    {
        count_handed(book, &mut self.share, effects.as_slice().len());
        self.takes = self.takes.wrapping_add(1);
        self.is_told = is_told;
    }

    /// From now on, an answer to this seat has the entry that was written.
    pub fn ask_for_entries(&mut self)
        ensures { self.new ≡ record self.old { asks = true } }
    {
        self.asks = true;
    }

    /// The seat doesn't have more receipts than a trail may have entries.
    pub(crate) fn has_few(&self)
        ensures { length self.now.receipts ≤ FULL }
    {
        let _ = &self.told;
    }

    /// The seat's receipts, the oldest first.
    pub fn receipts(&self) -> &Receipts
        ensures { result.now.receipts ≡ self.now.receipts }
    {
        &self.told
    }

    /// Removes the receipts with this place or a higher one. Returns how many of them name the
    /// place, and whether these have the event and the reply of the entry.
    pub(crate) fn strip(
        &mut self,
        book: &mut Book<L>,
        place: usize,
        entry: &TrailEntry,
    ) -> (usize, bool)
        requires { place < 4294967296 }
        ensures rest { self.new.receipts ≡ before place self.old.receipts }
        ensures handed { self.new.handed ≡ self.old.handed }
        ensures total { book.new.total + length self.old.receipts
            ≡ book.old.total + length self.new.receipts }
        ensures times { result.0 ≡ times place self.old.receipts }
        ensures once { result.0 ≤ 1 }
        ensures right { (result.1 ≡ true) ↔ AreOf place entry.now self.old.receipts }
    {
        let had = self.told.len();
        let found = strip(&mut self.told, place, entry);
        book.sub(&mut self.share, (had - self.told.len()) as u64);
        found
    }
}
