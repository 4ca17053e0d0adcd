//! Compares the receipts of seats with the trail.

ghost use Rattle.std.specs.Prelude.{◌≡◌, ◌↔◌, ◌+◌, ◌*◌, ◌^◌, ◌<◌, ◌≤◌, true, length};
ghost use Rattle.hub_ledger.specs.Closing.{IsFirstWrong, IsTold, before, handed_of, receipts_of};
ghost use Rattle.hub_ledger.specs.declared.ledger.TheConstants.{FULL};

use crate::seat::Seat;
use hub_record::{EntryList, TrailEntry};
use std::sync::ledger::{Book, Ledger as ShareLedger};

/// Removes the receipts with this place or a higher one from all seats. Returns whether exactly one
/// of them names the place, and has the event and the reply of the entry.
fn strip_all<L: ShareLedger>(
    book: &mut Book<L>,
    seats: &mut [Seat<L>],
    place: usize,
    entry: &TrailEntry,
) -> bool
    requires { place < 4294967296 }
    ensures rest { receipts_of seats.new ≡ before place (receipts_of seats.old) }
    ensures handed { handed_of seats.new ≡ handed_of seats.old }
    ensures total { book.new.total + length (receipts_of seats.old)
        ≡ book.old.total + length (receipts_of seats.new) }
    ensures told { (result ≡ true) ↔ IsTold place entry.now (receipts_of seats.old) }
{
    let mut named = 0;
    let mut right = true;
    'seats: for i in 0..seats.len() {
        let seat = &mut seats[i];
        let (times, is_right) = seat.strip(book, place, entry);
        named += times;
        right = right && is_right;
    }
    named == 1 && right
}

/// The lowest place for which the receipts of these seats aren't exactly one, with the event and
/// the reply of the trail's entry there; `None` if there is none. The receipts are removed.
pub fn first_wrong<L: ShareLedger>(
    book: &mut Book<L>,
    seats: &mut [Seat<L>],
    entries: &EntryList,
) -> Option<usize>
    requires { length entries.now.entries ≤ FULL }
    ensures wrong { IsFirstWrong entries.now.entries (receipts_of seats.old) result }
    ensures handed { handed_of seats.new ≡ handed_of seats.old }
    ensures total { book.new.total + length (receipts_of seats.old)
        ≡ book.old.total + length (receipts_of seats.new) }
{
    let mut wrong = None;
    let mut place = entries.len();
    'places: while place > 0 {
        place -= 1;
        if !strip_all(book, seats, place, entries.at(place)) {
            wrong = Some(place);
        }
    }
    wrong
}

/// No seat has more receipts than a trail may have entries.
pub fn have_few<L: ShareLedger>(seats: &[Seat<L>])
    ensures { length (receipts_of seats.now) ≤ length seats.now * FULL }
{
    'seats: for i in 0..seats.len() {
        seats[i].has_few();
    }
}

/// Merges the shares of all seats; then the book's total counts their receipts, and the effects that
/// they were handed.
pub fn count<L: ShareLedger>(book: &mut Book<L>, seats: Vec<Seat<L>>)
    requires { 0 < L.parts }
    ensures { length seats.items ≡ L.parts → book.old.total
        ≡ length (receipts_of seats.items) + handed_of seats.items * 2 ^ 32 }
{
    let mut rest = seats;
    let Some(first) = rest.pop() else {
        return;
    };
    let Seat { mut share, .. } = first;
    'merging: while let Some(seat) = rest.pop() {
        let Seat { share: other, .. } = seat;
        share.merge(other);
    }
    book.audit(&mut share);
}
