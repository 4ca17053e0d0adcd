//! The places of browsers: who is woken, who goes for another, and whether there is room.

ghost use Rattle.std.specs.Prelude.{◌≡◌, ◌↔◌, ℕ, ◌+◌, ◌<◌, ◌≤◌, ◌^◌, suc, if◌then◌else◌, Some, None, IfSome};
ghost use Rattle.std.specs.Prelude.{IsSome, IsTrue};
ghost use Rattle.slab.specs.Slab.{get, Updates};
ghost use Rattle.web_relay.specs.Places.{changed_at, heeds_browser, heeds_server, IsSilent, IsOver, IsTooMany};
ghost use Rattle.web_relay.specs.Places.{LeavesAs, count_below, holds_at, is_other, is_neighbour, IsOlderOf};
ghost use Rattle.web_relay.specs.Places.{IsOldest, MakesRoom};
ghost use Rattle.web_relay.specs.Halls.{heeds};

use crate::halls::Halls;
use crate::relay::Relay;
use slab::Slab;
use std::time::Duration;
use web_streams::Woken;

/// Notes that a connection has something to read, or has room.
pub fn mark<S: Drop>(woken: Woken, relays: &mut Slab<Relay<S>>, halls: &mut Halls<S>)
    ensures browser { (place : ℕ) → woken ≡ Woken.Browser place
        → (relays.new ≡ changed_at relays.old place heeds_browser) × (halls.new ≡ halls.old) }
    ensures server { (place : ℕ) → woken ≡ Woken.Server place
        → (relays.new ≡ changed_at relays.old place heeds_server) × (halls.new ≡ halls.old) }
    ensures hall { (place : ℕ) → woken ≡ Woken.Hall place → (relays.new ≡ relays.old)
        × (halls.new ≡ record halls.old { list = changed_at halls.old.list place heeds }) }
    ensures listener { (number : ℕ) → woken ≡ Woken.Listener number
        → (relays.new ≡ relays.old) × (halls.new ≡ halls.old) }
{
    match woken {
        Woken::Browser(place) => {
            if let Some(relay) = relays.get_mut(place) {
                relay.browser_ready = true;
            }
        }
        Woken::Server(place) => {
            if let Some(relay) = relays.get_mut(place) {
                relay.server_ready = true;
            }
        }
        Woken::Hall(place) => halls.mark(place),
        Woken::Listener(_) => {}
    }
}

// The oldest of those that were looked at, and of this one if it hasn't said who it is.
fn older<S: Drop>(
    oldest: Option<(usize, Duration)>,
    place: usize,
    relay: &Relay<S>,
) -> Option<(usize, Duration)>
    ensures { IsOlderOf place relay.now oldest result }
{
    let is_older = match oldest {
        Some((_, began)) => relay.began() < began,
        None => true,
    };
    if !relay.has_begun() && is_older {
        Some((place, relay.began()))
    } else {
        oldest
    }
}

/// The place of the oldest browser that hasn't said who it is.
pub fn oldest_silent<S: Drop>(relays: &Slab<Relay<S>>) -> Option<usize>
    ensures some { IfSome result (IsOldest relays.now) }
    ensures none { result ≡ None → (place : ℕ) → IsSilent (get relays.now place) → ⊥ }
{
    let mut oldest: Option<(usize, Duration)> = None;
    'places: for place in 0..relays.capacity() {
        if let Some(relay) = relays.get(place) {
            oldest = older(oldest, place, relay);
        }
    }
    match oldest {
        Some((place, _)) => Some(place),
        None => None,
    }
}

/// Makes room for one who comes: if that many are there, the oldest goes that hasn't said who it is.
pub fn make_room<S: Drop>(relays: &mut Slab<Relay<S>>, most: usize)
    ensures { MakesRoom most relays.old relays.new }
{
    if relays.len() >= most {
        if let Some(place) = oldest_silent(relays) {
            let _ = relays.try_remove(place);
        }
    }
}

/// Lets the browser at this place go if it is over, with its own client. Returns whether it was logged that it was
/// there, and whether it was refused.
pub fn let_go<S: Drop>(relays: &mut Slab<Relay<S>>, place: usize) -> Option<(bool, bool)>
    ensures gone { IfSome result (λ said. LeavesAs said (get relays.old place)) }
    ensures goes { IsOver (get relays.old place) → IsSome result }
    ensures updates { IsSome result → Updates relays.old relays.new place None }
    ensures none { result ≡ None → relays.new ≡ relays.old }
{
    let said = match relays.get(place) {
        Some(relay) if relay.is_over() => (relay.is_told(), relay.is_refused()),
        _ => return None,
    };
    let _ = relays.try_remove(place);
    Some(said)
}

// Whether the open page of another browser than the one at a place has this number.
fn is_other<S: Drop>(relays: &Slab<Relay<S>>, place: usize, number: usize) -> bool
    ensures { result ≡ holds_at (is_other place) number (get relays.now number) }
{
    match relays.get(number) {
        Some(other) => number != place && other.has_page(),
        None => false,
    }
}

// Whether a page of this address, of another browser than the one at a place, has this number.
fn is_neighbour<S: Drop>(
    relays: &Slab<Relay<S>>,
    place: usize,
    address: &[u8],
    number: usize,
) -> bool
    ensures { result ≡ holds_at (is_neighbour place address.now) number (get relays.now number) }
{
    match relays.get(number) {
        Some(other) => number != place && other.shares(address),
        None => false,
    }
}

// One more, if so.
fn one_more(count: usize, is_so: bool) -> usize
    requires { count + 1 < 2 ^ 64 }
    ensures value { result ≡ (if is_so then suc count else count) }
    ensures most { result ≤ count + 1 }
{
    if is_so { count + 1 } else { count }
}

// How many open pages others have.
fn others<S: Drop>(relays: &Slab<Relay<S>>, place: usize) -> usize
    ensures { result ≡ count_below (is_other place) relays.now relays.now.capacity }
{
    let mut count = 0;
    'numbers: for number in 0..relays.capacity() {
        count = one_more(count, is_other(relays, place, number));
    }
    count
}

// How many open pages others have of this address.
fn neighbours<S: Drop>(relays: &Slab<Relay<S>>, place: usize, address: &[u8]) -> usize
    ensures { result ≡ count_below (is_neighbour place address.now) relays.now relays.now.capacity }
{
    let mut count = 0;
    'numbers: for number in 0..relays.capacity() {
        count = one_more(count, is_neighbour(relays, place, address, number));
    }
    count
}

/// Whether the page at this place is one too many: of all, or of its address.
pub fn is_full<S: Drop>(relays: &Slab<Relay<S>>, place: usize, most: usize) -> bool
    ensures { (relay : Relay S) → get relays.now place ≡ Some relay
        → IsTrue result ↔ IsTooMany relays.now place relay most }
{
    let Some(relay) = relays.get(place) else {
        return false;
    };
    let address = relay.visitor.address.as_slice();
    if others(relays, place) >= most {
        return true;
    }
    if address.is_empty() {
        return false;
    }
    if neighbours(relays, place, address) < most.saturating_sub(most / 4) {
        return false;
    }
    true
}
