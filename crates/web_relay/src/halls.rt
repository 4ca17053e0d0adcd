//! Pages that several watchers share: one client of the server for each size.

ghost use Rattle.std.specs.Prelude.{◌≡◌, ◌≢◌, ◌⊎◌, ◌<◌, ◌≤◌, ℕ, [], Some, None, IfSome, IsSomeAnd};
ghost use Rattle.std.specs.String.{string_bytes};
ghost use Rattle.slab.specs.Slab.{SameValues, Updates, get, slab_len};
ghost use Rattle.web_relay.specs.Halls.{AtBoth, AtEach, Chooses, Closes, Enters, HallTurns, HasNone, HasSize};
ghost use Rattle.web_relay.specs.Halls.{IsBetterOf, IsBusyHall, IsStandIn, IsStuck, IsStuckAt, IsTried, Opens, OpensAt};
ghost use Rattle.web_relay.specs.Halls.{Renews, heeds, number_at, opening};
ghost use Rattle.web_relay.specs.Places.{changed_at};

use crate::hall::Hall;
use slab::Slab;
use std::alloc::Global;
use std::net::Net;
use std::time::Duration;
use web_client::SharedClient;
use web_streams::{BridgeContext, BridgeStream, ReadBuffer, WebStream, hall_token};

/// How many pages are shared at most.
const MOST: usize = 8;

/// The number of a hall. A place may have one hall after another.
#[derive(Clone, Copy, PartialEq, Eq)]
pub struct HallNumber {
    pub(crate) place: usize,
    pub(crate) serial: u64,
}

// Sends the client of the hall at this place to the chosen window.
fn choose_at<S: Drop>(halls: &mut Slab<Hall<S>>, place: usize, choice: &str, now: Duration)
    ensures at { AtBoth (Chooses choice.now now) (get halls.old place) (get halls.new place) }
    ensures others { (other : ℕ) → other ≢ place → get halls.new other ≡ get halls.old other }
{
    if let Some(hall) = halls.get_mut(place) {
        hall.choose(choice, now);
    }
}

// Sends the clients of all halls to the chosen window.
fn choose_all<S: Drop>(halls: &mut Slab<Hall<S>>, choice: &str, now: Duration)
    ensures { AtEach (Chooses choice.now now) halls.old halls.new }
{
    'places: for place in 0..halls.capacity() {
        choose_at(halls, place, choice, now);
    }
}

// Reads and writes for the hall at this place.
fn turn_at<S: WebStream + Drop>(halls: &mut Slab<Hall<S>>, place: usize, buffer: &mut ReadBuffer)
    ensures at { AtBoth (HallTurns S.WebStream) (get halls.old place) (get halls.new place) }
    ensures others { (other : ℕ) → other ≢ place → get halls.new other ≡ get halls.old other }
{
    if let Some(hall) = halls.get_mut(place) {
        hall.turn(buffer);
    }
}

// Puts a hall at the next free place, if there is memory.
fn put<S: Drop>(halls: &mut Slab<Hall<S>>, hall: Hall<S>) -> Option<usize>
    ensures none { result ≡ None → SameValues halls.old halls.new }
    ensures some { IfSome result (λ place. (place ≡ halls.old.vacant_key) × (get halls.old place ≡ None)
        × Updates halls.old halls.new place (Some hall)) }
{
    match halls.insert(hall) {
        Ok(place) => Some(place),
        Err(_) => None,
    }
}

// The better place for a page of this size: this one, or the best of those that were looked at.
fn better<S: Drop>(
    best: Option<usize>,
    place: usize,
    hall: &Hall<S>,
    size: (u16, u16),
) -> Option<usize>
    ensures { IsBetterOf size place hall.now best result }
{
    let fits = hall.size.0 <= size.0 && hall.size.1 <= size.1;
    if best.is_none() || fits {
        Some(place)
    } else {
        best
    }
}

/// The pages that watchers share.
#[derive(Drop)]
pub struct Halls<S> {
    alloc: Global,
    /// The keys that choose the window to show, if one is chosen.
    choice: Option<String>,
    pub(crate) list: Slab<Hall<S>>,
    /// The serial of the next hall.
    next: u64,
}

impl<S: Drop> Halls<S> {
    /// No page yet.
    pub fn new(alloc: Global, choice: Option<String>) -> Halls<S>
        ensures list { result.list.slots ≡ [] }
        ensures choice { result.choice ≡ choice }
    {
        Halls {
            alloc,
            choice,
            list: Slab::new(alloc),
            next: 0,
        }
    }

    /// Notes that the connection of the hall at this place has something to read, or has room.
    pub fn mark(&mut self, place: usize)
        ensures { self.new ≡ record self.old { list = changed_at self.old.list place heeds } }
    {
        if let Some(hall) = self.list.get_mut(place) {
            hall.is_ready = true;
        }
    }

    // The number of the hall at this place.
    fn number(&self, place: usize) -> Option<HallNumber>
        ensures { result ≡ number_at self.now.list place }
    {
        match self.list.get(place) {
            Some(hall) => Some(HallNumber {
                place,
                serial: hall.serial,
            }),
            None => None,
        }
    }

    // The place of the hall of this size.
    fn of_size(&self, size: (u16, u16)) -> Option<usize>
        ensures some { IfSome result (λ place. HasSize size (get self.now.list place)) }
        ensures none { result ≡ None → HasNone size self.now.list }
    {
        'halls: for place in 0..self.list.capacity() {
            if let Some(hall) = self.list.get(place) {
                if hall.size == size {
                    return Some(place);
                }
            }
        }
        None
    }

    // The place of a hall whose page isn't larger than this, or else of any.
    fn stand_in(&self, size: (u16, u16)) -> Option<usize>
        ensures some { IfSome result (IsStandIn size self.now.list) }
        ensures none { result ≡ None → (place : ℕ) → get self.now.list place ≡ None }
    {
        let mut best: Option<usize> = None;
        'halls: for place in 0..self.list.capacity() {
            if let Some(hall) = self.list.get(place) {
                best = better(best, place, hall, size);
            }
        }
        best
    }

    // The place of the hall of this size, or a stand-in if all places are taken by others.
    fn find(&self, size: (u16, u16)) -> Option<usize>
        ensures some { IfSome result (λ place. HasSize size (get self.now.list place)
            ⊎ (HasNone size self.now.list × (MOST ≤ slab_len self.now.list) × IsStandIn size self.now.list place)) }
        ensures none { result ≡ None → HasNone size self.now.list × (slab_len self.now.list < MOST) }
    {
        if let Some(place) = self.of_size(size) {
            return Some(place);
        }
        if self.list.len() < MOST {
            return None;
        }
        self.stand_in(size)
    }
}

impl<S: BridgeStream + Drop> Halls<S> {
    // A new hall of this size for this place.
    fn made<R: Net>(
        &mut self,
        rt: &R,
        around: BridgeContext<'_>,
        size: (u16, u16),
        place: usize,
    ) -> Option<Hall<S>>
        ensures same { self.new ≡ record self.old { next = self.new.next } }
        ensures next { self.old.next ≤ self.new.next }
        ensures serial { IfSome result (λ hall. (hall.serial ≡ self.old.next) × (self.old.next < self.new.next)) }
        ensures opens { IfSome result (OpensAt S.reaches (opening around.entry) place size around.entry.now) }
        ensures none { result ≡ None → IsTried S.reaches (opening around.entry) place }
    {
        let watcher = around.site.watcher.as_ref()?;
        let stream = S::reach(rt, around, hall_token(place))?;
        let client = SharedClient::attach(self.alloc, size.0, size.1, watcher).ok()?;
        let serial = self.next;
        self.next = serial.checked_add(1)?;
        Some(Hall {
            serial,
            size,
            client,
            stream,
            is_ready: false,
            audience: 0,
            is_lost: false,
            opened: around.now,
            watched: around.now,
            chosen: None,
        })
    }

    // Opens a hall of this size.
    fn open<R: Net>(&mut self, rt: &R, around: BridgeContext<'_>, size: (u16, u16)) -> Option<usize>
        ensures { Opens S.reaches (opening around.entry) size self.old result self.new }
    {
        let place = self.list.vacant_key();
        let hall = self.made(rt, around, size, place)?;
        put(&mut self.list, hall)
    }

    /// The number of a hall for a page of this size, which is opened if there is none.
    pub fn enter<R: Net>(
        &mut self,
        rt: &R,
        around: BridgeContext<'_>,
        size: (u16, u16),
    ) -> Option<HallNumber>
        ensures { Enters S.reaches (opening around.entry) size self.old result self.new }
    {
        if let Some(place) = self.find(size) {
            return self.number(place);
        }
        match self.open(rt, around, size) {
            Some(place) => self.number(place),
            None => None,
        }
    }

    // The size of the hall at this place, and when it was watched last, if its client is to attach again.
    fn stuck(&self, place: usize, now: Duration) -> Option<((u16, u16), Duration)>
        ensures some { IfSome result (λ stuck. IsSomeAnd (get self.now.list place) (λ hall.
            IsStuck now hall × (stuck.0 ≡ hall.size) × (stuck.1 ≡ hall.watched))) }
        ensures none { result ≡ None → IsStuckAt now (get self.now.list place) → ⊥ }
    {
        match self.list.get(place) {
            Some(hall) if hall.is_stuck(now) => Some((hall.size, hall.watched)),
            _ => None,
        }
    }

    // Attaches the client of this place again, if it sees no window.
    fn renew_at<R: Net>(&mut self, rt: &R, around: BridgeContext<'_>, place: usize)
        ensures renews { Renews S.reaches (opening around.entry) self.old.next self.new.next place
            (get self.old.list place) (get self.new.list place) }
        ensures others { (other : ℕ) → other ≢ place → get self.new.list other ≡ get self.old.list other }
        ensures next { self.old.next ≤ self.new.next }
        ensures same { self.new ≡ record self.old { list = self.new.list; next = self.new.next } }
    {
        let Some((size, watched)) = self.stuck(place, around.now) else {
            return;
        };
        // The old client leaves first: the user may have a bound of clients.
        let _ = self.list.try_remove(place);
        if let Some(mut hall) = self.made(rt, around, size, place) {
            hall.watched = watched;
            let _ = self.list.insert(hall);
        }
    }

    /// Attaches the clients again whose window has closed. They then see the first window that there
    /// is.
    pub fn renew<R: Net>(&mut self, rt: &R, around: BridgeContext<'_>)
        ensures renews { (place : ℕ) → Renews S.reaches (opening around.entry) self.old.next self.new.next place
            (get self.old.list place) (get self.new.list place) }
        ensures same { self.new ≡ record self.old { list = self.new.list; next = self.new.next } }
    {
        'places: for place in 0..self.list.capacity() {
            self.renew_at(rt, around, place);
        }
    }
}

impl<S: Drop> Halls<S> {
    /// Sends their clients to the chosen window.
    pub fn choose(&mut self, now: Duration)
        ensures none { self.old.choice ≡ None → self.new ≡ self.old }
        ensures some { IfSome self.old.choice (λ choice.
            AtEach (Chooses (string_bytes choice) now) self.old.list self.new.list) }
        ensures same { self.new ≡ record self.old { list = self.new.list } }
    {
        let Some(choice) = &self.choice else {
            return;
        };
        choose_all(&mut self.list, choice.as_str(), now);
    }

    /// The place of a hall that may have more to hear.
    pub fn busy(&self) -> Option<usize>
        ensures some { IfSome result (λ place. IsBusyHall (get self.now.list place)) }
        ensures none { result ≡ None → (place : ℕ) → IsBusyHall (get self.now.list place) → ⊥ }
    {
        'halls: for place in 0..self.list.capacity() {
            if let Some(hall) = self.list.get(place) {
                if hall.is_to_hear() {
                    return Some(place);
                }
            }
        }
        None
    }

    // Closes the hall at this place if it is over.
    fn close_at(&mut self, place: usize, now: Duration)
        ensures closes { Closes now (get self.old.list place) (get self.new.list place) }
        ensures others { (other : ℕ) → other ≢ place → get self.new.list other ≡ get self.old.list other }
        ensures same { self.new ≡ record self.old { list = self.new.list } }
    {
        let is_over = match self.list.get_mut(place) {
            Some(hall) => {
                hall.note_audience(now);
                hall.is_over(now)
            }
            None => false,
        };
        if is_over {
            let _ = self.list.try_remove(place);
        }
    }

    /// Closes the halls that ended, and those that nobody has watched for a while.
    pub fn close(&mut self, now: Duration)
        ensures closes { (place : ℕ) → Closes now (get self.old.list place) (get self.new.list place) }
        ensures same { self.new ≡ record self.old { list = self.new.list } }
    {
        'places: for place in 0..self.list.capacity() {
            self.close_at(place, now);
        }
    }
}

impl<S: WebStream + Drop> Halls<S> {
    /// Reads and writes for all halls. Nobody counts as their audience yet.
    pub fn turn(&mut self, buffer: &mut ReadBuffer)
        ensures each { AtEach (HallTurns S.WebStream) self.old.list self.new.list }
        ensures same { self.new ≡ record self.old { list = self.new.list } }
    {
        'places: for place in 0..self.list.capacity() {
            turn_at(&mut self.list, place, buffer);
        }
    }
}
