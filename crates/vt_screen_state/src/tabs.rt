//! Tab stops.

ghost use Rattle.std.specs.Prelude.{◌≡◌, ◌<◌, ◌≤◌, true, false, length, replicate, slice_set};
ghost use Rattle.terminal_model.specs.Screen.{starting_tabs};
ghost use Rattle.terminal_model.specs.Motion.{next_stop};
ghost use Rattle.vt_screen_state.specs.Stops.{AreNext};

use std::marker::Model;
use terminal_model::MAX_COLUMNS;

/// The tab stops of a page: for each column, counted from 0, whether it has one (ECMA-48, 8.3.62, HTS; 8.3.154, TBC).
#[derive(Drop)]
pub struct Tabs {
    stops: [bool; MAX_COLUMNS],
    /// For each column, where HT goes from there.
    next: [u16; MAX_COLUMNS],
    columns: usize,
}

impl Model for Tabs {
    ghost use Rattle.std.specs.Prelude.{◌≤◌, Bool, List, take};
    ghost use Rattle.vt_screen_state.specs.Stops.{AreNext};

    ghost Value = { List Bool };

    ghost view = { λ tabs. take tabs.columns tabs.stops };

    ghost invariant = { λ tabs. record {
      few : tabs.columns ≤ 300;
      next : AreNext (take tabs.columns tabs.stops) tabs.next;
    } };
}

impl Tabs {
    /// The stops at the start: one in every eighth column, except the first.
    pub fn new(columns: usize) -> Tabs
        requires { columns ≤ 300 }
        ensures { result ≡ starting_tabs columns }
    {
        let mut stops = [false; MAX_COLUMNS];
        start_stops(&mut stops[0..columns]);
        let next = next_stops(&stops[0..columns]);
        Tabs {
            stops,
            next,
            columns,
        }
    }

    /// Resets the stops: one in every eighth column, except the first.
    pub fn start(&mut self)
        ensures { self.new ≡ starting_tabs (length self.old) }
    {
        *self = Tabs::new(self.columns);
    }

    /// For each column whether it has a stop.
    pub fn stops(&self) -> &[bool]
        ensures { result.now ≡ self.now }
    {
        &self.stops[0..self.columns]
    }

    /// HTS: sets a stop in a column.
    pub fn set(&mut self, column: usize)
        requires { column < length self.old }
        ensures { self.new ≡ slice_set self.old column true }
    {
        self.stops[column] = true;
        self.next = next_stops(&self.stops[0..self.columns]);
    }

    /// TBC 0: removes the stop in a column.
    pub fn clear(&mut self, column: usize)
        requires { column < length self.old }
        ensures { self.new ≡ slice_set self.old column false }
    {
        self.stops[column] = false;
        self.next = next_stops(&self.stops[0..self.columns]);
    }

    /// TBC 3: removes all stops.
    pub fn clear_all(&mut self)
        ensures { self.new ≡ replicate (length self.old) false }
    {
        self.stops = [false; MAX_COLUMNS];
        self.next = next_stops(&self.stops[0..self.columns]);
    }

    /// HT (ECMA-48, 8.3.60): the next stop after a column, or the last column if there is none.
    pub fn next(&self, column: usize) -> usize
        requires { column < length self.now }
        ensures { result ≡ next_stop self.now (length self.now) column }
    {
        // (borrowed first: the type's invariant, which bounds the index, is known only from then on)
        let next = &self.next;
        usize::from(next[column])
    }
}

/// Sets a stop in every eighth column, except the first, and removes the others.
fn start_stops(stops: &mut [bool])
    ensures { stops.new ≡ starting_tabs (length stops.old) }
{
    for column in 0..stops.len() {
        stops[column] = column != 0 && column % 8 == 0;
    }
}

/// For each column the next stop after it, or the last column if there is none.
fn next_stops(stops: &[bool]) -> [u16; MAX_COLUMNS]
    requires { length stops.now ≤ 300 }
    ensures { AreNext stops.now result }
{
    let mut next = [0; MAX_COLUMNS];
    let mut stop = stops.len().saturating_sub(1);
    for column in (0..stops.len()).rev() {
        next[column] = stop as u16;
        if stops[column] {
            stop = column;
        }
    }
    next
}
