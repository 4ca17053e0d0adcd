//! The layout of a client's page: what its regions show, and why it isn't changed.

ghost use Rattle.std.specs.Prelude.{◌≡◌, ◌+◌, ◌<◌, ◌≤◌, ◌↔◌, true, length, map, slice_get, Some, OnOk, OnErr, IfOk};
ghost use Rattle.std.specs.Prelude.{IfErr, IsOk};
ghost use Rattle.regions.specs.Shapes.{region};
ghost use Rattle.regions.specs.Pages.{has_room, KeepsRoom, IsRects, RectsTile, rects_error};
ghost use Rattle.regions.specs.Layouts.{one_region, put_in_focus, emptied, next_focus, kept_alone, resized, IsSplit};
ghost use Rattle.regions.specs.Layouts.{split_error, remove_focused};
ghost use Rattle.regions.specs.Faults.{number};
ghost use Rattle.regions.specs.declared.layout.RegionFault.TheVariants.{NoMemory};

use crate::node::{Node, Way};
use crate::rect::{Rect, Rects};
use std::alloc::{AllocError, AllocFailed, Global};
use std::marker::Model;

/// What a region shows: a window by its serial number, or nothing; and by how many lines its page
/// is moved back.
#[derive(Clone, Copy, Debug, PartialEq, Eq)]
pub struct Shown {
    pub window: Option<u32>,
    pub back: u16,
}

impl Shown {
    ghost use Rattle.regions.specs.Layouts.{emptied};

    /// An empty region.
    pub const EMPTY: Shown = Shown {
        window: None,
        back: 0,
    };

    /// An empty region if this one shows the window, else this one.
    pub(crate) fn without_window(self, serial: u32) -> Shown
        ensures { result ≡ emptied serial self }
    {
        if self.window == Some(serial) {
            Shown {
                window: None,
                ..self
            }
        } else {
            self
        }
    }
}

/// Why a call on a layout is refused.
#[derive(Clone, Copy, Debug, PartialEq, Eq)]
pub enum RegionFault {
    TooSmall,
    TooMany,
    LastRegion,
    NoMemory,
}

impl RegionFault {
    /// The fault's number: 1 TooSmall, 2 TooMany, 3 LastRegion, 4 NoMemory.
    pub fn number(self) -> u8
        ensures { result ≡ number self }
    {
        match self {
            RegionFault::TooSmall => 1,
            RegionFault::TooMany => 2,
            RegionFault::LastRegion => 3,
            RegionFault::NoMemory => 4,
        }
    }
}

impl From<AllocError> for RegionFault {
    ghost from_gives = { λ _ e. e ≡ NoMemory };

    fn from(_error: AllocError) -> RegionFault {
        RegionFault::NoMemory
    }
}

impl<T: Drop> From<AllocFailed<T>> for RegionFault {
    ghost from_gives = { λ _ e. e ≡ NoMemory };

    fn from(_error: AllocFailed<T>) -> RegionFault {
        RegionFault::NoMemory
    }
}

/// The most regions that a page may have.
pub const REGIONS: usize = 16;

/// The regions of a client's page: how they are split, what each one shows, and which has the
/// focus.
pub struct Layout {
    tree: Node,
    focus: usize,
    shown: Vec<Shown>,
}

impl Drop for Layout {
    fn drop(self) {
        let Layout {
            tree: _,
            focus: _,
            shown: _,
        } = self;
    }
}

impl Model for Layout {
    ghost use Rattle.regions.specs.Layouts.{Arrangement, IsLaidOut, arrangement_code};

    ghost Value = { Arrangement };

    ghost coded = { arrangement_code };

    ghost use Rattle.regions.specs.Shapes.{shape};

    ghost view = { λ l. record { shape = shape l.tree; focus = l.focus; shown = l.shown.items } };

    ghost invariant = { λ l. IsLaidOut (shape l.tree) l.focus l.shown.items };
}

/// Whether the regions of both lists show equal things.
fn show_the_same(shown: &[Shown], others: &[Shown]) -> bool
    ensures { (result ≡ true) ↔ (shown.now ≡ others.now) }
{
    shown == others
}

impl Layout {
    /// A layout of one region. `AllocError` if memory is refused.
    pub fn new(alloc: Global, shown: Shown) -> Result<Layout, AllocError>
        ensures { IfOk result (λ l. l ≡ one_region shown) }
    {
        let mut all = Vec::new(alloc);
        all.push(shown)?;
        Ok(Layout {
            tree: Node::Region,
            focus: 0,
            shown: all,
        })
    }

    /// What each region shows, in the order of the splits: 1 to 16 of them.
    pub fn shown(&self) -> &[Shown]
        ensures value { result.now ≡ self.now.shown }
        ensures some { 0 < length result.now }
        ensures few { length result.now ≤ 16 }
    {
        self.shown.as_slice()
    }

    /// Whether two layouts are split equally, their regions show equal things, and the same region
    /// has the focus.
    pub fn is_same(&self, other: &Layout) -> bool
        ensures { (result ≡ true) ↔ (self.now ≡ other.now) }
    {
        self.focus == other.focus
            && self.tree.is_same(&other.tree)
            && show_the_same(self.shown.as_slice(), other.shown.as_slice())
    }

    /// The index of the focused region, in the order of `shown`.
    pub fn focus(&self) -> usize
        ensures value { result ≡ self.now.focus }
        ensures inside { result < length self.now.shown }
    {
        self.focus
    }

    /// What the focused region shows.
    pub fn focused(&self) -> Shown
        ensures { slice_get self.now.shown self.now.focus ≡ Some result }
    {
        self.shown[self.focus]
    }

    /// Makes the focused region show this.
    pub fn set_shown(&mut self, shown: Shown)
        ensures { self.new ≡ put_in_focus shown self.old }
    {
        self.shown[self.focus] = shown;
    }

    /// Empties the regions that show this window.
    pub fn close_window(&mut self, serial: u32)
        ensures { self.new ≡ record self.old { shown = map (emptied serial) self.old.shown } }
    {
        for shown in self.shown.iter_mut() {
            *shown = shown.without_window(serial);
        }
    }

    /// Gives the focus to the next region in the order of the splits; after the last, to the first.
    pub fn focus_next(&mut self)
        ensures { self.new ≡ record self.old { focus = next_focus self.old } }
    {
        self.focus = if self.focus + 1 == self.shown.len() {
            0
        } else {
            self.focus + 1
        };
    }

    /// Removes all regions but the focused one.
    pub fn only(&mut self)
        ensures alone { self.new ≡ kept_alone self.old }
        ensures room { KeepsRoom self.old.shape self.new.shape }
    {
        let kept = self.shown[self.focus];
        self.shown.truncate(1);
        self.shown[0] = kept;
        self.tree = Node::Region;
        self.focus = 0;
    }

    /// Fits the layout to a page of this size: if a region would be too small, only the focused one
    /// stays.
    pub fn resized(&mut self, rows: u16, columns: u16)
        ensures fits { self.new ≡ resized rows columns self.old }
        ensures room { has_room region rows columns ≡ true →
            has_room self.new.shape rows columns ≡ true }
    {
        if !self.tree.has_room(rows, columns) {
            self.only();
        }
    }

    /// Splits the focused region, which keeps the focus. The new region is the second half and is
    /// empty. Errors: `TooMany` beyond 16 regions, `TooSmall` if a region would lack room on a page
    /// of this size, `NoMemory`.
    pub fn split(
        &mut self,
        alloc: Global,
        way: Way,
        rows: u16,
        columns: u16,
    ) -> Result<(), RegionFault>
        ensures ok { OnOk result (IsSplit way rows columns self.old self.new) }
        ensures room { OnOk result (has_room self.new.shape rows columns ≡ true) }
        ensures err { OnErr result (self.new ≡ self.old) }
        ensures fault { IfErr result (λ f. f ≡ split_error way self.old rows columns) }
    {
        if self.shown.len() == REGIONS {
            return Err(RegionFault::TooMany);
        }
        if !self.tree.has_room_split(self.focus, way, rows, columns) {
            return Err(RegionFault::TooSmall);
        }
        let halves = Node::halves(alloc, way)?;
        self.shown.insert(self.focus + 1, Shown::EMPTY)?;
        self.tree.split(self.focus, way, halves);
        Ok(())
    }

    /// Closes the focused region. Its sibling gets its room, and the sibling's first region gets
    /// the focus. Error: `LastRegion` if it is the only one.
    pub fn remove(&mut self) -> Result<(), RegionFault>
        ensures ok { OnOk result (self.new ≡ remove_focused self.old) }
        ensures room { KeepsRoom self.old.shape self.new.shape }
        ensures err { IfErr result (λ f. (f ≡ RegionFault.LastRegion) × (self.new ≡ self.old)) }
        ensures last { IsOk result ↔ (1 < length self.old.shown) }
    {
        if self.shown.len() <= 1 {
            return Err(RegionFault::LastRegion);
        }
        let next = self.tree.after(self.focus);
        let _closed = self.shown.remove(self.focus);
        self.tree.remove(self.focus);
        self.focus = next;
        Ok(())
    }

    /// The rectangles of the regions on a page of this size. Errors: `TooSmall` if a region lacks
    /// room, `NoMemory`.
    pub fn rects(&self, alloc: Global, rows: u16, columns: u16) -> Result<Rects, RegionFault>
        ensures ok { IfOk result (IsRects self.now.shape self.now.focus rows columns) }
        ensures room { OnOk result (has_room self.now.shape rows columns ≡ true) }
        ensures fault { IfErr result (λ f. f ≡ rects_error self.now.shape rows columns) }
        // There is one box for each region, the focused one included.
        ensures each { IfOk result (λ r. length r.boxes.items ≡ length self.now.shown) }
        ensures focused { IfOk result (λ r. r.focus < length r.boxes.items) }
        // The status line is the last row.
        ensures last { IfOk result (λ r. r.status.line + 1 ≡ rows) }
        // The rectangles cover each place of the page once.
        ensures tiles { IfOk result (λ r. RectsTile rows columns r) }
    {
        let page = Rect::of_layout(rows, columns);
        if !self.tree.has_room(rows, columns) {
            return Err(RegionFault::TooSmall);
        }
        let mut boxes = Vec::new(alloc);
        let mut separators = Vec::new(alloc);
        self.tree.put_boxes(page, &mut boxes)?;
        self.tree.put_separators(page, &mut separators)?;
        Ok(Rects {
            boxes,
            separators,
            focus: self.focus,
            status: Rect::of_status(rows, columns),
        })
    }
}
