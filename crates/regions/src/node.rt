//! The tree of splits.

ghost use Rattle.std.specs.Prelude.{◌≡◌, ◌↔◌, ◌<◌, ◌≤◌, ◌+◌, ◌++◌, OnOk, IfOk, true};
ghost use Rattle.regions.specs.Shapes.{shape, is_region, regions, fits, boxes, separators, halves, split_at, without};
ghost use Rattle.regions.specs.Shapes.{after};
ghost use Rattle.regions.specs.Pages.{has_room};

use crate::rect::Rect;
use std::alloc::{AllocError, Global};
use std::mem;

/// How a region is split: the place of its second half.
#[derive(Clone, Copy, PartialEq, Eq)]
pub enum Way {
    /// Below the first half: GNU Screen's `split`.
    Below,
    /// To the right of the first half, with a separator between: `split -v`.
    Right,
}

/// A region, or two halves.
#[derive(Drop)]
pub enum Node {
    Region,
    Split(Way, Box<Node>, Box<Node>),
}

impl Node {
    /// A split of two regions. `AllocError` if memory is refused.
    pub fn halves(alloc: Global, way: Way) -> Result<Node, AllocError>
        ensures { IfOk result (λ n. shape n ≡ halves way) }
    {
        let first = Box::new(alloc, Node::Region)?;
        let second = Box::new(alloc, Node::Region)?;
        Ok(Node::Split(way, first, second))
    }

    fn is_region(&self) -> bool
        ensures { result ≡ is_region (shape self.now) }
    {
        matches!(self, Node::Region)
    }

    /// Whether two trees have equal splits.
    pub fn is_same(&self, other: &Node) -> bool
        ensures { (result ≡ true) ↔ (shape self.now ≡ shape other.now) }
    {
        match (self, other) {
            (Node::Region, Node::Region) => true,
            (Node::Split(way, a, b), Node::Split(another, c, d)) => {
                way == another && a.is_same(c) && b.is_same(d)
            }
            _ => false,
        }
    }

    /// The number of regions.
    pub fn regions(&self) -> usize
        requires { regions (shape self.now) ≤ 16 }
        ensures { result ≡ regions (shape self.now) }
    {
        match self {
            Node::Region => 1,
            Node::Split(_, first, second) => first.regions() + second.regions(),
        }
    }

    /// Whether each region has room in a box of this size.
    fn fits(&self, rows: u16, columns: u16) -> bool
        requires { rows < 65535 }
        ensures { result ≡ fits (shape self.now) rows columns }
    {
        match self {
            Node::Region => 1 < rows && 1 < columns,
            Node::Split(Way::Below, upper, lower) => {
                upper.fits((rows + 1) / 2, columns) && lower.fits(rows / 2, columns)
            }
            Node::Split(Way::Right, left, right) => {
                left.fits(rows, columns.saturating_sub(1) / 2) && right.fits(rows, columns / 2)
            }
        }
    }

    /// Whether each region has room on a page of this size.
    pub fn has_room(&self, rows: u16, columns: u16) -> bool
        ensures { result ≡ has_room (shape self.now) rows columns }
    {
        self.fits(rows.saturating_sub(1), columns)
    }

    /// Whether each region has room on a page of this size after the region `at` is split.
    pub fn has_room_split(&self, at: usize, way: Way, rows: u16, columns: u16) -> bool
        requires { regions (shape self.now) ≤ 16 }
        ensures { result ≡ has_room (split_at way at (shape self.now)) rows columns }
    {
        self.fits_split(at, way, rows.saturating_sub(1), columns)
    }

    /// Whether each region has room in a box of this size after the region `at` is split.
    fn fits_split(&self, at: usize, way: Way, rows: u16, columns: u16) -> bool
        requires few { regions (shape self.now) ≤ 16 }
        requires rows { rows < 65535 }
        ensures { result ≡ fits (split_at way at (shape self.now)) rows columns }
    {
        match self {
            Node::Region => match way {
                Way::Below => 1 < (rows + 1) / 2 && 1 < columns && 1 < rows / 2 && 1 < columns,
                Way::Right => {
                    1 < rows && 1 < columns.saturating_sub(1) / 2 && 1 < rows && 1 < columns / 2
                }
            },
            Node::Split(Way::Below, upper, lower) => {
                let first = upper.regions();
                let (height, rest) = ((rows + 1) / 2, rows / 2);
                if at < first {
                    upper.fits_split(at, way, height, columns) && lower.fits(rest, columns)
                } else {
                    upper.fits(height, columns) && lower.fits_split(at - first, way, rest, columns)
                }
            }
            Node::Split(Way::Right, left, right) => {
                let first = left.regions();
                let (width, rest) = (columns.saturating_sub(1) / 2, columns / 2);
                if at < first {
                    left.fits_split(at, way, rows, width) && right.fits(rows, rest)
                } else {
                    left.fits(rows, width) && right.fits_split(at - first, way, rows, rest)
                }
            }
        }
    }

    /// Appends the boxes of the regions, in the order of the splits. `AllocError` if memory is
    /// refused.
    #[tactic(auto, using(crate::proofs::Room::wide))]
    pub fn put_boxes(&self, r: Rect, out: &mut Vec<Rect>) -> Result<(), AllocError>
        requires rows { r.rows < 65535 }
        requires lines { r.line + r.rows ≤ 65535 }
        requires columns { r.column + r.columns ≤ 65535 }
        requires room { fits (shape self.now) r.rows r.columns ≡ true }
        ensures { OnOk result (out.new.items ≡ out.old.items ++ boxes (shape self.now) r) }
    {
        match self {
            Node::Region => out.push(r)?,
            Node::Split(Way::Below, upper, lower) => {
                upper.put_boxes(r.upper(), out)?;
                lower.put_boxes(r.lower(), out)?;
            }
            Node::Split(Way::Right, left, right) => {
                left.put_boxes(r.left(), out)?;
                right.put_boxes(r.right(), out)?;
            }
        }
        Ok(())
    }

    /// Appends the separators, each before those of its halves. `AllocError` if memory is refused.
    #[tactic(auto, using(crate::proofs::Room::wide))]
    pub fn put_separators(&self, r: Rect, out: &mut Vec<Rect>) -> Result<(), AllocError>
        requires rows { r.rows < 65535 }
        requires lines { r.line + r.rows ≤ 65535 }
        requires columns { r.column + r.columns ≤ 65535 }
        requires room { fits (shape self.now) r.rows r.columns ≡ true }
        ensures { OnOk result (out.new.items ≡ out.old.items ++ separators (shape self.now) r) }
    {
        match self {
            Node::Region => {}
            Node::Split(Way::Below, upper, lower) => {
                upper.put_separators(r.upper(), out)?;
                lower.put_separators(r.lower(), out)?;
            }
            Node::Split(Way::Right, left, right) => {
                out.push(r.between())?;
                left.put_separators(r.left(), out)?;
                right.put_separators(r.right(), out)?;
            }
        }
        Ok(())
    }

    /// Puts `made`, a tree of two halves, in place of the region `at`.
    pub fn split(&mut self, at: usize, way: Way, made: Node)
        requires few { regions (shape self.old) ≤ 16 }
        requires halves { shape made ≡ halves way }
        ensures { shape self.new ≡ split_at way at (shape self.old) }
    {
        match self {
            Node::Region => *self = made,
            Node::Split(_, a, b) => {
                let first = a.regions();
                if at < first {
                    a.split(at, way, made);
                } else {
                    b.split(at - first, way, made);
                }
            }
        }
    }

    /// The index of the first region of the sibling of the region `at`, after that region is gone.
    pub fn after(&self, at: usize) -> usize
        requires { regions (shape self.now) ≤ 16 }
        ensures value { result ≡ after at (shape self.now) }
        ensures small { result ≤ regions (shape self.now) }
    {
        match self {
            Node::Region => 0,
            Node::Split(_, a, b) => {
                let first = a.regions();
                if at < first {
                    if a.is_region() { 0 } else { a.after(at) }
                } else if b.is_region() {
                    0
                } else {
                    first + b.after(at - first)
                }
            }
        }
    }

    /// Removes the region `at`; its sibling gets its room.
    pub fn remove(&mut self, at: usize)
        requires { regions (shape self.old) ≤ 16 }
        ensures { shape self.new ≡ without at (shape self.old) }
    {
        match mem::replace(self, Node::Region) {
            Node::Region => {}
            Node::Split(way, mut a, mut b) => {
                let first = a.regions();
                if at < first {
                    if a.is_region() {
                        *self = Box::into_inner(b);
                    } else {
                        a.remove(at);
                        *self = Node::Split(way, a, b);
                    }
                } else if b.is_region() {
                    *self = Box::into_inner(a);
                } else {
                    b.remove(at - first);
                    *self = Node::Split(way, a, b);
                }
            }
        }
    }
}
