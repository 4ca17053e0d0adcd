//! How a client's page is split into regions: a tree of halves, the rectangles into which it
//! divides a page, and what each region shows.
#![tactic(auto)]

mod layout;
mod node;
mod rect;

ghost use Rattle.std.specs.Prelude.{◌≡◌, ◌<◌, ℕ, true, length};
ghost use Rattle.regions.specs.declared.node.Way.{Way};
ghost use Rattle.regions.specs.Shapes.{Shape, boxes, regions, split_at, with_halves};
ghost use Rattle.regions.specs.declared.rect.Rect.{Rect};
ghost use Rattle.regions.specs.Layouts.{Arrangement, split_focused, second_focused, remove_focused};
ghost use Rattle.regions.specs.Pages.{has_room, page_parts, TilesPage};

pub use layout::{Layout, REGIONS, RegionFault, Shown};
pub use node::Way;
pub use rect::{Rect, Rects};

/// If each region has room, the regions, captions, separators and the status line cover each place
/// of a page once, and no other place.
pub fn each_place_once()
    ensures { (s : Shape) (rows columns : ℕ) → has_room s rows columns ≡ true →
        TilesPage rows columns (page_parts s rows columns) }
{}

/// Splitting a region and removing the new half gives the layout from before the split.
pub fn a_removed_split_is_undone()
    ensures { (way : Way) (l : Arrangement) → regions l.shape ≡ length l.shown →
        l.focus < length l.shown → remove_focused (second_focused (split_focused way l)) ≡ l }
{}

/// A split puts two halves in place of one box, and leaves the other boxes unchanged.
pub fn a_split_halves_one_box()
    ensures { (way : Way) (s : Shape) (n : ℕ) (r : Rect) → n < regions s →
        boxes (split_at way n s) r ≡ with_halves way n r (boxes s r) }
{}
