//! When a page has to be drawn.

ghost use Rattle.std.specs.Prelude.{◌≡◌};

use crate::drawing::{PageLines, put, view_of};
use cells::Cell;
use redraw::{Shadow, needs_draw};
use std::alloc::Global;

const LETTER: Cell = Cell {
    character: 'h',
    ..Cell::BLANK
};

/// Draws a page. Whether it had to be drawn before, and hasn't to be after it.
fn is_due(alloc: Global, shadow: &mut Shadow, page: PageLines<'_>) -> Option<(bool, bool)>
    requires rows { shadow.old.rows ≡ 24 }
    requires columns { shadow.old.columns ≡ 80 }
    ensures rows { shadow.new.rows ≡ 24 }
    ensures columns { shadow.new.columns ≡ 80 }
{
    let view = view_of(alloc, None, page).ok()?;
    if view.grid().rows() != 24 {
        return None;
    }
    let was_due = needs_draw(shadow, &view);
    let mut out = Vec::new(alloc);
    put(alloc, shadow, page, &mut out).ok()?;
    Some((was_due, needs_draw(shadow, &view)))
}

/// Whether each page has to be drawn that looks different from the one before it, and only those: the
/// first one, the same again, one with a letter, the same again, and one with another cursor.
fn are_due(alloc: Global) -> Option<[(bool, bool); 5]> {
    let mut shadow = Shadow::unknown(24, 80);
    let line = [LETTER];
    let lines: [&[Cell]; 1] = [&line];
    let blank = PageLines {
        lines: &[],
        cursor: (0, 1),
    };
    let lettered = PageLines {
        lines: &lines,
        cursor: (0, 1),
    };
    let moved = PageLines {
        lines: &lines,
        cursor: (0, 2),
    };
    Some([
        is_due(alloc, &mut shadow, blank)?,
        is_due(alloc, &mut shadow, blank)?,
        is_due(alloc, &mut shadow, lettered)?,
        is_due(alloc, &mut shadow, lettered)?,
        is_due(alloc, &mut shadow, moved)?,
    ])
}

#[test]
fn a_page_is_due_if_it_looks_different(rt: HostRuntime) {
    let due = [
        (true, false),
        (false, false),
        (true, false),
        (false, false),
        (true, false),
    ];
    assert_eq!(rt; are_due(rt.alloc()), Some(due));
}
