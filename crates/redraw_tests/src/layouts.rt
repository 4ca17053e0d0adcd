//! Examples of layouts of regions.

use regions::{Layout, Rect, Rects, RegionFault, Shown, Way};
use std::alloc::Global;

/// A call on a layout.
#[derive(Clone, Copy)]
enum LayoutCall {
    /// Splits on a page of 24 lines by 80 columns.
    Split(Way),
    Next,
    Show(Shown),
    Remove,
    Only,
    Close(u32),
    Resized(u16, u16),
}

/// The first line and column, counted from 0, and the number of lines and columns.
type PlacedBox = (u16, u16, u16, u16);

/// Steps, and the layout after them on a page of this size.
struct LayoutRow {
    steps: &'static [LayoutCall],
    size: (u16, u16),
    boxes: &'static [PlacedBox],
    separators: &'static [PlacedBox],
    shown: &'static [Shown],
    focus: usize,
}

const SEVENTH: Shown = Shown {
    window: Some(7),
    back: 0,
};

const THIRD: Shown = Shown {
    window: Some(3),
    back: 0,
};

/// Window 2, scrolled back by 9 lines.
const SECOND: Shown = Shown {
    window: Some(2),
    back: 9,
};

const BELOW: LayoutCall = LayoutCall::Split(Way::Below);

const RIGHT: LayoutCall = LayoutCall::Split(Way::Right);

/// Each row continues from the layout of the row before; the first one from a region with window 7.
static ROWS: [LayoutRow; 13] = [
    // Halves above each other. Two: regions in rows 0 to 10 and 12 to 21, captions in rows 11 and
    // 22. Three: rows 0 to 4, 6 to 10, 12 to 21; captions 5, 11, 22.
    LayoutRow {
        steps: &[BELOW],
        size: (24, 80),
        boxes: &[(0, 0, 12, 80), (12, 0, 11, 80)],
        separators: &[],
        shown: &[SEVENTH, Shown::EMPTY],
        focus: 0,
    },
    LayoutRow {
        steps: &[BELOW],
        size: (24, 80),
        boxes: &[(0, 0, 6, 80), (6, 0, 6, 80), (12, 0, 11, 80)],
        separators: &[],
        shown: &[SEVENTH, Shown::EMPTY, Shown::EMPTY],
        focus: 0,
    },
    LayoutRow {
        steps: &[LayoutCall::Only],
        size: (24, 80),
        boxes: &[(0, 0, 23, 80)],
        separators: &[],
        shown: &[SEVENTH],
        focus: 0,
    },
    // Two halves side by side, with a column between over all their rows, on pages of two sizes.
    LayoutRow {
        steps: &[RIGHT],
        size: (24, 80),
        boxes: &[(0, 0, 23, 39), (0, 40, 23, 40)],
        separators: &[(0, 39, 23, 1)],
        shown: &[SEVENTH, Shown::EMPTY],
        focus: 0,
    },
    LayoutRow {
        steps: &[],
        size: (10, 41),
        boxes: &[(0, 0, 9, 20), (0, 21, 9, 20)],
        separators: &[(0, 20, 9, 1)],
        shown: &[SEVENTH, Shown::EMPTY],
        focus: 0,
    },
    // Seven regions.
    LayoutRow {
        steps: &[LayoutCall::Only, BELOW, BELOW, BELOW, RIGHT, RIGHT, RIGHT],
        size: (24, 80),
        boxes: &[
            (0, 0, 3, 9),
            (0, 10, 3, 9),
            (0, 20, 3, 19),
            (0, 40, 3, 40),
            (3, 0, 3, 80),
            (6, 0, 6, 80),
            (12, 0, 11, 80),
        ],
        separators: &[(0, 39, 3, 1), (0, 19, 3, 1), (0, 9, 3, 1)],
        shown: &[
            SEVENTH,
            Shown::EMPTY,
            Shown::EMPTY,
            Shown::EMPTY,
            Shown::EMPTY,
            Shown::EMPTY,
            Shown::EMPTY,
        ],
        focus: 0,
    },
    // The focus follows the order of the splits: from 7 (upper), to 2 (lower left), to the new one
    // (lower right), and back to 7. When the upper one is removed, its sibling, in two halves, gets
    // its room. When the page gets too small, only the focused region stays.
    LayoutRow {
        steps: &[
            LayoutCall::Only,
            BELOW,
            LayoutCall::Next,
            LayoutCall::Show(SECOND),
            RIGHT,
        ],
        size: (24, 80),
        boxes: &[(0, 0, 12, 80), (12, 0, 11, 39), (12, 40, 11, 40)],
        separators: &[(12, 39, 11, 1)],
        shown: &[SEVENTH, SECOND, Shown::EMPTY],
        focus: 1,
    },
    LayoutRow {
        steps: &[LayoutCall::Next],
        size: (24, 80),
        boxes: &[(0, 0, 12, 80), (12, 0, 11, 39), (12, 40, 11, 40)],
        separators: &[(12, 39, 11, 1)],
        shown: &[SEVENTH, SECOND, Shown::EMPTY],
        focus: 2,
    },
    LayoutRow {
        steps: &[LayoutCall::Next],
        size: (24, 80),
        boxes: &[(0, 0, 12, 80), (12, 0, 11, 39), (12, 40, 11, 40)],
        separators: &[(12, 39, 11, 1)],
        shown: &[SEVENTH, SECOND, Shown::EMPTY],
        focus: 0,
    },
    LayoutRow {
        steps: &[LayoutCall::Remove],
        size: (24, 80),
        boxes: &[(0, 0, 23, 39), (0, 40, 23, 40)],
        separators: &[(0, 39, 23, 1)],
        shown: &[SECOND, Shown::EMPTY],
        focus: 0,
    },
    LayoutRow {
        steps: &[LayoutCall::Close(7), LayoutCall::Resized(24, 80)],
        size: (24, 80),
        boxes: &[(0, 0, 23, 39), (0, 40, 23, 40)],
        separators: &[(0, 39, 23, 1)],
        shown: &[SECOND, Shown::EMPTY],
        focus: 0,
    },
    LayoutRow {
        steps: &[
            LayoutCall::Next,
            LayoutCall::Show(THIRD),
            LayoutCall::Resized(4, 4),
        ],
        size: (4, 20),
        boxes: &[(0, 0, 3, 20)],
        separators: &[],
        shown: &[THIRD],
        focus: 0,
    },
    LayoutRow {
        steps: &[LayoutCall::Close(3)],
        size: (4, 20),
        boxes: &[(0, 0, 3, 20)],
        separators: &[],
        shown: &[Shown::EMPTY],
        focus: 0,
    },
];

/// Whether a step is taken. Tries again if memory is refused.
fn is_taken(alloc: Global, layout: &mut Layout, step: LayoutCall) -> bool {
    match step {
        LayoutCall::Split(way) => {
            return layout.split(alloc, way, 24, 80).is_ok()
                || layout.split(alloc, way, 24, 80).is_ok();
        }
        LayoutCall::Next => layout.focus_next(),
        LayoutCall::Show(shown) => layout.set_shown(shown),
        LayoutCall::Remove => return layout.remove().is_ok(),
        LayoutCall::Only => layout.only(),
        LayoutCall::Close(serial) => layout.close_window(serial),
        LayoutCall::Resized(rows, columns) => layout.resized(rows, columns),
    }
    true
}

fn are(rects: &[Rect], places: &[PlacedBox]) -> bool {
    for (place, rect) in rects.iter().enumerate() {
        let found = (rect.line, rect.column, rect.rows, rect.columns);
        if places.get(place) != Some(&found) {
            return false;
        }
    }
    rects.len() == places.len()
}

fn are_placed(rects: &Rects, row: &LayoutRow) -> bool {
    let (rows, columns) = row.size;
    let status = Rect {
        line: rows.saturating_sub(1),
        column: 0,
        rows: 1,
        columns,
    };
    are(&rects.boxes, row.boxes)
        && are(&rects.separators, row.separators)
        && rects.focus == row.focus
        && rects.status == status
}

fn shows(alloc: Global, layout: &Layout, row: &LayoutRow) -> Result<bool, RegionFault> {
    let (rows, columns) = row.size;
    let rects = layout.rects(alloc, rows, columns)?;
    Ok(are_placed(&rects, row) && layout.shown() == row.shown && layout.focus() == row.focus)
}

/// Whether a layout after a row's steps is exactly that of the row.
fn gives(alloc: Global, layout: &mut Layout, row: &LayoutRow) -> bool {
    for step in row.steps {
        if !is_taken(alloc, layout, *step) {
            return false;
        }
    }
    match shows(alloc, layout, row) {
        Ok(is_so) => is_so,
        Err(_) => matches!(shows(alloc, layout, row), Ok(true)),
    }
}

/// The first row that the layout doesn't give.
fn first_wrong(alloc: Global) -> Option<usize> {
    let made = match Layout::new(alloc, SEVENTH) {
        Ok(layout) => Ok(layout),
        Err(_) => Layout::new(alloc, SEVENTH),
    };
    let Ok(mut layout) = made else {
        return Some(0);
    };
    for (number, row) in ROWS.iter().enumerate() {
        if !gives(alloc, &mut layout, row) {
            return Some(number);
        }
    }
    None
}

/// Tries a refused split again: with each allocation refused in turn (`tools/refusals`), the layouts
/// are those of a run without a refusal.
#[test]
fn layouts_give_their_rows_though_refused_once(rt: HostRuntime) {
    assert_eq!(rt; first_wrong(rt.alloc()), None);
}
