//! Pages of 24 lines by 80 columns, and frames that draw them.

ghost use Rattle.std.specs.Prelude.{◌≡◌, IfOk};
ghost use Rattle.view.specs.View.{HasSize};

use cells::Cell;
use redraw::{Shadow, frame};
use regions::{Rect, Rects};
use std::alloc::{AllocError, Global};
use view::{Contents, KeyModes, Pane, View, compose_over};

/// The cells in the first lines of a page, and its cursor.
#[derive(Clone, Copy)]
pub struct PageLines<'a> {
    pub lines: &'a [&'a [Cell]],
    pub cursor: (usize, usize),
}

/// A page as a view, composed over a spare one if there is one. It has one region of 24 lines, whose
/// caption is under the blank status line.
pub fn view_of(alloc: Global, spare: Option<View>, page: PageLines<'_>) -> Result<View, AllocError>
    ensures { IfOk result (HasSize 24 80) }
{
    let mut boxes = Vec::new(alloc);
    boxes.push(Rect {
        line: 0,
        column: 0,
        rows: 24,
        columns: 80,
    })?;
    let rects = Rects {
        boxes,
        separators: Vec::new(alloc),
        focus: 0,
        status: Rect::of_status(24, 80),
    };
    let pane = Pane::Readable(Contents {
        number: 0,
        title: "sh",
        lines: page.lines,
        cursor: Some(page.cursor),
        shows_cursor: true,
        is_inverted: false,
        modes: KeyModes::NORMAL,
    });
    compose_over(alloc, spare, &rects, &[pane], b"")
}

/// Appends the frame of a page.
pub fn put(
    alloc: Global,
    shadow: &mut Shadow,
    page: PageLines<'_>,
    out: &mut Vec<u8>,
) -> Result<(), AllocError>
    requires rows { shadow.old.rows ≡ 24 }
    requires columns { shadow.old.columns ≡ 80 }
    ensures rows { shadow.new.rows ≡ 24 }
    ensures columns { shadow.new.columns ≡ 80 }
{
    let view = view_of(alloc, None, page)?;
    frame(alloc, shadow, &view, out)
}
