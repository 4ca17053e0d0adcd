//! Composes panes, separators and the status line into one page.

ghost use Rattle.std.specs.Prelude.{◌≡◌, ◌<◌, ◌+◌, true, IsTrue, IfOk, OnOk, chars, length};
ghost use Rattle.std.specs.Str.{all_scalars};
ghost use Rattle.std.specs.Str.Lossy.{utf8_lossy};
ghost use Rattle.cells.specs.Page.{IsGrid, IsGridSize};
ghost use Rattle.view.specs.View.{KeepsSize};
ghost use Rattle.view.specs.Granted.{read, window_of, part_of, parts_of, key_modes_of};
ghost use Rattle.view.specs.Composing.{HasPageSize, ShowsParts, ShowsDrawable, HasFreePieces, HasScalarCaption};
ghost use Rattle.view.specs.Composing.{TakesFocus, IsCursorOf, LaysRow, LaysBoxRow, LaysBox, LaysSeparator, LaysStatus};

use crate::region_rows::{BoxRow, box_row, first_shown, line_shown_whole, reverse};
use crate::text::text_row;
use crate::view::{Contents, Cursor, KeyModes, Pane, View};
use cells::{Cell, Rendition};
use regions::{Rect, Rects};
use std::alloc::{AllocError, Global};

/// The view of panes in their boxes, one pane for each box, with a status text, on a page of 2 to
/// 200 lines by 2 to 300 columns. Of a window that isn't readable, it shows only the number. Half
/// of a wide character at an edge is shown as a blank. A text is cut at the edge. In the status
/// text, U+FFFD stands for each maximal subpart that isn't UTF-8 (Unicode core specification, 3.9).
pub fn compose(
    alloc: Global,
    rects: &Rects,
    panes: &[Pane],
    status: &[u8],
) -> Result<View, AllocError>
    requires sized { IsGridSize (rects.now.status.line + 1) rects.now.status.columns }
    requires each { length panes.now ≡ length rects.now.boxes.items }
    requires focus { rects.now.focus < length rects.now.boxes.items }
    ensures size { IfOk result (HasPageSize rects.now) }
    ensures exact { IfOk result (λ v. ShowsParts rects.now (parts_of panes.now) status.now v) }
    ensures drawable { IfOk result (λ v. ShowsDrawable rects.now (parts_of panes.now) v) }
{
    let page = rects.status;
    let Ok(view) = View::blank(alloc, page.line as usize + 1, page.columns as usize) else {
        return Err(AllocError);
    };
    compose_on(alloc, view, rects, panes, status)
}

/// What `compose` gives, made in the memory of another view if that has the page's size and one
/// region has the page to itself. What the other view shows doesn't matter.
pub fn compose_over(
    alloc: Global,
    spare: Option<View>,
    rects: &Rects,
    panes: &[Pane],
    status: &[u8],
) -> Result<View, AllocError>
    requires sized { IsGridSize (rects.now.status.line + 1) rects.now.status.columns }
    requires each { length panes.now ≡ length rects.now.boxes.items }
    requires focus { rects.now.focus < length rects.now.boxes.items }
    ensures size { IfOk result (HasPageSize rects.now) }
    ensures exact { IfOk result (λ v. ShowsParts rects.now (parts_of panes.now) status.now v) }
    ensures drawable { IfOk result (λ v. ShowsDrawable rects.now (parts_of panes.now) v) }
{
    match spare {
        Some(view) if is_covered(&view, rects) => compose_on(alloc, view, rects, panes, status),
        _ => compose(alloc, rects, panes, status),
    }
}

/// Whether the view can be composed over: it has the page's size, and one region has the page to
/// itself. Each row that is put is then as wide as the page, so that nothing of the old view stays.
fn is_covered(view: &View, rects: &Rects) -> bool
    ensures size { IsTrue result → HasPageSize rects.now view.now }
    ensures lone { IsTrue result → length rects.now.boxes.items ≡ 1 }
    ensures grid { IsTrue result → IsGrid view.now.page }
{
    rects.boxes.len() == 1
        && view.rows() == rects.status.line as usize + 1
        && view.columns() == rects.status.columns as usize
}

/// Puts panes in their boxes, the separators and the status line over a view. Together they cover
/// its page.
fn compose_on(
    alloc: Global,
    mut view: View,
    rects: &Rects,
    panes: &[Pane],
    status: &[u8],
) -> Result<View, AllocError>
    requires each { length panes.now ≡ length rects.now.boxes.items }
    requires focus { rects.now.focus < length rects.now.boxes.items }
    requires size { HasPageSize rects.now view }
    requires free { HasFreePieces rects.now (parts_of panes.now) status.now view }
    ensures size { IfOk result (HasPageSize rects.now) }
    ensures exact { IfOk result (λ v. ShowsParts rects.now (parts_of panes.now) status.now v) }
    ensures drawable { IfOk result (λ v. ShowsDrawable rects.now (parts_of panes.now) v) }
{
    for place in 0..rects.boxes.len() {
        let pane = &panes[place];
        view.put_box(alloc, rects.boxes[place], pane, place == rects.focus)?;
    }
    for separator in &rects.separators {
        view.put_separator(*separator);
    }
    view.put_status(alloc, rects.status, status)?;
    view.focus(rects.boxes[rects.focus], &panes[rects.focus]);
    Ok(view)
}

impl View {
    /// Puts the cells of one row of a rectangle.
    fn put_row(&mut self, rect: Rect, row: u16, cells: &[Cell])
        ensures size { KeepsSize self.old self.new }
        ensures lays { LaysRow rect row cells.now self.old self.new }
    {
        let line = rect.line as usize + row as usize;
        self.put(line, rect.column as usize, cells);
    }

    fn put_box(
        &mut self,
        alloc: Global,
        rect: Rect,
        pane: &Pane,
        is_focused: bool,
    ) -> Result<(), AllocError>
        ensures size { KeepsSize self.old self.new }
        ensures lays { OnOk result (LaysBox rect is_focused (part_of pane.now) self.old self.new) }
        ensures characters { OnOk result (0 < rect.rows → HasScalarCaption (part_of pane.now)) }
    {
        let mut cells = Vec::with_capacity(alloc, rect.columns as usize)?;
        for row in 0..rect.rows {
            let place = BoxRow {
                rect,
                row,
                is_focused,
            };
            self.put_box_row(place, pane, &mut cells)?;
        }
        Ok(())
    }

    /// Puts a row of a region's box. Its cells are made in `cells`, unless a line of the window is
    /// shown unchanged.
    fn put_box_row(
        &mut self,
        place: BoxRow,
        pane: &Pane,
        cells: &mut Vec<Cell>,
    ) -> Result<(), AllocError>
        requires { place.row < place.rect.rows }
        ensures size { KeepsSize self.old self.new }
        ensures lays { OnOk result (LaysBoxRow place.rect place.is_focused (part_of pane.now)
            place.row self.old self.new) }
        ensures characters { OnOk result
            (place.row + 1 ≡ place.rect.rows → HasScalarCaption (part_of pane.now)) }
    {
        match line_shown_whole(place.rect, pane, place.row) {
            Some(line) => self.put_row(place.rect, place.row, line),
            None => {
                box_row(place, pane, cells)?;
                self.put_row(place.rect, place.row, cells);
            }
        }
        Ok(())
    }

    fn put_separator(&mut self, rect: Rect)
        ensures size { KeepsSize self.old self.new }
        ensures lays { LaysSeparator rect self.old self.new }
    {
        let bar = [Cell::narrow('|', reverse(), false)];
        for row in 0..rect.rows {
            self.put_row(rect, row, &bar);
        }
    }

    fn put_status(&mut self, alloc: Global, rect: Rect, text: &[u8]) -> Result<(), AllocError>
        ensures size { KeepsSize self.old self.new }
        ensures lays { OnOk result (LaysStatus rect text.now self.old self.new) }
        ensures characters { OnOk result (all_scalars (chars (utf8_lossy text.now)) ≡ true) }
    {
        let text = String::from_utf8_lossy(alloc, text)?;
        let columns = rect.columns as usize;
        let cells = text_row(alloc, text.as_str(), columns, Rendition::PLAIN)?;
        self.put_row(rect, 0, &cells);
        Ok(())
    }

    /// Shows the cursor of the focused region and takes the modes of its window, if that is
    /// readable.
    fn focus(&mut self, rect: Rect, pane: &Pane)
        ensures size { KeepsSize self.old self.new }
        ensures focused { TakesFocus rect (part_of pane.now) self.old self.new }
    {
        self.modes = modes_of(pane);
        self.set_cursor(cursor_of(rect, pane));
    }
}

/// The modes of the keyboard for a focused region.
fn modes_of(pane: &Pane) -> KeyModes
    ensures { result ≡ key_modes_of (part_of pane.now) }
{
    match pane {
        Pane::Readable(contents) => contents.modes,
        _ => KeyModes::NORMAL,
    }
}

/// The cursor of a focused region in this box.
fn cursor_of(rect: Rect, pane: &Pane) -> Cursor
    ensures { IsCursorOf rect (part_of pane.now) result }
{
    match pane {
        Pane::Readable(contents) => cursor_in(rect, contents),
        _ => Cursor::Hidden,
    }
}

/// The cursor of a window in this box.
fn cursor_in(rect: Rect, contents: &Contents) -> Cursor
    ensures { IsCursorOf rect (read (window_of contents.now)) result }
{
    let rows = rect.rows.saturating_sub(1) as usize;
    let columns = rect.columns as usize;
    match contents.cursor {
        Some((line, column)) => {
            let row = line.saturating_sub(first_shown(contents, rows));
            if contents.shows_cursor && row < rows && column < columns {
                Cursor::At {
                    line: rect.line.saturating_add(row as u16),
                    column: rect.column.saturating_add(column as u16),
                }
            } else {
                Cursor::Hidden
            }
        }
        None => Cursor::Hidden,
    }
}
