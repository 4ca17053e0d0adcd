//! Frames: the bytes that make a terminal show a view.

ghost use Rattle.std.specs.Prelude.{◌≡◌, ◌≤◌, ◌↔◌, IsTrue, OnOk, OnErr, IfOk, IfNone, length, is_some};
ghost use Rattle.view.specs.View.{HasSize, KeepsSize, place_of};
ghost use Rattle.view.specs.Drawable.{IsDrawable};
ghost use Rattle.redraw.specs.Frames.{pen_of, FirstBytes, DrawsNext, IsNeeded, BytesDraw};
ghost use Rattle.redraw.specs.Frames.{SkipsKnown, FrameDraws, Appends, KeepsTerminalSize};
ghost use Rattle.terminal_model.specs.Shows.{NeedsNoDraw, NeedsDraw};
ghost use Rattle.redraw.specs.Shadow.{AreAlikeAbove};

use crate::painting::{Shown, paint};
use crate::pen::Pen;
use crate::shadow::{Shadow, first_change};
use crate::shared::SharedView;
use cells::Rendition;
use std::alloc::{AllocError, Global};
use std::mem;
use view::{Cursor, View};

/// CAN, RIS, UTF-8 and DECRM of DECAWM. From any state they lead to a blank page, in whose last
/// column the cursor stays when a character is printed there.
const RESET: &[u8] = b"\x18\x1bc\x1b%G\x1b[?7l";

/// Whether a cursor is shown.
fn is_shown(cursor: Cursor) -> bool
    ensures { result ≡ is_some (place_of cursor) }
{
    match cursor {
        Cursor::Hidden => false,
        Cursor::At { .. } => true,
    }
}

/// What is known of the pen of a terminal that shows this cursor.
fn pen_at(cursor: Cursor) -> Pen
    ensures { result ≡ pen_of (place_of cursor) }
{
    let (line, column) = match cursor {
        Cursor::Hidden => (None, None),
        Cursor::At { line, column } => (Some(line), Some(column)),
    };
    Pen {
        line,
        column,
        rendition: None,
    }
}

/// Appends the reset, and the bytes from its blank page to the view.
fn first_bytes(alloc: Global, view: &View, out: &mut Vec<u8>) -> Result<(), AllocError>
    ensures { OnOk result (IsDrawable view.now → FirstBytes view.now out.old.items out.new.items) }
{
    out.extend_from_slice(RESET)?;
    let Ok(blank) = View::blank(alloc, view.rows(), view.columns()) else {
        return Err(AllocError);
    };
    let mut pen = Pen {
        line: Some(0),
        column: Some(0),
        rendition: Some(Rendition::PLAIN),
    };
    let shown = Shown {
        view: &blank,
        has_cursor: true,
    };
    paint(&mut pen, shown, view, 0, out)?;
    Ok(())
}

/// Appends the bytes from one view to another. Both pages look the same above the line `from`.
fn next_bytes(old: &View, view: &View, from: usize, out: &mut Vec<u8>) -> Result<(), AllocError>
    requires size { KeepsSize old.now view.now }
    requires inside { from ≤ length view.now.page }
    requires above { AreAlikeAbove from old.now.page view.now.page }
    ensures { OnOk result (DrawsNext old.now view.now out.old out.new) }
{
    let cursor = old.cursor();
    let mut pen = pen_at(cursor);
    let shown = Shown {
        view: old,
        has_cursor: is_shown(cursor),
    };
    paint(&mut pen, shown, view, from, out)?;
    Ok(())
}

/// A view that is no longer needed, if it has no other owner.
pub(crate) fn unshared(view: Option<SharedView>) -> Option<View> {
    view?.into_view()
}

/// The bytes from what is known of a terminal to a view; `None` if the terminal is known to show
/// the view.
pub(crate) fn draw(
    alloc: Global,
    shadow: &Shadow,
    view: &View,
) -> Result<Option<Vec<u8>>, AllocError>
    requires size { HasSize shadow.now.rows shadow.now.columns view.now }
    ensures needless { IfOk result (λ frame. IfNone frame (NeedsNoDraw shadow.now.known view.now)) }
    ensures needed { IfOk result (λ frame. IsNeeded shadow.now.known view.now frame) }
    ensures drawn { IfOk result (λ frame. BytesDraw shadow.now.known view.now frame) }
{
    let mut bytes = Vec::new(alloc);
    match &shadow.known {
        None => first_bytes(alloc, view, &mut bytes)?,
        Some(last) => {
            let last = last.get();
            let Some(from) = first_change(last, view) else {
                return Ok(None);
            };
            next_bytes(last, view, from, &mut bytes)?;
        }
    }
    Ok(Some(bytes))
}

/// Whether a view of the shadow's size has to be drawn: the shadow knows no view, or knows one that
/// looks different.
pub fn needs_draw(shadow: &Shadow, view: &View) -> bool
    requires size { HasSize shadow.now.rows shadow.now.columns view.now }
    ensures { IsTrue result ↔ NeedsDraw shadow.now.known view.now }
{
    match &shadow.known {
        None => true,
        Some(last) => first_change(last.get(), view).is_some(),
    }
}

/// A frame: the bytes after which each terminal that agreed with the shadow shows the view, which
/// has the shadow's size. The shadow then agrees with these terminals: it keeps the view. The bytes
/// are discreet and spare, and they begin with the reset exactly if the shadow was unknown.
/// `Ok(None)`, with an unchanged shadow, exactly if the shadow is known to show the view. `Err` if
/// memory is refused: nothing has changed.
pub fn frame_keeping(
    alloc: Global,
    shadow: &mut Shadow,
    view: View,
) -> Result<Option<Vec<u8>>, AllocError>
    requires size { HasSize shadow.old.rows shadow.old.columns view }
    ensures needless { IfOk result (λ frame. SkipsKnown shadow.old view shadow.new frame) }
    ensures drawn { IfOk result (λ frame. FrameDraws shadow.old view shadow.new frame) }
    ensures err { OnErr result (shadow.new ≡ shadow.old) }
{
    let mut spare = None;
    frame_sparing(alloc, shadow, view, &mut spare)
}

/// The frame of `frame_keeping`. The view that the shadow no longer needs is handed back in
/// `spare`, if it has no other owner, so that its memory can be used again.
pub fn frame_sparing(
    alloc: Global,
    shadow: &mut Shadow,
    view: View,
    spare: &mut Option<View>,
) -> Result<Option<Vec<u8>>, AllocError>
    requires size { HasSize shadow.old.rows shadow.old.columns view }
    ensures needless { IfOk result (λ frame. SkipsKnown shadow.old view shadow.new frame) }
    ensures drawn { IfOk result (λ frame. FrameDraws shadow.old view shadow.new frame) }
    ensures err { OnErr result (shadow.new ≡ shadow.old) }
{
    let Some(bytes) = draw(alloc, shadow, &view)? else {
        *spare = Some(view);
        return Ok(None);
    };
    let known = SharedView::new(alloc, view)?;
    *spare = unshared(mem::replace(&mut shadow.known, Some(known)));
    Ok(Some(bytes))
}

/// Appends the frame of `frame_keeping`; the shadow keeps a copy of the view. Exactly if the shadow
/// is known to show the view, nothing is appended and nothing changes. `Err` if memory is refused:
/// nothing has changed.
pub fn frame(
    alloc: Global,
    shadow: &mut Shadow,
    view: &View,
    out: &mut Vec<u8>,
) -> Result<(), AllocError>
    requires size { HasSize shadow.old.rows shadow.old.columns view.now }
    ensures draws { OnOk result
        (Appends shadow.old view.now shadow.new out.old.items out.new.items) }
    ensures size { OnOk result (KeepsTerminalSize shadow.old shadow.new) }
    ensures err { OnErr result
        ((shadow.new ≡ shadow.old) × (out.new.items ≡ out.old.items)) }
{
    let Some(bytes) = draw(alloc, shadow, view)? else {
        return Ok(());
    };
    let known = SharedView::new(alloc, view.copied(alloc)?)?;
    out.extend_from_slice(bytes.as_slice())?;
    shadow.known = Some(known);
    Ok(())
}
