//! Frames that several terminals read.

ghost use Rattle.std.specs.Prelude.{◌≡◌, IfOk, OnOk, OnErr, IfNone, IfSome};
ghost use Rattle.cells.specs.Page.{IsGrid};
ghost use Rattle.terminal_model.specs.Shows.{NeedsNoDraw};
ghost use Rattle.view.specs.View.{HasSize};
ghost use Rattle.redraw.specs.Frames.{DrawsFrame};

use crate::frames::{draw, unshared};
use crate::shadow::Shadow;
use crate::shared::SharedView;
use std::alloc::{AllocError, Global};
use std::marker::Model;
use view::View;

/// A frame that several terminals can read: the bytes that lead each terminal of which this is
/// known to a view.
pub struct Frame {
    before: Shadow,
    view: SharedView,
    bytes: Vec<u8>,
}

impl Drop for Frame {
    fn drop(self) {
        let Frame {
            before: _,
            view: _,
            bytes: _,
        } = self;
    }
}

impl Model for Frame {
    ghost use Rattle.redraw.specs.Frames.{Made, IsFrameFor};

    ghost Value = { Made };

    ghost view = { λ f. record { before = f.before; view = f.view; bytes = f.bytes.items } };

    ghost invariant = { λ f. IsFrameFor f.before f.view f.bytes.items };
}

impl Frame {
    /// The frame from what is known of a terminal to a view of its size. `Ok(None)` exactly if the
    /// terminal is known to show the view; `Err` if memory is refused.
    pub fn to(
        alloc: Global,
        shadow: &Shadow,
        view: &SharedView,
    ) -> Result<Option<Frame>, AllocError>
        requires { HasSize shadow.now.rows shadow.now.columns view.now }
        ensures needless { IfOk result (λ frame. IfNone frame
            (NeedsNoDraw shadow.now.known view.now × IsGrid view.now.page)) }
        ensures made { IfOk result (λ frame. IfSome frame (λ f.
            (f.before ≡ shadow.now) × (f.view ≡ view.now))) }
    {
        let Some(bytes) = draw(alloc, shadow, view.get())? else {
            return Ok(None);
        };
        Ok(Some(Frame {
            before: shadow.shared()?,
            view: view.shared()?,
            bytes,
        }))
    }

    /// The bytes of the frame.
    pub fn bytes(&self) -> &[u8]
        ensures { result.now ≡ self.now.bytes }
    {
        self.bytes.as_slice()
    }

    /// The view that was known before the frame, if it has no other owner, so that its memory can
    /// be used again.
    pub fn into_spare(self) -> Option<View> {
        let Frame {
            before,
            view: _,
            bytes: _,
        } = self;
        unshared(before.into_known())
    }

    /// The view that the frame shows.
    pub fn view(&self) -> &SharedView
        ensures { result.now ≡ self.now.view }
    {
        &self.view
    }
}

impl Shadow {
    /// Records that a terminal reads a frame. If what was known of it is what was known before the
    /// frame, it is then known to show the frame's view.
    pub fn follow(&mut self, frame: &Frame) -> Result<(), AllocError>
        ensures ok { OnOk result (self.old ≡ frame.now.before
            → DrawsFrame self.old frame.now.view self.new frame.now.bytes) }
        ensures err { OnErr result (self.new ≡ self.old) }
    {
        if self.rows == frame.before.rows && self.columns == frame.before.columns {
            self.known = Some(frame.view.shared()?);
        }
        Ok(())
    }
}
