//! How a client is drawn: by itself, or as another client that is granted the same.

ghost use Rattle.std.specs.Prelude.{◌≡◌, true, false, IfOk, OnErr, OnOk};
ghost use Rattle.session_state.specs.Doing.{IsAsBefore};
ghost use Rattle.session_view.specs.Following.{DrawsLike, IsLeftAlone};
ghost use Rattle.session_view.specs.Drawn.{DrawsFor, DrawsBy, Delivers, IsRefusedFor};

use crate::sameness::see_the_same;
use crate::viewing::view_for;
use redraw::{Frame, SharedView};
use session_model::{Bytes, Effect, Refusal};
use session_state::{State, StepOutput};
use std::alloc::AllocError;
use view::View;

/// Delivers a frame to a client by one effect. A refusal leaves all as it was.
fn deliver(
    state: &mut State,
    client: u32,
    frame: &Frame,
    made: &mut StepOutput,
) -> Result<(), AllocError>
    ensures ok { OnOk result
        (Delivers client frame.now state.old state.new made.old made.new) }
    ensures err { OnErr result (IsAsBefore state.old state.new made.old made.new) }
{
    made.effects.reserve(1)?;
    let bytes = Bytes::of(state.alloc, frame.bytes())?;
    state.clients.follow(client, frame)?;
    made.effects.push(Effect::Deliver(client, bytes)).unwrap();
    Ok(())
}

/// Draws for a client what it is granted to see: one effect delivers a frame to it, but none if its
/// terminal is known to show that already. It is `NoWindow` if no client has this serial. A refusal
/// leaves all as it was. The frame is returned.
pub fn draw(state: &mut State, client: u32, made: &mut StepOutput) -> Result<Option<Frame>, Refusal>
    ensures ok { OnOk result (DrawsFor client state.old state.new made.old made.new) }
    ensures by { IfOk result (λ frame.
        DrawsBy client frame state.old state.new made.old made.new) }
    ensures refused { IsRefusedFor client state.old result }
    ensures err { OnErr result (IsAsBefore state.old state.new made.old made.new) }
{
    let spare = state.clients.take_spare();
    let Some(row) = state.clients.get(client) else {
        return Err(Refusal::NoWindow);
    };
    let view = SharedView::new(state.alloc, view_for(state, row, spare)?)?;
    let Some(frame) = state.clients.frame(state.alloc, client, &view)? else {
        state.clients.keep_spare(view.into_view());
        return Ok(None);
    };
    deliver(state, client, &frame, made)?;
    Ok(Some(frame))
}

/// A frame, and the client for which it was made.
pub struct Lead {
    pub client: u32,
    pub frame: Frame,
}

impl Drop for Lead {
    fn drop(self) {
        let Lead {
            client: _,
            frame: _,
        } = self;
    }
}

impl Lead {
    /// The view that was known before the frame, for its memory, if nobody else has it.
    pub fn into_spare(self) -> Option<View> {
        let Lead { client: _, frame } = self;
        frame.into_spare()
    }
}

/// Draws for a client what another client is granted to see, if both are known to see the same. If the
/// two terminals showed the same before, this takes the frame that was made for the other client, and
/// else a frame of its own. It does nothing if the clients aren't known to see the same, if the client's
/// terminal shows that already, or if memory is refused.
pub fn draw_like(
    state: &mut State,
    client: u32,
    lead: &Lead,
    knows: bool,
    made: &mut StepOutput,
) -> Result<bool, AllocError>
    ensures drawn { IfOk result (λ same. same ≡ true
        → DrawsLike client lead.now knows state.old state.new made.old made.new) }
    ensures other { IfOk result (λ same. same ≡ false
        → IsAsBefore state.old state.new made.old made.new) }
    ensures left { IfOk result (λ same. same ≡ false
        → IsLeftAlone client lead.now knows state.old) }
    ensures err { OnErr result (IsAsBefore state.old state.new made.old made.new) }
{
    if !see_the_same(state, client, lead.client) {
        return Ok(false);
    }
    if knows {
        deliver(state, client, &lead.frame, made)?;
        return Ok(true);
    }
    let Some(frame) = state.clients.frame(state.alloc, client, lead.frame.view())? else {
        return Ok(false);
    };
    deliver(state, client, &frame, made)?;
    state.clients.keep_spare(frame.into_spare());
    Ok(true)
}
