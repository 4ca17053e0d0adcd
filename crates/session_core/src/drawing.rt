//! How clients are drawn.

ghost use Rattle.std.specs.Prelude.{◌≡◌, IfOk, OnOk, OnErr, true, false};
ghost use Rattle.session_model.specs.Trace.{Draw, happening};
ghost use Rattle.session_state.specs.Doing.{IsAsBefore};
ghost use Rattle.session_view.specs.Drawn.{IsRefusedFor};
ghost use Rattle.session_core.specs.Drawn.{draws_one_of, AreNoted};
ghost use Rattle.session_core.specs.Sharing.{SharesOrForgets};
ghost use Rattle.session_core.specs.Taking.{Takes, DrawsSharing};

use crate::coming::made_so;
use crate::sharing::{Sharing, keep_memory};
use redraw::Frame;
use session_model::{Event, Refusal, Reply};
use session_state::{State, Step, StepOutput};
use session_view::{Lead, draw, draw_like};

/// Draws for a client by the frame that others follow, if the client sees the same, and else does
/// nothing.
fn follow(
    state: &mut State,
    sharing: &mut Sharing,
    client: u32,
    made: &mut StepOutput,
) -> Result<bool, Refusal>
    ensures drawn { IfOk result (λ follows. follows ≡ true → DrawsSharing client state.old
        sharing.old state.new sharing.new made.old made.new) }
    ensures other { IfOk result (λ follows. follows ≡ false
        → IsAsBefore state.old state.new made.old made.new) }
    ensures same { IfOk result (λ follows. follows ≡ false → sharing.new ≡ sharing.old) }
    ensures err { OnErr result (IsAsBefore state.old state.new made.old made.new) }
    ensures unshared { OnErr result (sharing.new ≡ sharing.old) }
    ensures refused { IsRefusedFor client state.old result }
{
    let Some(lead) = sharing.lead() else {
        return Ok(false);
    };
    if !draw_like(state, client, lead, sharing.knows(client), made)? {
        return Ok(false);
    }
    sharing.join(client);
    Ok(true)
}

/// Notes that a client was drawn by a frame of its own, and whether others may follow that frame.
fn share(state: &mut State, sharing: &mut Sharing, client: u32, frame: Frame)
    ensures state { state.new ≡ state.old }
    ensures shared { SharesOrForgets client frame sharing.old sharing.new }
{
    let lead = Lead { client, frame };
    let unneeded = if sharing.may_lead(state, client) {
        sharing.begin(lead)
    } else {
        sharing.forget(client);
        Some(lead)
    };
    keep_memory(state, unneeded);
}

/// Draws for a client by a frame of its own.
fn draw_alone(
    state: &mut State,
    sharing: &mut Sharing,
    client: u32,
    made: &mut StepOutput,
) -> Result<(), Refusal>
    ensures drawn { OnOk result (DrawsSharing client state.old sharing.old
        state.new sharing.new made.old made.new) }
    ensures err { OnErr result (IsAsBefore state.old state.new made.old made.new) }
    ensures unshared { OnErr result (sharing.new ≡ sharing.old) }
    ensures refused { IsRefusedFor client state.old result }
{
    let Some(frame) = draw(state, client, made)? else {
        return Ok(());
    };
    share(state, sharing, client, frame);
    Ok(())
}

/// Sends a client what its terminal is to show.
pub(crate) fn draw_client(
    state: &mut State,
    sharing: &mut Sharing,
    client: u32,
    step: &mut Step,
) -> Reply
    ensures step { Takes (Draw client) state.old sharing.old result
        state.new sharing.new step.old step.new }
    ensures err { OnErr result (IsAsBefore state.old state.new step.old.made step.new.made) }
    ensures unshared { OnErr result (sharing.new ≡ sharing.old) }
{
    if follow(state, sharing, client, &mut step.made)? {
        return Ok(made_so(0, 0));
    }
    draw_alone(state, sharing, client, &mut step.made)?;
    Ok(made_so(0, 0))
}

/// Whether an event is a draw of one of these clients.
pub(crate) fn draws_one_of(clients: &[u32], event: Event) -> bool
    ensures { result ≡ draws_one_of clients.now (happening event.entry) }
{
    match event {
        Event::Draw { client } => clients.contains(&client),
        _ => false,
    }
}

/// Notes which clients need no draw after a step. A draw adds its client, if there is room; any other
/// event may have changed what clients are to show.
pub(crate) fn note_drawn(clients: &mut Vec<u32>, event: Event, reply: &Reply)
    ensures { AreNoted reply.now (happening event.entry) clients.old.items clients.new.items }
{
    match (reply, event) {
        (Err(_refusal), _) => {}
        (Ok(_done), Event::Draw { client }) => {
            let _kept = clients.push(client);
        }
        (Ok(_done), _) => clients.clear(),
    }
}
