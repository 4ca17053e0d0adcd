//! Commands and events by which clients go or windows are closed, and the one that speaks to all clients.

ghost use Rattle.std.specs.Prelude.{◌≡◌, true, IsOk, ◌++◌, codes, IfOk};
ghost use Rattle.command_lang.specs.declared.command.Command.TheVariants as command;
ghost use Rattle.session_model.specs.declared.event.Reason.TheVariants as reason;
ghost use Rattle.session_state.specs.Doing.{HasRoomToLeave};
ghost use Rattle.session_commands.specs.Contexts.{DoesForAll, DoesBy, DoesOn, Does, HasRoomToAct};
ghost use Rattle.session_commands.specs.Closing.{closing};
ghost use Rattle.session_commands.specs.Settling.{Settles, detaching};
ghost use Rattle.acl.specs.Names.{name_of};

use crate::closing::{close, gone_windows, note_closed};
use crate::giver::{CommandReply, Context};
use crate::going::{Going, attached, go, gone_clients, note_parted};
use acl::UserId;
use session_model::{Reason, Refusal};
use session_state::{Caller, messages_of};
use std::alloc::{AllocError, Global};

/// Removes a client whose terminal went.
pub fn detach_client(context: &mut Context, client: u32) -> Result<(), Refusal>
    ensures { Settles (detaching client) context.old result context.new }
{
    let Some(_client) = context.state.clients.get(client) else {
        return Err(Refusal::NoWindow);
    };
    go(context, Going::One(client), Reason::Detached)?;
    Ok(())
}

/// Closes a window whose program ended.
pub fn close_window(context: &mut Context, window: u32) -> Result<(), Refusal>
    ensures { Settles (closing window reason.Detached) context.old result context.new }
{
    close(context, window, Reason::Detached)
}

/// `detach`: removes the client that gives the command.
pub fn detach(context: &mut Context, client: u32) -> CommandReply
    ensures { DoesBy client command.Detach context.old result context.new }
{
    detach_client(context, client)?;
    Ok(None)
}

/// `kill`: closes the window.
pub fn kill(context: &mut Context, window: u32) -> CommandReply
    ensures { DoesOn window command.Kill context.old result context.new }
{
    close(context, window, Reason::Killed)?;
    Ok(None)
}

/// `quit`: closes all windows, and removes all clients.
pub fn quit(context: &mut Context) -> CommandReply
    ensures { DoesForAll command.Quit context.old result context.new }
{
    let (state, made) = (&mut *context.state, &mut *context.made);
    let windows = state.windows.as_slice();
    let clients = state.clients.as_slice();
    let mut rows = attached(state.alloc, clients)?;
    let mut gone = gone_windows(state.alloc, windows, Reason::Quit)?;
    let mut parted = gone_clients(state.alloc, clients, Going::All, Reason::Quit)?;
    gone.append(&mut parted)?;
    made.acts.reserve(windows.len() + clients.len() + 64)?;
    made.effects.append(&mut gone)?;
    note_closed(windows, &mut state.acl, &mut state.locks, &mut made.acts);
    note_parted(
        clients,
        Going::All,
        &mut rows,
        &mut state.locks,
        &mut made.acts,
    );
    state.windows.close_all();
    state.clients.clear();
    Ok(None)
}

/// `multiuser`: lets other users than the owner in, or removes their clients. `on` takes no memory if
/// there is room for acts.
pub fn multiuser(context: &mut Context, is_on: bool) -> CommandReply
    ensures does { DoesForAll (command.Multiuser is_on) context.old result context.new }
    ensures memory { is_on ≡ true → HasRoomToLeave context.old.made.now → IsOk result }
{
    if is_on {
        context.made.acts.reserve(64)?;
        context.state.is_multiuser = true;
        return Ok(None);
    }
    let owner = context.state.acl.owner();
    go(context, Going::AllBut(owner), Reason::SingleUser)?;
    context.state.is_multiuser = false;
    Ok(None)
}

/// The message of a user to all: `USER: TEXT`.
fn said_by(alloc: Global, user: UserId, text: &[u8]) -> Result<Vec<u8>, AllocError>
    ensures { IfOk result (λ said. said.items ≡ name_of user ++ (codes ": " ++ text.now)) }
{
    let mut said = Vec::new(alloc);
    said.extend_from_slice(user.as_bytes())?;
    said.extend_from_slice(b": ")?;
    said.extend_from_slice(text)?;
    Ok(said)
}

/// `wall`: tells every client the caller's message.
pub fn wall(context: &mut Context, caller: Caller, text: &[u8]) -> CommandReply
    requires { HasRoomToAct context.old }
    ensures { Does caller (command.Wall text.now) context.old result context.new }
{
    let (state, made) = (&mut *context.state, &mut *context.made);
    let said = said_by(state.alloc, caller.user, text)?;
    let mut messages = messages_of(state.alloc, &said, state.clients.len())?;
    let mut says = state.clients.says(state.alloc, &said)?;
    made.effects.append(&mut says)?;
    state.clients.hear_all(&mut messages);
    Ok(None)
}
