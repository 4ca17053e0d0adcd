//! How a session takes a step: how clients attach, change their sizes and go, and how windows open, print and close.

ghost use Rattle.std.specs.Prelude.{◌≡◌, Err, OnErr};
ghost use Rattle.session_model.specs.declared.refusal.Refusal.TheVariants.{NoMemory};
ghost use Rattle.session_model.specs.Trace.{Attach, Resize, Open, Output, Detach, Closed, happening};
ghost use Rattle.session_model.specs.Outcomes.{reply_of};
ghost use Rattle.session_state.specs.Doing.{IsAsBefore};
ghost use Rattle.session_input.specs.Stepping.{Steps};
ghost use Rattle.session_core.specs.Taking.{Takes};

use crate::drawing::draw_client;
use crate::sharing::Sharing;
use acl::UserId;
use session_checks::{check_attach, check_open, check_resize};
use session_commands::{Context, close_window, detach_client};
use session_events::{Focuses, attach, leave, open, output, resize};
use session_input::{give_keys, give_line};
use session_model::{Done, Event, Refusal, Reply};
use session_state::{State, Step, WindowSize};

/// The answer if nothing was read and nothing is listed: the serial and the number of what was made.
pub(crate) fn made_so(made: u32, number: u8) -> Done
    ensures { Ok result ≡ reply_of 0 made number None }
{
    Done {
        taken: 0,
        made,
        number,
        text: None,
    }
}

/// Attaches a client of a user.
pub(crate) fn attach_client(
    state: &mut State,
    user: UserId,
    rows: u16,
    columns: u16,
    step: &mut Step,
) -> Reply
    ensures step { Steps (Attach user rows columns) state.old result state.new step.old step.new }
    ensures err { OnErr result (IsAsBefore state.old state.new step.old.made step.new.made) }
{
    let focuses = Focuses::of(state);
    check_attach(state, user, rows, columns, &mut step.verdicts)?;
    step.made.acts.reserve(256)?;
    let client = attach(state, user, rows, columns, &mut step.made)?;
    leave(state, &focuses, &mut step.made);
    Ok(made_so(client, 0))
}

/// Gives a client's terminal another size.
pub(crate) fn resize_client(
    state: &mut State,
    client: u32,
    rows: u16,
    columns: u16,
    step: &mut Step,
) -> Reply
    ensures step { Steps (Resize client rows columns) state.old result state.new step.old step.new }
    ensures err { OnErr result (IsAsBefore state.old state.new step.old.made step.new.made) }
{
    let Some(_client) = state.clients.get(client) else {
        return Err(Refusal::NoWindow);
    };
    let focuses = Focuses::of(state);
    check_resize(state, rows, columns, &mut step.verdicts)?;
    step.made.acts.reserve(256)?;
    resize(state, client, rows, columns, &mut step.made);
    leave(state, &focuses, &mut step.made);
    Ok(made_so(0, 0))
}

/// Opens a window for a user.
pub(crate) fn open_window(
    state: &mut State,
    user: UserId,
    size: WindowSize,
    title: &str,
    step: &mut Step,
) -> Reply
    ensures step { Steps (Open user size.rows size.columns size.keep title.now)
        state.old result state.new step.old step.new }
    ensures err { OnErr result (IsAsBefore state.old state.new step.old.made step.new.made) }
{
    let focuses = Focuses::of(state);
    check_open(state, user, size, title, &mut step.verdicts)?;
    step.made.acts.reserve(256)?;
    let (window, number) = open(state, user, size, title, &mut step.made)?;
    leave(state, &focuses, &mut step.made);
    Ok(made_so(window, number))
}

/// Takes what a window's program writes. No client's page changes, so nobody leaves a window, and no act
/// needs room.
pub(crate) fn write(state: &mut State, window: u32, bytes: &[u8], step: &mut Step) -> Reply
    ensures step { Steps (Output window bytes.now) state.old result state.new step.old step.new }
    ensures err { OnErr result (IsAsBefore state.old state.new step.old.made step.new.made) }
{
    let Some(_window) = state.windows.get(window) else {
        return Err(Refusal::NoWindow);
    };
    output(state, window, bytes, &mut step.made)?;
    Ok(made_so(0, 0))
}

/// Removes a client whose terminal went.
pub(crate) fn let_go(state: &mut State, client: u32, step: &mut Step) -> Reply
    ensures step { Steps (Detach client) state.old result state.new step.old step.new }
    ensures err { OnErr result (IsAsBefore state.old state.new step.old.made step.new.made) }
{
    let focuses = Focuses::of(state);
    let mut context = Context {
        state,
        made: &mut step.made,
    };
    detach_client(&mut context, client)?;
    leave(state, &focuses, &mut step.made);
    Ok(made_so(0, 0))
}

/// Closes a window whose program ended.
pub(crate) fn end_window(state: &mut State, window: u32, step: &mut Step) -> Reply
    ensures step { Steps (Closed window) state.old result state.new step.old step.new }
    ensures err { OnErr result (IsAsBefore state.old state.new step.old.made step.new.made) }
{
    let focuses = Focuses::of(state);
    let mut context = Context {
        state,
        made: &mut step.made,
    };
    close_window(&mut context, window)?;
    leave(state, &focuses, &mut step.made);
    Ok(made_so(0, 0))
}

/// Takes a step of a session: its checks are made and noted, then it does what its event does, and at
/// its end users leave the windows that none of their clients has in focus any more. A step that found
/// no memory leaves nothing but the notes of what was checked.
pub fn take(state: &mut State, sharing: &mut Sharing, event: Event, step: &mut Step) -> Reply
    ensures step { Takes (happening event.entry) state.old sharing.old result state.new sharing.new
        step.old step.new }
    ensures memory { result ≡ Err NoMemory → IsAsBefore state.old state.new
        step.old.made step.new.made }
    ensures unshared { result ≡ Err NoMemory → sharing.new ≡ sharing.old }
{
    match event {
        Event::Attach {
            user,
            rows,
            columns,
        } => attach_client(state, user, rows, columns, step),
        Event::Detach { client } => let_go(state, client, step),
        Event::Keys { client, bytes } => give_keys(state, client, bytes, step),
        Event::Command { user, window, line } => give_line(state, user, window, line, step),
        Event::Resize {
            client,
            rows,
            columns,
        } => resize_client(state, client, rows, columns, step),
        Event::Open {
            user,
            rows,
            columns,
            keep,
            title,
        } => {
            let size = WindowSize {
                rows,
                columns,
                keep,
            };
            open_window(state, user, size, title, step)
        }
        Event::Output { window, bytes } => write(state, window, bytes, step),
        Event::Closed { window } => end_window(state, window, step),
        Event::Draw { client } => draw_client(state, sharing, client, step),
    }
}
