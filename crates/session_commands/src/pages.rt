//! Commands on the page of the client that gives them: which window the focused region shows, how the page is split,
//! which region has the focus, and how far that is scrolled back. A user enters the window in focus.

ghost use Rattle.std.specs.Prelude.{◌≡◌};
ghost use Rattle.command_lang.specs.declared.command.Command.TheVariants as command;
ghost use Rattle.session_model.specs.Commands.{way_of};
ghost use Rattle.session_state.specs.Doing.{GivesBy, HasRoom};
ghost use Rattle.session_commands.specs.Contexts.{DoesBy, DoesIf, HasRoomToAct};
ghost use Rattle.session_commands.specs.Giving.{IsFormer};
ghost use Rattle.session_commands.specs.Entering.{Shows, Enters, EntersInFocus};
ghost use Rattle.session_commands.specs.Scrolling.{scrolled};

use crate::giver::{CommandReply, Context, number_of, refusal_of};
use acl::{Act, Bit, Object, UserId};
use regions::{Layout, RegionFault, Shown, Way};
use session_model::{Refusal, WindowsFault};
use session_state::{Caller, Client};

/// A user enters an open window. If they may write there and its lock is free in mode auto, they take
/// the lock.
fn enter(context: &mut Context, user: UserId, window: u32)
    requires { HasRoom 1 context.old.made.now }
    ensures { Enters user window context.old context.new }
{
    let (state, made) = (&mut *context.state, &mut *context.made);
    made.acts.push(Act::Entered { user, window }).unwrap();
    let may_write = state
        .acl
        .may(user, Bit::Write, Object::Window(window))
        .is_ok();
    state.locks.entered(user, window, may_write);
}

/// A client's user enters the window in focus, if there is one. That window is open.
fn enter_focused(context: &mut Context, client: u32)
    requires { HasRoomToAct context.old }
    ensures { EntersInFocus client context.old context.new }
{
    let Some(row) = context.state.clients.get(client) else {
        return;
    };
    let user = row.user;
    let focused = row.layout.focused();
    if let Some(window) = focused.window {
        enter(context, user, window);
    }
}

/// Shows an open window in a client's focused region. The client's user enters it.
fn show(context: &mut Context, client: u32, window: u32)
    requires { HasRoomToAct context.old }
    ensures { Shows client window context.old context.new }
{
    let shown = Shown {
        window: Some(window),
        back: 0,
    };
    context
        .state
        .clients
        .on_page(client, |page| page.set_shown(shown));
    enter_focused(context, client);
}

/// `select`: shows the window that a word names. The user enters it.
pub fn select(context: &mut Context, client: u32, word: &str) -> CommandReply
    requires { HasRoomToAct context.old }
    ensures { DoesBy client (command.Select word.now) context.old result context.new }
{
    let Some(window) = context.state.windows.by_name(word) else {
        return Err(Refusal::Windows(WindowsFault::NoSuchWindow));
    };
    let window = window.serial;
    show(context, client, window);
    Ok(None)
}

/// `next`: shows the window with the next higher number, and after the highest the lowest. The user
/// enters it.
pub fn next(context: &mut Context, caller: Caller, client: u32) -> CommandReply
    requires { HasRoomToAct context.old }
    ensures { DoesIf (GivesBy client context.old.state.now caller) caller command.Next
        context.old result context.new }
{
    let from = number_of(context.state, caller);
    let Some(window) = context.state.windows.after(from) else {
        return Err(Refusal::NoWindow);
    };
    let window = window.serial;
    show(context, client, window);
    Ok(None)
}

/// `prev`: shows the window with the next lower number, and after the lowest the highest. The user
/// enters it.
pub fn prev(context: &mut Context, caller: Caller, client: u32) -> CommandReply
    requires { HasRoomToAct context.old }
    ensures { DoesIf (GivesBy client context.old.state.now caller) caller command.Prev
        context.old result context.new }
{
    let from = number_of(context.state, caller);
    let Some(window) = context.state.windows.before(from) else {
        return Err(Refusal::NoWindow);
    };
    let window = window.serial;
    show(context, client, window);
    Ok(None)
}

/// The window that a client's focused regions showed before this one. If the focused region is empty,
/// it is the last one that they showed.
fn former_of(client: &Client) -> Option<u32>
    ensures { IsFormer client.now result }
{
    let focused = client.layout.focused();
    match focused.window {
        None => client.last,
        Some(_) => client.former,
    }
}

/// `other`: shows the window that was shown before, if it is still open. The user enters it.
pub fn other(context: &mut Context, client: u32) -> CommandReply
    requires { HasRoomToAct context.old }
    ensures { DoesBy client command.Other context.old result context.new }
{
    let Some(row) = context.state.clients.get(client) else {
        return Err(Refusal::NoWindow);
    };
    let Some(former) = former_of(row) else {
        return Err(Refusal::NoWindow);
    };
    let Some(window) = context.state.windows.get(former) else {
        return Err(Refusal::NoWindow);
    };
    let window = window.serial;
    show(context, client, window);
    Ok(None)
}

/// The side of the second half of a split.
fn way_of(is_vertical: bool) -> Way
    ensures { result ≡ way_of is_vertical }
{
    if is_vertical { Way::Right } else { Way::Below }
}

/// `split`: splits the focused region in two halves. The second one is empty.
pub fn split(context: &mut Context, client: u32, is_vertical: bool) -> CommandReply
    requires { HasRoomToAct context.old }
    ensures { DoesBy client (command.Split is_vertical) context.old result context.new }
{
    let Some(row) = context.state.clients.get(client) else {
        return Err(Refusal::NoWindow);
    };
    let rows = row.shadow.rows();
    let columns = row.shadow.columns();
    let alloc = context.state.alloc;
    let way = way_of(is_vertical);
    match context
        .state
        .clients
        .try_on_page(client, |page| page.split(alloc, way, rows, columns))
    {
        Ok(()) => Ok(None),
        Err(fault) => Err(refusal_of(fault)),
    }
}

/// `focus`: gives the focus to the next region. The user enters the window there.
pub fn focus(context: &mut Context, client: u32) -> CommandReply
    requires { HasRoomToAct context.old }
    ensures { DoesBy client command.Focus context.old result context.new }
{
    context
        .state
        .clients
        .on_page(client, |page| page.focus_next());
    enter_focused(context, client);
    Ok(None)
}

/// `remove`: closes the focused region, unless it is the last one. The user enters the window that is
/// in focus then.
pub fn remove(context: &mut Context, client: u32) -> CommandReply
    requires { HasRoomToAct context.old }
    ensures { DoesBy client command.Remove context.old result context.new }
{
    let Some(row) = context.state.clients.get(client) else {
        return Err(Refusal::NoWindow);
    };
    if row.layout.shown().len() == 1 {
        return Err(Refusal::Regions(RegionFault::LastRegion));
    }
    if let Err(_) = context
        .state
        .clients
        .try_on_page(client, |page| page.remove())
    {
        return Err(Refusal::Regions(RegionFault::LastRegion));
    }
    enter_focused(context, client);
    Ok(None)
}

/// `only`: closes all regions but the focused one.
pub fn only(context: &mut Context, client: u32) -> CommandReply
    requires { HasRoomToAct context.old }
    ensures { DoesBy client command.Only context.old result context.new }
{
    context.state.clients.on_page(client, |page| page.only());
    Ok(None)
}

/// Scrolls a page's focused region back by this many lines.
fn scroll_back(page: &mut Layout, back: u16)
    ensures { page.new ≡ scrolled back page.old }
{
    let focused = page.focused();
    page.set_shown(Shown { back, ..focused });
}

/// `scrollview`: scrolls the focused region back by a number of lines.
pub fn scrollview(context: &mut Context, client: u32, back: u16) -> CommandReply
    requires { HasRoomToAct context.old }
    ensures { DoesBy client (command.Scrollview back) context.old result context.new }
{
    context
        .state
        .clients
        .on_page(client, |page| scroll_back(page, back));
    Ok(None)
}
