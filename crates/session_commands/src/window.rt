//! Commands on a window: its title, its number, its size, and what is written or typed to it.

ghost use Rattle.std.specs.Prelude.{◌≡◌, ◌<◌, IfOk, true};
ghost use Rattle.emulator.specs.Commanded.{writing_in};
ghost use Rattle.command_lang.specs.declared.command.Command.TheVariants as command;
ghost use Rattle.session_state.specs.Doing.{GivesBy};
ghost use Rattle.session_commands.specs.Contexts.{DoesIf, DoesOn, HasRoomToAct};
ghost use Rattle.session_commands.specs.Giving.{IsFocusedBox};
ghost use Rattle.session_commands.specs.Written.{writes, writing_of};

use crate::giver::{CommandReply, Context, refusal_of, window_of};
use command_lang::{Coding, Command};
use regions::{Rect, RegionFault};
use session_model::{Bytes, Effect, Refusal};
use session_state::{Caller, Client};
use std::alloc::Global;
use windows::{Writing, is_window_size};

/// `title`: gives a window another title.
pub fn title(context: &mut Context, window: u32, text: &str) -> CommandReply
    requires { HasRoomToAct context.old }
    ensures { DoesOn window (command.Title text.now) context.old result context.new }
{
    let alloc = context.state.alloc;
    context.state.windows.retitle(alloc, window, text)?;
    Ok(None)
}

/// `number`: gives a window another number, unless another window has it.
pub fn number(context: &mut Context, window: u32, n: u8) -> CommandReply
    requires { HasRoomToAct context.old }
    ensures { DoesOn window (command.Number n) context.old result context.new }
{
    context.state.windows.renumber(window, n)?;
    Ok(None)
}

/// What a command writes to its window.
fn writing_of(command: &Command) -> Writing
    requires { writes command.now ≡ true }
    ensures { writing_in result ≡ writing_of command.now }
{
    match command {
        Command::Clear => Writing::Clear,
        Command::Reset => Writing::Reset,
        Command::Encoding(Coding::Utf8) => Writing::Encoding(charsets::Coding::Utf8),
        Command::Encoding(Coding::Ecma35) => Writing::Encoding(charsets::Coding::Ecma35),
        _ => unreachable!(),
    }
}

/// `clear`, `reset` and `encoding`: writes to a window, as if its program had.
pub fn write(context: &mut Context, window: u32, command: &Command) -> CommandReply
    requires room { HasRoomToAct context.old }
    requires writes { writes command.now ≡ true }
    ensures { DoesOn window command.now context.old result context.new }
{
    context.state.windows.write(window, writing_of(command))?;
    Ok(None)
}

/// `stuff`: types bytes into a window.
pub fn stuff(context: &mut Context, window: u32, bytes: &[u8]) -> CommandReply
    requires { HasRoomToAct context.old }
    ensures { DoesOn window (command.Stuff bytes.now) context.old result context.new }
{
    if bytes.is_empty() {
        return Ok(None);
    }
    let typed = Bytes::of(context.state.alloc, bytes)?;
    context.made.effects.push(Effect::Input(window, typed))?;
    Ok(None)
}

/// The rectangle of a client's focused region.
fn focused_box(alloc: Global, client: &Client) -> Result<Rect, Refusal>
    ensures tall { IfOk result (λ r. 1 < r.rows) }
    ensures value { IsFocusedBox client.now result }
{
    let rows = client.shadow.rows();
    let columns = client.shadow.columns();
    match client.layout.rects(alloc, rows, columns) {
        Ok(rects) => Ok(rects.boxes[rects.focus]),
        Err(fault) => Err(refusal_of(fault)),
    }
}

/// `fit`: gives a window the size of the focused region without its caption.
pub fn fit(context: &mut Context, caller: Caller, client: u32) -> CommandReply
    requires { HasRoomToAct context.old }
    ensures { DoesIf (GivesBy client context.old.state.now caller) caller command.Fit
        context.old result context.new }
{
    let (state, made) = (&mut *context.state, &mut *context.made);
    let Some(row) = state.clients.get(client) else {
        return Err(Refusal::NoWindow);
    };
    let Some(window) = window_of(state, caller) else {
        return Err(Refusal::NoWindow);
    };
    let region = focused_box(state.alloc, row)?;
    let rows = region.rows - 1;
    if rows < 2 {
        return Err(Refusal::Regions(RegionFault::TooSmall));
    }
    if !is_window_size(rows, region.columns, 0) {
        return Err(Refusal::BadSize);
    }
    made.effects.reserve(1)?;
    state.windows.resize(window, rows, region.columns)?;
    made.effects
        .push(Effect::Size(window, rows, region.columns))
        .unwrap();
    Ok(None)
}
