//! How a command is checked and carried out.

ghost use Rattle.std.specs.Prelude.{◌≡◌, true, false, Some, None, IfOk, IfErr};
ghost use Rattle.std.specs.Option.{is_some};
ghost use Rattle.command_lang.specs.Needs.{needs};
ghost use Rattle.session_state.specs.Doing.{GivesBy, IsAsBefore, IsWhole};
ghost use Rattle.session_model.specs.declared.refusal.Refusal.TheVariants.{NoWindow};
ghost use Rattle.session_commands.specs.Contexts.{Does, HasRoomToAct};
ghost use Rattle.session_input.specs.Ruled.{Acts, Rules};

use command_lang::{Command, needs_of};
use session_checks::check_command;
use session_commands::{
    CommandReply, Context, acladd, aclchg, acldel, aclgrp, aclgrp_of, aclumask, client_of,
    defwritelock, detach, displays, fit, focus, kill, multiuser, next, number, only, other, prev,
    quit, remove, screen, scrollview, select, split, stuff, title, wall, windows, write, writelock,
};
use session_model::Refusal;
use session_state::{Caller, State, Step};

/// The serial of the window of a caller's command.
fn window_of(caller: Caller) -> Result<u32, Refusal>
    ensures ok { IfOk result (λ window. caller.window ≡ Some window) }
    ensures err { IfErr result (λ refusal. (refusal ≡ NoWindow) × (caller.window ≡ None)) }
{
    match caller.window {
        Some(window) => Ok(window),
        None => Err(Refusal::NoWindow),
    }
}

/// Carries out a command that needs a client, for the one that gives it.
fn act_on_client(
    context: &mut Context,
    caller: Caller,
    client: u32,
    command: &Command,
) -> CommandReply
    requires room { HasRoomToAct context.old }
    requires gives { GivesBy client context.old.state.now caller }
    requires client { (needs command.now).client ≡ true }
    ensures { Does caller command.now context.old result context.new }
{
    match command {
        Command::Detach => detach(context, client),
        Command::Select(word) => select(context, client, word.as_str()),
        Command::Next => next(context, caller, client),
        Command::Prev => prev(context, caller, client),
        Command::Other => other(context, client),
        Command::Split { vertical } => split(context, client, *vertical),
        Command::Focus => focus(context, client),
        Command::Remove => remove(context, client),
        Command::Only => only(context, client),
        Command::Fit => fit(context, caller, client),
        Command::Scrollview(back) => scrollview(context, client, *back),
        _ => unreachable!(),
    }
}

/// Carries out a command that needs a window and no client.
fn act_on_window(
    context: &mut Context,
    caller: Caller,
    window: u32,
    command: &Command,
) -> CommandReply
    requires room { HasRoomToAct context.old }
    requires gives { caller.window ≡ Some window }
    requires client { (needs command.now).client ≡ false }
    requires window { (needs command.now).window ≡ true }
    ensures { Does caller command.now context.old result context.new }
{
    match command {
        Command::Writelock(mode) => writelock(context, caller, window, *mode),
        Command::Title(text) => title(context, window, text.as_str()),
        Command::Number(n) => number(context, window, *n),
        Command::Kill => kill(context, window),
        Command::Clear | Command::Reset | Command::Encoding(_) => write(context, window, command),
        Command::Stuff(text) => stuff(context, window, text.as_str().as_bytes()),
        _ => unreachable!(),
    }
}

/// Carries out a command whose checks have passed.
#[tactic(auto, using(crate::proofs::Acting::silent_lists, crate::proofs::Acting::locks_need_window))]
fn act(context: &mut Context, caller: Caller, command: &Command) -> CommandReply
    requires { HasRoomToAct context.old }
    ensures { Acts caller command.now context.old result context.new }
{
    let needed = needs_of(command);
    if needed.client {
        let client = client_of(context.state, caller)?;
        return act_on_client(context, caller, client, command);
    }
    if needed.window {
        let window = window_of(caller)?;
        return act_on_window(context, caller, window, command);
    }
    match command {
        Command::Acladd(users) => acladd(context, users),
        Command::Aclchg { users, bits, list } => aclchg(context, users, bits, list),
        Command::Acldel(user) => acldel(context, user.as_str()),
        Command::Aclgrp {
            user,
            leader: Some(leader),
        } => aclgrp(context, user, leader),
        Command::Aclgrp { user, leader: None } => aclgrp_of(context.state, caller, user.as_str()),
        Command::Aclumask(masks) => aclumask(context, caller, masks),
        Command::Defwritelock(mode) => defwritelock(context, *mode),
        Command::Multiuser(is_on) => multiuser(context, *is_on),
        Command::Wall(text) => wall(context, caller, text.as_str().as_bytes()),
        Command::Screen => screen(context.state, caller),
        Command::Windows => windows(context.state, caller),
        Command::Displays => displays(context.state, caller),
        Command::Quit => quit(context),
        _ => unreachable!(),
    }
}

/// Makes the checks of a command, and then carries it out. A command that lists changes nothing. A
/// refusal changes nothing but the notes of what was checked.
pub fn order(state: &mut State, caller: Caller, command: &Command, step: &mut Step) -> CommandReply
    ensures ruled { Rules caller command.now state.old result state.new step.old step.new }
    ensures lists { IfOk result (λ text. is_some text ≡ true
        → IsAsBefore state.old state.new step.old.made step.new.made) }
    ensures whole { IsWhole result state.old state.new step.old.made step.new.made }
{
    check_command(state, caller, command, &mut step.verdicts)?;
    step.made.acts.reserve(256)?;
    let mut context = Context {
        state,
        made: &mut step.made,
    };
    act(&mut context, caller, command)
}
