//! What a log tells of an event: who, and what.

ghost use Rattle.std.specs.Prelude.{◌≡◌, ◌++◌, [], OnOk, codes, decimal};
ghost use Rattle.hub.specs.Clients.{user_in};
ghost use Rattle.trail_log.specs.Causes.{cause_text};
ghost use Rattle.trail_log.specs.Lines.{attach_text, client_text, closed_text, command_line, deed_text, detach_text};
ghost use Rattle.trail_log.specs.Lines.{ended_text, open_text};

use crate::causes::{push_cause, refused_verb};
use crate::checks::window_in;
use crate::names::Names;
use crate::pressed::push_keys;
use crate::titles::{Titled, push_on, push_titled, push_window};
use acl::UserId;
use hub::{Ending, Kept};
use session::{Refusal, Verdict, push_decimal};
use std::alloc::AllocError;

/// Appends the user of a client, or the client's serial if it isn't attached.
pub fn push_client(user: Option<UserId>, client: u32, out: &mut Vec<u8>) -> Result<(), AllocError>
    ensures { OnOk result (out.new.items ≡ out.old.items ++ client_text user client) }
{
    match user {
        Some(user) => out.extend_from_slice(user.as_bytes()),
        None => {
            out.extend_from_slice(b"client ")?;
            push_decimal(u64::from(client), out)
        }
    }
}

/// Appends words and a client's serial.
fn push_serial(words: &[u8], client: u32, out: &mut Vec<u8>) -> Result<(), AllocError>
    ensures { OnOk result (out.new.items ≡ out.old.items ++ (words.now ++ (decimal client ++ codes ")"))) }
{
    out.extend_from_slice(words)?;
    push_decimal(u64::from(client), out)?;
    out.extend_from_slice(b")")
}

/// Appends words, and why something was refused.
fn push_refused(words: &[u8], refusal: &Refusal, out: &mut Vec<u8>) -> Result<(), AllocError>
    ensures { OnOk result (out.new.items ≡ out.old.items ++ (words.now ++ cause_text [] refusal.now)) }
{
    out.extend_from_slice(words)?;
    push_cause(refusal, &[], out)
}

/// Appends whether a client was attached, or why not.
fn push_attach(ending: Ending, out: &mut Vec<u8>) -> Result<(), AllocError>
    ensures { OnOk result (out.new.items ≡ out.old.items ++ attach_text ending) }
{
    match ending {
        Ok(finished) => push_serial(b" attached (client ", finished.made, out),
        Err(refusal) => push_refused(b" couldn't attach: ", &refusal, out),
    }
}

/// Appends what became of a client that goes.
fn push_detach(client: u32, ending: Ending, out: &mut Vec<u8>) -> Result<(), AllocError>
    ensures { OnOk result (out.new.items ≡ out.old.items ++ detach_text client ending) }
{
    match ending {
        Ok(_) => push_serial(b" detached (client ", client, out),
        Err(refusal) => push_refused(b" couldn't detach: ", &refusal, out),
    }
}

/// Appends what became of a command's line, and the window on which it acts, if it does.
fn push_command(
    titles: &[Titled],
    line: &[u8],
    window: Option<u32>,
    ending: Ending,
    out: &mut Vec<u8>,
) -> Result<(), AllocError>
    ensures { OnOk result (out.new.items ≡ out.old.items ++ command_line titles.now line.now window ending) }
{
    let Err(refusal) = ending else {
        out.extend_from_slice(b" ran ")?;
        out.extend_from_slice(line)?;
        return push_on(titles, window, out);
    };
    out.extend_from_slice(refused_verb(&refusal))?;
    out.extend_from_slice(line)?;
    push_on(titles, window, out)?;
    out.extend_from_slice(b": ")?;
    push_cause(&refusal, line, out)
}

/// Appends whether a window was opened, or why not.
fn push_open(title: &[u8], ending: Ending, out: &mut Vec<u8>) -> Result<(), AllocError>
    ensures { OnOk result (out.new.items ≡ out.old.items ++ open_text title.now ending) }
{
    match ending {
        Ok(finished) => {
            out.extend_from_slice(b" opened ")?;
            push_titled(title, finished.made, out)
        }
        Err(refusal) => {
            out.extend_from_slice(b" couldn't open ")?;
            out.extend_from_slice(title)?;
            push_refused(b": ", &refusal, out)
        }
    }
}

/// Appends that something ended.
fn push_ended(ending: Ending, out: &mut Vec<u8>) -> Result<(), AllocError>
    ensures { OnOk result (out.new.items ≡ out.old.items ++ ended_text ending) }
{
    match ending {
        Ok(_) => out.extend_from_slice(b" ended"),
        Err(refusal) => push_refused(b" ended: ", &refusal, out),
    }
}

/// Appends that a window's program ended.
fn push_closed(
    titles: &[Titled],
    window: u32,
    ending: Ending,
    out: &mut Vec<u8>,
) -> Result<(), AllocError>
    ensures { OnOk result (out.new.items ≡ out.old.items ++ closed_text titles.now window ending) }
{
    out.extend_from_slice(b"the program of ")?;
    push_window(titles, window, out)?;
    push_ended(ending, out)
}

/// Appends who gave an event, and what became of it.
pub fn push_deed(
    names: &Names,
    event: &Kept,
    verdicts: &[Verdict],
    ending: Ending,
    out: &mut Vec<u8>,
) -> Result<(), AllocError>
    ensures { OnOk result (out.new.items ≡ out.old.items
        ++ deed_text names.now event.now verdicts.now ending) }
{
    match event {
        Kept::Attach { user, .. } => {
            out.extend_from_slice(user.as_bytes())?;
            push_attach(ending, out)
        }
        Kept::Detach { client } => {
            push_client(names.user_of(*client), *client, out)?;
            push_detach(*client, ending, out)
        }
        Kept::Keys { client } => {
            push_client(names.user_of(*client), *client, out)?;
            push_keys(names.titles(), verdicts, ending, out)
        }
        Kept::Command { user, line, .. } => {
            out.extend_from_slice(user.as_bytes())?;
            push_command(
                names.titles(),
                line.as_slice(),
                window_in(verdicts),
                ending,
                out,
            )
        }
        Kept::Open { user, title, .. } => {
            out.extend_from_slice(user.as_bytes())?;
            push_open(title.as_slice(), ending, out)
        }
        Kept::Closed { window } => push_closed(names.titles(), *window, ending, out),
    }
}
