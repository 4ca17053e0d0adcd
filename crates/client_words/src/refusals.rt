//! What refusals mean that are a number or a bad size, and what was refused.

use crate::arguments::{Arguments, Subcommand};
use crate::visible::put_visible;
use program_words::explain as explain_number;
use std::alloc::Global;
use std::io;
use std::io::Write;

// The sizes that a peer can have, as they follow a refusal.
fn bounds(subcommand: Subcommand) -> &'static [u8] {
    match subcommand {
        Subcommand::Attach => b" (4 to 200 lines by 20 to 300 columns)",
        Subcommand::Window | Subcommand::Command | Subcommand::Ping => {
            b" (2 to 200 lines by 2 to 300 columns, up to 2000 kept)"
        }
    }
}

// Puts what to do about a refusal. What makes a user known gives no right.
fn put_advice(said: &str, user: &str, out: &mut Vec<u8>) -> io::Result<()> {
    if said == "no window" {
        out.write_all(b": 'windows' lists them")
    } else if said == "unknown user" {
        write!(
            out,
            ": the session's owner makes {user} known without any right with 'aclchg {user} -rwx #?' and 'aclumask {user}-rwx'"
        )
    } else if said == "unknown user or wrong token" {
        out.write_all(b": compare the token's file with the users' file of muxd")
    } else {
        Ok(())
    }
}

// Whether a terminal shows each byte of a command line as itself.
fn is_plain(line: &str) -> bool {
    line.as_bytes()
        .iter()
        .all(|byte| 0x20 <= *byte && *byte <= 0x7E)
}

// Puts what follows a refusal's text.
fn put_explanation(said: &str, arguments: &Arguments<'_>, out: &mut Vec<u8>) -> io::Result<()> {
    if said == "bad size" {
        out.write_all(bounds(arguments.subcommand))?;
    } else {
        explain_number(said, arguments.line, out)?;
    }
    if arguments.subcommand.is_command() && is_plain(arguments.line) {
        write!(out, ": {}", arguments.line)?;
    } else {
        write!(out, ": {}", arguments.place())?;
    }
    put_advice(said, arguments.user, out)
}

/// Writes what follows a refusal's text: in parentheses what it means, if it is a number or a bad
/// size, then what was refused, which is the command line, or the user at the socket, and what to do
/// about it. The user's own words may have control characters, which are written as `\xNN`.
pub fn explain<E: Write>(
    alloc: Global,
    said: &str,
    arguments: &Arguments<'_>,
    errors: &mut E,
) -> io::Result<()> {
    let mut text = Vec::new(alloc);
    put_explanation(said, arguments, &mut text)?;
    let mut visible = Vec::new(alloc);
    put_visible(&text, &mut visible)?;
    errors.write_all(&visible)
}
