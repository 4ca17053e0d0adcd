//! The checks of an entry: which of them are before those of a command, and what they name.

ghost use Rattle.std.specs.Prelude.{◌≡◌};
ghost use Rattle.trail_log.specs.Checks.{asks_title, before_command, command_by, command_text, is_title, window_in};
ghost use Rattle.trail_log.specs.Checks.{window_of};

use acl::{CommandName, Object};
use command_lang::name_text;
use hub::asks_for_command;
use session::Verdict;

/// The checks before the first that asks for x on a command.
pub fn before_command(verdicts: &[Verdict]) -> &[Verdict]
    ensures { result.now ≡ before_command verdicts.now }
{
    for i in 0..verdicts.len() {
        if asks_for_command(verdicts[i]) {
            return &verdicts[..i];
        }
    }
    verdicts
}

/// The window that a check is of.
pub fn window_of(verdict: Verdict) -> Option<u32>
    ensures { result ≡ window_of verdict }
{
    match verdict {
        Verdict::Right {
            object: Object::Window(window),
            ..
        } => Some(window),
        Verdict::Right { .. } => None,
        Verdict::Lock { window, .. } => Some(window),
    }
}

/// The first window that checks are of.
pub fn window_in(verdicts: &[Verdict]) -> Option<u32>
    ensures { result ≡ window_in verdicts.now }
{
    for verdict in verdicts {
        if let Some(window) = window_of(*verdict) {
            return Some(window);
        }
    }
    None
}

/// The name of the command that a check is of.
fn command_by(verdict: Verdict) -> &'static [u8]
    ensures { result.now ≡ command_by verdict }
{
    match verdict {
        Verdict::Right {
            object: Object::Command(command),
            ..
        } => name_text(command).as_bytes(),
        _ => &[],
    }
}

/// The name of the command that the first check is of.
pub fn command_text(verdicts: &[Verdict]) -> &'static [u8]
    ensures { result.now ≡ command_text verdicts.now }
{
    match verdicts {
        [first, ..] => command_by(*first),
        [] => &[],
    }
}

/// Whether a check is of the command that sets a title.
fn is_title(verdict: Verdict) -> bool
    ensures { result ≡ is_title verdict }
{
    matches!(
        verdict,
        Verdict::Right {
            object: Object::Command(CommandName::Title),
            ..
        }
    )
}

/// Whether the first check is of the command that sets a title.
pub fn asks_title(verdicts: &[Verdict]) -> bool
    ensures { result ≡ asks_title verdicts.now }
{
    match verdicts {
        [first, ..] => is_title(*first),
        [] => false,
    }
}
