//! What a log tells of keys: bytes that were typed, and then a command.

ghost use Rattle.std.specs.Prelude.{◌≡◌, ◌++◌, OnOk};
ghost use Rattle.trail_log.specs.Lines.{asked_by, asked_text, count_text, keys_text, pressed_text, typed_by};
ghost use Rattle.trail_log.specs.Lines.{typed_rest, typed_text, typed_verb};

use crate::causes::{push_cause, push_check};
use crate::checks::{before_command, command_text, window_in};
use crate::titles::{Titled, push_into, push_on};
use hub::{Ending, failed, from_command};
use session::{Verdict, push_decimal};
use std::alloc::AllocError;

/// Appends how many bytes.
pub fn push_count(count: u64, out: &mut Vec<u8>) -> Result<(), AllocError>
    ensures { OnOk result (out.new.items ≡ out.old.items ++ count_text count) }
{
    if count == 1 {
        return out.extend_from_slice(b"1 byte");
    }
    push_decimal(count, out)?;
    out.extend_from_slice(b" bytes")
}

/// Whether bytes were typed, or denied by a check.
pub fn typed_verb(denied: Option<Verdict>) -> &'static [u8]
    ensures { result.now ≡ typed_verb denied }
{
    match denied {
        Some(_) => b" was denied ",
        None => b" typed ",
    }
}

/// Appends into which window bytes were typed, and the check that denied them, if one did.
pub fn push_typed_rest(
    titles: &[Titled],
    window: Option<u32>,
    denied: Option<Verdict>,
    out: &mut Vec<u8>,
) -> Result<(), AllocError>
    ensures { OnOk result (out.new.items ≡ out.old.items ++ typed_rest titles.now window denied) }
{
    let Some(verdict) = denied else {
        return push_into(titles, window, out);
    };
    push_into(titles, window, out)?;
    out.extend_from_slice(b": ")?;
    push_check(verdict, out)
}

/// Appends how many bytes were typed into a window, or denied by a check.
fn push_typed_by(
    titles: &[Titled],
    taken: usize,
    window: Option<u32>,
    denied: Option<Verdict>,
    out: &mut Vec<u8>,
) -> Result<(), AllocError>
    ensures { OnOk result (out.new.items ≡ out.old.items ++ typed_by titles.now taken window denied) }
{
    out.extend_from_slice(typed_verb(denied))?;
    push_count(taken as u64, out)?;
    push_typed_rest(titles, window, denied, out)
}

/// Appends what became of typed bytes by their checks.
fn push_typed(
    titles: &[Titled],
    taken: usize,
    typed: &[Verdict],
    out: &mut Vec<u8>,
) -> Result<(), AllocError>
    ensures { OnOk result (out.new.items ≡ out.old.items ++ typed_text titles.now taken typed.now) }
{
    push_typed_by(titles, taken, window_in(typed), failed(typed), out)
}

/// Appends that a command was run on a window, or denied by a check.
fn push_asked_by(
    titles: &[Titled],
    name: &[u8],
    window: Option<u32>,
    denied: Option<Verdict>,
    out: &mut Vec<u8>,
) -> Result<(), AllocError>
    ensures { OnOk result (out.new.items ≡ out.old.items ++ asked_by titles.now name.now window denied) }
{
    let Some(verdict) = denied else {
        out.extend_from_slice(b" ran ")?;
        out.extend_from_slice(name)?;
        return push_on(titles, window, out);
    };
    out.extend_from_slice(b" was denied ")?;
    out.extend_from_slice(name)?;
    push_on(titles, window, out)?;
    out.extend_from_slice(b": ")?;
    push_check(verdict, out)
}

/// Appends what became of a command by its checks.
fn push_asked(titles: &[Titled], asked: &[Verdict], out: &mut Vec<u8>) -> Result<(), AllocError>
    ensures { OnOk result (out.new.items ≡ out.old.items ++ asked_text titles.now asked.now) }
{
    push_asked_by(
        titles,
        command_text(asked),
        window_in(asked),
        failed(asked),
        out,
    )
}

/// Appends what became of bytes that were read, by the checks of what was typed and of a command.
fn push_pressed(
    titles: &[Titled],
    taken: usize,
    typed: &[Verdict],
    asked: &[Verdict],
    out: &mut Vec<u8>,
) -> Result<(), AllocError>
    ensures { OnOk result (out.new.items ≡ out.old.items ++ pressed_text titles.now taken typed.now asked.now) }
{
    match (typed, asked) {
        (_, []) => push_typed(titles, taken, typed, out),
        ([], [_, ..]) => push_asked(titles, asked, out),
        ([_, ..], [_, ..]) => {
            push_typed(titles, taken, typed, out)?;
            out.extend_from_slice(b" and")?;
            push_asked(titles, asked, out)
        }
    }
}

/// Appends what became of keys.
pub fn push_keys(
    titles: &[Titled],
    verdicts: &[Verdict],
    ending: Ending,
    out: &mut Vec<u8>,
) -> Result<(), AllocError>
    ensures { OnOk result (out.new.items ≡ out.old.items ++ keys_text titles.now verdicts.now ending) }
{
    match ending {
        Ok(finished) => {
            let typed = before_command(verdicts);
            let asked = from_command(verdicts);
            push_pressed(titles, finished.taken, typed, asked, out)
        }
        Err(refusal) => {
            out.extend_from_slice(b" couldn't type: ")?;
            push_cause(&refusal, &[], out)
        }
    }
}
