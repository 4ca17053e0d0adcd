//! Why something was refused, as a log tells it.

ghost use Rattle.std.specs.Prelude.{◌≡◌, ◌++◌, OnOk, codes};
ghost use Rattle.std.specs.List.{flat_map};
ghost use Rattle.session.specs.Texts.{leader_text, letter, missing_text};
ghost use Rattle.trail_log.specs.Causes.{cause_text, check_cause, entry_cause, lock_cause, refused_verb};
ghost use Rattle.line_fields.specs.Meaning.{meaning_text};

use acl::{Bit, Leaders, UserId};
use line_fields::push_meaning;
use session::{EntryDenied, Refusal, Verdict};
use std::alloc::AllocError;

/// The letter of a bit.
fn letter(bit: Bit) -> &'static [u8]
    ensures { result.now ≡ letter bit }
{
    match bit {
        Bit::Read => b"r",
        Bit::Write => b"w",
        Bit::Execute => b"x",
    }
}

/// Appends a user and the bit that the entry lacks, as `bob -w`.
fn push_missing(user: UserId, bit: Bit, out: &mut Vec<u8>) -> Result<(), AllocError>
    ensures { OnOk result (out.new.items ≡ out.old.items ++ missing_text user bit) }
{
    out.extend_from_slice(user.as_bytes())?;
    out.extend_from_slice(b" -")?;
    out.extend_from_slice(letter(bit))
}

/// Appends the entries of leaders, which lack the bit too.
fn push_leaders(leaders: &Leaders, bit: Bit, out: &mut Vec<u8>) -> Result<(), AllocError>
    ensures { OnOk result (out.new.items ≡ out.old.items ++ flat_map (leader_text bit) leaders.now) }
{
    for leader in leaders.as_slice() {
        out.extend_from_slice(b"; leader ")?;
        push_missing(*leader, bit, out)?;
    }
    Ok(())
}

/// Appends the entry that denies a bit, and those of leaders.
fn push_entry(denied: &EntryDenied, out: &mut Vec<u8>) -> Result<(), AllocError>
    ensures { OnOk result (out.new.items ≡ out.old.items ++ entry_cause denied.now) }
{
    out.extend_from_slice(b"entry ")?;
    push_missing(denied.user, denied.bit, out)?;
    push_leaders(&denied.leaders, denied.bit, out)
}

/// Appends who holds a lock.
fn push_holder(holder: UserId, out: &mut Vec<u8>) -> Result<(), AllocError>
    ensures { OnOk result (out.new.items ≡ out.old.items ++ lock_cause holder) }
{
    out.extend_from_slice(b"locked by ")?;
    out.extend_from_slice(holder.as_bytes())
}

/// Appends why an event was refused. The line is that of a command, and empty for another event.
pub fn push_cause(refusal: &Refusal, line: &[u8], out: &mut Vec<u8>) -> Result<(), AllocError>
    ensures { OnOk result (out.new.items ≡ out.old.items ++ cause_text line.now refusal.now) }
{
    match refusal {
        Refusal::EntryDenied(denied) => push_entry(denied, out),
        Refusal::LockDenied(denied) => push_holder(denied.holder, out),
        other => {
            other.text(out)?;
            push_meaning(other, line, out)
        }
    }
}

/// Appends why a check failed.
pub fn push_check(verdict: Verdict, out: &mut Vec<u8>) -> Result<(), AllocError>
    ensures { OnOk result (out.new.items ≡ out.old.items ++ check_cause verdict) }
{
    match verdict {
        Verdict::Right { user, bit, .. } => {
            out.extend_from_slice(b"entry ")?;
            push_missing(user, bit, out)
        }
        Verdict::Lock {
            holder: Some(holder),
            ..
        } => push_holder(holder, out),
        Verdict::Lock { holder: None, .. } => out.extend_from_slice(b"locked"),
    }
}

/// The words before a refused command.
pub fn refused_verb(refusal: &Refusal) -> &'static [u8]
    ensures { result.now ≡ refused_verb refusal.now }
{
    match refusal {
        Refusal::EntryDenied(_) | Refusal::LockDenied(_) => b" was denied ",
        _ => b" couldn't run ",
    }
}
