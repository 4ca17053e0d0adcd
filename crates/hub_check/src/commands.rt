//! Whether the entry of a Command fits the command of its line.

ghost use Rattle.std.specs.Prelude.{◌≡◌, ◌↔◌, ℕ, Option, true, is_err, IfOk};
ghost use Rattle.hub_trail.specs.declared.kept.Kept.TheVariants as kept;
ghost use Rattle.acl.specs.declared.leaders.Edition.{Edition};
ghost use Rattle.acl.specs.declared.user_id.UserId.{UserId};
ghost use Rattle.acl.specs.History.{History};
ghost use Rattle.rights.specs.Following.{StandsAfter};
ghost use Rattle.hub_check.specs.Parts.{IsReading, AsksIfKnown, HaveActsIfDone, AreSaidIfDone, FitsCommand, FitsLine};

use crate::names::have_acts;
use crate::says::all_said;
use crate::verdicts::asks_first;
use acl::UserId;
use command_lang::{Command, FaultKind, parse};
use hub_record::TrailEntry;
use hub_trail::{Kept, has_closed, has_come, has_gone, has_opened};
use rights::Rights;
use session::Verdict;
use std::alloc::{AllocError, Global};

/// The command that a line says, if it says one.
fn command_of(alloc: Global, line: &[u8]) -> Result<Option<Command>, AllocError>
    ensures { IfOk result (λ command. IsReading line.now command) }
{
    match parse(alloc, line) {
        Ok(command) => Ok(Some(command)),
        Err(fault) => match fault.kind {
            FaultKind::NoMemory => Err(AllocError),
            _ => Ok(None),
        },
    }
}

/// Whether the entry has the acts of this command, or the command wasn't done.
fn have_acts_if_done(owner: UserId, rights: &Rights, command: &Command, entry: &TrailEntry) -> bool
    ensures { (edition : Edition) (h : History) → StandsAfter rights.now edition owner h →
        (result ≡ true)
        ↔ HaveActsIfDone owner h command.now entry.now.reply entry.now.acts }
{
    match entry.ending() {
        Ok(_) => have_acts(owner, rights, command, entry.acts()),
        Err(_) => true,
    }
}

/// Whether the command says each act of the entry on users and rights, or it wasn't done.
fn are_said_if_done(owner: UserId, rights: &Rights, command: &Command, entry: &TrailEntry) -> bool
    ensures { (edition : Edition) (h : History) → StandsAfter rights.now edition owner h →
        (result ≡ true)
        ↔ AreSaidIfDone owner h command.now entry.now.reply entry.now.acts }
{
    match entry.ending() {
        Ok(_) => all_said(owner, rights, command, entry.acts()),
        Err(_) => true,
    }
}

/// Whether the first verdict asks for x on the command of this user, or the user isn't known.
fn asks_if_known(rights: &Rights, user: UserId, command: &Command, verdicts: &[Verdict]) -> bool
    ensures { (edition : Edition) (owner : UserId) (h : History) →
        StandsAfter rights.now edition owner h →
        (result ≡ true) ↔ AsksIfKnown owner h user command.now verdicts.now }
{
    if rights.knows(user) {
        asks_first(user, command.name(), verdicts)
    } else {
        true
    }
}

/// Whether an entry of this user's command has what the command needs: its first verdict asks for x on
/// the command, it has the command's acts, and of acts on users and rights it has no others.
fn fits_command(
    owner: UserId,
    rights: &Rights,
    user: UserId,
    command: &Command,
    entry: &TrailEntry,
) -> bool
    ensures { (edition : Edition) (h : History) → StandsAfter rights.now edition owner h →
        (result ≡ true) ↔ FitsCommand owner h user command.now entry.now }
{
    if !asks_if_known(rights, user, command, entry.verdicts()) {
        return false;
    }
    if !have_acts_if_done(owner, rights, command, entry) {
        return false;
    }
    are_said_if_done(owner, rights, command, entry)
}

/// Whether the event of the entry was refused.
fn is_refused(entry: &TrailEntry) -> bool
    ensures { result ≡ is_err entry.now.reply }
{
    match entry.ending() {
        Ok(_) => false,
        Err(_) => true,
    }
}

/// A line that a user gave as a command.
#[derive(Clone, Copy)]
struct GivenLine<'a> {
    user: UserId,
    line: &'a [u8],
}

/// Whether an entry of a line fits the command of the line. A line that is no command must have been
/// refused.
fn fits_text(
    alloc: Global,
    owner: UserId,
    rights: &Rights,
    given: GivenLine,
    entry: &TrailEntry,
) -> Result<bool, AllocError>
    ensures { IfOk result (λ fits. (edition : Edition) (h : History) (window : Option ℕ) →
        StandsAfter rights.now edition owner h → (fits ≡ true)
        ↔ FitsLine owner h (kept.Command given.entry.user window given.entry.line.now) entry.now) }
{
    match command_of(alloc, given.line)? {
        Some(command) => Ok(fits_command(owner, rights, given.user, &command, entry)),
        None => Ok(is_refused(entry)),
    }
}

/// Whether an entry has the acts of its event, and fits the command of the event's line, if it has one.
pub fn fits_line(
    alloc: Global,
    owner: UserId,
    rights: &Rights,
    event: &Kept,
    entry: &TrailEntry,
) -> Result<bool, AllocError>
    ensures { IfOk result (λ fits. (edition : Edition) (h : History) →
        StandsAfter rights.now edition owner h →
        (fits ≡ true) ↔ FitsLine owner h event.now entry.now) }
{
    let ending = entry.ending();
    match event {
        Kept::Command { user, line, .. } => {
            let given = GivenLine {
                user: *user,
                line: line.as_slice(),
            };
            fits_text(alloc, owner, rights, given, entry)
        }
        Kept::Attach { user, .. } => Ok(has_come(&ending, entry.acts(), *user)),
        Kept::Detach { client } => Ok(has_gone(&ending, entry.acts(), *client)),
        Kept::Keys { .. } => Ok(true),
        Kept::Open { user, .. } => Ok(has_opened(&ending, entry.acts(), *user)),
        Kept::Closed { window } => Ok(has_closed(&ending, entry.acts(), *window)),
    }
}
