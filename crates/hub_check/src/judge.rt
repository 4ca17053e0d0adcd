//! The judge of entries, which takes one entry after another.

ghost use Rattle.std.specs.Prelude.{◌≡◌, ◌↔◌, List, [], true, IfOk};
ghost use Rattle.acl.specs.declared.leaders.Edition.{Edition};
ghost use Rattle.acl.specs.declared.user_id.UserId.{UserId};
ghost use Rattle.acl.specs.History.{History};
ghost use Rattle.hub_trail.specs.Legal.{AreOfUser, acts_after};
ghost use Rattle.hub_trail.specs.Trails.{Entry};
ghost use Rattle.rights.specs.Following.{StandsAfter};
ghost use Rattle.hub_check.specs.Parts.{IsAnswered, IsJudged};
ghost use Rattle.hub_check.specs.Judges.{HasJudged, Judges};

use crate::commands::fits_line;
use crate::fits::{fits, is_of_known};
use crate::verdicts::{are_let, are_of, are_of_client, are_true, failed};
use acl::{Edition, UserId};
use hub_record::TrailEntry;
use hub_replies::{carries_failed, is_denied};
use hub_trail::Kept;
use rights::Rights;
use session::Verdict;
use std::alloc::{AllocError, Global};

/// Judges the entries of a trail, one after another, each by the acts of the entries before it. It
/// keeps tables of rights, locks and clients, and no entry.
pub struct Judge {
    alloc: Global,
    owner: UserId,
    rights: Rights,
}

impl Drop for Judge {
    fn drop(self) {
        let Judge {
            alloc: _,
            owner: _,
            rights: _,
        } = self;
    }
}

/// Whether the verdicts of a Command or an Open are of its user, and those of Keys are of the user of
/// their client.
fn are_of_user(rights: &Rights, event: &Kept, verdicts: &[Verdict]) -> bool
    ensures { (edition : Edition) (owner : UserId) (h : History) →
        StandsAfter rights.now edition owner h →
        (result ≡ true) ↔ AreOfUser h event.now verdicts.now }
{
    match event {
        Kept::Keys { client } => are_of_client(rights, *client, verdicts),
        Kept::Command { user, .. } => are_of(*user, verdicts),
        Kept::Open { user, .. } => are_of(*user, verdicts),
        Kept::Attach { .. } | Kept::Detach { .. } | Kept::Closed { .. } => true,
    }
}

/// Whether a denial carries the verdict that failed, and the event was denied if it had to be.
fn is_answered(event: &Kept, entry: &TrailEntry) -> bool
    ensures { (result ≡ true) ↔ IsAnswered event.now entry.now }
{
    let failed = failed(entry.verdicts());
    let ending = entry.ending();
    carries_failed(failed, &ending) && is_denied(event, failed, &ending)
}

/// Whether tables can judge the verdicts of the entry, and the entry is legal.
fn is_legal(
    alloc: Global,
    owner: UserId,
    rights: &Rights,
    entry: &TrailEntry,
) -> Result<bool, AllocError>
    ensures { IfOk result (λ legal. (edition : Edition) (h : History) →
        StandsAfter rights.now edition owner h →
        (legal ≡ true) ↔ IsJudged edition owner h entry.now) }
{
    let event = entry.event();
    let verdicts = entry.verdicts();
    if !are_true(rights, verdicts) {
        return Ok(false);
    }
    if !are_of_user(rights, event, verdicts) {
        return Ok(false);
    }
    if !are_let(event, verdicts, entry.acts()) {
        return Ok(false);
    }
    if !is_answered(event, entry) {
        return Ok(false);
    }
    if !fits(rights, event, entry) {
        return Ok(false);
    }
    if !is_of_known(rights, event, &entry.ending()) {
        return Ok(false);
    }
    fits_line(alloc, owner, rights, event, entry)
}

impl Judge {
    /// Before the first entry.
    pub fn new(alloc: Global, edition: Edition, owner: UserId) -> Result<Judge, AllocError>
        ensures { IfOk result (λ judge. HasJudged judge edition owner []) }
    {
        let rights = Rights::new(alloc, edition, owner)?;
        Ok(Judge {
            alloc,
            owner,
            rights,
        })
    }

    /// Whether the next entry is good: tables can judge it, and it is legal. After an entry that isn't
    /// good, or when memory was refused, the judge must not be used again.
    pub fn take(&mut self, entry: &TrailEntry) -> Result<bool, AllocError>
        ensures { IfOk result (λ good. Judges good self.old self.new entry.now) }
    {
        if !is_legal(self.alloc, self.owner, &self.rights, entry)? {
            return Ok(false);
        }
        self.rights.follow_all(entry.acts())
    }

    /// Rights, locks and clients after the entries that were taken.
    pub fn rights(&self) -> &Rights
        ensures { (edition : Edition) (owner : UserId) (entries : List Entry) →
            HasJudged self.now edition owner entries →
            StandsAfter result.now edition owner (acts_after [] entries) }
    {
        &self.rights
    }
}
