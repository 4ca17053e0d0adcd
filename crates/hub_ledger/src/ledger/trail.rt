//! The trail of a session, and the check of a trail by itself.

ghost use Rattle.std.specs.Prelude.{◌≡◌, ◌<◌, [], ℕ, suc, length, slice_get, take, Some, Err, Ok};
ghost use Rattle.hub_check.specs.declared.CheckFault.TheVariants.{BadEntry};
ghost use Rattle.hub_trail.specs.Judging.{AreGood, AreJudgeable, IsBadAt, IsIllegalAt};
ghost use Rattle.hub_trail.specs.Legal.{AreLegal};
ghost use Rattle.hub_record.specs.Growing.{trail_in};
ghost use Rattle.hub_ledger.specs.Editions.{number_of_edition};

use acl::{Edition, UserId};
use hub_check::{CheckFault, Judge};
use hub_record::{EntryList, GrowingTrail, TrailEntry};
use std::alloc::Global;
use std::marker::Model;

/// The trail of a session: its edition and its owner, and the entries of all its steps, in order.
/// Tables of rights and locks can judge it.
#[derive(Drop)]
pub struct Trail {
    edition: Edition,
    owner: UserId,
    entries: EntryList,
}

impl Model for Trail {
    ghost use Rattle.std.specs.Prelude.{[]};
    ghost use Rattle.hub_trail.specs.Trails.{Trail as TrailValue};
    ghost use Rattle.hub_trail.specs.Judging.{AreJudgeable};

    ghost Value = { TrailValue };

    ghost view = { λ t. record { edition = t.edition; owner = t.owner; entries = t.entries.entries } };

    ghost invariant = { λ t. AreJudgeable t.edition t.owner [] t.entries.entries };
}

impl Trail {
    /// The trail that has these entries.
    pub(super) fn of(entries: GrowingTrail) -> Trail
        requires { AreJudgeable entries.edition entries.owner [] entries.list.entries }
        ensures { result ≡ trail_in entries }
    {
        let GrowingTrail {
            edition,
            owner,
            list,
        } = entries;
        Trail {
            edition,
            owner,
            entries: list,
        }
    }

    /// The number of the edition of the session's groups, 1 or 2.
    pub fn edition(&self) -> u8
        ensures { result ≡ number_of_edition self.now.edition }
    {
        match self.edition {
            Edition::First => 1,
            Edition::Second => 2,
        }
    }

    /// The edition of the session's groups, as access lists take it.
    pub fn acl_edition(&self) -> Edition
        ensures { result ≡ self.now.edition }
    {
        self.edition
    }

    /// The session's owner.
    pub fn owner(&self) -> UserId
        ensures { result ≡ self.now.owner }
    {
        self.owner
    }

    /// The number of entries.
    pub fn len(&self) -> usize
        ensures { result ≡ length self.now.entries }
    {
        self.entries.len()
    }

    /// The entries, the oldest first.
    pub fn entries(&self) -> &EntryList
        ensures { result.now.entries ≡ self.now.entries }
    {
        &self.entries
    }

    /// The entry at a place, counted from 0.
    pub fn at(&self, place: usize) -> &TrailEntry
        requires { place < length self.now.entries }
        ensures { slice_get self.now.entries place ≡ Some result.now }
    {
        self.entries.at(place)
    }

    /// The law that tables of rights and locks can judge each entry, after the acts of those before
    /// it.
    pub fn is_judgeable(&self)
        ensures { AreJudgeable self.now.edition self.now.owner [] self.now.entries }
    {
        let _ = &self.entries;
    }
}

/// Judges entries from the first on, each by the acts of those before it, as entries of a trail of this
/// owner. Errors: as `check_trail`.
pub fn check_entries(
    alloc: Global,
    edition: Edition,
    owner: UserId,
    entries: &EntryList,
) -> Result<(), CheckFault>
    ensures good { result ≡ Ok tt → AreGood edition owner [] entries.now.entries }
    ensures bad { (place : ℕ) → result ≡ Err (BadEntry place) →
        IsBadAt edition owner [] entries.now.entries place }
{
    let mut judge = Judge::new(alloc, edition, owner)?;
    'places: for place in 0..entries.len() {
        if !judge.take(entries.at(place))? {
            return Err(CheckFault::BadEntry { place });
        }
    }
    Ok(())
}

/// Judges a trail by its edition, as a trail of this owner, beginning without acts: each entry by
/// the acts of those before it. Errors: `BadEntry` with the place of the first entry that doesn't
/// pass; memory is refused.
pub fn check_trail(alloc: Global, trail: &Trail, owner: UserId) -> Result<(), CheckFault>
    // A trail that passes is legal.
    ensures legal { result ≡ Ok tt → AreLegal trail.now.edition owner [] trail.now.entries }
    // The first entry that doesn't pass isn't legal for this owner, or tables of the owner's rights
    // and locks can't judge it. All entries before it pass.
    ensures first { (place : ℕ) → result ≡ Err (BadEntry place)
        → IsBadAt trail.now.edition owner [] trail.now.entries place }
    // If the owner is the trail's own, the first entry that doesn't pass is the first that isn't
    // legal.
    ensures bad { (place : ℕ) → owner ≡ trail.now.owner → result ≡ Err (BadEntry place)
        → IsIllegalAt trail.now.edition owner [] trail.now.entries place }
    // So it is for any owner, if the trail is legal up to that entry for its own owner.
    ensures legal_until { (place : ℕ)
        → AreLegal trail.now.edition trail.now.owner [] (take (suc place) trail.now.entries)
        → result ≡ Err (BadEntry place)
        → IsIllegalAt trail.now.edition owner [] trail.now.entries place }
{
    trail.is_judgeable();
    check_entries(alloc, trail.acl_edition(), owner, trail.entries())
}
