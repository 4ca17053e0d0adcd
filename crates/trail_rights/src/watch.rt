//! Reads a file's entries in one pass, and keeps the acts that tell something of what is asked about: which of them
//! decide is asked at the end.

ghost use Rattle.std.specs.Prelude.{◌≡◌, List, [], IfOk, IfSome, is_some, map};
ghost use Rattle.std.specs.List.{AllByRecursion, list_all};
ghost use Rattle.acl.specs.declared.leaders.Edition.{Edition};
ghost use Rattle.acl.specs.declared.user_id.UserId.{UserId};
ghost use Rattle.hub.specs.Following.{StandsAfter};
ghost use Rattle.trail_lines.specs.Entries.{Said};
ghost use Rattle.trail_rights.specs.Keeping.{is_asked};
ghost use Rattle.trail_rights.specs.Marks.{acts_in, marked_after};
ghost use Rattle.trail_rights.specs.Deciding.{HasDecided, sought_by};
ghost use Rattle.trail_rights.specs.Settling.{HasSettled, setting_by};
ghost use Rattle.trail_rights.specs.Seeing.{HasSeen, sought};
ghost use Rattle.trail_rights.specs.Watching.{AreFollowed, HasWatched, IsWatched, TellsNext};

use crate::acts::{AskedBits, MarkedActs};
use crate::decider::{Decider, are_asked};
use crate::settler::Settler;
use crate::sight::Sight;
use acl::{Edition, UserId};
use hub::Rights;
use std::alloc::{AllocError, Global};
use std::io::{self, BufRead};
use trail_lines::{Audit, EntryLine, Halt, Wrong, next_entry};

/// Reads the lines of entries, judges the entries, and keeps the acts that tell something.
#[derive(Drop)]
pub struct Watch {
    audit: Audit,
    acts: MarkedActs,
}

impl Watch {
    /// Before the first line. These bits may be asked about after the last one.
    pub fn new(
        alloc: Global,
        edition: Edition,
        owner: UserId,
        asked: AskedBits,
    ) -> Result<Watch, AllocError>
        ensures watched { IfOk result (λ watch. HasWatched watch edition owner []) }
        ensures asked { IfOk result (λ watch. watch.acts.asked ≡ asked) }
    {
        Ok(Watch {
            audit: Audit::new(alloc, edition, owner)?,
            acts: MarkedActs::new(alloc, asked),
        })
    }

    /// How many entries were read.
    pub fn count(&self) -> u64
        ensures { result ≡ self.now.audit.next }
    {
        self.audit.count()
    }

    /// Rights, locks and clients after the entries.
    pub fn replay(&self) -> &Rights
        ensures { (edition : Edition) (owner : UserId) (said : List Said) →
            HasWatched self.now edition owner said →
            StandsAfter result.now edition owner (acts_in (marked_after [] said)) }
    {
        self.audit.replay()
    }

    /// What these deciders and settlers, given as they are before the first act, find in the acts of the
    /// entries. The sight looks for nothing else. None if a decider looks for a bit that isn't asked about.
    pub fn sight(
        &self,
        deciders: Vec<Decider>,
        settlers: Vec<Settler>,
    ) -> Result<Option<Sight>, AllocError>
        ensures seen { (edition : Edition) (owner : UserId) (said : List Said) →
            HasWatched self.now edition owner said → AllByRecursion (HasDecided owner []) deciders.items →
            AllByRecursion (HasSettled []) settlers.items →
            IfOk result (λ seen. IfSome seen (λ sight. HasSeen sight owner (marked_after [] said))) }
        ensures sought { IfOk result (λ seen. IfSome seen (λ sight. sought sight
            ≡ (map sought_by deciders.items, map setting_by settlers.items))) }
        ensures told { IfOk result (λ seen. is_some seen
            ≡ list_all (is_asked self.now.acts.asked) deciders.items) }
    {
        if !are_asked(self.acts.asked(), deciders.as_slice()) {
            return Ok(None);
        }
        let sight = Sight::of(deciders, settlers, self.acts.marked())?;
        Ok(Some(sight))
    }

    /// Takes the line of the next entry, without its line feed, and returns what it says. After an `Err`
    /// the watch must not be used again.
    pub fn take(&mut self, line: &[u8]) -> Result<EntryLine, Wrong>
        ensures tells { (edition : Edition) (owner : UserId) (said : List Said) →
            HasWatched self.old edition owner said →
            TellsNext result self.new line.now edition owner said }
        ensures asked { self.new.acts.asked ≡ self.old.acts.asked }
    {
        let said = self.audit.take(line)?;
        self.acts.take(&said)?;
        Ok(said)
    }
}

/// Reads the entries of a reader, from the file's line 2 on, up to the entry of the place `last`, and calls
/// `follow` with each. The line that halts the reading is left in `line`.
pub fn watch_entries<R: BufRead, F: FnMut(&EntryLine) -> Result<(), AllocError>>(
    watch: &mut Watch,
    reader: &mut R,
    line: &mut Vec<u8>,
    last: u64,
    mut follow: F,
) -> io::Result<Halt>
    requires { F.IsAlwaysCallable follow }
    ensures watched { (edition : Edition) (owner : UserId) → HasWatched watch.old edition owner [] →
        IfOk result (λ halt. IsWatched halt watch.new line.new.items last edition owner
        (R.remaining reader.old) (R.remaining reader.new) (AreFollowed F.FnMut follow)) }
    ensures asked { watch.new.acts.asked ≡ watch.old.acts.asked }
{
    for number in 2..u64::MAX {
        if watch.count() > last {
            return Ok(Halt::Nothing);
        }
        if let Some(halt) = next_entry(reader, line, number)? {
            return Ok(halt);
        }
        match watch.take(line.as_slice()) {
            Ok(said) => follow(&said)?,
            Err(wrong) => return Ok(Halt::Stopped {
                line: number,
                wrong,
            }),
        }
    }
    // No file has 2^64 lines.
    Err(io::Error::from(AllocError))
}
