//! What a file's entries say of rights, in one pass: the file may grow meanwhile, or be a pipe.

ghost use Rattle.std.specs.Prelude.{◌≡◌, [], List, IfOk, OnOk};
ghost use Rattle.mux_trail.specs.Words.{Edition, HasWatched, Said, UserId, acts_in, giver, marked_after};
ghost use Rattle.mux_trail.specs.Words.{names_with, said};
ghost use Rattle.mux_trail.specs.History.{changed, has_asked, noted};
ghost use Rattle.mux_trail.specs.Reading.{AreTaken, FollowsSaid, HasRead, IsFileRead, IsFirst};

use crate::history::{History, has_asked};
use crate::words::{Limits, RightsAsked};
use acl::{Bit, Edition, UserId};
use std::alloc::{AllocError, Global};
use std::io::{self, BufRead};
use trail_confined::Question;
use trail_files::{Finish, finish_at, finish_of};
use trail_lines::{EntryLine, Halt, Wrong, next_entry};
use trail_log::{Names, giver};
use trail_rights::{AskedBits, Watch};
use trail_setup::SetupState;

/// What takes the lines of a trail's entries, one after another, and judges the entries.
pub trait TakesEntries {
    ghost use Rattle.std.specs.Prelude.{◌≡◌, List, IfOk, length};
    ghost use Rattle.mux_trail.specs.Words.{Edition, Said, UserId, entries_in};
    ghost use Rattle.mux_trail.specs.Reading.{TakesNext};

    // What took these entries of a trail of this edition and owner: as it was before the first one, and as it is.
    ghost has_taken: { Self → Self → Edition → UserId → List Said → Type 0 };

    fn count(&self) -> u64
        ensures { (first : Self) (edition : Edition) (owner : UserId) (said : List Said)
            → has_taken first self.now edition owner said → result ≡ length (entries_in said) };

    /// Takes the line of the next entry, without its line feed. The answer is what is wrong with the line.
    fn take(&mut self, line: &[u8]) -> io::Result<Option<Wrong>>
        ensures { (first : Self) (edition : Edition) (owner : UserId) (said : List Said)
            → has_taken first self.old edition owner said → IfOk result (λ wrong.
            TakesNext (has_taken first self.new edition owner) wrong line.now edition owner said) };
}

/// Takes the entries from the file's line 2 on, up to the place `last`. The line that halts this is left in `line`.
pub fn take_entries<T: TakesEntries, R: BufRead>(
    taker: &mut T,
    last: u64,
    reader: &mut R,
    line: &mut Vec<u8>,
) -> io::Result<Halt>
    ensures { (edition : Edition) (owner : UserId) → T.has_taken taker.old taker.old edition owner []
        → IfOk result (λ halt. AreTaken (T.has_taken taker.old taker.new edition owner) halt line.new.items last
        edition owner (R.remaining reader.old) (R.remaining reader.new)) }
{
    for number in 2..u64::MAX {
        if taker.count() > last {
            return Ok(Halt::Nothing);
        }
        if let Some(halt) = next_entry(reader, line, number)? {
            return Ok(halt);
        }
        match taker.take(line.as_slice())? {
            None => {}
            Some(wrong) => return Ok(Halt::Stopped {
                line: number,
                wrong,
            }),
        }
    }
    // No file has 2^64 lines.
    Err(io::Error::from(AllocError))
}

/// Takes the entries of a reader, and says how the file ends.
pub fn take_file<T: TakesEntries, R: BufRead>(
    alloc: Global,
    taker: &mut T,
    limits: Limits,
    reader: &mut R,
) -> io::Result<Finish>
    ensures { (edition : Edition) (owner : UserId) → T.has_taken taker.old taker.old edition owner []
        → IfOk result (λ finish. IsFileRead (T.has_taken taker.old taker.new edition owner) finish limits edition
        owner (R.remaining reader.old)) }
{
    let mut line = Vec::new(alloc);
    let last = limits.last.unwrap_or(u64::MAX);
    let halt = take_entries(taker, last, reader, &mut line)?;
    let count = taker.count();
    // Nothing is waited for after the last line of a file that is followed.
    if limits.follows
        && let Halt::Last { line: number } = halt
    {
        let finish = finish_at(alloc, count, number, line.as_slice())?;
        return Ok(finish);
    }
    finish_of(alloc, count, halt, reader, &mut line)
}

/// What is read of a file's entries for an answer about rights. It has a state if a setup is asked for.
#[derive(Drop)]
pub struct TrailReading<'a> {
    pub alloc: Global,
    pub owner: UserId,
    asked: RightsAsked<'a>,
    pub watch: Watch,
    pub names: Names,
    pub history: History,
    pub state: Option<SetupState>,
}

/// The bits whose deciding acts the answer may name.
fn bits_asked(asked: RightsAsked<'_>) -> AskedBits {
    match asked {
        RightsAsked::Who | RightsAsked::Setup => AskedBits::Nothing,
        RightsAsked::Confined(_) => AskedBits::Commands { bit: Bit::Execute },
        RightsAsked::Why(Question { bit, object, .. }) => AskedBits::On { bit, object },
        RightsAsked::WhyTitled { bit, .. } => AskedBits::Windows { bit },
    }
}

/// What a setup needs before the first entry, if one is asked for.
fn state_for(
    alloc: Global,
    edition: Edition,
    owner: UserId,
    asked: RightsAsked<'_>,
) -> Result<Option<SetupState>, AllocError>
    ensures { IfOk result (IsFirst edition owner) }
{
    match asked {
        RightsAsked::Setup => Ok(Some(SetupState::new(alloc, edition, owner)?)),
        _ => Ok(None),
    }
}

/// Follows an entry with what a setup needs, if one is asked for.
fn follow(state: &mut Option<SetupState>, next: &EntryLine) -> Result<(), AllocError>
    ensures { OnOk result (FollowsSaid state.old (said next.now) state.new) }
{
    match state {
        Some(state) => state.take(&next.entry),
        None => Ok(()),
    }
}

impl<'a> TrailReading<'a> {
    pub fn new(
        alloc: Global,
        edition: Edition,
        owner: UserId,
        asked: RightsAsked<'a>,
    ) -> io::Result<TrailReading<'a>>
        ensures { IfOk result (λ reading. HasRead reading asked.entry edition owner []) }
    {
        Ok(TrailReading {
            alloc,
            owner,
            asked,
            watch: Watch::new(alloc, edition, owner, bits_asked(asked))?,
            names: Names::new(alloc),
            history: History::new(alloc),
            state: state_for(alloc, edition, owner, asked)?,
        })
    }

    /// Notes whether an entry that the watch has taken changes the bit that is asked about.
    fn note(&mut self, next: &EntryLine) -> Result<(), AllocError>
        ensures same { self.new ≡ record self.old { names = self.new.names; history = self.new.history } }
        ensures names { OnOk result (self.new.names ≡ names_with self.old.names (said next.now)) }
        ensures history { (edition : Edition) (owner : UserId) (all : List Said)
            → HasWatched self.old.watch edition owner all
            → OnOk result (noted self.new.history ≡ changed
            (has_asked self.old.asked edition owner (acts_in (marked_after [] all)) self.new.names.1)
            (giver self.old.names.0 (said next.now).2.event) (said next.now) (noted self.old.history)) }
    {
        let by = giver(&self.names, next.entry.event());
        self.names.take(next)?;
        let has = has_asked(self.asked, self.watch.replay(), self.names.titles());
        self.history.note(has, by, next)
    }
}

impl TakesEntries for TrailReading<'_> {
    ghost has_taken = { λ first r edition owner said. HasRead r first.asked edition owner said };

    fn count(&self) -> u64 {
        self.watch.count()
    }

    fn take(&mut self, line: &[u8]) -> io::Result<Option<Wrong>> {
        match self.watch.take(line) {
            Ok(said) => {
                self.note(&said)?;
                follow(&mut self.state, &said)?;
                Ok(None)
            }
            Err(wrong) => Ok(Some(wrong)),
        }
    }
}
