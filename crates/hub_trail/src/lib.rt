//! The trail of a session: what is kept of each step, and when a trail is legal. What a legal trail
//! says of rights and locks can be judged by the acts of its own entries. The definitions are in
//! `specs/`; this crate holds the plain types that code and definitions share, which acts an event and
//! its reply can make, and the laws of the trails of runs.
#![tactic(auto)]

ghost use Rattle.hub_trail.specs.Laws.{EntriesAreLegal, TrailsAreLegal, TrailsHaveTheActs};
ghost use Rattle.hub_trail.specs.Laws.{LegalInParts, VerdictsAreDecided, TrailsAreJudgeable};
ghost use Rattle.hub_trail.specs.Peers.{EffectsHavePeers, SerialsAreGiven};
ghost use Rattle.hub_trail.specs.Steps.{EntriesAreJudgeable};

mod fits;
mod has;
mod kept;
mod makes;
mod says;

pub use fits::{all_shut, attaches_one, opens_one};
pub use has::{has_act_of, has_closed, has_come, has_gone, has_opened};
pub use kept::{Ending, Finished, Kept, ending_of, writes_entry};
pub use makes::made_by;
pub use says::{asks_for_command, from_command, gives, is_listed, leads, removes};

/// A step on the tables of a run writes one entry, which is legal after the acts of the tables, or
/// it has no acts.
pub fn entries_are_legal()
    ensures { EntriesAreLegal }
{}

/// The trail of every run is legal, and its acts are those of the session's tables: they give the
/// same rights, locks, clients and windows.
pub fn trails_are_legal()
    ensures legal { TrailsAreLegal }
    ensures acts { TrailsHaveTheActs }
{}

/// Each client that a step attaches, and each window that it opens, gets the next serial. No other
/// step changes the next serials.
pub fn serials_are_given()
    ensures { SerialsAreGiven }
{}

/// Each effect of a step is for a client or a window that came before: its serial is below the next
/// one.
pub fn effects_have_peers()
    ensures { EffectsHavePeers }
{}

/// In a legal trail, what was asked decides each verdict: the trail isn't legal with another answer
/// in its place.
pub fn verdicts_are_decided()
    ensures { VerdictsAreDecided }
{}

/// Entries in two parts are legal exactly if the first part is legal, and the second part is legal
/// after the acts of the first.
pub fn entries_are_legal_in_parts()
    ensures { LegalInParts }
{}

/// Tables of rights and locks can judge what a step files, if the step is on fit tables: its
/// verdicts are on objects that are there, and its acts can follow one another.
pub fn entries_are_judgeable()
    ensures { EntriesAreJudgeable }
{}

/// Tables of rights and locks can judge each entry of the trail of a run, after the acts of the
/// entries before it.
pub fn trails_are_judgeable()
    ensures { TrailsAreJudgeable }
{}
