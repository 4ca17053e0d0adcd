//! Judges whether a trail is legal: each entry by the acts of the entries before it, from which rights,
//! locks and clients are made again.
#![tactic(auto)]

ghost use Rattle.std.specs.Prelude.{◌≡◌};
ghost use Rattle.hub_check.specs.declared.CheckFault.TheVariants.{NoMemory};
ghost use Rattle.hub_check.specs.Laws.{GoodIsLegal, GoodIsNotBad, BadIsIllegal, LegalIsGood};

mod commands;
mod fits;
pub mod judge;
mod names;
mod says;
mod verdicts;

pub use judge::Judge;
use std::alloc::AllocError;
use thiserror::Error;
pub use verdicts::{all_pass, failed};

/// Why a check of entries fails.
#[derive(Clone, Copy, Debug, Error)]
pub enum CheckFault {
    /// The place, from 0 on, of the first entry that isn't legal or that tables can't judge.
    #[error("entry {place} isn't legal")]
    BadEntry { place: usize },
    #[error("out of memory")]
    NoMemory,
}

impl CheckFault {
    ghost use Rattle.hub_check.specs.Faults.{check_number};

    /// The fault's number, 1 or 2.
    pub fn number(self) -> u8
        ensures { result ≡ check_number self }
    {
        match self {
            CheckFault::BadEntry { .. } => 1,
            CheckFault::NoMemory => 2,
        }
    }
}

impl From<AllocError> for CheckFault {
    ghost from_gives = { λ _ e. e ≡ NoMemory };

    fn from(_error: AllocError) -> CheckFault {
        CheckFault::NoMemory
    }
}

/// Entries that are all good are legal, and none of them is bad.
pub fn good_is_legal()
    ensures legal { GoodIsLegal }
    ensures not_bad { GoodIsNotBad }
{}

/// Entries that tables can judge are good if they are legal, and the first one that isn't good is the
/// first one that isn't legal.
pub fn judged_is_legal()
    ensures good { LegalIsGood }
    ensures bad { BadIsIllegal }
{}
