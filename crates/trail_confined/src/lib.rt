//! How it is told who may do what, which acts decide a bit, and whether users are confined on windows to
//! come.
#![tactic(auto)]

ghost use Rattle.trail_confined.specs.Confining.{ConfinementIsDecided};

mod confined;
mod failing;
mod premises;
mod who;
mod why;

pub use confined::{failing_of, is_confined};
pub use failing::{power_deciders, push_confinement};
pub use premises::{Premise, may_open, openers_of, premises_of, users_with};
pub use who::push_rights;
pub use why::{Question, push_by, push_reasons, yes_text};

/// Users are confined for a bit on windows to come exactly if no premise fails that concerns the bit.
pub fn confinement_is_decided()
    ensures { ConfinementIsDecided }
{
    acl::users_listed();
}
