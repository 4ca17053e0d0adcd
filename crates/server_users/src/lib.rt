//! The users who may connect: their file and tokens, who could change files, and what each user may still try and have.
#![tactic(auto)]

mod allowance;
mod allowances;
mod fault;
mod ration;
mod tally;
mod trust;
mod user;
mod users;

pub use allowance::{Allowance, Outcome, UNIT, price};
pub use allowances::Allowances;
pub use fault::{AuthFault, UsersFault};
pub use ration::Rations;
pub use tally::Tally;
pub use trust::{Access, Flaw, own_account};
pub use user::{Shown, User};
pub use users::{Users, authenticate};
