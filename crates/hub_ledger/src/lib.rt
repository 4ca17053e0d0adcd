//! What lies under the hub's lock: a session, its trail, and the effects that wait for each seat of
//! clients and windows. Also the seats, and their receipts.
#![tactic(auto)]

ghost use Rattle.std.specs.Prelude.{replicate};
ghost use Rattle.acl.specs.declared.leaders.Edition.{Edition};
ghost use Rattle.acl.specs.declared.leaders.Edition.TheVariants.{Second};
ghost use Rattle.acl.specs.declared.user_id.UserId.{UserId};

mod closing;
mod filed_session;
mod ledger;
mod seat;
mod waiting;

pub use hub_check::CheckFault;
pub use hub_record::{Kept, Receipt, Receipts, TrailEntry};
pub use ledger::{
    Answer, FULL, Foreign, Full, HubFault, Ledger, Ruling, Trail, check_entries, check_trail,
    kept_trails_are_legal,
};
pub use seat::Seat;
pub use session::Session;
use std::marker::Brand;
use std::sync::ledger::Ledger as ShareLedger;
pub use waiting::{Handed, Sent};

/// The ledger of a hub's shares, with the edition and the owner of the session that the hub begins
/// with. So the type of a hub says whose trail it keeps.
pub trait Begun: ShareLedger {
    ghost edition: { Edition };

    ghost owner: { UserId };
}

impl Begun for Brand {
    ghost edition = { Second };

    ghost owner = { record { name = replicate 20 0 } };
}
