//! The words of access lists: users, objects, bits, acts, list entries, leaders and faults. Also
//! the slots that open windows stand in.
#![tactic(auto)]

// The public modules are those that `acl` passes on.
pub mod act;
pub mod bits;
pub mod command_name;
pub mod entries;
pub mod leaders;
mod slots;
pub mod user_id;

pub use act::{Act, LockMode, Object, PresetKind};
pub use bits::{Bit, BitChange, Bits};
pub use command_name::CommandName;
pub use entries::{AclFault, EntryDenial, MaskEntry, MaskScope, NewLeader};
pub use leaders::{Edition, Leaders};
pub use slots::{Slots, USERS, WINDOWS};
pub use user_id::{UserId, names_equal};
