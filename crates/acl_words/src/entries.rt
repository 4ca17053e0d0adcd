use crate::act::{Object, PresetKind};
use crate::bits::Bit;
use crate::leaders::Leaders;
use crate::user_id::UserId;

/// Why a right is missing: neither the user's own entry nor that of any of the user's leaders has
/// it.
#[derive(Clone, Copy, PartialEq, Eq, Debug)]
pub struct EntryDenial {
    pub user: UserId,
    pub bit: Bit,
    pub object: Object,
    pub leaders: Leaders,
}

/// Whom a user is to follow: nobody, or the leader whom a word names (`None` if the word is no
/// name).
#[derive(Clone, Copy, PartialEq, Eq, Debug)]
pub enum NewLeader {
    Nobody,
    Named(Option<UserId>),
}

/// Which mask is set: a preset, or the mask for the user whom a word names (`None` if the word is
/// no name).
#[derive(Clone, Copy, PartialEq, Eq, Debug)]
pub enum MaskScope {
    Preset(PresetKind),
    User(Option<UserId>),
}

/// A bit of a mask, and whether it is given or taken.
#[derive(Clone, Copy, PartialEq, Eq, Debug)]
pub struct MaskEntry {
    pub scope: MaskScope,
    pub bit: Bit,
    pub value: bool,
}

/// Why a list command is refused.
#[derive(Clone, Copy, PartialEq, Eq, Debug)]
pub enum AclFault {
    UnknownUser,
    OwnerKept,
    TooManyUsers,
    ReservedName,
    NoSuchGroup,
    NoMemory,
    TooManyGroups,
}

impl AclFault {
    ghost use Rattle.std.specs.Prelude.{◌≡◌};
    ghost use Rattle.acl_words.specs.Faults.{number_of_fault};

    /// The fault's number, 1 to 7.
    pub fn number(self) -> u8
        ensures { result ≡ number_of_fault self }
    {
        match self {
            AclFault::UnknownUser => 1,
            AclFault::OwnerKept => 2,
            AclFault::TooManyUsers => 3,
            AclFault::ReservedName => 4,
            AclFault::NoSuchGroup => 5,
            AclFault::NoMemory => 6,
            AclFault::TooManyGroups => 7,
        }
    }
}
