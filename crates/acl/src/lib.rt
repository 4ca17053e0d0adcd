//! The access lists of a session: who is known, what each user may do, and by which acts.
#![tactic(auto)]

mod acl;
mod carry;
mod lists;
mod plan;
mod rows;
mod sets;

ghost use Rattle.std.specs.Prelude.{◌≡◌, ◌∷◌, ◌++◌, ℕ, List};
ghost use Rattle.std.specs.List.{AllByRecursion};
ghost use Rattle.acl.specs.History.{History, followed_by, is_known, is_open, open_count, users_of, among};
ghost use Rattle.acl.specs.Commands.{IsAside, AllMayFollow};
ghost use Rattle.acl.specs.Table.{Table, StandsFor};
ghost use Rattle.acl_words.specs.declared.act.Act.{Act};
ghost use Rattle.acl_words.specs.declared.leaders.Edition.{Edition};
ghost use Rattle.acl_words.specs.declared.user_id.UserId.{UserId};

pub use acl::{Acl, LeaderChange, MaskChange, NewUsers, RightsChange};
pub use acl_words::Slots;
// The modules of words are passed on too, since definitions name the words by their paths.
pub use acl_words::{
    Leaders, USERS, WINDOWS, act, bits, command_name, entries, leaders, names_equal, user_id,
};
pub use act::{Act, LockMode, Object, PresetKind};
pub use bits::{Bit, BitChange, Bits};
pub use command_name::CommandName;
pub use entries::{AclFault, EntryDenial, MaskEntry, MaskScope, NewLeader};
pub use leaders::Edition;
pub use lists::{Follower, Lists};
pub use user_id::UserId;

/// Acts of clients and locks leave all rights unchanged.
pub fn acts_aside()
    ensures one { (t : Table) (edition : Edition) (owner : UserId) (h : History) (act : Act) →
        IsAside act → StandsFor t edition owner h → StandsFor t edition owner (act ∷ h) }
    ensures all { (t : Table) (edition : Edition) (owner : UserId) (h : History) (acts : List Act) →
        AllByRecursion IsAside acts → StandsFor t edition owner h →
        StandsFor t edition owner (followed_by h acts) }
{}

/// Acts of list commands leave the open windows unchanged.
pub fn windows_stay()
    ensures windows { (edition : Edition) (owner : UserId) (h : History) (acts : List Act) →
        AllMayFollow edition owner h acts →
        (window : ℕ) → is_open (followed_by h acts) window ≡ is_open h window }
    ensures count { (edition : Edition) (owner : UserId) (h : History) (acts : List Act) →
        AllMayFollow edition owner h acts → open_count (followed_by h acts) ≡ open_count h }
{}

/// Acts that follow other acts follow the history that those leave.
pub fn acts_in_order()
    ensures { (h : History) (before after : List Act) →
        followed_by h (before ++ after) ≡ followed_by (followed_by h before) after }
{}

/// If a table stands for a history, its list of users holds exactly the known users.
pub fn users_listed()
    ensures { (t : Table) (edition : Edition) (owner : UserId) (h : History) (u : UserId) →
        StandsFor t edition owner h → is_known owner h u ≡ among (users_of owner h) u }
{}
