//! The write locks of a session's windows.
#![tactic(auto)]

mod lock;
mod locks;

ghost use Rattle.std.specs.Prelude.{◌≡◌, ◌∷◌, ℕ, List, Some, true};
ghost use Rattle.acl.specs.History.{History, may, followed_by};
ghost use Rattle.acl.specs.Commands.{AllMayFollow};
ghost use Rattle.acl.specs.declared.act.Act.{Act};
ghost use Rattle.acl.specs.declared.act.Act.TheVariants.{Attached};
ghost use Rattle.acl.specs.declared.act.Object.TheVariants.{Window};
ghost use Rattle.acl.specs.declared.bits.Bit.TheVariants.{Write};
ghost use Rattle.acl.specs.declared.leaders.Edition.{Edition};
ghost use Rattle.acl.specs.declared.user_id.UserId.{UserId};
ghost use Rattle.writelock.specs.Holding.{holder, clients_of, mode_of, default_of};
ghost use Rattle.writelock.specs.LockTable.{LocksStandFor};
ghost use Rattle.writelock.specs.declared.locks.Locks.{Locks};

pub use lock::{Lock, LockDenial};
pub use locks::Locks;

/// A client that attaches leaves the locks unchanged.
pub fn locks_attached()
    ensures { (t : Locks) (edition : Edition) (owner : UserId) (h : History) (client : ℕ)
        (user : UserId) → LocksStandFor t edition owner h →
        LocksStandFor t edition owner (Attached client user ∷ h) }
{}

/// The holder of a window's lock may write there.
pub fn holders_may_write()
    ensures { (t : Locks) (edition : Edition) (owner : UserId) (h : History) (window : ℕ)
        (user : UserId) → LocksStandFor t edition owner h →
        holder edition owner h window ≡ Some user →
        may edition owner h user Write (Window window) ≡ true }
{}

/// Acts of list commands leave the attached clients, the modes of windows and the default mode
/// unchanged.
pub fn lists_leave_locks()
    ensures clients { (edition : Edition) (owner : UserId) (h : History) (acts : List Act) →
        AllMayFollow edition owner h acts → clients_of (followed_by h acts) ≡ clients_of h }
    ensures modes { (edition : Edition) (owner : UserId) (h : History) (acts : List Act) →
        AllMayFollow edition owner h acts →
        (window : ℕ) → mode_of (followed_by h acts) window ≡ mode_of h window }
    ensures default { (edition : Edition) (owner : UserId) (h : History) (acts : List Act) →
        AllMayFollow edition owner h acts → default_of (followed_by h acts) ≡ default_of h }
{}
