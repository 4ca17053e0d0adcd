//! Worked rows of the policies in contrib/policies and of the traps beside them: what guests may
//! and may not do, computed from the policies' lines, in both editions of groups. Each function
//! here does nothing; its contract states the rows.

ghost use Rattle.session_laws.specs.WorkedPolicies as policies;
ghost use Rattle.session_laws.specs.WorkedTraps as traps;

/// sue reads the one window that the owner lets sue read, types there until that right is taken
/// back, and gives four commands. After that window is opened again, sue has nothing on it.
pub fn support()
    ensures { policies.InBoth policies.Support }
{}

/// Pupils read all windows, and type in the window whose turn is theirs. A turn ends with its
/// window.
pub fn class()
    ensures { policies.InBoth policies.Class }
{}

/// Operators open windows and do everything there, but change no rights. Guests read all windows,
/// also windows that are opened again, and give seven commands.
pub fn ops()
    ensures { policies.InBoth policies.Ops }
{}

/// A guest who becomes known after others set their masks has r, w and x on windows that these
/// users open later, until they mask this guest, too. A window that opens after the guest becomes
/// known and before the mask is set is the guest's as well.
pub fn late_comers()
    ensures opener { policies.InBoth traps.LateComers }
    ensures pupil { policies.InBoth traps.Pupil }
    ensures between { policies.InBoth traps.Between }
{}

/// Presets that a user sets while having x on aclumask count for each later name, until the owner
/// sets them again.
pub fn presets()
    ensures { policies.InBoth traps.Presets }
{}

/// The windows of a removed user stay open, and the masks that this user gave are forgotten.
pub fn removed_users()
    ensures windows { policies.InBoth traps.Removed }
    ensures masks { policies.InBoth traps.Back }
{}

/// In single-user mode, known users still give commands from outside, and the owner can remove
/// nobody.
pub fn single_user_mode()
    ensures { policies.InBoth traps.Single }
{}

/// A lock can keep the owner out: in mode auto by w alone, and on each later window by x on
/// defwritelock. Taking w from the holder frees the lock.
pub fn locks()
    ensures parked { policies.InBoth traps.Parked }
    ensures defaults { policies.InBoth traps.Locked }
{}

/// A user who has only x on screen opens a window with a title and a number that another window
/// had, so that a grant by title goes to the wrong window.
pub fn openers()
    ensures { policies.InBoth traps.Misled }
{}

/// A user in the group of a role may type on windows that open later, and has no x there.
pub fn roles()
    ensures { policies.InBoth traps.Pens }
{}
