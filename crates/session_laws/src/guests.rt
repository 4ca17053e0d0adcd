//! What a user of a session can't do, can't see and can't get later, in every step and in every run.
//! Each function here is a law, which follows from the definitions alone: it does nothing, and its
//! contract says what holds.

ghost use Rattle.session_laws.specs.Changing.{RightsGate};
ghost use Rattle.session_laws.specs.Contained.{GuestsAreContained};
ghost use Rattle.session_laws.specs.Gates.{ModeGate, ClientsStay};
ghost use Rattle.session_laws.specs.Locking.{StepsKeepHolders, RunsHaveHolders, LocksAreTaken, HoldersStay};
ghost use Rattle.session_laws.specs.Naming.{WindowsStay};
ghost use Rattle.session_laws.specs.Opening.{NewWindowsAreMasked};
ghost use Rattle.session_laws.specs.Seeing.{PagesShowWhatIsRead};
ghost use Rattle.session_laws.specs.Confined.{StepsConfine, GuestsAreConfined, GuestsStayContained};
ghost use Rattle.session_laws.specs.Keeping.{LocksStay, LocksStayInRuns};
ghost use Rattle.session_laws.specs.Unseen.{HiddenOutputIsUnseen};
ghost use Rattle.session_laws.specs.Watching.{SpectatorsLeaveOthers};

/// Rights change only by a granted list command. A step leaves unchanged who is known, who leads
/// whom, masks, presets, and what everyone may do, except on a window that it opens. Or it gives
/// acladd, aclchg, acldel, aclgrp or aclumask in multiuser mode, and the user of the step has x on
/// that command.
pub fn rights_are_gated()
    ensures { RightsGate }
{
    crate::steps_keep_promise();
    crate::commands_do_their_rows();
    crate::keys_do_their_rows();
}

/// Take users none of whom has x on a command that changes rights. Whatever they do, and whatever
/// others do except such commands, at each later moment everyone may do what they might on
/// everything that was there, and these users still have no x on these commands.
pub fn guests_are_contained()
    ensures { GuestsAreContained }
{
    crate::steps_keep_promise();
    crate::commands_do_their_rows();
    crate::keys_do_their_rows();
}

/// After an Open that isn't refused, a known user has a bit on the new window exactly if they
/// opened it, or the opener's mask for them allows the bit.
pub fn new_windows_are_masked()
    ensures { NewWindowsAreMasked }
{}

/// In each step and in every run, the holder of a window's write lock may write there. A user
/// becomes the holder in a step of their own, in which they had w on the window or opened it.
pub fn locks_are_taken()
    ensures step { StepsKeepHolders }
    ensures run { RunsHaveHolders }
    ensures taken { LocksAreTaken }
{
    crate::steps_keep_promise();
    crate::commands_do_their_rows();
    crate::keys_do_their_rows();
}

/// The mode changes only by a `multiuser` whose x is granted. A client stays attached, except by
/// its own Detach or `detach`, or by an `acldel`, `multiuser` or `quit` whose x is granted. A
/// window stays open or closed, and keeps its number and its title, except if its program ends, if
/// a user with x on `screen` opens it, by `title`, `number` or `kill` with x on the command and on
/// that window, or by `quit`.
pub fn others_are_gated()
    ensures mode { ModeGate }
    ensures clients { ClientsStay }
    ensures windows { WindowsStay }
{
    crate::steps_keep_promise();
    crate::commands_do_their_rows();
    crate::keys_do_their_rows();
    crate::tables_stay_fit();
}

/// In a step of a user who has neither w on a window nor x on a command that changes rights, the
/// window's holder stays, except by a granted `kill`, `quit` or `multiuser off`.
pub fn holders_stay()
    ensures { HoldersStay }
{
    crate::steps_keep_promise();
    crate::commands_do_their_rows();
    crate::keys_do_their_rows();
}

/// What a client is granted to see depends on nothing of a window that its user may not read,
/// except the window's number: not on its title, its size or its contents.
pub fn pages_show_what_is_read()
    ensures { PagesShowWhatIsRead }
{}

/// Confinement on windows to come. Users have x on no command that changes rights; they and their
/// leaders are known and may not open windows; and whoever may open windows masks a bit for each
/// of them. Then none of these users has this bit on any window that is opened later, as long as
/// nobody else is granted such a command; and all of these premises still hold afterwards. On what
/// was there, rights stay as they are even without masks (`contained`).
pub fn guests_are_confined()
    ensures step { StepsConfine }
    ensures run { GuestsAreConfined }
    ensures contained { GuestsStayContained }
{
    crate::steps_keep_promise();
    crate::commands_do_their_rows();
    crate::keys_do_their_rows();
}

/// A lock can't be stolen. After each step that isn't the holder's own, the holder of a window's
/// lock still has it, or nobody has. In the second case the window's program ended, or somebody was
/// granted kill on this window, quit, a `multiuser off` that sends the holder away, or acladd,
/// aclchg, acldel or aclgrp whose acts took w on the window from the holder or removed the holder.
pub fn locks_stay()
    ensures step { LocksStay }
    ensures run { LocksStayInRuns }
{
    crate::steps_keep_promise();
    crate::commands_do_their_rows();
    crate::keys_do_their_rows();
    crate::tables_stay_fit();
    crate::guests::locks_are_taken();
}

/// Output is hidden from a user if it is of a window that they didn't open, and no later draw of a client
/// of theirs shows that window while they may read it. Of two runs that differ only in such output, they
/// observe the same. They observe the views of their clients at each draw, and whether anything was
/// delivered; the replies to their events; what their clients are told, and when these go; and, of the
/// windows that they opened, the bytes typed, the sizes and the end.
pub fn hidden_output_is_unseen()
    ensures { HiddenOutputIsUnseen }
{}

/// A user changes nothing that others have if they may write nowhere, and have x at most on the commands
/// of a page, which need a client and no window (`detach`, `select`, `split` and so on), on `windows` and
/// on `displays`. Each step of theirs leaves windows with their contents, others' clients, rights, locks
/// and the mode as they are, and each of its effects is for a client of theirs.
pub fn spectators_leave_others()
    ensures { SpectatorsLeaveOthers }
{
    crate::guests::holders_stay();
    crate::guests::locks_are_taken();
}
