//! What a new session has that takes the lines of a setup. Each function here does nothing; its contract says what
//! holds.
#![tactic(auto)]

ghost use Rattle.trail_again.specs.Restored.{BeginsAsTaken, SetupRestores};

/// A new session of the same edition and owner refuses no line of the setup of a trail's file, if no line is too long.
/// Then the same users are known, in the same order, with the same leaders, in the same order. Each user but the owner
/// has on each command what their entry had. Masks are the closed masks; presets and the default lock are those of the
/// setup; the session is multiuser, and nobody has joined it.
pub fn setup_restores()
    ensures { SetupRestores }
{}

/// A session that begins with lines that tables take has the tables to which they lead, and no line is refused.
pub fn setups_begin()
    ensures { BeginsAsTaken }
{}
