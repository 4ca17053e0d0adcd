//! The core of a multiuser terminal multiplexer: one atomic step for each event; and the laws of guests
//! over its runs.
#![tactic(auto)]

mod coming;
mod drawing;
mod may_type;
mod session;
mod sharing;

ghost use Rattle.session_core.specs.Guarded.{CallsAreGuarded, NewRunsAreGuarded};
ghost use Rattle.session_core.specs.Unseen.{SessionsHideOutput};

pub use session::{NewSession, Session};
pub use session_model::{
    Bytes, Denied, Done, Effect, EntryDenied, Event, LockDenied, Ran, Reason, Refusal, Reply,
    Verdict, WindowsFault,
};
pub use session_state::Notes;

/// The steps that `Session::run` promises of a call, and those of a new session's run, change rights,
/// locks, the mode, others' clients and windows only as the laws of guests say. A step of a user who
/// only watches leaves others all that they have. If nobody else changes rights in the call, users who
/// may not change them before it may not after it.
pub fn calls_are_guarded()
    ensures call { CallsAreGuarded }
    ensures new { NewRunsAreGuarded }
{
    session_laws::rights_are_gated();
    session_laws::guests_are_contained();
    session_laws::new_windows_are_masked();
    session_laws::locks_are_taken();
    session_laws::holders_stay();
    session_laws::others_are_gated();
    session_laws::spectators_leave_others();
    session_laws::tables_stay_fit();
}

/// If two sessions of one edition and owner stand for runs that differ only in output that is hidden
/// from a user, that user observed the same of both. (Each call of `Session::run` says for which run
/// the session stands after it.)
pub fn sessions_hide_output()
    ensures { SessionsHideOutput }
{
    session_laws::hidden_output_is_unseen();
}
