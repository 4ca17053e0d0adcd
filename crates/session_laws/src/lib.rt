//! Laws of every step and of every run of a session, which follow from the definitions alone, and
//! worked rows, which show that the definitions aren't empty. Each function does nothing; its
//! contract says what holds.
#![tactic(auto)]

mod guests;
pub mod worked;

ghost use Rattle.session_laws.specs.Entries.{ClientsAreRemembered};
ghost use Rattle.session_laws.specs.Fit.{FreshIsFit, TablesStayFit, RunsAreFit};
ghost use Rattle.session_laws.specs.Focus.{FocusIsEntered};
ghost use Rattle.session_laws.specs.Keyed.{KeysDoTheirRows};
ghost use Rattle.session_laws.specs.Laws.{StepsKeepPromise, RunsKeepPromise, TablesStaySound, RunsAreSound};
ghost use Rattle.session_laws.specs.Laws.{StepsAreFew, StepsSayOnce, CommandsDoTheirRows, CommandsAreRefusedSo};
ghost use Rattle.session_laws.specs.Laws.{ActsAreNoted, ActsStayAgreed, RunsAgree};
ghost use Rattle.session_laws.specs.Written.{WindowsAreRemembered};

pub use guests::{
    guests_are_confined, guests_are_contained, hidden_output_is_unseen, holders_stay,
    locks_are_taken, locks_stay, new_windows_are_masked, others_are_gated, pages_show_what_is_read,
    rights_are_gated, spectators_leave_others,
};

/// Each step keeps the promise, for any tables. Typed bytes reach windows exactly by rights and
/// locks; if they don't, it is told why. Commands act exactly if x is granted. Draws show the
/// granted view by frames. Denials name their entries and holders. A refused step changes nothing.
/// There is no other effect.
pub fn steps_keep_promise()
    ensures { StepsKeepPromise }
{}

/// Each step of each run keeps the promise that `steps_keep_promise` states.
pub fn runs_keep_promise()
    ensures { RunsKeepPromise }
{}

/// Windows and clients stay in the order of their serials; each serial was given, and none is given
/// again. Window numbers differ. There are at most 40 windows and 64 clients.
pub fn tables_stay_sound()
    ensures step { TablesStaySound }
    ensures run { RunsAreSound }
{}

/// A step has at most 256 effects.
pub fn steps_are_few()
    ensures { StepsAreFew }
{}

/// No client is told the same text twice in a step.
pub fn steps_say_once()
    ensures { StepsSayOnce }
{}

/// The acts in the tables are those that the steps noted. By these acts, the windows of the tables
/// are open and their clients are attached.
pub fn acts_agree()
    ensures noted { ActsAreNoted }
    ensures step { ActsStayAgreed }
    ensures run { RunsAgree }
{}

/// A Command event that isn't refused is granted, and its command did its row: its acts, effects,
/// text and tables. It is refused exactly if its user isn't known, its line is no command, or its
/// checks or its row refuse it.
pub fn commands_do_their_rows()
    ensures done { CommandsDoTheirRows }
    ensures refused { CommandsAreRefusedSo }
{}

/// For each client of a run, the entries of the run say which keys it gave, and what was delivered
/// to it since it attached or last changed its size.
pub fn clients_are_remembered()
    ensures { ClientsAreRemembered }
{}

/// The tables of a new session are fit: windows and clients are sound and agree with the acts of
/// all steps, window numbers are below 40, and regions show open windows or nothing. Each step
/// keeps them fit.
pub fn tables_stay_fit()
    ensures fresh { FreshIsFit }
    ensures step { TablesStayFit }
    ensures run { RunsAreFit }
{}

/// A command that keys complete did its row after what was typed: its acts, effects and tables, and
/// what it lists is said. If it is refused, nothing was done and the refusal is said. Keys that
/// complete no command only type.
pub fn keys_do_their_rows()
    ensures { KeysDoTheirRows }
{}

/// What was written to each window is exactly what the entries of the run say: the output of its
/// program, and the clears, resets, codings and sizes of commands whose checks passed.
pub fn windows_are_remembered()
    ensures { WindowsAreRemembered }
{}

/// The window in a client's focus, if there is one, is the one that its user entered last, when the
/// client attached or by its keys.
pub fn focus_is_entered()
    ensures { FocusIsEntered }
{}
