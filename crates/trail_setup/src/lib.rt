//! The setup that brings a new session to the users, leaders, rights on commands, masks, presets and the default
//! lock that a trail's entries leave. While windows come back, masks are closed: they give nobody more than they had.
//!
//! Proved: what users' own entries have (`Entries`), and that a window born under closed masks gives a user no bit
//! that they lacked on one of the old windows (`born_closed`). The state follows each act of each entry in order, but
//! none of a `quit`, and has the mode that the latest entry says that says one (`SetupState::take`). It stands for the
//! history of these acts (`states_stand`, `states_keep`). A setup has just these lines, in this order (`push_setup`):
//! users become known with nothing; closed masks, with x on `aclumask` that an opener is lent for them; leaders and
//! bits on commands that users have after the trail's acts; presets; the default lock; and for later the masks, and the
//! mode that the state keeps. `trail_again` proves what a session has that takes these lines.
#![tactic(auto)]

ghost use Rattle.trail_setup.specs.Closing.{BornClosed};
ghost use Rattle.trail_setup.specs.Keeping.{StatesKeep, StatesStand};

mod commands;
mod entries;
mod lines;
mod masks;
mod mode;
mod setup;
mod state;

pub use setup::push_setup;
pub use state::SetupState;

/// Under closed masks a window that is born gives a user no bit that they lacked on one of the old windows.
pub fn born_closed()
    ensures { BornClosed }
{}

/// A state that stands for a history stands, after the acts that it follows, for the history followed by these.
pub fn states_stand()
    ensures { StatesStand }
{}

/// Masks, presets and the default lock of a state are, after the acts that it follows, those of the history.
pub fn states_keep()
    ensures { StatesKeep }
{}
