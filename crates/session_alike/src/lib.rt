//! Sessions that are alike, as one that goes on after a restart and one that never stopped, and the law
//! that they stay so. Each function does nothing; its contract says what holds.
#![tactic(auto)]

ghost use Rattle.session_alike.specs.Histories.{ActsKeepAlike};
ghost use Rattle.session_alike.specs.Steps.{AlikeGoesOn, BeginsAlike, RunsGoOn};

/// Two histories that answer alike, under other serials of windows and clients, answer alike after the
/// same acts: who is known, who leads whom, who has which right on which window and command, what masks
/// and presets say, who holds which lock.
pub fn acts_keep_alike()
    ensures { ActsKeepAlike }
{}

/// Two sessions are alike if, under other serials, they have the same windows, clients and mode, and
/// their histories answer alike. The same event of the same user gets the same reply in both, with the
/// same acts, verdicts and effects, and each client is granted the same view. Both are alike again
/// afterwards. Only lists of clients tell them apart: `displays` gives their serials. Both must have
/// serials left. Right after a restart, when nobody has joined and no window is open, they are alike if
/// their histories answer alike (`begin`).
pub fn alike_goes_on()
    ensures step { AlikeGoesOn }
    ensures run { RunsGoOn }
    ensures begin { BeginsAlike }
{}
