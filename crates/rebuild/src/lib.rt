//! Bytes that lead a new terminal to the state of an emulator: its page, kept lines, tab stops, saved place, modes and
//! sets, and whether a wrap is pending or marks may still join.
#![tactic(auto)]

mod judging;
mod pen;
mod sameness;
mod settings;
mod telling;

ghost use Rattle.std.specs.Prelude.{◌≡◌, ℕ, List};
ghost use Rattle.terminal_model.specs.Reading.{Terminal, reads};
ghost use Rattle.emulator.specs.Standing.{Parts, StandsFor, IsBetween};
ghost use Rattle.rebuild.specs.Rebuilt.{BringsBack, rebuilt};

pub use judging::{RebuildFault, rebuild};

/// The terminal that was brought back is the one that was there before, whatever that had read. So what both read
/// later, they show, keep and answer alike.
pub fn rebuilt_is_the_same()
    ensures terminal { (e : Parts) (bytes : List ℕ) (t : Terminal)
        → IsBetween e.screen.state.coding e → BringsBack e bytes → StandsFor e t
        → (rebuilt e bytes).terminal ≡ t }
    ensures later { (e : Parts) (bytes later : List ℕ) (t : Terminal)
        → IsBetween e.screen.state.coding e → BringsBack e bytes → StandsFor e t
        → reads (rebuilt e bytes).terminal later ≡ reads t later }
{}
