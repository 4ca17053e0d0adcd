//! The screen of a VT220: what each control function does to it.
#![tactic(auto, using(crate::proofs::Widths::line_width), // a line is as wide as its page
unfolding(terminal_model::specs::Table::acted_from))]

mod apply;
mod editing;
mod erasing;
mod lines;
mod moving;
mod performing;
mod printing;
mod resetting;
mod runs;
mod screen;
mod sizing;
mod text;

ghost use Rattle.std.specs.Prelude.{◌≡◌, ℕ, ◌+◌, ◌-◌, ◌<◌, ◌≤◌, ◌⊎◌, List, [], None, length, slice_index};
ghost use Rattle.control_parser.specs.declared.parser.Func.TheVariants.{Control, Csi, Esc};
ghost use Rattle.terminal_model.specs.Functions.{count};
ghost use Rattle.terminal_model.specs.Screen.{Screen as Modelled};
ghost use Rattle.vt_screen_page.specs.Store.{turned};
ghost use Rattle.vt_screen.specs.Places.{indexed_places, lowered_places, inserted_places, deleted_places};
ghost use Rattle.vt_screen.specs.Stored.{effect_places};

pub use screen::Screen;
pub use terminal_model::{Modes, Report};

/// If the lines from `top` to `bottom` go up or down by a count, each line that stays keeps its
/// stored line, and so does each line outside of them.
pub fn lines_stay_stored()
    ensures up { (top bottom count line : ℕ) (places : List ℕ)
        → top ≤ line → line + count ≤ bottom → bottom < length places
        → slice_index (turned top bottom count places) line ≡ slice_index places (line + count) }
    ensures down { (top bottom count line : ℕ) (places : List ℕ)
        → top + count ≤ line → line ≤ bottom → bottom < length places
        → slice_index (turned top bottom (bottom + 1 - top - count) places) line
        ≡ slice_index places (line - count) }
    ensures beside { (top bottom count line : ℕ) (places : List ℕ)
        → (line < top) ⊎ (bottom < line) → line < length places
        → slice_index (turned top bottom count places) line ≡ slice_index places line }
{}

/// LF, IND and NEL rotate the places of the lines of the margins as they scroll the lines, and so
/// do RI, IL and DL with the lines that they scroll.
pub fn scrolls_turn_places()
    ensures line_feed { (x : Modelled) (places : List ℕ)
        → effect_places x (Control 0x0A) places ≡ indexed_places x.state places }
    ensures index { (x : Modelled) (places : List ℕ)
        → effect_places x (Esc [] 0x44) places ≡ indexed_places x.state places }
    ensures next_line { (x : Modelled) (places : List ℕ)
        → effect_places x (Esc [] 0x45) places ≡ indexed_places x.state places }
    ensures reverse_index { (x : Modelled) (places : List ℕ)
        → effect_places x (Esc [] 0x4D) places ≡ lowered_places x.state places }
    ensures insert_lines { (x : Modelled) (params places : List ℕ)
        → effect_places x (Csi None params [] 0x4C) places
        ≡ inserted_places (count params) x.state places }
    ensures delete_lines { (x : Modelled) (params places : List ℕ)
        → effect_places x (Csi None params [] 0x4D) places
        ≡ deleted_places (count params) x.state places }
{}
