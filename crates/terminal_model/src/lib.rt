//! A VT220 as this project defines it: what a terminal is, what each control function does to it,
//! how it reads bytes, and when it shows a view. The definitions are in `specs/`. The code has the
//! plain types that it shares with the definitions, and the laws.
#![tactic(auto)]

mod action;
mod laws;
mod report;
mod rows;
mod state;

pub use action::{Action, Mode, Part};
pub use laws::{
    draws_join, erased_ones_stand_at_places, frame_functions_are_listed, frames_start_anew,
    frames_start_plain, ignored_ones_change_nothing, last_lines_stay,
    moves_change_the_cursor_alone, pages_at_places, pages_stay_drawable, pieces_are_whole,
    printed_ones_stand_at_places, reading_is_of_the_whole, renditions_and_modes_change_alone,
    screens_stay_sound, spelled_ones_act_alone, terminals_stay_terminals,
};
pub use report::Report;
pub use rows::{coded_rows, coloured_rows, drawn_rows, edited_rows, printed_rows};
pub use state::{
    MAX_COLUMNS, MAX_KEEP, MAX_ROWS, MIN_COLUMNS, MIN_ROWS, Modes, Position, REPORT_BYTES, Saved,
    State,
};
