//! The state of a terminal beside its page, the actions of control functions, and how they change that state. Lines and
//! columns count from 0.
#![tactic(auto)]

mod cursor;
mod escapes;
mod margins;
mod modes;
mod report;
mod saved;
mod sequences;
mod tabs;
mod values;

pub use cursor::{
    advance, following, go_down, go_home, go_left, go_right, go_to, go_to_first_column, go_up,
    lacks_room, move_to, needs_line, separate, settle,
};
pub use escapes::{control_action, escape_action};
pub use margins::{
    end_after, end_column, end_line, first_column, first_line, fit, is_in_margins, set_margins,
    use_whole_page,
};
pub use modes::{
    designate, protect, render, set_application_keypad, set_coding, set_eight_bit_reports,
    set_mode, shift, soft_reset, starting_state,
};
pub use report::{is_answered, report_of};
pub use saved::{fit_saved, restore, saved_of};
pub use sequences::{sequence_action, setting_of};
pub use tabs::Tabs;
pub use values::Setting;
