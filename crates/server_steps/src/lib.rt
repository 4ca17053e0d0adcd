//! What is called around a step that a loop submits, which steps it submitted, what they cost, what a message
//! means, what became of it, and what of it a connection holds before and after a step.
#![tactic(auto)]

mod asking;
mod ending;
mod meaning;
mod news;
mod progress;
mod sending;
mod submitted;
mod turns;
mod typing;

pub use asking::{
    drains, go_on, has_asked, is_due_again, is_faulty, is_much, is_window, may_print, next_asked,
    put_back, read,
};
pub use ending::{
    count_new, end_after, end_by, expire, finish, full_if, oldest_new, quit_if, set_look,
    take_fullness, take_guest,
};
pub use meaning::{
    Meaning, event_of, guest_of, is_extra, kind_of, make_guest, many_of, may_judge, meaning_of,
    news_of, quits, role_at, role_of, shown_in,
};
pub use news::{NewsList, filled_by, misfit};
pub use progress::{Progress, came_of, is_judged, is_refused, settle, window_after};
pub use sending::{cut_off, drop_typed, is_laggard, typist_after, wanting, write};
pub use submitted::{Gate, Open, Submitted, entries_of, is_quit, kept_of};
pub use turns::{Pending, Reads, Writes, drawn_from, next_from};
pub use typing::{
    Target, answer_keys, free_keys, gather, has_keys, hold_keys, idle_at, is_open_at, next_size,
    take_keys, take_news, target_at, user_at, wants_size,
};
