//! Fields of lines: cut at a byte, numbers in decimal, texts of any bytes in plain ones; users, bits,
//! objects, modes, acts and verdicts; times; and what the numbers of refusals mean.
#![tactic(auto)]

pub mod acts;
mod dates;
mod events;
mod meaning;
mod numbers;
pub mod parts;
mod texts;
pub mod verdicts;

pub use dates::{push_clock, push_day, push_when, times_worked};
pub use events::EventKind;
pub use meaning::{push_meaning, push_means};
pub use numbers::{read_u8, read_u16, read_u32, read_u64, u8_at, u16_at, u32_at, u64_at};
pub use texts::{cut, next_word, push_escaped, unescape};
