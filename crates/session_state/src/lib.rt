//! What a session has at a moment, what its lists say of that, and what its steps are given and give.
#![tactic(auto)]

mod client;
mod clients;
mod items;
mod leaders;
mod notes;
mod reading;
mod state;
mod texts;

ghost use Rattle.std.specs.Prelude.{◌≡◌, ◌<◌, ℕ, List};
ghost use Rattle.std.specs.List.{AllByRecursion};
ghost use Rattle.session_model.specs.Tables.{Window};
ghost use Rattle.session_model.specs.Sound.{NumbersDiffer};
ghost use Rattle.session_model.specs.Texts.{in_order};
ghost use Rattle.session_state.specs.Orders.{numbered};

pub use client::{Client, NewClient};
pub use clients::{Clients, messages_of};
pub use leaders::leaders_text;
pub use notes::Notes;
pub use reading::{Reading, read_keys};
pub use state::{Caller, KeyCaller, KeyOrder, State, Step, StepOutput, is_client_size};
pub use texts::{clients_text, windows_text};
pub use windows::WindowSize;

/// The windows by rising numbers are those of each number, one after another.
pub fn order_by_numbers()
    ensures { (windows : List Window) (count : ℕ) → NumbersDiffer windows
        → AllByRecursion (λ (w : Window). w.number < count) windows
        → in_order windows ≡ numbered windows 0 count }
{}
