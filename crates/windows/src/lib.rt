//! The open windows: their serials, numbers, titles and screens.
#![tactic(auto)]

mod among;
mod numbers;
mod window;
mod windows;

pub use emulator::Writing;
pub use window::{Window, WindowSize, is_title, is_window_size};
pub use windows::Windows;
pub use windows_model::WindowsFault;
