//! Bytes that make any VT220 show a view.
#![tactic(auto)]

mod command;
mod frames;
mod painting;
mod pen;
mod rendition;
mod shadow;
mod shared;
mod taking;

pub use frames::{frame, frame_keeping, frame_sparing, needs_draw};
pub use shadow::Shadow;
pub use shared::SharedView;
pub use taking::Frame;
