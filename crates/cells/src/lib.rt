//! Cells, lines and grids of cells, in which the halves of wide characters are paired.
#![tactic(auto)]

mod cell;
mod edits;
mod grid;
mod letters;
mod line;
mod marks;
mod rendition;
mod shifting;
mod texts;

pub use cell::{Cell, Shape, next_unlike};
pub use grid::{Grid, GridFault, blank_lines, is_grid_size};
pub use letters::{drawn_as, glyph_columns, glyph_width, is_known_wide, is_letter, is_mark};
pub use line::Line;
pub use marks::{Marks, PackedMarks};
pub use rendition::{Attribute, Colour, Rendition};
pub use texts::Put;
