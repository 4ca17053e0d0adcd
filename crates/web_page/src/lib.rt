//! What a browser shows: whether the server let it in, and rows of text, with what changed in them
//! since they were sent.
#![tactic(auto)]

ghost use Rattle.std.specs.Prelude.{◌≡◌, ℕ, List};
ghost use Rattle.std.specs.List.{AllByRecursion};
ghost use Rattle.web_page.specs.Json.{spelled_text, IsHarmless, Says};
ghost use Rattle.web_page.specs.Showing.{Sheet as Showing, IsBlank};

mod character;
mod display;
mod line;
mod row;
mod sheet;

pub use character::put_text;
pub use display::{ClientFault, WebDisplay};
pub use sheet::{Sheet, SheetFault};

/// A text in JSON says its characters, and no byte of it is a control or one of `<`, `>`, `&`, `'` and
/// `"`.
pub fn texts_hold_no_markup()
    ensures bytes { (text : List ℕ) → AllByRecursion IsHarmless (spelled_text text) }
    ensures says { (text : List ℕ) → Says (spelled_text text) text }
{}

/// There is one blank sheet of each size.
pub fn blank_sheets_are_equal()
    ensures { (rows columns : ℕ) (a b : Showing) → IsBlank rows columns a → IsBlank rows columns b
        → a ≡ b }
{}
