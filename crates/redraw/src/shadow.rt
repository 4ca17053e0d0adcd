//! What is known of a client's terminal.

ghost use Rattle.std.specs.Prelude.{◌≡◌, ◌<◌, ◌≤◌, ◌↔◌, None, IsTrue, IfNone, IfSome, length, IfOk};
ghost use Rattle.cells.specs.Page.{IsGrid};
ghost use Rattle.view.specs.View.{KeepsSize, place_of};
ghost use Rattle.terminal_model.specs.Shows.{LooksLike};
ghost use Rattle.redraw.specs.Shadow.{AreAlikeAbove, AreAlikeUpTo};

use crate::shared::SharedView;
use cells::next_unlike;
use std::alloc::AllocError;
use std::marker::Model;
use view::{Cursor, KeyModes, View};

/// What is known of a terminal: its size, and the view that it shows, if that is known.
pub struct Shadow {
    pub(crate) rows: u16,
    pub(crate) columns: u16,
    pub(crate) known: Option<SharedView>,
}

impl Drop for Shadow {
    fn drop(self) {
        let Shadow {
            rows: _,
            columns: _,
            known: _,
        } = self;
    }
}

impl Model for Shadow {
    ghost use Rattle.redraw.specs.Shadow.{Knowledge, IsSound, knowledge_of};

    ghost Value = { Knowledge };

    ghost view = { λ s. knowledge_of s.rows s.columns s.known };

    ghost invariant = { λ s. IsSound (knowledge_of s.rows s.columns s.known) };
}

impl Shadow {
    ghost use Rattle.redraw.specs.Shadow.{Knowledge};

    /// A terminal of this size, which may be in any state.
    pub fn unknown(rows: u16, columns: u16) -> Shadow
        ensures { result ≡ record { rows = rows; columns = columns; known = None } }
    {
        Shadow {
            rows,
            columns,
            known: None,
        }
    }

    /// The number of the terminal's lines.
    pub fn rows(&self) -> u16
        ensures { result ≡ self.now.rows }
    {
        self.rows
    }

    /// The number of the terminal's columns.
    pub fn columns(&self) -> u16
        ensures { result ≡ self.now.columns }
    {
        self.columns
    }

    /// A copy that shares the view. `AllocError` if memory is refused.
    pub(crate) fn shared(&self) -> Result<Shadow, AllocError>
        ensures { IfOk result (λ s. s ≡ self.now) }
    {
        Ok(Shadow {
            rows: self.rows,
            columns: self.columns,
            known: shared_view(&self.known)?,
        })
    }

    /// The view that is known, if there is one.
    pub(crate) fn into_known(self) -> Option<SharedView> {
        let Shadow {
            rows: _,
            columns: _,
            known,
        } = self;
        known
    }
}

/// The view, if there is one, with one more owner.
fn shared_view(known: &Option<SharedView>) -> Result<Option<SharedView>, AllocError>
    ensures { IfOk result (λ view. view ≡ known.now) }
{
    match known {
        Some(view) => Ok(Some(view.shared()?)),
        None => Ok(None),
    }
}

fn is_same_cursor(a: Cursor, b: Cursor) -> bool
    ensures { IsTrue result ↔ (place_of a ≡ place_of b) }
{
    match (a, b) {
        (Cursor::Hidden, Cursor::Hidden) => true,
        (Cursor::At { line, column }, Cursor::At { line: l, column: c }) => {
            line == l && column == c
        }
        _ => false,
    }
}

fn is_same_modes(a: KeyModes, b: KeyModes) -> bool
    ensures { IsTrue result ↔ (a ≡ b) }
{
    a == b
}

/// The first line in which two pages look different, protection aside; the number of their lines if
/// there is none.
fn first_unlike(old: &View, new: &View) -> usize
    requires { KeepsSize old.now new.now }
    ensures inside { result ≤ length new.now.page }
    ensures above { AreAlikeAbove result old.now.page new.now.page }
    ensures unlike { result < length new.now.page → LooksLike old.now new.now → ⊥ }
{
    for line in 0..new.rows() {
        if let Some(_run) = next_unlike(old.row(line), new.row(line), 0) {
            return line;
        }
    }
    new.rows()
}

/// The line from which the page has to be drawn to get from one view to another; `None` if both
/// show the same.
pub fn first_change(old: &View, new: &View) -> Option<usize>
    requires { KeepsSize old.now new.now }
    ensures none { IfNone result (LooksLike old.now new.now) }
    ensures unlike { IfSome result (λ line. LooksLike old.now new.now → ⊥) }
    ensures from { IfSome result (λ line. AreAlikeUpTo line old.now.page new.now.page) }
    ensures grid { IsGrid new.now.page }
{
    let line = first_unlike(old, new);
    let is_same_page = line == new.rows();
    let is_same_cursor = is_same_cursor(old.cursor(), new.cursor());
    let is_same_modes = is_same_modes(old.modes(), new.modes());
    if is_same_page && is_same_cursor && is_same_modes {
        None
    } else {
        Some(line)
    }
}
