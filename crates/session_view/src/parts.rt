//! What the regions of a client's page show.

ghost use Rattle.std.specs.Prelude.{◌≡◌, IfOk, List, length, map};
ghost use Rattle.acl.specs.declared.user_id.UserId.{UserId};
ghost use Rattle.regions.specs.declared.layout.Shown.{Shown};
ghost use Rattle.session_model.specs.Tables.{Tables};
ghost use Rattle.session_model.specs.Granted.{part_shown};
ghost use Rattle.windows_model.specs.Matched.{Matched};
ghost use Rattle.view.specs.Granted.{part_of};
ghost use Rattle.session_view.specs.Parts.{IsPart, AreParts, ShowsPart};

use crate::viewing::contents;
use acl::{Bit, Object, UserId};
use cells::Cell;
use regions::Shown;
use session_state::State;
use std::alloc::{AllocError, Global};
use view::Pane;
use windows::Window;

/// What a region shows a user.
#[derive(Drop)]
pub(crate) enum Part<'a> {
    /// No window.
    Empty,
    /// The window with this number, which the user may not read.
    Hidden {
        number: u8,
    },
    /// A window that the user may read: how many lines it is scrolled back, and the lines of its page then.
    Readable {
        window: &'a Window,
        back: usize,
        lines: Vec<&'a [Cell]>,
    },
}

impl Part<'_> {
    /// The part as a pane of the view.
    fn pane(&self) -> Pane<'_>
        ensures { (t : Tables) (user : UserId) (shown : Shown) → ShowsPart t user shown self.now
            → part_of result ≡ part_shown t user shown }
    {
        match self {
            Part::Empty => Pane::Empty,
            Part::Hidden { number } => Pane::Hidden { number: *number },
            Part::Readable {
                window,
                back,
                lines,
            } => Pane::Readable(contents(window, *back, lines)),
        }
    }
}

/// What a region shows a user: its window, as far as the user may read it.
fn part_in(state: &State, user: UserId, shown: Shown) -> Result<Part<'_>, AllocError>
    ensures { IfOk result (IsPart state.now user shown) }
{
    let Some(serial) = shown.window else {
        return Ok(Part::Empty);
    };
    let Some(window) = state.windows.get(serial) else {
        return Ok(Part::Empty);
    };
    let object = Object::Window(serial);
    if state.acl.may(user, Bit::Read, object).is_err() {
        return Ok(Part::Hidden {
            number: window.number,
        });
    }
    let back = shown.back as usize;
    let lines = window.lines(state.alloc, back)?;
    Ok(Part::Readable {
        window,
        back,
        lines,
    })
}

/// What each of these regions shows a user.
pub(crate) fn parts<'a>(
    state: &'a State,
    user: UserId,
    shown: &[Shown],
) -> Result<Vec<Part<'a>>, AllocError>
    ensures shown { IfOk result (λ made. AreParts state.now user shown.now made.items) }
    ensures each { IfOk result (λ made. length made.items ≡ length shown.now) }
{
    let mut made = Vec::with_capacity(state.alloc, shown.len())?;
    for region in shown {
        made.push(part_in(state, user, *region)?)?;
    }
    Ok(made)
}

/// The parts as panes of the view.
pub(crate) fn panes<'p>(alloc: Global, parts: &'p [Part<'_>]) -> Result<Vec<Pane<'p>>, AllocError>
    ensures shown { IfOk result (λ made. (t : Tables) (user : UserId) (shown : List Shown)
        → Matched (ShowsPart t user) shown parts.now
        → map part_of made.items ≡ map (part_shown t user) shown) }
    ensures each { IfOk result (λ made. length made.items ≡ length parts.now) }
{
    let mut made = Vec::with_capacity(alloc, parts.len())?;
    for part in parts {
        made.push(part.pane())?;
    }
    Ok(made)
}
