//! The calls that make frames give equal bytes, and a refused one changes nothing. In a plain run no
//! allocation is refused; `tools/refusals` runs the test once for each of its allocations and refuses
//! that one. So at most one is refused in a run, and a second try never is.

ghost use Rattle.std.specs.Prelude.{◌≡◌};

use crate::drawing::{PageLines, put, view_of};
use cells::{Attribute, Cell, Rendition};
use redraw::{Shadow, frame_keeping, frame_sparing};
use std::alloc::{AllocError, Global};

/// The calls that make a frame.
#[derive(Clone, Copy)]
enum Call {
    Appending,
    Keeping,
    /// Composes the page over a spare one.
    Sparing,
}

const LETTER: Cell = Cell {
    character: 'h',
    ..Cell::BLANK
};

fn bold_letter() -> Cell {
    Cell {
        character: 'i',
        rendition: Rendition::PLAIN.with(Attribute::Bold(true)),
        ..Cell::BLANK
    }
}

/// The lines of the second page.
fn second() -> ([Cell; 3], [Cell; 1]) {
    ([Cell::BLANK, LETTER, bold_letter()], [bold_letter()])
}

fn page_of<'a>(lines: &'a [&'a [Cell]]) -> PageLines<'a> {
    PageLines {
        lines,
        cursor: (0, 1),
    }
}

fn keep(
    alloc: Global,
    shadow: &mut Shadow,
    page: PageLines<'_>,
) -> Result<Option<Vec<u8>>, AllocError>
    requires rows { shadow.old.rows ≡ 24 }
    requires columns { shadow.old.columns ≡ 80 }
    ensures rows { shadow.new.rows ≡ 24 }
    ensures columns { shadow.new.columns ≡ 80 }
{
    let view = view_of(alloc, None, page)?;
    frame_keeping(alloc, shadow, view)
}

fn spare(
    alloc: Global,
    shadow: &mut Shadow,
    page: PageLines<'_>,
) -> Result<Option<Vec<u8>>, AllocError>
    requires rows { shadow.old.rows ≡ 24 }
    requires columns { shadow.old.columns ≡ 80 }
    ensures rows { shadow.new.rows ≡ 24 }
    ensures columns { shadow.new.columns ≡ 80 }
{
    let (upper, lower) = second();
    let mut other = Some(view_of(alloc, None, page_of(&[&upper, &lower]))?);
    let view = view_of(alloc, other.take(), page)?;
    frame_sparing(alloc, shadow, view, &mut other)
}

/// Appends a frame made by this call.
fn draw(
    alloc: Global,
    call: Call,
    shadow: &mut Shadow,
    page: PageLines<'_>,
    out: &mut Vec<u8>,
) -> Result<(), AllocError>
    requires rows { shadow.old.rows ≡ 24 }
    requires columns { shadow.old.columns ≡ 80 }
    ensures rows { shadow.new.rows ≡ 24 }
    ensures columns { shadow.new.columns ≡ 80 }
{
    let drawn = match call {
        Call::Appending => return put(alloc, shadow, page, out),
        Call::Keeping => keep(alloc, shadow, page)?,
        Call::Sparing => spare(alloc, shadow, page)?,
    };
    match drawn {
        Some(bytes) => out.extend_from_slice(&bytes),
        None => Ok(()),
    }
}

/// Appends a frame. Tries again if memory is refused.
fn is_drawn(
    alloc: Global,
    call: Call,
    shadow: &mut Shadow,
    page: PageLines<'_>,
    out: &mut Vec<u8>,
) -> bool
    requires rows { shadow.old.rows ≡ 24 }
    requires columns { shadow.old.columns ≡ 80 }
    ensures rows { shadow.new.rows ≡ 24 }
    ensures columns { shadow.new.columns ≡ 80 }
{
    draw(alloc, call, shadow, page, out).is_ok() || draw(alloc, call, shadow, page, out).is_ok()
}

/// Appends a first frame, from an unknown page, and a second frame. The list has room for both.
fn has_drawn(alloc: Global, call: Call, out: &mut Vec<u8>) -> bool {
    let mut shadow = Shadow::unknown(24, 80);
    let first = [Cell::BLANK, LETTER];
    let (upper, lower) = second();
    (out.reserve(1000).is_ok() || out.reserve(1000).is_ok())
        && is_drawn(alloc, call, &mut shadow, page_of(&[&first]), out)
        && out.starts_with(b"\x18\x1bc\x1b%G\x1b[?7l")
        && is_drawn(alloc, call, &mut shadow, page_of(&[&upper, &lower]), out)
}

fn are_drawn_so(alloc: Global, call: Call, wanted: &[u8]) -> bool {
    let mut out = Vec::new(alloc);
    has_drawn(alloc, call, &mut out) && out.as_slice() == wanted
}

fn are_alike(alloc: Global) -> bool {
    let mut appended = Vec::new(alloc);
    has_drawn(alloc, Call::Appending, &mut appended)
        && are_drawn_so(alloc, Call::Keeping, &appended)
        && are_drawn_so(alloc, Call::Sparing, &appended)
}

#[test]
fn calls_give_the_same_bytes_though_refused_once(rt: HostRuntime) {
    assert!(rt; are_alike(rt.alloc()));
}
