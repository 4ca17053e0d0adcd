//! A frame changes only the colours that differ, in few bytes.

use crate::drawing::{PageLines, put};
use cells::{Attribute, Cell, Colour, Rendition};
use redraw::Shadow;
use std::alloc::Global;
use std::str;

fn red() -> Rendition {
    Rendition::PLAIN.with(Attribute::Foreground(Colour::Red))
}

fn green() -> Rendition {
    Rendition::PLAIN.with(Attribute::Foreground(Colour::Green))
}

fn on_blue() -> Rendition {
    Rendition::PLAIN.with(Attribute::Background(Colour::Blue))
}

fn red_on_blue() -> Rendition {
    red().with(Attribute::Background(Colour::Blue))
}

fn bold() -> Rendition {
    Rendition::PLAIN.with(Attribute::Bold(true))
}

fn bold_red() -> Rendition {
    red().with(Attribute::Bold(true))
}

/// Two letters, the letters that replace them, and a part that the frame must have once. A frame must
/// not have an `x`.
#[derive(Drop)]
struct ColourRow {
    old: [Cell; 2],
    new: [Cell; 2],
    part: &'static str,
}

fn letter(character: char, rendition: Rendition) -> Cell {
    Cell::narrow(character, rendition, false)
}

/// A row in which `a` and `b` with these renditions replace two bold letters.
fn replacing(first: Rendition, second: Rendition, part: &'static str) -> ColourRow {
    ColourRow {
        old: [letter('x', bold()), letter('y', bold())],
        new: [letter('a', first), letter('b', second)],
        part,
    }
}

fn rows() -> [ColourRow; 11] {
    [
        replacing(Rendition::PLAIN, red(), "a\x1b[31mb"),
        replacing(red(), green(), "a\x1b[32mb"),
        replacing(red(), Rendition::PLAIN, "a\x1b[mb"),
        replacing(red_on_blue(), on_blue(), "a\x1b[39mb"),
        replacing(red_on_blue(), red(), "a\x1b[49mb"),
        replacing(red_on_blue(), Rendition::PLAIN, "a\x1b[mb"),
        replacing(red(), red_on_blue(), "a\x1b[44mb"),
        replacing(bold_red(), bold(), "a\x1b[39mb"),
        replacing(red(), bold_red(), "a\x1b[1mb"),
        replacing(red(), red(), "ab"),
        ColourRow {
            old: [letter('x', red()), letter('y', red())],
            new: [letter('x', red()), letter('y', red_on_blue())],
            part: "y",
        },
    ]
}

/// Whether a frame has this part once, and no `x`.
fn has_once(frame: &[u8], part: &str) -> bool {
    match str::from_utf8(frame) {
        Ok(text) => {
            text.contains(part) && text.find(part) == text.rfind(part) && !text.contains('x')
        }
        Err(_) => false,
    }
}

fn is_so(alloc: Global, row: &ColourRow) -> bool {
    let mut shadow = Shadow::unknown(24, 80);
    let mut out = Vec::new(alloc);
    let before = PageLines {
        lines: &[&row.old],
        cursor: (0, 1),
    };
    if put(alloc, &mut shadow, before, &mut out).is_err() {
        return false;
    }
    out.clear();
    let behind = PageLines {
        lines: &[&row.new],
        ..before
    };
    put(alloc, &mut shadow, behind, &mut out).is_ok() && has_once(&out, row.part)
}

fn first_wrong(alloc: Global) -> Option<usize> {
    for (number, row) in rows().iter().enumerate() {
        if !is_so(alloc, row) {
            return Some(number);
        }
    }
    None
}

#[test]
fn colours_take_few_bytes(rt: HostRuntime) {
    assert_eq!(rt; first_wrong(rt.alloc()), None);
}
