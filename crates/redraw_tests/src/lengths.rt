//! Bounds on the bytes of frames, at 24 lines by 80 columns.

ghost use Rattle.std.specs.Prelude.{◌≡◌};

use crate::drawing::{PageLines, put};
use PageText::{Blank, Letters, Scattered};
use cells::{Cell, Rendition};
use redraw::Shadow;
use std::alloc::{AllocError, Global};

/// The text in the first 23 lines.
#[derive(Clone, Copy)]
enum PageText {
    Blank,
    /// 79 letters a line, from this one of the alphabet on.
    Letters(u8),
    /// A letter in every tenth column of a line.
    Scattered,
}

/// A page and its cursor.
#[derive(Clone, Copy)]
struct TextPage {
    text: PageText,
    /// A place with another character.
    changed: Option<(usize, usize)>,
    cursor: (usize, usize),
}

/// A frame to a page, from another page or from an unknown one, and its most bytes.
struct Draw {
    from: Option<TextPage>,
    to: TextPage,
    most: usize,
}

const LINES: usize = 23;

const BLANKS: TextPage = TextPage {
    text: Blank,
    changed: None,
    cursor: (0, 0),
};

const FULL: TextPage = TextPage {
    text: Letters(0),
    changed: None,
    cursor: (22, 79),
};

/// The page with another letter, and the cursor after it.
const TYPED: TextPage = TextPage {
    changed: Some((5, 40)),
    cursor: (5, 41),
    ..FULL
};

const BEFORE_TYPING: TextPage = TextPage {
    cursor: (5, 40),
    ..FULL
};

static DRAWS: [Draw; 7] = [
    // a full page from unknown
    Draw {
        from: None,
        to: FULL,
        most: 1960,
    },
    // a letter away from the cursor
    Draw {
        from: Some(BEFORE_TYPING),
        to: TextPage {
            changed: Some((8, 7)),
            cursor: (8, 8),
            ..FULL
        },
        most: 10,
    },
    // a letter at the cursor
    Draw {
        from: Some(BEFORE_TYPING),
        to: TYPED,
        most: 4,
    },
    // the cursor alone
    Draw {
        from: Some(FULL),
        to: BEFORE_TYPING,
        most: 8,
    },
    // scattered letters
    Draw {
        from: Some(BLANKS),
        to: TextPage {
            text: Scattered,
            ..BLANKS
        },
        most: 920,
    },
    // other text
    Draw {
        from: Some(FULL),
        to: TextPage {
            text: Letters(7),
            ..FULL
        },
        most: 2000,
    },
    // a page erased
    Draw {
        from: Some(FULL),
        to: BLANKS,
        most: 220,
    },
];

/// The letter this many steps after `a`; `a` follows `z`.
fn letter(steps: usize) -> char {
    (b'a' + (steps % 26) as u8) as char
}

fn character(sheet: &TextPage, line: usize, column: usize) -> char {
    if sheet.changed == Some((line, column)) {
        return '#';
    }
    match sheet.text {
        Letters(first) if column < 79 => letter(line % 26 + column % 26 + first as usize),
        Scattered if column % 10 == 0 => letter(line % 26),
        _ => ' ',
    }
}

/// The cells of all lines, line by line.
fn cells_of(alloc: Global, sheet: &TextPage) -> Result<Vec<Cell>, AllocError> {
    let mut cells = Vec::new(alloc);
    for place in 0..LINES * 80 {
        let character = character(sheet, place / 80, place % 80);
        cells.push(Cell::narrow(character, Rendition::PLAIN, false))?;
    }
    Ok(cells)
}

fn lines_of(alloc: Global, cells: &[Cell]) -> Result<Vec<&[Cell]>, AllocError> {
    let mut lines = Vec::new(alloc);
    for line in cells.chunks_exact(80) {
        lines.push(line)?;
    }
    Ok(lines)
}

/// Appends the frame of a page.
fn put_sheet(
    alloc: Global,
    shadow: &mut Shadow,
    sheet: &TextPage,
    out: &mut Vec<u8>,
) -> Result<(), AllocError>
    requires rows { shadow.old.rows ≡ 24 }
    requires columns { shadow.old.columns ≡ 80 }
    ensures rows { shadow.new.rows ≡ 24 }
    ensures columns { shadow.new.columns ≡ 80 }
{
    let cells = cells_of(alloc, sheet)?;
    let lines = lines_of(alloc, &cells)?;
    let page = PageLines {
        lines: &lines,
        cursor: sheet.cursor,
    };
    put(alloc, shadow, page, out)
}

/// The number of bytes of a frame.
fn count(alloc: Global, draw: &Draw) -> Result<usize, AllocError> {
    let mut shadow = Shadow::unknown(24, 80);
    let mut out = Vec::new(alloc);
    if let Some(from) = &draw.from {
        put_sheet(alloc, &mut shadow, from, &mut out)?;
        out.clear();
    }
    put_sheet(alloc, &mut shadow, &draw.to, &mut out)?;
    Ok(out.len())
}

fn is_short(alloc: Global, draw: &Draw) -> bool {
    match count(alloc, draw) {
        Ok(count) => 0 < count && count <= draw.most,
        Err(_) => false,
    }
}

fn first_wrong(alloc: Global) -> Option<usize> {
    for (number, draw) in DRAWS.iter().enumerate() {
        if !is_short(alloc, draw) {
            return Some(number);
        }
    }
    None
}

#[test]
fn frames_are_short(rt: HostRuntime) {
    assert_eq!(rt; first_wrong(rt.alloc()), None);
}
