//! Colours of cells (ECMA-48, 8.3.117).

use crate::judging::{Size, read};
use cells::{Attribute, Cell, Rendition};
use emulator::MovedPage;
use std::alloc::Global;
use std::str::Chars;

/// Bytes; the foregrounds and the backgrounds of the page's cells, line by line, each line ended by
/// `|`: a colour's number, or `.` for none.
type Row = (&'static [u8], &'static str, &'static str);

const SMALL: Size = (2, 5, 0);

static ROWS: [Row; 16] = [
    (
        b"\x1B[31;44ma\x1B[39mb\x1B[0mc",
        "1....|.....|",
        "44...|.....|",
    ),
    (b"\x1B[38;5;1ma", ".....|.....|", ".....|.....|"),
    (b"\x1B[42m\x1B[2J", ".....|.....|", ".....|.....|"),
    (b"\x1B[33m\x1B7\x1B[m\x1B8a", "3....|.....|", ".....|.....|"),
    (
        b"\x1B[30ma\x1B[32mb\x1B[34mc\x1B[35md\x1B[36me\x1B[37mf",
        "02456|7....|",
        ".....|.....|",
    ),
    (
        b"\x1B[40ma\x1B[41mb\x1B[43mc\x1B[45md\x1B[46me\x1B[47mf",
        ".....|.....|",
        "01356|7....|",
    ),
    (
        b"\x1B[31;42ma\x1B[49mb\x1B[29;48;50;90;107mc",
        "111..|.....|",
        "2....|.....|",
    ),
    (b"\x1B[32;41m\xE6\xBC\xA2x", "222..|.....|", "111..|.....|"),
    (
        b"\x1B[32;41m\xE6\xBC\xA2x\x1B[m\x1B[1;2Hy",
        "..2..|.....|",
        "..1..|.....|",
    ),
    (
        b"\x1B[34mab\x1B[H\x1B[41m\x1B[2@",
        "..44.|.....|",
        ".....|.....|",
    ),
    (
        b"\x1B[34mab\r\n\x1B[45mc\x1B[H\x1B[M",
        "4....|.....|",
        "5....|.....|",
    ),
    (
        b"\x1B[36mab\r\n\x1B[45mc\r\n",
        "6....|.....|",
        "5....|.....|",
    ),
    (b"\x1B[31;42m\x1B[!pa", ".....|.....|", ".....|.....|"),
    (b"\x1B[31;42m\x1Bca", ".....|.....|", ".....|.....|"),
    (
        b"\x1B[31;42m\x1BP$qm\x1B\\a\x1B]4;1;rgb:ff/00/00\x07b",
        "11...|.....|",
        "22...|.....|",
    ),
    (b"\x1B[31;42m\x1B#8", ".....|.....|", ".....|.....|"),
];

/// The sign of a colour: its number, or `.` for none.
fn sign(number: Option<u8>) -> char {
    match number {
        Some(number) => b'0'.saturating_add(number) as char,
        None => '.',
    }
}

/// Whether two texts continue with the foregrounds and the backgrounds of a line, each followed by `|`.
fn go_on_with_line(fore: &mut Chars<'_>, back: &mut Chars<'_>, line: &[Cell]) -> bool {
    for cell in line {
        if fore.next() != Some(sign(cell.fore())) || back.next() != Some(sign(cell.back())) {
            return false;
        }
    }
    fore.next() == Some('|') && back.next() == Some('|')
}

/// Whether the cells of a page have these colours.
fn has_colours(page: &MovedPage<'_>, fore: &str, back: &str) -> bool {
    let mut fore = fore.chars();
    let mut back = back.chars();
    for line in 0..page.rows() {
        if !go_on_with_line(&mut fore, &mut back, page.line(line)) {
            return false;
        }
    }
    fore.next().is_none() && back.next().is_none()
}

fn is_coloured(alloc: Global, row: &Row) -> bool {
    let (bytes, fore, back) = *row;
    let mut answers = Vec::new(alloc);
    match read(alloc, SMALL, &[bytes], &mut answers) {
        Some(emulator) => has_colours(&emulator.page(0), fore, back),
        None => false,
    }
}

fn first_wrong(alloc: Global) -> Option<usize> {
    ROWS.iter().position(|row| !is_coloured(alloc, row))
}

/// Tests that SGR reads the values 38, 5 and 1 one by one.
fn is_bold_and_blinking(alloc: Global) -> bool {
    let rendition = Rendition::PLAIN
        .with(Attribute::Bold(true))
        .with(Attribute::Blinking(true));
    let mut answers = Vec::new(alloc);
    match read(alloc, SMALL, &[b"\x1B[38;5;1ma"], &mut answers) {
        Some(emulator) => {
            emulator.page(0).line(0).first() == Some(&Cell::narrow('a', rendition, false))
        }
        None => false,
    }
}

#[test]
fn cells_have_colours(rt: HostRuntime) {
    assert_eq!(rt; first_wrong(rt.alloc()), None);
    assert!(rt; is_bold_and_blinking(rt.alloc()));
}
