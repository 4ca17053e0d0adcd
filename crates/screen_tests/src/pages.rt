//! Pages after some bytes, and after changes of size.

use crate::judging::{Row, Size, is_so_at_each_cut, read, shows};
use cells::{Cell, GridFault, glyph_width};
use emulator::Emulator;
use std::alloc::Global;
use std::mem::size_of;

const SMALL: Size = (2, 5, 0);

/// Bytes that a small page has read; its lines, each ended by `|`, with `_` for a blank;
/// the cursor. The modes are those of a new screen, and there is no answer.
type ShownSmall = (&'static [u8], &'static str, (usize, usize));

/// Of another page its size, and the number of kept lines by which it is moved back, too.
type Shown = (Size, usize, &'static [u8], &'static str, (usize, usize));

static SMALL_ROWS: [ShownSmall; 26] = [
    // wraps after the last column
    (b"abcdef", "abcde|f____|", (1, 1)),
    // a function ends the pending wrap
    (b"abcde\x08X", "abcXe|_____|", (0, 4)),
    // DECSC ends the pending wrap
    (b"abcde\x1B7f", "abcdf|_____|", (0, 4)),
    // half a wide character is overwritten
    (b"\xE6\xBC\xA2x\ra", "a_x__|_____|", (0, 1)),
    // letters wrap after the last column
    (
        b"\xC3\xA9\xC3\xA9\xC3\xA9\xC3\xA9\xC3\xA8\xC3\xA9",
        "ééééè|é____|",
        (1, 1),
    ),
    // a letter overwrites half a wide character, whose right half goes
    (b"\xE6\xBC\xA2\xE6\xBC\xA2\r\xC3\xA9", "é_漢_|_____|", (0, 1)),
    // a wide character overwrites half of another
    (b"a\xE6\xBC\xA2\r\xE6\xBC\xA2", "漢___|_____|", (0, 2)),
    // wide characters go to the next line whole
    (b"\xE6\xBC\xA2\xE6\xBC\xA2\xE6\xBC\xA2", "漢漢_|漢___|", (1, 2)),
    // a mark between a letter and wide characters
    (
        b"\xC3\xA9\xCC\x81\xE6\xBC\xA2\xE6\xBC\xA2",
        "é\u{301}漢漢|_____|",
        (0, 4),
    ),
    // a broken character after letters
    (b"\xC3\xA9\xC3\xA9\xC3A", "éé\u{FFFD}A_|_____|", (0, 4)),
    // DCH cuts a wide character
    (b"a\xE6\xBC\xA2b\x1B[1;3H\x1B[P", "a_b__|_____|", (0, 2)),
    // DECSED leaves protected cells
    (b"\x1B[1\"qab\x1B[0\"qc\x1B[?2J", "ab___|_____|", (0, 3)),
    // ED erases all
    (b"abc\x1B[2J", "_____|_____|", (0, 3)),
    // special graphics, and a broken character
    (
        b"\x1B(0q\x1B(Bq\xE2\x82A",
        "\u{2500}q\u{FFFD}A_|_____|",
        (0, 4),
    ),
    // a third mark is dropped
    (
        b"e\xCC\x81\xCC\x82\xCC\x83",
        "e\u{301}\u{302}____|_____|",
        (0, 1),
    ),
    // a mark after a move is dropped
    (b"e\x08a\r\xCC\x81", "a____|_____|", (0, 0)),
    // CAN ends a character
    (b"\xE6\xBC\x18\xA2", "\u{FFFD}____|_____|", (0, 1)),
    // the supplemental set in ECMA-35
    (b"\x1B%@\x1B*<\xA9", "\u{A9}____|_____|", (0, 1)),
    // a single shift
    (b"\x1B+0\x1BOqq", "\u{2500}q___|_____|", (0, 2)),
    // margins of one line change nothing
    (b"ab\x1B[2;2r", "ab___|_____|", (0, 2)),
    // a large parameter goes to the last line
    (b"\x1B[99999999999999999999;2H", "_____|_____|", (1, 1)),
    // ill-formed sequences are ignored
    (b"\x1B[1$$$p\x1B[?1?h\x1B[1:2Ha", "a____|_____|", (0, 1)),
    // CAN ends a string
    (b"\x1BPx\x07y\x18a", "a____|_____|", (0, 1)),
    // a surrogate is three broken bytes
    (b"\xED\xA0\x80", "\u{FFFD}\u{FFFD}\u{FFFD}__|_____|", (0, 3)),
    // a code above 10FFFF is four broken bytes
    (
        b"\xF4\x90\x80\x80",
        "\u{FFFD}\u{FFFD}\u{FFFD}\u{FFFD}_|_____|",
        (0, 4),
    ),
    // three bytes of four are one
    (b"\xF0\x90\x80A", "\u{FFFD}A___|_____|", (0, 2)),
];

static ROWS: [Shown; 15] = [
    // starts blank
    ((3, 3, 0), 0, b"", "___|___|___|", (0, 0)),
    // a wide character goes to the next line whole
    ((2, 3, 0), 0, b"ab\xE6\xBC\xA2", "ab_|漢_|", (1, 2)),
    // DCH joins no halves of two characters
    (
        (2, 6, 0),
        0,
        b"a\xE6\xBC\xA2\xE5\xAD\x97\x1B[1;3H\x1B[2P",
        "a_____|______|",
        (0, 2),
    ),
    // a page above its kept line
    ((2, 5, 1), 0, b"a\r\nb\r\nc\r\nd", "c____|d____|", (1, 1)),
    // moved back by a kept line
    ((2, 5, 1), 1, b"a\r\nb\r\nc\r\nd", "b____|c____|", (1, 1)),
    // moved back by all kept lines
    ((2, 5, 1), 9, b"a\r\nb\r\nc\r\nd", "b____|c____|", (1, 1)),
    // moved back above its first line
    (
        (2, 5, 5),
        3,
        b"a\r\nb\r\nc\r\nd\r\ne",
        "a____|b____|",
        (1, 1),
    ),
    // margins that begin at the first line keep lines
    (
        (3, 5, 5),
        1,
        b"\x1B[1;2ra\r\nb\r\nc",
        "a____|b____|c____|",
        (1, 1),
    ),
    // DL keeps no line
    (
        (3, 5, 5),
        3,
        b"a\r\nb\x1B[H\x1B[M",
        "b____|_____|_____|",
        (0, 0),
    ),
    // IL outside the margins moves nothing
    (
        (4, 5, 0),
        0,
        b"\x1B[2;3ra\x1B[L",
        "a____|_____|_____|_____|",
        (0, 1),
    ),
    // there is a tab stop in every eighth column
    (
        (2, 20, 0),
        0,
        b"\ta\tb",
        "________a_______b___|____________________|",
        (0, 17),
    ),
    // tab stops (ECMA-48, 8.3.60, 8.3.62 and 8.3.154)
    (
        (2, 20, 0),
        0,
        b"\ta",
        "________a___________|____________________|",
        (0, 9),
    ),
    (
        (2, 20, 0),
        0,
        b"\x1B[1;4H\x1BH\r\ta",
        "___a________________|____________________|",
        (0, 4),
    ),
    (
        (2, 20, 0),
        0,
        b"\x1B[1;9H\x1B[g\r\ta",
        "________________a___|____________________|",
        (0, 17),
    ),
    (
        (2, 20, 0),
        0,
        b"\x1B[3g\ta",
        "___________________a|____________________|",
        (0, 19),
    ),
];

fn first_wrong_small(alloc: Global) -> Option<usize> {
    SMALL_ROWS.iter().position(|(bytes, page, cursor)| {
        let row = Row {
            size: SMALL,
            bytes,
            page,
            cursor: *cursor,
            ..Row::UNREAD
        };
        !is_so_at_each_cut(alloc, &row)
    })
}

fn first_wrong(alloc: Global) -> Option<usize> {
    ROWS.iter().position(|(size, back, bytes, page, cursor)| {
        let row = Row {
            size: *size,
            bytes,
            back: *back,
            page,
            cursor: *cursor,
            ..Row::UNREAD
        };
        !is_so_at_each_cut(alloc, &row)
    })
}

/// Whether an emulator reads these bytes 10,000 times.
fn is_read_often(emulator: &mut Emulator, bytes: &[u8], out: &mut Vec<u8>) -> bool {
    for _ in 0..10_000u32 {
        if emulator.feed_all(bytes, out).is_err() {
            return false;
        }
    }
    true
}

/// Whether a control sequence of 20,000 bytes acts, and a string of a million bytes leaves the page
/// unchanged until the string ends.
fn are_long_ones_read(alloc: Global) -> bool {
    let mut out = Vec::new(alloc);
    let Some(mut emulator) = read(alloc, SMALL, &[b"ab\x1B["], &mut out) else {
        return false;
    };
    is_read_often(&mut emulator, b"1;", &mut out)
        && emulator.feed_all(b"Hc\x1B]", &mut out).is_ok()
        && is_read_often(&mut emulator, &[b'x'; 100], &mut out)
        && shows(&emulator.page(0), "cb___|_____|")
        && emulator.feed_all(b"\x07d", &mut out).is_ok()
        && shows(&emulator.page(0), "cd___|_____|")
        && out.is_empty()
}

#[test]
fn pages_show_what_was_read_however_cut(rt: HostRuntime) {
    assert_eq!(rt; first_wrong_small(rt.alloc()), None);
    assert_eq!(rt; first_wrong(rt.alloc()), None);
    assert!(rt; are_long_ones_read(rt.alloc()));
}

/// Characters and their widths (UAX #11: East_Asian_Width of U+00A1 is A, of U+6F22 W, of U+FF48 F;
/// U+0301 is a nonspacing mark).
static WIDTHS: [(char, u8); 11] = [
    ('a', 1),
    (' ', 1),
    ('\u{A1}', 1),
    ('\u{6F22}', 2),
    ('\u{FF48}', 2),
    ('\u{301}', 0),
    ('\u{17D8}', 1),
    ('\u{FFFD}', 1),
    ('\n', 0),
    ('\u{7F}', 0),
    ('\u{9B}', 0),
];

fn have_widths() -> bool {
    WIDTHS
        .iter()
        .all(|(character, width)| glyph_width(*character) == *width)
}

static TEXTS: [(GridFault, &str, u8); 2] = [
    (GridFault::NoMemory, "out of memory", 1),
    (GridFault::BadSize, "bad size", 2),
];

/// Whether faults have their texts and numbers.
fn are_shown(alloc: Global) -> bool {
    for (fault, text, number) in &TEXTS {
        match fault.to_string(alloc) {
            Ok(shown) if shown.as_str() == *text && *fault as u8 == *number => {}
            _ => return false,
        }
    }
    true
}

#[test]
fn cells_are_small(rt: HostRuntime) {
    assert!(rt; have_widths() && size_of::<Cell>() <= 24 && are_shown(rt.alloc()));
}
