//! Every row of the table of screens: bytes, and the page, cursor, modes and answers after them.

use crate::judging::{NEW, Row, Size, is_so_at_each_cut, read};
use std::alloc::Global;

/// Bytes; the lines of the page, each ended by `|`, with `_` for a blank; the cursor's line and column
/// from 0. The modes are those of a new screen, and there is no answer.
type Shows = (&'static [u8], &'static str, (usize, usize));

/// Bytes; the lines of the page; the cursor; the letters of the modes that are set
/// (`judging::has_modes`); the answers.
type Sets = (
    &'static [u8],
    &'static str,
    (usize, usize),
    &'static [u8],
    &'static [u8],
);

/// 3 lines of 5 columns.
const SMALL: Size = (3, 5, 0);

/// A small blank page.
const BLANK: &str = "_____|_____|_____|";

static ROWS: [Shows; 66] = [
    // Sets and shifts (ECMA-35; VT220 Programmer Reference Manual, chapter 2).
    (b"\x1B)0\x0Eq\x0Fq", "─q___|_____|_____|", (0, 2)),
    (b"\x1B*0\x1Bnq", "─____|_____|_____|", (0, 1)),
    (b"\x1B+0\x1Boq", "─____|_____|_____|", (0, 1)),
    (b"\x1B%@\x1B)0\x1B~\xF1", "─____|_____|_____|", (0, 1)),
    (b"\x1B%@\x1B*0\x1B~\x1B}\xF1", "─____|_____|_____|", (0, 1)),
    (b"\x1B%@\x1B+0\x1B|\xF1", "─____|_____|_____|", (0, 1)),
    (b"\x1B*0\x1BNqq", "─q___|_____|_____|", (0, 2)),
    (b"\x1B+0\x1BOqq", "─q___|_____|_____|", (0, 2)),
    (b"\x1B(A#", "£____|_____|_____|", (0, 1)),
    (b"\x1B(<)", "©____|_____|_____|", (0, 1)),
    (b"\x1B(0q\x1B(Bq", "─q___|_____|_____|", (0, 2)),
    (b"\x1B%@\xA9", ")____|_____|_____|", (0, 1)),
    (b"\x1B%@\x1B%G\xC3\xA9", "é____|_____|_____|", (0, 1)),
    // Controls, and functions that go to another place (ECMA-48, 8.3; VT220 Programmer Reference
    // Manual, chapter 4).
    (b"\x08a", "a____|_____|_____|", (0, 1)),
    (b"ab\rc", "cb___|_____|_____|", (0, 1)),
    (b"a\nb", "a____|_b___|_____|", (1, 2)),
    (b"a\x0Bb\x0Cc", "a____|_b___|__c__|", (2, 3)),
    (b"abcde\x00\x05\x07f", "abcde|f____|_____|", (1, 1)),
    (b"a\x1BDb", "a____|_b___|_____|", (1, 2)),
    (b"a\xC2\x84b", "a____|_b___|_____|", (1, 2)),
    (b"a\x1B[3;1Hb\x1BDc", "_____|b____|_c___|", (2, 2)),
    (b"a\x1BEb", "a____|b____|_____|", (1, 1)),
    (b"a\xC2\x85b", "a____|b____|_____|", (1, 1)),
    (b"a\x1BMb", "_b___|a____|_____|", (0, 2)),
    (b"\x1B[3;1H\x1BMa", "_____|a____|_____|", (1, 1)),
    (b"ab\x1B7\x1B[3;3H\x1B8c", "abc__|_____|_____|", (0, 3)),
    (b"ab\x1B8c", "cb___|_____|_____|", (0, 1)),
    (b"abcde\x1B7\x1B[H\x1B8f", "abcde|f____|_____|", (1, 1)),
    (b"\x1B7\x1B[2;3r\x1B[?6h\x1B8", BLANK, (0, 0)),
    (b"\x1B[2;3r\x1B[3;1H\x1B[9Aa", "_____|a____|_____|", (1, 1)),
    (b"\x1B[2;3r\x1B[9Aa", "a____|_____|_____|", (0, 1)),
    (b"\x1B[1;2r\x1B[9Ba", "_____|a____|_____|", (1, 1)),
    (b"\x1B[1;2r\x1B[3;1H\x1B[9Ba", "_____|_____|a____|", (2, 1)),
    (b"\x1B[2Ca", "__a__|_____|_____|", (0, 3)),
    (b"\x1B[99Ca", "____a|_____|_____|", (0, 4)),
    (b"abc\x1B[2Dd", "adc__|_____|_____|", (0, 2)),
    (b"abc\x1B[99Dd", "dbc__|_____|_____|", (0, 1)),
    (b"\x1B[2;3Ha", "_____|__a__|_____|", (1, 3)),
    (b"\xC2\x9B2;3Ha", "_____|__a__|_____|", (1, 3)),
    (b"\x1B[2;3fa", "_____|__a__|_____|", (1, 3)),
    (b"\x1B[;4Ha", "___a_|_____|_____|", (0, 4)),
    (b"ab\x1B[2;3r", "ab___|_____|_____|", (0, 0)),
    (b"\x1B[1;2ra\nb\nc", "_b___|__c__|_____|", (1, 3)),
    (b"abcde\x1B[2;2rf", "abcde|f____|_____|", (1, 1)),
    // Functions that erase, insert and delete (ECMA-48, 8.3; VT220 Programmer Reference Manual,
    // chapter 4).
    (b"\x1B#8", "EEEEE|EEEEE|EEEEE|", (0, 0)),
    (b"abc\r\ndef\x1B[1;2H\x1B[J", "a____|_____|_____|", (0, 1)),
    (b"abc\r\ndef\x1B[2;2H\x1B[1J", "_____|__f__|_____|", (1, 1)),
    (b"abc\r\ndef\x1B[2J", BLANK, (1, 3)),
    (b"abcde\x1B[9Jf", "abcde|f____|_____|", (1, 1)),
    (b"abcde\x1B[1;3H\x1B[K", "ab___|_____|_____|", (0, 2)),
    (b"abcde\x1B[1;3H\x1B[1K", "___de|_____|_____|", (0, 2)),
    (b"abcde\x1B[2K", BLANK, (0, 4)),
    (b"abcde\x1B[1;2H\x1B[2X", "a__de|_____|_____|", (0, 1)),
    (b"\x1B[1\"qa\x1B[\"qb\x1B[?2K", "a____|_____|_____|", (0, 2)),
    (
        b"\x1B[1\"qa\x1B[2\"qb\x1B[?1J",
        "a____|_____|_____|",
        (0, 2),
    ),
    (b"abcde\x1B[1;2H\x1B[2@", "a__bc|_____|_____|", (0, 1)),
    (
        b"\xE6\xBC\xA2x\x1B[1;2H\x1B[@",
        "___x_|_____|_____|",
        (0, 1),
    ),
    (b"abcde\x1B[1;2H\x1B[2P", "ade__|_____|_____|", (0, 1)),
    (
        b"\xE6\xBC\xA2\xE5\xAD\x97x\x1B[1;2H\x1B[2P",
        "__x__|_____|_____|",
        (0, 1),
    ),
    (b"a\r\nb\x1B[1;3H\x1B[L", "_____|a____|b____|", (0, 0)),
    (b"a\r\nb\x1B[1;3H\x1B[M", "b____|_____|_____|", (0, 0)),
    (b"\x1B[1m \x1B[22m ", " ____|_____|_____|", (0, 2)),
    (b"\x1B[4m \x1B[24m ", " ____|_____|_____|", (0, 2)),
    (b"\x1B[5m \x1B[25m ", " ____|_____|_____|", (0, 2)),
    (b"\x1B[7m \x1B[27m ", " ____|_____|_____|", (0, 2)),
    (
        b"\x1B[1;4;5;7m \x1B[m \x1B[3m ",
        " ____|_____|_____|",
        (0, 3),
    ),
];

/// Modes, places under them, and resets (ECMA-48, 7.2 and 8.3; VT220 Programmer Reference Manual,
/// chapter 4).
static MODES: [Sets; 29] = [
    (
        b"\xE6\xBC\xA2x\r\x1B[4ha",
        "a漢x_|_____|_____|",
        (0, 1),
        b"iwc",
        b"",
    ),
    (b"ab\r\x1B[4hc", "cab__|_____|_____|", (0, 1), b"iwc", b""),
    (
        b"ab\r\x1B[4h\x1B[4lc",
        "cb___|_____|_____|",
        (0, 1),
        b"wc",
        b"",
    ),
    (b"\x1B[20ha\nb", "a____|b____|_____|", (1, 1), b"lwc", b""),
    (b"\x1B[20h\x1B[20l", BLANK, (0, 0), b"wc", b""),
    (b"\x1B[?1h", BLANK, (0, 0), b"awc", b""),
    (b"\x1B[?1;5h\x1B[?1l", BLANK, (0, 0), b"vwc", b""),
    (b"\x1B[2;3r\x1B[?6h", BLANK, (1, 0), b"owc", b""),
    (
        b"\x1B[2;3r\x1B[?6h\x1B[1;2Ha",
        "_____|_a___|_____|",
        (1, 2),
        b"owc",
        b"",
    ),
    (
        b"\x1B[1;2r\x1B[?6h\x1B[9;1Ha",
        "_____|a____|_____|",
        (1, 1),
        b"owc",
        b"",
    ),
    (b"\x1B[2;3r\x1B[?6h\x1B[?6l", BLANK, (0, 0), b"wc", b""),
    (b"\x1B[?7labcdef", "abcdf|_____|_____|", (0, 4), b"c", b""),
    (b"\x1B[?25l", BLANK, (0, 0), b"w", b""),
    (b"ab\x1B[?3h", BLANK, (0, 0), b"wc", b""),
    (b"ab\x1B[?3l", BLANK, (0, 0), b"wc", b""),
    (b"\x1B=", BLANK, (0, 0), b"wck", b""),
    (b"\x1B=\x1B>", BLANK, (0, 0), b"wc", b""),
    (b"\x1B[4hab\x1Bc", BLANK, (0, 0), b"wc", b""),
    (
        b"\x1B[4;20h\x1B[?1;5h\x1B=ab\x1B[!p",
        "ab___|_____|_____|",
        (0, 2),
        b"lvwc",
        b"",
    ),
    // Reports (ECMA-48, 8.3; VT220 Programmer Reference Manual, chapter 4).
    (b"\x1B[5n", BLANK, (0, 0), NEW, b"\x1B[0n"),
    (
        b"ab\x1B[6n",
        "ab___|_____|_____|",
        (0, 2),
        NEW,
        b"\x1B[1;3R",
    ),
    (b"\x1B[?15n", BLANK, (0, 0), NEW, b"\x1B[?13n"),
    (b"\x1B[c", BLANK, (0, 0), NEW, b"\x1B[?62;6c"),
    (b"\x1B[0c\x1B[1c", BLANK, (0, 0), NEW, b"\x1B[?62;6c"),
    (b"\x1B[>c", BLANK, (0, 0), NEW, b"\x1B[>1;10;0c"),
    (b"\x1B[>0c", BLANK, (0, 0), NEW, b"\x1B[>1;10;0c"),
    (b"\x1B G\x1B[5n", BLANK, (0, 0), NEW, b"\xC2\x9B0n"),
    (b"\x1B G\x1B F\x1B[5n", BLANK, (0, 0), NEW, b"\x1B[0n"),
    (b"\x1B%@\x1B G\x1B[5n", BLANK, (0, 0), NEW, b"\x9B0n"),
];

/// Reports of a page of 24 lines by 80 columns: a place counted from the margins, the last place, 8-bit
/// controls in UTF-8, the place after three tabs, and the place after a tab without a stop.
static LARGE: [(&[u8], &[u8]); 5] = [
    (b"\x1B[2;4r\x1B[?6h\x1B[6n", b"\x1B[1;1R"),
    (b"\x1B[999;999H\x1B[6n", b"\x1B[24;80R"),
    (b"\x1B G\x1B[c", b"\xC2\x9B?62;6c"),
    (b"\t\t\t\x1B[6n", b"\x1B[1;25R"),
    (b"\t\t\t\x1B[3g\r\t\x1B[6n", b"\x1B[1;80R"),
];

fn first_wrong(alloc: Global) -> Option<usize> {
    ROWS.iter().position(|(bytes, page, cursor)| {
        let row = Row {
            bytes,
            page,
            cursor: *cursor,
            ..Row::UNREAD
        };
        !is_so_at_each_cut(alloc, &row)
    })
}

fn first_wrong_mode(alloc: Global) -> Option<usize> {
    MODES.iter().position(|(bytes, page, cursor, modes, answer)| {
        let row = Row {
            bytes,
            page,
            cursor: *cursor,
            modes,
            answer,
            ..Row::UNREAD
        };
        !is_so_at_each_cut(alloc, &row)
    })
}

fn are_answered(alloc: Global) -> bool {
    for (bytes, answer) in &LARGE {
        let mut out = Vec::new(alloc);
        if read(alloc, (24, 80, 0), &[bytes], &mut out).is_none() || out.as_slice() != *answer {
            return false;
        }
    }
    true
}

#[test]
fn rows_of_the_screen_table(rt: HostRuntime) {
    assert_eq!(rt; first_wrong(rt.alloc()), None);
    assert_eq!(rt; first_wrong_mode(rt.alloc()), None);
    assert!(rt; are_answered(rt.alloc()));
}
