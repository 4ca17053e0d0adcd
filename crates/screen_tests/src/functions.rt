//! Bytes as control functions, and the spelling of those functions.

use charsets::{Coding, Decoder, Unit, Units};
use control_parser::{Parser, spell};
use std::alloc::Global;

/// Bytes, and the spellings of their functions, each ended by `|` (ECMA-48, 5.2 to 5.6; the Unicode core
/// specification, 3.9).
type Row = (&'static [u8], &'static [u8]);

static ROWS: [Row; 23] = [
    (b"\x1b[24;1000H", b"\x1b[24;1000H|"),
    (b"a\x1b[1;\n31mb", b"a|\n|\x1b[1;31m|b|"),
    (b"\x1b(0q\x1b(Bq", b"\x1b(0|q|\x1b(B|q|"),
    (b"\xe2\x82\x41", b"\xef\xbf\xbd|A|"),
    (b"\xe6\xbc\x18\xa2", b"\xef\xbf\xbd|"),
    (b"\xe6\xbc\xa2", b"\xe6\xbc\xa2|"),
    (
        b"e\xcc\x81\xcc\x82\xcc\x83",
        b"e|\xcc\x81|\xcc\x82|\xcc\x83|",
    ),
    (b"\x1b%@\x1b*<", b"\x1b%@|\x1b*<|"),
    (b"\x1b+0\x1bOqq", b"\x1b+0|\x1bO|q|q|"),
    (b"\xed\xa0\x80", b"\xef\xbf\xbd|\xef\xbf\xbd|\xef\xbf\xbd|"),
    (
        b"\xf4\x90\x80\x80",
        b"\xef\xbf\xbd|\xef\xbf\xbd|\xef\xbf\xbd|\xef\xbf\xbd|",
    ),
    (b"\xf0\x90\x80\x41", b"\xef\xbf\xbd|A|"),
    (
        b"\xc0\x80\xf4\x8f\xbf\xbf",
        b"\xef\xbf\xbd|\xef\xbf\xbd|\xf4\x8f\xbf\xbf|",
    ),
    (b"\x1b[99999999999999999999;2H", b"\x1b[9999;2H|"),
    (b"\x1b[1$$$p\x1b[?1?h\x1b[1:2Ha", b"a|"),
    (b"\x1bPx\x07y\x18a", b"a|"),
    (b"\x1b]xx\x07a\x1b]x\x1b\\b", b"a|\x1b\\|b|"),
    (b"\x1bkt\x1b\\\x1b_t\x1b[1K", b"\x1b\\|\x1b[1K|"),
    (
        b"\xc2\x9b?5h\x1b(0\x1bM\xc2\x84\xc2\x9dt\x07",
        b"\x1b[?5h|\x1b(0|\x1bM|\x1bD|",
    ),
    (b"\x1b[1\x1a2\x1a\x18\x7f\x1b$$$~3", b"\xef\xbf\xbd|2|3|"),
    (b"\x1b[1\xc3\xa92\x1b[\x1b[mx", b"\xc3\xa9|2|\x1b[m|x|"),
    (
        b"\x1b[;;1\"q\x1b[0!p\x1b[>c",
        b"\x1b[;;1\"q|\x1b[!p|\x1b[>c|",
    ),
    (
        b"\x1b[1;1;1;1;1;1;1;1;1;1;1;1;1;1;1;1;1;1;1H",
        b"\x1b[1;1;1;1;1;1;1;1;1;1;1;1;1;1;1;1H|",
    ),
];

/// Bytes of ECMA-35.
static EIGHT_BITS: Row = (b"\x9b3mA\xa9\x1b[\xff\x85", b"\x1b[3m|A|\xa9|\xff|\x1bE|");

/// Appends the spelling of the function that a unit completes, if it completes one.
fn is_taken(parser: &mut Parser, unit: Unit, out: &mut Vec<u8>) -> bool {
    match parser.push(unit) {
        Some(func) => spell(&func, out).is_ok() && out.push(b'|').is_ok(),
        None => true,
    }
}

/// Appends the spellings of the functions that a byte completes.
fn is_read(decoder: &mut Decoder, parser: &mut Parser, byte: u8, out: &mut Vec<u8>) -> bool {
    match decoder.push(byte) {
        Units::Nothing => true,
        Units::One(unit) => is_taken(parser, unit, out),
        Units::Two(first, second) => {
            is_taken(parser, first, out) && is_taken(parser, second, out)
        }
    }
}

/// Whether a row's bytes are exactly its functions, with no unfinished one left.
fn are_read(alloc: Global, coding: Coding, row: &Row) -> bool {
    let (bytes, want) = *row;
    let mut decoder = Decoder::new();
    decoder.set_coding(coding);
    let mut parser = Parser::new();
    let mut out = Vec::new(alloc);
    for byte in bytes {
        if !is_read(&mut decoder, &mut parser, *byte, &mut out) {
            return false;
        }
    }
    out.as_slice() == want && decoder.is_idle() && parser.is_idle()
}

fn first_wrong(alloc: Global) -> Option<usize> {
    ROWS.iter()
        .position(|row| !are_read(alloc, Coding::Utf8, row))
}

#[test]
fn functions_of_bytes(rt: HostRuntime) {
    assert_eq!(rt; first_wrong(rt.alloc()), None);
    assert!(rt; are_read(rt.alloc(), Coding::Ecma35, &EIGHT_BITS));
}
