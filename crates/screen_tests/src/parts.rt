//! A screen without its parser, and a ring of kept lines by itself.

use crate::judging::shows;
use cells::{Cell, GridFault, Line, Rendition};
use control_parser::Func;
use emulator::{Emulator, Stopped};
use scrollback::Ring;
use std::alloc::Global;
use vt_screen::Screen;

/// LF (ECMA-48, 8.3.74).
const LINE_FEED: Func = Func::Control(b'\n');

fn letter_at(screen: &Screen, line: usize, column: usize) -> Option<char> {
    if line < screen.rows() && column < screen.columns() {
        Some(screen.cell(line, column).glyph())
    } else {
        None
    }
}

fn has_line(screen: &Screen, line: usize, text: &[u8]) -> bool {
    text.iter().enumerate().all(|(column, letter)| letter_at(screen, line, column)
        == Some(*letter as char))
}

/// Whether a page of 2 lines by 5 columns shows seven letters, and the cursor after them.
fn shows_letters(screen: &Screen) -> bool {
    has_line(screen, 0, b"abcde") && has_line(screen, 1, b"fg   ") && screen.cursor() == (1, 2)
}

/// Whether letters that are printed at once stand where letters stand that are printed one by one.
fn is_printed(alloc: Global) -> Option<bool> {
    let mut at_once = Screen::new(alloc, 2, 5, 0).ok()?;
    let mut in_turn = Screen::new(alloc, 2, 5, 0).ok()?;
    at_once.print_run(b"abcdefg");
    for code in b"abcdefg" {
        let _none = in_turn.apply(&Func::Print(*code as char));
    }
    Some(shows_letters(&at_once) && shows_letters(&in_turn))
}

#[test]
fn a_run_is_printed_as_its_characters_in_turn(rt: HostRuntime) {
    assert_eq!(rt; is_printed(rt.alloc()), Some(true));
}

/// Whether GL is ASCII at first, while DEC special graphics are designated to G0, and after ASCII is
/// designated again.
fn prints_ascii(alloc: Global) -> Option<[bool; 3]> {
    let mut screen = Screen::new(alloc, 2, 5, 0).ok()?;
    let at_first = screen.prints_ascii();
    screen.designate(b'0');
    let meanwhile = screen.prints_ascii();
    screen.designate(b'B');
    Some([at_first, meanwhile, screen.prints_ascii()])
}

#[test]
fn ascii_is_printed_unless_another_set_is_designated(rt: HostRuntime) {
    assert_eq!(rt; prints_ascii(rt.alloc()), Some([true, false, true]));
}

/// The stored lines of a page of 3 lines.
fn places(screen: &Screen) -> Option<[usize; 3]> {
    if screen.rows() != 3 {
        return None;
    }
    Some([screen.place(0), screen.place(1), screen.place(2)])
}

/// Whether a line feed in the last line turns the stored lines, and those before it don't.
fn are_turned(alloc: Global) -> Option<bool> {
    let mut screen = Screen::new(alloc, 3, 5, 0).ok()?;
    let first = places(&screen)?;
    let _none = screen.apply(&LINE_FEED);
    let _none = screen.apply(&LINE_FEED);
    let [upper, middle, lower] = places(&screen)?;
    let _none = screen.apply(&LINE_FEED);
    let turned = places(&screen)?;
    let is_same = first == [upper, middle, lower];
    Some(is_same && turned[0] == middle && turned[1] == lower && turned[2] != middle)
}

#[test]
fn lines_that_stay_keep_their_stored_lines(rt: HostRuntime) {
    assert_eq!(rt; are_turned(rt.alloc()), Some(true));
}

/// Takes in a line of this letter. Returns the width of the line that is given back.
fn take_in(alloc: Global, ring: &mut Ring, letter: char) -> Option<usize> {
    let mut line = Line::blank(alloc, ring.columns()).ok()?;
    line.fill(Cell::narrow(letter, Rendition::PLAIN, false));
    Some(ring.take_in(line).width())
}

/// The letter of a kept line, the newest first.
fn kept(ring: &Ring, number: usize) -> Option<char> {
    let line = ring.line(number)?;
    Some(line.first()?.character)
}

/// What a ring of 2 lines by 3 columns keeps after it took in three.
fn keeps_the_last(alloc: Global) -> Option<bool> {
    let mut ring = Ring::new(alloc, 2, 3).ok()?;
    for letter in ['a', 'b', 'c'] {
        if take_in(alloc, &mut ring, letter)? != 3 {
            return None;
        }
    }
    let is_kept = kept(&ring, 0) == Some('c') && kept(&ring, 1) == Some('b');
    Some(is_kept && kept(&ring, 2).is_none() && ring.len() == 2)
}

#[test]
fn a_ring_keeps_the_last_lines(rt: HostRuntime) {
    assert_eq!(rt; keeps_the_last(rt.alloc()), Some(true));
}

/// Makes an emulator. At most one allocation is refused in a run, so a second try never is.
fn made_at_last(alloc: Global) -> Option<Emulator> {
    match Emulator::new(alloc, 2, 5, 1) {
        Ok(emulator) => Some(emulator),
        Err(_) => Emulator::new(alloc, 2, 5, 1).ok(),
    }
}

/// Reads all bytes, and continues at the place where a refusal stopped it.
fn reads_at_last(emulator: &mut Emulator, bytes: &[u8], answers: &mut Vec<u8>) -> bool {
    match emulator.feed_all(bytes, answers) {
        Ok(()) => true,
        Err(Stopped { read }) => emulator.feed_all(bytes.split_at(read).1, answers).is_ok(),
    }
}

/// Changes the size. Returns whether it changes at last, and whether a refusal leaves everything as it
/// was.
fn is_resized_at_last(emulator: &mut Emulator) -> bool {
    match emulator.resized(3, 4) {
        Ok(()) => true,
        Err(GridFault::BadSize) => false,
        Err(GridFault::NoMemory) => {
            shows(&emulator.page(1), "a____|b____|")
                && emulator.cursor() == (1, 4)
                && emulator.resized(3, 4).is_ok()
        }
    }
}

fn is_all_left(alloc: Global) -> bool {
    let Some(mut emulator) = made_at_last(alloc) else {
        return false;
    };
    let mut answers = Vec::new(alloc);
    let text = b"a\r\nb\r\nabc\xE6\xBC\xA2\x1B[6n";
    reads_at_last(&mut emulator, text, &mut answers)
        && answers.as_slice() == b"\x1B[2;5R".as_slice()
        && is_resized_at_last(&mut emulator)
        && shows(&emulator.page(0), "b___|abc_|____|")
        && shows(&emulator.page(1), "a___|b___|abc_|")
        && emulator.cursor() == (1, 3)
}

#[test]
fn all_is_left_though_refused_once(rt: HostRuntime) {
    assert!(rt; is_all_left(rt.alloc()));
}
