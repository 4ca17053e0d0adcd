//! A table of windows: a refused window changes nothing. In a plain run no allocation is refused;
//! `tools/refusals` runs the test once for each of its allocations and refuses that one. So at most one
//! is refused in a run, and a second try never is.

use control_parser::plain_run;
use std::alloc::Global;
use windows::{WindowSize, Windows, is_window_size};

/// Serials, numbers and titles.
static WINDOWS: [(u32, u8, &str); 5] = [
    (0, 0, "zero"),
    (1, 1, "one"),
    (2, 2, "two"),
    (7, 3, "seven"),
    (8, 4, "eight"),
];

const SIZE: WindowSize = WindowSize {
    rows: 2,
    columns: 5,
    keep: 1,
};

/// Opens a small window, and returns its number.
fn open_small(windows: &mut Windows, alloc: Global, serial: u32, title: &str) -> Option<u8> {
    if is_window_size(SIZE.rows, SIZE.columns, SIZE.keep) {
        windows.open(alloc, serial, SIZE, title).ok()
    } else {
        None
    }
}

/// Opens a small window, by a second try if the first one is refused, and returns its number; none if
/// the refused try left a window.
fn opened(windows: &mut Windows, alloc: Global, serial: u32, title: &str) -> Option<u8> {
    let before = windows.len();
    match open_small(windows, alloc, serial, title) {
        Some(number) => Some(number),
        None if windows.len() == before => open_small(windows, alloc, serial, title),
        None => None,
    }
}

/// Whether windows get the lowest free numbers, even a number that was given before.
fn are_opened(alloc: Global) -> bool {
    let mut windows = Windows::new(alloc);
    for (serial, number, title) in &WINDOWS {
        if opened(&mut windows, alloc, *serial, title) != Some(*number) {
            return false;
        }
    }
    windows.close(1).is_ok()
        && opened(&mut windows, alloc, 9, "nine") == Some(1)
        && windows.len() == WINDOWS.len()
        && windows.by_name("nine").is_some()
        && windows.get(1).is_none()
}

#[test]
fn windows_are_opened_though_refused_once(rt: HostRuntime) {
    assert!(rt; are_opened(rt.alloc()));
}

/// The length of the longest list.
const LONGEST: usize = 100;

/// Bytes outside 20 to 7E.
static OUTSIDE: [u8; 7] = [0x00, 0x1F, 0x7F, 0x80, 0x9F, 0xC0, 0xFF];

/// The number of bytes 20 to 7E at the beginning of a list, counted one by one.
fn counted(bytes: &[u8]) -> usize {
    let mut count = 0usize;
    for byte in bytes {
        if *byte < 0x20 || 0x7E < *byte {
            return count;
        }
        count = count.saturating_add(1);
    }
    count
}

/// Whether each list of this length has the run that the loop counts: lists with a byte outside 20 to
/// 7E at each place, lists with a second such byte after it, and the list without one.
fn are_counted(length: usize) -> bool {
    let mut bytes = [b'~'; LONGEST];
    let length = length.min(LONGEST);
    for place in 0..length {
        for outside in &OUTSIDE {
            bytes[place] = *outside;
            let run = plain_run(&bytes[..length]);
            if run != place || run != counted(&bytes[..length]) {
                return false;
            }
        }
        bytes[place] = b' ';
    }
    plain_run(&bytes[..length]) == length && counted(&bytes[..length]) == length
}

fn first_wrong() -> Option<usize> {
    (0..=LONGEST).find(|length| !are_counted(*length))
}

#[test]
fn plain_runs_are_those_of_a_plain_loop(rt: HostRuntime) {
    assert_eq!(rt; first_wrong(), None);
}
