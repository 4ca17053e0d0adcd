//! Random terminals, told as bytes.

use emulator::Emulator;
use rand::seq::IndexedRandom;
use rand::{RngExt, SeedableRng};
use rand_pcg::Pcg32;
use rebuild::{RebuildFault, rebuild};
use std::alloc::Global;

const STATES: u32 = 4_000;

/// Functions and characters: those that stand more than once are read more often.
static PIECES: [&[u8]; 64] = [
    b"ab",
    b"q",
    b" ",
    b"xyz~",
    b"\xE6\xBC\xA2",
    b"\xE6\xBC\xA2",
    b"\xC3\xA9",
    b"\xCC\x81",
    b"\xCC\x81\xCC\x82",
    b"\xE2\x94\x80",
    b"abcdefg",
    b"\n",
    b"\r\n",
    b"\n\n\n\n",
    b"\t",
    b"\x08",
    b"\x1B[2;7H",
    b"\x1B[3;9H",
    b"\x1B[9;9H",
    b"\x1B[H",
    b"\x1B[1;8Hab",
    b"\x1B7",
    b"\x1B7",
    b"\x1B8",
    b"\x1B8",
    b"\x1B[m",
    b"\x1B[1;31m",
    b"\x1B[4;7;42m",
    b"\x1B[5;36;47m",
    b"\x1B[2;3r",
    b"\x1B[r",
    b"\x1B[?6h",
    b"\x1B[?6l",
    b"\x1B[?7l",
    b"\x1B[?7h",
    b"\x1B[4h",
    b"\x1B[4l",
    b"\x1B[20h",
    b"\x1B[?1;5h",
    b"\x1B[?25l\x1B=",
    b"\x1B[1\"q",
    b"\x1B[\"q",
    b"\x1B(0",
    b"\x1B(A",
    b"\x1B)<",
    b"\x1B*0",
    b"\x1B(B",
    b"\x0E",
    b"\x0F",
    b"\x1Bn",
    b"\x1B~",
    b"\x1BN",
    b"\x1BO",
    b"\x1B%@",
    b"\x1B%G",
    b"\x1B[3g",
    b"\x1BH",
    b"\x1B[?K",
    b"\x1B[2@",
    b"\x1B[2P",
    b"\x1B[L\x1BM",
    b"\x1B G",
    b"\x1B[?J",
    b"\x1B[1\x1A",
];

/// A terminal that has read random pieces, and perhaps got another size now and then.
fn made_up(alloc: Global, rng: &mut Pcg32, answers: &mut Vec<u8>) -> Option<Emulator> {
    let (rows, columns) = (rng.random_range(2..5), rng.random_range(7..10));
    let mut emulator = Emulator::new(alloc, rows, columns, rng.random_range(0..8)).ok()?;
    for _ in 0..rng.random_range(0..64) {
        emulator.feed_all(PIECES.choose(rng)?, answers).ok()?;
        if rng.random_ratio(1, 64) {
            let (rows, columns) = (rng.random_range(2..5), rng.random_range(6..10));
            emulator.resized(rows, columns).ok()?;
        }
    }
    Some(emulator)
}

/// Whether a fault is the one of a saved place whose wrap is pending outside of the last column.
fn is_excepted(emulator: &Emulator, fault: RebuildFault) -> bool {
    match emulator.screen().saved() {
        Some(saved) => fault == RebuildFault::NoWay
            && saved.is_wrap_pending
            && saved.column.saturating_add(1) < emulator.columns(),
        None => false,
    }
}

/// The first random terminal that is neither told nor excepted. If there is none, but one in a hundred
/// or more are excepted, it is the number of all.
fn first_wrong(alloc: Global) -> Option<u32> {
    let (mut rng, mut answers) = (Pcg32::seed_from_u64(20), Vec::new(alloc));
    let mut excepted = 0u32;
    for number in 0..STATES {
        let Some(emulator) = made_up(alloc, &mut rng, &mut answers) else {
            return Some(number);
        };
        match rebuild(alloc, &emulator) {
            Ok(_) => (),
            Err(fault) if is_excepted(&emulator, fault) => excepted = excepted.saturating_add(1),
            Err(_) => return Some(number),
        }
    }
    (STATES / 100 <= excepted).then_some(STATES)
}

#[test]
fn random_terminals_are_told_save_few(rt: HostRuntime) {
    assert_eq!(rt; first_wrong(rt.alloc()), None);
}
