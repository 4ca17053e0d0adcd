//! Random bytes, read at once and in three pieces.

ghost use Rattle.std.specs.Prelude.{◌≤◌};

use crate::judging::{Size, modes_of, read};
use emulator::{Emulator, MovedPage};
use rand::seq::IndexedRandom;
use rand::{RngExt, SeedableRng};
use rand_pcg::Pcg32;
use std::alloc::Global;

const SIZE: Size = (3, 6, 2);

const LISTS: u32 = 10_000;

/// The length of the longest list.
const LONGEST: usize = 31;

/// The bytes of the lists, for characters, sequences and strings, whole and broken.
const BYTES: [u8; 64] =
    *b"\x1B\x1B\x1B\x1B\x1B[[[[[\xE6\xBC\xA2\xF0\x9F\x98\x80\xCC\x81\xC2\x9B0123679;;?\" \
       %()*+<>@ABCDHJKLMPXabclmnqrh\x18\x1A\r";

/// The next list, of 1 to 31 bytes.
fn next_list(rng: &mut Pcg32, list: &mut [u8; LONGEST]) -> usize
    ensures { result ≤ 31 }
{
    let count = rng.random_range(1..=LONGEST);
    for byte in &mut list[..count] {
        *byte = *BYTES.choose(rng).unwrap();
    }
    count
}

/// Whether two pages have the same cells.
fn are_alike(page: &MovedPage<'_>, other: &MovedPage<'_>) -> bool {
    page.rows() == other.rows() && (0..page.rows()).all(|line| page.line(line) == other.line(line))
}

/// Whether two terminals show equal pages, kept lines too, and have equal modes.
fn are_same(one: &Emulator, other: &Emulator) -> bool {
    are_alike(&one.page(2), &other.page(2))
        && are_alike(&one.page(0), &other.page(0))
        && one.cursor() == other.cursor()
        && modes_of(one) == modes_of(other)
}

/// Whether three pieces of a list give the terminal and the answers that the whole list gives.
fn is_whole(alloc: Global, rng: &mut Pcg32, bytes: &[u8]) -> bool {
    let (front, last) = bytes.split_at(rng.random_range(0..=bytes.len()));
    let (first, middle) = front.split_at(rng.random_range(0..=front.len()));
    let mut answers = Vec::new(alloc);
    let mut others = Vec::new(alloc);
    let whole = read(alloc, SIZE, &[bytes], &mut answers);
    let pieces = read(alloc, SIZE, &[first, middle, last], &mut others);
    match (&whole, &pieces) {
        (Some(whole), Some(pieces)) => {
            are_same(whole, pieces) && answers.as_slice() == others.as_slice()
        }
        _ => false,
    }
}

/// The first list whose pieces give another result.
fn first_wrong(alloc: Global) -> Option<u32> {
    let mut rng = Pcg32::seed_from_u64(20);
    let mut list = [0; LONGEST];
    for number in 0..LISTS {
        let count = next_list(&mut rng, &mut list);
        if !is_whole(alloc, &mut rng, &list[..count]) {
            return Some(number);
        }
    }
    None
}

#[test]
fn made_up_bytes_in_two_cuts(rt: HostRuntime) {
    assert_eq!(rt; first_wrong(rt.alloc()), None);
}
