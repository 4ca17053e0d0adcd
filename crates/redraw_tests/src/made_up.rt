//! Random steps of a session, each drawn in two ways: for a client whose terminal is known, and for a
//! client with an equal view whose terminal is unknown, since it has just changed its size.

use acl::UserId;
use emulator::{Emulator, MovedPage};
use rand::seq::IndexedRandom;
use rand::{RngExt, SeedableRng};
use rand_pcg::Pcg32;
use session::{Effect, Event, Session};
use std::alloc::Global;

const STEPS: u32 = 1000;

/// Bytes that a window prints before a digit: text, wide characters, marks, erasures, shifts, renditions
/// and modes.
static PRINTED: [&[u8]; 38] = [
    b"hello, world",
    b"\xE6\xBC\xA2\xE5\xAD\x97",
    b"e\xCC\x81\xCC\x80x",
    b"\r\n",
    b"\x1B[H",
    b"\x1B[3;7H",
    b"\x1B[6;11H\xE6\xBC\xA2",
    b"\x1B[2;2Hm",
    b"\x1B[J",
    b"\x1B[1J",
    b"\x1B[2J",
    b"\x1B[K",
    b"\x1B[1K",
    b"\x1B[3X",
    b"\x1B[2@",
    b"\x1B[3P",
    b"\x1B[L",
    b"\x1B[2M",
    b"\x1BM",
    b"\x1B[1m",
    b"\x1B[4;5m",
    b"\x1B[7m",
    b"\x1B[m",
    b"\x1B[31m",
    b"\x1B[44m",
    b"\x1B[39m",
    b"\x1B[1;33;45m",
    b"\x1B[32;49m",
    b"\x1B[22;27;37m",
    b"\x1B[?5h",
    b"\x1B[?5l",
    b"\x1B[?25l",
    b"\x1B[?25h",
    b"\x1B[?1h\x1B=",
    b"\x1B[?1l\x1B>",
    b"\x1B[1\"qkept\x1B[0\"q",
    b"\x1B#8",
    b"\xE6\xBC\xA2\x08\x08\x08|",
];

/// Keys of both clients, for other regions and windows, kept lines, lists and the prompt.
static KEYS: [&[u8]; 13] = [
    b"\x01\t",
    b"\x01\t",
    b"\x010",
    b"\x011",
    b"\x01S",
    b"\x01|",
    b"\x01X",
    b"\x01:scrollview 2\r",
    b"\x01:scrollview 0\r",
    b"\x01w",
    b"\x01:wal",
    b"\x1B",
    b"x",
];

/// Commands of the owner, with a window or none.
static COMMANDS: [(Option<u8>, &[u8]); 5] = [
    (None, b"aclchg bob -r 1"),
    (None, b"aclchg bob +r 1"),
    (None, b"wall hi"),
    (Some(0), b"title \xE6\xBC\xA2!"),
    (Some(1), b"title right"),
];

/// Bytes that the unknown terminal reads before each draw: a page of wide characters with strange modes,
/// and then an unfinished string.
const STRANGE: &[u8] =
    b"x\xE6\xBC\xA2y\x1b[2;3r\x1b[?1;5;6h\x1b[4;20h\x1b[1;4;7m\x1b7\x1b[?25l\x1b=\x1b)0\x0e\x1b%@\
      \x1bPtext";

/// The owner's session with two clients of bob, and their terminals.
#[derive(Drop)]
struct DrawStage {
    alloc: Global,
    own: UserId,
    session: Session,
    known: Emulator,
    unknown: Emulator,
    /// How many draws the known terminal has read.
    draws: u32,
}

/// Whether a terminal reads these bytes without an answer.
fn is_read(alloc: Global, terminal: &mut Emulator, bytes: &[u8]) -> bool {
    let mut reports = Vec::new(alloc);
    terminal.feed_all(bytes, &mut reports).is_ok() && reports.is_empty()
}

/// Whether two pages have the same cells.
fn have_same_cells(page: &MovedPage<'_>, other: &MovedPage<'_>) -> bool {
    if page.rows() != other.rows() {
        return false;
    }
    for line in 0..page.rows() {
        if page.line(line) != other.line(line) {
            return false;
        }
    }
    true
}

/// Whether two terminals show equal pages, cursors and modes.
fn are_alike(one: &Emulator, other: &Emulator) -> bool {
    let modes = one.modes();
    let others = other.modes();
    have_same_cells(&one.page(0), &other.page(0))
        && modes.shows_cursor == others.shows_cursor
        && (!modes.shows_cursor || one.cursor() == other.cursor())
        && modes.is_inverted == others.is_inverted
        && modes.has_application_arrows == others.has_application_arrows
        && modes.has_application_keypad == others.has_application_keypad
}

impl DrawStage {
    fn new(alloc: Global) -> Option<DrawStage> {
        let own = UserId::of(b"own")?;
        Some(DrawStage {
            alloc,
            own,
            session: Session::new(alloc, own).ok()?,
            known: Emulator::new(alloc, 10, 24, 0).ok()?,
            unknown: Emulator::new(alloc, 10, 24, 0).ok()?,
            draws: 0,
        })
    }

    /// Takes an event, and hands the bytes that it delivers to the terminals. Returns whether it is done.
    fn takes(&mut self, event: Event<'_>) -> bool {
        let mut effects = Vec::new(self.alloc);
        let mut replies = Vec::new(self.alloc);
        let ran = self.session.run(&[event], &mut effects, &mut replies);
        for effect in &effects {
            if !self.is_delivered(effect) {
                return false;
            }
        }
        !ran.stopped && matches!(replies.first(), Some(Ok(_)))
    }

    /// Hands a delivered frame to the client's terminal. Returns whether the terminal reads it without an
    /// answer, and true for other effects.
    fn is_delivered(&mut self, effect: &Effect) -> bool {
        match effect {
            Effect::Deliver(0, bytes) => {
                self.draws = self.draws.saturating_add(1);
                is_read(self.alloc, &mut self.known, bytes.as_slice())
            }
            Effect::Deliver(_, bytes) => {
                is_read(self.alloc, &mut self.unknown, STRANGE)
                    && is_read(self.alloc, &mut self.unknown, bytes.as_slice())
            }
            _ => true,
        }
    }

    fn commands(&mut self, window: Option<u8>, line: &[u8]) -> bool {
        self.takes(Event::Command {
            user: self.own,
            window,
            line,
        })
    }

    fn opens(&mut self, rows: u16, columns: u16, title: &str) -> bool {
        self.takes(Event::Open {
            user: self.own,
            rows,
            columns,
            keep: 5,
            title,
        })
    }

    /// Types these keys in both clients.
    fn types(&mut self, bytes: &[u8]) -> bool {
        self.takes(Event::Keys { client: 0, bytes }) && self.takes(Event::Keys { client: 1, bytes })
    }

    /// Prints some bytes in a window, and then a digit.
    fn prints(&mut self, window: u32, bytes: &[u8], digit: u8) -> bool {
        self.takes(Event::Output { window, bytes })
            && self.takes(Event::Output {
                window,
                bytes: &[digit],
            })
    }

    /// Opens two windows, and attaches two clients of bob, each with three regions. Later on bob may
    /// read the second window only at times.
    fn begins(&mut self) -> bool {
        let Some(bob) = UserId::of(b"bob") else {
            return false;
        };
        let attach = Event::Attach {
            user: bob,
            rows: 10,
            columns: 24,
        };
        self.commands(None, b"multiuser on")
            && self.commands(None, b"acladd bob")
            && self.opens(6, 12, "left")
            && self.opens(8, 15, "right")
            && self.takes(attach)
            && self.takes(attach)
            && self.types(b"\x01|\x01S\x01\t\x011")
    }

    /// Takes one random step.
    fn steps(&mut self, rng: &mut Pcg32) -> bool {
        match rng.random_range(0..16) {
            0 | 1 => match KEYS.choose(rng) {
                Some(keys) => self.types(keys),
                None => false,
            },
            2 => match COMMANDS.choose(rng) {
                Some((window, line)) => self.commands(*window, line),
                None => false,
            },
            kind => match PRINTED.choose(rng) {
                Some(printed) => self.prints(kind % 2, printed, rng.random_range(b'0'..=b'9')),
                None => false,
            },
        }
    }

    /// Draws for both clients. Returns whether their terminals then show equal pages.
    fn draws_alike(&mut self) -> bool {
        let resize = Event::Resize {
            client: 1,
            rows: 10,
            columns: 24,
        };
        self.takes(Event::Draw { client: 0 })
            && self.takes(resize)
            && self.takes(Event::Draw { client: 1 })
            && are_alike(&self.known, &self.unknown)
    }
}

/// The first step after which the two terminals differ. If no step does, but at most a quarter of the
/// steps made a draw, it is the number of all steps.
fn first_wrong(alloc: Global) -> Option<u32> {
    let Some(mut stage) = DrawStage::new(alloc) else {
        return Some(0);
    };
    let mut rng = Pcg32::seed_from_u64(1);
    if !stage.begins() {
        return Some(0);
    }
    for step in 0..STEPS {
        if !stage.steps(&mut rng) || !stage.draws_alike() {
            return Some(step);
        }
    }
    (stage.draws <= STEPS / 4).then_some(STEPS)
}

#[test]
fn made_up_steps_are_drawn_alike_both_ways(rt: HostRuntime) {
    assert_eq!(rt; first_wrong(rt.alloc()), None);
}
