//! A turn of 23 steps of all kinds, over two seats.

ghost use Rattle.std.specs.Prelude.{◌≤◌};

use acl::UserId;
use session::Event;

/// How many steps a turn has.
pub(crate) const STEPS: u32 = 23;

/// The users of a turn, and the serials of its window and of its two clients.
#[derive(Clone, Copy)]
pub(crate) struct StepTurn {
    owner: UserId,
    bob: UserId,
    window: u32,
    client: u32,
    other: u32,
}

fn told(user: UserId, line: &'static [u8]) -> Event<'static> {
    Event::Command {
        user,
        window: None,
        line,
    }
}

fn keys(client: u32, bytes: &'static [u8]) -> Event<'static> {
    Event::Keys { client, bytes }
}

fn output(window: u32, bytes: &'static [u8]) -> Event<'static> {
    Event::Output { window, bytes }
}

impl StepTurn {
    /// The turn of a number: its window has the number as its serial, and its clients have twice
    /// that and one more.
    pub(crate) fn new(number: u32, owner: UserId, bob: UserId) -> StepTurn
        requires { number ≤ 50 }
    {
        StepTurn {
            owner,
            bob,
            window: number,
            client: number * 2,
            other: number * 2 + 1,
        }
    }

    /// The event of a step.
    pub(crate) fn event(&self, step: u32) -> Event<'static> {
        if step < 9 {
            self.beginning(step)
        } else {
            self.rest(step)
        }
    }

    /// Steps 0 to 8: a window and both clients come, and are drawn.
    fn beginning(&self, step: u32) -> Event<'static> {
        match step {
            0 => told(self.owner, b"multiuser on"),
            1 => told(self.owner, b"acladd bob"),
            2 => Event::Open {
                user: self.owner,
                rows: 24,
                columns: 80,
                keep: 10,
                title: "sh",
            },
            3 => Event::Attach {
                user: self.owner,
                rows: 24,
                columns: 80,
            },
            4 => Event::Attach {
                user: self.bob,
                rows: 10,
                columns: 40,
            },
            5 => output(self.window, b"hi\r\n\x1b[6n"),
            6 => keys(self.client, b"a\x01n"),
            7 => Event::Draw {
                client: self.client,
            },
            _ => Event::Draw { client: self.other },
        }
    }

    /// Steps 9 to 22: both work, and then all leave.
    fn rest(&self, step: u32) -> Event<'static> {
        match step {
            9 => Event::Resize {
                client: self.other,
                rows: 12,
                columns: 50,
            },
            10 => keys(self.other, b"x\x01:version\r"),
            11 => told(self.owner, b"wall hi"),
            12 => told(self.owner, b"aclchg bob -w 0"),
            13 => keys(self.other, b"y"),
            14 | 18 => Event::Draw {
                client: self.client,
            },
            15 => Event::Draw { client: self.other },
            16 => told(self.owner, b"aclchg bob +w 0"),
            17 => output(0, b"there"),
            19 => keys(self.client, b"\x01:fit\r"),
            20 => Event::Closed {
                window: self.window,
            },
            21 => Event::Detach {
                client: self.client,
            },
            _ => Event::Detach { client: self.other },
        }
    }
}

/// The seat that submits a step of the turn of this number: the second attaches bob, and opens the
/// windows of odd serials.
pub(crate) fn seat_of(turn: u32, step: u32) -> usize {
    let is_second = match step {
        2 => turn % 2 == 1,
        3 => false,
        4 => true,
        _ => step % 3 == 0,
    };
    if is_second { 1 } else { 0 }
}
