//! Control functions written as bytes.

ghost use Rattle.std.specs.Prelude.{◌≡◌, ◌<◌, ◌≤◌, ◌+◌, ◌*◌, ℕ, List, [], ◌∷◌, ◌++◌, length, take, OnOk, OnErr};
ghost use Rattle.control_parser.specs.Spelling.{parameter, numerals, spelling, coding_of, IsGiven, ReadsAs};

use crate::parser::Func;
use std::alloc::AllocError as NoMemory;
use std::marker::Model;

// Room for a spelling: the longest has 85 bytes.
const ROOM: usize = 96;

#[derive(Drop)]
struct Room {
    bytes: [u8; ROOM],
    count: usize,
}

impl Model for Room {
    ghost Value = { List ℕ };

    ghost view = { λ r. take r.count r.bytes };

    ghost invariant = { λ r. r.count ≤ 96 };
}

impl Room {
    fn new() -> Room
        ensures { result ≡ [] }
    {
        Room {
            bytes: [0; ROOM],
            count: 0,
        }
    }

    fn as_slice(&self) -> &[u8]
        ensures { result.now ≡ self.now }
    {
        &self.bytes[..self.count]
    }

    fn push(&mut self, byte: u8)
        requires { length self.old < 96 }
        ensures { self.new ≡ self.old ++ byte ∷ [] }
    {
        self.bytes[self.count] = byte;
        self.count += 1;
    }
}

fn put_slice(room: &mut Room, bytes: &[u8])
    requires { length room.old + length bytes.now ≤ 96 }
    ensures { room.new ≡ room.old ++ bytes.now }
{
    for b in bytes {
        room.push(*b);
    }
}

#[tactic(auto, unfolding(crate::specs::Spelling::decimal))]
fn put_parameter(room: &mut Room, n: u16)
    requires { length room.old + 4 ≤ 96 }
    ensures number { room.new ≡ room.old ++ parameter n }
    ensures short { length room.new ≤ length room.old + 4 }
{
    if n >= 1000 {
        room.push(b'0' + (n / 1000 % 10) as u8);
    }
    if n >= 100 {
        room.push(b'0' + (n / 100 % 10) as u8);
    }
    if n >= 10 {
        room.push(b'0' + (n / 10 % 10) as u8);
    }
    if n >= 1 {
        room.push(b'0' + (n % 10) as u8);
    }
}

fn put_parameters(room: &mut Room, params: &[u16])
    requires { length room.old + 5 * length params.now ≤ 96 }
    ensures numbers { room.new ≡ room.old ++ numerals params.now }
    ensures short { length room.new ≤ length room.old + 5 * length params.now }
{
    if let [first, others @ ..] = params {
        put_parameter(room, *first);
        for n in others {
            room.push(b';');
            put_parameter(room, *n);
        }
    }
}

fn spelled(func: &Func) -> Room
    ensures { result ≡ spelling func.now }
{
    let mut room = Room::new();
    match func {
        Func::Print(c) => {
            let mut bytes = [0; 4];
            put_slice(&mut room, c.encode_utf8(&mut bytes).as_bytes());
        }
        Func::High(b) => room.push(*b),
        Func::Control(c) => room.push(*c),
        Func::Esc {
            intermediates,
            last,
        } => {
            room.push(0x1B);
            put_slice(&mut room, intermediates.as_slice());
            room.push(*last);
        }
        Func::Csi {
            mark,
            params,
            intermediates,
            last,
        } => {
            room.push(0x1B);
            room.push(b'[');
            if let Some(m) = *mark {
                room.push(m);
            }
            put_parameters(&mut room, params.as_slice());
            put_slice(&mut room, intermediates.as_slice());
            room.push(*last);
        }
    }
    room
}

#[tactic(auto, using(crate::proofs::Spelled::spelled_reads))]
/// Appends the 7-bit spelling of a function (ECMA-48, 5.3 and 5.4). A parameter 0 is spelled as an
/// empty one, so that SGR 0 is `CSI m`. `NoMemory` if `out` can't grow.
pub fn spell(func: &Func, out: &mut Vec<u8>) -> Result<(), NoMemory>
    ensures ok { OnOk result (out.new.items ≡ out.old.items ++ spelling func.now) }
    ensures err { OnErr result (out.new.items ≡ out.old.items) }
    // A function that units can give is read back from its spelling, and no other one is.
    ensures reads { IsGiven func.now
        → ReadsAs (coding_of func.now) (spelling func.now) (func.now ∷ []) }
{
    let room = spelled(func);
    out.extend_from_slice(room.as_slice())
}
