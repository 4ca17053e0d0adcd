//! Complete functions at the beginning of a list of bytes, which are performed at once.

ghost use Rattle.std.specs.Prelude.{◌≡◌, ◌≤◌, ◌<◌, ℕ, List, [], ◌∷◌, IsTrue, length, take};
ghost use Rattle.charsets.specs.declared.decoder.Coding.TheVariants.{Utf8};
ghost use Rattle.control_parser.specs.Spelling.{IsGiven};
ghost use Rattle.control_parser.specs.declared.parser.Func.TheVariants.{Esc};
ghost use Rattle.emulator.specs.Standing.{HasTaken, TakesPiece, TakesWhole, IsBetween};

use crate::emulator::Emulator;
use crate::sequence::{PARAMS, first_sequence};
use charsets::Coding;
use control_parser::plain_run;

const CAN: u8 = 0x18;

const SUB: u8 = 0x1A;

const ESC: u8 = 0x1B;

const DEL: u8 = 0x7F;

impl Emulator {
    /// Reads the complete functions at the beginning of some bytes, as long as they aren't
    /// answered, and returns their number of bytes. Returns 0 if a character, sequence or string is
    /// incomplete, or if the bytes begin with no such function.
    pub(crate) fn read_pieces(&mut self, bytes: &[u8]) -> usize
        ensures taken { (said : List ℕ) → HasTaken self.old bytes.now result said self.new said }
        ensures few { result ≤ length bytes.now }
    {
        if self.decoder.is_idle() && self.parser.is_idle() {
            self.read_idle(bytes)
        } else {
            0
        }
    }

    /// Reads the complete functions at the beginning of some bytes, as long as they aren't
    /// answered, and returns their number of bytes. Nothing is incomplete. In ECMA-35 it reads bytes
    /// 20 to 7E alone.
    fn read_idle(&mut self, bytes: &[u8]) -> usize
        requires { IsBetween self.old.decoding.coding self.old }
        ensures { TakesWhole self.old bytes.now result self.new }
    {
        if self.decoder.coding() != Coding::Utf8 {
            let run = plain_run(bytes);
            return self.screen.print_text(&bytes[..run]);
        }
        let mut taken = 0;
        while taken < bytes.len() {
            let Some(count) = self.read_piece(&bytes[taken..]) else {
                return taken;
            };
            taken += count;
        }
        taken
    }

    /// Reads one complete function at the beginning of some bytes, or some characters, and returns
    /// its number of bytes. The function is a control, an escape sequence without intermediates, a
    /// designation to G0, or a control sequence that isn't answered. A single character 20 to 7E
    /// before a control or a sequence has a path of its own, since most are such. CR and LF are read
    /// with the characters 20 to 7E of the line after them. None if the bytes begin with anything
    /// else.
    #[inline(always)]
    fn read_piece(&mut self, bytes: &[u8]) -> Option<usize>
        requires some { 0 < length bytes.now }
        requires idle { IsBetween Utf8 self.old }
        ensures { TakesPiece self.old bytes.now result self.new }
    {
        let first = bytes[0];
        if first == ESC {
            return self.read_escape(bytes);
        }
        if first >= b' ' {
            if first < DEL && bytes.len() > 1 && bytes[1] < b' ' {
                self.screen.print_one(first);
                return Some(1);
            }
            let count = self.screen.print_text(bytes);
            if count == 0 {
                return None;
            }
            return Some(count);
        }
        if first == b'\r' && bytes.len() > 1 && bytes[1] == b'\n' {
            return Some(2 + self.screen.print_line(&bytes[2..]));
        }
        if first == CAN || first == SUB {
            return None;
        }
        self.screen.control(first);
        Some(1)
    }

    /// Reads a sequence that begins with ESC and returns its number of bytes. None if it can't be
    /// read at once.
    fn read_escape(&mut self, bytes: &[u8]) -> Option<usize>
        requires begins { take 1 bytes.now ≡ 0x1B ∷ [] }
        requires idle { IsBetween Utf8 self.old }
        ensures { TakesPiece self.old bytes.now result self.new }
    {
        // With more than 5 bytes, the first parameter needn't be tested for room.
        if bytes.len() < 6 || bytes[1] != b'[' {
            return self.read_other_escape(bytes);
        }
        let mut params = [0; PARAMS];
        let Some(found) = first_sequence(&bytes[2..], &mut params) else {
            return None;
        };
        let params = &params[..found.count];
        if !self.screen.sequence(found.mark, params, found.last) {
            return None;
        }
        Some(2 + found.size)
    }

    /// Reads an escape sequence without intermediates, or a designation to G0, and returns its number of bytes. None
    /// if the bytes begin with no whole one.
    #[inline(never)]
    fn read_other_escape(&mut self, bytes: &[u8]) -> Option<usize>
        requires begins { take 1 bytes.now ≡ 0x1B ∷ [] }
        requires idle { IsBetween Utf8 self.old }
        ensures { TakesPiece self.old bytes.now result self.new }
    {
        if bytes.len() > 2 && bytes[1] == b'(' && b'0' <= bytes[2] && bytes[2] < DEL {
            self.screen.designate(bytes[2]);
            return Some(3);
        }
        if bytes.len() < 2 || !ends_escape(bytes[1]) {
            return None;
        }
        self.screen.escape(bytes[1]);
        Some(2)
    }
}

/// Whether ESC and this byte are a complete function: the byte is a final byte, and begins no control sequence and no
/// string.
fn ends_escape(byte: u8) -> bool
    ensures { IsTrue result → IsGiven (Esc [] byte) }
{
    let begins = matches!(byte, b'[' | b']' | b'P' | b'X' | b'^' | b'_' | b'k');
    b'0' <= byte && byte < DEL && !begins
}
