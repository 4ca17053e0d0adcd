//! The line of a prompt, in a fixed array.

ghost use Rattle.std.specs.Prelude.{◌≡◌, ◌≤◌, ℕ, List, [], ◌∷◌, ◌++◌, length, take, nat_lt, if◌then◌else◌};
ghost use Rattle.keys.specs.Grammar.{continues, shortened, line_after_key};

use std::marker::Model;

/// The greatest length of a line, in bytes.
const ROOM: usize = 1024;

/// The line of a prompt. Contracts see it as its bytes.
#[derive(Drop)]
pub struct Line {
    bytes: [u8; ROOM],
    count: usize,
}

impl Model for Line {
    ghost Value = { List ℕ };

    ghost view = { λ l. take l.count l.bytes };

    ghost invariant = { λ l. l.count ≤ 1024 };
}

/// Whether the byte continues a character of UTF-8, by the Unicode core specification, table 3-7.
fn is_trailing(byte: u8) -> bool
    ensures { result ≡ continues byte }
{
    0x7F < byte && byte < 0xC0
}

impl Line {
    /// An empty line.
    pub fn new() -> Line
        ensures { result ≡ [] }
    {
        Line {
            bytes: [0; ROOM],
            count: 0,
        }
    }

    /// A copy of the line.
    pub fn copied(&self) -> Line
        ensures { result ≡ self.now }
    {
        Line {
            bytes: self.bytes,
            count: self.count,
        }
    }

    /// The bytes of the line.
    pub fn as_slice(&self) -> &[u8]
        ensures { result.now ≡ self.now }
    {
        &self.bytes[..self.count]
    }

    /// Empties the line.
    pub fn clear(&mut self)
        ensures { self.new ≡ [] }
    {
        self.count = 0;
    }

    /// Removes the last character: its trailing bytes and the byte before them.
    fn shorten(&mut self)
        ensures { self.new ≡ shortened self.old }
    {
        while self.count > 0 {
            self.count -= 1;
            if !is_trailing(self.bytes[self.count]) {
                break;
            }
        }
    }

    /// Puts a byte at the end, if there is room.
    fn put(&mut self, byte: u8)
        ensures { self.new ≡
            (if nat_lt (length self.old) 1024 then self.old ++ byte ∷ [] else self.old) }
    {
        if self.count < ROOM {
            self.bytes[self.count] = byte;
            self.count += 1;
        }
    }

    /// Edits the line by one key of the prompt, which neither ends the line nor closes the prompt.
    pub fn edit(&mut self, key: u8)
        ensures { self.new ≡ line_after_key self.old key }
    {
        if key == 0x08 || key == 0x7F {
            self.shorten();
        } else if key >= 0x20 {
            self.put(key);
        }
    }
}
