//! UTF-8, read byte by byte, or a whole character at once.

ghost use Rattle.std.specs.Prelude.{◌≡◌, ◌<◌, ◌≤◌, [], ◌∷◌, ◌++◌, true, option_to_list, IfSome, length, take};
ghost use Rattle.charsets.specs.Utf8.{is_lead, follows, continues, code_of_2, code_of_3, code_of_4, codes, with_front};
ghost use Rattle.charsets.specs.Utf8.{broken_gives};
ghost use Rattle.charsets.specs.Partial.{IsPartial, partial_bytes, chars_of};
ghost use Rattle.charsets.specs.Units.{is_character};

/// The bytes of an incomplete character: at most three.
#[derive(Clone, Copy, Debug, PartialEq, Eq)]
pub enum Partial {
    Empty,
    One(u8),
    Two(u8, u8),
    Three(u8, u8, u8),
}

/// The characters that one byte completes.
#[derive(Clone, Copy, Debug, PartialEq, Eq)]
pub enum Chars {
    Nothing,
    One(char),
    Two(char, char),
}

const REPLACEMENT: char = '\u{FFFD}';

const CAN: u8 = 0x18;

fn is_lead(a: u8) -> bool
    ensures { result ≡ is_lead a }
{
    0xC1 < a && a < 0xF5
}

fn continues(b: u8) -> bool
    ensures { result ≡ continues b }
{
    0x7F < b && b < 0xC0
}

fn follows(a: u8, b: u8) -> bool
    ensures { result ≡ follows a b }
{
    match a {
        0xE0 => 0x9F < b && b < 0xC0,
        0xED => 0x7F < b && b < 0xA0,
        0xF0 => 0x8F < b && b < 0xC0,
        0xF4 => 0x7F < b && b < 0x90,
        _ => continues(b),
    }
}

fn char_of_2(a: u8, b: u8) -> char
    requires lead { is_lead a ≡ true }
    requires short { a < 0xE0 }
    requires second { follows a b ≡ true }
    ensures { result ≡ code_of_2 a b }
{
    let code = (a - 0xC0) as u32 * 64 + (b - 0x80) as u32;
    char::from_u32(code).unwrap()
}

fn char_of_3(a: u8, b: u8, c: u8) -> char
    requires long { 0xE0 ≤ a }
    requires short { a < 0xF0 }
    requires second { follows a b ≡ true }
    requires third { continues c ≡ true }
    ensures { result ≡ code_of_3 a b c }
{
    let code = ((a - 0xE0) as u32 * 64 + (b - 0x80) as u32) * 64 + (c - 0x80) as u32;
    char::from_u32(code).unwrap()
}

fn char_of_4(a: u8, b: u8, c: u8, d: u8) -> char
    requires lead { is_lead a ≡ true }
    requires long { 0xF0 ≤ a }
    requires second { follows a b ≡ true }
    requires third { continues c ≡ true }
    requires fourth { continues d ≡ true }
    ensures { result ≡ code_of_4 a b c d }
{
    let code = (((a - 0xF0) as u32 * 64 + (b - 0x80) as u32) * 64 + (c - 0x80) as u32) * 64
        + (d - 0x80) as u32;
    char::from_u32(code).unwrap()
}

// Reads a byte while no character is incomplete.
#[tactic(auto, unfolding(crate::specs::Utf8::cut, crate::specs::Utf8::piece))]
fn start(byte: u8) -> (Option<char>, Partial)
    ensures value { codes (byte ∷ []) ≡ (option_to_list result.0, partial_bytes result.1) }
    ensures partial { IsPartial result.1 }
{
    if byte < 0x80 {
        (Some(byte as char), Partial::Empty)
    } else if is_lead(byte) {
        (None, Partial::One(byte))
    } else {
        (Some(REPLACEMENT), Partial::Empty)
    }
}

// Reads a byte that breaks off an incomplete character: CAN cancels the character, any other byte
// turns it into U+FFFD. The byte is then read as the first one of a character.
#[tactic(auto, unfolding(crate::specs::Utf8::cut, crate::specs::Utf8::piece))]
fn broken(byte: u8) -> (Chars, Partial)
    ensures value { with_front (broken_gives byte) (codes (byte ∷ []))
        ≡ (chars_of result.0, partial_bytes result.1) }
    ensures partial { IsPartial result.1 }
{
    if byte == CAN {
        return (Chars::One(byte as char), Partial::Empty);
    }
    let (anew, partial) = start(byte);
    (
        anew.map_or(Chars::One(REPLACEMENT), |c| Chars::Two(REPLACEMENT, c)),
        partial,
    )
}

/// Reads a byte: the characters that it completes, and the incomplete character afterwards.
#[tactic(auto, unfolding(crate::specs::Utf8::cut, crate::specs::Utf8::piece))]
pub fn step(partial: Partial, byte: u8) -> (Chars, Partial)
    requires { IsPartial partial }
    ensures value { codes (partial_bytes partial ++ byte ∷ [])
        ≡ (chars_of result.0, partial_bytes result.1) }
    ensures partial { IsPartial result.1 }
{
    match partial {
        Partial::Empty => {
            let (anew, partial) = start(byte);
            (anew.map_or(Chars::Nothing, Chars::One), partial)
        }
        Partial::One(a) => {
            if !follows(a, byte) {
                broken(byte)
            } else if a < 0xE0 {
                (Chars::One(char_of_2(a, byte)), Partial::Empty)
            } else {
                (Chars::Nothing, Partial::Two(a, byte))
            }
        }
        Partial::Two(a, b) => {
            if !continues(byte) {
                broken(byte)
            } else if a < 0xF0 {
                (Chars::One(char_of_3(a, b, byte)), Partial::Empty)
            } else {
                (Chars::Nothing, Partial::Three(a, b, byte))
            }
        }
        Partial::Three(a, b, c) => {
            if !continues(byte) {
                broken(byte)
            } else {
                (Chars::One(char_of_4(a, b, c, byte)), Partial::Empty)
            }
        }
    }
}

/// The graphic character with which some bytes begin in UTF-8, and its number of bytes (Unicode core
/// specification, table 3-7). None if they begin with anything else.
#[tactic(auto, unfolding(crate::specs::Utf8::cut, crate::specs::Utf8::piece))]
#[inline(always)]
pub fn first_character(bytes: &[u8]) -> Option<(char, usize)>
    requires { 0 < length bytes.now }
    ensures reads { IfSome result (λ c. codes (take c.1 bytes.now) ≡ (c.0 ∷ [], [])) }
    ensures character { IfSome result (λ c. is_character c.0 ≡ true) }
    ensures some { IfSome result (λ c. 0 < c.1) }
    ensures few { IfSome result (λ c. c.1 ≤ length bytes.now) }
{
    let a = bytes[0];
    if 0x1F < a && a < 0x7F {
        return Some((a as char, 1));
    }
    if bytes.len() < 2 || a < 0xC2 {
        return None;
    }
    let b = bytes[1];
    if a < 0xE0 && continues(b) && (a != 0xC2 || b >= 0xA0) {
        return Some((char_of_2(a, b), 2));
    }
    if bytes.len() < 3 || a < 0xE0 || !follows(a, b) || !continues(bytes[2]) {
        return None;
    }
    if a < 0xF0 {
        return Some((char_of_3(a, b, bytes[2]), 3));
    }
    if bytes.len() < 4 || 0xF4 < a || !continues(bytes[3]) {
        return None;
    }
    Some((char_of_4(a, b, bytes[2], bytes[3]), 4))
}
