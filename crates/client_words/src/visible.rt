//! Text of another program for a terminal: control characters are written as `\xNN`, and characters
//! that turn the direction of text or end a line as `\u{NNNN}`.

ghost use Rattle.std.specs.Prelude.{◌≡◌, ◌++◌, ◌<◌, ℕ, List, OnOk, true};
ghost use Rattle.client_words.specs.Visible.{is_control, is_c1, is_mark, is_general, is_isolate, is_turn, third};
ghost use Rattle.client_words.specs.Visible.{longer, piece, digit, written, further, visible, are_kept};
ghost use Rattle.client_words.specs.declared.visible.Piece.TheVariants.{Control, Turn};

use std::alloc::AllocError;

/// What begins at a byte of a text.
#[derive(Clone, Copy, Debug)]
pub enum Piece {
    /// Nothing that is hidden or turns text: the byte is written as it is.
    Kept,
    /// A control character of one byte.
    Control(u8),
    /// A control character of C1, with its second byte.
    C1(u8),
    /// U+061C.
    Mark,
    /// Another character that turns text or ends a line, with its second and third byte.
    Turn(u8, u8),
}

fn digit(n: u8) -> u8
    requires { n < 16 }
    ensures { result ≡ digit n }
{
    if n < 10 { b'0' + n } else { b'a' - 10 + n }
}

fn is_control(byte: u8) -> bool
    ensures { result ≡ is_control byte }
{
    byte < 0x20 || byte == 0x7F
}

fn is_c1(first: u8, second: u8) -> bool
    ensures { result ≡ is_c1 first second }
{
    first == 0xC2 && (0x80..=0x9F).contains(&second)
}

fn is_mark(first: u8, second: u8) -> bool
    ensures { result ≡ is_mark first second }
{
    first == 0xD8 && second == 0x9C
}

fn is_general(second: u8, third: u8) -> bool
    ensures { result ≡ is_general second third }
{
    second == 0x80 && ((0x8E..=0x8F).contains(&third) || (0xA8..=0xAE).contains(&third))
}

fn is_isolate(second: u8, third: u8) -> bool
    ensures { result ≡ is_isolate second third }
{
    second == 0x81 && (0xA6..=0xA9).contains(&third)
}

fn is_turn(first: u8, second: u8, third: u8) -> bool
    ensures { result ≡ is_turn first second third }
{
    first == 0xE2 && (is_general(second, third) || is_isolate(second, third))
}

fn third(first: u8, second: u8, rest: &[u8]) -> Piece
    ensures { result ≡ third first second rest.now }
{
    match rest {
        [third, ..] if is_turn(first, second, *third) => Piece::Turn(second, *third),
        _ => Piece::Kept,
    }
}

fn longer(first: u8, rest: &[u8]) -> Piece
    ensures { result ≡ longer first rest.now }
{
    match rest {
        [] => Piece::Kept,
        [second, _rest @ ..] if is_c1(first, *second) => Piece::C1(*second),
        [second, _rest @ ..] if is_mark(first, *second) => Piece::Mark,
        [second, rest @ ..] => third(first, *second, rest),
    }
}

fn put_control(byte: u8, out: &mut Vec<u8>) -> Result<(), AllocError>
    ensures { OnOk result (out.new.items ≡ out.old.items ++ written (Control byte) byte) }
{
    let bytes = [b'\\', b'x', digit(byte / 16), digit(byte % 16)];
    out.extend_from_slice(&bytes)
}

fn put_turn(second: u8, third: u8, out: &mut Vec<u8>) -> Result<(), AllocError>
    ensures { OnOk result (out.new.items ≡ out.old.items ++ written (Turn second third) second) }
{
    let code = (second % 64) as u16 * 64 + (third % 64) as u16;
    let bytes = [
        b'\\',
        b'u',
        b'{',
        b'2',
        digit((code / 256) as u8),
        digit((code / 16 % 16) as u8),
        digit((code % 16) as u8),
        b'}',
    ];
    out.extend_from_slice(&bytes)
}

impl Piece {
    /// What begins with a byte and those after it.
    fn of(first: u8, rest: &[u8]) -> Piece
        ensures { result ≡ piece first rest.now }
    {
        if is_control(first) {
            Piece::Control(first)
        } else {
            longer(first, rest)
        }
    }

    /// Writes the piece, which begins with this byte.
    fn put(self, first: u8, out: &mut Vec<u8>) -> Result<(), AllocError>
        ensures { OnOk result (out.new.items ≡ out.old.items ++ written self first) }
    {
        match self {
            Piece::Kept => {
                out.push(first)?;
                Ok(())
            }
            Piece::Control(byte) | Piece::C1(byte) => put_control(byte, out),
            Piece::Mark => out.extend_from_slice(b"\\u{61c}"),
            Piece::Turn(second, third) => put_turn(second, third, out),
        }
    }

    /// How many bytes it has besides the first.
    fn further(self) -> usize
        ensures { result ≡ further self }
    {
        match self {
            Piece::Kept | Piece::Control(_) => 0,
            Piece::C1(_) | Piece::Mark => 1,
            Piece::Turn(..) => 2,
        }
    }
}

/// Appends a text, with its control characters as `\xNN`, and those that turn the direction of text
/// or end a line as `\u{NNNN}`.
pub fn put_visible(text: &[u8], out: &mut Vec<u8>) -> Result<(), AllocError>
    ensures { OnOk result (out.new.items ≡ out.old.items ++ visible text.now) }
{
    let mut skip = 0usize;
    for at in 0..text.len() {
        if skip > 0 {
            skip -= 1;
        } else {
            let piece = Piece::of(text[at], &text[at + 1..]);
            piece.put(text[at], out)?;
            skip = piece.further();
        }
    }
    Ok(())
}

/// A law: in what `put_visible` appends, no control character begins at any byte, and no character
/// that turns the direction of text or ends a line.
pub fn nothing_controls()
    ensures { (text : List ℕ) → are_kept (visible text) ≡ true }
{}
