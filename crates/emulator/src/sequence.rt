//! Control sequences at the beginning of a list of bytes, which are read at once.

ghost use Rattle.std.specs.Prelude.{◌≡◌, ℕ, ◌+◌, ◌*◌, ◌-◌, ◌<◌, ◌≤◌, true, false, length, slice_index, take};
ghost use Rattle.std.specs.Prelude.{[], ◌∷◌, IfSome, IsTrue, None};
ghost use Rattle.control_parser.specs.declared.parser.Func.TheVariants.{Csi};
ghost use Rattle.control_parser.specs.Spelling.{ReadsBehindCsi};
ghost use Rattle.control_parser.specs.Text.{is_digit, is_mark, value_of};

/// The number of parameters that count.
pub const PARAMS: usize = 16;

/// A control sequence without intermediates. Its parameters stand elsewhere.
#[derive(Clone, Copy)]
pub struct Sequence {
    /// The private marker before the parameters, if there is one.
    pub mark: Option<u8>,
    /// The number of parameters.
    pub count: usize,
    /// The final byte.
    pub last: u8,
    /// The number of bytes after CSI.
    pub size: usize,
}

/// Reads the control sequence that begins with a CSI before these bytes, and writes its parameters
/// to the front of `params`. None if another byte than a digit or a semicolon comes between a
/// private marker and the final byte, if there are more than sixteen parameters, if one has more
/// than three digits, or if fewer than four bytes follow the CSI or a semicolon.
#[inline(always)]
pub fn first_sequence(bytes: &[u8], params: &mut [u16]) -> Option<Sequence>
    requires { length params.old ≡ 16 }
    ensures reads { IfSome result (λ s. ReadsBehindCsi s.size bytes.now
        (Csi s.mark (take s.count params.new) [] s.last)) }
    ensures some { IfSome result (λ s. 0 < s.size) }
    ensures few { IfSome result (λ s. s.size ≤ length bytes.now) }
    ensures count { IfSome result (λ s. s.count ≤ 16) }
    ensures room { length params.new ≡ 16 }
{
    let (mark, mut at) = first_mark(bytes);
    let mut count = 0;
    // A parameter of at most three digits and the byte after it fit in if they begin before this
    // place.
    let end = bytes.len().saturating_sub(3);
    while at < end {
        let (value, behind, c) = numeral(&bytes[at..]);
        params[count] = value;
        count += 1;
        at += behind;
        if b'@' <= c && c <= b'~' {
            return Some(Sequence {
                mark,
                count,
                last: c,
                size: at,
            });
        }
        if c != b';' || count == PARAMS {
            return None;
        }
    }
    None
}

/// The private marker with which some bytes begin, if they begin with one, and its number of bytes.
#[inline(always)]
fn first_mark(bytes: &[u8]) -> (Option<u8>, usize)
    ensures mark { IfSome result.0 (λ m. take 1 bytes.now ≡ m ∷ []) }
    ensures is { IfSome result.0 (λ m. is_mark m ≡ true) }
    ensures one { IfSome result.0 (λ m. result.1 ≡ 1) }
    ensures none { result.0 ≡ None → result.1 ≡ 0 }
    ensures few { result.1 ≤ length bytes.now }
{
    if !bytes.is_empty() && b'<' <= bytes[0] && bytes[0] <= b'?' {
        (Some(bytes[0]), 1)
    } else {
        (None, 0)
    }
}

/// Reads a number of at most three digits at the beginning of some bytes. Returns the number, the
/// number of bytes read, which includes the byte after the digits, and that byte. There is no loop,
/// and no value can be above 9,999.
#[inline(always)]
fn numeral(bytes: &[u8]) -> (u16, usize, u8)
    requires { 3 < length bytes.now }
    ensures some { 0 < result.1 }
    ensures few { result.1 ≤ 4 }
    ensures value { result.0 ≡ value_of bytes.now (result.1 - 1) }
    ensures digits { (k : ℕ) → k < result.1 - 1 → is_digit (slice_index bytes.now k) ≡ true }
    ensures all { result.1 < 4 → is_digit result.2 ≡ false }
    ensures behind { result.2 ≡ slice_index bytes.now (result.1 - 1) }
{
    let c = bytes[0];
    let first = digit(c);
    if first > 9 {
        return (0, 1, c);
    }
    let (number, count) = with_second(first, digit(bytes[1]));
    let c = bytes[count];
    // With one digit that is the same byte as before.
    let third = digit(c);
    if third > 9 {
        return (number as u16, count + 1, c);
    }
    ((number * 10 + third) as u16, 4, bytes[3])
}

/// The number of one digit and of the next byte, if that is a digit too, and how many digits it has.
/// Whether a number has one digit or two can't be foreseen, so there is no branch.
#[inline(always)]
fn with_second(first: u32, second: u32) -> (u32, usize)
    requires { first ≤ 9 }
    ensures one { 9 < second → result ≡ (first, 1) }
    ensures two { second ≤ 9 → result ≡ (first * 10 + second, 2) }
    ensures few { result.1 ≤ 2 }
    ensures small { result.0 ≤ 99 }
{
    if second <= 9 {
        (first * 10 + second, 2)
    } else {
        (first, 1)
    }
}

/// The value of a digit; more than 9 for any other byte.
#[inline(always)]
fn digit(c: u8) -> u32
    ensures digit { result ≤ 9 → (is_digit c ≡ true) × (result ≡ c - 0x30) }
    ensures other { 9 < result → is_digit c ≡ false }
{
    u32::from(c).wrapping_sub(0x30)
}
