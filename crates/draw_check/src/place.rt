//! A place in a function of a draw.

ghost use Rattle.std.specs.Prelude.{◌≡◌};
ghost use Rattle.draw_check.specs.Functions.{is_second, is_value, is_last, is_short};
ghost use Rattle.draw_check.specs.Places.{next, next_value, after_second, between_if, place_if};
ghost use Rattle.draw_check.specs.declared.place.DrawPlace.TheVariants.{Between, Escape, Mode};
ghost use Rattle.charsets.specs.Units.{is_plain};
ghost use Rattle.charsets.specs.Utf8.{is_lead, follows, continues};

/// Where in a function some bytes end.
#[derive(Clone, Copy, Debug, PartialEq, Eq)]
pub enum DrawPlace {
    Between,
    /// After ESC.
    Escape,
    /// After ESC %.
    Coding,
    /// After CSI.
    Control,
    /// After CSI and this number of digits and semicolons.
    Values(u8),
    /// After CSI ?.
    Mode,
    /// After CSI ? 2.
    Cursor,
    /// Before the last byte of DECSM or DECRM.
    Switch,
    /// Before the last byte of DECRM.
    Off,
    /// After the first byte of a character of several bytes.
    Lead(u8),
    /// Before the last two bytes of a character.
    Third,
    /// Before the last byte of a character.
    Last,
}

// The most bytes of values in a control sequence.
const MOST_VALUES: u8 = 79;

const CAN: u8 = 0x18;

const ESC: u8 = 0x1B;

fn is_plain(byte: u8) -> bool
    ensures { result ≡ is_plain byte }
{
    0x1F < byte && byte < 0x7F
}

fn continues(byte: u8) -> bool
    ensures { result ≡ continues byte }
{
    0x7F < byte && byte < 0xC0
}

fn is_second(first: u8, byte: u8) -> bool
    ensures { result ≡ is_second first byte }
{
    match first {
        0xC2 | 0xE0 => 0x9F < byte && byte < 0xC0,
        0xED => 0x7F < byte && byte < 0xA0,
        0xF0 => 0x8F < byte && byte < 0xC0,
        0xF4 => 0x7F < byte && byte < 0x90,
        _ => continues(byte),
    }
}

fn place_if(is: bool, place: DrawPlace) -> Option<DrawPlace>
    ensures { result ≡ place_if is place }
{
    if is { Some(place) } else { None }
}

fn between_if(is: bool) -> Option<DrawPlace>
    ensures { result ≡ between_if is }
{
    place_if(is, DrawPlace::Between)
}

fn begin(byte: u8) -> Option<DrawPlace>
    ensures { result ≡ next Between byte }
{
    if is_plain(byte) || byte == CAN {
        Some(DrawPlace::Between)
    } else if byte == ESC {
        Some(DrawPlace::Escape)
    } else {
        place_if(0xC1 < byte && byte < 0xF5, DrawPlace::Lead(byte))
    }
}

fn after_escape(byte: u8) -> Option<DrawPlace>
    ensures { result ≡ next Escape byte }
{
    match byte {
        b'[' => Some(DrawPlace::Control),
        b'%' => Some(DrawPlace::Coding),
        _ => between_if(matches!(byte, b'E' | b'=' | b'>' | b'c')),
    }
}

fn after_values(count: u8, byte: u8) -> Option<DrawPlace>
    ensures { result ≡ next_value count byte }
{
    if byte.is_ascii_digit() || byte == b';' {
        if count < MOST_VALUES {
            Some(DrawPlace::Values(count + 1))
        } else {
            None
        }
    } else {
        between_if(matches!(byte, b'C' | b'H' | b'K' | b'X' | b'm'))
    }
}

fn after_mark(byte: u8) -> Option<DrawPlace>
    ensures { result ≡ next Mode byte }
{
    match byte {
        b'1' => Some(DrawPlace::Switch),
        b'2' => Some(DrawPlace::Cursor),
        _ => place_if(byte == b'7', DrawPlace::Off),
    }
}

fn after_second(first: u8) -> DrawPlace
    ensures { result ≡ after_second first }
{
    if first < 0xE0 {
        DrawPlace::Between
    } else if first < 0xF0 {
        DrawPlace::Last
    } else {
        DrawPlace::Third
    }
}

impl DrawPlace {
    /// The place after one more byte; `None` if no function goes on with it.
    pub fn next(self, byte: u8) -> Option<DrawPlace>
        ensures { result ≡ next self byte }
    {
        match self {
            DrawPlace::Between => begin(byte),
            DrawPlace::Escape => after_escape(byte),
            DrawPlace::Coding => between_if(byte == b'G'),
            DrawPlace::Control if byte == b'?' => Some(DrawPlace::Mode),
            DrawPlace::Control => after_values(0, byte),
            DrawPlace::Values(count) => after_values(count, byte),
            DrawPlace::Mode => after_mark(byte),
            DrawPlace::Cursor => place_if(byte == b'5', DrawPlace::Switch),
            DrawPlace::Switch => between_if(byte == b'h' || byte == b'l'),
            DrawPlace::Off => between_if(byte == b'l'),
            DrawPlace::Lead(first) => place_if(is_second(first, byte), after_second(first)),
            DrawPlace::Third => place_if(continues(byte), DrawPlace::Last),
            DrawPlace::Last => between_if(continues(byte)),
        }
    }
}
