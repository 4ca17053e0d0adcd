//! What the parser keeps of an incomplete sequence or string.

ghost use Rattle.std.specs.Prelude.{◌≡◌, ◌==◌, true, false, Some, None, IsTrue};
ghost use Rattle.control_parser.specs.Text.{is_intermediate};
ghost use Rattle.control_parser.specs.Steps.{no_text, text_grown, begun_step, broken_step};
ghost use Rattle.control_parser.specs.Steps.{escape_step, step_of, alone_of};
ghost use Rattle.control_parser.specs.Grammar.{code, is_control, is_c1};

use crate::intermediates::Intermediates;
use crate::params::Params;
use crate::parser::Func;
use charsets::Unit;

/// The text of a control sequence as far as it was read.
#[derive(Clone, Copy, Debug)]
pub struct SequenceText {
    pub begun: bool,
    pub mark: Option<u8>,
    pub params: Params,
    /// More than sixteen parameters have begun.
    pub over: bool,
    pub intermediates: Intermediates,
}

/// The incomplete sequence or string, or none.
#[derive(Clone, Copy, Debug)]
pub enum State {
    Ground,
    Escape(Intermediates),
    /// An escape sequence with more than two intermediates.
    EscapeIgnored,
    Control(SequenceText),
    /// A control sequence that is ignored, since its text can't become well formed.
    ControlIgnored,
    /// DCS, SOS, PM, APC or ESC k.
    String,
    Osc,
}

const BEL: u32 = 0x07;

const CAN: u32 = 0x18;

const SUB: u32 = 0x1A;

const ESC: u32 = 0x1B;

const DEL: u32 = 0x7F;

// The code of a unit; every byte of ECMA-35 from A0 on counts as A0.
fn code(unit: Unit) -> u32
    ensures { result ≡ code unit }
{
    match unit {
        Unit::Code(c) => c as u32,
        Unit::High(_) => 0xA0,
    }
}

fn is_executed(c: u32) -> bool
    ensures { result ≡ is_control c }
{
    c < 0x20 && c != ESC && c != CAN && c != SUB
}

fn is_c1(c: u32) -> bool
    ensures { result ≡ is_c1 c }
{
    0x7F < c && c < 0xA0
}

fn is_intermediate(c: u32) -> bool
    ensures { result ≡ is_intermediate c }
{
    0x1F < c && c < 0x30
}

impl SequenceText {
    /// The empty text of a control sequence.
    pub fn empty() -> SequenceText
        ensures { result ≡ no_text }
    {
        SequenceText {
            begun: false,
            mark: None,
            params: Params::absent(),
            over: false,
            intermediates: Intermediates::none(),
        }
    }

    /// Appends a character. Returns false if the text is ignored from here on.
    pub fn grow(&mut self, c: u8) -> bool
        ensures grown { IsTrue result → text_grown self.old c ≡ Some self.new }
        ensures ignored { result ≡ false → text_grown self.old c ≡ None }
    {
        let first = !self.begun;
        self.begun = true;
        match c {
            b' '..=b'/' if self.intermediates.len() < 2 => self.intermediates.push(c),
            _ if !self.intermediates.is_empty() => return false,
            b'0'..=b'9' if self.over => {}
            b'0'..=b'9' => self.params.add_digit(c - b'0'),
            b';' if self.params.len() < 16 => self.params.push(0),
            b';' => self.over = true,
            b'<'..=b'?' if first => self.mark = Some(c),
            _ => return false,
        }
        true
    }
}

// The function of a unit if nothing is incomplete.
fn alone(unit: Unit) -> Option<Func>
    ensures { result ≡ alone_of unit }
{
    match unit {
        Unit::High(byte) => Some(Func::High(byte)),
        Unit::Code('\u{18}' | '\u{1A}' | '\u{1B}' | '\u{7F}'..='\u{9F}') => None,
        Unit::Code(c @ '\0'..='\u{1F}') => Some(Func::Control(c as u8)),
        Unit::Code(c) => Some(Func::Print(c)),
    }
}

impl State {
    // Begins what ESC and this final byte begin; or returns the function that they are.
    fn begin(&mut self, last: u8) -> Option<Func>
        ensures { (result, self.new) ≡ begun_step last }
    {
        *self = match last {
            b'[' => State::Control(SequenceText::empty()),
            b']' => State::Osc,
            b'P' | b'X' | b'^' | b'_' | b'k' => State::String,
            _ => {
                *self = State::Ground;
                return Some(Func::Esc {
                    intermediates: Intermediates::none(),
                    last,
                });
            }
        };
        None
    }

    // Reads a unit that begins anew: nothing is incomplete, or the unit breaks off what is.
    fn break_off(&mut self, unit: Unit, inside: bool) -> Option<Func>
        ensures { (result, self.new) ≡ broken_step unit inside }
    {
        let c = code(unit);
        if is_c1(c) {
            return self.begin((c - 0x40) as u8);
        }
        if c == ESC {
            *self = State::Escape(Intermediates::none());
            return None;
        }
        *self = State::Ground;
        if c == SUB && inside {
            return Some(Func::Print('\u{FFFD}'));
        }
        alone(unit)
    }

    // Reads a unit inside an escape sequence: an intermediate, the final byte, or a unit that
    // breaks the sequence off.
    fn escape(&mut self, mut intermediates: Intermediates, unit: Unit) -> Option<Func>
        ensures { (result, self.new) ≡ escape_step intermediates unit }
    {
        let c = code(unit);
        if is_intermediate(c) {
            if intermediates.len() == 2 {
                *self = State::EscapeIgnored;
                return None;
            }
            intermediates.push(c as u8);
            *self = State::Escape(intermediates);
            return None;
        }
        if c < 0x30 || 0x7E < c {
            return self.break_off(unit, true);
        }
        let last = c as u8;
        if intermediates.is_empty() {
            return self.begin(last);
        }
        *self = State::Ground;
        Some(Func::Esc {
            intermediates,
            last,
        })
    }

    /// Reads one more unit and returns the function that it completes, if it completes one.
    pub fn read(&mut self, unit: Unit) -> Option<Func>
        ensures { (result, self.new) ≡ step_of self.old unit }
    {
        let c = code(unit);
        match self {
            State::Ground => return self.break_off(unit, false),
            State::Osc if c == BEL => *self = State::Ground,
            State::String | State::Osc if c == CAN || c == SUB || c == ESC || is_c1(c) => {
                return self.break_off(unit, true);
            }
            State::String | State::Osc => {}
            _ if is_executed(c) => return Some(Func::Control(c as u8)),
            _ if c == DEL => {}
            State::Escape(intermediates) => {
                let intermediates = *intermediates;
                return self.escape(intermediates, unit);
            }
            State::EscapeIgnored if is_intermediate(c) => {}
            State::EscapeIgnored if 0x2F < c && c < 0x7F => *self = State::Ground,
            State::Control(text) if 0x1F < c && c < 0x40 => {
                if !text.grow(c as u8) {
                    *self = State::ControlIgnored;
                }
            }
            State::Control(text) if 0x3F < c && c < 0x7F => {
                let func = Func::Csi {
                    mark: text.mark,
                    params: text.params,
                    intermediates: text.intermediates,
                    last: c as u8,
                };
                *self = State::Ground;
                return Some(func);
            }
            State::ControlIgnored if 0x1F < c && c < 0x40 => {}
            State::ControlIgnored if 0x3F < c && c < 0x7F => *self = State::Ground,
            State::EscapeIgnored | State::Control(_) | State::ControlIgnored => {
                return self.break_off(unit, true);
            }
        }
        None
    }
}
