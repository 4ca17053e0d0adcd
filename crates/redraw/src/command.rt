//! The control functions that frames are made of.

ghost use Rattle.std.specs.Prelude.{◌≡◌, ◌<◌, ◌++◌, [], OnOk};
ghost use Rattle.control_parser.specs.declared.parser.Func.TheVariants.{Print, Csi, Esc};
ghost use Rattle.control_parser.specs.Spelling.{spelling};
ghost use Rattle.redraw.specs.Commands.{place_params, switch, func_of, IsPlaced};

use crate::rendition::sgr;
use cells::Rendition;
use control_parser::{Func, Intermediates, Params, spell};
use std::alloc::AllocError;

/// A control function of a frame.
#[derive(Clone, Copy, Debug, PartialEq, Eq)]
pub enum Command {
    /// A character of a cell, or a mark.
    Glyph(char),
    /// CUP: to a line and a column, from 0.
    MoveTo {
        line: u16,
        column: u16,
    },
    /// NEL: to the first column of the next line.
    NextLine,
    /// CUF: to the right by this number of columns.
    Forward(u16),
    /// SGR: to a rendition, from a known one or from any.
    Render {
        known: Option<Rendition>,
        rendition: Rendition,
    },
    /// ECH: erases this number of cells.
    EraseCells(u16),
    /// EL: erases to the end of the line.
    EraseToEnd,
    /// Cursor keys mode (DECCKM).
    Arrows(bool),
    /// Text cursor enable mode (DECTCEM).
    ShowCursor(bool),
    /// DECKPAM or DECKPNM.
    Keypad(bool),
}

fn csi(mark: Option<u8>, params: Params, last: u8) -> Func
    ensures { result ≡ Csi mark params [] last }
{
    Func::Csi {
        mark,
        params,
        intermediates: Intermediates::none(),
        last,
    }
}

fn escape(last: u8) -> Func
    ensures { result ≡ Esc [] last }
{
    Func::Esc {
        intermediates: Intermediates::none(),
        last,
    }
}

/// DECSM or DECRM of one mode.
fn switch_mode(mode: u16, on: bool) -> Func
    ensures { result ≡ switch mode on }
{
    csi(Some(b'?'), Params::one(mode), if on { b'h' } else { b'l' })
}

/// The parameters of CUP.
fn place(line: u16, column: u16) -> Params
    requires { (line < 9999) × (column < 9999) }
    ensures { result ≡ place_params line column }
{
    let mut params = Params::one(line + 1);
    if column != 0 {
        params.push(column + 1);
    }
    params
}

impl Command {
    /// The control function of the command.
    pub fn func(self) -> Func
        requires { IsPlaced self }
        ensures { result ≡ func_of self }
    {
        match self {
            Command::Glyph(character) => Func::Print(character),
            Command::MoveTo { line, column } => csi(None, place(line, column), b'H'),
            Command::NextLine => escape(b'E'),
            Command::Forward(count) => csi(None, Params::one(count), b'C'),
            Command::Render { known, rendition } => csi(None, sgr(known, rendition), b'm'),
            Command::EraseCells(count) => csi(None, Params::one(count), b'X'),
            Command::EraseToEnd => csi(None, Params::one(0), b'K'),
            Command::Arrows(on) => switch_mode(1, on),
            Command::ShowCursor(on) => switch_mode(25, on),
            Command::Keypad(on) => escape(if on { b'=' } else { b'>' }),
        }
    }

    /// Appends the function's bytes. `AllocError` if memory is refused; `out` may then hold a part
    /// of them.
    pub fn put(self, out: &mut Vec<u8>) -> Result<(), AllocError>
        requires { IsPlaced self }
        ensures { OnOk result (out.new.items ≡ out.old.items ++ spelling (func_of self)) }
    {
        match self {
            Command::Glyph(character) => put_glyph(character, out),
            _ => spell(&self.func(), out),
        }
    }
}

/// Appends a character in UTF-8. An ASCII character is pushed directly, as one byte.
fn put_glyph(character: char, out: &mut Vec<u8>) -> Result<(), AllocError>
    ensures { OnOk result (out.new.items ≡ out.old.items ++ spelling (Print character)) }
{
    if character.is_ascii() {
        out.push(character as u8)?;
        Ok(())
    } else {
        spell(&Func::Print(character), out)
    }
}
