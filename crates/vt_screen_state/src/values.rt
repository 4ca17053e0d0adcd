//! The functions with several values.

ghost use Rattle.std.specs.Prelude.{◌≡◌, IfSome};
ghost use Rattle.terminal_model.specs.Functions.{colour_action, mode_set, private_mode_set, rendered};
ghost use Rattle.vt_screen_state.specs.Meanings.{meaning};
ghost use Rattle.vt_screen_state.specs.Counted.{IsCounted};
ghost use Rattle.vt_screen_state.specs.Silent.{IsSilent};

use cells::{Attribute, Colour};
use terminal_model::{Action, Mode};

/// A function that performs one action for each value that is known.
#[derive(Clone, Copy, Debug)]
pub enum Setting {
    /// SGR.
    Rendition,
    /// SM if true, RM if false.
    Mode(bool),
    /// DECSM if true, DECRM if false.
    PrivateMode(bool),
}

impl Setting {
    /// The action of one value. None if the value isn't known.
    pub fn action(self, value: u16) -> Option<Action>
        ensures value { result ≡ meaning self value }
        ensures counted { IfSome result IsCounted }
        ensures silent { IfSome result IsSilent }
    {
        match self {
            Setting::Rendition => rendition_action(value),
            Setting::Mode(is_set) => mode_action(is_set, value),
            Setting::PrivateMode(is_set) => private_mode_action(is_set, value),
        }
    }
}

/// The action of a value of SGR (ECMA-48, 8.3.117). None if the value isn't known.
fn rendition_action(value: u16) -> Option<Action>
    ensures value { result ≡ rendered value }
    ensures counted { IfSome result IsCounted }
    ensures silent { IfSome result IsSilent }
{
    match value {
        0 => Some(Action::Render(Attribute::Plain)),
        1 => Some(Action::Render(Attribute::Bold(true))),
        4 => Some(Action::Render(Attribute::Underlined(true))),
        5 => Some(Action::Render(Attribute::Blinking(true))),
        7 => Some(Action::Render(Attribute::Reversed(true))),
        22 => Some(Action::Render(Attribute::Bold(false))),
        24 => Some(Action::Render(Attribute::Underlined(false))),
        25 => Some(Action::Render(Attribute::Blinking(false))),
        27 => Some(Action::Render(Attribute::Reversed(false))),
        _ => colour_action(value),
    }
}

/// The action of a value of SGR that names a colour. None for any other value.
fn colour_action(value: u16) -> Option<Action>
    ensures value { result ≡ colour_action value }
{
    match value {
        30 => Some(Action::Render(Attribute::Foreground(Colour::Black))),
        31 => Some(Action::Render(Attribute::Foreground(Colour::Red))),
        32 => Some(Action::Render(Attribute::Foreground(Colour::Green))),
        33 => Some(Action::Render(Attribute::Foreground(Colour::Yellow))),
        34 => Some(Action::Render(Attribute::Foreground(Colour::Blue))),
        35 => Some(Action::Render(Attribute::Foreground(Colour::Magenta))),
        36 => Some(Action::Render(Attribute::Foreground(Colour::Cyan))),
        37 => Some(Action::Render(Attribute::Foreground(Colour::White))),
        39 => Some(Action::Render(Attribute::Foreground(Colour::Default))),
        40 => Some(Action::Render(Attribute::Background(Colour::Black))),
        41 => Some(Action::Render(Attribute::Background(Colour::Red))),
        42 => Some(Action::Render(Attribute::Background(Colour::Green))),
        43 => Some(Action::Render(Attribute::Background(Colour::Yellow))),
        44 => Some(Action::Render(Attribute::Background(Colour::Blue))),
        45 => Some(Action::Render(Attribute::Background(Colour::Magenta))),
        46 => Some(Action::Render(Attribute::Background(Colour::Cyan))),
        47 => Some(Action::Render(Attribute::Background(Colour::White))),
        49 => Some(Action::Render(Attribute::Background(Colour::Default))),
        _ => None,
    }
}

/// The action of a value of SM or RM (ECMA-48, 7.2). None if the value isn't known.
fn mode_action(is_set: bool, value: u16) -> Option<Action>
    ensures value { result ≡ mode_set is_set value }
{
    match value {
        4 => Some(Action::SetMode(Mode::Insert, is_set)),
        20 => Some(Action::SetMode(Mode::NewLine, is_set)),
        _ => None,
    }
}

/// The action of a value of DECSM or DECRM (VT220 Programmer Reference Manual, chapter 4). None if the value isn't
/// known.
fn private_mode_action(is_set: bool, value: u16) -> Option<Action>
    ensures value { result ≡ private_mode_set is_set value }
{
    match value {
        1 => Some(Action::SetMode(Mode::Arrows, is_set)),
        3 => Some(Action::BlankPage),
        5 => Some(Action::SetMode(Mode::Inverted, is_set)),
        6 => Some(Action::SetMode(Mode::Origin, is_set)),
        7 => Some(Action::SetMode(Mode::Wrap, is_set)),
        25 => Some(Action::SetMode(Mode::Cursor, is_set)),
        _ => None,
    }
}
