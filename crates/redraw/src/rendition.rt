//! The parameters of SGR.

ghost use Rattle.std.specs.Prelude.{◌≡◌, ◌<◌, ◌≤◌, ◌+◌, [], ◌∷◌, ◌++◌, length};
ghost use Rattle.terminal_model.specs.Functions.{colour_digit};
ghost use Rattle.terminal_model.specs.Places.{value_if, value_of_colour};
ghost use Rattle.redraw.specs.Renditions.{switched, recoloured, whole_params, change_params, rendition_params, listed};
ghost use Rattle.redraw.specs.Renditions.{value_bytes, all_bytes, shorter};

use cells::{Colour, Rendition};
use control_parser::Params;

/// The parameters of SGR that lead to a rendition, in as few bytes as possible: what differs from
/// the known rendition, or 0 and then what is on.
pub fn sgr(known: Option<Rendition>, rendition: Rendition) -> Params
    ensures { result ≡ rendition_params known rendition }
{
    match known {
        None => whole(rendition),
        Some(known) => shorter(changes(known, rendition), whole(rendition)),
    }
}

/// The last digit of a colour's value.
fn digit(colour: Colour) -> u16
    ensures value { result ≡ colour_digit colour }
    ensures few { result ≤ 9 }
{
    match colour {
        Colour::Black => 0,
        Colour::Red => 1,
        Colour::Green => 2,
        Colour::Yellow => 3,
        Colour::Blue => 4,
        Colour::Magenta => 5,
        Colour::Cyan => 6,
        Colour::White => 7,
        Colour::Default => 9,
    }
}

fn push_if(params: &mut Params, on: bool, value: u16)
    requires { length params.old < 16 }
    ensures params { params.new ≡ params.old ++ value_if on value }
    ensures few { length params.new ≤ length params.old + 1 }
{
    if on {
        params.push(value);
    }
}

fn push_colour(params: &mut Params, colour: Colour, first: u16)
    requires room { length params.old < 16 }
    requires small { first ≤ 40 }
    ensures params { params.new ≡ params.old ++ value_of_colour first colour }
    ensures few { length params.new ≤ length params.old + 1 }
{
    let digit = digit(colour);
    if digit != 9 {
        params.push(first + digit);
    }
}

/// The parameter 0, followed by those of what is on.
fn whole(rendition: Rendition) -> Params
    ensures { result ≡ whole_params rendition }
{
    let mut params = Params::one(0);
    push_if(&mut params, rendition.is_bold(), 1);
    push_if(&mut params, rendition.is_underlined(), 4);
    push_if(&mut params, rendition.is_blinking(), 5);
    push_if(&mut params, rendition.is_reversed(), 7);
    push_colour(&mut params, rendition.fore(), 30);
    push_colour(&mut params, rendition.back(), 40);
    params
}

fn push(params: &mut Option<Params>, value: u16)
    requires { length (listed params.old) < 16 }
    ensures { listed params.new ≡ listed params.old ++ value ∷ [] }
{
    match params {
        Some(params) => params.push(value),
        None => *params = Some(Params::one(value)),
    }
}

fn push_switch(params: &mut Option<Params>, old: bool, new: bool, on: u16, off: u16)
    requires { length (listed params.old) < 16 }
    ensures params { listed params.new ≡ listed params.old ++ switched old new on off }
    ensures few { length (listed params.new) ≤ length (listed params.old) + 1 }
{
    if old != new {
        push(params, if new { on } else { off });
    }
}

fn push_change(params: &mut Option<Params>, old: Colour, new: Colour, first: u16)
    requires room { length (listed params.old) < 16 }
    requires small { first ≤ 40 }
    ensures params { listed params.new ≡ listed params.old ++ recoloured old new first }
    ensures few { length (listed params.new) ≤ length (listed params.old) + 1 }
{
    if digit(old) != digit(new) {
        push(params, first + digit(new));
    }
}

/// The parameters of what differs; `None` if nothing does.
fn changes(old: Rendition, new: Rendition) -> Option<Params>
    ensures { listed result ≡ change_params old new }
{
    let mut params = None;
    push_switch(&mut params, old.is_bold(), new.is_bold(), 1, 22);
    push_switch(&mut params, old.is_underlined(), new.is_underlined(), 4, 24);
    push_switch(&mut params, old.is_blinking(), new.is_blinking(), 5, 25);
    push_switch(&mut params, old.is_reversed(), new.is_reversed(), 7, 27);
    push_change(&mut params, old.fore(), new.fore(), 30);
    push_change(&mut params, old.back(), new.back(), 40);
    params
}

/// The number of bytes of a value and of what follows it.
fn value_bytes(value: u16) -> usize
    ensures value { result ≡ value_bytes value }
    ensures few { result ≤ 3 }
{
    match value {
        0 => 1,
        1..10 => 2,
        _ => 3,
    }
}

/// The number of bytes of values, with what follows each.
fn all_bytes(values: &[u16]) -> usize
    requires { length values.now ≤ 16 }
    ensures { result ≡ all_bytes values.now }
{
    let mut bytes = 0;
    for index in 0..values.len() {
        bytes += value_bytes(values[index]);
    }
    bytes
}

/// The changes, unless there are none or they take more bytes than `whole`.
fn shorter(changes: Option<Params>, whole: Params) -> Params
    ensures { result ≡ shorter (listed changes) whole }
{
    match changes {
        Some(changes) if all_bytes(changes.as_slice()) <= all_bytes(whole.as_slice()) => changes,
        _ => whole,
    }
}
