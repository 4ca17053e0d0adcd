//! A row of a page as runs of characters that look alike.

ghost use Rattle.std.specs.Prelude.{◌≡◌, ◌++◌, ◌<◌, ◌≤◌, ℕ, List, [], true, false, Some, decimal, OnOk, IfOk};
ghost use Rattle.std.specs.List.{flat_map};
ghost use Rattle.std.specs.String.{string_bytes};
ghost use Rattle.web_page.specs.Json.{spelled_text};
ghost use Rattle.web_page.specs.Runs.{Run, letters, run_head, after_cell, runs, spelled_runs, rest_of};
ghost use Rattle.web_page.specs.Styles.{flag, colour_value, rendition_value, style_value};
ghost use Rattle.web_page.specs.Updates.{next_number};

use crate::character::put_character;
use cells::{Cell, Colour, Marks, Rendition};
use itoa::Buffer;
use std::alloc::AllocError;

/// Stands in the style of a character of width 2, which is a run of its own.
const WIDE: u32 = 4096;

fn colour_value(colour: Colour) -> u32
    ensures value { result ≡ colour_value colour }
    ensures few { result ≤ 8 }
{
    match colour {
        Colour::Default => 0,
        Colour::Black => 1,
        Colour::Red => 2,
        Colour::Green => 3,
        Colour::Yellow => 4,
        Colour::Blue => 5,
        Colour::Magenta => 6,
        Colour::Cyan => 7,
        Colour::White => 8,
    }
}

fn flag(is_set: bool, value: u32) -> u32
    ensures value { result ≡ flag is_set value }
    ensures few { result ≤ value }
{
    if is_set { value } else { 0 }
}

#[tactic(auto, unfolding(crate::specs::Styles::rendition_value))]
fn rendition_value(rendition: Rendition) -> u32
    ensures value { result ≡ rendition_value rendition }
    ensures few { result < 4096 }
{
    flag(rendition.is_bold(), 1)
        + flag(rendition.is_underlined(), 2)
        + flag(rendition.is_blinking(), 4)
        + flag(rendition.is_reversed(), 8)
        + 16 * colour_value(rendition.fore())
        + 256 * colour_value(rendition.back())
}

/// The style of a cell: 1 for bold, 2 for underlined, 4 for blinking, 8 for reversed, 16 times the
/// number of its colour, 256 times that of its background, and 4096 for a character of width 2.
#[tactic(auto, unfolding(crate::specs::Styles::style_value))]
fn style_of(cell: &Cell) -> u32
    ensures { result ≡ style_value cell.now }
{
    rendition_value(cell.rendition()) + flag(cell.is_left(), WIDE)
}

/// Appends a number in decimal digits.
pub fn put_number(out: &mut String, number: u64) -> Result<(), AllocError>
    ensures { OnOk result (string_bytes out.new ≡ string_bytes out.old ++ decimal number) }
{
    let mut digits = Buffer::new();
    out.push_str(digits.format(number))
}

/// Appends a comma and a number.
fn put_next_number(out: &mut String, number: u64) -> Result<(), AllocError>
    ensures { OnOk result (string_bytes out.new ≡ string_bytes out.old ++ next_number number) }
{
    out.push_str(",")?;
    put_number(out, number)
}

/// Appends numbers, each after a comma.
pub fn put_numbers(out: &mut String, numbers: &[u64]) -> Result<(), AllocError>
    ensures { OnOk result (string_bytes out.new
        ≡ string_bytes out.old ++ flat_map next_number numbers.now) }
{
    for number in numbers {
        put_next_number(out, *number)?;
    }
    Ok(())
}

/// Appends the characters of a cell: its own, and its marks.
fn put_cell(out: &mut String, cell: &Cell) -> Result<(), AllocError>
    ensures { OnOk result (string_bytes out.new
        ≡ string_bytes out.old ++ spelled_text (letters cell.now)) }
{
    put_character(out, cell.character)?;
    match cell.marks() {
        Marks::Bare => Ok(()),
        Marks::One(mark) => put_character(out, mark),
        Marks::Two(first, second) => {
            put_character(out, first)?;
            put_character(out, second)
        }
    }
}

/// Begins a run of this style.
fn begin_run(out: &mut String, style: u32) -> Result<(), AllocError>
    ensures { OnOk result (string_bytes out.new ≡ string_bytes out.old ++ run_head style) }
{
    out.push_str(",")?;
    put_number(out, u64::from(style))?;
    out.push_str(",\"")
}

/// Closes the run that is open, if there is one.
fn close_run(out: &mut String, last: Option<u32>) -> Result<(), AllocError>
    ensures { OnOk result (string_bytes out.new ≡ string_bytes out.old ++ rest_of last []) }
{
    match last {
        Some(_) => {
            out.push_str("\"")?;
            Ok(())
        }
        None => Ok(()),
    }
}

/// Whether a cell of this style goes on with the run that is open.
fn goes_on(last: Option<u32>, style: u32) -> bool
    ensures yes { result ≡ true → (last ≡ Some style) × (style < 4096) }
    ensures no { result ≡ false → last ≡ Some style → 4096 ≤ style }
{
    match last {
        Some(open) => open == style && style < WIDE,
        None => false,
    }
}

/// Appends a cell after the run of style `last`, if there is one. Returns the style of the run that it
/// leaves open.
fn put_next(out: &mut String, last: Option<u32>, cell: &Cell) -> Result<Option<u32>, AllocError>
    ensures { IfOk result (λ next. (rs : List Run) → string_bytes out.new ++ rest_of next rs
        ≡ string_bytes out.old ++ rest_of last (after_cell cell.now rs)) }
{
    if cell.is_right() {
        return Ok(last);
    }
    let style = style_of(cell);
    if goes_on(last, style) {
        put_cell(out, cell)?;
        return Ok(last);
    }
    close_run(out, last)?;
    begin_run(out, style)?;
    put_cell(out, cell)?;
    Ok(Some(style))
}

/// Appends the runs of a row: for each of them its style and its text.
pub fn put_runs(out: &mut String, cells: &[Cell]) -> Result<(), AllocError>
    ensures { OnOk result (string_bytes out.new
        ≡ string_bytes out.old ++ spelled_runs (runs cells.now)) }
{
    let mut last = None;
    for cell in cells {
        last = put_next(out, last, cell)?;
    }
    close_run(out, last)?;
    Ok(())
}
