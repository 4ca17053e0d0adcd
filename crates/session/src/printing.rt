//! Lines that the simulator prints.

ghost use Rattle.std.specs.Prelude.{◌≡◌, ◌++◌, OnOk, OnErr, codes};
ghost use Rattle.std.specs.String.{string_bytes};
ghost use Rattle.session_model.specs.Texts.{text_of};
ghost use Rattle.session_model.specs.Trace.{happening};
ghost use Rattle.view.specs.View.{place_of};
ghost use Rattle.line_fields.specs.Texts.{is_plain, escape};
ghost use Rattle.session.specs.Printed.{escaped, line, number_of_reason, gone_line, effect_line, text_line, done_line};
ghost use Rattle.session.specs.Printed.{reply_line, cell_text, row_line, cursor_line, view_lines};

use cells::{Cell, Marks};
use session_model::{Bytes, Done, Effect, Event, Peer, Reason, Refusal, Reply};
use std::alloc::AllocError;
use view::{Cursor, View};

/// Appends the line of an effect. After an `Err` nothing has changed.
pub fn print_effect(effect: &Effect, out: &mut String) -> Result<(), AllocError>
    ensures ok { OnOk result (string_bytes out.new
        ≡ string_bytes out.old ++ effect_line effect.now) }
    ensures err { OnErr result (string_bytes out.new ≡ string_bytes out.old) }
{
    let mut made = String::new(*out.allocator());
    push_effect(effect, &mut made)?;
    out.push_str(&made)
}

/// Appends the line of an event's reply. After an `Err` nothing has changed.
pub fn print_reply(event: &Event, reply: &Reply, out: &mut String) -> Result<(), AllocError>
    ensures ok { OnOk result (string_bytes out.new
        ≡ string_bytes out.old ++ reply_line (happening event.now) reply.now) }
    ensures err { OnErr result (string_bytes out.new ≡ string_bytes out.old) }
{
    let mut made = String::new(*out.allocator());
    push_reply(event, reply, &mut made)?;
    out.push_str(&made)
}

/// Appends the rows of a client's view, without renditions, and its cursor. After an `Err` nothing
/// has changed.
pub fn print_view(client: u32, view: &View, out: &mut String) -> Result<(), AllocError>
    ensures ok { OnOk result (string_bytes out.new
        ≡ string_bytes out.old ++ view_lines client view.now) }
    ensures err { OnErr result (string_bytes out.new ≡ string_bytes out.old) }
{
    let mut made = String::new(*out.allocator());
    push_view(client, view, &mut made)?;
    out.push_str(&made)
}

/// Appends the line of an effect.
fn push_effect(effect: &Effect, out: &mut String) -> Result<(), AllocError>
    ensures { OnOk result (string_bytes out.new ≡ string_bytes out.old ++ effect_line effect.now) }
{
    match effect {
        Effect::Input(window, bytes) => {
            write!(out, "input {window} ")?;
            push_text(bytes.as_slice(), out)
        }
        Effect::Deliver(client, bytes) => {
            write!(out, "deliver {client} ")?;
            push_text(bytes.as_slice(), out)
        }
        Effect::Say(client, bytes) => {
            write!(out, "say {client} ")?;
            push_text(bytes.as_slice(), out)
        }
        Effect::Size(window, rows, columns) => writeln!(out, "size {window} {rows} {columns}"),
        Effect::Gone(peer, why) => match peer {
            Peer::Window(window) => push_gone("window", *window, *why, out),
            Peer::Client(client) => push_gone("client", *client, *why, out),
        },
    }
}

/// Appends the line of a peer that goes.
fn push_gone(peer: &str, serial: u32, why: Reason, out: &mut String) -> Result<(), AllocError>
    ensures { OnOk result (string_bytes out.new
        ≡ string_bytes out.old ++ gone_line peer.now serial why) }
{
    let number = number_of_reason(why);
    writeln!(out, "gone {peer} {serial} {number}")
}

/// The number of a reason, 0 to 4.
fn number_of_reason(why: Reason) -> u8
    ensures { result ≡ number_of_reason why }
{
    match why {
        Reason::Detached => 0,
        Reason::Removed => 1,
        Reason::SingleUser => 2,
        Reason::Killed => 3,
        Reason::Quit => 4,
    }
}

/// Appends the line of an event's reply.
fn push_reply(event: &Event, reply: &Reply, out: &mut String) -> Result<(), AllocError>
    ensures { OnOk result (string_bytes out.new
        ≡ string_bytes out.old ++ reply_line (happening event.now) reply.now) }
{
    match reply {
        Ok(done) => push_done(event, done, out),
        Err(refusal) => push_refusal(refusal, out),
    }
}

/// Appends the line of a refusal.
fn push_refusal(refusal: &Refusal, out: &mut String) -> Result<(), AllocError>
    ensures { OnOk result (string_bytes out.new
        ≡ string_bytes out.old ++ line (codes "refused " ++ escaped (text_of refusal.now))) }
{
    let mut text = Vec::new(*out.allocator());
    refusal.text(&mut text)?;
    out.push_str("refused ")?;
    push_text(&text, out)
}

/// Appends the line of what was done for an event.
fn push_done(event: &Event, done: &Done, out: &mut String) -> Result<(), AllocError>
    ensures { OnOk result (string_bytes out.new
        ≡ string_bytes out.old ++ done_line (happening event.now) done.now) }
{
    let made = done.made;
    let number = done.number;
    match event {
        Event::Attach { .. } => writeln!(out, "attached {made}"),
        Event::Open { .. } => writeln!(out, "opened {made} {number}"),
        _ => push_listed(&done.text, out),
    }
}

/// Appends the line of what a command lists, if it lists something.
fn push_listed(text: &Option<Bytes>, out: &mut String) -> Result<(), AllocError>
    ensures { OnOk result (string_bytes out.new ≡ string_bytes out.old ++ text_line text.now) }
{
    match text {
        None => out.push_str("ok\n"),
        Some(text) => {
            out.push_str("text ")?;
            push_text(text.as_slice(), out)
        }
    }
}

/// Appends a text, escaped, and the line's end.
fn push_text(bytes: &[u8], out: &mut String) -> Result<(), AllocError>
    ensures { OnOk result (string_bytes out.new
        ≡ string_bytes out.old ++ line (escaped bytes.now)) }
{
    for byte in bytes {
        push_byte(*byte, out)?;
    }
    out.push('\n')
}

/// Whether a byte stands for itself: 20 to 7E do, except the backslash.
fn is_plain(byte: u8) -> bool
    ensures { result ≡ is_plain 0x20 byte }
{
    (0x20..0x7F).contains(&byte) && byte != b'\\'
}

/// Appends a byte as itself, or as a backslash and two hexadecimal digits.
fn push_byte(byte: u8, out: &mut String) -> Result<(), AllocError>
    ensures { OnOk result (string_bytes out.new ≡ string_bytes out.old ++ escape 0x20 byte) }
{
    if is_plain(byte) {
        return out.push(char::from(byte));
    }
    write!(out, "\\{byte:02x}")
}

/// Appends the rows of a client's view, and its cursor.
fn push_view(client: u32, view: &View, out: &mut String) -> Result<(), AllocError>
    ensures { OnOk result (string_bytes out.new
        ≡ string_bytes out.old ++ view_lines client view.now) }
{
    writeln!(out, "client {client}")?;
    'rows: for line in 0..view.rows() {
        push_row(view.row(line), out)?;
    }
    push_cursor(view.cursor(), out)
}

/// Appends a row's cells between bars.
fn push_row(row: &[Cell], out: &mut String) -> Result<(), AllocError>
    ensures { OnOk result (string_bytes out.new ≡ string_bytes out.old ++ row_line row.now) }
{
    out.push('|')?;
    for cell in row {
        push_cell(cell, out)?;
    }
    out.push_str("|\n")
}

/// Appends a cell's character with its marks. The right half of a wide character adds nothing.
fn push_cell(cell: &Cell, out: &mut String) -> Result<(), AllocError>
    ensures { OnOk result (string_bytes out.new ≡ string_bytes out.old ++ cell_text cell.now) }
{
    if cell.is_right() {
        return Ok(());
    }
    out.push(cell.character)?;
    match cell.marks() {
        Marks::Bare => Ok(()),
        Marks::One(mark) => out.push(mark),
        Marks::Two(first, second) => {
            out.push(first)?;
            out.push(second)
        }
    }
}

/// Appends the line of a cursor, whose line and column are counted from 1.
fn push_cursor(cursor: Cursor, out: &mut String) -> Result<(), AllocError>
    ensures { OnOk result (string_bytes out.new
        ≡ string_bytes out.old ++ cursor_line (place_of cursor)) }
{
    match cursor {
        Cursor::Hidden => out.push_str("cursor hidden\n"),
        Cursor::At { line, column } => {
            let line = u32::from(line) + 1;
            let column = u32::from(column) + 1;
            writeln!(out, "cursor {line} {column}")
        }
    }
}
