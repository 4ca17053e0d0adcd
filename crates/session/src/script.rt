//! Scripts of events, one a line.

ghost use Rattle.std.specs.Prelude.{◌≡◌, None, IfOk, IfSome, option_map};
ghost use Rattle.session_model.specs.Trace.{happening, Command, Keys, Open, Output};
ghost use Rattle.session.specs.Fields.{text_of, title_of};
ghost use Rattle.session.specs.Script.{event_in, event_of};
ghost use Rattle.session.specs.ReadBack.{ReadsTexts, ReadsEvents};

use crate::fields::{
    number_at, read_number, read_serial, read_text, read_title, read_window, serial_at,
};
use acl::UserId;
use line_fields::parts::user_at;
use line_fields::{EventKind, cut};
use session_model::Event;
use std::alloc::AllocError;

/// The event of a line; none if the line isn't understood. The event's text is put into `text`.
pub fn read_event<'a>(line: &[u8], text: &'a mut Vec<u8>) -> Result<Option<Event<'a>>, AllocError>
    ensures { IfOk result (λ event. option_map happening event ≡ event_of line.now) }
{
    let Some((word, rest)) = cut(line, b' ') else {
        return Ok(None);
    };
    let Some(kind) = EventKind::named(word) else {
        return Ok(None);
    };
    read_fields(kind, rest, text)
}

/// The event of a kind whose fields follow its word.
fn read_fields<'a>(
    kind: EventKind,
    rest: &[u8],
    text: &'a mut Vec<u8>,
) -> Result<Option<Event<'a>>, AllocError>
    ensures { IfOk result (λ event. option_map happening event ≡ event_in kind rest.now) }
{
    match kind {
        EventKind::Attach => Ok(read_attach(rest)),
        EventKind::Detach => Ok(read_detach(rest)),
        EventKind::Keys => read_keys(rest, text),
        EventKind::Command => read_command(rest, text),
        EventKind::Resize => Ok(read_resize(rest)),
        EventKind::Open => read_open(rest, text),
        EventKind::Output => read_output(rest, text),
        EventKind::Closed => Ok(read_closed(rest)),
        EventKind::Draw => Ok(read_draw(rest)),
    }
}

/// `USER ROWS COLS`
fn read_attach(rest: &[u8]) -> Option<Event<'static>>
    ensures { option_map happening result ≡ event_in EventKind.Attach rest.now }
{
    let (user, rest) = user_at(rest, b' ')?;
    let (rows, columns) = number_at(rest)?;
    Some(Event::Attach {
        user,
        rows,
        columns: read_number(columns)?,
    })
}

/// `C`
fn read_detach(rest: &[u8]) -> Option<Event<'static>>
    ensures { option_map happening result ≡ event_in EventKind.Detach rest.now }
{
    Some(Event::Detach {
        client: read_serial(rest)?,
    })
}

/// `C TEXT` or `W TEXT`
fn read_bytes<'a>(rest: &[u8], text: &'a mut Vec<u8>) -> Result<Option<(u32, &'a [u8])>, AllocError>
    ensures keys { IfOk result
        (λ read. option_map (λ p. Keys p.0 p.1.now) read ≡ event_in EventKind.Keys rest.now) }
    ensures output { IfOk result
        (λ read. option_map (λ p. Output p.0 p.1.now) read ≡ event_in EventKind.Output rest.now) }
{
    let Some((serial, escaped)) = serial_at(rest) else {
        return Ok(None);
    };
    let Some(bytes) = read_text(escaped, text)? else {
        return Ok(None);
    };
    Ok(Some((serial, bytes)))
}

/// `C TEXT`
fn read_keys<'a>(rest: &[u8], text: &'a mut Vec<u8>) -> Result<Option<Event<'a>>, AllocError>
    ensures { IfOk result (λ event. option_map happening event ≡ event_in EventKind.Keys rest.now) }
{
    let Some((client, bytes)) = read_bytes(rest, text)? else {
        return Ok(None);
    };
    Ok(Some(Event::Keys { client, bytes }))
}

/// The parts of `USER W TEXT`, the text escaped.
#[derive(Clone, Copy)]
struct Request<'a> {
    user: UserId,
    window: Option<u8>,
    line: &'a [u8],
}

impl<'a> Request<'a> {
    fn read(rest: &'a [u8]) -> Option<Request<'a>>
        ensures none { result ≡ None → event_in EventKind.Command rest.now ≡ None }
        ensures some { IfSome result (λ r. event_in EventKind.Command rest.now
            ≡ option_map (Command r.user r.window) (text_of r.line.now)) }
    {
        let (user, rest) = user_at(rest, b' ')?;
        let (window, line) = cut(rest, b' ')?;
        Some(Request {
            user,
            window: read_window(window)?,
            line,
        })
    }
}

/// `USER W TEXT`
fn read_command<'a>(rest: &[u8], text: &'a mut Vec<u8>) -> Result<Option<Event<'a>>, AllocError>
    ensures { IfOk result (λ event. option_map happening event ≡ event_in EventKind.Command rest.now) }
{
    let Some(request) = Request::read(rest) else {
        return Ok(None);
    };
    let Some(line) = read_text(request.line, text)? else {
        return Ok(None);
    };
    Ok(Some(Event::Command {
        user: request.user,
        window: request.window,
        line,
    }))
}

/// `C ROWS COLS`
fn read_resize(rest: &[u8]) -> Option<Event<'static>>
    ensures { option_map happening result ≡ event_in EventKind.Resize rest.now }
{
    let (client, rest) = serial_at(rest)?;
    let (rows, columns) = number_at(rest)?;
    Some(Event::Resize {
        client,
        rows,
        columns: read_number(columns)?,
    })
}

/// The parts of `USER ROWS COLS KEEP TEXT`, the text escaped.
#[derive(Clone, Copy)]
struct Opening<'a> {
    user: UserId,
    rows: u16,
    columns: u16,
    keep: u16,
    title: &'a [u8],
}

impl<'a> Opening<'a> {
    fn read(rest: &'a [u8]) -> Option<Opening<'a>>
        ensures none { result ≡ None → event_in EventKind.Open rest.now ≡ None }
        ensures some { IfSome result (λ o. event_in EventKind.Open rest.now
            ≡ option_map (Open o.user o.rows o.columns o.keep) (title_of o.title.now)) }
    {
        let (user, rest) = user_at(rest, b' ')?;
        let (rows, rest) = number_at(rest)?;
        let (columns, rest) = number_at(rest)?;
        let (keep, title) = number_at(rest)?;
        Some(Opening {
            user,
            rows,
            columns,
            keep,
            title,
        })
    }
}

/// `USER ROWS COLS KEEP TEXT`
fn read_open<'a>(rest: &[u8], text: &'a mut Vec<u8>) -> Result<Option<Event<'a>>, AllocError>
    ensures { IfOk result (λ event. option_map happening event ≡ event_in EventKind.Open rest.now) }
{
    let Some(opening) = Opening::read(rest) else {
        return Ok(None);
    };
    let Some(title) = read_title(opening.title, text)? else {
        return Ok(None);
    };
    Ok(Some(Event::Open {
        user: opening.user,
        rows: opening.rows,
        columns: opening.columns,
        keep: opening.keep,
        title,
    }))
}

/// `W TEXT`
fn read_output<'a>(rest: &[u8], text: &'a mut Vec<u8>) -> Result<Option<Event<'a>>, AllocError>
    ensures { IfOk result (λ event. option_map happening event ≡ event_in EventKind.Output rest.now) }
{
    let Some((window, bytes)) = read_bytes(rest, text)? else {
        return Ok(None);
    };
    Ok(Some(Event::Output { window, bytes }))
}

/// `W`
fn read_closed(rest: &[u8]) -> Option<Event<'static>>
    ensures { option_map happening result ≡ event_in EventKind.Closed rest.now }
{
    Some(Event::Closed {
        window: read_serial(rest)?,
    })
}

/// `C`
fn read_draw(rest: &[u8]) -> Option<Event<'static>>
    ensures { option_map happening result ≡ event_in EventKind.Draw rest.now }
{
    Some(Event::Draw {
        client: read_serial(rest)?,
    })
}

/// Laws of what is printed: a text is read as the same bytes, and an event's line as that event.
pub fn reads_printed()
    ensures texts { ReadsTexts }
    ensures events { ReadsEvents }
{}
