//! The messages, and how the payload of each is read and written.

ghost use Rattle.std.specs.Prelude.{◌≡◌, ◌++◌, ◌<◌, OnOk, OnErr, true, false, length, option_map};
ghost use Rattle.attach_proto.specs.Fields.{named, two};
ghost use Rattle.attach_proto.specs.Texts.{Gives};
ghost use Rattle.attach_proto.specs.Spelling.{kind_of, payload, HasFields};
ghost use Rattle.attach_proto.specs.Reading.{message_of};
ghost use Rattle.attach_proto.specs.Table.{draw_in, noted, TakesMemory};
ghost use Rattle.attach_proto.specs.declared.message.Message.TheVariants as message;

use crate::fault::Unread;
use crate::fields::{
    end_of, is_short, is_some, is_text, is_token, is_window, name_at, one_at, put_bytes, put_name,
    put_size, put_text, put_token, put_two, some_of, text_of, token_at, two_at, why_at, window_at,
    window_byte,
};
use crate::kind::Kind;
use crate::token::Token;
use crate::why::{Told, Why};
use std::alloc::{AllocError, Global};
use strings::{Bytes, Text};

// No `==`: texts and bytes have capacities that no contract sees, and a comparison can be derived only
// for types whose contract value determines all fields.
/// What one frame says.
#[derive(Debug, Drop)]
pub enum Message {
    /// A client begins, on a terminal of this size.
    Attach {
        rows: u16,
        columns: u16,
        token: Token,
        name: Text,
    },
    /// A window begins.
    Window {
        rows: u16,
        columns: u16,
        keep: u16,
        token: Token,
        name: Text,
        title: Text,
    },
    /// One command line, for the window of this number or for none.
    Command {
        window: Option<u8>,
        token: Token,
        name: Text,
        line: Bytes,
    },
    /// Bytes that a client's user typed.
    Keys(Bytes),
    /// A client's terminal has this size now.
    Resize {
        rows: u16,
        columns: u16,
    },
    /// Bytes that a window's program wrote.
    Output(Bytes),
    /// A client or a window ends.
    Detach,
    /// The number of a window that began; 0 for a client or a command.
    Welcome(u8),
    /// Bytes for a client's terminal.
    Draw(Bytes),
    /// Bytes for a window's program.
    Input(Bytes),
    /// A text for the user of a peer.
    Say(Text),
    /// A window has this size now.
    Size {
        rows: u16,
        columns: u16,
    },
    /// The server lets the peer go.
    Gone(Why),
}

impl Message {
    /// The kind of the message's frame.
    pub fn kind(&self) -> Kind
        ensures { result ≡ kind_of self.now }
    {
        match self {
            Message::Attach { .. } => Kind::Attach,
            Message::Window { .. } => Kind::Window,
            Message::Command { .. } => Kind::Command,
            Message::Keys(_) => Kind::Keys,
            Message::Resize { .. } => Kind::Resize,
            Message::Output(_) => Kind::Output,
            Message::Detach => Kind::Detach,
            Message::Welcome(_) => Kind::Welcome,
            Message::Draw(_) => Kind::Draw,
            Message::Input(_) => Kind::Input,
            Message::Say(_) => Kind::Say,
            Message::Size { .. } => Kind::Size,
            Message::Gone(_) => Kind::Gone,
        }
    }

    /// The bytes for a client's terminal, if it has any.
    pub fn draw(&self) -> Option<&Bytes>
        ensures { option_map (λ bytes. bytes.now) result ≡ draw_in self.now }
    {
        match self {
            Message::Draw(bytes) => Some(bytes),
            _ => None,
        }
    }
}

impl Told {
    /// Notes what a message tells. A text is noted until the peer is let in.
    pub fn note(&mut self, alloc: Global, message: &Message) -> Result<(), AllocError>
        ensures ok { OnOk result (self.new ≡ noted self.old message.now) }
        ensures err { OnErr result (self.new ≡ self.old) }
        ensures memory { OnErr result (TakesMemory self.old message.now) }
    {
        match message {
            Message::Welcome(_) => self.is_welcome = true,
            Message::Say(text) if !self.is_welcome => {
                self.refusal = Some(Text::of(alloc, text.as_str())?);
            }
            Message::Gone(why) => self.gone = Some(*why),
            _ => {}
        }
        Ok(())
    }
}

#[tactic(auto, unfolding(crate::specs::Reading::message_of))]
fn attach_of(alloc: Global, bytes: &[u8]) -> Result<Message, Unread>
    ensures { Gives (λ m. m) result (message_of Kind.Attach bytes.now) }
{
    let (rows, rest) = two_at(bytes)?;
    let (columns, rest) = two_at(rest)?;
    let (token, rest) = token_at(rest)?;
    let name = text_of(alloc, rest)?;
    Ok(Message::Attach {
        rows,
        columns,
        token,
        name,
    })
}

#[tactic(auto, unfolding(crate::specs::Reading::message_of))]
fn window_frame_of(alloc: Global, bytes: &[u8]) -> Result<Message, Unread>
    ensures { Gives (λ m. m) result (message_of Kind.Window bytes.now) }
{
    let (rows, rest) = two_at(bytes)?;
    let (columns, rest) = two_at(rest)?;
    let (keep, rest) = two_at(rest)?;
    let (token, rest) = token_at(rest)?;
    let (name, rest) = name_at(alloc, rest)?;
    let title = text_of(alloc, rest)?;
    Ok(Message::Window {
        rows,
        columns,
        keep,
        token,
        name,
        title,
    })
}

#[tactic(auto, unfolding(crate::specs::Reading::message_of))]
fn command_of(alloc: Global, bytes: &[u8]) -> Result<Message, Unread>
    ensures { Gives (λ m. m) result (message_of Kind.Command bytes.now) }
{
    let (window, rest) = window_at(bytes)?;
    let (token, rest) = token_at(rest)?;
    let (name, rest) = name_at(alloc, rest)?;
    let line = Bytes::of(alloc, rest)?;
    Ok(Message::Command {
        window,
        token,
        name,
        line,
    })
}

#[tactic(auto, unfolding(crate::specs::Reading::message_of))]
fn welcome_of(bytes: &[u8]) -> Result<Message, Unread>
    ensures { Gives (λ m. m) result (message_of Kind.Welcome bytes.now) }
{
    let (number, rest) = one_at(bytes)?;
    end_of(rest)?;
    Ok(Message::Welcome(number))
}

// The lines and columns of a frame that says nothing else.
#[tactic(auto, unfolding(crate::specs::Reading::message_of))]
fn size_of(bytes: &[u8]) -> Result<(u16, u16), Unread>
    ensures resize { Gives (λ x. message.Resize x.0 x.1) result (message_of Kind.Resize bytes.now) }
    ensures size { Gives (λ x. message.Size x.0 x.1) result (message_of Kind.Size bytes.now) }
{
    let (rows, rest) = two_at(bytes)?;
    let (columns, rest) = two_at(rest)?;
    end_of(rest)?;
    Ok((rows, columns))
}

#[tactic(auto, unfolding(crate::specs::Reading::message_of))]
fn gone_of(bytes: &[u8]) -> Result<Message, Unread>
    ensures { Gives (λ m. m) result (message_of Kind.Gone bytes.now) }
{
    let (why, rest) = why_at(bytes)?;
    end_of(rest)?;
    Ok(Message::Gone(why))
}

/// The message of a frame of this kind with this payload.
#[tactic(auto, unfolding(crate::specs::Reading::message_of))]
pub fn message_of(alloc: Global, kind: Kind, bytes: &[u8]) -> Result<Message, Unread>
    ensures { Gives (λ m. m) result (message_of kind bytes.now) }
{
    match kind {
        Kind::Attach => attach_of(alloc, bytes),
        Kind::Window => window_frame_of(alloc, bytes),
        Kind::Command => command_of(alloc, bytes),
        Kind::Keys => Ok(Message::Keys(some_of(alloc, bytes)?)),
        Kind::Resize => {
            let (rows, columns) = size_of(bytes)?;
            Ok(Message::Resize { rows, columns })
        }
        Kind::Output => Ok(Message::Output(some_of(alloc, bytes)?)),
        Kind::Detach => {
            end_of(bytes)?;
            Ok(Message::Detach)
        }
        Kind::Welcome => welcome_of(bytes),
        Kind::Draw => Ok(Message::Draw(some_of(alloc, bytes)?)),
        Kind::Input => Ok(Message::Input(some_of(alloc, bytes)?)),
        Kind::Say => Ok(Message::Say(text_of(alloc, bytes)?)),
        Kind::Size => {
            let (rows, columns) = size_of(bytes)?;
            Ok(Message::Size { rows, columns })
        }
        Kind::Gone => gone_of(bytes),
    }
}

/// Whether the message's fields have a spelling.
pub fn has_fields(message: &Message) -> bool
    ensures yes { result ≡ true → HasFields message.now }
    ensures otherwise { result ≡ false → HasFields message.now → ⊥ }
{
    match message {
        Message::Attach { token, name, .. } => is_token(token) && is_text(name),
        Message::Window {
            token,
            name,
            title,
            ..
        } => { is_token(token) && is_text(name) && is_text(title) && is_short(name) }
        Message::Command {
            window,
            token,
            name,
            ..
        } => { is_token(token) && is_text(name) && is_short(name) && is_window(*window) }
        Message::Keys(bytes) => is_some(bytes),
        Message::Output(bytes) => is_some(bytes),
        Message::Draw(bytes) => is_some(bytes),
        Message::Input(bytes) => is_some(bytes),
        Message::Say(text) => is_text(text),
        Message::Resize { .. } => true,
        Message::Detach => true,
        Message::Welcome(_) => true,
        Message::Size { .. } => true,
        Message::Gone(_) => true,
    }
}

fn put_attach(
    out: &mut Vec<u8>,
    rows: u16,
    columns: u16,
    token: &Token,
    name: &Text,
) -> Result<(), AllocError>
    ensures { OnOk result (out.new.items
        ≡ out.old.items ++ payload (message.Attach rows columns token.now name.now)) }
{
    put_size(out, rows, columns)?;
    put_token(out, token)?;
    put_text(out, name)
}

// Appends what follows the size in the payload of WINDOW.
fn put_window(
    out: &mut Vec<u8>,
    keep: u16,
    token: &Token,
    name: &Text,
    title: &Text,
) -> Result<(), AllocError>
    requires { length name.now < 256 }
    ensures { OnOk result (out.new.items
        ≡ out.old.items ++ (two keep ++ (token.now ++ (named name.now ++ title.now)))) }
{
    put_two(out, keep)?;
    put_token(out, token)?;
    put_name(out, name)?;
    put_text(out, title)
}

fn put_command(
    out: &mut Vec<u8>,
    window: Option<u8>,
    token: &Token,
    name: &Text,
    line: &Bytes,
) -> Result<(), AllocError>
    requires { length name.now < 256 }
    ensures { OnOk result (out.new.items
        ≡ out.old.items ++ payload (message.Command window token.now name.now line.now)) }
{
    out.push(window_byte(window))?;
    put_token(out, token)?;
    put_name(out, name)?;
    put_bytes(out, line)
}

/// Appends the payload of the message.
pub fn put_payload(out: &mut Vec<u8>, message: &Message) -> Result<(), AllocError>
    requires { HasFields message.now }
    ensures { OnOk result (out.new.items ≡ out.old.items ++ payload message.now) }
{
    match message {
        Message::Attach {
            rows,
            columns,
            token,
            name,
        } => put_attach(out, *rows, *columns, token, name)?,
        Message::Window {
            rows,
            columns,
            keep,
            token,
            name,
            title,
        } => {
            put_size(out, *rows, *columns)?;
            put_window(out, *keep, token, name, title)?;
        }
        Message::Command {
            window,
            token,
            name,
            line,
        } => put_command(out, *window, token, name, line)?,
        Message::Keys(bytes) => put_bytes(out, bytes)?,
        Message::Output(bytes) => put_bytes(out, bytes)?,
        Message::Draw(bytes) => put_bytes(out, bytes)?,
        Message::Input(bytes) => put_bytes(out, bytes)?,
        Message::Say(text) => put_text(out, text)?,
        Message::Resize { rows, columns } => put_size(out, *rows, *columns)?,
        Message::Size { rows, columns } => put_size(out, *rows, *columns)?,
        Message::Detach => {}
        Message::Welcome(number) => out.push(*number)?,
        Message::Gone(why) => out.push(why.number())?,
    }
    Ok(())
}
