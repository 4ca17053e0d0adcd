//! The arguments of `mux`, and the first message that they make.

ghost use Rattle.std.specs.Prelude.{◌≡◌, ◌↔◌, IsTrue, IfErr, IfOk, IfSome, Err, None, Some, map};
ghost use Rattle.std.specs.String.{string_bytes};
ghost use Rattle.attach_proto.specs.declared.fault.WriteFault.TheVariants as fault;
ghost use Rattle.attach_proto.specs.declared.message.Message.TheVariants as message;
ghost use Rattle.clap.specs.Words.{found_of, subcommand_rows_of};
ghost use Rattle.client_words.specs.Asking.{AreAsked, AreFound, AreOf, AreRefused, IsNumberAt, again_name};
ghost use Rattle.client_words.specs.Asking.{subcommand_of, text_at};
ghost use Rattle.client_words.specs.Beginning.{first_message, IsFrameOf, HasNoFrame};
ghost use Rattle.client_words.specs.declared.arguments.Subcommand.TheVariants.{Attach, Window, Command, Ping};

use crate::scripts::tell_mistake;
use attach_proto::{Bytes, Message, Text, Token, WriteFault, write_message};
use clap::{ArgMatches, Error};
use program_words::of_client;
use std::alloc::{AllocError, Global};
use std::fmt;
use std::io::Write;

/// A runtime that understands the arguments of `mux`. Each relation is shown by a call of its function alone.
pub trait ClientHost: AllocGlobal {
    ghost use Rattle.std.specs.Prelude.{ℕ, IfErr, IfOk, List, map};
    ghost use Rattle.std.specs.String.{string_bytes};
    ghost use Rattle.clap.specs.Words.{kind_of};
    ghost use Rattle.clap.specs.declared.error.kind.ErrorKind.{ErrorKind};
    ghost use Rattle.clap.specs.declared.parser.matches.ArgMatches.{ArgMatches as Matches};

    // The arguments, and what they were understood as.
    ghost means: { Self → List (List ℕ) → Matches → Type 0 };
    // The arguments, and why they aren't understood.
    ghost refuses: { Self → List (List ℕ) → ErrorKind → Type 0 };

    /// The arguments as they were understood; the first one is the program's name.
    fn matches_of<'a>(&self, words: &'a [String]) -> Result<ArgMatches<'a>, Error>
        ensures ok { IfOk result (means self.now (map string_bytes words.entry.now)) }
        ensures err { IfErr result (λ error. refuses self.now (map string_bytes words.entry.now) (kind_of error)) };
}

impl<R: AllocGlobal> ClientHost for R {
    // Which arguments are understood, no clause can say.
    ghost means = { λ host words matches. Unit {0} };

    ghost refuses = { λ host words kind. Unit {0} };

    fn matches_of<'a>(&self, words: &'a [String]) -> Result<ArgMatches<'a>, Error> {
        of_client(self.alloc(), words)
    }
}

/// What a peer is to the server.
#[derive(Clone, Copy)]
pub enum Subcommand {
    Attach,
    Window,
    Command,
    /// No peer: `mux` only asks whether the server answers.
    Ping,
}

impl Subcommand {
    fn of(name: &str) -> Subcommand
        ensures { result ≡ subcommand_of name.now }
    {
        match name {
            "attach" => Subcommand::Attach,
            "window" => Subcommand::Window,
            "ping" => Subcommand::Ping,
            _ => Subcommand::Command,
        }
    }

    // The argument that says for how long a peer tries to come back.
    fn again_name(self) -> &'static str
        ensures { result.now ≡ again_name self }
    {
        match self {
            Subcommand::Window => "stay",
            _ => "again",
        }
    }

    pub fn is_attach(self) -> bool
        ensures { IsTrue result ↔ (self ≡ Attach) }
    {
        matches!(self, Subcommand::Attach)
    }

    pub fn is_window(self) -> bool
        ensures { IsTrue result ↔ (self ≡ Window) }
    {
        matches!(self, Subcommand::Window)
    }

    pub fn is_command(self) -> bool
        ensures { IsTrue result ↔ (self ≡ Command) }
    {
        matches!(self, Subcommand::Command)
    }

    pub fn is_ping(self) -> bool
        ensures { IsTrue result ↔ (self ≡ Ping) }
    {
        matches!(self, Subcommand::Ping)
    }
}

/// The values of the arguments. One that the subcommand doesn't take is 0, empty or none.
#[derive(Clone, Copy)]
pub struct Arguments<'a> {
    pub subcommand: Subcommand,
    pub socket: &'a str,
    /// The user's name.
    pub user: &'a str,
    /// The path of the token's file.
    pub token: &'a str,
    pub rows: u16,
    pub columns: u16,
    /// The path of the sizes' file.
    pub sizes: Option<&'a str>,
    /// Whether a good end is reported, too.
    pub why: bool,
    /// The byte of the input by which the user leaves.
    pub leave: Option<u8>,
    /// Whether a window follows the terminal's size.
    pub fit: bool,
    /// Whether the client has keys and texts of its own.
    pub assist: bool,
    /// For how many seconds a client or a window tries to come back.
    pub again: u16,
    /// How many seconds an answer may take; 0 is without limit.
    pub wait: u16,
    pub title: &'a str,
    pub keep: u16,
    pub window: Option<u8>,
    pub line: &'a str,
}

fn text<'a>(matches: &ArgMatches<'a>, name: &str) -> &'a str
    ensures { result.now ≡ text_at (found_of matches.now) name.now }
{
    matches.get_str(name).unwrap_or("")
}

fn number(matches: &ArgMatches, name: &str) -> u16
    ensures { IsNumberAt (found_of matches.now) name.now result }
{
    matches.get_one::<u16>(name).unwrap_or(0)
}

impl<'a> Arguments<'a> {
    // Whatever the subcommand needs is there: without it there would be no matches.
    fn of_subcommand(subcommand: Subcommand, matches: &ArgMatches<'a>) -> Arguments<'a>
        ensures { AreOf subcommand (found_of matches.now) result }
    {
        Arguments {
            subcommand,
            socket: text(matches, "socket"),
            user: text(matches, "user"),
            token: text(matches, "token"),
            rows: number(matches, "rows"),
            columns: number(matches, "cols"),
            sizes: matches.get_str("sizes"),
            why: matches.get_flag("why"),
            leave: matches.get_one::<u8>("leave"),
            fit: matches.get_flag("fit"),
            assist: matches.get_flag("assist"),
            again: number(matches, subcommand.again_name()),
            wait: number(matches, "wait"),
            title: text(matches, "title"),
            keep: number(matches, "keep"),
            window: matches.get_one::<u8>("window"),
            line: text(matches, "line"),
        }
    }

    /// None if no subcommand is named.
    fn of(matches: &ArgMatches<'a>) -> Option<Arguments<'a>>
        ensures some { IfSome result (AreFound matches.now) }
        ensures none { result ≡ None → subcommand_rows_of matches.now ≡ None }
    {
        let (name, matches) = matches.subcommand()?;
        Some(Arguments::of_subcommand(Subcommand::of(name), matches))
    }

    fn attach(&self, token: Token, name: Text) -> Message
        ensures { result ≡ message.Attach self.now.rows self.now.columns token name }
    {
        Message::Attach {
            rows: self.rows,
            columns: self.columns,
            token,
            name,
        }
    }

    fn window(&self, token: Token, name: Text, title: Text) -> Message
        ensures { result ≡ message.Window self.now.rows self.now.columns self.now.keep token name title }
    {
        Message::Window {
            rows: self.rows,
            columns: self.columns,
            keep: self.keep,
            token,
            name,
            title,
        }
    }

    fn command(&self, token: Token, name: Text, line: Bytes) -> Message
        ensures { result ≡ message.Command self.now.window token name line }
    {
        Message::Command {
            window: self.window,
            token,
            name,
            line,
        }
    }

    /// The user and the socket.
    pub fn place(&self) -> PeerPlace<'a>
        ensures { result ≡ record { user = self.now.user; socket = self.now.socket } }
    {
        PeerPlace {
            user: self.user,
            socket: self.socket,
        }
    }

    // The first message, with this token. None for a ping.
    fn first(&self, alloc: Global, token: Token) -> Result<Option<Message>, AllocError>
        ensures { IfOk result (λ made. made ≡ first_message self.now token) }
    {
        let name = Text::of(alloc, self.user)?;
        Ok(Some(match self.subcommand {
            Subcommand::Attach => self.attach(token, name),
            Subcommand::Window => self.window(token, name, Text::of(alloc, self.title)?),
            Subcommand::Command => self.command(
                token,
                name,
                Bytes::of(alloc, self.line.as_bytes())?,
            ),
            Subcommand::Ping => return Ok(None),
        }))
    }

    /// The frame of the first message, with this token. Empty if there is no such message; `Unspellable`
    /// if no frame is long enough for the arguments.
    pub fn first_frame(&self, alloc: Global, token: Token) -> Result<Vec<u8>, WriteFault>
        ensures ok { IfOk result (λ frame. IsFrameOf (first_message self.now token) frame.items) }
        ensures unspellable { result ≡ Err fault.Unspellable
            → HasNoFrame (first_message self.now token) }
    {
        match self.first(alloc, token) {
            Ok(Some(message)) => frame_of(alloc, &message),
            Ok(None) => Ok(Vec::new(alloc)),
            Err(error) => Err(WriteFault::from(error)),
        }
    }
}

/// Where a peer is, as messages name it: `USER at SOCKET`, or the socket alone for a ping.
#[derive(Clone, Copy)]
pub struct PeerPlace<'a> {
    user: &'a str,
    socket: &'a str,
}

impl fmt::Display for PeerPlace<'_> {
    fn fmt<W: fmt::Write>(&self, f: &mut fmt::Formatter<W>) -> fmt::Result {
        let PeerPlace { user, socket } = *self;
        if user.is_empty() {
            return f.write_str(socket);
        }
        write!(f, "{user} at {socket}")
    }
}

/// The frame of a message. `Unspellable` if no frame is long enough.
pub fn frame_of(alloc: Global, message: &Message) -> Result<Vec<u8>, WriteFault>
    ensures ok { IfOk result (λ frame. IsFrameOf (Some message.now) frame.items) }
    ensures unspellable { result ≡ Err fault.Unspellable → HasNoFrame (Some message.now) }
{
    let mut frame = Vec::new(alloc);
    write_message(alloc, message, &mut frame)?;
    Ok(frame)
}

/// The values of the arguments, which begin with the program's name. If they are invalid, writes why and
/// returns the exit status.
pub fn arguments_of<'a, R: ClientHost, O: Write, E: Write>(
    rt: &R,
    words: &'a [String],
    output: &mut O,
    errors: &mut E,
) -> Result<Arguments<'a>, u8>
    ensures ok { IfOk result (AreAsked (R.means rt.now) (map string_bytes words.entry.now)) }
    ensures err { IfErr result (AreRefused (R.means rt.now) (R.refuses rt.now) (map string_bytes words.entry.now)) }
{
    match rt.matches_of(words) {
        Ok(matches) => Arguments::of(&matches).ok_or(2),
        Err(error) => Err(tell_mistake(rt.alloc(), &error, words, output, errors)),
    }
}
