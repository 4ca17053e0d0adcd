//! Connections: of browsers, over an address of this machine or a socket that a web server connects to, and of clients
//! to the server.

ghost use Rattle.std.specs.Prelude.{◌≡◌, ◌+◌, ◌-◌, ◌^◌, min};
ghost use Rattle.web_streams.specs.Tokens.{IsAccepted, IsTokenOf, woken};
ghost use Rattle.web_streams.specs.declared.connections.Woken.{Woken};

use either::{Either, Left, Right};
use mio::net::{TcpListener, TcpStream, UnixListener, UnixStream};
use mio::{Interest, Registry, Token};
use std::io;
use std::io::ErrorKind;
use std::net::Net;
use std::time::Duration;
use web_requests::{Loopback, Site};

/// What an event is for: a listener of this number; a browser, or the own client of a browser, at this place; a hall.
#[derive(Clone, Copy, Debug, PartialEq, Eq)]
pub enum Woken {
    Listener(usize),
    Browser(usize),
    Server(usize),
    Hall(usize),
}

/// What the event of a token is for.
pub fn woken_by(token: Token) -> Woken
    ensures { result ≡ woken token.0 }
{
    let place = token.0 / 4;
    match token.0 % 4 {
        0 => Woken::Listener(place),
        1 => Woken::Browser(place),
        2 => Woken::Server(place),
        _ => Woken::Hall(place),
    }
}

/// The token of the listener of this number.
pub fn listener_token(number: usize) -> Token
    ensures { IsTokenOf Woken.Listener number result.0 }
{
    Token(number.saturating_mul(4))
}

/// The token of the browser at this place.
pub fn browser_token(place: usize) -> Token
    ensures { IsTokenOf Woken.Browser place result.0 }
{
    Token(place.saturating_mul(4).saturating_add(1))
}

/// The token of the own client of the browser at this place.
pub fn server_token(place: usize) -> Token
    ensures { IsTokenOf Woken.Server place result.0 }
{
    Token(place.saturating_mul(4).saturating_add(2))
}

/// The token of the hall at this place.
pub fn hall_token(place: usize) -> Token
    ensures { IsTokenOf Woken.Hall place result.0 }
{
    Token(place.saturating_mul(4).saturating_add(3))
}

/// What all connections of a bridge use in a turn.
#[derive(Clone, Copy)]
pub struct BridgeContext<'a> {
    pub registry: &'a Registry,
    pub site: &'a Site,
    /// The server's socket.
    pub socket: &'a str,
    pub now: Duration,
}

/// Where browsers come in.
#[derive(Drop)]
pub enum WebListener {
    Tcp(TcpListener),
    Unix(UnixListener),
}

/// A connection. It reads and writes as `Either` does, whose contract holds for all streams: a call of one of these two
/// kinds shows nothing of its bytes.
pub type Stream = Either<TcpStream, UnixStream>;

impl WebListener {
    /// Waits for connections.
    pub fn register(&mut self, registry: &Registry, token: Token) -> io::Result<()>
        ensures { self.new ≡ self.old }
    {
        match self {
            WebListener::Tcp(it) => registry.register(it, token, Interest::READABLE),
            WebListener::Unix(it) => registry.register(it, token, Interest::READABLE),
        }
    }
}

/// What opens listeners. Its relation is shown by a call alone.
pub trait OpensListeners {
    ghost use Rattle.std.specs.Prelude.{Result};
    ghost use Rattle.std.specs.declared.io.Error.{Error};
    ghost use Rattle.std.specs.declared.net.socket_addr.SocketAddr.{SocketAddr as Address};
    ghost use Rattle.web_streams.specs.declared.connections.WebListener.{WebListener as Door};

    // An address, and the listener there, or why none was opened.
    ghost opens: { Self → Address → Result Door Error → Type 0 };

    /// Listens on an address of this machine.
    fn open_listener(&self, address: Loopback) -> io::Result<WebListener>
        ensures { opens self.now address result };
}

impl<R: Net> OpensListeners for R {
    ghost opens = { λ host address opened. Unit {0} };

    fn open_listener(&self, address: Loopback) -> io::Result<WebListener> {
        Ok(WebListener::Tcp(TcpListener::bind(self, address.address())?))
    }
}

/// What came of asking a listener.
#[derive(Drop)]
pub enum Accepted<S> {
    Came(S),
    /// Nobody waits.
    Nothing,
    /// The system didn't hand over one who waits: it is to be asked again.
    Refused,
}

/// How often listeners were asked. Each call of `come` counts, so that no answer can be left out.
#[derive(Drop)]
pub struct Asked {
    times: u64,
}

impl Asked {
    /// None was asked yet.
    pub fn new() -> Asked {
        Asked { times: 0 }
    }
}

/// A connection that a bridge makes or takes. Each relation is shown by a call of its function alone.
pub trait BridgeStream {
    ghost use Rattle.std.specs.Prelude.{◌≡◌, ⊤, ℕ, List, Option, Result};
    ghost use Rattle.std.specs.declared.io.Error.{Error};
    ghost use Rattle.web_streams.specs.declared.connections.Accepted.{Accepted as Came};
    ghost use Rattle.web_streams.specs.declared.connections.Asked.{Asked as Times};
    ghost use Rattle.web_streams.specs.declared.connections.WebListener.{WebListener as Door};

    // A socket's path, the token of a connection to it, and this connection, if one was made.
    ghost reaches: { List ℕ → ℕ → Option Self → Type 0 };

    // A listener, how often listeners were asked before, what came of asking it, and how often they were asked then.
    ghost comes: { Door → Times → Came Self → Times → Type 0 };

    // A connection, the token that its events are to have, and whether the system watches it.
    ghost wakes: { Self → ℕ → Result ⊤ Error → Type 0 };

    /// A new connection to the server, if one can be made.
    fn reach<R: Net>(rt: &R, around: BridgeContext<'_>, token: Token) -> Option<Self>
        ensures { reaches around.entry.socket.now token.0 result };

    /// Takes the next connection of a listener.
    fn come(listener: &WebListener, asked: &mut Asked) -> Accepted<Self>
        ensures { comes listener.now asked.old result asked.new };

    /// Waits for bytes, and for room.
    fn register(&mut self, registry: &Registry, token: Token) -> io::Result<()>
        ensures same { self.new ≡ self.old }
        ensures wakes { wakes self.old token.0 result };
}

// A new connection to the socket at this path.
fn connect_at<R: Net>(rt: &R, around: BridgeContext<'_>, token: Token) -> io::Result<Stream> {
    let mut stream = Right(UnixStream::connect(rt, around.socket)?);
    stream.register(around.registry, token)?;
    Ok(stream)
}

// The next connection of a listener.
fn take_next(listener: &WebListener) -> io::Result<Stream> {
    match listener {
        WebListener::Tcp(it) => {
            let (stream, _) = it.accept()?;
            stream.set_nodelay(true)?;
            Ok(Left(stream))
        }
        WebListener::Unix(it) => {
            let (stream, _) = it.accept()?;
            Ok(Right(stream))
        }
    }
}

// What an answer of a listener means.
fn came_of(answer: io::Result<Stream>) -> Accepted<Stream>
    ensures { IsAccepted answer result }
{
    match answer {
        Ok(stream) => Accepted::Came(stream),
        Err(error) if error.kind() == ErrorKind::WouldBlock => Accepted::Nothing,
        Err(_) => Accepted::Refused,
    }
}

impl BridgeStream for Stream {
    ghost reaches = { λ path token stream. Unit {0} };

    ghost comes = { λ listener old came new. new.times ≡ min (old.times + 1) (2 ^ 64 - 1) };

    ghost wakes = { λ stream token watched. Unit {0} };

    fn reach<R: Net>(rt: &R, around: BridgeContext<'_>, token: Token) -> Option<Stream> {
        connect_at(rt, around, token).ok()
    }

    fn come(listener: &WebListener, asked: &mut Asked) -> Accepted<Stream> {
        asked.times = asked.times.saturating_add(1);
        came_of(take_next(listener))
    }

    fn register(&mut self, registry: &Registry, token: Token) -> io::Result<()> {
        let both = Interest::READABLE | Interest::WRITABLE;
        match self {
            Left(it) => registry.register(it, token, both),
            Right(it) => registry.register(it, token, both),
        }
    }
}
