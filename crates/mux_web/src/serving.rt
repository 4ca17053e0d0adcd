//! `mux-web`, from its arguments to its status.

ghost use Rattle.std.specs.Prelude.{◌≡◌, ◌↔◌, Ok, IfErr, IfOk, IsErr, IsTrue};
ghost use Rattle.web_options.specs.Listening.{texts};
ghost use Rattle.mux_web.specs.Serving.{CantBind, CantOpen, CantOpenFor, DoesAsAsked, IsAsked, IsBeside, IsLacking};
ghost use Rattle.mux_web.specs.Serving.{IsNotMade, IsOpenAt, IsOpenFor, IsShared, IsSocketAt};

use mio::{Events, Poll};
use program_words::{SystemError, of_web, tell};
use server_system::{Host, SocketPath};
use std::alloc::AllocGlobal;
use std::io::{self, ErrorKind, Write};
use std::sync::Wait;
use std::thread::Threads;
use web_options::{Listen, ReadsFiles, WebFault, WebOptions, look_for_paths, origins_of, site_of};
use web_requests::{Loopback, Site};
use web_streams::{OpensListeners, Stream, WebListener};
use web_turn::{Bridge, BridgeOptions, serve, start_log};

/// The system's number for a kind of addresses that it doesn't have.
const EAFNOSUPPORT: i32 = 97;

/// How many events are taken at once.
const EVENTS: usize = 1024;

// A bridge that does what the arguments ask for.
fn bridge_of<'a, R: Host + Send + Sync + Threads + Wait + Eprint + 'static>(
    rt: &R,
    options: WebOptions<'a>,
    site: Site,
) -> Result<Bridge<'a, Stream>, WebFault>
    ensures { IfOk result (DoesAsAsked options.entry site) }
{
    let log = if options.tells {
        Some(start_log(rt, rt.alloc())?)
    } else {
        None
    };
    let asked = BridgeOptions {
        socket: options.socket,
        links: options.links,
        most: options.most,
        choice: options.choice(rt.alloc())?,
        log,
    };
    match Bridge::new(rt.alloc(), site, asked) {
        Ok(bridge) => Ok(bridge),
        Err(error) => Err(WebFault::from(error)),
    }
}

// Serves browsers that come in through these listeners.
fn serve_at<R: Host + Send + Sync + Threads + Wait + Eprint + 'static, O: Write>(
    rt: &R,
    options: WebOptions<'_>,
    site: Site,
    mut listeners: Vec<WebListener>,
    output: &mut O,
) -> Result<(), WebFault>
    ensures { IsErr result }
{
    look_for_paths(rt, options)?;
    let bridge = bridge_of(rt, options, site)?;
    let poll = Poll::new(rt)?;
    let events = Events::with_capacity(rt.alloc(), EVENTS)?;
    writeln!(output, "mux-web: ready")?;
    output.flush()?;
    let listeners = listeners.as_mut_slice();
    Err(WebFault::from(serve(rt, bridge, poll, events, listeners)))
}

// Listens at an address of this machine.
fn listener_at<R: OpensListeners + AllocGlobal>(
    rt: &R,
    options: WebOptions<'_>,
    address: Loopback,
) -> Result<WebListener, WebFault>
    ensures ok { IfOk result (λ listener. R.opens rt.now address (Ok listener)) }
    ensures fault { IfErr result (IsNotMade (R.opens rt.now) address options.entry.listen.now) }
{
    match rt.open_listener(address) {
        Ok(listener) => Ok(listener),
        Err(error) => {
            let name = String::from_str(rt.alloc(), options.listen)?;
            Err(WebFault::NotMade(name, SystemError(error)))
        }
    }
}

// Whether the machine lacks an address, by the error of listening there.
fn is_lacking(error: &io::Error) -> bool
    ensures { IsTrue result ↔ IsLacking error.now }
{
    error.kind() == ErrorKind::AddrNotAvailable || error.raw_os_error() == Some(EAFNOSUPPORT)
}

// Listens at the other address that localhost may be: else another account could listen there. A machine that lacks it
// has no such listener.
fn listener_beside<R: OpensListeners>(
    rt: &R,
    address: Loopback,
) -> Result<Option<WebListener>, WebFault>
    ensures ok { IfOk result (IsBeside (R.opens rt.now) address) }
    ensures fault { IfErr result (IsShared (R.opens rt.now) address) }
{
    let Some(other) = address.other() else {
        return Ok(None);
    };
    match rt.open_listener(other) {
        Ok(listener) => Ok(Some(listener)),
        Err(error) if is_lacking(&error) => Ok(None),
        Err(error) => Err(WebFault::Shared(other.address(), SystemError(error))),
    }
}

// Listeners at an address of this machine, and at the other one that localhost may be.
fn listeners_at<R: OpensListeners + AllocGlobal>(
    rt: &R,
    options: WebOptions<'_>,
    address: Loopback,
) -> Result<Vec<WebListener>, WebFault>
    ensures ok { IfOk result (λ listeners. IsOpenAt (R.opens rt.now) address listeners.items) }
    ensures fault { IfErr result (CantOpen (R.opens rt.now) address options.entry.listen.now) }
{
    let mut listeners = Vec::new(rt.alloc());
    listeners.push(listener_at(rt, options, address)?)?;
    if let Some(listener) = listener_beside(rt, address)? {
        listeners.push(listener)?;
    }
    Ok(listeners)
}

// Listens at a socket.
fn socket_at<'a, R: Host>(
    rt: &R,
    path: &'a str,
) -> Result<(SocketPath<'a>, Vec<WebListener>), WebFault>
    ensures ok { IfOk result (λ made. IsSocketAt R.Host rt.now path.entry.now made.1.items) }
    ensures fault { IfErr result CantBind }
{
    match SocketPath::listen(rt, rt.alloc(), path) {
        Ok((place, listener)) => {
            let mut listeners = Vec::new(rt.alloc());
            listeners.push(WebListener::Unix(listener))?;
            Ok((place, listeners))
        }
        Err(fault) => Err(WebFault::Socket(format!(in rt.alloc(); "{fault}")?)),
    }
}

// Listens where the arguments ask for it, at a path with its place.
fn open_at<'a, R: Host + OpensListeners>(
    rt: &R,
    options: WebOptions<'a>,
    listen: &Listen<'a>,
) -> Result<(Option<SocketPath<'a>>, Vec<WebListener>), WebFault>
    ensures ok { IfOk result (λ made. IsOpenFor R.Host (R.OpensListeners.opens rt.now) rt.now listen.now made.1.items) }
    ensures fault { IfErr result (CantOpenFor (R.OpensListeners.opens rt.now) options.entry.listen.now listen.now) }
{
    match listen {
        Listen::Address(address) => match listeners_at(rt, options, *address) {
            Ok(listeners) => Ok((None, listeners)),
            Err(fault) => Err(fault),
        },
        Listen::Path(path) => match socket_at(rt, path) {
            Ok((place, listeners)) => Ok((Some(place), listeners)),
            Err(fault) => Err(fault),
        },
    }
}

// The site that the arguments ask for.
fn site_at<R: ReadsFiles + AllocGlobal>(
    rt: &R,
    options: WebOptions<'_>,
    origins: &[&str],
) -> Result<Site, WebFault>
    ensures { IfOk result (IsAsked (R.reads rt.now) (R.lies rt.now) options.entry (texts origins.now)) }
{
    match options.listens(rt.alloc()) {
        Ok(listen) => match origins_of(rt.alloc(), origins, listen) {
            Ok(origins) => site_of(rt, options, origins),
            Err(fault) => Err(fault),
        },
        Err(fault) => Err(fault),
    }
}

// Serves what the arguments ask for. A socket is removed if the system refuses to wait. A signal ends the program at once
// and leaves it: the next start replaces it.
fn serve_asked<R: Host + Send + Sync + Threads + Wait + Eprint + 'static, O: Write>(
    rt: &R,
    options: WebOptions<'_>,
    origins: &[&str],
    output: &mut O,
) -> Result<(), WebFault>
    ensures { IsErr result }
{
    let site = site_at(rt, options, origins)?;
    let listen = options.listens(rt.alloc())?;
    let (place, listeners) = open_at(rt, options, &listen)?;
    let served = serve_at(rt, options, site, listeners, output);
    if let Some(place) = place {
        place.end(rt, rt);
    }
    served
}

/// Serves until the system refuses to wait. Returns the status to exit with.
pub fn run<R, O, E>(rt: &R, words: &[String], output: &mut O, errors: &mut E) -> u8
where
    R: Host + Send + Sync + Threads + Wait + Eprint + 'static,
    O: Write,
    E: Write,
{
    let matches = match of_web(rt.alloc(), words) {
        Ok(matches) => matches,
        Err(error) => {
            if error.use_stderr() {
                let _ = write!(errors, "mux-web: ");
            }
            return tell(&error, output, errors);
        }
    };
    let origins = matches.get_strs("origin").unwrap_or(&[]);
    match serve_asked(rt, WebOptions::of(&matches), origins, output) {
        Ok(()) => 0,
        Err(fault) => {
            let _ = writeln!(errors, "mux-web: {fault}");
            fault.status()
        }
    }
}
