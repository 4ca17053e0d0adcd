//! What the threads of a peer share, and how they begin.

ghost use Rattle.std.specs.Prelude.{◌≡◌, Bool, OnOk};
ghost use Rattle.std.specs.Io.KnownBytes.{Appends};
ghost use Rattle.client_peer.specs.Meeting.{Learns, Meets};
ghost use Rattle.client_peer.specs.declared.meeting.Meeting.TheVariants.{Same};
ghost use Rattle.client_words.specs.Asking.{IsAsked};
ghost use Rattle.server_client.specs.Comebacks.{BeginsAgain};
ghost use Rattle.server_client.specs.Handing.{EndsWriting, HearsHere, TypesHere};
ghost use Rattle.server_client.specs.Marks.{IsHere, IsMarkOf};

use crate::{PeerHost, Source};
use attach_proto::{Reader, Side};
use client_peer::{Meeting, Output, Peer, ReadPiece, SessionMark};
use client_words::{Arguments, PeerFault, RefusedPart};
use std::alloc::{AllocError, Global};
use std::fs::File;
use std::io::{self, Write};
use std::os::unix::net::UnixStream;
use std::sync::{Arc, Condvar, Mutex, Wait};
use std::thread::{self, Threads};

/// What one read of the connection gave: only a seat takes it, and once.
pub struct ServerPiece<'b>(ReadPiece<'b>);

impl<'b> ServerPiece<'b> {
    pub fn read(stream: &UnixStream, buffer: &'b mut [u8]) -> io::Result<ServerPiece<'b>> {
        let mut stream = stream;
        Ok(ServerPiece(ReadPiece::read(&mut stream, buffer)?))
    }
}

/// What one read of standard input gave: only a seat takes it, and once.
pub struct InputPiece<'b>(ReadPiece<'b>);

impl<'b> InputPiece<'b> {
    pub fn read<I: Source>(input: &mut I, buffer: &'b mut [u8]) -> io::Result<InputPiece<'b>> {
        Ok(InputPiece(ReadPiece::read(input, buffer)?))
    }
}

/// How a write to standard output ended: only a seat takes it, and once.
pub struct Written {
    result: io::Result<()>,
}

impl Written {
    /// Writes bytes to standard output, and lines to the sizes' file.
    pub fn write<O: Write>(output: &mut O, file: &mut Option<File>, waiting: Output) -> Written
        ensures { OnOk result.result
            (Appends (O.contents output.old) (O.contents output.new) waiting.bytes.items) }
    {
        let Output { bytes, sizes } = waiting;
        // If the sizes' file takes no size, the peer goes on.
        if let Some(file) = file {
            let _ = file.write_all(&sizes);
        }
        let result = match output.write_all(&bytes) {
            Ok(()) => output.flush(),
            Err(error) => Err(error),
        };
        Written { result }
    }
}

/// A peer with its present connection.
#[derive(Drop)]
pub struct PeerSeat {
    pub peer: Peer,
    /// Cuts what comes on the connection into messages.
    pub reader: Reader,
    pub stream: Option<Arc<UnixStream, Global>>,
}

impl PeerSeat {
    /// Begins another connection, if the peer meets its session at the socket.
    pub fn begin<R: PeerHost>(
        &mut self,
        rt: &R,
        arguments: &Arguments<'_>,
        mark: &SessionMark,
    ) -> Meeting
        requires { IsMarkOf (R.disk rt.now) arguments.now.socket.now mark.now }
        ensures meets { Meets self.old.peer mark.now result }
        ensures begins { result ≡ Same → BeginsAgain self.old self.new }
        ensures stays { (result ≡ Same → ⊥) → self.new ≡ self.old }
    {
        let met = self.peer.begin(mark);
        if met == Meeting::Same {
            self.reader = Reader::new(rt.alloc(), Side::Peer);
            self.stream = None;
        }
        met
    }

    /// Hears what was read of its connection, and notes how that ended, if it did. Returns whether it goes on.
    pub fn hear(&mut self, piece: ServerPiece<'_>) -> bool
        ensures { HearsHere self.old piece.entry.0.bytes.now result self.new }
    {
        let ServerPiece(piece) = piece;
        let end = match self.peer.take_read(&mut self.reader, piece) {
            Ok(None) => return true,
            Ok(Some(end)) => end,
            Err(fault) => Err(fault),
        };
        self.peer.end_by(end);
        false
    }

    /// Takes what was read of standard input. Returns whether that was more than its end.
    pub fn type_in(&mut self, piece: InputPiece<'_>) -> Result<bool, PeerFault>
        ensures { TypesHere self.old piece.entry.0.bytes.now result self.new }
    {
        let InputPiece(piece) = piece;
        self.peer.type_in(piece)
    }

    /// Notes how what was handed out for standard output was written.
    pub fn end_writing(&mut self, written: Written)
        ensures { EndsWriting self.old written.result self.new }
    {
        let Written { result } = written;
        self.peer.end_writing(match result {
            Ok(()) => None,
            Err(error) => Some(PeerFault::Refused(RefusedPart::Output, error)),
        });
    }

    /// Takes the session's name for the peer, as long as its server is there.
    pub fn learn<R: PeerHost>(&mut self, rt: &R, arguments: &Arguments<'_>, mark: SessionMark)
        requires { IsMarkOf (R.disk rt.now) arguments.now.socket.now mark }
        ensures { (is_here : Bool) × IsHere (R.disk rt.now) self.old.stream is_here
            × Learns self.old.peer mark is_here self.new.peer }
    {
        let is_here = self.is_here(rt);
        self.peer.learn(mark, is_here);
    }

    /// Whether the server is there that the peer is connected to.
    pub fn is_here<R: PeerHost>(&self, rt: &R) -> bool
        ensures { IsHere (R.disk rt.now) self.now.stream result }
    {
        match &self.stream {
            Some(stream) => rt.is_open(stream),
            None => false,
        }
    }
}

/// A peer, for all of its threads.
#[derive(Drop)]
pub struct SharedPeer {
    pub alloc: Global,
    pub seat: Mutex<PeerSeat>,
    /// Signals that the peer's next task may be another one.
    pub news: Condvar,
    /// Signals that something waits for standard output, or that there is room for more.
    pub work: Condvar,
}

impl SharedPeer {
    pub fn new<R: PeerHost>(rt: &R, arguments: &Arguments<'_>) -> SharedPeer
        requires { IsAsked (R.means rt.now) arguments.now }
    {
        let alloc = rt.alloc();
        SharedPeer {
            alloc,
            seat: Mutex::new(PeerSeat {
                peer: Peer::new(alloc, arguments),
                reader: Reader::new(alloc, Side::Peer),
                stream: None,
            }),
            news: Condvar::new(),
            work: Condvar::new(),
        }
    }

    /// Wakes all threads.
    pub fn tell(&self) {
        self.news.notify_all();
        self.work.notify_all();
    }
}

/// Starts a thread for a peer. Nobody joins it: it may wait for its source for ever, and the program ends without it.
pub fn start_thread<R, F>(
    rt: &R,
    shared: &Arc<SharedPeer, Global>,
    run: F,
) -> Result<(), AllocError>
where
    R: PeerHost + Threads + Wait,
    F: FnOnce(&R, &Arc<SharedPeer, Global>) + Send + Drop + 'static,
    requires { F.IsAlwaysCallable run }
{
    let theirs = Arc::try_clone(shared)?;
    let rt_there = *rt;
    thread::spawn(rt, move || run(&rt_there, &theirs))?;
    Ok(())
}
