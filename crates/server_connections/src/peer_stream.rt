//! A connection's stream: one read of it, and one write of what waits.

ghost use Rattle.std.specs.Prelude.{◌≡◌, ◌≢◌, take};
ghost use Rattle.std.specs.Io.KnownBytes.{Appends, Consumes};
ghost use Rattle.std.specs.IoError.{error_kind};
ghost use Rattle.server_sending.specs.Written.{Waiting};
ghost use Rattle.server_connections.specs.Streaming.{count_of, lack_of, sent_by, stop_of};
ghost use Rattle.server_connections.specs.declared.peer_stream.Arrival.TheVariants.{Much};

use server_sending::Turn;
use std::io::{self, ErrorKind, Read, Write};

/// What a read brought.
#[derive(Clone, Copy, Debug, PartialEq, Eq)]
pub enum Arrival {
    /// As many bytes as the buffer takes: more may be there.
    Much,
    /// Fewer bytes.
    Some,
    /// Nothing is there for now.
    Nothing,
    /// The connection ended.
    End,
}

/// What came of a write.
#[derive(Clone, Copy, Debug)]
pub enum Wrote {
    /// This many bytes were taken.
    Some(usize),
    /// None were: it is to be tried again.
    Nothing,
    /// None were: no more are taken for now.
    Full,
    /// The connection is broken.
    Broken,
}

// What a read's error means.
fn lack_of(error: &io::Error) -> Arrival
    ensures is { result ≡ lack_of (error_kind error.now) }
    ensures none { result ≢ Much }
{
    match error.kind() {
        ErrorKind::WouldBlock => Arrival::Nothing,
        ErrorKind::Interrupted => Arrival::Some,
        _ => Arrival::End,
    }
}

// What a write's error means.
fn stop_of(error: &io::Error) -> Wrote
    ensures is { result ≡ stop_of (error_kind error.now) }
    ensures none { (count_of result ≡ 0) × ((turn : Waiting) → sent_by result turn ≡ turn) }
{
    match error.kind() {
        ErrorKind::WouldBlock => Wrote::Full,
        ErrorKind::Interrupted => Wrote::Nothing,
        _ => Wrote::Broken,
    }
}

/// A connection's stream. Each relation is shown by a call of its function alone: a read that wasn't made
/// brings nothing, and a connection isn't lost or broken before its stream says so.
pub trait PeerStream {
    ghost use Rattle.std.specs.Prelude.{◌≡◌, ◌≢◌, ◌≤◌, ℕ, List, Option, length, take};
    ghost use Rattle.server_sending.specs.Written.{IsWritten};
    ghost use Rattle.server_connections.specs.Streaming.{sent_by};
    ghost use Rattle.server_connections.specs.declared.peer_stream.Arrival.{Arrival as Came};
    ghost use Rattle.server_connections.specs.declared.peer_stream.Wrote.{Wrote as Took};

    // The bytes that were written to it, if that is known.
    ghost holds: { Self → Option (List ℕ) };

    // The stream, how many bytes there was room for, those that came, what they or their lack mean, and the stream after.
    ghost reads: { Self → ℕ → List ℕ → Came → Self → Type 0 };

    // The stream, what waits, what came of a write of it, and the stream after it.
    ghost writes: { Self → List ℕ → Took → Self → Type 0 };

    /// Reads once. Says how many bytes came; if none did, whether the stream ended, has nothing for now,
    /// or is to be read again.
    fn read_once(&mut self, buffer: &mut [u8]) -> (usize, Arrival)
        ensures within { result.0 ≤ length buffer.new }
        ensures none { result.0 ≡ 0 → result.1 ≢ Arrival.Much }
        ensures end { result.1 ≡ Arrival.End → result.0 ≡ 0 }
        ensures read { reads self.old (length buffer.old) (take result.0 buffer.new) result.1 self.new };

    /// Writes once of what waits. What was taken doesn't wait any more.
    fn write_once(&mut self, turn: &mut Turn) -> Wrote
        ensures sent { turn.new ≡ sent_by result turn.old }
        ensures wrote { writes self.old turn.old.unsent result self.new }
        ensures written { (put : List ℕ) → IsWritten put (holds self.old) turn.old
            → IsWritten put (holds self.new) turn.new };
}

impl<S: Read + Write> PeerStream for S {
    ghost holds = { S.contents };

    ghost reads = { λ s room piece came left. Consumes (S.remaining s) (S.remaining left) piece };

    ghost writes = { λ s waits took left.
        Appends (S.contents s) (S.contents left) (take (count_of took) waits) };

    fn read_once(&mut self, buffer: &mut [u8]) -> (usize, Arrival) {
        match self.read(buffer) {
            Ok(0) => (0, Arrival::End),
            Ok(count) => (count, Arrival::Much),
            Err(error) => (0, lack_of(&error)),
        }
    }

    fn write_once(&mut self, turn: &mut Turn) -> Wrote {
        match turn.send(self) {
            Ok(0) => Wrote::Broken,
            Ok(count) => Wrote::Some(count),
            Err(error) => stop_of(&error),
        }
    }
}
