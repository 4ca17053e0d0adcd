//! The stream of a connection: one read of it, and one write of what waits.

ghost use Rattle.std.specs.Prelude.{◌≡◌, ◌<◌, ◌≤◌, ℕ, [], IfOk, Ok, Result, take, vec_len};
ghost use Rattle.std.specs.Io.KnownBytes.{Appends, Consumes, IsAtEnd};
ghost use Rattle.std.specs.declared.io.Error.{Error};
ghost use Rattle.web_streams.specs.Streaming.{came_of, count_of, took_of};

use std::alloc::{AllocError, Global};
use std::io;
use std::io::{ErrorKind, Read, Write};
use std::marker::Model;

/// The size of a read.
const CHUNK: usize = 16_384;

/// Room for what a read brings. It is never empty: a read without room looks like the end of the connection. Contracts
/// see what the last read brought.
#[derive(Drop)]
pub struct ReadBuffer {
    bytes: Vec<u8>,
    count: usize,
}

impl Model for ReadBuffer {
    ghost use Rattle.std.specs.Prelude.{◌<◌, ◌≤◌, List, ℕ, take, vec_len};

    ghost Value = { List ℕ };

    ghost view = { λ b. take b.count b.bytes.items };

    ghost invariant = { λ b. (0 < vec_len b.bytes) × (b.count ≤ vec_len b.bytes) };
}

impl ReadBuffer {
    /// Nothing was read yet.
    pub fn new(alloc: Global) -> Result<ReadBuffer, AllocError>
        ensures { IfOk result (λ buffer. buffer ≡ []) }
    {
        Ok(ReadBuffer {
            bytes: vec![in alloc; 0; CHUNK]?,
            count: 0,
        })
    }

    /// What the last read brought.
    pub fn piece(&self) -> &[u8]
        ensures { result.now ≡ self.now }
    {
        &self.bytes[..self.count]
    }
}

/// What a read came to.
#[derive(Clone, Copy)]
pub enum ReadOutcome {
    /// Bytes, or none if it was interrupted: more may be there.
    More,
    /// Nothing is there for now.
    Nothing,
    /// The connection ended.
    End,
}

/// What a write came to.
#[derive(Clone, Copy)]
pub enum WriteOutcome {
    /// This many bytes were taken.
    Some(usize),
    /// It was interrupted, and is to be tried again.
    Nothing,
    /// No more are taken for now.
    Full,
    /// The connection is broken.
    Broken,
}

// What a read of this answer came to.
fn arrival_of(answer: io::Result<usize>) -> ReadOutcome
    ensures { result ≡ came_of answer }
{
    match answer {
        Ok(0) => ReadOutcome::End,
        Ok(_) => ReadOutcome::More,
        Err(error) => match error.kind() {
            ErrorKind::WouldBlock => ReadOutcome::Nothing,
            ErrorKind::Interrupted => ReadOutcome::More,
            _ => ReadOutcome::End,
        },
    }
}

// What a write of this answer came to.
fn wrote_of(answer: io::Result<usize>) -> WriteOutcome
    ensures { result ≡ took_of answer }
{
    match answer {
        Ok(0) => WriteOutcome::Broken,
        Ok(count) => WriteOutcome::Some(count),
        Err(error) => match error.kind() {
            ErrorKind::WouldBlock => WriteOutcome::Full,
            ErrorKind::Interrupted => WriteOutcome::Nothing,
            _ => WriteOutcome::Broken,
        },
    }
}

/// A connection's stream. Each relation is shown by a call of its function alone: a read that wasn't made brings
/// nothing, and a connection hasn't ended before its stream says so.
pub trait WebStream {
    ghost use Rattle.std.specs.Prelude.{◌≤◌, ℕ, List, length};
    ghost use Rattle.web_streams.specs.Streaming.{count_of};
    ghost use Rattle.web_streams.specs.declared.stream.ReadOutcome.{ReadOutcome as Came};
    ghost use Rattle.web_streams.specs.declared.stream.WriteOutcome.{WriteOutcome as Took};

    // The stream, the bytes that came, what they or their lack mean, and the stream after it.
    ghost reads: { Self → List ℕ → Came → Self → Type 0 };

    // The stream, what waits, what came of a write of it, and the stream after it.
    ghost writes: { Self → List ℕ → Took → Self → Type 0 };

    /// Reads once, for as much as the buffer has room.
    fn read_once(&mut self, buffer: &mut ReadBuffer) -> ReadOutcome
        ensures { reads self.old buffer.new result self.new };

    /// Writes once of what waits.
    fn write_once(&mut self, bytes: &[u8]) -> WriteOutcome
        ensures within { count_of result ≤ length bytes.now }
        ensures wrote { writes self.old bytes.now result self.new };
}

impl<S: Read + Write> WebStream for S {
    // A stream that has more doesn't end, unless its read fails.
    ghost reads = { λ s piece came left. Consumes (S.remaining s) (S.remaining left) piece
        × ((answer : Result ℕ Error) × (came ≡ came_of answer) × (answer ≡ Ok 0 → IsAtEnd (S.remaining left))) };

    ghost writes = { λ s waits took left.
        Appends (S.contents s) (S.contents left) (take (count_of took) waits) };

    fn read_once(&mut self, buffer: &mut ReadBuffer) -> ReadOutcome {
        let answer = self.read(buffer.bytes.as_mut_slice());
        buffer.count = match &answer {
            Ok(count) => *count,
            Err(_) => 0,
        };
        arrival_of(answer)
    }

    fn write_once(&mut self, bytes: &[u8]) -> WriteOutcome {
        wrote_of(self.write(bytes))
    }
}
