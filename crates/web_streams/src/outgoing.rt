//! Bytes on their way to the server, or to a browser.

ghost use Rattle.std.specs.Prelude.{◌≡◌, ◌++◌, ◌≤◌, [], length, drop, vec_len, OnOk, OnErr};
ghost use Rattle.web_streams.specs.Streaming.{WritesOut, count_of};

use crate::stream::{WebStream, WriteOutcome};
use std::alloc::{AllocError, Global};
use std::marker::Model;

/// Removes the first bytes. A drain would move the others, and drop these, one by one.
pub fn drop_front(bytes: &mut Vec<u8>, taken: usize)
    requires { taken ≤ vec_len bytes.old }
    ensures { bytes.new.items ≡ drop taken bytes.old.items }
{
    let left = bytes.len() - taken;
    bytes.as_mut_slice().copy_within(taken.., 0);
    bytes.truncate(left);
}

// Makes one write of bytes that wait. Those that were taken don't wait any more.
fn write_once<S: WebStream>(bytes: &mut Vec<u8>, stream: &mut S) -> WriteOutcome
    ensures taken { bytes.new.items ≡ drop (count_of result) bytes.old.items }
    ensures writes { S.writes stream.old bytes.old.items result stream.new }
{
    let wrote = stream.write_once(bytes);
    match wrote {
        WriteOutcome::Some(count) => drop_front(bytes, count),
        WriteOutcome::Nothing | WriteOutcome::Full | WriteOutcome::Broken => {}
    }
    wrote
}

/// Writes bytes that wait, as far as the stream takes them. Returns false if it is broken.
pub fn write_all<S: WebStream>(bytes: &mut Vec<u8>, stream: &mut S) -> bool
    ensures { WritesOut S.writes stream.old bytes.old.items result stream.new bytes.new.items }
{
    'writes: for _ in 0..u64::MAX {
        if bytes.is_empty() {
            return true;
        }
        match write_once(bytes, stream) {
            WriteOutcome::Some(_) | WriteOutcome::Nothing => {}
            WriteOutcome::Full => return true,
            WriteOutcome::Broken => return false,
        }
    }
    true
}

/// Bytes that were put here and not yet written. Contracts see them as a list.
pub struct Outgoing {
    bytes: Vec<u8>,
}

impl Drop for Outgoing {
    fn drop(self) {
        let Outgoing { bytes: _ } = self;
    }
}

impl Model for Outgoing {
    ghost use Rattle.std.specs.Prelude.{List, ℕ};

    ghost Value = { List ℕ };

    ghost view = { λ o. o.bytes.items };
}

impl Outgoing {
    /// Nothing was put yet.
    pub fn new(alloc: Global) -> Outgoing
        ensures { result ≡ [] }
    {
        Outgoing {
            bytes: Vec::new(alloc),
        }
    }

    /// Puts bytes after those that wait.
    pub fn put(&mut self, bytes: &[u8]) -> Result<(), AllocError>
        ensures ok { OnOk result (self.new ≡ self.old ++ bytes.now) }
        ensures err { OnErr result (self.new ≡ self.old) }
    {
        self.bytes.extend_from_slice(bytes)
    }

    /// How many bytes wait.
    pub fn waiting(&self) -> usize
        ensures { result ≡ length self.now }
    {
        self.bytes.len()
    }

    /// Writes the bytes that wait, as far as the stream takes them. Returns false if it is broken.
    pub fn send_all<S: WebStream>(&mut self, stream: &mut S) -> bool
        ensures { WritesOut S.writes stream.old self.old result stream.new self.new }
    {
        write_all(&mut self.bytes, stream)
    }
}
