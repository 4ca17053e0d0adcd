//! Streams that come in pieces.

ghost use Rattle.std.specs.Prelude.{◌≡◌, ◌++◌, ◌≤◌, List, [], drop, vec_len, IfOk, IfSome, OnOk};
ghost use Rattle.std.specs.Prelude.{OnErr, Some, None, Ok, Err};
ghost use Rattle.attach_proto.specs.declared.message.Message.{Message};
ghost use Rattle.attach_proto.specs.Streams.{HasRead, IsRun, TakesPiece, Answers};

use crate::fault::ProtoFault;
use crate::kind::Side;
use crate::message::Message;
use crate::reading::{Front, front_of};
use std::alloc::{AllocError, Global};
use std::marker::Model;

// The messages at the front of some bytes, how many bytes they take, and the fault after them.
#[derive(Drop)]
struct Run {
    messages: Vec<Message>,
    taken: usize,
    fault: Option<ProtoFault>,
}

fn run_of(alloc: Global, side: Side, bytes: &[u8]) -> Result<Run, AllocError>
    ensures { IfOk result (λ run. IsRun side bytes.now run.messages.items run.taken run.fault) }
{
    let mut messages = Vec::new(alloc);
    let mut taken = 0;
    'frames: loop {
        match front_of(alloc, side, &bytes[taken..])? {
            Front::Part => {
                return Ok(Run {
                    messages,
                    taken,
                    fault: None,
                });
            }
            Front::Broken(fault) => {
                return Ok(Run {
                    messages,
                    taken,
                    fault: Some(fault),
                });
            }
            Front::Whole(message, len) => {
                messages.push(message)?;
                taken += len;
            }
        }
    }
}

// Appends the messages at the front of some bytes to `out`. Returns how many bytes they take, and the
// fault after them.
fn read_run(
    alloc: Global,
    side: Side,
    bytes: &[u8],
    out: &mut Vec<Message>,
) -> Result<(usize, Option<ProtoFault>), AllocError>
    ensures ok { IfOk result (λ r. (made : List Message) × (out.new.items ≡ out.old.items ++ made)
        × IsRun side bytes.now made r.0 r.1) }
    ensures err { OnErr result (out.new.items ≡ out.old.items) }
{
    let mut run = run_of(alloc, side, bytes)?;
    out.append(&mut run.messages)?;
    Ok((run.taken, run.fault))
}

// Removes the first bytes. A drain would move the others, and drop these, one by one.
fn drop_front(bytes: &mut Vec<u8>, taken: usize)
    requires { taken ≤ vec_len bytes.old }
    ensures { bytes.new.items ≡ drop taken bytes.old.items }
{
    let left = bytes.len() - taken;
    bytes.as_mut_slice().copy_within(taken.., 0);
    bytes.truncate(left);
}

/// Reads the frames of a connection. After a fault it answers with this fault for good.
pub struct Reader {
    alloc: Global,
    side: Side,
    rest: Vec<u8>,
    fault: Option<ProtoFault>,
}

impl Drop for Reader {
    fn drop(self) {
        let Reader {
            alloc: _,
            side: _,
            rest: _,
            fault: _,
        } = self;
    }
}

impl Model for Reader {
    ghost use Rattle.attach_proto.specs.Streams.{Reading};

    ghost Value = { Reading };

    ghost view = { λ r. record { side = r.side; rest = r.rest.items; fault = r.fault } };
}

impl Reader {
    /// A reader that has read nothing.
    pub fn new(alloc: Global, side: Side) -> Reader
        ensures starts { result ≡ record { side = side; rest = []; fault = None } }
        ensures nothing { HasRead result [] [] }
    {
        Reader {
            alloc,
            side,
            rest: Vec::new(alloc),
            fault: None,
        }
    }

    // Reads a piece from where it stands, since nothing waits: what is left over is copied alone.
    fn take_first(&mut self, piece: &[u8], out: &mut Vec<Message>) -> Result<(), AllocError>
        requires { (self.old.fault ≡ None) × (self.old.rest ≡ []) }
        ensures ok { OnOk result ((made : List Message) × (out.new.items ≡ out.old.items ++ made)
            × TakesPiece self.old piece.now made self.new) }
        ensures err { OnErr result ((self.new ≡ self.old) × (out.new.items ≡ out.old.items)) }
        ensures fault { OnOk result (self.new.fault ≡ Some ProtoFault.NoMemory → ⊥) }
        ensures side { self.new.side ≡ self.old.side }
    {
        let mut run = run_of(self.alloc, self.side, piece)?;
        self.rest.extend_from_slice(&piece[run.taken..])?;
        match out.append(&mut run.messages) {
            Ok(()) => {
                self.fault = run.fault;
                Ok(())
            }
            Err(error) => {
                self.rest.clear();
                Err(error)
            }
        }
    }

    // Reads a piece after what waits.
    fn take_next(&mut self, piece: &[u8], out: &mut Vec<Message>) -> Result<(), AllocError>
        requires { self.old.fault ≡ None }
        ensures ok { OnOk result ((made : List Message) × (out.new.items ≡ out.old.items ++ made)
            × TakesPiece self.old piece.now made self.new) }
        ensures err { OnErr result ((self.new ≡ self.old) × (out.new.items ≡ out.old.items)) }
        ensures fault { OnOk result (self.new.fault ≡ Some ProtoFault.NoMemory → ⊥) }
        ensures side { self.new.side ≡ self.old.side }
    {
        let kept = self.rest.len();
        self.rest.extend_from_slice(piece)?;
        match read_run(self.alloc, self.side, &self.rest, out) {
            Ok((taken, fault)) => {
                drop_front(&mut self.rest, taken);
                self.fault = fault;
                Ok(())
            }
            Err(error) => {
                self.rest.truncate(kept);
                Err(error)
            }
        }
    }

    /// Reads one piece, and appends the messages whose frames it completes.
    pub fn feed(&mut self, piece: &[u8], out: &mut Vec<Message>) -> Result<(), ProtoFault>
        // If memory ran out, nothing of this piece was read.
        ensures memory { result ≡ Err ProtoFault.NoMemory
            → (self.new ≡ self.old) × (out.new.items ≡ out.old.items) }
        // If not, the piece was read, whatever was read before.
        ensures reads { (result ≡ Err ProtoFault.NoMemory → ⊥) →
            (made : List Message) × (out.new.items ≡ out.old.items ++ made)
            × TakesPiece self.old piece.now made self.new }
        // The answer is the fault that the reader keeps.
        ensures answer { (result ≡ Err ProtoFault.NoMemory → ⊥) → Answers self.new result }
        ensures stays { IfSome self.old.fault (λ f.
            (self.new ≡ self.old) × (out.new.items ≡ out.old.items) × (result ≡ Err f)) }
        ensures side { self.new.side ≡ self.old.side }
    {
        if let Some(fault) = self.fault {
            return Err(fault);
        }
        let taken = if self.rest.is_empty() {
            self.take_first(piece, out)
        } else {
            self.take_next(piece, out)
        };
        if taken.is_err() {
            return Err(ProtoFault::NoMemory);
        }
        match self.fault {
            Some(fault) => Err(fault),
            None => Ok(()),
        }
    }
}
