//! Replies as they are stored.

ghost use Rattle.std.specs.Prelude.{◌≡◌, ◌↔◌, IfOk, true};
ghost use Rattle.hub_trail.specs.Filing.{ending_of};

use crate::refusals::is_same;
use hub_trail::{Ending, Finished};
use session::{Refusal, Reply};
use std::alloc::{AllocError, Global};
use std::marker::Model;

/// A reply without its text. It takes 24 bytes, and a block of memory if it is a refusal. Contracts
/// see it as the `Ending` of hub_trail.
pub struct KeptReply {
    ending: Result<Finished, Box<Refusal>>,
}

impl Drop for KeptReply {
    fn drop(self) {
        let KeptReply { ending: _ } = self;
    }
}

impl Model for KeptReply {
    ghost use Rattle.hub_trail.specs.Trails.{Ending};

    ghost Value = { Ending };

    ghost use Rattle.hub_record.specs.Stored.{ending_in};

    ghost view = { λ r. ending_in r.ending };
}

impl KeptReply {
    /// The reply without its text. A refusal is put into the spare block, so that this takes no
    /// memory.
    pub fn of(reply: &Reply, spare: Box<Refusal>) -> KeptReply
        ensures { result ≡ ending_of reply.now }
    {
        let ending = match reply {
            Ok(done) => Ok(Finished::of(done)),
            Err(refusal) => {
                let mut block = spare;
                *block = *refusal;
                Err(block)
            }
        };
        KeptReply { ending }
    }

    /// A copy of the reply. `AllocError` if memory is refused; unless it is a refusal, it takes no
    /// memory.
    pub fn copy(&self, alloc: Global) -> Result<KeptReply, AllocError>
        ensures { IfOk result (λ copy. copy ≡ self.now) }
    {
        match &self.ending {
            Ok(finished) => Ok(KeptReply {
                ending: Ok(*finished),
            }),
            Err(refusal) => {
                let refusal = Box::new(alloc, **refusal)?;
                Ok(KeptReply {
                    ending: Err(refusal),
                })
            }
        }
    }

    /// The reply without its text.
    pub fn ending(&self) -> Ending
        ensures { result ≡ self.now }
    {
        match &self.ending {
            Ok(finished) => Ok(*finished),
            Err(refusal) => Err(**refusal),
        }
    }

    /// Whether both replies are equal.
    pub fn is_same(&self, other: &KeptReply) -> bool
        ensures { (result ≡ true) ↔ (self.now ≡ other.now) }
    {
        match (&self.ending, &other.ending) {
            (Ok(finished), Ok(other)) => *finished == *other,
            (Err(refusal), Err(other)) => is_same(refusal, other),
            (Ok(_), Err(_)) => false,
            (Err(_), Ok(_)) => false,
        }
    }
}
