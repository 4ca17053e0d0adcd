//! The bytes of an emulator, which are judged by a twin that reads them, and why there are none.

ghost use Rattle.std.specs.Prelude.{IfOk, OnOk};
ghost use Rattle.terminal_model.specs.Reading.{ready};
ghost use Rattle.emulator.specs.Standing.{StandsFor, IsBetween};
ghost use Rattle.rebuild.specs.Rebuilt.{BringsBack, starting_as};

use crate::sameness::is_same;
use crate::telling::put_screen;
use cells::GridFault;
use emulator::{Emulator, Stopped};
use std::alloc::Global;
use std::io;
use thiserror::Error;

/// Why a terminal can't be told as bytes.
#[derive(Clone, Copy, Debug, PartialEq, Eq, Error)]
pub enum RebuildFault {
    /// Memory was refused.
    #[error("out of memory")]
    NoMemory,
    /// A character, sequence or string is incomplete: more bytes have to come first.
    #[error("a character, sequence or string is incomplete")]
    Unfinished,
    /// No bytes lead a new terminal to this state. After a change of size a saved place may have a pending wrap outside
    /// of the last column.
    #[error("no bytes lead to this state")]
    NoWay,
}

// Memory for the twin's answers was refused.
impl From<Stopped> for RebuildFault {
    fn from(_error: Stopped) -> RebuildFault {
        RebuildFault::NoMemory
    }
}

// A list of bytes fails only if memory is refused.
impl From<io::Error> for RebuildFault {
    fn from(_error: io::Error) -> RebuildFault {
        RebuildFault::NoMemory
    }
}

// A new terminal of an emulator's size.
fn twin_of(alloc: Global, of: &Emulator) -> Result<Emulator, RebuildFault>
    ensures { IfOk result (λ twin. StandsFor twin (ready (starting_as of.now))) }
{
    match Emulator::new(alloc, of.rows(), of.columns(), of.screen().keep()) {
        Ok(twin) => Ok(twin),
        Err(GridFault::NoMemory) => Err(RebuildFault::NoMemory),
        Err(GridFault::BadSize) => Err(RebuildFault::NoWay),
    }
}

// Whether bytes lead a new terminal to an emulator's state, and ask for no answer.
fn judge(alloc: Global, of: &Emulator, bytes: &[u8]) -> Result<(), RebuildFault>
    ensures { OnOk result (BringsBack of.now bytes.now) }
{
    let mut twin = twin_of(alloc, of)?;
    let mut answers = Vec::new(alloc);
    twin.feed_all(bytes, &mut answers)?;
    if !answers.is_empty() {
        return Err(RebuildFault::NoWay);
    }
    if !is_same(of, &twin) {
        return Err(RebuildFault::NoWay);
    }
    Ok(())
}

/// Bytes that lead a new terminal of the emulator's size to its state, and that ask for no answer. `Unfinished` if a
/// character, sequence or string is incomplete, `NoWay` if no bytes lead to this state, `NoMemory` if memory is
/// refused.
pub fn rebuild(alloc: Global, of: &Emulator) -> Result<Vec<u8>, RebuildFault>
    ensures brings { IfOk result (λ bytes. BringsBack of.now bytes.items) }
    ensures between { IfOk result (λ _. IsBetween of.now.screen.state.coding of.now) }
{
    if !of.is_between() {
        return Err(RebuildFault::Unfinished);
    }
    let mut bytes = Vec::new(alloc);
    put_screen(of.screen(), &mut bytes)?;
    judge(alloc, of, &bytes)?;
    Ok(bytes)
}
