//! What is called around a step that a loop submits, which steps it submitted, and what they cost.

ghost use Rattle.std.specs.Prelude.{◌≡◌, ◌↔◌, IfOk, IsTrue};
ghost use Rattle.command_lang.specs.Relation.{Relates};
ghost use Rattle.command_lang.specs.declared.command.Command.TheVariants as command;
ghost use Rattle.session.specs.Trace.{happening};
ghost use Rattle.server_steps.specs.Submitted.{entries_of, kept_of, noted};

use command_lang::{Command, FaultKind, parse};
use session::Event;
use std::alloc::{AllocError, Global};

/// Is called before and after each event that a loop submits.
pub trait Gate {
    /// The gate is the one of the loop of this number.
    fn stand_at(&mut self, _number: usize) {}

    fn before(&mut self);

    fn after(&mut self);
}

/// A gate that lets everything pass.
#[derive(Clone, Copy, Debug)]
pub struct Open;

impl Gate for Open {
    fn before(&mut self) {}

    fn after(&mut self) {}
}

/// Which steps a loop submitted.
#[derive(Clone, Copy)]
pub struct Submitted {
    /// A step other than a draw.
    pub is_some: bool,
    /// A step that may do more than to change what is drawn.
    pub has_acted: bool,
}

impl Submitted {
    /// None.
    pub const NOTHING: Submitted = Submitted {
        is_some: false,
        has_acted: false,
    };

    /// Notes that this event was submitted.
    pub fn note(&mut self, event: Event<'_>)
        ensures { self.new ≡ noted (happening event.entry) self.old }
    {
        match event {
            Event::Draw { .. } => {}
            Event::Output { .. } => self.is_some = true,
            _ => {
                self.is_some = true;
                self.has_acted = true;
            }
        }
    }
}

/// How many entries of the trail an event leads to. An attach has two, as its client also leaves.
pub fn entries_of(event: Event) -> u16
    ensures { result ≡ entries_of (happening event.entry) }
{
    match event {
        Event::Attach { .. } => 2,
        _ => 1,
    }
}

/// How many bytes of an event the trail keeps.
pub fn kept_of(event: Event) -> usize
    ensures { result ≡ kept_of (happening event.entry) }
{
    match event {
        Event::Command { line, .. } => line.len(),
        Event::Open { title, .. } => title.len(),
        _ => 0,
    }
}

// Whether a command is `quit`.
fn quits(order: &Command) -> bool
    ensures { IsTrue result ↔ (order.now ≡ command.Quit) }
{
    matches!(order, Command::Quit)
}

/// Whether a line is the command `quit`. `AllocError` if memory is refused.
pub fn is_quit(alloc: Global, line: &[u8]) -> Result<bool, AllocError>
    ensures { IfOk result (λ is_quit. IsTrue is_quit ↔ Relates line.now command.Quit) }
{
    match parse(alloc, line) {
        Ok(command) => Ok(quits(&command)),
        Err(fault) => match fault.kind {
            FaultKind::NoMemory => Err(AllocError),
            _ => Ok(false),
        },
    }
}
