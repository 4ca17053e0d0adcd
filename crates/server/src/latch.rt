//! Where the loops wait until all of them can serve, and the server has said so.

ghost use Rattle.std.specs.Prelude.{◌≡◌, None, Ok, Some};

use server_outcome::{ReadySaid, Unready, Unsaid};
use std::io::{self, Write};
use std::sync::{Condvar, Mutex, Wait};

// What is known of the loops.
#[derive(Drop)]
struct Loops {
    // How many aren't ready yet.
    missing: usize,
    // Why one can't be started.
    fault: Option<Unready>,
    // Whether they are to serve, once that is known.
    serve: Option<Option<ReadySaid>>,
}

/// Shows that all loops are ready.
#[derive(Drop)]
pub struct AllReady(());

/// Where the loops wait until all of them are ready and the server has said so.
#[derive(Drop)]
pub struct Latch {
    loops: Mutex<Loops>,
    news: Condvar,
}

impl Latch {
    /// This many loops aren't ready yet.
    pub fn new(loops: usize) -> Latch {
        Latch {
            loops: Mutex::new(Loops {
                missing: loops,
                fault: None,
                serve: None,
            }),
            news: Condvar::new(),
        }
    }

    /// A loop can't be started.
    pub fn fail(&self, rt: &impl Wait, fault: Unready) {
        self.loops.lock(rt).fault = Some(fault);
        self.news.notify_all();
    }

    /// A loop is ready. It waits until the server is, and returns what shows that it is to serve.
    pub fn arrive(&self, rt: &impl Wait) -> Option<ReadySaid> {
        let mut loops = self.loops.lock(rt);
        loops.missing = loops.missing.saturating_sub(1);
        self.news.notify_all();
        let loops = self.news.wait_while(rt, loops, |it| it.serve.is_none());
        loops.serve.flatten()
    }

    /// Waits until all loops are ready. None if one can't be started.
    pub fn await_all(&self, rt: &impl Wait) -> Option<AllReady> {
        let loops = self.loops.lock(rt);
        let loops = self
            .news
            .wait_while(rt, loops, |it| it.missing > 0 && it.fault.is_none());
        match loops.fault {
            None => Some(AllReady(())),
            Some(_) => None,
        }
    }

    /// Why a loop couldn't be started.
    pub fn fault(&self, rt: &impl Wait) -> Option<Unready> {
        self.loops.lock(rt).fault
    }

    /// Tells the loops whether they are to serve.
    pub fn open(&self, rt: &impl Wait, serve: Option<ReadySaid>) {
        self.loops.lock(rt).serve = Some(serve);
        self.news.notify_all();
    }
}

// Where the line is written, unless it was said, and why that couldn't be.
#[derive(Drop)]
struct ReadyOutput<'a, O> {
    unsaid: Option<Unsaid<'a, O>>,
    fault: Option<io::Error>,
}

/// Where a server says that it is ready.
#[derive(Drop)]
pub struct ReadyLine<'a, O> {
    output: Mutex<ReadyOutput<'a, O>>,
}

impl<'a, O: Write> ReadyLine<'a, O> {
    /// It writes to this output, and has said nothing yet.
    pub fn new(output: &'a mut O) -> ReadyLine<'a, O> {
        let unsaid = Some(Unsaid::new(output));
        ReadyLine {
            output: Mutex::new(ReadyOutput {
                unsaid,
                fault: None,
            }),
        }
    }

    /// Says that the server is ready, of which all loops are. None if it couldn't.
    pub fn say(&self, rt: &impl Wait, _all: AllReady) -> Option<ReadySaid> {
        let mut line = self.output.lock(rt);
        match line.unsaid.take()?.say() {
            Ok(said) => Some(said),
            Err((error, unsaid)) => {
                (line.unsaid, line.fault) = (Some(unsaid), Some(error));
                None
            }
        }
    }

    /// What came of saying it, or None if it didn't get to that; and what shows that it was never said. It isn't said
    /// later.
    pub fn said(&self, rt: &impl Wait) -> (Option<io::Result<()>>, Option<Unsaid<'a, O>>)
        ensures { result.0 ≡ Some (Ok tt) → result.1 ≡ None }
    {
        let mut line = self.output.lock(rt);
        match line.unsaid.take() {
            Some(unsaid) => (line.fault.map(Err), Some(unsaid)),
            None => (Some(Ok(())), None),
        }
    }
}
