//! Calls of two loops. One call is held until one of the other loop was answered.

use server_loop::Gate;
use std::sync::atomic::{AtomicU64, Ordering};
use std::thread;
use std::time::{Clock, Duration};

// A call is held at most this many milliseconds.
const WAIT: usize = 30_000;

/// Calls of the loops of a session.
#[derive(Drop)]
pub(crate) struct Calls {
    // How many calls came. The first is held.
    begun: AtomicU64,
    // How many calls of the first loop, and of the second, were answered.
    first: AtomicU64,
    second: AtomicU64,
    // How often the other loop was waited for in vain.
    missed: AtomicU64,
}

impl Calls {
    /// The calls of this many loops. If there is one loop alone, no call is held.
    pub(crate) fn new(loops: usize) -> Calls {
        Calls {
            begun: AtomicU64::new(if loops == 2 { 0 } else { 1 }),
            first: AtomicU64::new(0),
            second: AtomicU64::new(0),
            missed: AtomicU64::new(0),
        }
    }

    /// The gate of the first loop or of the second.
    pub(crate) fn latch<'a, R>(&'a self, rt: &'a R, is_first: bool) -> LatchGate<'a, R> {
        let (mine, theirs) = if is_first {
            (&self.first, &self.second)
        } else {
            (&self.second, &self.first)
        };
        LatchGate {
            rt,
            begun: &self.begun,
            mine,
            theirs,
            missed: &self.missed,
        }
    }

    /// Whether a call was held in vain.
    pub(crate) fn has_missed(&self) -> bool {
        self.missed.load(Ordering::SeqCst) != 0
    }
}

/// Holds the call that comes first, before it is submitted, until a call of the other loop was
/// answered.
#[derive(Drop)]
pub(crate) struct LatchGate<'a, R> {
    rt: &'a R,
    begun: &'a AtomicU64,
    mine: &'a AtomicU64,
    theirs: &'a AtomicU64,
    missed: &'a AtomicU64,
}

impl<R: Clock> Gate for LatchGate<'_, R> {
    fn before(&mut self) {
        if self.begun.fetch_add(1, Ordering::SeqCst) != 0 {
            return;
        }
        for _ in 0..WAIT {
            if self.theirs.load(Ordering::SeqCst) != 0 {
                return;
            }
            thread::sleep(self.rt, Duration::from_millis(1));
        }
        self.missed.fetch_add(1, Ordering::SeqCst);
    }

    fn after(&mut self) {
        self.mine.fetch_add(1, Ordering::SeqCst);
    }
}
