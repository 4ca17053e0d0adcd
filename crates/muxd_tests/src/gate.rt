//! A server's gate that holds the first call.

use server::Gate;
use std::sync::atomic::{AtomicU64, Ordering};
use std::thread;
use std::time::{Clock, Duration};

// How long to wait at most, in milliseconds.
const MOST: usize = 10_000;

/// What the gate has seen of the calls of a server's loops.
#[derive(Drop)]
pub struct GateCalls {
    /// How many calls began.
    pub begun: AtomicU64,
    /// The loops of the first six calls that were answered: a 1, and then a digit for each.
    answered: AtomicU64,
}

impl GateCalls {
    pub fn new() -> GateCalls {
        GateCalls {
            begun: AtomicU64::new(0),
            answered: AtomicU64::new(1),
        }
    }

    /// The loops of the calls that were answered: a 1, and then a digit for each of the first six.
    pub fn loops(&self) -> u64 {
        self.answered.load(Ordering::SeqCst)
    }
}

/// Waits until a number changes from this one. Returns whether it did.
pub fn wait<R: Clock>(rt: &R, number: &AtomicU64, same: u64) -> bool {
    for _ in 0..MOST {
        if number.load(Ordering::SeqCst) != same {
            return true;
        }
        thread::sleep(rt, Duration::from_millis(1));
    }
    false
}

/// Holds the first call, before it is submitted, until another call was answered.
#[derive(Clone, Copy)]
pub struct FirstCallGate<'a> {
    pub runtime: HostRuntime,
    pub calls: &'a GateCalls,
    pub digit: u64,
}

impl Gate for FirstCallGate<'_> {
    fn stand_at(&mut self, number: usize) {
        self.digit = number as u64;
    }

    fn before(&mut self) {
        if self.calls.begun.fetch_add(1, Ordering::SeqCst) == 0 {
            let _ = wait(&self.runtime, &self.calls.answered, 1);
        }
    }

    fn after(&mut self) {
        let answered = self.calls.loops();
        if answered < 1_000_000 {
            let more = answered.wrapping_mul(10).wrapping_add(self.digit);
            self.calls.answered.store(more, Ordering::SeqCst);
        }
    }
}
