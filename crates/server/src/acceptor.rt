//! How connections are taken in.

use crate::loop_handle::{HandedStream, LoopHandle};
use mio::Registry;
use mio::net::{UnixListener, UnixStream};
use server_turns::Backlog;
use std::alloc::{AllocError, Global};
use std::io::{self, ErrorKind};
use std::sync::Wait;

// This many descriptors are kept for connections that don't stay, so that commands still work when
// the system grants no more.
const SPARES: usize = 8;

// At most this many connections are taken in before those that are there have their turn.
const MOST: usize = 16;

/// No connection waits.
pub const NONE: Backlog = Backlog {
    has_more: false,
    is_stuck: false,
};

/// Takes connections in as they come, and hands the kth to loop k modulo the number of loops.
#[derive(Drop)]
pub struct Acceptor {
    listener: UnixListener,
    count: usize,
    // Cloned to keep a descriptor: to let go of a clone frees its descriptor.
    registry: Registry,
    spares: Vec<Registry>,
    pub backlog: Backlog,
}

impl Acceptor {
    pub fn new(
        alloc: Global,
        listener: UnixListener,
        registry: Registry,
    ) -> Result<Acceptor, AllocError> {
        Ok(Acceptor {
            listener,
            count: 0,
            registry,
            spares: Vec::with_capacity(alloc, SPARES)?,
            backlog: NONE,
        })
    }

    // Keeps as many descriptors as it should, if the system grants them.
    fn keep_spares(&mut self) {
        for _ in self.spares.len()..SPARES {
            let Ok(spare) = self.registry.try_clone() else {
                return;
            };
            let _ = self.spares.push(spare);
        }
    }

    /// Takes in connections that wait, 16 at most. Without a descriptor a kept one is used, or it tries again later.
    pub fn accept(&mut self, rt: &impl Wait, loops: &[LoopHandle]) -> io::Result<()> {
        self.backlog = NONE;
        self.keep_spares();
        for _ in 0..MOST {
            let is_extra = self.spares.len() < SPARES;
            match self.listener.accept() {
                Ok((stream, _)) => self.hand(rt, loops, stream, is_extra)?,
                Err(error) => match error.kind() {
                    ErrorKind::WouldBlock => return Ok(()),
                    ErrorKind::Interrupted | ErrorKind::ConnectionAborted => {}
                    _ if self.spares.pop().is_some() => {}
                    _ => {
                        self.backlog.is_stuck = true;
                        return Ok(());
                    }
                },
            }
        }
        self.backlog.has_more = true;
        Ok(())
    }

    // Hands a connection to its loop. Without memory it is closed.
    fn hand(
        &mut self,
        rt: &impl Wait,
        loops: &[LoopHandle],
        stream: UnixStream,
        is_extra: bool,
    ) -> io::Result<()> {
        if self.count >= loops.len() {
            self.count = 0;
        }
        let Some(loop_handle) = loops.get(self.count) else {
            return Ok(());
        };
        self.count += 1;
        let handed = HandedStream { stream, is_extra };
        if loop_handle.hand(rt, handed) {
            loop_handle.wake()?;
        }
        Ok(())
    }
}
