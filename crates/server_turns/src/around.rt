//! What a loop has around it.

use server_seat::{News, ServerEnd};
use server_users::Users;
use std::io;
use std::sync::Wait;
use std::time::{Clock, Duration};

/// What a loop learns of who may connect.
#[derive(Drop)]
pub struct Learned {
    /// The last look at the users' file that is done.
    pub look: u64,
    /// The users, if the loop has others.
    pub users: Option<Users>,
}

/// What came to a loop.
#[derive(Clone, Copy)]
pub enum Came {
    /// News of the other loops.
    Wake,
    /// Connections may wait to be handed to the loops.
    Listener,
    /// Something came to the connection of this key: there may be something to read, it may take bytes
    /// again, or its other end was closed.
    Peer {
        key: usize,
        is_readable: bool,
        is_writable: bool,
        has_hung_up: bool,
    },
}

/// How it stands with connections that weren't handed to the loops yet, if this loop does so.
#[derive(Clone, Copy)]
pub struct Backlog {
    /// More may wait.
    pub has_more: bool,
    /// Some wait that couldn't be taken in.
    pub is_stuck: bool,
}

/// What a loop has around it: the other loops, the listener, the users' file, the log and the system. What
/// they see of a call lies behind threads, and no clause tells it.
pub trait Around<S> {
    ghost use Rattle.std.specs.Prelude.{ℕ, Bool, Option};
    ghost use Rattle.server_turns.specs.Calls.{Call, Accept, Arrive, Ask, Await, Close, End, Event, Flood, Flooded};
    ghost use Rattle.server_turns.specs.Calls.{Hand, Know, Note, Now, Over, Pause, Queue, Take, Tell};
    ghost use Rattle.server_turns.specs.Calls.{Wait as Sleep, Wake as Rouse};

    // What a call was given and answered. Only that call shows it, and one call shows no second one.
    ghost does: { Self → Call → Self → Type 0 };

    // The key of a connection, and its stream.
    ghost wires: { Self → ℕ → Option S → Self → Type 0 };

    /// The loop is ready. It waits until all loops are. Returns whether they are to serve.
    fn arrive<R: Wait>(&mut self, rt: &R) -> bool
        ensures { does self.old (Arrive result) self.new };

    /// Whether much comes to any loop.
    fn is_flooded(&self) -> bool
        ensures { does self.now (Flooded result) self.now };

    /// Much comes to this loop from now on, or it doesn't any more: the loops to which much comes are counted.
    fn note_flood(&mut self, is_much: bool)
        ensures { does self.old (Flood is_much) self.new };

    /// The time, if there is a clock.
    fn now<R: Clock>(&self, rt: &R) -> Option<Duration>
        ensures { does self.now (Now result) self.now };

    fn backlog(&self) -> Backlog
        ensures { does self.now (Queue result) self.now };

    /// Waits until something comes, at most this long. News of the other loops end it at once.
    fn wait(&mut self, longest: Option<Duration>) -> io::Result<()>
        ensures { does self.old (Sleep longest result) self.new };

    /// What else came by the end of the last wait.
    fn next_event(&mut self) -> Option<Came>
        ensures { does self.old (Event result) self.new };

    /// Hands connections that wait to the loops.
    fn accept<R: Wait>(&mut self, rt: &R) -> io::Result<()>
        ensures { does self.old (Accept result) self.new };

    /// Takes the news that came before this; what they tell of is looked at after this.
    fn take_news(&mut self)
        ensures { does self.old Take self.new };

    /// The next connection that was handed to this loop: whether it is extra, as no more are to stay.
    fn next_handed<R: Wait>(&mut self, rt: &R) -> Option<bool>
        ensures { does self.old (Hand result) self.new };

    /// The stream of the connection that was handed last, which wakes the loop under this key. None if the
    /// system refuses.
    fn wire(&mut self, key: usize) -> Option<S>
        ensures { wires self.old key result self.new };

    /// The loop has this many connections. While it has none it isn't woken for the others' steps.
    fn note_peers(&mut self, count: usize)
        ensures { does self.old (Note count) self.new };

    /// From now on a look that ends wakes the loop.
    fn await_look(&mut self)
        ensures { does self.old Await self.new };

    /// Asks for a look at the users' file that begins after this, and gives its number.
    fn ask<R: Wait>(&mut self, rt: &R) -> u64
        ensures { does self.old (Ask result) self.new };

    /// What is known by now, for a loop that has the users of this count. None if there is no memory for a
    /// copy of the users.
    fn newest<R: Clock + Wait>(&mut self, rt: &R, count: &mut u64) -> Option<Learned>
        ensures { does self.old (Know count.old result count.new) self.new };

    /// Wakes the other loops that have connections.
    fn wake_others(&mut self) -> io::Result<()>
        ensures { does self.old (Rouse result) self.new };

    /// Tells the log what happened.
    fn tell<R: Clock + Wait>(&mut self, rt: &R, news: &[News])
        ensures { does self.old (Tell news.now) self.new };

    /// The server is to end: the first cause holds.
    fn end(&mut self, end: ServerEnd) -> io::Result<()>
        ensures { does self.old (End end result) self.new };

    /// Why the server ends, once it does.
    fn over(&self) -> Option<ServerEnd>
        ensures { does self.now (Over result) self.now };

    /// No connection is handed to the loops any more.
    fn close(&mut self)
        ensures { does self.old Close self.new };

    /// Waits some milliseconds for peers that read how the server ends.
    fn pause(&mut self) -> io::Result<()>
        ensures { does self.old (Pause result) self.new };
}
