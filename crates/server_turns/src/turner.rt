//! A loop with what it has around it, from its first turn to its last one.

ghost use Rattle.std.specs.Prelude.{◌≡◌, Err, IfErr, IfOk, None, Ok, false};
ghost use Rattle.server_loop.specs.Submitting.{state_of};
ghost use Rattle.server_turns.specs.Course.{Course, course_of};
ghost use Rattle.server_turns.specs.Rounds.{GoesRound, Serves, TakesTurns};

use crate::around::Around;
use server_connections::{PeerStream, ServerEnd, SessionSeat};
use server_loop::{Loop, Pace};
use server_steps::Gate;
use std::io;
use std::sync::Wait;
use std::time::{Clock, Duration};

/// A loop with what it has around it.
#[derive(Drop)]
pub struct Turner<S, G, J, A> {
    pub(crate) own: Loop<S, G, J>,
    pub(crate) around: A,
    // How many loops there are.
    pub(crate) loops: usize,
    // The count of the users that the loop has.
    pub(crate) count: u64,
    pub(crate) pace: Pace,
    // Connections may wait to be handed out, as the listener said.
    pub(crate) is_asked: bool,
    // When the server began to end.
    pub(crate) ended: Option<Duration>,
}

impl<S: PeerStream + Drop, G: Gate + Drop, J: SessionSeat + Drop, A: Around<S> + Drop> Turner<
    S,
    G,
    J,
    A,
> {
    /// One of this many loops, which had no turn yet.
    pub fn new(own: Loop<S, G, J>, around: A, loops: usize) -> Turner<S, G, J, A>
        ensures { course_of result ≡ record (course_of result) {
          own = state_of own;
          around = around;
          loops = loops;
          count = 0;
          pace = record { much = None; awaits_echo = false; drawn = None; since = None };
          is_asked = false;
          ended = None;
        } }
    {
        Turner {
            own,
            around,
            loops,
            count: 0,
            pace: Pace::new(),
            is_asked: false,
            ended: None,
        }
    }

    // Waits until there is something to do, and has a turn. Returns why the server ends, once it does.
    fn go_round<R: Clock + Wait>(&mut self, rt: &R) -> io::Result<Option<ServerEnd>>
        ensures { GoesRound J.SessionSeat S.PeerStream A.does A.wires (course_of self.old) result
            (course_of self.new) }
    {
        let now = match self.begin(rt) {
            Ok(now) => now,
            Err(error) => return Err(error),
        };
        match self.turn(rt, now) {
            Ok(()) => Ok(self.around.over()),
            Err(error) => Err(error),
        }
    }

    // Has turns until the server ends, and the last ones.
    fn take_turns<R: Clock + Wait>(&mut self, rt: &R) -> io::Result<()>
        ensures { TakesTurns J.SessionSeat S.PeerStream A.does A.wires (course_of self.old) result
            (course_of self.new) }
    {
        'rounds: for _ in rt.forever() {
            match self.go_round(rt) {
                Ok(None) => {}
                Ok(Some(end)) => return self.wind_up(rt, end),
                Err(error) => return Err(error),
            }
        }
        unreachable!()
    }

    // Waits until all loops are ready, and has turns until the server ends, if it serves.
    fn serve_if<R: Clock + Wait>(&mut self, rt: &R) -> io::Result<()>
        ensures { Serves J.SessionSeat S.PeerStream A.does A.wires (course_of self.old) result
            (course_of self.new) }
    {
        self.own.looked = Some(0);
        if !self.around.arrive(rt) {
            return Ok(());
        }
        self.take_turns(rt)
    }

    /// Waits until all loops are ready, has turns until the server ends, and returns the seat.
    pub fn serve<R: Clock + Wait>(mut self, rt: &R) -> io::Result<J>
        ensures ok { IfOk result (λ seat. (left : Course S J A) × (seat ≡ left.own.seat)
            × Serves J.SessionSeat S.PeerStream A.does A.wires (course_of self) (Ok tt) left) }
        ensures err { IfErr result (λ error. (left : Course S J A)
            × Serves J.SessionSeat S.PeerStream A.does A.wires (course_of self) (Err error) left) }
    {
        match self.serve_if(rt) {
            Ok(()) => {
                let Turner { own, .. } = self;
                Ok(own.into_seat())
            }
            Err(error) => Err(error),
        }
    }
}
