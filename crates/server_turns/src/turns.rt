//! One turn of a loop, and its last ones.

ghost use Rattle.std.specs.Prelude.{◌≡◌};
ghost use Rattle.server_turns.specs.Course.{course_of};
ghost use Rattle.server_turns.specs.Turns.{Asks, Ends, EndsReads, EndsServer, EndsWrites, Holds, Learns, Looks, Notes};
ghost use Rattle.server_turns.specs.Turns.{ReadsTurn, Tells, Turns, WakesIf, WindsAll, WindsOn, WindsUntil, WindsUp};

use crate::around::Around;
use crate::turner::Turner;
use crate::waits::is_late;
use server_connections::{Awaits, PeerStream, ServerEnd, SessionSeat};
use server_steps::{Gate, Reads, Submitted, Writes, set_look};
use std::io;
use std::sync::Wait;
use std::time::{Clock, Duration};

impl<S: PeerStream + Drop, G: Gate + Drop, J: SessionSeat + Drop, A: Around<S>> Turner<S, G, J, A> {
    // Takes the users who may connect, if the file was looked at since the loop took them.
    fn look_at_users<R: Clock + Wait>(&mut self, rt: &R)
        ensures { Learns A.does (course_of self.old) (course_of self.new) }
    {
        let Some(learned) = self.around.newest(rt, &mut self.count) else {
            return;
        };
        self.own.looked = Some(learned.look);
        match learned.users {
            Some(users) => self.own.users = Some(users),
            None => {}
        }
    }

    // If a message waits, takes the users who may connect. A look that ends after this wakes the loop.
    fn look_if_awaited<R: Clock + Wait>(&mut self, rt: &R)
        ensures { Looks A.does (course_of self.old) (course_of self.new) }
    {
        if !self.own.connections.any_awaits(Awaits::Ration) {
            return;
        }
        self.around.await_look();
        self.look_at_users(rt);
    }

    // If a first message waits for a look at the users' file that nobody asked for, asks for one. One that ends
    // after this wakes the loop.
    fn ask_if_awaited(&mut self, rt: &impl Wait)
        ensures { Asks A.does (course_of self.old) (course_of self.new) }
    {
        if !self.own.connections.any_awaits(Awaits::Look) {
            return;
        }
        self.around.await_look();
        let look = self.around.ask(rt);
        set_look(&mut self.own.connections, look);
    }

    // Wakes the other loops if they may have something to do. While much comes to this one it doesn't wake
    // them for output: they look by themselves.
    fn wake_if(&mut self, submitted: Submitted, is_news: bool) -> io::Result<()>
        ensures { WakesIf A.does submitted is_news (course_of self.old) result (course_of self.new) }
    {
        if is_news || submitted.has_acted || (submitted.is_some && !self.pace.is_busy()) {
            return self.around.wake_others();
        }
        Ok(())
    }

    // Notes whether much comes to this loop. If that changed, the loops to which much comes are counted anew.
    fn note_much(&mut self, now: Option<Duration>, is_much: bool) -> bool
        ensures { Notes A.does now is_much (course_of self.old) result (course_of self.new) }
    {
        if !self.pace.note(now, is_much) {
            return false;
        }
        self.around.note_flood(self.pace.is_busy());
        true
    }

    // Whether the turn's draws wait.
    fn holds(&mut self, now: Option<Duration>, has_typed: bool) -> bool
        ensures { Holds A.does now has_typed (course_of self.old) result (course_of self.new) }
    {
        self.pace.holds(self.around.is_flooded(), now, has_typed)
    }

    // A turn's reads are done: wakes the other loops if they may have something to do. Returns whether the
    // turn's draws wait.
    fn end_reads(&mut self, now: Option<Duration>, reads: Reads) -> io::Result<bool>
        ensures { EndsReads A.does now reads (course_of self.old) result (course_of self.new) }
    {
        let is_news = self.note_much(now, reads.is_much);
        match self.wake_if(reads.submitted, is_news) {
            Ok(()) => Ok(self.holds(now, reads.has_typed)),
            Err(error) => Err(error),
        }
    }

    // A turn's writes are done: wakes the other loops if they may have something to do.
    fn end_writes(&mut self, now: Option<Duration>, writes: Writes) -> io::Result<()>
        ensures { EndsWrites A.does now writes (course_of self.old) result (course_of self.new) }
    {
        self.pace.draw(now, writes.drawn);
        self.wake_if(writes.submitted, false)
    }

    // Tells the log what happened, once.
    fn tell_news<R: Clock + Wait>(&mut self, rt: &R)
        ensures { Tells A.does (course_of self.old) (course_of self.new) }
    {
        self.around.tell(rt, self.own.news());
        self.own.note_told();
    }

    // The server ends, if it is to.
    fn end_if(&mut self, end: Option<ServerEnd>) -> io::Result<()>
        ensures { EndsServer A.does end (course_of self.old) result (course_of self.new) }
    {
        match end {
            Some(end) => self.around.end(end),
            None => Ok(()),
        }
    }

    // What comes of a turn is written, and told.
    fn end_turn<R: Clock + Wait>(
        &mut self,
        rt: &R,
        now: Option<Duration>,
        holds_draws: bool,
    ) -> io::Result<()>
        ensures { Ends J.SessionSeat S.PeerStream A.does now holds_draws (course_of self.old) result
            (course_of self.new) }
    {
        let writes = self.own.end_turn(rt, holds_draws);
        match self.end_writes(now, writes) {
            Ok(()) => {
                self.tell_news(rt);
                self.end_if(writes.end)
            }
            Err(error) => Err(error),
        }
    }

    // What came is read and done. Returns whether the turn's draws wait.
    fn read<R: Clock + Wait>(&mut self, rt: &R, now: Option<Duration>) -> io::Result<bool>
        ensures { ReadsTurn J.SessionSeat S.PeerStream A.does now (course_of self.old) result
            (course_of self.new) }
    {
        self.look_if_awaited(rt);
        self.own.seat.set_time(rt);
        let reads = self.own.read_all(rt);
        self.ask_if_awaited(rt);
        self.end_reads(now, reads)
    }

    /// One turn at this time: what came is read and done, and what comes of it is written.
    pub(crate) fn turn<R: Clock + Wait>(&mut self, rt: &R, now: Option<Duration>) -> io::Result<()>
        ensures { Turns J.SessionSeat S.PeerStream A.does now (course_of self.old) result (course_of self.new) }
    {
        match self.read(rt, now) {
            Ok(holds_draws) => {
                self.own.expire();
                self.end_turn(rt, now, holds_draws)
            }
            Err(error) => Err(error),
        }
    }

    // Waits a while for the peers that read why the server ends, and tells them again. The answer is false once
    // nobody is left, or they had their time.
    fn wind_on<R: Clock + Wait>(&mut self, rt: &R, end: ServerEnd, count: u64) -> io::Result<bool>
        ensures { WindsOn J.SessionSeat S.PeerStream A.does end count (course_of self.old) result
            (course_of self.new) }
    {
        if self.own.connections.len() == 0 || is_late(self.ended, self.around.now(rt), count) {
            return Ok(false);
        }
        if let Err(error) = self.around.pause() {
            return Err(error);
        }
        self.own.finish(rt, end);
        Ok(true)
    }

    // Gives the peers time to read why the server ends, whatever else comes.
    fn wind_until<R: Clock + Wait>(&mut self, rt: &R, end: ServerEnd) -> io::Result<()>
        ensures { WindsUntil J.SessionSeat S.PeerStream A.does end (course_of self.old) result
            (course_of self.new) }
    {
        'pauses: for count in 0..u64::MAX {
            match self.wind_on(rt, end, count) {
                Ok(true) => {}
                Ok(false) => return Ok(()),
                Err(error) => return Err(error),
            }
        }
        Ok(())
    }

    // Tells the peers why the server ends, and gives them time to read it.
    fn wind_all<R: Clock + Wait>(&mut self, rt: &R, end: ServerEnd) -> io::Result<()>
        ensures { WindsAll J.SessionSeat S.PeerStream A.does end (course_of self.old) result
            (course_of self.new) }
    {
        self.own.finish(rt, end);
        self.wind_until(rt, end)
    }

    /// Takes in no more connections, tells the peers why the server ends, gives them time to read it, and tells
    /// the log the last news.
    pub(crate) fn wind_up<R: Clock + Wait>(&mut self, rt: &R, end: ServerEnd) -> io::Result<()>
        ensures { WindsUp J.SessionSeat S.PeerStream A.does end (course_of self.old) result
            (course_of self.new) }
    {
        self.around.close();
        self.ended = self.around.now(rt);
        match self.wind_all(rt, end) {
            Ok(()) => {
                self.tell_news(rt);
                Ok(())
            }
            Err(error) => Err(error),
        }
    }
}
