//! Events that a loop submits to the session which the loops share.

ghost use Rattle.std.specs.Prelude.{◌≡◌};
ghost use Rattle.session.specs.Trace.{happening};
ghost use Rattle.server_steps.specs.Submitted.{nothing_submitted};
ghost use Rattle.server_loop.specs.Naming.{IsOf, NamesNobody};
ghost use Rattle.server_loop.specs.Submitting.{Submits, after_step, state_of};
ghost use Rattle.server_loop.specs.Trying.{Tries};

use crate::own::Loop;
use server_connections::{SeatAnswer, SeatFault, SessionSeat};
use server_steps::{Gate, Submitted, came_of, end_by, entries_of, filled_by, kept_of};
use server_users::{Shown, UNIT, price};
use session::Event;
use std::sync::Wait;

impl<S: Drop, G: Gate + Drop, J: SessionSeat + Drop> Loop<S, G, J> {
    /// Submits an event that names no user: one step, or none if it is refused.
    pub(crate) fn submit(&mut self, rt: &impl Wait, event: Event) -> Result<SeatAnswer, SeatFault>
        requires { NamesNobody (happening event) }
        ensures { Submits J.SessionSeat (happening event.entry) (state_of self.old) result (state_of self.new) }
    {
        self.gate.before();
        let answer = self.seat.submit(rt, event);
        self.gate.after();
        self.note_step(event, &answer);
        answer
    }

    // Notes that an event was submitted, what is to be told of its answer, and how the server ends, if it does.
    fn note_step(&mut self, event: Event<'_>, answer: &Result<SeatAnswer, SeatFault>)
        ensures { state_of self.new
            ≡ after_step (happening event.entry) answer.now self.old.seat (state_of self.old) }
    {
        self.is_behind = true;
        self.submitted.note(event);
        self.news.put_any(filled_by(answer));
        self.end = end_by(answer, self.end);
    }

    /// Tries a step for a user who showed their token, and counts what comes of it. There is no answer yet
    /// while the user has to wait: too much was counted, or there is no memory to count.
    pub(crate) fn try_for(
        &mut self,
        rt: &impl Wait,
        shown: Shown,
        event: Event<'_>,
    ) -> Result<Option<SeatAnswer>, SeatFault>
        requires { IsOf shown.user (happening event) }
        ensures { Tries J.SessionSeat shown.user (happening event.entry)
            (state_of self.old) result (state_of self.new) }
    {
        let user = shown.user();
        let cost = price(entries_of(event), kept_of(event));
        if !self.rations.may(user, self.now) {
            return Ok(None);
        }
        if !self.seat.pay(rt, user, self.now, cost) {
            return Ok(None);
        }
        self.rations.count(user, self.now, cost / UNIT);
        self.gate.before();
        let tried = self.seat.submit(rt, event);
        self.gate.after();
        self.note_step(event, &tried);
        self.seat.settle(rt, user, cost, came_of(&tried));
        match tried {
            Ok(answer) => Ok(Some(answer)),
            Err(fault) => Err(fault),
        }
    }

    // Which steps were submitted since the last call.
    pub(crate) fn take_submitted(&mut self) -> Submitted
        ensures taken { result ≡ self.old.submitted }
        ensures none { self.new ≡ record self.old { submitted = nothing_submitted } }
    {
        std::mem::replace(&mut self.submitted, Submitted::NOTHING)
    }
}
