//! What the loops share.

ghost use Rattle.std.specs.Prelude.{◌≡◌, IfErr, IfOk, IfSome, OnErr};
ghost use Rattle.std.specs.Option.{option_copied};
ghost use Rattle.session.specs.Trace.{happening};
ghost use Rattle.hub.specs.Seats.{Answers, with_handed};
ghost use Rattle.server_session.specs.Seating.{IsFiled, IsRefused, StopsAs};

use acl::UserId;
use hub::{Answer, Begun, Handed, Hub, HubFault, Ruling, Seat, TrailEntry};
use server_trail::{PutLine, Recorder, Stopped};
use server_users::Users;
use session::Event;
use std::sync::Wait;
use std::time::Clock;

/// What takes the lines of a session's trail.
pub trait TrailLines {
    ghost use Rattle.std.specs.Prelude.{ℕ, Option, IfOk};
    ghost use Rattle.hub.specs.Trails.{Entry};
    ghost use Rattle.server_trail.specs.Waiting.{IsEntrys};
    ghost use Rattle.server_trail.specs.declared.waiting.Stopped.{Stopped as Stop};

    // The place of an entry, and the entry unless memory was refused for its copy. Only a call of `put`
    // shows that it was put down.
    ghost puts: { Self → ℕ → Option Entry → Type 0 };

    // Only a call of `set_time` shows that the time was said.
    ghost times: { Self → Type 0 };

    // Only a call of `stopped` shows what it answered.
    ghost stops: { Self → Option Stop → Type 0 };

    /// Puts down the line of an entry, which stands at this place in the trail, unless the file has stopped.
    fn put<'e, R: Wait>(
        &self,
        rt: &R,
        place: usize,
        entry: Option<&'e TrailEntry>,
    ) -> Result<PutLine<'e>, Stopped>
        ensures put { puts self.now place (option_copied entry.entry) }
        ensures line { IfOk result (IsEntrys place (option_copied entry.entry)) };

    /// Says the time, for the lines that follow.
    fn set_time<R: Clock>(&self, rt: &R)
        ensures { times self.now };

    /// What shows that no line is taken any more; None as long as lines are taken.
    fn stopped(&self) -> Option<Stopped>
        ensures { stops self.now result };
}

impl TrailLines for Recorder {
    // A lock hides the lines. That one was put down, or that the file has stopped, the answer shows.
    ghost puts = { λ recorder place entry. Unit {0} };

    ghost times = { λ recorder. Unit {0} };

    ghost stops = { λ recorder stop. Unit {0} };

    fn put<'e, R: Wait>(
        &self,
        rt: &R,
        place: usize,
        entry: Option<&'e TrailEntry>,
    ) -> Result<PutLine<'e>, Stopped> {
        Recorder::put(self, rt, place, entry)
    }

    fn set_time<R: Clock>(&self, rt: &R) {
        Recorder::set_time(self, rt);
    }

    fn stopped(&self) -> Option<Stopped> {
        self.stop()
    }
}

/// A session that loops share, as the seat of a loop knows it. Each relation is shown by a call of its
/// function alone.
pub trait LoopSession<L: Begun> {
    ghost use Rattle.std.specs.Prelude.{ℕ, Bool, List, Option};
    ghost use Rattle.acl.specs.declared.user_id.UserId.{UserId as User};
    ghost use Rattle.session.specs.Trace.{EventValue};
    ghost use Rattle.session.specs.event.Effect.{Effect as Effected};
    ghost use Rattle.hub.specs.Seats.{Ruled, Sitting, Told};
    ghost use Rattle.hub.specs.answer.HubFault.{HubFault as Faulted};
    ghost use Rattle.server_trail.specs.declared.waiting.Stopped.{Stopped as Stop};
    ghost use Rattle.server_users.specs.Entries.{Entry};

    // The users who may connect when the server starts.
    ghost known: { Self → List Entry };

    // The seat before a step, its event, what the session answered, and the seat after it.
    ghost answers: { Self → Sitting → EventValue → Told → Sitting → Type 0 };

    // The seat, its event, and why no step was made.
    ghost refuses: { Self → Sitting → EventValue → Faulted → Type 0 };

    // The seat before effects were taken, these, whether a step other than a draw was made, and the seat
    // after that.
    ghost hands: { Self → Sitting → List (Effected × Option User) → Bool → Sitting → Type 0 };

    // A user, a window, and what the session ruled on typing.
    ghost rules: { Self → User → ℕ → Ruled → Type 0 };

    // The time was said to the trail's file.
    ghost times: { Self → Type 0 };

    // What shows that the trail's file takes no line any more.
    ghost stops: { Self → Option Stop → Type 0 };

    fn users(&self) -> &Users
        ensures { result.now ≡ known self.now };

    /// Submits an event to the session. If that makes an entry, its line goes to the trail's file.
    fn submit<'e, R: Wait>(
        &self,
        rt: &R,
        seat: &mut Seat<L>,
        event: Event<'e>,
    ) -> Result<Answer<'e>, HubFault>
        ensures answer { IfOk result (λ told. answers self.now seat.old (happening event.entry) told seat.new) }
        ensures refused { IfErr result (λ fault. refuses self.now seat.old (happening event.entry) fault) }
        ensures same { OnErr result (seat.new ≡ seat.old) };

    /// Takes the effects that wait for a seat, and says whether a step other than a draw was made.
    fn take<R: Wait>(&self, rt: &R, seat: &mut Seat<L>) -> (Handed, bool)
        ensures { hands self.now seat.old result.0 result.1 seat.new };

    /// Whether a user may type into a window.
    fn may_type<R: Wait>(&self, rt: &R, user: UserId, window: u32) -> Ruling
        ensures { rules self.now user window result };

    /// Says the time to the trail's file, for the entries that follow.
    fn set_time<R: Clock>(&self, rt: &R)
        ensures { times self.now };

    /// What shows that the trail has a file to which nothing is written any more; None otherwise.
    fn stopped(&self) -> Option<Stopped>
        ensures { stops self.now result };
}

/// The session that the loops share, who may connect, and what writes its trail to a file.
#[derive(Drop)]
pub struct SharedSession<L: Begun, T> {
    pub(crate) hub: Hub<L>,
    pub(crate) users: Users,
    // None if no file is written.
    pub(crate) recorder: Option<T>,
}

impl<L: Begun, T: TrailLines> LoopSession<L> for SharedSession<L, T> {
    ghost known = { λ shared. shared.users };

    // The hub answered by one step for this seat, and the entry was put down.
    ghost answers = { λ shared old event told new.
        Answers event told old new × IsFiled T.puts shared.recorder told };

    // The hub refused the event.
    ghost refuses = { λ shared old event fault. IsRefused event fault };

    // The hub handed these effects to this seat.
    ghost hands = { λ shared old effects told new. new ≡ with_handed effects told old };

    // The hub ruled on this user and this window.
    ghost rules = { λ shared user window ruled. (ruled.user ≡ user) × (ruled.window ≡ window) };

    // The time was said to the file, if there is one.
    ghost times = { λ shared. IfSome shared.recorder T.times };

    // The file has stopped, if there is one.
    ghost stops = { λ shared stop. StopsAs T.stops shared.recorder stop };

    fn users(&self) -> &Users {
        &self.users
    }

    fn submit<'e, R: Wait>(
        &self,
        rt: &R,
        seat: &mut Seat<L>,
        event: Event<'e>,
    ) -> Result<Answer<'e>, HubFault> {
        let answer = match self.hub.submit(rt, seat, event) {
            Ok(answer) => answer,
            Err(fault) => return Err(fault),
        };
        if let (Some(recorder), Some(place)) = (&self.recorder, answer.place()) {
            let _ = recorder.put(rt, place, answer.entry());
        }
        Ok(answer)
    }

    fn take<R: Wait>(&self, rt: &R, seat: &mut Seat<L>) -> (Handed, bool) {
        self.hub.take(rt, seat)
    }

    fn may_type<R: Wait>(&self, rt: &R, user: UserId, window: u32) -> Ruling {
        self.hub.may_type(rt, user, window)
    }

    fn set_time<R: Clock>(&self, rt: &R) {
        if let Some(recorder) = &self.recorder {
            recorder.set_time(rt);
        }
    }

    fn stopped(&self) -> Option<Stopped> {
        self.recorder.as_ref()?.stopped()
    }
}
