//! The seat that a loop has in the session which the loops share.

ghost use Rattle.std.specs.Prelude.{◌≡◌};
ghost use Rattle.server_seat.specs.Ending.{why_of_end, why_of_fault};

use acl::UserId;
use attach_proto::Why;
use server_users::{Outcome, Users};
use session::{Effect, Event, Reply};
use std::sync::Wait;
use std::time::{Clock, Duration};

/// The answer to a submitted event.
#[derive(Drop)]
pub struct SeatAnswer {
    pub reply: Reply,
    /// How full the trail is by this event, in percent, if that is news.
    pub filled: Option<u8>,
    /// What came of the event for the user who tried it.
    pub outcome: Outcome,
    /// The window that was typed into, by its serial.
    pub typed: Option<u32>,
}

/// What a user may have a bounded number of.
#[derive(Clone, Copy, Debug, PartialEq, Eq)]
pub enum GuestKind {
    Client,
    Window,
}

/// Why a server ends.
#[derive(Clone, Copy, Debug, PartialEq, Eq)]
pub enum ServerEnd {
    /// A user gave the command `quit`.
    Quit,
    /// No entry goes into the session's trail any more.
    TrailFull,
    /// The hub refused a seat, or a loop failed.
    Fault,
}

impl ServerEnd {
    /// The cause that the peers are told.
    pub fn why(self) -> Why
        ensures { result ≡ why_of_end self }
    {
        match self {
            ServerEnd::Quit => Why::Quit,
            ServerEnd::TrailFull => Why::TrailFull,
            ServerEnd::Fault => Why::Fault,
        }
    }
}

/// Why a submitted event has no answer.
#[derive(Clone, Copy, Debug, PartialEq, Eq)]
pub enum SeatFault {
    NoMemory,
    /// The server ends for this cause.
    Over(ServerEnd),
}

impl SeatFault {
    /// The cause that the peer is told whose event it was.
    pub fn why(self) -> Why
        ensures { result ≡ why_of_fault self }
    {
        match self {
            SeatFault::NoMemory => Why::Fault,
            SeatFault::Over(end) => end.why(),
        }
    }
}

/// A loop's seat in the session that all loops share.
pub trait SessionSeat {
    ghost use Rattle.std.specs.Prelude.{◌≡◌, ℕ, Bool, List, Option, Result};
    ghost use Rattle.acl.specs.declared.user_id.UserId.{UserId as User};
    ghost use Rattle.session.specs.Trace.{EventValue, happening};
    ghost use Rattle.session.specs.event.Effect.{Effect as Effected};
    ghost use Rattle.server_seat.specs.declared.seat.GuestKind.{GuestKind as Kind};
    ghost use Rattle.server_seat.specs.declared.seat.SeatAnswer.{SeatAnswer as Answered};
    ghost use Rattle.server_seat.specs.declared.seat.SeatFault.{SeatFault as Faulted};
    ghost use Rattle.server_users.specs.Entries.{Entry};
    ghost use Rattle.server_users.specs.declared.allowance.Outcome.{Outcome as CameOf};
    ghost use Rattle.std.specs.declared.time.Duration.{Duration as Time};

    // The users who may connect when the server starts.
    ghost known: { Self → List Entry };

    // The seat before a step, its event, what the session answered, and the seat after it. Only a call of
    // `submit` shows that a step was made.
    ghost submits: { Self → EventValue → Result Answered Faulted → Self → Type 0 };

    // The seat before effects were taken, these, each with the user who typed it, whether a step other than
    // a draw was made, and the seat after that. Only a call of `take` shows that they were taken.
    ghost takes: { Self → List (Effected × Option User) → Bool → Self → Type 0 };

    // The seat, a user, a window, and whether what that user typed may go into that window. Only a call of
    // `may_type` shows that.
    ghost lets_type: { Self → User → ℕ → Bool → Type 0 };

    // The seat, a window, and whether what is typed into it next has to wait. Only a call of `is_full` shows
    // that.
    ghost finds_full: { Self → ℕ → Bool → Type 0 };

    // The seat, and whether the trail takes no entry any more. Only a call of `has_stopped` shows that.
    ghost stops: { Self → Bool → Type 0 };

    // What follows has the seat before one call and the seat after it. Only that call shows it, and after a second
    // one the seat may be another.

    // A user, the time, a cost, and whether the user paid it (`pay`).
    ghost pays: { Self → User → Time → ℕ → Bool → Self → Type 0 };

    // A user, a cost, and what came of the step for which it was settled (`settle`).
    ghost settles: { Self → User → ℕ → CameOf → Self → Type 0 };

    // A user, a kind, and how many a user may have if one more wasn't counted (`add`).
    ghost counts: { Self → User → Kind → Option ℕ → Self → Type 0 };

    // A user, and a kind of which one less was counted (`remove`).
    ghost uncounts: { Self → User → Kind → Self → Type 0 };

    // A window, and whether all loops were told that much waits for it (`set_full`).
    ghost sets_full: { Self → ℕ → Bool → Self → Type 0 };

    // The time was told to the trail's file (`set_time`).
    ghost sets_time: { Self → Self → Type 0 };

    /// The users who may connect when the server starts.
    fn users(&self) -> &Users
        ensures { result.now ≡ known self.now };

    /// Submits an event to the session: one step, or none if it is refused.
    fn submit<R: Wait>(&mut self, rt: &R, event: Event<'_>) -> Result<SeatAnswer, SeatFault>
        ensures step { submits self.old (happening event.entry) result self.new }
        ensures known { known self.new ≡ known self.old };

    /// Pays `cost` thousandths of a unit for a step that a user is about to try, unless the user has
    /// to wait. Returns whether it was paid.
    fn pay<R: Wait>(&mut self, rt: &R, user: UserId, now: Duration, cost: u32) -> bool
        ensures paid { pays self.old user now cost result self.new }
        ensures known { known self.new ≡ known self.old };

    /// Settles what was paid for a step, by what came of it.
    fn settle<R: Wait>(&mut self, rt: &R, user: UserId, cost: u32, outcome: Outcome)
        ensures settled { settles self.old user cost outcome self.new }
        ensures known { known self.new ≡ known self.old };

    /// Counts one more client or window of a user. If the user has as many as a user may have, none
    /// is counted, and that number is returned.
    fn add<R: Wait>(&mut self, rt: &R, user: UserId, kind: GuestKind) -> Option<u8>
        ensures counted { counts self.old user kind result self.new }
        ensures known { known self.new ≡ known self.old };

    /// Counts one client or window less of a user.
    fn remove<R: Wait>(&mut self, rt: &R, user: UserId, kind: GuestKind)
        ensures uncounted { uncounts self.old user kind self.new }
        ensures known { known self.new ≡ known self.old };

    /// Says the time to the trail's file, for the entries of the steps that follow.
    fn set_time<R: Clock>(&mut self, rt: &R)
        ensures told { sets_time self.old self.new }
        ensures known { known self.new ≡ known self.old };

    /// Whether the trail has a file to which nothing is written any more, or takes as much memory as it may.
    fn has_stopped(&self) -> bool
        ensures { stops self.now result };

    /// Takes the effects that wait for the loop's peers, each with the user who typed it, and says
    /// whether a step other than a draw was made since the last call.
    fn take<R: Wait>(&mut self, rt: &R) -> (Vec<(Effect, Option<UserId>)>, bool)
        ensures taken { takes self.old result.0.items result.1 self.new }
        ensures known { known self.new ≡ known self.old };

    /// Whether what this user typed may go into this window.
    fn may_type<R: Wait>(&self, rt: &R, user: UserId, window: u32) -> bool
        ensures { lets_type self.now user window result };

    /// Tells all loops whether much waits for a window, as its loop sees it now.
    fn set_full<R: Wait>(&mut self, rt: &R, window: u32, is_full: bool)
        ensures told { sets_full self.old window is_full self.new }
        ensures known { known self.new ≡ known self.old };

    /// Whether much waits for a window, with what was typed into it since its loop told: what is typed next
    /// has to wait.
    fn is_full<R: Wait>(&self, rt: &R, window: u32) -> bool
        ensures { finds_full self.now window result };
}
