//! What became of a message, and of keys.

ghost use Rattle.std.specs.Prelude.{◌≡◌, if◌then◌else◌};
ghost use Rattle.server_typing.specs.Typed.{is_idle};
ghost use Rattle.server_steps.specs.Settling.{came_of, is_judged, is_refused, left_of, progress_of, settled, taken_of};
ghost use Rattle.server_steps.specs.Settling.{window_after};

use server_connections::{SeatAnswer, SeatFault, Typeahead};
use server_users::Outcome;
use session::Reply;

// The key with which a command begins.
const COMMAND: u8 = 1;

/// What became of a message.
#[derive(Clone, Copy, Debug, PartialEq, Eq)]
pub enum Progress {
    Done,
    /// Some of it is still to be done.
    Part,
    /// It waits until its user may cause more entries, or for a look at the users' file.
    Held,
}

impl Progress {
    /// Of a message or of keys of which nothing is left, or some.
    pub fn by(is_done: bool) -> Progress
        ensures { result ≡ (if is_done then Progress.Done else Progress.Part) }
    {
        if is_done {
            Progress::Done
        } else {
            Progress::Part
        }
    }
}

// How many keys were judged.
fn taken_of(reply: &Reply) -> usize
    ensures { result ≡ taken_of reply.now }
{
    match reply {
        Ok(done) => done.taken,
        Err(_) => 0,
    }
}

/// The window into which the next keys go, by the answer to a step of these keys. After a command it isn't
/// known.
pub fn window_after(keys: &[u8], answer: &Result<Option<SeatAnswer>, SeatFault>) -> Option<u32>
    ensures { result ≡ window_after keys.now answer.now }
{
    let Ok(Some(answer)) = answer else {
        return None;
    };
    let taken = taken_of(&answer.reply);
    if keys.get(..taken).unwrap_or(keys).contains(&COMMAND) {
        return None;
    }
    answer.typed
}

// This many keys were judged. If none were, nothing can come of the rest either, and all go.
fn leave(typed: &mut Typeahead, taken: usize) -> Progress
    ensures left { typed.new ≡ left_of taken typed.old }
    ensures progress { result ≡ (if is_idle typed.new then Progress.Done else Progress.Part) }
{
    let count = if taken == 0 {
        typed.keys().len()
    } else {
        taken
    };
    typed.judge(count);
    Progress::by(typed.is_empty())
}

/// What the answer to a step of keys makes of these.
pub fn settle(typed: &mut Typeahead, answer: &Result<Option<SeatAnswer>, SeatFault>) -> Progress
    ensures left { typed.new ≡ settled answer.now typed.old }
    ensures progress { result ≡ progress_of answer.now typed.new }
{
    match answer {
        Ok(None) => {
            typed.set_denied(true);
            Progress::Held
        }
        Ok(Some(answer)) => {
            typed.set_denied(matches!(answer.outcome, Outcome::Denied));
            leave(typed, taken_of(&answer.reply))
        }
        Err(_) => leave(typed, 0),
    }
}

/// Whether keys were judged: their user didn't have to wait.
pub fn is_judged(progress: Progress) -> bool
    ensures { result ≡ is_judged progress }
{
    !matches!(progress, Progress::Held)
}

/// What came of a step for the user who tried it.
pub fn came_of(answer: &Result<SeatAnswer, SeatFault>) -> Outcome
    ensures { result ≡ came_of answer.now }
{
    match answer {
        Ok(answer) => answer.outcome,
        Err(_) => Outcome::Untaken,
    }
}

/// Whether there was no memory for a step.
pub fn is_refused(answer: &Result<Option<SeatAnswer>, SeatFault>) -> bool
    ensures { result ≡ is_refused answer.now }
{
    matches!(answer, Err(SeatFault::NoMemory))
}
