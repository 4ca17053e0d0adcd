//! What is commanded before anybody connects, and how a session is closed.

ghost use Rattle.std.specs.Prelude.{◌≡◌, ℕ, IfErr, IfOk, OnOk, Ok, Some, None, false, length, map, true};
ghost use Rattle.hub.specs.Closing.{IsFirstWrong, receipts_of};
ghost use Rattle.hub.specs.Legal.{IsLegal};
ghost use Rattle.program_words.specs.SetupLines.{line_of};
ghost use Rattle.session.specs.Texts.{text_of};
ghost use Rattle.session.specs.event.Done.{Done};
ghost use Rattle.server_session.specs.SettingUp.{AreDone, Fails, IfRefused, IsGiven, IsSetUp, IsStopped, Stops, agrees};

use crate::loop_body::LoopsFault;
use crate::shared_session::{LoopSession, SharedSession};
use acl::UserId;
use hub::{Begun, Seat, Trail};
use program_words::{SetupLine, read_setup};
use server_trail::Recorder;
use server_users::Users;
use session::{Event, Refusal, spoken};
use std::alloc::Global;
use std::sync::Wait;

/// Who gives the lines of a setup, and the memory for the text of a refusal.
#[derive(Clone, Copy)]
pub struct Giver {
    pub alloc: Global,
    /// The user whose lines they are that name nobody.
    pub owner: UserId,
}

// Says that a line was refused.
fn refused(alloc: Global, line: &SetupLine, refusal: &Refusal) -> LoopsFault
    ensures { IfRefused result (λ named said. (named ≡ line_of line.now) × (said ≡ text_of refusal.now)) }
{
    let (mut text, mut said) = (Vec::new(alloc), Vec::new(alloc));
    if text.extend_from_slice(line.text.as_bytes()).is_err() || refusal.text(&mut said).is_err() {
        return LoopsFault::NoMemory;
    }
    LoopsFault::Refused {
        number: line.number,
        line: text,
        said,
    }
}

// Submits a line as a command of the user whom it names, else of the owner. There is no peer yet that it
// could act on.
fn give<L: Begun, R: Wait>(
    rt: &R,
    giver: Giver,
    shared: &SharedSession<L, Recorder>,
    seat: &mut Seat<L>,
    line: &SetupLine,
) -> Result<(), LoopsFault>
    ensures done { OnOk result ((done : Done) × IsGiven giver.owner (line_of line.now) (Ok done) seat.old seat.new) }
    ensures refused { IfErr result (λ fault. IfRefused fault (λ named said.
        IsStopped giver.owner (line_of line.now) named said seat.old seat.new)) }
{
    let (user, command) = spoken(giver.owner, line.text.as_bytes());
    let event = Event::Command {
        user,
        window: None,
        line: command,
    };
    // Memory was refused. (The trail can't be full: that takes some four million lines.)
    let Ok(answer) = shared.submit(rt, seat, event) else {
        return Err(LoopsFault::NoMemory);
    };
    match answer.reply() {
        Ok(_) => Ok(()),
        Err(refusal) => Err(refused(giver.alloc, line, refusal)),
    }
}

// Submits lines, up to the first one that is refused.
fn give_all<L: Begun, R: Wait>(
    rt: &R,
    giver: Giver,
    shared: &SharedSession<L, Recorder>,
    seat: &mut Seat<L>,
    lines: &[SetupLine],
) -> Result<(), LoopsFault>
    ensures done { OnOk result (AreDone giver.owner (map line_of lines.now) (length lines.now) seat.old seat.new) }
    ensures stops { IfErr result (λ fault. IfRefused fault (λ named said.
        Stops giver.owner (map line_of lines.now) named said seat.old seat.new)) }
{
    for line in lines {
        if let Err(fault) = give(rt, giver, shared, seat, line) {
            return Err(fault);
        }
    }
    Ok(())
}

// Submits the lines of a file, up to the first one that is refused.
fn give_file<L: Begun, R: Wait>(
    rt: &R,
    giver: Giver,
    shared: &SharedSession<L, Recorder>,
    seat: &mut Seat<L>,
    file: &[u8],
) -> Result<(), LoopsFault>
    ensures done { OnOk result (IsSetUp giver.owner file.now seat.old seat.new) }
    ensures fails { IfErr result (λ fault. Fails giver.owner file.now fault seat.old seat.new) }
{
    match read_setup(giver.alloc, file) {
        Ok(lines) => give_all(rt, giver, shared, seat, &lines),
        Err(fault) => Err(LoopsFault::Setup(fault)),
    }
}

/// Submits the lines of a setup's file, up to the first one that is refused.
pub fn set_up<L: Begun, R: Wait>(
    rt: &R,
    giver: Giver,
    shared: &SharedSession<L, Recorder>,
    seat: &mut Seat<L>,
    file: Vec<u8>,
) -> Result<SetUp, LoopsFault>
    ensures file { IfOk result (λ it. it.file ≡ file) }
    ensures done { OnOk result (IsSetUp giver.owner file.items seat.old seat.new) }
    ensures fails { IfErr result (λ fault. Fails giver.owner file.items fault seat.old seat.new) }
{
    give_file(rt, giver, shared, seat, &file)?;
    Ok(SetUp { file })
}

/// Shows that all lines of this file were done in a session.
#[derive(Drop)]
pub struct SetUp {
    file: Vec<u8>,
}

/// The setup's file and the users that a session began with, and whether every answer that a loop was given stands in
/// the session's trail. Only a session that was set up and is closed says so.
#[derive(Debug, Drop)]
pub struct Agreement {
    setup: Vec<u8>,
    users: Users,
    is_so: bool,
}

impl Agreement {
    /// Whether every answer stands in the trail.
    pub fn holds(&self) -> bool
        ensures { result ≡ agrees self.now }
    {
        self.is_so
    }
}

/// Closes a session that was set up, whose loops gave these seats back.
pub fn close<L: Begun>(
    shared: SharedSession<L, Recorder>,
    set_up: SetUp,
    left: Vec<Seat<L>>,
) -> (Trail, Agreement)
    ensures legal { IsLegal result.0 }
    ensures setup { result.1.setup ≡ set_up.file }
    ensures users { result.1.users ≡ shared.users }
    ensures agrees { result.1.is_so ≡ true
        → IsFirstWrong result.0.entries (receipts_of left.items) None }
    ensures differs { result.1.is_so ≡ false
        → (wrong : ℕ) × IsFirstWrong result.0.entries (receipts_of left.items) (Some wrong) }
{
    let SharedSession { hub, users, .. } = shared;
    let (trail, wrong) = hub.close(left);
    let is_so = wrong.is_none();
    let agreement = Agreement {
        setup: set_up.file,
        users,
        is_so,
    };
    (trail, agreement)
}
