//! What a peer does by itself, as time goes by.

ghost use Rattle.std.specs.Prelude.{◌≡◌, ◌↔◌, ◌++◌, [], true, false, None, Some, IsSome, IsTrue, IfOk, OnErr, OnOk};
ghost use Rattle.attach_proto.specs.declared.kind.Kind.TheVariants.{Detach};
ghost use Rattle.attach_proto.specs.Spelling.{frame};
ghost use Rattle.client_peer.specs.Acting.{Acts, ActsIf, ActsInTime, Fits, IsUnmoved, fitting};
ghost use Rattle.client_peer.specs.Beginning.{times_of};
ghost use Rattle.client_peer.specs.Looking.{BeginsInTime, DoesNext, EndsInTime, IsDue, IsLate, MayBegin, in_time};
ghost use Rattle.client_peer.specs.Looking.{IsToLeave, LeavesInTime, MayLeave, acting, leaving, paired_after, unbegun};
ghost use Rattle.client_peer.specs.Returning.{AtLoss};

use crate::peer::Peer;
use attach_proto::Kind;
use client_notice::{NoticeStage, NoticeTask};
use client_typing::put_frame;
use client_words::{Arguments, InputStage, PeerFault};
use std::alloc::AllocError;

// How long a client that can leave isn't read before it is let in, in milliseconds. Keys that are typed wait.
const WELCOME: u64 = 50;

// How long to wait for the second of two bytes that leave.
const PAIR: u64 = 250;

// How long the server may take to let the client go.
const ANSWER: u64 = 100;

// How long a window's end waits for its standard output.
const LAST_WRITING: u64 = 500;

// How long the terminal's size has to stay the same before the window gets it.
const SETTLED: u64 = 150;

/// What a peer is waiting for.
#[derive(Drop)]
pub struct Timers {
    /// For how many seconds the peer tries to come back.
    pub(crate) again: u16,
    /// For how many seconds an answer is waited for; 0 is without limit.
    wait: u16,
    /// Standard input is being read.
    has_begun: bool,
    /// The byte that leaves was read last at this time, as this read.
    paired: Option<(u64, u32)>,
    /// The user left.
    pub left_at: Option<u64>,
    ended_at: Option<u64>,
    /// When the server was lost.
    pub(crate) lost_at: u64,
    /// A key was typed since the last look.
    pub(crate) has_typed: bool,
    /// The window in focus is to get the size of its region, at this time.
    pub(crate) wants_fit: bool,
    pub(crate) fit_at: Option<u64>,
}

impl Timers {
    pub fn new(arguments: &Arguments<'_>) -> Timers
        ensures { result ≡ times_of arguments.now }
    {
        Timers {
            again: arguments.again,
            wait: arguments.wait,
            has_begun: false,
            paired: None,
            left_at: None,
            ended_at: None,
            lost_at: 0,
            has_typed: false,
            wants_fit: false,
            fit_at: None,
        }
    }
}

/// What is to be done next.
#[derive(Clone, Copy, PartialEq, Eq, Debug)]
pub enum PeerTask {
    /// Wait for news.
    Wait,
    /// Wait for news, or for a moment.
    WaitShortly,
    /// Begin to read standard input.
    Begin,
    /// Open the window again.
    Reopen,
    /// Send the frames that wait.
    Send,
    /// The connection ended. Ask whether the peer comes back.
    Ask,
    /// The peer has ended.
    End,
}

impl Peer {
    /// Looks at the time, in milliseconds, and says what is to be done next. If memory is refused, the peer is to be
    /// looked at again.
    pub fn look(&mut self, now: u64) -> Result<PeerTask, PeerFault>
        ensures next { IfOk result (DoesNext self.new now) }
        ensures leaves { LeavesInTime self.old now self.new }
        ensures acts { IfOk result (λ next. ActsInTime self.old now next self.new) }
        ensures err { OnErr result (IsUnmoved self.old self.new) }
        ensures rest { self.new ≡ in_time self.old self.new }
        ensures begins { BeginsInTime self.old now result self.new }
        ensures ends { EndsInTime self.old now self.new }
    {
        self.look_at_leaving(now)?;
        if let Some(left) = self.times.left_at {
            return Ok(self.look_left(now, left));
        }
        self.look_at_loss(now);
        if self.is_late(now) {
            self.end_by(Err(PeerFault::NoAnswer));
        }
        if self.end.is_some() {
            return Ok(self.look_at_end(now));
        }
        self.look_open(now)
    }

    // What is to be done while the connection is open.
    fn look_open(&mut self, now: u64) -> Result<PeerTask, PeerFault>
        requires { (self.old.end ≡ None) × (self.old.times.left_at ≡ None) }
        ensures next { IfOk result (DoesNext self.new now) }
        ensures acts { IfOk result (λ next. ActsIf self.old now next self.new) }
        ensures err { OnErr result (IsUnmoved self.old self.new) }
        ensures begins { BeginsInTime self.old now result self.new }
        ensures leave { self.new.typing.leave ≡ self.old.typing.leave }
        ensures same { self.new ≡ acting self.old self.new }
    {
        if self.is_to_begin(now) {
            self.times.has_begun = true;
            return Ok(PeerTask::Begin);
        }
        if self.is_reopening {
            return Ok(PeerTask::Reopen);
        }
        self.act(now)?;
        if self.can_send() {
            return Ok(PeerTask::Send);
        }
        if self.waits_for_time() {
            Ok(PeerTask::WaitShortly)
        } else {
            Ok(PeerTask::Wait)
        }
    }

    // Leaves if the byte that leaves came, and no second one in time.
    fn look_at_leaving(&mut self, now: u64) -> Result<(), AllocError>
        ensures leaves { MayLeave self.old now self.new }
        ensures tells { OnOk result (self.old.times.left_at ≡ None → IsToLeave self.old now
            → self.new.frames.items ≡ self.old.frames.items ++ frame Detach []) }
        ensures err { OnErr result (IsUnmoved self.old self.new × IsSome self.new.times.left_at) }
        ensures same { self.new ≡ leaving self.old self.new }
    {
        if self.times.left_at.is_some() {
            return Ok(());
        }
        if !self.is_to_leave(now) {
            self.times.paired = self.pair(now);
            return Ok(());
        }
        self.typing.leave();
        self.times.left_at = Some(now);
        self.detach()
    }

    // Whether the byte that leaves came before another one, or alone: nothing was read since, for a while.
    fn is_to_leave(&self, now: u64) -> bool
        ensures { IsTrue result ↔ IsToLeave self.now now }
    {
        match (self.typing.stage(), self.times.paired) {
            (InputStage::Left, _) => true,
            (InputStage::Waiting, Some((since, read))) => {
                read == self.typing.reads && now.saturating_sub(since) >= PAIR
            }
            _ => false,
        }
    }

    // When the byte that leaves was seen, if it was read last, and as which read.
    fn pair(&self, now: u64) -> Option<(u64, u32)>
        ensures { result ≡ paired_after self.now now }
    {
        let reads = self.typing.reads;
        match (self.typing.stage(), self.times.paired) {
            (InputStage::Reading, _) => None,
            (_, Some((since, read))) if read == reads => Some((since, read)),
            _ => Some((now, reads)),
        }
    }

    fn look_left(&self, now: u64, left: u64) -> PeerTask
        requires { self.now.times.left_at ≡ Some left }
        ensures { DoesNext self.now now result }
    {
        if self.end.is_some() || self.loss.is_some() || now.saturating_sub(left) >= ANSWER {
            PeerTask::End
        } else if self.can_send() {
            PeerTask::Send
        } else {
            PeerTask::WaitShortly
        }
    }

    // Gives up a server that doesn't come back in time.
    fn look_at_loss(&mut self, now: u64)
        ensures { AtLoss self.old now self.new }
    {
        let (again, waited) = (self.times.again, now.saturating_sub(self.times.lost_at));
        let gives_up = self.loss.is_some() && again < u16::MAX && waited >= u64::from(again) * 1000;
        self.is_final |= gives_up;
        if gives_up || self.is_final && self.end.is_none() {
            self.end = self.loss;
        }
    }

    fn look_at_end(&mut self, now: u64) -> PeerTask
        requires { IsSome self.old.end × (self.old.times.left_at ≡ None) }
        ensures next { DoesNext self.new now result }
        ensures same { self.new ≡ record self.old {
          times = record self.old.times { ended_at = self.new.times.ended_at };
        } }
    {
        if !self.is_final {
            return PeerTask::Ask;
        }
        let ended = self.times.ended_at.unwrap_or(now);
        self.times.ended_at = Some(ended);
        let is_written = !self.is_writing && !self.has_output();
        if is_written || self.loss.is_some() {
            PeerTask::End
        } else if !self.subcommand.is_window() {
            PeerTask::Wait
        } else if now.saturating_sub(ended) >= LAST_WRITING {
            PeerTask::End
        } else {
            PeerTask::WaitShortly
        }
    }

    // Whether an answer was waited for too long.
    fn is_late(&self, now: u64) -> bool
        ensures { IsTrue result ↔ IsLate self.now now }
    {
        (self.subcommand.is_command() || self.subcommand.is_ping())
            && self.times.wait > 0
            && now >= u64::from(self.times.wait) * 1000
    }

    // Whether standard input is to be read now.
    fn is_to_begin(&self, now: u64) -> bool
        ensures { IsTrue result ↔ (MayBegin self.now now × (self.now.times.has_begun ≡ false)) }
    {
        (self.subcommand.is_attach() || self.subcommand.is_window())
            && !self.times.has_begun
            && (self.is_welcome || self.typing.can_leave() && now >= WELCOME)
    }

    // Shows the text on the last line, takes it away, or gives the window in focus its region's size.
    fn act(&mut self, now: u64) -> Result<(), PeerFault>
        ensures acts { OnOk result (Acts self.old now self.new) }
        ensures err { OnErr result (IsUnmoved self.old self.new) }
        ensures leave { self.new.typing.leave ≡ self.old.typing.leave }
        ensures same { self.new ≡ acting self.old (unbegun self.old self.new) }
    {
        let has_typed = self.times.has_typed;
        self.times.has_typed = false;
        let is_free = self.is_free();
        match self.notice.look(now, has_typed, is_free) {
            NoticeTask::Nothing => self.look_at_fit(now),
            NoticeTask::Show => {
                self.notice.is_hidden = true;
                self.put_notice()?;
                self.notice.is_hidden = false;
                Ok(())
            }
            NoticeTask::TakeAway => self.redraw(),
        }
    }

    // Gives the window in focus its region's size, once the terminal's stays the same and the session waits for no key.
    fn look_at_fit(&mut self, now: u64) -> Result<(), PeerFault>
        ensures fits { OnOk result (Fits self.old now self.new) }
        ensures err { OnErr result (IsUnmoved self.old self.new) }
        ensures leave { self.new.typing.leave ≡ self.old.typing.leave }
        ensures same { self.new ≡ fitting self.old self.new }
    {
        if !self.times.wants_fit || !self.is_welcome {
            return Ok(());
        }
        let at = self.times.fit_at.unwrap_or(now.saturating_add(SETTLED));
        self.times.fit_at = Some(at);
        if now < at || !self.typing.is_at_rest() {
            return Ok(());
        }
        let mut keys = Vec::new(self.alloc);
        self.typing.fit(&mut keys)?;
        put_frame(Kind::Keys, &keys, &mut self.frames)?;
        self.times.wants_fit = false;
        self.times.fit_at = None;
        Ok(())
    }

    /// Whether a text is to be shown on the last line.
    pub fn has_notice(&self) -> bool
        ensures { IsTrue result ↔ (self.now.notice.stage ≡ NoticeStage.New) }
    {
        self.notice.stage == NoticeStage::New
    }

    // Whether something is to be done after a time, without news.
    fn waits_for_time(&self) -> bool
        ensures { IsDue self.now → result ≡ true }
    {
        let waits_for_input = self.typing.can_leave() && !self.times.has_begun;
        let is_asked = (self.subcommand.is_command() || self.subcommand.is_ping())
            && self.times.wait > 0;
        self.notice.is_to_come()
            || waits_for_input
            || is_asked
            || self.times.paired.is_some()
            || self.times.wants_fit && self.typing.is_at_rest()
            || self.loss.is_some()
    }
}
