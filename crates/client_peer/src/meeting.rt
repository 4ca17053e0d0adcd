//! Whether a peer comes back after its connection has ended, and to which session.

ghost use Rattle.std.specs.Prelude.{◌≡◌, true, Ok, IfOk, OnErr, OnOk, option_map, string_bytes};
ghost use Rattle.client_peer.specs.Meeting.{Learns, Meets, StaysAway};
ghost use Rattle.client_peer.specs.Returning.{may_return, is_refused, is_unknown, ComesBack, IsAsBefore, TellsLoss};
ghost use Rattle.client_peer.specs.Sending.{HasServer, IsMore};

use crate::peer::Peer;
use attach_proto::Why;
use client_notice::NoticeStage;
use client_words::PeerFault;
use std::alloc::AllocError;

/// What stands beside a socket about the session that is served there.
#[derive(Drop)]
pub struct SessionMark {
    /// The name in SOCKET.session; empty if it can't be read.
    pub name: Vec<u8>,
    /// The file isn't older than the socket: whoever made this socket has marked it since.
    pub is_current: bool,
}

/// What a peer that comes back meets at its socket.
#[derive(Clone, Copy, PartialEq, Eq)]
pub enum Meeting {
    /// Its session: a client takes each for it that isn't another one.
    Same,
    /// Another session.
    Another,
    /// The mark may be that of an earlier server.
    Older,
    /// Nothing names the session that the peer was in, or the one that is there.
    Unnamed,
}

// Whether an end is one after which the server may come back.
fn may_return(end: Result<Why, PeerFault>, is_planned: bool, is_refused: bool) -> bool
    ensures { result ≡ may_return end is_planned is_refused }
{
    match end {
        Ok(Why::Quit) => is_planned,
        Ok(_) => false,
        Err(PeerFault::Gone(Why::TrailFull)) => true,
        Err(PeerFault::Gone(Why::Fault)) => is_refused,
        Err(PeerFault::Ended | PeerFault::NoServer | PeerFault::NoToken | PeerFault::Refused(..)) =>
            true,
        Err(_) => false,
    }
}

impl Peer {
    // Whether the server refused the peer, and may let it in later: not a client whose user isn't known any more.
    fn is_refused(&self) -> bool
        ensures { result ≡ is_refused self.now }
    {
        !self.is_welcome && !(self.subcommand.is_attach() && self.is_unknown())
    }

    fn is_unknown(&self) -> bool
        ensures { result ≡ is_unknown (option_map string_bytes self.now.said) }
    {
        match &self.said {
            Some(said) => said.as_bytes().starts_with(b"unknown user".as_slice()),
            None => false,
        }
    }

    /// Decides whether the peer comes back, after its connection has ended: if the socket's folder is there, for some
    /// seconds from the first loss on. It says so once; without memory for that it is to be asked again. Until it is
    /// let in, no server has a window.
    pub fn comes_back(
        &mut self,
        now: u64,
        is_planned: bool,
        has_place: bool,
    ) -> Result<bool, AllocError>
        ensures comes { IfOk result (λ comes. ComesBack self.old now is_planned has_place comes self.new) }
        ensures leaves { result ≡ Ok true → HasServer self.new → ⊥ }
        ensures err { OnErr result (IsAsBefore self.old self.new) }
    {
        let Some(end) = self.end else {
            return Ok(false);
        };
        let may_return = has_place && may_return(end, is_planned, self.is_refused());
        self.is_final |= self.times.again == 0 || !self.was_welcome || !may_return;
        if self.is_final {
            return Ok(false);
        }
        if self.loss.is_none() {
            self.tell_loss()?;
            self.loss = Some(end);
            self.times.lost_at = now;
        }
        self.is_welcome = false;
        Ok(true)
    }

    // Says on a client's terminal that its server is gone. CAN ends what may have been cut.
    fn tell_loss(&mut self) -> Result<(), AllocError>
        ensures tells { OnOk result (TellsLoss self.old self.new) }
        ensures same { self.new ≡ record self.old { bytes = self.new.bytes; notice = self.new.notice } }
        ensures adds { IsMore self.old.bytes.items self.new.bytes.items }
    {
        if !self.subcommand.is_attach() {
            return Ok(());
        }
        let text = b"the server is gone; waiting for it to come back (C-c leaves)";
        self.notice.notify(self.alloc, text)?;
        self.bytes.push(0x18)?;
        self.put_notice()?;
        self.notice.stage = NoticeStage::Nothing;
        Ok(())
    }

    /// Takes the session's name. A window takes it only from the server that let it in: that server was still there
    /// after the mark was read (`is_here`), and the connection hasn't ended.
    pub fn learn(&mut self, mark: SessionMark, is_here: bool)
        ensures { Learns self.old mark is_here self.new }
    {
        let is_own = self.end.is_none() && is_here && mark.is_current;
        if is_own || !self.subcommand.is_window() {
            self.session = mark.name;
        }
    }

    /// What the peer meets at its socket.
    pub fn meets(&self, mark: &SessionMark) -> Meeting
        ensures { Meets self.now mark.now result }
    {
        let needs_name = self.subcommand.is_window();
        if self.session.is_empty() || mark.name.is_empty() {
            return if needs_name {
                Meeting::Unnamed
            } else {
                Meeting::Same
            };
        }
        if self.session.as_slice() != mark.name.as_slice() {
            return Meeting::Another;
        }
        if mark.is_current || !needs_name {
            Meeting::Same
        } else {
            Meeting::Older
        }
    }

    /// Doesn't come back, since it met something else than its session.
    pub fn stay_away(&mut self, met: Meeting)
        ensures { StaysAway self.old met self.new }
    {
        self.is_final = true;
        self.is_unsure = met != Meeting::Another;
        self.end = if met == Meeting::Another {
            Some(Err(PeerFault::OtherSession))
        } else {
            self.loss.or(self.end).or(Some(Err(PeerFault::Ended)))
        };
    }
}
