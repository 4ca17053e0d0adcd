//! A browser's connection: its request, its messages, and who it is.

ghost use Rattle.std.specs.Prelude.{◌≡◌, ◌↔◌, ◌<◌, ◌≤◌, [], IfErr, IfOk, IsOk, IsTrue, OnErr, OnOk, codes, false};
ghost use Rattle.std.specs.Prelude.{vec_len};
ghost use Rattle.web_client.specs.Asking.{Asks};
ghost use Rattle.web_streams.specs.Streaming.{Receives, WritesOut};
ghost use Rattle.web_client.specs.Judging.{IsAllowed};
ghost use Rattle.web_client.specs.Rows.{Closes, TellsAway, TellsLast, TellsHere, Refuses, handed};
ghost use Rattle.web_requests.specs.Serving.{refusal};
ghost use Rattle.web_client.specs.Frames.{page, page_after, begun, Reads, Answers, Leaves, TakesMessage};
ghost use Rattle.web_client.specs.Frames.{TakesBytes, TakesOpen, TellsOut, CanRead, IsBounded, IsGivenUp};

use crate::frame::PageFrame;
use crate::identity::{Identity, MessageFault};
use crate::wire::{Phase, SentPage, Wire, WireFault};
use attach_proto::Why;
use std::alloc::Global;
use web_requests::{Response, Site, Upgrade, answered, refusal};
use web_streams::{ReadBuffer, ReadOutcome, WebStream, drop_front, write_all};
use websocket::protocol::CloseCode;

/// While more bytes wait for the server, or for the browser, the browser isn't read.
const MUCH: usize = 65_536;

/// A browser is given up if more bytes of it wait: no frame and no request is longer.
const MOST_INPUT: usize = 32_768;

/// How many frames are taken at once.
const FRAMES: usize = 64;

/// What is said of a name that no user can have: what the server says of others.
const UNKNOWN: &str = "unknown user or wrong token";

/// Why a connection is closed whose browser sent what it may not.
const NOT_UNDERSTOOD: &str = "not understood";

/// A browser's connection.
#[derive(Drop)]
pub struct Visitor {
    input: Vec<u8>,
    pub(crate) wire: Wire,
    pub(crate) view: SentPage,
    // Only what the browser sends, and the server's bytes for its own client, change it.
    pub(crate) identity: Identity,
    /// The address that the web server before the bridge saw; empty if it told none.
    pub address: Vec<u8>,
}

impl Visitor {
    /// A connection that has sent nothing.
    pub fn new(alloc: Global) -> Visitor
        ensures page { page result ≡ begun }
        ensures output { (result.wire.output.items ≡ []) × (result.wire.sent ≡ 0) }
        ensures view { result.view ≡ record { is_welcomed = false; since = 0 } }
        ensures address { result.address.items ≡ [] }
    {
        Visitor {
            input: Vec::new(alloc),
            wire: Wire::new(alloc),
            view: SentPage::NOTHING,
            identity: Identity::Nobody,
            address: Vec::new(alloc),
        }
    }

    /// Who the browser is.
    pub fn identity(&self) -> &Identity
        ensures { result.now ≡ self.now.identity }
    {
        &self.identity
    }

    /// Whether nothing is read any more.
    pub fn is_last(&self) -> bool
        ensures { IsTrue result ↔ (self.now.wire.phase ≡ Phase.Last) }
    {
        self.wire.phase == Phase::Last
    }

    /// Whether its page is open.
    pub fn is_open(&self) -> bool
        ensures { IsTrue result ↔ (self.now.wire.phase ≡ Phase.Socket) }
    {
        self.wire.phase == Phase::Socket
    }

    /// Whether the browser is to be read: it isn't while much waits for its client or for itself.
    pub fn can_read(&self) -> bool
        ensures { IsTrue result ↔ CanRead self.now }
    {
        let waiting = match &self.identity {
            Identity::Own(client) => client.waiting(),
            _ => 0,
        };
        !self.is_last() && waiting <= MUCH && self.wire.output.len() <= MUCH
    }

    /// Writes what waits for the browser, as far as it takes it. Returns false if the connection is broken.
    pub fn send_all<S: WebStream>(&mut self, browser: &mut S) -> bool
        ensures sent { WritesOut S.writes browser.old self.old.wire.output.items result browser.new
            self.new.wire.output.items }
        ensures same { self.new ≡ record self.old { wire = record self.old.wire { output = self.new.wire.output } } }
    {
        write_all(&mut self.wire.output, browser)
    }

    /// Whether no bytes wait for the browser.
    pub fn is_idle(&self) -> bool
        ensures { IsTrue result ↔ (self.now.wire.output.items ≡ []) }
    {
        self.wire.output.is_empty()
    }

    // Reads one frame of the page, after the bytes that were taken.
    fn read_frame(&mut self, taken: &mut usize) -> Result<PageFrame, WireFault>
        requires { taken.old ≤ vec_len self.old.input }
        ensures reads { IfOk result (λ frame. Reads (page_after taken.old self.old) frame
            (page_after taken.new self.new)) }
        ensures within { taken.new ≤ vec_len self.new.input }
        ensures identity { self.new.identity ≡ self.old.identity }
        ensures leaves { OnOk result (Leaves self.old self.new) }
    {
        let read = self.wire.read(&mut self.input.as_mut_slice()[*taken..])?;
        *taken += read.1;
        Ok(read.0)
    }

    // Takes one message of the page.
    fn take_message(&mut self, site: &Site, message: &[u8]) -> Result<(), WireFault>
        ensures takes { OnOk result (TakesMessage site.now.watcher message.now (page self.old)
            (page self.new)) }
        ensures wrong { (IsAllowed site.now.watcher self.old.identity message.now → ⊥)
            → OnOk result (Closes CloseCode.Policy NOT_UNDERSTOOD.now self.old.wire self.new.wire) }
        ensures told { IsAllowed site.now.watcher self.old.identity message.now
            → OnOk result (TellsOut self.new.identity self.old.wire self.new.wire) }
        ensures input { self.new.input.items ≡ self.old.input.items }
        ensures leaves { OnOk result (Leaves self.old self.new) }
        ensures asks { Asks self.old.identity self.new.identity }
    {
        match self.identity.take(self.wire.alloc, site, message) {
            Ok(()) => {}
            Err(MessageFault::Wrong) => return self.wire.close(CloseCode::Policy, NOT_UNDERSTOOD),
            Err(MessageFault::NoMemory) => return Err(WireFault::NoMemory),
        }
        match &self.identity {
            Identity::Unknown => self.refuse(UNKNOWN),
            Identity::Left => self.wire.tell_gone(Why::Detached),
            _ => Ok(()),
        }
    }

    // Takes frames that are whole. Returns whether more may be left.
    fn read_frames(&mut self, site: &Site) -> Result<bool, WireFault>
        requires { self.old.wire.phase ≡ Phase.Socket }
        ensures takes { IfOk result (TakesOpen site.now self.old self.new) }
        ensures asks { Asks self.old.identity self.new.identity }
    {
        let mut taken = 0;
        let mut count = 0;
        'frames: while self.is_open() && count < FRAMES {
            count += 1;
            match self.read_frame(&mut taken)? {
                PageFrame::None => {
                    drop_front(&mut self.input, taken);
                    return Ok(false);
                }
                PageFrame::Other => {}
                PageFrame::Message(message) => self.take_message(site, &message)?,
            }
        }
        drop_front(&mut self.input, taken);
        Ok(self.is_open())
    }

    // Takes the answer to a request.
    fn take_answer(&mut self, answer: Response) -> Result<(), WireFault>
        requires { self.old.wire.phase ≡ Phase.Request }
        ensures ok { OnOk result (Answers answer self.old self.new) }
        ensures err { OnErr result (page self.new ≡ page self.old) }
        ensures identity { self.new.identity ≡ self.old.identity }
    {
        match answer {
            Response::Part => {}
            Response::Page(bytes) => {
                self.wire.output.extend_from_slice(&bytes)?;
                self.wire.phase = Phase::Last;
            }
            Response::Socket(upgrade) => {
                let Upgrade {
                    answer,
                    request,
                    address,
                } = upgrade;
                self.wire.output.extend_from_slice(&answer)?;
                let request = request.min(self.input.len());
                drop_front(&mut self.input, request);
                self.address = address;
                self.wire.phase = Phase::Socket;
            }
        }
        Ok(())
    }

    /// Reads the browser once. What came waits to be taken.
    pub fn receive<S: WebStream>(&mut self, browser: &mut S, buffer: &mut ReadBuffer) -> ReadOutcome
        ensures receives { Receives S.reads browser.old self.old.input.items result browser.new self.new.input.items }
        ensures same { self.new ≡ record self.old { input = self.new.input } }
    {
        let arrival = browser.read_once(buffer);
        match self.input.extend_from_slice(buffer.piece()) {
            Ok(()) => arrival,
            Err(_) => ReadOutcome::End,
        }
    }

    // Whether what is kept for it is within its bounds.
    fn check_bounds(&self) -> Result<(), WireFault>
        ensures bounded { OnOk result (IsBounded self.now) }
        ensures fault { IfErr result (IsGivenUp (IsBounded self.now)) }
    {
        if self.input.len() > MOST_INPUT {
            return Err(WireFault::TooFarBehind);
        }
        self.wire.check_bound()
    }

    // Takes what came of the browser.
    fn take_some(&mut self, site: &Site) -> Result<bool, WireFault>
        ensures takes { IfOk result (TakesBytes site.now self.old.wire.phase self.old self.new) }
        ensures asks { Asks self.old.identity self.new.identity }
    {
        if self.wire.phase == Phase::Request {
            let answer = answered(self.wire.alloc, site, &self.input)?;
            self.take_answer(answer)?;
        }
        if self.is_open() {
            self.read_frames(site)
        } else {
            Ok(false)
        }
    }

    /// Takes what came of the browser, up to 64 frames at once. Returns whether more may be left.
    pub fn take(&mut self, site: &Site) -> Result<bool, WireFault>
        ensures takes { IfOk result (TakesBytes site.now self.old.wire.phase self.old self.new) }
        ensures asks { Asks self.old.identity self.new.identity }
        ensures bounded { OnOk result (IsBounded self.new) }
    {
        let more = self.take_some(site)?;
        self.check_bounds()?;
        Ok(more)
    }

    /// Answers a browser that has just opened its page with a refusal, since the bridge is full.
    pub fn turn_away(&mut self) -> Result<(), WireFault>
        ensures refuses { OnOk result ((self.new.wire.phase ≡ Phase.Last) × (self.new.identity ≡ Identity.Nobody)
            × (self.new.wire.output.items ≡ refusal (codes "503 Service Unavailable"))) }
        ensures err { OnErr result (self.new ≡ self.old) }
        ensures same { self.new ≡ record self.old {
          wire = record self.old.wire {
            phase = self.new.wire.phase;
            output = self.new.wire.output;
          };
          identity = self.new.identity;
        } }
    {
        let bytes = refusal(self.wire.alloc, "503 Service Unavailable")?;
        self.wire.output = bytes;
        self.wire.phase = Phase::Last;
        self.identity = Identity::Nobody;
        Ok(())
    }

    /// The server's connection ended, or there is none.
    pub fn lose(&mut self, reason: &str) -> Result<(), WireFault>
        ensures tells { self.old.wire.phase ≡ Phase.Socket
            → OnOk result (TellsAway reason.now self.old.wire self.new.wire) }
        ensures other { (self.old.wire.phase ≡ Phase.Socket → ⊥) → self.new ≡ self.old }
        // What a page was told last is still sent.
        ensures stays { (self.old.wire.phase ≡ Phase.Socket → ⊥) → IsOk result }
        ensures identity { self.new.identity ≡ self.old.identity }
        ensures same { self.new ≡ record self.old { wire = self.new.wire } }
    {
        if self.is_open() {
            self.wire.say(reason)?;
            self.wire.close(CloseCode::Away, reason)?;
        }
        Ok(())
    }

    /// Tells a page which user and token its link stands for, and ends.
    pub fn hand(&mut self, name: &str, token: &str) -> Result<(), WireFault>
        ensures hands { OnOk result (TellsLast (handed name.now token.now) self.old.wire self.new.wire) }
        ensures identity { self.new.identity ≡ self.old.identity }
        ensures same { self.new ≡ record self.old { wire = self.new.wire } }
    {
        self.wire.hand(name, token)
    }

    /// Tells a page why it isn't let in, and ends.
    pub fn refuse(&mut self, reason: &str) -> Result<(), WireFault>
        ensures tells { OnOk result (Refuses reason.now self.old.wire self.new.wire) }
        ensures leaves { OnOk result (Leaves self.old self.new) }
        ensures same { self.new ≡ record self.old { wire = self.new.wire } }
    {
        self.wire.say(reason)?;
        self.wire.tell_gone(Why::Fault)?;
        Ok(())
    }

    /// Tells the page that the bridge is there, and asks whether it is.
    pub fn ping(&mut self) -> Result<(), WireFault>
        ensures asks { self.old.wire.phase ≡ Phase.Socket
            → OnOk result (TellsHere self.old.wire self.new.wire) }
        ensures closed { (self.old.wire.phase ≡ Phase.Socket → ⊥) → self.new ≡ self.old }
        ensures same { self.new ≡ record self.old { wire = self.new.wire } }
        ensures bounded { OnOk result (IsBounded self.new) }
    {
        if !self.is_open() {
            return self.check_bounds();
        }
        self.wire.send_text("{\"here\":1}")?;
        self.wire.ask()?;
        self.check_bounds()?;
        Ok(())
    }
}
