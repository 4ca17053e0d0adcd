//! What a browser is sent over its connection.

ghost use Rattle.std.specs.Prelude.{◌≡◌, ◌↔◌, ◌≤◌, [], length, drop, IfOk, OnOk, IfErr, IsTrue, ◌||◌};
ghost use Rattle.terminal_model.specs.Reading.{Terminal};
ghost use Rattle.emulator.specs.Standing.{StandsFor};
ghost use Rattle.web_page.specs.Laying.{Shown, page_of};
ghost use Rattle.web_client.specs.Judging.{end_of};
ghost use Rattle.web_client.specs.Frames.{fresh, stands, Reads, IsGivenUp, IsWithin};
ghost use Rattle.web_client.specs.declared.identity.Identity.{Identity};
ghost use Rattle.web_client.specs.Rows.{SendsText, Asks, IsAsFar, IsUpToDate, SendsPage, Adds, HasRoom, IsDue, Shows};
ghost use Rattle.web_client.specs.Rows.{said, welcomed, gone, handed, TellsLast, MaySendRows, Welcomes};
ghost use Rattle.web_client.specs.Rows.{Closes, Explains, Ends, SendsAll};
ghost use Rattle.web_client.specs.declared.wire.WireFault.TheVariants as end;

use crate::frame::{PageFrame, answered_for, said};
use attach_proto::Why;
use std::alloc::{AllocError, Global};
use web_page::{SheetFault, WebDisplay, put_text};
use websocket::error::Error;
use websocket::protocol::{
    CloseCode, CloseFrame, FrameStatus, Message, NoMask, Role, WebSocketConfig, WebSocketContext,
};

/// A browser is given up if more bytes wait for it: no page is longer.
const MOST_OUTPUT: usize = 2_097_152;

/// No rows are sent while the browser hasn't answered for more bytes of rows.
const WINDOW: u64 = 4_096;

/// The longest message of a page: a kind, and the payload of a frame.
const LONGEST: usize = 8_193;

/// Why a connection ends at once.
#[derive(Clone, Copy, Debug, PartialEq, Eq)]
pub enum WireFault {
    /// The WebSocket can't send any more.
    Broken,
    /// Too many bytes wait for the browser.
    TooFarBehind,
    NoMemory,
}

impl From<AllocError> for WireFault {
    ghost from_gives = { λ _ e. e ≡ end.NoMemory };

    fn from(_error: AllocError) -> WireFault {
        WireFault::NoMemory
    }
}

impl From<Error> for WireFault {
    ghost from_gives = { λ _ e. e ≡ end.Broken };

    fn from(_error: Error) -> WireFault {
        WireFault::Broken
    }
}

impl From<SheetFault> for WireFault {
    ghost from_gives = { λ fault e. e ≡ end_of fault };

    fn from(fault: SheetFault) -> WireFault {
        match fault {
            SheetFault::NoMemory => WireFault::NoMemory,
            SheetFault::TooOld => WireFault::Broken,
        }
    }
}

/// How far a connection has come.
#[derive(Clone, Copy, PartialEq, Eq)]
pub enum Phase {
    Request,
    Socket,
    /// What waits is sent, and then the connection ends.
    Last,
}

/// What a browser was sent of a client's page.
#[derive(Clone, Copy)]
pub struct SentPage {
    is_welcomed: bool,
    // All changes before this moment; nothing if it is 0.
    since: u64,
}

impl SentPage {
    /// Nothing was sent.
    pub const NOTHING: SentPage = SentPage {
        is_welcomed: false,
        since: 0,
    };
}

/// The sending side of a browser's connection.
#[derive(Drop)]
pub struct Wire {
    pub alloc: Global,
    pub phase: Phase,
    /// Bytes on their way to the browser.
    pub output: Vec<u8>,
    pub context: WebSocketContext,
    /// How many bytes of rows were sent.
    pub sent: u64,
    /// How many of them the browser has answered for.
    pub answered: u64,
}

impl Wire {
    /// A connection that has sent nothing.
    pub fn new(alloc: Global) -> Wire
        ensures phase { result.phase ≡ Phase.Request }
        ensures output { result.output.items ≡ [] }
        ensures context { result.context ≡ fresh }
        ensures counts { (result.sent ≡ 0) × (result.answered ≡ 0) }
    {
        let config = WebSocketConfig {
            max_message_size: Some(LONGEST),
            max_frame_size: Some(LONGEST),
            accept_unmasked_frames: false,
        };
        Wire {
            alloc,
            phase: Phase::Request,
            output: Vec::new(alloc),
            context: WebSocketContext::new(alloc, Role::Server, config),
            sent: 0,
            answered: 0,
        }
    }

    /// Reads the frame that these bytes begin with. Returns what it was, and how many bytes it has.
    pub fn read(&mut self, rest: &mut [u8]) -> Result<(PageFrame, usize), WireFault>
        ensures reads { (s : Identity) → IfOk result (λ read. Reads (stands self.old rest.old s) read.0
            (stands self.new (drop read.1 rest.new) s)) }
        ensures within { IfOk result (λ read. read.1 ≤ length rest.old) }
        ensures adds { OnOk result (Adds self.old self.new) }
        ensures sent { self.new.sent ≡ self.old.sent }
    {
        let step = match self.context.read(rest, &mut self.output, &mut NoMask) {
            Ok(FrameStatus::Partial(_)) => return Ok((PageFrame::None, 0)),
            Ok(FrameStatus::Complete(step)) => step,
            Err(_) => {
                self.close(CloseCode::Protocol, "")?;
                return Ok((PageFrame::None, 0));
            }
        };
        let frame = said(self.alloc, &step.message, rest)?;
        let answered = answered_for(&step.message, rest, self.answered);
        self.answered = answered;
        if frame.is_last() {
            self.phase = Phase::Last;
        }
        Ok((frame, step.consumed))
    }

    /// Sends a close frame, after which the connection ends.
    pub fn close(&mut self, code: CloseCode, reason: &str) -> Result<(), WireFault>
        ensures closes { OnOk result (Closes code reason.now self.old self.new) }
        ensures adds { OnOk result (Adds self.old self.new) }
        ensures sent { self.new.sent ≡ self.old.sent }
    {
        let frame = CloseFrame { code, reason };
        self.context
            .close(Some(frame), &mut self.output, &mut NoMask)?;
        self.phase = Phase::Last;
        Ok(())
    }

    /// Sends a text.
    pub fn send_text(&mut self, text: &str) -> Result<(), WireFault>
        ensures sends { OnOk result (SendsText text.now self.old self.new) }
        ensures sent { self.new.sent ≡ self.old.sent }
    {
        let text = Message::Text(text);
        Ok(self.context.write(text, &mut self.output, &mut NoMask)?)
    }

    /// Asks the browser to answer for the rows that it was sent. A browser answers a ping after what came before it.
    pub fn ask(&mut self) -> Result<(), WireFault>
        ensures { OnOk result (Asks self.old self.new) }
    {
        let count = self.sent.to_be_bytes();
        let ping = Message::Ping(&count);
        Ok(self.context.write(ping, &mut self.output, &mut NoMask)?)
    }

    /// Tells a text to the browser's user.
    #[tactic(auto, using(crate::proofs::Rows::text_adds))]
    pub fn say(&mut self, text: &str) -> Result<(), WireFault>
        ensures says { OnOk result (SendsText (said text.now) self.old self.new) }
        ensures adds { OnOk result (Adds self.old self.new) }
        ensures sent { self.new.sent ≡ self.old.sent }
    {
        let mut out = String::from_str(self.alloc, "{\"say\":\"")?;
        put_text(&mut out, text)?;
        out.push_str("\"}")?;
        self.send_text(out.as_str())
    }

    /// Tells why the session lets the browser go, and ends.
    pub fn tell_gone(&mut self, why: Why) -> Result<(), WireFault>
        ensures tells { OnOk result (TellsLast (gone why) self.old self.new) }
        ensures adds { OnOk result (Adds self.old self.new) }
        ensures sent { self.new.sent ≡ self.old.sent }
    {
        let number = why.number();
        let text = format!(in self.alloc; "{{\"gone\":{number}}}")?;
        self.send_text(text.as_str())?;
        self.close(CloseCode::Normal, "")?;
        Ok(())
    }

    /// Tells which user and token a link stands for, and ends.
    pub fn hand(&mut self, name: &str, token: &str) -> Result<(), WireFault>
        ensures { OnOk result (TellsLast (handed name.now token.now) self.old self.new) }
    {
        let mut out = String::from_str(self.alloc, "{\"user\":\"")?;
        put_text(&mut out, name)?;
        out.push_str("\",\"token\":\"")?;
        put_text(&mut out, token)?;
        out.push_str("\"}")?;
        self.send_text(out.as_str())?;
        self.close(CloseCode::Normal, "")?;
        Ok(())
    }

    // Sends what is new of a page.
    fn send_rows(&mut self, view: &mut SentPage, display: &mut WebDisplay) -> Result<(), WireFault>
        // The browser then shows the page of a terminal that has read all draws.
        ensures rows { (t : Terminal) (b : Shown) → StandsFor display.old.sheet.terminal t
            → IsAsFar view.old.since display.old.sheet b
            → OnOk result (SendsPage t b self.old self.new × StandsFor display.new.sheet.terminal t
            × IsUpToDate view.new.since display.new.sheet (page_of t.screen)) }
        ensures sends { OnOk result (MaySendRows self.old self.new) }
        ensures needed { display.new.sheet.moment ≤ view.old.since → OnOk result (self.new ≡ self.old) }
        ensures welcomed { view.new.is_welcomed ≡ view.old.is_welcomed }
        ensures same { display.new ≡ record display.old { sheet = display.new.sheet } }
    {
        match display.update(view.since)? {
            Some(text) => {
                self.send_text(text.as_str())?;
                self.sent = self.sent.saturating_add(text.len() as u64);
                self.ask()?;
                view.since = display.moment();
                Ok(())
            }
            None => {
                view.since = display.moment();
                Ok(())
            }
        }
    }

    // Whether the browser has taken what was sent, but for a few rows.
    fn has_room(&self) -> bool
        ensures { IsTrue result ↔ HasRoom self.now }
    {
        self.output.is_empty() && self.sent <= self.answered.saturating_add(WINDOW)
    }

    // Whether rows are sent now.
    fn is_due(&self, display: &WebDisplay) -> bool
        ensures { IsTrue result ↔ IsDue display.now self.now }
    {
        display.is_welcome() && (self.has_room() || display.gone().is_some())
    }

    // Tells once that the server let the browser's client in.
    fn welcome(&mut self, view: &mut SentPage, display: &WebDisplay) -> Result<(), WireFault>
        ensures welcomes { OnOk result (Welcomes display.now.told.is_welcome view.old.is_welcomed self.old self.new) }
        ensures once { view.new.is_welcomed ≡ (display.now.told.is_welcome || view.old.is_welcomed) }
        ensures adds { OnOk result (Adds self.old self.new) }
        ensures since { view.new.since ≡ view.old.since }
        ensures sent { self.new.sent ≡ self.old.sent }
    {
        if display.is_welcome() && !view.is_welcomed {
            view.is_welcomed = true;
            self.send_text("{\"welcome\":1}")?;
        }
        Ok(())
    }

    // Tells why the server didn't let the client in, if it said so.
    fn explain(&mut self, display: &WebDisplay) -> Result<(), WireFault>
        ensures explains { OnOk result (Explains display.now.told.refusal self.old self.new) }
        ensures adds { OnOk result (Adds self.old self.new) }
        ensures sent { self.new.sent ≡ self.old.sent }
    {
        match display.refusal() {
            Some(text) => self.say(text),
            None => Ok(()),
        }
    }

    // Ends if the server let the client go.
    fn end(&mut self, display: &WebDisplay) -> Result<(), WireFault>
        ensures ends { OnOk result (Ends display.now.told.refusal display.now.told.gone self.old self.new) }
        ensures adds { OnOk result (Adds self.old self.new) }
        ensures sent { self.new.sent ≡ self.old.sent }
    {
        match display.gone() {
            Some(why) => {
                self.explain(display)?;
                self.tell_gone(why)
            }
            None => Ok(()),
        }
    }

    /// Sends what is new of a display. Rows wait until the browser has answered for the last ones.
    pub fn show(&mut self, view: &mut SentPage, display: &mut WebDisplay) -> Result<(), WireFault>
        ensures sends { OnOk result (SendsAll display.old.told view.old view.new self.old self.new) }
        ensures needed { display.new.sheet.moment ≤ view.old.since → OnOk result (self.new.sent ≡ self.old.sent) }
        // Nothing that is on its way is lost.
        ensures adds { OnOk result (Adds self.old self.new) }
        ensures due { IsDue display.old self.old → OnOk result (Shows display.old view.old.since self.old
            display.new view.new.since self.new) }
        ensures later { (IsDue display.old self.old → ⊥)
            → (view.new.since ≡ view.old.since) × (display.new ≡ display.old)
            × (self.new.sent ≡ self.old.sent) }
        ensures same { display.new ≡ record display.old { sheet = display.new.sheet } }
    {
        let is_due = self.is_due(display);
        self.welcome(view, display)?;
        if is_due {
            self.send_rows(view, display)?;
        }
        self.end(display)
    }

    /// Whether what waits for the browser is within its bound: it isn't given up.
    pub fn check_bound(&self) -> Result<(), WireFault>
        ensures within { OnOk result (IsWithin self.now) }
        ensures fault { IfErr result (IsGivenUp (IsWithin self.now)) }
    {
        if self.output.len() > MOST_OUTPUT {
            return Err(WireFault::TooFarBehind);
        }
        Ok(())
    }
}
