//! The state of a peer.

ghost use Rattle.std.specs.Prelude.{◌≡◌, ◌↔◌, ◌++◌, [], false, true, Some, None, IfSome, IsSome, OnErr, OnOk};
ghost use Rattle.std.specs.Option.{option_or};
ghost use Rattle.attach_proto.specs.Spelling.{spelling};
ghost use Rattle.client_peer.specs.Beginning.{IsBegun};
ghost use Rattle.client_peer.specs.Ending.{EndsOutput, ending_of};
ghost use Rattle.client_peer.specs.Meeting.{Meets, IsFresh};
ghost use Rattle.client_peer.specs.Sending.{HasServer, writing};
ghost use Rattle.client_peer.specs.Showing.{BeginsAnew, cutting};
ghost use Rattle.client_peer.specs.Typing.{is_to_fit};
ghost use Rattle.client_peer.specs.declared.meeting.Meeting.TheVariants.{Same};

use crate::looking::Timers;
use crate::meeting::{Meeting, SessionMark};
use attach_proto::{Message, Why};
use client_notice::Notice;
use client_page::KeptPage;
use client_typing::Typing;
use client_words::{Arguments, PeerFault, Subcommand, TerminalSize};
use draw_check::DrawCheck;
use std::alloc::Global;
use std::mem;

/// What is to be written to standard output and to the sizes' file. It can't be let go: it is written once.
pub struct Output {
    pub bytes: Vec<u8>,
    pub sizes: Vec<u8>,
}

/// A peer: what it has for standard output and for the server, and how it ended.
#[derive(Drop)]
pub struct Peer {
    pub(crate) alloc: Global,
    pub(crate) subcommand: Subcommand,
    /// The size of a client's terminal or of a window.
    pub rows: u16,
    pub columns: u16,
    /// Whether the window in focus follows the terminal's size.
    pub(crate) fits: bool,
    pub(crate) bytes: Vec<u8>,
    /// Input for the program of a window that comes back: it waits until the window is opened again.
    pub(crate) early: Vec<u8>,
    /// Checks what the server sends for a client's terminal.
    pub(crate) draws: DrawCheck,
    /// This connection's server drew something, so the terminal may be within a function.
    pub(crate) has_drawn: bool,
    /// The last draw goes on in the next frame.
    pub(crate) is_cut: bool,
    /// The terminal shows the client's help, so draws are dropped.
    pub(crate) is_covered: bool,
    /// The help is asked for.
    pub(crate) is_helping: bool,
    pub(crate) notice: Notice,
    pub(crate) sizes: Vec<u8>,
    pub(crate) is_writing: bool,
    pub(crate) frames: Vec<u8>,
    /// How many of their bytes were sent.
    pub(crate) sent: usize,
    pub(crate) is_sending: bool,
    /// The connection took nothing for a while: who waits for the time sends the rest.
    pub is_stuck: bool,
    /// The connection takes no more frames.
    pub(crate) is_shut: bool,
    pub(crate) connection: u32,
    /// The page of a window that stays, and what its program printed while no server was there.
    pub(crate) page: KeptPage,
    /// The number that the window had when a server let it in last.
    pub(crate) number: u8,
    /// The number that it had at the last server that the page was opened in.
    pub page_number: u8,
    /// The window is to be opened again: what it prints waits.
    pub(crate) is_reopening: bool,
    /// The name of the session that the peer was in; empty if nothing named it.
    pub(crate) session: Vec<u8>,
    /// Nothing said that the session at the socket is the one that the peer was in.
    pub is_unsure: bool,
    pub typing: Typing,
    /// This connection's server let the peer in.
    pub is_welcome: bool,
    /// A server let the peer in at some time.
    pub was_welcome: bool,
    /// The session's last text before it let the peer in.
    pub said: Option<String>,
    /// How the connection ended.
    pub end: Option<Result<Why, PeerFault>>,
    /// How the connection ended that is to be replaced by another one.
    pub(crate) loss: Option<Result<Why, PeerFault>>,
    /// The peer doesn't come back.
    pub is_final: bool,
    /// Why standard input or standard output failed.
    pub(crate) fault: Option<PeerFault>,
    /// A line of the sizes' file wasn't a size.
    pub has_dropped: bool,
    pub times: Timers,
}

impl Peer {
    pub fn new(alloc: Global, arguments: &Arguments<'_>) -> Peer
        ensures { IsBegun arguments.now result }
    {
        Peer {
            alloc,
            subcommand: arguments.subcommand,
            rows: arguments.rows,
            columns: arguments.columns,
            fits: arguments.fit,
            bytes: Vec::new(alloc),
            early: Vec::new(alloc),
            draws: DrawCheck::new(),
            has_drawn: false,
            is_cut: false,
            is_covered: false,
            is_helping: false,
            notice: Notice::new(alloc),
            sizes: Vec::new(alloc),
            is_writing: false,
            frames: Vec::new(alloc),
            sent: 0,
            is_sending: false,
            is_stuck: false,
            is_shut: false,
            connection: 0,
            page: KeptPage::new(alloc, arguments),
            number: 0,
            page_number: 0,
            is_reopening: false,
            session: Vec::new(alloc),
            is_unsure: false,
            typing: Typing::new(arguments),
            is_welcome: false,
            was_welcome: false,
            said: None,
            end: None,
            loss: None,
            is_final: false,
            fault: None,
            has_dropped: false,
            times: Timers::new(arguments),
        }
    }

    /// Begins another connection, if the session at the socket is the one that the peer was in. What the last one's
    /// server drew may end within a function: CAN ends it, and the check begins anew. If memory for that is refused,
    /// the check goes on.
    pub fn begin(&mut self, mark: &SessionMark) -> Meeting
        ensures meets { Meets self.old mark.now result }
        ensures begins { result ≡ Same → BeginsAnew self.old self.new }
        ensures fresh { result ≡ Same → IsFresh self.old self.new }
        ensures leaves { result ≡ Same → HasServer self.new → ⊥ }
        ensures stays { (result ≡ Same → ⊥) → self.new ≡ self.old }
    {
        let met = self.meets(mark);
        if met == Meeting::Same {
            self.begin_anew();
        }
        met
    }

    fn begin_anew(&mut self)
        ensures begins { BeginsAnew self.old self.new }
        ensures fresh { IsFresh self.old self.new }
        ensures leaves { HasServer self.new → ⊥ }
    {
        self.cut_off();
        self.early.clear();
        self.is_cut = false;
        self.is_covered = false;
        self.is_helping = false;
        self.frames.clear();
        self.sent = 0;
        self.is_stuck = false;
        self.is_shut = false;
        self.connection = self.connection.wrapping_add(1);
        self.typing.begin();
        self.is_welcome = false;
        self.is_reopening = false;
        self.said = None;
        self.end = None;
    }

    // Puts down CAN if something was drawn.
    fn cut_off(&mut self)
        ensures begins { BeginsAnew self.old self.new }
        ensures same { self.new ≡ cutting self.old self.new }
    {
        if self.has_drawn && self.bytes.push(0x18).is_ok() {
            self.draws = DrawCheck::new();
            self.has_drawn = false;
        }
    }

    /// Notes how the connection ended. Only the first call counts.
    pub fn end_by(&mut self, end: Result<Why, PeerFault>)
        ensures ends { self.new ≡ record self.old { end = option_or self.old.end (Some end) } }
        ensures some { IsSome self.new.end }
    {
        self.end = self.end.or(Some(end));
    }

    /// How the peer ended. A fault of its input or output replaces a good end.
    pub fn ending(&self) -> Result<Why, PeerFault>
        ensures { result ≡ ending_of self.now.end self.now.fault }
    {
        match (self.end, self.fault) {
            (Some(Ok(_)), Some(fault)) => Err(fault),
            (Some(end), _) => end,
            (None, _) => Err(PeerFault::Ended),
        }
    }

    /// Takes a new size of the terminal, even if it is the old one: then all is drawn anew.
    pub fn resize(&mut self, size: TerminalSize) -> Result<(), PeerFault>
        ensures size { (self.new.rows ≡ size.rows) × (self.new.columns ≡ size.columns) }
        ensures asks { OnOk result (self.new.frames.items ≡ self.old.frames.items
            ++ spelling (Message.Resize size.rows size.columns)) }
        ensures err { OnErr result (self.new.frames.items ≡ self.old.frames.items) }
        ensures same { self.new ≡ record self.old {
          rows = size.rows;
          columns = size.columns;
          frames = self.new.frames;
          times = record self.old.times { wants_fit = is_to_fit self.old size.rows size.columns; fit_at = None };
        } }
    {
        let is_new = size.rows != self.rows || size.columns != self.columns;
        self.rows = size.rows;
        self.columns = size.columns;
        self.times.wants_fit |= self.fits && is_new;
        self.times.fit_at = None;
        self.redraw()
    }

    /// Whether something waits for standard output or for the sizes' file.
    pub fn has_output(&self) -> bool
        ensures { result ≡ false ↔ (self.now.bytes.items ≡ []) × (self.now.sizes.items ≡ []) }
    {
        !self.bytes.is_empty() || !self.sizes.is_empty()
    }

    /// Takes what waits for standard output and for the sizes' file.
    pub fn begin_writing(&mut self) -> Output
        ensures all { (result.bytes.items ≡ self.old.bytes.items) × (result.sizes.items ≡ self.old.sizes.items) }
        ensures none { (self.new.bytes.items ≡ []) × (self.new.sizes.items ≡ []) }
        ensures same { self.new ≡ writing self.old self.new }
    {
        self.is_writing = true;
        Output {
            bytes: mem::replace(&mut self.bytes, Vec::new(self.alloc)),
            sizes: mem::replace(&mut self.sizes, Vec::new(self.alloc)),
        }
    }

    /// Notes that it was written, or why it wasn't: then the peer ends. An ended window's program may read no more.
    pub fn end_writing(&mut self, fault: Option<PeerFault>)
        ensures written { fault ≡ None → self.new ≡ record self.old { is_writing = false } }
        ensures failed { IfSome fault (λ f. EndsOutput self.old f self.new) }
    {
        self.is_writing = false;
        let Some(fault) = fault else {
            return;
        };
        if self.end.is_none() || !self.subcommand.is_window() {
            self.fault = Some(fault);
        }
        self.bytes.clear();
        self.is_final = true;
        self.end_by(Err(fault));
    }
}
