//! Sorts the messages that come from the server.

ghost use Rattle.std.specs.Prelude.{◌≡◌, ◌↔◌, ◌⊎◌, IsTrue, ◌++◌, ◌∷◌, ◌||◌, [], Ok, Err, Some, None, true, false};
ghost use Rattle.std.specs.Prelude.{OnOk, OnErr, IfOk, IfErr};
ghost use Rattle.client_words.specs.declared.arguments.Subcommand.TheVariants.{Attach, Ping};
ghost use Rattle.client_words.specs.declared.fault.PeerFault.TheVariants.{Ended};
ghost use Rattle.client_peer.specs.Ending.{end_for};
ghost use Rattle.client_peer.specs.Hearing.{Shows, Says, LetsIn, Delivers, Hears, HearsFirst, IsSized, TakesInput};
ghost use Rattle.client_peer.specs.Hearing.{HearsRead, gone_in, size_line, sized};
ghost use Rattle.client_peer.specs.Failing.{FailsAfter, FailsAt, FailsBy, FailsRead, IsNoDraw, IsNotShown};
ghost use Rattle.client_peer.specs.Meeting.{IsToOpen, Meets, Opens, StaysClosed};
ghost use Rattle.client_peer.specs.Sending.{IsBehind};
ghost use Rattle.client_peer.specs.Showing.{Keeps, Adds, PassesOn, StopsAt};
ghost use Rattle.client_peer.specs.declared.meeting.Meeting.TheVariants.{Same};

use crate::meeting::{Meeting, SessionMark};
use crate::peer::Peer;
use crate::typing::ReadPiece;
use attach_proto::{Kind, LONGEST, Message, ProtoFault, Reader, Told, Why};
use client_typing::put_frames;
use client_words::{PeerFault, Subcommand, put_visible};
use std::alloc::AllocError;

// While more bytes than this wait for standard output, the server isn't read.
const MOST_WAITING: usize = 65_536;

// How a peer ends after the server's GONE.
fn ended(subcommand: Subcommand, why: Why) -> Result<Why, PeerFault>
    ensures { result ≡ end_for subcommand why }
{
    match why {
        Why::Detached | Why::Quit => Ok(why),
        Why::Killed if subcommand.is_window() => Ok(why),
        _ => Err(PeerFault::Gone(why)),
    }
}

impl Peer {
    // Passes bytes on. It copies them only if others wait before them.
    fn put(&mut self, bytes: Vec<u8>) -> Result<(), AllocError>
        ensures ok { OnOk result (Adds self.old self.new bytes.items) }
        ensures err { OnErr result (Keeps self.old self.new) }
        ensures same { self.new ≡ record self.old { bytes = self.new.bytes } }
    {
        if self.bytes.is_empty() {
            self.bytes = bytes;
            return Ok(());
        }
        self.bytes.extend_from_slice(&bytes)
    }

    // The bytes of a draw for a client's terminal. They are passed on only if all that came is what draws use.
    pub(crate) fn put_draw(&mut self, bytes: Vec<u8>) -> Result<(), PeerFault>
        ensures ok { OnOk result (PassesOn self.old self.new) }
        ensures err { OnErr result (self.new.bytes.items ≡ self.old.bytes.items) }
        ensures fault { IfErr result (IsNoDraw self.old bytes.items) }
        ensures added { OnOk result (self.new.bytes.items ≡ self.old.bytes.items ++ bytes.items) }
        ensures same { self.new ≡ record self.old { bytes = self.new.bytes; draws = self.new.draws } }
    {
        if !self.draws.feed(&bytes) {
            return Err(PeerFault::NoDraw);
        }
        self.put(bytes)?;
        Ok(())
    }

    // Puts down a draw, unless the terminal shows the help: then a whole draw follows it.
    fn show(&mut self, bytes: Vec<u8>) -> Result<(), PeerFault>
        ensures ok { OnOk result (PassesOn self.old self.new) }
        ensures err { OnErr result (self.new.bytes.items ≡ self.old.bytes.items) }
        ensures fault { IfErr result (IsNotShown self.old bytes.items) }
        ensures closed { self.old.subcommand ≡ Attach → StaysClosed self.old self.new }
        ensures shows { OnOk result (Shows self.old.is_covered self.old bytes.items self.new) }
    {
        self.is_cut = bytes.len() == 1 || bytes.len() == LONGEST;
        if self.is_covered {
            self.is_covered = self.is_cut || self.is_helping;
            return Ok(());
        }
        self.has_drawn = true;
        self.notice.is_hidden = true;
        self.put_draw(bytes)
    }

    fn put_size(&mut self, rows: u16, columns: u16) -> Result<(), AllocError>
        ensures keeps { Keeps self.old self.new }
        ensures same { self.new ≡ record self.old { rows = rows; columns = columns; sizes = self.new.sizes } }
        ensures size { OnOk result (self.new.sizes.items ≡ self.old.sizes.items ++ size_line rows columns) }
    {
        self.rows = rows;
        self.columns = columns;
        let line = format!(in self.alloc; "{rows} {columns}\n")?;
        self.sizes.extend_from_slice(line.as_bytes())
    }

    // A text for a command is its output. Once a client is let in, its status line has the texts. The
    // last text before that is the reason if the peer isn't let in.
    fn hear(&mut self, text: &str) -> Result<(), AllocError>
        ensures subcommand { self.new.subcommand ≡ self.old.subcommand }
        ensures keeps { self.old.subcommand ≡ Attach → Keeps self.old self.new }
        ensures closed { StaysClosed self.old self.new }
        ensures says { OnOk result (Says false self.old text.now self.new) }
    {
        if self.subcommand.is_command() {
            put_visible(text.as_bytes(), &mut self.bytes)?;
            self.bytes.push(b'\n')?;
        }
        self.said = Some(String::from_str(self.alloc, text)?);
        Ok(())
    }

    // Notes that the peer is let in. A window gets its first size, unless it is to be opened again first.
    fn welcome(&mut self) -> Result<(), AllocError>
        ensures keeps { Keeps self.old self.new }
        ensures closed { StaysClosed self.old self.new }
        ensures lets { OnOk result (LetsIn self.old.subcommand self.old.is_welcome self.old self.new) }
    {
        if self.is_welcome || self.subcommand.is_command() {
            return Ok(());
        }
        self.is_reopening = self.was_welcome && self.subcommand.is_window();
        self.is_welcome = true;
        self.was_welcome = true;
        self.loss = None;
        self.times.wants_fit = self.fits;
        if self.subcommand.is_window() && !self.is_reopening {
            self.page_number = self.number;
            return self.put_size(self.rows, self.columns);
        }
        Ok(())
    }

    /// Opens a window again, if the session at the socket is the one that it was in; its page is hidden from this
    /// server or isn't. If the server isn't told the page, the window's size is told again, so that its program draws
    /// anew. If the server is gone since the mark was read (not `is_here`), the mark may be another server's.
    pub fn reopen(
        &mut self,
        mark: &SessionMark,
        is_here: bool,
        is_hidden: bool,
    ) -> Result<Meeting, AllocError>
        ensures meets { IsToOpen self.old is_here → IfOk result (Meets self.old mark.now) }
        ensures gone { (IsToOpen self.old is_here → ⊥) → result ≡ Ok Meeting.Older }
        ensures ok { IfOk result (λ met. met ≡ Same → Opens self.old self.new is_hidden) }
        ensures stays { IfOk result (λ met. (met ≡ Same → ⊥) → self.new ≡ self.old) }
        ensures fault { OnErr result (Meets self.old mark.now Same) }
    {
        let waits = self.is_welcome && self.is_reopening && self.end.is_none();
        if !waits || !is_here {
            return Ok(Meeting::Older);
        }
        let met = self.meets(mark);
        if met == Meeting::Same {
            self.open(is_hidden)?;
        }
        Ok(met)
    }

    fn open(&mut self, is_hidden: bool) -> Result<(), AllocError>
        ensures { OnOk result (Opens self.old self.new is_hidden) }
    {
        self.is_reopening = false;
        self.page_number = self.number;
        self.page.is_hidden = is_hidden;
        self.bytes.extend_from_slice(&self.early)?;
        self.early.clear();
        let (bytes, is_told) = self.page.tell_again()?;
        put_frames(Kind::Output, &bytes, &mut self.frames)?;
        if is_told {
            return Ok(());
        }
        self.put_size(self.rows, self.columns)
    }

    fn resize_window(&mut self, rows: u16, columns: u16) -> Result<(), AllocError>
        ensures keeps { Keeps self.old self.new }
        ensures closed { StaysClosed self.old self.new }
        ensures same { self.new ≡ sized self.old rows columns self.new }
        ensures size { OnOk result (self.new.sizes.items ≡ self.old.sizes.items ++ size_line rows columns) }
        ensures page { IsSized self.old.page rows columns self.new.page }
    {
        // Without memory for it no page is kept.
        let _ = self.page.resize(rows, columns);
        self.put_size(rows, columns)
    }

    // Takes input for a window's program. If the window comes back, the session may be another one: the input waits.
    fn take_input(&mut self, bytes: Vec<u8>) -> Result<(), AllocError>
        ensures takes { OnOk result (TakesInput self.old bytes.items self.new) }
        ensures closed { StaysClosed self.old self.new }
        ensures same { self.new ≡ record self.old { bytes = self.new.bytes; early = self.new.early } }
    {
        if self.was_welcome && !self.has_server() {
            return self.early.extend_from_slice(&bytes);
        }
        self.put(bytes)
    }

    // Puts down what a message has for the files that the peer writes to. A server of ours sends draws to
    // clients, and input and sizes to windows.
    fn put_message(&mut self, message: Message) -> Result<(), PeerFault>
        ensures ok { OnOk result (PassesOn self.old self.new) }
        ensures err { OnErr result (StopsAt self.old self.new) }
        ensures fault { IfErr result (FailsBy self.old message) }
        ensures closed { StaysClosed self.old self.new }
        ensures delivers { OnOk result (Delivers self.old message self.new) }
    {
        match message {
            Message::Draw(bytes) if self.subcommand.is_attach() => self.show(bytes.into_vec()),
            Message::Say(text) if self.subcommand.is_attach() && self.is_welcome => Ok(
                self.notice
                    .hear_later(self.alloc, text.as_str(), self.typing.assists)?,
            ),
            Message::Input(bytes) if self.subcommand.is_window() => Ok(self.take_input(
                bytes.into_vec(),
            )?),
            Message::Size { rows, columns } if self.subcommand.is_window() => Ok(self.resize_window(
                rows, columns,
            )?),
            Message::Welcome(number) => {
                self.number = number;
                Ok(())
            }
            Message::Draw(_) | Message::Input(_) | Message::Size { .. } => {
                Err(PeerFault::NoServerOfOurs)
            }
            _ => Ok(()),
        }
    }

    // Sorts one message. Returns why the server lets the peer go, if it does.
    fn take(&mut self, message: Message) -> Result<Option<Why>, PeerFault>
        ensures ok { OnOk result (PassesOn self.old self.new) }
        ensures err { OnErr result (StopsAt self.old self.new) }
        ensures fault { IfErr result (FailsBy self.old message) }
        ensures closed { StaysClosed self.old self.new }
        ensures hears { IfOk result (λ gone. Hears self.old message self.new × (gone ≡ gone_in message)) }
    {
        // A command is never let in here, so it hears each text.
        let mut told = Told::new();
        told.is_welcome = self.is_welcome;
        told.note(self.alloc, &message)?;
        self.put_message(message)?;
        if told.is_welcome {
            self.welcome()?;
        }
        if let Some(text) = &told.refusal {
            self.hear(text.as_str())?;
        }
        Ok(told.gone)
    }

    // Sorts the messages of a read, after which there may be a fault.
    fn take_all(
        &mut self,
        messages: Vec<Message>,
        fed: Result<(), ProtoFault>,
    ) -> Result<Option<Why>, PeerFault>
        ensures ok { OnOk result (PassesOn self.old self.new) }
        ensures err { OnErr result (StopsAt self.old self.new) }
        ensures fault { IfErr result (λ e. FailsAt self.old messages.items e ⊎ FailsAfter fed e) }
        ensures closed { StaysClosed self.old self.new }
        ensures hears { IfOk result (λ gone. HearsFirst self.old messages.items gone self.new) }
        ensures fed { IfOk result (λ gone. gone ≡ None → fed ≡ Ok tt) }
    {
        for message in messages {
            if let Some(why) = self.take(message)? {
                return Ok(Some(why));
            }
        }
        match fed {
            Ok(()) => Ok(None),
            Err(ProtoFault::NoMemory) => Err(PeerFault::NoMemory),
            Err(_) => Err(PeerFault::NoServerOfOurs),
        }
    }

    /// Whether so much waits for standard output that the server isn't read.
    pub fn is_behind(&self) -> bool
        ensures { IsTrue result ↔ IsBehind self.now }
    {
        self.bytes.len() > MOST_WAITING || self.early.len() > MOST_WAITING
    }

    /// Sorts what a read gave; nothing means the stream's end. Returns how the peer ended, if it did. All that a client
    /// passes on to its terminal from one connection, together, consists of functions that draws use. More is a fault:
    /// of that frame nothing is passed on. CAN comes before what the next connection draws (`begin`).
    pub fn take_read(
        &mut self,
        reader: &mut Reader,
        piece: ReadPiece<'_>,
    ) -> Result<Option<Result<Why, PeerFault>>, PeerFault>
        ensures ok { OnOk result (PassesOn self.old self.new) }
        ensures err { OnErr result (StopsAt self.old self.new) }
        ensures fault { IfErr result (FailsRead self.old reader.old piece.entry.bytes.now reader.new) }
        ensures closed { StaysClosed self.old self.new }
        ensures ends { (self.old.subcommand ≡ Ping → ⊥) → piece.entry.bytes.now ≡ []
            → result ≡ Ok (Some (Err Ended)) }
        ensures ping { self.old.subcommand ≡ Ping → (result ≡ Ok (Some (Ok Why.Detached))) × (self.new ≡ self.old) }
        ensures hears { (self.old.subcommand ≡ Ping → ⊥) → (piece.entry.bytes.now ≡ [] → ⊥)
            → IfOk result (HearsRead self.old reader.old piece.entry.bytes.now self.new reader.new) }
    {
        let ReadPiece { bytes } = piece;
        // Any answer to `mux ping` shows that there is a server.
        if matches!(self.subcommand, Subcommand::Ping) {
            return Ok(Some(Ok(Why::Detached)));
        }
        if bytes.is_empty() {
            return Ok(Some(Err(PeerFault::Ended)));
        }
        let mut messages = Vec::new(self.alloc);
        let fed = reader.feed(bytes, &mut messages);
        match self.take_all(messages, fed)? {
            Some(why) => Ok(Some(ended(self.subcommand, why))),
            None => Ok(None),
        }
    }
}
