//! A client of the server: the frames that go to it, and what came from it.

ghost use Rattle.std.specs.Prelude.{◌≡◌, ◌++◌, ◌≤◌, ℕ, List, length, take, drop, IfOk, OnOk, OnErr, IfErr};
ghost use Rattle.std.specs.String.{string_bytes};
ghost use Rattle.attach_proto.specs.Spelling.{spelling, IsSpellable};
ghost use Rattle.web_page.specs.Hearing.{IsBlank, IsResized};
ghost use Rattle.web_client.specs.Asking.{HearsRead, IsLogin};
ghost use Rattle.web_client.specs.Judging.{IsTyped, FailsFor};
ghost use Rattle.web_streams.specs.Streaming.{WritesOut};
ghost use Rattle.web_client.specs.declared.client.WebClient.{WebClient as Attached};

use attach_proto::{Bytes, Message, Text, Token, WriteFault, write_message};
use std::alloc::Global;
use web_page::{ClientFault, WebDisplay};
use web_requests::Watcher;
use web_streams::{Outgoing, ReadBuffer, ReadOutcome, WebStream};

/// A client of the server, over a connection of its own.
#[derive(Drop)]
pub struct WebClient {
    alloc: Global,
    // The frames that wait for the server. The token is in them, and nowhere else.
    pub(crate) outgoing: Outgoing,
    pub(crate) display: WebDisplay,
}

impl WebClient {
    // Puts the frame of a message after those that wait.
    fn ask(&mut self, message: &Message) -> Result<(), ClientFault>
        ensures ok { OnOk result (self.new
            ≡ record self.old { outgoing = self.old.outgoing ++ spelling message.now }) }
        ensures err { OnErr result (self.new ≡ self.old) }
        ensures fault { IfErr result (FailsFor (IsSpellable message.now)) }
    {
        let mut frame = Vec::new(self.alloc);
        match write_message(self.alloc, message, &mut frame) {
            Ok(()) => Ok(self.outgoing.put(&frame)?),
            Err(WriteFault::Unspellable) => Err(ClientFault::Unspellable),
            Err(WriteFault::NoMemory) => Err(ClientFault::NoMemory),
        }
    }

    /// A client on a page of this many lines and columns, which says who it is.
    pub(crate) fn attach(
        alloc: Global,
        rows: u16,
        columns: u16,
        token: Token,
        name: &str,
    ) -> Result<WebClient, ClientFault>
        ensures asks { IfOk result (λ c. c.outgoing
            ≡ spelling (Message.Attach rows columns token name.now)) }
        ensures display { IfOk result (λ c. IsBlank rows columns name.now c.display) }
        ensures fault { IfErr result (FailsFor (length name.now ≤ 8124)) }
    {
        let mut client = WebClient {
            alloc,
            outgoing: Outgoing::new(alloc),
            display: WebDisplay::new(alloc, rows, columns, name)?,
        };
        let name = Text::of(alloc, name)?;
        // A token is 64 digits and a text is UTF-8, so a frame spells both: these calls ensure it.
        let _digits = token.as_slice();
        let _text = name.as_str();
        client.ask(&Message::Attach {
            rows,
            columns,
            token,
            name,
        })?;
        Ok(client)
    }

    /// What the server has told it.
    pub fn display(&self) -> &WebDisplay
        ensures { result.now ≡ self.now.display }
    {
        &self.display
    }

    /// How many bytes wait for the server.
    pub(crate) fn waiting(&self) -> usize
        ensures { result ≡ length self.now.outgoing }
    {
        self.outgoing.waiting()
    }

    /// Passes on what was typed.
    pub(crate) fn press(&mut self, keys: &[u8]) -> Result<(), ClientFault>
        ensures ok { OnOk result (self.new
            ≡ record self.old { outgoing = self.old.outgoing ++ spelling (Message.Keys keys.now) }) }
        ensures err { OnErr result (self.new ≡ self.old) }
        ensures fault { IfErr result (FailsFor (IsTyped keys.now)) }
    {
        let keys = Bytes::of(self.alloc, keys)?;
        self.ask(&Message::Keys(keys))
    }

    /// Passes on a new size. The page is drawn in it from now on.
    pub(crate) fn resize(&mut self, rows: u16, columns: u16) -> Result<(), ClientFault>
        ensures asks { OnOk result (self.new.outgoing
            ≡ self.old.outgoing ++ spelling (Message.Resize rows columns)) }
        ensures display { OnOk result (IsResized rows columns self.old.display self.new.display) }
        ensures err { OnErr result (self.new.outgoing ≡ self.old.outgoing) }
        ensures fault { IfErr result (λ e. e ≡ ClientFault.NoMemory) }
    {
        self.display.resize(rows, columns)?;
        self.ask(&Message::Resize { rows, columns })
    }

    /// Asks to leave.
    pub(crate) fn detach(&mut self) -> Result<(), ClientFault>
        ensures ok { OnOk result (self.new
            ≡ record self.old { outgoing = self.old.outgoing ++ spelling Message.Detach }) }
        ensures err { OnErr result (self.new ≡ self.old) }
        ensures fault { IfErr result (λ e. e ≡ ClientFault.NoMemory) }
    {
        self.ask(&Message::Detach)
    }

    /// Reads the server once, and hears what came. If it can't be heard the connection ends.
    pub(crate) fn receive<S: WebStream>(
        &mut self,
        server: &mut S,
        buffer: &mut ReadBuffer,
    ) -> ReadOutcome
        ensures hears { HearsRead S.reads server.old self.old.display result server.new self.new.display }
        ensures asks { self.new.outgoing ≡ self.old.outgoing }
    {
        let arrival = server.read_once(buffer);
        let piece = buffer.piece();
        if piece.is_empty() {
            return arrival;
        }
        match self.display.hear_all(piece) {
            Ok(()) => arrival,
            Err(_) => ReadOutcome::End,
        }
    }

    /// Writes the bytes that wait, as far as the server takes them. Returns false if the connection is broken.
    pub(crate) fn send_all<S: WebStream>(&mut self, server: &mut S) -> bool
        ensures sent { WritesOut S.writes server.old self.old.outgoing result server.new self.new.outgoing }
        ensures display { self.new.display ≡ self.old.display }
    {
        self.outgoing.send_all(server)
    }
}

/// A client whose page many browsers are shown: one of the user as whom anybody may watch, and of nobody else.
#[derive(Drop)]
pub struct SharedClient {
    // Only this module and the browsers that watch reach it, so no other client is shown to them.
    pub(crate) client: WebClient,
}

impl SharedClient {
    /// A client of the user as whom anybody may watch, on a page of this many lines and columns.
    pub fn attach(
        alloc: Global,
        rows: u16,
        columns: u16,
        watcher: &Watcher,
    ) -> Result<SharedClient, ClientFault>
        ensures asks { IfOk result (λ c. c.client.outgoing
            ≡ spelling (Message.Attach rows columns watcher.now.token (string_bytes watcher.now.name))) }
        ensures display { IfOk result (λ c. IsBlank rows columns (string_bytes watcher.now.name) c.client.display) }
    {
        let token = watcher.token.copied();
        let client = WebClient::attach(alloc, rows, columns, token, watcher.name.as_str())?;
        Ok(SharedClient { client })
    }

    /// What the server has told it.
    pub fn display(&self) -> &WebDisplay
        ensures { result.now ≡ self.now.client.display }
    {
        &self.client.display
    }

    /// Reads the server once, and hears what came.
    pub fn receive<S: WebStream>(&mut self, server: &mut S, buffer: &mut ReadBuffer) -> ReadOutcome
        ensures hears { HearsRead S.reads server.old self.old.client.display result server.new
            self.new.client.display }
        ensures asks { self.new.client.outgoing ≡ self.old.client.outgoing }
    {
        self.client.receive(server, buffer)
    }

    /// Passes on keys that choose its window.
    pub fn choose(&mut self, keys: &[u8]) -> Result<(), ClientFault>
        ensures ok { OnOk result (self.new.client ≡ record self.old.client {
          outgoing = self.old.client.outgoing ++ spelling (Message.Keys keys.now);
        }) }
        ensures err { OnErr result (self.new ≡ self.old) }
    {
        self.client.press(keys)
    }

    /// Writes the bytes that wait, as far as the server takes them. Returns false if the connection is broken.
    pub fn send_all<S: WebStream>(&mut self, server: &mut S) -> bool
        ensures sent { WritesOut S.writes server.old self.old.client.outgoing result server.new
            self.new.client.outgoing }
        ensures display { self.new.client.display ≡ self.old.client.display }
    {
        self.client.send_all(server)
    }
}

/// Two browsers that give the same size and name, but other tokens, have the same display.
pub fn tokens_change_no_display()
    ensures { (p q : List ℕ) (a b : Attached) → take 4 p ≡ take 4 q → drop 68 p ≡ drop 68 q
        → IsLogin p a → IsLogin q b → a.display ≡ b.display }
{}
