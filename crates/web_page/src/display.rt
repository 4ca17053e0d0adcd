//! What the server has told a client: whether it is in, its page, and why it ended. A browser is shown
//! this alone, and no token is in it.

ghost use Rattle.std.specs.Prelude.{◌≡◌, ◌↔◌, ◌<◌, IsTrue, Some, None, ◌⊎◌};
ghost use Rattle.std.specs.Prelude.{IfOk, IfErr, IfSome, OnOk, Err, MatchOption};
ghost use Rattle.std.specs.String.{string_bytes};
ghost use Rattle.terminal_model.specs.Reading.{Terminal, reads};
ghost use Rattle.emulator.specs.Standing.{StandsFor};
ghost use Rattle.web_page.specs.Updates.{Update, spelled};
ghost use Rattle.web_page.specs.Laying.{Shown, laid, page_of};
ghost use Rattle.web_page.specs.Showing.{IsShown, Looks, newer};
ghost use Rattle.web_page.specs.Failing.{FailsAt, IsNext};
ghost use Rattle.web_page.specs.Vacant.{IsVacant};
ghost use Rattle.web_page.specs.Hearing.{IsBlank, IsResized, drawn, all_drawn, Hears, KeepsSent};
ghost use Rattle.web_page.specs.Hearing.{all_noted, FailsToHear, heard_fault};
ghost use Rattle.web_page.specs.declared.display.ClientFault.TheVariants as client;
ghost use Rattle.attach_proto.specs.Table.{noted};

use crate::sheet::{Sheet, SheetFault};
use attach_proto::{Message, ProtoFault, Reader, Side, Text, Told, Why};
use std::alloc::{AllocError, Global};
use std::marker::Model;

/// Why a client ends.
#[derive(Clone, Copy, Debug, PartialEq, Eq)]
pub enum ClientFault {
    /// No frame can say this.
    Unspellable,
    NoMemory,
    /// The server sent something that isn't understood.
    BadFrame,
}

impl From<AllocError> for ClientFault {
    ghost from_gives = { λ _ e. e ≡ client.NoMemory };

    fn from(_error: AllocError) -> ClientFault {
        ClientFault::NoMemory
    }
}

impl From<ProtoFault> for ClientFault {
    ghost from_gives = { λ fault e. e ≡ heard_fault fault };

    fn from(fault: ProtoFault) -> ClientFault {
        match fault {
            ProtoFault::NoMemory => ClientFault::NoMemory,
            _ => ClientFault::BadFrame,
        }
    }
}

/// What the server has told a client.
pub struct WebDisplay {
    alloc: Global,
    name: Text,
    reader: Reader,
    sheet: Sheet,
    told: Told,
}

impl Drop for WebDisplay {
    fn drop(self) {
        let WebDisplay {
            alloc: _,
            name: _,
            reader: _,
            sheet: _,
            told: _,
        } = self;
    }
}

impl Model for WebDisplay {
    ghost use Rattle.web_page.specs.Hearing.{WebDisplay as Heard};

    ghost Value = { Heard };

    ghost view = { λ d. record {
      name = d.name;
      reading = d.reader;
      sheet = d.sheet;
      told = d.told;
    } };
}

impl WebDisplay {
    /// The display of a client that has heard nothing.
    pub fn new(
        alloc: Global,
        rows: u16,
        columns: u16,
        name: &str,
    ) -> Result<WebDisplay, ClientFault>
        ensures ok { IfOk result (IsBlank rows columns name.now) }
        ensures fault { IfErr result (λ e. e ≡ ClientFault.NoMemory) }
    {
        let Ok(sheet) = Sheet::new(alloc, rows, columns) else {
            return Err(ClientFault::NoMemory);
        };
        let name = Text::of(alloc, name)?;
        Ok(WebDisplay {
            alloc,
            name,
            reader: Reader::new(alloc, Side::Peer),
            sheet,
            told: Told::new(),
        })
    }

    /// The name that the client gave.
    pub fn name(&self) -> &str
        ensures { result.now ≡ self.now.name }
    {
        self.name.as_str()
    }

    /// Whether the server let it in.
    pub fn is_welcome(&self) -> bool
        ensures { result ≡ self.now.told.is_welcome }
    {
        self.told.is_welcome
    }

    /// Why the server let it go, if it did.
    pub fn gone(&self) -> Option<Why>
        ensures { result ≡ self.now.told.gone }
    {
        self.told.gone
    }

    /// Why the server didn't let it in, if it said so.
    pub fn refusal(&self) -> Option<&str>
        ensures { MatchOption result (self.now.told.refusal ≡ None)
            (λ text. self.now.told.refusal ≡ Some text.now) }
    {
        match &self.told.refusal {
            Some(text) => Some(text.as_str()),
            None => None,
        }
    }

    /// The update of its page for a browser that was sent all changes before the moment `since`, or
    /// nothing if that is 0; None if it needs none.
    pub fn update(&mut self, since: u64) -> Result<Option<String>, SheetFault>
        // Laid over what the browser shows, it is the page of a terminal that has read all draws.
        ensures shows { (t : Terminal) (b : Shown) → StandsFor self.old.sheet.terminal t
            → (since ≡ 0) ⊎ IsShown since self.old.sheet b
            → IfOk result (λ made. MatchOption made (b ≡ page_of t.screen)
            (λ text. (u : Update) × (string_bytes text ≡ spelled u)
            × (laid u b ≡ page_of t.screen))) }
        ensures then { (t : Terminal) → StandsFor self.old.sheet.terminal t
            → OnOk result (StandsFor self.new.sheet.terminal t
            × IsShown self.new.sheet.moment self.new.sheet (page_of t.screen)) }
        // It has the rows that are new, and no others.
        ensures rows { IfOk result (λ made. IfSome made (λ text. string_bytes text ≡ spelled (record {
          head = self.new.sheet.head;
          rows = newer since 0 self.new.sheet.rows;
        }))) }
        // A page that is as it was last looked at is nothing new.
        ensures looks { OnOk result (Looks self.old.sheet self.new.sheet) }
        ensures fault { IfErr result (FailsAt self.old.sheet.moment) }
        ensures moment { IsNext self.old.sheet.moment self.new.sheet.moment }
        // One that was sent all changes is sent nothing.
        ensures needed { IfOk result (λ made. IfSome made (λ _. since < self.new.sheet.moment)) }
        ensures same { self.new ≡ record self.old { sheet = self.new.sheet } }
    {
        self.sheet.update(since)
    }

    /// The moment of its page's next change.
    pub fn moment(&self) -> u64
        ensures { result ≡ self.now.sheet.moment }
    {
        self.sheet.moment()
    }

    /// Whether its page shows no window.
    pub fn is_vacant(&self) -> bool
        ensures { IsTrue result ↔ IsVacant self.now.sheet.terminal.screen.page }
    {
        self.sheet.is_vacant()
    }

    /// Changes the size of its page.
    pub fn resize(&mut self, rows: u16, columns: u16) -> Result<(), ClientFault>
        ensures ok { OnOk result (IsResized rows columns self.old self.new) }
        ensures fault { IfErr result (λ e. e ≡ ClientFault.NoMemory) }
    {
        match self.sheet.resize(rows, columns) {
            Ok(()) => Ok(()),
            Err(_) => Err(ClientFault::NoMemory),
        }
    }

    // Reads the bytes of a draw.
    fn draw(&mut self, bytes: &[u8]) -> Result<(), ClientFault>
        ensures sheet { OnOk result ((t : Terminal) → StandsFor self.old.sheet.terminal t
            → StandsFor self.new.sheet.terminal (reads t bytes.now).terminal) }
        ensures sent { KeepsSent self.old.sheet self.new.sheet }
        ensures fault { IfErr result (λ e. e ≡ ClientFault.NoMemory) }
        ensures same { self.new ≡ record self.old { sheet = self.new.sheet } }
    {
        match self.sheet.read(bytes) {
            Ok(()) => Ok(()),
            Err(_) => Err(ClientFault::NoMemory),
        }
    }

    // Takes one message of the server.
    fn hear(&mut self, message: &Message) -> Result<(), ClientFault>
        ensures sheet { OnOk result ((t : Terminal) → StandsFor self.old.sheet.terminal t
            → StandsFor self.new.sheet.terminal (drawn t message.now)) }
        ensures sent { KeepsSent self.old.sheet self.new.sheet }
        ensures fault { IfErr result (λ e. e ≡ ClientFault.NoMemory) }
        ensures same { self.new ≡ record self.old { sheet = self.new.sheet; told = self.new.told } }
        ensures told { OnOk result (self.new.told ≡ noted self.old.told message.now) }
    {
        self.told.note(self.alloc, message)?;
        match message.draw() {
            Some(bytes) => self.draw(bytes.as_slice()),
            None => Ok(()),
        }
    }

    // Takes messages of the server.
    fn hear_each(&mut self, messages: &[Message]) -> Result<(), ClientFault>
        ensures sheet { OnOk result ((t : Terminal) → StandsFor self.old.sheet.terminal t
            → StandsFor self.new.sheet.terminal (all_drawn t messages.now)) }
        ensures sent { KeepsSent self.old.sheet self.new.sheet }
        ensures fault { IfErr result (λ e. e ≡ ClientFault.NoMemory) }
        ensures same { self.new ≡ record self.old { sheet = self.new.sheet; told = self.new.told } }
        ensures told { OnOk result (self.new.told ≡ all_noted self.old.told messages.now) }
    {
        for message in messages {
            self.hear(message)?;
        }
        Ok(())
    }

    /// Takes bytes of the server. If something isn't understood, it has taken what came before.
    pub fn hear_all(&mut self, bytes: &[u8]) -> Result<(), ClientFault>
        ensures hears { (result ≡ Err ClientFault.NoMemory → ⊥) → Hears self.old bytes.now self.new }
        ensures fault { IfErr result (FailsToHear self.new.reading) }
        ensures name { self.new.name ≡ self.old.name }
        ensures sent { KeepsSent self.old.sheet self.new.sheet }
    {
        let mut messages = Vec::new(self.alloc);
        let fed = self.reader.feed(bytes, &mut messages);
        self.hear_each(&messages)?;
        Ok(fed?)
    }
}
