//! The clients of a session.

ghost use Rattle.std.specs.Prelude.{◌≡◌, ◌==◌, ◌<◌, ◌+◌, [], ℕ, List, Option, true, false, not, Some, None, Ok, length};
ghost use Rattle.std.specs.Prelude.{map, replicate, ◌↔◌, OnOk, OnErr, IfOk, IfNone, IfSome, option_copied};
ghost use Rattle.std.specs.Fn.{FnOnceReturnsAtMut};
ghost use Rattle.regions.specs.Layouts.{Arrangement};
ghost use Rattle.session_model.specs.declared.event.StatusMessage.{StatusMessage as What};
ghost use Rattle.session_model.specs.declared.event.StatusMessage.TheVariants as what;
ghost use Rattle.session_model.specs.declared.event.Effect.TheVariants as effect;
ghost use Rattle.session_model.specs.Tables as model;
ghost use Rattle.session_model.specs.Tables.{row_of, with_row};
ghost use Rattle.session_model.specs.Deeds.{hearing, is_of, without_window};
ghost use Rattle.session_model.specs.Comings.{resized, is_client_size};
ghost use Rattle.session_model.specs.Answering.{reading};
ghost use Rattle.view.specs.View.{HasSize};
ghost use Rattle.view.specs.Drawable.{IsDrawable};

use crate::client::{Client, NewClient};
use acl::UserId;
use keys::KeyReader;
use redraw::{Frame, Shadow, SharedView};
use regions::{Layout, RegionFault};
use session_model::{Bytes, Effect, StatusMessage};
use std::alloc::{AllocError, Global};
use std::marker::Model;
use view::View;
use windows_model::Rows;

/// The attached clients, in the order of their serials.
pub struct Clients {
    rows: Rows<Client>,
    /// A view that isn't needed any more, kept for its memory. It is no part of the value.
    spare: Option<View>,
}

impl Drop for Clients {
    fn drop(self) {
        let Clients { rows: _, spare: _ } = self;
    }
}

impl Model for Clients {
    ghost use Rattle.std.specs.Prelude.{List};
    ghost use Rattle.std.specs.Coded.{codes};
    ghost use Rattle.regions.specs.Layouts.{arrangement_code};
    ghost use Rattle.session_state.specs.declared.client.Client.{Client};

    ghost Value = { List Client };

    ghost coded = { Prim.hlevel (codes, arrangement_code) };

    ghost view = { λ c. c.rows };
}

impl Clients {
    ghost use Rattle.session_state.specs.declared.client.Client.{Client};
    ghost use Rattle.session_model.specs.Comings.{attached};
    ghost use Rattle.session_state.specs.Exchanges.{Exchanged, HasReadMore, PutsBack};
    ghost use Rattle.session_state.specs.Draws.{Draws, FitsIn, LeadsFrom, ShowsAlready};
    ghost use Rattle.session_state.specs.Clients.{Attaches, Keeps, Changes, ChangesAll, Finds};
    ghost use Rattle.session_state.specs.Clients.{AreClients, ClientStands};
    ghost use Rattle.session_state.specs.Moves.{moved_to, tried};
    ghost use Rattle.windows_model.specs.Matched.{BothOrNone};

    /// No client.
    pub fn new(alloc: Global) -> Clients
        ensures { result ≡ [] }
    {
        Clients {
            rows: Rows::new(alloc),
            spare: None,
        }
    }

    /// How many clients are attached.
    pub fn len(&self) -> usize
        ensures { result ≡ length self.now }
    {
        self.rows.len()
    }

    /// The clients, from the one that attached first.
    pub fn as_slice(&self) -> &[Client]
        ensures { result.now ≡ self.now }
    {
        self.rows.as_slice()
    }

    /// The client with this serial, if it is attached.
    pub fn get(&self, serial: u32) -> Option<&Client>
        ensures row { option_copied result ≡ row_of (λ (c : Client). c.serial) self.now serial }
        ensures stands { (rows : List model.Client) → AreClients rows self.now → BothOrNone
            ClientStands (row_of (λ (m : model.Client). m.serial) rows serial)
            (option_copied result) }
    {
        self.rows.get(serial)
    }

    /// Attaches a client.
    pub fn attach(&mut self, alloc: Global, client: NewClient) -> Result<(), AllocError>
        requires { is_client_size client.rows client.columns ≡ true }
        ensures ok { OnOk result (Attaches (attached client.serial client.user client.rows
            client.columns client.window) self.old self.new) }
        ensures err { OnErr result (self.new ≡ self.old) }
    {
        let made = Client::new(alloc, client)?;
        self.rows.push(made)
    }

    /// Removes the client with this serial.
    pub fn remove(&mut self, serial: u32)
        ensures { Keeps (λ c. not (c.serial == serial)) self.old self.new }
    {
        self.rows.remove(serial);
    }

    /// Removes this user's clients.
    pub fn remove_of(&mut self, user: UserId)
        ensures { Keeps (λ c. not (is_of user c)) self.old self.new }
    {
        self.rows.retain(|client| !(client.user == user));
    }

    /// Removes all clients but this user's.
    pub fn keep_of(&mut self, user: UserId)
        ensures { Keeps (λ c. not (not (is_of user c))) self.old self.new }
    {
        self.rows.retain(|client| client.user == user);
    }

    /// Removes all clients.
    pub fn clear(&mut self)
        ensures { Keeps (λ c. not true) self.old self.new }
    {
        self.rows.retain(|_client| false);
    }

    /// Puts a message on a client's status line.
    pub fn hear(&mut self, serial: u32, message: StatusMessage)
        ensures { Changes (hearing message) serial self.old self.new }
    {
        let Some(client) = self.rows.get_mut(serial) else {
            return;
        };
        client.hear(message);
    }

    /// Changes a client's page, and notes the window that is in focus then.
    pub fn on_page<F: FnOnce(&mut Layout)>(&mut self, serial: u32, change: F)
        requires { F.IsAlwaysCallable change }
        ensures there { (c : Client) → row_of (λ (d : Client). d.serial) self.old serial ≡ Some c
            → (l : Arrangement) × FnOnceReturnsAtMut F.FnOnce change c.layout tt l
            × (self.new ≡ with_row (λ (d : Client). d.serial) self.old serial (moved_to l c)) }
        ensures none { row_of (λ (d : Client). d.serial) self.old serial ≡ None
            → self.new ≡ self.old }
    {
        let Some(client) = self.rows.get_mut(serial) else {
            return;
        };
        change(&mut client.layout);
        client.see();
    }

    /// Changes a client's page by a change that may be refused. Notes the window that is in focus
    /// then, unless it was refused.
    pub fn try_on_page<F: FnOnce(&mut Layout) -> Result<(), RegionFault>>(
        &mut self,
        serial: u32,
        change: F,
    ) -> Result<(), RegionFault>
        requires { F.IsAlwaysCallable change }
        ensures there { (c : Client) → row_of (λ (d : Client). d.serial) self.old serial ≡ Some c
            → (l : Arrangement) × FnOnceReturnsAtMut F.FnOnce change c.layout result l
            × (self.new ≡ with_row (λ (d : Client). d.serial) self.old serial (tried result l c)) }
        ensures none { row_of (λ (d : Client). d.serial) self.old serial ≡ None
            → (self.new ≡ self.old) × (result ≡ Ok tt) }
    {
        let Some(client) = self.rows.get_mut(serial) else {
            return Ok(());
        };
        change(&mut client.layout)?;
        client.see();
        Ok(())
    }

    /// Notes that a client's terminal has this size now, and may show anything.
    pub fn resize(&mut self, serial: u32, rows: u16, columns: u16)
        requires { is_client_size rows columns ≡ true }
        ensures { Changes (resized rows columns) serial self.old self.new }
    {
        let Some(client) = self.rows.get_mut(serial) else {
            return;
        };
        client.resize(rows, columns);
    }

    /// Puts a reader and a message in place of a client's own, and hands back the client's own. Done
    /// twice, this changes nothing.
    pub fn exchange(&mut self, serial: u32, keys: &mut KeyReader, message: &mut StatusMessage)
        ensures read { (bytes : List ℕ) → message.old ≡ what.Silence
            → HasReadMore serial self.old keys.old bytes
            → Changes (reading bytes) serial self.old self.new }
        ensures row { (c : Client) → row_of (λ (c : Client). c.serial) self.old serial ≡ Some c
            → Exchanged serial c self.old keys.old message.old self.new keys.new message.new }
        ensures back { PutsBack serial self.old keys.old message.old self.new }
    {
        let Some(client) = self.rows.get_mut(serial) else {
            return;
        };
        client.exchange(keys, message);
    }

    /// Hands out the view that was kept for its memory, if there is one.
    pub fn take_spare(&mut self) -> Option<View>
        ensures { self.new ≡ self.old }
    {
        self.spare.take()
    }

    /// Keeps a view that isn't needed any more for its memory, if one is given.
    pub fn keep_spare(&mut self, view: Option<View>)
        ensures { self.new ≡ self.old }
    {
        if view.is_some() {
            self.spare = view;
        }
    }

    /// The frame that makes a client's terminal show a view. There is none if the terminal is known
    /// to show the view already, or has another size.
    pub fn frame(
        &self,
        alloc: Global,
        serial: u32,
        view: &SharedView,
    ) -> Result<Option<Frame>, AllocError>
        ensures needless { IfOk result (λ frame. IfNone frame (FitsIn serial self.now view.now
            → Finds serial self.now (λ m. ShowsAlready m view.now))) }
        ensures made { IfOk result (λ frame. IfSome frame (λ f.
            LeadsFrom serial self.now f.before × (f.view ≡ view.now))) }
    {
        let Some(client) = self.get(serial) else {
            return Ok(None);
        };
        if !has_size_of(&client.shadow, view.get()) {
            return Ok(None);
        }
        Frame::to(alloc, &client.shadow, view)
    }

    /// Notes that a client's terminal reads a frame. The frame's view is drawn there, if what was
    /// known of the terminal is what the frame begins with.
    pub fn follow(&mut self, serial: u32, frame: &Frame) -> Result<(), AllocError>
        ensures drawn { OnOk result (IsDrawable frame.now.view
            → LeadsFrom serial self.old frame.now.before
            → Draws serial frame.now.view frame.now.bytes self.old self.new) }
        ensures err { OnErr result (self.new ≡ self.old) }
    {
        let Some(client) = self.rows.get_mut(serial) else {
            return Ok(());
        };
        client.shadow.follow(frame)
    }

    /// The effects that tell each client a text.
    pub fn says(&self, alloc: Global, text: &[u8]) -> Result<Vec<Effect>, AllocError>
        ensures { IfOk result (λ made. (rows : List model.Client) → AreClients rows self.now
            → made.items ≡ map (λ (m : model.Client). effect.Say m.serial text.now) rows) }
    {
        let mut made = Vec::new(alloc);
        for client in self.rows.as_slice() {
            made.push(Effect::Say(client.serial, Bytes::of(alloc, text)?))?;
        }
        Ok(made)
    }

    /// Empties the regions that show this window, on every client's page.
    pub fn close_window(&mut self, serial: u32)
        ensures { ChangesAll (without_window serial) self.old self.new }
    {
        for client in self.rows.as_mut_slice() {
            client.close_window(serial);
        }
    }

    /// Puts one of these messages on each client's status line. They are made beforehand, so that
    /// this call needs no memory.
    pub fn hear_all(&mut self, messages: &mut Vec<StatusMessage>)
        requires { length messages.old.items ≡ length self.old }
        ensures { (text : List ℕ)
            → messages.old.items ≡ replicate (length self.old) (what.Text text)
            → ChangesAll (hearing (what.Text text)) self.old self.new }
    {
        for client in self.rows.as_mut_slice() {
            client.hear(next_message(messages));
        }
    }
}

/// Whether a view has the size of a terminal.
fn has_size_of(shadow: &Shadow, view: &View) -> bool
    ensures { (result ≡ true) ↔ HasSize shadow.now.rows shadow.now.columns view.now }
{
    view.rows() == usize::from(shadow.rows()) && view.columns() == usize::from(shadow.columns())
}

/// Takes the last of some messages, all of which are equal.
fn next_message(messages: &mut Vec<StatusMessage>) -> StatusMessage
    requires { 0 < length messages.old.items }
    ensures len { length messages.new.items + 1 ≡ length messages.old.items }
    ensures same { (n : ℕ) (m : What) → messages.old.items ≡ replicate (n + 1) m
        → (result ≡ m) × (messages.new.items ≡ replicate n m) }
{
    messages.pop().unwrap()
}

/// Makes a number of equal messages of a text.
pub fn messages_of(
    alloc: Global,
    text: &[u8],
    count: usize,
) -> Result<Vec<StatusMessage>, AllocError>
    ensures { IfOk result (λ made. made.items ≡ replicate count (what.Text text.now)) }
{
    let mut made = Vec::new(alloc);
    for i in 0..count {
        made.push(StatusMessage::Text(Bytes::of(alloc, text)?))?;
    }
    Ok(made)
}
