//! What a browser's page asks for: one message is a frame of the server without its length.

ghost use Rattle.std.specs.Prelude.{◌≡◌, ◌+◌, ◌-◌, ◌*◌, ◌%◌, ◌<◌, ◌∷◌, max, length, None, IfOk, IfSome, OnOk, OnErr};
ghost use Rattle.web_client.specs.Asking.{lines_in, columns_in, IsNoName, IsAttached, IsShared};
ghost use Rattle.web_client.specs.Asking.{Begins, Watches, Passes, Takes, Keeps, Asks};
ghost use Rattle.web_client.specs.Judging.{IsSize, IsAttach, IsTyped, IsPublic, IsFirst, IsAsking, IsWatching};
ghost use Rattle.web_client.specs.Judging.{IsAllowed, IsJudged, fault_of};
ghost use Rattle.attach_proto.specs.Texts.{IsToken};

use crate::client::WebClient;
use acl::UserId;
use attach_proto::{LONGEST, Token};
use std::alloc::Global;
use web_page::ClientFault;
use web_requests::Site;

/// The lines and columns of a page, at least and at most.
const LEAST: (u16, u16) = (4, 20);

const MOST: (u16, u16) = (200, 300);

/// Sizes of shared pages are multiples of these, so that many watchers have one size.
const STEP: (u16, u16) = (6, 20);

/// The kinds of messages.
const ATTACH: u8 = 0x41;

const WATCH: u8 = 0x56;

const LINK: u8 = 0x4C;

const KEYS: u8 = 0x4B;

const RESIZE: u8 = 0x52;

const DETACH: u8 = 0x44;

/// How many bytes of ATTACH come before the name: a size and a token.
const BEFORE_NAME: usize = 68;

/// Who a browser is.
#[derive(Drop)]
pub enum Identity {
    /// It hasn't said who it is.
    Nobody,
    /// A client that is its own.
    Own(WebClient),
    /// It watches a page of this size that others watch too, and has no client.
    Watching(u16, u16),
    /// It shows the secret of a link, in place of a name and a token.
    Link(Token),
    /// It gave a name that no user can have.
    Unknown,
    /// It has asked to leave a page that it watched.
    Left,
}

/// Why a message was not taken.
#[derive(Clone, Copy, Debug, PartialEq, Eq)]
pub enum MessageFault {
    /// It may not ask for this, or not now.
    Wrong,
    NoMemory,
}

impl From<ClientFault> for MessageFault {
    ghost from_gives = { λ fault e. e ≡ fault_of fault };

    fn from(fault: ClientFault) -> MessageFault {
        match fault {
            ClientFault::NoMemory => MessageFault::NoMemory,
            ClientFault::Unspellable => MessageFault::Wrong,
            ClientFault::BadFrame => MessageFault::Wrong,
        }
    }
}

/// The number of two bytes, the high one first.
fn number(high: u8, low: u8) -> u16
    ensures { result ≡ 256 * high + low }
{
    256 * u16::from(high) + u16::from(low)
}

/// The size that a payload begins with, within the least and the most.
fn size_of(bytes: &[u8]) -> Option<(u16, u16)>
    ensures some { IfSome result (λ size. (size.0 ≡ lines_in bytes.now)
        × (size.1 ≡ columns_in bytes.now)) }
    ensures none { result ≡ None → length bytes.now < 4 }
{
    if bytes.len() < 4 {
        return None;
    }
    let rows = number(bytes[0], bytes[1]).clamp(LEAST.0, MOST.0);
    let columns = number(bytes[2], bytes[3]).clamp(LEAST.1, MOST.1);
    Some((rows, columns))
}

/// The size of the shared page for a watcher that has room for this many lines and columns.
pub fn fitted(size: (u16, u16)) -> (u16, u16)
    ensures rows { result.0 ≡ max (size.0 - size.0 % 6) 4 }
    ensures columns { result.1 ≡ max (size.1 - size.1 % 20) 20 }
{
    let rows = size.0 - size.0 % STEP.0;
    let columns = size.1 - size.1 % STEP.1;
    (rows.max(LEAST.0), columns.max(LEAST.1))
}

/// The name of a user, as its bytes.
fn name_of(bytes: &[u8]) -> Option<&str>
    ensures some { IfSome result (λ name. name.now ≡ bytes.now) }
    ensures none { result ≡ None → IsNoName bytes.now }
{
    if UserId::of(bytes).is_none() {
        return None;
    }
    match str::from_utf8(bytes) {
        Ok(name) => Some(name),
        Err(_) => None,
    }
}

/// The identity of a browser that says who it is.
fn attached(alloc: Global, payload: &[u8]) -> Result<Identity, MessageFault>
    ensures attaches { IfOk result (IsAttached payload.now) }
    ensures judged { IsJudged (IsAttach payload.now) result }
{
    let Some((rows, columns)) = size_of(payload) else {
        return Err(MessageFault::Wrong);
    };
    if payload.len() < BEFORE_NAME || LONGEST < payload.len() {
        return Err(MessageFault::Wrong);
    }
    let Some(token) = Token::read(&payload[4..BEFORE_NAME]) else {
        return Err(MessageFault::Wrong);
    };
    match name_of(&payload[BEFORE_NAME..]) {
        Some(name) => {
            let client = WebClient::attach(alloc, rows, columns, token, name)?;
            Ok(Identity::Own(client))
        }
        None => Ok(Identity::Unknown),
    }
}

/// The identity of a browser that only watches, if this is allowed.
fn watching(site: &Site, payload: &[u8]) -> Result<Identity, MessageFault>
    ensures watches { IfOk result (IsShared payload.now) }
    ensures judged { IsJudged (IsPublic site.now.watcher × IsSize payload.now) result }
{
    if site.watcher.is_none() || payload.len() != 4 {
        return Err(MessageFault::Wrong);
    }
    match size_of(payload) {
        Some(size) => {
            let (rows, columns) = fitted(size);
            Ok(Identity::Watching(rows, columns))
        }
        None => Err(MessageFault::Wrong),
    }
}

/// The identity of a browser that shows the secret of a link.
fn linked(secret: &[u8]) -> Result<Identity, MessageFault>
    ensures links { IfOk result (λ identity. identity ≡ Identity.Link secret.now) }
    ensures judged { IsJudged (IsToken secret.now) result }
{
    match Token::read(secret) {
        Some(secret) => Ok(Identity::Link(secret)),
        None => Err(MessageFault::Wrong),
    }
}

/// The identity of a browser by its first message.
fn identified(alloc: Global, site: &Site, message: &[u8]) -> Result<Identity, MessageFault>
    ensures begins { IfOk result (Begins message.now) }
    ensures judged { IsJudged (IsFirst site.now.watcher message.now) result }
{
    let Some((kind, payload)) = message.split_first() else {
        return Err(MessageFault::Wrong);
    };
    match *kind {
        ATTACH => attached(alloc, payload),
        WATCH => watching(site, payload),
        LINK => linked(payload),
        _ => Err(MessageFault::Wrong),
    }
}

impl Identity {
    // Takes the first message.
    fn begin(&mut self, alloc: Global, site: &Site, message: &[u8]) -> Result<(), MessageFault>
        ensures ok { OnOk result (Begins message.now self.new) }
        ensures err { OnErr result (self.new ≡ self.old) }
        ensures judged { IsJudged (IsFirst site.now.watcher message.now) result }
    {
        *self = identified(alloc, site, message)?;
        Ok(())
    }

    // Takes a message of a browser that watches.
    fn watch(&mut self, site: &Site, message: &[u8]) -> Result<(), MessageFault>
        ensures ok { OnOk result (Watches message.now self.new) }
        ensures err { OnErr result (self.new ≡ self.old) }
        ensures judged { IsJudged (IsWatching site.now.watcher message.now) result }
    {
        let Some((kind, payload)) = message.split_first() else {
            return Err(MessageFault::Wrong);
        };
        match *kind {
            RESIZE => {
                *self = watching(site, payload)?;
                Ok(())
            }
            DETACH if payload.is_empty() => {
                *self = Identity::Left;
                Ok(())
            }
            _ => Err(MessageFault::Wrong),
        }
    }

    /// Takes one message of the browser, if it is allowed. One that isn't taken adds nothing for its client.
    pub fn take(&mut self, alloc: Global, site: &Site, message: &[u8]) -> Result<(), MessageFault>
        ensures ok { OnOk result (Takes self.old message.now self.new) }
        ensures err { OnErr result (Keeps self.old self.new) }
        ensures asks { Asks self.old self.new }
        ensures judged { IsJudged (IsAllowed site.now.watcher self.old message.now) result }
    {
        match self {
            Identity::Nobody => self.begin(alloc, site, message),
            Identity::Own(client) => ask(client, message),
            Identity::Watching(_, _) => self.watch(site, message),
            Identity::Link(_) | Identity::Unknown | Identity::Left => Err(MessageFault::Wrong),
        }
    }
}

// Passes on what was typed.
fn press(client: &mut WebClient, keys: &[u8]) -> Result<(), MessageFault>
    ensures ok { OnOk result (Passes (0x4B ∷ keys.now) client.old client.new) }
    ensures err { OnErr result (client.new.outgoing ≡ client.old.outgoing) }
    ensures judged { IsJudged (IsTyped keys.now) result }
{
    if keys.is_empty() || LONGEST < keys.len() {
        return Err(MessageFault::Wrong);
    }
    Ok(client.press(keys)?)
}

// Passes on a new size.
fn resize(client: &mut WebClient, size: &[u8]) -> Result<(), MessageFault>
    ensures ok { OnOk result (Passes (0x52 ∷ size.now) client.old client.new) }
    ensures err { OnErr result (client.new.outgoing ≡ client.old.outgoing) }
    ensures judged { IsJudged (IsSize size.now) result }
{
    if size.len() != 4 {
        return Err(MessageFault::Wrong);
    }
    match size_of(size) {
        Some((rows, columns)) => Ok(client.resize(rows, columns)?),
        None => Err(MessageFault::Wrong),
    }
}

/// Passes a message on to the browser's client.
fn ask(client: &mut WebClient, message: &[u8]) -> Result<(), MessageFault>
    ensures ok { OnOk result (Passes message.now client.old client.new) }
    ensures err { OnErr result (client.new.outgoing ≡ client.old.outgoing) }
    ensures judged { IsJudged (IsAsking message.now) result }
{
    let Some((kind, payload)) = message.split_first() else {
        return Err(MessageFault::Wrong);
    };
    match *kind {
        KEYS => press(client, payload),
        RESIZE => resize(client, payload),
        DETACH if payload.is_empty() => Ok(client.detach()?),
        _ => Err(MessageFault::Wrong),
    }
}
