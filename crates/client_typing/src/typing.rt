//! What a user types, without the byte that leaves, and the keys that a client has of its own.

ghost use Rattle.std.specs.Prelude.{◌≡◌, ◌<◌, ◌↔◌, ◌+◌, ◌%◌, ◌==◌, ◌&&◌, ◌++◌, ◌∷◌, ℕ, Bool, List, [], None, length};
ghost use Rattle.std.specs.Prelude.{IsTrue, IsSome, OnOk, IfOk, IfSome};
ghost use Rattle.keys.specs.Grammar.{rest_step};
ghost use Rattle.keys.specs.Kept.{rest_of};
ghost use Rattle.client_typing.specs.Own.{IsPageKey, question, turned, view_keys};
ghost use Rattle.client_typing.specs.Fitting.{IsLine, given_keys, fit_keys, awaits_key};

use client_words::{Arguments, InputStage, LeaveReader};
use keys::KeyReader;
use std::alloc::AllocError;
use std::io::Write;

/// The most lines that a view can be moved back.
const MOST_BACK: u16 = 2000;

/// Reads what is typed along with the session, and looks for the byte that leaves.
#[derive(Drop)]
pub struct Typing {
    leave: Option<LeaveReader>,
    keys: KeyReader,
    /// The command key was typed, and the key after it is still to come.
    is_begun: bool,
    ghost begun: { is_begun ≡ awaits_key (rest_of keys) },
    /// Whether the client has keys of its own. Then the command key is sent with the one after it.
    pub assists: bool,
    /// How many lines the view was moved back by the client's own keys.
    pub back: u16,
    /// How often something was typed, counted round.
    pub reads: u32,
    /// The key that was typed last asks for the help.
    pub asks_help: bool,
}

// The keys after those to scroll by a page, with which some keys begin, and whether that is up.
fn after_page_key(keys: &[u8]) -> Option<(&[u8], bool)>
    ensures some { IfSome result (λ found. (page : List ℕ) × IsPageKey page found.1
        × (keys.now ≡ page ++ found.0.now)) }
    ensures none { result ≡ None → (page later : List ℕ) (is_up : Bool) → IsPageKey page is_up
        → keys.now ≡ page ++ later → ⊥ }
{
    match keys {
        [0x1b, b'[', b'5', b';', b'2', b'~', later @ ..] => Some((later, true)),
        [0x1b, b'[', b'5', b';', b'3', b'~', later @ ..] => Some((later, true)),
        [0x1b, b'[', b'5', b'$', later @ ..] => Some((later, true)),
        [0x1b, b'[', b'6', b';', b'2', b'~', later @ ..] => Some((later, false)),
        [0x1b, b'[', b'6', b';', b'3', b'~', later @ ..] => Some((later, false)),
        [0x1b, b'[', b'6', b'$', later @ ..] => Some((later, false)),
        _ => None,
    }
}

impl Typing {
    ghost use Rattle.client_typing.specs.Assisting.{Assists, Takes, after_key, at, beginning, end_of, passed, to_end};
    ghost use Rattle.client_typing.specs.Following.{LetsThrough, Follows, IsSet, IsUnread, Leaves, LeavesBy, Rests};
    ghost use Rattle.client_typing.specs.Following.{StaysBeside, stage_of};

    pub fn new(arguments: &Arguments<'_>) -> Typing
        ensures stands { IsUnread result }
        ensures begins { at result ≡ beginning }
        ensures assists { result.assists ≡ arguments.now.assist }
        ensures leave { LeavesBy arguments.now.leave result.leave }
    {
        let leave = match arguments.leave {
            Some(byte) => Some(LeaveReader::new(byte)),
            None => None,
        };
        Typing {
            leave,
            keys: KeyReader::new(),
            is_begun: false,
            assists: arguments.assist,
            back: 0,
            reads: 0,
            asks_help: false,
        }
    }

    /// Begins with another session, which has read no key.
    pub fn begin(&mut self)
        ensures stands { IsUnread self.new }
        ensures begins { at self.new ≡ beginning }
        ensures same { IsSet self.old self.new }
    {
        self.keys = KeyReader::new();
        self.is_begun = false;
        self.back = 0;
        self.asks_help = false;
    }

    /// Whether there is a byte that leaves, whatever the server does.
    pub fn can_leave(&self) -> bool
        ensures { IsTrue result ↔ IsSome self.now.leave }
    {
        self.leave.is_some()
    }

    /// How far the input was read in looking for the byte that leaves.
    pub fn stage(&self) -> InputStage
        ensures { result ≡ stage_of self.now.leave }
    {
        match &self.leave {
            Some(leave) => leave.stage(),
            None => InputStage::Reading,
        }
    }

    /// Leaves by the byte that waits.
    pub fn leave(&mut self)
        ensures leaves { Leaves self.old.leave self.new.leave }
        ensures left { (stage_of self.old.leave ≡ InputStage.Reading → ⊥) → stage_of self.new.leave ≡ InputStage.Left }
        ensures same { self.new ≡ record self.old { leave = self.new.leave } }
    {
        if let Some(leave) = &mut self.leave {
            leave.leave();
        }
    }

    /// Whether the session waits for no key: no prompt is open, and the command key wasn't typed last.
    pub fn is_at_rest(&self) -> bool
        ensures { IsTrue result ↔ Rests self.now }
    {
        !self.is_begun && self.keys.prompt().is_none()
    }

    // Reads a key along with the session.
    fn follow(&mut self, key: u8)
        ensures next { (rest_step (rest_of self.old.keys) key).1 ≡ rest_of self.new.keys }
        ensures follows { Follows self.old.keys (key ∷ []) self.new.keys }
        ensures same { StaysBeside self.old self.new }
    {
        let begins = self.begins(key);
        self.keys.push(key);
        self.is_begun = begins;
    }

    // Whether a key is the command key, with another one to come.
    fn begins(&self, key: u8) -> bool
        ensures { result ≡ awaits_key (rest_step (rest_of self.now.keys) key).1 }
    {
        if key != 1 {
            return false;
        }
        self.is_at_rest()
    }

    pub fn follow_all(&mut self, keys: &[u8])
        ensures follows { Follows self.old.keys keys.now self.new.keys }
        ensures same { StaysBeside self.old self.new }
    {
        'keys: for key in keys {
            self.follow(*key);
        }
    }

    // Gives a command by the prompt, between two keys.
    fn give(&mut self, line: &[u8], out: &mut Vec<u8>) -> Result<(), AllocError>
        ensures given { OnOk result (out.new.items ≡ out.old.items ++ given_keys line.now) }
        ensures follows { OnOk result (Follows self.old.keys (given_keys line.now) self.new.keys) }
        ensures rests { IsLine line.now → Rests self.old → OnOk result (Rests self.new) }
        ensures same { StaysBeside self.old self.new }
    {
        out.extend_from_slice(b"\x01:")?;
        out.extend_from_slice(line)?;
        out.push(b'\r')?;
        self.follow_all(b"\x01:");
        self.follow_all(line);
        self.follow_all(b"\r");
        Ok(())
    }

    /// Gives the window its region's size, between two keys.
    pub fn fit(&mut self, out: &mut Vec<u8>) -> Result<(), AllocError>
        ensures given { OnOk result (out.new.items ≡ out.old.items ++ fit_keys) }
        ensures follows { OnOk result (Follows self.old.keys fit_keys self.new.keys) }
        ensures same { StaysBeside self.old self.new }
    {
        self.give(b"fit", out)
    }

    // Moves the view this many lines back.
    fn scroll(&mut self, back: u16, out: &mut Vec<u8>) -> Result<(), AllocError>
        ensures given { OnOk result (out.new.items ≡ out.old.items ++ view_keys back) }
        ensures rests { Rests self.old → OnOk result (Rests self.new) }
        ensures back { OnOk result (self.new.back ≡ back) }
        ensures same { IsSet self.old self.new }
    {
        let line = format!(in *out.allocator(); "scrollview {back}")?;
        self.give(line.as_bytes(), out)?;
        self.back = back;
        Ok(())
    }

    // How many lines the view is moved back after a page.
    fn turned(&self, is_up: bool, page: u16) -> u16
        ensures { result ≡ turned is_up page self.now.back }
    {
        if is_up {
            self.back.saturating_add(page).min(MOST_BACK)
        } else {
            self.back.saturating_sub(page)
        }
    }

    // Brings lines that were moved back to the end, before a key.
    fn come_to_end(&mut self, out: &mut Vec<u8>) -> Result<(), AllocError>
        ensures sends { OnOk result
            (out.new.items ≡ out.old.items ++ to_end (rest_of self.old.keys) self.old.back) }
        ensures back { OnOk result (self.new.back ≡ end_of (rest_of self.old.keys) self.old.back) }
        ensures reads { OnOk result (rest_of self.new.keys ≡ rest_of self.old.keys) }
        ensures same { IsSet self.old self.new }
    {
        if self.back == 0 || !self.is_at_rest() {
            return Ok(());
        }
        self.scroll(0, out)
    }

    // Takes a key that isn't the client's own. Lines that were moved back come to the end first.
    fn press(&mut self, key: u8, out: &mut Vec<u8>) -> Result<(), AllocError>
        ensures sends { OnOk result (out.new.items
            ≡ (out.old.items ++ to_end (rest_of self.old.keys) self.old.back) ++ passed (rest_of self.old.keys) key) }
        ensures after { OnOk result (at self.new ≡ after_key (at self.old) key) }
        ensures same { IsSet self.old self.new }
    {
        self.come_to_end(out)?;
        self.pass(key, out)
    }

    // Passes a key on. The command key waits for the one after it, which may ask for the help: that pair isn't sent.
    fn pass(&mut self, key: u8, out: &mut Vec<u8>) -> Result<(), AllocError>
        ensures sends { OnOk result (out.new.items ≡ out.old.items ++ passed (rest_of self.old.keys) key) }
        ensures reads { (rest_step (rest_of self.old.keys) key).1 ≡ rest_of self.new.keys }
        ensures asks { self.new.asks_help ≡ (awaits_key (rest_of self.old.keys) && key == question) }
        ensures back { self.new.back ≡ self.old.back }
        ensures same { IsSet self.old self.new }
    {
        let is_second = self.is_begun;
        self.follow(key);
        self.asks_help = is_second && key == b'?';
        if self.is_begun || self.asks_help {
            return Ok(());
        }
        if is_second {
            out.push(1)?;
        }
        out.push(key)?;
        Ok(())
    }

    // Takes the first of some keys, or those to scroll by a page. Returns the keys after them.
    fn take<'k>(
        &mut self,
        keys: &'k [u8],
        page: u16,
        out: &mut Vec<u8>,
    ) -> Result<&'k [u8], AllocError>
        requires { 0 < length keys.now }
        ensures takes { IfOk result (λ later. Takes page self.old keys.now out.old.items
            later.now self.new out.new.items) }
        ensures fewer { IfOk result (λ later. length later.now < length keys.now) }
        ensures same { IsSet self.old self.new }
    {
        if self.is_at_rest()
            && let Some((later, is_up)) = after_page_key(keys)
        {
            self.scroll(self.turned(is_up, page), out)?;
            self.asks_help = false;
            return Ok(later);
        }
        self.press(keys[0], out)?;
        Ok(&keys[1..])
    }

    /// Appends what is to be sent of some keys. `page` is how many lines a page has.
    pub fn assist(&mut self, keys: &[u8], page: u16, out: &mut Vec<u8>) -> Result<(), AllocError>
        ensures assists { OnOk result (Assists page self.old keys.now out.old.items self.new out.new.items) }
        ensures same { IsSet self.old self.new }
    {
        let mut rest = keys;
        'keys: while !rest.is_empty() {
            rest = self.take(rest, page, out)?;
        }
        Ok(())
    }

    // Appends the input without the byte that leaves.
    pub fn read(&mut self, input: &[u8], out: &mut Vec<u8>) -> Result<(), AllocError>
        ensures through { out.old.items ≡ []
            → OnOk result (LetsThrough self.old.leave input.now out.new.items self.new.leave) }
        ensures same { self.new ≡ record self.old {
          leave = self.new.leave;
          reads = (self.old.reads + 1) % 4294967296;
        } }
    {
        self.reads = self.reads.wrapping_add(1);
        match &mut self.leave {
            Some(leave) => leave.feed(input, out),
            None => out.extend_from_slice(input),
        }
    }
}
