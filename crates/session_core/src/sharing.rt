//! The frame that several clients read.

ghost use Rattle.std.specs.Prelude.{◌≡◌, [], None, IfOk, option_copied};
ghost use Rattle.session_model.specs.Trace.{happening};
ghost use Rattle.session_core.specs.Sharing.{is_one_of, without, Forgets, Joins, Begins, PassesOn, AreLeft};

use session_model::{CLIENTS, Event, Reply};
use session_state::State;
use session_view::{Lead, see_the_same};
use std::alloc::{AllocError, Global};
use std::mem;

/// The frame that clients follow, and what is known of these clients.
pub struct Sharing {
    /// The frame, with the client for which it was made.
    lead: Option<Lead>,
    /// Clients whose last draw was one and the same: what was known before the frame.
    alike: Vec<u32>,
    /// Clients that were drawn what the frame shows.
    followers: Vec<u32>,
}

impl Drop for Sharing {
    fn drop(self) {
        let Sharing {
            lead: _,
            alike: _,
            followers: _,
        } = self;
    }
}

/// Removes a client from a list. In most calls it isn't there.
fn leave_out(clients: &mut Vec<u32>, client: u32)
    ensures { clients.new.items ≡ without client clients.old.items }
{
    if clients.contains(&client) {
        clients.retain(|other| *other != client);
    }
}

impl Sharing {
    /// Without a frame.
    pub(crate) fn new(alloc: Global) -> Result<Sharing, AllocError>
        ensures lead { IfOk result (λ s. s.lead ≡ None) }
        ensures alike { IfOk result (λ s. s.alike.items ≡ []) }
    {
        Ok(Sharing {
            lead: None,
            alike: Vec::with_capacity(alloc, CLIENTS)?,
            followers: Vec::with_capacity(alloc, CLIENTS)?,
        })
    }

    /// The frame, if there is one.
    pub(crate) fn lead(&self) -> Option<&Lead>
        ensures { option_copied result ≡ self.now.lead }
    {
        self.lead.as_ref()
    }

    /// Whether a client is known to have been drawn what was known before the frame.
    pub(crate) fn knows(&self, client: u32) -> bool
        ensures { result ≡ is_one_of client self.now.alike.items }
    {
        self.alike.contains(&client)
    }

    /// Whether a client sees the same as the clients that were drawn what was known before the frame.
    fn sees_the_same(&self, state: &State, client: u32) -> bool {
        match self.alike.first() {
            Some(other) => see_the_same(state, client, *other),
            None => false,
        }
    }

    /// Whether a client's own frame may be the one that others follow. Nobody may follow another frame
    /// then, and only few clients may be forgotten, or clients that will follow this frame.
    pub(crate) fn may_lead(&self, state: &State, client: u32) -> bool {
        let is_free = self.lead.is_none() || self.followers.len() < 2;
        let is_one = self.alike.len() < 2 || self.knows(client);
        is_free && (is_one || self.sees_the_same(state, client))
    }

    /// Notes that a client was drawn something else.
    pub(crate) fn forget(&mut self, client: u32)
        ensures { Forgets client self.old self.new }
    {
        leave_out(&mut self.alike, client);
        leave_out(&mut self.followers, client);
    }

    /// Notes that a client was drawn what the frame shows.
    pub(crate) fn join(&mut self, client: u32)
        ensures { Joins client self.old self.new }
    {
        self.forget(client);
        let _kept = self.followers.push(client);
    }

    /// Notes that a client was drawn by this frame, which others may follow now. Returns the frame that
    /// there was before.
    pub(crate) fn begin(&mut self, lead: Lead) -> Option<Lead>
        ensures { Begins lead self.old self.new }
    {
        let client = lead.client;
        if self.knows(client) {
            leave_out(&mut self.alike, client);
        } else {
            self.alike.clear();
        }
        self.followers.clear();
        let _kept = self.followers.push(client);
        mem::replace(&mut self.lead, Some(lead))
    }

    /// Notes that nobody follows the frame any more. Its followers are now the clients whose last draw is
    /// known, unless there are more of those that didn't follow it. Returns the frame.
    fn pass_on(&mut self) -> Option<Lead>
        ensures lead { result ≡ self.old.lead }
        ensures passes { PassesOn self.old.lead self.old self.new }
    {
        let lead = self.lead.take()?;
        if self.alike.len() <= self.followers.len() {
            mem::swap(&mut self.alike, &mut self.followers);
        }
        self.followers.clear();
        Some(lead)
    }

    /// Forgets the frame and all clients. Returns the frame.
    fn clear(&mut self) -> Option<Lead>
        ensures lead { self.new.lead ≡ None }
        ensures alike { self.new.alike.items ≡ [] }
    {
        self.alike.clear();
        self.followers.clear();
        self.lead.take()
    }
}

/// Keeps the memory of a frame that isn't needed any more, if there is one.
pub(crate) fn keep_memory(state: &mut State, lead: Option<Lead>)
    ensures { state.new ≡ state.old }
{
    if let Some(lead) = lead {
        state.clients.keep_spare(lead.into_spare());
    }
}

/// Notes a step. Keys, a command and output leave all terminals as they are, but may change what these
/// are to show. A Draw has noted itself. Any other event may be of a terminal that is new or has another
/// size. The memory of a frame that isn't needed any more is kept.
pub(crate) fn note_step(state: &mut State, sharing: &mut Sharing, event: Event, reply: &Reply)
    ensures state { state.new ≡ state.old }
    ensures left { AreLeft reply.now (happening event.entry) sharing.old sharing.new }
{
    let ended = match (reply, event) {
        (Err(_refusal), _) => None,
        (Ok(_done), Event::Draw { .. }) => None,
        (Ok(_done), Event::Keys { .. } | Event::Command { .. } | Event::Output { .. }) => {
            sharing.pass_on()
        }
        (Ok(_done), _) => sharing.clear(),
    };
    keep_memory(state, ended);
}
