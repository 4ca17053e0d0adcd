//! What waits for each seat, and what is handed out to it.

ghost use Rattle.std.specs.Prelude.{◌≡◌, ◌≤◌, ◌<◌, [], length, map, true, false, IfOk, OnOk, Some};
ghost use Rattle.std.specs.Prelude.{slice_get, slice_set, replicate};
ghost use Rattle.std.specs.List.{AllByRecursion};
ghost use Rattle.session.specs.Run.{tables_of};
ghost use Rattle.session.specs.Stands.{StandsFor};
ghost use Rattle.session.specs.Trace.{Trace, happening};
ghost use Rattle.hub_peers.specs.Peers.{AreSeats, HasPeer, owners_of};
ghost use Rattle.hub_ledger.specs.Routing.{views, HaveRoom, AreRouted, marked, is_draw, typist_of};
ghost use Rattle.hub_ledger.specs.Routing.{last_input, later, typed_in};

use acl::UserId;
use hub_peers::Peers;
use session::{Effect, Event, Session};
use std::alloc::{AllocError, Global};
use std::marker::Model;
use std::mem;

/// An effect, with the user who typed it: all effects of a step of keys or of a command have the user
/// whose step it was; those of other steps have none.
pub type Sent = (Effect, Option<UserId>);

/// The effects that a take hands out, in order. Only a ledger makes them, so nothing can be left out,
/// put in or moved.
#[derive(Drop)]
pub struct Handed {
    effects: Vec<Sent>,
}

impl Model for Handed {
    ghost use Rattle.std.specs.Prelude.{List};
    ghost use Rattle.hub_ledger.specs.Routing.{Sent};

    ghost Value = { List Sent };

    ghost view = { λ h. h.effects.items };
}

impl Handed {
    pub(crate) fn of(effects: Vec<Sent>) -> Handed
        ensures { result ≡ effects.items }
    {
        Handed { effects }
    }

    /// The effects.
    pub fn as_slice(&self) -> &[Sent]
        ensures { result.now ≡ self.now }
    {
        self.effects.as_slice()
    }

    /// The effects, to be moved on.
    pub fn into_items(self) -> Vec<Sent>
        ensures { result.items ≡ self }
    {
        let Handed { effects } = self;
        effects
    }
}

/// The most effects that one step has.
pub const MOST: usize = 256;

/// The effects that wait for each seat, and whether a step other than a Draw came since its effects
/// were last taken.
#[derive(Drop)]
pub struct SeatEffects {
    pub lists: Vec<Vec<Sent>>,
    pub marks: Vec<bool>,
}

impl SeatEffects {
    /// No effect waits for these seats. `AllocError` if memory is refused.
    pub fn new(alloc: Global, seats: usize) -> Result<SeatEffects, AllocError>
        ensures lists { IfOk result (λ w. views w.lists.items ≡ replicate seats []) }
        ensures marks { IfOk result (λ w. w.marks.items ≡ replicate seats false) }
    {
        let mut lists = Vec::new(alloc);
        let mut marks = Vec::new(alloc);
        'seats: for _seat in 0..seats {
            lists.push(Vec::new(alloc))?;
            marks.push(false)?;
        }
        Ok(SeatEffects { lists, marks })
    }

    /// Makes room for the effects of one step, after those that wait for each seat. `AllocError` if
    /// memory is refused.
    pub fn make_room(&mut self) -> Result<(), AllocError>
        ensures lists { views self.new.lists.items ≡ views self.old.lists.items }
        ensures marks { self.new.marks ≡ self.old.marks }
        ensures room { OnOk result (HaveRoom 256 self.new.lists.items) }
    {
        make_room(self.lists.as_mut_slice())
    }

    /// Puts each effect, which this user typed, after those that wait for the seat of its peer.
    pub fn route(&mut self, peers: &Peers, typist: Option<UserId>, effects: Vec<Effect>)
        requires seats { AreSeats (length self.old.lists.items) (owners_of peers.now) }
        requires come { AllByRecursion (HasPeer (owners_of peers.now)) effects.items }
        requires few { length effects.items ≤ 256 }
        requires room { HaveRoom 256 self.old.lists.items }
        ensures lists { AreRouted (owners_of peers.now) typist effects.items
            (views self.old.lists.items) (views self.new.lists.items) }
        ensures marks { self.new.marks ≡ self.old.marks }
    {
        route(self.lists.as_mut_slice(), peers, typist, effects)
    }

    /// Marks every seat, unless the step was a Draw.
    pub fn mark(&mut self, event: Event)
        ensures marks { self.new.marks.items ≡ marked (happening event.entry)
            self.old.marks.items }
        ensures lists { self.new.lists ≡ self.old.lists }
    {
        if !is_draw(event) {
            mark_all(self.marks.as_mut_slice());
        }
    }

    /// Hands out the list of effects that waits for a seat, and its mark. It takes no memory.
    pub fn take(&mut self, alloc: Global, seat: usize) -> (Handed, bool)
        requires lists { seat < length self.old.lists.items }
        requires marks { seat < length self.old.marks.items }
        ensures effects { slice_get (views self.old.lists.items) seat ≡ Some result.0 }
        ensures mark { slice_get self.old.marks.items seat ≡ Some result.1 }
        ensures lists { views self.new.lists.items
            ≡ slice_set (views self.old.lists.items) seat [] }
        ensures marks { self.new.marks.items ≡ slice_set self.old.marks.items seat false }
    {
        let effects = mem::replace(&mut self.lists[seat], Vec::new(alloc));
        let marked = mem::replace(&mut self.marks[seat], false);
        (Handed::of(effects), marked)
    }
}

fn make_room(waiting: &mut [Vec<Sent>]) -> Result<(), AllocError>
    ensures same { views waiting.new ≡ views waiting.old }
    ensures room { OnOk result (HaveRoom 256 waiting.new) }
{
    for i in 0..waiting.len() {
        waiting[i].reserve(MOST)?;
    }
    Ok(())
}

fn route(waiting: &mut [Vec<Sent>], peers: &Peers, typist: Option<UserId>, effects: Vec<Effect>)
    requires seats { AreSeats (length waiting.old) (owners_of peers.now) }
    requires come { AllByRecursion (HasPeer (owners_of peers.now)) effects.items }
    requires few { length effects.items ≤ 256 }
    requires room { HaveRoom 256 waiting.old }
    ensures { AreRouted (owners_of peers.now) typist effects.items (views waiting.old)
        (views waiting.new) }
{
    for effect in effects {
        let seat = peers.seat_of(&effect);
        waiting[seat].push_reserved((effect, typist));
    }
}

fn mark_all(marks: &mut [bool])
    ensures { marks.new ≡ map (λ b. true) marks.old }
{
    for i in 0..marks.len() {
        marks[i] = true;
    }
}

fn is_draw(event: Event) -> bool
    ensures { result ≡ is_draw (happening event.entry) }
{
    matches!(event, Event::Draw { .. })
}

/// The user who types with an event: that of the client whose keys it is, or who gives the command.
pub fn typist_of(session: &Session, event: Event) -> Option<UserId>
    ensures { (h : Trace) → StandsFor h session.now
        → result ≡ typist_of (tables_of h) (happening event.entry) }
{
    match event {
        Event::Keys { client, .. } => session.user_of(client),
        Event::Command { user, .. } => Some(user),
        _ => None,
    }
}

/// The window of an effect that is an Input, or else the one before.
fn later(last: Option<u32>, effect: &Effect) -> Option<u32>
    ensures { result ≡ later last effect.now }
{
    match effect {
        Effect::Input(window, _) => Some(*window),
        _ => last,
    }
}

/// The window of the last Input of these effects.
fn last_input(effects: &[Effect]) -> Option<u32>
    ensures { result ≡ last_input effects.now }
{
    effects
        .iter()
        .fold(None, |last, effect| later(last, effect))
}

/// The window into which an event's step typed last. What a window's program puts out types
/// nothing: the Inputs of that step are reports.
pub fn typed_in(event: Event, effects: &[Effect]) -> Option<u32>
    ensures { result ≡ typed_in (happening event.entry) effects.now }
{
    match event {
        Event::Output { .. } => None,
        _ => last_input(effects),
    }
}
