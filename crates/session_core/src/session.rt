//! The session.

ghost use Rattle.std.specs.Prelude.{◌≡◌, ◌≤◌, ◌<◌, Err, false, true, length, map, nat_le, IfOk, IfErr, IfSome};
ghost use Rattle.std.specs.List.{position};
ghost use Rattle.acl.specs.declared.leaders.Edition.TheVariants as edition;
ghost use Rattle.session_model.specs.declared.refusal.Refusal.TheVariants.{NoMemory};
ghost use Rattle.session_model.specs.Trace.{Keys, happening, Trace, begun};
ghost use Rattle.session_model.specs.Run.{tables_of};
ghost use Rattle.session_model.specs.Sound.{client_serials};
ghost use Rattle.session_state.specs.declared.client.Client.{Client};
ghost use Rattle.session_core.specs.Least.{least_from};
ghost use Rattle.session_core.specs.MayType.{client_user, may_type};
ghost use Rattle.session_core.specs.Stands.{StandsFor, IfTaken, Takes, wants_memory};
ghost use Rattle.session_core.specs.Headline.{SomeRun, SomeSteps, IsRunOf, AllSteps, Keeps, HasCome, run_call};
ghost use Rattle.session_core.specs.Headline.{take_call, IsPartOf, IsViewOf, read_by};

use crate::coming::{made_so, take};
use crate::drawing::{draws_one_of, note_drawn};
use crate::may_type::{may_type, user_of};
use crate::sharing::{Sharing, note_step};
use acl::{Edition, UserId};
use session_model::{CLIENTS, Effect, Event, Ran, Refusal, Reply};
use session_state::{Client, Notes, State, Step, StepOutput};
use session_view::view_of;
use std::alloc::Global;
use std::mem;
use view::View;

/// A session: its windows, the clients that show them, and its users' rights.
pub struct Session {
    alloc: Global,
    state: State,
    /// Clients that are known to need no draw.
    drawn: Vec<u32>,
    /// Frames that several clients read.
    sharing: Sharing,
}

impl Drop for Session {
    fn drop(self) {
        let Session {
            alloc: _,
            state: _,
            drawn: _,
            sharing: _,
        } = self;
    }
}

/// Who owns a new session, and how many groups its users may be in.
#[derive(Clone, Copy)]
pub struct NewSession {
    pub owner: UserId,
    pub edition: Edition,
}

/// How much of an event was taken.
enum Taken {
    /// All of it, with the reply of its last step.
    Whole(Reply),
    /// The first N bytes; the rest found no memory.
    Part(usize),
}

/// Whether a step was refused for want of memory.
fn wants_memory(reply: &Reply) -> bool
    ensures { result ≡ wants_memory reply.now }
{
    matches!(reply, Err(Refusal::NoMemory))
}

/// How many bytes of keys a step read.
fn read_by(reply: &Reply) -> usize
    ensures { result ≡ read_by reply.now }
{
    match reply {
        Ok(done) => done.taken,
        Err(_refusal) => 0,
    }
}

impl Session {
    /// A new session that has taken no event, whose users may be in up to eight groups.
    pub fn new(alloc: Global, owner: UserId) -> Result<Session, Refusal>
        ensures ok { IfOk result (StandsFor (begun edition.Second owner)) }
        ensures err { IfErr result (λ r. r ≡ NoMemory) }
    {
        Session::of(alloc, owner, Edition::Second)
    }

    /// A new session that has taken no event, whose users may be in one group.
    pub fn first_edition(alloc: Global, owner: UserId) -> Result<Session, Refusal>
        ensures ok { IfOk result (StandsFor (begun edition.First owner)) }
        ensures err { IfErr result (λ r. r ≡ NoMemory) }
    {
        Session::of(alloc, owner, Edition::First)
    }

    /// Takes one event: its effects are appended, and the notes are its acts and verdicts. A
    /// refusal for want of memory leaves everything as it was; any other leaves all but the notes.
    pub fn step(&mut self, event: Event, effects: &mut Vec<Effect>, notes: &mut Notes) -> Reply
        // For each trace that the session stood for, it stands for that trace with this step.
        ensures step { IfTaken result (Takes self.old (happening event.entry) notes.new
            effects.old.items effects.new.items result self.new) }
        // Want of memory leaves everything as it was.
        ensures memory { result ≡ Err NoMemory → (self.new ≡ self.old)
            × (effects.new.items ≡ effects.old.items) × (notes.new ≡ notes.old) }
    {
        if draws_one_of(&self.drawn, event) {
            *notes = Notes::new(self.alloc);
            return Ok(made_so(0, 0));
        }
        let made = StepOutput {
            acts: Vec::new(self.alloc),
            effects: mem::replace(effects, Vec::new(self.alloc)),
        };
        let verdicts = Vec::new(self.alloc);
        let mut step = Step { made, verdicts };
        let reply = take(&mut self.state, &mut self.sharing, event, &mut step);
        let Step { made, verdicts } = step;
        *effects = made.effects;
        if wants_memory(&reply) {
            return reply;
        }
        *notes = Notes::of(made.acts, verdicts);
        note_drawn(&mut self.drawn, event, &reply);
        note_step(&mut self.state, &mut self.sharing, event, &reply);
        reply
    }

    /// Takes events until one finds no memory for its reply or for a step. Each event that is taken
    /// whole has one reply, that of its last step.
    pub fn run(
        &mut self,
        events: &[Event],
        effects: &mut Vec<Effect>,
        replies: &mut Vec<Reply>,
    ) -> Ran
        // The call is a run of the session, each of whose steps keeps the promise: typed bytes
        // reach windows exactly by rights and locks, and else it is told why; commands act exactly
        // if x is granted; after each draw every terminal of the client's size shows its granted
        // view; denials name their entries and holders; and there is no other effect.
        ensures promise { SomeRun self.old (run_call events.now effects.old.items
            effects.new.items replies.old.items replies.new.items result) self.new
            (AllSteps Keeps) }
        // How far the call came.
        ensures came { HasCome result (map happening events.now) }
        // Each event was taken, unless a step found no memory.
        ensures whole { result.stopped ≡ false → result.taken ≡ length events.now }
    {
        let mut notes = Notes::new(self.alloc);
        for (taken, event) in events.iter().enumerate() {
            if replies.reserve(1).is_err() {
                return stopped_at(taken, 0);
            }
            match self.take(*event, effects, &mut notes) {
                Taken::Whole(reply) => replies.push(reply).unwrap(),
                Taken::Part(part) => return stopped_at(taken, part),
            }
        }
        Ran {
            taken: events.len(),
            part: 0,
            stopped: false,
        }
    }

    /// A new session that has taken these events, as far as memory lasts, with what they made.
    pub fn after(
        alloc: Global,
        start: NewSession,
        events: &[Event],
        effects: &mut Vec<Effect>,
        replies: &mut Vec<Reply>,
    ) -> Result<(Session, Ran), Refusal>
        // The run of a new session, each of whose steps keeps the promise.
        ensures promise { IfOk result (λ after. IsRunOf start.edition start.owner (run_call
            events.now effects.old.items effects.new.items replies.old.items replies.new.items
            after.1) after.0) }
        ensures came { IfOk result (λ after. HasCome after.1 (map happening events.now)) }
        ensures whole { IfOk result (λ after. after.1.stopped ≡ false
            → after.1.taken ≡ length events.now) }
        ensures err { IfErr result (λ r. r ≡ NoMemory) }
    {
        let mut session = Session::of(alloc, start.owner, start.edition)?;
        let ran = session.run(events, effects, replies);
        Ok((session, ran))
    }

    /// What a client is to see at this moment.
    pub fn view(&self, client: u32) -> Result<View, Refusal>
        ensures { (h : Trace) → StandsFor h self.now → IsViewOf h client result }
    {
        view_of(&self.state, client)
    }

    /// Whether a user may type into a window at this moment: it is open, the user has w on it, and no
    /// other user holds its lock. It takes no memory.
    pub fn may_type(&self, user: UserId, window: u32) -> bool
        ensures { (h : Trace) → StandsFor h self.now
            → result ≡ may_type (tables_of h) user window }
    {
        may_type(&self.state, user, window)
    }

    /// The user of an attached client; `None` if no client with this serial is attached.
    pub fn user_of(&self, client: u32) -> Option<UserId>
        ensures { (h : Trace) → StandsFor h self.now
            → result ≡ client_user (tables_of h) client }
    {
        user_of(&self.state, client)
    }

    /// The lowest serial of a client that isn't below this one.
    pub fn clients_from(&self, serial: u32) -> Option<u32>
        ensures least { (h : Trace) → StandsFor h self.now
            → result ≡ least_from serial (client_serials (tables_of h).clients) }
        ensures bound { IfSome result (λ least. serial ≤ least) }
    {
        let clients = self.state.clients.as_slice();
        match place_from(clients, serial) {
            Some(place) => Some(clients[place].serial),
            None => None,
        }
    }

    /// How many groups the session's users may be in. It never changes.
    pub fn edition(&self) -> Edition
        ensures { (h : Trace) → StandsFor h self.now → result ≡ (tables_of h).edition }
    {
        self.state.acl.edition()
    }

    /// The session's owner.
    pub fn owner(&self) -> UserId
        ensures { (h : Trace) → StandsFor h self.now → result ≡ (tables_of h).owner }
    {
        self.state.acl.owner()
    }

    /// A new session of an edition, which has taken no event.
    fn of(alloc: Global, owner: UserId, edition: Edition) -> Result<Session, Refusal>
        ensures ok { IfOk result (StandsFor (begun edition owner)) }
        ensures err { IfErr result (λ r. r ≡ NoMemory) }
    {
        let state = State::new(alloc, owner, edition)?;
        let drawn = Vec::with_capacity(alloc, CLIENTS)?;
        let sharing = Sharing::new(alloc)?;
        Ok(Session {
            alloc,
            state,
            drawn,
            sharing,
        })
    }

    /// Takes one event, in as many steps as it needs.
    fn take(&mut self, event: Event, effects: &mut Vec<Effect>, notes: &mut Notes) -> Taken
        ensures steps { SomeSteps self.old (take_call (happening event.entry) effects.old.items
            effects.new.items result) self.new }
        ensures part { IsPartOf (happening event.entry) result }
    {
        if let Event::Keys { client, bytes } = event {
            return self.take_keys(client, bytes, effects, notes);
        }
        let reply = self.step(event, effects, notes);
        if wants_memory(&reply) {
            return Taken::Part(0);
        }
        Taken::Whole(reply)
    }

    /// Takes keys: each step has the rest that the step before didn't read. A step that reads nothing is
    /// the last one.
    fn take_keys(
        &mut self,
        client: u32,
        bytes: &[u8],
        effects: &mut Vec<Effect>,
        notes: &mut Notes,
    ) -> Taken
        ensures steps { SomeSteps self.old (take_call (Keys client bytes.now) effects.old.items
            effects.new.items result) self.new }
        ensures part { IsPartOf (Keys client bytes.now) result }
    {
        let mut part = 0;
        'steps: loop {
            let rest = &bytes[part..];
            let event = Event::Keys {
                client,
                bytes: rest,
            };
            let reply = self.step(event, effects, notes);
            if wants_memory(&reply) {
                return Taken::Part(part);
            }
            let read = read_by(&reply);
            if read == 0 || rest.len() <= read {
                return Taken::Whole(reply);
            }
            part += read;
        }
    }
}

/// The place of the first client with a serial that isn't below this one.
fn place_from(clients: &[Client], serial: u32) -> Option<usize>
    ensures place { result ≡ position (λ (c : Client). nat_le serial c.serial) clients.now }
    ensures within { IfSome result (λ place. place < length clients.now) }
{
    clients.iter().position(|client| serial <= client.serial)
}

/// The answer of a run that was stopped at this event.
fn stopped_at(taken: usize, part: usize) -> Ran
    ensures { result ≡ record { taken = taken; part = part; stopped = true } }
{
    Ran {
        taken,
        part,
        stopped: true,
    }
}
