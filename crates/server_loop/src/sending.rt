//! What connections are sent, and when they are drawn.

ghost use Rattle.std.specs.Prelude.{◌≡◌, ◌-◌};
ghost use Rattle.std.specs.List.{list_any};
ghost use Rattle.slab.specs.Slab.{get};
ghost use Rattle.server_sending.specs.Frames.{Sends, SendsFront};
ghost use Rattle.server_steps.specs.Meaning.{role_at};
ghost use Rattle.server_loop.specs.Drawing.{Draws, DrawsAll, DrawsFrom, DrawsNext, DrawsRound, HandsOn, TellsAll};
ghost use Rattle.server_loop.specs.Handing.{DropsEnded, Ends, Hands, HandsAll, HandsFor, HandsOut, SendsTo};
ghost use Rattle.server_loop.specs.Handing.{ends_window};
ghost use Rattle.server_loop.specs.Submitting.{state_of};
ghost use Rattle.server_loop.specs.Walking.{VisitsAll};
ghost use Rattle.server_loop.specs.Writing.{DropsLaggard, DropsLost, DropsOf, DropsTyped, Writes};

use crate::own::Loop;
use acl::UserId;
use attach_proto::{Message, Why};
use server_connections::{PeerStream, Role, SeatFault, Sending, SessionSeat, each_awake, why_of};
use server_steps::{
    Gate, cut_off, drawn_from, drop_typed, end_after, is_laggard, next_from, role_at, typist_after,
    wanting, write,
};
use session::{Effect, Event, Reason};
use std::sync::Wait;

// At most this many draws are asked for in a turn. The others follow in the next turns, and keys are read between.
const DRAWS: usize = 16;

// Whether the session ended a window.
fn ends_window(effect: &Effect) -> bool
    ensures { result ≡ ends_window effect.now }
{
    matches!(effect, Effect::Gone(session::Peer::Window(_), _))
}

// Whether it ended one by these effects.
fn end_windows(effects: &[(Effect, Option<UserId>)]) -> bool
    ensures { result ≡ list_any (λ sent. ends_window sent.0) effects.now }
{
    effects.iter().any(|sent| ends_window(&sent.0))
}

impl<S: PeerStream + Drop, G: Gate + Drop, J: SessionSeat + Drop> Loop<S, G, J> {
    // Puts something after what waits for a connection, which is told to go if that can't be done.
    pub(crate) fn send(&mut self, rt: &impl Wait, key: usize, sending: Sending)
        ensures { SendsTo J.SessionSeat key (Sends sending.entry) (SendsFront sending.entry)
            (state_of self.old) (state_of self.new) }
    {
        if self.connections.put_into(key, sending) {
            return;
        }
        self.expel(rt, key, Why::Fault);
    }

    // The session ended a client or a window: its connection is told to go.
    fn let_go(&mut self, role: Role, reason: Reason)
        ensures { Ends role reason (state_of self.old) (state_of self.new) }
    {
        self.end = end_after(reason, self.end);
        self.connections.let_go(role, why_of(reason));
    }

    // Puts something for a client or a window. Its connection is told to go if that can't be done.
    fn hand(&mut self, rt: &impl Wait, role: Role, sending: Sending)
        ensures { HandsFor J.SessionSeat role (Sends sending.entry) (SendsFront sending.entry)
            (state_of self.old) (state_of self.new) }
    {
        match self.connections.put_for(role, sending) {
            Ok(()) => {}
            Err(key) => self.expel(rt, key, Why::Fault),
        }
    }

    // Puts an effect into the connection that it is for.
    fn hand_one(&mut self, rt: &impl Wait, effect: &Effect, typist: Option<UserId>)
        ensures { Hands J.SessionSeat effect.now typist (state_of self.old) (state_of self.new) }
    {
        match effect {
            Effect::Input(window, bytes) => self.hand(
                rt,
                Role::Window(*window),
                Sending::Input(bytes.as_slice(), typist),
            ),
            Effect::Deliver(client, bytes) => self.hand(
                rt,
                Role::Client(*client),
                Sending::Draw(bytes.as_slice()),
            ),
            Effect::Say(client, text) => self.hand(
                rt,
                Role::Client(*client),
                Sending::Say(text.as_slice()),
            ),
            Effect::Size(window, rows, columns) => self.hand(
                rt,
                Role::Window(*window),
                Sending::Message(&Message::Size {
                    rows: *rows,
                    columns: *columns,
                }),
            ),
            Effect::Gone(session::Peer::Window(window), reason) => {
                self.let_go(Role::Window(*window), *reason)
            }
            Effect::Gone(session::Peer::Client(client), reason) => {
                self.let_go(Role::Client(*client), *reason)
            }
        }
    }

    // Puts these effects into their connections.
    fn hand_all(&mut self, rt: &impl Wait, effects: &[(Effect, Option<UserId>)])
        ensures { HandsAll J.SessionSeat effects.now (state_of self.old) (state_of self.new) }
    {
        'effects: for sent in effects {
            let (effect, typist) = sent;
            self.hand_one(rt, effect, *typist);
        }
    }

    // Nobody may type into a window that is ended: what was typed there before, and isn't begun, isn't written.
    fn drop_ended(&mut self, rt: &impl Wait, effects: &[(Effect, Option<UserId>)])
        ensures { DropsEnded J.SessionSeat effects.now (state_of self.old) (state_of self.new) }
    {
        if !end_windows(effects) {
            return;
        }
        each_awake(self, |own, key| own.drop_typed(rt, key));
    }

    // Takes the effects that wait for the loop's peers, and puts them into their connections.
    pub(crate) fn hand_out(&mut self, rt: &impl Wait)
        ensures { HandsOut J.SessionSeat (state_of self.old) (state_of self.new) }
    {
        self.is_behind = false;
        let (effects, is_told) = self.seat.take(rt);
        self.drop_ended(rt, effects.as_slice());
        self.hand_all(rt, effects.as_slice());
        self.draws.is_told |= is_told;
        self.may_have_lost |= is_told;
    }

    // Takes out what a user typed into a window, if they may not type into it any more.
    fn drop_of(&mut self, rt: &impl Wait, key: usize, window: u32, user: UserId)
        ensures { DropsOf J.SessionSeat key window user (state_of self.old) (state_of self.new) }
    {
        if self.seat.may_type(rt, user, window) {
            return;
        }
        drop_typed(&mut self.connections, key, user);
    }

    // Takes out of what waits for a window what users typed who may not type into it any more.
    fn drop_typed(&mut self, rt: &impl Wait, key: usize)
        ensures { DropsTyped J.SessionSeat (role_at (get self.old.connections.peers key)) key
            (state_of self.old) (state_of self.new) }
    {
        let Role::Window(window) = role_at(&self.connections, key) else {
            return;
        };
        let mut last = None;
        'typists: for _ in 0..u32::MAX {
            let Some(user) = typist_after(&self.connections, key, last) else {
                return;
            };
            self.drop_of(rt, key, window, user);
            last = Some(user);
        }
    }

    // After a step that may have taken a right, what was typed by those who lost theirs isn't written.
    pub(crate) fn drop_all_typed(&mut self, rt: &impl Wait)
        ensures { DropsLost J.SessionSeat (state_of self.old) (state_of self.new) }
    {
        if !self.may_have_lost {
            return;
        }
        self.may_have_lost = false;
        each_awake(self, |own, key| own.drop_typed(rt, key));
    }

    // Writes what waits for a connection, until it takes no more for now.
    fn write_to(&mut self, rt: &impl Wait, key: usize)
        ensures { Writes J.SessionSeat S.PeerStream key (state_of self.old) (state_of self.new) }
    {
        if !write(&mut self.connections, key) {
            return;
        }
        let _ = self.tell_leaving(rt, key);
    }

    pub(crate) fn write_all(&mut self, rt: &impl Wait)
        ensures { VisitsAll (Writes J.SessionSeat S.PeerStream) (state_of self.old) (state_of self.new) }
    {
        each_awake(self, |own, key| own.write_to(rt, key));
    }

    // Asks for a client's draw. If there is no memory for it, it is asked for in a later turn.
    fn draw(&mut self, rt: &impl Wait, key: usize, client: u32)
        ensures { Draws J.SessionSeat client key (state_of self.old) (state_of self.new) }
    {
        match self.submit(rt, Event::Draw { client }) {
            Ok(_) => {
                self.connections.note_drawn(key);
                self.draws.made = self.draws.made.saturating_add(1);
            }
            Err(SeatFault::NoMemory) => self.has_refused = true,
            Err(SeatFault::Over(_)) => {}
        }
    }

    // Asks for a client's draw if it wants one. Returns how many more may be made after it; None if it has to wait.
    fn draw_next(&mut self, rt: &impl Wait, key: usize, most: usize) -> Option<usize>
        ensures { DrawsNext J.SessionSeat key most (state_of self.old) result (state_of self.new) }
    {
        let Some(client) = wanting(&self.connections, key) else {
            return Some(most);
        };
        if most == 0 {
            return None;
        }
        self.draw(rt, key, client);
        Some(most - 1)
    }

    // Asks for draws of clients that want one, from a key on. Returns the key with which the next turn goes on, if any.
    fn draw_some(&mut self, rt: &impl Wait, from: usize) -> Option<usize>
        ensures { DrawsFrom J.SessionSeat (self.old.connections.peers.capacity - from) from 16
            (state_of self.old) result (state_of self.new) }
    {
        let mut left = DRAWS;
        'keys: for key in from..self.connections.end() {
            match self.draw_next(rt, key, left) {
                Some(rest) => left = rest,
                None => return Some(key),
            }
        }
        None
    }

    // All connections are told that there is something to draw, if a step was made since they were.
    fn tell_all(&mut self)
        ensures { TellsAll (state_of self.old) (state_of self.new) }
    {
        if !self.draws.is_told {
            return;
        }
        self.draws.is_told = false;
        self.connections.tell();
    }

    // What came of steps is handed out and written, but for what was typed by those who lost their right meanwhile.
    fn hand_on(&mut self, rt: &impl Wait)
        ensures { HandsOn J.SessionSeat S.PeerStream (state_of self.old) (state_of self.new) }
    {
        if !self.is_behind {
            return;
        }
        self.hand_out(rt);
        self.drop_all_typed(rt);
        self.write_all(rt);
    }

    // Asks for draws from a key on, and hands them out.
    fn draw_round(&mut self, rt: &impl Wait, from: usize, is_held: bool)
        ensures { DrawsRound J.SessionSeat S.PeerStream from is_held (state_of self.old) (state_of self.new) }
    {
        self.tell_all();
        let next = self.draw_some(rt, from);
        self.draws.from = next_from(next, from, is_held);
        self.hand_on(rt);
    }

    // Asks for draws unless they are held, or goes on with those that were begun, and hands them out.
    pub(crate) fn draw_all(&mut self, rt: &impl Wait, is_held: bool)
        ensures { DrawsAll J.SessionSeat S.PeerStream is_held (state_of self.old) (state_of self.new) }
    {
        let Some(from) = drawn_from(self.draws.from, is_held) else {
            return;
        };
        self.draw_round(rt, from, is_held);
    }

    // A connection for which too much waits is told so, and closed once it takes no more.
    fn drop_laggard(&mut self, rt: &impl Wait, key: usize)
        ensures { DropsLaggard J.SessionSeat S.PeerStream key (state_of self.old) (state_of self.new) }
    {
        if !is_laggard(&self.connections, key) {
            return;
        }
        self.drop_typed(rt, key);
        self.expel(rt, key, Why::TooFarBehind);
        cut_off(&mut self.connections, key);
        self.write_to(rt, key);
    }

    pub(crate) fn drop_laggards(&mut self, rt: &impl Wait)
        ensures { VisitsAll (DropsLaggard J.SessionSeat S.PeerStream) (state_of self.old) (state_of self.new) }
    {
        each_awake(self, |own, key| own.drop_laggard(rt, key));
    }
}
