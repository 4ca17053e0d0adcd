//! What peers ask for.

ghost use Rattle.std.specs.Prelude.{◌≡◌, ◌++◌, IfSome, None, OnOk, Contains, length, unwrap_or};
ghost use Rattle.slab.specs.Slab.{get};
ghost use Rattle.session.specs.Texts.{text_of};
ghost use Rattle.session.specs.Trace.{happening};
ghost use Rattle.server_inbox.specs.Asking.{advanced};
ghost use Rattle.server_loop.specs.Beginning.{Answers, Begins, Commands, Enters, IsShown, Joins};
ghost use Rattle.server_loop.specs.Beginning.{LetsIn, SaysDone, SendsAway, TurnsAway, known_of, too_many};
ghost use Rattle.server_loop.specs.Naming.{IsOf, NamesNobody};
ghost use Rattle.server_loop.specs.Obeying.{FollowsUp, ObeysBy, Prints, SubmitsFor, printed};
ghost use Rattle.server_loop.specs.Submitting.{state_of};
ghost use Rattle.server_steps.specs.Meaning.{meaning_of, role_at};

use crate::own::Loop;
use attach_proto::{Message, Text, Token, Why};
use server_connections::{
    Asked, GuestKind, News, PeerStream, SeatAnswer, SeatFault, Sending, SessionSeat,
};
use server_steps::{
    Gate, Meaning, Progress, event_of, guest_of, is_extra, kind_of, make_guest, many_of, may_judge,
    meaning_of, news_of, quit_if, quits, role_at, role_of, shown_in,
};
use server_users::{Shown, Users, authenticate};
use session::{Done, Event, Refusal, Reply, push_decimal};
use std::alloc::AllocError;
use std::sync::Wait;

const UNKNOWN: &[u8] = b"unknown user or wrong token";

const NO_ROOM: &[u8] = b"the server has no room for more connections";

// A connection that is to become a client or a window: its key, and the user who showed their token.
#[derive(Clone, Copy)]
struct Newcomer {
    key: usize,
    user: Shown,
    kind: GuestKind,
}

// Appends what a user is told who has as many clients or windows as a user may have.
fn say_most(newcomer: Newcomer, most: u8, out: &mut Vec<u8>) -> Result<(), AllocError>
    ensures { OnOk result (out.new.items ≡ out.old.items ++ too_many newcomer.kind newcomer.user.user most) }
{
    out.extend_from_slice(many_of(newcomer.kind))?;
    let user = newcomer.user.user();
    out.extend_from_slice(user.as_bytes())?;
    out.extend_from_slice(b": at most ")?;
    push_decimal(u64::from(most), out)
}

impl<S: PeerStream + Drop, G: Gate + Drop, J: SessionSeat + Drop> Loop<S, G, J> {
    /// Does a message of a connection, or a step of it, as what it means.
    pub(crate) fn obey(&mut self, rt: &impl Wait, key: usize, asked: &mut Asked) -> Progress
        ensures { ObeysBy J.SessionSeat (meaning_of (role_at (get self.old.connections.peers key))
            asked.old.message) key asked.old asked.new (state_of self.old) result (state_of self.new) }
    {
        match meaning_of(role_at(&self.connections, key), &asked.message) {
            Meaning::First => self.begin(rt, key, &asked.message),
            Meaning::Output(window) => self.output(rt, key, window, asked),
            Meaning::Leave => {
                self.detach(rt, key);
                Progress::Done
            }
            Meaning::Misfit => {
                self.fault(rt, key);
                Progress::Done
            }
        }
    }

    // If there was no memory for a step, its connection is told to go.
    fn follow_up(&mut self, rt: &impl Wait, key: usize, answer: &Result<SeatAnswer, SeatFault>)
        ensures { FollowsUp J.SessionSeat key answer.now (state_of self.old) (state_of self.new) }
    {
        match answer {
            Ok(_) => {}
            Err(SeatFault::Over(_)) => {}
            Err(SeatFault::NoMemory) => self.fault(rt, key),
        }
    }

    // Submits an event whose answer nobody waits for. A refusal is passed over, unless there was no memory.
    pub(crate) fn change(&mut self, rt: &impl Wait, key: usize, event: Event)
        requires { NamesNobody (happening event) }
        ensures { SubmitsFor J.SessionSeat (happening event.entry) key (state_of self.old) (state_of self.new) }
    {
        let answer = self.submit(rt, event);
        self.follow_up(rt, key, &answer);
    }

    // A step takes a piece of a window's output.
    fn output(&mut self, rt: &impl Wait, key: usize, window: u32, asked: &mut Asked) -> Progress
        ensures step { Prints J.SessionSeat window asked.old key (state_of self.old) (state_of self.new) }
        ensures asked { asked.new ≡ advanced asked.old }
        ensures progress { result ≡ printed asked.new }
    {
        let bytes = asked.piece();
        let taken = bytes.len();
        self.change(rt, key, Event::Output { window, bytes });
        self.reading.output_left = self.reading.output_left.saturating_sub(taken);
        Progress::by(asked.note_done(taken))
    }

    // The users who may connect by now.
    fn known(&self) -> &Users
        ensures { result.now ≡ unwrap_or self.entry.now.users (J.known self.entry.now.seat) }
    {
        match &self.users {
            Some(users) => users,
            None => self.seat.users(),
        }
    }

    /// The user of this name who showed this token, if it is theirs.
    pub fn user_of(&self, name: &Text, token: &Token) -> Option<Shown>
        ensures shown { IfSome result (IsShown (known_of J.SessionSeat (state_of self.entry.now))
            (record { name = name.now; token = token.now })) }
        ensures none { result ≡ None → ¬ (Contains (known_of J.SessionSeat (state_of self.entry.now))
            (record { name = name.now; token = token.now })) }
    {
        match authenticate(self.known(), name.as_str().as_bytes(), token) {
            Ok(user) => Some(user.shown()),
            Err(_) => None,
        }
    }

    // A connection is told why it can't stay, and goes.
    fn turn_away(&mut self, rt: &impl Wait, key: usize, text: &[u8])
        ensures { TurnsAway J.SessionSeat text.now key (state_of self.old) (state_of self.new) }
    {
        self.send(rt, key, Sending::Say(text));
        self.dismiss(key, Why::Fault);
    }

    // A connection is told why its event was refused, and goes.
    fn refuse(&mut self, rt: &impl Wait, key: usize, refusal: &Refusal)
        ensures { SendsAway J.SessionSeat (text_of refusal.now) key (state_of self.old) (state_of self.new) }
    {
        let mut text = Vec::new(self.alloc);
        match refusal.text(&mut text) {
            Ok(()) => self.turn_away(rt, key, &text),
            Err(_) => self.dismiss(key, Why::Fault),
        }
    }

    // Judges the first message of a connection.
    fn begin(&mut self, rt: &impl Wait, key: usize, message: &Message) -> Progress
        ensures { Begins J.SessionSeat message.now key (state_of self.old) result (state_of self.new) }
    {
        let Some((name, token)) = shown_in(message) else {
            self.fault(rt, key);
            return Progress::Done;
        };
        if !may_judge(self.looked, &self.connections, key) {
            return Progress::Held;
        }
        let Some(user) = self.user_of(name, token) else {
            self.tell(News::WrongToken);
            self.turn_away(rt, key, UNKNOWN);
            return Progress::Done;
        };
        let Some(event) = event_of(user, message) else {
            return Progress::Done;
        };
        match kind_of(message) {
            Some(kind) => self.join(rt, Newcomer { key, user, kind }, event),
            None => self.command(rt, key, user, event),
        }
    }

    // A connection becomes a client or a window, unless its user has as many as a user may have.
    fn join(&mut self, rt: &impl Wait, newcomer: Newcomer, event: Event) -> Progress
        requires { IsOf newcomer.user.user (happening event) }
        ensures { Joins J.SessionSeat newcomer.user newcomer.kind
            (happening event.entry) newcomer.key (state_of self.old) result (state_of self.new) }
    {
        let Newcomer { key, user, kind } = newcomer;
        if is_extra(&self.connections, key) {
            self.turn_away(rt, key, NO_ROOM);
            return Progress::Done;
        }
        if let Some(most) = self.seat.add(rt, user.user(), kind) {
            self.say_too_many(rt, newcomer, most);
            return Progress::Done;
        }
        match self.try_for(rt, user, event) {
            Ok(Some(answer)) => {
                self.enter(rt, newcomer, &answer.reply);
                Progress::Done
            }
            Ok(None) => {
                self.seat.remove(rt, user.user(), kind);
                Progress::Held
            }
            Err(fault) => {
                self.dismiss(key, fault.why());
                self.seat.remove(rt, user.user(), kind);
                Progress::Done
            }
        }
    }

    // What comes of the answer: the connection becomes a client or a window, or is told why not.
    fn enter(&mut self, rt: &impl Wait, newcomer: Newcomer, reply: &Reply)
        ensures { Enters J.SessionSeat newcomer.user newcomer.kind reply.now
            newcomer.key (state_of self.old) (state_of self.new) }
    {
        match reply {
            Ok(done) => self.let_in(rt, newcomer, done),
            Err(refusal) => {
                self.refuse(rt, newcomer.key, refusal);
                self.seat.remove(rt, newcomer.user.user(), newcomer.kind);
            }
        }
    }

    fn let_in(&mut self, rt: &impl Wait, newcomer: Newcomer, done: &Done)
        ensures { LetsIn J.SessionSeat newcomer.user newcomer.kind done.now newcomer.key
            (state_of self.old) (state_of self.new) }
    {
        let Newcomer { key, user, kind } = newcomer;
        let guest = guest_of(kind, user, done);
        make_guest(&mut self.connections, key, user, role_of(kind, done), guest);
        self.tell(News::Came(guest));
        let welcome = Message::Welcome(done.number);
        self.send(rt, key, Sending::Message(&welcome));
    }

    // No effect tells of a `quit` if no window is open and nobody is attached, so its line is read here too.
    fn command(&mut self, rt: &impl Wait, key: usize, user: Shown, event: Event) -> Progress
        requires { IsOf user.user (happening event) }
        ensures { Commands J.SessionSeat user (happening event.entry) key
            (state_of self.old) result (state_of self.new) }
    {
        let Ok(is_quit) = quits(self.alloc, event) else {
            self.dismiss(key, Why::Fault);
            return Progress::Done;
        };
        match self.try_for(rt, user, event) {
            Ok(Some(answer)) => {
                self.tell(news_of(user, &answer.reply));
                self.tell_answer(rt, key, &answer.reply, is_quit);
                Progress::Done
            }
            Ok(None) => Progress::Held,
            Err(fault) => {
                self.dismiss(key, fault.why());
                Progress::Done
            }
        }
    }

    // Tells a connection what its command lists, and lets it go.
    fn say_done(&mut self, rt: &impl Wait, key: usize, done: &Done)
        ensures { SaysDone J.SessionSeat done.now.text key (state_of self.old) (state_of self.new) }
    {
        if let Some(text) = &done.text {
            self.send(rt, key, Sending::Say(text.as_slice()));
        }
        self.dismiss(key, Why::Detached);
    }

    // Tells a connection the answer to its command.
    fn tell_answer(&mut self, rt: &impl Wait, key: usize, reply: &Reply, is_quit: bool)
        ensures { Answers J.SessionSeat is_quit reply.now key (state_of self.old) (state_of self.new) }
    {
        self.send(rt, key, Sending::Message(&Message::Welcome(0)));
        match reply {
            Ok(done) => {
                self.say_done(rt, key, done);
                self.end = quit_if(is_quit, self.end);
            }
            Err(refusal) => self.refuse(rt, key, refusal),
        }
    }

    // Tells a connection that its user has as many clients or windows as a user may have.
    fn say_too_many(&mut self, rt: &impl Wait, newcomer: Newcomer, most: u8)
        ensures { SendsAway J.SessionSeat (too_many newcomer.kind newcomer.user.user most) newcomer.key
            (state_of self.old) (state_of self.new) }
    {
        let mut text = Vec::new(self.alloc);
        match say_most(newcomer, most, &mut text) {
            Ok(()) => self.turn_away(rt, newcomer.key, &text),
            Err(_) => self.dismiss(newcomer.key, Why::Fault),
        }
    }
}
