//! What a message of a connection means to a loop.

ghost use Rattle.std.specs.Prelude.{◌≡◌, ◌↔◌, IfOk, IfSome, IsTrue, None, Some, option_map};
ghost use Rattle.slab.specs.Slab.{get};
ghost use Rattle.session.specs.Trace.{happening};
ghost use Rattle.server_connections.specs.Changing.{changed};
ghost use Rattle.server_steps.specs.Meaning.{event_of, guest_of, kind_of, many_of, meaning_of};
ghost use Rattle.server_steps.specs.Meaning.{is_extra_at, joined, may_judge, news_of, role_at, role_of, shown_in};
ghost use Rattle.server_steps.specs.Submitted.{IsQuit};

use crate::submitted::is_quit;
use attach_proto::{Message, Text, Token};
use server_connections::{Connections, Guest, GuestKind, News, Role};
use server_users::Shown;
use session::{Done, Event, Reply};
use std::alloc::{AllocError, Global};

/// What a message is to a loop.
#[derive(Clone, Copy)]
pub enum Meaning {
    /// The first message of a connection.
    First,
    /// Output of the program of this window.
    Output(u32),
    /// Its client or window ends.
    Leave,
    /// It mustn't be sent.
    Misfit,
}

/// What a connection is to the session.
pub fn role_at<S: Drop>(connections: &Connections<S>, key: usize) -> Role
    ensures { result ≡ role_at (get connections.now.peers key) }
{
    match connections.get(key) {
        Some(peer) => peer.role,
        None => Role::Stranger,
    }
}

/// What a message is, by what its connection is to the session.
pub fn meaning_of(role: Role, message: &Message) -> Meaning
    ensures { result ≡ meaning_of role message.now }
{
    match role {
        Role::Stranger => Meaning::First,
        Role::Window(window) => match message {
            Message::Output(_) => Meaning::Output(window),
            Message::Detach => Meaning::Leave,
            _ => Meaning::Misfit,
        },
        Role::Client(_) => match message {
            Message::Detach => Meaning::Leave,
            _ => Meaning::Misfit,
        },
    }
}

/// The user's name and the token that a first message shows. None if it is another message.
pub fn shown_in(message: &Message) -> Option<(&Text, &Token)>
    ensures some { IfSome result (λ shown. shown_in message.now
        ≡ Some (record { name = shown.0.now; token = shown.1.now })) }
    ensures none { result ≡ None → shown_in message.now ≡ None }
{
    match message {
        Message::Attach { token, name, .. } => Some((name, token)),
        Message::Window { token, name, .. } => Some((name, token)),
        Message::Command { token, name, .. } => Some((name, token)),
        _ => None,
    }
}

/// The event that a first message means for the user who showed the token in it.
pub fn event_of<'a>(shown: Shown, message: &'a Message) -> Option<Event<'a>>
    ensures { option_map happening result ≡ event_of shown message.now }
{
    let user = shown.user();
    match message {
        Message::Attach { rows, columns, .. } => Some(Event::Attach {
            user,
            rows: *rows,
            columns: *columns,
        }),
        Message::Window {
            rows,
            columns,
            keep,
            title,
            ..
        } => Some(Event::Open {
            user,
            rows: *rows,
            columns: *columns,
            keep: *keep,
            title: title.as_str(),
        }),
        Message::Command { window, line, .. } => Some(Event::Command {
            user,
            window: *window,
            line: line.as_slice(),
        }),
        _ => None,
    }
}

/// What the connection of a first message asks to become. None if it gives a command.
pub fn kind_of(message: &Message) -> Option<GuestKind>
    ensures { result ≡ kind_of message.now }
{
    match message {
        Message::Attach { .. } => Some(GuestKind::Client),
        Message::Window { .. } => Some(GuestKind::Window),
        _ => None,
    }
}

/// What the session made of a connection, by its answer to an event.
pub fn role_of(kind: GuestKind, done: &Done) -> Role
    ensures { result ≡ role_of kind done.now }
{
    match kind {
        GuestKind::Client => Role::Client(done.made),
        GuestKind::Window => Role::Window(done.made),
    }
}

/// The first words of what a user is told who has as many clients or windows as a user may have.
pub fn many_of(kind: GuestKind) -> &'static [u8]
    ensures { result.now ≡ many_of kind }
{
    match kind {
        GuestKind::Client => b"too many clients of ",
        GuestKind::Window => b"too many windows of ",
    }
}

/// The guest that it made.
pub fn guest_of(kind: GuestKind, shown: Shown, done: &Done) -> Guest
    ensures { result ≡ guest_of kind shown done.now }
{
    let number = match kind {
        GuestKind::Client => done.made,
        GuestKind::Window => u32::from(done.number),
    };
    let user = shown.user();
    Guest { kind, user, number }
}

/// What the log is told of a user's command, by the answer to it.
pub fn news_of(shown: Shown, reply: &Reply) -> News
    ensures { result ≡ news_of shown reply.now }
{
    match reply {
        Ok(_) => News::Done(shown.user()),
        Err(_) => News::Refused(shown.user()),
    }
}

/// Whether an event is the command `quit`. `AllocError` if memory is refused.
pub fn quits(alloc: Global, event: Event<'_>) -> Result<bool, AllocError>
    ensures { IfOk result (λ quits. IsTrue quits ↔ IsQuit (happening event.entry)) }
{
    match event {
        Event::Command { line, .. } => is_quit(alloc, line),
        _ => Ok(false),
    }
}

/// Whether the users' file was looked at since the first message of a connection came. The look of this
/// number was the last one; nobody looks if there is none.
pub fn may_judge<S: Drop>(looked: Option<u64>, connections: &Connections<S>, key: usize) -> bool
    ensures { result ≡ may_judge looked (get connections.now.peers key) }
{
    match (looked, connections.get(key)) {
        (None, _) => true,
        (Some(_), None) => false,
        (Some(looked), Some(peer)) => peer.look.is_some_and(|look| look <= looked),
    }
}

/// Whether a connection was taken in though no more are to stay.
pub fn is_extra<S: Drop>(connections: &Connections<S>, key: usize) -> bool
    ensures { result ≡ is_extra_at (get connections.now.peers key) }
{
    match connections.get(key) {
        Some(peer) => peer.is_extra,
        None => false,
    }
}

/// A connection becomes a guest of a user, and this to the session.
pub fn make_guest<S: Drop>(
    connections: &mut Connections<S>,
    key: usize,
    shown: Shown,
    role: Role,
    guest: Guest,
)
    ensures { connections.new ≡ changed (joined shown role guest) key connections.old }
{
    if let Some(peer) = connections.touch(key) {
        peer.user = Some(shown);
        peer.join(role, guest);
    }
}
