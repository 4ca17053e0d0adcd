//! How clients go.

ghost use Rattle.std.specs.Prelude.{◌≡◌, ◌≤◌, ◌+◌, ◌++◌, ℕ, not, filter, map, length, reverse, vec_len, vec_capacity};
ghost use Rattle.std.specs.Prelude.{IfOk};
ghost use Rattle.session_state.specs.Clients.{Keeps};
ghost use Rattle.session_commands.specs.Going.{goes, goes_now, gone_now, parted_now, attached_now, Goes, TellsLocks};

use crate::giver::Context;
use acl::{Act, UserId};
use rights::part_client;
use session_model::{Effect, Peer, Reason};
use session_state::{Client, Clients};
use std::alloc::{AllocError, Global};
use writelock::Locks;

/// The clients that go.
#[derive(Clone, Copy, PartialEq, Eq, Debug)]
pub(crate) enum Going {
    /// The client with this serial.
    One(u32),
    /// A user's clients.
    Of(UserId),
    /// All clients but a user's.
    AllBut(UserId),
    All,
}

impl Going {
    /// Whether this client goes.
    fn has(self, client: &Client) -> bool
        ensures { result ≡ goes_now self client.now }
    {
        match self {
            Going::One(serial) => client.serial == serial,
            Going::Of(user) => client.user == user,
            Going::AllBut(user) => !(client.user == user),
            Going::All => true,
        }
    }
}

/// The effects that say why these clients go.
pub(crate) fn gone_clients(
    alloc: Global,
    clients: &[Client],
    going: Going,
    why: Reason,
) -> Result<Vec<Effect>, AllocError>
    ensures { IfOk result (λ gone. gone.items ≡ map (gone_now why)
        (filter (goes_now going) clients.now)) }
{
    let mut gone = Vec::new(alloc);
    for client in clients {
        if going.has(client) {
            gone.push(Effect::Gone(Peer::Client(client.serial), why))?;
        }
    }
    Ok(gone)
}

/// The serials and users of these clients, the last client first.
pub(crate) fn attached(alloc: Global, clients: &[Client]) -> Result<Vec<(u32, UserId)>, AllocError>
    ensures { IfOk result (λ rows. rows.items ≡ reverse (attached_now clients.now)) }
{
    let mut rows = Vec::new(alloc);
    for client in clients {
        rows.insert(0, (client.serial, client.user))?;
    }
    Ok(rows)
}

/// Notes the clients that go, by rising serials, and tells the locks. The rows are those of all clients
/// that are attached.
pub(crate) fn note_parted(
    clients: &[Client],
    going: Going,
    rows: &mut Vec<(u32, UserId)>,
    locks: &mut Locks,
    acts: &mut Vec<Act>,
)
    requires { vec_len acts.old + length clients.now ≤ vec_capacity acts.old }
    ensures acts { acts.new.items ≡ acts.old.items ++ parted_now going clients.now }
    ensures locks { TellsLocks (parted_now going clients.now) rows.old.items locks.old locks.new }
    ensures room { (n : ℕ) → vec_len acts.old + length clients.now + n ≤ vec_capacity acts.old
        → vec_len acts.new + n ≤ vec_capacity acts.new }
{
    for i in 0..clients.len() {
        let client = &clients[i];
        if going.has(client) {
            acts.push(Act::Parted {
                client: client.serial,
            })
            .unwrap();
            part_client(rows, locks, client.serial);
        }
    }
}

/// Removes the clients that go.
fn remove(clients: &mut Clients, going: Going)
    ensures { Keeps (λ c. not (goes going c)) clients.old clients.new }
{
    match going {
        Going::One(serial) => clients.remove(serial),
        Going::Of(user) => clients.remove_of(user),
        Going::AllBut(user) => clients.keep_of(user),
        Going::All => clients.clear(),
    }
}

/// Removes clients, and tells each of them why it goes.
pub(crate) fn go(context: &mut Context, going: Going, why: Reason) -> Result<(), AllocError>
    ensures { Goes going why context.old result context.new }
{
    let (state, made) = (&mut *context.state, &mut *context.made);
    let clients = state.clients.as_slice();
    let mut rows = attached(state.alloc, clients)?;
    let mut gone = gone_clients(state.alloc, clients, going, why)?;
    made.acts.reserve(clients.len() + 64)?;
    made.effects.append(&mut gone)?;
    note_parted(clients, going, &mut rows, &mut state.locks, &mut made.acts);
    remove(&mut state.clients, going);
    Ok(())
}
