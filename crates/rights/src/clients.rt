//! Rows of attached clients: each row has a serial and a user, and the newest row is first.

ghost use Rattle.std.specs.Prelude.{◌≡◌, ◌&&◌, ◌==◌, ◌∷◌, OnOk, filter, not};
ghost use Rattle.std.specs.List.{list_any};
ghost use Rattle.acl.specs.declared.act.Act.TheVariants.{Parted};
ghost use Rattle.acl.specs.declared.leaders.Edition.{Edition};
ghost use Rattle.acl.specs.declared.user_id.UserId.{UserId};
ghost use Rattle.acl.specs.History.{History};
ghost use Rattle.acl.specs.Same.{same_user};
ghost use Rattle.writelock.specs.Holding.{clients_after};
ghost use Rattle.writelock.specs.LockTable.{LocksStandFor};
ghost use Rattle.rights.specs.Clients.{ClientsStandFor, user_in, has_other, last_in};

use acl::{Act, UserId};
use std::alloc::AllocError;
use writelock::Locks;

/// Whether a client of this serial is attached.
pub fn has_client(clients: &[(u32, UserId)], client: u32) -> bool
    ensures { result ≡ list_any (λ c. c.0 == client) clients.now }
{
    clients.iter().any(|row| row.0 == client)
}

/// Whether a client of this serial is attached, and is this user's.
pub fn is_client_of(clients: &[(u32, UserId)], client: u32, user: UserId) -> bool
    ensures { result ≡ list_any (λ c. (c.0 == client) && same_user c.1 user) clients.now }
{
    clients.iter().any(|row| row.0 == client && row.1 == user)
}

/// The user of the client of this serial, if it is attached.
pub fn user_of_client(clients: &[(u32, UserId)], client: u32) -> Option<UserId>
    ensures { result ≡ user_in clients.now client }
{
    for row in clients {
        if row.0 == client {
            return Some(row.1);
        }
    }
    None
}

/// Whether the user has another client besides this one.
fn has_other(clients: &[(u32, UserId)], client: u32, user: UserId) -> bool
    ensures { result ≡ has_other clients.now client user }
{
    clients.iter().any(|row| row.0 != client && row.1 == user)
}

/// The client's user, if the user has no other client.
fn last_user(clients: &[(u32, UserId)], client: u32) -> Option<UserId>
    ensures { result ≡ last_in clients.now client }
{
    match user_of_client(clients, client) {
        Some(user) => if has_other(clients, client, user) {
            None
        } else {
            Some(user)
        },
        None => None,
    }
}

/// Drops the rows of this client.
fn drop_client(clients: &mut Vec<(u32, UserId)>, client: u32)
    ensures { clients.new.items ≡ filter (λ row. not (row.0 == client)) clients.old.items }
{
    clients.retain(|row| row.0 != client);
}

/// Drops the rows of a client that goes, and tells the locks whether it was its user's last one.
pub fn part_client(clients: &mut Vec<(u32, UserId)>, locks: &mut Locks, client: u32)
    ensures { (edition : Edition) (owner : UserId) (h : History)
        → LocksStandFor locks.old edition owner h → ClientsStandFor clients.old.items h
        → LocksStandFor locks.new edition owner (Parted client ∷ h)
        × ClientsStandFor clients.new.items (Parted client ∷ h) }
{
    locks.parted(last_user(clients, client));
    drop_client(clients, client);
}

/// The clients after an act: a client that comes is the first row.
pub fn follow_clients(clients: &mut Vec<(u32, UserId)>, act: &Act) -> Result<(), AllocError>
    ensures { OnOk result (clients.new.items ≡ clients_after act.now clients.old.items) }
{
    match *act {
        Act::Attached { client, user } => clients.insert(0, (client, user))?,
        Act::Parted { client } => drop_client(clients, client),
        _ => {}
    }
    Ok(())
}
