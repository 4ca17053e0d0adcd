//! The users' file, and who shows a token of it.

ghost use Rattle.std.specs.Prelude.{◌≡◌, ◌↔◌, ◌++◌, IsTrue, IsOk, IfOk, IfErr, IsSome, IfSome, Some, Contains};
ghost use Rattle.std.specs.Prelude.{drop, slice_get};
ghost use Rattle.acl.specs.Names.{name_of};
ghost use Rattle.server_users.specs.Entries.{IsLine, EndsLine, AreUsers, IsFileOf, names};
ghost use Rattle.server_users.specs.Stands.{Breaks, Refuses, entries_of, entry_of};

use crate::fault::{AuthFault, UsersFault};
use crate::user::User;
use acl::UserId;
use attach_proto::Token;
use indexmap::IndexSet;
use std::alloc::{AllocError, Global};
use std::marker::Model;

/// The users who may connect, with their tokens. The first is the session's owner.
#[derive(Debug)]
pub struct Users {
    list: Vec<User>,
}

impl Drop for Users {
    fn drop(self) {
        let Users { list: _ } = self;
    }
}

impl Model for Users {
    ghost use Rattle.std.specs.Prelude.{◌<◌, List, vec_len};
    ghost use Rattle.server_users.specs.Entries.{Entry, AreUsers};
    ghost use Rattle.server_users.specs.Stands.{entries_of};

    ghost Value = { List Entry };

    ghost view = { λ u. entries_of u.list.items };

    ghost invariant = { λ u. AreUsers (entries_of u.list.items) × (0 < vec_len u.list) };
}

// The first line without its line feed, and the rest, which begins with that line feed.
fn split_line(bytes: &[u8]) -> (&[u8], &[u8])
    ensures whole { bytes.now ≡ result.0.now ++ result.1.now }
    ensures line { IsLine result.0.now }
    ensures more { EndsLine result.1.now }
{
    let end = bytes
        .iter()
        .position(|byte| *byte == b'\n')
        .unwrap_or(bytes.len());
    bytes.split_at(end)
}

// The rest after a line, without the line feed that it begins with.
fn behind_feed(more: &[u8]) -> &[u8]
    ensures { result.now ≡ drop 1 more.now }
{
    match more.split_first() {
        Some((_, rest)) => rest,
        None => more,
    }
}

// Whether a user has this name.
fn has_name(users: &[User], name: &[u8]) -> bool
    ensures { IsTrue result ↔ Contains (names (entries_of users.now)) name.now }
{
    for user in users {
        if user.is_named(name) {
            return true;
        }
    }
    false
}

impl Users {
    /// Reads the users of a file. Each line is a name, one blank and 64 digits of `0` to `9`, `a` to
    /// `f`. No two lines have the same name. The last line may lack its line feed.
    pub fn read(alloc: Global, file: &[u8]) -> Result<Users, UsersFault>
        ensures ok { IfOk result (λ users. AreUsers users × IsFileOf users file.now) }
        ensures bad { IfErr result (Breaks file.now) }
    {
        let mut list: Vec<User> = Vec::new(alloc);
        let mut seen: IndexSet<UserId> = IndexSet::new(alloc);
        let mut rest = file;
        'lines: loop {
            if rest.is_empty() && !list.is_empty() {
                return Ok(Users { list });
            }
            let (line, more) = split_line(rest);
            let Some(user) = User::of_line(line) else {
                return Err(UsersFault::BadLine(list.len() + 1));
            };
            let is_new = seen.insert(user.id)?;
            if !is_new {
                return Err(UsersFault::BadLine(list.len() + 1));
            }
            list.push(user)?;
            rest = behind_feed(more);
        }
    }

    /// A copy of the users.
    pub fn copy(&self, alloc: Global) -> Result<Users, AllocError>
        ensures { IfOk result (λ copy. copy ≡ self.now) }
    {
        let mut list = Vec::with_capacity(alloc, self.list.len())?;
        for user in &self.list {
            list.push(user.copied())?;
        }
        Ok(Users { list })
    }

    /// The session's owner, who is the user of the first line.
    pub fn owner(&self) -> UserId
        ensures { slice_get (names self.now) 0 ≡ Some (name_of result) }
    {
        self.list[0].id
    }
}

// The user who has this name and this token.
fn holder(users: &[User], name: &[u8], token: &Token) -> Option<User>
    ensures some { IsSome result
        ↔ Contains (entries_of users.now) (record { name = name.now; token = token.now }) }
    ensures user { IfSome result (λ user.
        entry_of user ≡ record { name = name.now; token = token.now }) }
{
    for user in users {
        if user.shows(name, token) {
            return Some(user.copied());
        }
    }
    None
}

/// The user of this name, if the token is theirs. The time that this takes doesn't depend on where a
/// token differs.
pub fn authenticate(users: &Users, name: &[u8], token: &Token) -> Result<User, AuthFault>
    ensures ok { IsOk result ↔ Contains users.now (record { name = name.now; token = token.now }) }
    ensures user { IfOk result (λ user.
        entry_of user ≡ record { name = name.now; token = token.now }) }
    ensures refused { IfErr result (Refuses users.now name.now) }
{
    match holder(&users.list, name, token) {
        Some(user) => Ok(user),
        None if has_name(&users.list, name) => Err(AuthFault::BadToken),
        None => Err(AuthFault::BadUser),
    }
}
