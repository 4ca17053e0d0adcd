//! A line of the users' file.

ghost use Rattle.std.specs.Prelude.{◌≡◌, ◌↔◌, IsTrue, IfSome, None};
ghost use Rattle.acl.specs.Names.{name_of};
ghost use Rattle.server_users.specs.Entries.{Entry, IsUser, spelled};
ghost use Rattle.server_users.specs.Stands.{IsNamed, entry_of};

use acl::UserId;
use attach_proto::{TOKEN_LEN, Token};

/// A user who may connect, and the token that they show. Outside of this crate only `authenticate`
/// hands one out.
#[derive(Debug, Drop)]
pub struct User {
    pub(crate) id: UserId,
    pub(crate) token: Token,
}

/// A user who showed their token. Nothing but a `User` makes one.
#[derive(Clone, Copy, Debug, PartialEq, Eq)]
pub struct Shown {
    user: UserId,
}

impl Shown {
    /// The user who showed it.
    pub fn user(self) -> UserId
        ensures { result ≡ self.user }
    {
        self.user
    }
}

// The user of this name and this token, if the words are a name and a token.
fn user_of(name: &[u8], digits: &[u8]) -> Option<User>
    ensures some { IfSome result (λ u. IsUser (entry_of u)
        × (entry_of u ≡ record { name = name.now; token = digits.now })) }
    ensures named { IfSome result (λ u. IsNamed u.id) }
    ensures none { result ≡ None → IsUser (record { name = name.now; token = digits.now }) → ⊥ }
{
    let token = Token::read(digits)?;
    let id = UserId::of(name)?;
    Some(User { id, token })
}

impl User {
    /// That this user showed their token.
    pub fn shown(&self) -> Shown
        ensures { result.user ≡ self.now.id }
    {
        Shown { user: self.id }
    }

    /// The user whom a line spells: a name, one blank and a token.
    pub(crate) fn of_line(line: &[u8]) -> Option<User>
        ensures some { IfSome result (λ u.
            IsUser (entry_of u) × (spelled (entry_of u) ≡ line.now)) }
        ensures named { IfSome result (λ u. IsNamed u.id) }
        ensures none { result ≡ None → (u : Entry) → IsUser u → spelled u ≡ line.now → ⊥ }
    {
        if line.len() < TOKEN_LEN {
            return None;
        }
        let (front, digits) = line.split_at(line.len() - TOKEN_LEN);
        let (blank, name) = front.split_last()?;
        if *blank != b' ' {
            return None;
        }
        user_of(name, digits)
    }

    /// A copy of the user.
    pub(crate) fn copied(&self) -> User
        ensures { result ≡ self.now }
    {
        User {
            id: self.id,
            token: self.token.copied(),
        }
    }

    /// Whether the user has this name.
    pub fn is_named(&self, name: &[u8]) -> bool
        ensures { IsTrue result ↔ (name_of self.now.id ≡ name.now) }
    {
        self.id.as_bytes() == name
    }

    /// Whether the user has this name and this token. The time that this takes doesn't depend on where
    /// the tokens differ.
    pub fn shows(&self, name: &[u8], token: &Token) -> bool
        ensures { IsTrue result
            ↔ (entry_of self.now ≡ record { name = name.now; token = token.now }) }
    {
        self.is_named(name) && self.token.is(token)
    }
}
