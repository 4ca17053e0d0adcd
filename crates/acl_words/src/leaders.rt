//! The leaders of a user, and the edition, which says how many a user may have.

ghost use Rattle.std.specs.Prelude.{◌≡◌, ◌<◌, ◌≤◌, ◌∷◌, ◌++◌, [], None, Some, length, nat_le, if◌then◌else◌};
ghost use Rattle.acl_words.specs.Leaders.{among, leaders_with, remaining_leaders};

use crate::user_id::UserId;
use std::marker::Model;

/// A session's edition decides how many groups a user may be in.
#[derive(Clone, Copy, PartialEq, Eq, Debug)]
pub enum Edition {
    /// One group: a new leader takes the former one's place.
    First,
    /// Up to eight groups, each with a leader, in the order in which they were named.
    Second,
}

/// The most leaders that a user may have.
const MOST: usize = 8;

/// A user's leaders, at most eight, in the order in which they were named.
#[derive(Clone, Copy, PartialEq, Eq, Debug)]
pub struct Leaders {
    names: [UserId; MOST],
    count: usize,
}

/// Whether the user is one of these.
fn is_among(users: &[UserId], user: UserId) -> bool
    ensures { result ≡ among users.now user }
{
    users.iter().any(|other| user == *other)
}

impl Model for Leaders {
    ghost use Rattle.std.specs.Prelude.{List, ◌≤◌, take, length};
    ghost use Rattle.acl_words.specs.declared.user_id.UserId.{UserId};
    ghost use Rattle.acl_words.specs.Leaders.{AreFront, array_of, array_of-take, length-front};

    ghost Value = { List UserId };

    ghost view = { λ l. take l.count l.names };

    ghost invariant = { λ l. AreFront l.count l.names };

    ghost inverse = { λ xs. record { names = array_of xs; count = length xs } };

    ghost inverse_ok = { λ a h i. record {
      names = array_of-take a.count a.names h i;
      count = length-front a.count a.names h i;
    } };
}

impl Leaders {
    /// No leaders.
    pub fn none() -> Leaders
        ensures { result ≡ [] }
    {
        Leaders {
            names: [UserId::BLANK; MOST],
            count: 0,
        }
    }

    /// The leaders, in the order in which they were named.
    pub fn as_slice(&self) -> &[UserId]
        ensures names { result.now ≡ self.now }
        ensures few { length result.now ≤ 8 }
    {
        &self.names[..self.count]
    }

    /// Whether the user is one of the leaders.
    fn has(&self, user: UserId) -> bool
        ensures { result ≡ among self.now user }
    {
        is_among(self.as_slice(), user)
    }

    /// Puts a leader at the end; there is room for one.
    fn push(&mut self, leader: UserId)
        requires { length self.old < 8 }
        ensures { self.new ≡ self.old ++ leader ∷ [] }
    {
        self.names[self.count] = leader;
        self.count += 1;
    }

    /// The leaders with this one at the end; `None` if there are eight already.
    fn and(self, leader: UserId) -> Option<Leaders>
        ensures { result ≡ (if nat_le (length (self ++ leader ∷ [])) 8
            then Some (self ++ leader ∷ []) else None) }
    {
        if self.as_slice().len() >= MOST {
            return None;
        }
        let mut more = self;
        more.push(leader);
        Some(more)
    }

    /// The leaders after the user is given this one, or none, in this edition; `None` if there
    /// would be more than eight.
    pub fn with(self, edition: Edition, leader: Option<UserId>) -> Option<Leaders>
        ensures { result ≡ (if nat_le (length (leaders_with edition leader self)) 8
            then Some (leaders_with edition leader self) else None) }
    {
        let Some(leader) = leader else {
            return Some(Leaders::none());
        };
        match edition {
            Edition::First => Leaders::none().and(leader),
            Edition::Second => if self.has(leader) {
                Some(self)
            } else {
                self.and(leader)
            },
        }
    }

    /// The leaders, without this one.
    pub fn without(self, gone: UserId) -> Leaders
        ensures { result ≡ remaining_leaders gone self }
    {
        let mut left = Leaders::none();
        for leader in self.as_slice() {
            if !(gone == *leader) {
                left.push(*leader);
            }
        }
        left
    }
}
