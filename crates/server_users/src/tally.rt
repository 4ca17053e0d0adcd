//! How many clients or windows each user has.

ghost use Rattle.std.specs.Prelude.{◌≡◌, ◌<◌, ◌≤◌, ◌++◌, ◌∷◌, [], IfSome, Some, None, ℕ, length, vec_len, vec_capacity};
ghost use Rattle.std.specs.List.{position};
ghost use Rattle.acl.specs.Same.{same_user};
ghost use Rattle.acl.specs.History.{without_user};
ghost use Rattle.server_users.specs.Accounts.{guests_of};

use acl::UserId;
use std::alloc::Global;

/// The clients of a session or its windows, by their users, and how many of them one user may have.
#[derive(Debug, Drop)]
pub struct Tally {
    // None if only the session bounds them: then nothing is counted.
    most: Option<u8>,
    // The user of each.
    guests: Vec<UserId>,
}

fn count_of(guests: &[UserId], user: UserId) -> usize
    ensures { result ≡ guests_of guests.now user }
{
    guests.iter().filter(|guest| user == **guest).count()
}

// The place of the first that is this user's.
fn place_of(guests: &[UserId], user: UserId) -> Option<usize>
    ensures place { result ≡ position (same_user user) guests.now }
    ensures within { IfSome result (λ place. place < length guests.now) }
{
    guests.iter().position(|guest| user == *guest)
}

impl Tally {
    /// A tally of a session in which nobody has a client or window yet, of which one user may have at
    /// most this number.
    pub fn new(alloc: Global, most: Option<u8>) -> Tally
        ensures none { result.guests.items ≡ [] }
        ensures most { result.most ≡ most }
    {
        Tally {
            most,
            guests: Vec::new(alloc),
        }
    }

    /// Counts one more of a user, unless they have as many as a user may have, or there is no memory
    /// for one more. Then the answer is how many a user may have.
    pub fn add(&mut self, user: UserId) -> Option<u8>
        ensures most { self.new.most ≡ self.old.most }
        ensures unbounded { self.old.most ≡ None
            → (result ≡ None) × (self.new.guests.items ≡ self.old.guests.items) }
        ensures counted { (most : ℕ) → self.old.most ≡ Some most → result ≡ None
            → (guests_of self.old.guests.items user < most)
            × (self.new.guests.items ≡ self.old.guests.items ++ user ∷ []) }
        ensures refused { IfSome result (λ most. (self.old.most ≡ Some most)
            × (self.new.guests.items ≡ self.old.guests.items)) }
        // If there is room for one more in memory, the user has as many as a user may have.
        ensures full { IfSome result (λ most. vec_len self.old.guests < vec_capacity self.old.guests
            → most ≤ guests_of self.old.guests.items user) }
    {
        let Some(most) = self.most else {
            return None;
        };
        if count_of(&self.guests, user) >= usize::from(most) || self.guests.push(user).is_err() {
            return Some(most);
        }
        None
    }

    /// Counts one less of a user.
    pub fn remove(&mut self, user: UserId)
        ensures gone { self.new.guests.items ≡ without_user user self.old.guests.items }
        ensures most { self.new.most ≡ self.old.most }
    {
        if let Some(place) = place_of(&self.guests, user) {
            let _ = self.guests.remove(place);
        }
    }
}
