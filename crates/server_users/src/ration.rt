//! How many entries of the trail a user may cause.

ghost use Rattle.std.specs.Prelude.{◌≡◌, ◌↔◌, ◌*◌, ◌<◌, IfSome, IsTrue, Some, None, true, false, length};
ghost use Rattle.std.specs.Prelude.{option_map, unwrap_or, vec_len, vec_capacity};
ghost use Rattle.std.specs.Duration.{as_nanos};
ghost use Rattle.std.specs.List.{position};
ghost use Rattle.acl.specs.Same.{same_user};
ghost use Rattle.acl.specs.declared.user_id.UserId.{UserId};
ghost use Rattle.server_users.specs.declared.ration.Ration.{Ration};
ghost use Rattle.server_users.specs.Rationed.{MayCause, end_of, later_end};

use acl::UserId;
use std::alloc::Global;
use std::time::Duration;

// At most this many more come at once, by each loop.
const BURST: u32 = 8_192;

/// When the entries that a user caused would end if each took `period`.
#[derive(Clone, Copy, Debug)]
pub struct Ration {
    user: UserId,
    until: Duration,
}

/// What each user may still cause. A user who has no ration hasn't caused anything yet.
#[derive(Drop)]
pub struct Rations {
    list: Vec<Ration>,
    // The time of one entry, by this loop.
    period: Duration,
}

// The place of a user's ration.
fn place_of(list: &[Ration], user: UserId) -> Option<usize>
    ensures place { result ≡ position (λ (r : Ration). same_user r.user user) list.now }
    ensures within { IfSome result (λ place. place < length list.now) }
{
    list.iter().position(|ration| ration.user == user)
}

impl Ration {
    // Whether at this time so little is left of the entries that one more may come.
    fn has_room(&self, now: Duration, period: Duration) -> bool
        ensures { IsTrue result ↔ MayCause (as_nanos now) (as_nanos period) (as_nanos self.now.until) }
    {
        let left = self.until.saturating_sub(now);
        left.as_nanos() <= period.saturating_mul(BURST).as_nanos()
    }

    // Counts this many more, from this time on or after those that are left.
    fn count(&mut self, now: Duration, period: Duration, entries: u32)
        ensures until { as_nanos self.new.until
            ≡ later_end (as_nanos now) (as_nanos period) entries (as_nanos self.old.until) }
        ensures user { self.new.user ≡ self.old.user }
    {
        let left = self.until.saturating_sub(now);
        let taken = period.saturating_mul(entries);
        self.until = now.saturating_add(left).saturating_add(taken);
    }
}

impl Rations {
    /// The rations of one of this many loops, of which nothing is taken yet.
    pub fn new(alloc: Global, loops: usize) -> Rations
        ensures none { (u : UserId) → end_of result.list.items u ≡ None }
        ensures period { as_nanos result.period ≡ loops * 1000000 }
    {
        Rations {
            list: Vec::new(alloc),
            // In the long run a user causes at most one entry a millisecond, by all loops together.
            period: Duration::from_millis(loops as u64),
        }
    }

    /// Whether a user may cause one more entry now. If there is no memory to count it, the user has to
    /// wait.
    pub fn may(&mut self, user: UserId, now: Duration) -> bool
        ensures may { result ≡ true → MayCause (as_nanos now) (as_nanos self.old.period)
            (unwrap_or (end_of self.old.list.items user) 0) }
        ensures waits { result ≡ false → IfSome (end_of self.old.list.items user)
            (λ end. ¬ (MayCause (as_nanos now) (as_nanos self.old.period) end)) }
        // A user without a ration may if there is room for one more ration in memory.
        ensures room { end_of self.old.list.items user ≡ None
            → vec_len self.old.list < vec_capacity self.old.list → result ≡ true }
        // What the user causes is counted from now on.
        ensures own { result ≡ true → end_of self.new.list.items user
            ≡ Some (unwrap_or (end_of self.old.list.items user) 0) }
        ensures same { result ≡ false → end_of self.new.list.items user
            ≡ end_of self.old.list.items user }
        ensures others { (u : UserId) → (u ≡ user → ⊥)
            → end_of self.new.list.items u ≡ end_of self.old.list.items u }
        ensures period { self.new.period ≡ self.old.period }
    {
        if let Some(place) = place_of(&self.list, user) {
            return self.list[place].has_room(now, self.period);
        }
        let until = Duration::ZERO;
        match self.list.push(Ration { user, until }) {
            Ok(()) => true,
            Err(_) => false,
        }
    }

    /// Counts entries of a user who may cause them. It takes no memory.
    pub fn count(&mut self, user: UserId, now: Duration, entries: u32)
        ensures own { end_of self.new.list.items user
            ≡ option_map (later_end (as_nanos now) (as_nanos self.old.period) entries)
            (end_of self.old.list.items user) }
        ensures others { (u : UserId) → (u ≡ user → ⊥)
            → end_of self.new.list.items u ≡ end_of self.old.list.items u }
        ensures period { self.new.period ≡ self.old.period }
    {
        let period = self.period;
        if let Some(place) = place_of(&self.list, user) {
            self.list[place].count(now, period, entries);
        }
    }
}
