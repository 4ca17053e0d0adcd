//! What is counted of users and of windows, under the lock of all loops.

ghost use Rattle.std.specs.Prelude.{◌≡◌, ◌<◌, ℕ, IfSome, None, [], length, option_map};
ghost use Rattle.std.specs.List.{position};
ghost use Rattle.acl.specs.History.{without_user};
ghost use Rattle.acl.specs.Same.{same_user};
ghost use Rattle.acl.specs.declared.user_id.UserId.{UserId as User};
ghost use Rattle.server_users.specs.Accounts.{guests_of};
ghost use Rattle.server_session.specs.Counting.{Adds, FindsFull, HasAdded, HasPaid, HasSettled, IsLoaded, Removes};
ghost use Rattle.server_session.specs.Counting.{load_of, load_opened, once_more, purse_of};
ghost use Rattle.server_session.specs.Loading.{looked_at, with_typed};

use crate::loads::Loads;
use acl::UserId;
use hub::{Begun, Seat};
use server_seat::GuestKind;
use server_users::{Allowances, Outcome};
use std::alloc::Global;

/// How many clients and windows one user may have; None if only the session bounds them.
#[derive(Clone, Copy, Debug, PartialEq, Eq)]
pub struct Limits {
    pub clients: Option<u8>,
    pub windows: Option<u8>,
}

impl Limits {
    /// No bounds but the session's.
    pub fn none() -> Limits {
        Limits {
            clients: None,
            windows: None,
        }
    }
}

/// The calls by which a loop has counted something, counted round at 2 ^ 64: a second one shows.
#[derive(Drop)]
pub struct Calls {
    count: u64,
}

impl Calls {
    /// No call yet, of the loop that has this seat: without a seat of its own nothing else makes calls.
    pub(crate) fn of<L: Begun>(seat: Seat<L>) -> (Seat<L>, Calls)
        ensures { result.0 ≡ seat }
    {
        (seat, Calls { count: 0 })
    }

    pub(crate) fn note(&mut self)
        ensures { self.new ≡ once_more self.old }
    {
        self.count = self.count.wrapping_add(1);
    }
}

/// What is counted. Each relation is shown by a call of its function alone, so an answer that is given
/// without a call shows nothing.
pub trait Counting {
    ghost use Rattle.std.specs.Prelude.{ℕ, Bool, Option};
    ghost use Rattle.acl.specs.declared.user_id.UserId.{UserId as User};
    ghost use Rattle.server_seat.specs.declared.seat.GuestKind.{GuestKind as Kind};
    ghost use Rattle.server_users.specs.declared.allowance.Outcome.{Outcome as CameOf};
    ghost use Rattle.server_session.specs.Counting.{once_more};
    ghost use Rattle.server_session.specs.declared.books.Limits.{Limits as Bounds};

    // A user, the time in milliseconds, a cost, and whether it was paid.
    ghost pays: { Self → User → ℕ → ℕ → Bool → Self → Type 0 };

    // A user, a cost, and what came of the step.
    ghost settles: { Self → User → ℕ → CameOf → Self → Type 0 };

    // A user, a kind, the limits, and how many a user may have if one more wasn't counted.
    ghost adds: { Self → User → Kind → Bounds → Option ℕ → Self → Type 0 };

    ghost removes: { Self → User → Kind → Self → Type 0 };

    // A window, and whether there was memory to count for it.
    ghost opens: { Self → ℕ → Bool → Self → Type 0 };

    ghost closes: { Self → ℕ → Self → Type 0 };

    // A window, and how many bytes were typed into it.
    ghost types_in: { Self → ℕ → ℕ → Self → Type 0 };

    // A window, and whether much waits for it.
    ghost sets_full: { Self → ℕ → Bool → Self → Type 0 };

    // A window, and whether what is typed into it next has to wait.
    ghost finds_full: { Self → ℕ → Bool → Type 0 };

    /// Pays for a step that a user is about to try, as `Allowances::pay` does.
    fn pay(&mut self, calls: &mut Calls, user: UserId, now: u64, cost: u32) -> bool
        ensures paid { pays self.old user now cost result self.new }
        ensures once { calls.new ≡ once_more calls.old };

    /// Settles what came of a step that was paid for, as `Allowances::settle` does.
    fn settle(&mut self, calls: &mut Calls, user: UserId, cost: u32, outcome: Outcome)
        ensures settled { settles self.old user cost outcome self.new }
        ensures once { calls.new ≡ once_more calls.old };

    /// Counts one more client or window of a user, by these limits; else the answer is how many a user may have.
    fn add(&mut self, calls: &mut Calls, user: UserId, kind: GuestKind, by: Limits) -> Option<u8>
        ensures added { adds self.old user kind by result self.new }
        ensures once { calls.new ≡ once_more calls.old };

    /// Counts one client or window less of a user.
    fn remove(&mut self, calls: &mut Calls, user: UserId, kind: GuestKind)
        ensures removed { removes self.old user kind self.new }
        ensures once { calls.new ≡ once_more calls.old };

    /// A window opened. Returns whether there is memory to count for it.
    fn open(&mut self, calls: &mut Calls, window: u32) -> bool
        ensures opened { opens self.old window result self.new }
        ensures once { calls.new ≡ once_more calls.old };

    /// A window is gone.
    fn close(&mut self, calls: &mut Calls, window: u32)
        ensures closed { closes self.old window self.new }
        ensures once { calls.new ≡ once_more calls.old };

    /// Counts bytes that a step typed into a window.
    fn type_in(&mut self, calls: &mut Calls, window: u32, bytes: usize)
        ensures typed { types_in self.old window bytes self.new }
        ensures once { calls.new ≡ once_more calls.old };

    /// A window's loop looked at what waits for it: whether that is much.
    fn set_full(&mut self, calls: &mut Calls, window: u32, is_full: bool)
        ensures told { sets_full self.old window is_full self.new }
        ensures once { calls.new ≡ once_more calls.old };

    /// Whether what is typed into a window has to wait.
    fn is_full(&self, window: u32) -> bool
        ensures { finds_full self.now window result };
}

/// What each user may still try in vain, how many clients and windows they have and may have, and how much was
/// typed into each window.
#[derive(Drop)]
pub struct Books {
    pub(crate) limits: Limits,
    allowances: Allowances,
    // The user of each client, and of each window. Nothing is counted that only the session bounds.
    clients: Vec<UserId>,
    windows: Vec<UserId>,
    loads: Loads,
}

fn count_of(guests: &[UserId], user: UserId) -> usize
    ensures { result ≡ guests_of guests.now user }
{
    guests.iter().filter(|guest| user == **guest).count()
}

// The place of the first that is this user's.
fn place_of(guests: &[UserId], user: UserId) -> Option<usize>
    ensures place { result ≡ position (same_user user) guests.now }
    ensures within { IfSome result (λ place. place < length guests.now) }
{
    guests.iter().position(|guest| user == *guest)
}

// Counts one more guest of a user, unless they have this many or memory is refused: then the answer is this many.
fn add(guests: &mut Vec<UserId>, user: UserId, most: Option<u8>) -> Option<u8>
    ensures { HasAdded guests.old user most result guests.new }
{
    let most = most?;
    if count_of(guests, user) >= usize::from(most) || guests.push(user).is_err() {
        return Some(most);
    }
    None
}

// Counts one guest less of a user.
fn remove(guests: &mut Vec<UserId>, user: UserId)
    ensures { guests.new.items ≡ without_user user guests.old.items }
{
    if let Some(place) = place_of(guests, user) {
        let _ = guests.remove(place);
    }
}

impl Books {
    /// Nobody has tried or opened anything yet in the session of this owner.
    pub fn new(alloc: Global, owner: UserId, limits: Limits) -> Books
        ensures limits { result.limits ≡ limits }
        ensures guests { (result.clients.items ≡ []) × (result.windows.items ≡ []) }
        ensures purses { (user : User) → purse_of result user ≡ None }
        ensures loads { (window : ℕ) → load_of result window ≡ None }
        ensures owner { result.allowances.owner ≡ owner }
    {
        Books {
            limits,
            allowances: Allowances::new(alloc, owner),
            clients: Vec::new(alloc),
            windows: Vec::new(alloc),
            loads: Loads::new(alloc),
        }
    }
}

impl Counting for Books {
    ghost pays = { λ old user now cost is_paid new. HasPaid old user now cost is_paid new };

    ghost settles = { λ old user cost outcome new. HasSettled old user cost outcome new };

    ghost adds = { λ old user kind limits most new. Adds old user kind limits most new };

    ghost removes = { λ old user kind new. Removes old user kind new };

    ghost opens = { λ old window done new. IsLoaded old window (load_opened done (load_of old window)) new };

    ghost closes = { λ old window new. IsLoaded old window None new };

    ghost types_in = { λ old window bytes new.
        IsLoaded old window (option_map (with_typed bytes) (load_of old window)) new };

    ghost sets_full = { λ old window full new.
        IsLoaded old window (option_map (looked_at full) (load_of old window)) new };

    ghost finds_full = { λ books window full. FindsFull books window full };

    fn pay(&mut self, calls: &mut Calls, user: UserId, now: u64, cost: u32) -> bool {
        calls.note();
        self.allowances.pay(user, now, cost)
    }

    fn settle(&mut self, calls: &mut Calls, user: UserId, cost: u32, outcome: Outcome) {
        calls.note();
        self.allowances.settle(user, cost, outcome);
    }

    fn add(&mut self, calls: &mut Calls, user: UserId, kind: GuestKind, by: Limits) -> Option<u8> {
        calls.note();
        match kind {
            GuestKind::Client => add(&mut self.clients, user, by.clients),
            GuestKind::Window => add(&mut self.windows, user, by.windows),
        }
    }

    fn remove(&mut self, calls: &mut Calls, user: UserId, kind: GuestKind) {
        calls.note();
        match kind {
            GuestKind::Client => remove(&mut self.clients, user),
            GuestKind::Window => remove(&mut self.windows, user),
        }
    }

    fn open(&mut self, calls: &mut Calls, window: u32) -> bool {
        calls.note();
        self.loads.open(window).is_ok()
    }

    fn close(&mut self, calls: &mut Calls, window: u32) {
        calls.note();
        self.loads.close(window);
    }

    fn type_in(&mut self, calls: &mut Calls, window: u32, bytes: usize) {
        calls.note();
        self.loads.add(window, bytes);
    }

    fn set_full(&mut self, calls: &mut Calls, window: u32, is_full: bool) {
        calls.note();
        self.loads.set(window, is_full);
    }

    fn is_full(&self, window: u32) -> bool {
        self.loads.is_full(window)
    }
}
