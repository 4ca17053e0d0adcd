//! What each user may still try.

ghost use Rattle.std.specs.Prelude.{◌≡◌, ◌<◌, IfSome, IfOk, OnErr, Some, None, length, true, false};
ghost use Rattle.std.specs.Prelude.{option_map, unwrap_or, IsOk, vec_len, vec_capacity};
ghost use Rattle.std.specs.List.{position};
ghost use Rattle.acl.specs.Same.{same_user};
ghost use Rattle.acl.specs.declared.user_id.UserId.{UserId};
ghost use Rattle.server_users.specs.declared.allowances.Account.{Account};
ghost use Rattle.server_users.specs.Allowances.{MayPay, fresh, paid, settled, stands_at};
ghost use Rattle.server_users.specs.Accounts.{account_of, judged, IsFirst};

use crate::allowance::{Allowance, Outcome};
use acl::UserId;
use std::alloc::{AllocError, Global};

/// A user who tried something, and what they may still try.
#[derive(Debug, Drop)]
pub struct Account {
    user: UserId,
    allowance: Allowance,
}

/// What each user may still try. A user who has no account hasn't tried anything yet.
#[derive(Debug, Drop)]
pub struct Allowances {
    // The session's owner.
    owner: UserId,
    accounts: Vec<Account>,
}

// The place of a user's account.
fn place_of(accounts: &[Account], user: UserId) -> Option<usize>
    ensures place { result ≡ position (λ (a : Account). same_user a.user user) accounts.now }
    ensures within { IfSome result (λ place. place < length accounts.now) }
{
    accounts.iter().position(|account| account.user == user)
}

// What an outcome counts as for this user. What the owner has done costs as little as typing.
fn judged(owner: UserId, user: UserId, outcome: Outcome) -> Outcome
    ensures { result ≡ judged owner user outcome }
{
    match outcome {
        Outcome::Unchecked | Outcome::Granted if user == owner => Outcome::Typed,
        outcome => outcome,
    }
}

impl Allowances {
    /// The allowances in a session of this owner in which nobody has tried anything yet.
    pub fn new(alloc: Global, owner: UserId) -> Allowances
        ensures none { (u : UserId) → account_of result.accounts.items u ≡ None }
        ensures owner { result.owner ≡ owner }
    {
        Allowances {
            owner,
            accounts: Vec::new(alloc),
        }
    }

    // The place of a user's account, which is opened if there is none.
    fn open(&mut self, user: UserId) -> Result<usize, AllocError>
        ensures place { IfOk result
            (IsFirst (λ (a : Account). same_user a.user user) self.new.accounts.items) }
        ensures within { IfOk result (λ place. place < length self.new.accounts.items) }
        ensures own { IfOk result (λ place. account_of self.new.accounts.items user
            ≡ Some (unwrap_or (account_of self.old.accounts.items user) fresh)) }
        ensures others { (u : UserId) → (u ≡ user → ⊥)
            → account_of self.new.accounts.items u ≡ account_of self.old.accounts.items u }
        ensures owner { self.new.owner ≡ self.old.owner }
        ensures err { OnErr result ((self.new.accounts.items ≡ self.old.accounts.items)
            × (account_of self.old.accounts.items user ≡ None)) }
        ensures room { vec_len self.old.accounts < vec_capacity self.old.accounts → IsOk result }
    {
        if let Some(place) = place_of(&self.accounts, user) {
            return Ok(place);
        }
        let place = self.accounts.len();
        self.accounts.push(Account {
            user,
            allowance: Allowance::new(),
        })?;
        Ok(place)
    }

    /// Pays for a step that a user is about to try at this time, in milliseconds. The answer is
    /// whether it did. If not, the user has to wait: all is spent that they may spend, or used that they
    /// may use, or there is no memory for their account.
    pub fn pay(&mut self, user: UserId, now: u64, cost: u32) -> bool
        ensures others { (u : UserId) → (u ≡ user → ⊥)
            → account_of self.new.accounts.items u ≡ account_of self.old.accounts.items u }
        ensures paid { result ≡ true → account_of self.new.accounts.items user
            ≡ Some (paid cost (stands_at now (unwrap_or (account_of self.old.accounts.items user) fresh))) }
        ensures unpaid { result ≡ false → account_of self.new.accounts.items user
            ≡ option_map (stands_at now) (account_of self.old.accounts.items user) }
        ensures may { result ≡ true
            → MayPay (stands_at now (unwrap_or (account_of self.old.accounts.items user) fresh)) }
        // A user without an account pays if there is room for one more account in memory.
        ensures room { account_of self.old.accounts.items user ≡ None
            → vec_len self.old.accounts < vec_capacity self.old.accounts → result ≡ true }
        ensures waits { result ≡ false → IfSome (account_of self.old.accounts.items user)
            (λ purse. ¬ (MayPay (stands_at now purse))) }
        ensures owner { self.new.owner ≡ self.old.owner }
    {
        match self.open(user) {
            Ok(place) => self.accounts[place].allowance.pay(now, cost),
            Err(_) => false,
        }
    }

    /// Settles what came of a step that a user paid for.
    pub fn settle(&mut self, user: UserId, cost: u32, outcome: Outcome)
        ensures own { account_of self.new.accounts.items user
            ≡ option_map (settled (judged self.old.owner user outcome) cost)
            (account_of self.old.accounts.items user) }
        ensures others { (u : UserId) → (u ≡ user → ⊥)
            → account_of self.new.accounts.items u ≡ account_of self.old.accounts.items u }
        ensures owner { self.new.owner ≡ self.old.owner }
    {
        let outcome = judged(self.owner, user, outcome);
        if let Some(place) = place_of(&self.accounts, user) {
            self.accounts[place].allowance.settle(cost, outcome);
        }
    }
}
