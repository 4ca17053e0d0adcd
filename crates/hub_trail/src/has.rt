//! Whether the acts of an entry contain the act of what its event did.

ghost use Rattle.std.specs.Prelude.{◌≡◌, ◌↔◌, ℕ, List, true};
ghost use Rattle.std.specs.List.{list_any};
ghost use Rattle.acl.specs.declared.user_id.UserId.{UserId};
ghost use Rattle.acl.specs.History.{History};
ghost use Rattle.hub_trail.specs.Legal.{is_act_of, has_act_of, HasItsActs};
ghost use Rattle.hub_trail.specs.Legal.{is_attached, is_parted, is_opened, is_closed};
ghost use Rattle.hub_trail.specs.declared.kept.Kept.TheVariants as kept;

use crate::kept::Ending;
use acl::{Act, UserId};

/// Whether the act makes the user known or gone, or changes the user's entries or leaders.
fn is_act_of(act: Act, user: UserId) -> bool
    ensures { result ≡ is_act_of user act }
{
    match act {
        Act::Known { user: named }
        | Act::Gone { user: named }
        | Act::Set { user: named, .. }
        | Act::Grouped { user: named, .. } => named == user,
        _ => false,
    }
}

/// Whether one of the acts is on the user.
fn has_any_of(acts: &[Act], user: UserId) -> bool
    ensures { result ≡ list_any (is_act_of user) acts.now }
{
    acts.iter().any(|act| is_act_of(*act, user))
}

/// Whether one of the acts is on the named user; false if the word is no name.
pub fn has_act_of(acts: &[Act], name: Option<UserId>) -> bool
    ensures { result ≡ has_act_of acts.now name }
{
    match name {
        Some(user) => has_any_of(acts, user),
        None => false,
    }
}

/// Whether the acts attach the client, if the Attach was done.
pub fn has_come(ending: &Ending, acts: &[Act], user: UserId) -> bool
    ensures { (owner : UserId) (h : History) (rows columns : ℕ) → (result ≡ true)
        ↔ HasItsActs owner h (kept.Attach user rows columns) ending.now acts.now }
{
    match ending {
        Ok(done) => have_attached(acts, done.made, user),
        Err(_) => true,
    }
}

/// Whether the acts let the client go, if the Detach was done.
pub fn has_gone(ending: &Ending, acts: &[Act], client: u32) -> bool
    ensures { (owner : UserId) (h : History) → (result ≡ true)
        ↔ HasItsActs owner h (kept.Detach client) ending.now acts.now }
{
    match ending {
        Ok(_) => have_parted(acts, client),
        Err(_) => true,
    }
}

/// Whether the acts open the window, if the Open was done.
pub fn has_opened(ending: &Ending, acts: &[Act], user: UserId) -> bool
    ensures { (owner : UserId) (h : History) (rows columns keep : ℕ) (title : List ℕ) →
        (result ≡ true)
        ↔ HasItsActs owner h (kept.Open user rows columns keep title) ending.now acts.now }
{
    match ending {
        Ok(done) => have_opened(acts, done.made, user),
        Err(_) => true,
    }
}

/// Whether the acts close the window, if the Closed was done.
pub fn has_closed(ending: &Ending, acts: &[Act], window: u32) -> bool
    ensures { (owner : UserId) (h : History) → (result ≡ true)
        ↔ HasItsActs owner h (kept.Closed window) ending.now acts.now }
{
    match ending {
        Ok(_) => have_closed(acts, window),
        Err(_) => true,
    }
}

/// Whether the act attaches this client of the user.
fn is_attached(act: Act, client: u32, user: UserId) -> bool
    ensures { result ≡ is_attached client user act }
{
    match act {
        Act::Attached {
            client: named,
            user: other,
        } => named == client && other == user,
        _ => false,
    }
}

/// Whether this client goes by the act.
fn is_parted(act: Act, client: u32) -> bool
    ensures { result ≡ is_parted client act }
{
    match act {
        Act::Parted { client: named } => named == client,
        _ => false,
    }
}

/// Whether the user opens this window by the act.
fn is_opened(act: Act, window: u32, user: UserId) -> bool
    ensures { result ≡ is_opened window user act }
{
    match act {
        Act::Opened { by, window: named } => named == window && by == user,
        _ => false,
    }
}

/// Whether this window is closed by the act.
fn is_closed(act: Act, window: u32) -> bool
    ensures { result ≡ is_closed window act }
{
    match act {
        Act::Closed { window: named } => named == window,
        _ => false,
    }
}

/// Whether one of the acts attaches this client of the user.
fn have_attached(acts: &[Act], client: u32, user: UserId) -> bool
    ensures { result ≡ list_any (is_attached client user) acts.now }
{
    acts.iter().any(|act| is_attached(*act, client, user))
}

/// Whether this client goes by one of the acts.
fn have_parted(acts: &[Act], client: u32) -> bool
    ensures { result ≡ list_any (is_parted client) acts.now }
{
    acts.iter().any(|act| is_parted(*act, client))
}

/// Whether the user opens this window by one of the acts.
fn have_opened(acts: &[Act], window: u32, user: UserId) -> bool
    ensures { result ≡ list_any (is_opened window user) acts.now }
{
    acts.iter().any(|act| is_opened(*act, window, user))
}

/// Whether this window is closed by one of the acts.
fn have_closed(acts: &[Act], window: u32) -> bool
    ensures { result ≡ list_any (is_closed window) acts.now }
{
    acts.iter().any(|act| is_closed(*act, window))
}
