//! Which acts an Attach, an Open and a Closed can have.

ghost use Rattle.std.specs.Prelude.{◌≡◌};
ghost use Rattle.std.specs.List.{list_all};
ghost use Rattle.hub_trail.specs.Fitting.{enters_once, attaches_one, opens_one, shuts};

use acl::{Act, UserId};

/// Whether the acts let the user enter at most one window, and do nothing else.
fn enters_once(user: UserId, acts: &[Act]) -> bool
    ensures { result ≡ enters_once user acts.now }
{
    match acts {
        [] => true,
        [Act::Entered { user: entered, .. }] => *entered == user,
        _ => false,
    }
}

/// Whether the acts attach this client of the user, who then enters at most one window.
pub fn attaches_one(client: u32, user: UserId, acts: &[Act]) -> bool
    ensures { result ≡ attaches_one client user acts.now }
{
    match acts {
        [
            Act::Attached {
                client: attached,
                user: named,
            },
            rest @ ..,
        ] => *attached == client && *named == user && enters_once(user, rest),
        _ => false,
    }
}

/// Whether the user opens this window by the acts, and does nothing else.
pub fn opens_one(window: u32, user: UserId, acts: &[Act]) -> bool
    ensures { result ≡ opens_one window user acts.now }
{
    match acts {
        [Act::Opened { by, window: opened }] => *opened == window && *by == user,
        _ => false,
    }
}

/// Whether this window closes by the act, or a user leaves it.
fn shuts(window: u32, act: Act) -> bool
    ensures { result ≡ shuts window act }
{
    match act {
        Act::Closed { window: closed } => closed == window,
        Act::Left { window: left, .. } => left == window,
        _ => false,
    }
}

/// Whether each act closes this window, or lets a user leave it.
pub fn all_shut(window: u32, acts: &[Act]) -> bool
    ensures { result ≡ list_all (shuts window) acts.now }
{
    acts.iter().all(|act| shuts(window, *act))
}
