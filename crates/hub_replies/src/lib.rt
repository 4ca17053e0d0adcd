//! Whether the reply of an entry fits the verdict that failed.
#![tactic(auto)]

ghost use Rattle.std.specs.Prelude.{◌≡◌, ◌↔◌, true, false};
ghost use Rattle.std.specs.Option.{option_map_or};
ghost use Rattle.hub_trail.specs.Legal.{is_denial, is_named, is_of, denies, CarriesFailed, IsDenied};

use acl::Object;
use hub_trail::{Ending, Kept};
use session::{Denied, Refusal, Verdict};

/// Whether the refusal denies a right or a lock.
fn is_denial(refusal: &Refusal) -> bool
    ensures { result ≡ is_denial refusal.now }
{
    matches!(refusal, Refusal::EntryDenied(_) | Refusal::LockDenied(_))
}

/// Whether a denial names this object.
fn is_named(denied: Denied, object: Object) -> bool
    ensures { result ≡ is_named denied object }
{
    match (denied, object) {
        (Denied::Window { serial, .. }, Object::Window(window)) => serial == window,
        (Denied::Command(denied), Object::Command(asked)) => denied == asked,
        (Denied::Window { .. }, Object::Command(_)) => false,
        (Denied::Command(_), Object::Window(_)) => false,
    }
}

/// Whether a refusal denies what this verdict refuses.
fn is_of(refusal: &Refusal, verdict: Verdict) -> bool
    ensures { result ≡ is_of refusal.now verdict }
{
    match verdict {
        Verdict::Right {
            user,
            bit,
            object,
            ..
        } => match refusal {
            Refusal::EntryDenied(denied) => {
                denied.user == user && denied.bit == bit && is_named(denied.on, object)
            }
            _ => false,
        },
        Verdict::Lock {
            window,
            holder: Some(holder),
            ..
        } => match refusal {
            Refusal::LockDenied(denied) => denied.serial == window && denied.holder == holder,
            _ => false,
        },
        Verdict::Lock { holder: None, .. } => false,
    }
}

/// Whether a reply that denies carries the verdict that failed. True of other replies.
pub fn carries_failed(failed: Option<Verdict>, ending: &Ending) -> bool
    ensures { (result ≡ true) ↔ CarriesFailed failed ending.now }
{
    match ending {
        Ok(_) => true,
        Err(refusal) => !is_denial(refusal) || is_of_some(refusal, failed),
    }
}

/// Whether there is a verdict, and the refusal denies what it refuses.
fn is_of_some(refusal: &Refusal, failed: Option<Verdict>) -> bool
    ensures { result ≡ option_map_or (is_of refusal.now) failed false }
{
    match failed {
        Some(verdict) => is_of(refusal, verdict),
        None => false,
    }
}

/// Whether the reply denies a right or a lock.
fn denies(ending: &Ending) -> bool
    ensures { result ≡ denies ending.now }
{
    match ending {
        Ok(_) => false,
        Err(refusal) => is_denial(refusal),
    }
}

/// Whether a Command or an Open was denied, or no verdict failed. True of other events.
pub fn is_denied(event: &Kept, failed: Option<Verdict>, ending: &Ending) -> bool
    ensures { (result ≡ true) ↔ IsDenied event.now failed ending.now }
{
    match event {
        Kept::Command { .. } | Kept::Open { .. } => failed.is_none() || denies(ending),
        Kept::Attach { .. } | Kept::Detach { .. } | Kept::Keys { .. } | Kept::Closed { .. } => true,
    }
}
