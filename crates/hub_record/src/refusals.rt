//! Equality of refusals.

ghost use Rattle.std.specs.Prelude.{◌≡◌, ◌↔◌, true};
ghost use Rattle.session.specs.refusal.Refusal.TheVariants as why;

use acl::{AclFault, Leaders};
use command_lang::ParseFault;
use regions::RegionFault;
use session::{EntryDenied, LockDenied, Refusal, WindowsFault};

/// Whether the leaders are equal, in the same order.
fn are_same(leaders: &Leaders, other: &Leaders) -> bool
    ensures { (result ≡ true) ↔ (leaders.now ≡ other.now) }
{
    leaders.as_slice() == other.as_slice()
}

/// Whether both denials are equal.
fn is_same_denial(denied: &EntryDenied, other: &EntryDenied) -> bool
    ensures { (result ≡ true) ↔ (denied.now ≡ other.now) }
{
    denied.user == other.user
        && denied.bit == other.bit
        && denied.on == other.on
        && are_same(&denied.leaders, &other.leaders)
}

/// Whether the refusal is this denial.
fn is_entry_denied(refusal: &Refusal, denied: &EntryDenied) -> bool
    ensures { (result ≡ true) ↔ (refusal.now ≡ why.EntryDenied denied.now) }
{
    match refusal {
        Refusal::EntryDenied(other) => is_same_denial(other, denied),
        _ => false,
    }
}

/// Whether the refusal is this denial of a lock.
fn is_lock_denied(refusal: &Refusal, denied: LockDenied) -> bool
    ensures { (result ≡ true) ↔ (refusal.now ≡ why.LockDenied denied) }
{
    match refusal {
        Refusal::LockDenied(other) => *other == denied,
        _ => false,
    }
}

/// Whether the refusal is this fault of the lists.
fn is_acl(refusal: &Refusal, fault: AclFault) -> bool
    ensures { (result ≡ true) ↔ (refusal.now ≡ why.Acl fault) }
{
    match refusal {
        Refusal::Acl(other) => *other == fault,
        _ => false,
    }
}

/// Whether the refusal is this fault of the windows.
fn is_windows(refusal: &Refusal, fault: WindowsFault) -> bool
    ensures { (result ≡ true) ↔ (refusal.now ≡ why.Windows fault) }
{
    match refusal {
        Refusal::Windows(other) => *other == fault,
        _ => false,
    }
}

/// Whether the refusal is this fault of a line.
fn is_line(refusal: &Refusal, fault: ParseFault) -> bool
    ensures { (result ≡ true) ↔ (refusal.now ≡ why.Line fault) }
{
    match refusal {
        Refusal::Line(other) => *other == fault,
        _ => false,
    }
}

/// Whether the refusal is this fault of a layout.
fn is_regions(refusal: &Refusal, fault: RegionFault) -> bool
    ensures { (result ≡ true) ↔ (refusal.now ≡ why.Regions fault) }
{
    match refusal {
        Refusal::Regions(other) => *other == fault,
        _ => false,
    }
}

/// Whether both refusals are equal.
pub fn is_same(refusal: &Refusal, other: &Refusal) -> bool
    ensures { (result ≡ true) ↔ (refusal.now ≡ other.now) }
{
    match refusal {
        Refusal::EntryDenied(denied) => is_entry_denied(other, denied),
        Refusal::LockDenied(denied) => is_lock_denied(other, *denied),
        Refusal::NotMultiuser => matches!(other, Refusal::NotMultiuser),
        Refusal::UnknownUser => matches!(other, Refusal::UnknownUser),
        Refusal::NoWindow => matches!(other, Refusal::NoWindow),
        Refusal::TooManyClients => matches!(other, Refusal::TooManyClients),
        Refusal::NoMemory => matches!(other, Refusal::NoMemory),
        Refusal::BadSize => matches!(other, Refusal::BadSize),
        Refusal::Acl(fault) => is_acl(other, *fault),
        Refusal::Windows(fault) => is_windows(other, *fault),
        Refusal::Line(fault) => is_line(other, *fault),
        Refusal::Regions(fault) => is_regions(other, *fault),
    }
}
