//! The search for a stored form.

ghost use Rattle.std.specs.Prelude.{◌≡◌, ◌≤◌, Some, IfSome, slice_get};
ghost use Rattle.hub_record.specs.EntryLists.{entry_in};

use crate::growing_trail::NewEntry;
use crate::reply::KeptReply;
use crate::trail_entry::TrailEntry;
use acl::{Object, UserId};
use hub_trail::Kept;
use session::Verdict;

/// The number of codes that are tried for an entry or a receipt.
pub const WAYS: usize = 4;

/// The number of codes that are kept for the search.
pub const KEPT: usize = 4096;

/// A hash of what the hash `number` is of, and of this part after it.
fn with_part(number: u32, part: u32) -> u32 {
    number.wrapping_mul(31).wrapping_add(part)
}

/// A hash of what the hash `number` is of, and of these bytes after it.
fn with_bytes(number: u32, bytes: &[u8]) -> u32 {
    let mut number = number;
    for byte in bytes {
        number = with_part(number, *byte as u32);
    }
    number
}

/// A hash of a Command. It has the user in it, so that users who give one line find each their own
/// form.
fn number_of_command(user: &UserId, window: Option<u8>, line: &[u8]) -> u32 {
    let number = with_bytes(with_bytes(0, line), user.as_bytes());
    match window {
        Some(window) => with_part(number, window as u32),
        None => number,
    }
}

/// A hash of the event: equal events have the same one.
pub fn number_of_event(event: &Kept) -> u32 {
    match event {
        Kept::Keys { client } => (*client).wrapping_mul(7),
        Kept::Command { user, window, line } => number_of_command(user, *window, line.as_slice()),
        Kept::Attach { .. } | Kept::Detach { .. } | Kept::Open { .. } => 1,
        Kept::Closed { .. } => 2,
    }
}

/// The serial of the window that the verdict is on; 0 if it is on a command.
fn window_of(verdict: Verdict) -> u32 {
    match verdict {
        Verdict::Lock { window, .. } => window,
        Verdict::Right {
            object: Object::Window(window),
            ..
        } => window,
        Verdict::Right { .. } => 0,
    }
}

/// The index among the kept codes at which a search begins, by a hash of the event and by the
/// reply.
pub fn first_by(number: u32, reply: &KeptReply) -> usize
    ensures { result ≤ 4092 }
{
    let mut number = number;
    if let Ok(finished) = reply.ending() {
        number = with_part(number, (finished.taken % 65536) as u32);
    }
    number as usize % (KEPT / WAYS) * WAYS
}

/// The index among the kept codes at which the search for an entry begins.
pub fn first_of(entry: &NewEntry) -> usize
    ensures { result ≤ 4092 }
{
    let mut number = number_of_event(&entry.event);
    if let Some(verdict) = entry.verdicts.first() {
        number = with_part(number, window_of(*verdict));
    }
    first_by(number, &entry.reply)
}

/// The index among the kept codes at which the next code is put, if the search began at `first`.
pub fn slot_of(first: usize, code: u32) -> usize
    requires { first ≤ 4092 }
    ensures { result ≤ 4095 }
{
    first + code as usize % WAYS
}

/// The code of a form equal to the entry, among the kept codes from `first` on; `None` if none of
/// those tried is.
pub fn find(forms: &[TrailEntry], kept: &[u32], first: usize, entry: &NewEntry) -> Option<u32>
    requires { first ≤ 4092 }
    ensures { IfSome result (λ code. slice_get forms.now code ≡ Some (entry_in entry.now)) }
{
    for way in 0..WAYS {
        if let Some(code) = kept.get(first + way) {
            if let Some(form) = forms.get(*code as usize) {
                if entry.is_of(form) {
                    return Some(*code);
                }
            }
        }
    }
    None
}
