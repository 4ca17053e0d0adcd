//! How users leave windows at the end of a step.

ghost use Rattle.std.specs.Prelude.{◌≡◌, ◌≤◌, ◌+◌, ◌++◌, true, length, vec_len, vec_capacity};
ghost use Rattle.std.specs.List.{list_any};
ghost use Rattle.acl.specs.declared.leaders.Edition.{Edition};
ghost use Rattle.acl.specs.History.{History, followed_by};
ghost use Rattle.writelock.specs.LockTable.{LocksStandFor};
ghost use Rattle.session_model.specs.Tables.{is_window};
ghost use Rattle.session_state.specs.Doing.{HasRoomToLeave};
ghost use Rattle.session_events.specs.Leaving.{Leaves, all_left, left_window, looks_at, shows_now};

use crate::focuses::{Focus, Focuses};
use acl::{Act, UserId};
use session_state::{Client, State, StepOutput};
use writelock::Locks;

/// Whether a focus is at this window.
fn is_window(window: u32, focus: Option<u32>) -> bool
    ensures { result ≡ is_window window focus }
{
    match focus {
        Some(other) => other == window,
        None => false,
    }
}

/// Whether one of these focuses is the user's, and is at this window.
fn is_among(focuses: &[Focus], user: UserId, window: u32) -> bool
    ensures { result ≡ list_any (looks_at user window) focuses.now }
{
    focuses.iter().any(|focus| focus.user == user && is_window(window, focus.window))
}

/// Whether a focused region of the user's clients shows the window.
fn is_in_focus(clients: &[Client], user: UserId, window: u32) -> bool
    ensures { result ≡ list_any (shows_now user window) clients.now }
{
    clients.iter().any(|client| client.user == user
        && is_window(window, client.layout.focused().window))
}

/// Whether the client at this place is the user's and shows the window in its focused region.
fn shows_at(clients: &[Client], place: usize, user: UserId, window: u32) -> bool
    ensures { result ≡ true → list_any (shows_now user window) clients.now ≡ true }
{
    match clients.get(place) {
        Some(client) => client.user == user && is_window(window, client.layout.focused().window),
        None => false,
    }
}

/// The window that the user of the focus at this place has left: none of their later focuses is at it,
/// and none of their clients shows it now. In most steps the client at the same place still shows
/// it, so that one is looked at first.
fn left_window(focus: Focus, place: usize, rest: &[Focus], clients: &[Client]) -> Option<u32>
    ensures { result ≡ left_window focus.user focus.window rest.now clients.now }
{
    let window = focus.window?;
    if shows_at(clients, place, focus.user, window) {
        return None;
    }
    if is_among(rest, focus.user, window) || is_in_focus(clients, focus.user, window) {
        None
    } else {
        Some(window)
    }
}

/// Notes which users have left which windows, from the focuses before, and tells the locks.
fn note_left(before: &[Focus], clients: &[Client], locks: &mut Locks, acts: &mut Vec<Act>)
    requires { vec_len acts.old + length before.now ≤ vec_capacity acts.old }
    ensures acts { acts.new.items ≡ acts.old.items ++ all_left before.now clients.now }
    ensures locks { (edition : Edition) (owner : UserId) (h : History)
        → LocksStandFor locks.old edition owner h
        → LocksStandFor locks.new edition owner
        (followed_by h (all_left before.now clients.now)) }
{
    for i in 0..before.len() {
        let focus = before[i];
        if let Some(window) = left_window(focus, i, &before[i + 1..], clients) {
            let user = focus.user;
            acts.push(Act::Left { user, window }).unwrap();
            locks.left(user, window);
        }
    }
}

/// Ends a step: a user whose client had a window in focus before the step has left that window, if
/// none of their clients has it in focus now. These acts are noted, and the locks are told.
pub fn leave(state: &mut State, before: &Focuses, made: &mut StepOutput)
    requires { HasRoomToLeave made.old }
    ensures { Leaves before.now state.old state.new made.old made.new }
{
    note_left(
        before.as_slice(),
        state.clients.as_slice(),
        &mut state.locks,
        &mut made.acts,
    );
}
