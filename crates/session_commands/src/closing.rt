//! How windows are closed.

ghost use Rattle.std.specs.Prelude.{◌≡◌, ◌≤◌, ◌+◌, ◌++◌, ℕ, map, length, vec_len, vec_capacity, IfOk};
ghost use Rattle.acl.specs.declared.leaders.Edition.{Edition};
ghost use Rattle.acl.specs.History.{History, followed_by};
ghost use Rattle.acl.specs.Table.{StandsFor};
ghost use Rattle.writelock.specs.LockTable.{LocksStandFor};
ghost use Rattle.session_commands.specs.Closing.{closing, gone_row, closed_acts};
ghost use Rattle.session_commands.specs.Settling.{Settles};

use crate::giver::Context;
use acl::{Acl, Act, UserId};
use session_model::{Effect, Peer, Reason, Refusal};
use std::alloc::{AllocError, Global};
use windows::Window;
use writelock::Locks;

/// The effects that say why these windows are closed.
pub(crate) fn gone_windows(
    alloc: Global,
    windows: &[Window],
    why: Reason,
) -> Result<Vec<Effect>, AllocError>
    ensures { IfOk result (λ gone. gone.items ≡ map (gone_row why) windows.now) }
{
    let mut gone = Vec::new(alloc);
    for window in windows {
        gone.push(Effect::Gone(Peer::Window(window.serial), why))?;
    }
    Ok(gone)
}

/// Notes that these windows are closed, and tells the lists and the locks.
pub(crate) fn note_closed(windows: &[Window], acl: &mut Acl, locks: &mut Locks, acts: &mut Vec<Act>)
    requires { vec_len acts.old + length windows.now ≤ vec_capacity acts.old }
    ensures acts { acts.new.items ≡ acts.old.items ++ closed_acts windows.now }
    ensures acl { (edition : Edition) (owner : UserId) (h : History)
        → StandsFor acl.old edition owner h
        → StandsFor acl.new edition owner (followed_by h (closed_acts windows.now)) }
    ensures locks { (edition : Edition) (owner : UserId) (h : History)
        → LocksStandFor locks.old edition owner h
        → LocksStandFor locks.new edition owner (followed_by h (closed_acts windows.now)) }
    ensures room { (n : ℕ) → vec_len acts.old + length windows.now + n ≤ vec_capacity acts.old
        → vec_len acts.new + n ≤ vec_capacity acts.new }
{
    for i in 0..windows.len() {
        let window = windows[i].serial;
        acts.push(Act::Closed { window }).unwrap();
        acl.window_closed(window);
        locks.closed(window);
    }
}

/// Closes a window: its row is removed, no region shows it, and its rights and its lock vanish.
pub(crate) fn close(context: &mut Context, window: u32, why: Reason) -> Result<(), Refusal>
    ensures { Settles (closing window why) context.old result context.new }
{
    let (state, made) = (&mut *context.state, &mut *context.made);
    made.acts.reserve(65)?;
    made.effects.reserve(1)?;
    state.windows.close(window)?;
    made.acts.push(Act::Closed { window }).unwrap();
    made.effects
        .push(Effect::Gone(Peer::Window(window), why))
        .unwrap();
    state.acl.window_closed(window);
    state.locks.closed(window);
    state.clients.close_window(window);
    Ok(())
}
