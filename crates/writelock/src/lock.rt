//! The changes of one lock.

ghost use Rattle.std.specs.Prelude.{◌≡◌};
ghost use Rattle.acl.specs.Lists.{table_of};
ghost use Rattle.writelock.specs.LockTable.{frees, remaining, after_act, lock_by, opened_by};
ghost use Rattle.writelock.specs.LockTable.{left_by, entered_by, without_holder, has_holder};

use acl::{Act, Bit, Lists, LockMode, Object, UserId};

/// A window's mode, and the holder of its lock.
#[derive(Clone, Copy, PartialEq, Eq, Debug)]
pub struct Lock {
    pub mode: LockMode,
    pub holder: Option<UserId>,
}

/// Why a user may not type into a window: another user, named here, holds its lock.
#[derive(Clone, Copy, PartialEq, Eq, Debug)]
pub struct LockDenial {
    pub window: u32,
    pub holder: UserId,
}

/// Whether an act of a list command frees by itself what the user holds on the window.
fn frees(act: Act, user: UserId, window: u32) -> bool
    ensures { result ≡ frees act user window }
{
    match act {
        Act::Set {
            user: other,
            bit: Bit::Write,
            object: Object::Window(named),
            value: false,
        } => other == user && named == window,
        Act::Gone { user: other } => other == user,
        _ => false,
    }
}

/// Who still holds the window after an act of a list command; `lists` are the lists after it.
fn remaining(lists: &Lists, act: Act, window: u32, holder: Option<UserId>) -> Option<UserId>
    ensures { result ≡ remaining (table_of lists.now) act window holder }
{
    let user = holder?;
    if frees(act, user, window) || lists.may(user, Bit::Write, Object::Window(window)).is_err() {
        None
    } else {
        Some(user)
    }
}

/// The lock in a slot after an act of a list command; the slot holds this window, or none.
pub fn after_act(lists: &Lists, act: Act, window: Option<u32>, lock: Lock) -> Lock
    ensures { result ≡ after_act (table_of lists.now) act window lock }
{
    match window {
        Some(window) => Lock {
            mode: lock.mode,
            holder: remaining(lists, act, window, lock.holder),
        },
        None => lock,
    }
}

/// The lock after the user sets its mode: the user's, or free in mode off.
pub fn lock_by(by: UserId, mode: LockMode) -> Lock
    ensures { result ≡ lock_by by mode }
{
    match mode {
        LockMode::Off => Lock { mode, holder: None },
        _ => Lock {
            mode,
            holder: Some(by),
        },
    }
}

/// The lock of a window that the user opens while this is the default mode.
pub fn opened_by(by: UserId, mode: LockMode) -> Lock
    ensures { result ≡ opened_by by mode }
{
    match mode {
        LockMode::On => Lock {
            mode,
            holder: Some(by),
        },
        _ => Lock { mode, holder: None },
    }
}

/// Whether the user holds the lock.
fn has_holder(lock: Lock, user: UserId) -> bool
    ensures { result ≡ has_holder user lock.holder }
{
    match lock.holder {
        Some(holder) => holder == user,
        None => false,
    }
}

/// The lock after the user leaves its window.
pub fn left_by(lock: Lock, user: UserId) -> Lock
    ensures { result ≡ left_by user lock }
{
    match lock.mode {
        LockMode::Auto => Lock {
            mode: lock.mode,
            holder: if has_holder(lock, user) {
                None
            } else {
                lock.holder
            },
        },
        _ => lock,
    }
}

/// The lock after the user enters its window; `may_write` tells whether they may write there.
pub fn entered_by(lock: Lock, user: UserId, may_write: bool) -> Lock
    ensures { result ≡ entered_by user may_write lock }
{
    match lock.mode {
        LockMode::Auto => Lock {
            mode: lock.mode,
            holder: if lock.holder.is_none() && may_write {
                Some(user)
            } else {
                lock.holder
            },
        },
        _ => lock,
    }
}

/// The lock after this user, if any, lost their last client.
pub fn without_holder(lock: Lock, gone: Option<UserId>) -> Lock
    ensures { result ≡ without_holder gone lock }
{
    match gone {
        Some(user) => Lock {
            mode: lock.mode,
            holder: if has_holder(lock, user) {
                None
            } else {
                lock.holder
            },
        },
        None => lock,
    }
}
