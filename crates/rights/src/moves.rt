//! Acts of windows, clients and locks.

ghost use Rattle.std.specs.Prelude.{◌≡◌, ◌||◌, ◌-◌, if◌then◌else◌};
ghost use Rattle.acl.specs.declared.act.Act.TheVariants.{Opened, Closed, Attached, Parted};
ghost use Rattle.acl.specs.declared.act.Act.TheVariants.{Entered, Left, Mode, Default};
ghost use Rattle.writelock.specs.Holding.{is_off};
ghost use Rattle.rights.specs.Following.{Redoes, Follows};

use crate::clients::{has_client, part_client};
use crate::rights::Rights;
use acl::{Bit, LockMode, Object, UserId, WINDOWS};
use std::alloc::AllocError;

/// A user opens a window.
pub fn open(rights: &mut Rights, by: UserId, window: u32) -> bool
    ensures { Follows rights.old rights.new result (Opened by window) }
{
    if !rights.acl.knows(by) {
        return false;
    }
    if rights.is_open(window) {
        return false;
    }
    if rights.windows >= WINDOWS {
        return false;
    }
    rights.acl.window_opened(by, window);
    rights.locks.opened(by, window);
    rights.windows += 1;
    true
}

/// How many windows stay open when a window is closed that is open or isn't.
fn left_open(count: usize, is_open: bool) -> usize
    ensures { result ≡ (if is_open then count - 1 else count) }
{
    if is_open {
        count.saturating_sub(1)
    } else {
        count
    }
}

/// A window is closed.
pub fn close(rights: &mut Rights, window: u32) -> bool
    ensures { Follows rights.old rights.new result (Closed window) }
{
    let is_open = rights.is_open(window);
    rights.windows = left_open(rights.windows, is_open);
    rights.acl.window_closed(window);
    rights.locks.closed(window);
    true
}

/// A client comes.
pub fn attach(rights: &mut Rights, client: u32, user: UserId) -> Result<bool, AllocError>
    ensures { Redoes rights.old rights.new result (Attached client user) }
{
    if has_client(&rights.clients, client) {
        return Ok(false);
    }
    rights.clients.insert(0, (client, user))?;
    Ok(true)
}

/// A client goes.
pub fn part(rights: &mut Rights, client: u32) -> bool
    ensures { Follows rights.old rights.new result (Parted client) }
{
    part_client(&mut rights.clients, &mut rights.locks, client);
    true
}

/// A user enters a window.
pub fn enter(rights: &mut Rights, user: UserId, window: u32) -> bool
    ensures { Follows rights.old rights.new result (Entered user window) }
{
    if !rights.is_open(window) {
        return false;
    }
    let may_write = rights.may(user, Bit::Write, Object::Window(window));
    rights.locks.entered(user, window, may_write);
    true
}

/// A user leaves a window.
pub fn leave(rights: &mut Rights, user: UserId, window: u32) -> bool
    ensures { Follows rights.old rights.new result (Left user window) }
{
    rights.locks.left(user, window);
    true
}

/// Whether a user can set this mode of a lock. To set it off, they need not be able to write.
fn may_set(mode: LockMode, may_write: bool) -> bool
    ensures { result ≡ (is_off mode || may_write) }
{
    match mode {
        LockMode::Off => true,
        _ => may_write,
    }
}

/// A user sets the mode of a window's lock.
pub fn set_mode(rights: &mut Rights, by: UserId, window: u32, mode: LockMode) -> bool
    ensures { Follows rights.old rights.new result (Mode by window mode) }
{
    if !rights.is_open(window) {
        return false;
    }
    let may_write = rights.may(by, Bit::Write, Object::Window(window));
    if !may_set(mode, may_write) {
        return false;
    }
    rights.locks.set_mode(by, window, mode);
    true
}

/// The mode of the locks of new windows is set.
pub fn set_default(rights: &mut Rights, mode: LockMode) -> bool
    ensures { Follows rights.old rights.new result (Default mode) }
{
    rights.locks.set_default(mode);
    true
}
