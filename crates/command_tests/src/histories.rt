//! Histories of calls, with the answer of a check after each call.

use crate::stage::{ListCall, ListStage, TestUser, Want};
use Bit::{Execute, Read, Write};
use ListCall::{
    Add, Change, Close, Default, Enter, Group, Leave, Lock, Mask, Nothing, Open, Part, Preset,
    Remove, TakeAndGive,
};
use TestUser::{Ann, Bob, Eve, Own, Zed};
use Want::{Leader, Leaders, Locked, NoEntry, Passes};
use acl::{Bit, CommandName, Edition, LockMode, Object, PresetKind};
use std::alloc::Global;

/// A call, and then a check of a user's bit on an object.
type HistoryRow = (ListCall, TestUser, Bit, Object, Want);

const KILL: Object = Object::Command(CommandName::Kill);

const ZERO: Object = Object::Window(0);

const ONE: Object = Object::Window(1);

const TWO: Object = Object::Window(2);

const THREE: Object = Object::Window(3);

/// A user loses a right, still has it by a leader, and then the leader loses it, too.
const LED: [HistoryRow; 12] = [
    (Nothing, Bob, Write, TWO, Passes),
    (Change(Bob, Write, false, TWO), Bob, Write, TWO, NoEntry),
    (Nothing, Bob, Write, ONE, Passes),
    (Nothing, Bob, Read, TWO, Passes),
    (Nothing, Own, Write, TWO, Passes),
    (Group(Bob, Some(Ann)), Bob, Write, TWO, Passes),
    (Change(Ann, Write, false, TWO), Bob, Write, TWO, Leader(Ann)),
    // A leader's own leader doesn't count.
    (Group(Ann, Some(Eve)), Bob, Write, TWO, Leader(Ann)),
    (Nothing, Ann, Write, TWO, Passes),
    (Group(Bob, Some(Eve)), Bob, Write, TWO, Passes),
    (Group(Bob, None), Bob, Write, TWO, NoEntry),
    (Change(Bob, Write, true, TWO), Bob, Write, TWO, Passes),
];

/// A leader goes, and the group loses the leader's rights.
const LEADER_GONE: [HistoryRow; 4] = [
    (Change(Bob, Write, false, TWO), Bob, Write, TWO, NoEntry),
    (Group(Bob, Some(Ann)), Bob, Write, TWO, Passes),
    (Remove(Ann), Bob, Write, TWO, NoEntry),
    (Add(Ann, 2), Bob, Write, TWO, NoEntry),
];

/// In the first edition a new leader replaces the former one.
const ONE_GROUP: [HistoryRow; 5] = [
    (Change(Bob, Write, false, TWO), Bob, Write, TWO, NoEntry),
    (Change(Ann, Write, false, TWO), Bob, Write, TWO, NoEntry),
    (Group(Bob, Some(Ann)), Bob, Write, TWO, Leader(Ann)),
    (Group(Bob, Some(Eve)), Bob, Write, TWO, Passes),
    (Group(Bob, Some(Ann)), Bob, Write, TWO, Leader(Ann)),
];

/// In the second edition a new leader comes last, and one who already leads keeps that place.
const TWO_GROUPS: [HistoryRow; 11] = [
    (Change(Bob, Write, false, TWO), Bob, Write, TWO, NoEntry),
    (Change(Ann, Write, false, TWO), Bob, Write, TWO, NoEntry),
    (Group(Bob, Some(Ann)), Bob, Write, TWO, Leader(Ann)),
    (Group(Bob, Some(Eve)), Bob, Write, TWO, Passes),
    (
        Change(Eve, Write, false, TWO),
        Bob,
        Write,
        TWO,
        Leaders(Ann, Eve),
    ),
    (Group(Bob, Some(Ann)), Bob, Write, TWO, Leaders(Ann, Eve)),
    (Remove(Ann), Bob, Write, TWO, Leader(Eve)),
    // ann comes back with every right, and leads nobody.
    (Add(Ann, 2), Bob, Write, TWO, Leader(Eve)),
    // A leader's own leaders don't count.
    (Group(Eve, Some(Ann)), Bob, Write, TWO, Leader(Eve)),
    (Group(Bob, Some(Ann)), Bob, Write, TWO, Passes),
    (Group(Bob, None), Bob, Write, TWO, NoEntry),
];

/// A lock is freed when the leader by whom its holder may write loses the right, whichever leader that
/// is.
const LOCKED_BY_GROUP: [HistoryRow; 6] = [
    (Change(Bob, Write, false, TWO), Bob, Write, TWO, NoEntry),
    (Group(Bob, Some(Ann)), Bob, Write, TWO, Passes),
    (Group(Bob, Some(Eve)), Bob, Write, TWO, Passes),
    (Lock(Bob, 2, LockMode::On), Own, Write, TWO, Locked(Bob)),
    (Change(Ann, Write, false, TWO), Own, Write, TWO, Locked(Bob)),
    (Change(Eve, Write, false, TWO), Own, Write, TWO, Passes),
];

/// After a window closed, one that is opened later has none of its entries, only those of the mask.
const MASKED: [HistoryRow; 9] = [
    (Change(Bob, Read, false, TWO), Bob, Read, TWO, NoEntry),
    (Mask(Bob, Write, false), Bob, Write, TWO, Passes),
    (Close(2), Bob, Write, ONE, Passes),
    (Open(Own, 3), Bob, Read, THREE, Passes),
    (Nothing, Bob, Execute, THREE, Passes),
    (Nothing, Bob, Write, THREE, NoEntry),
    (Nothing, Ann, Write, THREE, Passes),
    // The mask counts only for the owner's windows, and never for the opener.
    (Open(Ann, 4), Bob, Write, Object::Window(4), Passes),
    (Open(Bob, 5), Bob, Write, Object::Window(5), Passes),
];

/// A name that comes back has neither its old entries nor its old masks, only those of the presets.
const RETURNED: [HistoryRow; 9] = [
    (Change(Bob, Read, false, ZERO), Bob, Read, ZERO, NoEntry),
    (Mask(Bob, Write, false), Bob, Write, ONE, Passes),
    (
        Preset(PresetKind::Windows, Execute, false),
        Bob,
        Execute,
        ONE,
        Passes,
    ),
    (Remove(Bob), Bob, Write, ONE, NoEntry),
    (Change(Bob, Write, false, TWO), Bob, Read, ZERO, Passes),
    (Nothing, Bob, Execute, ONE, NoEntry),
    (Nothing, Bob, Write, TWO, NoEntry),
    (Nothing, Bob, Execute, KILL, Passes),
    (Open(Own, 3), Bob, Write, THREE, Passes),
];

/// A new name gets the preset on each command, and an entry of one command doesn't count for a window
/// or for another command.
const COMMANDS: [HistoryRow; 7] = [
    (
        Change(Bob, Execute, false, KILL),
        Bob,
        Execute,
        KILL,
        NoEntry,
    ),
    (
        Nothing,
        Bob,
        Execute,
        Object::Command(CommandName::Stuff),
        Passes,
    ),
    (Nothing, Bob, Execute, ZERO, Passes),
    (Nothing, Zed, Execute, KILL, NoEntry),
    (
        Preset(PresetKind::Commands, Execute, false),
        Zed,
        Execute,
        KILL,
        NoEntry,
    ),
    (Add(Zed, 0), Zed, Execute, KILL, NoEntry),
    (Nothing, Zed, Execute, ZERO, Passes),
];

/// A holder stops every other user, the owner too, until -w names the holder.
const HELD: [HistoryRow; 6] = [
    (Lock(Eve, 2, LockMode::Auto), Bob, Write, TWO, Locked(Eve)),
    (Nothing, Own, Write, TWO, Locked(Eve)),
    (Nothing, Eve, Write, TWO, Passes),
    (Nothing, Bob, Write, ONE, Passes),
    (TakeAndGive(Eve, 2), Bob, Write, TWO, Passes),
    (Nothing, Eve, Write, TWO, Passes),
];

/// A lock is freed when its holder or the holder's leader loses the right, when the holder is gone, and
/// when the holder's last client goes.
const RELEASED: [HistoryRow; 10] = [
    (Lock(Eve, 2, LockMode::On), Bob, Write, TWO, Locked(Eve)),
    (Group(Eve, Some(Ann)), Bob, Write, TWO, Locked(Eve)),
    (Change(Eve, Read, false, TWO), Bob, Write, TWO, Locked(Eve)),
    (Change(Eve, Write, false, TWO), Bob, Write, TWO, Passes),
    (Lock(Eve, 2, LockMode::On), Bob, Write, TWO, Locked(Eve)),
    (Change(Ann, Write, false, TWO), Bob, Write, TWO, Passes),
    (Lock(Bob, 2, LockMode::On), Own, Write, TWO, Locked(Bob)),
    (Part(Bob), Own, Write, TWO, Passes),
    (Lock(Bob, 2, LockMode::On), Own, Write, TWO, Locked(Bob)),
    (Remove(Bob), Own, Write, TWO, Passes),
];

/// In auto entering takes a lock and leaving frees it; in on neither does.
const ENTERED: [HistoryRow; 10] = [
    (Enter(Bob, 2), Eve, Write, TWO, Passes),
    (Lock(Eve, 2, LockMode::Auto), Bob, Write, TWO, Locked(Eve)),
    (Enter(Bob, 2), Bob, Write, TWO, Locked(Eve)),
    (Leave(Bob, 2), Bob, Write, TWO, Locked(Eve)),
    (Leave(Eve, 2), Bob, Write, TWO, Passes),
    (Enter(Bob, 2), Eve, Write, TWO, Locked(Bob)),
    (Lock(Bob, 2, LockMode::On), Eve, Write, TWO, Locked(Bob)),
    (Leave(Bob, 2), Eve, Write, TWO, Locked(Bob)),
    (Lock(Bob, 2, LockMode::Off), Eve, Write, TWO, Passes),
    (Enter(Bob, 2), Eve, Write, TWO, Passes),
];

/// The default mode counts for windows that are opened later: in on the opener holds the lock, in auto
/// nobody does yet.
const DEFAULTS: [HistoryRow; 7] = [
    (Default(LockMode::On), Ann, Write, TWO, Passes),
    (Open(Ann, 3), Own, Write, THREE, Locked(Ann)),
    (Default(LockMode::Auto), Own, Write, THREE, Locked(Ann)),
    (Close(3), Own, Write, TWO, Passes),
    (Open(Ann, 4), Own, Write, Object::Window(4), Passes),
    (Enter(Eve, 4), Own, Write, Object::Window(4), Locked(Eve)),
    (Nothing, Ann, Write, Object::Window(4), Locked(Eve)),
];

/// The histories, each with its edition.
static HISTORIES: [(Edition, &[HistoryRow]); 14] = [
    (Edition::First, &LED),
    (Edition::First, &LEADER_GONE),
    (Edition::Second, &LEADER_GONE),
    (Edition::Second, &MASKED),
    (Edition::Second, &RETURNED),
    (Edition::Second, &COMMANDS),
    (Edition::First, &ONE_GROUP),
    (Edition::Second, &TWO_GROUPS),
    (Edition::Second, &LOCKED_BY_GROUP),
    (Edition::First, &HELD),
    (Edition::First, &RELEASED),
    (Edition::Second, &RELEASED),
    (Edition::Second, &ENTERED),
    (Edition::Second, &DEFAULTS),
];

/// Whether each call of a history is done, and the check after it has the answer of the row.
fn is_so(alloc: Global, edition: Edition, rows: &[HistoryRow]) -> bool {
    let Some(mut stage) = ListStage::new(alloc, edition) else {
        return false;
    };
    for (call, name, bit, object, want) in rows {
        if stage.play(*call).is_err() || !stage.answers(*name, *bit, *object, *want) {
            return false;
        }
    }
    true
}

/// The first history with another answer.
fn first_wrong(alloc: Global) -> Option<usize> {
    HISTORIES
        .iter()
        .position(|(edition, rows)| !is_so(alloc, *edition, rows))
}

#[test]
fn histories_are_answered_though_refused_once(rt: HostRuntime) {
    assert_eq!(rt; first_wrong(rt.alloc()), None);
}
