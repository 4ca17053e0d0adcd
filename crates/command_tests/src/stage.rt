//! A session's access lists and locks, which calls change.

use acl::{
    Acl, AclFault, Act, Bit, BitChange, CommandName, Edition, LeaderChange, LockMode, MaskChange,
    MaskEntry, MaskScope, NewLeader, NewUsers, Object, PresetKind, RightsChange, UserId,
};
use std::alloc::Global;
use writelock::Locks;

/// The users of the tests. own is the owner; ann, bob and eve are known, yan and zed are not.
#[derive(Clone, Copy)]
pub enum TestUser {
    Own,
    Ann,
    Bob,
    Eve,
    Yan,
    Zed,
}

/// A call that changes lists or locks.
#[derive(Clone, Copy)]
pub enum ListCall {
    Nothing,
    Add(TestUser, u32),
    AddAll(TestUser, TestUser, TestUser),
    Change(TestUser, Bit, bool, Object),
    /// Takes w on a window and gives it back in one call.
    TakeAndGive(TestUser, u32),
    Remove(TestUser),
    Group(TestUser, Option<TestUser>),
    /// Sets the owner's mask for a user.
    Mask(TestUser, Bit, bool),
    Preset(PresetKind, Bit, bool),
    Open(TestUser, u32),
    Close(u32),
    Lock(TestUser, u32, LockMode),
    Default(LockMode),
    Enter(TestUser, u32),
    Leave(TestUser, u32),
    /// The user's last client goes.
    Part(TestUser),
}

/// The answer that a check must give.
#[derive(Clone, Copy)]
pub enum Want {
    Passes,
    /// Denied, and the user has no leader.
    NoEntry,
    /// Denied, and this leader doesn't have the bit either.
    Leader(TestUser),
    /// Denied, and these two lead the user, in this order.
    Leaders(TestUser, TestUser),
    /// Denied, since this other user holds the lock.
    Locked(TestUser),
}

/// The access lists and locks of a session, and the acts of its list commands.
#[derive(Drop)]
pub struct ListStage {
    pub acl: Acl,
    pub locks: Locks,
    pub acts: Vec<Act>,
}

/// The user with this name.
pub fn user(name: TestUser) -> Option<UserId> {
    match name {
        TestUser::Own => UserId::of(b"own"),
        TestUser::Ann => UserId::of(b"ann"),
        TestUser::Bob => UserId::of(b"bob"),
        TestUser::Eve => UserId::of(b"eve"),
        TestUser::Yan => UserId::of(b"yan"),
        TestUser::Zed => UserId::of(b"zed"),
    }
}

/// The access lists of a session of own. Tries again if memory is refused.
fn new_acl(alloc: Global, owner: UserId, edition: Edition) -> Option<Acl> {
    match Acl::new(alloc, owner, edition) {
        Ok(acl) => Some(acl),
        Err(_) => Acl::new(alloc, owner, edition).ok(),
    }
}

/// The calls by which own adds ann, bob and eve, and opens the windows 0, 1 and 2.
static BEGINNING: [ListCall; 4] = [
    ListCall::AddAll(TestUser::Ann, TestUser::Bob, TestUser::Eve),
    ListCall::Open(TestUser::Own, 0),
    ListCall::Open(TestUser::Own, 1),
    ListCall::Open(TestUser::Own, 2),
];

impl ListStage {
    /// A session with own, ann, bob and eve, and three windows.
    pub fn new(alloc: Global, edition: Edition) -> Option<ListStage> {
        let mut stage = ListStage {
            acl: new_acl(alloc, user(TestUser::Own)?, edition)?,
            locks: Locks::new(),
            acts: Vec::new(alloc),
        };
        for call in &BEGINNING {
            if stage.play(*call).is_err() {
                return None;
            }
        }
        Some(stage)
    }

    /// Does a call. Tries again if memory is refused, since at most one allocation of a run is.
    pub fn play(&mut self, call: ListCall) -> Result<(), AclFault> {
        match self.call(call) {
            Err(AclFault::NoMemory) => self.call(call),
            answer => answer,
        }
    }

    fn call(&mut self, call: ListCall) -> Result<(), AclFault> {
        match call {
            ListCall::Add(name, window) => self.acl.add(
                NewUsers {
                    names: &[user(name)],
                    objects: &[Object::Window(window)],
                },
                &mut self.acts,
                0,
                &mut self.locks,
            ),
            ListCall::AddAll(first, second, third) => self.acl.add(
                NewUsers {
                    names: &[user(first), user(second), user(third)],
                    objects: &[Object::Command(CommandName::Kill)],
                },
                &mut self.acts,
                0,
                &mut self.locks,
            ),
            ListCall::Change(name, bit, value, object) => {
                self.change(name, &[BitChange { bit, value }], object)
            }
            ListCall::TakeAndGive(name, window) => self.take_and_give(name, window),
            ListCall::Remove(name) => {
                self.acl
                    .remove(user(name), &mut self.acts, 0, &mut self.locks)
            }
            ListCall::Group(name, leader) => self.group(name, leader),
            ListCall::Mask(name, bit, value) => self.mask(MaskScope::User(user(name)), bit, value),
            ListCall::Preset(kind, bit, value) => self.mask(MaskScope::Preset(kind), bit, value),
            _ => {
                self.act(call);
                Ok(())
            }
        }
    }

    fn change(
        &mut self,
        name: TestUser,
        changes: &[BitChange],
        object: Object,
    ) -> Result<(), AclFault> {
        self.acl.change(
            RightsChange {
                names: &[user(name)],
                changes,
                objects: &[object],
            },
            &mut self.acts,
            0,
            &mut self.locks,
        )
    }

    fn take_and_give(&mut self, name: TestUser, window: u32) -> Result<(), AclFault> {
        let take = BitChange {
            bit: Bit::Write,
            value: false,
        };
        let give = BitChange {
            bit: Bit::Write,
            value: true,
        };
        self.change(name, &[take, give], Object::Window(window))
    }

    fn group(&mut self, name: TestUser, leader: Option<TestUser>) -> Result<(), AclFault> {
        let leader = match leader {
            Some(leader) => NewLeader::Named(user(leader)),
            None => NewLeader::Nobody,
        };
        let change = LeaderChange {
            name: user(name),
            leader,
        };
        self.acl.group(change, &mut self.acts, 0, &mut self.locks)
    }

    fn mask(&mut self, scope: MaskScope, bit: Bit, value: bool) -> Result<(), AclFault> {
        let owner = self.acl.owner();
        self.acl.mask(
            MaskChange {
                by: owner,
                entries: &[MaskEntry { scope, bit, value }],
            },
            &mut self.acts,
            0,
            &mut self.locks,
        )
    }

    /// The user with this name; each name has one.
    fn known(&self, name: TestUser) -> UserId {
        match user(name) {
            Some(user) => user,
            None => self.acl.owner(),
        }
    }

    /// Does a call that takes no memory.
    fn act(&mut self, call: ListCall) {
        match call {
            ListCall::Open(name, window) => {
                let by = self.known(name);
                self.acl.window_opened(by, window);
                self.locks.opened(by, window);
            }
            ListCall::Close(window) => {
                self.acl.window_closed(window);
                self.locks.closed(window);
            }
            ListCall::Lock(name, window, mode) => {
                let by = self.known(name);
                self.locks.set_mode(by, window, mode);
            }
            ListCall::Default(mode) => self.locks.set_default(mode),
            ListCall::Enter(name, window) => {
                let user = self.known(name);
                let object = Object::Window(window);
                let may_write = self.acl.may(user, Bit::Write, object).is_ok();
                self.locks.entered(user, window, may_write);
            }
            ListCall::Leave(name, window) => {
                let user = self.known(name);
                self.locks.left(user, window);
            }
            ListCall::Part(name) => self.locks.parted(user(name)),
            _ => {}
        }
    }

    /// Whether the check of a user's bit on an object has this answer. For w on a window it checks the
    /// lock, too.
    pub fn answers(&self, name: TestUser, bit: Bit, object: Object, want: Want) -> bool {
        let asker = self.known(name);
        match self.acl.may(asker, bit, object) {
            Err(denial) => are_named(denial.leaders.as_slice(), want),
            Ok(()) => self.is_let(asker, bit, object, want),
        }
    }

    /// Whether a passed check of the bit is the wanted answer; another user may still hold the lock.
    fn is_let(&self, asker: UserId, bit: Bit, object: Object, want: Want) -> bool {
        let wanted = match want {
            Want::Passes => None,
            Want::Locked(name) => user(name),
            _ => return false,
        };
        match (bit, object) {
            (Bit::Write, Object::Window(window)) => match self.locks.may_type(asker, window) {
                Err(denial) => wanted == Some(denial.holder),
                Ok(()) => wanted.is_none(),
            },
            _ => wanted.is_none(),
        }
    }
}

/// Whether a denial by an entry names exactly these leaders.
fn are_named(leaders: &[UserId], want: Want) -> bool {
    let (first, second) = match want {
        Want::NoEntry => (None, None),
        Want::Leader(name) => (user(name), None),
        Want::Leaders(name, next) => (user(name), user(next)),
        _ => return false,
    };
    leaders.get(0).copied() == first && leaders.get(1).copied() == second
}
