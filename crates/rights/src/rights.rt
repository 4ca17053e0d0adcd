//! Rights, locks and clients after the acts of a history.

ghost use Rattle.std.specs.Prelude.{◌≡◌, ◌&&◌, ◌==◌, [], true, IfOk, slice_get, length};
ghost use Rattle.std.specs.List.{list_any};
ghost use Rattle.acl.specs.declared.leaders.Edition.{Edition};
ghost use Rattle.acl.specs.declared.user_id.UserId.{UserId};
ghost use Rattle.acl.specs.Same.{same_user};
ghost use Rattle.acl.specs.History.{History, is_known, is_open, leaders_of, may, there, users_of};
ghost use Rattle.writelock.specs.Holding.{clients_of, holder};
ghost use Rattle.rights.specs.Following.{Redoes, RedoesAll, StandsAfter};

use crate::clients::is_client_of;
use crate::lists::{follow_run, forget, group, know, mask, preset, set};
use crate::moves::{attach, close, enter, leave, open, part, set_default, set_mode};
use crate::runs::BitRun;
use acl::{Acl, Act, Bit, Edition, Leaders, Object, UserId};
use std::alloc::{AllocError, Global};
use writelock::Locks;

/// Rights, locks, and the clients that are attached, after the acts that were followed. What a call
/// answers holds after any history that the value stands for.
#[derive(Drop)]
pub struct Rights {
    pub(crate) acl: Acl,
    pub(crate) locks: Locks,
    /// The serials and users of attached clients, the newest first.
    pub(crate) clients: Vec<(u32, UserId)>,
    /// How many windows are open.
    pub(crate) windows: usize,
    /// List commands put their acts here; nobody reads them.
    pub(crate) scratch: Vec<Act>,
}

impl Rights {
    /// Before the first act of a session.
    pub fn new(alloc: Global, edition: Edition, owner: UserId) -> Result<Rights, AllocError>
        ensures { IfOk result (λ r. StandsAfter r edition owner []) }
    {
        Ok(Rights {
            acl: Acl::new(alloc, owner, edition)?,
            locks: Locks::new(),
            clients: Vec::new(alloc),
            windows: 0,
            scratch: Vec::new(alloc),
        })
    }

    /// Whether the user is known.
    pub fn knows(&self, user: UserId) -> bool
        ensures { (edition : Edition) (owner : UserId) (h : History) →
            StandsAfter self.now edition owner h → result ≡ is_known owner h user }
    {
        self.acl.knows(user)
    }

    /// How many users are known, the owner among them.
    pub fn user_count(&self) -> usize
        ensures { (edition : Edition) (owner : UserId) (h : History) →
            StandsAfter self.now edition owner h → result ≡ length (users_of owner h) }
    {
        self.acl.user_count()
    }

    /// The known user at this place, in the order in which they became known; the owner is first.
    pub fn user_at(&self, place: usize) -> Option<UserId>
        ensures { (edition : Edition) (owner : UserId) (h : History) →
            StandsAfter self.now edition owner h → result ≡ slice_get (users_of owner h) place }
    {
        self.acl.user_at(place)
    }

    /// The user's leaders, in the order in which they were named.
    pub fn leaders_of(&self, user: UserId) -> Leaders
        ensures { (edition : Edition) (owner : UserId) (h : History) →
            StandsAfter self.now edition owner h → result ≡ leaders_of edition h user }
    {
        self.acl.leaders_of(user)
    }

    /// Whether a window is open.
    pub(crate) fn is_open(&self, window: u32) -> bool
        ensures { (edition : Edition) (owner : UserId) (h : History) →
            StandsAfter self.now edition owner h → result ≡ is_open h window }
    {
        self.locks.mode(window).is_some()
    }

    /// Whether an object is there: a command, or an open window.
    pub fn is_there(&self, object: Object) -> bool
        ensures { (edition : Edition) (owner : UserId) (h : History) →
            StandsAfter self.now edition owner h → result ≡ there h object }
    {
        match object {
            Object::Window(window) => self.is_open(window),
            Object::Command(_) => true,
        }
    }

    /// Whether the user has the bit on an object that is there.
    pub fn may(&self, user: UserId, bit: Bit, object: Object) -> bool
        ensures { (edition : Edition) (owner : UserId) (h : History) →
            StandsAfter self.now edition owner h → there h object ≡ true →
            result ≡ may edition owner h user bit object }
    {
        self.acl.may(user, bit, object).is_ok()
    }

    /// The user who holds the lock of a window, if one does.
    pub fn holder(&self, window: u32) -> Option<UserId>
        ensures { (edition : Edition) (owner : UserId) (h : History) →
            StandsAfter self.now edition owner h → result ≡ holder edition owner h window }
    {
        self.locks.holder(window)
    }

    /// Whether the client of this serial is attached, and is this user's.
    pub fn is_client_of(&self, client: u32, user: UserId) -> bool
        ensures { (edition : Edition) (owner : UserId) (h : History) →
            StandsAfter self.now edition owner h → result ≡ list_any (λ c. (c.0 == client) && same_user c.1 user) (clients_of h) }
    {
        is_client_of(&self.clients, client, user)
    }

    /// Follows an act, and answers whether it can follow the acts before it. If it can't, or memory
    /// was refused, the value must not be used again.
    pub fn follow(&mut self, act: Act) -> Result<bool, AllocError>
        ensures { Redoes self.old self.new result act }
    {
        match act {
            Act::Known { user } => know(self, user),
            Act::Gone { user } => forget(self, user),
            Act::Set {
                user,
                bit,
                object,
                value,
            } => set(self, user, bit, object, value),
            Act::Grouped { user, leader } => group(self, user, leader),
            Act::Masked {
                by,
                user,
                bit,
                value,
            } => mask(self, by, user, bit, value),
            Act::Preset { kind, bit, value } => preset(self, kind, bit, value),
            Act::Opened { by, window } => Ok(open(self, by, window)),
            Act::Closed { window } => Ok(close(self, window)),
            Act::Attached { client, user } => attach(self, client, user),
            Act::Parted { client } => Ok(part(self, client)),
            Act::Entered { user, window } => Ok(enter(self, user, window)),
            Act::Left { user, window } => Ok(leave(self, user, window)),
            Act::Mode { by, window, mode } => Ok(set_mode(self, by, window, mode)),
            Act::Default { mode } => Ok(set_default(self, mode)),
        }
    }

    /// Follows acts in order, and answers whether each can follow the acts before it. If one can't,
    /// or memory was refused, the value must not be used again.
    pub fn follow_all(&mut self, acts: &[Act]) -> Result<bool, AllocError>
        ensures { RedoesAll self.old self.new result acts.now }
    {
        let mut run = BitRun::new(*self.scratch.allocator());
        let mut rest = acts;
        'acts: while let Some((act, behind)) = rest.split_first() {
            match follow_run(self, &mut run, rest)? {
                Some(after) => rest = after,
                None => {
                    if !self.follow(*act)? {
                        return Ok(false);
                    }
                    rest = behind;
                }
            }
        }
        Ok(true)
    }
}
