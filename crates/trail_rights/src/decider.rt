//! Rights after the acts of a history, and what decides a user's bit on an object.

ghost use Rattle.std.specs.Prelude.{◌≡◌, ◌||◌, ◌&&◌, ◌++◌, [], true, IfOk, OnOk, option_to_list};
ghost use Rattle.std.specs.List.{list_all};
ghost use Rattle.acl.specs.Same.{same_user, same_bit, same_object};
ghost use Rattle.acl.specs.declared.leaders.Edition.{Edition};
ghost use Rattle.acl.specs.declared.user_id.UserId.{UserId};
ghost use Rattle.acl.specs.History.{History, may, there, users_of, decides_known, decides_open};
ghost use Rattle.hub.specs.Following.{StandsAfter};
ghost use Rattle.trail_rights.specs.Deciding.{HasDecided, decides, decider_after, first_decider, found_in, there_after};
ghost use Rattle.trail_rights.specs.Keeping.{is_asked};

use crate::acts::{AskedBits, Mark};
use acl::{Act, Bit, Object, UserId};
use hub::Rights;
use std::alloc::{AllocError, Global};

/// Looks for the latest act that decides a user's bit on an object.
#[derive(Clone, Copy)]
pub struct Decider {
    owner: UserId,
    user: UserId,
    bit: Bit,
    object: Object,
    /// Whether an act made the user known, and none gone.
    listed: bool,
    /// Whether the object is there.
    there: bool,
    found: Option<(Mark, Act)>,
}

/// Whether the act makes the user known, or gone.
pub fn decides_known(user: UserId, act: &Act) -> Option<bool>
    ensures { result ≡ decides_known user act.now }
{
    match *act {
        Act::Known { user: named } => if named == user { Some(true) } else { None },
        Act::Gone { user: named } => if named == user { Some(false) } else { None },
        _ => None,
    }
}

/// Whether the act opens the window, or closes it.
fn decides_open(window: u32, act: &Act) -> Option<bool>
    ensures { result ≡ decides_open window act.now }
{
    match *act {
        Act::Opened { window: named, .. } => if named == window { Some(true) } else { None },
        Act::Closed { window: named } => if named == window { Some(false) } else { None },
        _ => None,
    }
}

/// Whether the objects are the same.
pub fn is_same(object: Object, other: Object) -> bool
    ensures { result ≡ same_object object other }
{
    match (object, other) {
        (Object::Window(window), Object::Window(named)) => window == named,
        (Object::Command(command), Object::Command(named)) => command == named,
        (Object::Window(_), Object::Command(_)) => false,
        (Object::Command(_), Object::Window(_)) => false,
    }
}

/// Whether an object is there after an act.
fn there_after(act: &Act, object: Object, before: bool) -> bool
    ensures { result ≡ there_after act.now object before }
{
    match object {
        Object::Window(window) => decides_open(window, act).unwrap_or(before),
        Object::Command(_) => before,
    }
}

impl Decider {
    /// Before the first act.
    pub fn new(owner: UserId, user: UserId, bit: Bit, object: Object) -> Decider
        ensures decided { HasDecided owner [] result }
        ensures is { result ≡ first_decider owner user bit object }
        ensures user { result.user ≡ user }
        ensures bit { result.bit ≡ bit }
        ensures object { result.object ≡ object }
    {
        Decider {
            owner,
            user,
            bit,
            object,
            listed: false,
            there: matches!(object, Object::Command(_)),
            found: None,
        }
    }

    /// Whose bit it is.
    pub fn user(&self) -> UserId
        ensures { result ≡ self.now.user }
    {
        self.user
    }

    /// The act that decides, with its mark, if one does.
    pub fn found(&self) -> Option<(Mark, Act)>
        ensures { result ≡ self.now.found }
    {
        self.found
    }

    /// Whether the user is known.
    fn is_known(&self) -> bool
        ensures { result ≡ (same_user self.now.owner self.now.user || self.now.listed) }
    {
        self.owner == self.user || self.listed
    }

    /// Whether it is decided what the user gets on a window that `by` opens.
    fn is_given_by(&self, by: UserId) -> bool
        ensures { result ≡ (same_user by self.now.user
            || (same_user self.now.owner self.now.user || self.now.listed)) }
    {
        by == self.user || self.is_known()
    }

    /// Whether this is what is looked for.
    fn is_asked(&self, user: UserId, bit: Bit, object: Object) -> bool
        ensures { result ≡ (same_user user self.now.user && same_bit bit self.now.bit
            && same_object object self.now.object) }
    {
        if !(user == self.user) {
            return false;
        }
        if !(bit == self.bit) {
            return false;
        }
        is_same(object, self.object)
    }

    /// Whether the act decides.
    fn decides(&self, act: &Act) -> bool
        ensures { result ≡ decides self.now act.now }
    {
        match *act {
            Act::Known { user } => user == self.user && self.there,
            Act::Gone { user } => user == self.user,
            Act::Set {
                user,
                bit,
                object,
                ..
            } => self.is_asked(user, bit, object),
            Act::Opened { by, window } => {
                Object::Window(window) == self.object && self.is_given_by(by)
            }
            _ => false,
        }
    }

    /// The decider after one more act.
    pub fn after(self, mark: Mark, act: &Act) -> Decider
        ensures { result ≡ decider_after mark act.now self }
    {
        let found = if self.decides(act) {
            Some((mark, *act))
        } else {
            self.found
        };
        Decider {
            listed: decides_known(self.user, act).unwrap_or(self.listed),
            there: there_after(act, self.object, self.there),
            found,
            ..self
        }
    }
}

/// Whether each of the deciders looks for a bit that is asked about.
pub fn are_asked(asked: AskedBits, deciders: &[Decider]) -> bool
    ensures { result ≡ list_all (is_asked asked) deciders.now }
{
    for decider in deciders {
        if !asked.asks(decider.bit, decider.object) {
            return false;
        }
    }
    true
}

/// What decides a user's bit on an object, by the first decider that looks for it.
pub fn found_in(deciders: &[Decider], user: UserId, bit: Bit, object: Object) -> Option<(Mark, Act)>
    ensures { result ≡ found_in deciders.now user bit object }
{
    for decider in deciders {
        if decider.is_asked(user, bit, object) {
            return decider.found;
        }
    }
    None
}

/// Whether the user has the bit on an object that is there.
pub fn may(replay: &Rights, user: UserId, bit: Bit, object: Object) -> bool
    ensures { (edition : Edition) (owner : UserId) (h : History) →
        StandsAfter replay.now edition owner h → there h object ≡ true →
        result ≡ may edition owner h user bit object }
{
    replay.is_there(object) && replay.may(user, bit, object)
}

/// Appends a user, if there is one.
fn push_user(user: Option<UserId>, users: &mut Vec<UserId>) -> Result<(), AllocError>
    ensures { OnOk result (users.new.items ≡ users.old.items ++ option_to_list user) }
{
    if let Some(user) = user {
        users.push(user)?;
    }
    Ok(())
}

/// The known users, in the order in which they became known; the owner is first.
pub fn users_of(alloc: Global, replay: &Rights) -> Result<Vec<UserId>, AllocError>
    ensures { (edition : Edition) (owner : UserId) (h : History) →
        StandsAfter replay.now edition owner h →
        IfOk result (λ users. users.items ≡ users_of owner h) }
{
    let mut users = Vec::new(alloc);
    for place in 0..replay.user_count() {
        push_user(replay.user_at(place), &mut users)?;
    }
    Ok(users)
}
