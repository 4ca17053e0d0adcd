//! The access lists of a session, and what the list commands ask of them. A name is `None` for a word that is no name,
//! and objects are there.

ghost use Rattle.std.specs.Prelude.{◌≡◌, ◌+◌, ◌≤◌, [], is_ok, IfOk, IfErr, OnOk, OnErr, length, slice_get, true, false};
ghost use Rattle.std.specs.Prelude.{vec_len};
ghost use Rattle.acl_words.specs.declared.slots.TheConstants.{WINDOWS};
ghost use Rattle.std.specs.Vec.{vec_capacity};

use crate::carry::{Plan, conclude};
use crate::lists::{Follower, Lists};
use crate::plan::{change_fault, plan_addition, plan_change, plan_group, plan_masks, plan_removal};
use acl_words::{
    AclFault, Act, Bit, BitChange, Edition, EntryDenial, Leaders, MaskEntry, NewLeader, Object,
    UserId,
};
use std::alloc::{AllocError, Global};
use std::marker::Model;

/// Users who are to be known and to get each bit on objects.
#[derive(Clone, Copy)]
pub struct NewUsers<'a> {
    pub names: &'a [Option<UserId>],
    pub objects: &'a [Object],
}

/// A change of users' bits on objects.
#[derive(Clone, Copy)]
pub struct RightsChange<'a> {
    pub names: &'a [Option<UserId>],
    pub changes: &'a [BitChange],
    pub objects: &'a [Object],
}

/// A change of a user's leaders.
#[derive(Clone, Copy)]
pub struct LeaderChange {
    pub name: Option<UserId>,
    pub leader: NewLeader,
}

/// A change of the masks of a user who opens windows, and of the presets.
#[derive(Clone, Copy)]
pub struct MaskChange<'a> {
    pub by: UserId,
    pub entries: &'a [MaskEntry],
}

/// The access lists of a session: who is known, what each user may do, who leads whom, masks and
/// presets.
///
/// A list command is done whole or refused whole. It is refused for its first fault from the left,
/// or because memory was refused. Its words for users are given as `UserId::of` answers them:
/// `None` for a word that is no name. Its acts are put at the end of `acts`, in order, and the
/// follower is told of each act after it is done. `room` is the number of further acts for which
/// room is made: the caller may then push these without growing the vector.
pub struct Acl {
    lists: Lists,
}

impl Drop for Acl {
    fn drop(self) {
        let Acl { lists: _ } = self;
    }
}

impl Model for Acl {
    ghost use Rattle.acl.specs.Table.{Table};

    ghost Value = { Table };

    ghost use Rattle.acl.specs.Lists.{table_of};

    ghost view = { λ a. table_of a.lists };
}

impl Acl {
    ghost use Rattle.std.specs.Prelude.{◌≡◌, ◌∷◌, ◌<◌};
    ghost use Rattle.acl.specs.History.{History, is_known, is_open, open_count, users_of};
    ghost use Rattle.acl.specs.History.{leaders_of, there, may};
    ghost use Rattle.acl.specs.Commands.{add_acts, change_fault, change_acts, known_name_fault};
    ghost use Rattle.acl.specs.Commands.{removal_acts, group_fault, group_acts, mask_fault};
    ghost use Rattle.acl.specs.Commands.{mask_acts};
    ghost use Rattle.acl.specs.Deeds.{Refuses, Does, DoesOn};
    ghost use Rattle.acl.specs.Table.{StandsFor, IsDenial, knows, led_by, lets, users_in};
    ghost use Rattle.acl.specs.Lists.{table_of};
    ghost use Rattle.acl_words.specs.declared.leaders.Edition.{Edition};
    ghost use Rattle.acl_words.specs.declared.act.Act.TheVariants.{Opened, Closed};

    /// The lists of a session that only its owner has entered. `AllocError` if memory is refused.
    pub fn new(alloc: Global, owner: UserId, edition: Edition) -> Result<Self, AllocError>
        ensures { IfOk result (λ acl. StandsFor acl edition owner []) }
    {
        Ok(Acl {
            lists: Lists::new(alloc, owner, edition)?,
        })
    }

    /// The lists at this moment.
    pub fn lists(&self) -> &Lists
        ensures { table_of result.now ≡ self.now }
    {
        &self.lists
    }

    /// How many groups a user may be in. It never changes.
    pub fn edition(&self) -> Edition
        ensures { result ≡ self.now.edition }
    {
        self.lists.edition()
    }

    /// The session's owner.
    pub fn owner(&self) -> UserId
        ensures { result ≡ self.now.owner }
    {
        self.lists.owner()
    }

    /// Whether the name is known.
    pub fn knows(&self, user: UserId) -> bool
        ensures { result ≡ knows self.now user }
    {
        self.lists.knows(user)
    }

    /// The number of known users, the owner included: 1 to 64.
    pub fn user_count(&self) -> usize
        ensures { result ≡ length (users_in self.now) }
    {
        self.lists.user_count()
    }

    /// The known user at this place, from 0, in the order in which they became known; the owner is
    /// first. `None` beyond the last.
    pub fn user_at(&self, place: usize) -> Option<UserId>
        ensures { result ≡ slice_get (users_in self.now) place }
    {
        self.lists.user_at(place)
    }

    /// The user's leaders, in the order in which they were named.
    pub fn leaders_of(&self, user: UserId) -> Leaders
        ensures { result ≡ led_by self.now user }
    {
        self.lists.leaders_of(user)
    }

    /// Whether the user has the bit on an object that is there, by their own entry or by a
    /// leader's. If not, the error says who was asked.
    pub fn may(&self, user: UserId, bit: Bit, object: Object) -> Result<(), EntryDenial>
        ensures answer { (edition : Edition) (owner : UserId) (h : History) →
            StandsFor self.now edition owner h → there h object ≡ true →
            is_ok result ≡ may edition owner h user bit object }
        ensures table { is_ok result ≡ lets self.now user bit object }
        ensures denial { IfErr result (λ d. (edition : Edition) (owner : UserId) (h : History) →
            StandsFor self.now edition owner h → there h object ≡ true →
            IsDenial edition owner h user bit object d) }
    {
        self.lists.may(user, bit, object)
    }

    /// The fault that refuses a change of these users' bits, or their addition: the first from the
    /// left. `None` if there is none.
    pub fn change_fault(&self, names: &[Option<UserId>]) -> Option<AclFault>
        ensures { (edition : Edition) (owner : UserId) (h : History) →
            StandsFor self.now edition owner h →
            result ≡ change_fault owner (users_of owner h) names.now }
    {
        change_fault(&self.lists, names)
    }

    /// `aclchg`: changes users' bits on objects that are there. A name that isn't known becomes
    /// known first. Errors: the first fault of `change_fault`, or `NoMemory`.
    pub fn change<F: Follower>(
        &mut self,
        change: RightsChange,
        acts: &mut Vec<Act>,
        room: usize,
        follower: &mut F,
    ) -> Result<(), AclFault>
        ensures answer { Refuses self.old
            (λ _ owner h. change_fault owner (users_of owner h) change.entry.names.now) result }
        ensures done { OnOk result (DoesOn change.entry.objects.now self.old self.new
            acts.old.items acts.new.items (F.follows follower.old) (F.follows follower.new)
            (λ owner h. change_acts (users_of owner h) change.entry.names.now
            change.entry.changes.now change.entry.objects.now)) }
        ensures room { OnOk result (vec_len acts.new + room ≤ vec_capacity acts.new) }
        ensures err { OnErr result ((self.new ≡ self.old) × (acts.new.items ≡ acts.old.items)
            × (follower.new ≡ follower.old)) }
    {
        let start = acts.len();
        let planned = plan_change(&self.lists, change, acts);
        let plan = Plan {
            planned,
            start,
            room,
        };
        conclude(&mut self.lists, plan, acts, follower)
    }

    /// `acladd`: makes names known, and then grants each of these users each bit on the objects,
    /// which are there. Errors: the first fault of `change_fault`, or `NoMemory`.
    pub fn add<F: Follower>(
        &mut self,
        users: NewUsers,
        acts: &mut Vec<Act>,
        room: usize,
        follower: &mut F,
    ) -> Result<(), AclFault>
        ensures answer { Refuses self.old
            (λ _ owner h. change_fault owner (users_of owner h) users.entry.names.now) result }
        ensures done { OnOk result (DoesOn users.entry.objects.now self.old self.new
            acts.old.items acts.new.items (F.follows follower.old) (F.follows follower.new)
            (λ owner h. add_acts (users_of owner h) users.entry.names.now
            users.entry.objects.now)) }
        ensures room { OnOk result (vec_len acts.new + room ≤ vec_capacity acts.new) }
        ensures err { OnErr result ((self.new ≡ self.old) × (acts.new.items ≡ acts.old.items)
            × (follower.new ≡ follower.old)) }
    {
        let start = acts.len();
        let planned = plan_addition(&self.lists, users.names, users.objects, acts);
        let plan = Plan {
            planned,
            start,
            room,
        };
        conclude(&mut self.lists, plan, acts, follower)
    }

    /// `acldel`: removes a user, with their rights, masks and leaders. Errors: the name isn't
    /// known, or is the owner's, or memory is refused.
    pub fn remove<F: Follower>(
        &mut self,
        name: Option<UserId>,
        acts: &mut Vec<Act>,
        room: usize,
        follower: &mut F,
    ) -> Result<(), AclFault>
        ensures answer { Refuses self.old
            (λ _ owner h. known_name_fault owner (users_of owner h) name) result }
        ensures done { OnOk result (Does self.old self.new acts.old.items acts.new.items
            (F.follows follower.old) (F.follows follower.new)
            (λ owner h. removal_acts name)) }
        ensures room { OnOk result (vec_len acts.new + room ≤ vec_capacity acts.new) }
        ensures err { OnErr result ((self.new ≡ self.old) × (acts.new.items ≡ acts.old.items)
            × (follower.new ≡ follower.old)) }
    {
        let start = acts.len();
        let planned = plan_removal(&self.lists, name, acts);
        let plan = Plan {
            planned,
            start,
            room,
        };
        conclude(&mut self.lists, plan, acts, follower)
    }

    /// `aclgrp`: gives a user a leader, or none. In the first edition a new leader takes the former
    /// one's place. In the second the new leader comes last, and one who already leads the user
    /// keeps their place. Errors: a name isn't known or is the owner's, the leader would be the
    /// user, the user would have more than eight leaders, or memory is refused.
    pub fn group<F: Follower>(
        &mut self,
        change: LeaderChange,
        acts: &mut Vec<Act>,
        room: usize,
        follower: &mut F,
    ) -> Result<(), AclFault>
        ensures answer { Refuses self.old (λ edition owner h. group_fault edition owner
            (users_of owner h) (leaders_of edition h) change.name change.leader) result }
        ensures done { OnOk result (Does self.old self.new acts.old.items acts.new.items
            (F.follows follower.old) (F.follows follower.new)
            (λ owner h. group_acts change.name change.leader)) }
        ensures room { OnOk result (vec_len acts.new + room ≤ vec_capacity acts.new) }
        ensures err { OnErr result ((self.new ≡ self.old) × (acts.new.items ≡ acts.old.items)
            × (follower.new ≡ follower.old)) }
    {
        let start = acts.len();
        let planned = plan_group(&self.lists, change.name, change.leader, acts);
        let plan = Plan {
            planned,
            start,
            room,
        };
        conclude(&mut self.lists, plan, acts, follower)
    }

    /// `aclumask`: sets what users get on windows that `by` of the change opens later,
    /// and the presets. Errors: the first fault of a name from the left, or `NoMemory`.
    pub fn mask<F: Follower>(
        &mut self,
        change: MaskChange,
        acts: &mut Vec<Act>,
        room: usize,
        follower: &mut F,
    ) -> Result<(), AclFault>
        ensures answer { Refuses self.old
            (λ _ owner h. mask_fault owner (users_of owner h) change.entry.entries.now) result }
        ensures done { OnOk result (Does self.old self.new acts.old.items acts.new.items
            (F.follows follower.old) (F.follows follower.new)
            (λ owner h. mask_acts change.entry.by change.entry.entries.now)) }
        ensures room { OnOk result (vec_len acts.new + room ≤ vec_capacity acts.new) }
        ensures err { OnErr result ((self.new ≡ self.old) × (acts.new.items ≡ acts.old.items)
            × (follower.new ≡ follower.old)) }
    {
        let start = acts.len();
        let planned = plan_masks(&self.lists, change.by, change.entries, acts);
        let plan = Plan {
            planned,
            start,
            room,
        };
        conclude(&mut self.lists, plan, acts, follower)
    }

    /// Records that a known user opened a window, whose serial number is new. At most 39 others are
    /// open.
    pub fn window_opened(&mut self, by: UserId, window: u32)
        ensures { (edition : Edition) (owner : UserId) (h : History) →
            StandsFor self.old edition owner h →
            is_known owner h by ≡ true → is_open h window ≡ false → open_count h < WINDOWS →
            StandsFor self.new edition owner (Opened by window ∷ h) }
    {
        self.lists.open(by, window);
    }

    /// Records that a window was closed.
    pub fn window_closed(&mut self, window: u32)
        ensures { (edition : Edition) (owner : UserId) (h : History) →
            StandsFor self.old edition owner h →
            StandsFor self.new edition owner (Closed window ∷ h) }
    {
        self.lists.close(window);
    }
}
