//! The acts of list commands, and the fault that refuses one: the first from the left.

ghost use Rattle.std.specs.Prelude.{◌≡◌, ◌&&◌, ◌||◌, ◌++◌, ◌∷◌, [], not, Some, None, IfOk, IfErr, OnOk, OnErr, length};
ghost use Rattle.std.specs.List.{list_any};
ghost use Rattle.acl.specs.Commands.{Answers, Keeps, names_user, with_name, with_names, new_name, new_name_fault};
ghost use Rattle.acl.specs.Commands.{new_acts, known_acts, name_sets, names_sets, add_acts, change_fault, change_acts};
ghost use Rattle.acl.specs.Commands.{known_name_fault, removal_acts, leader_fault, chosen_leader, group_fault};
ghost use Rattle.acl.specs.Commands.{group_acts, scope_fault, scope_acts, mask_fault, mask_acts};
ghost use Rattle.acl_words.specs.Same.{same_user};
ghost use Rattle.acl.specs.History.{among};
ghost use Rattle.acl.specs.Table.{users_in, led_by};
ghost use Rattle.acl.specs.Lists.{table_of};

use crate::acl::RightsChange;
use crate::lists::Lists;
use crate::sets::{plan_sets, push_act};
use acl_words::{
    AclFault, Act, Bit, BitChange, MaskEntry, MaskScope, NewLeader, Object, USERS, UserId,
};

/// What a name that is added gets on each object.
const ADDED: [BitChange; 3] = [
    BitChange {
        bit: Bit::Read,
        value: true,
    },
    BitChange {
        bit: Bit::Write,
        value: true,
    },
    BitChange {
        bit: Bit::Execute,
        value: true,
    },
];

/// Whether the word names the user.
fn names_user(name: Option<UserId>, user: UserId) -> bool
    ensures { result ≡ names_user user name }
{
    match name {
        Some(named) => user == named,
        None => false,
    }
}

/// Whether one of the words names the user.
fn names_any(names: &[Option<UserId>], user: UserId) -> bool
    ensures { result ≡ list_any (names_user user) names.now }
{
    names.iter().any(|name| names_user(*name, user))
}

/// The user whom a word names, unless it is no name or names the owner.
fn new_name(lists: &Lists, name: Option<UserId>) -> Result<UserId, AclFault>
    ensures { result ≡ new_name (table_of lists.now).owner name }
{
    match name {
        Some(user) => if lists.owner() == user {
            Err(AclFault::OwnerKept)
        } else {
            Ok(user)
        },
        None => Err(AclFault::ReservedName),
    }
}

/// Whether the user is known, or one of the words before names them.
fn is_named(lists: &Lists, before: &[Option<UserId>], user: UserId) -> bool
    ensures { result ≡ among (with_names (users_in (table_of lists.now)) before.now) user }
{
    lists.knows(user) || names_any(before, user)
}

/// The number of users who are known after one more word of a change, if `count` are known after
/// the words before it; or the word's fault.
fn count_with(
    lists: &Lists,
    before: &[Option<UserId>],
    count: usize,
    name: Option<UserId>,
) -> Result<usize, AclFault>
    requires { count ≡ length (with_names (users_in (table_of lists.now)) before.now) }
    ensures ok { IfOk result (λ more. more ≡ length
        (with_name (with_names (users_in (table_of lists.now)) before.now) name)) }
    ensures none { OnOk result (new_name_fault (table_of lists.now).owner
        (with_names (users_in (table_of lists.now)) before.now) name ≡ None) }
    ensures err { IfErr result (λ fault. new_name_fault (table_of lists.now).owner
        (with_names (users_in (table_of lists.now)) before.now) name ≡ Some fault) }
{
    let user = new_name(lists, name)?;
    if is_named(lists, before, user) {
        return Ok(count);
    }
    if count >= USERS {
        return Err(AclFault::TooManyUsers);
    }
    Ok(count + 1)
}

/// The fault of a change of these names: the first from the left.
pub fn change_fault(lists: &Lists, names: &[Option<UserId>]) -> Option<AclFault>
    ensures { result
        ≡ change_fault (table_of lists.now).owner (users_in (table_of lists.now)) names.now }
{
    let mut count = lists.user_count();
    for i in 0..names.len() {
        match count_with(lists, &names[..i], count, names[i]) {
            Ok(more) => count = more,
            Err(fault) => return Some(fault),
        }
    }
    None
}

/// Plans the act by which a name becomes known, if it isn't known after the words before it.
fn plan_known(
    lists: &Lists,
    before: &[Option<UserId>],
    name: Option<UserId>,
    acts: &mut Vec<Act>,
) -> Result<(), AclFault>
    ensures ok { OnOk result (acts.new.items ≡ acts.old.items
        ++ new_acts (with_names (users_in (table_of lists.now)) before.now) name) }
    ensures err { OnErr result (acts.new.items ≡ acts.old.items) }
    ensures memory { IfErr result (λ fault. fault ≡ AclFault.NoMemory) }
{
    match name {
        Some(user) => if is_named(lists, before, user) {
            Ok(())
        } else {
            push_act(acts, Act::Known { user })
        },
        None => Ok(()),
    }
}

/// Plans the acts that set the bits of the user whom a word names.
fn plan_name_sets(
    name: Option<UserId>,
    changes: &[BitChange],
    objects: &[Object],
    acts: &mut Vec<Act>,
) -> Result<(), AclFault>
    ensures ok { OnOk result
        (acts.new.items ≡ acts.old.items ++ name_sets changes.now objects.now name) }
    ensures err { OnErr result (Keeps acts.old.items acts.new.items) }
    ensures memory { IfErr result (λ fault. fault ≡ AclFault.NoMemory) }
{
    match name {
        Some(user) => plan_sets(user, changes, objects, acts),
        None => Ok(()),
    }
}

/// Plans a change of bits, user by user. A name that isn't known becomes known first.
pub fn plan_change(lists: &Lists, change: RightsChange, acts: &mut Vec<Act>) -> Result<(), AclFault>
    ensures answer { Answers result (change_fault (table_of lists.now).owner
        (users_in (table_of lists.now)) change.entry.names.now) }
    ensures ok { OnOk result (acts.new.items ≡ acts.old.items
        ++ change_acts (users_in (table_of lists.now)) change.entry.names.now
        change.entry.changes.now change.entry.objects.now) }
    ensures err { OnErr result (Keeps acts.old.items acts.new.items) }
{
    let RightsChange {
        names,
        changes,
        objects,
    } = change;
    if let Some(fault) = change_fault(lists, names) {
        return Err(fault);
    }
    for i in 0..names.len() {
        plan_known(lists, &names[..i], names[i], acts)?;
        plan_name_sets(names[i], changes, objects, acts)?;
    }
    Ok(())
}

/// Plans the acts by which names that aren't known become known.
fn plan_all_known(
    lists: &Lists,
    names: &[Option<UserId>],
    acts: &mut Vec<Act>,
) -> Result<(), AclFault>
    ensures ok { OnOk result (acts.new.items ≡ acts.old.items
        ++ known_acts (users_in (table_of lists.now)) names.now) }
    ensures err { OnErr result (Keeps acts.old.items acts.new.items) }
    ensures memory { IfErr result (λ fault. fault ≡ AclFault.NoMemory) }
{
    for i in 0..names.len() {
        plan_known(lists, &names[..i], names[i], acts)?;
    }
    Ok(())
}

/// Plans the acts that grant the added names their bits, user by user.
fn plan_grants(
    names: &[Option<UserId>],
    objects: &[Object],
    acts: &mut Vec<Act>,
) -> Result<(), AclFault>
    ensures ok { OnOk result (acts.new.items ≡ acts.old.items ++ names_sets objects.now names.now) }
    ensures err { OnErr result (Keeps acts.old.items acts.new.items) }
    ensures memory { IfErr result (λ fault. fault ≡ AclFault.NoMemory) }
{
    for name in names {
        plan_name_sets(*name, &ADDED, objects, acts)?;
    }
    Ok(())
}

/// Plans an addition of names: each that isn't known becomes known, and then each user is granted
/// each bit.
pub fn plan_addition(
    lists: &Lists,
    names: &[Option<UserId>],
    objects: &[Object],
    acts: &mut Vec<Act>,
) -> Result<(), AclFault>
    ensures answer { Answers result
        (change_fault (table_of lists.now).owner (users_in (table_of lists.now)) names.now) }
    ensures ok { OnOk result (acts.new.items ≡ acts.old.items
        ++ add_acts (users_in (table_of lists.now)) names.now objects.now) }
    ensures err { OnErr result (Keeps acts.old.items acts.new.items) }
{
    if let Some(fault) = change_fault(lists, names) {
        return Err(fault);
    }
    plan_all_known(lists, names, acts)?;
    plan_grants(names, objects, acts)
}

/// The known user whom a word names, unless it is the owner.
fn known_name(lists: &Lists, name: Option<UserId>) -> Result<UserId, AclFault>
    ensures answer { Answers result
        (known_name_fault (table_of lists.now).owner (users_in (table_of lists.now)) name) }
    ensures user { IfOk result (λ user. name ≡ Some user) }
{
    let user = new_name(lists, name)?;
    if lists.knows(user) {
        Ok(user)
    } else {
        Err(AclFault::UnknownUser)
    }
}

/// Plans a user's removal.
pub fn plan_removal(
    lists: &Lists,
    name: Option<UserId>,
    acts: &mut Vec<Act>,
) -> Result<(), AclFault>
    ensures answer { Answers result
        (known_name_fault (table_of lists.now).owner (users_in (table_of lists.now)) name) }
    ensures ok { OnOk result (acts.new.items ≡ acts.old.items ++ removal_acts name) }
    ensures err { OnErr result (acts.new.items ≡ acts.old.items) }
{
    let user = known_name(lists, name)?;
    push_act(acts, Act::Gone { user })
}

/// Whether a known user may lead another.
fn may_lead(lists: &Lists, user: UserId, leader: UserId) -> bool
    ensures { result
        ≡ (among (users_in (table_of lists.now)) leader && not (same_user user leader)) }
{
    lists.knows(leader) && !(user == leader)
}

/// The leader whom a word names for a user, or why that user can't lead them.
fn leader_for(lists: &Lists, user: UserId, leader: NewLeader) -> Result<Option<UserId>, AclFault>
    ensures answer { Answers result
        (leader_fault (table_of lists.now).edition (table_of lists.now).owner
        (users_in (table_of lists.now)) (led_by (table_of lists.now)) (Some user) leader) }
    ensures leader { IfOk result (λ chosen. chosen ≡ chosen_leader leader) }
{
    match leader {
        NewLeader::Nobody => Ok(None),
        NewLeader::Named(None) => Err(AclFault::NoSuchGroup),
        NewLeader::Named(Some(leader)) => if lists.owner() == leader {
            Err(AclFault::OwnerKept)
        } else if !may_lead(lists, user, leader) {
            Err(AclFault::NoSuchGroup)
        } else if !lists.has_place(user, leader) {
            Err(AclFault::TooManyGroups)
        } else {
            Ok(Some(leader))
        },
    }
}

/// Plans the act that gives a user a leader, or none.
pub fn plan_group(
    lists: &Lists,
    name: Option<UserId>,
    leader: NewLeader,
    acts: &mut Vec<Act>,
) -> Result<(), AclFault>
    ensures answer { Answers result
        (group_fault (table_of lists.now).edition (table_of lists.now).owner
        (users_in (table_of lists.now)) (led_by (table_of lists.now)) name leader) }
    ensures ok { OnOk result (acts.new.items ≡ acts.old.items ++ group_acts name leader) }
    ensures err { OnErr result (acts.new.items ≡ acts.old.items) }
{
    let user = known_name(lists, name)?;
    let leader = leader_for(lists, user, leader)?;
    push_act(acts, Act::Grouped { user, leader })
}

/// Plans one bit of a mask or a preset.
fn plan_mask(
    lists: &Lists,
    by: UserId,
    entry: MaskEntry,
    acts: &mut Vec<Act>,
) -> Result<(), AclFault>
    ensures answer { Answers result
        (scope_fault (table_of lists.now).owner (users_in (table_of lists.now)) entry.scope) }
    ensures ok { OnOk result
        (acts.new.items ≡ acts.old.items ++ scope_acts by entry.scope entry.bit entry.value) }
    ensures err { OnErr result (acts.new.items ≡ acts.old.items) }
{
    match entry.scope {
        MaskScope::Preset(kind) => push_act(
            acts,
            Act::Preset {
                kind,
                bit: entry.bit,
                value: entry.value,
            },
        ),
        MaskScope::User(name) => {
            let user = known_name(lists, name)?;
            push_act(
                acts,
                Act::Masked {
                    by,
                    user,
                    bit: entry.bit,
                    value: entry.value,
                },
            )
        }
    }
}

/// Plans masks and presets, bit by bit.
pub fn plan_masks(
    lists: &Lists,
    by: UserId,
    entries: &[MaskEntry],
    acts: &mut Vec<Act>,
) -> Result<(), AclFault>
    ensures answer { Answers result
        (mask_fault (table_of lists.now).owner (users_in (table_of lists.now)) entries.now) }
    ensures ok { OnOk result (acts.new.items ≡ acts.old.items ++ mask_acts by entries.now) }
    ensures err { OnErr result (Keeps acts.old.items acts.new.items) }
{
    for entry in entries {
        plan_mask(lists, by, *entry, acts)?;
    }
    Ok(())
}
