//! The premises of the law on windows to come, for some users.

ghost use Rattle.std.specs.Prelude.{◌≡◌, ◌++◌, OnOk, IfOk};
ghost use Rattle.std.specs.List.{flat_map};
ghost use Rattle.acl.specs.declared.leaders.Edition.{Edition};
ghost use Rattle.acl.specs.declared.user_id.UserId.{UserId};
ghost use Rattle.acl.specs.History.{History};
ghost use Rattle.hub.specs.Following.{StandsAfter};
ghost use Rattle.trail_confined.specs.Confining.{circles_of, concerns, masks_by, masks_of, circle, may_open};
ghost use Rattle.trail_confined.specs.Confining.{openers_of, powers_of, premises_of, standing_of, users_with};

use acl::{Bit, CommandName, Object, UserId};
use hub::Rights;
use std::alloc::{AllocError, Global};
use trail_rights::{may, users_of};

/// A premise of the law on windows to come.
#[derive(Clone, Copy)]
pub enum Premise {
    /// The user has no x on the command, which changes rights.
    NoPower {
        user: UserId,
        command: CommandName,
    },
    /// The user is known.
    IsKnown {
        user: UserId,
    },
    /// The user may open no windows.
    OpensNone {
        user: UserId,
    },
    /// The opener's mask keeps the bit from the user.
    Masks {
        opener: UserId,
        user: UserId,
        bit: Bit,
    },
}

impl Premise {
    /// Whether it is a premise of the law for this bit.
    pub fn concerns(&self, bit: Bit) -> bool
        ensures { result ≡ concerns bit self.now }
    {
        match *self {
            Premise::Masks { bit: masked, .. } => masked == bit,
            _ => true,
        }
    }
}

/// Appends that a user has x on none of the commands that change rights.
fn push_powers(user: UserId, out: &mut Vec<Premise>) -> Result<(), AllocError>
    ensures { OnOk result (out.new.items ≡ out.old.items ++ powers_of user) }
{
    out.extend_from_slice(&[
        Premise::NoPower {
            user,
            command: CommandName::Acladd,
        },
        Premise::NoPower {
            user,
            command: CommandName::Aclchg,
        },
        Premise::NoPower {
            user,
            command: CommandName::Acldel,
        },
        Premise::NoPower {
            user,
            command: CommandName::Aclgrp,
        },
        Premise::NoPower {
            user,
            command: CommandName::Aclumask,
        },
    ])
}

/// Appends that none of the users has x on a command that changes rights.
fn push_all_powers(users: &[UserId], out: &mut Vec<Premise>) -> Result<(), AllocError>
    ensures { OnOk result (out.new.items ≡ out.old.items ++ flat_map powers_of users.now) }
{
    for user in users {
        push_powers(*user, out)?;
    }
    Ok(())
}

/// Appends that a user is known and may open no windows.
fn push_standing(user: UserId, out: &mut Vec<Premise>) -> Result<(), AllocError>
    ensures { OnOk result (out.new.items ≡ out.old.items ++ standing_of user) }
{
    out.extend_from_slice(&[Premise::IsKnown { user }, Premise::OpensNone { user }])
}

/// Appends that each user is known and may open no windows.
fn push_standings(users: &[UserId], out: &mut Vec<Premise>) -> Result<(), AllocError>
    ensures { OnOk result (out.new.items ≡ out.old.items ++ flat_map standing_of users.now) }
{
    for user in users {
        push_standing(*user, out)?;
    }
    Ok(())
}

/// Appends that an opener masks each bit for a user.
fn push_masks_by(user: UserId, opener: UserId, out: &mut Vec<Premise>) -> Result<(), AllocError>
    ensures { OnOk result (out.new.items ≡ out.old.items ++ masks_by user opener) }
{
    out.extend_from_slice(&[
        Premise::Masks {
            opener,
            user,
            bit: Bit::Read,
        },
        Premise::Masks {
            opener,
            user,
            bit: Bit::Write,
        },
        Premise::Masks {
            opener,
            user,
            bit: Bit::Execute,
        },
    ])
}

/// Appends that each opener masks each bit for a user.
fn push_masks(openers: &[UserId], user: UserId, out: &mut Vec<Premise>) -> Result<(), AllocError>
    ensures { OnOk result (out.new.items ≡ out.old.items ++ masks_of openers.now user) }
{
    for opener in openers {
        push_masks_by(user, *opener, out)?;
    }
    Ok(())
}

/// Appends that each opener masks each bit for each user.
fn push_all_masks(
    openers: &[UserId],
    users: &[UserId],
    out: &mut Vec<Premise>,
) -> Result<(), AllocError>
    ensures { OnOk result
        (out.new.items ≡ out.old.items ++ flat_map (masks_of openers.now) users.now) }
{
    for user in users {
        push_masks(openers, *user, out)?;
    }
    Ok(())
}

/// Whether a user is known and may open windows.
pub fn may_open(replay: &Rights, user: UserId) -> bool
    ensures { (edition : Edition) (owner : UserId) (h : History) →
        StandsAfter replay.now edition owner h → result ≡ may_open edition owner h user }
{
    replay.knows(user)
        && may(
            replay,
            user,
            Bit::Execute,
            Object::Command(CommandName::Screen),
        )
}

/// The known users who may open windows, in the order in which they became known.
pub fn openers_of(alloc: Global, replay: &Rights) -> Result<Vec<UserId>, AllocError>
    ensures { (edition : Edition) (owner : UserId) (h : History) →
        StandsAfter replay.now edition owner h →
        IfOk result (λ openers. openers.items ≡ openers_of edition owner h) }
{
    let users = users_of(alloc, replay)?;
    let mut openers = Vec::new(alloc);
    for user in users.as_slice() {
        if may_open(replay, *user) {
            openers.push(*user)?;
        }
    }
    Ok(openers)
}

/// The known users, and then those of these users who aren't known.
pub fn users_with(
    alloc: Global,
    replay: &Rights,
    others: &[UserId],
) -> Result<Vec<UserId>, AllocError>
    ensures { (edition : Edition) (owner : UserId) (h : History) →
        StandsAfter replay.now edition owner h →
        IfOk result (λ users. users.items ≡ users_with owner h others.now) }
{
    let mut users = users_of(alloc, replay)?;
    for user in others {
        if !replay.knows(*user) {
            users.push(*user)?;
        }
    }
    Ok(users)
}

/// Appends a user, and then the user's leaders.
pub fn push_circle(
    replay: &Rights,
    user: UserId,
    circles: &mut Vec<UserId>,
) -> Result<(), AllocError>
    ensures { (edition : Edition) (owner : UserId) (h : History) →
        StandsAfter replay.now edition owner h →
        OnOk result (circles.new.items ≡ circles.old.items ++ circle edition h user) }
{
    let leaders = replay.leaders_of(user);
    circles.push(user)?;
    circles.extend_from_slice(leaders.as_slice())?;
    Ok(())
}

/// These users, each followed by their leaders.
fn circles_of(alloc: Global, replay: &Rights, users: &[UserId]) -> Result<Vec<UserId>, AllocError>
    ensures { (edition : Edition) (owner : UserId) (h : History) →
        StandsAfter replay.now edition owner h →
        IfOk result (λ circles. circles.items ≡ circles_of edition h users.now) }
{
    let mut circles = Vec::new(alloc);
    for user in users {
        push_circle(replay, *user, &mut circles)?;
    }
    Ok(circles)
}

/// Appends the premises of the law for users. The circles are these users, each followed by their leaders.
fn push_premises(
    openers: &[UserId],
    users: &[UserId],
    circles: &[UserId],
    out: &mut Vec<Premise>,
) -> Result<(), AllocError>
    ensures { OnOk result (out.new.items ≡ out.old.items ++ (flat_map powers_of users.now
        ++ (flat_map standing_of circles.now ++ flat_map (masks_of openers.now) circles.now))) }
{
    push_all_powers(users, out)?;
    push_standings(circles, out)?;
    push_all_masks(openers, circles, out)
}

/// The premises of the law for users.
pub fn premises_of(
    alloc: Global,
    replay: &Rights,
    users: &[UserId],
) -> Result<Vec<Premise>, AllocError>
    ensures { (edition : Edition) (owner : UserId) (h : History) →
        StandsAfter replay.now edition owner h →
        IfOk result (λ premises. premises.items ≡ premises_of edition owner h users.now) }
{
    let circles = circles_of(alloc, replay, users)?;
    let openers = openers_of(alloc, replay)?;
    let mut premises = Vec::new(alloc);
    push_premises(openers.as_slice(), users, circles.as_slice(), &mut premises)?;
    Ok(premises)
}
