//! The lines of a setup that give users commands and leaders.

ghost use Rattle.std.specs.Prelude.{◌≡◌, ◌++◌, List, ℕ, [], IfOk, OnOk, map};
ghost use Rattle.std.specs.List.{flat_map, list_all};
ghost use Rattle.acl.specs.command_name.TheConstants.CommandName.{ALL};
ghost use Rattle.acl.specs.declared.leaders.Edition.{Edition};
ghost use Rattle.acl.specs.declared.user_id.UserId.{UserId};
ghost use Rattle.acl.specs.History.{History};
ghost use Rattle.hub.specs.Following.{StandsAfter};
ghost use Rattle.trail_setup.specs.Alone.{HasEntries};
ghost use Rattle.trail_setup.specs.Giving.{PutsAll, given_head, given_kind, given_words, has_just, leader_line};
ghost use Rattle.trail_setup.specs.Giving.{leader_lines, lines_of, own_bits, same_bits};
ghost use Rattle.trail_setup.specs.Lines.{HoldWords, PutsLines, kind_of};

use crate::entries::Entries;
use crate::lines::{Given, LineForm, Lines, push_bits};
use acl::{Bit, CommandName, Object, UserId};
use command_lang::name_text;
use hub::Rights;
use std::alloc::{AllocError, Global};

/// All combinations of bits but none.
const ALL_GIVEN: [Given; 7] = [
    [true, true, true],
    [true, true, false],
    [true, false, true],
    [true, false, false],
    [false, true, true],
    [false, true, false],
    [false, false, true],
];

/// The bits that a user's entry has on a command.
fn bits_of(entries: &Entries, user: UserId, command: CommandName) -> Given
    ensures { (edition : Edition) (owner : UserId) (h : History) → HasEntries entries.now edition owner h →
        result ≡ own_bits owner h user command }
{
    let object = Object::Command(command);
    [
        entries.has(user, Bit::Read, object),
        entries.has(user, Bit::Write, object),
        entries.has(user, Bit::Execute, object),
    ]
}

/// Whether these are the same bits.
pub fn are_same(given: Given, other: Given) -> bool
    ensures { result ≡ same_bits given other }
{
    let ([read, write, execute], [reads, writes, executes]) = (given, other);
    read == reads && write == writes && execute == executes
}

/// Whether a user's entry has just these bits on a command.
fn has_just(entries: &Entries, user: UserId, command: CommandName, given: Given) -> bool
    ensures { (edition : Edition) (owner : UserId) (h : History) → HasEntries entries.now edition owner h →
        result ≡ has_just owner h user given command }
{
    are_same(bits_of(entries, user, command), given)
}

/// Whether a user has just these bits on each command.
fn has_on_all(entries: &Entries, user: UserId, given: Given) -> bool
    ensures { (edition : Edition) (owner : UserId) (h : History) → HasEntries entries.now edition owner h →
        result ≡ list_all (has_just owner h user given) ALL }
{
    for command in &CommandName::ALL {
        if !has_just(entries, user, *command, given) {
            return false;
        }
    }
    true
}

/// Puts the commands on which a user has just these bits on lines.
fn put_commands(
    entries: &Entries,
    user: UserId,
    given: Given,
    lines: &mut Lines<'_>,
    out: &mut Vec<u8>,
) -> Result<(), AllocError>
    ensures form { lines.new.form ≡ lines.old.form }
    ensures holds { (edition : Edition) (owner : UserId) (h : History) → HasEntries entries.now edition owner h
        → (start : List ℕ) → HoldWords (kind_of lines.old.form) start [] out.old.items lines.old.line.items
        → OnOk result (HoldWords (kind_of lines.old.form) start (given_words owner h user given) out.new.items
        lines.new.line.items) }
{
    if has_on_all(entries, user, given) {
        return lines.put(b"?", out);
    }
    for command in &CommandName::ALL {
        if has_just(entries, user, *command, given) {
            lines.put(name_text(*command).as_bytes(), out)?;
        }
    }
    Ok(())
}

/// How a line begins that gives a user these bits.
fn head_of(alloc: Global, user: UserId, given: Given) -> Result<Vec<u8>, AllocError>
    ensures { IfOk result (λ head. head.items ≡ given_head user given) }
{
    let mut head = Vec::new(alloc);
    head.extend_from_slice(b"aclchg ")?;
    head.extend_from_slice(user.as_bytes())?;
    head.extend_from_slice(b" ")?;
    push_bits(given, &mut head)?;
    Ok(head)
}

/// Appends lines that give a user these bits on the commands on which they have just these.
fn push_given(
    alloc: Global,
    entries: &Entries,
    user: UserId,
    given: Given,
    out: &mut Vec<u8>,
) -> Result<(), AllocError>
    ensures { (edition : Edition) (owner : UserId) (h : History) → HasEntries entries.now edition owner h →
        OnOk result (PutsLines (given_kind user given) out.old.items (given_words owner h user given)
        out.new.items) }
{
    let head = head_of(alloc, user, given)?;
    let mut lines = Lines::new(
        alloc,
        LineForm {
            head: head.as_slice(),
            between: b',',
            tail: b"",
        },
    );
    put_commands(entries, user, given, &mut lines, out)?;
    lines.end(out)
}

/// Appends the lines that give a user, who has nothing on commands yet, what their entry has on them.
fn push_user(
    alloc: Global,
    entries: &Entries,
    user: UserId,
    out: &mut Vec<u8>,
) -> Result<(), AllocError>
    ensures { (edition : Edition) (owner : UserId) (h : History) → HasEntries entries.now edition owner h →
        OnOk result (PutsAll (lines_of owner h user) out.old.items out.new.items) }
{
    for given in &ALL_GIVEN {
        push_given(alloc, entries, user, *given, out)?;
    }
    Ok(())
}

/// Appends the lines that give users, who have nothing on commands yet, what their entries have on them.
pub fn push_commands(
    alloc: Global,
    entries: &Entries,
    users: &[UserId],
    out: &mut Vec<u8>,
) -> Result<(), AllocError>
    // The lines give each user each bit that their entry has on a command, once, and no other bit.
    ensures { (edition : Edition) (owner : UserId) (h : History) → HasEntries entries.now edition owner h →
        OnOk result (PutsAll (flat_map (lines_of owner h) users.now) out.old.items out.new.items) }
{
    for user in users {
        push_user(alloc, entries, *user, out)?;
    }
    Ok(())
}

/// Appends the line that gives a user a leader.
fn push_leader(user: UserId, leader: UserId, out: &mut Vec<u8>) -> Result<(), AllocError>
    ensures { OnOk result (out.new.items ≡ out.old.items ++ leader_line user leader) }
{
    out.extend_from_slice(b"aclgrp ")?;
    out.extend_from_slice(user.as_bytes())?;
    out.extend_from_slice(b" ")?;
    out.extend_from_slice(leader.as_bytes())?;
    out.extend_from_slice(b"\n")
}

/// Appends a line for each of a user's leaders, in this order.
fn push_leaders_of(user: UserId, leaders: &[UserId], out: &mut Vec<u8>) -> Result<(), AllocError>
    ensures { OnOk result (out.new.items ≡ out.old.items ++ flat_map (leader_line user) leaders.now) }
{
    for leader in leaders {
        push_leader(user, *leader, out)?;
    }
    Ok(())
}

/// Appends a line for each leader of each user, in their order.
pub fn push_leaders(replay: &Rights, users: &[UserId], out: &mut Vec<u8>) -> Result<(), AllocError>
    ensures { (edition : Edition) (owner : UserId) (h : History) → StandsAfter replay.now edition owner h →
        OnOk result (out.new.items ≡ out.old.items ++ flat_map (leader_lines edition h) users.now) }
{
    for user in users {
        push_leaders_of(*user, replay.leaders_of(*user).as_slice(), out)?;
    }
    Ok(())
}
