//! Which act decides a user's bit on an object.

ghost use Rattle.std.specs.Prelude.{◌≡◌, ◌++◌, OnOk};
ghost use Rattle.std.specs.List.{flat_map};
ghost use Rattle.acl.specs.declared.leaders.Edition.{Edition};
ghost use Rattle.acl.specs.declared.user_id.UserId.{UserId};
ghost use Rattle.acl.specs.History.{History};
ghost use Rattle.hub.specs.Following.{StandsAfter};
ghost use Rattle.trail_confined.specs.Reasons.{answer_of, answer_text, by_text, cause_text, decider_text};
ghost use Rattle.trail_confined.specs.Reasons.{found_text, is_listed, is_owner_text, is_there};
ghost use Rattle.trail_confined.specs.Reasons.{mark_text, owner_text, reasons_text, yes_text};
ghost use Rattle.trail_rights.specs.Windows.{windows_of};

use acl::{Act, Bit, Object, UserId};
use hub::Rights;
use line_fields::acts::push_act;
use line_fields::push_when;
use session::push_decimal;
use std::alloc::AllocError;
use trail_rights::{Decider, Mark, Sight, may};

/// A user, a bit and an object.
#[derive(Clone, Copy)]
pub struct Question {
    pub user: UserId,
    pub bit: Bit,
    pub object: Object,
}

/// Whether a window is in a list.
fn is_listed(windows: &[u32], window: u32) -> bool
    ensures { result ≡ is_listed windows.now window }
{
    for other in windows {
        if *other == window {
            return true;
        }
    }
    false
}

/// Whether an object is there: a command, or one of the windows that are open.
fn is_there(windows: &[u32], object: Object) -> bool
    ensures { result ≡ is_there windows.now object }
{
    match object {
        Object::Window(window) => is_listed(windows, window),
        Object::Command(_) => true,
    }
}

/// Appends who gave an event, if a user did, and then this end.
pub fn push_by(by: Option<UserId>, end: &[u8], out: &mut Vec<u8>) -> Result<(), AllocError>
    ensures { OnOk result (out.new.items ≡ out.old.items ++ by_text by end.now) }
{
    match by {
        Some(by) => {
            out.extend_from_slice(b" by ")?;
            out.extend_from_slice(by.as_bytes())?;
            out.extend_from_slice(end)
        }
        None => out.extend_from_slice(end),
    }
}

/// Appends which entry has an act, its time, and who gave its event.
fn push_mark(mark: Mark, out: &mut Vec<u8>) -> Result<(), AllocError>
    ensures { OnOk result (out.new.items ≡ out.old.items ++ mark_text mark) }
{
    out.extend_from_slice(b"entry ")?;
    push_decimal(mark.place, out)?;
    push_when(b" at ", mark.ms, out)?;
    push_by(mark.giver, b": ", out)
}

/// Appends the act that was found to decide, and its entry; or that no act decides.
fn push_cause(found: Option<(Mark, Act)>, out: &mut Vec<u8>) -> Result<(), AllocError>
    ensures { OnOk result (out.new.items ≡ out.old.items ++ cause_text found) }
{
    match found {
        Some((mark, act)) => {
            push_mark(mark, out)?;
            push_act(&act, out)?;
            out.extend_from_slice(b"\n")
        }
        None => out.extend_from_slice(b"no act decides\n"),
    }
}

/// Appends the act that was found to decide for a user, and its entry; or that no act decides.
pub fn push_found(
    user: UserId,
    found: Option<(Mark, Act)>,
    out: &mut Vec<u8>,
) -> Result<(), AllocError>
    ensures { OnOk result (out.new.items ≡ out.old.items ++ found_text user found) }
{
    out.extend_from_slice(user.as_bytes())?;
    out.extend_from_slice(b": ")?;
    push_cause(found, out)
}

/// The word for whether something is so.
pub fn yes_text(is: bool) -> &'static [u8]
    ensures { result.now ≡ yes_text is }
{
    if is { b"yes" } else { b"no" }
}

/// Appends that a user is the owner.
pub fn push_is_owner(user: UserId, out: &mut Vec<u8>) -> Result<(), AllocError>
    ensures { OnOk result (out.new.items ≡ out.old.items ++ is_owner_text user) }
{
    out.extend_from_slice(user.as_bytes())?;
    out.extend_from_slice(b": the owner\n")
}

/// Appends that a user is the owner, if they are.
fn push_owner(owner: UserId, user: UserId, out: &mut Vec<u8>) -> Result<(), AllocError>
    ensures { OnOk result (out.new.items ≡ out.old.items ++ owner_text owner user) }
{
    if user == owner {
        push_is_owner(user, out)
    } else {
        Ok(())
    }
}

/// Appends what each decider has found.
fn push_deciders(deciders: &[Decider], out: &mut Vec<u8>) -> Result<(), AllocError>
    ensures { OnOk result
        (out.new.items ≡ out.old.items ++ flat_map decider_text deciders.now) }
{
    for decider in deciders {
        push_found(decider.user(), decider.found(), out)?;
    }
    Ok(())
}

/// Appends whether a user has a bit, and the acts that decide it: the user's own, and their leaders'.
/// The answer is None if the object isn't there.
fn push_answer(
    owner: UserId,
    user: UserId,
    answer: Option<bool>,
    deciders: &[Decider],
    out: &mut Vec<u8>,
) -> Result<(), AllocError>
    ensures { OnOk result
        (out.new.items ≡ out.old.items ++ answer_text owner user answer deciders.now) }
{
    match answer {
        Some(has_bit) => {
            out.extend_from_slice(yes_text(has_bit))?;
            out.extend_from_slice(b"\n")?;
            push_owner(owner, user, out)?;
            push_deciders(deciders, out)
        }
        None => out.extend_from_slice(b"no: the window isn't open\n"),
    }
}

/// Whether the user has the bit on the object. None if the object isn't there.
fn answer_of(replay: &Rights, sight: &Sight, question: Question) -> Option<bool>
    ensures { (edition : Edition) (owner : UserId) (h : History) →
        StandsAfter replay.now edition owner h → sight.now.windows.items ≡ windows_of h →
        result ≡ answer_of edition owner h question }
{
    if is_there(sight.windows(), question.object) {
        Some(may(replay, question.user, question.bit, question.object))
    } else {
        None
    }
}

/// Appends whether the user has the bit, after the acts that the replay and the sight have followed, and
/// the acts that decide it: the user's own, and their leaders'. The sight has looked for these.
pub fn push_reasons(
    owner: UserId,
    replay: &Rights,
    sight: &Sight,
    question: Question,
    out: &mut Vec<u8>,
) -> Result<(), AllocError>
    ensures { (edition : Edition) (h : History) → StandsAfter replay.now edition owner h →
        sight.now.windows.items ≡ windows_of h →
        OnOk result (out.new.items ≡ out.old.items
        ++ reasons_text edition owner h question sight.now.deciders.items) }
{
    let answer = answer_of(replay, sight, question);
    push_answer(owner, question.user, answer, sight.deciders(), out)
}
