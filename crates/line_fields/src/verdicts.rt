//! The words of verdicts.

ghost use Rattle.std.specs.Prelude.{◌≡◌, ◌++◌, OnOk};
ghost use Rattle.line_fields.specs.Acts.{verdict_text, lock_in, right_in, verdict_in};

use crate::numbers::u32_at;
use crate::parts::{
    push_change, push_name, push_object, push_user, read_change, read_object, read_user, user_at,
};
use crate::texts::cut;
use acl::{Bit, Object, UserId};
use session_model::{Verdict, push_decimal};
use std::alloc::AllocError;

/// `USER:CHANGE:OBJECT`
fn push_right(
    user: UserId,
    bit: Bit,
    object: Object,
    answer: bool,
    out: &mut Vec<u8>,
) -> Result<(), AllocError>
    ensures { OnOk result (out.new.items
        ≡ out.old.items ++ verdict_text (Verdict.Right user bit object answer)) }
{
    push_name(user, out)?;
    out.extend_from_slice(b":")?;
    push_change(bit, answer, out)?;
    out.extend_from_slice(b":")?;
    push_object(object, out)
}

/// `USER:lock:WINDOW:HOLDER`
fn push_lock(
    user: UserId,
    window: u32,
    holder: Option<UserId>,
    out: &mut Vec<u8>,
) -> Result<(), AllocError>
    ensures { OnOk result (out.new.items
        ≡ out.old.items ++ verdict_text (Verdict.Lock user window holder)) }
{
    push_name(user, out)?;
    out.extend_from_slice(b":lock:")?;
    push_decimal(u64::from(window), out)?;
    out.extend_from_slice(b":")?;
    push_user(holder, out)
}

/// Appends a verdict.
pub fn push_verdict(verdict: &Verdict, out: &mut Vec<u8>) -> Result<(), AllocError>
    ensures { OnOk result (out.new.items ≡ out.old.items ++ verdict_text verdict.now) }
{
    match *verdict {
        Verdict::Right {
            user,
            bit,
            object,
            answer,
        } => push_right(user, bit, object, answer, out),
        Verdict::Lock {
            user,
            window,
            holder,
        } => push_lock(user, window, holder, out),
    }
}

/// `WINDOW:HOLDER`, of a lock.
fn read_lock(user: UserId, rest: &[u8]) -> Option<Verdict>
    ensures { result ≡ lock_in user rest.now }
{
    let (window, holder) = u32_at(rest, b':')?;
    let holder = read_user(holder)?;
    Some(Verdict::Lock {
        user,
        window,
        holder,
    })
}

/// `CHANGE` and `OBJECT`, of a right.
fn read_right(user: UserId, change: &[u8], object: &[u8]) -> Option<Verdict>
    ensures { result ≡ right_in user change.now object.now }
{
    let change = read_change(change)?;
    let object = read_object(object)?;
    Some(Verdict::Right {
        user,
        bit: change.bit,
        object,
        answer: change.value,
    })
}

/// The verdict that a word says.
#[tactic(auto, unfolding(crate::specs::Acts::verdict_in))]
pub fn read_verdict(word: &[u8]) -> Option<Verdict>
    ensures { result ≡ verdict_in word.now }
{
    let (user, rest) = user_at(word, b':')?;
    let (change, rest) = cut(rest, b':')?;
    if change == b"lock".as_slice() {
        read_lock(user, rest)
    } else {
        read_right(user, change, rest)
    }
}
