//! Equality of what steps check and do.

ghost use Rattle.std.specs.Prelude.{◌≡◌, true};

use acl::{Act, Bit, Object, UserId};
use session::Verdict;

/// A value that can be compared with another one of its type. If it is found to be the same, it is.
pub trait Same: Copy {
    fn is_same(self, other: Self) -> bool
        ensures { result ≡ true → self ≡ other };
}

/// Whether both name the same user, bit and object.
fn is_same_question(asked: (UserId, Bit, Object), other: (UserId, Bit, Object)) -> bool
    ensures { result ≡ true → asked ≡ other }
{
    asked.0 == other.0 && asked.1 == other.1 && asked.2 == other.2
}

/// Whether both are the same change of a right or of a mask.
fn is_same_change(act: Act, other: Act) -> bool
    ensures { result ≡ true → act ≡ other }
{
    match (act, other) {
        (
            Act::Set {
                user,
                bit,
                object,
                value,
            },
            Act::Set {
                user: named,
                bit: asked,
                object: on,
                value: given,
            },
        ) => is_same_question((user, bit, object), (named, asked, on)) && value == given,
        (
            Act::Masked {
                by,
                user,
                bit,
                value,
            },
            Act::Masked {
                by: caller,
                user: named,
                bit: asked,
                value: given,
            },
        ) => by == caller && user == named && bit == asked && value == given,
        _ => false,
    }
}

/// Whether both are the same act on who is known, a group or a preset.
fn is_same_name(act: Act, other: Act) -> bool
    ensures { result ≡ true → act ≡ other }
{
    match (act, other) {
        (Act::Known { user }, Act::Known { user: named }) => user == named,
        (Act::Gone { user }, Act::Gone { user: named }) => user == named,
        (
            Act::Grouped { user, leader },
            Act::Grouped {
                user: named,
                leader: led,
            },
        ) => user == named && leader == led,
        (
            Act::Preset { kind, bit, value },
            Act::Preset {
                kind: of,
                bit: asked,
                value: given,
            },
        ) => kind == of && bit == asked && value == given,
        _ => false,
    }
}

/// Whether both are the same act on a lock.
fn is_same_lock(act: Act, other: Act) -> bool
    ensures { result ≡ true → act ≡ other }
{
    match (act, other) {
        (
            Act::Entered { user, window },
            Act::Entered {
                user: named,
                window: on,
            },
        ) => user == named && window == on,
        (
            Act::Left { user, window },
            Act::Left {
                user: named,
                window: on,
            },
        ) => user == named && window == on,
        (
            Act::Mode { by, window, mode },
            Act::Mode {
                by: caller,
                window: on,
                mode: set,
            },
        ) => by == caller && window == on && mode == set,
        (Act::Default { mode }, Act::Default { mode: set }) => mode == set,
        _ => false,
    }
}

/// The coming and going of a client or a window is never found to be equal: its serial comes once.
impl Same for Act {
    fn is_same(self, other: Act) -> bool {
        is_same_change(self, other) || is_same_name(self, other) || is_same_lock(self, other)
    }
}

impl Same for Verdict {
    fn is_same(self, other: Verdict) -> bool {
        match (self, other) {
            (
                Verdict::Right {
                    user,
                    bit,
                    object,
                    answer,
                },
                Verdict::Right {
                    user: named,
                    bit: asked,
                    object: on,
                    answer: given,
                },
            ) => is_same_question((user, bit, object), (named, asked, on)) && answer == given,
            (
                Verdict::Lock {
                    user,
                    window,
                    holder,
                },
                Verdict::Lock {
                    user: named,
                    window: on,
                    holder: by,
                },
            ) => user == named && window == on && holder == by,
            _ => false,
        }
    }
}

/// Whether both lists are equal.
pub fn are_same<T: Same>(items: &[T], other: &[T]) -> bool
    ensures { result ≡ true → items.now ≡ other.now }
{
    if items.len() != other.len() {
        return false;
    }
    'places: for i in 0..items.len() {
        if !items[i].is_same(other[i]) {
            return false;
        }
    }
    true
}
