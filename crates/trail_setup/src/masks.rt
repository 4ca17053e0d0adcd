//! The masks of a setup.

ghost use Rattle.std.specs.Prelude.{◌≡◌, ◌∷◌, ◌++◌, [], OnOk, IfOk, true};
ghost use Rattle.acl.specs.declared.leaders.Edition.{Edition};
ghost use Rattle.acl.specs.declared.user_id.UserId.{UserId};
ghost use Rattle.acl.specs.History.{History, among, is_open};
ghost use Rattle.trail_setup.specs.Lines.{AddsWords, PutsLines, kind_of};
ghost use Rattle.trail_setup.specs.Alone.{HasEntries};
ghost use Rattle.trail_setup.specs.Masks.{Stands, closed_bits, comes_back, differing, has_if_back, has_on_all, are_any};
ghost use Rattle.trail_setup.specs.Masks.{is_first, is_lent, known_in, lent_text, mask_kind, mask_parts, mask_word};
ghost use Rattle.trail_setup.specs.Masks.{other_head, other_parts, owner_head, parts_by, said_bits, words_in, words_of};
ghost use Rattle.trail_setup.specs.Giving.{PutsAll};

use crate::commands::are_same;
use crate::lines::{Given, LineForm, Lines, push_bits};
use crate::state::SetupState;
use acl::{Bit, CommandName, Object, UserId};
use std::alloc::{AllocError, Global};

/// What a setup knows of masks.
#[derive(Clone, Copy)]
pub struct SetupMasks<'a> {
    pub alloc: Global,
    pub state: &'a SetupState,
    /// The known users, the owner first.
    pub users: &'a [UserId],
}

/// All bits.
const ALL_BITS: Given = [true, true, true];

/// These bits, unless they are the same as the others.
fn differing(bits: Given, other: Given) -> Option<Given>
    ensures { result ≡ differing bits other }
{
    if are_same(bits, other) {
        None
    } else {
        Some(bits)
    }
}

/// Whether the user is one of these.
fn is_among(users: &[UserId], user: UserId) -> bool
    ensures { result ≡ among users.now user }
{
    users.iter().any(|other| user == *other)
}

/// Appends a line of the owner that gives an opener x on `aclumask`, or takes it again.
fn push_lent(start: &[u8], by: UserId, bits: &[u8], out: &mut Vec<u8>) -> Result<(), AllocError>
    ensures { OnOk result (out.new.items ≡ out.old.items ++ lent_text start.now by bits.now) }
{
    out.extend_from_slice(start)?;
    out.extend_from_slice(b"aclchg ")?;
    out.extend_from_slice(by.as_bytes())?;
    out.extend_from_slice(bits)?;
    out.extend_from_slice(b" aclumask\n")
}

impl SetupMasks<'_> {
    /// Whether the user is the owner.
    fn is_owner(&self, user: UserId) -> bool
        ensures { result ≡ is_first self.now.users.now user }
    {
        match self.users {
            [owner, ..] => *owner == user,
            [] => false,
        }
    }

    /// Whether a window of this opener comes back as a window of the user. What somebody opened who is gone
    /// comes back as the owner's, since nobody else can open it again.
    fn comes_back_as(&self, opener: UserId, by: UserId) -> bool
        ensures { result ≡ comes_back self.now.users.now opener by }
    {
        opener == by || (self.is_owner(by) && !is_among(self.users, opener))
    }

    /// Whether the user has the bit on a window, if it comes back as one of this opener's.
    fn has_if_back(&self, by: UserId, user: UserId, bit: Bit, window: (u32, UserId)) -> bool
        ensures { (edition : Edition) (owner : UserId) (h : History) →
            HasEntries self.now.state.now.entries edition owner h → is_open h window.0 ≡ true →
            result ≡ has_if_back owner h self.now.users.now by user bit window }
    {
        !self.comes_back_as(window.1, by)
            || self.state.entries.has(user, bit, Object::Window(window.0))
    }

    /// Whether the user has the bit on each window that comes back as the opener's.
    fn has_on_all(&self, by: UserId, user: UserId, bit: Bit) -> bool
        ensures { (edition : Edition) (owner : UserId) (h : History) → Stands self.now.state.now edition owner h →
            result ≡ has_on_all owner h (known_in self.now) by user bit }
    {
        for row in &self.state.windows {
            if !self.has_if_back(by, user, bit, *row) {
                return false;
            }
        }
        true
    }

    /// What a closed mask leaves to a user: what the mask does, less each bit that the user lacks on a window
    /// that comes back as the opener's.
    fn closed_of(&self, by: UserId, user: UserId) -> Given
        ensures { (edition : Edition) (owner : UserId) (h : History) → Stands self.now.state.now edition owner h →
            result ≡ closed_bits owner h (known_in self.now) by user }
    {
        let [read, write, execute] = self.state.mask_of(by, user);
        [
            read && self.has_on_all(by, user, Bit::Read),
            write && self.has_on_all(by, user, Bit::Write),
            execute && self.has_on_all(by, user, Bit::Execute),
        ]
    }

    /// Appends a mask for a user, as `bob+r-wx`, to a line.
    fn put(
        &self,
        user: UserId,
        given: Given,
        lines: &mut Lines<'_>,
        out: &mut Vec<u8>,
    ) -> Result<(), AllocError>
        ensures form { lines.new.form ≡ lines.old.form }
        ensures holds { AddsWords result (kind_of lines.old.form) (mask_word user given ∷ []) out.old.items
            lines.old.line.items out.new.items lines.new.line.items }
    {
        let mut word = Vec::new(self.alloc);
        word.extend_from_slice(user.as_bytes())?;
        push_bits(given, &mut word)?;
        lines.put(word.as_slice(), out)
    }

    /// What an opener says of one user: the closed mask if it takes a bit, or later the mask if it was closed
    /// further than it is.
    fn said_of(&self, is_later: bool, by: UserId, user: UserId) -> Option<Given>
        ensures { (edition : Edition) (owner : UserId) (h : History) → Stands self.now.state.now edition owner h →
            result ≡ said_bits is_later owner h (known_in self.now) by user }
    {
        if user == by || self.is_owner(user) {
            return None;
        }
        let (own, closed) = (self.state.mask_of(by, user), self.closed_of(by, user));
        if is_later {
            differing(own, closed)
        } else {
            differing(closed, ALL_BITS)
        }
    }

    /// Puts what an opener says of one user on a line.
    fn put_said(
        &self,
        said: Option<Given>,
        user: UserId,
        lines: &mut Lines<'_>,
        out: &mut Vec<u8>,
    ) -> Result<(), AllocError>
        ensures form { lines.new.form ≡ lines.old.form }
        ensures holds { AddsWords result (kind_of lines.old.form) (words_in user said) out.old.items
            lines.old.line.items out.new.items lines.new.line.items }
    {
        match said {
            Some(given) => self.put(user, given, lines, out),
            None => Ok(()),
        }
    }

    /// Appends what an opener says to mask users: the closed masks if they take a bit, or later those
    /// masks that were closed further than they are.
    fn push_of(
        &self,
        is_later: bool,
        by: UserId,
        head: &[u8],
        out: &mut Vec<u8>,
    ) -> Result<(), AllocError>
        ensures { (edition : Edition) (owner : UserId) (h : History) → Stands self.now.state.now edition owner h →
            OnOk result (PutsLines (mask_kind head.now) out.old.items (words_of is_later owner h (known_in self.now) by)
            out.new.items) }
    {
        let form = LineForm {
            head,
            between: b' ',
            tail: b"",
        };
        let mut lines = Lines::new(self.alloc, form);
        for user in self.users {
            let said = self.said_of(is_later, by, *user);
            self.put_said(said, *user, &mut lines, out)?;
        }
        lines.end(out)
    }

    /// Whether an opener has something to say.
    fn says_any(&self, is_later: bool, by: UserId) -> Result<bool, AllocError>
        ensures { (edition : Edition) (owner : UserId) (h : History) → Stands self.now.state.now edition owner h →
            IfOk result (λ any. any ≡ are_any (words_of is_later owner h (known_in self.now) by)) }
    {
        let mut said = Vec::new(self.alloc);
        self.push_of(is_later, by, b"", &mut said)?;
        Ok(!said.as_slice().is_empty())
    }

    /// Whether an opener is lent x on `aclumask` for their lines.
    fn is_lent(&self, is_later: bool, by: UserId) -> bool
        ensures { (edition : Edition) (owner : UserId) (h : History) →
            HasEntries self.now.state.now.entries edition owner h → result ≡ is_lent is_later owner h by }
    {
        let object = Object::Command(CommandName::Aclumask);
        !is_later || !self.state.entries.has(by, Bit::Execute, object)
    }

    /// How a line of the owner begins.
    fn owner_head(&self, start: &[u8]) -> Result<Vec<u8>, AllocError>
        ensures { IfOk result (λ head. head.items ≡ owner_head start.now) }
    {
        let mut head = Vec::new(self.alloc);
        head.extend_from_slice(start)?;
        head.extend_from_slice(b"aclumask")?;
        Ok(head)
    }

    /// How a line of another opener begins.
    fn other_head(&self, start: &[u8], by: UserId) -> Result<Vec<u8>, AllocError>
        ensures { IfOk result (λ head. head.items ≡ other_head start.now by) }
    {
        let mut head = Vec::new(self.alloc);
        head.extend_from_slice(start)?;
        head.extend_from_slice(by.as_bytes())?;
        head.extend_from_slice(b": aclumask")?;
        Ok(head)
    }

    /// Appends the lines by which another user than the owner masks users. If that user may not give
    /// `aclumask`, they are lent it for these lines.
    fn push_others(
        &self,
        is_later: bool,
        start: &[u8],
        by: UserId,
        out: &mut Vec<u8>,
    ) -> Result<(), AllocError>
        ensures { (edition : Edition) (owner : UserId) (h : History) → Stands self.now.state.now edition owner h →
            OnOk result (PutsAll (other_parts start.now by (words_of is_later owner h (known_in self.now) by)
            (is_lent is_later owner h by)) out.old.items out.new.items) }
    {
        let head = self.other_head(start, by)?;
        if !self.is_lent(is_later, by) {
            return self.push_of(is_later, by, head.as_slice(), out);
        }
        push_lent(start, by, b" +x", out)?;
        self.push_of(is_later, by, head.as_slice(), out)?;
        push_lent(start, by, b" -x", out)
    }

    /// Appends the lines by which an opener masks users, each after `start`.
    fn push_by(
        &self,
        is_later: bool,
        start: &[u8],
        by: UserId,
        out: &mut Vec<u8>,
    ) -> Result<(), AllocError>
        ensures { (edition : Edition) (owner : UserId) (h : History) → Stands self.now.state.now edition owner h →
            OnOk result (PutsAll (parts_by is_later owner h (known_in self.now) start.now by) out.old.items
            out.new.items) }
    {
        if !self.says_any(is_later, by)? {
            return Ok(());
        }
        if !self.is_owner(by) {
            return self.push_others(is_later, start, by, out);
        }
        let head = self.owner_head(start)?;
        self.push_of(is_later, by, head.as_slice(), out)
    }

    /// Appends the lines by which each opener masks users, each after `start`: closed masks, and later what
    /// they were.
    pub fn push(&self, is_later: bool, start: &[u8], out: &mut Vec<u8>) -> Result<(), AllocError>
        ensures { (edition : Edition) (owner : UserId) (h : History) → Stands self.now.state.now edition owner h →
            OnOk result (PutsAll (mask_parts is_later owner h (known_in self.now) start.now) out.old.items
            out.new.items) }
    {
        for by in self.users {
            self.push_by(is_later, start, *by, out)?;
        }
        Ok(())
    }
}
