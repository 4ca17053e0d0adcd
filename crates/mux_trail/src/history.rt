//! When a user got a bit, and lost it.

ghost use Rattle.std.specs.Prelude.{◌≡◌, ◌++◌, OnOk, [], false};
ghost use Rattle.acl.specs.History.{History as Acts};
ghost use Rattle.mux_trail.specs.Words.{Edition, StandsAfter, UserId, flat_map, said};
ghost use Rattle.mux_trail.specs.History.{change_text, changed, has_asked, noted, question_in, window_titled};

use crate::words::RightsAsked;
use acl::{Object, UserId};
use hub::Rights;
use line_fields::push_when;
use session::push_decimal;
use std::alloc::{AllocError, Global};
use trail_confined::{Question, push_by, yes_text};
use trail_lines::EntryLine;
use trail_log::Titled;

/// A change of a bit by an entry.
#[derive(Clone, Copy)]
struct HistoryChange {
    has: bool,
    place: u64,
    ms: u64,
    by: Option<UserId>,
}

/// Whether a user has a bit now, and its changes, the first one first.
#[derive(Drop)]
pub struct History {
    has: bool,
    changes: Vec<HistoryChange>,
}

/// The open window that was given a title last, if one has it.
fn window_titled(titles: &[Titled], title: &[u8]) -> Option<u32>
    ensures { result ≡ window_titled title.now titles.now }
{
    let mut window = None;
    for titled in titles {
        if titled.title() == title {
            window = Some(titled.window());
        }
    }
    window
}

/// The question about one bit, if one is asked about, when windows have these titles.
pub fn question_in(asked: RightsAsked<'_>, titles: &[Titled]) -> Option<Question>
    ensures { result ≡ question_in asked.entry titles.now }
{
    match asked {
        RightsAsked::Why(question) => Some(question),
        RightsAsked::WhyTitled { user, bit, title } => Some(Question {
            user,
            bit,
            object: Object::Window(window_titled(titles, title.as_bytes())?),
        }),
        RightsAsked::Who | RightsAsked::Confined(_) | RightsAsked::Setup => None,
    }
}

/// Whether the user has the bit that is asked about, when windows have these titles.
pub fn has_asked(asked: RightsAsked<'_>, rights: &Rights, titles: &[Titled]) -> bool
    ensures { (edition : Edition) (owner : UserId) (h : Acts) → StandsAfter rights.now edition owner h
        → result ≡ has_asked asked.entry edition owner h titles.now }
{
    match question_in(asked, titles) {
        Some(Question { user, bit, object }) => {
            rights.is_there(object) && rights.may(user, bit, object)
        }
        None => false,
    }
}

/// Appends the line of a change.
fn push_change(change: HistoryChange, out: &mut Vec<u8>) -> Result<(), AllocError>
    ensures { OnOk result (out.new.items ≡ out.old.items ++ change_text change) }
{
    out.extend_from_slice(yes_text(change.has))?;
    out.extend_from_slice(b" from entry ")?;
    push_decimal(change.place, out)?;
    push_when(b" at ", change.ms, out)?;
    push_by(change.by, b"\n", out)
}

impl History {
    pub fn new(alloc: Global) -> History
        ensures { noted result ≡ (false, []) }
    {
        History {
            has: false,
            changes: Vec::new(alloc),
        }
    }

    /// Notes whether the user has the bit after an entry, which this user gave.
    pub fn note(
        &mut self,
        has: bool,
        by: Option<UserId>,
        next: &EntryLine,
    ) -> Result<(), AllocError>
        ensures { OnOk result (noted self.new ≡ changed has by (said next.now) (noted self.old)) }
    {
        if has != self.has {
            self.changes.push(HistoryChange {
                has,
                place: next.place,
                ms: next.ms,
                by,
            })?;
            self.has = has;
        }
        Ok(())
    }

    pub fn push(&self, out: &mut Vec<u8>) -> Result<(), AllocError>
        ensures { OnOk result (out.new.items ≡ out.old.items ++ flat_map change_text (noted self.now).1) }
    {
        for change in self.changes.as_slice() {
            push_change(*change, out)?;
        }
        Ok(())
    }
}
