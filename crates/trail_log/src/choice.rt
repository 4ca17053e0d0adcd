//! Which entries are asked for.

ghost use Rattle.std.specs.Prelude.{◌≡◌, ◌||◌, option_map};
ghost use Rattle.trail_lines.specs.Entries.{said};
ghost use Rattle.trail_log.specs.Choosing.{acts_on, checks, closes, giver, has_title, is_chosen, is_of_wanted};
ghost use Rattle.trail_log.specs.Choosing.{is_of_window, is_user, is_wanted, opens, window_of_act};

use crate::checks::window_of;
use crate::names::Names;
use crate::titles::{Titled, title_in};
use acl::{Act, Object, UserId};
use hub::{Kept, TrailEntry};
use session::{Bytes, Verdict};
use trail_lines::EntryLine;

/// A window by its serial, or windows by their title.
#[derive(Drop)]
pub enum Wanted {
    Serial(u32),
    Title(Bytes),
}

/// Which entries are asked for: between two times, in milliseconds since 1970, of a user, and of a
/// window.
#[derive(Drop)]
pub struct Choice {
    pub since: u64,
    pub until: u64,
    pub user: Option<UserId>,
    pub window: Option<Wanted>,
}

/// The user who gives an event: nobody if a window's program ended.
pub fn giver(names: &Names, event: &Kept) -> Option<UserId>
    ensures { result ≡ giver names.now.0 event.now }
{
    match event {
        Kept::Attach { user, .. } => Some(*user),
        Kept::Command { user, .. } => Some(*user),
        Kept::Open { user, .. } => Some(*user),
        Kept::Detach { client } => names.user_of(*client),
        Kept::Keys { client } => names.user_of(*client),
        Kept::Closed { .. } => None,
    }
}

/// Whether an event's giver is the user who is asked for, if one is.
fn is_user(asked: Option<UserId>, given: Option<UserId>) -> bool
    ensures { result ≡ is_user asked given }
{
    match (asked, given) {
        (None, _) => true,
        (Some(_), None) => false,
        (Some(user), Some(by)) => user == by,
    }
}

/// The window that an act is of.
fn window_of_act(act: &Act) -> Option<u32>
    ensures { result ≡ window_of_act act.now }
{
    match *act {
        Act::Set {
            object: Object::Window(window),
            ..
        } => Some(window),
        Act::Opened { window, .. } => Some(window),
        Act::Closed { window } => Some(window),
        Act::Entered { window, .. } => Some(window),
        Act::Left { window, .. } => Some(window),
        Act::Mode { window, .. } => Some(window),
        _ => None,
    }
}

/// Whether a title is this one.
fn has_title(title: &[u8], other: Option<&[u8]>) -> bool
    ensures { result ≡ has_title title.now (option_map (λ t. t.now) other.entry) }
{
    match other {
        Some(other) => other == title,
        None => false,
    }
}

/// Whether a window is asked for.
fn is_wanted(titles: &[Titled], asked: &Wanted, window: Option<u32>) -> bool
    ensures { result ≡ is_wanted titles.now asked.now window }
{
    let Some(window) = window else {
        return false;
    };
    match asked {
        Wanted::Serial(serial) => window == *serial,
        Wanted::Title(title) => has_title(title.as_slice(), title_in(titles, window)),
    }
}

/// Whether an event opens a window of a title that is asked for.
fn opens(asked: &Wanted, event: &Kept) -> bool
    ensures { result ≡ opens asked.now event.now }
{
    match (asked, event) {
        (Wanted::Title(title), Kept::Open { title: named, .. }) => named.as_slice()
            == title.as_slice(),
        _ => false,
    }
}

/// Whether an event is the end of a window that is asked for.
fn closes(titles: &[Titled], asked: &Wanted, event: &Kept) -> bool
    ensures { result ≡ closes titles.now asked.now event.now }
{
    match event {
        Kept::Closed { window } => is_wanted(titles, asked, Some(*window)),
        _ => false,
    }
}

/// Whether a check is of a window that is asked for.
fn checks(titles: &[Titled], asked: &Wanted, verdicts: &[Verdict]) -> bool
    ensures { result ≡ checks titles.now asked.now verdicts.now }
{
    for verdict in verdicts {
        if is_wanted(titles, asked, window_of(*verdict)) {
            return true;
        }
    }
    false
}

/// Whether an act is of a window that is asked for.
fn acts_on(titles: &[Titled], asked: &Wanted, acts: &[Act]) -> bool
    ensures { result ≡ acts_on titles.now asked.now acts.now }
{
    for act in acts {
        if is_wanted(titles, asked, window_of_act(act)) {
            return true;
        }
    }
    false
}

/// Whether an entry is of a window that is asked for.
fn is_of_window(titles: &[Titled], entry: &TrailEntry, asked: &Wanted) -> bool
    ensures { result ≡ is_of_window titles.now entry.now asked.now }
{
    let event = entry.event();
    if opens(asked, event) || closes(titles, asked, event) {
        return true;
    }
    checks(titles, asked, entry.verdicts()) || acts_on(titles, asked, entry.acts())
}

/// Whether an entry is of a window that is asked for, if one is.
fn is_of_wanted(titles: &[Titled], entry: &TrailEntry, asked: &Option<Wanted>) -> bool
    ensures { result ≡ is_of_wanted titles.now entry.now asked.now }
{
    match asked {
        Some(asked) => is_of_window(titles, entry, asked),
        None => true,
    }
}

impl Choice {
    /// Whether an entry is asked for, before which clients and windows had these names.
    pub fn is_chosen(&self, names: &Names, line: &EntryLine) -> bool
        ensures { result ≡ is_chosen self.now names.now (said line.now) }
    {
        if line.ms < self.since {
            return false;
        }
        if self.until < line.ms {
            return false;
        }
        if !is_user(self.user, giver(names, line.entry.event())) {
            return false;
        }
        is_of_wanted(names.titles(), &line.entry, &self.window)
    }
}
