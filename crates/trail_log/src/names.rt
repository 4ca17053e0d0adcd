//! What a log calls clients and windows.

ghost use Rattle.std.specs.Prelude.{◌≡◌, IfOk, OnOk, Some};
ghost use Rattle.hub.specs.Clients.{user_in};
ghost use Rattle.trail_lines.specs.Entries.{said};
ghost use Rattle.trail_log.specs.Naming.{change_by, follow, follow_all, line_by, names_with, nobody, retitled};
ghost use Rattle.trail_log.specs.Naming.{some_title, title_said, typed_change, with_change};

use crate::checks::{asks_title, window_in};
use crate::titles::{Titled, follow_titles, forget, set_title};
use acl::{Act, UserId};
use command_lang::{Command, FaultKind, ParseFault, parse};
use hub::{Ending, Kept, all_pass, follow_clients, from_command, user_of_client};
use session::{Bytes, Verdict};
use std::alloc::{AllocError, Global};
use std::marker::Model;
use trail_lines::EntryLine;

/// The users of clients, and the titles of open windows.
pub struct Names {
    clients: Vec<(u32, UserId)>,
    titles: Vec<Titled>,
}

impl Drop for Names {
    fn drop(self) {
        let Names {
            clients: _,
            titles: _,
        } = self;
    }
}

impl Model for Names {
    ghost use Rattle.trail_log.specs.Naming.{Names as Named};

    ghost Value = { Named };

    ghost view = { λ n. (n.clients.items, n.titles.items) };
}

/// The title that an entry gives a window. None if the title was typed, since what is typed isn't in
/// the trail.
#[derive(Drop)]
struct Change {
    window: u32,
    title: Option<Bytes>,
}

/// The title that a command's line sets, if it sets one.
fn title_said(alloc: Global, line: &[u8]) -> Result<Option<Bytes>, AllocError>
    ensures { IfOk result (λ title. title ≡ title_said line.now) }
{
    command_lang::each_line_is_a_command_or_faulty();
    match parse(alloc, line) {
        Ok(Command::Title(text)) => {
            let title = Bytes::of(alloc, text.as_str().as_bytes())?;
            Ok(Some(title))
        }
        Ok(_) => Ok(None),
        Err(
            ParseFault {
                kind: FaultKind::NoMemory,
                ..
            },
        ) => Err(AllocError),
        Err(_) => Ok(None),
    }
}

/// What a command's line changes, if it acts on a window.
fn line_by(alloc: Global, line: &[u8], window: Option<u32>) -> Result<Option<Change>, AllocError>
    ensures { IfOk result (λ change. change ≡ line_by line.now window) }
{
    let Some(window) = window else {
        return Ok(None);
    };
    match title_said(alloc, line)? {
        Some(title) => Ok(Some(Change {
            window,
            title: Some(title),
        })),
        None => Ok(None),
    }
}

/// What a typed command changes, by its checks.
fn typed_change(asked: &[Verdict]) -> Option<Change>
    ensures { result ≡ typed_change asked.now }
{
    if !(asks_title(asked) && all_pass(asked)) {
        return None;
    }
    match window_in(asked) {
        Some(window) => Some(Change {
            window,
            title: None,
        }),
        None => None,
    }
}

/// What the opening of a window changes.
fn opened_change(alloc: Global, window: u32, title: &[u8]) -> Result<Option<Change>, AllocError>
    ensures { IfOk result (λ change. change ≡ Some (some_title window title.now)) }
{
    let title = Bytes::of(alloc, title)?;
    Ok(Some(Change {
        window,
        title: Some(title),
    }))
}

/// What an entry changes.
fn change_by(
    alloc: Global,
    event: &Kept,
    verdicts: &[Verdict],
    ending: Ending,
) -> Result<Option<Change>, AllocError>
    ensures { IfOk result (λ change. change ≡ change_by event.now verdicts.now ending) }
{
    let Ok(finished) = ending else {
        return Ok(None);
    };
    match event {
        Kept::Open { title, .. } => opened_change(alloc, finished.made, title.as_slice()),
        Kept::Command { line, .. } => line_by(alloc, line.as_slice(), window_in(verdicts)),
        Kept::Keys { .. } => Ok(typed_change(from_command(verdicts))),
        Kept::Attach { .. } | Kept::Detach { .. } | Kept::Closed { .. } => Ok(None),
    }
}

/// The titles after a change.
fn retitle(titles: &mut Vec<Titled>, change: Option<Change>) -> Result<(), AllocError>
    ensures { OnOk result (titles.new.items ≡ retitled change titles.old.items) }
{
    let Some(Change { window, title }) = change else {
        return Ok(());
    };
    match title {
        Some(title) => set_title(titles, window, title),
        None => {
            forget(titles, window);
            Ok(())
        }
    }
}

impl Names {
    /// Without a client or a window.
    pub fn new(alloc: Global) -> Names
        ensures { result ≡ nobody }
    {
        Names {
            clients: Vec::new(alloc),
            titles: Vec::new(alloc),
        }
    }

    /// The user of a client, if it is attached.
    pub fn user_of(&self, client: u32) -> Option<UserId>
        ensures { result ≡ user_in self.now.0 client }
    {
        user_of_client(self.clients.as_slice(), client)
    }

    /// The titles of open windows, the one that was set last at the end.
    pub fn titles(&self) -> &[Titled]
        ensures { result.now ≡ self.now.1 }
    {
        self.titles.as_slice()
    }

    /// Follows one act.
    fn follow(&mut self, act: &Act) -> Result<(), AllocError>
        ensures { OnOk result (self.new ≡ follow act.now self.old) }
    {
        follow_clients(&mut self.clients, act)?;
        follow_titles(&mut self.titles, act);
        Ok(())
    }

    /// Follows acts in order.
    fn follow_all(&mut self, acts: &[Act]) -> Result<(), AllocError>
        ensures { OnOk result (self.new ≡ follow_all acts.now self.old) }
    {
        for act in acts {
            self.follow(act)?;
        }
        Ok(())
    }

    /// Changes a title.
    fn retitle(&mut self, change: Option<Change>) -> Result<(), AllocError>
        ensures { OnOk result (self.new ≡ with_change change self.old) }
    {
        retitle(&mut self.titles, change)
    }

    /// Follows the acts of the next entry, and the title that it gives.
    pub fn take(&mut self, line: &EntryLine) -> Result<(), AllocError>
        ensures { OnOk result (self.new ≡ names_with self.old (said line.now)) }
    {
        let entry = &line.entry;
        let alloc = *self.titles.allocator();
        let change = change_by(alloc, entry.event(), entry.verdicts(), entry.ending())?;
        self.follow_all(entry.acts())?;
        self.retitle(change)
    }
}
