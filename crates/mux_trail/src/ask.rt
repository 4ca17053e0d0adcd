//! Answers who may do what, and which acts decide it.

ghost use Rattle.std.specs.Prelude.{◌≡◌, ◌++◌, ◌<◌, List, IfOk, IfSome, OnOk};
ghost use Rattle.mux_trail.specs.Words.{Edition, HasWatched, Said, circle, flat_map};
ghost use Rattle.mux_trail.specs.Answers.{Answers, Confines, IsAsked, IsSetup, IsText, IsWho, IsWhy, IsWhyTitled};
ghost use Rattle.mux_trail.specs.Answers.{Tells, acts_of, confined_status, deciders_for, history_text, title_text};
ghost use Rattle.mux_trail.specs.Statuses.{Begins};

use crate::history::question_in;
use crate::reading::{TrailReading, take_file};
use crate::words::{Limits, RightsAsked, users_named};
use acl::{Object, UserId};
use client_words::put_visible;
use session::push_decimal;
use std::alloc::{AllocError, Global};
use std::io::{self, BufRead, Write};
use trail_confined::{
    Premise, Question, failing_of, power_deciders, push_confinement, push_reasons, push_rights,
    users_with,
};
use trail_files::{LEGAL, TrailFault, UNCONFINED, heading_of, tell_finish};
use trail_log::Titled;
use trail_rights::{Decider, settings_of, users_of};
use trail_setup::push_setup;

/// Appends the title of a window. Control characters are escaped.
fn push_title(titled: &Titled, out: &mut Vec<u8>) -> Result<(), AllocError>
    ensures { OnOk result (out.new.items ≡ out.old.items ++ title_text titled.now) }
{
    out.extend_from_slice(b"title ")?;
    push_decimal(u64::from(titled.window()), out)?;
    out.extend_from_slice(b" ")?;
    put_visible(titled.title(), out)?;
    out.extend_from_slice(b"\n")
}

/// Appends the title of each open window that has one.
fn push_titles(titles: &[Titled], out: &mut Vec<u8>) -> Result<(), AllocError>
    ensures { OnOk result (out.new.items ≡ out.old.items ++ flat_map title_text titles.now) }
{
    for titled in titles {
        push_title(titled, out)?;
    }
    Ok(())
}

/// The status to exit with, if these are the premises that fail.
fn confined_status(failing: &[Premise]) -> u8
    ensures { result ≡ confined_status failing.now }
{
    match failing {
        [] => LEGAL,
        _ => UNCONFINED,
    }
}

// Each answer is the status to exit with. It is None if what it tells wasn't looked for.
impl TrailReading<'_> {
    /// Appends the windows' titles, and then who may do what.
    fn push_who(&self, out: &mut Vec<u8>) -> io::Result<Option<u8>>
        ensures { Tells self.now result (λ edition said status. (status ≡ 0)
            × IsWho edition self.now said out.old.items out.new.items) }
    {
        let users = users_of(self.alloc, self.watch.replay())?;
        let settlers = settings_of(self.alloc, users.as_slice())?;
        let Some(sight) = self.watch.sight(Vec::new(self.alloc), settlers)? else {
            return Ok(None);
        };
        push_titles(self.names.titles(), out)?;
        push_rights(&self.watch, &sight, out)?;
        Ok(Some(LEGAL))
    }

    /// Appends whether users are confined.
    fn push_confined(&self, names: &str, out: &mut Vec<u8>) -> io::Result<Option<u8>>
        ensures { Tells self.now result (λ edition said status.
            Confines edition self.now.owner said names.now status out.old.items out.new.items) }
    {
        let (alloc, owner, replay) = (self.alloc, self.owner, self.watch.replay());
        let confined = users_named(alloc, names)?;
        let users = users_with(alloc, replay, confined.as_slice())?;
        let deciders = power_deciders(alloc, owner, users.as_slice())?;
        let settlers = settings_of(alloc, users.as_slice())?;
        let Some(sight) = self.watch.sight(deciders, settlers)? else {
            return Ok(None);
        };
        let Some(failing) = failing_of(alloc, replay, &sight, confined.as_slice())? else {
            return Ok(None);
        };
        push_confinement(owner, replay, &sight, failing.as_slice(), out)?;
        Ok(Some(confined_status(failing.as_slice())))
    }

    /// A user, and then the user's leaders.
    fn circle_of(&self, user: UserId) -> Result<Vec<UserId>, AllocError>
        ensures { (edition : Edition) (said : List Said) → HasWatched self.now.watch edition self.now.owner said
            → IfOk result (λ users. users.items ≡ circle edition (acts_of said) user) }
    {
        let leaders = self.watch.replay().leaders_of(user);
        let mut users = Vec::new(self.alloc);
        users.push(user)?;
        users.extend_from_slice(leaders.as_slice())?;
        Ok(users)
    }

    /// What decides the bit for each of these users, before the first act.
    fn deciders_for(&self, users: &[UserId], asked: Question) -> Result<Vec<Decider>, AllocError>
        ensures { IfOk result (λ deciders. deciders.items ≡ deciders_for self.now.owner asked users.now) }
    {
        let mut deciders = Vec::new(self.alloc);
        for user in users {
            deciders.push(Decider::new(self.owner, *user, asked.bit, asked.object))?;
        }
        Ok(deciders)
    }

    /// Appends the entries by which a user got or lost the bit. The owner has every bit.
    fn push_history(&self, user: UserId, out: &mut Vec<u8>) -> Result<(), AllocError>
        ensures { OnOk result (out.new.items
            ≡ out.old.items ++ history_text self.now.owner user self.now.history) }
    {
        if user == self.owner {
            return Ok(());
        }
        self.history.push(out)
    }

    /// Appends which acts decide a bit, and the entries by which the user got or lost it.
    fn push_why(&self, question: Question, out: &mut Vec<u8>) -> io::Result<Option<u8>>
        ensures { Tells self.now result (λ edition said status. (status ≡ 0)
            × IsWhy edition self.now.owner said question self.now.history out.old.items out.new.items) }
    {
        let users = self.circle_of(question.user)?;
        let deciders = self.deciders_for(users.as_slice(), question)?;
        let Some(sight) = self.watch.sight(deciders, Vec::new(self.alloc))? else {
            return Ok(None);
        };
        push_reasons(self.owner, self.watch.replay(), &sight, question, out)?;
        self.push_history(question.user, out)?;
        Ok(Some(LEGAL))
    }

    /// Appends which window has a title, and which acts decide the bit on it; or that none has it.
    fn push_titled(&self, on: Option<Question>, out: &mut Vec<u8>) -> io::Result<Option<u8>>
        ensures { Tells self.now result (λ edition said status. (status ≡ 0)
            × IsWhyTitled edition self.now.owner said on self.now.history out.old.items out.new.items) }
    {
        let Some(question) = on else {
            out.extend_from_slice(b"no: no open window has this title\n")?;
            self.history.push(out)?;
            return Ok(Some(LEGAL));
        };
        if let Object::Window(window) = question.object {
            out.extend_from_slice(b"window ")?;
            push_decimal(u64::from(window), out)?;
            out.extend_from_slice(b"\n")?;
        }
        self.push_why(question, out)
    }

    /// Appends the lines of a setup.
    fn push_setup(&self, out: &mut Vec<u8>) -> io::Result<Option<u8>>
        ensures { Tells self.now result (λ edition said status. (status ≡ 0)
            × IsSetup edition self.now.owner said self.now.state out.old.items out.new.items) }
    {
        let Some(state) = &self.state else {
            return Ok(None);
        };
        push_setup(self.alloc, &self.watch, state, out)?;
        Ok(Some(LEGAL))
    }

    fn push(&self, asked: RightsAsked<'_>, out: &mut Vec<u8>) -> io::Result<Option<u8>>
        ensures { Tells self.now result (λ edition said status.
            IsText asked.entry edition self.now said status out.old.items out.new.items) }
    {
        match asked {
            RightsAsked::Who => self.push_who(out),
            RightsAsked::Confined(names) => self.push_confined(names, out),
            RightsAsked::Why(question) => self.push_why(question, out),
            RightsAsked::WhyTitled { .. } => {
                self.push_titled(question_in(asked, self.names.titles()), out)
            }
            RightsAsked::Setup => self.push_setup(out),
        }
    }

    fn answer<W: Write>(&self, asked: RightsAsked<'_>, output: &mut W) -> io::Result<Option<u8>>
        ensures { Tells self.now result (λ edition said status.
            Answers W.contents asked.entry edition self.now said status output.old output.new) }
    {
        let mut text = Vec::new(self.alloc);
        let Some(status) = self.push(asked, &mut text)? else {
            return Ok(None);
        };
        output.write_all(text.as_slice())?;
        Ok(Some(status))
    }
}

/// There is an entry of the last place that counts, if there are this many.
pub fn is_there(last: Option<u64>, count: u64) -> Result<(), TrailFault>
    ensures { OnOk result (IfSome last (λ place. place < count)) }
{
    match last {
        Some(place) if place >= count => Err(TrailFault::NoPlace(place, count)),
        _ => Ok(()),
    }
}

/// Writes what is asked about rights, or what is wrong with the file.
pub fn ask<R: BufRead, W: Write>(
    alloc: Global,
    asked: RightsAsked<'_>,
    limits: Limits,
    reader: &mut R,
    output: &mut W,
) -> Result<u8, TrailFault>
    ensures { IfOk result (λ status. Begins limits.owner (R.remaining reader.old)
        (IsAsked W.contents asked.entry limits status output.old output.new)) }
{
    let heading = heading_of(alloc, reader)?;
    let owner = limits.owner.unwrap_or(heading.owner);
    let mut reading = TrailReading::new(alloc, heading.edition, owner, asked)?;
    let finish = take_file(alloc, &mut reading, limits, reader)?;
    let count = reading.watch.count();
    if finish.is_bad() {
        let status = tell_finish(alloc, finish, count, owner, output)?;
        return Ok(status);
    }
    is_there(limits.last, count)?;
    match reading.answer(asked, output)? {
        Some(status) => Ok(status),
        None => Err(TrailFault::NotSought),
    }
}
