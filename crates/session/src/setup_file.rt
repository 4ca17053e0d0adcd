//! How a session begins, with the commands of a setup, which its file has.

ghost use Rattle.std.specs.Prelude.{◌≡◌, ◌∷◌, [], IfOk, IfErr, OnOk, map, true, None, codes, option_map};
ghost use Rattle.program_words.specs.SetupLines.{line_of};
ghost use Rattle.session_model.specs.Trace.{Trace, begun};
ghost use Rattle.session_model.specs.Texts.{text_of};
ghost use Rattle.session_core.specs.Stands.{StandsFor, wants_memory};
ghost use Rattle.session.specs.Setup.{Behind, Begins, Refuses, StopsAt, IfRefused, spoken};
ghost use Rattle.std.specs.String.{string_bytes};
ghost use Rattle.clap.specs.Words.{matches_of, takes, first_of};
ghost use Rattle.session.specs.Words.{muxsim};

use crate::words::path_of;
use acl::{Edition, UserId};
use program_words::{SetupLine, SystemError, speech_in};
use session_core::{Notes, Session};
use session_model::{Event, Refusal, Reply};
use std::alloc::Global;
use std::fs;
use std::fs::Files;
use thiserror::Error;

/// Why a setup isn't read.
#[derive(Debug, Drop, Error)]
pub enum SetupUnread<'a> {
    /// The file of this path can't be read, or memory ran out for it.
    #[error("setup {0}: {1} (set --setup)")]
    File(&'a str, SystemError),
    #[error("out of memory")]
    NoMemory,
}

/// The contents of a file, if a path is given; else no bytes.
fn read_of<'a, H: Files + AllocGlobal>(
    rt: &H,
    path: Option<&'a str>,
) -> Result<Vec<u8>, SetupUnread<'a>>
    ensures { option_map (λ p. p.now) path.entry ≡ None → IfOk result (λ file. file.items ≡ []) }
{
    match path {
        Some(path) => match fs::read(rt, path) {
            Ok(file) => Ok(file),
            Err(error) => Err(SetupUnread::File(path, SystemError(error))),
        },
        None => Ok(Vec::new(rt.alloc())),
    }
}

/// The contents of the file that the arguments name after `--setup`. No bytes if they name none.
pub fn setup_of<'a, H: Files + AllocGlobal>(
    rt: &H,
    words: &'a [String],
) -> Result<Vec<u8>, SetupUnread<'a>>
    ensures { takes muxsim (map string_bytes words.now) ≡ true
        → first_of (codes "setup") (matches_of muxsim (map string_bytes words.now)) ≡ None
        → IfOk result (λ file. file.items ≡ []) }
{
    match path_of(rt.alloc(), words, "setup") {
        Ok(path) => read_of(rt, path),
        Err(_) => Err(SetupUnread::NoMemory),
    }
}

/// How a session begins.
#[derive(Clone, Copy, Debug)]
pub struct Beginning<'a> {
    pub edition: Edition,
    pub owner: UserId,
    /// The commands that are given before anything else: the owner's, and those of users whom lines name.
    pub setup: &'a [SetupLine<'a>],
}

/// Why a session doesn't begin.
#[derive(Debug, Drop)]
pub enum Unbegun {
    NoMemory,
    /// The setup's line of this number was refused, with this text.
    Refused(usize, Vec<u8>),
}

/// A new session of an edition.
fn new_session(alloc: Global, edition: Edition, owner: UserId) -> Result<Session, Refusal>
    ensures { IfOk result (λ session. StandsFor (begun edition owner) session) }
{
    match edition {
        Edition::First => Session::first_edition(alloc, owner),
        Edition::Second => Session::new(alloc, owner),
    }
}

/// Whether a step was refused because memory ran out.
fn wants_memory(reply: &Reply) -> bool
    ensures { result ≡ wants_memory reply.now }
{
    matches!(reply, Err(Refusal::NoMemory))
}

/// Says that the line of this number was refused.
fn refused(alloc: Global, number: usize, refusal: &Refusal) -> Unbegun
    ensures { IfRefused result (λ line said. (line ≡ number) × (said ≡ text_of refusal.now)) }
{
    let mut said = Vec::new(alloc);
    match refusal.text(&mut said) {
        Ok(()) => Unbegun::Refused(number, said),
        Err(_) => Unbegun::NoMemory,
    }
}

/// The user who gives a line, and the command: `USER: COMMAND` is that user's, and each other line the
/// owner's.
pub fn spoken(owner: UserId, line: &[u8]) -> (UserId, &[u8])
    ensures { (result.0, result.1.now) ≡ spoken owner line.now }
{
    let Some((name, command)) = speech_in(line) else {
        return (owner, line);
    };
    match UserId::of(name) {
        Some(user) => (user, command),
        None => (owner, line),
    }
}

/// Gives a session a line as a Command of the user whom it names, else of the owner. There is no client
/// and no window that it could act on.
fn give(
    alloc: Global,
    session: &mut Session,
    owner: UserId,
    line: &SetupLine,
) -> Result<(), Unbegun>
    ensures done { OnOk result ((h : Trace) → StandsFor h session.old
        → Behind (λ now. StandsFor now session.new) h owner (line_of line.now ∷ [])) }
    ensures refused { IfErr result (λ fault. IfRefused fault (λ number said.
        (number ≡ line.now.number) × ((h : Trace) → StandsFor h session.old
        → Refuses h owner (line_of line.now) said))) }
{
    let (user, command) = spoken(owner, line.text.as_bytes());
    let event = Event::Command {
        user,
        window: None,
        line: command,
    };
    let mut effects = Vec::new(alloc);
    let mut notes = Notes::new(alloc);
    let reply = session.step(event, &mut effects, &mut notes);
    if wants_memory(&reply) {
        return Err(Unbegun::NoMemory);
    }
    match reply {
        Ok(_done) => Ok(()),
        Err(refusal) => Err(refused(alloc, line.number, &refusal)),
    }
}

/// Gives a session the lines of a setup, up to the first one that is refused.
fn set_up(
    alloc: Global,
    session: &mut Session,
    owner: UserId,
    setup: &[SetupLine],
) -> Result<(), Unbegun>
    ensures done { OnOk result ((h : Trace) → StandsFor h session.old
        → Behind (λ now. StandsFor now session.new) h owner (map line_of setup.now)) }
    ensures refused { IfErr result (λ fault. IfRefused fault (λ number said. (h : Trace)
        → StandsFor h session.old → StopsAt number said h owner (map line_of setup.now))) }
{
    for line in setup {
        give(alloc, session, owner, line)?;
    }
    Ok(())
}

impl Beginning<'_> {
    /// A session that has taken the commands of the setup.
    pub fn session(&self, alloc: Global) -> Result<Session, Unbegun>
        ensures ok { IfOk result (λ session. Begins self.now (λ h. StandsFor h session)) }
        // The first line that is refused is named, with the refusal's text.
        ensures refused { IfErr result (λ fault. IfRefused fault (λ number said.
            StopsAt number said (begun self.now.edition self.now.owner) self.now.owner
            (map line_of self.now.setup.now))) }
    {
        let Ok(mut session) = new_session(alloc, self.edition, self.owner) else {
            return Err(Unbegun::NoMemory);
        };
        set_up(alloc, &mut session, self.owner, self.setup)?;
        Ok(session)
    }
}
