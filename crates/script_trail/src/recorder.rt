//! A session whose steps are written down.

use acl::{Edition, UserId};
use hub::{Kept, KeptReply, TrailEntry};
use program_words::read_setup;
use session::{
    Beginning, Bytes, Event, Notes, Refusal, Reply, Session, beginning_of, read_event, spoken,
};
use std::alloc::{AllocError, Global};
use trail_lines::{Cause, Ended, Header, print_end, print_header, print_line};

/// The version in the file's first line.
const VERSION: &[u8] = b"0.1.0";

/// The time of all entries.
const NO_TIME: u64 = 0;

/// A session, and the lines of its trail up to now.
#[derive(Drop)]
pub struct ScriptRecorder {
    alloc: Global,
    session: Session,
    entries: u64,
    text: Vec<u8>,
}

/// A session that has taken no event.
fn session_of(alloc: Global, edition: Edition, owner: UserId) -> Result<Session, AllocError> {
    let made = match edition {
        Edition::First => Session::first_edition(alloc, owner),
        Edition::Second => Session::new(alloc, owner),
    };
    made.map_err(|_refusal| AllocError)
}

impl ScriptRecorder {
    pub fn new(
        alloc: Global,
        edition: Edition,
        owner: UserId,
    ) -> Result<ScriptRecorder, AllocError> {
        let header = Header {
            edition,
            owner,
            version: Bytes::of(alloc, VERSION)?,
            ms: NO_TIME,
        };
        let mut text = Vec::new(alloc);
        print_header(&header, &mut text)?;
        text.push(b'\n')?;
        Ok(ScriptRecorder {
            alloc,
            session: session_of(alloc, edition, owner)?,
            entries: 0,
            text,
        })
    }

    /// Takes one step, and writes its entry, if it has one.
    pub fn step(&mut self, event: Event) -> Result<Reply, AllocError> {
        let kept = Kept::of(self.alloc, event)?;
        let spare = Box::new(self.alloc, Refusal::NoMemory)?;
        let mut effects = Vec::new(self.alloc);
        let mut notes = Notes::new(self.alloc);
        let reply = self.session.step(event, &mut effects, &mut notes);
        if let Err(Refusal::NoMemory) = reply {
            return Err(AllocError);
        }
        if let Some(kept) = kept {
            let (acts, verdicts) = notes.into_parts();
            let entry = TrailEntry::new(kept, verdicts, acts, KeptReply::of(&reply, spare));
            self.write(&entry)?;
        }
        Ok(reply)
    }

    /// Takes an event in as many steps as it needs. Each step has the keys that the step before didn't
    /// read, and a step that reads none is the last.
    pub fn take(&mut self, event: Event) -> Result<(), AllocError> {
        let Event::Keys { client, bytes } = event else {
            let _reply = self.step(event)?;
            return Ok(());
        };
        let mut rest = bytes;
        for _ in 0..=bytes.len() {
            let keys = Event::Keys {
                client,
                bytes: rest,
            };
            let read = self.step(keys)?.map_or(0, |done| done.taken);
            if read == 0 || rest.len() <= read {
                break;
            }
            rest = &rest[read..];
        }
        Ok(())
    }

    /// The lines of the file, with its last line.
    pub fn end(self) -> Result<Vec<u8>, AllocError> {
        let ScriptRecorder {
            mut text,
            entries,
            ..
        } = self;
        let ended = Ended {
            entries,
            ms: NO_TIME,
            cause: Cause::Script,
        };
        print_end(&ended, &mut text)?;
        text.push(b'\n')?;
        Ok(text)
    }

    fn write(&mut self, entry: &TrailEntry) -> Result<(), AllocError> {
        print_line(self.entries, NO_TIME, entry, &mut self.text)?;
        self.text.push(b'\n')?;
        self.entries = self.entries.saturating_add(1);
        Ok(())
    }
}

/// The contents of the trail's file, for a session that begins so and takes the events of a script, one
/// a line, up to the first line that is no event. A script has no clock: all times are 0. None if a
/// line of the setup is refused.
fn trail_of(
    alloc: Global,
    beginning: &Beginning,
    script: &[u8],
) -> Result<Option<Vec<u8>>, AllocError> {
    let mut recorder = ScriptRecorder::new(alloc, beginning.edition, beginning.owner)?;
    for line in beginning.setup {
        let (user, command) = spoken(beginning.owner, line.text.as_bytes());
        let event = Event::Command {
            user,
            window: None,
            line: command,
        };
        if recorder.step(event)?.is_err() {
            return Ok(None);
        }
    }
    for line in script.split(|byte| *byte == b'\n') {
        if line.is_empty() {
            continue;
        }
        let mut text = Vec::new(alloc);
        let Some(event) = read_event(line, &mut text)? else {
            break;
        };
        recorder.take(event)?;
    }
    Ok(Some(recorder.end()?))
}

/// The contents of the trail's file, for the session of these arguments, this setup and this script.
/// None if they make no session.
pub fn recorded(
    alloc: Global,
    words: &[String],
    setup: &[u8],
    script: &[u8],
) -> Result<Option<Vec<u8>>, AllocError> {
    let Ok(setup) = read_setup(alloc, setup) else {
        return Ok(None);
    };
    match beginning_of(alloc, words, &setup)? {
        Some(beginning) => trail_of(alloc, &beginning, script),
        None => Ok(None),
    }
}
