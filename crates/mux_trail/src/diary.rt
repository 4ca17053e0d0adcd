//! The log of a trail, for people: a line an entry, one for bytes typed in a row, and one for each new day.

ghost use Rattle.std.specs.Prelude.{◌≡◌, IfOk};
ghost use Rattle.mux_trail.specs.Words.{HasLogged};
ghost use Rattle.mux_trail.specs.Diary.{IsLogStatus, IsLogged, Keeps, choice_of, wanted_of};
ghost use Rattle.mux_trail.specs.Statuses.{Begins};

use crate::reading::{TakesEntries, take_file};
use crate::words::{Limits, LogAsked, WindowWord};
use acl::UserId;
use line_fields::push_day;
use session::Bytes;
use std::alloc::{AllocError, Global};
use std::io::{self, BufRead, Write};
use trail_files::{Finish, LEGAL, TrailFault, heading_of, tell_finish};
use trail_lines::Wrong;
use trail_log::{Choice, LogWriter, Wanted, push_end};

/// A day, in milliseconds.
const DAY: u64 = 86_400_000;

/// A log on its way to people, with the day of the last line. If it follows its file, each line is written at once.
#[derive(Drop)]
struct Diary<'a, W> {
    alloc: Global,
    log: LogWriter,
    choice: Choice,
    follows: bool,
    day: Option<u64>,
    output: &'a mut W,
}

/// The window that is asked for, if one is.
fn wanted_of(alloc: Global, window: Option<WindowWord<'_>>) -> Result<Option<Wanted>, AllocError>
    ensures { IfOk result (λ wanted. wanted ≡ wanted_of window.entry) }
{
    match window {
        Some(WindowWord::Serial(serial)) => Ok(Some(Wanted::Serial(serial))),
        Some(WindowWord::Title(title)) => {
            let title = Bytes::of(alloc, title.as_bytes())?;
            Ok(Some(Wanted::Title(title)))
        }
        None => Ok(None),
    }
}

/// The entries that the arguments ask for.
fn choice_of(alloc: Global, asked: LogAsked<'_>) -> Result<Choice, AllocError>
    ensures { IfOk result (λ choice. choice ≡ choice_of asked.entry) }
{
    let window = wanted_of(alloc, asked.window)?;
    Ok(Choice {
        since: asked.since,
        until: asked.until,
        user: asked.user,
        window,
    })
}

impl<W: Write> Diary<'_, W> {
    /// Writes a line of this time, if there is one, and before it the day if that is another one than the last line's.
    fn write(&mut self, ms: Option<u64>, text: &[u8]) -> io::Result<()>
        ensures { self.new.log ≡ self.old.log }
    {
        let Some(ms) = ms else {
            return Ok(());
        };
        let day = Some(ms / DAY);
        if self.day != day {
            let mut line = Vec::new(self.alloc);
            push_day(ms, &mut line)?;
            line.extend_from_slice(b" (UTC)\n")?;
            self.output.write_all(line.as_slice())?;
            self.day = day;
        }
        self.output.write_all(text)?;
        self.output.flush()
    }

    /// Writes the line that the log holds, if it holds one, unless something may yet be joined to it.
    fn write_held(&mut self, joins: bool) -> io::Result<()>
        ensures { Keeps self.old.log self.new.log }
    {
        if joins {
            return Ok(());
        }
        let mut text = Vec::new(self.alloc);
        let ms = self.log.end(&mut text)?;
        self.write(ms, text.as_slice())
    }

    /// Writes how a file ends, and gives the status to exit with. Writes nothing if it is still being written.
    fn write_finish(&mut self, finish: Finish, owner: UserId) -> io::Result<u8>
        ensures { IfOk result (IsLogStatus finish) }
    {
        match finish {
            Finish::Ended { ended } => {
                let mut text = Vec::new(self.alloc);
                push_end(&ended, &mut text)?;
                self.write(Some(ended.ms), text.as_slice())?;
                Ok(LEGAL)
            }
            Finish::Open | Finish::Torn => Ok(LEGAL),
            bad => tell_finish(self.alloc, bad, self.log.count(), owner, self.output),
        }
    }
}

impl<W: Write> TakesEntries for Diary<'_, W> {
    ghost has_taken = { λ first diary edition owner said. HasLogged diary.log edition owner said };

    fn count(&self) -> u64 {
        self.log.count()
    }

    fn take(&mut self, line: &[u8]) -> io::Result<Option<Wrong>> {
        let mut text = Vec::new(self.alloc);
        match self.log.take(line, &self.choice, &mut text) {
            Ok(ms) => {
                self.write(ms, text.as_slice())?;
                self.write_held(!self.follows)?;
                Ok(None)
            }
            Err(wrong) => Ok(Some(wrong)),
        }
    }
}

/// Writes the log of what a reader has.
pub fn tell_log<R: BufRead, W: Write>(
    alloc: Global,
    asked: LogAsked<'_>,
    limits: Limits,
    reader: &mut R,
    output: &mut W,
) -> Result<u8, TrailFault>
    ensures { IfOk result (λ status. Begins limits.owner (R.remaining reader.old) (IsLogged limits status)) }
{
    let heading = heading_of(alloc, reader)?;
    let owner = limits.owner.unwrap_or(heading.owner);
    let log = match LogWriter::new(alloc, heading.edition, owner) {
        Ok(log) => log,
        Err(error) => return Err(TrailFault::Io(io::Error::from(error))),
    };
    let mut diary = Diary {
        alloc,
        log,
        choice: choice_of(alloc, asked).map_err(io::Error::from)?,
        follows: limits.follows,
        day: None,
        output,
    };
    let finish = take_file(alloc, &mut diary, limits, reader);
    diary.write_held(false)?;
    let finish = finish?;
    let status = diary.write_finish(finish, owner)?;
    Ok(status)
}
