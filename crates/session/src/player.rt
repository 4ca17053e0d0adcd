//! Plays scripts of one event a line. The effects and the answer of a line are printed before the next line is read. A
//! fault ends a script early.

ghost use Rattle.std.specs.Prelude.{◌≡◌, ◌++◌, ◌∷◌, [], List, Some, IfOk, IfErr, OnOk};
ghost use Rattle.std.specs.List.{flat_map};
ghost use Rattle.std.specs.String.{string_bytes};
ghost use Rattle.std.specs.Io.KnownBytes.{Appends, Keeps};
ghost use Rattle.session_model.specs.Trace.{Trace, happening};
ghost use Rattle.session_model.specs.Run.{tables_of};
ghost use Rattle.session.specs.Printed.{effect_line, reply_line};
ghost use Rattle.session_core.specs.Stands.{StandsFor};
ghost use Rattle.session.specs.ScriptLines.{lines_of};
ghost use Rattle.session.specs.Played.{PlaysAll, PlaysUntil, Played, Runs, IsBad, OfScript, IfNotUnderstood, views};
ghost use Rattle.session.specs.declared.player.Fault.TheVariants.{Io as OfIo, NoMemory as OfMemory};

use crate::printing::{print_effect, print_reply, print_view};
use crate::script::read_event;
use session_core::{Effect, Event, Refusal, Reply, Session};
use std::alloc::{AllocError, AllocFailed, Global};
use std::io;
use std::io::{BufRead, BufReader, Read, Write};
use thiserror::Error;

/// Why a script ended early.
#[derive(Debug, Drop, Error)]
pub enum Fault {
    /// The line of this number, counted from 1, is no event.
    #[error("line {0}: not understood")]
    NotUnderstood(u64),
    /// A read or a write failed, or memory ran out for it.
    #[error("can't play the script: {0}")]
    Io(io::Error),
    /// There was no memory.
    #[error("out of memory")]
    NoMemory,
}

impl From<io::Error> for Fault {
    ghost from_gives = { λ error fault. fault ≡ OfIo error };

    fn from(error: io::Error) -> Fault {
        Fault::Io(error)
    }
}

impl From<AllocError> for Fault {
    ghost from_gives = { λ _ fault. fault ≡ OfMemory };

    fn from(_e: AllocError) -> Fault {
        Fault::NoMemory
    }
}

impl<T: Drop> From<AllocFailed<T>> for Fault {
    ghost from_gives = { λ _ fault. fault ≡ OfMemory };

    fn from(_e: AllocFailed<T>) -> Fault {
        Fault::NoMemory
    }
}

impl From<Refusal> for Fault {
    ghost from_gives = { λ _ fault. fault ≡ OfMemory };

    fn from(_e: Refusal) -> Fault {
        Fault::NoMemory
    }
}

/// Plays the script of the reader over a session, and writes what its effects and answers print. If
/// `shows`, it then writes what each client is to see.
pub fn play<R: Read + Drop, W: Write>(
    alloc: Global,
    mut session: Session,
    shows: bool,
    reader: R,
    writer: &mut W,
) -> Result<(), Fault>
    // The lines were the events of a run of the session. Each step of the run keeps the promise, and
    // what the run prints was written.
    ensures whole { OnOk result (OfScript (R.remaining reader) session
        (λ h script. PlaysAll h shows script (W.contents writer.old) (W.contents writer.new))) }
    // The lines before the first one that isn't understood were such a run, and the fault has the
    // number of that line.
    ensures until { IfErr result (λ fault. IfNotUnderstood fault
        (λ number. OfScript (R.remaining reader) session (λ h script. PlaysUntil number h script
        (W.contents writer.old) (W.contents writer.new)))) }
{
    play_lines(alloc, &mut session, reader, writer)?;
    if !shows {
        return Ok(());
    }
    show(alloc, &session, writer)?;
    Ok(())
}

/// Plays all lines of a reader.
fn play_lines<R: Read + Drop, W: Write>(
    alloc: Global,
    session: &mut Session,
    reader: R,
    writer: &mut W,
) -> Result<(), Fault>
    ensures whole { OnOk result (OfScript (R.remaining reader) session.old
        (λ h script. Played h (lines_of script) session.new
        (W.contents writer.old) (W.contents writer.new))) }
    ensures until { IfErr result (λ fault. IfNotUnderstood fault
        (λ number. OfScript (R.remaining reader) session.old
        (λ h script. PlaysUntil number h script
        (W.contents writer.old) (W.contents writer.new)))) }
{
    let lines = BufReader::new(alloc, reader)?.split(alloc, b'\n');
    'lines: for (past, line) in lines.enumerate() {
        let line = line?;
        play_line(alloc, session, past as u64 + 1, &line, writer)?;
    }
    Ok(())
}

/// Plays one line. `number` counts from 1.
fn play_line<W: Write>(
    alloc: Global,
    session: &mut Session,
    number: u64,
    line: &[u8],
    writer: &mut W,
) -> Result<(), Fault>
    ensures played { OnOk result ((h : Trace) → StandsFor h session.old
        → Played h (line.now ∷ []) session.new (W.contents writer.old) (W.contents writer.new)) }
    ensures bad { IfErr result (λ fault. IfNotUnderstood fault
        (λ n. (n ≡ number) × IsBad line.now
        × Keeps (W.contents writer.old) (W.contents writer.new))) }
{
    if line.is_empty() {
        return Ok(());
    }
    let mut text = Vec::new(alloc);
    let Some(event) = read_event(line, &mut text)? else {
        return Err(Fault::NotUnderstood(number));
    };
    submit(alloc, session, event, writer)
}

/// Runs one event, and writes what came of it.
fn submit<W: Write>(
    alloc: Global,
    session: &mut Session,
    event: Event,
    writer: &mut W,
) -> Result<(), Fault>
    ensures ran { OnOk result ((h : Trace) → StandsFor h session.old
        → Runs h (happening event.entry) session.new
        (W.contents writer.old) (W.contents writer.new)) }
    ensures understood { IfErr result (λ fault. IfNotUnderstood fault (λ _. ⊥)) }
{
    let mut effects = Vec::new(alloc);
    let mut replies = Vec::new(alloc);
    let ran = session.run(&[event], &mut effects, &mut replies);
    let text = text_of(alloc, &event, &effects, &replies)?;
    put(&text, writer)?;
    if ran.stopped {
        return Err(Fault::NoMemory);
    }
    Ok(())
}

/// The lines of an event's effects, and after them those of its replies.
fn text_of(
    alloc: Global,
    event: &Event,
    effects: &[Effect],
    replies: &[Reply],
) -> Result<String, AllocError>
    ensures { IfOk result (λ text. string_bytes text
        ≡ flat_map effect_line effects.now
        ++ flat_map (reply_line (happening event.now)) replies.now) }
{
    let mut text = String::new(alloc);
    for effect in effects {
        print_effect(effect, &mut text)?;
    }
    for reply in replies {
        print_reply(event, reply, &mut text)?;
    }
    Ok(text)
}

/// Writes a text, and flushes it.
fn put<W: Write>(text: &str, writer: &mut W) -> io::Result<()>
    ensures { OnOk result (Appends (W.contents writer.old) (W.contents writer.new) text.now) }
{
    writer.write_all(text.as_bytes())?;
    writer.flush()
}

/// Writes what each client is to see.
fn show<W: Write>(alloc: Global, session: &Session, writer: &mut W) -> Result<(), Fault>
    ensures shown { OnOk result ((h : Trace) → StandsFor h session.now
        → Appends (W.contents writer.old) (W.contents writer.new) (views (tables_of h))) }
    ensures understood { IfErr result (λ fault. IfNotUnderstood fault (λ _. ⊥)) }
{
    let mut from = 0;
    'clients: while let Some(client) = session.clients_from(from) {
        let view = session.view(client)?;
        let mut text = String::new(alloc);
        print_view(client, &view, &mut text)?;
        put(&text, writer)?;
        match client.checked_add(1) {
            Some(next) => from = next,
            None => break,
        }
    }
    Ok(())
}
