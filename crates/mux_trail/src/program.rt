//! What the program does with its words.

ghost use Rattle.std.specs.Prelude.{◌≡◌, IfErr, IfOk, IfSome, None, Some, map};
ghost use Rattle.mux_trail.specs.Words.{LastOf, kind_of, reader_remaining, string_bytes};
ghost use Rattle.mux_trail.specs.Asking.{AreAsked};
ghost use Rattle.mux_trail.specs.Statuses.{ExitsBy, IsChecked, IsHelped, IsPlaceOf, IsRefused, IsRun, IsShown, TellsBy};
ghost use Rattle.mux_trail.specs.Statuses.{fault_status};

use crate::ask::ask;
use crate::diary::tell_log;
use crate::host::TrailHost;
use crate::streams::{Following, Outlet};
use crate::words::{LastAsked, Limits, Mistake, TrailArgs, Verb, asked_of};
use acl::UserId;
use clap::Error;
use client_words::put_visible;
use std::alloc::Global;
use std::io::{self, BufRead, BufReader, Read, Write};
use trail_files::{
    ILLEGAL, LEGAL, LineFormat, TROUBLE, TrailFault, heading_of, judge, place_at, show_lines,
    tell_heading,
};

/// Judges what a reader has.
fn check<R: BufRead, W: Write>(
    alloc: Global,
    owner: Option<UserId>,
    reader: &mut R,
    output: &mut W,
) -> Result<u8, TrailFault>
    ensures { IfOk result (λ status. IsChecked status owner (R.remaining reader.old)) }
{
    let heading = heading_of(alloc, reader)?;
    let owner = owner.unwrap_or(heading.owner);
    let status = judge(alloc, heading.edition, owner, reader, output)?;
    Ok(status)
}

/// Shows what a reader has.
fn show<R: BufRead, W: Write>(
    alloc: Global,
    is_json: bool,
    reader: &mut R,
    output: &mut W,
) -> Result<u8, TrailFault>
    ensures { IfOk result (λ status. (status ≡ 0) × IsShown None (R.remaining reader.old)) }
{
    let heading = heading_of(alloc, reader)?;
    let form = if is_json {
        LineFormat::Json
    } else {
        tell_heading(alloc, heading, output)?;
        LineFormat::Plain
    };
    match show_lines(alloc, form, reader, output)? {
        None => Ok(LEGAL),
        Some(number) => Err(TrailFault::NoLine(number)),
    }
}

/// A file from its first byte on, read with a buffer.
fn buffered<F: Read + Drop>(alloc: Global, file: F) -> io::Result<BufReader<F>>
    ensures { IfOk result (λ reader. reader_remaining F.remaining reader ≡ F.remaining file) }
{
    BufReader::new(alloc, file)
}

fn read_file<F: Read + Drop, W: Write>(
    alloc: Global,
    verb: Verb<'_>,
    limits: Limits,
    file: F,
    output: &mut W,
) -> Result<u8, TrailFault>
    ensures { IfOk result (λ status. TellsBy W.contents verb.entry limits status (F.remaining file)
        output.old output.new) }
{
    let mut reader = buffered(alloc, file)?;
    match verb {
        Verb::Check => check(alloc, limits.owner, &mut reader, output),
        Verb::Log(asked) => tell_log(alloc, asked, limits, &mut reader, output),
        Verb::Show { is_json } => show(alloc, is_json, &mut reader, output),
        Verb::Ask(asked) => ask(alloc, asked, limits, &mut reader, output),
    }
}

/// The place of the last entry not later than a time, by the entries of a file.
fn place_by<F: Read + Drop>(alloc: Global, ms: u64, file: F) -> Result<u64, TrailFault>
    ensures { IfOk result (λ place. IfSome (F.remaining file) (LastOf ms (Some place))) }
{
    let mut reader = buffered(alloc, file)?;
    place_at(alloc, ms, &mut reader)
}

/// The place of the last entry that counts, if not all count. If that is given by its time, the file is read up to it.
fn place_of<R: TrailHost>(rt: &R, path: &str, last: LastAsked) -> Result<Option<u64>, TrailFault>
    ensures { IfOk result (IsPlaceOf (R.opens rt.now path.now) R.Trail.remaining last) }
{
    match last {
        LastAsked::All => Ok(None),
        LastAsked::Place(place) => Ok(Some(place)),
        LastAsked::Time(ms) => Ok(Some(place_by(rt.alloc(), ms, rt.open_trail(path)?)?)),
    }
}

fn run<R: TrailHost, W: Write>(
    rt: &R,
    asked: TrailArgs<'_>,
    output: &mut W,
) -> Result<u8, TrailFault>
    ensures { IfOk result (λ status. IsRun (R.opens rt.now asked.entry.path.now) R.Trail.remaining W.contents
        asked.entry status output.old output.new) }
{
    let limits = Limits {
        owner: asked.owner,
        last: place_of(rt, asked.path, asked.last)?,
        follows: asked.follows,
    };
    let file = rt.open_trail(asked.path)?;
    if asked.follows {
        return read_file(
            rt.alloc(),
            asked.verb,
            limits,
            Following { rt, file },
            output,
        );
    }
    read_file(rt.alloc(), asked.verb, limits, file, output)
}

/// Writes which words aren't understood. Control characters of the words are escaped.
fn tell_misused<E: Write>(alloc: Global, error: &Error, errors: &mut E) -> io::Result<()> {
    let text = format!(in alloc; "{error}")?;
    let mut visible = Vec::new(alloc);
    for line in text.trim_end_matches('\n').split('\n') {
        put_visible(line.as_bytes(), &mut visible)?;
        visible.push(b'\n')?;
    }
    errors.write_all(visible.as_slice())
}

/// Writes the help, with status 0, or which words aren't understood, with status 2.
fn tell<W: Write, E: Write>(alloc: Global, error: &Error, output: &mut W, errors: &mut E) -> u8
    ensures { IsHelped (kind_of error.now) result }
{
    if error.use_stderr() {
        let _ = tell_misused(alloc, error, errors);
        return TROUBLE;
    }
    match write!(output, "{error}") {
        Ok(()) => LEGAL,
        Err(_) => TROUBLE,
    }
}

/// Writes which word isn't understood, and what to do. Control characters of the word are escaped.
fn tell_mistake<E: Write>(alloc: Global, mistake: Mistake<'_>, errors: &mut E) -> io::Result<()> {
    let Mistake { what, word, advice } = mistake;
    let mut visible = Vec::new(alloc);
    put_visible(word.as_bytes(), &mut visible)?;
    write!(errors, "mux-trail: {what}: ")?;
    errors.write_all(visible.as_slice())?;
    writeln!(errors, ": {advice}")
}

/// What the arguments ask. If they ask nothing, writes why, and gives the status to exit with.
fn asked_by<'a, R: TrailHost, W: Write, E: Write>(
    rt: &R,
    words: &'a [String],
    output: &mut W,
    errors: &mut E,
) -> Result<TrailArgs<'a>, u8>
    ensures ok { IfOk result (AreAsked (R.means rt.now) (map string_bytes words.entry.now)) }
    ensures err { IfErr result (IsRefused (R.refuses rt.now (map string_bytes words.entry.now))) }
{
    let named = match rt.matches_of(words) {
        Ok(named) => named,
        Err(error) => return Err(tell(rt.alloc(), &error, output, errors)),
    };
    let Some(named) = named else {
        return Err(TROUBLE);
    };
    match asked_of(named.0, &named.1) {
        Ok(asked) => Ok(asked),
        Err(mistake) => {
            let _ = tell_mistake(rt.alloc(), mistake, errors);
            Err(TROUBLE)
        }
    }
}

/// Writes why a file isn't read to its end, and gives the status to exit with.
fn tell_fault<E: Write>(alloc: Global, fault: TrailFault, path: &str, errors: &mut E) -> u8
    ensures { result ≡ fault_status fault }
{
    let _ = fault.write(alloc, path, errors);
    match fault {
        TrailFault::NoHeader(_) | TrailFault::NoLine(_) => ILLEGAL,
        _ => TROUBLE,
    }
}

/// `mux-trail check|log|show|who|setup|why FILE`. The status is 0 for a legal file that is whole, and if what was asked
/// for was shown; 1 for an illegal file; 2 for a fault; 3 without a last line; and 4 for users who aren't confined.
pub fn trail<R: TrailHost, W: Write, E: Write>(
    rt: &R,
    words: &[String],
    output: &mut W,
    errors: &mut E,
) -> u8
    ensures { ExitsBy (R.means rt.now) (R.refuses rt.now) (R.opens rt.now) R.Trail.remaining W.contents
        (map string_bytes words.now) result }
{
    let asked = match asked_by(rt, words, output, errors) {
        Ok(asked) => asked,
        Err(status) => return status,
    };
    let mut outlet = Outlet::new(output);
    match run(rt, asked, &mut outlet) {
        Ok(status) => status,
        Err(fault) => tell_fault(rt.alloc(), outlet.fault_of(fault), asked.path, errors),
    }
}
