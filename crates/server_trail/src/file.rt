//! The first line of a trail's file, its last line, and the cause that this names. Only what stands here says that a
//! file has its first line, and that it can't have its last.

ghost use Rattle.std.specs.Prelude.{◌≡◌, ◌++◌, ◌∷◌, [], true, Some, None, OnOk, IfOk};
ghost use Rattle.std.specs.Io.KnownBytes.{Appends};
ghost use Rattle.trail_lines.specs.Heading.{end_text, header_text};
ghost use Rattle.server_trail.specs.Files.{Begins, end_line};
ghost use Rattle.server_trail.specs.Stopping.{last_cause};

use crate::waiting::Written;
use acl::{Edition, UserId};
use session::Bytes;
use std::alloc::{AllocError, Global};
use std::io;
use std::time::Clock;
use trail_disk::{MadeFile, TrailFile};
use trail_lines::{Cause, Ended, Header, print_end, print_header};

/// The time of day, in milliseconds since 1970.
pub fn time<R: Clock>(rt: &R) -> Option<u64> {
    u64::try_from(rt.since_1970().ok()?.as_millis()).ok()
}

/// The first line of a new trail: edition 2, this owner, the time of day, and the writer's version,
/// which is one word.
pub fn header_of<R: Clock>(
    rt: &R,
    alloc: Global,
    owner: UserId,
    version: &[u8],
) -> Result<Header, AllocError>
    ensures { IfOk result (λ header. Begins header owner version.now) }
{
    Ok(Header {
        edition: Edition::Second,
        owner,
        version: Bytes::of(alloc, version)?,
        ms: time(rt).unwrap_or(0),
    })
}

/// Writes the first line of a trail's file, and brings it to the disk.
pub fn begin<F: TrailFile>(alloc: Global, file: &mut F, header: &Header) -> io::Result<()>
    ensures { OnOk result (Appends (F.contents file.old) (F.contents file.new)
        (header_text header.now ++ 0x0A ∷ [])) }
{
    let mut line = Vec::new(alloc);
    print_header(header, &mut line)?;
    line.push(b'\n')?;
    file.write_all(&line)?;
    file.sync()
}

/// A file that was made, and has its first line.
#[derive(Drop)]
pub struct BegunFile<'a> {
    made: MadeFile<'a>,
    // The time that the first line has.
    ms: u64,
}

impl<'a> BegunFile<'a> {
    /// Writes the first line of a file that was made, as `begin` does. If the disk refuses it, removes the file.
    pub fn of<F: TrailFile>(
        alloc: Global,
        made: MadeFile<'a>,
        file: &mut F,
        header: &Header,
    ) -> io::Result<BegunFile<'a>>
        ensures begun { OnOk result (Appends (F.contents file.old) (F.contents file.new)
            (header_text header.now ++ 0x0A ∷ [])) }
        ensures is { IfOk result (λ begun. (begun.made ≡ made.entry) × (begun.ms ≡ header.now.ms)) }
    {
        let ms = header.ms;
        match begin(alloc, file, header) {
            Ok(()) => Ok(BegunFile { made, ms }),
            Err(error) => {
                made.unmake();
                Err(error)
            }
        }
    }

    pub fn made(&self) -> &MadeFile<'a>
        ensures { result.now ≡ self.now.made }
    {
        &self.made
    }

    pub fn ms(&self) -> u64
        ensures { result ≡ self.now.ms }
    {
        self.ms
    }
}

/// Shows that a file can't have its last line: one before it isn't whole, or memory was refused.
#[derive(Clone, Copy, Debug)]
pub struct NoLine(());

// The line of an end, with its line feed.
fn line_of(alloc: Global, ended: &Ended) -> Result<Vec<u8>, AllocError>
    ensures { IfOk result (λ line. line.items ≡ end_text ended.now ++ 0x0A ∷ []) }
{
    let mut line = Vec::new(alloc);
    print_end(ended, &mut line)?;
    line.push(b'\n')?;
    Ok(line)
}

/// The last line of a file of which this was written.
pub(crate) fn last_line(
    alloc: Global,
    written: &Written,
    ms: u64,
    cause: Cause,
) -> Result<Vec<u8>, NoLine>
    ensures whole { IfOk result (λ line. written.now.is_whole ≡ true) }
    ensures line { IfOk result (λ line. line.items ≡ end_line written.now.entries ms cause) }
{
    if !written.is_whole() {
        return Err(NoLine(()));
    }
    let ended = Ended {
        entries: written.entries(),
        ms,
        cause,
    };
    match line_of(alloc, &ended) {
        Ok(line) => Ok(line),
        Err(_) => Err(NoLine(())),
    }
}

/// Why a trail's file can't go on.
#[derive(Clone, Copy, PartialEq, Eq, Debug)]
pub enum StopCause {
    /// More than 16 MiB waited for the disk.
    Disk,
    /// Memory was refused for a line, or for the copy of its entry.
    Memory,
}

impl StopCause {
    /// The cause that the file's last line names.
    pub fn cause(self) -> Cause
        ensures { last_cause (Some self) None ≡ Some result }
    {
        match self {
            StopCause::Disk => Cause::Disk,
            StopCause::Memory => Cause::Memory,
        }
    }
}

/// The cause that a file's last line names, from why the file stopped, and else why its session ended.
pub(crate) fn last_cause(stopped: Option<StopCause>, ended: Option<Cause>) -> Option<Cause>
    ensures { result ≡ last_cause stopped ended }
{
    match stopped {
        Some(stop) => Some(stop.cause()),
        None => ended,
    }
}
