//! A ring of lines.

ghost use Rattle.std.specs.Prelude.{◌≡◌, [], ◌++◌, length, map, reverse, slice_get, option_copied, IfOk, OnOk, OnErr};
ghost use Rattle.std.specs.Prelude.{replicate, ◌+◌, ◌≤◌};
ghost use Rattle.circular_buffer.specs.Buffer.{buffer as buffer_of};
ghost use Rattle.cells.specs.Line.{blank};
ghost use Rattle.cells.specs.Resizing.{line_resized};
ghost use Rattle.scrollback.specs.Kept.{no_lines, with_line, resized_lines, StandsFor, Continues, ContinuesResized};

use cells::{Cell, Line};
use circular_buffer::HeapCircularBuffer;
use std::alloc::{AllocError as NoMemory, Global};
use std::marker::Model;
use std::mem;

/// The last `keep` of the lines that it took in, all of one width. All its lines are allocated when
/// it is made, so taking a line in needs no memory.
#[derive(Drop)]
pub struct Ring {
    alloc: Global,
    /// Always `keep` lines, of which the last `count` were taken in.
    lines: HeapCircularBuffer<Line>,
    count: usize,
    columns: usize,
}

impl Model for Ring {
    ghost use Rattle.scrollback.specs.Kept.{Kept};
    ghost use Rattle.scrollback.specs.Fields.{kept_lines, IsRing};

    ghost Value = { Kept };

    ghost view = { kept_lines };

    ghost invariant = { IsRing };
}

/// Makes a full buffer of blank lines.
fn blank_lines(
    alloc: Global,
    keep: usize,
    columns: usize,
) -> Result<HeapCircularBuffer<Line>, NoMemory>
    ensures { IfOk result
        (λ lines. lines ≡ buffer_of (replicate keep (replicate columns blank)) keep) }
{
    let mut lines = HeapCircularBuffer::with_capacity(alloc, keep)?;
    for row in 0..keep {
        let _ = lines.push_back(Line::blank(alloc, columns)?);
    }
    Ok(lines)
}

/// Appends lines, in another width, to a buffer that has room for them. `NoMemory` if memory is
/// refused.
fn append_resized(
    alloc: Global,
    buffer: &mut HeapCircularBuffer<Line>,
    lines: &[Line],
    columns: usize,
) -> Result<(), NoMemory>
    requires { length buffer.old.items + length lines.now ≤ buffer.old.capacity }
    ensures { OnOk result (buffer.new ≡ buffer_of
        (buffer.old.items ++ map (line_resized columns) lines.now) buffer.old.capacity) }
{
    for line in lines {
        let _ = buffer.push_back(line.resized(alloc, columns)?);
    }
    Ok(())
}

/// Makes a buffer with the lines of a full one, in another width.
fn resized_buffer(
    alloc: Global,
    lines: &HeapCircularBuffer<Line>,
    columns: usize,
) -> Result<HeapCircularBuffer<Line>, NoMemory>
    requires { length lines.now.items ≡ lines.now.capacity }
    ensures { IfOk result (λ resized. resized
        ≡ buffer_of (map (line_resized columns) lines.now.items) lines.now.capacity) }
{
    let mut resized = HeapCircularBuffer::with_capacity(alloc, lines.capacity())?;
    let (front, back) = lines.as_slices();
    append_resized(alloc, &mut resized, front, columns)?;
    append_resized(alloc, &mut resized, back, columns)?;
    Ok(resized)
}

impl Ring {
    /// A ring that keeps at most `keep` lines of `columns` cells and has taken in none. `NoMemory`
    /// if memory is refused.
    pub fn new(alloc: Global, keep: usize, columns: usize) -> Result<Ring, NoMemory>
        ensures value { IfOk result (λ ring. ring ≡ no_lines keep columns) }
        ensures stands { IfOk result (λ ring. StandsFor ring []) }
    {
        Ok(Ring {
            alloc,
            lines: blank_lines(alloc, keep, columns)?,
            count: 0,
            columns,
        })
    }

    /// The number of lines that were taken in, at most `keep`.
    pub fn len(&self) -> usize
        ensures value { result ≡ length self.now.lines }
        ensures bound { result ≤ self.now.keep }
    {
        self.count
    }

    /// The most lines that it keeps.
    pub fn keep(&self) -> usize
        ensures { result ≡ self.now.keep }
    {
        self.lines.capacity()
    }

    /// The number of cells of each line.
    pub fn columns(&self) -> usize
        ensures { result ≡ self.now.columns }
    {
        self.columns
    }

    /// Takes in a line of the ring's width, and returns a line of that width for reuse. It needs no
    /// memory.
    pub fn take_in(&mut self, line: Line) -> Line
        requires { length line ≡ self.old.columns }
        ensures kept { self.new ≡ with_line self.old line }
        ensures stands { Continues self.old self.new line }
        ensures width { length result ≡ self.old.columns }
    {
        let mut spare = line;
        self.exchange(&mut spare);
        spare
    }

    /// Takes in the line at `line`, and leaves a line of that width for reuse there. It needs no
    /// memory.
    #[inline(always)]
    pub fn exchange(&mut self, line: &mut Line)
        requires { length line.old ≡ self.old.columns }
        ensures kept { self.new ≡ with_line self.old line.old }
        ensures stands { Continues self.old self.new line.old }
        ensures width { length line.new ≡ self.old.columns }
    {
        let keep = self.lines.capacity();
        if let Some(spare) = self.lines.pop_front() {
            let taken = mem::replace(line, spare);
            let _ = self.lines.push_back(taken);
            self.count = (self.count + 1).min(keep);
        }
    }

    /// The cells of the line that is `n` lines older than the newest one. None if the ring keeps no
    /// such line.
    pub fn line(&self, n: usize) -> Option<&[Cell]>
        ensures { option_copied result ≡ slice_get (reverse self.now.lines) n }
    {
        if n >= self.count {
            return None;
        }
        self.lines.nth_back(n).map(|line| line.cells())
    }

    /// Changes the width: each line is cut, or filled up with blanks. `NoMemory` if memory is
    /// refused; the ring then stays as it was.
    pub fn resized(&mut self, columns: usize) -> Result<(), NoMemory>
        ensures ok { OnOk result (self.new ≡ resized_lines self.old columns) }
        ensures stands { OnOk result (ContinuesResized self.old self.new columns) }
        ensures err { OnErr result (self.new ≡ self.old) }
    {
        let lines = resized_buffer(self.alloc, &self.lines, columns)?;
        self.lines = lines;
        self.columns = columns;
        Ok(())
    }
}
