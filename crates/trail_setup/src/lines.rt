//! Lines with one command each, on which as many words stand as fit.

ghost use Rattle.std.specs.Prelude.{◌≡◌, ◌++◌, ℕ, List, [], ◌∷◌, OnOk, OnErr};
ghost use Rattle.trail_setup.specs.Lines.{AddsWords, HoldWords, PutsLines, begun, kind_of, letters_of, given_text};
ghost use Rattle.trail_setup.specs.Lines.{letter as letter_of};

use std::alloc::{AllocError, Global};

/// The most bytes of a line. A setup's line has at most 1,024.
const LONGEST: usize = 1000;

/// Which bits are given: r, w and x.
pub type Given = [bool; 3];

/// Lines that begin and end alike, and have words between.
#[derive(Clone, Copy)]
pub struct LineForm<'a> {
    /// The line begins with these.
    pub head: &'a [u8],
    /// Stands between two words.
    pub between: u8,
    /// The line ends with these.
    pub tail: &'a [u8],
}

/// The lines of a form, with the words that were put on them.
#[derive(Drop)]
pub struct Lines<'a> {
    form: LineForm<'a>,
    line: Vec<u8>,
}

impl<'a> Lines<'a> {
    /// Before the first word.
    pub fn new(alloc: Global, form: LineForm<'a>) -> Lines<'a>
        ensures form { result.form ≡ form.entry }
        ensures begins { (out : List ℕ) → HoldWords (kind_of result.form) out [] out result.line.items }
    {
        Lines {
            form,
            line: Vec::new(alloc),
        }
    }

    // Puts a word on the line.
    fn push(&mut self, word: &[u8]) -> Result<(), AllocError>
        ensures form { self.new.form ≡ self.old.form }
        ensures begins { (last : List (List ℕ)) → self.old.line.items ≡ begun (kind_of self.old.form) last
            → OnOk result (self.new.line.items ≡ begun (kind_of self.old.form) (last ++ word.now ∷ [])) }
    {
        if self.line.is_empty() {
            self.line.extend_from_slice(self.form.head)?;
            self.line.extend_from_slice(b" ")?;
        } else {
            self.line.push(self.form.between)?;
        }
        self.line.extend_from_slice(word)
    }

    /// Puts a word on the line, or on the next one if it doesn't fit.
    pub fn put(&mut self, word: &[u8], out: &mut Vec<u8>) -> Result<(), AllocError>
        ensures form { self.new.form ≡ self.old.form }
        ensures holds { AddsWords result (kind_of self.old.form) (word.now ∷ []) out.old.items self.old.line.items
            out.new.items self.new.line.items }
    {
        let length = self.line.len().saturating_add(word.len());
        if length.saturating_add(self.form.tail.len()) >= LONGEST {
            self.end(out)?;
        }
        self.push(word)
    }

    /// Appends the line, if it has words.
    pub fn end(&mut self, out: &mut Vec<u8>) -> Result<(), AllocError>
        ensures form { self.new.form ≡ self.old.form }
        ensures empty { OnOk result (self.new.line.items ≡ []) }
        ensures puts { (start : List ℕ) (words : List (List ℕ))
            → HoldWords (kind_of self.old.form) start words out.old.items self.old.line.items
            → OnOk result (PutsLines (kind_of self.old.form) start words out.new.items) }
    {
        if self.line.is_empty() {
            return Ok(());
        }
        out.extend_from_slice(self.line.as_slice())?;
        out.extend_from_slice(self.form.tail)?;
        out.extend_from_slice(b"\n")?;
        self.line.clear();
        Ok(())
    }
}

// Appends a letter if it is asked for.
fn push_letter(letter: u8, is_asked: bool, out: &mut Vec<u8>) -> Result<(), AllocError>
    ensures { OnOk result (out.new.items ≡ out.old.items ++ letter_of letter is_asked) }
{
    if is_asked {
        out.push(letter)?;
    }
    Ok(())
}

// Appends the letters of the bits that are asked for, after a sign, if there are any.
fn push_letters(sign: u8, asked: Given, out: &mut Vec<u8>) -> Result<(), AllocError>
    ensures { OnOk result (out.new.items ≡ out.old.items ++ letters_of sign asked) }
{
    let [read, write, execute] = asked;
    if !read && !write && !execute {
        return Ok(());
    }
    out.push(sign)?;
    push_letter(b'r', read, out)?;
    push_letter(b'w', write, out)?;
    push_letter(b'x', execute, out)
}

/// Appends bits as BITS that set all three, as `+r-wx`.
pub fn push_bits(given: Given, out: &mut Vec<u8>) -> Result<(), AllocError>
    ensures { OnOk result (out.new.items ≡ out.old.items ++ given_text given) }
{
    let [read, write, execute] = given;
    push_letters(b'+', given, out)?;
    push_letters(b'-', [!read, !write, !execute], out)
}
