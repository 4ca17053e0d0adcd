//! A client's keys, one at a time.

ghost use Rattle.std.specs.Prelude.{◌≡◌, ℕ, List, [], ◌∷◌, ◌++◌};
ghost use Rattle.std.specs.Option.{option_map};
ghost use Rattle.keys.specs.Grammar.{ends_line, closes};

use crate::line::Line;
use std::marker::Model;

/// What a key completes.
#[derive(Clone, Copy, PartialEq, Eq, Debug)]
pub enum KeyItem {
    /// A byte for the window's program.
    Typed(u8),
    /// A key after the command key, which may be bound to a command.
    Command(u8),
    /// The prompt was opened, edited or closed.
    Edit,
    /// The prompt's line is ended; `line` lends it until the next push. It may be empty.
    Line,
}

/// What the keys leave open: nothing, the command key, or the prompt.
#[derive(Clone, Copy, PartialEq, Eq, Debug)]
pub enum Mode {
    Typing,
    Command,
    Prompt,
}

// It has `copied` and isn't `Copy`: contracts see only the bytes of its array that are in use, and
// `Copy` would need a view that forgets nothing.
/// Reads the keys of one client one by one, without taking memory. It doesn't matter how the keys
/// are cut into reads.
#[derive(Drop)]
pub struct KeyReader {
    mode: Mode,
    line: Line,
}

impl Model for KeyReader {
    ghost use Rattle.keys.specs.Kept.{Keeping};

    ghost Value = { Keeping };

    ghost view = { λ r. record { mode = r.mode; line = r.line } };
}

/// Whether the key ends the line of the prompt: CR or LF.
fn is_line_end(key: u8) -> bool
    ensures { result ≡ ends_line key }
{
    key == b'\r' || key == b'\n'
}

/// Whether the key closes the prompt: ESC, ETX or BEL.
fn is_closing(key: u8) -> bool
    ensures { result ≡ closes key }
{
    key == 0x1B || key == 0x03 || key == 0x07
}

impl KeyReader {
    ghost use Rattle.keys.specs.Grammar.{items, open_line, rest_step};
    ghost use Rattle.keys.specs.Kept.{StandsFor, rest_of, item_list};

    /// A reader that has read nothing.
    #[tactic(auto, unfolding(crate::specs::Grammar::items_from))]
    pub fn new() -> KeyReader
        ensures stands { StandsFor result [] }
    {
        KeyReader {
            mode: Mode::Typing,
            line: Line::new(),
        }
    }

    /// A copy of the reader.
    pub fn copied(&self) -> KeyReader
        ensures { result ≡ self.now }
    {
        KeyReader {
            mode: self.mode,
            line: self.line.copied(),
        }
    }

    /// The line of the open prompt, or else of the prompt that was ended last.
    pub fn line(&self) -> &[u8]
        ensures { result.now ≡ self.now.line }
    {
        self.line.as_slice()
    }

    /// The line of the prompt; `None` if no prompt is open.
    pub fn prompt(&self) -> Option<&[u8]>
        ensures { option_map (λ l. l.now) result ≡ open_line (rest_of self.now) }
    {
        match self.mode {
            Mode::Prompt => Some(self.line.as_slice()),
            _ => None,
        }
    }

    /// Reads one key, and returns what it completes, if anything.
    pub fn push(&mut self, key: u8) -> Option<KeyItem>
        ensures next { rest_step (rest_of self.old) key ≡
            (item_list result self.new.line, rest_of self.new) }
        // The keys that were read before are followed by this one.
        ensures stands { (keys : List ℕ) → StandsFor self.old keys
            → StandsFor self.new (keys ++ key ∷ []) }
        ensures gives { (keys : List ℕ) → StandsFor self.old keys →
            (items (keys ++ key ∷ [])).0 ≡ (items keys).0 ++ item_list result self.new.line }
    {
        self.step(key)
    }

    /// Reads one key, after what the keys before it left open.
    fn step(&mut self, key: u8) -> Option<KeyItem>
        ensures { rest_step (rest_of self.old) key ≡
            (item_list result self.new.line, rest_of self.new) }
    {
        match self.mode {
            Mode::Typing if key == 1 => {
                self.mode = Mode::Command;
                None
            }
            Mode::Typing => Some(KeyItem::Typed(key)),
            Mode::Command if key == b':' => {
                self.line.clear();
                self.mode = Mode::Prompt;
                Some(KeyItem::Edit)
            }
            Mode::Command => {
                self.mode = Mode::Typing;
                if key == b'a' {
                    Some(KeyItem::Typed(1))
                } else {
                    Some(KeyItem::Command(key))
                }
            }
            Mode::Prompt if is_line_end(key) => {
                self.mode = Mode::Typing;
                Some(KeyItem::Line)
            }
            Mode::Prompt => {
                if is_closing(key) {
                    self.mode = Mode::Typing;
                } else {
                    self.line.edit(key);
                }
                Some(KeyItem::Edit)
            }
        }
    }
}
