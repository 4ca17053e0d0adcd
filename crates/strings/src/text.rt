//! Texts, lists of them, and words. Contracts see a text as its bytes in UTF-8, while grammars are over characters, so
//! no lemma cuts a text between bytes.

ghost use Rattle.std.specs.Prelude.{◌≡◌, IfOk, true, ◌++◌, ◌∷◌, [], OnOk, OnErr};
ghost use Rattle.std.specs.Str.{is_utf8};
ghost use Rattle.std.specs.String.{string_bytes};

use std::alloc::{AllocError, Global};
use std::marker::Model;

/// A word of a line: the place of its first byte, its text in UTF-8, and whether it is closed. A
/// word isn't closed if the line ends inside its quotes, or after its backslash.
#[derive(Drop, Debug)]
pub struct Word {
    pub place: usize,
    pub text: Text,
    pub is_closed: bool,
}

/// A text, such as a name, a title or a word, in UTF-8 (Unicode core specification, section 3.9).
#[derive(Drop, Debug)]
pub struct Text {
    text: String,
}

impl Model for Text {
    ghost use Rattle.std.specs.Prelude.{ℕ, List};
    ghost use Rattle.std.specs.String.{string_bytes};

    ghost Value = { List ℕ };

    ghost view = { λ t. string_bytes t.text };
}

impl Text {
    /// The text of a string.
    pub fn new(text: String) -> Text
        ensures { result ≡ string_bytes text }
    {
        Text { text }
    }

    /// Copies characters. `AllocError` if memory is refused.
    pub fn of(alloc: Global, text: &str) -> Result<Text, AllocError>
        ensures { IfOk result (λ t. t ≡ text.now) }
    {
        let text = String::from_str(alloc, text)?;
        Ok(Text { text })
    }

    /// The text as a string slice.
    pub fn as_str(&self) -> &str
        ensures value { result.now ≡ self.now }
        ensures text { is_utf8 self.now ≡ true }
    {
        self.text.as_str()
    }
}

/// A list of items, to which items can be added at the end. Contracts see it as its list.
#[derive(Drop, Debug)]
pub struct Items<T> {
    items: Vec<T>,
}

impl<T> Model for Items<T> {
    ghost use Rattle.std.specs.Prelude.{List};

    ghost Value = { List T };

    ghost view = { λ l. l.items.items };
}

impl<T: Drop> Items<T> {
    /// A list without items.
    pub fn new(alloc: Global) -> Items<T>
        ensures { result ≡ [] }
    {
        Items {
            items: Vec::new(alloc),
        }
    }

    /// Puts an item at the end. `AllocError` if memory is refused; the list is then unchanged.
    pub fn push(&mut self, item: T) -> Result<(), AllocError>
        ensures ok { OnOk result (self.new ≡ self.old ++ item ∷ []) }
        ensures err { OnErr result (self.new ≡ self.old) }
    {
        self.items.push(item)?;
        Ok(())
    }

    /// The items in their order.
    pub fn as_slice(&self) -> &[T]
        ensures { result.now ≡ self.now }
    {
        self.items.as_slice()
    }
}

/// A list of texts.
pub type Texts = Items<Text>;
