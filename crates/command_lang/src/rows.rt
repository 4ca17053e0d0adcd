//! The table of commands: a row for each, with its name, its alias, the words that it takes and what it needs. The
//! names of commands are those of their rows.

ghost use Rattle.std.specs.Prelude.{◌≡◌};
ghost use Rattle.command_lang.specs.Rows.{row, shown};
ghost use Rattle.command_lang.specs.Names.{name_text, is_called, command_named, AreNamed};

use crate::needs::{CLIENT, MULTIUSER, NOTHING, Needs, PAGE_AND_WINDOW, TYPING, WINDOW};
use acl::CommandName;

/// What a word has to be.
#[derive(Clone, Copy)]
pub enum Kind {
    /// Any text: a message, a title, a name, or a window's number or title.
    Text,
    /// Items between commas, none of them empty.
    Items,
    Bits,
    /// Optional users, followed by bits.
    Mask,
    /// 1 to 4 decimal digits, whose value is at most this number.
    Number(u16),
    LockMode,
    Switch,
    Coding,
    Vertical,
}

/// The words that a command takes.
#[derive(Clone, Copy)]
pub enum Words {
    Nothing,
    One(Kind),
    Perhaps(Kind),
    OneOrTwo(Kind, Kind),
    Three(Kind, Kind, Kind),
    Several(Kind),
}

/// A row of the table: the command's name, its alias, the words that it takes and what it needs.
#[derive(Clone, Copy)]
pub struct Entry {
    pub name: &'static str,
    pub alias: Option<&'static str>,
    pub words: Words,
    pub needs: Needs,
}

// These are tuples, since the definitions can't cite a constant of a struct that holds a reference.
/// The rows, in the order of `CommandName` (GNU Screen manual). `scrollview`, the three words of
/// `writelock` and the limits of numbers are this project's own.
pub static ROWS: [(&str, Option<&str>, Words, Needs); CommandName::COUNT] = [
    ("acladd", Some("addacl"), Words::One(Kind::Items), MULTIUSER),
    (
        "aclchg",
        Some("chacl"),
        Words::Three(Kind::Items, Kind::Bits, Kind::Items),
        MULTIUSER,
    ),
    ("acldel", None, Words::One(Kind::Text), MULTIUSER),
    (
        "aclgrp",
        None,
        Words::OneOrTwo(Kind::Text, Kind::Text),
        MULTIUSER,
    ),
    (
        "aclumask",
        Some("umask"),
        Words::Several(Kind::Mask),
        MULTIUSER,
    ),
    ("writelock", None, Words::One(Kind::LockMode), TYPING),
    ("defwritelock", None, Words::One(Kind::LockMode), NOTHING),
    ("multiuser", None, Words::One(Kind::Switch), NOTHING),
    ("wall", None, Words::One(Kind::Text), NOTHING),
    ("detach", None, Words::Nothing, CLIENT),
    ("select", None, Words::One(Kind::Text), CLIENT),
    ("next", None, Words::Nothing, CLIENT),
    ("prev", None, Words::Nothing, CLIENT),
    ("other", None, Words::Nothing, CLIENT),
    ("title", None, Words::One(Kind::Text), WINDOW),
    ("number", None, Words::One(Kind::Number(39)), WINDOW),
    ("kill", None, Words::Nothing, WINDOW),
    ("screen", None, Words::Nothing, NOTHING),
    ("split", None, Words::Perhaps(Kind::Vertical), CLIENT),
    ("focus", None, Words::Nothing, CLIENT),
    ("remove", None, Words::Nothing, CLIENT),
    ("only", None, Words::Nothing, CLIENT),
    ("fit", None, Words::Nothing, PAGE_AND_WINDOW),
    ("scrollview", None, Words::One(Kind::Number(2000)), CLIENT),
    ("clear", None, Words::Nothing, WINDOW),
    ("reset", None, Words::Nothing, WINDOW),
    ("encoding", None, Words::One(Kind::Coding), WINDOW),
    ("stuff", None, Words::One(Kind::Text), TYPING),
    ("windows", None, Words::Nothing, NOTHING),
    ("displays", None, Words::Nothing, NOTHING),
    ("quit", None, Words::Nothing, NOTHING),
];

/// The row of a command.
pub fn row(name: CommandName) -> Entry
    ensures { shown result ≡ row name }
{
    let (name, alias, words, needs) = ROWS[name as usize];
    Entry {
        name,
        alias,
        words,
        needs,
    }
}

/// The word that names the command.
pub fn name_text(name: CommandName) -> &'static str
    ensures { result.now ≡ name_text name }
{
    row(name).name
}

/// Whether the word is the command's name or alias.
fn is_called(name: CommandName, word: &str) -> bool
    ensures { result ≡ is_called word.now name }
{
    let row = row(name);
    match row.alias {
        Some(alias) => row.name == word || alias == word,
        None => row.name == word,
    }
}

/// The command whose name or alias the word is; `None` if there is none.
pub fn command_named(word: &str) -> Option<CommandName>
    ensures { result ≡ command_named word.now }
{
    CommandName::ALL
        .iter()
        .find(|name| is_called(**name, word))
        .copied()
}

/// Each row stands at the index of its command, and has the name that the GNU Screen manual gives
/// the command.
pub fn commands_have_their_names()
    ensures { AreNamed }
{}
