//! A command and its words.

use acl::{BitChange, CommandName, LockMode};
use strings::{Items, Text, Texts};

/// The users of a list command: all whom the session knows, or those whom words name.
#[derive(Drop)]
pub enum Users {
    All,
    Listed(Texts),
}

/// Whom a user is to follow: nobody, or the user whom a word names.
#[derive(Drop)]
pub enum Leader {
    Nobody,
    Named(Text),
}

/// Bits that are given and taken, in this order.
pub type BitList = Items<BitChange>;

/// A mask: users, and bits that are given and taken. Without users it is a mask for all.
#[derive(Drop)]
pub struct Mask {
    pub users: Option<Users>,
    pub bits: BitList,
}

/// A list of masks.
pub type Masks = Items<Mask>;

/// The coding of a window's program: UTF-8, or the sets and shifts of ECMA-35.
#[derive(Clone, Copy, PartialEq, Eq, Debug)]
pub enum Coding {
    Utf8,
    Ecma35,
}

/// A command, with the meaning of its words. Names, list items and windows are texts until the
/// session looks them up.
#[derive(Drop)]
pub enum Command {
    Acladd(Users),
    Aclchg {
        users: Users,
        bits: BitList,
        list: Texts,
    },
    Acldel(Text),
    Aclgrp {
        user: Text,
        leader: Option<Leader>,
    },
    Aclumask(Masks),
    Writelock(LockMode),
    Defwritelock(LockMode),
    Multiuser(bool),
    Wall(Text),
    Detach,
    Select(Text),
    Next,
    Prev,
    Other,
    Title(Text),
    Number(u8),
    Kill,
    Screen,
    Split {
        vertical: bool,
    },
    Focus,
    Remove,
    Only,
    Fit,
    Scrollview(u16),
    Clear,
    Reset,
    Encoding(Coding),
    Stuff(Text),
    Windows,
    Displays,
    Quit,
}

impl Command {
    ghost use Rattle.std.specs.Prelude.{◌≡◌};
    ghost use Rattle.command_lang.specs.Names.{name_of};

    /// The command's name.
    pub fn name(&self) -> CommandName
        ensures { result ≡ name_of self.now }
    {
        match self {
            Command::Acladd(_) => CommandName::Acladd,
            Command::Aclchg { .. } => CommandName::Aclchg,
            Command::Acldel(_) => CommandName::Acldel,
            Command::Aclgrp { .. } => CommandName::Aclgrp,
            Command::Aclumask(_) => CommandName::Aclumask,
            Command::Writelock(_) => CommandName::Writelock,
            Command::Defwritelock(_) => CommandName::Defwritelock,
            Command::Multiuser(_) => CommandName::Multiuser,
            Command::Wall(_) => CommandName::Wall,
            Command::Detach => CommandName::Detach,
            Command::Select(_) => CommandName::Select,
            Command::Next => CommandName::Next,
            Command::Prev => CommandName::Prev,
            Command::Other => CommandName::Other,
            Command::Title(_) => CommandName::Title,
            Command::Number(_) => CommandName::Number,
            Command::Kill => CommandName::Kill,
            Command::Screen => CommandName::Screen,
            Command::Split { .. } => CommandName::Split,
            Command::Focus => CommandName::Focus,
            Command::Remove => CommandName::Remove,
            Command::Only => CommandName::Only,
            Command::Fit => CommandName::Fit,
            Command::Scrollview(_) => CommandName::Scrollview,
            Command::Clear => CommandName::Clear,
            Command::Reset => CommandName::Reset,
            Command::Encoding(_) => CommandName::Encoding,
            Command::Stuff(_) => CommandName::Stuff,
            Command::Windows => CommandName::Windows,
            Command::Displays => CommandName::Displays,
            Command::Quit => CommandName::Quit,
        }
    }
}
