//! The arguments of `mux-trail`.

use crate::table::{ArgumentRow, Kind, Need, Program, SubcommandRow, VERSION, matches_of};
use clap::{ArgMatches, Error};
use std::alloc::Global;

/// The owner of a session.
const OWNER: ArgumentRow = ArgumentRow {
    name: "owner",
    kind: Kind::Text {
        value: "NAME",
        need: Need::Free,
    },
    help: "The session's owner, if you don't trust the file's first line",
};

/// The place of the last entry that counts.
const AT: ArgumentRow = ArgumentRow {
    name: "at",
    kind: Kind::Text {
        value: "PLACE|TIME",
        need: Need::Free,
    },
    help: "The place or the time of the last entry that counts; without it all count",
};

/// The users whose confinement is looked at.
const CONFINED: ArgumentRow = ArgumentRow {
    name: "confined",
    kind: Kind::Text {
        value: "USERS",
        need: Need::Free,
    },
    help: "Says whether these users get no bit on later windows, and which acts say otherwise",
};

/// The trail's file.
const FILE: ArgumentRow = ArgumentRow {
    name: "file",
    kind: Kind::Bare { value: "FILE" },
    help: "A file with the trail of a session",
};

/// Waits for more at the file's end.
const FOLLOW: ArgumentRow = ArgumentRow {
    name: "follow",
    kind: Kind::Flag,
    help: "Waits for more until the trail ends",
};

/// The user whose entries are printed.
const USER: ArgumentRow = ArgumentRow {
    name: "user",
    kind: Kind::Text {
        value: "NAME",
        need: Need::Free,
    },
    help: "Only what this user did",
};

/// The window whose entries are printed.
const WINDOW: ArgumentRow = ArgumentRow {
    name: "window",
    kind: Kind::Text {
        value: "TITLE|SERIAL",
        need: Need::Free,
    },
    help: "Only what was done to this window",
};

/// The time of the first entry that is printed.
const SINCE: ArgumentRow = ArgumentRow {
    name: "since",
    kind: Kind::Text {
        value: "TIME",
        need: Need::Free,
    },
    help: "Only what was done at this time or later, such as 2025-11-24T16:00:02Z",
};

/// The time of the last entry that is printed.
const UNTIL: ArgumentRow = ArgumentRow {
    name: "until",
    kind: Kind::Text {
        value: "TIME",
        need: Need::Free,
    },
    help: "Only what was done at this time or earlier",
};

static MUX_TRAIL: Program = Program {
    name: "mux-trail",
    version: Some(VERSION),
    about: "Reads the trail of a session that users shared",
    example: None,
    arguments: &[],
    subcommands: &[
        SubcommandRow {
            name: "check",
            about: "Judges whether the trail is legal",
            arguments: &[OWNER, FILE],
        },
        SubcommandRow {
            name: "log",
            about: "Prints who did what, a line an entry",
            arguments: &[OWNER, USER, WINDOW, SINCE, UNTIL, FOLLOW, FILE],
        },
        SubcommandRow {
            name: "show",
            about: "Prints the trail's lines, with times that are read",
            arguments: &[
                ArgumentRow {
                    name: "json",
                    kind: Kind::Flag,
                    help: "Prints each entry as a JSON object",
                },
                FOLLOW,
                FILE,
            ],
        },
        SubcommandRow {
            name: "who",
            about: "Prints who may do what, and who holds which lock",
            arguments: &[OWNER, AT, CONFINED, FILE],
        },
        SubcommandRow {
            name: "setup",
            about: "Prints the setup that brings a new session to the same users and rights",
            arguments: &[OWNER, AT, FILE],
        },
        SubcommandRow {
            name: "why",
            about: "Prints which acts decide whether a user has a bit on an object",
            arguments: &[
                OWNER,
                AT,
                FILE,
                ArgumentRow {
                    name: "user",
                    kind: Kind::Bare { value: "USER" },
                    help: "The name of a user",
                },
                ArgumentRow {
                    name: "bit",
                    kind: Kind::Bare { value: "BIT" },
                    help: "r, w or x",
                },
                ArgumentRow {
                    name: "object",
                    kind: Kind::Bare { value: "OBJECT" },
                    help: "A window's serial or title, or the name of a command",
                },
            ],
        },
    ],
};

/// The arguments of `mux-trail` as they were understood; the first of `words` is the program's name.
pub fn of_trail<'a>(alloc: Global, words: &'a [String]) -> Result<ArgMatches<'a>, Error> {
    matches_of(alloc, &MUX_TRAIL, words)
}
