//! The arguments of `muxd`.

use crate::table::{ArgumentRow, Kind, Need, Program, VERSION, matches_of};
use clap::{ArgMatches, Error};
use std::alloc::Global;

const EXAMPLE: &str = "Example:
  umask 077
  mkdir -p $XDG_RUNTIME_DIR/mux
  cd $XDG_RUNTIME_DIR/mux
  od -An -v -tx1 -N32 /dev/urandom | tr -d ' \\n' > ann.token
  echo \"ann $(cat ann.token)\" > users
  muxd --socket $XDG_RUNTIME_DIR/mux/socket --users users";

static MUXD: Program = Program {
    name: "muxd",
    version: Some(VERSION),
    about: "Serves a session that users share",
    example: Some(EXAMPLE),
    arguments: &[
        ArgumentRow {
            name: "socket",
            kind: Kind::Text {
                value: "PATH",
                need: Need::Needed,
            },
            help: "The socket to listen on",
        },
        ArgumentRow {
            name: "users",
            kind: Kind::Text {
                value: "PATH",
                need: Need::Needed,
            },
            help: "The users' file: lines of a name, a blank and 64 digits (0 to 9, a to f); the first is the owner",
        },
        ArgumentRow {
            name: "setup",
            kind: Kind::Text {
                value: "PATH",
                need: Need::Free,
            },
            help: "A file with the owner's first commands, one per line",
        },
        ArgumentRow {
            name: "loops",
            kind: Kind::Number {
                value: "N",
                least: 1,
                most: 8,
                need: Need::Default("2"),
            },
            help: "How many loops serve, 1 to 8",
        },
        ArgumentRow {
            name: "user-clients",
            kind: Kind::Number {
                value: "N",
                least: 1,
                most: 64,
                need: Need::Free,
            },
            help: "How many clients one user may have, 1 to 64",
        },
        ArgumentRow {
            name: "user-windows",
            kind: Kind::Number {
                value: "N",
                least: 1,
                most: 40,
                need: Need::Free,
            },
            help: "How many windows one user may have, 1 to 40",
        },
        ArgumentRow {
            name: "trail",
            kind: Kind::Text {
                value: "PATH",
                need: Need::Free,
            },
            help: "A new file for the session's trail, which mux-trail reads",
        },
        ArgumentRow {
            name: "log",
            kind: Kind::Flag,
            help: "Logs to standard error who comes and goes",
        },
    ],
    subcommands: &[],
};

/// The arguments of `muxd` as they were understood; the first of `words` is the program's name.
pub fn of_server<'a>(alloc: Global, words: &'a [String]) -> Result<ArgMatches<'a>, Error> {
    matches_of(alloc, &MUXD, words)
}
