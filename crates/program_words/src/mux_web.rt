//! The arguments of `mux-web`.

use crate::table::{ArgumentRow, Kind, Need, Program, VERSION, matches_of};
use clap::{ArgMatches, Error};
use std::alloc::Global;

const EXAMPLE: &str = "Example, beside that of muxd:
  mux-web --socket $XDG_RUNTIME_DIR/mux/socket --listen 127.0.0.1:8090
  Then open http://127.0.0.1:8090/ in a browser.";

static MUX_WEB: Program = Program {
    name: "mux-web",
    version: Some(VERSION),
    about: "Lets users join a session from their browsers",
    example: Some(EXAMPLE),
    arguments: &[
        ArgumentRow {
            name: "socket",
            kind: Kind::Text {
                value: "PATH",
                need: Need::Needed,
            },
            help: "The server's socket",
        },
        ArgumentRow {
            name: "listen",
            kind: Kind::Text {
                value: "ADDRESS:PORT|PATH",
                need: Need::Needed,
            },
            help: "Where browsers connect: an address of this machine, or a socket for a web server",
        },
        ArgumentRow {
            name: "origin",
            kind: Kind::Texts { value: "URL" },
            help: "The page's address without a path, such as https://mux.example.org; may be given again",
        },
        ArgumentRow {
            name: "watch",
            kind: Kind::Text {
                value: "NAME",
                need: Need::Free,
            },
            help: "The user as whom anybody may watch",
        },
        ArgumentRow {
            name: "watch-token",
            kind: Kind::Text {
                value: "FILE",
                need: Need::Free,
            },
            help: "The file with that user's token",
        },
        ArgumentRow {
            name: "window",
            kind: Kind::Text {
                value: "WHICH",
                need: Need::Free,
            },
            help: "The window that watchers see, a number or a title [default: the first one]",
        },
        ArgumentRow {
            name: "links",
            kind: Kind::Text {
                value: "FOLDER",
                need: Need::Free,
            },
            help: "The folder of links that mux-user link makes; it must be yours",
        },
        ArgumentRow {
            name: "most",
            kind: Kind::Number {
                value: "N",
                least: 1,
                most: 10_000,
                need: Need::Default("64"),
            },
            help: "How many pages may be open, 1 to 10000",
        },
        ArgumentRow {
            name: "page",
            kind: Kind::Text {
                value: "FOLDER",
                need: Need::Free,
            },
            help: "The folder with index.html, mux.js and mux.css [default: the installed one]",
        },
        ArgumentRow {
            name: "log",
            kind: Kind::Flag,
            help: "Logs to standard error who comes and goes",
        },
    ],
    subcommands: &[],
};

/// The arguments of `mux-web` as they were understood; the first of `words` is the program's name.
pub fn of_web<'a>(alloc: Global, words: &'a [String]) -> Result<ArgMatches<'a>, Error> {
    matches_of(alloc, &MUX_WEB, words)
}
