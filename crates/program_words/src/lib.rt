//! The programs' arguments, with their help; what the numbers of refusals mean; errors of the system; and the lines of a setup
//! file: the commands with which its owner begins a session.
#![tactic(auto)]

mod mux;
mod mux_trail;
mod mux_web;
mod muxd;
mod refusals;
mod setup;
mod table;

use crate::table::{ArgumentRow, Kind, MOST, Need, Program, matches_of};
use clap::{ArgMatches, Error};
pub use mux::of_client;
pub use mux_trail::of_trail;
pub use mux_web::of_web;
pub use muxd::of_server;
pub use refusals::{RefusedLine, SystemError, explain};
pub use setup::{SetupFault, SetupLine, read_setup, speech_in};
use std::alloc::Global;
pub use table::{given, not_given, tell};

static VTCAT: Program = Program {
    name: "vtcat",
    version: None,
    about: "Shows the page of a VT220 that has read standard input",
    example: None,
    arguments: &[
        ArgumentRow {
            name: "rows",
            kind: Kind::Number {
                value: "rows",
                least: 0,
                most: MOST,
                need: Need::Needed,
            },
            help: "The lines of the page, 2 to 200",
        },
        ArgumentRow {
            name: "cols",
            kind: Kind::Number {
                value: "cols",
                least: 0,
                most: MOST,
                need: Need::Needed,
            },
            help: "The columns of the page, 2 to 300",
        },
        ArgumentRow {
            name: "keep",
            kind: Kind::Number {
                value: "keep",
                least: 0,
                most: MOST,
                need: Need::Default("0"),
            },
            help: "How many of the lines that scroll off the page to keep",
        },
    ],
    subcommands: &[],
};

/// The arguments of `vtcat` as they were understood; the first of `words` is the program's name.
pub fn of_cat<'a>(alloc: Global, words: &'a [String]) -> Result<ArgMatches<'a>, Error> {
    matches_of(alloc, &VTCAT, words)
}
