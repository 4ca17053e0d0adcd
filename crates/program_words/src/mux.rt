//! The arguments of `mux`.

use crate::table::{ArgumentRow, Kind, MOST, Need, Program, SubcommandRow, VERSION, matches_of};
use clap::{ArgMatches, Error};
use std::alloc::Global;

const EXAMPLE: &str = "Example, beside that of muxd:
  cd $XDG_RUNTIME_DIR/mux
  (date; sleep 60) | mux window --socket socket --user ann --token ann.token \\
    --rows 22 --cols 80 --title date > typed &
  stty raw -echo; mux attach --socket socket --user ann --token ann.token \\
    --rows 24 --cols 80; stty sane
  mux command --socket socket --user ann --token ann.token quit";

/// A number of lines or columns.
const SIZE: Kind = Kind::Number {
    value: "N",
    least: 0,
    most: MOST,
    need: Need::Needed,
};

/// The user who asks. Each subcommand but ping has it.
const USER: ArgumentRow = ArgumentRow {
    name: "user",
    kind: Kind::Text {
        value: "NAME",
        need: Need::Needed,
    },
    help: "The user's name",
};

/// The file with the user's token. Each subcommand but ping has it.
const TOKEN: ArgumentRow = ArgumentRow {
    name: "token",
    kind: Kind::Text {
        value: "PATH",
        need: Need::Needed,
    },
    help: "The file with the user's token: 64 digits",
};

/// How long a subcommand with one answer waits for it.
const WAIT: ArgumentRow = ArgumentRow {
    name: "wait",
    kind: Kind::Number {
        value: "SECONDS",
        least: 0,
        most: MOST,
        need: Need::Default("30"),
    },
    help: "How long to wait for the answer; 0 waits without limit",
};

/// How long a peer tries to come back.
const SECONDS: Kind = Kind::Number {
    value: "SECONDS",
    least: 0,
    most: MOST,
    need: Need::Default("0"),
};

static MUX: Program = Program {
    name: "mux",
    version: Some(VERSION),
    about: "Joins a session that muxd serves",
    example: Some(EXAMPLE),
    arguments: &[ArgumentRow {
        name: "socket",
        kind: Kind::Text {
            value: "PATH",
            need: Need::Needed,
        },
        help: "The server's socket",
    }],
    subcommands: &[
        SubcommandRow {
            name: "attach",
            about: "Shows the session: keys from standard input, draws to standard output",
            arguments: &[
                USER,
                TOKEN,
                ArgumentRow {
                    name: "rows",
                    kind: SIZE,
                    help: "The terminal's lines, 4 to 200",
                },
                ArgumentRow {
                    name: "cols",
                    kind: SIZE,
                    help: "The terminal's columns, 20 to 300",
                },
                ArgumentRow {
                    name: "sizes",
                    kind: Kind::Text {
                        value: "PATH",
                        need: Need::Free,
                    },
                    help: "A FIFO to read the terminal's new sizes from, as lines ROWS COLS",
                },
                ArgumentRow {
                    name: "why",
                    kind: Kind::Flag,
                    help: "Says on standard error why it ends, even without a fault",
                },
                ArgumentRow {
                    name: "leave",
                    kind: Kind::Number {
                        value: "BYTE",
                        least: 0,
                        most: 255,
                        need: Need::Free,
                    },
                    help: "A byte (28 is C-\\) that leaves at once, even if the server hangs; type it twice to send it",
                },
                ArgumentRow {
                    name: "fit",
                    kind: Kind::Flag,
                    help: "Gives the window in focus the terminal's size, at the start and after each change of size",
                },
                ArgumentRow {
                    name: "assist",
                    kind: Kind::Flag,
                    help: "C-a ? shows the keys, Shift-PgUp and Shift-PgDn scroll, and refusals are explained",
                },
                ArgumentRow {
                    name: "again",
                    kind: SECONDS,
                    help: "How long to try to attach again, once the server is gone",
                },
            ],
        },
        SubcommandRow {
            name: "window",
            about: "Opens a window: output from standard input, input to standard output",
            arguments: &[
                USER,
                TOKEN,
                ArgumentRow {
                    name: "rows",
                    kind: SIZE,
                    help: "The window's lines, 2 to 200",
                },
                ArgumentRow {
                    name: "cols",
                    kind: SIZE,
                    help: "The window's columns, 2 to 300",
                },
                ArgumentRow {
                    name: "title",
                    kind: Kind::Text {
                        value: "TEXT",
                        need: Need::Needed,
                    },
                    help: "The window's title, 1 to 40 characters",
                },
                ArgumentRow {
                    name: "keep",
                    kind: Kind::Number {
                        value: "N",
                        least: 0,
                        most: MOST,
                        need: Need::Default("100"),
                    },
                    help: "How many lines to keep above the page, at most 2000",
                },
                ArgumentRow {
                    name: "sizes",
                    kind: Kind::Text {
                        value: "PATH",
                        need: Need::Free,
                    },
                    help: "A file to write the window's new sizes to, as lines ROWS COLS",
                },
                ArgumentRow {
                    name: "stay",
                    kind: SECONDS,
                    help: "How long to keep the program and to try to open the window again, once the server is gone",
                },
            ],
        },
        SubcommandRow {
            name: "command",
            about: "Gives a command, and prints what is said to it",
            arguments: &[
                USER,
                TOKEN,
                WAIT,
                ArgumentRow {
                    name: "window",
                    kind: Kind::Number {
                        value: "N",
                        least: 0,
                        most: 254,
                        need: Need::Free,
                    },
                    help: "The number of the window that the command acts on",
                },
                ArgumentRow {
                    name: "line",
                    kind: Kind::Bare { value: "LINE" },
                    help: "The command with its words, as one argument",
                },
            ],
        },
        SubcommandRow {
            name: "ping",
            about: "Asks whether a server answers, as nobody",
            arguments: &[WAIT],
        },
    ],
};

/// The arguments of `mux` as they were understood; the first of `words` is the program's name.
pub fn of_client<'a>(alloc: Global, words: &'a [String]) -> Result<ArgMatches<'a>, Error> {
    matches_of(alloc, &MUX, words)
}
