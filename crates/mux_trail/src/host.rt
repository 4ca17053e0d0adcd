//! What the program asks of its runtime: its arguments, and the files of trails.

use clap::{ArgMatches, Error};
use program_words::of_trail;
use std::fs::{self, Files};
use std::io::Read;
use std::time::Clock;
use trail_files::TrailFault;

type Named<'a> = Result<Option<(&'a str, ArgMatches<'a>)>, Error>;

/// A runtime with arguments and the files of trails. Each relation is shown by a call of its function alone.
pub trait TrailHost: Clock + AllocGlobal {
    ghost use Rattle.std.specs.Prelude.{ℕ, IfErr, IfOk, IfSome, List, map};
    ghost use Rattle.mux_trail.specs.Words.{ErrorKind, Found, found_of, kind_of, string_bytes};

    type Trail: Read + Drop;
    // The arguments, the subcommand that they name, and what is found in its own arguments.
    ghost means: { Self → List (List ℕ) → List ℕ → Found → Type 0 };
    // The arguments, and why they name no subcommand.
    ghost refuses: { Self → List (List ℕ) → ErrorKind → Type 0 };
    // A path, and the file that was opened there.
    ghost opens: { Self → List ℕ → Self.Trail → Type 0 };

    /// The subcommand that the arguments name, with its own arguments; the first one is the program's name.
    fn matches_of<'a>(&self, words: &'a [String]) -> Named<'a>
        ensures ok { IfOk result (λ named. IfSome named (λ it.
            means self.now (map string_bytes words.entry.now) it.0.now (found_of it.1))) }
        ensures err { IfErr result (λ error. refuses self.now (map string_bytes words.entry.now) (kind_of error)) };

    fn open_trail(&self, path: &str) -> Result<Self::Trail, TrailFault>
        ensures { IfOk result (opens self.now path.now) };
}

impl<R: Clock + Files + AllocGlobal> TrailHost for R {
    type Trail = R::File;

    // What is on a disk, and which arguments are understood, no clause can say.
    ghost means = { λ host words name found. Unit {0} };

    ghost refuses = { λ host words kind. Unit {0} };

    ghost opens = { λ host path file. Unit {0} };

    fn matches_of<'a>(&self, words: &'a [String]) -> Named<'a> {
        let mut matches = of_trail(self.alloc(), words)?;
        Ok(matches.remove_subcommand())
    }

    fn open_trail(&self, path: &str) -> Result<R::File, TrailFault> {
        fs::open(self, path).map_err(TrailFault::NotOpened)
    }
}
