//! A program's arguments, as it was given them and as rows of a table.

use clap::builder::ValueParser;
use clap::error::ErrorKind;
use clap::{Arg, ArgAction, ArgMatches, Command, Error};
use std::alloc::{AllocError, Global};
use std::env::Env;
use std::io::Write;
use std::{env, io};

/// The version of the programs.
pub const VERSION: &str = "0.1.0";

/// The largest number of 16 bits.
pub const MOST: i64 = 65_535;

/// An argument of a command line.
#[derive(Clone, Copy)]
pub struct ArgumentRow {
    pub name: &'static str,
    pub kind: Kind,
    pub help: &'static str,
}

/// A subcommand of a program, named by the first argument.
#[derive(Clone, Copy)]
pub struct SubcommandRow {
    pub name: &'static str,
    pub about: &'static str,
    pub arguments: &'static [ArgumentRow],
}

/// A program: what its help says, and the arguments that it takes.
#[derive(Clone, Copy)]
pub struct Program {
    pub name: &'static str,
    pub version: Option<&'static str>,
    pub about: &'static str,
    /// The end of the help.
    pub example: Option<&'static str>,
    /// The arguments that it takes, or that all of its subcommands take.
    pub arguments: &'static [ArgumentRow],
    /// Empty for a program without subcommands.
    pub subcommands: &'static [SubcommandRow],
}

/// How an argument is given; `value` is the name of its value in the help.
#[derive(Clone, Copy)]
pub enum Kind {
    /// `--name`
    Flag,
    /// `VALUE`, which is required.
    Bare {
        value: &'static str,
    },
    /// `--name VALUE`
    Text {
        value: &'static str,
        need: Need,
    },
    /// `--name VALUE`, which may be given more than once.
    Texts {
        value: &'static str,
    },
    /// `--name VALUE`, a number from `least` to `most`.
    Number {
        value: &'static str,
        least: i64,
        most: i64,
        need: Need,
    },
}

/// Whether an argument is required.
#[derive(Clone, Copy)]
pub enum Need {
    Needed,
    Free,
    /// It isn't required, and this is its value if it isn't given.
    Default(&'static str),
}

/// The argument, required or with a default as its need says.
fn needing(arg: Arg<'static>, need: Need) -> Arg<'static> {
    match need {
        Need::Needed => arg.required(true),
        Need::Free => arg,
        Need::Default(value) => arg.default_value(value),
    }
}

/// The argument that a row describes.
fn arg_of(alloc: Global, row: ArgumentRow) -> Arg<'static> {
    let ArgumentRow { name, kind, help } = row;
    let arg = Arg::new(alloc, name).help(help);
    match kind {
        Kind::Flag => arg.long(name).action(ArgAction::SetTrue),
        Kind::Bare { value } => arg.value_name(value).required(true),
        Kind::Text { value, need } => needing(arg.long(name).value_name(value), need),
        Kind::Texts { value } => arg.long(name).value_name(value).action(ArgAction::Append),
        Kind::Number {
            value,
            least,
            most,
            need,
        } => {
            let parser = ValueParser::signed(least, most);
            let arg = arg.long(name).value_name(value).value_parser(parser);
            needing(arg, need)
        }
    }
}

/// The command, with the arguments of a table.
fn with_arguments<'a>(
    alloc: Global,
    command: Command<'a>,
    table: &[ArgumentRow],
) -> Result<Command<'a>, AllocError> {
    let mut command = command;
    for row in table {
        command = command.arg(arg_of(alloc, *row))?;
    }
    Ok(command)
}

/// The command of a subcommand, with the arguments that all subcommands take, and after them its own.
fn subcommand_of<'a>(
    alloc: Global,
    shared: &[ArgumentRow],
    row: &SubcommandRow,
) -> Result<Command<'a>, AllocError> {
    let command = Command::new(alloc, row.name).about(row.about);
    with_arguments(
        alloc,
        with_arguments(alloc, command, shared)?,
        row.arguments,
    )
}

/// The command, with one more subcommand.
fn with_subcommand<'a>(
    alloc: Global,
    command: Command<'a>,
    shared: &[ArgumentRow],
    row: &SubcommandRow,
) -> Result<Command<'a>, AllocError> {
    command.subcommand(subcommand_of(alloc, shared, row)?)
}

/// The command, with the subcommands of a table, which share some arguments.
fn with_subcommands<'a>(
    alloc: Global,
    command: Command<'a>,
    shared: &[ArgumentRow],
    table: &[SubcommandRow],
) -> Result<Command<'a>, AllocError> {
    let mut command = command.subcommand_required(true);
    for row in table {
        command = with_subcommand(alloc, command, shared, row)?;
    }
    Ok(command)
}

/// The command of a program.
fn command_of<'a>(alloc: Global, program: &Program) -> Result<Command<'a>, AllocError> {
    let mut command = Command::new(alloc, program.name).about(program.about);
    if let Some(version) = program.version {
        command = command.version(version);
    }
    if let Some(example) = program.example {
        command = command.after_help(example);
    }
    if program.subcommands.is_empty() {
        with_arguments(alloc, command, program.arguments)
    } else {
        with_subcommands(alloc, command, program.arguments, program.subcommands)
    }
}

/// A program's arguments as they were understood; the first of `words` is the program's name.
pub fn matches_of<'a>(
    alloc: Global,
    program: &Program,
    words: &'a [String],
) -> Result<ArgMatches<'a>, Error> {
    command_of(alloc, program)?.try_get_matches_from(words)
}

/// Writes why the arguments give no matches, and gives the status to exit with: 0 for the help, 2 for a
/// mistake, 1 if memory was refused.
pub fn tell<O: Write, E: Write>(error: &Error, output: &mut O, errors: &mut E) -> u8 {
    if error.use_stderr() {
        let _ = write!(errors, "{error}");
        return match error.kind() {
            ErrorKind::OutOfMemory => 1,
            _ => 2,
        };
    }
    match write!(output, "{error}") {
        Ok(()) => 0,
        Err(_) => 1,
    }
}

/// A program's name and the arguments that it was given.
pub fn given<R: Env + AllocGlobal>(rt: &R, name: &str) -> io::Result<Vec<String>> {
    let mut words = Vec::new(rt.alloc());
    words.push(String::from_str(rt.alloc(), name)?)?;
    for word in env::args(rt)?.skip(1) {
        words.push(word)?;
    }
    Ok(words)
}

/// Writes why a program can't read its arguments, and gives the status to exit with: 2 for one that isn't
/// UTF-8, 1 if memory was refused.
pub fn not_given<E: Write>(program: &str, error: &io::Error, errors: &mut E) -> u8 {
    if error.kind() == io::ErrorKind::InvalidData {
        let _ = writeln!(errors, "{program}: an argument isn't UTF-8");
        return 2;
    }
    let _ = writeln!(errors, "{program}: can't read its arguments: {error}");
    1
}
