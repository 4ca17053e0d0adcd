//! The scripts that are installed beside `mux`. It can't start another program, so it names them.

use clap::Error;
use clap::error::ErrorKind;
use program_words::tell;
use std::alloc::Global;
use std::io;
use std::io::Write;

// What `mux` alone says.
const BEGIN: &[u8] = b"mux lets several people share live terminals. Begin with one of these:
  mux-share --with cole   shares a shell with cole, who has an account on this host
  mux-join dana           joins the shell that dana shares
'mux help' lists the other commands.
";

// Each script's name, and what it does.
static SCRIPTS: [&str; 22] = [
    "mux-share        Shares a shell with other accounts of this host",
    "mux-join         Joins a shell that another account shares",
    "mux-attach       Attaches this terminal to a session",
    "mux-watch        Shows a session and types nothing",
    "mux-shell        Runs a shell as a window",
    "mux-pty          Runs a program in a pseudo-terminal as a window",
    "mux-console      Attaches to a console by its name, or opens one",
    "mux-command      Gives a session a command",
    "mux-turn         Hands the turn to type over",
    "mux-guest        Lets somebody read a window for a while",
    "mux-user         Keeps the users of a session and their tokens",
    "mux-rights       Gives the rights that a file says",
    "mux-over-ssh     Attaches to a session on another machine",
    "mux-door         Keeps a shell that is shared with other accounts",
    "mux-check        Says what needs somebody in the sessions of this host",
    "mux-audit        Asks, seals and follows all trails of a session",
    "mux-trail-chain  Shows which trails of a folder continue each other",
    "mux-again        Goes on with a session where its trail ends",
    "muxd-run         Starts muxd with a setup and a trail, for units",
    "muxd-wait        Waits until a session is served",
    "muxd-stop        Ends a session and waits until muxd has ended",
    "new-token        Makes a token for a user of a session",
];

// Whether the script of this line is `mux-` and the word.
fn is_of(script: &str, word: &str) -> bool {
    match script.strip_prefix("mux-") {
        Some(rest) => match rest.split_once(' ') {
            Some((name, _)) => name == word,
            None => false,
        },
        None => false,
    }
}

// The word that was given as a subcommand, if there is a script of its name.
fn meant(words: &[String]) -> Option<&str> {
    let word = words
        .iter()
        .map(|word| word.as_str())
        .skip(1)
        .find(|word| *word != "help")?;
    if SCRIPTS.iter().any(|script| is_of(script, word)) {
        Some(word)
    } else {
        None
    }
}

// Writes the scripts, one on each line.
fn list<O: Write>(output: &mut O) -> io::Result<()> {
    output.write_all(b"\nScripts beside mux; each has its own --help:\n")?;
    for script in &SCRIPTS {
        writeln!(output, "  {script}")?;
    }
    Ok(())
}

// Writes a mistake as the other messages of `mux` are written. Without memory for its text that is said.
fn put_mistake<E: Write>(text: &[u8], errors: &mut E) {
    let said = text.strip_prefix(b"error: ".as_slice()).unwrap_or(text);
    let _ = errors.write_all(b"mux: ");
    let _ = errors.write_all(if said.is_empty() {
        b"out of memory\n"
    } else {
        said
    });
}

/// Writes why the arguments give no matches, and returns the exit status. Names the script if a word is
/// one, lists the scripts below the help of `mux`, and says how to begin if there is no argument.
pub fn tell_mistake<O: Write, E: Write>(
    alloc: Global,
    error: &Error,
    words: &[String],
    output: &mut O,
    errors: &mut E,
) -> u8 {
    let script = match error.kind() {
        ErrorKind::InvalidSubcommand => meant(words),
        _ => None,
    };
    if let Some(word) = script {
        let _ = writeln!(
            errors,
            "mux: type mux-{word} instead of mux {word}: mux can't start another program"
        );
        return 2;
    }
    if words.len() < 2 {
        let _ = errors.write_all(BEGIN);
        return 2;
    }
    let mut mistake = Vec::new(alloc);
    let status = tell(error, output, &mut mistake);
    if error.use_stderr() {
        put_mistake(&mistake, errors);
    }
    if status == 0 && error.kind() == ErrorKind::DisplayHelp && words.len() == 2 {
        return match list(output) {
            Ok(()) => 0,
            Err(_) => 1,
        };
    }
    status
}
