//! Invalid scripts, setups and arguments, and readers and writers that fail.

use session::{SimulatorArgs, simulate, simulate_behind};
use std::alloc::{AllocError, Global};
use std::fs::Files;
use std::io::{Read, Write};
use std::{io, str};

/// Arguments and input, and the status, standard output and standard error that must follow; `..`
/// matches anything.
#[derive(Clone, Copy)]
struct ProgramRun<'a> {
    words: &'a [&'a str],
    setup: &'a [u8],
    script: &'a [u8],
    status: u8,
    output: &'a str,
    errors: &'a str,
}

/// The program's name, followed by these words.
fn arguments(alloc: Global, words: &[&str]) -> Result<Vec<String>, AllocError> {
    let mut owned = Vec::new(alloc);
    owned.push(String::from_str(alloc, "muxsim")?)?;
    for word in words {
        owned.push(String::from_str(alloc, word)?)?;
    }
    Ok(owned)
}

/// Whether a text is the wanted one; `..` at its end matches one byte or more.
fn is_wanted(want: &str, bytes: &[u8]) -> bool {
    let Ok(text) = str::from_utf8(bytes) else {
        return false;
    };
    match want.strip_suffix("..") {
        Some(begin) => text.starts_with(begin) && text.len() > begin.len(),
        None => text == want,
    }
}

fn is_so<H: Files + AllocGlobal>(rt: &H, run: &ProgramRun<'_>) -> bool {
    let alloc = rt.alloc();
    let Ok(words) = arguments(alloc, run.words) else {
        return false;
    };
    let mut output = Vec::new(alloc);
    let mut errors = Vec::new(alloc);
    let status = if run.setup.is_empty() {
        simulate(rt, &words, run.script, &mut output, &mut errors)
    } else {
        let asked = SimulatorArgs {
            words: &words,
            setup: run.setup,
        };
        simulate_behind(alloc, asked, run.script, &mut output, &mut errors)
    };
    status == run.status && is_wanted(run.output, &output) && is_wanted(run.errors, &errors)
}

/// Invalid arguments.
static NO_WORDS: [&[&str]; 8] = [
    &[],
    &["Own"],
    &["none"],
    &["own", "own"],
    &["--shew", "own"],
    &["--show"],
    &["--edition", "0", "own"],
    &["--edition", "one", "own"],
];

const UNREAD: ProgramRun<'static> = ProgramRun {
    words: &["--edition", "3", "own"],
    setup: b"",
    script: b"",
    status: 2,
    output: "",
    errors: "error: invalid value '3' for '--edition <N>'..",
};

const HELP: ProgramRun<'static> = ProgramRun {
    words: &["--help"],
    status: 0,
    output: "..",
    errors: "",
    ..UNREAD
};

fn are_words_understood<H: Files + AllocGlobal>(rt: &H) -> bool {
    for words in &NO_WORDS {
        let run = ProgramRun {
            words,
            errors: "..",
            ..UNREAD
        };
        if !is_so(rt, &run) {
            return false;
        }
    }
    is_so(rt, &UNREAD) && is_so(rt, &HELP)
}

#[test]
fn words_are_the_owner_the_edition_and_show(rt: HostRuntime) {
    assert!(rt; are_words_understood(&rt));
}

/// Invalid lines, separated by bars.
const NO_EVENTS: &str =
    r"zap|open|open own 2 5 0|open own  2 5 0 sh|open Own 2 5 0 sh|open none 2 5 0 sh|
open own 12345 5 0 sh|open own 2 x 0 sh|open own 2 +5 0 sh|open own 2 5 0 \ff|attach own 4|
attach own 4 20 |attach own 4 20 9|draw|draw x|keys 0|output 0 \1|output 0 \zz|detach|
detach 0 0|command own|command own 12345 windows|resize 0 4|closed -";

const REFUSED: ProgramRun<'static> = ProgramRun {
    words: &["--show", "own"],
    setup: b"",
    script: b"",
    status: 1,
    output: "opened 0 0\n",
    errors: "muxsim: line 3: not understood\n",
};

/// Whether the lines before an invalid line are played, and no line after it.
fn is_refused<H: Files + AllocGlobal>(rt: &H, line: &str) -> bool {
    let Ok(script) = format!(in rt.alloc(); "open own 2 5 0 sh\n\n{line}\nattach own 4 20\n") else {
        return false;
    };
    let run = ProgramRun {
        script: script.as_bytes(),
        ..REFUSED
    };
    is_so(rt, &run)
}

fn first_understood<H: Files + AllocGlobal>(rt: &H) -> Option<&'static str> {
    for line in NO_EVENTS.split('|') {
        if !is_refused(rt, line.trim_start_matches('\n')) {
            return Some(line);
        }
    }
    None
}

#[test]
fn lines_before_the_first_bad_one_are_played(rt: HostRuntime) {
    assert_eq!(rt; first_understood(&rt), None);
}

/// Appends a script with a text of this many bytes.
fn put_text(count: usize, script: &mut Vec<u8>) -> Result<(), AllocError> {
    script.extend_from_slice(b"open own 2 5 0 sh\n\noutput 0 ")?;
    let len = script.len().saturating_add(count);
    script.resize(len, b'x')
}

/// Whether a script with a text of this many bytes ends in this way.
fn ends<H: Files + AllocGlobal>(rt: &H, count: usize, run: ProgramRun<'_>) -> bool {
    let mut script = Vec::new(rt.alloc());
    if put_text(count, &mut script).is_err() {
        return false;
    }
    let run = ProgramRun {
        script: &script,
        ..run
    };
    is_so(rt, &run)
}

const READ: ProgramRun<'static> = ProgramRun {
    status: 0,
    output: "opened 0 0\nok\n",
    errors: "",
    words: &["own"],
    ..REFUSED
};

#[test]
fn texts_have_8192_bytes_at_most(rt: HostRuntime) {
    assert!(rt; ends(&rt, 8192, READ) && ends(&rt, 8193, REFUSED));
}

const SCRIPT: &[u8] = b"open own 2 5 0 sh\n";

// A setup, and the message about it: the first refused line, and why.
static SETUPS: [(&[u8], &str); 4] = [
    (
        b"multiuser on\n\naclchg bob +q shop\nquit now\n",
        "muxsim: setup there: line 3: aclchg bob +q shop: line: 5 at 11 (no bits: +q)\n",
    ),
    (
        b"# shop comes later\nmultiuser on\naclchg bob +r shop",
        "muxsim: setup there: line 3: aclchg bob +r shop: windows: 2 (no such window)\n",
    ),
    (
        b"acladd bob\n",
        "muxsim: setup there: line 1: acladd bob: not in multiuser mode\n",
    ),
    (
        b"quit now\nwall \xFF\n",
        "muxsim: setup there: line 2: not UTF-8\n",
    ),
];

fn are_setups_refused<H: Files + AllocGlobal>(rt: &H) -> bool {
    for (setup, errors) in &SETUPS {
        let run = ProgramRun {
            words: &["--setup", "there", "own"],
            setup,
            script: SCRIPT,
            output: "",
            errors,
            ..REFUSED
        };
        if !is_so(rt, &run) {
            return false;
        }
    }
    true
}

#[test]
fn refused_setups_are_told(rt: HostRuntime) {
    assert!(rt; are_setups_refused(&rt));
}

/// A reader that fails once its bytes are read.
#[derive(Drop)]
struct Torn<'a> {
    bytes: &'a [u8],
}

impl Read for Torn<'_> {
    fn read(&mut self, buf: &mut [u8]) -> io::Result<usize> {
        if self.bytes.is_empty() {
            return Err(io::Error::from(io::ErrorKind::BrokenPipe));
        }
        self.bytes.read(buf)
    }
}

/// A writer that takes nothing.
#[derive(Drop)]
struct FullWriter;

impl Write for FullWriter {
    fn write(&mut self, _bytes: &[u8]) -> io::Result<usize> {
        Err(io::Error::from(io::ErrorKind::StorageFull))
    }

    fn flush(&mut self) -> io::Result<()> {
        Ok(())
    }
}

/// Whether a reader that fails after its lines is reported, and the lines are played.
fn is_torn<H: Files + AllocGlobal>(rt: &H, words: &[String]) -> bool {
    let mut output = Vec::new(rt.alloc());
    let mut errors = Vec::new(rt.alloc());
    let torn = Torn { bytes: SCRIPT };
    simulate(rt, words, torn, &mut output, &mut errors) == 1
        && output.as_slice() == b"opened 0 0\n".as_slice()
        && errors.starts_with(b"muxsim: ")
}

/// Whether a writer that fails is reported.
fn is_full<H: Files + AllocGlobal>(rt: &H, words: &[String]) -> bool {
    let mut errors = Vec::new(rt.alloc());
    simulate(rt, words, SCRIPT, &mut FullWriter, &mut errors) == 1
        && errors.starts_with(b"muxsim: ")
}

fn are_failures_told<H: Files + AllocGlobal>(rt: &H) -> bool {
    match arguments(rt.alloc(), &["own"]) {
        Ok(words) => is_torn(rt, &words) && is_full(rt, &words),
        Err(_) => false,
    }
}

#[test]
fn failing_reads_and_writes_are_told(rt: HostRuntime) {
    assert!(rt; are_failures_told(&rt));
}
