//! Judges the output of a script.
//!
//! A text has a script's events. Each is followed by `=>` and the lines that it must print, separated
//! by `/`; an event without them prints `ok`. After the events come the views that are printed at the
//! end.

use crate::terminals::are_shown;
use session::simulate;
use std::alloc::{AllocError, Global};
use std::fs::Files;
use std::str::{self, Lines};

/// The result of a run of the simulator.
#[derive(Drop)]
pub struct Played {
    pub output: Vec<u8>,
    pub errors: Vec<u8>,
    pub status: u8,
}

/// The program's name, followed by these words.
fn arguments(alloc: Global, words: &[&str]) -> Result<Vec<String>, AllocError> {
    let mut owned = Vec::new(alloc);
    owned.push(String::from_str(alloc, "muxsim")?)?;
    for word in words {
        owned.push(String::from_str(alloc, word)?)?;
    }
    Ok(owned)
}

/// Plays a script with the program's name and these words as arguments.
pub fn play<H: Files + AllocGlobal>(
    rt: &H,
    words: &[&str],
    script: &[u8],
) -> Result<Played, AllocError> {
    let words = arguments(rt.alloc(), words)?;
    let mut output = Vec::new(rt.alloc());
    let mut errors = Vec::new(rt.alloc());
    let status = simulate(rt, &words, script, &mut output, &mut errors);
    Ok(Played {
        output,
        errors,
        status,
    })
}

/// The printed form of the first bytes of a frame for a terminal in an unknown state.
const RESET: &str = r"\18\1bc\1b%G\1b[?7l";

/// Whether a line is one of a view.
fn is_of_view(line: &str) -> bool {
    line.starts_with('|') || line.starts_with("client ") || line.starts_with("cursor ")
}

/// Appends the events of a text.
fn put_events(text: &str, script: &mut String) -> bool {
    for line in text.lines() {
        let event = match line.split_once(" => ") {
            Some((event, _)) => event,
            None => line,
        };
        if !is_of_view(line) && (script.push_str(event).is_err() || script.push('\n').is_err()) {
            return false;
        }
    }
    true
}

/// Whether a line is the wanted one. `deliver C ..` matches any draw, and `deliver C reset ..` one that
/// begins with the reset.
fn is_wanted(want: &str, line: &str) -> bool {
    let Some(begin) = want.strip_suffix("..") else {
        return line == want;
    };
    match begin.strip_suffix("reset ") {
        Some(begin) => match line.strip_prefix(begin) {
            Some(bytes) => bytes.starts_with(RESET),
            None => false,
        },
        None => line.starts_with(begin) && line.len() > begin.len(),
    }
}

/// Whether the output continues with the lines that one line of a text wants.
fn goes_on(printed: &mut Lines<'_>, line: &str) -> bool {
    let wanted = match line.split_once(" => ") {
        Some((_, wanted)) => wanted,
        None if is_of_view(line) => line,
        None => "ok",
    };
    for want in wanted.split(" / ") {
        match printed.next() {
            Some(found) if is_wanted(want, found) => {}
            _ => return false,
        }
    }
    true
}

/// Whether the output is exactly the one that a text wants.
pub fn are_lines(text: &str, printed: &str) -> bool {
    let mut printed = printed.lines();
    for line in text.lines() {
        if !goes_on(&mut printed, line) {
            return false;
        }
    }
    printed.next().is_none()
}

/// Whether a script ends with status 0 and the output that its text wants, and terminals that read the
/// bytes delivered to a client show that client's printed view.
pub fn is_so<H: Files + AllocGlobal>(rt: &H, words: &[&str], text: &str) -> bool {
    let mut script = String::new(rt.alloc());
    if !put_events(text, &mut script) {
        return false;
    }
    let Ok(played) = play(rt, words, script.as_bytes()) else {
        return false;
    };
    match str::from_utf8(&played.output) {
        Ok(printed) => {
            played.status == 0
                && played.errors.is_empty()
                && are_lines(text, printed)
                && are_shown(rt.alloc(), printed)
        }
        Err(_) => false,
    }
}

/// Texts, outputs, and whether the output is the one that the text wants.
static JUDGED: [(&str, &str, bool); 9] = [
    ("e => a / b\n", "a\nb\n", true),
    ("e => a / c\n", "a\nb\n", false),
    ("e => a\n", "a\nb\n", false),
    ("e => a / b\n", "a\n", false),
    ("e => d 0 ..\n", "d 0 x\n", true),
    ("e => d 0 ..\n", "d 0 \n", false),
    ("e => d 0 ..\n", "d 1 x\n", false),
    ("e => d 0 reset ..\n", "d 0 \\18\\1bc\\1b%G\\1b[?7l\n", true),
    ("e => d 0 reset ..\n", "d 0 x\n", false),
];

/// A client without a draw after the last output: its terminal doesn't show `hi`.
const STALE: &str = r"open own 2 5 0 sh => opened 0 0
attach own 4 20 => attached 0
draw 0 => deliver 0 reset .. / ok
output 0 hi
client 0
|hi                  |
|                    |
|0 sh                |
|                    | / cursor 1 3
";

fn are_judged<H: Files + AllocGlobal>(rt: &H) -> bool {
    for (text, printed, is_so) in &JUDGED {
        if are_lines(text, printed) != *is_so {
            return false;
        }
    }
    !is_so(rt, &["--show", "own"], STALE) && !is_so(rt, &["own"], "zap => ok\n")
}

#[test]
fn what_differs_is_found(rt: HostRuntime) {
    assert!(rt; are_judged(&rt));
}
