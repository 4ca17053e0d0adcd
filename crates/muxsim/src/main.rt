//! `muxsim [--edition N] [--setup FILE] [--show] [--trail FILE] OWNER`: plays the script on standard
//! input.
#![tactic(auto)]

use program_words::{given, not_given};
use script_trail::simulate_with_trail;
use std::io;
use std::process::ExitCode;

fn main(rt: HostRuntime) -> ExitCode {
    let words = match given(&rt, "muxsim") {
        Ok(words) => words,
        Err(error) => return ExitCode::from(not_given("muxsim", &error, &mut rt.stderr())),
    };
    ExitCode::from(simulate_with_trail(
        &rt,
        &words,
        rt.reader(),
        &mut io::writer(&rt),
        &mut rt.stderr(),
    ))
}
