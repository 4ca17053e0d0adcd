//! `mux-trail check|log|show|who|setup|why FILE`: reads the trail of a session.
#![tactic(auto)]

mod ask;
mod diary;
mod history;
mod host;
mod program;
mod reading;
mod streams;
mod words;

use crate::program::trail;
use program_words::{given, not_given};
use std::io;
use std::process::ExitCode;

fn main(rt: HostRuntime) -> ExitCode {
    let words = match given(&rt, "mux-trail") {
        Ok(words) => words,
        Err(error) => return ExitCode::from(not_given("mux-trail", &error, &mut rt.stderr())),
    };
    let status = trail(
        &rt,
        words.as_slice(),
        &mut io::writer(&rt),
        &mut rt.stderr(),
    );
    ExitCode::from(status)
}
