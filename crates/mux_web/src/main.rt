//! `mux-web --socket PATH --listen ADDRESS:PORT|PATH [--origin URL].. [--watch NAME --watch-token FILE]
//! [--window W] [--links FOLDER] [--most N] [--page FOLDER] [--log]`: lets people join a session that `muxd` serves
//! from their browsers.
#![tactic(auto)]

mod serving;

use crate::serving::run;
use program_words::{given, not_given};
use std::io;
use std::process::ExitCode;

fn main(rt: HostRuntime) -> ExitCode {
    let words = match given(&rt, "mux-web") {
        Ok(words) => words,
        Err(error) => return ExitCode::from(not_given("mux-web", &error, &mut rt.stderr())),
    };
    let status = run(
        &rt,
        words.as_slice(),
        &mut io::writer(&rt),
        &mut rt.stderr(),
    );
    ExitCode::from(status)
}
