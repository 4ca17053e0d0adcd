//! `muxd --socket PATH --users PATH [--setup PATH] [--trail PATH] [--loops N] [--user-clients N]
//! [--user-windows N] [--log]`: serves a session that users share.
#![tactic(auto)]

use program_words::{given, not_given};
use server::serve;
use std::io;
use std::process::ExitCode;

fn main(rt: HostRuntime) -> ExitCode {
    let words = match given(&rt, "muxd") {
        Ok(words) => words,
        Err(error) => return ExitCode::from(not_given("muxd", &error, &mut rt.stderr())),
    };
    let status = serve(&rt, rt, words.as_slice(), &mut io::writer(&rt));
    ExitCode::from(status)
}
