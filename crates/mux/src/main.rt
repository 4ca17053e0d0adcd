//! `mux attach|window|command ..`: joins a session that `muxd` serves.
#![tactic(auto)]

use program_words::{given, not_given};
use server_client::client;
use std::process::ExitCode;

fn main(rt: HostRuntime) -> ExitCode {
    let words = match given(&rt, "mux") {
        Ok(words) => words,
        Err(error) => return ExitCode::from(not_given("mux", &error, &mut rt.stderr())),
    };
    let status = client(
        &rt,
        words.as_slice(),
        rt.stdin(),
        rt.stdout(),
        &mut rt.stderr(),
    );
    ExitCode::from(status)
}
