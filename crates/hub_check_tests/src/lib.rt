//! Tests of the judge: entries that no session files.
#![tactic(auto)]

#[cfg(test)]
mod forged;
