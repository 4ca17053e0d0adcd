//! Tests of rebuilding: random terminals are told as bytes, save in one rare case.
#![tactic(auto)]

#[cfg(test)]
mod rebuilding;
