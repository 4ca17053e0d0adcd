//! A test of a server's loops with refused memory.
#![tactic(auto)]

#[cfg(test)]
mod refusals;
