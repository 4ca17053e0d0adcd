//! Tests of scripts whose input is cut or faulty, and of the words of refusals.
#![tactic(auto)]

#[cfg(test)]
mod input;
#[cfg(test)]
mod refusals;
