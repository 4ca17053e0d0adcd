//! Tests of the programs: a server and its peers as threads of one process.
#![tactic(auto)]

#[cfg(test)]
mod frames;
#[cfg(test)]
mod gate;
#[cfg(test)]
mod peer;
#[cfg(test)]
mod ready;
#[cfg(test)]
mod served;
#[cfg(test)]
mod together;
#[cfg(test)]
mod trust;
#[cfg(test)]
mod turns;
