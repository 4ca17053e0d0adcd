//! Tests of commands and frames: the lines and keys that give commands, the rights and locks that they
//! change, and the frames between server and peers, their faults and refused memory.
#![tactic(auto)]

#[cfg(test)]
mod faults;
#[cfg(test)]
mod frames;
#[cfg(test)]
mod histories;
#[cfg(test)]
mod lines;
#[cfg(test)]
mod made_up;
#[cfg(test)]
mod refused_memory;
#[cfg(test)]
mod stage;
#[cfg(test)]
mod typed_keys;
