//! Tests across crates, by scripts: one owner, several users, each client's view, split pages, draws,
//! and refused memory.
#![tactic(auto)]

#[cfg(test)]
mod judging;
#[cfg(test)]
mod one_owner;
#[cfg(test)]
mod rows;
#[cfg(test)]
mod several_users;
#[cfg(test)]
mod splits;
#[cfg(test)]
mod stops;
#[cfg(test)]
mod terminals;
#[cfg(test)]
mod views;
