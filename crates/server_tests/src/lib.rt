//! Tests of a server's loops: how they end, an attachment after a broken one, two loops side by side,
//! whose turn it is, what is rationed, streams that are slow, wait, fail or end at each place, and
//! made-up bytes.
#![tactic(auto)]

#[cfg(test)]
mod again;
#[cfg(test)]
mod cut_short;
#[cfg(test)]
mod failing;
#[cfg(test)]
mod made_up;
#[cfg(test)]
mod many;
#[cfg(test)]
mod pastes;
#[cfg(test)]
mod plays;
#[cfg(test)]
mod rations;
#[cfg(test)]
mod rows;
