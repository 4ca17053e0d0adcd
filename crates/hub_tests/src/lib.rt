//! Tests of a hub that threads share, of what its seats are answered and take, and of the file of a trail.
#![tactic(auto)]

#[cfg(test)]
mod compare;
#[cfg(test)]
mod disk;
#[cfg(test)]
mod editions;
#[cfg(test)]
mod entries;
#[cfg(test)]
mod files;
#[cfg(test)]
mod fresh;
#[cfg(test)]
mod many;
#[cfg(test)]
mod refusing;
#[cfg(test)]
mod shared;
#[cfg(test)]
#[cfg(test)]
mod stops;
#[cfg(test)]
mod totals;
#[cfg(test)]
mod turns;
