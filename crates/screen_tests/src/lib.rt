//! Tests of screens: bytes as control functions, the pages after them no matter how the bytes are split,
//! their cells, and tables of windows.
#![tactic(auto)]

#[cfg(test)]
mod colours;
#[cfg(test)]
mod cuts;
#[cfg(test)]
mod functions;
#[cfg(test)]
mod judging;
#[cfg(test)]
mod pages;
#[cfg(test)]
mod parts;
#[cfg(test)]
mod table;
#[cfg(test)]
mod tables;
