//! Tests of draws: layouts of regions, frames from one page to another, and random steps of a session.
#![tactic(auto)]

#[cfg(test)]
mod calls;
#[cfg(test)]
mod colours;
#[cfg(test)]
mod drawing;
#[cfg(test)]
mod layouts;
#[cfg(test)]
mod lengths;
#[cfg(test)]
mod made_up;
#[cfg(test)]
mod needs;
