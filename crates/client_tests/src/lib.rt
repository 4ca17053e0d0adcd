//! Tests of the program `mux` beside a server that plays a script, as threads of one process.
#![tactic(auto)]

#[cfg(test)]
mod calling;
#[cfg(test)]
mod line;
#[cfg(test)]
mod table;
#[cfg(test)]
mod talks;
