//! Worked rows of whole runs, over any reader and writer, of tables of closures, and of command lines
//! with little memory.
//!
//!     ‹increment› | 5␤+1 6␤+1 7 => 0␤6␤7␤
//!
//! A file has the tables of one topic, and what tells; a `Probe` names it. Short forms are those of
//! `row_texts`. What begins with `scant` leaves the calls little memory, or none.
//!
//! First `src/found.rt`, then `src/runs.rt`.
#![tactic(auto)]

#[cfg(test)]
mod commands;
#[cfg(test)]
mod files;
#[cfg(test)]
mod found;
#[cfg(test)]
mod piecewise;
#[cfg(test)]
mod running;
#[cfg(test)]
mod runs;
#[cfg(test)]
mod scant_commands;
#[cfg(test)]
mod scant_fillings;
#[cfg(test)]
mod scant_pushes;
#[cfg(test)]
mod scant_reads;
#[cfg(test)]
mod tables;
#[cfg(test)]
mod visits;
