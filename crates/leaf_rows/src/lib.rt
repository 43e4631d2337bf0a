//! Worked rows of values, types and expressions, of their texts, and of the lines of streams.
//!
//!     Int | 12(x => 12 to 2
//!
//! A file has the tables of one topic, and what tells; a `Probe` names it. Short forms are those of
//! `row_texts`. What begins with `scant` leaves the calls little memory, or none.
//!
//! First `src/found.rt`, then `src/values.rt`.
#![tactic(auto)]

#[cfg(test)]
mod found;
#[cfg(test)]
mod keys;
#[cfg(test)]
mod reading;
#[cfg(test)]
mod scant_lines;
#[cfg(test)]
mod scant_memory;
#[cfg(test)]
mod shapes;
#[cfg(test)]
mod stream_calls;
#[cfg(test)]
mod tokens;
#[cfg(test)]
mod trees;
#[cfg(test)]
mod typing;
#[cfg(test)]
mod values;
#[cfg(test)]
mod working;
