//! Worked rows of networks, their types and positions, of laws and certificates, and of what networks
//! that run keep.
//!
//!     yampa 1 input Int (>>> (arr (add x 1)) (iPre 0)) => Int -> Int weight 3 height 2
//!
//! A file has the tables of one topic, and what tells; a `Probe` names it. Short forms are those of
//! `row_texts`. What begins with `scant` leaves the calls little memory, or none.
//!
//! First `src/found.rt`, then `src/network_types.rt`. `run_rows` takes `typed::network` from here.
#![tactic(auto)]

#[cfg(test)]
mod beginnings;
#[cfg(test)]
mod built;
#[cfg(test)]
mod certificates;
#[cfg(test)]
mod checks;
#[cfg(test)]
mod forms;
#[cfg(test)]
mod found;
#[cfg(test)]
mod freezing;
#[cfg(test)]
mod laws;
#[cfg(test)]
mod needs;
#[cfg(test)]
mod network_types;
#[cfg(test)]
mod networks;
#[cfg(test)]
mod optimised;
#[cfg(test)]
mod places;
#[cfg(test)]
mod scant_networks;
#[cfg(test)]
mod selecting;
pub mod typed;
