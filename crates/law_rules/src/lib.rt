//! The laws of networks: their two sides, that both of each do the same, and how one is applied.
//!
//!     let right = apply_law(alloc, law, Direction::Forward, &net, None, olds)?;
//!
//! The laws are `NetworkLaw`, in words that are read aloud; `apply_law` answers exactly what the
//! law allows, forward and backward. Both sides of a law output the same where they are typed
//! alike in one scope (`side_laws`), whatever they are put into (`answer_laws`).
//!
//! First `specs/NetworkLaw`, then `src/table.rt`, the laws as data, and `src/apply.rt`; proofs
//! stand by topic in `proofs/`.
#![tactic(auto)]

mod apply;
mod collections;
mod laws;
mod parts;
mod table;

pub use apply::apply_law;
pub use laws::{answer_laws, side_laws};
