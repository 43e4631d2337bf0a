//! The checker of certificates: whether steps, each by a law at a position, lead from a network to
//! another. What is accepted outputs the same on every stream.
//!
//!     let accepted = check(alloc, &source, &target, &steps)?;
//!
//! `check` accepts if and only if the steps derive the target (`Derives`): at most 10,000 steps,
//! each of which puts a law's answer in place of a tree (`Next`), lead to just its network. Then
//! both have the same types and output the same (`derivation_laws`). Else it answers the first
//! fault, with its step (`CheckAnswer`).
//!
//! First `specs/Derives`, then `src/derivation.rt`.
#![tactic(auto)]

mod answer;
mod derivation;
mod laws;
mod step;

pub use answer::{Accepted, CheckFault};
pub use derivation::{MOST_STEPS, apply_steps, check};
pub use laws::{applied_laws, derivation_laws, limit_laws, one_answer_laws};
pub use step::{answer_at, place_in, take_step};
