//! The optimiser: a network rewritten by laws alone, with the steps that lead to it.
//!
//!     let (net, steps) = optimise(alloc, &source)?;
//!
//! The steps derive the answer from the source (`Optimised`), each forward and by one of the
//! listed laws, at most 1,000; where there are fewer, no such step at any position leads on from
//! there (`NoneLeft`). Each step is the first of the walk: none leads on at a position before its
//! own, nor there by a law tried before its own. That the answer is faster isn't promised.
//!
//! First `specs/Optimising`, which lists the laws in their order, then `src/optimiser.rt`.
#![tactic(auto)]

mod laws;
mod nesting;
mod optimiser;
mod search;
mod step;
mod walk;

pub use laws::{limit_laws, optimised_laws};
pub use optimiser::optimise;
