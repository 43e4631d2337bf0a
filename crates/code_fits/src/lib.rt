//! What the code of a network works on, and that it fits: the types of values, what is kept, and the
//! greatest lengths of lists.
//!
//!     let program = program_of(alloc, &typed, most)?;
//!
//! A function of the code has a `Layout`. Where each fits its own by the rules of `specs/Rules`, one a
//! form of network, all that stands at a place while the code runs fits that place (`fit_laws`).
//!
//! First `src/layout.rt`, then `specs/Rules`, and `specs/Standing`, what stands at places;
//! `src/walk.rt` finds the layouts, `src/program.rt` what is too large by `specs/Sizes`.
#![tactic(auto)]

mod around;
mod bounds;
mod bytes;
mod fitting;
mod laws;
mod layout;
mod leaves;
mod program;
mod rules;
mod types;
mod walk;

pub use laws::fit_laws;
pub use layout::{Layout, Program};
pub use program::{MOST_STATE, Refused, program_of};
pub use types::{TypeEntry, Types};
pub use walk::Unlaid;
