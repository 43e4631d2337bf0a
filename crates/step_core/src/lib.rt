//! Running a network sample by sample, over a table of stored closures.
//!
//!     let bound = bind(alloc, &typed, &table)?;
//!     let mut runner = Runner::new(alloc, &bound, &table);
//!     let output = runner.push(dt, &sample)?;
//!
//! `push` answers the next value of the network's stream meaning, across every switch and every
//! network that is resumed, and the runner then stands for one sample more (`Pushes`); one that
//! fails to allocate leaves it as it was. `last_visits` counts the nodes that the sample visited,
//! at most the network's weight.
//!
//! First `specs/RunnerState`, then `src/runner.rt`; the walk over all forms is `src/flow.rt`, what
//! runs at a place `src/run.rt`.
#![tactic(auto)]

mod binding;
mod bound;
mod cells;
mod choice;
mod collection;
mod fault;
mod fire;
mod flow;
mod laws;
mod lowering;
mod on;
mod part;
mod rows;
mod run;
mod runner;

pub use binding::{bind, bind_needs};
pub use bound::Bound;
pub use fault::BindFault;
pub use laws::{binding_laws, scope_laws, visit_examples, visit_laws};
pub use runner::Runner;
